//! The archive of what was said: each frame that came in on a connection, and each that went out.
//!
//! - It is a folder with a file for each hour (UTC), `YYYYMMDD-HH.log`, a line a frame:
//!   `20260302-09:00:00.123456 17 IN : 8=FIXT.1.1..`, the connection's number behind the moment. A
//!   connection's first line is `OPEN` with its peer, its last `CLOSE` with the cause.
//! - A whole frame without a line end stands as it is; all else is written in hex, behind ` hex`.
//! - `Archive::hears` is called before what came is looked at, `Archive::says` before bytes go out:
//!   when they give back Ok the lines are the system's, so that a program that is killed loses
//!   none. `Archive::sync` brings them to the disk.
//! - Each worker has an `Archive` of its own; all append to one file, each a write of whole lines.
//! - `Hours` opens their files before each hour, on a thread that may open files. Where the clock
//!   is set ahead, lines go for a second to the file that was open.
#![tactic(auto)]

mod archive;
mod error;
mod hour;
mod hours;
mod lines;
mod tap;

pub use archive::Archive;
pub use error::ArchiveError;
pub use hours::Hours;
pub use tap::Tap;
