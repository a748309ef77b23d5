//! `keep`: a server whose book is kept in a journal, with many connections.
//!
//! - A connection is a stranger until its first byte, which takes little memory.
//! - Each worker polls its own connections and gives each that is ready a turn, which ends; the
//!   connections of a firm share the time of one turn in a round. A worker that serves nobody else
//!   records what was answered, and asks for the other machines' word, or else a thread of the
//!   journal, so that a slow group keeps nobody from the other connections.
//! - Once a group is kept the workers are woken that have connections of a firm that it concerns,
//!   and these connections have a turn.
//! - The watch ends a server of which a part stands still, also in its start. It shuts the listener
//!   and the sessions first, so that a process that can't end holds no port and no firm.
//! - The pages of `--status` are answered on threads of their own, many at a time.
//! - Where there is an archive each frame that came stands in it before it is looked at, and each
//!   that is sent before it goes out. A folder that can't be written to ends the server.
//! - The totals are written when all connections have ended, and then the log says that the program
//!   ends.
#![tactic(auto)]

mod accepting;
mod archiving;
mod bells;
mod client;
mod clients;
mod keeper;
mod lingering;
mod news;
mod pages;
mod running;
mod said;
mod scribe;
mod shares;
mod shutter;
mod starting;
mod stepping;
mod stranger;
mod threads;
mod visit;
mod watch;
mod words;

pub use watch::keep_watched;
