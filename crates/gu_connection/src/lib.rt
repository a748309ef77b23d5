//! One connection, and the turns that a worker takes with it.
//!
//! - A `Connection` is its session, the bytes that came of it, and what it is to be sent.
//! - A `Worker` reads, takes the messages that have come whole through the session, asks the desk
//!   for what they call for, and puts what comes of them behind what the connection is to be sent.
//! - A reading of reports begins at the entry up to which the connection's readings have looked,
//!   and tells what one above the last report that was sent would tell.
//! - They begin with the first, or where the firm asks for it above a number of the book that it
//!   names; where there is no such beginning a Logout says why.
//! - A turn of `keep` ends after 64 messages, or where its span is over; no turn of `serve`, which
//!   has none, ends so.
//! - A connection that has no accepted Logon in time is ended, and a firm that is behind has its
//!   next reports at once.
//! - A session's timers go by a clock that doesn't jump. Where the wall clock has left it by more
//!   than a minute the session ends.
//! - What `serve` and `keep` begin with is here too, and which faults of accept they outlive.
#![tactic(auto)]

mod accepting;
mod beginning;
mod connection;
mod lingering;
mod look;
mod opening;
mod span;
mod steady;
mod worker;

pub use accepting::{AfterFault, Faults, after_fault};
pub use beginning::{Beginning, NoBeginning, asked};
pub use connection::{Closed, Connection};
pub use lingering::{linger_wait, read_away, stays, takes_nothing};
pub use opening::{LOGON_WAIT, Open, listening, new_key, prepare};
pub use span::{Span, micros_between};
pub use steady::SteadyClock;
pub use worker::{Left, Worker, expire};
