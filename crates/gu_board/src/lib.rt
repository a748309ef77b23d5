//! What an operator is told of a server: what the threads count, and what is said of it on standard
//! error.
//!
//! - The `Board` has a cell of counts for each worker; `gu_status` makes pages of it.
//! - The `Tallies` count what each firm has, for the limits that an operator sets.
//! - The `Instructions` are what an operator has said while it runs.
//! - A line of the log is written without waiting for a reader.
//! - The `Teller` tells how far a recovery is; `VERSION` and `commit` say which program it is.
#![tactic(auto)]

mod board;
mod cell;
mod instructions;
mod log;
mod pace;
mod saying;
mod tallies;
mod telling;
mod times;
mod version;

pub use board::{Board, number, text};
pub use cell::Work;
pub use instructions::{Instructions, heed};
pub use log::{Log, Written};
pub use pace::Pace;
pub use saying::{say_lack, say_started};
pub use tallies::{Tallies, parts_in};
pub use telling::Teller;
pub use version::{VERSION, commit};
