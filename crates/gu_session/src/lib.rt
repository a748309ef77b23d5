//! The session of one connection: a pure machine over messages, ticks and replies.
//!
//! `Session::step` takes one event at one moment and answers what to do: bytes to send, a call for
//! the book, whether to close. It reads no clock and no socket, and an error leaves the session as
//! it was.
//! - Each step is exactly the table's, byte for byte: `specs/Table.antt` is the table, an equation
//!   a line, `specs/Steps.antt` what a step leaves and sends, `specs/Text.antt` its bytes.
//!   `docs/profile.md` states the same for people.
//! - Laws hold for every list of steps (`specs/Runs.antt`): numbers without gaps, calls that rise
//!   and are awaited, silence before the Logon and after the close, and resends that cover their
//!   span once with what was sent.
//! - What an operator is told of a step, and of a gap, is the table's too: `step_noted` and `gap`
//!   (`specs/Noting.antt`).
//! - No growth depends on a number that a peer names.
//! Its cases are data of the program `test_messages`.
#![tactic(auto)]

mod event;
mod kept;
pub mod laws;
mod line;
mod link;
mod noted;
mod replying;
mod session;
mod table;
mod verdict;
mod writing;

pub use event::{Actions, Event};
pub use gu_message::is_moment;
pub use noted::{Gap, Noted};
pub use replying::LAST_NUMBER;
pub use session::Session;
