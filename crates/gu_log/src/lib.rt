//! What an operator is told: one line an event, in logfmt.
//!
//! - `line` makes the line of an event: when it was, what it is, and its fields, as `key=value`.
//! - A line is printable ASCII up to the line feed at its end, whatever a peer sent: a value with
//!   another byte, a space, a quote, `=` or a backslash stands in quotes, escaped.
//! - A reader of logfmt gets each key and each value back (`laws.rt`; the reader is a definition of
//!   its own, `specs/Reading.antt`). A value of more than `MOST_SHOWN` bytes is cut there.
//!
//! It takes memory and no handle: who writes lines, and where, is the caller's.
#![tactic(auto)]

mod event;
pub mod laws;
mod lines;
mod moment;
mod value;

pub use event::{Event, Key};
pub use lines::{Field, line};
pub use value::{MOST_SHOWN, Value};
