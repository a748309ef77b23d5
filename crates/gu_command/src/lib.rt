//! The command line of the program, what it asks for, and why a run ended otherwise than well.
//!
//! - `command_line` reads the words after the program's name into a `Line`.
//! - A `Fault` says in one line why the program ended otherwise than well, and with which status.
#![tactic(auto)]

mod copies;
mod errors;
mod fault;
mod line;
mod naming;
mod options;
mod order;
mod statement;

pub use copies::{Extension, Look, Rolling};
pub use errors::{KeepError, RecordError, ServeError, ServiceError};
pub use fault::{Fault, fault_at};
pub use line::{Line, MOST_WORKERS, command_line, unread_words};
pub use naming::NamedBook;
pub use options::{KeepOptions, StatusAt};
pub use order::Order;
pub use statement::Stating;
