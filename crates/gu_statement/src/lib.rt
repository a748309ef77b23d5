//! The statement of a book as JSON Lines, for its house or for one firm, which sees what concerns
//! it and nothing else; and the law that no report shows a firm more.
//!
//! - `run_statement` reads a stream as a batch does, and writes the statement of the book behind
//!   it. `write_statement` writes that of any book with its times and the calls that came to
//!   nothing.
//! - A statement is written in pieces of 64 kB, so after `Write` and `Memory` a front of it has
//!   been. Where the stream ends badly nothing has.
//! - `specs/Sight.antt` and `specs/Lines.antt` define what a firm may see and what the lines say.
//! - `nothing_else_is_told` is the law of reports.
#![tactic(auto)]

mod branches;
mod control;
mod entries;
mod entry_text;
mod heard;
mod hearing;
mod laws;
mod lines;
mod node_text;
mod nodes;
mod pieces;
mod refused_text;
mod sheet;
mod sight;
mod statement;
mod text;
mod total_text;
mod totals;
mod waiting;
mod waiting_text;
mod words;

pub use heard::{Cause, MOST_REFUSED, Moment, RefusedCall, RefusedCalls, Times};
pub use hearing::{Heard, hear};
pub use laws::nothing_else_is_told;
pub use statement::{StatementError, run_statement, write_statement};
