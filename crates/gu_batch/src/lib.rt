//! The batch and the trace, from bytes to bytes, over any reader and writer.
//!
//! - `run_batch` reads a stream to its end and writes the output of that stream, byte for byte:
//!   along its messages, the texts of their answers, numbered from 1. The book begins behind the
//!   opening calls of its house. A run ends well only where the stream ends cleanly.
//! - A fault of the stream is named with its offset, after the answers to all messages before it.
//!   Where the reader fails, the output of what was read was written; where the writer fails, a
//!   part of it from the front; where memory runs out, the answers to the first messages.
//! - `run_trace` reads a stream in the same way, throws the answers away, and then writes the trace
//!   of a trade, if one is asked for, and the totals, over the history of the stream's messages.
//!   Where anything but the writer fails it has written nothing. `write_totals` writes the totals
//!   of any book.
//! - A stream is read no further than its feed has room for, by at most 16,777,216 reads.
//! - The output of a stream is a function of its bytes (`specs/Output.antt`). It is itself a stream
//!   of messages, and read back these are the answers, each with exactly its fields (`laws.rt`).
//!
//! Its cases are data: whole streams and what comes of them of the program `test_program`.
#![tactic(auto)]

mod answering;
mod batch;
mod held;
pub mod laws;
mod streams;
mod tracing;

pub use batch::{RunError, run_batch};
pub use streams::{Counted, Sink, Source};
pub use tracing::{run_trace, write_totals};
