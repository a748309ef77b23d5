//! The base of the service: names, numbers, commands, refusals, entries and answers, and the
//! definitions of the book.
//!
//! - A name is made exactly where its text is lawful, a number exactly where it is in its range;
//!   both are `Copy` and take no memory.
//! - `==` on commands is equality of values, and a copy of a command equals it.
//! - `Refusal::number` and `Refusal::text` are the table of refusals, byte for byte.
//! - `specs/` has the model of the book, on which every other crate is proved: the house table,
//!   histories and their live changes, nodes, places, positions, terms, fees, refusals, what stands
//!   on what, consents, the answer to a call, runs, the rows of a tree and lawful orders. They are
//!   filters, sums and a replay over flat lists.
//! - `proofs/Worked.antt` computes small worked histories by these definitions, so that a change of
//!   a definition that breaks one of them breaks the build.
//! - Its cases are data of the program `test_messages`.
#![tactic(auto)]

mod cells;
mod command;
mod entry;
mod firms;
mod house;
mod memory;
mod names;
mod node;
mod numbers;
mod refusal;
mod report;
mod state;

pub use command::{Command, Part, Parts, Side};
pub use entry::{Answer, Entry, Record};
pub use house::{Account, Agreement, Dealing, Deed, Pair};
pub use memory::Memory;
pub use names::{AccountId, AllocId, FirmId, InstrumentId};
pub use node::{Charge, Deal, Kind, Node, Place};
pub use numbers::{Lots, NodeName, Number, Rate};
pub use refusal::Refusal;
pub use report::{Report, ReportPart, ReportParts, Target};
pub use state::State;
