//! An accepted command, and the book's answers.
use crate::command::Command;
use crate::names::{AllocId, FirmId};
use crate::numbers::Number;
use crate::refusal::Refusal;
use crate::state::State;

/// An accepted command as the history keeps it. Its number is its place in the history, counted
/// from 1.
///
/// Fields lie in the order of the source. The names lie at any address, so the status takes a byte
/// of what is left before the next multiple of eight, where the command begins; behind the command
/// it would take eight more.
#[derive(Drop)]
pub struct Entry {
    pub firm: FirmId,
    pub id: AllocId,
    pub status: State,
    pub command: Command,
}

/// An entry with its number, as the definitions' lists of changes hold it, from which some entries
/// were left out. No code makes one.
#[derive(Drop)]
pub struct Record {
    pub number: Number,
    pub firm: FirmId,
    pub id: AllocId,
    pub status: State,
    pub command: Command,
}

/// What the book answers to a call.
#[derive(Clone, Copy, PartialEq, Eq)]
pub enum Answer {
    /// The command stands in the history as this entry, with this status.
    Accepted { number: Number, status: State },
    /// The same firm has made the same call before, and this is what was answered then.
    Repeated { number: Number, status: State },
    /// Nothing has changed.
    Refused(Refusal),
}
