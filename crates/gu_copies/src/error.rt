//! Why a journal can't be looked at, or a copy isn't made.

use gu_batch::RunError;
use gu_command::{Fault, KeepError, fault_at};
use gu_journal::RecoverError;
use std::alloc::Global;
use std::io;
use thiserror::Error;

/// Why it isn't told what a start would say of a journal.
#[derive(Debug, Drop)]
pub enum LookError {
    /// The journal can't be read, as this says.
    Unread(Fault),
    /// A start from its bytes would end with this.
    Refused(RecoverError),
    /// It has no such live trade, memory ran out, or the writer failed.
    Run(RunError),
}

impl LookError {
    ghost use Rattle.gu_copies.specs.Verified.{IsFaultOf};

    /// The fault that says it of the journal at a path.
    pub fn into_fault(self, alloc: Global, path: &str) -> Fault
        ensures { IsFaultOf self result }
    {
        match self {
            LookError::Unread(fault) => fault,
            LookError::Refused(RecoverError::Memory) => Fault::Keep(KeepError::Memory),
            LookError::Refused(error) => fault_at(alloc, path, error),
            LookError::Run(error) => Fault::Run(error),
        }
    }
}

/// Why what was read of a journal isn't looked at.
#[derive(Clone, Copy, Debug, Error)]
pub(crate) enum ReadError {
    /// No byte of it counts, as no start takes it.
    #[error("the journal is empty: remove it to begin a book")]
    Empty,
}

/// Why a copy isn't made.
#[derive(Clone, Copy, Debug, Error)]
pub(crate) enum CopyError {
    /// Something has the name that the copy is to have, at first or for good.
    #[error("something stands there already")]
    Taken,
    /// The file can't be made, or synced.
    #[error("cannot write: {0}")]
    Write(io::Error),
    /// It can't be given its name.
    #[error("cannot be named: {0}")]
    Name(io::Error),
    /// It has its name, but after a crash it may have none.
    #[error("its folder cannot be synced: {0}")]
    Folder(io::Error),
}

/// Why a journal in whose place another has come has its name still.
#[derive(Clone, Copy, Debug, Error)]
pub(crate) enum RetireError {
    /// Something has the name that it was to get since it was locked.
    #[error("the new journal is whole, but this one keeps its name: its .before stands there")]
    Taken,
    /// It can't be renamed.
    #[error("the new journal is whole, but this one keeps its name: {0}")]
    Name(io::Error),
    /// It is renamed, but after a crash it may have its name again.
    #[error("the new journal is whole, and this one renamed, but its folder cannot be synced: {0}")]
    Folder(io::Error),
}
