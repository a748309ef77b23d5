//! Why a line of words wasn't done.

use gu_base::Memory;
use gu_journal::{JournalError, OpenError, RecoverError};
use std::alloc::AllocFailed;
use std::io;
use thiserror::Error;

/// Why a line of words wasn't done.
#[derive(Clone, Copy, Debug, Error)]
pub(crate) enum Fault {
    #[error("{0}")]
    Open(OpenError),
    #[error("{0}")]
    Recover(RecoverError),
    #[error("{0}")]
    Journal(JournalError),
    #[error("{0}")]
    Io(io::Error),
    #[error("out of memory")]
    Memory,
    /// What isn't as it has to be, in words.
    #[error("{0}")]
    Other(&'static str),
}

impl From<OpenError> for Fault {
    fn from(error: OpenError) -> Fault {
        Fault::Open(error)
    }
}

impl From<JournalError> for Fault {
    fn from(error: JournalError) -> Fault {
        Fault::Journal(error)
    }
}

impl From<io::Error> for Fault {
    fn from(error: io::Error) -> Fault {
        Fault::Io(error)
    }
}

impl From<Memory> for Fault {
    fn from(_: Memory) -> Fault {
        Fault::Memory
    }
}

impl<T: Drop> From<AllocFailed<T>> for Fault {
    fn from(_: AllocFailed<T>) -> Fault {
        Fault::Memory
    }
}
