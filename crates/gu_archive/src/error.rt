//! Why something isn't in the archive.

use gu_base::Memory;
use std::alloc::AllocFailed;
use std::io;
use thiserror::Error;

/// Why something isn't in the archive.
#[derive(Clone, Copy, Debug, Error)]
pub enum ArchiveError {
    /// Memory ran out. Nothing was written.
    #[error("out of memory")]
    Memory,
    /// The clock can't be read. Nothing was written.
    #[error("cannot read the clock")]
    Clock,
    /// A file of the archive can't be opened, written or synced. A front of the last lines may
    /// stand there.
    #[error("cannot write: {0}")]
    Disk(io::Error),
}

impl From<Memory> for ArchiveError {
    fn from(_error: Memory) -> ArchiveError {
        ArchiveError::Memory
    }
}

impl<T: Drop> From<AllocFailed<T>> for ArchiveError {
    fn from(_error: AllocFailed<T>) -> ArchiveError {
        ArchiveError::Memory
    }
}

impl From<io::Error> for ArchiveError {
    fn from(error: io::Error) -> ArchiveError {
        ArchiveError::Disk(error)
    }
}
