//! Why entries weren't kept.

ghost use Rattle.std.specs.Prelude.{◌≡◌};
ghost use Rattle.gu_journal.specs.declared.error.JournalError.TheVariants as error;

use std::alloc::AllocError;
use std::io;
use thiserror::Error;

/// Why entries weren't kept. Of all but `Disk` nothing was asked of the disk, and the journal is as
/// it was.
#[derive(Clone, Copy, Debug, Error)]
pub enum JournalError {
    /// Memory ran out.
    #[error("out of memory")]
    Memory,
    /// The history has no room for the entries, or the file none for the group.
    #[error("journal full")]
    Full,
    /// No message can say the entry that was to have this number.
    #[error("entry {entry} can't be written as a message")]
    Unsayable { entry: u32 },
    /// The moment isn't a timestamp of 1 to 24 bytes.
    #[error("bad moment")]
    Moment,
    /// The disk failed. The journal has to be recovered.
    #[error("disk failed: {0}")]
    Disk(io::Error),
}

impl From<AllocError> for JournalError {
    ghost from_gives = { λ _ e. e ≡ error.Memory };

    fn from(_: AllocError) -> JournalError {
        JournalError::Memory
    }
}

impl From<io::Error> for JournalError {
    ghost from_gives = { λ x e. e ≡ error.Disk x };

    fn from(error: io::Error) -> JournalError {
        JournalError::Disk(error)
    }
}
