//! Why a server ended, each kind for itself.

use std::io;
use thiserror::Error;

/// Why a server ended before it had served all its connections. The book is gone.
#[derive(Clone, Copy, Debug, PartialEq, Eq, Error)]
pub enum ServeError {
    /// A connection couldn't be accepted.
    #[error("accept failed")]
    Accept,
    /// A worker couldn't be started.
    #[error("cannot start worker")]
    NoThread,
    /// Memory ran out.
    #[error("out of memory")]
    Memory,
}

/// Why a server has no book in the end.
#[derive(Clone, Copy, Debug, PartialEq, Eq, Error)]
pub enum ServiceError {
    /// The port can't be listened on.
    #[error("cannot listen")]
    Listen,
    /// The server ended before all its connections did.
    #[error("{0}")]
    Serve(ServeError),
}

/// Why entries weren't recorded. The journal takes no more then, but for `Memory`.
#[derive(Clone, Copy, Debug, Error)]
pub enum RecordError {
    /// Memory ran out.
    #[error("out of memory")]
    Memory,
    /// It has as many entries as one may have.
    #[error("the journal is full")]
    Full,
    /// An entry is one that no message can say.
    #[error("an entry that no message can say")]
    Unsaid,
    /// The program that puts the journal on other machines didn't answer that they have it.
    #[error("the other machines don't have it")]
    Replica,
    /// That program gave no word, in time, that the server may go on.
    #[error("no word came from the other machines")]
    Silent,
    /// The journal's path leads to another file or to none, or the file has become shorter.
    #[error("moved, or cut")]
    Gone,
    /// The disk has no room for a group, so that nobody is let in.
    #[error("no room for a group")]
    NoRoom,
    /// The file can't be written or synced.
    #[error("cannot write: {0}")]
    Disk(io::Error),
}

/// Why a server ended before all its connections did.
#[derive(Clone, Copy, Debug, Error)]
pub enum KeepError {
    /// The port can't be listened on.
    #[error("cannot listen")]
    Listen,
    /// A connection couldn't be accepted.
    #[error("accept failed")]
    Accept,
    /// A worker couldn't be started.
    #[error("cannot start worker")]
    NoThread,
    /// The system's poll failed.
    #[error("cannot poll")]
    Poll,
    /// The clock can't be read.
    #[error("cannot read the clock")]
    Clock,
    /// Memory ran out.
    #[error("out of memory")]
    Memory,
    /// What was answered couldn't be recorded.
    #[error("{0}")]
    Record(RecordError),
    /// The status can't be told where it is to be.
    #[error("cannot listen for status")]
    Status,
    /// A part of the server stood still.
    #[error("a part of the server stood still")]
    Stuck,
    /// A frame couldn't be put into the archive.
    #[error("cannot write the archive: {0}")]
    Archive(io::Error),
    /// Another worker found the journal failed.
    #[error("the journal has failed")]
    Failed,
}
