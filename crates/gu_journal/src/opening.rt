//! A journal's file, by its path.

ghost use Rattle.std.specs.Prelude.{IsTrue, IfOk, false};
ghost use Rattle.sqlite_disk.specs.Disk.{Only};
ghost use Rattle.sqlite_std_file.specs.File.{file_is_usable, IsFresh};

use sqlite_disk::{Disk, Files};
use sqlite_std_file::{FileFrom, OpenError as PairError, Start, open};
use std::io::ErrorKind;
use std::os::unix::fs::MetadataExt;
use std::{fs, io};
use thiserror::Error;

/// Why the file of a journal isn't opened.
#[derive(Clone, Copy, Debug, Error)]
pub enum OpenError {
    /// Memory ran out.
    #[error("out of memory")]
    Memory,
    /// The file is open already, in this process or another, under this name or by a link.
    #[error("the journal is in use")]
    InUse,
    /// The file has a second name, so that it could be changed by that.
    #[error("the journal has a second name (a hard link)")]
    SecondName,
    /// What stands at the path is no regular file.
    #[error("the journal is no regular file")]
    NoFile,
    /// A rollback journal of a database stands beside the path, under its name and `-journal`.
    #[error("a rollback journal of a database stands beside the journal")]
    Database,
    /// The system failed.
    #[error("the journal can't be opened: {0}")]
    Io(io::Error),
}

/// What the system's refusal of a file that it can't take says.
fn refused(rt: &HostRuntime, path: &str, error: io::Error) -> OpenError {
    if error.kind() != ErrorKind::Unsupported {
        return OpenError::Io(error);
    }
    match fs::metadata(rt, path) {
        Ok(found) if !found.is_file() => OpenError::NoFile,
        Ok(found) if found.nlink() > 1 => OpenError::SecondName,
        _ => OpenError::Io(error),
    }
}

/// Whether something else than a regular file stands at a path: what would wait for a peer, say.
fn is_no_file(rt: &HostRuntime, path: &str) -> bool {
    match fs::metadata(rt, path) {
        Ok(found) => !found.is_file(),
        Err(_) => false,
    }
}

/// Takes away the empty file that was made for a database's log beside a file.
fn remove_log<S: Start>(rt: &HostRuntime, path: &str, log: FileFrom<S>) -> io::Result<()>
    requires { IsTrue (file_is_usable S.Start log) }
{
    let mut log = log;
    if log.len()? == 0 {
        let real = fs::canonicalize(rt, path)?;
        let name = format!(in rt.alloc(); "{}-wal", real.as_str())?;
        fs::remove_file(rt, name.as_str())?;
    }
    Ok(())
}

/// Opens the file of a journal, or makes it, and locks it until it is dropped. The lock is on the
/// file itself, so it holds under each of its names. `S` says what is supposed of a crash.
///
/// # Errors
///
/// A file that is open already, has a second name or is no regular file is refused.
pub fn open_file<S: Start>(rt: &HostRuntime, path: &str, start: S) -> Result<FileFrom<S>, OpenError>
    ensures usable { IfOk result (λ file. IsTrue (file_is_usable S.Start file)) }
    ensures fresh { IfOk result (λ file. IsFresh false file) }
    ensures durable { IfOk result (λ file. Only (⟦<FileFrom<S> as Disk>⟧.seen file)
        (⟦<FileFrom<S> as Disk>⟧.may_leave file)) }
{
    if is_no_file(rt, path) {
        return Err(OpenError::NoFile);
    }
    match open(rt, path, start) {
        Ok(Files { db, log }) => {
            let _ = remove_log(rt, path, log);
            Ok(db)
        }
        Err(PairError::OutOfMemory) => Err(OpenError::Memory),
        Err(PairError::Busy) => Err(OpenError::InUse),
        Err(PairError::HotJournal) => Err(OpenError::Database),
        Err(PairError::Io(error)) => Err(refused(rt, path, error)),
    }
}
