//! What stands in the place of a journal, and beside it.

ghost use Rattle.std.specs.Prelude.{◌≡◌, ◌↔◌, ◌⊎◌, IsTrue, IfOk, IfSome};
ghost use Rattle.gu_recorder.specs.Standing.{HasByte};
ghost use Rattle.gu_recorder.specs.declared.standing.Found.TheVariants.{Nothing};

use gu_journal::OpenError;
use std::fs::File;
use std::io::ErrorKind;
use std::os::unix::fs::FileExt;
use std::{fs, io};
use thiserror::Error;

/// Why no journal is opened at a path, nor begun.
#[derive(Clone, Copy, Debug, Error)]
pub(crate) enum PlaceError {
    /// No byte of the file counts.
    #[error("the journal is empty: remove it to begin a book")]
    Empty,
    /// A link stands at the path that leads to no file.
    #[error("the journal is a link to nothing")]
    NoTarget,
    /// What stands beside the path, under its name and `-wal`, is no regular file.
    #[error("what stands beside the journal, under its name and -wal, is no regular file")]
    BesideLog,
    /// What stands beside the path, under its name and `-new`, is nothing that a start left.
    #[error("what stands beside the journal, under its name and -new, is no journal just begun")]
    BesideNew,
    /// It isn't opened, as the journal says.
    #[error("{0}")]
    Open(OpenError),
}

impl From<io::Error> for PlaceError {
    fn from(error: io::Error) -> PlaceError {
        match error.kind() {
            ErrorKind::OutOfMemory => PlaceError::Open(OpenError::Memory),
            _ => PlaceError::Open(OpenError::Io(error)),
        }
    }
}

/// What stands at a path.
#[derive(Clone, Copy)]
pub(crate) enum Found {
    /// Nothing.
    Nothing,
    /// A link that leads to nothing.
    Link,
    /// What is no regular file.
    Other,
    /// A regular file, with its first byte, if it has one.
    File(Option<u8>),
}

/// The byte of a file at a place, if it has as many.
pub(crate) fn byte_at(rt: &HostRuntime, path: &str, at: u64) -> io::Result<Option<u8>> {
    let mut byte = [0u8];
    match File::open(rt, path)?.read_at(&mut byte, at)? {
        0 => Ok(None),
        _ => Ok(Some(byte[0])),
    }
}

/// What stands at a path now, or where a link leads that stands there.
fn found_at(rt: &HostRuntime, path: &str) -> io::Result<Found> {
    match fs::metadata(rt, path) {
        Ok(found) if found.is_file() => Ok(Found::File(byte_at(rt, path, 0)?)),
        Ok(_) => Ok(Found::Other),
        Err(error) if error.kind() == ErrorKind::NotFound => {
            if fs::symlink_metadata(rt, path).is_ok() {
                Ok(Found::Link)
            } else {
                Ok(Found::Nothing)
            }
        }
        Err(error) => Err(error),
    }
}

/// Whether a book is begun where this was found. A file that is opened has a byte that counts: its
/// first, since bytes count up to the first zero.
///
/// # Errors
///
/// A file in which nothing counts, a link to nothing and what is no regular file are refused.
fn is_free(found: Found) -> Result<bool, PlaceError>
    ensures begun { IfOk result (λ is_free. IsTrue is_free ↔ (found ≡ Nothing)) }
    ensures counts { IfOk result (λ _. HasByte found) }
{
    match found {
        Found::Nothing => Ok(true),
        Found::Link => Err(PlaceError::NoTarget),
        Found::Other => Err(PlaceError::Open(OpenError::NoFile)),
        Found::File(None | Some(0)) => Err(PlaceError::Empty),
        Found::File(Some(_)) => Ok(false),
    }
}

/// Whether a file may be what a start left that was killed while it began a journal: its first byte
/// is one of a journal or none that counts, and behind the longest head nothing counts, so that it
/// has no entry.
pub(crate) fn is_left(first: Option<u8>, behind: Option<u8>) -> bool
    ensures { IsTrue result ↔
        (IfSome first (λ b. (b ≡ 0) ⊎ (b ≡ 56)) × IfSome behind (λ b. b ≡ 0)) }
{
    matches!(first, None | Some(0 | b'8')) && matches!(behind, None | Some(0))
}

/// Whether a regular file or nothing stands at a path, and no link.
pub(crate) fn is_plain(rt: &HostRuntime, path: &str) -> io::Result<bool> {
    match fs::symlink_metadata(rt, path) {
        Ok(found) => Ok(found.is_file()),
        Err(error) if error.kind() == ErrorKind::NotFound => Ok(true),
        Err(error) => Err(error),
    }
}

/// The path of what stands beside a file, under its name and this ending.
pub(crate) fn beside(rt: &HostRuntime, path: &str, ending: &str) -> io::Result<String> {
    Ok(format!(in rt.alloc(); "{path}{ending}")?)
}

/// Looks that nothing stands beside a journal, under its name and `-wal`, but a file or nothing.
fn look_beside(rt: &HostRuntime, path: &str) -> Result<(), PlaceError> {
    if is_plain(rt, beside(rt, path, "-wal")?.as_str())? {
        Ok(())
    } else {
        Err(PlaceError::BesideLog)
    }
}

/// Looks that no rollback journal of a database stands beside the place of a journal.
fn look_for_database(rt: &HostRuntime, path: &str) -> Result<(), PlaceError> {
    match found_at(rt, beside(rt, path, "-journal")?.as_str())? {
        Found::Nothing | Found::File(None | Some(0)) => Ok(()),
        _ => Err(PlaceError::Open(OpenError::Database)),
    }
}

/// Looks at the place of a journal and beside it: whether nothing stands there, so that a book is
/// begun.
///
/// # Errors
///
/// As `PlaceError` says.
pub(crate) fn look(rt: &HostRuntime, path: &str) -> Result<bool, PlaceError> {
    if is_free(found_at(rt, path)?)? {
        look_beside(rt, path)?;
        look_for_database(rt, path)?;
        return Ok(true);
    }
    look_beside(rt, fs::canonicalize(rt, path)?.as_str())?;
    Ok(false)
}
