//! Journals and their copies in the files of the system.

ghost use Rattle.std.specs.Prelude.{IsTrue, IfErr};
ghost use Rattle.gu_command.specs.Faults.{is_keep_fault};

use crate::draft::{Draft, SyncedDraft};
use crate::error::{CopyError, ReadError, RetireError};
use crate::reading::read_still;
use gu_command::{Fault, KeepError, fault_at};
use gu_journal::{OpenError, open_file};
use sqlite_std_file::{FileFrom, Unknown};
use std::alloc::{AllocError, Global};
use std::fs::{File, OpenFile, OpenOptions};
use std::io::ErrorKind;
use std::os::unix::fs::OpenOptionsExt;
use std::rt::Files;
use std::{fs, io};

/// What is said where a journal's file can't be read.
fn unread(alloc: Global, path: &str, error: io::Error) -> Fault
    ensures { IsTrue (is_keep_fault result) }
{
    match error.kind() {
        ErrorKind::OutOfMemory => Fault::Keep(KeepError::Memory),
        _ => fault_at(alloc, path, OpenError::Io(error)),
    }
}

/// The bytes of the journal at a path, as `JournalFiles` says.
///
/// # Errors
///
/// Those of `JournalFiles::read_journal`.
pub fn read_file<R: Files>(rt: &R, alloc: Global, path: &str) -> Result<Vec<u8>, Fault>
    ensures { IfErr result (λ e. IsTrue (is_keep_fault e)) }
{
    match fs::metadata(rt, path) {
        Ok(found) if !found.is_file() => return Err(fault_at(alloc, path, OpenError::NoFile)),
        Ok(_) => {}
        Err(error) => return Err(unread(alloc, path, error)),
    }
    let mut file = match File::open(rt, path) {
        Ok(file) => file,
        Err(error) => return Err(unread(alloc, path, error)),
    };
    match read_still(alloc, &mut file) {
        Ok(text) => match text.first().copied() {
            None | Some(0) => Err(fault_at(alloc, path, ReadError::Empty)),
            Some(_) => Ok(text),
        },
        Err(error) => Err(unread(alloc, path, error)),
    }
}

/// Where a copy lies until it has its name.
fn beside(alloc: Global, to: &str) -> Result<String, AllocError> {
    format!(in alloc; "{to}.part")
}

/// Whether nothing stands at a path.
fn is_free<R: Files>(rt: &R, path: &str) -> bool {
    match fs::symlink_metadata(rt, path) {
        Ok(_) => false,
        Err(error) => error.kind() == ErrorKind::NotFound,
    }
}

/// Makes the file at a path, which only its owner may read.
fn made<R: Files>(rt: &R, path: &str) -> Result<R::File, CopyError> {
    let mut how = OpenOptions::new();
    how.write(true).create_new(true).mode(0o600);
    match how.open(rt, path) {
        Ok(file) => Ok(file),
        Err(error) if error.kind() == ErrorKind::AlreadyExists => Err(CopyError::Taken),
        Err(error) => Err(CopyError::Write(error)),
    }
}

/// A new file without bytes beside a path, as `JournalFiles` says.
///
/// # Errors
///
/// Those of `JournalFiles::draft`.
pub fn draft_at<R: Files>(rt: &R, alloc: Global, to: &str) -> Result<Draft<R::File>, Fault>
    ensures { IfErr result (λ e. IsTrue (is_keep_fault e)) }
{
    let Ok(part) = beside(alloc, to) else {
        return Err(Fault::Keep(KeepError::Memory));
    };
    if !is_free(rt, to) {
        return Err(fault_at(alloc, to, CopyError::Taken));
    }
    match made(rt, part.as_str()) {
        Ok(file) => Ok(Draft::new(file, part)),
        Err(error) => Err(fault_at(alloc, part.as_str(), error)),
    }
}

/// The folder in which a path is.
fn folder_of(path: &str) -> &str {
    match path.rfind('/') {
        None => ".",
        Some(0) => "/",
        Some(at) => &path[..at],
    }
}

/// Gives a file a name that nothing has.
fn named<R: Files>(rt: &R, part: &str, to: &str) -> Result<(), CopyError> {
    if !is_free(rt, to) {
        return Err(CopyError::Taken);
    }
    match fs::rename(rt, part, to) {
        Ok(()) => Ok(()),
        Err(error) => Err(CopyError::Name(error)),
    }
}

/// Syncs the folder in which a path is.
fn sync_folder<R: Files>(rt: &R, path: &str) -> io::Result<()> {
    File::open(rt, folder_of(path))?.sync_all()
}

/// Gives a copy its name, as `JournalFiles` says.
///
/// # Errors
///
/// Those of `JournalFiles::name`.
pub fn name_draft<R: Files>(rt: &R, alloc: Global, copy: SyncedDraft, to: &str) -> Result<(), Fault>
    ensures { IfErr result (λ e. IsTrue (is_keep_fault e)) }
{
    match named(rt, copy.part.as_str(), to) {
        Ok(()) => {}
        Err(error) => {
            let _ = fs::remove_file(rt, copy.part.as_str());
            return Err(fault_at(alloc, to, error));
        }
    }
    match sync_folder(rt, to) {
        Ok(()) => Ok(()),
        Err(error) => Err(fault_at(alloc, to, CopyError::Folder(error))),
    }
}

/// Takes a copy away that isn't whole, as `JournalFiles` says.
pub fn discard_draft<R: Files>(rt: &R, alloc: Global, to: &str) {
    if let Ok(part) = beside(alloc, to) {
        let _ = fs::remove_file(rt, part.as_str());
    }
}

/// A journal's file that is locked, its name without links, and the one that it is to get.
#[derive(Drop)]
pub struct HeldJournal {
    file: FileFrom<Unknown>,
    name: String,
    before: String,
}

/// The name without links of a journal at a path, and the one that it is to get, which nothing has.
fn names_of(rt: &HostRuntime, alloc: Global, path: &str) -> Result<(String, String), Fault>
    ensures { IfErr result (λ e. IsTrue (is_keep_fault e)) }
{
    let real = match fs::canonicalize(rt, path) {
        Ok(real) => real,
        Err(error) => return Err(unread(alloc, path, error)),
    };
    let Ok(name) = String::from_str(alloc, real.as_str()) else {
        return Err(Fault::Keep(KeepError::Memory));
    };
    let Ok(before) = format!(in alloc; "{}.before", real.as_str()) else {
        return Err(Fault::Keep(KeepError::Memory));
    };
    if !is_free(rt, before.as_str()) {
        return Err(fault_at(alloc, before.as_str(), CopyError::Taken));
    }
    Ok((name, before))
}

/// Locks the journal at a path, as `JournalFiles` says.
///
/// # Errors
///
/// Those of `JournalFiles::hold`.
pub fn hold_file(rt: &HostRuntime, alloc: Global, path: &str) -> Result<HeldJournal, Fault>
    ensures { IfErr result (λ e. IsTrue (is_keep_fault e)) }
{
    let (name, before) = names_of(rt, alloc, path)?;
    match open_file(rt, name.as_str(), Unknown) {
        Ok(file) => Ok(HeldJournal { file, name, before }),
        Err(OpenError::Memory) => Err(Fault::Keep(KeepError::Memory)),
        Err(error) => Err(fault_at(alloc, path, error)),
    }
}

/// Gives a journal the name that it is to get.
fn renamed<R: Files>(rt: &R, name: &str, before: &str) -> Result<(), RetireError> {
    if !is_free(rt, before) {
        return Err(RetireError::Taken);
    }
    match fs::rename(rt, name, before) {
        Ok(()) => {}
        Err(error) => return Err(RetireError::Name(error)),
    }
    match sync_folder(rt, name) {
        Ok(()) => Ok(()),
        Err(error) => Err(RetireError::Folder(error)),
    }
}

/// Puts `.before` behind the name of a journal, as `JournalFiles` says.
///
/// # Errors
///
/// Those of `JournalFiles::retire`.
pub fn retire_file(
    rt: &HostRuntime,
    alloc: Global,
    held: HeldJournal,
    path: &str,
) -> Result<(), Fault>
    ensures { IfErr result (λ e. IsTrue (is_keep_fault e)) }
{
    let done = renamed(rt, held.name.as_str(), held.before.as_str());
    drop(held);
    match done {
        Ok(()) => Ok(()),
        Err(error) => Err(fault_at(alloc, path, error)),
    }
}
