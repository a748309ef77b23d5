//! A journal is written anew under a house file that has more.

ghost use Rattle.std.specs.Prelude.{IsTrue, IfOk, IfErr, OnOk};
ghost use Rattle.gu_copies.specs.Extended.{IsWrittenAnew, IsExtension};
ghost use Rattle.gu_command.specs.Faults.{is_keep_fault};

use crate::backup::put;
use crate::files::JournalFiles;
use gu_book::HashKey;
use gu_command::{Extension, Fault, KeepError, fault_at};
use gu_journal::{JournalError, RecoverError};
use gu_roll::{ExtendError, Lack, PinnedHouse, RollError, extend};
use std::alloc::Global;

/// The fault that says what the new house file lacks.
fn lacking(alloc: Global, path: &str, lack: Lack) -> Fault
    ensures { IsTrue (is_keep_fault result) }
{
    fault_at(alloc, path, ExtendError::Lacks(lack))
}

/// The fault that says why a journal isn't extended, with the path of what is at fault.
fn unextended(alloc: Global, paths: &Extension, error: ExtendError) -> Fault
    ensures { IsTrue (is_keep_fault result) }
{
    match error {
        ExtendError::Lacks(lack) => lacking(alloc, paths.larger.as_str(), lack),
        ExtendError::Refused(RecoverError::Memory)
        | ExtendError::Unbegun(RecoverError::Memory)
        | ExtendError::Unwritten(JournalError::Memory) => Fault::Keep(KeepError::Memory),
        ExtendError::Refused(error) => fault_at(alloc, paths.journal.as_str(), error),
        ExtendError::Unbegun(error) => fault_at(alloc, paths.to.as_str(), error),
        ExtendError::Unwritten(error) => fault_at(alloc, paths.to.as_str(), error),
    }
}

/// The fault that says why a journal isn't rolled, with the path of what is at fault.
pub(crate) fn unrolled(alloc: Global, paths: &Extension, error: RollError) -> Fault
    ensures { IsTrue (is_keep_fault result) }
{
    match error {
        RollError::Extend(ExtendError::Lacks(lack)) => lacking(alloc, paths.larger.as_str(), lack),
        RollError::Extend(error) => unextended(alloc, paths, error),
        RollError::OtherOpening(_) => fault_at(alloc, paths.larger.as_str(), error),
        RollError::Unlike(_) => fault_at(alloc, paths.to.as_str(), error),
    }
}

/// The bytes of the journal that is to be written.
fn made<F: JournalFiles>(
    alloc: Global,
    files: &F,
    old: PinnedHouse,
    new: PinnedHouse,
    key: HashKey,
    paths: &Extension,
) -> Result<Vec<u8>, Fault>
    ensures extended { IfOk result (λ bytes. IsExtension old.house new.house old.pin.bytes
        new.pin.bytes (F.journal_at files.now paths.now.journal.bytes.items) bytes.items) }
    ensures fault { IfErr result (λ e. IsTrue (is_keep_fault e)) }
{
    let PinnedHouse { house, pin } = old;
    let PinnedHouse {
        house: larger,
        pin: new_pin,
    } = new;
    let file = match files.read_journal(alloc, paths.journal.as_str()) {
        Ok(file) => file,
        Err(fault) => {
            drop(house);
            drop(larger);
            return Err(fault);
        }
    };
    match extend(alloc, file, house, &pin, larger, &new_pin, key) {
        Ok(bytes) => Ok(bytes),
        Err(error) => Err(unextended(alloc, paths, error)),
    }
}

/// Writes the journal at a path anew, to another path where nothing stands, under a house table
/// that extends its own. The new one has the same entries under the same numbers, and its name once
/// it is all on the disk. Then the old one's name gets `.before` behind it, so that nobody goes on
/// with that. No server has the old one meanwhile. Ids are found under this key.
///
/// # Errors
///
/// `Journal`, whose text says which file and what is wrong with it: the new house file, where it
/// doesn't extend the old one; or want of memory. Nothing has the new journal's name then, unless
/// the text says that it is whole: its folder can't be synced, or the old one keeps its name.
pub fn extend_journal<F: JournalFiles>(
    alloc: Global,
    files: &F,
    old: PinnedHouse,
    new: PinnedHouse,
    key: HashKey,
    paths: &Extension,
) -> Result<(), Fault>
    ensures extended { OnOk result (IsWrittenAnew old.house new.house old.pin.bytes new.pin.bytes
        (F.journal_at files.now paths.now.journal.bytes.items)
        (F.is_copied files.now paths.now.to.bytes.items)) }
    ensures fault { IfErr result (λ e. IsTrue (is_keep_fault e)) }
{
    let held = match files.hold(alloc, paths.journal.as_str()) {
        Ok(held) => held,
        Err(fault) => {
            drop(old);
            drop(new);
            return Err(fault);
        }
    };
    let text = match made(alloc, files, old, new, key, paths) {
        Ok(text) => text,
        Err(fault) => {
            drop(held);
            return Err(fault);
        }
    };
    match put(alloc, files, paths.to.as_str(), &text) {
        Ok(()) => files.retire(alloc, held, paths.journal.as_str()),
        Err(fault) => {
            drop(held);
            Err(fault)
        }
    }
}
