//! A journal is copied.

ghost use Rattle.std.specs.Prelude.{IsTrue, IfErr, OnOk};
ghost use Rattle.gu_copies.specs.Verified.{Copies};
ghost use Rattle.gu_command.specs.Faults.{is_keep_fault};

use crate::error::CopyError;
use crate::files::{Drafted, JournalFiles};
use gu_command::{Fault, fault_at};
use std::alloc::Global;
use std::io;

/// Takes a copy away that couldn't be written or synced, and says why.
fn discarded<F: JournalFiles>(alloc: Global, files: &F, to: &str, error: io::Error) -> Fault
    ensures { IsTrue (is_keep_fault result) }
{
    files.discard(alloc, to);
    fault_at(alloc, to, CopyError::Write(error))
}

/// Makes a file of these bytes at a path where nothing stands, which has its name once they are all
/// on the disk.
pub(crate) fn put<F: JournalFiles>(
    alloc: Global,
    files: &F,
    to: &str,
    text: &[u8],
) -> Result<(), Fault>
    ensures copied { OnOk result (F.is_copied files.now to.now text.now) }
    ensures fault { IfErr result (λ e. IsTrue (is_keep_fault e)) }
{
    let mut draft = files.draft(alloc, to)?;
    match draft.fill(text) {
        Ok(()) => {}
        Err(error) => {
            drop(draft);
            return Err(discarded(alloc, files, to, error));
        }
    }
    match files.sync(draft, text) {
        Ok(copy) => files.name(alloc, copy, to, text),
        Err(error) => Err(discarded(alloc, files, to, error)),
    }
}

/// Copies the journal at a path to another path, where nothing stands. The copy has the bytes that
/// `verify` reads of the journal, and its name once they are all on the disk.
///
/// # Errors
///
/// `Journal`, whose text says which file and what is wrong with it; or want of memory. No copy has
/// the name then, unless it is the folder that couldn't be synced.
pub fn back_up<F: JournalFiles>(alloc: Global, files: &F, path: &str, to: &str) -> Result<(), Fault>
    ensures copied { OnOk result (Copies (F.journal_at files.now path.now)
        (F.is_copied files.now to.now)) }
    ensures fault { IfErr result (λ e. IsTrue (is_keep_fault e)) }
{
    let text = files.read_journal(alloc, path)?;
    put(alloc, files, to, &text)
}
