//! Copies of entries.
ghost use Rattle.std.specs.Prelude.{◌≡◌, ◌<◌, drop, length, IfOk, OnErr};

use gu_base::{Entry, Memory};
use gu_book::Book;
use std::alloc::Global;

/// An equal entry in memory of its own.
fn copy_of(alloc: Global, entry: &Entry) -> Result<Entry, Memory>
    ensures { IfOk result (λ e. e ≡ entry.now) }
{
    Ok(Entry {
        firm: entry.firm,
        id: entry.id,
        status: entry.status,
        command: entry.command.copy(alloc)?,
    })
}

/// Equal entries in memory of their own, of which there is one at least.
fn copy_all(alloc: Global, entries: &[Entry]) -> Result<Vec<Entry>, Memory>
    ensures { IfOk result (λ v. v.items ≡ entries.now) }
{
    let mut copied = Vec::with_capacity(alloc, entries.len())?;
    for entry in entries {
        copied.push(copy_of(alloc, entry)?)?;
    }
    Ok(copied)
}

/// Copies of the book's entries above a number. It takes no memory where there are none.
pub(crate) fn copies_above(alloc: Global, book: &Book, number: u32) -> Result<Vec<Entry>, Memory>
    ensures value { IfOk result (λ v. v.items ≡ drop number book.now.history) }
    ensures memory { OnErr result (number < length book.now.history) }
{
    let history = book.history();
    let from = number as usize;
    if history.len() <= from {
        return Ok(Vec::new(alloc));
    }
    copy_all(alloc, &history[from..])
}
