//! The entries of a stream are kept in a journal.

ghost use Rattle.std.specs.Prelude.{◌<◌, IsTrue};
ghost use Rattle.gu_journal.specs.Keeping.{disk_of};

use crate::fault::Fault;
use crate::reading::{Kept, MOMENT, attempt_beside, book_of, number_of, read_file};
use gu_base::Entry;
use gu_journal::{Journal, Nothing, Unrecovered, open_file};
use sqlite_disk::{Disk, Unknown};
use std::mem::ManuallyDrop;

/// Told how far a keeping is.
pub(crate) trait Told {
    /// The entries up to this one are on their way.
    fn trying(&mut self, last: usize);

    /// The entries up to this one are acknowledged.
    fn acknowledged(&mut self, last: usize) -> Result<(), Fault>;
}

/// Commits the entries that follow so many others, a group at a time.
pub(crate) fn commit_all<D: Disk, T: Told>(
    journal: &mut Journal<D>,
    told: &mut T,
    done: usize,
    entries: &[Entry],
    group: usize,
) -> Result<(), Fault>
    requires usable { IsTrue (D.Disk.is_usable (disk_of journal.old)) }
    requires some { 0 < group }
{
    let mut last = done;
    for new in entries.chunks(group) {
        last = last.saturating_add(new.len());
        told.trying(last);
        journal.commit(MOMENT, new, &mut Nothing)?;
        told.acknowledged(last)?;
    }
    Ok(())
}

/// Writes a line for each acknowledgement, at once.
#[derive(Drop)]
struct Printer<'a> {
    rt: &'a HostRuntime,
}

impl Told for Printer<'_> {
    fn trying(&mut self, _last: usize) {}

    fn acknowledged(&mut self, last: usize) -> Result<(), Fault> {
        println!(self.rt; "acknowledged {last}")?;
        Ok(())
    }
}

/// Recovers the journal on a disk, and keeps there those of the entries that it doesn't have.
fn keep_on<D: Disk + Drop>(
    rt: &HostRuntime,
    house: &[u8],
    whole: &[Entry],
    disk: D,
    group: usize,
) -> Result<(), Fault>
    requires usable { IsTrue (D.Disk.is_usable disk) }
    requires some { 0 < group }
{
    let Kept {
        mut journal,
        have: done,
        ..
    } = match attempt_beside(rt.alloc(), house, disk, whole)? {
        Ok(kept) => kept,
        Err(Unrecovered { error, .. }) => return Err(Fault::Recover(error)),
    };
    println!(rt; "recovered {done}")?;
    let Some(entries) = whole.get(done..) else {
        return Err(Fault::Other("the journal has more entries than the stream"));
    };
    let mut printer = Printer { rt };
    commit_all(&mut journal, &mut printer, done, entries, group)
}

/// The same with the journal's file.
fn keep_in(
    rt: &HostRuntime,
    house: &[u8],
    whole: &[Entry],
    path: &str,
    group: usize,
) -> Result<(), Fault>
    requires some { 0 < group }
{
    let disk = open_file(rt, path, Unknown)?;
    keep_on(rt, house, whole, disk, group)
}

/// The same with the entries of a stream's book.
pub(crate) fn keep(
    rt: &HostRuntime,
    house: &str,
    stream: &str,
    path: &str,
    group: &str,
) -> Result<(), Fault> {
    let file = read_file(rt, house)?;
    let group = number_of(group)?;
    let stream = read_file(rt, stream)?;
    // Left as it is, as a batch leaves its book: the process ends behind it.
    let whole = ManuallyDrop::new(book_of(rt.alloc(), &file, &stream)?);
    keep_in(rt, &file, whole.history(), path, group)
}
