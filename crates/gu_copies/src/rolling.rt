//! A new book begins with what is live in an old one.

ghost use Rattle.std.specs.Prelude.{◌≡◌, ◌++◌, ◌∷◌, [], IsTrue, IfOk, IfErr, OnOk};
ghost use Rattle.std.specs.Prelude.{codes, decimal, length, string_bytes};
ghost use Rattle.gu_copies.specs.Rolled.{IsNewBook, HasRolled, Rolls, keep_meant, rolled_line};
ghost use Rattle.gu_command.specs.Faults.{is_keep_fault};

use crate::backup::put;
use crate::extending::unrolled;
use crate::files::JournalFiles;
use crate::writing::write_whole;
use csv::Writer;
use gu_base::{Memory, Number};
use gu_batch::{RunError, Sink};
use gu_book::HashKey;
use gu_command::{Fault, KeepError, Rolling};
use gu_roll::{Asked, Keep, Lost, PinnedHouse, RolledBook, Share, roll};
use itoa::Buffer;
use std::alloc::Global;
use std::fmt::Write;

/// The old and the new number of each entry, a line each, behind a heading.
fn map_of(alloc: Global, numbers: &[Number]) -> Result<String, Memory> {
    let mut text = String::new(alloc);
    write!(text, "old,new\n")?;
    let mut new = 0u32;
    for old in numbers {
        new = new.saturating_add(1);
        write!(text, "{old},{new}\n")?;
    }
    Ok(text)
}

/// A line for each entry and each firm that it concerns, with both its numbers, behind a heading.
fn shares_of(alloc: Global, shares: &[Share]) -> Result<Vec<u8>, csv::Error> {
    let mut rows = Writer::from_writer(Vec::new(alloc));
    rows.write_fields(&[b"firm".as_slice(), b"old", b"new"])?;
    for share in shares {
        let (mut old, mut new) = (Buffer::new(), Buffer::new());
        let old = old.format(share.old.get()).as_bytes();
        let new = new.format(share.new.get()).as_bytes();
        rows.write_fields(&[share.firm.as_str().as_bytes(), old, new])?;
    }
    match rows.into_inner() {
        Ok(text) => Ok(text),
        Err(error) => Err(error.into_error()),
    }
}

/// The texts of the map, and of the firms' shares of it.
fn maps_of(alloc: Global, book: &RolledBook) -> Result<(Vec<u8>, Vec<u8>), Fault>
    ensures { IfErr result (λ e. IsTrue (is_keep_fault e)) }
{
    let Ok(map) = map_of(alloc, &book.numbers) else {
        return Err(Fault::Keep(KeepError::Memory));
    };
    let Ok(shares) = shares_of(alloc, &book.shares) else {
        return Err(Fault::Keep(KeepError::Memory));
    };
    Ok((map.into_bytes(), shares))
}

/// Writes the old and the new numbers to a path, if there is one, and beside that which firms the
/// entries concern.
fn put_maps<F: JournalFiles>(
    alloc: Global,
    files: &F,
    path: Option<&str>,
    book: &RolledBook,
) -> Result<(), Fault>
    ensures { IfErr result (λ e. IsTrue (is_keep_fault e)) }
{
    let Some(path) = path else {
        return Ok(());
    };
    let Ok(beside) = format!(in alloc; "{path}.firms") else {
        return Err(Fault::Keep(KeepError::Memory));
    };
    let (map, shares) = maps_of(alloc, book)?;
    put(alloc, files, beside.as_str(), &shares)?;
    put(alloc, files, path, &map)
}

/// What is asked of a new book.
fn asked_of(rolling: &Rolling) -> Asked
    ensures { result.keep ≡ keep_meant rolling.now.is_open }
{
    let keep = if rolling.is_open {
        Keep::Open
    } else {
        Keep::All
    };
    let shares = rolling.map.is_some();
    Asked { keep, shares }
}

/// What is said of a new book: how many entries it has, and how many changes of the old one were
/// reversed.
fn kept_text(alloc: Global, entries: usize, reversed: usize) -> Result<String, Memory>
    ensures { IfOk result (λ text. string_bytes text ≡ codes "entries " ++ decimal entries
        ++ codes " reversed " ++ decimal reversed ++ codes " closed ") }
{
    let mut text = String::new(alloc);
    write!(text, "entries {entries} reversed {reversed} closed ")?;
    Ok(text)
}

/// And behind that: how many live ones aren't kept, and how many live ones had consents.
fn lost_text(alloc: Global, closed: usize, consented: usize) -> Result<String, Memory>
    ensures { IfOk result (λ text. string_bytes text ≡ decimal closed ++ codes " consented "
        ++ decimal consented ++ codes "\n") }
{
    let mut text = String::new(alloc);
    write!(text, "{closed} consented {consented}\n")?;
    Ok(text)
}

/// The line of a new book.
fn line_of(alloc: Global, book: &RolledBook) -> Result<Vec<u8>, Memory>
    ensures { IfOk result (λ line. line.items
        ≡ rolled_line book.now.numbers.items book.now.lost) }
{
    let entries = book.numbers.len();
    let Lost {
        reversed,
        closed,
        consented,
    } = book.lost;
    let kept = kept_text(alloc, entries, reversed)?;
    let rest = lost_text(alloc, closed, consented)?;
    let mut line = kept.into_bytes();
    line.extend_from_slice(rest.as_bytes())?;
    Ok(line)
}

/// The journal that is to be written.
fn made<F: JournalFiles>(
    alloc: Global,
    files: &F,
    old: PinnedHouse,
    new: PinnedHouse,
    key: HashKey,
    rolling: &Rolling,
) -> Result<RolledBook, Fault>
    ensures rolled { IfOk result (λ r. IsNewBook old.house new.house old.pin.bytes new.pin.bytes
        (F.journal_at files.now rolling.now.paths.journal.bytes.items)
        (keep_meant rolling.now.is_open) r.lost r.numbers.items r.bytes.items) }
    ensures fault { IfErr result (λ e. IsTrue (is_keep_fault e)) }
{
    let paths = &rolling.paths;
    let file = match files.read_journal(alloc, paths.journal.as_str()) {
        Ok(file) => file,
        Err(fault) => {
            drop(old);
            drop(new);
            return Err(fault);
        }
    };
    match roll(alloc, file, old, new, key, asked_of(rolling)) {
        Ok(book) => Ok(book),
        Err(error) => Err(unrolled(alloc, paths, error)),
    }
}

/// Writes a new book's journal, and before it the maps.
fn put_book<F: JournalFiles>(
    alloc: Global,
    files: &F,
    rolling: &Rolling,
    book: &RolledBook,
) -> Result<(), Fault>
    ensures copied { OnOk result (F.is_copied files.now rolling.now.paths.to.bytes.items
        book.now.bytes.items) }
    ensures fault { IfErr result (λ e. IsTrue (is_keep_fault e)) }
{
    put_maps(alloc, files, rolling.map.as_deref(), book)?;
    put(alloc, files, rolling.paths.to.as_str(), &book.bytes)
}

/// Writes the journal of a new book, and renames the old one, which is locked: its line.
fn put_all<F: JournalFiles>(
    alloc: Global,
    files: &F,
    held: F::Held,
    rolling: &Rolling,
    book: &RolledBook,
) -> Result<Vec<u8>, Fault>
    ensures line { IfOk result (λ line. line.items
        ≡ rolled_line book.now.numbers.items book.now.lost) }
    ensures copied { OnOk result (F.is_copied files.now rolling.now.paths.to.bytes.items
        book.now.bytes.items) }
    ensures fault { IfErr result (λ e. IsTrue (is_keep_fault e)) }
{
    let Ok(line) = line_of(alloc, book) else {
        drop(held);
        return Err(Fault::Keep(KeepError::Memory));
    };
    match put_book(alloc, files, rolling, book) {
        Ok(()) => {}
        Err(fault) => {
            drop(held);
            return Err(fault);
        }
    }
    match files.retire(alloc, held, rolling.paths.journal.as_str()) {
        Ok(()) => Ok(line),
        Err(fault) => Err(fault),
    }
}

/// Begins a new book: its line.
fn begun<F: JournalFiles>(
    alloc: Global,
    files: &F,
    old: PinnedHouse,
    new: PinnedHouse,
    key: HashKey,
    rolling: &Rolling,
) -> Result<Vec<u8>, Fault>
    ensures rolled { IfOk result (λ line. HasRolled old.house new.house old.pin.bytes new.pin.bytes
        (F.journal_at files.now rolling.now.paths.journal.bytes.items)
        (keep_meant rolling.now.is_open)
        (F.is_copied files.now rolling.now.paths.to.bytes.items) line.items) }
    ensures fault { IfErr result (λ e. IsTrue (is_keep_fault e)) }
{
    let held = match files.hold(alloc, rolling.paths.journal.as_str()) {
        Ok(held) => held,
        Err(fault) => {
            drop(old);
            drop(new);
            return Err(fault);
        }
    };
    match made(alloc, files, old, new, key, rolling) {
        Ok(book) => put_all(alloc, files, held, rolling, &book),
        Err(fault) => {
            drop(held);
            Err(fault)
        }
    }
}

/// Writes the journal of a new book to a path where nothing stands: the live changes of the one
/// at another path alone, under a house table that extends its own. It has its name once it is all
/// on the disk. Then the old one's name gets `.before` behind it, so that nobody goes on with that.
/// No server has the old one meanwhile. Ids are found under this key. Where a map is asked for it
/// is written first. Last, a line on the writer says how many entries there are, and what is lost.
///
/// # Errors
///
/// `Journal`, whose text says which file and what is wrong with it; or want of memory. Nothing has
/// the new journal's name then, unless the text says that it is whole: its folder can't be synced,
/// or the old one keeps its name. The map may stand. `Write`, behind a front of the line: all else
/// is done then.
pub fn roll_journal<F: JournalFiles, W: Sink>(
    alloc: Global,
    files: &F,
    writer: &mut W,
    old: PinnedHouse,
    new: PinnedHouse,
    key: HashKey,
    rolling: &Rolling,
) -> Result<(), Fault>
    ensures { Rolls old.house new.house old.pin.bytes new.pin.bytes
        (F.journal_at files.now rolling.now.paths.journal.bytes.items)
        (keep_meant rolling.now.is_open)
        (F.is_copied files.now rolling.now.paths.to.bytes.items)
        (W.contents writer.old) (W.contents writer.new)
        (W.failed writer.old) (W.failed writer.new) result }
{
    let line = match begun(alloc, files, old, new, key, rolling) {
        Ok(line) => line,
        Err(fault) => return Err(fault),
    };
    match write_whole(writer, &line) {
        Ok(()) => Ok(()),
        Err(_) => Err(Fault::Run(RunError::Write)),
    }
}
