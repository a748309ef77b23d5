//! Journals in memory, for runs that keep a book.

ghost use Rattle.std.specs.Prelude.{◌≡◌, IfOk, IsTrue};
ghost use Rattle.gu_base.specs.Runs.{opening_history};
ghost use Rattle.gu_book.specs.Seen.{stored};
ghost use Rattle.gu_command.specs.Faults.{is_keep_fault};

use gu_base::{Entry, Memory};
use gu_book::{Book, HashKey};
use gu_desk::Keeps;
use gu_parties::House;
use gu_server::{Fault, Journals, KeepError, OpenJournal, Progress, RecordError};
use std::alloc::Global;

/// A journal in memory, which ends with the run. It takes so many entries beside the opening ones.
#[derive(Drop)]
pub(crate) struct MemoryJournal {
    alloc: Global,
    house: House,
    entries: Vec<Entry>,
    room: usize,
}

/// An equal entry in memory of its own.
fn copy_of(alloc: Global, entry: &Entry) -> Result<Entry, Memory>
    ensures { IfOk result (λ e. e ≡ entry.now) }
{
    Ok(Entry {
        firm: entry.firm,
        id: entry.id,
        status: entry.status,
        command: entry.command.copy(alloc)?,
    })
}

/// Equal entries in memory of their own.
fn copies(alloc: Global, entries: &[Entry]) -> Result<Vec<Entry>, Memory>
    ensures { IfOk result (λ v. v.items ≡ entries.now) }
{
    let mut copied = Vec::with_capacity(alloc, entries.len())?;
    for entry in entries {
        copied.push(copy_of(alloc, entry)?)?;
    }
    Ok(copied)
}

impl Keeps for MemoryJournal {
    ghost use Rattle.gu_desk.specs.Begins.{BeginsWith};

    ghost keeps = { λ k h. BeginsWith k.entries.items h };
}

impl OpenJournal for MemoryJournal {
    ghost use Rattle.std.specs.Prelude.{◌≡◌, []};
    ghost use Rattle.std.proofs.Common.{sym, ◌∙◌};
    ghost use Rattle.std.proofs.lemmas.List.{append-nil};
    ghost use Rattle.gu_desk.proofs.Moves.{begins_with_all};

    ghost house = { λ k. k.house };

    ghost takes = { λ k. Unit {0} };

    ghost says = { λ k h. k.entries.items ≡ h };

    ghost has_word = { λ k. Unit {0} };

    ghost keeps_all = { λ k h said. record { rest = []; is = said ∙ sym (append-nil h) } };

    ghost keeps_begun = { λ k h begun longer kept.
        begins_with_all k.entries.items h begun kept longer };

    fn record(&mut self, _moment: &[u8], entries: &[Entry]) -> Result<(), RecordError> {
        if entries.len() > self.room {
            return Err(RecordError::Full);
        }
        let Ok(mut copied) = copies(self.alloc, entries) else {
            return Err(RecordError::Memory);
        };
        if self.entries.append(&mut copied).is_err() {
            return Err(RecordError::Memory);
        }
        self.room -= entries.len();
        Ok(())
    }

    fn ask(&mut self) -> bool {
        true
    }
}

/// Where journals in memory are opened. The path says what becomes of one: `taken` is in use,
/// `full` takes one entry, and any other takes all. On the socket `silent` nobody answers.
#[derive(Clone, Copy, Drop)]
pub(crate) struct Shelf;

/// Why a journal can't be had, if that is so.
fn cause_of(path: &str, replica: Option<&str>) -> Option<&'static str> {
    if path == "taken" {
        return Some("the journal is in use");
    }
    match replica {
        Some(socket) if socket == "silent" => Some("the other machines don't have it"),
        _ => None,
    }
}

/// What is said where a journal can't be had.
fn refused(alloc: Global, path: &str, cause: &str) -> Fault
    ensures { IsTrue (is_keep_fault result) }
{
    match format!(in alloc; "{path}: {cause}") {
        Ok(text) => Fault::Journal(text),
        Err(_) => Fault::Keep(KeepError::Memory),
    }
}

/// The opening book of a house under this key, and a journal of it.
fn opened(
    alloc: Global,
    house: House,
    key: HashKey,
    room: usize,
) -> Result<(Book, MemoryJournal), Memory>
    ensures opening { IfOk result (λ r.
        stored r.0 ≡ record { house = house; history = opening_history house }) }
    ensures house { IfOk result (λ r. r.1.house ≡ house) }
    ensures copied { IfOk result (λ r. r.1.entries.items ≡ r.0.history) }
{
    let copied = match house.copy(alloc) {
        Ok(copied) => copied,
        Err(error) => {
            drop(house);
            return Err(error);
        }
    };
    let mut book = match Book::open(alloc, house) {
        Ok(book) => book,
        Err((house, error)) => {
            drop(house);
            drop(copied);
            return Err(error);
        }
    };
    book.rekey(key);
    match copies(alloc, book.history()) {
        Ok(entries) => Ok((
            book,
            MemoryJournal {
                alloc,
                house: copied,
                entries,
                room,
            },
        )),
        Err(error) => {
            drop(book);
            drop(copied);
            Err(error)
        }
    }
}

impl Journals for Shelf {
    type Journal = MemoryJournal;

    fn open<P: Progress>(
        self,
        alloc: Global,
        path: &str,
        replica: Option<&str>,
        _text: &[u8],
        house: House,
        key: HashKey,
        _progress: &mut P,
    ) -> Result<(Book, MemoryJournal), Fault> {
        if let Some(cause) = cause_of(path, replica) {
            drop(house);
            return Err(refused(alloc, path, cause));
        }
        let room = if path == "full" { 1 } else { usize::MAX };
        match opened(alloc, house, key, room) {
            Ok(opened) => Ok(opened),
            Err(_) => Err(Fault::Keep(KeepError::Memory)),
        }
    }
}
