//! The statement of a book: of the one behind a stream, or of a journal's.

ghost use Rattle.std.specs.Prelude.{◌≡◌, option_map, IfOk, IfErr};
ghost use Rattle.gu_journal.specs.Counting.{Recovers};
ghost use Rattle.gu_journal.specs.Damages.{HasNoLater};
ghost use Rattle.gu_server.specs.Stated.{known_firm, AreKnown, IsUnknown, StatesStream};
ghost use Rattle.gu_server.specs.Stated.{StatesJournal};

use gu_base::{FirmId, Memory};
use gu_batch::{Sink, Source};
use gu_book::{Book, HashKey};
use gu_command::{Fault, KeepError, Stating, fault_at};
use gu_connection::new_key;
use gu_copies::{JournalFiles, PinnedHouse};
use gu_image::Image;
use gu_journal::{HouseDigest, RecoverError, Recovered, Silent, Unrecovered, recover};
use gu_parties::House;
use gu_roll::{Kind, MOMENT, told_at};
use gu_statement::{Heard, Times, hear, write_statement};
use std::alloc::Global;
use std::io::Eprint;
use std::random::RandomSource;

/// The firm that a word names, if the house table has it.
fn firm_of(house: &House, word: &str) -> Option<FirmId>
    ensures { result ≡ known_firm house.now word.now }
{
    match FirmId::new(word.as_bytes()) {
        Some(firm) if house.firm(&firm) => Some(firm),
        _ => None,
    }
}

/// Whose statement is asked for: that of the whole book where no firm is named.
pub(crate) fn whose_of(
    alloc: Global,
    house: &House,
    stating: &Stating,
) -> Result<Option<FirmId>, Fault>
    ensures same { IfOk result (λ w. w ≡ option_map (λ f. f.bytes.items) stating.now.firm) }
    ensures known { IfOk result (AreKnown house.now) }
    ensures unknown { IfErr result
        (IsUnknown house.now (option_map (λ f. f.bytes.items) stating.now.firm)) }
{
    let Some(firm) = &stating.firm else {
        return Ok(None);
    };
    let word = firm.as_str();
    match firm_of(house, word) {
        Some(firm) => Ok(Some(firm)),
        None => Err(Fault::NoFirm(String::from_str(alloc, word)?)),
    }
}

/// What is heard of a stream, which is read to its end as a batch does.
fn heard_by<R: Source>(
    alloc: Global,
    reader: &mut R,
    house: House,
    whose: Option<FirmId>,
) -> Result<Heard, Fault>
    ensures { StatesStream result }
{
    match hear(alloc, reader, house, whose) {
        Ok(heard) => Ok(heard),
        Err(error) => Err(Fault::Run(error)),
    }
}

/// Writes the statement of what was heard.
fn state<W: Sink>(
    alloc: Global,
    heard: &Heard,
    whose: Option<FirmId>,
    writer: &mut W,
) -> Result<(), Fault>
    ensures { StatesStream result }
{
    match write_statement(alloc, heard, whose, writer) {
        Ok(()) => Ok(()),
        Err(error) => Err(Fault::Run(error)),
    }
}

/// Reads a stream to its end as a batch does, and writes the statement of the book behind it.
pub(crate) fn state_stream<R: Source, W: Sink>(
    alloc: Global,
    reader: &mut R,
    writer: &mut W,
    house: House,
    whose: &Option<FirmId>,
) -> Result<(), Fault>
    ensures { StatesStream result }
{
    match heard_by(alloc, reader, house, *whose) {
        Ok(heard) => {
            let stated = state(alloc, &heard, *whose, writer);
            drop(heard);
            stated
        }
        Err(fault) => Err(fault),
    }
}

/// How many entries are said from the front of these bytes on, sealed or not.
fn entries_said(bytes: &[u8]) -> usize {
    let mut count = 0usize;
    let mut at = 0;
    'frames: while let Some((told, end)) = told_at(bytes, at) {
        if told.kind == Kind::Entry {
            count = count.saturating_add(1);
        }
        at = end;
    }
    count
}

/// The times of the entries that the bytes of a journal say, behind so many that have none.
fn times_of(alloc: Global, bytes: &[u8], opening: usize) -> Result<Times, Memory> {
    let mut times = Times::new(alloc);
    for _ in 0..opening {
        times.push(b"")?;
    }
    let mut at = 0;
    'frames: while let Some((told, end)) = told_at(bytes, at) {
        if told.kind == Kind::Entry {
            times.push(told.moment)?;
        }
        at = end;
    }
    Ok(times)
}

/// The book of a journal, and what its statement has beside it, of the bytes that count.
fn heard_in(alloc: Global, book: Book, bytes: &[u8]) -> Result<Heard, Memory>
    ensures { IfOk result (λ h. h.book ≡ book) }
{
    match times_of(alloc, bytes, book.house().opening_count()) {
        Ok(times) => Ok(Heard {
            book,
            times,
            refused: None,
        }),
        Err(memory) => {
            drop(book);
            Err(memory)
        }
    }
}

/// The book of a journal in the bytes of its file, those of them that count, and how many entries
/// are left out, since no seal follows them; or why a start from them would be refused.
fn counted(
    alloc: Global,
    file: Vec<u8>,
    house: House,
    key: HashKey,
    pin: &HouseDigest,
) -> Result<(Book, Vec<u8>, usize), RecoverError>
    ensures recovers { IfOk result (λ r. Recovers house pin.now.bytes file.items r.0.history) }
    ensures later { IfOk result (λ r. HasNoLater house pin.now.bytes file.items r.0.history) }
{
    let said = entries_said(&file);
    let disk = Image::new(file);
    match recover(alloc, disk, house, key, pin, MOMENT, &mut Silent) {
        Ok(Recovered { book, journal }) => {
            let entries = journal.entries() as usize;
            let len = journal.len();
            let opening = book.house().opening_count();
            let left_out = said.saturating_add(opening).saturating_sub(entries);
            let mut bytes = journal.into_disk().into_bytes();
            bytes.truncate(len);
            Ok((book, bytes, left_out))
        }
        Err(Unrecovered { disk, error }) => {
            drop(disk);
            Err(error)
        }
    }
}

/// What is heard of a journal in the bytes of its file, and how many entries are left out; or why a
/// start from them would be refused.
fn heard_of(
    alloc: Global,
    file: Vec<u8>,
    house: PinnedHouse,
    key: HashKey,
) -> Result<(Heard, usize), RecoverError>
    ensures recovers { IfOk result (λ r. Recovers house.house house.pin.bytes file.items
        r.0.book.history) }
    ensures later { IfOk result (λ r. HasNoLater house.house house.pin.bytes file.items
        r.0.book.history) }
{
    let PinnedHouse { house, pin } = house;
    let (book, bytes, left_out) = match counted(alloc, file, house, key, &pin) {
        Ok(found) => found,
        Err(error) => return Err(error),
    };
    match heard_in(alloc, book, &bytes) {
        Ok(heard) => Ok((heard, left_out)),
        Err(_) => Err(RecoverError::Memory),
    }
}

/// Says on standard error how many entries of a journal are left out, if any are.
fn tell_left_out<H: Eprint>(rt: &H, alloc: Global, path: &str, count: usize) {
    if count == 0 {
        return;
    }
    if let Ok(text) = format!(in alloc;
        "{path}: entries left out, which no seal follows: {count}"
    ) {
        let _ = rt.eprintln(&text);
    }
}

/// Writes the statement of the book of the journal at a path, of whose file what a start takes
/// counts.
pub(crate) fn state_journal<H: RandomSource + Eprint, F: JournalFiles, W: Sink>(
    rt: &H,
    alloc: Global,
    files: &F,
    writer: &mut W,
    house: PinnedHouse,
    whose: Option<FirmId>,
    path: &str,
) -> Result<(), Fault>
    ensures { StatesJournal house.house house.pin.bytes (F.journal_at files.now path.now)
        (W.contents writer.old) (W.contents writer.new) (W.failed writer.old)
        (W.failed writer.new) result }
{
    let file = match files.read_journal(alloc, path) {
        Ok(file) => file,
        Err(fault) => {
            drop(house);
            return Err(fault);
        }
    };
    let (heard, left_out) = match heard_of(alloc, file, house, new_key(rt)) {
        Ok(found) => found,
        Err(RecoverError::Memory) => return Err(Fault::Keep(KeepError::Memory)),
        Err(error) => return Err(fault_at(alloc, path, error)),
    };
    tell_left_out(rt, alloc, path, left_out);
    let stated = state(alloc, &heard, whose, writer);
    drop(heard);
    stated
}
