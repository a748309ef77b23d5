//! House files, streams and journals are read.

ghost use Rattle.std.specs.Prelude.{◌<◌, IfOk, IsTrue};
ghost use Rattle.gu_journal.specs.Keeping.{disk_of};

use crate::fault::Fault;
use gu_base::{Answer, Entry, Part};
use gu_batch::{Counted, write_totals};
use gu_book::{Book, HashKey};
use gu_codec::{Fields, Frame, read_frame};
use gu_journal::{HouseDigest, Journal, Recovered, Silent, Unrecovered, open_file, recover};
use gu_message::{Inbound, Index, MeaningError, SLOTS, Slot, give_back_parts, meaning_into, walk};
use gu_parties::House;
use sqlite_disk::{Disk, Unknown};
use std::alloc::Global;
use std::mem::ManuallyDrop;
use std::{fs, io};

/// Stands at each frame that is kept, so that a journal is a function of its stream.
pub(crate) const MOMENT: &[u8] = b"20260302-09:00:00.000";

/// The key under which recovered books find their ids: any but the one that everyone knows.
const KEY: u128 = 0x6b65_795f_6f66_5f74_6573_745f_6a6f_7572;

/// How many entries are kept at once: 1 at least.
pub(crate) fn number_of(word: &str) -> Result<usize, Fault>
    ensures { IfOk result (λ number. 0 < number) }
{
    match word.parse::<usize>() {
        Ok(number) => Ok(number.max(1)),
        Err(_) => Err(Fault::Other("no number")),
    }
}

/// The bytes of a file.
pub(crate) fn read_file(rt: &HostRuntime, path: &str) -> Result<Vec<u8>, Fault> {
    match fs::read(rt, path) {
        Ok(bytes) => Ok(bytes),
        Err(_) => Err(Fault::Other("cannot read a file")),
    }
}

/// The table of a house file.
pub(crate) fn house_of(alloc: Global, file: &[u8]) -> Result<House, Fault> {
    match House::parse(alloc, file) {
        Ok(house) => Ok(house),
        Err(_) => Err(Fault::Other("no house file")),
    }
}

/// The book of a house before any message.
fn opening_book(alloc: Global, file: &[u8]) -> Result<Book, Fault> {
    match Book::open(alloc, house_of(alloc, file)?) {
        Ok(book) => Ok(book),
        Err((house, _)) => {
            drop(house);
            Err(Fault::Memory)
        }
    }
}

/// How many entries a book has that isn't needed any more.
fn count_of(book: Book) -> usize {
    let count = book.history().len();
    drop(book);
    count
}

/// How many entries a house opens with.
pub(crate) fn opening_count(alloc: Global, file: &[u8]) -> Result<usize, Fault> {
    Ok(count_of(opening_book(alloc, file)?))
}

/// Room that is kept between messages.
#[derive(Drop)]
struct Room {
    parts: Vec<Part>,
    meaning: Inbound,
}

/// Applies the call that a message means, if it means one.
fn take(alloc: Global, book: &mut Book, fields: Fields<'_>, room: &mut Room) -> Result<(), Fault> {
    let house = book.house().house();
    let mut slots = [Slot::none(); SLOTS];
    let walked = walk(fields, &mut slots);
    let message = Index::new(fields, &slots, walked);
    match meaning_into(alloc, &message, &house, &mut room.parts, &mut room.meaning) {
        Ok(()) => {}
        Err(MeaningError::Reject(_)) => return Ok(()),
        Err(MeaningError::Memory) => return Err(Fault::Memory),
    }
    let Inbound::Call {
        firm,
        id,
        command,
        ..
    } = &room.meaning
    else {
        return Ok(());
    };
    match &book.apply(alloc, firm, id, command) {
        Ok(Answer::Accepted { .. }) => {}
        Ok(_) => {}
        Err(_) => return Err(Fault::Memory),
    }
    give_back_parts(alloc, &mut room.meaning, &mut room.parts);
    Ok(())
}

/// Applies the calls that the whole frames of a stream mean.
fn take_all(alloc: Global, book: &mut Book, stream: &[u8]) -> Result<(), Fault> {
    let mut room = Room {
        parts: Vec::new(alloc),
        meaning: Inbound::Heartbeat,
    };
    let mut rest = stream;
    for _ in 0..stream.len() {
        let passed = match read_frame(rest) {
            Frame::Whole { fields, len } => {
                take(alloc, book, fields, &mut room)?;
                len
            }
            Frame::Garbled { len } => len,
            Frame::Partial | Frame::Broken { .. } => break,
        };
        rest = rest.get(passed..).unwrap_or(b"");
    }
    Ok(())
}

/// The book behind the whole frames of a stream.
pub(crate) fn book_of(alloc: Global, house: &[u8], stream: &[u8]) -> Result<Book, Fault> {
    let mut book = opening_book(alloc, house)?;
    match take_all(alloc, &mut book, stream) {
        Ok(()) => Ok(book),
        Err(fault) => {
            drop(book);
            Err(fault)
        }
    }
}

/// Recovers the journal of a house file on a disk, once that is synced.
pub(crate) fn attempt<D: Disk + Drop>(
    alloc: Global,
    house: &[u8],
    disk: D,
) -> Result<Result<Recovered<D>, Unrecovered<D>>, Fault>
    requires usable { IsTrue (D.Disk.is_usable disk) }
    ensures usable { IfOk result (λ r. IfOk r (λ found.
        IsTrue (D.Disk.is_usable (disk_of found.journal)))) }
{
    let mut disk = disk;
    disk.sync()?;
    let pin = HouseDigest::of(house);
    let table = house_of(alloc, house)?;
    let key = HashKey::new(KEY);
    Ok(recover(alloc, disk, table, key, &pin, MOMENT, &mut Silent))
}

/// A journal that was recovered, how many entries its book has, and whether they are the first of
/// some that were given.
#[derive(Drop)]
pub(crate) struct Kept<D: Disk> {
    pub(crate) journal: Journal<D>,
    pub(crate) have: usize,
    pub(crate) is_front: bool,
}

/// Whether a history is the first of these entries.
fn is_front(history: &[Entry], entries: &[Entry]) -> bool {
    history.len() <= entries.len()
        && history.iter().zip(entries.iter()).all(|(found, entry)| {
            found.firm == entry.firm
                && found.id == entry.id
                && found.status == entry.status
                && found.command.is_same(&entry.command)
        })
}

/// How many entries a book has that isn't needed any more, and whether they are the first of these.
fn compared(book: Book, entries: &[Entry]) -> (usize, bool) {
    let have = book.history().len();
    let is_front = is_front(book.history(), entries);
    drop(book);
    (have, is_front)
}

/// As `attempt`, but of the book is told how many entries it has, and whether these are the first
/// of those that are given.
pub(crate) fn attempt_beside<D: Disk + Drop>(
    alloc: Global,
    house: &[u8],
    disk: D,
    entries: &[Entry],
) -> Result<Result<Kept<D>, Unrecovered<D>>, Fault>
    requires usable { IsTrue (D.Disk.is_usable disk) }
    ensures usable { IfOk result (λ r. IfOk r (λ kept.
        IsTrue (D.Disk.is_usable (disk_of kept.journal)))) }
{
    match attempt(alloc, house, disk)? {
        Ok(Recovered { book, journal }) => {
            let (have, is_front) = compared(book, entries);
            Ok(Ok(Kept {
                journal,
                have,
                is_front,
            }))
        }
        Err(lost) => Ok(Err(lost)),
    }
}

/// The book that is recovered of the journal in a file.
fn recovered(rt: &HostRuntime, file: &[u8], path: &str) -> Result<Book, Fault> {
    let disk = open_file(rt, path, Unknown)?;
    match attempt(rt.alloc(), file, disk)? {
        Ok(Recovered { book, journal }) => {
            drop(journal);
            Ok(book)
        }
        Err(Unrecovered { error, .. }) => Err(Fault::Recover(error)),
    }
}

/// Tells the entries of a book and its totals.
fn tell_book(rt: &HostRuntime, book: &Book) -> Result<(), Fault> {
    println!(rt; "{} entries", book.history().len())?;
    let mut writer = Counted::new(io::writer(rt));
    match write_totals(rt.alloc(), book, &mut writer) {
        Ok(()) => Ok(()),
        Err(_) => Err(Fault::Other("totals not written")),
    }
}

/// Recovers a journal, and tells its entries and the totals of its book.
pub(crate) fn tell(rt: &HostRuntime, house: &str, path: &str) -> Result<(), Fault> {
    let file = read_file(rt, house)?;
    // Left as it is, as a batch leaves its book: the process ends behind it.
    let book = ManuallyDrop::new(recovered(rt, &file, path)?);
    tell_book(rt, &book)
}
