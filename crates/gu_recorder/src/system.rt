//! Journals in the files of the system.

ghost use Rattle.std.specs.Prelude.{◌≡◌, ℕ, List, IsTrue, IfOk, IfErr};
ghost use Rattle.gu_base.specs.Runs.{IsRunFrom, opening_history};
ghost use Rattle.gu_journal.specs.Keeping.{disk_of, Keeps};
ghost use Rattle.gu_recorder.specs.DiskJournals.{IsSaid};
ghost use Rattle.gu_command.specs.Faults.{is_keep_fault};

use crate::beginning::Name;
use crate::disk_journal::DiskJournal;
use crate::journals::Journals;
use crate::place::Place;
use crate::recorder::moment;
use crate::replica::Replica;
use crate::standing::PlaceError;
use gu_book::{Book, HashKey};
use gu_command::{Fault, KeepError, RecordError, fault_at};
use gu_journal::{HouseDigest, OpenError, Progress, RecoverError, open_file};
use gu_parties::House;
use sqlite_disk::Disk;
use sqlite_std_file::{FileFrom, Start};
use std::alloc::Global;
use std::io;
use std::io::ErrorKind;

/// The journals of the system that a program runs on. `S` says what a journal's file held when it
/// was opened, and what is supposed of a crash.
#[derive(Drop)]
pub struct SystemJournals<S: Start> {
    rt: HostRuntime,
    start: S,
}

impl<S: Start> SystemJournals<S> {
    /// The journals in files that the runtime opens.
    pub fn new(rt: HostRuntime, start: S) -> SystemJournals<S> {
        SystemJournals { rt, start }
    }
}

/// What is said where a journal's file isn't opened.
fn unopened(alloc: Global, path: &str, error: OpenError) -> Fault
    ensures { IsTrue (is_keep_fault result) }
{
    match error {
        OpenError::Memory => Fault::Keep(KeepError::Memory),
        error => fault_at(alloc, path, error),
    }
}

/// What is said of what stands in a journal's place, or beside it.
fn unplaced(alloc: Global, path: &str, error: PlaceError) -> Fault
    ensures { IsTrue (is_keep_fault result) }
{
    match error {
        PlaceError::Open(error) => unopened(alloc, path, error),
        error => fault_at(alloc, path, error),
    }
}

/// What is said where a journal isn't recovered.
fn unrecovered(alloc: Global, path: &str, error: RecoverError) -> Fault
    ensures { IsTrue (is_keep_fault result) }
{
    match error {
        RecoverError::Memory => Fault::Keep(KeepError::Memory),
        error => fault_at(alloc, path, error),
    }
}

/// What is said where nobody answers on the socket at a path, or no file is there.
fn unconnected(alloc: Global, path: &str, error: io::Error) -> Fault
    ensures { IsTrue (is_keep_fault result) }
{
    match error.kind() {
        ErrorKind::OutOfMemory => Fault::Keep(KeepError::Memory),
        _ => fault_at(alloc, path, error),
    }
}

/// The line to whoever listens at a path, if there is one.
fn connected(rt: &HostRuntime, alloc: Global, path: Option<&str>) -> Result<Option<Replica>, Fault>
    ensures { IfErr result (λ e. IsTrue (is_keep_fault e)) }
{
    let Some(path) = path else {
        return Ok(None);
    };
    match Replica::connect(*rt, alloc, path) {
        Ok(replica) => Ok(Some(replica)),
        Err(error) => Err(unconnected(alloc, path, error)),
    }
}

/// A book and its journal, whose file stands here, once other machines have what this says, if they
/// are to have it.
fn replicated<D: Disk + Drop>(
    alloc: Global,
    path: &str,
    book: Book,
    kept: DiskJournal<D>,
    replica: Option<Replica>,
    place: Place,
) -> Result<(Book, DiskJournal<D>), Fault>
    requires says { IsTrue (D.Disk.is_clean (disk_of kept.journal)) → Keeps D.Disk.seen
        D.Disk.may_leave kept.house kept.pin.bytes book.history kept.journal }
    ensures book { IfOk result (λ r. r.0 ≡ book) }
    ensures house { IfOk result (λ r. r.1.house ≡ kept.house) }
    ensures journal { IfOk result (λ r. r.1.journal ≡ kept.journal) }
    ensures says { IfOk result (λ r. IsTrue (D.Disk.is_clean (disk_of r.1.journal)) → IsSaid
        D.Disk.seen D.Disk.may_leave r.1.house r.1.pin.bytes r.0.history r.1.journal r.1.replica) }
    ensures fault { IfErr result (λ e. IsTrue (is_keep_fault e)) }
{
    match kept.replicated(replica) {
        Some(kept) => {
            let mut kept = kept;
            kept.place = Some(place);
            Ok((book, kept))
        }
        None => {
            drop(book);
            drop(place);
            Err(fault_at(alloc, path, RecordError::Replica))
        }
    }
}

/// What a journal is opened by: its path, the key of its book, the digest of the house file, and
/// the moment that a head has which it may lack.
#[derive(Clone, Copy)]
struct Asked<'a> {
    path: &'a str,
    key: HashKey,
    pin: HouseDigest,
    moment: &'a [u8],
}

/// A journal that is open, its book, and where its file stands.
#[derive(Drop)]
struct Ready<D: Disk> {
    book: Book,
    kept: DiskJournal<D>,
    place: Place,
}

/// Which file has a name now, whose path is to be this one: where one was made, that.
fn placed(rt: &HostRuntime, alloc: Global, path: &str, name: &Name) -> Result<Place, Fault>
    ensures { IfErr result (λ e. IsTrue (is_keep_fault e)) }
{
    match Place::of(*rt, alloc, path, name.as_str()) {
        Ok(place) if name.leads_to(place.node()) => Ok(place),
        Ok(place) => {
            drop(place);
            Err(unopened(alloc, path, OpenError::InUse))
        }
        Err(error) => Err(unconnected(alloc, path, error)),
    }
}

/// Opens the file of a journal that has this name, and is to have this path, and recovers it.
fn opened<S: Start, P: Progress>(
    rt: &HostRuntime,
    alloc: Global,
    asked: Asked<'_>,
    name: &Name,
    start: S,
    house: House,
    progress: &mut P,
) -> Result<Ready<FileFrom<S>>, Fault>
    ensures house { IfOk result (λ r. r.kept.house ≡ house) }
    ensures book { IfOk result (λ r. r.book.house ≡ house) }
    ensures run { IfOk result (λ r. IsRunFrom house (opening_history house) r.book.history) }
    ensures says { IfOk result (λ r.
        IsTrue (⟦<FileFrom<S> as Disk>⟧.is_clean (disk_of r.kept.journal))
        → Keeps ⟦<FileFrom<S> as Disk>⟧.seen ⟦<FileFrom<S> as Disk>⟧.may_leave
        r.kept.house r.kept.pin.bytes r.book.history r.kept.journal) }
    ensures takes { IfOk result (λ r.
        IsTrue (⟦<FileFrom<S> as Disk>⟧.is_usable (disk_of r.kept.journal))) }
    ensures fault { IfErr result (λ e. IsTrue (is_keep_fault e)) }
{
    let disk = match open_file(rt, name.as_str(), start) {
        Ok(disk) => disk,
        Err(error) => {
            drop(house);
            return Err(unopened(alloc, asked.path, name.refused(error)));
        }
    };
    let place = match placed(rt, alloc, asked.path, name) {
        Ok(place) => place,
        Err(fault) => {
            drop(house);
            drop(disk);
            return Err(fault);
        }
    };
    let Asked {
        path,
        key,
        pin,
        moment,
    } = asked;
    match DiskJournal::recover(alloc, disk, house, key, &pin, moment, progress) {
        Ok((book, kept)) => Ok(Ready { book, kept, place }),
        Err(error) => {
            drop(place);
            Err(unrecovered(alloc, path, error))
        }
    }
}

/// A journal whose file has its own name from now on.
fn settled<D: Disk + Drop>(
    rt: &HostRuntime,
    alloc: Global,
    path: &str,
    name: &Name,
    opened: Ready<D>,
) -> Result<Ready<D>, Fault>
    ensures opened { IfOk result (λ r. r ≡ opened) }
    ensures fault { IfErr result (λ e. IsTrue (is_keep_fault e)) }
{
    if let Err(error) = name.settle(rt, path) {
        drop(opened);
        return Err(unplaced(alloc, path, error));
    }
    if !opened.place.has(opened.kept.journal.len()) {
        drop(opened);
        return Err(fault_at(alloc, path, RecordError::Gone));
    }
    Ok(opened)
}

/// Opens and recovers the journal at a path, or begins one there, which has its name once it is
/// whole, and on the disk.
fn named<S: Start, P: Progress>(
    rt: &HostRuntime,
    alloc: Global,
    asked: Asked<'_>,
    start: S,
    house: House,
    progress: &mut P,
) -> Result<Ready<FileFrom<S>>, Fault>
    ensures house { IfOk result (λ r. r.kept.house ≡ house) }
    ensures book { IfOk result (λ r. r.book.house ≡ house) }
    ensures run { IfOk result (λ r. IsRunFrom house (opening_history house) r.book.history) }
    ensures says { IfOk result (λ r.
        IsTrue (⟦<FileFrom<S> as Disk>⟧.is_clean (disk_of r.kept.journal))
        → Keeps ⟦<FileFrom<S> as Disk>⟧.seen ⟦<FileFrom<S> as Disk>⟧.may_leave
        r.kept.house r.kept.pin.bytes r.book.history r.kept.journal) }
    ensures takes { IfOk result (λ r.
        IsTrue (⟦<FileFrom<S> as Disk>⟧.is_usable (disk_of r.kept.journal))) }
    ensures fault { IfErr result (λ e. IsTrue (is_keep_fault e)) }
{
    let name = match Name::of(rt, asked.path) {
        Ok(name) => name,
        Err(error) => {
            drop(house);
            drop(start);
            return Err(unplaced(alloc, asked.path, error));
        }
    };
    let ready = match opened(rt, alloc, asked, &name, start, house, progress) {
        Ok(ready) => ready,
        Err(fault) => {
            name.remove(rt);
            return Err(fault);
        }
    };
    match settled(rt, alloc, asked.path, &name, ready) {
        Ok(ready) => Ok(ready),
        Err(fault) => {
            name.remove(rt);
            Err(fault)
        }
    }
}

impl<S: Start + Send + 'static> Journals for SystemJournals<S> {
    type Journal = DiskJournal<FileFrom<S>>;

    fn open<P: Progress>(
        self,
        alloc: Global,
        path: &str,
        replica: Option<&str>,
        text: &[u8],
        house: House,
        key: HashKey,
        progress: &mut P,
    ) -> Result<(Book, DiskJournal<FileFrom<S>>), Fault> {
        let SystemJournals { rt, start } = self;
        let Some(sent) = moment(&rt) else {
            drop(house);
            drop(start);
            return Err(Fault::Keep(KeepError::Clock));
        };
        let replica = match connected(&rt, alloc, replica) {
            Ok(replica) => replica,
            Err(fault) => {
                drop(house);
                drop(start);
                return Err(fault);
            }
        };
        let asked = Asked {
            path,
            key,
            pin: HouseDigest::of(text),
            moment: sent.as_bytes(),
        };
        match named(&rt, alloc, asked, start, house, progress) {
            Ok(Ready { book, kept, place }) => replicated(alloc, path, book, kept, replica, place),
            Err(fault) => {
                drop(replica);
                Err(fault)
            }
        }
    }
}
