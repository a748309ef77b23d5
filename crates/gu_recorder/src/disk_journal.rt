//! A journal over a disk, as what a kept book is recorded in.

ghost use Rattle.std.specs.Prelude.{◌≡◌, ℕ, List, length, IsTrue, IfOk, IfSome};
ghost use Rattle.sqlite_disk.specs.Disk.{Only};
ghost use Rattle.gu_base.specs.House.{House as HouseTable};
ghost use Rattle.gu_base.specs.Runs.{IsRunFrom, opening_history};
ghost use Rattle.gu_base.specs.declared.entry.Entry.{Entry as EntryData};
ghost use Rattle.gu_book.specs.Seen.{stored};
ghost use Rattle.gu_journal.specs.Keeping.{disk_of, Keeps};
ghost use Rattle.gu_journal.specs.Session.{digest_text};
ghost use Rattle.gu_recorder.specs.Replicas.{HasAnswered, HasWord};
ghost use Rattle.gu_command.specs.declared.errors.RecordError.TheVariants as RecordError;
ghost use Rattle.gu_journal.specs.declared.error.JournalError.TheVariants as JournalError;

use crate::journals::{Checksum, OpenJournal};
use crate::place::Place;
use crate::replica::{Offer, Replica, allowed, answered, offered, waited};
use gu_base::{Entry, Memory};
use gu_book::{Book, HashKey};
use gu_command::RecordError;
use gu_desk::Keeps;
use gu_journal::{
    HouseDigest, Journal, JournalError, Progress, RecoverError, Recovered, Unrecovered, recover,
};
use gu_parties::House;
use sqlite_disk::Disk;
use std::alloc::Global;

/// A journal over a disk, the house table of its house, the digest of the house file, the line to
/// other machines, if they are to have it too, and where its file stands, if it has one.
#[derive(Drop)]
pub struct DiskJournal<D: Disk> {
    /// The journal, whose clauses say what a crash leaves.
    pub journal: Journal<D>,
    pub(crate) house: House,
    /// The digest of the house file, which the journal's head has.
    pub pin: HouseDigest,
    pub(crate) replica: Option<Replica>,
    pub(crate) place: Option<Place>,
}

impl<D: Disk> Keeps for DiskJournal<D> {
    ghost use Rattle.std.specs.Prelude.{IsTrue};
    ghost use Rattle.gu_journal.specs.Keeping.{disk_of};
    ghost use Rattle.gu_recorder.specs.DiskJournals.{IsKept};

    ghost keeps = { λ k h. IsTrue (D.Disk.is_clean (disk_of k.journal))
        → IsKept D.Disk.may_leave k.house k.pin.bytes h (disk_of k.journal) k.replica };
}

/// Why a journal's fault keeps entries from being recorded.
fn cause(error: JournalError) -> RecordError
    ensures { result ≡ RecordError.Memory → error ≡ JournalError.Memory }
{
    match error {
        JournalError::Memory => RecordError::Memory,
        JournalError::Full => RecordError::Full,
        JournalError::Unsayable { .. } | JournalError::Moment => RecordError::Unsaid,
        JournalError::Disk(error) => RecordError::Disk(error),
    }
}

impl<D: Disk> OpenJournal for DiskJournal<D> {
    ghost use Rattle.std.specs.Prelude.{IsTrue};
    ghost use Rattle.gu_journal.specs.Keeping.{disk_of};
    ghost use Rattle.gu_recorder.specs.DiskJournals.{IsSaid, said_is_kept, begun_is_kept};
    ghost use Rattle.gu_recorder.specs.Replicas.{HasWord};

    ghost house = { λ k. k.house };

    ghost takes = { λ k. IsTrue (D.Disk.is_usable (disk_of k.journal)) };

    ghost says = { λ k h. IsTrue (D.Disk.is_clean (disk_of k.journal))
        → IsSaid D.Disk.seen D.Disk.may_leave k.house k.pin.bytes h k.journal k.replica };

    ghost has_word = { λ k. HasWord k.replica };

    ghost keeps_all = { λ k h said is_clean. said_is_kept
        D.Disk.seen D.Disk.may_leave k.house k.pin.bytes h k.journal k.replica (said is_clean) };

    ghost keeps_begun = { λ k h begun longer kept is_clean. begun_is_kept D.Disk.may_leave
        k.house k.pin.bytes h begun (disk_of k.journal) k.replica longer (kept is_clean) };

    fn checksum(&self) -> Option<Checksum>
        ensures { (t : HouseTable) (pin : List ℕ) (h : List EntryData)
            → (k : Keeps D.Disk.seen D.Disk.may_leave t pin h self.now.journal)
            → IfSome result (λ sum. sum.sha512 ≡ digest_text k.bytes) }
    {
        match self.journal.digest() {
            Ok(sha512) => Some(Checksum {
                bytes: self.journal.len(),
                sha512,
            }),
            Err(_) => None,
        }
    }

    fn waited(&self) -> Option<u64> {
        waited(&self.replica)
    }

    fn bytes(&self) -> usize {
        self.journal.len()
    }

    fn is_there(&self) -> bool {
        match &self.place {
            Some(place) => place.has(self.journal.len()),
            None => true,
        }
    }

    fn is_others(&self) -> bool {
        match &self.place {
            Some(place) => place.is_others(),
            None => false,
        }
    }

    // Other machines are offered the group while it is synced here, and have to have it too.
    fn record(&mut self, moment: &[u8], entries: &[Entry]) -> Result<(), RecordError> {
        let more = u32::try_from(entries.len()).unwrap_or(u32::MAX);
        let before = self.journal.entries();
        let mut offer = Offer {
            replica: &self.replica,
            entries: before.saturating_add(more),
            is_made: false,
        };
        match self.journal.commit(moment, entries, &mut offer) {
            Ok(()) => {}
            Err(error) => return Err(cause(error)),
        }
        if !offer.is_made {
            return Err(RecordError::Replica);
        }
        let count = self.journal.entries();
        if answered(&mut self.replica, count) {
            Ok(())
        } else {
            Err(RecordError::Replica)
        }
    }

    fn ask(&mut self) -> bool {
        allowed(&mut self.replica)
    }
}

impl<D: Disk + Drop> DiskJournal<D> {
    /// The journal, with a copy of the book's house table, on this machine alone.
    pub(crate) fn new(
        alloc: Global,
        book: &Book,
        journal: Journal<D>,
        pin: HouseDigest,
    ) -> Result<DiskJournal<D>, Memory>
        ensures journal { IfOk result (λ f. f.journal ≡ journal) }
        ensures pin { IfOk result (λ f. f.pin ≡ pin) }
        ensures house { IfOk result (λ f. f.house ≡ (stored book.now).house) }
    {
        match book.house().copy(alloc) {
            Ok(house) => Ok(DiskJournal {
                journal,
                house,
                pin,
                replica: None,
                place: None,
            }),
            Err(error) => {
                drop(journal);
                Err(error)
            }
        }
    }

    /// Recovers the journal of a house from what a crash left on this disk: its book, and what
    /// takes further entries.
    pub(crate) fn recover<P: Progress>(
        alloc: Global,
        disk: D,
        house: House,
        key: HashKey,
        pin: &HouseDigest,
        moment: &[u8],
        progress: &mut P,
    ) -> Result<(Book, DiskJournal<D>), RecoverError>
        requires durable { Only (D.Disk.seen disk) (D.Disk.may_leave disk) }
        requires usable { IsTrue (D.Disk.is_usable disk) }
        ensures house { IfOk result (λ r. r.1.house ≡ house) }
        ensures pin { IfOk result (λ r. r.1.pin ≡ pin.now) }
        ensures book { IfOk result (λ r. r.0.house ≡ house) }
        ensures run { IfOk result (λ r. IsRunFrom house (opening_history house) r.0.history) }
        ensures says { IfOk result (λ r. IsTrue (D.Disk.is_clean (disk_of r.1.journal))
            → Keeps D.Disk.seen D.Disk.may_leave
            r.1.house r.1.pin.bytes r.0.history r.1.journal) }
        ensures takes { IfOk result (λ r. IsTrue (D.Disk.is_usable (disk_of r.1.journal))) }
    {
        match recover(alloc, disk, house, key, pin, moment, progress) {
            Ok(Recovered { book, journal }) => match DiskJournal::new(alloc, &book, journal, *pin) {
                Ok(kept) => Ok((book, kept)),
                Err(_) => {
                    drop(book);
                    Err(RecoverError::Memory)
                }
            },
            Err(Unrecovered { disk, error }) => {
                drop(disk);
                Err(error)
            }
        }
    }

    /// The same journal, once other machines have what it says, if they are to have it.
    pub(crate) fn replicated(self, replica: Option<Replica>) -> Option<DiskJournal<D>>
        ensures journal { IfSome result (λ f. f.journal ≡ self.journal) }
        ensures house { IfSome result (λ f. f.house ≡ self.house) }
        ensures pin { IfSome result (λ f. f.pin ≡ self.pin) }
        ensures answered { IfSome result (λ f. (t : HouseTable) (pin : List ℕ) (h : List EntryData)
            → Keeps D.Disk.seen D.Disk.may_leave t pin h f.journal
            → HasAnswered f.replica (length h)) }
    {
        let mut kept = self;
        kept.replica = replica;
        let count = kept.journal.entries();
        if offered(&kept.replica, count, kept.journal.len()) && answered(&mut kept.replica, count) {
            Some(kept)
        } else {
            drop(kept);
            None
        }
    }

    /// The disk.
    pub(crate) fn into_disk(self) -> D
        ensures { result ≡ disk_of self.journal }
    {
        let DiskJournal {
            journal,
            house,
            replica,
            place,
            ..
        } = self;
        drop(house);
        drop(replica);
        drop(place);
        journal.into_disk()
    }
}
