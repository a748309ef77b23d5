//! The journal and its seat, behind a lock of their own: whoever takes it records what the desk has
//! answered.

ghost use Rattle.std.specs.Prelude.{◌≡◌, ℕ, List, length, IfOk, OnOk};
ghost use Rattle.gu_desk.specs.Begins.{BeginsWith};
ghost use Rattle.gu_desk.specs.Runs.{HasSeen};
ghost use Rattle.gu_trace.specs.News.{is_news, is_told};

use crate::journals::OpenJournal;
use gu_base::{Entry, Memory};
use gu_board::Board;
use gu_command::{KeepError, RecordError};
use gu_connection::micros_between;
use gu_desk::{Desk, Job, JournalSeat, News, Ticket};
use gu_limits::GROUP_BYTES;
use gu_message::{SendingTime, is_moment};
use jiff::Timestamp;
use std::alloc::Global;
use std::marker::Model;
use std::sync::Wait;
use std::time::{Clock, Instant};

/// After how many milliseconds an empty group is due behind the last one, if no other comes. Who
/// looks each half second has it there within a second.
const COVERED_AFTER: u128 = 500;

/// A journal, and its seat at the desk. Once the journal has failed nothing more is recorded.
///
/// Contracts see the journal, and what its seat sees. Whenever the lock is free the journal keeps
/// all that the seat knows to be durable; and it says just that, unless it has failed.
#[derive(Drop)]
pub struct Recorder<K: OpenJournal, J: Job> {
    pub(crate) journal: K,
    pub(crate) seat: JournalSeat<J>,
    pub(crate) failed: bool,
    /// Room that is given back where memory lacks for a record, so that the next try has it.
    pub(crate) room: Vec<u8>,
    /// Whether the last group has no empty one behind it.
    pub(crate) is_bare: bool,
    /// When that was recorded; none at first.
    pub(crate) since: Option<Instant>,
}

impl<K: OpenJournal, J: Job> Model for Recorder<K, J> {
    ghost use Rattle.std.specs.Prelude.{◌≡◌, false};
    ghost use Rattle.gu_desk.specs.Begins.{BeginsWith};
    ghost use Rattle.gu_recorder.specs.Recording.{Recorded};

    ghost Value = { Recorded K };

    ghost view = { λ r. record {
      journal = r.journal;
      seen = r.seat.seen;
      kept = r.seat.kept;
    } };

    ghost invariant = { λ r. (K.house r.journal ≡ J.opening.house)
        × BeginsWith r.seat.kept J.opening.history
        × K.Keeps.keeps r.journal r.seat.kept
        × (r.failed ≡ false → K.takes r.journal × K.says r.journal r.seat.kept) };
}

/// How many bytes are kept free for a record where memory lacks: a group's, and those of a last
/// call of each worker, of which a group may be longer.
const ROOM: usize = (GROUP_BYTES + GROUP_BYTES / 16) as usize;

/// A law: what a ticket rests on whose receipt was met is kept by a journal that keeps what its
/// seat knows to be durable.
pub(crate) fn told_is_kept<K: OpenJournal, J: Job>(
    desk: &Desk<J>,
    journal: &K,
    seat: &mut JournalSeat<J>,
    ticket: Ticket<J>,
)
    requires keeps { K.Keeps.keeps journal.now seat.old.kept }
    requires receipt { BeginsWith ticket.kept ticket.seen }
    ensures same { seat.new ≡ seat.old }
    ensures kept { K.Keeps.keeps journal.now ticket.seen }
{
    let _ = journal;
    ticket.is_confirmed(desk, seat);
}

/// This moment, if it is one from 1970 on.
pub(crate) fn moment<R: Clock>(rt: &R) -> Option<SendingTime> {
    match Timestamp::now(rt) {
        Ok(moment) if is_moment(moment) => Some(SendingTime::new(moment)),
        _ => None,
    }
}

/// How many microseconds there are from one moment to a later one, if both are known.
fn micros_known(start: Option<Instant>, end: Option<Instant>) -> Option<u64> {
    Some(micros_between(start?, end?))
}

/// Counts a group that took so many microseconds, if that is known, in a journal of so many bytes
/// now: how long the disk took for it, and for how many of them it has waited for other machines
/// behind that.
fn count_group<R: Wait + Clock>(
    rt: &R,
    board: Option<&Board>,
    took: Option<u64>,
    waited: Option<u64>,
    group: &[Entry],
    bytes: usize,
) {
    let Some(board) = board else {
        return;
    };
    board.keeps(rt, group);
    board.has_written(bytes as u64);
    if let Some(took) = took {
        let disk = took.saturating_sub(waited.unwrap_or(0));
        board.recorded(rt, group.len() as u64, disk, waited);
    }
}

impl<K: OpenJournal, J: Job> Recorder<K, J> {
    /// A law: what a ticket rests on whose receipt was met is kept by the journal.
    pub fn keeps_told(&mut self, desk: &Desk<J>, ticket: Ticket<J>)
        requires { BeginsWith ticket.kept ticket.seen }
        ensures same { self.new ≡ self.old }
        ensures house { K.house self.old.journal ≡ J.opening.house }
        ensures kept { K.Keeps.keeps self.old.journal ticket.seen }
    {
        told_is_kept(desk, &self.journal, &mut self.seat, ticket);
    }

    /// Asks whether the server may go on. Where it may not nothing more is recorded.
    pub fn ask(&mut self) -> Result<(), KeepError>
        ensures seen { self.new.seen ≡ self.old.seen }
        ensures kept { self.new.kept ≡ self.old.kept }
        ensures word { OnOk result (K.has_word self.new.journal) }
    {
        if self.failed {
            return Err(KeepError::Failed);
        }
        if !self.journal.ask() {
            self.failed = true;
            return Err(KeepError::Record(RecordError::Silent));
        }
        Ok(())
    }

    /// Looks whether the journal's file is where it was. Where it isn't nothing more is recorded.
    pub fn look(&mut self) -> Result<(), KeepError>
        ensures seen { self.new.seen ≡ self.old.seen }
        ensures kept { self.new.kept ≡ self.old.kept }
    {
        if self.failed {
            return Err(KeepError::Failed);
        }
        if !self.journal.is_there() {
            self.failed = true;
            return Err(KeepError::Record(RecordError::Gone));
        }
        Ok(())
    }

    /// Takes the room that a record may need where memory lacks: whether it has that.
    pub fn prepare(&mut self, alloc: Global) -> bool
        ensures { self.new ≡ self.old }
    {
        if self.room.capacity() >= ROOM {
            return true;
        }
        match Vec::with_capacity(alloc, ROOM) {
            Ok(room) => {
                self.room = room;
                true
            }
            Err(_) => false,
        }
    }

    /// Gives that room back, since memory lacks.
    fn give_back(&mut self, alloc: Global) -> KeepError
        ensures same { self.new ≡ self.old }
    {
        self.room = Vec::new(alloc);
        KeepError::Memory
    }

    /// How many entries are known to be durable.
    pub fn kept(&self) -> u32
        ensures { result ≡ length self.now.kept }
    {
        self.seat.kept()
    }

    /// The firms that each entry above a number concerns, some of them maybe twice, in the history
    /// that the seat has then seen. That begins with what it had seen, and so behind a record with
    /// all that is kept.
    ///
    /// # Errors
    ///
    /// `Memory` where a growth was refused.
    pub fn news_above<R: Wait>(
        &mut self,
        rt: &R,
        alloc: Global,
        desk: &Desk<J>,
        above: u32,
    ) -> Result<Vec<News>, Memory>
        ensures value { IfOk result (λ v. (f : List ℕ) (n : ℕ) → is_told v.items f n
            ≡ is_news J.opening.house.house self.new.seen above f n) }
        ensures kept { self.new.kept ≡ self.old.kept }
        ensures seen { HasSeen J.opening self.old.seen self.new.seen }
    {
        desk.news_above(rt, alloc, &mut self.seat, above)
    }

    /// Records what the desk has answered since, counts it for an operator, and tells those that
    /// wait for it that it is kept.
    ///
    /// # Errors
    ///
    /// `Memory`, or `Clock` where this moment can't be told: nothing was recorded, and it may be
    /// tried again, after `Memory` with the room that was taken before. After any other error
    /// nothing more is recorded.
    pub fn record<R: Wait + Clock>(
        &mut self,
        rt: &R,
        alloc: Global,
        desk: &Desk<J>,
        board: Option<&Board>,
    ) -> Result<(), KeepError>
        ensures { OnOk result (self.new.kept ≡ self.new.seen) }
    {
        if self.failed {
            return Err(KeepError::Failed);
        }
        let Some(sent) = moment(rt) else {
            return Err(KeepError::Clock);
        };
        let Ok(entries) = desk.copy_above(rt, alloc, &mut self.seat) else {
            return Err(self.give_back(alloc));
        };
        let count = entries.len();
        if count == 0 {
            return Ok(());
        }
        if !self.journal.is_there() {
            self.failed = true;
            return Err(KeepError::Record(RecordError::Gone));
        }
        let start = Instant::now(rt).ok();
        match self.journal.record(sent.as_bytes(), entries.as_slice()) {
            Ok(()) => {
                self.is_bare = true;
                self.since = Instant::now(rt).ok();
                let took = micros_known(start, self.since);
                let (waited, bytes) = (self.journal.waited(), self.journal.bytes());
                count_group(rt, board, took, waited, entries.as_slice(), bytes);
                desk.confirm(&mut self.seat, &self.journal);
                Ok(())
            }
            Err(RecordError::Memory) => Err(self.give_back(alloc)),
            Err(error) => {
                self.failed = true;
                Err(KeepError::Record(error))
            }
        }
    }

    /// Records an empty group where the last one has none behind it: rot that makes a zero of a
    /// byte of the last one is seen then. Nobody waits for it, and nobody is told.
    ///
    /// # Errors
    ///
    /// As `record`.
    pub(crate) fn cover<R: Clock>(&mut self, rt: &R, alloc: Global) -> Result<(), KeepError>
        ensures seen { self.new.seen ≡ self.old.seen }
        ensures kept { self.new.kept ≡ self.old.kept }
    {
        if self.failed {
            return Err(KeepError::Failed);
        }
        if !self.is_bare {
            return Ok(());
        }
        let Some(sent) = moment(rt) else {
            return Err(KeepError::Clock);
        };
        if let Err(error) = self.journal.record(sent.as_bytes(), &[]) {
            if let RecordError::Memory = error {
                return Err(self.give_back(alloc));
            }
            self.failed = true;
            return Err(KeepError::Record(error));
        }
        self.is_bare = false;
        Ok(())
    }

    /// The same, once half a second has passed since the last group.
    ///
    /// # Errors
    ///
    /// As `record`.
    pub fn cover_older<R: Clock>(&mut self, rt: &R, alloc: Global) -> Result<(), KeepError>
        ensures seen { self.new.seen ≡ self.old.seen }
        ensures kept { self.new.kept ≡ self.old.kept }
    {
        if let Some(since) = self.since {
            let Ok(passed) = since.elapsed(rt) else {
                return Err(KeepError::Clock);
            };
            if passed.as_millis() < COVERED_AFTER {
                return Ok(());
            }
        }
        self.cover(rt, alloc)
    }

    /// How many bytes of the journal's file count; 0 where it has no file.
    pub fn bytes(&self) -> usize {
        self.journal.bytes()
    }
}
