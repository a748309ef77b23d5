//! The desk that workers share: calls, readings and copies under its lock, what settles and
//! confirms without it, and the close.
ghost use Rattle.std.specs.Prelude.{◌≡◌, ◌+◌, ◌<◌, ◌≤◌, ◌++◌};
ghost use Rattle.std.specs.Prelude.{ℕ, List, [], length, vec_len, IfOk, IfErr, OnOk, OnErr};
ghost use Rattle.std.specs.Arc.{arc_value};
ghost use Rattle.std.specs.List.{All, sum_by};
ghost use Rattle.gu_base.specs.Limits.{most_entries, most_parts};
ghost use Rattle.gu_book.specs.Seen.{stored};
ghost use Rattle.gu_book.specs.Ids.{NoIdTwice};
ghost use Rattle.gu_trace.specs.Reports.{entries_for, most_reports};
ghost use Rattle.gu_trace.specs.News.{is_news, is_told};
ghost use Rattle.gu_desk.specs.Begins.{BeginsWith};
ghost use Rattle.gu_desk.specs.Passes.{IsOf, of_book};
ghost use Rattle.gu_desk.specs.Runs.{IsRunOf, IsAnswerOf, IsReadingOf, IsToldOf, IsCallBy};
ghost use Rattle.gu_desk.specs.Runs.{IsReadingAt, HasSeen};
ghost use Rattle.gu_desk.specs.Shares.{gained};

use crate::count::{Count, Pass, give_beside, settle};
use crate::ground::Ground;
use crate::journal::JournalSeat;
use crate::keeps::Keeps;
use crate::seat::{Job, Seat};
use crate::ticket::Ticket;
use crate::till::Till;
use gu_base::{AllocId, Answer, Command, Entry, FirmId, Memory, Report};
use gu_book::Book;
use gu_trace::News;
use std::alloc::{AllocError, Global};
use std::marker::Model;
use std::sync::ledger::Share;
use std::sync::{Arc, Mutex, Wait};

/// A book that workers share. Contracts see how many seats were given out.
#[derive(Drop)]
pub struct Desk<J: Job> {
    till: Mutex<Till<J>>,
    pub(crate) count: Count,
    workers: u32,
}

impl<J: Job> Model for Desk<J> {
    ghost use Rattle.std.specs.Prelude.{◌≡◌, ◌+◌, IsTrue};
    ghost use Rattle.std.specs.Arc.{arc_value};
    ghost use Rattle.gu_desk.specs.Passes.{IsOf};
    ghost use Rattle.gu_desk.specs.Views.{DeskView, is_worker_count};

    ghost Value = { DeskView };

    ghost view = { λ d. record { seats = d.workers } };

    ghost invariant = { λ d. (d.workers + 1 ≡ J.parts)
        × IsTrue (is_worker_count d.workers)
        × IsOf (arc_value d.count).shared.table_id J.table };
}

/// A seat is missing: the desk, and the seats that came.
#[derive(Drop)]
pub struct CloseError<J: Job> {
    pub desk: Desk<J>,
    pub seats: Vec<Seat<J>>,
}

/// A seat for each worker, with a part of the opening share and nothing counted, that has seen what
/// the book's pass has. One part is left.
fn cut_seats<J: Job>(
    alloc: Global,
    opening: &mut Share<J>,
    count: &Count,
    pass: &mut Pass,
    workers: u32,
) -> Result<Vec<Seat<J>>, Memory>
    requires parts { opening.old.parts ≡ workers + 1 }
    requires amount { opening.old.amount ≡ 0 }
    requires tables { IsOf (arc_value count.now).shared.table_id pass.old.table_id }
    requires job { (arc_value count.now).shared.table_id ≡ J.table }
    requires books { pass.old.me ≡ (of_book pass.old.me.0.seen, []) }
    requires fits { length pass.old.me.0.seen ≤ most_entries }
    ensures seats { IfOk result (λ v. vec_len v ≡ workers) }
    ensures shares { IfOk result (λ v. All (λ s. s.share ≡ 0) v.items) }
    ensures seen { IfOk result (λ v. All (λ s. s.seen ≡ pass.old.me.0.seen) v.items) }
    ensures parts { OnOk result (opening.new.parts ≡ 1) }
    ensures amount { OnOk result (opening.new.amount ≡ 0) }
    ensures table { pass.new.table_id ≡ pass.old.table_id }
    ensures same { pass.new.me ≡ pass.old.me }
{
    let mut seats = Vec::new(alloc);
    for _ in 0..workers {
        let share = opening.split_off(1, 0);
        seats.push(Seat::new(share, count, pass))?;
    }
    Ok(seats)
}

impl<J: Job> Desk<J> {
    /// A desk over the ground's book, and a seat for each worker.
    ///
    /// # Errors
    ///
    /// The book, and `Memory` where a growth was refused.
    pub fn new(alloc: Global, ground: Ground) -> Result<(Desk<J>, Vec<Seat<J>>), (Book, Memory)>
        requires name { ground.name ≡ J.name }
        requires parts { ground.workers + 1 ≡ J.parts }
        requires table { ground.table ≡ J.table }
        requires opening { ground.opening ≡ J.opening }
        ensures desk { IfOk result (λ r. r.0.seats ≡ ground.workers) }
        ensures seats { IfOk result (λ r. vec_len r.1 ≡ ground.workers) }
        ensures shares { IfOk result (λ r. All (λ s. s.share ≡ 0) r.1.items) }
        ensures seen { IfOk result (λ r. All (λ s. s.seen ≡ ground.opening.history) r.1.items) }
        ensures once { IfOk result (λ r. All (λ s. NoIdTwice s.seen) r.1.items) }
        ensures unchanged { IfErr result (λ e. stored e.0 ≡ ground.opening) }
    {
        match Desk::with_journal(alloc, ground) {
            Ok((desk, seats, journal)) => {
                drop(journal);
                Ok((desk, seats))
            }
            Err(left) => Err(left),
        }
    }

    /// A desk over the ground's book, a seat for each worker, and the journal's, which has seen the
    /// opening history. Nothing is durable yet: where a device keeps that history, name it at once.
    ///
    /// # Errors
    ///
    /// The book, and `Memory` where a growth was refused.
    pub fn with_journal(
        alloc: Global,
        ground: Ground,
    ) -> Result<(Desk<J>, Vec<Seat<J>>, JournalSeat<J>), (Book, Memory)>
        requires name { ground.name ≡ J.name }
        requires parts { ground.workers + 1 ≡ J.parts }
        requires table { ground.table ≡ J.table }
        requires opening { ground.opening ≡ J.opening }
        ensures desk { IfOk result (λ r. r.0.seats ≡ ground.workers) }
        ensures seats { IfOk result (λ r. vec_len r.1 ≡ ground.workers) }
        ensures shares { IfOk result (λ r. All (λ s. s.share ≡ 0) r.1.items) }
        ensures seen { IfOk result (λ r. All (λ s. s.seen ≡ ground.opening.history) r.1.items) }
        ensures once { IfOk result (λ r. All (λ s. NoIdTwice s.seen) r.1.items) }
        ensures shown { IfOk result (λ r. r.2.seen ≡ ground.opening.history) }
        ensures kept { IfOk result (λ r. r.2.kept ≡ []) }
        ensures unchanged { IfErr result (λ e. stored e.0 ≡ ground.opening) }
    {
        let Ground {
            book,
            workers,
            blank,
            count,
            mut pass,
            journal,
        } = ground;
        let Ok(beside) = Arc::try_clone(&count) else {
            return Err((book.into_book(), AllocError));
        };
        let (mut total, mut opening) = blank.open::<J>();
        let Ok(seats) = cut_seats(alloc, &mut opening, &count, &mut pass, workers) else {
            return Err((book.into_book(), AllocError));
        };
        let entries = book.as_book().history().len();
        total.add(&mut opening, entries as u64);
        let journal = JournalSeat::new(journal, entries as u32);
        let till = Till {
            book,
            total,
            opening,
            count,
            pass,
        };
        let desk = Desk {
            till: Mutex::new(till),
            count: beside,
            workers,
        };
        Ok((desk, seats, journal))
    }

    /// Answers a call by the book under the lock, for which it may wait, and gives the seat back.
    ///
    /// # Errors
    ///
    /// `Memory` where a growth was refused, as `Book::apply` says; the book and the share are
    /// unchanged.
    pub fn call<R: Wait>(
        &self,
        rt: &R,
        alloc: Global,
        seat: Seat<J>,
        by: &FirmId,
        id: &AllocId,
        command: &Command,
    ) -> (Seat<J>, Result<Answer, Memory>)
        ensures share { result.0.share ≡ seat.share + gained result.1 }
        ensures answered { IsAnswerOf J.opening
            (record { firm = by.now; id = id.now; command = command.now }) result.1 }
        ensures seen { IsCallBy J.opening seat.seen
            (record { firm = by.now; id = id.now; command = command.now }) result.1 result.0.seen }
        ensures later { HasSeen J.opening seat.seen result.0.seen }
        ensures once { NoIdTwice result.0.seen }
    {
        self.till.lock(rt).call(alloc, seat, by, id, command)
    }

    /// The first 100 reports to the firm above a number, read under the lock, for which it may
    /// wait, and the seat again.
    ///
    /// # Errors
    ///
    /// `Memory` where a growth was refused, and only where an entry above the number concerns the
    /// firm.
    pub fn read_reports<R: Wait>(
        &self,
        rt: &R,
        alloc: Global,
        seat: Seat<J>,
        firm: &FirmId,
        after: u32,
    ) -> (Seat<J>, Result<Vec<Report>, Memory>)
        ensures share { result.0.share ≡ seat.share }
        ensures read { IfOk result.1 (λ v. IsReadingOf J.opening firm.now after v.items) }
        ensures memory { OnErr result.1 (IsToldOf J.opening firm.now after) }
        ensures few { IfOk result.1 (λ v. length v.items ≤ most_reports) }
        ensures short { IfOk result.1 (λ v. All (λ r. length r.parts ≤ most_parts) v.items) }
        ensures seen { HasSeen J.opening seat.seen result.0.seen }
        ensures told { IfOk result.1
            (λ v. IsReadingAt J.opening.house result.0.seen firm.now after v.items) }
        ensures lacked { OnErr result.1
            (1 ≤ length (entries_for J.opening.house.house result.0.seen firm.now after)) }
        ensures once { NoIdTwice result.0.seen }
    {
        self.till.lock(rt).read(alloc, seat, firm, after)
    }

    /// Copies of the entries above those that are durable, made under the lock, for which it may
    /// wait. The journal's seat has then seen the history that stands there.
    ///
    /// # Errors
    ///
    /// `Memory` where a growth was refused, and only where there is an entry above; the seat has
    /// seen the history then too.
    pub fn copy_above<R: Wait>(
        &self,
        rt: &R,
        alloc: Global,
        journal: &mut JournalSeat<J>,
    ) -> Result<Vec<Entry>, Memory>
        ensures value { IfOk result (λ v. journal.new.seen ≡ journal.old.kept ++ v.items) }
        ensures memory { OnErr result (length journal.old.kept < length journal.new.seen) }
        ensures seen { HasSeen J.opening journal.old.seen journal.new.seen }
        ensures kept { journal.new.kept ≡ journal.old.kept }
        ensures once { NoIdTwice journal.new.seen }
    {
        self.till.lock(rt).copy_above(alloc, journal)
    }

    /// The firms that each entry above a number concerns, some of them maybe twice, read under the
    /// lock, for which it may wait. The journal's seat has then seen the history that stands there.
    ///
    /// # Errors
    ///
    /// `Memory` where a growth was refused; the seat has seen the history then too.
    pub fn news_above<R: Wait>(
        &self,
        rt: &R,
        alloc: Global,
        journal: &mut JournalSeat<J>,
        above: u32,
    ) -> Result<Vec<News>, Memory>
        ensures value { IfOk result (λ v. (f : List ℕ) (n : ℕ) → is_told v.items f n
            ≡ is_news J.opening.house.house journal.new.seen above f n) }
        ensures seen { HasSeen J.opening journal.old.seen journal.new.seen }
        ensures kept { journal.new.kept ≡ journal.old.kept }
    {
        self.till.lock(rt).news_above(alloc, journal, above)
    }

    /// Tells all seats and tickets that what the journal's seat has seen is durable, by this
    /// device, which keeps it. Nothing else makes more of the history durable.
    pub fn confirm<K: Keeps>(&self, journal: &mut JournalSeat<J>, by: &K)
        requires { K.keeps by.now journal.old.seen }
        ensures seen { journal.new.seen ≡ journal.old.seen }
        ensures kept { journal.new.kept ≡ journal.old.seen }
    {
        let _ = by;
        journal.confirm(&self.count);
    }

    /// How many entries are durable, by one load and no lock. Where they are as many as the seat
    /// has seen, what is durable begins with all that it has seen.
    pub fn settle(&self, seat: &mut Seat<J>) -> u32
        ensures share { seat.new.share ≡ seat.old.share }
        ensures seen { seat.new.seen ≡ seat.old.seen }
        ensures found { result ≡ length seat.new.kept }
        ensures later { BeginsWith seat.new.kept seat.old.kept }
        ensures receipt { length seat.new.seen ≤ result → BeginsWith seat.new.kept seat.new.seen }
    {
        settle(&self.count, &mut seat.pass)
    }

    /// A ticket for what rests on all that the seat has seen.
    pub fn ticket(&self, seat: &mut Seat<J>) -> Ticket<J>
        ensures seen { result.seen ≡ seat.old.seen }
        ensures kept { result.kept ≡ seat.old.kept }
        ensures same { seat.new ≡ seat.old }
    {
        Ticket::new(give_beside(&self.count, &mut seat.pass), seat.records)
    }

    /// The book, against all seats.
    ///
    /// # Errors
    ///
    /// The desk and the seats that came, where fewer came than were given out.
    pub fn close(self, seats: Vec<Seat<J>>) -> Result<Book, CloseError<J>>
        ensures length { IfOk result
            (λ b. length b.history ≡ length J.opening.history + sum_by (λ s. s.share) seats.items) }
        ensures run { IfOk result (λ b. IsRunOf J.opening (stored b)) }
        ensures seen { IfOk result (λ b. All (λ s. BeginsWith b.history s.seen) seats.items) }
        ensures missing { IfErr result (λ e. vec_len seats < self.seats) }
        ensures desk { IfErr result (λ e. e.desk ≡ self) }
        ensures seats { IfErr result (λ e. e.seats ≡ seats) }
    {
        match self.take_apart(seats) {
            Ok((till, seats)) => Ok(till.end(seats)),
            Err(left) => Err(left),
        }
    }

    /// The book, against all seats. The journal's seat has then seen all of its history, which
    /// begins with what it had seen and with what is durable.
    ///
    /// # Errors
    ///
    /// The desk and the seats that came, where fewer came than were given out.
    pub fn close_seen(
        self,
        seats: Vec<Seat<J>>,
        journal: &mut JournalSeat<J>,
    ) -> Result<Book, CloseError<J>>
        ensures run { IfOk result (λ b. IsRunOf J.opening (stored b)) }
        ensures shown { IfOk result (λ b. b.history ≡ journal.new.seen) }
        ensures begins { IfOk result (λ b. BeginsWith b.history journal.old.seen) }
        ensures durable { IfOk result (λ b. BeginsWith b.history journal.old.kept) }
        ensures kept { journal.new.kept ≡ journal.old.kept }
        ensures missing { IfErr result (λ e. vec_len seats < self.seats) }
        ensures desk { IfErr result (λ e. e.desk ≡ self) }
        ensures seats { IfErr result (λ e. e.seats ≡ seats) }
    {
        match self.take_apart(seats) {
            Ok((till, seats)) => {
                let mut till = till;
                till.show(journal);
                Ok(till.end(seats))
            }
            Err(left) => Err(left),
        }
    }

    /// What lies behind the lock, against all seats, which come back.
    fn take_apart(self, seats: Vec<Seat<J>>) -> Result<(Till<J>, Vec<Seat<J>>), CloseError<J>>
        ensures same { IfOk result (λ r. r.1 ≡ seats) }
        ensures some { IfOk result (λ r. 1 ≤ vec_len r.1) }
        ensures all { IfOk result (λ r. J.parts ≤ vec_len r.1 + 1) }
        ensures missing { IfErr result (λ e. vec_len seats < self.seats) }
        ensures desk { IfErr result (λ e. e.desk ≡ self) }
        ensures seats { IfErr result (λ e. e.seats ≡ seats) }
    {
        if seats.len() < self.workers as usize {
            return Err(CloseError { desk: self, seats });
        }
        let Desk {
            till,
            count: _,
            workers: _,
        } = self;
        Ok((till.into_inner(), seats))
    }
}
