//! What lies behind the lock of a desk: the book with its index, and the count of its records.
ghost use Rattle.std.specs.Prelude.{◌≡◌, ◌+◌, ◌<◌, ◌≤◌, ◌++◌};
ghost use Rattle.std.specs.Prelude.{ℕ, List, [], length, map, vec_len, IfOk, OnOk, OnErr, IsTrue};
ghost use Rattle.std.specs.Arc.{arc_value};
ghost use Rattle.std.specs.List.{All, sum_by};
ghost use Rattle.gu_base.specs.Limits.{most_parts};
ghost use Rattle.gu_base.specs.Answers.{answer_to, after};
ghost use Rattle.gu_book.specs.Front.{may_lack};
ghost use Rattle.gu_book.specs.Ids.{NoIdTwice};
ghost use Rattle.gu_book.specs.Seen.{stored};
ghost use Rattle.gu_trace.specs.Reports.{most_reports, entries_for, reports_for};
ghost use Rattle.gu_trace.specs.News.{is_news, is_told};
ghost use Rattle.gu_desk.specs.Begins.{BeginsWith};
ghost use Rattle.gu_desk.specs.Passes.{IsOf, of_book};
ghost use Rattle.gu_desk.specs.Runs.{IsRunOf, HasSeen};
ghost use Rattle.gu_desk.specs.Shares.{gained};

use crate::copies::copies_above;
use crate::count::{Count, Pass, publish_accepted};
use crate::journal::JournalSeat;
use crate::seat::{Job, Seat};
use gu_base::{AllocId, Answer, Command, Entry, FirmId, Memory, Report};
use gu_book::Book;
use gu_trace::{IndexedBook, News, news_above};
use std::alloc::Global;
use std::marker::Model;
use std::sync::ledger;
use std::sync::ledger::Share;

/// The book with its index, the total of all shares, the share of the opening history, the count of
/// the records, and the book's pass. `Desk::new` alone makes one.
///
/// Contracts see the house table and the history of the book. Whenever the lock is free, its
/// history is one that calls made of the opening book, the book's pass has seen it all, and the
/// index goes with it.
#[derive(Drop)]
pub struct Till<J: Job> {
    pub(crate) book: IndexedBook,
    pub(crate) total: ledger::Book<J>,
    pub(crate) opening: Share<J>,
    pub(crate) count: Count,
    pub(crate) pass: Pass,
}

impl<J: Job> Model for Till<J> {
    ghost use Rattle.std.specs.Prelude.{◌≡◌, ◌≤◌, [], length};
    ghost use Rattle.gu_base.specs.Limits.{most_entries};
    ghost use Rattle.gu_book.specs.Ids.{NoIdTwice};
    ghost use Rattle.gu_book.specs.Seen.{HouseAndHistory, stored};
    ghost use Rattle.std.specs.Arc.{arc_value};
    ghost use Rattle.gu_desk.specs.Passes.{IsOf, of_book};
    ghost use Rattle.gu_desk.specs.Runs.{IsRunOf};

    ghost Value = { HouseAndHistory };

    ghost view = { λ t. stored t.book };

    ghost invariant = { λ t. IsRunOf J.opening (stored t.book)
        × (length t.book.history ≡ t.total.total)
        × (t.opening.parts ≡ 1)
        × (t.opening.amount ≡ length J.opening.history)
        × ((arc_value t.count).shared.table_id ≡ J.table)
        × IsOf (arc_value t.count).shared.table_id t.pass.table_id
        × (t.pass.me ≡ (of_book t.book.history, []))
        × NoIdTwice t.book.history
        × (length t.book.history ≤ most_entries) };
}

/// Counts an accepted call in the total and in the share of the seat that made it.
fn add_gained<J: Job>(
    total: &mut ledger::Book<J>,
    share: &mut Share<J>,
    answer: &Result<Answer, Memory>,
)
    requires { share.old.parts ≡ 1 }
    ensures total { total.new.total ≡ total.old.total + gained answer.now }
    ensures amount { share.new.amount ≡ share.old.amount + gained answer.now }
    ensures parts { share.new.parts ≡ share.old.parts }
{
    if let Ok(Answer::Accepted { .. }) = answer {
        total.add(share, 1);
    }
}

/// The opening share with the shares of the seats, whose passes are laid into the book's.
fn merge_seats<J: Job>(
    opening: Share<J>,
    count: &Count,
    pass: &mut Pass,
    seats: Vec<Seat<J>>,
) -> Share<J>
    requires some { 1 ≤ vec_len seats }
    requires tables { IsOf (arc_value count.now).shared.table_id pass.old.table_id }
    requires job { (arc_value count.now).shared.table_id ≡ J.table }
    requires books { pass.old.me ≡ (of_book pass.old.me.0.seen, []) }
    ensures parts { result.parts ≡ opening.parts + vec_len seats }
    ensures amount { result.amount ≡ opening.amount + sum_by (λ s. s.share) seats.items }
    ensures apart { result.parts ≤ J.parts }
    ensures begins { All (λ s. BeginsWith pass.old.me.0.seen s.seen) seats.items }
{
    let mut all = opening;
    for seat in seats {
        let share = seat.into_share(count, pass);
        all.merge(share);
    }
    all
}

impl<J: Job> Till<J> {
    /// The accepted commands, in order: a history that calls made of the opening book. It has no
    /// caller, and is there for its clauses as a law is: they hold whenever the lock is free.
    pub fn history(&self) -> &[Entry]
        ensures value { result.now ≡ self.now.history }
        ensures run { IsRunOf J.opening self.now }
    {
        self.book.as_book().history()
    }

    /// Answers a call by the book, and gives the seat back.
    ///
    /// # Errors
    ///
    /// `Memory` where a growth was refused, as `Book::apply` says; the book and the share are
    /// unchanged.
    pub fn call(
        &mut self,
        alloc: Global,
        seat: Seat<J>,
        by: &FirmId,
        id: &AllocId,
        command: &Command,
    ) -> (Seat<J>, Result<Answer, Memory>)
        ensures answered { IfOk result.1 (λ a. a
            ≡ answer_to self.old.house self.old.history
            (record { firm = by.now; id = id.now; command = command.now })) }
        ensures kept { OnOk result.1
            (self.new ≡ record {
              house = self.old.house;
              history = after self.old.house self.old.history
                  (record { firm = by.now; id = id.now; command = command.now });
            }) }
        ensures memory { OnErr result.1
            (IsTrue (may_lack
            (answer_to self.old.house self.old.history
            (record { firm = by.now; id = id.now; command = command.now })))) }
        ensures unchanged { OnErr result.1 (self.new ≡ self.old) }
        ensures share { result.0.share ≡ seat.share + gained result.1 }
        ensures run { IsRunOf J.opening self.old }
        ensures begins { BeginsWith self.old.history seat.seen }
        ensures seen { result.0.seen ≡ self.new.history }
        ensures later { HasSeen J.opening seat.seen self.new.history }
        ensures once { NoIdTwice self.new.history }
    {
        let mut share = seat.into_share(&self.count, &mut self.pass);
        let answer = self.book.apply(alloc, by, id, command);
        add_gained(&mut self.total, &mut share, &answer);
        let history = self.book.as_book().history();
        publish_accepted(&self.count, &mut self.pass, history, &answer);
        let seat = Seat::new(share, &self.count, &mut self.pass);
        (seat, answer)
    }

    /// The first 100 reports to the firm above a number, and the seat again.
    ///
    /// # Errors
    ///
    /// `Memory` where a growth was refused, and only where an entry above the number concerns the
    /// firm.
    pub fn read(
        &mut self,
        alloc: Global,
        seat: Seat<J>,
        firm: &FirmId,
        after: u32,
    ) -> (Seat<J>, Result<Vec<Report>, Memory>)
        ensures value { IfOk result.1
            (λ v. v.items ≡ reports_for self.old.house.house self.old.history firm.now after) }
        ensures each { IfOk result.1 (λ v. map (λ r. r.number) v.items
            ≡ map (λ r. r.number)
            (entries_for self.old.house.house self.old.history firm.now after)) }
        ensures memory { OnErr result.1
            (1 ≤ length (entries_for self.old.house.house self.old.history firm.now after)) }
        ensures few { IfOk result.1 (λ v. length v.items ≤ most_reports) }
        ensures short { IfOk result.1 (λ v. All (λ r. length r.parts ≤ most_parts) v.items) }
        ensures same { self.new ≡ self.old }
        ensures share { result.0.share ≡ seat.share }
        ensures run { IsRunOf J.opening self.old }
        ensures begins { BeginsWith self.old.history seat.seen }
        ensures seen { result.0.seen ≡ self.old.history }
        ensures once { NoIdTwice self.old.history }
    {
        let share = seat.into_share(&self.count, &mut self.pass);
        let told = self.book.reports(alloc, firm, after);
        let seat = Seat::new(share, &self.count, &mut self.pass);
        (seat, told)
    }

    /// Copies of the entries above those that are durable, for the journal's seat, which has then
    /// seen the history.
    ///
    /// # Errors
    ///
    /// `Memory` where a growth was refused, and only where there is an entry above; the seat has
    /// seen the history then too.
    pub fn copy_above(
        &mut self,
        alloc: Global,
        journal: &mut JournalSeat<J>,
    ) -> Result<Vec<Entry>, Memory>
        ensures value { IfOk result (λ v. self.old.history ≡ journal.old.kept ++ v.items) }
        ensures memory { OnErr result (length journal.old.kept < length self.old.history) }
        ensures same { self.new ≡ self.old }
        ensures run { IsRunOf J.opening self.old }
        ensures begins { BeginsWith self.old.history journal.old.seen }
        ensures seen { journal.new.seen ≡ self.old.history }
        ensures kept { journal.new.kept ≡ journal.old.kept }
        ensures once { NoIdTwice self.old.history }
    {
        journal.see(&self.count, &mut self.pass);
        copies_above(alloc, self.book.as_book(), journal.kept())
    }

    /// The firms that each entry above a number concerns, some of them maybe twice, in the history
    /// that the journal's seat has then seen.
    ///
    /// # Errors
    ///
    /// `Memory` where a growth was refused; the seat has seen the history then too.
    pub fn news_above(
        &mut self,
        alloc: Global,
        journal: &mut JournalSeat<J>,
        above: u32,
    ) -> Result<Vec<News>, Memory>
        ensures value { IfOk result (λ v. (f : List ℕ) (n : ℕ) → is_told v.items f n
            ≡ is_news self.old.house.house self.old.history above f n) }
        ensures same { self.new ≡ self.old }
        ensures run { IsRunOf J.opening self.old }
        ensures begins { BeginsWith self.old.history journal.old.seen }
        ensures seen { journal.new.seen ≡ self.old.history }
        ensures kept { journal.new.kept ≡ journal.old.kept }
    {
        let pass = &mut self.pass;
        journal.see(&self.count, pass);
        news_above(alloc, self.book.as_book(), above)
    }

    /// Shows the journal's seat the history.
    pub(crate) fn show(&mut self, journal: &mut JournalSeat<J>)
        ensures same { self.new ≡ self.old }
        ensures seen { journal.new.seen ≡ self.old.history }
        ensures begins { BeginsWith self.old.history journal.old.seen }
        ensures durable { BeginsWith self.old.history journal.old.kept }
        ensures kept { journal.new.kept ≡ journal.old.kept }
    {
        let pass = &mut self.pass;
        journal.see(&self.count, pass);
    }

    /// The book, against all seats.
    pub(crate) fn end(self, seats: Vec<Seat<J>>) -> Book
        requires some { 1 ≤ vec_len seats }
        requires all { J.parts ≤ vec_len seats + 1 }
        ensures book { stored result ≡ self }
        ensures length { length result.history
            ≡ length J.opening.history + sum_by (λ s. s.share) seats.items }
        ensures run { IsRunOf J.opening (stored result) }
        ensures seen { All (λ s. BeginsWith result.history s.seen) seats.items }
    {
        let Till {
            book,
            mut total,
            opening,
            count,
            mut pass,
        } = self;
        let mut all = merge_seats(opening, &count, &mut pass, seats);
        total.audit(&mut all);
        book.into_book()
    }
}
