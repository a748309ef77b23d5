//! A book with an index of whom its entries concern.
ghost use Rattle.std.specs.Prelude.{◌≡◌, ◌≤◌, length, map, IsTrue, IfOk, OnOk, OnErr};
ghost use Rattle.std.specs.List.{All};
ghost use Rattle.gu_base.specs.Answers.{answer_to, after};
ghost use Rattle.gu_base.specs.History.{live};
ghost use Rattle.gu_base.specs.Limits.{most_parts};
ghost use Rattle.gu_book.specs.Front.{may_lack};
ghost use Rattle.gu_book.specs.Seen.{stored};
ghost use Rattle.gu_book.specs.Visits.{AreVisits, is_kept};
ghost use Rattle.gu_trace.specs.Reports.{most_reports, entries_for, reports_for};

use crate::index::ConcernIndex;
use gu_base::{AllocId, Answer, Command, FirmId, Memory, Report};
use gu_book::Book;
use std::alloc::Global;
use std::marker::Model;

/// A book that many read, and beside it for each firm the numbers of the entries that concern it.
///
/// Contracts see the book. That the index is one of its history is part of the type. Where memory
/// lacks for the index a reading looks at what isn't filed, and the next call or reading files it.
#[derive(Drop)]
pub struct IndexedBook {
    book: Book,
    index: ConcernIndex,
}

impl Model for IndexedBook {
    ghost use Rattle.gu_book.specs.Seen.{BookView};
    ghost use Rattle.gu_trace.specs.Index.{IsIndexOf};

    ghost Value = { BookView };

    ghost view = { λ b. b.book };

    ghost invariant = { λ b. IsIndexOf b.book.house.house b.book.history b.index };
}

impl IndexedBook {
    /// The book, whose entries are filed by the firms that they concern.
    pub fn new(alloc: Global, book: Book) -> IndexedBook
        ensures { result ≡ book }
    {
        let mut index = ConcernIndex::new(alloc);
        let _ = index.file(alloc, &book);
        IndexedBook { book, index }
    }

    /// The book.
    pub fn as_book(&self) -> &Book
        ensures { result.now ≡ self.now }
    {
        &self.book
    }

    /// The book, without the index.
    pub fn into_book(self) -> Book
        ensures { result ≡ self }
    {
        self.book
    }

    /// Answers a call, as `Book::apply`, and files its entry where it is accepted: that costs as
    /// much as the firms that it concerns, however long the history is.
    ///
    /// # Errors
    ///
    /// `Memory` where a growth was refused, in the place of an accepted call alone.
    pub fn apply(
        &mut self,
        alloc: Global,
        by: &FirmId,
        id: &AllocId,
        command: &Command,
    ) -> Result<Answer, Memory>
        ensures answered { IfOk result (λ a. a
            ≡ answer_to self.old.house self.old.history (record {
              firm = by.now;
              id = id.now;
              command = command.now;
            })) }
        ensures kept { OnOk result (stored self.new ≡ record {
          house = self.old.house;
          history = after self.old.house self.old.history (record {
            firm = by.now;
            id = id.now;
            command = command.now;
          });
        }) }
        ensures memory { OnErr result (IsTrue
            (may_lack (answer_to self.old.house self.old.history (record {
              firm = by.now;
              id = id.now;
              command = command.now;
            })))) }
        ensures unchanged { OnErr result (stored self.new ≡ stored self.old) }
        ensures visits { AreVisits (live self.old.history) by.now command.now (is_kept result)
            self.new.visits }
    {
        let answer = self.book.apply(alloc, by, id, command);
        // Its clause says that calls made the history, so the index goes with it.
        let _ = self.book.history();
        let _ = self.index.file(alloc, &self.book);
        answer
    }

    /// What `reports` gives, by the numbers that are filed for the firm, without a look at what
    /// doesn't concern it.
    ///
    /// # Errors
    ///
    /// `Memory` where a growth was refused, and only where an entry above the number concerns the
    /// firm.
    pub fn reports(
        &mut self,
        alloc: Global,
        firm: &FirmId,
        after: u32,
    ) -> Result<Vec<Report>, Memory>
        ensures value { IfOk result (λ v. v.items
            ≡ reports_for self.old.house.house self.old.history firm.now after) }
        ensures each { IfOk result (λ v. map (λ r. r.number) v.items ≡ map (λ r. r.number)
            (entries_for self.old.house.house self.old.history firm.now after)) }
        ensures memory { OnErr result (1 ≤ length
            (entries_for self.old.house.house self.old.history firm.now after)) }
        ensures few { IfOk result (λ v. length v.items ≤ most_reports) }
        ensures short { IfOk result (λ v. All (λ r. length r.parts ≤ most_parts) v.items) }
        ensures same { self.new ≡ self.old }
    {
        let _ = self.index.file(alloc, &self.book);
        self.index.reports_by(alloc, &self.book, firm, after)
    }
}
