//! What a desk is made of: a book, its count, and a ledger that no type names yet.
ghost use Rattle.std.specs.Prelude.{◌≡◌, IfOk, IfErr, IsTrue};
ghost use Rattle.gu_book.specs.Seen.{stored};
ghost use Rattle.gu_desk.specs.Views.{is_worker_count};

use crate::count::{Count, Pass, open_count};
use gu_base::Memory;
use gu_book::Book;
use gu_trace::IndexedBook;
use std::alloc::{AllocError, Global};
use std::marker::Model;
use std::sync::ledger::Blank;

/// The most workers of a desk.
pub(crate) const MOST_WORKERS: u32 = 16;

/// A book with its index, a count of its records with the book's pass and the journal's, and a
/// ledger that no type names yet. It is of use to one desk alone.
#[derive(Drop)]
pub struct Ground {
    pub(crate) book: IndexedBook,
    pub(crate) workers: u32,
    pub(crate) blank: Blank,
    pub(crate) count: Count,
    pub(crate) pass: Pass,
    pub(crate) journal: Pass,
}

impl Model for Ground {
    ghost use Rattle.std.specs.Prelude.{◌≡◌, ◌+◌, ◌≤◌, [], length, IsTrue};
    ghost use Rattle.gu_base.specs.Limits.{most_entries};
    ghost use Rattle.gu_book.specs.Seen.{stored};
    ghost use Rattle.std.specs.Arc.{arc_value};
    ghost use Rattle.gu_desk.specs.Passes.{IsOf, of_book, of_journal};
    ghost use Rattle.gu_desk.specs.Views.{GroundView, is_worker_count};

    ghost Value = { GroundView };

    ghost view = { λ g. record {
      name = g.blank.name;
      workers = g.workers;
      table = (arc_value g.count).shared.table_id;
      opening = stored g.book;
    } };

    ghost invariant = { λ g. (g.blank.parts ≡ g.workers + 1)
        × IsTrue (is_worker_count g.workers)
        × IsOf (arc_value g.count).shared.table_id g.pass.table_id
        × (g.journal.table_id ≡ (arc_value g.count).shared.table_id)
        × (g.pass.me ≡ (of_book g.book.history, []))
        × (g.journal.me ≡ (of_journal g.book.history [], []))
        × (length g.book.history ≤ most_entries) };
}

impl Ground {
    /// Whether a desk may have so many workers, 1 to 16: the test for the condition of `new`.
    pub fn admits(workers: u32) -> bool
        ensures { result ≡ is_worker_count workers }
    {
        1 <= workers && workers <= MOST_WORKERS
    }

    /// A ground for a desk of 1 to 16 workers, over this book, whose entries it files by the firms
    /// that they concern. Where memory lacks for that, readings look at what isn't filed.
    ///
    /// # Errors
    ///
    /// The book, and `Memory` where a growth was refused.
    pub fn new(alloc: Global, book: Book, workers: u32) -> Result<Ground, (Book, Memory)>
        requires { IsTrue (is_worker_count workers) }
        ensures opening { IfOk result (λ g. g.opening ≡ stored book) }
        ensures workers { IfOk result (λ g. g.workers ≡ workers) }
        ensures unchanged { IfErr result (λ e. e.0 ≡ book) }
    {
        let Ok((count, pass, journal)) = open_count(alloc, &book) else {
            return Err((book, AllocError));
        };
        Ok(Ground {
            book: IndexedBook::new(alloc, book),
            workers,
            blank: Blank::new(workers as u64 + 1),
            count,
            pass,
            journal,
        })
    }
}
