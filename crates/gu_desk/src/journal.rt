//! The journal's part in a desk.
ghost use Rattle.std.specs.Prelude.{◌≡◌, ◌≤◌, [], length};
ghost use Rattle.std.specs.Arc.{arc_value};
ghost use Rattle.gu_base.specs.Limits.{most_entries};
ghost use Rattle.gu_desk.specs.Begins.{BeginsWith};
ghost use Rattle.gu_desk.specs.Passes.{IsOf, of_book, of_journal};

use crate::count::{Count, Pass, compare, confirm, show_journal};
use crate::seat::Job;
use std::marker::{Model, PhantomData};

/// The journal's part in a desk, of which there is one. Contracts see the history that it has seen:
/// the one that stood in the book at its last copy; and what of it is durable: what it had seen
/// when a device was last named that keeps that.
#[derive(Drop)]
pub struct JournalSeat<J: Job> {
    pass: Pass,
    records: u32,
    kept: u32,
    of: PhantomData<J>,
}

impl<J: Job> Model for JournalSeat<J> {
    ghost use Rattle.std.specs.Prelude.{◌≡◌, [], length};
    ghost use Rattle.gu_desk.specs.Begins.{BeginsWith};
    ghost use Rattle.gu_desk.specs.Passes.{of_journal};
    ghost use Rattle.gu_desk.specs.Views.{JournalView};

    ghost Value = { JournalView };

    ghost view = { λ s. record { seen = s.pass.me.0.seen; kept = s.pass.me.0.kept } };

    ghost invariant = { λ s. (s.pass.table_id ≡ J.table)
        × (s.pass.me ≡ (of_journal s.pass.me.0.seen s.pass.me.0.kept, []))
        × (s.records ≡ length s.pass.me.0.seen)
        × (s.kept ≡ length s.pass.me.0.kept)
        × BeginsWith s.pass.me.0.seen s.pass.me.0.kept };
}

impl<J: Job> JournalSeat<J> {
    /// How many entries it has seen: how long the history was at its last copy.
    pub fn seen(&self) -> u32
        ensures { result ≡ length self.now.seen }
    {
        self.records
    }

    /// How many of them are durable.
    pub fn kept(&self) -> u32
        ensures { result ≡ length self.now.kept }
    {
        self.kept
    }

    /// A seat with the journal's pass, which has seen so many entries, and of them none is durable.
    pub(crate) fn new(pass: Pass, records: u32) -> JournalSeat<J>
        requires table { pass.table_id ≡ J.table }
        requires journals { pass.me ≡ (of_journal pass.me.0.seen [], []) }
        requires records { records ≡ length pass.me.0.seen }
        ensures seen { result.seen ≡ pass.me.0.seen }
        ensures kept { result.kept ≡ [] }
    {
        JournalSeat {
            pass,
            records,
            kept: 0,
            of: PhantomData,
        }
    }

    /// Sees the history that the book's pass has seen, which begins with what it had seen.
    pub(crate) fn see(&mut self, count: &Count, pass: &mut Pass)
        requires tables { IsOf (arc_value count.now).shared.table_id pass.old.table_id }
        requires job { (arc_value count.now).shared.table_id ≡ J.table }
        requires books { pass.old.me ≡ (of_book pass.old.me.0.seen, []) }
        requires fits { length pass.old.me.0.seen ≤ most_entries }
        ensures table { pass.new.table_id ≡ pass.old.table_id }
        ensures same { pass.new.me ≡ pass.old.me }
        ensures seen { self.new.seen ≡ pass.old.me.0.seen }
        ensures kept { self.new.kept ≡ self.old.kept }
        ensures begins { BeginsWith pass.old.me.0.seen self.old.seen }
        ensures durable { BeginsWith pass.old.me.0.seen self.old.kept }
    {
        self.records = show_journal(count, pass, &mut self.pass);
    }

    /// Tells all seats that what it has seen is durable.
    pub(crate) fn confirm(&mut self, count: &Count)
        requires table { IsOf (arc_value count.now).shared.table_id J.table }
        ensures seen { self.new.seen ≡ self.old.seen }
        ensures kept { self.new.kept ≡ self.old.seen }
    {
        confirm(count, &mut self.pass, self.records);
        self.kept = self.records;
    }

    /// What this pass knows to be durable is a beginning of what the seat knows.
    pub(crate) fn compare(&mut self, count: &Count, pass: Pass)
        requires tables { IsOf (arc_value count.now).shared.table_id pass.table_id }
        requires job { (arc_value count.now).shared.table_id ≡ J.table }
        requires slots { pass.me.1 ≡ [] }
        ensures same { self.new ≡ self.old }
        ensures begins { BeginsWith self.old.kept pass.me.0.kept }
    {
        compare(count, &mut self.pass, pass);
    }
}
