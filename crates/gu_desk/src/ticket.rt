//! What a connection's bytes rest on while they wait.
ghost use Rattle.std.specs.Prelude.{◌≡◌, [], leb, length, IsTrue};
ghost use Rattle.std.specs.Arc.{arc_value};
ghost use Rattle.gu_desk.specs.Begins.{BeginsWith};

use crate::count::{Pass, order, settle};
use crate::desk::Desk;
use crate::journal::JournalSeat;
use crate::seat::Job;
use std::marker::{Model, PhantomData};

/// What bytes rest on that wait to be sent: the history that a seat had seen when they were made.
/// It takes a number's room, so that many may wait at different numbers. Contracts see that
/// history, and the beginning of the desk's that it knows to be durable: what its last settlement
/// found, and before the first what its seat knew.
#[derive(Drop)]
pub struct Ticket<J: Job> {
    pass: Pass,
    records: u32,
    of: PhantomData<J>,
}

impl<J: Job> Model for Ticket<J> {
    ghost use Rattle.std.specs.Prelude.{◌≡◌, [], length};
    ghost use Rattle.gu_desk.specs.Views.{TicketView};

    ghost Value = { TicketView };

    ghost view = { λ t. record { seen = t.pass.me.0.seen; kept = t.pass.me.0.kept } };

    ghost invariant = { λ t. (t.pass.table_id ≡ J.table)
        × (t.pass.me.1 ≡ [])
        × (t.records ≡ length t.pass.me.0.seen) };
}

impl<J: Job> Ticket<J> {
    /// How many entries it rests on: it waits until so many are durable.
    pub fn seen(&self) -> u32
        ensures { result ≡ length self.now.seen }
    {
        self.records
    }

    /// A ticket with this pass, which has seen so many entries.
    pub(crate) fn new(pass: Pass, records: u32) -> Ticket<J>
        requires table { pass.table_id ≡ J.table }
        requires slots { pass.me.1 ≡ [] }
        requires records { records ≡ length pass.me.0.seen }
        ensures seen { result.seen ≡ pass.me.0.seen }
        ensures kept { result.kept ≡ pass.me.0.kept }
    {
        Ticket {
            pass,
            records,
            of: PhantomData,
        }
    }

    /// Whether all that it rests on is durable, by one load and no lock. Then what is durable
    /// begins with it.
    pub fn settle(&mut self, desk: &Desk<J>) -> bool
        ensures seen { self.new.seen ≡ self.old.seen }
        ensures found { result ≡ leb (length self.new.seen) (length self.new.kept) }
        ensures later { BeginsWith self.new.kept self.old.kept }
        ensures receipt { IsTrue result → BeginsWith self.new.kept self.new.seen }
    {
        self.records <= settle(&desk.count, &mut self.pass)
    }

    /// Whether it covers what an older ticket rests on, by one load and no lock: both have seen
    /// beginnings of one history, so where the older one has seen no more entries, what this one
    /// has seen begins with what the older one has.
    pub fn covers(&mut self, desk: &Desk<J>, older: Ticket<J>) -> bool
        ensures same { self.new ≡ self.old }
        ensures found { result ≡ leb (length older.seen) (length self.old.seen) }
        ensures covers { IsTrue result → BeginsWith self.new.seen older.seen }
    {
        if older.records > self.records {
            return false;
        }
        order(&desk.count, &mut self.pass, older.pass);
        true
    }

    /// A law: what a ticket knows to be durable is a beginning of what the journal's seat knows. So
    /// nothing is known to be durable but what was confirmed.
    pub fn is_confirmed(self, desk: &Desk<J>, journal: &mut JournalSeat<J>)
        ensures same { journal.new ≡ journal.old }
        ensures begins { BeginsWith journal.old.kept self.kept }
    {
        journal.compare(&desk.count, self.pass);
    }
}
