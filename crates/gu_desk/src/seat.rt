//! Which desk it is, and a worker's part in it.
ghost use Rattle.std.specs.Prelude.{◌≡◌, ◌≤◌, [], length};
ghost use Rattle.std.specs.Arc.{arc_value};
ghost use Rattle.gu_base.specs.Limits.{most_entries};
ghost use Rattle.gu_desk.specs.Begins.{BeginsWith};
ghost use Rattle.gu_desk.specs.Passes.{IsOf, of_book};

use crate::count::{Count, Pass, give_out, lay_in};
use std::marker::{Brand, Model};
use std::sync::ledger::{Ledger, Share};

/// The name of one desk: its ledger, the table that counts its records, and the book that it opened
/// with.
///
/// Code that runs a desk is generic in it and asks that the ground has the job's name and table; it
/// is called with `Brand`, and each ground then has a name of its own.
pub trait Job: Ledger {
    ghost use Rattle.atomic_table.specs.Seated.{TableId};
    ghost use Rattle.gu_book.specs.Seen.{HouseAndHistory};

    ghost table: { TableId };

    ghost opening: { HouseAndHistory };
}

// It stands for no desk: the proof of a call with `Brand` picks the table and the book.
impl Job for Brand {
    ghost use Rattle.gu_desk.specs.Views.{no_book, no_table};

    ghost table = { no_table };

    ghost opening = { no_book };
}

/// A worker's part in a desk. Contracts see its share, how many of the calls that were made with it
/// were accepted, the history that it has seen: the one that stood in the book when it last came
/// back, and the beginning of the history that it knows to be durable: what its last settlement
/// found, and nothing where it came back since.
#[derive(Drop)]
pub struct Seat<J: Job> {
    pub(crate) share: Share<J>,
    pub(crate) pass: Pass,
    pub(crate) records: u32,
}

impl<J: Job> Model for Seat<J> {
    ghost use Rattle.std.specs.Prelude.{◌≡◌, [], length};
    ghost use Rattle.gu_desk.specs.Views.{SeatView};

    ghost Value = { SeatView };

    ghost view = { λ s. record {
      share = s.share.amount;
      seen = s.pass.me.0.seen;
      kept = s.pass.me.0.kept;
    } };

    ghost invariant = { λ s. (s.share.parts ≡ 1) × (s.pass.table_id ≡ J.table) × (s.pass.me.1 ≡ [])
        × (s.records ≡ length s.pass.me.0.seen) };
}

impl<J: Job> Seat<J> {
    /// How many records it has seen: how long the history was when it last came back.
    pub fn seen(&self) -> u32
        ensures { result ≡ length self.now.seen }
    {
        self.records
    }

    /// A seat with this share that has seen what the book's pass has.
    pub(crate) fn new(share: Share<J>, count: &Count, pass: &mut Pass) -> Seat<J>
        requires parts { share.parts ≡ 1 }
        requires tables { IsOf (arc_value count.now).shared.table_id pass.old.table_id }
        requires job { (arc_value count.now).shared.table_id ≡ J.table }
        requires books { pass.old.me ≡ (of_book pass.old.me.0.seen, []) }
        requires fits { length pass.old.me.0.seen ≤ most_entries }
        ensures share { result.share ≡ share.amount }
        ensures seen { result.seen ≡ pass.old.me.0.seen }
        ensures table { pass.new.table_id ≡ pass.old.table_id }
        ensures same { pass.new.me ≡ pass.old.me }
    {
        let (records, pass) = give_out(count, pass);
        Seat {
            share,
            pass,
            records,
        }
    }

    /// Its share. Its pass is laid into the book's, which then knows that the history begins with
    /// what the seat had seen.
    pub(crate) fn into_share(self, count: &Count, pass: &mut Pass) -> Share<J>
        requires tables { IsOf (arc_value count.now).shared.table_id pass.old.table_id }
        requires job { (arc_value count.now).shared.table_id ≡ J.table }
        requires books { pass.old.me ≡ (of_book pass.old.me.0.seen, []) }
        ensures parts { result.parts ≡ 1 }
        ensures amount { result.amount ≡ self.share }
        ensures table { pass.new.table_id ≡ pass.old.table_id }
        ensures same { pass.new.me ≡ pass.old.me }
        ensures begins { BeginsWith pass.old.me.0.seen self.seen }
    {
        let Seat {
            share,
            pass: caller,
            records: _,
        } = self;
        lay_in(count, pass, caller);
        share
    }
}
