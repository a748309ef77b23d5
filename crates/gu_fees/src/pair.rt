//! The terms of one giver and one taker, and what they deal under them.
ghost use Rattle.std.specs.Prelude.{◌≡◌, ◌+◌, ◌≤◌, ◌<◌, ◌^◌, ◌++◌, ◌∷◌, [], length, None, OnOk};
ghost use Rattle.std.specs.Prelude.{IfSome, IsTrue, ◌↔◌};
ghost use Rattle.std.specs.Option.{option_or};
ghost use Rattle.gu_base.specs.Limits.{highest_limit};
ghost use Rattle.gu_base.specs.Terms.{made_by_deed, made_in, terms_under, raised_by_deed};
ghost use Rattle.gu_base.specs.Terms.{raised_under, limit_under, used_by_deed, used_under};
ghost use Rattle.gu_base.specs.Dealt.{leave_out, first_over};
ghost use Rattle.gu_sums.specs.Filed.{kept_in};
ghost use Rattle.gu_fees.specs.Pairs.{HasRoomOn, HasRoomFor, dealings_of, standing_under, deed_at};

use crate::blocks::{self, Block, raised_by, used_by, walk_without};
use gu_base::{Agreement, Deed, Memory, Number};
use gu_sums::{Filed, Filing};
use std::alloc::Global;
use std::marker::Model;

/// The terms of the house table for a giver and a taker, and their live Agree, Raises and Claims in
/// the order of their numbers. `Terms` alone makes and changes one, and lends it to be read.
#[derive(Drop)]
pub struct PairTerms {
    file: Option<Agreement>,
    /// The terms that the first Agree made, so that nobody walks to it.
    made: Option<Agreement>,
    deeds: Filing<Deed, Global>,
    /// What the deeds come to, block by block.
    blocks: Vec<Block, Global>,
    /// The lots of the Raises.
    raised: u64,
    /// The lots of the Claims.
    used: u64,
}

impl Model for PairTerms {
    ghost use Rattle.std.specs.Prelude.{◌-◌, min, vec_len, vec_capacity};
    ghost use Rattle.gu_sums.specs.Filing.{last_of};
    ghost use Rattle.gu_fees.specs.Pairs.{PairView, IsKept, dealings_of};
    ghost use Rattle.gu_fees.specs.Blocks.{AreBlocks};

    ghost Value = { PairView };

    ghost view = { λ p. record {
      file = p.file;
      dealings = dealings_of p.deeds.filed.kept;
      room = min p.deeds.room (vec_capacity p.blocks - vec_len p.blocks);
      last = last_of p.deeds.filed;
    } };

    ghost invariant = { λ p. record {
      kept : IsKept p.file p.made (dealings_of p.deeds.filed.kept) p.raised p.used;
      blocks : AreBlocks p.blocks.items p.deeds.all;
    } };
}

impl PairTerms {
    /// The terms of the house table alone. What is dealt under them will grow by this allocator.
    pub(crate) fn new(alloc: Global, file: Option<Agreement>) -> PairTerms
        requires { IfSome file (λ a. a.limit ≤ highest_limit) }
        ensures file { result.file ≡ file }
        ensures dealings { result.dealings ≡ [] }
        ensures last { result.last ≡ 0 }
    {
        PairTerms {
            file,
            made: None,
            deeds: Filing::new(alloc),
            blocks: Vec::new(alloc),
            raised: 0,
            used: 0,
        }
    }

    /// Makes room for one more entry. Nothing that is seen changes.
    ///
    /// # Errors
    ///
    /// `Memory` where a growth was refused.
    pub(crate) fn ready(&mut self) -> Result<(), Memory>
        ensures file { self.new.file ≡ self.old.file }
        ensures dealings { self.new.dealings ≡ self.old.dealings }
        ensures last { self.new.last ≡ self.old.last }
        ensures room { OnOk result (1 ≤ self.new.room) }
    {
        self.deeds.ready()?;
        blocks::ready(&mut self.blocks)
    }

    /// Whether `put` may be called.
    pub(crate) fn can_put(&self, entry: Number, deed: Deed) -> bool
        ensures { IsTrue result ↔ ((1 ≤ self.now.room) × (self.now.last < entry)
            × HasRoomFor self.now.dealings deed) }
    {
        let room = blocks::has_room(&self.deeds, &self.blocks);
        let above = self.deeds.last() < entry.get();
        room && above && has_room(self.raised, self.used, deed)
    }

    /// Puts an entry behind the others: there is room for it, its number is above theirs, and the
    /// sums stay numbers of 64 bits. Takes no memory.
    pub(crate) fn put(&mut self, entry: Number, deed: Deed)
        requires room { 1 ≤ self.old.room }
        requires above { self.old.last < entry }
        requires fits { HasRoomFor self.old.dealings deed }
        ensures file { self.new.file ≡ self.old.file }
        ensures dealings { self.new.dealings ≡ self.old.dealings ++ record {
          number =
              entry;
          deed = deed;
        } ∷ [] }
        ensures last { self.new.last ≡ entry }
    {
        self.made = made_with(self.made, deed);
        self.raised += raised_by(deed);
        self.used += used_by(deed);
        self.deeds.file(entry, deed);
        blocks::put(&mut self.blocks, self.deeds.all());
    }

    /// Takes the entry of this number out, if it is there. Takes no memory.
    pub(crate) fn take_out(&mut self, entry: Number)
        ensures file { self.new.file ≡ self.old.file }
        ensures dealings { self.new.dealings ≡ leave_out entry self.old.dealings }
        ensures last { self.new.last ≤ self.old.last }
    {
        let Some(deed) = blocks::take(&mut self.deeds, &mut self.blocks, entry) else {
            return;
        };
        self.made = made_without(self.made, deed, self.deeds.all());
        self.raised -= raised_by(deed);
        self.used -= used_by(deed);
        blocks::sweep(&mut self.deeds, &mut self.blocks);
    }

    /// The terms: those of the house table, or else those of the Agree.
    pub fn terms(&self) -> Option<Agreement>
        ensures { result ≡ terms_under self.now.file self.now.dealings }
    {
        match self.file {
            Some(terms) => Some(terms),
            None => self.made,
        }
    }

    /// The lots that may be claimed, `None` where there are no terms.
    pub fn limit(&self) -> Option<u64>
        ensures { result ≡ limit_under self.now.file self.now.dealings }
    {
        match self.terms() {
            Some(terms) => Some(terms.limit + self.raised),
            None => None,
        }
    }

    /// The lots that were claimed.
    pub fn used(&self) -> u64
        ensures { result ≡ used_under self.now.dealings }
    {
        self.used
    }

    /// How many entries there are. It walks over none.
    pub fn entry_count(&self) -> usize
        ensures value { result ≡ length self.now.dealings }
        ensures fits { result < 2 ^ 63 }
    {
        self.deeds.count()
    }

    /// The first entry that stands on the one of this number: an Agree stands under the first Raise
    /// or Claim, a Raise under the first Claim that passes the limit without it.
    pub fn first_standing(&self, entry: Number) -> Option<Number>
        ensures { result ≡ standing_under self.now.file self.now.dealings entry }
    {
        match self.deeds.get(entry) {
            Some(Deed::Makes(_)) => {
                blocks::first_under_terms(self.blocks.as_slice(), self.deeds.all())
            }
            Some(Deed::Raises(_)) => match self.terms() {
                Some(terms) => self.first_over(terms.limit, entry),
                None => None,
            },
            Some(Deed::Uses(_)) => None,
            None => None,
        }
    }

    /// The first Claim that passes the limit without the entry of this number, which is filed;
    /// `limit` is that of the terms alone.
    fn first_over(&self, limit: u64, entry: Number) -> Option<Number>
        requires { limit ≤ highest_limit }
        ensures { IfSome (deed_at self.now.dealings entry) (λ d.
            result ≡ first_over limit 0 (leave_out entry self.now.dealings)) }
    {
        let place = self.deeds.place(entry)?;
        walk_without(limit, self.blocks.as_slice(), self.deeds.all(), place).err()
    }
}

/// Whether these terms have a limit that terms may have: the test for that condition of
/// `Terms::ready`.
pub fn has_low_limit(file: Option<Agreement>) -> bool
    ensures { IsTrue result ↔ IfSome file (λ a. a.limit ≤ highest_limit) }
{
    match file {
        Some(terms) => terms.limit <= Agreement::MAX_LIMIT,
        None => true,
    }
}

/// Whether sums of so much raised and so much used have room for this deed.
fn has_room(raised: u64, used: u64, deed: Deed) -> bool
    requires { highest_limit + raised < 2 ^ 64 }
    ensures { IsTrue result ↔ HasRoomOn raised used deed }
{
    match deed {
        Deed::Makes(terms) => terms.limit <= Agreement::MAX_LIMIT,
        Deed::Raises(lots) => (Agreement::MAX_LIMIT + raised).checked_add(lots).is_some(),
        Deed::Uses(lots) => used.checked_add(lots).is_some(),
    }
}

/// The terms that the first Agree makes, with this deed behind those that make these.
fn made_with(made: Option<Agreement>, deed: Deed) -> Option<Agreement>
    ensures { result ≡ option_or made (made_by_deed deed) }
{
    match (made, deed) {
        (None, Deed::Makes(terms)) => Some(terms),
        _ => made,
    }
}

/// The terms that the first Agree makes, where this deed was taken out of those that made these. It
/// walks only where that was an Agree.
fn made_without(before: Option<Agreement>, deed: Deed, deeds: &[Filed<Deed>]) -> Option<Agreement>
    requires { made_by_deed deed ≡ None → before ≡ made_in (dealings_of (kept_in deeds.now)) }
    ensures { result ≡ made_in (dealings_of (kept_in deeds.now)) }
{
    match deed {
        Deed::Makes(_) => made(deeds),
        _ => before,
    }
}

/// The terms that the first Agree made.
fn made(deeds: &[Filed<Deed>]) -> Option<Agreement>
    ensures { result ≡ made_in (dealings_of (kept_in deeds.now)) }
{
    for filed in deeds {
        if let Some(Deed::Makes(terms)) = &filed.kept {
            return Some(*terms);
        }
    }
    None
}
