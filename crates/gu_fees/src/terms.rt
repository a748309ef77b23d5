//! The terms of all givers and takers.
ghost use Rattle.std.specs.Prelude.{◌≡◌, ◌≤◌, ◌<◌, ◌^◌, ◌&&◌, ◌++◌, ◌∷◌, ℕ, List, Option, Some};
ghost use Rattle.std.specs.Prelude.{None, false, [], option_map, option_and_then, bytes_eq, OnOk};
ghost use Rattle.std.specs.Prelude.{OnErr, IfSome, IsSomeAnd, IsTrue, ◌↔◌, unwrap_or};
ghost use Rattle.std.specs.Prelude.{option_copied, slice_get, length, ◌==◌};
ghost use Rattle.std.specs.Map.{lookup};
ghost use Rattle.gu_base.specs.Limits.{highest_limit};
ghost use Rattle.gu_base.specs.Terms.{terms_under, limit_under, used_under};
ghost use Rattle.gu_base.specs.Dealt.{leave_out};
ghost use Rattle.gu_base.specs.declared.house.Agreement.{Agreement as AgreementData};
ghost use Rattle.gu_fees.specs.Rows.{is_pair};
ghost use Rattle.gu_fees.specs.Pairs.{HasRoomFor};
ghost use Rattle.gu_fees.specs.Terms.{row_of, pair_at, last_entry, entries_in, standing_in, CanPut};
ghost use Rattle.gu_fees.specs.Terms.{CanPutAt, IsPut, IsTakenOut, IsReadied, IsReady, IsSameRow};

use crate::pair::PairTerms;
use gu_base::{Agreement, Deed, FirmId, Memory, Number, Pair};
use gu_sums::Filing;
use std::alloc::Global;
use std::collections::HashMap;
use std::marker::Model;

/// The terms of each giver and taker that were made ready, and what they deal under them.
#[derive(Drop)]
pub struct Terms {
    alloc: Global,
    places: HashMap<Pair, usize>,
    pairs: Vec<PairTerms>,
    /// Under the number of each entry where its pair stands.
    entries: Filing<usize, Global>,
}

impl Model for Terms {
    ghost use Rattle.gu_fees.specs.Terms.{TermsView, AreApart, AreBelow};

    ghost Value = { TermsView };

    ghost view = { λ t. record {
      places = t.places.entries;
      pairs = t.pairs.items;
      entries = t.entries.filed;
      room = t.entries.room;
    } };

    ghost invariant = { λ t. record {
      apart : AreApart t.places.entries t.pairs.items;
      below : AreBelow t.pairs.items t.entries.filed;
    } };
}

impl Terms {
    /// No terms. All rows will grow by this allocator.
    pub fn new(alloc: Global) -> Terms
        ensures rows { (g k : List ℕ) → row_of result g k ≡ None }
        ensures entries { (e : ℕ) → pair_at result e ≡ None }
        ensures last { last_entry result ≡ 0 }
    {
        Terms {
            alloc,
            places: HashMap::new(alloc),
            pairs: Vec::new(alloc),
            entries: Filing::new(alloc),
        }
    }

    /// Where the pair stands, `None` where it was never made ready. It stays there: nothing that is
    /// done to the terms moves it.
    pub fn place(&self, giver: &FirmId, taker: &FirmId) -> Option<usize>
        ensures value { result ≡ lookup (is_pair giver.now taker.now) self.now.places }
        ensures there { IfSome result (λ i. i < length self.now.pairs) }
    {
        let pair = Pair {
            giver: *giver,
            taker: *taker,
        };
        self.places.get(&pair).copied()
    }

    /// The row at this place, if one is given.
    pub fn row_at(&self, place: Option<usize>) -> Option<&PairTerms>
        ensures { option_copied result ≡ option_and_then (slice_get self.now.pairs) place }
    {
        match place {
            Some(i) => self.pairs.get(i),
            None => None,
        }
    }

    /// The row of the pair, `None` where it was never made ready.
    pub fn row(&self, giver: &FirmId, taker: &FirmId) -> Option<&PairTerms>
        ensures { option_copied result ≡ row_of self.now giver.now taker.now }
    {
        self.row_at(self.place(giver, taker))
    }

    /// The row of the pair that this entry is of, `None` where no entry of this number was put in.
    pub fn row_beside(&self, entry: Number) -> Option<&PairTerms>
        ensures { option_copied result ≡ option_and_then (slice_get self.now.pairs)
            (pair_at self.now entry) }
    {
        self.row_at(self.entries.get(entry))
    }

    /// The terms of the pair, `None` where it has none or was never made ready.
    pub fn terms(&self, giver: &FirmId, taker: &FirmId) -> Option<Agreement>
        ensures { result ≡ option_and_then (λ r. terms_under r.file r.dealings)
            (row_of self.now giver.now taker.now) }
    {
        match self.row(giver, taker) {
            Some(row) => row.terms(),
            None => None,
        }
    }

    /// What a claimed lot costs the taker, `None` where the pair has no terms or was never made
    /// ready.
    pub fn rate(&self, giver: &FirmId, taker: &FirmId) -> Option<u64>
        ensures { result ≡ option_and_then (λ r.
            option_map (λ a. a.rate) (terms_under r.file r.dealings))
            (row_of self.now giver.now taker.now) }
    {
        match self.terms(giver, taker) {
            Some(terms) => Some(terms.rate),
            None => None,
        }
    }

    /// The lots that the pair may use, `None` where it has no terms or was never made ready.
    pub fn limit(&self, giver: &FirmId, taker: &FirmId) -> Option<u64>
        ensures { result ≡ option_and_then (λ r. limit_under r.file r.dealings)
            (row_of self.now giver.now taker.now) }
    {
        match self.row(giver, taker) {
            Some(row) => row.limit(),
            None => None,
        }
    }

    /// The lots that the pair has used, 0 where it was never made ready.
    pub fn used(&self, giver: &FirmId, taker: &FirmId) -> u64
        ensures { result ≡ unwrap_or (option_map (λ r. used_under r.dealings)
            (row_of self.now giver.now taker.now)) 0 }
    {
        match self.row(giver, taker) {
            Some(row) => row.used(),
            None => 0,
        }
    }

    /// Makes room for one more entry of the pair, and its row with these terms of the house table,
    /// unless it has one. No terms change, and nothing that is dealt. The limit of the terms is one
    /// that terms may have (`has_low_limit`).
    ///
    /// # Errors
    ///
    /// `Memory` where a growth was refused.
    pub fn ready(
        &mut self,
        giver: &FirmId,
        taker: &FirmId,
        file: Option<Agreement>,
    ) -> Result<(), Memory>
        requires { IfSome file (λ a. a.limit ≤ highest_limit) }
        ensures readied { IsReadied self.old self.new giver.now taker.now file }
        ensures ready { OnOk result (IsReady self.new giver.now taker.now) }
        ensures err { OnErr result (IsSameRow (row_of self.old giver.now taker.now)
            (row_of self.new giver.now taker.now)) }
    {
        match self.place(giver, taker) {
            Some(i) => self.ready_at(i),
            None => {
                self.entries.ready()?;
                self.add_pair(giver, taker, file)
            }
        }
    }

    /// Makes room for one more entry of the pair at this place. No terms change, and nothing that
    /// is dealt.
    ///
    /// # Errors
    ///
    /// `Memory` where a growth was refused.
    pub fn ready_at(&mut self, place: usize) -> Result<(), Memory>
        requires { place < length self.old.pairs }
        ensures readied { (g k : List ℕ) (file : Option AgreementData)
            → lookup (is_pair g k) self.old.places ≡ Some place
            → IsReadied self.old self.new g k file }
        ensures ready { OnOk result ((g k : List ℕ)
            → lookup (is_pair g k) self.old.places ≡ Some place → IsReady self.new g k) }
    {
        self.entries.ready()?;
        self.pairs[place].ready()
    }

    /// Makes the row of a pair that has none, with room for an entry.
    fn add_pair(
        &mut self,
        giver: &FirmId,
        taker: &FirmId,
        file: Option<Agreement>,
    ) -> Result<(), Memory>
        requires low { IfSome file (λ a. a.limit ≤ highest_limit) }
        requires new { lookup (is_pair giver.now taker.now) self.old.places ≡ None }
        ensures own { OnOk result (IsSomeAnd (row_of self.new giver.now taker.now)
            (λ r. (r.file ≡ file) × (r.dealings ≡ []) × (1 ≤ r.room))) }
        ensures err { OnErr result (row_of self.new giver.now taker.now ≡ None) }
        ensures others { (g k : List ℕ) → (bytes_eq giver.now g && bytes_eq taker.now k) ≡ false
            → row_of self.new g k ≡ row_of self.old g k }
        ensures places { (g k : List ℕ) (i : ℕ) → lookup (is_pair g k) self.old.places ≡ Some i
            → lookup (is_pair g k) self.new.places ≡ Some i }
        ensures entries { self.new.entries ≡ self.old.entries }
        ensures room { self.new.room ≡ self.old.room }
    {
        let mut row = PairTerms::new(self.alloc, file);
        row.ready()?;
        self.pairs.reserve(1)?;
        let pair = Pair {
            giver: *giver,
            taker: *taker,
        };
        let i = self.pairs.len();
        self.places.insert(pair, i)?;
        self.pairs.push_reserved(row);
        Ok(())
    }

    /// Whether `put_at` may be called: the pair at this place is ready, the number is above all
    /// that were put in, an agreement has a limit that it may have, and the sums of the pair stay
    /// numbers of 64 bits.
    pub fn can_put_at(&self, place: usize, entry: Number, deed: Deed) -> bool
        ensures { IsTrue result ↔ CanPutAt self.now place (record { number = entry; deed = deed }) }
    {
        let room = self.entries.has_room();
        let above = self.entries.last() < entry.get();
        match self.pairs.get(place) {
            Some(row) => room && above && row.can_put(entry, deed),
            None => false,
        }
    }

    /// The same for `agree`, `raise` or `claim`.
    pub fn can_put(&self, giver: &FirmId, taker: &FirmId, entry: Number, deed: Deed) -> bool
        ensures { IsTrue result ↔ CanPut self.now giver.now taker.now (record {
          number = entry;
          deed = deed;
        }) }
    {
        match self.place(giver, taker) {
            Some(i) => self.can_put_at(i, entry, deed),
            None => false,
        }
    }

    /// Puts an entry of the pair in that stands at this place and is ready. Takes no memory.
    pub fn put_at(&mut self, place: usize, entry: Number, deed: Deed)
        requires { CanPutAt self.old place (record { number = entry; deed = deed }) }
        ensures { (g k : List ℕ) → lookup (is_pair g k) self.old.places ≡ Some place
            → IsPut self.old self.new g k (record { number = entry; deed = deed }) }
    {
        put_into(&mut self.pairs, place, entry, deed);
        self.entries.file(entry, place);
    }

    /// Puts an entry of the pair in, which is ready. Takes no memory.
    fn put(&mut self, giver: &FirmId, taker: &FirmId, entry: Number, deed: Deed)
        requires { CanPut self.old giver.now taker.now (record { number = entry; deed = deed }) }
        ensures { IsPut self.old self.new giver.now taker.now (record {
          number = entry;
          deed = deed;
        }) }
    {
        if let Some(i) = self.place(giver, taker) {
            self.put_at(i, entry, deed);
        }
    }

    /// Puts the Agree of this number in: the pair has these terms. Takes no memory.
    pub fn agree(&mut self, giver: &FirmId, taker: &FirmId, entry: Number, terms: Agreement)
        requires { CanPut self.old giver.now taker.now (record {
          number = entry;
          deed = Deed.Makes terms;
        }) }
        ensures { IsPut self.old self.new giver.now taker.now (record {
          number = entry;
          deed = Deed.Makes terms;
        }) }
    {
        self.put(giver, taker, entry, Deed::Makes(terms));
    }

    /// Puts the Raise of this number in: the limit of the pair is so much higher. Takes no memory.
    pub fn raise(&mut self, giver: &FirmId, taker: &FirmId, entry: Number, lots: u64)
        requires { CanPut self.old giver.now taker.now (record {
          number = entry;
          deed = Deed.Raises lots;
        }) }
        ensures { IsPut self.old self.new giver.now taker.now (record {
          number = entry;
          deed = Deed.Raises lots;
        }) }
    {
        self.put(giver, taker, entry, Deed::Raises(lots));
    }

    /// Puts the Claim of this number in: the pair has used so much more. Takes no memory.
    pub fn claim(&mut self, giver: &FirmId, taker: &FirmId, entry: Number, lots: u64)
        requires { CanPut self.old giver.now taker.now (record {
          number = entry;
          deed = Deed.Uses lots;
        }) }
        ensures { IsPut self.old self.new giver.now taker.now (record {
          number = entry;
          deed = Deed.Uses lots;
        }) }
    {
        self.put(giver, taker, entry, Deed::Uses(lots));
    }

    /// Takes the entry of this number out, if it was put in. Takes no memory.
    pub fn take_out(&mut self, entry: Number)
        ensures { IsTakenOut self.old self.new entry }
    {
        if let Some(i) = self.entries.take(entry) {
            take_from(&mut self.pairs, i, entry);
        }
    }

    /// How many entries the giver and the taker of this one have, itself with them; 0 where no
    /// entry of this number was put in. It walks over none.
    pub fn entries_beside(&self, entry: Number) -> usize
        ensures value { result ≡ unwrap_or (option_map (λ i. entries_in self.now.pairs i)
            (pair_at self.now entry)) 0 }
        ensures fits { result < 2 ^ 63 }
    {
        match self.row_beside(entry) {
            Some(row) => row.entry_count(),
            None => 0,
        }
    }

    /// The first entry that stands on the one of this number, of those of its giver and taker;
    /// `None` where no entry of this number was put in.
    pub fn first_standing(&self, entry: Number) -> Option<Number>
        ensures { result ≡ option_and_then (λ i. standing_in self.now.pairs i entry)
            (pair_at self.now entry) }
    {
        match self.row_beside(entry) {
            Some(row) => row.first_standing(entry),
            None => None,
        }
    }
}

/// Puts the entry into the pair at this place, which is ready.
fn put_into(pairs: &mut Vec<PairTerms>, i: usize, entry: Number, deed: Deed)
    requires { IsSomeAnd (slice_get pairs.old.items i) (λ r. (1 ≤ r.room) × (r.last < entry)
        × HasRoomFor r.dealings deed) }
    ensures len { length pairs.new.items ≡ length pairs.old.items }
    ensures own { IsSomeAnd (slice_get pairs.old.items i)
        (λ r. IsSomeAnd (slice_get pairs.new.items i) (λ q. (q.file ≡ r.file)
        × (q.dealings ≡ r.dealings ++ record { number = entry; deed = deed } ∷ []))) }
    ensures last { IfSome (slice_get pairs.new.items i) (λ q. q.last ≡ entry) }
    ensures others { (j : ℕ) → (j == i) ≡ false
        → slice_get pairs.new.items j ≡ slice_get pairs.old.items j }
{
    pairs[i].put(entry, deed);
}

/// Takes the entry out of the pair at this place, if there is one.
fn take_from(pairs: &mut Vec<PairTerms>, i: usize, entry: Number)
    ensures len { length pairs.new.items ≡ length pairs.old.items }
    ensures own { IfSome (slice_get pairs.old.items i)
        (λ r. IsSomeAnd (slice_get pairs.new.items i) (λ q. (q.file ≡ r.file)
        × (q.dealings ≡ leave_out entry r.dealings))) }
    ensures last { IfSome (slice_get pairs.old.items i)
        (λ r. IfSome (slice_get pairs.new.items i) (λ q. q.last ≤ r.last)) }
    ensures others { (j : ℕ) → (j == i) ≡ false
        → slice_get pairs.new.items j ≡ slice_get pairs.old.items j }
{
    if i < pairs.len() {
        pairs[i].take_out(entry);
    }
}
