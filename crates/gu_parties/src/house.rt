//! The house table: who takes part, and on which terms.
ghost use Rattle.std.specs.Prelude.{◌≡◌, ◌≤◌, ℕ, List, [], IsTrue, IfSome, IfOk, length, slice_get};
ghost use Rattle.gu_base.specs.House.{knows_firm, knows_account, knows_instrument, agreement};
ghost use Rattle.gu_base.specs.Limits.{highest_rate, highest_limit};
ghost use Rattle.gu_parties.specs.Steps.{house_alone};
ghost use Rattle.gu_parties.specs.Terms.{has_terms_in_range};

use gu_base::{Account, AccountId, Agreement, FirmId, InstrumentId, Memory, Pair};
use indexmap::{IndexMap, IndexSet};
use std::alloc::Global;
use std::marker::Model;

/// Who takes part, and on which terms (`docs/profile.md`, "The house file"). It is read from a
/// house file by `House::parse`, and never changes.
///
/// The look-ups are by hash, or by place in file order from 0. They take no memory.
#[derive(Drop)]
pub struct House {
    pub(crate) house: FirmId,
    pub(crate) firms: IndexSet<FirmId>,
    pub(crate) accounts: IndexSet<Account>,
    pub(crate) instruments: IndexSet<InstrumentId>,
    pub(crate) agreements: IndexMap<Pair, Agreement>,
    pub(crate) opening: IndexMap<Pair, Agreement>,
}

impl Model for House {
    ghost use Rattle.gu_base.specs.House.{House as Table};
    ghost use Rattle.gu_parties.specs.Kept.{table, HasLawfulAgreements};

    ghost Value = { Table };

    ghost view = { table };

    ghost invariant = { λ t. HasLawfulAgreements (table t) };
}

impl House {
    /// The table of a house with nothing else.
    pub(crate) fn alone(alloc: Global, house: FirmId) -> House
        ensures { result ≡ house_alone house }
    {
        House {
            house,
            firms: IndexSet::new(alloc),
            accounts: IndexSet::new(alloc),
            instruments: IndexSet::new(alloc),
            agreements: IndexMap::new(alloc),
            opening: IndexMap::new(alloc),
        }
    }

    /// The clearing house's firm, which line 2 of the file names.
    pub fn house(&self) -> FirmId
        ensures { result ≡ self.now.house }
    {
        self.house
    }

    /// Whether a firm takes part. The house is a firm too.
    pub fn firm(&self, firm: &FirmId) -> bool
        ensures { result ≡ knows_firm self.now firm.now }
    {
        self.house == *firm || self.firms.contains(firm)
    }

    /// Whether a firm has an account: a line `ACCOUNT` names both. Two firms may each have an
    /// account of the same name.
    pub fn account(&self, firm: &FirmId, account: &AccountId) -> bool
        ensures { result ≡ knows_account self.now firm.now account.now }
    {
        let key = Account {
            firm: *firm,
            name: *account,
        };
        self.accounts.contains(&key)
    }

    /// Whether an instrument is traded: a line `INSTRUMENT` names it.
    pub fn instrument(&self, instrument: &InstrumentId) -> bool
        ensures { result ≡ knows_instrument self.now instrument.now }
    {
        self.instruments.contains(instrument)
    }

    /// The terms on which `taker` takes what `giver` gives up: a rate of 0 to 100,000 hundredths a
    /// lot, and a limit of 0 to 10,000,000,000,000 lots. `None` where the file has no agreement of
    /// the two in this direction, or is of version 2.
    pub fn agreement(&self, giver: &FirmId, taker: &FirmId) -> Option<Agreement>
        ensures value { result ≡ agreement self.now giver.now taker.now }
        ensures in_range { IfSome result
            (λ a. (a.rate ≤ highest_rate) × (a.limit ≤ highest_limit)) }
        ensures all_in_range { IsTrue (has_terms_in_range self.now) }
    {
        let key = Pair {
            giver: *giver,
            taker: *taker,
        };
        self.agreements.get(&key).copied()
    }

    /// The rate and the limit of each agreement are in their ranges. This is a law for a caller who
    /// has kept an agreement and asks the table no more: calling it gives its clause as a fact, and
    /// does nothing.
    #[inline(always)]
    pub fn terms_are_in_range(&self)
        ensures { (giver taker : List ℕ)
            → IfSome (agreement self.now giver taker)
            (λ a. (a.rate ≤ highest_rate) × (a.limit ≤ highest_limit)) }
    {
        // Opens the table, whose invariant says so.
        let _ = self.agreements.len();
    }

    /// How many lines `FIRM` the file has. The house is none of these firms.
    pub fn firm_count(&self) -> usize
        ensures { result ≡ length self.now.firms }
    {
        self.firms.len()
    }

    /// How many lines `ACCOUNT` the file has.
    pub fn account_count(&self) -> usize
        ensures { result ≡ length self.now.accounts }
    {
        self.accounts.len()
    }

    /// How many lines `INSTRUMENT` the file has.
    pub fn instrument_count(&self) -> usize
        ensures { result ≡ length self.now.instruments }
    {
        self.instruments.len()
    }

    /// How many lines `AGREEMENT` a file of version 1 has; none where it is of version 2.
    pub fn agreement_count(&self) -> usize
        ensures { result ≡ length self.now.agreements }
    {
        self.agreements.len()
    }

    /// The firm of the line `FIRM` at this place among those lines, from 0; `None` behind the last.
    /// The house has no such place.
    pub fn firm_at(&self, place: usize) -> Option<FirmId>
        ensures { result ≡ slice_get self.now.firms place }
    {
        self.firms.get_index(place).copied()
    }

    /// The account of the line `ACCOUNT` at this place among those lines, from 0; `None` behind the
    /// last.
    pub fn account_at(&self, place: usize) -> Option<Account>
        ensures { result ≡ slice_get self.now.accounts place }
    {
        self.accounts.get_index(place).copied()
    }

    /// The instrument of the line `INSTRUMENT` at this place among those lines, from 0; `None`
    /// behind the last.
    pub fn instrument_at(&self, place: usize) -> Option<InstrumentId>
        ensures { result ≡ slice_get self.now.instruments place }
    {
        self.instruments.get_index(place).copied()
    }

    /// The giver, the taker and the terms, in hundredths a lot and in lots, of the line `AGREEMENT`
    /// at this place among those lines, from 0; `None` behind the last, and where the file is of
    /// version 2.
    pub fn agreement_at(&self, place: usize) -> Option<(Pair, Agreement)>
        ensures { result ≡ slice_get self.now.agreements place }
    {
        let (pair, agreement) = self.agreements.get_index(place)?;
        Some((*pair, *agreement))
    }

    /// Puts all but the agreements of this table into another, which has none, in place of what
    /// stands there.
    fn copy_names_into(&self, copy: &mut House) -> Result<(), Memory>
        requires fixed { copy.old.agreements ≡ [] }
        requires made { copy.old.opening ≡ [] }
        ensures { IfOk result (λ _. copy.new ≡ record self.now { agreements = []; opening = [] }) }
    {
        copy.house = self.house;
        copy.firms = self.firms.clone()?;
        copy.accounts = self.accounts.clone()?;
        copy.instruments = self.instruments.clone()?;
        Ok(())
    }

    /// Puts the agreements of this table into another, which is the same but has none.
    fn copy_agreements_into(&self, copy: &mut House) -> Result<(), Memory>
        requires { copy.old ≡ record self.now { agreements = []; opening = [] } }
        ensures { IfOk result (λ _. copy.new ≡ self.now) }
    {
        copy.agreements = self.agreements.clone()?;
        copy.opening = self.opening.clone()?;
        Ok(())
    }

    /// Puts all that stands in this table into another, which has no agreements.
    fn copy_into(&self, copy: &mut House) -> Result<(), Memory>
        requires fixed { copy.old.agreements ≡ [] }
        requires made { copy.old.opening ≡ [] }
        ensures { IfOk result (λ _. copy.new ≡ self.now) }
    {
        self.copy_names_into(copy)?;
        self.copy_agreements_into(copy)
    }

    /// The same table once more. The one call beside `parse` that takes memory.
    ///
    /// # Errors
    ///
    /// `Memory` where a growth was refused.
    pub fn copy(&self, alloc: Global) -> Result<House, Memory>
        ensures { IfOk result (λ copy. copy ≡ self.now) }
    {
        let mut copy = House::alone(alloc, self.house);
        match self.copy_into(&mut copy) {
            Ok(()) => Ok(copy),
            Err(memory) => {
                drop(copy);
                Err(memory)
            }
        }
    }
}
