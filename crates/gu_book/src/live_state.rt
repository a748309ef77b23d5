//! What is kept of the live changes: their trees, positions, fees and terms.
ghost use Rattle.std.specs.Prelude.{◌≡◌, true, [], OnOk, OnErr};
ghost use Rattle.gu_base.specs.History.{is_change};
ghost use Rattle.gu_base.specs.House.{House as HouseData};
ghost use Rattle.gu_base.specs.Numbers.{EntryPart};
ghost use Rattle.gu_base.specs.Rows.{state_after};
ghost use Rattle.gu_base.specs.declared.command.Command.TheVariants.{Trade, Split, Claim};
ghost use Rattle.gu_book.specs.Found.{IsUndoneAs};
ghost use Rattle.gu_book.specs.Kinds.{IsOfTerms};
ghost use Rattle.gu_book.specs.LiveState.{CanAdd, CanRemove, IsAdded, IsLeft, IsRemoved};
ghost use Rattle.gu_book.specs.LiveState.{IsStateOf, IsStill};
ghost use Rattle.gu_tree.specs.Changes.{is_given_back};
ghost use Rattle.gu_tree.specs.Shown.{DecidesNode, GivesBack};

use crate::found::{Sought, Undone};
use crate::grove;
use crate::live::{Change, Live};
use crate::rules::holdings::Holding;
use crate::rules::{charges, holdings, terms};
use gu_base::{AccountId, Command, Entry, Memory, NodeName, Number, Part, Place, State};
use gu_fees::{Fees, Terms};
use gu_parties::House;
use gu_positions::Positions;
use gu_tree::Trees;
use std::alloc::Global;

/// The trees, positions, fees and terms of the live changes.
#[derive(Drop)]
pub(crate) struct LiveState {
    pub(crate) trees: Trees<Global>,
    pub(crate) positions: Positions,
    pub(crate) fees: Fees,
    pub(crate) terms: Terms,
}

/// An accepted change that is to be added, and what was looked up for it.
#[derive(Drop)]
pub(crate) struct Addition<'b, 'c> {
    pub(crate) house: &'b House,
    /// The live changes that it follows.
    pub(crate) changes: Live<'b>,
    pub(crate) made: &'c Change<'c>,
    pub(crate) sought: &'c Sought,
}

/// A live change that is to be taken out, and what was looked up for it.
#[derive(Drop)]
pub(crate) struct Removal<'b, 'c> {
    pub(crate) house: &'b House,
    /// The live changes, of which it is one.
    pub(crate) changes: Live<'b>,
    pub(crate) number: Number,
    pub(crate) entry: &'b Entry,
    pub(crate) sought: &'c Sought,
}

impl LiveState {
    /// That of no change.
    pub(crate) fn new(alloc: Global) -> LiveState
        ensures { (t : HouseData) → IsStateOf t [] 1 result }
    {
        LiveState {
            trees: Trees::new(alloc, alloc),
            positions: Positions::new(alloc),
            fees: Fees::new(alloc),
            terms: Terms::new(alloc),
        }
    }

    /// Adds a change. All growths come before anything changes, but for lots that are taken out
    /// again: where one is refused, the state is that of the changes before. Each kind has a
    /// function of its own, so that each runs through no more code and no larger a frame than it
    /// needs.
    pub(crate) fn add(&mut self, alloc: Global, addition: &Addition<'_, '_>) -> Result<(), Memory>
        requires change { is_change addition.now.made.now.command.now ≡ true }
        requires can { CanAdd addition.now self.old }
        ensures added { OnOk result (IsAdded addition.now self.new) }
        ensures unchanged { OnErr result (IsStill addition.now self.new) }
    {
        match addition.made.command {
            Command::Trade {
                firm,
                account,
                instrument,
                side,
                lots,
            } => {
                let traded = holdings::traded(firm, account, instrument, *side, *lots);
                self.add_trade(alloc, addition, &traded)
            }
            Command::Split { parts, .. } => self.add_split(addition, parts.as_slice()),
            Command::Claim { account, .. } => self.add_claim(addition, account),
            Command::Refuse { .. } => self.add_return(addition, State::Refused),
            Command::Cancel { .. } => self.add_return(addition, State::Cancelled),
            Command::Agree { .. } | Command::Raise { .. } => self.add_deed(addition),
            Command::Initiate { .. } | Command::Decline { .. } | Command::Reverse { .. } => {
                unreachable!()
            }
        }
    }

    /// Adds a Trade of these lots: they go where it says, and its tree goes beside the others.
    #[inline(never)]
    fn add_trade(
        &mut self,
        alloc: Global,
        addition: &Addition<'_, '_>,
        traded: &Holding,
    ) -> Result<(), Memory>
        requires trade { addition.now.made.now.command.now
            ≡ Trade traded.now.key.firm traded.now.key.account
            traded.now.key.instrument traded.now.side traded.now.lots }
        requires can { CanAdd addition.now self.old }
        ensures added { OnOk result (IsAdded addition.now self.new) }
        ensures unchanged { OnErr result (IsStill addition.now self.new) }
    {
        self.trees.ready()?;
        holdings::put(&mut self.positions, traded)?;
        let place = Place {
            firm: traded.key.firm,
            account: traded.key.account,
        };
        grove::plant(&mut self.trees, alloc, addition.made, place, traded.lots);
        Ok(())
    }

    /// Adds a Split into these parts: their lots go where they say, and they below their node. The
    /// lots are taken out again where the growth of the tree is refused.
    #[inline(never)]
    fn add_split(&mut self, addition: &Addition<'_, '_>, parts: &[Part]) -> Result<(), Memory>
        requires split { (n : EntryPart) × (addition.now.made.now.command.now ≡ Split n parts.now) }
        requires can { CanAdd addition.now self.old }
        ensures added { OnOk result (IsAdded addition.now self.new) }
        ensures unchanged { OnErr result (IsStill addition.now self.new) }
    {
        self.trees.ready()?;
        let Some(named) = &addition.sought.named else {
            unreachable!()
        };
        let by = addition.made.firm;
        let whole = holdings::whole_of(&addition.changes, named);
        let moved = holdings::put_all_away(&mut self.positions, &whole, by, parts)?;
        if let Err(e) = grove::split(&mut self.trees, addition.made, addition.sought, parts) {
            holdings::take_away(&mut self.positions, &whole, by, parts);
            return Err(e);
        }
        holdings::take_moved(&mut self.positions, &whole, moved);
        Ok(())
    }

    /// Adds a Claim into this account: it is charged and put to the terms, and its node moves with
    /// its lots. What is put is taken out again where a later growth is refused; all else changes
    /// behind the last growth.
    #[inline(never)]
    fn add_claim(&mut self, addition: &Addition<'_, '_>, account: &AccountId) -> Result<(), Memory>
        requires claim { (n : EntryPart) × (addition.now.made.now.command.now
            ≡ Claim n account.now) }
        requires can { CanAdd addition.now self.old }
        ensures added { OnOk result (IsAdded addition.now self.new) }
        ensures unchanged { OnErr result (IsStill addition.now self.new) }
    {
        self.trees.ready()?;
        let Some(named) = &addition.sought.named else {
            unreachable!()
        };
        let place = terms::ready_claim(&mut self.terms, addition.house, &named.node)?;
        let whole = holdings::whole_of(&addition.changes, named);
        let charge = charges::node_charge(addition.house, &self.terms, place, &named.node);
        let claimed = holdings::in_account(&whole, addition.made.firm, account);
        holdings::put(&mut self.positions, &claimed)?;
        if let Err(e) = charges::put(&mut self.fees, &charge) {
            holdings::take(&mut self.positions, &claimed);
            return Err(e);
        }
        grove::claim(&mut self.trees, addition.made, addition.sought, *account);
        holdings::take(&mut self.positions, &whole);
        terms::claim(&mut self.terms, place, addition.made.number, &named.node);
        Ok(())
    }

    /// Adds a Refuse or a Cancel, which gives its node back: `state` is Refused or Cancelled.
    #[inline(never)]
    fn add_return(&mut self, addition: &Addition<'_, '_>, state: State) -> Result<(), Memory>
        requires back { (n : EntryPart) × GivesBack n state addition.now.made.now.command.now }
        requires can { CanAdd addition.now self.old }
        ensures added { OnOk result (IsAdded addition.now self.new) }
        ensures unchanged { OnErr result (IsStill addition.now self.new) }
    {
        self.trees.ready()?;
        grove::give_back(&mut self.trees, addition.made, addition.sought, state);
        Ok(())
    }

    /// Adds an Agree or a Raise: what it does goes beside the other dealings of its giver and
    /// taker.
    #[inline(never)]
    fn add_deed(&mut self, addition: &Addition<'_, '_>) -> Result<(), Memory>
        requires of_terms { IsOfTerms addition.now.made.now.command.now }
        requires can { CanAdd addition.now self.old }
        ensures added { OnOk result (IsAdded addition.now self.new) }
        ensures unchanged { OnErr result (IsStill addition.now self.new) }
    {
        let (giver, taker, deed) = terms::deed_of(addition.made.firm, addition.made.command);
        let place = terms::ready(&mut self.terms, addition.house, &giver, &taker)?;
        self.terms.put_at(place, addition.made.number, deed);
        Ok(())
    }

    /// Takes out a live change on which nothing stands, whatever came after it. All growths come
    /// before anything changes: where one is refused, the state is what it was. Each kind has a
    /// function of its own, as above.
    pub(crate) fn remove(&mut self, removal: &Removal<'_, '_>) -> Result<(), Memory>
        requires can { CanRemove removal.now self.old }
        ensures removed { OnOk result (IsRemoved removal.now self.old self.new) }
        ensures unchanged { OnErr result (IsLeft removal.now self.old self.new) }
    {
        let Some(undone) = &removal.sought.undone else {
            self.terms.take_out(removal.number);
            return Ok(());
        };
        match &removal.entry.command {
            Command::Trade {
                firm,
                account,
                instrument,
                side,
                lots,
            } => {
                let traded = holdings::traded(firm, account, instrument, *side, *lots);
                self.remove_trade(removal, &traded);
                Ok(())
            }
            Command::Split { parts, .. } => self.remove_split(removal, undone, parts.as_slice()),
            Command::Claim { node, account } => {
                self.remove_claim(removal, undone, *node, account)
            }
            Command::Refuse { .. } | Command::Cancel { .. } => {
                self.remove_return(removal, undone);
                Ok(())
            }
            _ => unreachable!(),
        }
    }

    /// Takes out a Trade of these lots, with its tree.
    #[inline(never)]
    fn remove_trade(&mut self, removal: &Removal<'_, '_>, traded: &Holding)
        requires trade { removal.now.entry.now.command
            ≡ Trade traded.now.key.firm traded.now.key.account
            traded.now.key.instrument traded.now.side traded.now.lots }
        requires can { CanRemove removal.now self.old }
        ensures { IsRemoved removal.now self.old self.new }
    {
        grove::uproot(&mut self.trees, removal);
        holdings::take(&mut self.positions, traded);
    }

    /// Takes out a Split into these parts: the lots that they moved go back.
    #[inline(never)]
    fn remove_split(
        &mut self,
        removal: &Removal<'_, '_>,
        undone: &Undone,
        parts: &[Part],
    ) -> Result<(), Memory>
        requires split { (n : EntryPart) × (removal.now.entry.now.command ≡ Split n parts.now) }
        requires found { IsUndoneAs removal.now.changes removal.now.number undone.now
            removal.now.sought.now.path.items }
        requires can { CanRemove removal.now self.old }
        ensures removed { OnOk result (IsRemoved removal.now self.old self.new) }
        ensures unchanged { OnErr result (IsLeft removal.now self.old self.new) }
    {
        let entry = removal.entry;
        let back = holdings::parts_back(&removal.changes, entry, parts, undone);
        holdings::ready_back(&mut self.positions, &back)?;
        grove::unsplit(&mut self.trees, removal, undone);
        holdings::move_parts_back(&mut self.positions, entry, parts, &back);
        Ok(())
    }

    /// Takes out a Claim of this node into this account: its lots go back, and what it was charged
    /// and put to the terms goes.
    #[inline(never)]
    fn remove_claim(
        &mut self,
        removal: &Removal<'_, '_>,
        undone: &Undone,
        node: NodeName,
        account: &AccountId,
    ) -> Result<(), Memory>
        requires claim { removal.now.entry.now.command ≡ Claim node account.now }
        requires found { IsUndoneAs removal.now.changes removal.now.number undone.now
            removal.now.sought.now.path.items }
        requires can { CanRemove removal.now self.old }
        ensures removed { OnOk result (IsRemoved removal.now self.old self.new) }
        ensures unchanged { OnErr result (IsLeft removal.now self.old self.new) }
    {
        let entry = removal.entry;
        let charge = charges::claim_charge(removal.house, &self.terms, &removal.changes, node);
        let back = holdings::holding_above(&removal.changes, &self.trees, node, undone);
        holdings::ready_back(&mut self.positions, &back)?;
        grove::unclaim(&mut self.trees, removal, undone);
        charges::take_back(&mut self.fees, &charge);
        self.terms.take_out(removal.number);
        holdings::move_claim_back(&mut self.positions, entry, account, &back);
        Ok(())
    }

    /// Takes out a Refuse or a Cancel: its node is offered again.
    #[inline(never)]
    fn remove_return(&mut self, removal: &Removal<'_, '_>, undone: &Undone)
        requires back { (n : EntryPart) × DecidesNode n removal.now.entry.now.command
            × (is_given_back (state_after removal.now.entry.now.command) ≡ true) }
        requires found { IsUndoneAs removal.now.changes removal.now.number undone.now
            removal.now.sought.now.path.items }
        requires can { CanRemove removal.now self.old }
        ensures { IsRemoved removal.now self.old self.new }
    {
        grove::offer_again(&mut self.trees, removal, undone);
    }
}
