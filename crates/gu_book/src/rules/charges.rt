//! What a claim costs, and the running sums of what the live claims cost.
ghost use Rattle.std.specs.Prelude.{◌≡◌, ◌≤◌, ◌++◌, ℕ, List, [], IfSome, OnOk, OnErr};
ghost use Rattle.std.specs.List.{cons_option};
ghost use Rattle.gu_base.specs.Limits.{highest_rate, most_lots};
ghost use Rattle.gu_base.specs.History.{RisesFrom};
ghost use Rattle.gu_base.specs.Fees.{charge_of, charge_of_node};
ghost use Rattle.gu_base.specs.declared.command.Command.TheVariants.{Claim};
ghost use Rattle.gu_base.specs.declared.node.Charge.{Charge as ChargeData};
ghost use Rattle.gu_fees.specs.Sums.{AreSumsOf};
ghost use Rattle.gu_book.specs.Charging.{HasRoomFor, IsCharged};
ghost use Rattle.gu_base.specs.declared.entry.Record.{Record as RecordData};
ghost use Rattle.gu_book.specs.Dealing.{place_of_kind};
ghost use Rattle.gu_book.specs.Limits.{AllWithinLimits};
ghost use Rattle.gu_depend.specs.Terms.{AreTermsOf};

use crate::live::Live;
use crate::rules::nodes::node_of;
use crate::rules::terms::{place_of, terms_at};
use gu_base::{Charge, Kind, Memory, Node, NodeName};
use gu_fees::{Fees, Terms};
use gu_parties::House;

/// What a claim of a node costs whose giver and taker stand at this place, if they do.
pub(crate) fn node_charge(
    house: &House,
    terms: &Terms,
    place: Option<usize>,
    node: &Node,
) -> Option<Charge>
    requires few { node.now.lots ≤ most_lots }
    requires place { place ≡ place_of_kind terms.now node.now.kind }
    ensures value { (l : List RecordData) → AreTermsOf house.now l terms.now
        → result ≡ charge_of_node house.now l node.now }
    ensures lots { IfSome result (λ c. c.lots ≤ most_lots) }
    ensures rate { (l : List RecordData) → AreTermsOf house.now l terms.now → AllWithinLimits l
        → IfSome result (λ c. c.rate ≤ highest_rate) }
{
    match &node.kind {
        Kind::Given { giver, taker, .. } => match terms_at(house, terms, place, giver, taker) {
            Some(agreed) => Some(Charge {
                giver: *giver,
                taker: *taker,
                lots: node.lots,
                rate: agreed.rate,
            }),
            None => None,
        },
        Kind::Root(_) | Kind::Own { .. } => None,
    }
}

/// What a Claim of the node of this name costs.
pub(crate) fn claim_charge(
    house: &House,
    terms: &Terms,
    changes: &Live<'_>,
    node: NodeName,
) -> Option<Charge>
    requires within { AllWithinLimits changes.now }
    requires rises { RisesFrom 1 changes.now }
    requires dealt { AreTermsOf house.now changes.now terms.now }
    ensures value { (account : List ℕ)
        → result ≡ charge_of house.now changes.now (Claim node account) }
    ensures lots { IfSome result (λ c. c.lots ≤ most_lots) }
    ensures rate { IfSome result (λ c. c.rate ≤ highest_rate) }
{
    match node_of(changes, &node) {
        Some(x) => node_charge(house, terms, place_of(terms, &x), &x),
        None => None,
    }
}

/// Adds a charge to the sums, if there is one, and makes the rows that aren't there. The sums have
/// to have room for it, and none changes where memory is refused.
#[inline(always)]
pub(crate) fn put(fees: &mut Fees, charge: &Option<Charge>) -> Result<(), Memory>
    requires { HasRoomFor fees.old charge.now }
    ensures put { OnOk result ((cs : List ChargeData) → AreSumsOf fees.old cs
        → AreSumsOf fees.new (cs ++ cons_option charge.now [])) }
    ensures same { OnErr result ((cs : List ChargeData) → AreSumsOf fees.old cs
        → AreSumsOf fees.new cs) }
{
    match charge {
        None => Ok(()),
        Some(c) => fees.put(&c.giver, &c.taker, c.lots, c.rate),
    }
}

/// Takes a charge out of the sums again, if there is one. It has to be in them.
pub(crate) fn take_back(fees: &mut Fees, charge: &Option<Charge>)
    requires { IsCharged fees.old charge.now }
    ensures { (cs : List ChargeData) → AreSumsOf fees.old (cs ++ cons_option charge.now [])
        → AreSumsOf fees.new cs }
{
    if let Some(c) = charge {
        fees.uncharge(&c.giver, &c.taker, c.lots, c.rate);
    }
}
