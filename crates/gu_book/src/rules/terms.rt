//! The terms of givers and takers: those that are kept, and where none are kept those of the house
//! table.
ghost use Rattle.std.specs.Prelude.{◌≡◌, List, Some, IfSome, IfOk, OnOk, option_map};
ghost use Rattle.std.specs.Prelude.{◌≤◌};
ghost use Rattle.gu_base.specs.House.{agreement};
ghost use Rattle.gu_base.specs.Limits.{highest_rate};
ghost use Rattle.gu_base.specs.Terms.{deed_of, terms_of, limit_of, used_of};
ghost use Rattle.gu_base.specs.declared.entry.Record.{Record as RecordData};
ghost use Rattle.gu_book.specs.Dealing.{CanClaim, HasRoomForClaim, IsClaimed, place_of_kind};
ghost use Rattle.gu_book.specs.Kinds.{IsOfTerms};
ghost use Rattle.gu_book.specs.Limits.{AllWithinLimits};
ghost use Rattle.gu_depend.specs.Terms.{AreTermsOf, place_of_pair};
ghost use Rattle.gu_fees.specs.Terms.{IsReady, last_entry};

use gu_base::{Agreement, Command, Deed, FirmId, Kind, Memory, Node, Number};
use gu_fees::Terms;
use gu_parties::House;

/// The terms of a giver and a taker who stand at this place, if they do.
#[tactic(auto, using(crate::proofs::Dealing::filed_terms, crate::proofs::Dealing::terms_rate))]
pub(crate) fn terms_at(
    house: &House,
    terms: &Terms,
    place: Option<usize>,
    giver: &FirmId,
    taker: &FirmId,
) -> Option<Agreement>
    requires { place ≡ place_of_pair terms.now (record { giver = giver.now; taker = taker.now }) }
    ensures value { (l : List RecordData) → AreTermsOf house.now l terms.now
        → result ≡ terms_of house.now l giver.now taker.now }
    ensures rate { (l : List RecordData) → AreTermsOf house.now l terms.now → AllWithinLimits l
        → IfSome result (λ a. a.rate ≤ highest_rate) }
{
    house.terms_are_in_range();
    match terms.row_at(place) {
        Some(row) => row.terms(),
        None => house.agreement(giver, taker),
    }
}

/// The terms of a giver and a taker.
pub(crate) fn terms_of(
    house: &House,
    terms: &Terms,
    giver: &FirmId,
    taker: &FirmId,
) -> Option<Agreement>
    ensures value { (l : List RecordData) → AreTermsOf house.now l terms.now
        → result ≡ terms_of house.now l giver.now taker.now }
    ensures rate { (l : List RecordData) → AreTermsOf house.now l terms.now → AllWithinLimits l
        → IfSome result (λ a. a.rate ≤ highest_rate) }
{
    terms_at(house, terms, terms.place(giver, taker), giver, taker)
}

/// The lots that a taker has used of what a giver gave it, and those that it may use, `None`
/// without terms.
#[tactic(auto, using(crate::proofs::Dealing::filed_limit, crate::proofs::Dealing::filed_used))]
pub(crate) fn used_and_limit(
    house: &House,
    terms: &Terms,
    giver: &FirmId,
    taker: &FirmId,
) -> (u64, Option<u64>)
    ensures used { (l : List RecordData) → AreTermsOf house.now l terms.now
        → result.0 ≡ used_of l giver.now taker.now }
    ensures limit { (l : List RecordData) → AreTermsOf house.now l terms.now
        → result.1 ≡ limit_of house.now l giver.now taker.now }
{
    match terms.row(giver, taker) {
        Some(row) => (row.used(), row.limit()),
        None => (0, filed_limit(house, giver, taker)),
    }
}

/// The limit of the terms that the house table has.
fn filed_limit(house: &House, giver: &FirmId, taker: &FirmId) -> Option<u64>
    ensures { result ≡ option_map (λ a. a.limit) (agreement house.now giver.now taker.now) }
{
    match house.agreement(giver, taker) {
        Some(agreement) => Some(agreement.limit),
        None => None,
    }
}

/// The lots that a giver allows a taker, `None` without terms.
pub(crate) fn limit_of(house: &House, terms: &Terms, giver: &FirmId, taker: &FirmId) -> Option<u64>
    ensures { (l : List RecordData) → AreTermsOf house.now l terms.now
        → result ≡ limit_of house.now l giver.now taker.now }
{
    let (_, limit) = used_and_limit(house, terms, giver, taker);
    limit
}

/// Makes room for one entry more of a giver and a taker, and says where they stand. No terms
/// change, not even where memory is refused.
pub(crate) fn ready(
    terms: &mut Terms,
    house: &House,
    giver: &FirmId,
    taker: &FirmId,
) -> Result<usize, Memory>
    ensures ready { OnOk result (IsReady terms.new giver.now taker.now) }
    ensures place { IfOk result (λ i. Some i ≡ place_of_pair terms.new (record {
      giver = giver.now;
      taker = taker.now;
    })) }
    ensures same { (l : List RecordData) → AreTermsOf house.now l terms.old
        → AreTermsOf house.now l terms.new }
    ensures last { last_entry terms.new ≡ last_entry terms.old }
{
    let Some(place) = terms.place(giver, taker) else {
        return ready_first(terms, house, giver, taker);
    };
    terms.ready_at(place)?;
    Ok(place)
}

/// The same for two who have dealt nothing yet, so that the house table is asked once.
#[cold]
#[inline(never)]
#[tactic(auto, using(gu_depend::proofs::TermsFollow::readied_follows))]
fn ready_first(
    terms: &mut Terms,
    house: &House,
    giver: &FirmId,
    taker: &FirmId,
) -> Result<usize, Memory>
    ensures ready { OnOk result (IsReady terms.new giver.now taker.now) }
    ensures place { IfOk result (λ i. Some i ≡ place_of_pair terms.new (record {
      giver = giver.now;
      taker = taker.now;
    })) }
    ensures same { (l : List RecordData) → AreTermsOf house.now l terms.old
        → AreTermsOf house.now l terms.new }
    ensures last { last_entry terms.new ≡ last_entry terms.old }
{
    let file = house.agreement(giver, taker);
    terms.ready(giver, taker, file)?;
    match terms.place(giver, taker) {
        Some(place) => Ok(place),
        None => unreachable!(),
    }
}

/// For which giver and taker an Agree or a Raise of this firm is, and what it does to their terms.
#[tactic(auto, using(gu_depend::proofs::Deals::both_same))]
pub(crate) fn deed_of(by: &FirmId, command: &Command) -> (FirmId, FirmId, Deed)
    requires { IsOfTerms command.now }
    ensures { (l : List RecordData) → deed_of l result.0 result.1 by.now command.now
        ≡ Some result.2 }
{
    match command {
        Command::Agree {
            giver,
            taker,
            rate,
            limit,
        } => {
            let agreed = Agreement {
                rate: *rate,
                limit: *limit,
            };
            (*giver, *taker, Deed::Makes(agreed))
        }
        Command::Raise { giver, lots } => (*giver, *by, Deed::Raises(*lots)),
        _ => unreachable!(),
    }
}

/// The same for a claim of this node, if it is given.
pub(crate) fn ready_claim(
    terms: &mut Terms,
    house: &House,
    node: &Node,
) -> Result<Option<usize>, Memory>
    ensures ready { OnOk result (HasRoomForClaim terms.new node.now.kind) }
    ensures place { IfOk result (λ o. o ≡ place_of_kind terms.new node.now.kind) }
    ensures same { (l : List RecordData) → AreTermsOf house.now l terms.old
        → AreTermsOf house.now l terms.new }
    ensures last { last_entry terms.new ≡ last_entry terms.old }
{
    match &node.kind {
        Kind::Given { giver, taker, .. } => Ok(Some(ready(terms, house, giver, taker)?)),
        Kind::Root(_) | Kind::Own { .. } => Ok(None),
    }
}

/// Where the giver and the taker of a node stand, if it is given.
pub(crate) fn place_of(terms: &Terms, node: &Node) -> Option<usize>
    ensures { result ≡ place_of_kind terms.now node.now.kind }
{
    match &node.kind {
        Kind::Given { giver, taker, .. } => terms.place(giver, taker),
        Kind::Root(_) | Kind::Own { .. } => None,
    }
}

/// Puts the claim of this number to the terms of the giver and the taker of its node, who stand at
/// this place and for whom there has to be room.
#[tactic(auto, using(crate::proofs::Cited::claimed_terms))]
pub(crate) fn claim(terms: &mut Terms, place: Option<usize>, number: Number, node: &Node)
    requires place { place ≡ place_of_kind terms.old node.now.kind }
    requires room { CanClaim terms.old number node.now.lots node.now.kind }
    ensures { IsClaimed terms.old terms.new number node.now.lots node.now.kind }
{
    if let Some(i) = place {
        terms.put_at(i, number, Deed::Uses(node.lots));
    }
}
