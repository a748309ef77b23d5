//! Why a change is refused.
ghost use Rattle.std.specs.Prelude.{◌≡◌, ◌+◌, ◌≤◌, true, length, List, map, nat_le, sum_by};
ghost use Rattle.std.specs.Prelude.{bytes_eq, Some, None, IfSome};
ghost use Rattle.gu_base.specs.House.{knows_firm, knows_account};
ghost use Rattle.gu_base.specs.History.{live};
ghost use Rattle.gu_base.specs.Limits.{most_parts};
ghost use Rattle.gu_base.specs.Nodes.{is_offered};
ghost use Rattle.gu_base.specs.declared.entry.Record.{Record as RecordData};
ghost use Rattle.gu_base.specs.declared.node.Node.{Node as NodeData};
ghost use Rattle.gu_base.specs.Refusals.{trade_row, knows_own_account, refusal_of_part, first};
ghost use Rattle.gu_base.specs.Refusals.{split_row, is_giver, is_taker, limit_row, limit_by};
ghost use Rattle.gu_base.specs.Refusals.{used_by, claim_row, refuse_row, cancel_row, agree_row};
ghost use Rattle.gu_base.specs.Refusals.{raised_row, raise_row, row, refusal_of};
ghost use Rattle.gu_base.specs.Numbers.{is_lots, are_terms};
ghost use Rattle.gu_depend.specs.Terms.{AreTermsOf};
ghost use Rattle.gu_book.specs.Found.{IsFoundAs, IsNamedIn};
ghost use Rattle.gu_tree.specs.Shown.{named_node};

use crate::found::Found;
use crate::rules::basis::Basis;
use crate::rules::terms::{limit_of, terms_of, used_and_limit};
use gu_base::{
    AccountId, Agreement, Command, FirmId, InstrumentId, Kind, Lots, Node, NodeName, Part, Rate,
    Refusal,
};
use gu_fees::Terms;
use gu_parties::House;
use gu_tree::MAX_DEPTH;

/// Whether lots are in their range.
fn is_lots(lots: u64) -> bool
    ensures { result ≡ is_lots lots }
{
    1 <= lots && lots <= Lots::MAX
}

/// Why a trade is refused.
#[inline(never)]
fn trade_refusal(
    house: &House,
    by: &FirmId,
    firm: &FirmId,
    account: &AccountId,
    instrument: &InstrumentId,
    lots: u64,
) -> Option<Refusal>
    ensures { result ≡ trade_row house.now by.now firm.now account.now instrument.now lots }
{
    if *by != house.house() {
        Some(Refusal::HouseOnly)
    } else if !house.firm(firm) {
        Some(Refusal::UnknownFirm)
    } else if !house.account(firm, account) {
        Some(Refusal::UnknownAccount)
    } else if !house.instrument(instrument) {
        Some(Refusal::UnknownInstrument)
    } else if !is_lots(lots) {
        Some(Refusal::BadLots)
    } else {
        None
    }
}

/// The account that an own part names.
fn own_account<'a>(by: &FirmId, part: &'a Part) -> Option<&'a AccountId>
    ensures own { IfSome result (λ a. bytes_eq part.now.firm by.now ≡ true) }
    ensures named { IfSome result (λ a. part.now.account ≡ Some a.now) }
{
    if part.firm == *by {
        part.account.as_ref()
    } else {
        None
    }
}

/// Whether an own part names an account of its firm, one of which may be known, so that it isn't
/// looked up again.
fn knows_own_account(house: &House, by: &FirmId, part: &Part, known: Option<&AccountId>) -> bool
    requires { IfSome known (λ a. knows_account house.now by.now a.now ≡ true) }
    ensures { result ≡ knows_own_account house.now by.now part.now }
{
    if part.firm != *by {
        return true;
    }
    let Some(account) = &part.account else {
        return false;
    };
    match known {
        Some(known) if *known == *account => true,
        _ => house.account(by, account),
    }
}

/// Why a part is refused of the split of a firm that is known, so that it isn't looked up again for
/// each of its own parts.
fn part_refusal(
    house: &House,
    by: &FirmId,
    part: &Part,
    known: Option<&AccountId>,
) -> Option<Refusal>
    requires firm { knows_firm house.now by.now ≡ true }
    requires account { IfSome known (λ a. knows_account house.now by.now a.now ≡ true) }
    ensures { result ≡ refusal_of_part house.now by.now part.now }
{
    if part.firm != *by && !house.firm(&part.firm) {
        Some(Refusal::UnknownFirm)
    } else if !knows_own_account(house, by, part, known) {
        Some(Refusal::UnknownAccount)
    } else if !is_lots(part.lots) {
        Some(Refusal::BadLots)
    } else {
        None
    }
}

/// Why the first part that is refused is refused.
fn parts_refusal(house: &House, by: &FirmId, parts: &[Part]) -> Option<Refusal>
    requires { knows_firm house.now by.now ≡ true }
    ensures { result ≡ first (map (refusal_of_part house.now by.now) parts.now) }
{
    let mut known = None;
    for part in parts {
        if let Some(refusal) = part_refusal(house, by, part, known) {
            return Some(refusal);
        }
        if known.is_none() {
            known = own_account(by, part);
        }
    }
    None
}

/// The lots of all parts.
fn parts_sum(parts: &[Part]) -> u128
    requires { length parts.now ≤ most_parts }
    ensures { result ≡ sum_by (λ p. p.lots) parts.now }
{
    let mut sum: u128 = 0;
    for part in parts {
        sum += part.lots as u128;
    }
    sum
}

/// Why a split of what was found is refused.
#[inline(never)]
fn split_refusal(house: &House, by: &FirmId, parts: &[Part], found: &Found) -> Option<Refusal>
    requires { knows_firm house.now by.now ≡ true }
    ensures { (l : List RecordData) (x : NodeData) → IsFoundAs l x found.now
        → result ≡ split_row house.now l by.now parts.now x }
{
    if !found.is_owned_by(by) {
        return Some(Refusal::NotYours);
    }
    if let Some(number) = found.split {
        return Some(Refusal::AlreadySplit(number));
    }
    if found.is_offered() {
        return Some(Refusal::StillOffered);
    }
    if parts.is_empty() || parts.len() > usize::from(NodeName::MAX_PART) {
        return Some(Refusal::BadPartCount);
    }
    if found.depth as usize >= MAX_DEPTH {
        return Some(Refusal::TooDeep);
    }
    if let Some(refusal) = parts_refusal(house, by, parts) {
        return Some(refusal);
    }
    if parts_sum(parts) != found.head.lots as u128 {
        return Some(Refusal::SumDiffers);
    }
    None
}

/// Whether a firm is the giver of a node.
fn is_giver(firm: &FirmId, kind: &Kind) -> bool
    ensures { result ≡ is_giver firm.now kind.now }
{
    match kind {
        Kind::Given { giver, .. } => *giver == *firm,
        Kind::Root(_) | Kind::Own { .. } => false,
    }
}

/// Whether a firm is the taker of a node.
fn is_taker(firm: &FirmId, kind: &Kind) -> bool
    ensures { result ≡ is_taker firm.now kind.now }
{
    match kind {
        Kind::Given { taker, .. } => *taker == *firm,
        Kind::Root(_) | Kind::Own { .. } => false,
    }
}

/// Whether so many lots more are within a limit.
fn is_within(used: u64, lots: u64, limit: u64) -> bool
    ensures { result ≡ nat_le (used + lots) limit }
{
    match used.checked_add(lots) {
        Some(sum) => sum <= limit,
        None => false,
    }
}

/// Why a use of so many lots, with those already used, is refused under a limit.
fn limit_refusal(used: u64, lots: u64, limit: Option<u64>) -> Option<Refusal>
    ensures { result ≡ limit_row (used + lots) limit }
{
    match limit {
        None => Some(Refusal::NoAgreement),
        Some(limit) => {
            if is_within(used, lots, limit) {
                None
            } else {
                Some(Refusal::LimitExceeded)
            }
        }
    }
}

/// Why the terms of a node refuse a claim of it.
fn terms_refusal(house: &House, terms: &Terms, node: &Node) -> Option<Refusal>
    ensures { (l : List RecordData) → AreTermsOf house.now l terms.now
        → result ≡ limit_row (used_by l node.now.kind + node.now.lots)
        (limit_by house.now l node.now.kind) }
{
    match &node.kind {
        Kind::Given { giver, taker, .. } => {
            let (used, limit) = used_and_limit(house, terms, giver, taker);
            limit_refusal(used, node.lots, limit)
        }
        Kind::Root(_) | Kind::Own { .. } => Some(Refusal::NoAgreement),
    }
}

/// Why a claim of this node, which is offered or isn't, is refused.
#[inline(never)]
fn claim_refusal(
    house: &House,
    terms: &Terms,
    by: &FirmId,
    account: &AccountId,
    node: &Node,
    offered: bool,
) -> Option<Refusal>
    ensures { (l : List RecordData) → AreTermsOf house.now l terms.now
        → offered ≡ is_offered l node.now → result
        ≡ claim_row house.now l by.now account.now node.now }
{
    if !offered {
        Some(Refusal::NotOffered)
    } else if !is_taker(by, &node.kind) {
        Some(Refusal::NotYours)
    } else if !house.account(by, account) {
        Some(Refusal::UnknownAccount)
    } else {
        terms_refusal(house, terms, node)
    }
}

/// Why a taker's refusal of this node, which is offered or isn't, is refused.
fn refuse_refusal(by: &FirmId, node: &Node, offered: bool) -> Option<Refusal>
    ensures { (l : List RecordData) → offered ≡ is_offered l node.now
        → result ≡ refuse_row l by.now node.now }
{
    if !offered {
        Some(Refusal::NotOffered)
    } else if !is_taker(by, &node.kind) {
        Some(Refusal::NotYours)
    } else {
        None
    }
}

/// Why a giver's cancelling of this node, which is offered or isn't, is refused.
fn cancel_refusal(by: &FirmId, node: &Node, offered: bool) -> Option<Refusal>
    ensures { (l : List RecordData) → offered ≡ is_offered l node.now
        → result ≡ cancel_row l by.now node.now }
{
    if !offered {
        Some(Refusal::NotOffered)
    } else if !is_giver(by, &node.kind) {
        Some(Refusal::NotYours)
    } else {
        None
    }
}

/// Whether a rate and a limit are in their ranges.
fn are_terms(rate: u64, limit: u64) -> bool
    ensures { result ≡ are_terms rate limit }
{
    rate <= Rate::MAX && limit <= Agreement::MAX_LIMIT
}

/// Why terms for a giver and a taker are refused.
#[inline(never)]
fn agree_refusal(
    house: &House,
    terms: &Terms,
    by: &FirmId,
    giver: &FirmId,
    taker: &FirmId,
    rate: u64,
    limit: u64,
) -> Option<Refusal>
    ensures { (l : List RecordData) → AreTermsOf house.now l terms.now
        → result ≡ agree_row house.now l by.now giver.now taker.now rate limit }
{
    if *by != house.house() {
        Some(Refusal::HouseOnly)
    } else if !house.firm(giver) {
        Some(Refusal::UnknownFirm)
    } else if !house.firm(taker) {
        Some(Refusal::UnknownFirm)
    } else if *giver == *taker {
        Some(Refusal::OwnAgreement)
    } else if !are_terms(rate, limit) {
        Some(Refusal::BadTerms)
    } else if terms_of(house, terms, giver, taker).is_some() {
        Some(Refusal::AgreementExists)
    } else {
        None
    }
}

/// Why a raise of a limit by so many lots is refused.
fn raised_refusal(lots: u64, limit: Option<u64>) -> Option<Refusal>
    ensures { result ≡ raised_row lots limit }
{
    match limit {
        None => Some(Refusal::NoAgreement),
        Some(limit) => {
            if 1 <= lots && is_within(limit, lots, Agreement::MAX_LIMIT) {
                None
            } else {
                Some(Refusal::BadTerms)
            }
        }
    }
}

/// Why a taker's raise of its limit with a giver is refused.
#[inline(never)]
fn raise_refusal(
    house: &House,
    terms: &Terms,
    by: &FirmId,
    giver: &FirmId,
    lots: u64,
) -> Option<Refusal>
    ensures { (l : List RecordData) → AreTermsOf house.now l terms.now
        → result ≡ raise_row house.now l by.now giver.now lots }
{
    if house.firm(giver) {
        raised_refusal(lots, limit_of(house, terms, giver, by))
    } else {
        Some(Refusal::UnknownFirm)
    }
}

/// Why a change is refused by its own row.
fn row_refusal(at: &Basis<'_>, by: &FirmId, command: &Command) -> Option<Refusal>
    requires named { IsNamedIn (live at.now.history) (named_node command.now) at.now.named }
    requires known { knows_firm at.now.house by.now ≡ true }
    ensures { result ≡ row at.now.house (live at.now.history) by.now command.now }
{
    match command {
        Command::Trade {
            firm,
            account,
            instrument,
            lots,
            ..
        } => trade_refusal(at.house, by, firm, account, instrument, *lots),
        Command::Split { parts, .. } => match at.named {
            None => Some(Refusal::UnknownNode),
            Some(x) => split_refusal(at.house, by, parts.as_slice(), &x.found),
        },
        Command::Claim { account, .. } => match at.named {
            None => Some(Refusal::UnknownNode),
            Some(x) => {
                claim_refusal(
                    at.house,
                    at.terms,
                    by,
                    account,
                    &x.node,
                    x.found.is_offered(),
                )
            }
        },
        Command::Refuse { .. } => match at.named {
            None => Some(Refusal::UnknownNode),
            Some(x) => refuse_refusal(by, &x.node, x.found.is_offered()),
        },
        Command::Cancel { .. } => match at.named {
            None => Some(Refusal::UnknownNode),
            Some(x) => cancel_refusal(by, &x.node, x.found.is_offered()),
        },
        Command::Agree {
            giver,
            taker,
            rate,
            limit,
        } => agree_refusal(at.house, at.terms, by, giver, taker, *rate, *limit),
        Command::Raise { giver, lots } => raise_refusal(at.house, at.terms, by, giver, *lots),
        Command::Initiate { .. } | Command::Decline { .. } | Command::Reverse { .. } => None,
    }
}

/// Why a change is refused.
pub(crate) fn change_refusal(at: &Basis<'_>, by: &FirmId, command: &Command) -> Option<Refusal>
    requires named { IsNamedIn (live at.now.history) (named_node command.now) at.now.named }
    ensures { result ≡ refusal_of at.now.house (live at.now.history) by.now command.now }
{
    if !at.house.firm(by) {
        return Some(Refusal::UnknownFirm);
    }
    row_refusal(at, by, command)
}
