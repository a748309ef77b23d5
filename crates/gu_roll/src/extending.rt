//! Whether a house table extends another.

ghost use Rattle.std.specs.Prelude.{◌≡◌, ◌↔◌, true, slice_get, IsOk, IfErr, OnOk, Some, option_map};
ghost use Rattle.gu_base.specs.House.{knows_firm, knows_account, knows_instrument};
ghost use Rattle.gu_lives.specs.Extends.{Extends, HasMore, extends, keeps_terms, same_terms};
ghost use Rattle.gu_roll.specs.Lack.{first, first_apart, first_without, house_lack, lack_of};
ghost use Rattle.gu_roll.specs.Lack.{line_lacks, other_lack_of, same_options};

use crate::lack::Lack;
use gu_base::{Account, Agreement, Command, FirmId, InstrumentId, Pair};
use gu_lives::a_larger_house_keeps_the_history;
use gu_parties::House;

/// Whether both are the same terms, or none.
fn are_same_terms(one: Option<Agreement>, other: Option<Agreement>) -> bool
    ensures { result ≡ same_terms one other }
{
    match (one, other) {
        (None, None) => true,
        (Some(one), Some(other)) => one.rate == other.rate && one.limit == other.limit,
        _ => false,
    }
}

/// The agreement that the opening call at this place makes.
pub(crate) fn made_at(house: &House, place: usize) -> Option<(Pair, Agreement)>
    ensures { result ≡ slice_get house.now.opening place }
{
    let called = house.opening_at(place)?;
    match &called.1 {
        Command::Agree {
            giver,
            taker,
            rate,
            limit,
        } => {
            let pair = Pair {
                giver: *giver,
                taker: *taker,
            };
            let agreement = Agreement {
                rate: *rate,
                limit: *limit,
            };
            Some((pair, agreement))
        }
        _ => None,
    }
}

/// Whether both are the same pair with the same terms, or none.
pub(crate) fn are_same_made(
    one: Option<(Pair, Agreement)>,
    other: Option<(Pair, Agreement)>,
) -> bool
    ensures { result ≡ same_options one other }
{
    match (one, other) {
        (None, None) => true,
        (Some((pair, terms)), Some((other_pair, other_terms))) => {
            pair == other_pair && are_same_terms(Some(terms), Some(other_terms))
        }
        _ => false,
    }
}

/// The first agreement of the opening, counted from 1, that isn't the same in both tables.
fn first_other_opening(old: &House, new: &House) -> Option<usize>
    ensures { result ≡ first_apart 1 new.now.opening old.now.opening }
{
    let most = old.opening_count().max(new.opening_count());
    for place in 0..most {
        if !are_same_made(made_at(new, place), made_at(old, place)) {
            return Some(place + 1);
        }
    }
    None
}

/// The first firm of the old table that the new one lacks.
fn first_lost_firm(old: &House, new: &House) -> Option<FirmId>
    ensures { result ≡ first_without (knows_firm new.now) old.now.firms }
{
    for place in 0..old.firm_count() {
        let Some(firm) = old.firm_at(place) else {
            return None;
        };
        if !new.firm(&firm) {
            return Some(firm);
        }
    }
    None
}

/// The first account of the old table that the new one lacks.
fn first_lost_account(old: &House, new: &House) -> Option<Account>
    ensures { result
        ≡ first_without (λ a. knows_account new.now a.firm a.name) old.now.accounts }
{
    for place in 0..old.account_count() {
        let Some(account) = old.account_at(place) else {
            return None;
        };
        if !new.account(&account.firm, &account.name) {
            return Some(account);
        }
    }
    None
}

/// The first instrument of the old table that the new one lacks.
fn first_lost_instrument(old: &House, new: &House) -> Option<InstrumentId>
    ensures { result ≡ first_without (knows_instrument new.now) old.now.instruments }
{
    for place in 0..old.instrument_count() {
        let Some(instrument) = old.instrument_at(place) else {
            return None;
        };
        if !new.instrument(&instrument) {
            return Some(instrument);
        }
    }
    None
}

/// Whether the new table has the terms of a pair that the old one has, if both are firms of that.
fn are_kept(old: &House, new: &House, line: &(Pair, Agreement)) -> bool
    ensures { result ≡ keeps_terms old.now new.now line.now }
{
    let pair = line.0;
    if !(old.firm(&pair.giver) && old.firm(&pair.taker)) {
        return true;
    }
    let kept = new.agreement(&pair.giver, &pair.taker);
    are_same_terms(kept, old.agreement(&pair.giver, &pair.taker))
}

/// The first pair of a table's fixed agreements whose terms in the new table aren't those in the
/// old one.
fn first_other_terms(old: &House, new: &House, lines: &House) -> Option<Pair>
    ensures { result
        ≡ option_map (λ e. e.0) (first_without (keeps_terms old.now new.now) lines.now.agreements) }
{
    for place in 0..lines.agreement_count() {
        let Some(line) = lines.agreement_at(place) else {
            return None;
        };
        if !are_kept(old, new, &line) {
            return Some(line.0);
        }
    }
    None
}

/// The clearing house of the old table, where the new one has another.
fn other_house(old: &House, new: &House) -> Option<Lack>
    ensures { result ≡ house_lack old.now new.now }
{
    if new.house() != old.house() {
        return Some(Lack::OtherHouse);
    }
    None
}

/// What the new table lacks of the old one's lines, but for the opening.
fn first_line_lack(old: &House, new: &House) -> Option<Lack>
    ensures { result ≡ first (line_lacks old.now new.now) }
{
    if let Some(firm) = first_lost_firm(old, new) {
        return Some(Lack::NoFirm(firm));
    }
    if let Some(account) = first_lost_account(old, new) {
        return Some(Lack::NoAccount(account));
    }
    if let Some(instrument) = first_lost_instrument(old, new) {
        return Some(Lack::NoInstrument(instrument));
    }
    if let Some(pair) = first_other_terms(old, new, old) {
        return Some(Lack::OtherTerms(pair));
    }
    first_other_terms(old, new, new).map(Lack::NewTerms)
}

/// What the new table lacks to extend the old one.
fn first_lack(old: &House, new: &House) -> Option<Lack>
    ensures { result ≡ lack_of old.now new.now }
{
    if let Some(lack) = other_house(old, new) {
        return Some(lack);
    }
    if let Some(number) = first_other_opening(old, new) {
        return Some(Lack::OtherOpening(number));
    }
    first_line_lack(old, new)
}

/// Whether a house table has more than another, whatever their openings: it has the same clearing
/// house, each firm, account and instrument, and between two firms that the other has the same
/// fixed terms, or none.
///
/// # Errors
///
/// The first thing that it lacks, as `check_extends` says.
pub(crate) fn check_has_more(old: &House, new: &House) -> Result<(), Lack>
    ensures more { OnOk result (HasMore old.now new.now) }
    ensures lack { IfErr result (λ lack. other_lack_of old.now new.now ≡ Some lack) }
{
    a_larger_house_keeps_the_history();
    if let Some(lack) = other_house(old, new) {
        return Err(lack);
    }
    match first_line_lack(old, new) {
        None => Ok(()),
        Some(lack) => Err(lack),
    }
}

/// Whether a house table extends another: it has the same clearing house and the same opening, each
/// firm, account and instrument, and between two firms that the other has the same fixed terms, or
/// none. It may have more of all, and any terms of firms that are new. It takes a look-up for each
/// line of the two, and no memory.
///
/// # Errors
///
/// The first thing that it lacks: the house, the opening, a firm, an account, an instrument, terms,
/// and terms that are new. Of each kind that is the first in file order.
pub fn check_extends(old: &House, new: &House) -> Result<(), Lack>
    ensures test { IsOk result ↔ (extends old.now new.now ≡ true) }
    ensures extends { OnOk result (Extends old.now new.now) }
    ensures lack { IfErr result (λ lack. lack_of old.now new.now ≡ Some lack) }
{
    a_larger_house_keeps_the_history();
    match first_lack(old, new) {
        None => Ok(()),
        Some(lack) => Err(lack),
    }
}
