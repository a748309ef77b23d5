//! A small house of each version, asked for names that it has and for others.

use gu_base::{AccountId, FirmId, InstrumentId};
use gu_parties::House;

/// One entry of each kind.
pub(crate) const FIRST_VERSION: &[u8] =
    b"GIVEUP 1\nHOUSE H\nFIRM A\nACCOUNT A X\nINSTRUMENT I\nAGREEMENT A H 1 2\n";

/// The same of version 2.
pub(crate) const SECOND_VERSION: &[u8] =
    b"GIVEUP 2\nHOUSE H\nFIRM A\nACCOUNT A X\nINSTRUMENT I\nAGREEMENT A H 1 2\n";

/// Writes whether a firm is known, and its account X.
fn tell_firm(rt: &impl Print, house: &House, name: &str) -> bool {
    let (Some(firm), Some(account)) = (FirmId::new(name.as_bytes()), AccountId::new(b"X")) else {
        return false;
    };
    let (known, its) = (house.firm(&firm), house.account(&firm, &account));
    println!(rt; "firm {firm}: {known}, its account X: {its}").is_ok()
}

/// Writes the terms of a giver and a taker, if they have any.
fn tell_agreement(rt: &impl Print, house: &House, giver: &FirmId, taker: &FirmId) -> bool {
    match house.agreement(giver, taker) {
        Some(terms) => println!(rt;
            "{giver} to {taker}: rate {}, limit {}",
            terms.rate, terms.limit
        )
        .is_ok(),
        None => println!(rt; "{giver} to {taker}: none").is_ok(),
    }
}

/// Writes the agreements of the firm and the house, in both directions.
fn tell_agreements(rt: &impl Print, house: &House) -> bool {
    match (FirmId::new(b"A"), FirmId::new(b"H")) {
        (Some(a), Some(h)) => {
            tell_agreement(rt, house, &a, &h) && tell_agreement(rt, house, &h, &a)
        }
        _ => false,
    }
}

/// Writes how many opening calls there are, and the id of the first.
fn tell_opening(rt: &impl Print, house: &House) -> bool {
    match &house.opening_at(0) {
        Some((id, _)) => {
            let count = house.opening_count();
            println!(rt; "opening: {count} from {id} on").is_ok()
        }
        None => rt.println("opening: none").is_ok(),
    }
}

/// Writes whether an instrument is known.
fn tell_instrument(rt: &impl Print, house: &House, name: &str) -> bool {
    match InstrumentId::new(name.as_bytes()) {
        Some(instrument) => {
            let known = house.instrument(&instrument);
            println!(rt; "instrument {name}: {known}").is_ok()
        }
        None => false,
    }
}

/// Writes what a house answers.
pub(crate) fn tell_names(rt: &impl Print, house: &House) -> bool {
    tell_firm(rt, house, "A")
        && tell_firm(rt, house, "H")
        && tell_firm(rt, house, "B")
        && tell_agreements(rt, house)
        && tell_opening(rt, house)
        && tell_instrument(rt, house, "I")
        && tell_instrument(rt, house, "J")
}
