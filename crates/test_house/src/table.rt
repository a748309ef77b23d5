//! What a house tells: its table, and its answers about what the table has. A text that finds no
//! memory ends there, and isn't what must be printed.

use gu_base::{Account, Agreement, AllocId, Command, Pair};
use gu_parties::House;
use std::alloc::Global;
use std::fmt::{Display, Write};

/// More places than a house file has lines.
const PLACES: usize = 100_000;

/// One place more than any table of the input has.
const PLACES_ASKED: usize = 6;

/// A list of a table.
#[derive(Clone, Copy)]
enum List {
    Firms,
    Accounts,
    Instruments,
    Agreements,
    Opening,
}

/// The lists, in the order in which they are written.
const LISTS: &[List] = &[
    List::Firms,
    List::Accounts,
    List::Instruments,
    List::Agreements,
    List::Opening,
];

/// Appends a name, if there is one. Whether it did.
fn add_name<N: Display + Copy>(out: &mut String, what: &str, name: Option<N>) -> bool {
    match name {
        Some(name) => writeln!(out, "{what} {name}").is_ok(),
        None => false,
    }
}

/// Appends an account, if there is one. Whether it did.
fn add_account(out: &mut String, account: Option<Account>) -> bool {
    match account {
        Some(account) => writeln!(out, "account {}/{}", account.firm, account.name).is_ok(),
        None => false,
    }
}

/// Appends an agreement, if there is one. Whether it did.
fn add_agreement(out: &mut String, agreement: Option<(Pair, Agreement)>) -> bool {
    match agreement {
        Some((pair, terms)) => writeln!(
            out,
            "agreement {} {} rate {} limit {}",
            pair.giver, pair.taker, terms.rate, terms.limit
        )
        .is_ok(),
        None => false,
    }
}

/// Appends a call that the clearing house makes first, if there is one, which makes an agreement.
/// Whether it did.
fn add_call(out: &mut String, call: Option<(AllocId, Command)>) -> bool {
    match &call {
        Some(
            (
                id,
                Command::Agree {
                    giver,
                    taker,
                    rate,
                    limit,
                },
            ),
        ) => writeln!(out, "{id} agree {giver} {taker} rate {rate} limit {limit}").is_ok(),
        _ => false,
    }
}

/// Appends what a list has at a place, if it has something there. Whether it did.
fn add_at(out: &mut String, house: &House, list: List, place: usize) -> bool {
    match list {
        List::Firms => add_name(out, "firm", house.firm_at(place)),
        List::Accounts => add_account(out, house.account_at(place)),
        List::Instruments => add_name(out, "instrument", house.instrument_at(place)),
        List::Agreements => add_agreement(out, house.agreement_at(place)),
        List::Opening => add_call(out, house.opening_at(place)),
    }
}

/// Appends all that a list has.
fn add_list(out: &mut String, house: &House, list: List) {
    for place in 0..PLACES {
        if !add_at(out, house, list, place) {
            break;
        }
    }
}

/// Appends how many agreements are fixed, and how many the clearing house makes first.
fn add_counts(out: &mut String, house: &House) -> bool {
    let (fixed, made) = (house.agreement_count(), house.opening_count());
    writeln!(out, "{fixed} fixed, {made} made").is_ok()
}

/// The entries of a table in their order.
pub(crate) fn table(alloc: Global, house: &House) -> String {
    let mut out = String::new(alloc);
    add_name(&mut out, "house", Some(house.house()));
    for list in LISTS {
        add_list(&mut out, house, *list);
    }
    add_counts(&mut out, house);
    out
}

/// Appends what the house says of the firms and the names of two accounts.
fn add_answer(out: &mut String, house: &House, one: &Account, other: &Account) -> bool {
    let firm = house.firm(&one.firm);
    let account = house.account(&one.firm, &other.name);
    let (rate, limit) = match house.agreement(&one.firm, &other.firm) {
        Some(terms) => (terms.rate, terms.limit),
        None => (u64::MAX, u64::MAX),
    };
    writeln!(out, "{firm} {account} {rate} {limit}").is_ok()
}

/// Whether the house knows the instrument at a place, if there is one.
fn knows_instrument(house: &House, place: usize) -> bool {
    match house.instrument_at(place) {
        Some(instrument) => house.instrument(&instrument),
        None => false,
    }
}

/// What the house answers about its accounts, by twos, and about its instruments.
fn answers(alloc: Global, house: &House) -> String {
    let mut out = String::new(alloc);
    for n in 0..PLACES_ASKED * PLACES_ASKED {
        let (one, other) = (n / PLACES_ASKED, n % PLACES_ASKED);
        add_name(&mut out, "instrument", Some(knows_instrument(house, other)));
        if let (Some(one), Some(other)) = (house.account_at(one), house.account_at(other)) {
            add_answer(&mut out, house, &one, &other);
        }
    }
    out
}

/// Whether two houses have the same entries in the same order.
pub(crate) fn same_table(alloc: Global, one: &House, other: &House) -> bool {
    table(alloc, one).as_str() == table(alloc, other).as_str()
}

/// Whether two houses answer the same.
pub(crate) fn same_answers(alloc: Global, one: &House, other: &House) -> bool {
    answers(alloc, one).as_str() == answers(alloc, other).as_str()
}
