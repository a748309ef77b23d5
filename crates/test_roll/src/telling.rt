//! What two books tell, one of which has what is kept of the other.

use gu_base::{Command, Entry, FirmId, Memory, Number};
use gu_book::Book;
use gu_roll::{Lost, Share};
use gu_tree::Row;
use std::alloc::Global;

/// More places than the house of any day has lines.
const PLACES: usize = 100_000;

/// Writes a command in short.
fn show_command(rt: &impl Print, command: &Command) -> bool {
    match command {
        Command::Trade { .. } => println!(rt; " trade").is_ok(),
        Command::Split { node, .. } => println!(rt; " split {node}").is_ok(),
        Command::Claim { node, .. } => println!(rt; " claim {node}").is_ok(),
        Command::Refuse { node } => println!(rt; " refuse {node}").is_ok(),
        Command::Cancel { node } => println!(rt; " cancel {node}").is_ok(),
        Command::Agree { giver, taker, .. } => println!(rt; " agree {giver} {taker}").is_ok(),
        Command::Raise { giver, lots } => println!(rt; " raise {giver} {lots}").is_ok(),
        Command::Initiate { entry } => println!(rt; " initiate {entry}").is_ok(),
        Command::Decline { entry } => println!(rt; " decline {entry}").is_ok(),
        Command::Reverse { entry } => println!(rt; " reverse {entry}").is_ok(),
    }
}

/// Writes an entry and the number that it had.
fn show_entry(rt: &impl Print, number: usize, old: Number, entry: &Entry) -> bool {
    print!(rt;
        "{number} was {old}: {} {} {:?}",
        entry.firm, entry.id, entry.status
    )
    .is_ok()
        && show_command(rt, &entry.command)
}

/// Writes the entries of a history and the numbers that they had.
pub(crate) fn show_history(rt: &impl Print, history: &[Entry], numbers: &[Number]) -> bool {
    for place in 0..history.len() {
        let Some(old) = numbers.get(place) else {
            return rt.println("too few numbers").is_ok();
        };
        if !show_entry(rt, place.saturating_add(1), *old, &history[place]) {
            return false;
        }
    }
    history.len() == numbers.len()
}

/// Writes how much is lost.
pub(crate) fn show_lost(rt: &impl Print, lost: &Lost) -> bool {
    let Lost {
        reversed,
        closed,
        consented,
    } = *lost;
    println!(rt; "lost: reversed {reversed} closed {closed} consented {consented}").is_ok()
}

/// Writes which entry concerns which firm, with its number and the one that it had.
pub(crate) fn show_shares(rt: &impl Print, shares: &[Share]) -> bool {
    for share in shares {
        let Share { firm, old, new } = share;
        if println!(rt; "{new} was {old} for {firm}").is_err() {
            return false;
        }
    }
    true
}

/// The house, and then its firms.
fn firm_at(book: &Book, place: usize) -> Option<FirmId> {
    match place.checked_sub(1) {
        None => Some(book.house().house()),
        Some(place) => book.house().firm_at(place),
    }
}

/// Whether a number of a row of the new book is that of the old one.
fn is_new(numbers: &[Number], old: Number, new: Number) -> bool {
    match numbers.get(new.get() as usize - 1) {
        Some(number) => *number == old,
        None => false,
    }
}

/// Whether a decision is the same one.
fn is_same_decision(numbers: &[Number], old: Option<Number>, new: Option<Number>) -> bool {
    match (old, new) {
        (None, None) => true,
        (Some(old), Some(new)) => is_new(numbers, old, new),
        _ => false,
    }
}

/// Whether a row is the same but for the numbers.
fn is_same_row(numbers: &[Number], old: &Row, new: &Row) -> bool {
    let (was, is) = (&old.head, &new.head);
    old.depth == new.depth
        && is_new(numbers, was.name.entry(), is.name.entry())
        && was.name.part() == is.name.part()
        && was.lots == is.lots
        && was.place == is.place
        && was.state == is.state
        && was.taker == is.taker
        && is_same_decision(numbers, was.decision, is.decision)
}

/// Whether all rows of two trees are.
fn are_same_rows(numbers: &[Number], old: &[Row], new: &[Row]) -> bool {
    old.len() == new.len()
        && old
            .iter()
            .zip(new.iter())
            .all(|(was, is)| is_same_row(numbers, was, is))
}

/// Whether a trade's tree is the same, or in both there is none.
fn is_same_tree(
    alloc: Global,
    numbers: &[Number],
    old: &Book,
    new: &Book,
    number: Number,
    was: Number,
) -> Result<bool, Memory> {
    let rows = old.tree_rows(alloc, was)?;
    let now = match new.tree_rows(alloc, number) {
        Ok(now) => now,
        Err(e) => {
            drop(rows);
            return Err(e);
        }
    };
    let same = match (&rows, &now) {
        (None, None) => true,
        (Some(rows), Some(now)) => are_same_rows(numbers, rows.as_slice(), now.as_slice()),
        _ => false,
    };
    drop(rows);
    drop(now);
    Ok(same)
}

/// Whether the trees of all entries are the same.
fn are_same_trees(
    alloc: Global,
    numbers: &[Number],
    old: &Book,
    new: &Book,
) -> Result<bool, Memory> {
    for place in 0..numbers.len().min(Number::MAX as usize) {
        let number = Number::at_place(place);
        if !is_same_tree(alloc, numbers, old, new, number, numbers[place])? {
            return Ok(false);
        }
    }
    Ok(true)
}

/// Whether two firms have the same terms and limit, and have used the same.
fn is_same_pair(old: &Book, new: &Book, giver: &FirmId, taker: &FirmId) -> (bool, bool) {
    let terms = match (old.terms(giver, taker), new.terms(giver, taker)) {
        (None, None) => true,
        (Some(was), Some(is)) => was.rate == is.rate && was.limit == is.limit,
        _ => false,
    };
    let limit = old.limit(giver, taker) == new.limit(giver, taker);
    (
        terms && limit,
        old.used(giver, taker) == new.used(giver, taker),
    )
}

/// Whether all pairs of the old book's firms have the same terms and limits, and have used the
/// same.
fn are_same_pairs(old: &Book, new: &Book) -> (bool, bool) {
    let mut terms = true;
    let mut used = true;
    for place in 0..PLACES {
        let Some(giver) = firm_at(old, place) else {
            break;
        };
        for other in 0..PLACES {
            let Some(taker) = firm_at(old, other) else {
                break;
            };
            let (same_terms, same_used) = is_same_pair(old, new, &giver, &taker);
            terms = terms && same_terms;
            used = used && same_used;
        }
    }
    (terms, used)
}

/// Whether all firms have paid and received the same.
fn are_same_fees(old: &Book, new: &Book) -> bool {
    for place in 0..PLACES {
        let Some(firm) = firm_at(old, place) else {
            break;
        };
        if old.paid(&firm) != new.paid(&firm) || old.received(&firm) != new.received(&firm) {
            return false;
        }
    }
    true
}

/// Whether an account's positions are the same.
fn is_same_account(old: &Book, new: &Book, place: usize) -> bool {
    let Some(account) = old.house().account_at(place) else {
        return true;
    };
    for place in 0..PLACES {
        let Some(instrument) = old.house().instrument_at(place) else {
            break;
        };
        if old.position(&account.firm, &account.name, &instrument)
            != new.position(&account.firm, &account.name, &instrument)
        {
            return false;
        }
    }
    true
}

/// Whether all positions are the same.
fn are_same_positions(old: &Book, new: &Book) -> bool {
    for place in 0..old.house().account_count() {
        if !is_same_account(old, new, place) {
            return false;
        }
    }
    true
}

/// The word for what is the same or isn't.
fn word_of(same: bool) -> &'static str {
    if same { "same" } else { "other" }
}

/// Writes what is the same in both books, and what isn't.
pub(crate) fn compare(
    rt: &impl Print,
    alloc: Global,
    numbers: &[Number],
    old: &Book,
    new: &Book,
) -> bool {
    let trees = match are_same_trees(alloc, numbers, old, new) {
        Ok(same) => same,
        Err(_) => return false,
    };
    let (terms, used) = are_same_pairs(old, new);
    println!(rt;
        "trees {} terms {} used {} fees {} positions {}",
        word_of(trees),
        word_of(terms),
        word_of(used),
        word_of(are_same_fees(old, new)),
        word_of(are_same_positions(old, new))
    )
    .is_ok()
}
