//! A question, and what the book tells. What writes says whether it could.

use crate::memory::tell_refused;
use crate::traces;
use crate::words::{first_word, number_of};
use gu_base::{AccountId, FirmId, InstrumentId, Memory, Number, Pair, Place};
use gu_book::Book;
use gu_book::laws::{Told, live_changes_alone};
use gu_tree::Row;
use std::alloc::Global;

/// `position FIRM ACCOUNT INSTRUMENT`: the lots that stand there, long and short.
fn show_position(rt: &HostRuntime, book: &Book, words: &[u8]) -> bool {
    let (firm, rest) = first_word(words);
    let (account, instrument) = first_word(rest);
    match (
        FirmId::new(firm),
        AccountId::new(account),
        InstrumentId::new(instrument),
    ) {
        (Some(firm), Some(account), Some(instrument)) => {
            let (long, short) = book.position(&firm, &account, &instrument);
            println!(rt; "long {long} short {short}").is_ok()
        }
        _ => rt.println("what?").is_ok(),
    }
}

/// `fees FIRM`: what a firm has paid and received.
fn show_fees(rt: &HostRuntime, book: &Book, firm: &[u8]) -> bool {
    match FirmId::new(firm) {
        Some(firm) => {
            let paid = book.paid(&firm);
            let received = book.received(&firm);
            println!(rt; "paid {paid} received {received}").is_ok()
        }
        None => rt.println("what?").is_ok(),
    }
}

/// `used GIVER TAKER`: the lots that live claims use.
fn show_used(rt: &HostRuntime, book: &Book, words: &[u8]) -> bool {
    let (giver, taker) = first_word(words);
    match (FirmId::new(giver), FirmId::new(taker)) {
        (Some(giver), Some(taker)) => {
            let used = book.used(&giver, &taker);
            println!(rt; "used {used}").is_ok()
        }
        _ => rt.println("what?").is_ok(),
    }
}

/// `limit GIVER TAKER`: the limit with its raises.
fn show_limit(rt: &HostRuntime, book: &Book, words: &[u8]) -> bool {
    let (giver, taker) = first_word(words);
    let (Some(giver), Some(taker)) = (FirmId::new(giver), FirmId::new(taker)) else {
        return rt.println("what?").is_ok();
    };
    match book.limit(&giver, &taker) {
        Some(limit) => println!(rt; "limit {limit}").is_ok(),
        None => println!(rt; "no terms").is_ok(),
    }
}

/// ` taker FIRM` and ` by NUMBER` where there are any
fn show_decision(rt: &HostRuntime, taker: Option<FirmId>, decision: Option<Number>) -> bool {
    if let Some(taker) = taker {
        if print!(rt; " taker {taker}").is_err() {
            return false;
        }
    }
    match decision {
        Some(number) => println!(rt; " by {number}").is_ok(),
        None => println!(rt;).is_ok(),
    }
}

/// `DEPTH NAME LOTS FIRM/ACCOUNT STATE`, and then ` taker FIRM` and ` by NUMBER` where there are
/// any
fn show_row(rt: &HostRuntime, row: &Row) -> bool {
    let head = &row.head;
    let (firm, account) = (head.place.firm, head.place.account);
    print!(rt;
        "{} {} {} {firm}/{account} {:?}",
        row.depth, head.name, head.lots, head.state
    )
    .is_ok()
        && show_decision(rt, head.taker, head.decision)
}

/// Writes these rows of a trade's tree, or that it isn't live.
fn show_these(rt: &HostRuntime, rows: &Option<Vec<Row>>) -> bool {
    let Some(rows) = rows else {
        return println!(rt; "no live trade").is_ok();
    };
    for row in rows {
        if !show_row(rt, row) {
            return false;
        }
    }
    true
}

/// The rows of a trade's tree. Where no memory is found they are asked for once more.
fn rows_of(
    rt: &HostRuntime,
    alloc: Global,
    book: &Book,
    trade: Number,
) -> Result<Option<Vec<Row>>, Memory> {
    match book.tree_rows(alloc, trade) {
        Ok(rows) => Ok(rows),
        Err(_) => {
            tell_refused(rt);
            book.tree_rows(alloc, trade)
        }
    }
}

/// Writes the rows of a trade's tree.
fn show_rows(rt: &HostRuntime, alloc: Global, book: &Book, word: &[u8]) -> bool {
    let Some(trade) = number_of(word) else {
        return rt.println("what?").is_ok();
    };
    match rows_of(rt, alloc, book, trade) {
        Ok(rows) => {
            let shown = show_these(rt, &rows);
            drop(rows);
            shown
        }
        Err(_) => false,
    }
}

/// Writes what the live changes alone give.
fn show_told(rt: &HostRuntime, told: &Told, taker: FirmId) -> bool {
    let (long, short) = told.position;
    println!(rt;
        "alone: long {long} short {short}, {taker} paid {} received {}, used {}",
        told.paid, told.received, told.used
    )
    .is_ok()
        && show_these(rt, &told.rows)
}

/// What is asked of the live changes alone: a trade, an account of its giver, an instrument, and
/// the giver and a taker.
#[derive(Clone, Copy)]
struct Alone {
    trade: Number,
    place: Place,
    instrument: InstrumentId,
    pair: Pair,
}

/// `TRADE GIVER ACCOUNT INSTRUMENT TAKER`
fn alone_of(words: &[u8]) -> Option<Alone> {
    let (trade, rest) = first_word(words);
    let (giver, rest) = first_word(rest);
    let (account, rest) = first_word(rest);
    let (instrument, taker) = first_word(rest);
    let trade = number_of(trade)?;
    let firm = FirmId::new(giver)?;
    let account = AccountId::new(account)?;
    let instrument = InstrumentId::new(instrument)?;
    let taker = FirmId::new(taker)?;
    Some(Alone {
        trade,
        place: Place { firm, account },
        instrument,
        pair: Pair { giver: firm, taker },
    })
}

/// What the live changes alone give.
fn told_alone(alloc: Global, book: &Book, of: &Alone) -> Result<Told, Memory> {
    let (place, pair) = (&of.place, &of.pair);
    live_changes_alone(
        book,
        alloc,
        of.trade,
        place,
        &of.instrument,
        &pair.taker,
        pair,
    )
}

/// The same. Where no memory is found it is asked for once more.
fn told_of(rt: &HostRuntime, alloc: Global, book: &Book, of: &Alone) -> Result<Told, Memory> {
    match told_alone(alloc, book, of) {
        Ok(told) => Ok(told),
        Err(_) => {
            tell_refused(rt);
            told_alone(alloc, book, of)
        }
    }
}

/// Writes what the live changes alone give of a trade, of an account of its giver, and of the giver
/// and a taker.
fn show_alone(rt: &HostRuntime, alloc: Global, book: &Book, words: &[u8]) -> bool {
    let Some(of) = alone_of(words) else {
        return rt.println("what?").is_ok();
    };
    match told_of(rt, alloc, book, &of) {
        Ok(told) => {
            let shown = show_told(rt, &told, of.pair.taker);
            drop(told);
            shown
        }
        Err(_) => false,
    }
}

/// Writes these numbers of live changes.
fn show_numbers(rt: &HostRuntime, live: &[Number]) -> bool {
    if print!(rt; "live").is_err() {
        return false;
    }
    for number in live {
        if print!(rt; " {number}").is_err() {
            return false;
        }
    }
    println!(rt;).is_ok()
}

/// The numbers of the live changes. Where no memory is found they are asked for once more.
fn live_of(rt: &HostRuntime, alloc: Global, book: &Book) -> Result<Vec<Number>, Memory> {
    match book.live(alloc) {
        Ok(live) => Ok(live),
        Err(_) => {
            tell_refused(rt);
            book.live(alloc)
        }
    }
}

/// Writes the numbers of the live changes.
fn show_live(rt: &HostRuntime, alloc: Global, book: &Book) -> bool {
    match live_of(rt, alloc, book) {
        Ok(live) => {
            let shown = show_numbers(rt, live.as_slice());
            drop(live);
            shown
        }
        Err(_) => false,
    }
}

/// Writes what a question asks for.
pub(crate) fn answer(rt: &HostRuntime, alloc: Global, book: &Book, question: &[u8]) -> bool {
    let (what, rest) = first_word(question);
    if what == b"rows".as_slice() {
        return show_rows(rt, alloc, book, rest);
    }
    if what == b"live".as_slice() {
        return show_live(rt, alloc, book);
    }
    if what == b"alone".as_slice() {
        return show_alone(rt, alloc, book, rest);
    }
    if what == b"position".as_slice() {
        return show_position(rt, book, rest);
    }
    if what == b"fees".as_slice() {
        return show_fees(rt, book, rest);
    }
    if what == b"used".as_slice() {
        return show_used(rt, book, rest);
    }
    if what == b"limit".as_slice() {
        return show_limit(rt, book, rest);
    }
    if what == b"visits".as_slice() {
        let visits = book.visits();
        return println!(rt; "visits {visits}").is_ok();
    }
    if what == b"house".as_slice() {
        let house = book.house().house();
        return println!(rt; "house {house}").is_ok();
    }
    if what == b"entries".as_slice() {
        let entries = book.history().len();
        return println!(rt; "entries {entries}").is_ok();
    }
    traces::answer(rt, alloc, book, what, rest)
}
