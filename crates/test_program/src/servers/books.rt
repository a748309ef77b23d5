//! The books that the servers are given.

use gu_base::{AccountId, AllocId, Answer, Command, FirmId, InstrumentId, Side};
use gu_book::Book;
use gu_parties::House;
use std::alloc::Global;

/// Trades of the house in ESZ6: a firm has bought these lots each time, for this account. Their
/// numbers, of three digits, tell them apart.
#[derive(Clone, Copy)]
pub(crate) struct Trades<'a> {
    pub(crate) firm: &'a [u8],
    pub(crate) account: &'a [u8],
    pub(crate) lots: u64,
    pub(crate) first: u32,
    pub(crate) last: u32,
}

/// A trade.
fn trade_of(trades: &Trades<'_>) -> Option<Command> {
    let firm = FirmId::new(trades.firm)?;
    let account = AccountId::new(trades.account)?;
    let instrument = InstrumentId::new(b"ESZ6")?;
    Some(Command::Trade {
        firm,
        account,
        instrument,
        side: Side::Buy,
        lots: trades.lots,
    })
}

/// Has the house enter the trade of this number. Whether it is accepted.
fn is_accepted(alloc: Global, book: &mut Book, number: u32, trade: &Command) -> bool {
    let id = [
        b'T',
        b'0' + (number / 100 % 10) as u8,
        b'0' + (number / 10 % 10) as u8,
        b'0' + (number % 10) as u8,
    ];
    match (FirmId::new(b"HSE"), AllocId::new(&id)) {
        (Some(by), Some(id)) => match book.apply(alloc, &by, &id, trade) {
            Ok(Answer::Accepted { .. }) => true,
            _ => false,
        },
        _ => false,
    }
}

/// Enters trades. Whether all are accepted.
fn are_accepted(alloc: Global, book: &mut Book, trades: &Trades<'_>) -> bool {
    let Some(trade) = trade_of(trades) else {
        return false;
    };
    let mut is_so = true;
    for number in trades.first..trades.last {
        is_so = is_so && is_accepted(alloc, book, number, &trade);
    }
    is_so
}

/// The book of this house with these trades. None where they aren't all accepted.
pub(crate) fn opened(alloc: Global, text: &[u8], trades: &[Trades<'_>]) -> Option<Book> {
    let Ok(house) = House::parse(alloc, text) else {
        return None;
    };
    let mut book = Book::new(alloc, house);
    let mut is_so = true;
    for some in trades {
        is_so = is_so && are_accepted(alloc, &mut book, some);
    }
    if is_so {
        Some(book)
    } else {
        drop(book);
        None
    }
}
