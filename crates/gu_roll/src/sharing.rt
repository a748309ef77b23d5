//! Which entries of a new book concern which firm.

ghost use Rattle.std.specs.Prelude.{◌≤◌, length};
ghost use Rattle.gu_base.specs.Limits.{most_entries};

use gu_base::{Command, Entry, FirmId, Memory, Number};
use gu_book::{Book, entry_at};
use gu_trace::{News, news_above};
use std::alloc::Global;

/// That an entry of a new book concerns a firm, which is told of it or is a party of its terms.
#[derive(Clone, Copy, PartialEq, Eq)]
pub struct Share {
    /// The firm.
    pub firm: FirmId,
    /// The entry's number in the old book.
    pub old: Number,
    /// And in the new one.
    pub new: Number,
}

/// Adds a share, unless it was added before: those of an entry stand together.
fn add(shares: &mut Vec<Share>, share: Share) -> Result<(), Memory> {
    for other in shares.iter().rev() {
        if other.new != share.new {
            break;
        }
        if *other == share {
            return Ok(());
        }
    }
    shares.push(share)?;
    Ok(())
}

/// The parties of terms that an entry makes or raises.
fn parties_of(entry: &Entry) -> [Option<FirmId>; 3] {
    let by = entry.firm;
    match &entry.command {
        Command::Agree { giver, taker, .. } => [Some(by), Some(*giver), Some(*taker)],
        Command::Raise { giver, .. } => [Some(by), Some(*giver), None],
        _ => [None, None, None],
    }
}

/// Adds the parties of an entry's terms.
fn add_parties(
    shares: &mut Vec<Share>,
    entry: &Entry,
    old: Number,
    new: Number,
) -> Result<(), Memory> {
    for party in parties_of(entry) {
        if let Some(firm) = party {
            add(shares, Share { firm, old, new })?;
        }
    }
    Ok(())
}

/// Adds the firms that an entry of the old book concerns: the news of it stand from a place on, if
/// there are any, maybe behind those of entries that aren't kept. Where they end.
fn add_told(
    shares: &mut Vec<Share>,
    news: &[News],
    from: usize,
    old: Number,
    new: Number,
) -> Result<usize, Memory> {
    let mut at = from;
    while at < news.len() && news[at].number <= old {
        let News { firm, number } = news[at];
        if number == old {
            add(shares, Share { firm, old, new })?;
        }
        at += 1;
    }
    Ok(at)
}

/// Which entry of a new book concerns which firm, in the order of the entries, which had these
/// numbers in the old book.
pub(crate) fn shares_of(
    alloc: Global,
    book: &Book,
    numbers: &[Number],
) -> Result<Vec<Share>, Memory>
    requires few { length numbers.now ≤ most_entries }
{
    let news = news_above(alloc, book, 0)?;
    let mut shares = Vec::new(alloc);
    let mut at = 0;
    for place in 0..numbers.len() {
        let (old, new) = (numbers[place], Number::at_place(place));
        if let Some(entry) = entry_at(book.history(), old) {
            add_parties(&mut shares, entry, old, new)?;
        }
        at = add_told(&mut shares, &news, at, old, new)?;
    }
    Ok(shares)
}
