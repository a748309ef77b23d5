//! The calls that lines of a day make.

use crate::words::{count_of, cut, first_word, node_of, number_of};
use gu_base::{AccountId, AllocId, Command, FirmId, InstrumentId, Memory, Part, Parts, Side};
use std::alloc::Global;

/// A call at a book.
#[derive(Drop)]
pub(crate) struct Call {
    pub(crate) by: FirmId,
    pub(crate) id: AllocId,
    pub(crate) command: Command,
}

/// The side of a word: `sell`, or else buy.
fn side_of(word: &[u8]) -> Side {
    if word == b"sell".as_slice() {
        Side::Sell
    } else {
        Side::Buy
    }
}

/// `FIRM ACCOUNT INSTRUMENT buy|sell LOTS`
fn trade(words: &[u8]) -> Option<Command> {
    let (firm, rest) = first_word(words);
    let (account, rest) = first_word(rest);
    let (instrument, rest) = first_word(rest);
    let (side, lots) = first_word(rest);
    let firm = FirmId::new(firm)?;
    let account = AccountId::new(account)?;
    let instrument = InstrumentId::new(instrument)?;
    let lots = count_of(lots)?;
    Some(Command::Trade {
        firm,
        account,
        instrument,
        side: side_of(side),
        lots,
    })
}

/// `LOTS@ACCOUNT`, a part that the firm keeps, or `LOTS>FIRM`, one that it gives up
fn part(by: FirmId, word: &[u8]) -> Option<Part> {
    if let Some((lots, account)) = cut(word, b'@') {
        let lots = count_of(lots)?;
        return Some(Part {
            lots,
            firm: by,
            account: AccountId::new(account),
        });
    }
    let (lots, firm) = cut(word, b'>')?;
    let lots = count_of(lots)?;
    let firm = FirmId::new(firm)?;
    Some(Part {
        lots,
        firm,
        account: None,
    })
}

/// The parts of these words.
fn parts(alloc: Global, by: FirmId, words: &[u8]) -> Result<Parts, Memory> {
    let mut items = Vec::new(alloc);
    for word in words.split(|b| *b == b' ') {
        if let Some(
            Part {
                lots,
                firm,
                account,
            },
        ) = part(by, word)
        {
            items.push(Part {
                lots,
                firm,
                account,
            })?;
        }
    }
    Ok(Parts::from_vec(items))
}

/// `GIVER TAKER RATE LIMIT`
fn agreement(words: &[u8]) -> Option<Command> {
    let (giver, rest) = first_word(words);
    let (taker, rest) = first_word(rest);
    let (rate, limit) = first_word(rest);
    let giver = FirmId::new(giver)?;
    let taker = FirmId::new(taker)?;
    let rate = count_of(rate)?;
    let limit = count_of(limit)?;
    Some(Command::Agree {
        giver,
        taker,
        rate,
        limit,
    })
}

/// `GIVER LOTS`
fn raised_limit(words: &[u8]) -> Option<Command> {
    let (giver, lots) = first_word(words);
    let giver = FirmId::new(giver)?;
    let lots = count_of(lots)?;
    Some(Command::Raise { giver, lots })
}

/// The command of this verb that names an entry.
fn of_entry(verb: &[u8], words: &[u8]) -> Option<Command> {
    let (entry, _) = first_word(words);
    let entry = number_of(entry)?;
    if verb == b"initiate".as_slice() {
        return Some(Command::Initiate { entry });
    }
    if verb == b"decline".as_slice() {
        return Some(Command::Decline { entry });
    }
    if verb == b"reverse".as_slice() {
        return Some(Command::Reverse { entry });
    }
    None
}

/// The command of this verb that decides on a node.
fn of_node(verb: &[u8], words: &[u8]) -> Option<Command> {
    let (node, account) = first_word(words);
    let node = node_of(node)?;
    if verb == b"refuse".as_slice() {
        return Some(Command::Refuse { node });
    }
    if verb == b"cancel".as_slice() {
        return Some(Command::Cancel { node });
    }
    if verb == b"claim".as_slice() {
        let account = AccountId::new(account)?;
        return Some(Command::Claim { node, account });
    }
    None
}

/// The command of this verb and these words, unless it is a split.
fn command(verb: &[u8], words: &[u8]) -> Option<Command> {
    if verb == b"trade".as_slice() {
        return trade(words);
    }
    if verb == b"agree".as_slice() {
        return agreement(words);
    }
    if verb == b"raise".as_slice() {
        return raised_limit(words);
    }
    match of_entry(verb, words) {
        Some(command) => Some(command),
        None => of_node(verb, words),
    }
}

/// `NODE LOTS@ACCOUNT LOTS>FIRM ..`
fn split(alloc: Global, by: FirmId, words: &[u8]) -> Result<Option<Command>, Memory> {
    let (node, words) = first_word(words);
    let Some(node) = node_of(node) else {
        return Ok(None);
    };
    match parts(alloc, by, words) {
        Ok(parts) => Ok(Some(Command::Split { node, parts })),
        Err(e) => Err(e),
    }
}

/// The command of these words of a firm.
fn read_command(alloc: Global, by: FirmId, words: &[u8]) -> Result<Option<Command>, Memory> {
    let (verb, rest) = first_word(words);
    if verb == b"split".as_slice() {
        split(alloc, by, rest)
    } else {
        Ok(command(verb, rest))
    }
}

/// The call of a line: `FIRM ID` and a command. `None` where it is none.
pub(crate) fn call_of(alloc: Global, line: &[u8]) -> Result<Option<Call>, Memory> {
    let (firm, rest) = first_word(line);
    let (id, words) = first_word(rest);
    let (Some(by), Some(id)) = (FirmId::new(firm), AllocId::new(id)) else {
        return Ok(None);
    };
    match read_command(alloc, by, words) {
        Ok(Some(command)) => Ok(Some(Call { by, id, command })),
        Ok(None) => Ok(None),
        Err(e) => Err(e),
    }
}
