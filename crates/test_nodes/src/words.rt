//! The words of a line.

use gu_base::{AccountId, FirmId, NodeName, Number, Part, Place};
use std::alloc::Global;
use test_splits::{Decision, Undo};

/// The first word of a text, and what stands behind the space after it.
pub(crate) fn first_word(text: &str) -> (&str, &str) {
    text.split_once(' ').unwrap_or((text, ""))
}

/// The number of an entry.
pub(crate) fn number_of(word: &str) -> Option<Number> {
    Number::new(word.parse::<u32>().ok()?)
}

/// The node of this name, `entry.part`.
pub(crate) fn node_of(word: &str) -> Option<NodeName> {
    let (entry, part) = word.split_once('.')?;
    NodeName::new(entry.parse::<u32>().ok()?, part.parse::<u8>().ok()?)
}

/// `FIRM/ACCOUNT`
pub(crate) fn place_of(word: &str) -> Option<Place> {
    let (firm, account) = word.split_once('/')?;
    Some(Place {
        firm: FirmId::new(firm.as_bytes())?,
        account: AccountId::new(account.as_bytes())?,
    })
}

/// `LOTS/FIRM/ACCOUNT`
pub(crate) fn part_of(word: &str) -> Option<Part> {
    let (lots, rest) = word.split_once('/')?;
    let (firm, account) = rest.split_once('/')?;
    Some(Part {
        lots: lots.parse::<u64>().ok()?,
        firm: FirmId::new(firm.as_bytes())?,
        account: AccountId::new(account.as_bytes()),
    })
}

/// The parts of these words. `None` where there is no memory.
pub(crate) fn parts_of(alloc: Global, words: &str) -> Option<Vec<Part>> {
    let mut parts = Vec::new(alloc);
    for word in words.split(' ') {
        if let Some(
            Part {
                lots,
                firm,
                account,
            },
        ) = part_of(word)
        {
            let part = Part {
                lots,
                firm,
                account,
            };
            if parts.push(part).is_err() {
                return None;
            }
        }
    }
    Some(parts)
}

/// The decision of a verb: `claim FIRM/ACCOUNT`, `refuse`, `cancel`.
pub(crate) fn decision_of(verb: &str, words: &str) -> Option<Decision> {
    match verb {
        "claim" => Some(Decision::Claim(place_of(words)?)),
        "refuse" => Some(Decision::Refuse),
        "cancel" => Some(Decision::Cancel),
        _ => None,
    }
}

/// What a verb takes back.
pub(crate) fn undo_of(verb: &str) -> Option<Undo> {
    match verb {
        "unsplit" => Some(Undo::Split),
        "unclaim" => Some(Undo::Claim),
        "offer" => Some(Undo::GivingBack),
        _ => None,
    }
}
