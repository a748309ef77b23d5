//! The text of an entry's line.
use crate::lines::EntryLine;
use crate::text::{begin, count, count_entry, end, name_node, say, say_time};
use crate::words::{command_word, side_word, state_word};
use gu_base::{AccountId, Command, FirmId, Memory, NodeName, Number, Part};
use json::Writer;
use std::alloc::Global;

/// The account of a Trade, and of a Claim where it is shown.
fn account_of(line: &EntryLine<'_>) -> Option<AccountId> {
    match line.command {
        Command::Trade { account, .. } => Some(*account),
        Command::Claim { account, .. } if line.shows_account => Some(*account),
        _ => None,
    }
}

/// The change of which a command speaks.
fn change_of(command: &Command) -> Option<Number> {
    match command {
        Command::Initiate { entry } | Command::Decline { entry } | Command::Reverse { entry } => {
            Some(*entry)
        }
        _ => None,
    }
}

/// The giver of terms.
fn giver_of(command: &Command) -> Option<FirmId> {
    match command {
        Command::Agree { giver, .. } | Command::Raise { giver, .. } => Some(*giver),
        _ => None,
    }
}

/// The limit that a command names.
fn limit_of(command: &Command) -> Option<u64> {
    match command {
        Command::Agree { limit, .. } => Some(*limit),
        _ => None,
    }
}

/// The lots that a command names.
fn lots_of(command: &Command) -> Option<u64> {
    match command {
        Command::Trade { lots, .. } | Command::Raise { lots, .. } => Some(*lots),
        _ => None,
    }
}

/// The node that a command names.
fn node_of(command: &Command) -> Option<NodeName> {
    match command {
        Command::Split { node, .. }
        | Command::Claim { node, .. }
        | Command::Refuse { node }
        | Command::Cancel { node } => Some(*node),
        _ => None,
    }
}

/// What stands before the kind: the account, the change, the command, who gave it, the giver of
/// terms, the id and the instrument.
fn say_front(w: &mut Writer, line: &EntryLine<'_>) -> Result<(), Memory> {
    if let Some(account) = account_of(line) {
        say(w, "account", account.as_str())?;
    }
    if let Some(change) = change_of(line.command) {
        count_entry(w, "change", change)?;
    }
    say(w, "command", command_word(line.command))?;
    say(w, "firm", line.firm.as_str())?;
    if let Some(giver) = giver_of(line.command) {
        say(w, "giver", giver.as_str())?;
    }
    if let Some(id) = &line.id {
        say(w, "id", id.as_str())?;
    }
    match &line.deal {
        Some(deal) => say(w, "instrument", deal.instrument.as_str()),
        None => Ok(()),
    }
}

/// The limit, the lots and the node that the command names, and the entry's number.
fn say_asked(w: &mut Writer, line: &EntryLine<'_>) -> Result<(), Memory> {
    if let Some(limit) = limit_of(line.command) {
        count(w, "limit", limit)?;
    }
    if let Some(lots) = lots_of(line.command) {
        count(w, "lots", lots)?;
    }
    if let Some(node) = node_of(line.command) {
        name_node(w, "node", &node)?;
    }
    count_entry(w, "number", line.number)
}

/// A part of a Split by this firm, with its account where it is an own one.
fn say_part(w: &mut Writer, name: &NodeName, by: &FirmId, part: &Part) -> Result<(), Memory> {
    w.begin_object()?;
    if part.firm == *by {
        if let Some(account) = &part.account {
            say(w, "account", account.as_str())?;
        }
    }
    say(w, "firm", part.firm.as_str())?;
    count(w, "lots", part.lots)?;
    name_node(w, "name", name)?;
    w.end_object()
}

/// Whether a part of a Split by the firm `by` is shown: all where no firm asks, to its own firm
/// all, and to another those that it is given.
fn is_shown(whose: &Option<FirmId>, by: &FirmId, part: &Part) -> bool {
    match whose {
        None => true,
        Some(firm) => *by == *firm || part.firm == *firm,
    }
}

/// The parts of a Split that are shown.
fn say_parts(w: &mut Writer, line: &EntryLine<'_>, parts: &[Part]) -> Result<(), Memory> {
    w.key("parts")?;
    w.begin_array()?;
    for i in 0..parts.len() {
        let part = &parts[i];
        if i < 100 && is_shown(&line.parts_of, &line.firm, part) {
            let name = NodeName::in_entry(line.number, i as u8 + 1);
            say_part(w, &name, &line.firm, part)?;
        }
    }
    w.end_array()
}

/// For whom a trade is, the parts of a Split and the rate of an Agree.
fn say_given(w: &mut Writer, line: &EntryLine<'_>) -> Result<(), Memory> {
    match line.command {
        Command::Trade { firm, .. } => say(w, "owner", firm.as_str()),
        Command::Split { parts, .. } => say_parts(w, line, parts.as_slice()),
        Command::Agree { rate, .. } => count(w, "rate", *rate),
        _ => Ok(()),
    }
}

/// The Reverse, the side, the status, the taker of an Agree and the time.
fn say_back(w: &mut Writer, line: &EntryLine<'_>) -> Result<(), Memory> {
    if let Some(number) = &line.reversed_by {
        count_entry(w, "reversed_by", *number)?;
    }
    if let Some(deal) = &line.deal {
        say(w, "side", side_word(deal.side))?;
    }
    say(w, "status", state_word(line.status))?;
    if let Command::Agree { taker, .. } = line.command {
        say(w, "taker", taker.as_str())?;
    }
    say_time(w, "time", line.time)
}

/// Appends the line of an entry.
pub(crate) fn push_entry(
    alloc: Global,
    out: &mut Vec<u8>,
    line: &EntryLine<'_>,
) -> Result<(), Memory> {
    let mut w = begin(alloc, out);
    w.begin_object()?;
    say_front(&mut w, line)?;
    say(&mut w, "kind", "entry")?;
    say_asked(&mut w, line)?;
    say_given(&mut w, line)?;
    say_back(&mut w, line)?;
    w.end_object()?;
    end(out, w)
}
