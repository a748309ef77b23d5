//! The changes of the trades that have a part which waits for a decision.

ghost use Rattle.std.specs.Prelude.{◌≡◌, ◌≤◌, ◌+◌, ◌*◌, ◌^◌, ◌||◌, ℕ, List, None, length};
ghost use Rattle.std.specs.Prelude.{filter, map, replicate, IfOk};
ghost use Rattle.std.specs.List.{list_any};
ghost use Rattle.std.specs.BTreeSet.{contains};
ghost use Rattle.std.specs.Ordering.{nat_cmp};
ghost use Rattle.gu_base.specs.House.{House};
ghost use Rattle.gu_base.specs.History.{RisesFrom};
ghost use Rattle.gu_base.specs.declared.entry.Record.{Record};
ghost use Rattle.gu_lives.specs.Renumbered.{IsWhole};
ghost use Rattle.gu_lives.specs.Trades.{in_trades, is_open, is_trade};
ghost use Rattle.gu_roll.specs.Numbering.{AreOf};
ghost use Rattle.gu_roll.specs.Opened.{cell, decided_key, decides_at, flag, is_kept_by};
ghost use Rattle.gu_roll.specs.Opened.{has_waiting, opens_at, trade_by, trades_from, waits_by};

use gu_base::{Command, Entry, FirmId, Memory, NodeName, Number, Part};
use gu_book::entry_at;
use std::alloc::Global;
use std::collections::BTreeSet;

/// The trade of the change of this number.
fn trade_in(trades: &[Option<Number>], number: Number) -> Option<Number>
    ensures { result ≡ cell trades.now number }
{
    match trades.get(number.get() as usize - 1) {
        Some(trade) => *trade,
        None => None,
    }
}

/// The trade of a node, which is that of the change that made it.
fn trade_at(trades: &[Option<Number>], node: &NodeName) -> Option<Number>
    ensures { result ≡ cell trades.now node.now.entry }
{
    trade_in(trades, node.entry())
}

/// The trade of a change, where those of the changes before it are known.
fn trade_of(trades: &[Option<Number>], number: Number, command: &Command) -> Option<Number>
    ensures { result ≡ trade_by (cell trades.now) number command.now }
{
    match command {
        Command::Trade { .. } => Some(number),
        Command::Split { node, .. } => trade_at(trades, node),
        Command::Claim { node, .. } => trade_at(trades, node),
        Command::Refuse { node } => trade_at(trades, node),
        Command::Cancel { node } => trade_at(trades, node),
        Command::Agree { .. } => None,
        Command::Raise { .. } => None,
        Command::Initiate { .. } => None,
        Command::Decline { .. } => None,
        Command::Reverse { .. } => None,
    }
}

/// The trade of each of the changes that have these numbers, at the place of its number.
fn trades_of(
    alloc: Global,
    history: &[Entry],
    numbers: &[Number],
) -> Result<Vec<Option<Number>>, Memory>
    ensures { IfOk result (λ v. v.items
        ≡ trades_from history.now (replicate (length history.now) None) numbers.now) }
{
    let mut trades = Vec::new(alloc);
    trades.resize(history.len(), None)?;
    for number in numbers {
        if let Some(entry) = entry_at(history, *number) {
            let trade = trade_of(&trades, *number, &entry.command);
            trades[number.get() as usize - 1] = trade;
        }
    }
    Ok(trades)
}

/// What a node is known by among those that have a decision.
fn key_of(number: Number, part: usize) -> u64
    requires { part ≤ 2 ^ 61 }
    ensures { result ≡ number * 128 + part }
{
    number.get() as u64 * 128 + part as u64
}

/// The node that a change decides on.
fn decided_node(command: &Command) -> Option<u64>
    ensures { result ≡ decided_key command.now }
{
    match command {
        Command::Claim { node, .. } => Some(key_of(node.entry(), node.part() as usize)),
        Command::Refuse { node } => Some(key_of(node.entry(), node.part() as usize)),
        Command::Cancel { node } => Some(key_of(node.entry(), node.part() as usize)),
        _ => None,
    }
}

/// The nodes on which the changes that have these numbers decide.
fn decided_of(alloc: Global, history: &[Entry], numbers: &[Number]) -> Result<BTreeSet<u64>, Memory>
    ensures { IfOk result (λ s. (k : ℕ)
        → contains nat_cmp s k ≡ list_any (decides_at history.now k) numbers.now) }
{
    let mut decided = BTreeSet::new(alloc);
    for number in numbers {
        if let Some(entry) = entry_at(history, *number) {
            if let Some(key) = decided_node(&entry.command) {
                decided.insert(key)?;
            }
        }
    }
    Ok(decided)
}

/// Whether a part of a Split is given up and has no decision.
fn waits_among(decided: &BTreeSet<u64>, number: Number, by: &FirmId, parts: &[Part]) -> bool
    ensures { result ≡ has_waiting decided.now number 1 by.now parts.now }
{
    for place in 0..parts.len() {
        if parts[place].firm != *by && !decided.contains(&key_of(number, place + 1)) {
            return true;
        }
    }
    false
}

/// Whether a change makes a part that is given up and has no decision.
fn waits(decided: &BTreeSet<u64>, number: Number, entry: &Entry) -> bool
    ensures { result ≡ waits_by decided.now number entry.now.firm entry.now.command }
{
    match &entry.command {
        Command::Split { parts, .. } => {
            waits_among(decided, number, &entry.firm, parts.as_slice())
        }
        _ => false,
    }
}

/// Notes that the trade of a change has a part that waits for a decision.
fn note_open(flags: &mut Vec<bool>, trades: &[Option<Number>], number: Number)
    ensures long { length flags.new.items ≡ length flags.old.items }
    ensures flags { (k : ℕ) → 1 ≤ k → k ≤ length flags.old.items → flag flags.new.items k
        ≡ (is_trade k (cell trades.now number) || flag flags.old.items k) }
{
    if let Some(trade) = trade_in(trades, number) {
        let place = trade.get() as usize - 1;
        if place < flags.len() {
            flags[place] = true;
        }
    }
}

/// Of each trade of the changes that have these numbers whether a part of it waits for a decision,
/// at the place of its number.
fn open_of(
    alloc: Global,
    history: &[Entry],
    numbers: &[Number],
    trades: &[Option<Number>],
    decided: &BTreeSet<u64>,
) -> Result<Vec<bool>, Memory>
    ensures { IfOk result (λ v. (k : ℕ) → 1 ≤ k → k ≤ length history.now → flag v.items k
        ≡ list_any (opens_at history.now trades.now decided.now k) numbers.now) }
{
    let mut flags = Vec::new(alloc);
    flags.resize(history.len(), false)?;
    for number in numbers {
        if let Some(entry) = entry_at(history, *number) {
            if waits(decided, *number, entry) {
                note_open(&mut flags, trades, *number);
            }
        }
    }
    Ok(flags)
}

/// Whether the change of this number is of an open trade, or of none.
fn is_kept(trades: &[Option<Number>], flags: &[bool], number: Number) -> bool
    ensures { result ≡ is_kept_by trades.now flags.now number }
{
    match trade_in(trades, number) {
        Some(trade) => match flags.get(trade.get() as usize - 1) {
            Some(is_open) => *is_open,
            None => false,
        },
        None => true,
    }
}

/// Those of some numbers of changes that are of open trades or of none.
fn kept_of(
    alloc: Global,
    numbers: &[Number],
    trades: &[Option<Number>],
    flags: &[bool],
) -> Result<Vec<Number>, Memory>
    ensures { IfOk result (λ v. v.items ≡ filter (is_kept_by trades.now flags.now) numbers.now) }
{
    let mut kept = Vec::new(alloc);
    for number in numbers {
        if is_kept(trades, flags, *number) {
            kept.push(*number)?;
        }
    }
    Ok(kept)
}

/// Those of the numbers of a history's live changes that are of trades with a part that waits for a
/// decision, or of no trade.
pub(crate) fn open_numbers(
    alloc: Global,
    history: &[Entry],
    numbers: &[Number],
) -> Result<Vec<Number>, Memory>
    ensures { (t : House) (l : List Record) → IsWhole t l → AreOf history.now l
        → RisesFrom 0 l → numbers.now ≡ map (λ r. r.number) l → IfOk result (λ v. v.items
        ≡ map (λ r. r.number) (filter (in_trades l (is_open l)) l)) }
{
    let trades = trades_of(alloc, history, numbers)?;
    let decided = decided_of(alloc, history, numbers)?;
    let flags = open_of(alloc, history, numbers, &trades, &decided)?;
    kept_of(alloc, numbers, &trades, &flags)
}
