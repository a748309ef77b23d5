//! The entries of some numbers, with numbers from 1 on.

ghost use Rattle.std.specs.Prelude.{◌≡◌, ◌≤◌, List, length, map, IfOk};
ghost use Rattle.std.specs.List.{filter_map};
ghost use Rattle.gu_base.specs.House.{House};
ghost use Rattle.gu_base.specs.Limits.{most_entries};
ghost use Rattle.gu_base.specs.declared.entry.Record.{Record};
ghost use Rattle.gu_lives.specs.Renumbered.{mapped_command, mapped_name, rolled, IsWhole};
ghost use Rattle.gu_roll.specs.Numbering.{entry_at_number, new_in, renamed_entry};
ghost use Rattle.gu_roll.specs.Numbering.{AreOf, IsTableOf};

use gu_base::{Command, Entry, Memory, NodeName, Number};
use gu_book::entry_at;
use std::alloc::Global;

/// The new number of each old one, at the place of the old one. The numbers of a list become 1, 2,
/// .. in their order; no other has a new one.
fn table_of(alloc: Global, numbers: &[Number], most: usize) -> Result<Vec<Option<Number>>, Memory>
    requires few { length numbers.now ≤ most_entries }
    ensures { IfOk result (λ v. IsTableOf numbers.now most v.items) }
{
    let mut table = Vec::new(alloc);
    table.resize(most, None)?;
    let mut place = numbers.len();
    while place > 0 {
        place -= 1;
        let old = numbers[place].get() as usize - 1;
        if old < most {
            table[old] = Some(Number::at_place(place));
        }
    }
    Ok(table)
}

/// The new number of an old one. One that has none stays.
fn new_of(table: &[Option<Number>], old: Number) -> Number
    ensures { result ≡ new_in table.now old }
{
    match table.get(old.get() as usize - 1) {
        Some(Some(new)) => *new,
        _ => old,
    }
}

/// The name of a node whose entry has its new number.
fn renamed_node(table: &[Option<Number>], node: &NodeName) -> NodeName
    ensures { result ≡ mapped_name (new_in table.now) node.now }
{
    NodeName::in_entry(new_of(table, node.entry()), node.part())
}

/// A command that names entries by their new numbers, in memory of its own.
fn renamed(alloc: Global, command: &Command, table: &[Option<Number>]) -> Result<Command, Memory>
    ensures { IfOk result (λ c. c ≡ mapped_command (new_in table.now) command.now) }
{
    match command {
        Command::Split { node, parts } => {
            let parts = parts.copy(alloc)?;
            let node = renamed_node(table, node);
            Ok(Command::Split { node, parts })
        }
        Command::Claim { node, account } => Ok(Command::Claim {
            node: renamed_node(table, node),
            account: *account,
        }),
        Command::Refuse { node } => Ok(Command::Refuse {
            node: renamed_node(table, node),
        }),
        Command::Cancel { node } => Ok(Command::Cancel {
            node: renamed_node(table, node),
        }),
        Command::Initiate { entry } => Ok(Command::Initiate {
            entry: new_of(table, *entry),
        }),
        Command::Decline { entry } => Ok(Command::Decline {
            entry: new_of(table, *entry),
        }),
        Command::Reverse { entry } => Ok(Command::Reverse {
            entry: new_of(table, *entry),
        }),
        Command::Trade { .. } => command.copy(alloc),
        Command::Agree { .. } => command.copy(alloc),
        Command::Raise { .. } => command.copy(alloc),
    }
}

/// An entry with a command of its own that names entries by their new numbers.
fn renumbered_entry(alloc: Global, entry: &Entry, table: &[Option<Number>]) -> Result<Entry, Memory>
    ensures { IfOk result (λ e. e ≡ renamed_entry (new_in table.now) entry.now) }
{
    let command = renamed(alloc, &entry.command, table)?;
    Ok(Entry {
        firm: entry.firm,
        id: entry.id,
        status: entry.status,
        command,
    })
}

/// The entries of a history that have these numbers, each with a command that names entries by
/// their new numbers.
fn renumbered(
    alloc: Global,
    history: &[Entry],
    numbers: &[Number],
    table: &[Option<Number>],
) -> Result<Vec<Entry>, Memory>
    ensures { IfOk result (λ v. v.items
        ≡ filter_map (entry_at_number (new_in table.now) history.now) numbers.now) }
{
    let mut entries = Vec::with_capacity(alloc, numbers.len())?;
    for number in numbers {
        if let Some(entry) = entry_at(history, *number) {
            entries.push(renumbered_entry(alloc, entry, table)?)?;
        }
    }
    Ok(entries)
}

/// The entries of the history of some changes alone, of which these are the numbers in another
/// history.
pub(crate) fn entries_of(
    alloc: Global,
    history: &[Entry],
    numbers: &[Number],
) -> Result<Vec<Entry>, Memory>
    requires few { length numbers.now ≤ most_entries }
    ensures { (t : House) (l : List Record) → IsWhole t l → AreOf history.now l
        → numbers.now ≡ map (λ r. r.number) l → IfOk result (λ v. v.items ≡ rolled l) }
{
    let table = table_of(alloc, numbers, history.len())?;
    renumbered(alloc, history, numbers, &table)
}
