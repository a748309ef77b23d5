//! The entries of a book's history, kept to be compared.

use gu_base::{AllocId, Command, Entry, FirmId, Memory, Part, Parts, State};
use std::alloc::Global;

/// An entry, of a Split without its parts but with their number.
#[derive(Drop, PartialEq)]
struct Kept {
    firm: FirmId,
    id: AllocId,
    status: State,
    command: Command,
    parts: usize,
}

/// All entries of a history, and the parts of all its Splits one after the other, so that they take
/// few growths.
#[derive(Drop, PartialEq)]
pub(crate) struct Entries {
    kept: Vec<Kept>,
    parts: Vec<Part>,
}

/// The parts of a command, which only a Split has.
fn parts_of(command: &Command) -> &[Part] {
    match command {
        Command::Split { parts, .. } => parts.as_slice(),
        _ => &[],
    }
}

/// A copy of a command, of a Split without its parts. It takes no memory.
fn bare(alloc: Global, command: &Command) -> Result<Command, Memory> {
    match command {
        Command::Split { node, .. } => Ok(Command::Split {
            node: *node,
            parts: Parts::from_vec(Vec::new(alloc)),
        }),
        other => other.copy(alloc),
    }
}

/// Adds an entry.
fn add(alloc: Global, all: &mut Entries, entry: &Entry) -> Result<(), Memory> {
    let parts = parts_of(&entry.command);
    all.parts.extend_from_slice(parts)?;
    all.kept.push(Kept {
        firm: entry.firm,
        id: entry.id,
        status: entry.status,
        command: bare(alloc, &entry.command)?,
        parts: parts.len(),
    })?;
    Ok(())
}

/// Adds these entries.
fn add_all(alloc: Global, all: &mut Entries, history: &[Entry]) -> Result<(), Memory> {
    all.kept.reserve(history.len())?;
    for entry in history {
        add(alloc, all, entry)?;
    }
    Ok(())
}

/// All entries of a history.
pub(crate) fn entries_of(alloc: Global, history: &[Entry]) -> Result<Entries, Memory> {
    let mut all = Entries {
        kept: Vec::new(alloc),
        parts: Vec::new(alloc),
    };
    match add_all(alloc, &mut all, history) {
        Ok(()) => Ok(all),
        Err(e) => {
            drop(all);
            Err(e)
        }
    }
}
