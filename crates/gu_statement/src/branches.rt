//! Which live Split and which live decision names each node, and which Reverse each entry.
use gu_base::{Command, Entry, Memory, NodeName, Number};
use gu_book::entry_at;
use std::alloc::Global;

/// How many nodes a command makes: a trade its root, a split its parts.
fn nodes_made(command: &Command) -> usize {
    match command {
        Command::Trade { .. } => 1,
        Command::Split { parts, .. } => parts.as_slice().len(),
        _ => 0,
    }
}

/// Where among the nodes that a command makes the one of this part stands.
fn place_of(command: &Command, part: u8) -> Option<usize> {
    match command {
        Command::Trade { .. } => { if part == 0 { Some(0) } else { None } }
        Command::Split { parts, .. } => {
            let part = part as usize;
            if 1 <= part && part <= parts.as_slice().len() {
                Some(part - 1)
            } else {
                None
            }
        }
        _ => None,
    }
}

/// Whether a command is a change.
pub(crate) fn is_change(command: &Command) -> bool {
    match command {
        Command::Initiate { .. } | Command::Decline { .. } | Command::Reverse { .. } => false,
        _ => true,
    }
}

/// The numbers of the entries that name the nodes and the entries of a history.
#[derive(Drop)]
pub(crate) struct Branches {
    /// Of each entry how many nodes the entries before it make, reversed ones too.
    before: Vec<u32>,
    /// Of each of these nodes the live Split that names it, or 0.
    splits: Vec<u32>,
    /// The live Claim, Refuse or Cancel.
    decisions: Vec<u32>,
    /// Of each entry the Reverse that names it, or 0.
    reversals: Vec<u32>,
}

/// The number at a place, if there is one.
fn number_at(numbers: &[u32], place: usize) -> Option<Number> {
    match numbers.get(place) {
        Some(number) => Number::new(*number),
        None => None,
    }
}

/// Puts a number at a place, if there is one.
fn put_at(numbers: &mut [u32], place: usize, number: Number) {
    if place < numbers.len() {
        numbers[place] = number.get();
    }
}

/// A number as a list of them has it; a history makes fewer nodes.
fn as_count(count: usize) -> u32 {
    match u32::try_from(count) {
        Ok(count) => count,
        Err(_) => u32::MAX,
    }
}

impl Branches {
    /// Those of this history.
    pub(crate) fn of(alloc: Global, entries: &[Entry]) -> Result<Branches, Memory> {
        let mut branches = Branches {
            before: Vec::with_capacity(alloc, entries.len())?,
            splits: Vec::new(alloc),
            decisions: Vec::new(alloc),
            reversals: Vec::new(alloc),
        };
        branches.reversals.resize(entries.len(), 0)?;
        branches.count(entries)?;
        for place in 0..entries.len() {
            branches.add(entries, place);
        }
        Ok(branches)
    }

    /// Counts the nodes, makes room for them, and puts the Reverses in.
    fn count(&mut self, entries: &[Entry]) -> Result<(), Memory> {
        let mut count = 0usize;
        for place in 0..entries.len() {
            let command = &entries[place].command;
            self.before.push(as_count(count))?;
            count = count.saturating_add(nodes_made(command));
            if let Command::Reverse { entry } = command {
                if let Some(number) = number_of_place(place) {
                    put_at(
                        self.reversals.as_mut_slice(),
                        entry.get() as usize - 1,
                        number,
                    );
                }
            }
        }
        self.splits.resize(count, 0)?;
        self.decisions.resize(count, 0)
    }

    /// Puts the entry at this place in, where it is live and names a node.
    fn add(&mut self, entries: &[Entry], place: usize) {
        let Some(number) = number_of_place(place) else {
            return;
        };
        if place >= entries.len() || self.reversal(number).is_some() {
            return;
        }
        match &entries[place].command {
            Command::Split { node, .. } => {
                if let Some(at) = self.slot(entries, node) {
                    put_at(self.splits.as_mut_slice(), at, number);
                }
            }
            Command::Claim { node, .. } | Command::Refuse { node } | Command::Cancel { node } => {
                if let Some(at) = self.slot(entries, node) {
                    put_at(self.decisions.as_mut_slice(), at, number);
                }
            }
            _ => {}
        }
    }

    /// Where a node stands among all.
    #[inline(always)]
    fn slot(&self, entries: &[Entry], name: &NodeName) -> Option<usize> {
        let Some(entry) = entry_at(entries, name.entry()) else {
            return None;
        };
        let Some(part) = place_of(&entry.command, name.part()) else {
            return None;
        };
        match self.before.get(name.entry().get() as usize - 1) {
            Some(before) => (*before as usize).checked_add(part),
            None => None,
        }
    }

    /// The live Split that names the node.
    pub(crate) fn split(&self, entries: &[Entry], name: &NodeName) -> Option<Number> {
        match self.slot(entries, name) {
            Some(at) => number_at(self.splits.as_slice(), at),
            None => None,
        }
    }

    /// The live Claim, Refuse or Cancel that names the node.
    pub(crate) fn decision(&self, entries: &[Entry], name: &NodeName) -> Option<Number> {
        match self.slot(entries, name) {
            Some(at) => number_at(self.decisions.as_slice(), at),
            None => None,
        }
    }

    /// The Reverse that names the entry.
    pub(crate) fn reversal(&self, entry: Number) -> Option<Number> {
        number_at(self.reversals.as_slice(), entry.get() as usize - 1)
    }
}

/// The number of the entry at a place.
pub(crate) fn number_of_place(place: usize) -> Option<Number> {
    if place >= Number::MAX as usize {
        return None;
    }
    Some(Number::at_place(place))
}
