//! How much a new book lacks of an old one.

ghost use Rattle.std.specs.Prelude.{◌≡◌, ℕ, length, filter, map, IfOk};
ghost use Rattle.std.specs.BTreeSet.{contains};
ghost use Rattle.std.specs.Ordering.{nat_cmp};
ghost use Rattle.gu_roll.specs.Losing.{is_a_reverse, has_consents, reversed_in};

use gu_base::{Command, Entry, Memory, Number};
use std::alloc::Global;
use std::collections::BTreeSet;

/// How much a new book lacks of an old one.
#[derive(Clone, Copy)]
pub struct Lost {
    /// The changes that were reversed. Whoever sends one again makes it anew.
    pub reversed: usize,
    /// The live changes that aren't kept.
    pub closed: usize,
    /// The live changes to whose reversal some firm consents. Whether they are kept or not, these
    /// consents aren't.
    pub consented: usize,
}

/// Whether a command is a Reverse.
fn is_reverse(command: &Command) -> bool
    ensures { result ≡ is_a_reverse command.now }
{
    match command {
        Command::Reverse { .. } => true,
        _ => false,
    }
}

/// How many changes of a history were reversed: each Reverse names another one.
pub(crate) fn count_reversed(history: &[Entry]) -> usize
    ensures { result ≡ reversed_in history.now }
{
    let mut count = 0;
    for entry in history {
        if is_reverse(&entry.command) {
            count += 1;
        }
    }
    count
}

/// The numbers of the changes to whose reversal some firm consents, or has until they were
/// reversed.
fn consented_of(alloc: Global, history: &[Entry]) -> Result<BTreeSet<u32>, Memory>
    ensures { IfOk result (λ s. (n : ℕ) → contains nat_cmp s n ≡ has_consents history.now n) }
{
    let mut consented = BTreeSet::new(alloc);
    for entry in history {
        match &entry.command {
            Command::Initiate { entry } => {
                consented.insert(entry.get())?;
            }
            Command::Decline { entry } => {
                consented.remove(&entry.get());
            }
            _ => {}
        }
    }
    Ok(consented)
}

/// How many of some changes have consents.
pub(crate) fn count_consented(
    alloc: Global,
    history: &[Entry],
    numbers: &[Number],
) -> Result<usize, Memory>
    ensures { IfOk result (λ n. n ≡ length (filter (has_consents history.now) numbers.now)) }
{
    let consented = consented_of(alloc, history)?;
    let mut count = 0;
    for number in numbers {
        if consented.contains(&number.get()) {
            count += 1;
        }
    }
    Ok(count)
}
