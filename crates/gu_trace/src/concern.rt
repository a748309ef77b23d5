//! Which firms an entry concerns.
ghost use Rattle.std.specs.Prelude.{◌≡◌, ℕ, List, bytes_eq};
ghost use Rattle.std.specs.List.{list_any};
ghost use Rattle.gu_base.specs.Answers.{entry_of};
ghost use Rattle.gu_trace.specs.Concerned.{is_among};
ghost use Rattle.gu_trace.specs.Concerns.{is_between, change_concerns, record_concerns, concerns};

use crate::lookup::node_at;
use gu_base::{Command, Entry, FirmId, Kind, Node, Number, Part};
use gu_book::entry_at;

/// The firms that an entry concerns, some of them maybe twice.
#[derive(Clone, Copy)]
pub(crate) enum Concerned<'a> {
    /// No firm.
    Nobody,
    /// These two.
    Two(FirmId, FirmId),
    /// This one, and those that the parts are for.
    Parts(FirmId, &'a [Part]),
}

/// Whether the firm is the giver or the taker of a node.
fn is_between(firm: &FirmId, node: &Option<Node>) -> bool
    ensures { result ≡ is_between firm.now node.now }
{
    match node {
        None => false,
        Some(x) => match &x.kind {
            Kind::Given { giver, taker, .. } => *giver == *firm || *taker == *firm,
            Kind::Root(_) | Kind::Own { .. } => false,
        },
    }
}

/// Whether some part is one for the firm.
fn has_part_for(firm: &FirmId, parts: &[Part]) -> bool
    ensures { result ≡ list_any (λ p. bytes_eq p.firm firm.now) parts.now }
{
    parts.iter().any(|p| p.firm == *firm)
}

/// Whether a change of the firm `by` concerns the firm. An Agree or a Raise concerns nobody.
fn change_concerns(
    house: &FirmId,
    entries: &[Entry],
    firm: &FirmId,
    by: &FirmId,
    command: &Command,
) -> bool
    ensures { result ≡ change_concerns house.now entries.now firm.now by.now command.now }
{
    match command {
        Command::Trade { firm: owner, .. } => *house == *firm || *owner == *firm,
        Command::Split { parts, .. } => *by == *firm || has_part_for(firm, parts.as_slice()),
        Command::Claim { node, .. } => is_between(firm, &node_at(entries, node)),
        Command::Refuse { node } => is_between(firm, &node_at(entries, node)),
        Command::Cancel { node } => is_between(firm, &node_at(entries, node)),
        _ => false,
    }
}

/// Whether the change of this number concerns the firm.
fn entry_concerns(house: &FirmId, entries: &[Entry], firm: &FirmId, number: Number) -> bool
    ensures { result ≡ record_concerns house.now entries.now firm.now
        (entry_of entries.now number) }
{
    match entry_at(entries, number) {
        None => false,
        Some(e) => change_concerns(house, entries, firm, &e.firm, &e.command),
    }
}

/// Whether an entry of the firm `by` concerns the firm. An Initiate, Decline or Reverse concerns
/// those whom the change that it names concerns.
pub(crate) fn concerns(
    house: &FirmId,
    entries: &[Entry],
    firm: &FirmId,
    by: &FirmId,
    command: &Command,
) -> bool
    ensures { result ≡ concerns house.now entries.now firm.now by.now command.now }
{
    match command {
        Command::Initiate { entry } | Command::Decline { entry } | Command::Reverse { entry } => {
            entry_concerns(house, entries, firm, *entry)
        }
        _ => change_concerns(house, entries, firm, by, command),
    }
}

/// The giver and the taker of a node.
fn giver_and_taker<'a>(node: &Option<Node>) -> Concerned<'a>
    ensures { (f : List ℕ) → is_between f node.now ≡ is_among f result }
{
    match node {
        None => Concerned::Nobody,
        Some(x) => match &x.kind {
            Kind::Given { giver, taker, .. } => Concerned::Two(*giver, *taker),
            Kind::Root(_) | Kind::Own { .. } => Concerned::Nobody,
        },
    }
}

/// The firms that a change of the firm `by` concerns.
fn firms_of_change<'a>(
    house: &FirmId,
    entries: &'a [Entry],
    by: &FirmId,
    command: &'a Command,
) -> Concerned<'a>
    ensures { (f : List ℕ) → change_concerns house.now entries.now f by.now command.now
        ≡ is_among f result }
{
    match command {
        Command::Trade { firm, .. } => Concerned::Two(*house, *firm),
        Command::Split { parts, .. } => Concerned::Parts(*by, parts.as_slice()),
        Command::Claim { node, .. } => giver_and_taker(&node_at(entries, node)),
        Command::Refuse { node } => giver_and_taker(&node_at(entries, node)),
        Command::Cancel { node } => giver_and_taker(&node_at(entries, node)),
        _ => Concerned::Nobody,
    }
}

/// The firms that the change of this number concerns.
fn firms_of_entry<'a>(house: &FirmId, entries: &'a [Entry], number: Number) -> Concerned<'a>
    ensures { (f : List ℕ) → record_concerns house.now entries.now f (entry_of entries.now number)
        ≡ is_among f result }
{
    match entry_at(entries, number) {
        None => Concerned::Nobody,
        Some(e) => firms_of_change(house, entries, &e.firm, &e.command),
    }
}

/// The firms that an entry of the firm `by` concerns: found without a look at the other firms.
pub(crate) fn firms_concerned<'a>(
    house: &FirmId,
    entries: &'a [Entry],
    by: &FirmId,
    command: &'a Command,
) -> Concerned<'a>
    ensures { (f : List ℕ) → concerns house.now entries.now f by.now command.now
        ≡ is_among f result }
{
    match command {
        Command::Initiate { entry } | Command::Decline { entry } | Command::Reverse { entry } => {
            firms_of_entry(house, entries, *entry)
        }
        _ => firms_of_change(house, entries, by, command),
    }
}
