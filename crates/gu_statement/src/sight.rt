//! What a firm may see: which entries involve it, and what is read of the nodes that they name.
ghost use Rattle.std.specs.Prelude.{◌≡◌, ◌||◌, bytes_eq, option_and_then};
ghost use Rattle.std.specs.List.{list_any};
ghost use Rattle.gu_base.specs.Answers.{entry_of};
ghost use Rattle.gu_base.specs.History.{records};
ghost use Rattle.gu_base.specs.Nodes.{node_of};
ghost use Rattle.gu_trace.specs.Concerns.{is_between, change_concerns, record_concerns};
ghost use Rattle.gu_statement.specs.Lines.{involves, is_terms_of, is_terms_in, pair_of};

use gu_base::{Command, Deal, Entry, FirmId, Kind, Node, NodeName, Number, Part};
use gu_book::entry_at;

/// The deepest node of a book.
const DEEPEST: usize = 64;

/// The node of this name.
pub(crate) fn node_at(entries: &[Entry], name: &NodeName) -> Option<Node>
    ensures { result ≡ node_of (records entries.now) name.now }
{
    match entry_at(entries, name.entry()) {
        Some(entry) => Node::made_by(&entry.firm, &entry.command, name),
        None => None,
    }
}

/// The giver and the taker of a node, if it is given.
pub(crate) fn pair_of(node: &Option<Node>) -> Option<(FirmId, FirmId)>
    ensures { result ≡ option_and_then (λ x. pair_of x.kind) node.now }
{
    match node {
        None => None,
        Some(x) => match &x.kind {
            Kind::Given { giver, taker, .. } => Some((*giver, *taker)),
            Kind::Root(_) | Kind::Own { .. } => None,
        },
    }
}

/// Whether the firm is the giver or the taker of a node.
fn is_between(firm: &FirmId, node: &Option<Node>) -> bool
    ensures { result ≡ is_between firm.now node.now }
{
    match node {
        None => false,
        Some(x) => match &x.kind {
            Kind::Given { giver, taker, .. } => *giver == *firm || *taker == *firm,
            Kind::Root(_) | Kind::Own { .. } => false,
        },
    }
}

/// Whether some part is one for the firm.
fn has_part_for(firm: &FirmId, parts: &[Part]) -> bool
    ensures { result ≡ list_any (λ p. bytes_eq p.firm firm.now) parts.now }
{
    parts.iter().any(|p| p.firm == *firm)
}

/// Whether a change of the firm `by` concerns the firm, or is one of its terms.
fn change_involves(
    house: &FirmId,
    entries: &[Entry],
    firm: &FirmId,
    by: &FirmId,
    command: &Command,
) -> bool
    ensures { result
        ≡ (change_concerns house.now entries.now firm.now by.now command.now
        || is_terms_of firm.now by.now command.now) }
{
    match command {
        Command::Trade { firm: owner, .. } => *house == *firm || *owner == *firm,
        Command::Split { parts, .. } => *by == *firm || has_part_for(firm, parts.as_slice()),
        Command::Claim { node, .. } => is_between(firm, &node_at(entries, node)),
        Command::Refuse { node } => is_between(firm, &node_at(entries, node)),
        Command::Cancel { node } => is_between(firm, &node_at(entries, node)),
        Command::Agree { giver, taker, .. } => *by == *firm || *giver == *firm || *taker == *firm,
        Command::Raise { giver, .. } => *by == *firm || *giver == *firm,
        _ => false,
    }
}

/// Whether the change of this number involves the firm.
fn entry_involves(house: &FirmId, entries: &[Entry], firm: &FirmId, number: Number) -> bool
    ensures { result
        ≡ (record_concerns house.now entries.now firm.now (entry_of entries.now number)
        || is_terms_in firm.now (entry_of entries.now number)) }
{
    match entry_at(entries, number) {
        None => false,
        Some(e) => change_involves(house, entries, firm, &e.firm, &e.command),
    }
}

/// Whether a firm's statement has an entry of the firm `by`.
pub(crate) fn involves(
    house: &FirmId,
    entries: &[Entry],
    firm: &FirmId,
    by: &FirmId,
    command: &Command,
) -> bool
    ensures { result ≡ involves house.now entries.now firm.now by.now command.now }
{
    match command {
        Command::Initiate { entry } | Command::Decline { entry } | Command::Reverse { entry } => {
            entry_involves(house, entries, firm, *entry)
        }
        _ => change_involves(house, entries, firm, by, command),
    }
}

/// What the trade trades to which a node belongs.
pub(crate) fn deal_of(entries: &[Entry], name: &NodeName) -> Option<Deal> {
    let mut at = *name;
    for _ in 0..=DEEPEST {
        let Some(entry) = entry_at(entries, at.entry()) else {
            return None;
        };
        match &entry.command {
            Command::Split { node, .. } => at = *node,
            command => return Deal::in_command(command),
        }
    }
    None
}

/// What a change moves, as a firm that it involves may see it.
pub(crate) fn deal_seen(entries: &[Entry], command: &Command) -> Option<Deal> {
    match command {
        Command::Split { node, .. }
        | Command::Claim { node, .. }
        | Command::Refuse { node }
        | Command::Cancel { node } => deal_of(entries, node),
        _ => Deal::in_command(command),
    }
}
