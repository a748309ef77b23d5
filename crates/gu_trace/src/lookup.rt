//! Nodes and what trades trade, looked up by the number of the entry that made them.
ghost use Rattle.std.specs.Prelude.{◌≡◌, option_map};
ghost use Rattle.gu_base.specs.History.{records};
ghost use Rattle.gu_base.specs.Nodes.{node_of};
ghost use Rattle.gu_base.specs.Places.{line_within, root_along, root_of};
ghost use Rattle.gu_trace.specs.Deals.{deal_of};

use gu_base::{Deal, Entry, Node, NodeName};
use gu_book::entry_at;

/// The node of this name.
pub(crate) fn node_at(entries: &[Entry], name: &NodeName) -> Option<Node>
    ensures { result ≡ node_of (records entries.now) name.now }
{
    match entry_at(entries, name.entry()) {
        Some(entry) => Node::made_by(&entry.firm, &entry.command, name),
        None => None,
    }
}

/// The lots of the node of this name.
pub(crate) fn lots_at(entries: &[Entry], name: &NodeName) -> Option<u64>
    ensures { result ≡ option_map (λ x. x.lots) (node_of (records entries.now) name.now) }
{
    match node_at(entries, name) {
        Some(x) => Some(x.lots),
        None => None,
    }
}

/// The root above a node, going up through so many parents at most: 64 in a book.
fn root_from(entries: &[Entry], steps: usize, at: Option<Node>) -> Option<NodeName>
    ensures { result ≡ root_along (line_within steps (records entries.now) at) }
{
    match at {
        None => None,
        Some(x) => {
            if steps == 0 {
                return None;
            }
            match x.kind.parent() {
                None => Some(x.name),
                Some(parent) => match root_from(entries, steps - 1, node_at(entries, &parent)) {
                    Some(root) => Some(root),
                    None => Some(x.name),
                },
            }
        }
    }
}

/// The root of a node's tree.
fn root_of(entries: &[Entry], name: &NodeName) -> Option<NodeName>
    ensures { result ≡ root_of (records entries.now) name.now }
{
    root_from(entries, entries.len(), node_at(entries, name))
}

/// What the trade trades to which a node belongs.
pub(crate) fn deal_of(entries: &[Entry], name: &NodeName) -> Option<Deal>
    ensures { result ≡ deal_of entries.now name.now }
{
    match root_of(entries, name) {
        Some(root) => match entry_at(entries, root.entry()) {
            Some(trade) => Deal::in_command(&trade.command),
            None => None,
        },
        None => None,
    }
}
