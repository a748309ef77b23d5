//! Nodes of trees, as the changes that made them say, what their trades trade, and what claims of
//! them cost.
ghost use Rattle.std.specs.Prelude.{◌≡◌, find};
ghost use Rattle.gu_base.specs.Nodes.{deal_in, kind_of_part, nodes_of, nodes_of_parts, parent};
ghost use Rattle.gu_base.specs.Nodes.{same_name};

use crate::command::{Command, Part, Side};
use crate::names::{AccountId, FirmId, InstrumentId};
use crate::numbers::NodeName;

/// The account of a firm in which a node stands.
#[derive(Clone, Copy, PartialEq, Eq)]
pub struct Place {
    pub firm: FirmId,
    pub account: AccountId,
}

/// What kind of node it is: the root of a trade, a part that the splitting firm keeps, or one that
/// it gives up.
#[derive(Clone, Copy)]
pub enum Kind {
    Root(Place),
    Own {
        parent: NodeName,
        firm: FirmId,
        account: Option<AccountId>,
    },
    Given {
        parent: NodeName,
        giver: FirmId,
        taker: FirmId,
    },
}

impl Kind {
    /// What kind of node a part makes, of the node that its firm splits.
    fn of_part(parent: &NodeName, by: &FirmId, part: &Part) -> Kind
        ensures { result ≡ kind_of_part parent.now by.now part.now }
    {
        if part.firm == *by {
            Kind::Own {
                parent: *parent,
                firm: *by,
                account: part.account,
            }
        } else {
            Kind::Given {
                parent: *parent,
                giver: *by,
                taker: part.firm,
            }
        }
    }

    /// The node above, `None` of a root.
    pub fn parent(&self) -> Option<NodeName>
        ensures { result ≡ parent self.now }
    {
        match self {
            Kind::Root(_) => None,
            Kind::Own { parent, .. } | Kind::Given { parent, .. } => Some(*parent),
        }
    }
}

/// A node, as the change that made it says.
#[derive(Clone, Copy)]
pub struct Node {
    pub name: NodeName,
    /// Its lots, which never change.
    pub lots: u64,
    pub kind: Kind,
}

impl Node {
    /// The node of this name among the parts of the Split with its entry's number.
    fn made_part(parent: &NodeName, by: &FirmId, parts: &[Part], name: &NodeName) -> Option<Node>
        ensures { result ≡ find (λ x. same_name x.name name.now)
            (nodes_of_parts name.now.entry 1 parent.now by.now parts.now) }
    {
        if name.part() == 0 {
            return None;
        }
        let place = name.part() as usize - 1;
        if place >= parts.len() {
            return None;
        }
        let part = &parts[place];
        Some(Node {
            name: *name,
            lots: part.lots,
            kind: Kind::of_part(parent, by, part),
        })
    }

    /// The node of this name among those that the command of its entry makes, which is a firm's.
    pub fn made_by(by: &FirmId, command: &Command, name: &NodeName) -> Option<Node>
        ensures { result ≡ find (λ x. same_name x.name name.now)
            (nodes_of name.now.entry by.now command.now) }
    {
        match command {
            Command::Trade {
                firm,
                account,
                lots,
                ..
            } => {
                if name.part() != 0 {
                    return None;
                }
                Some(Node {
                    name: *name,
                    lots: *lots,
                    kind: Kind::Root(Place {
                        firm: *firm,
                        account: *account,
                    }),
                })
            }
            Command::Split {
                node: parent,
                parts,
            } => Node::made_part(parent, by, parts.as_slice(), name),
            _ => None,
        }
    }
}

/// What a trade trades: an instrument, on one side.
#[derive(Clone, Copy)]
pub struct Deal {
    pub instrument: InstrumentId,
    pub side: Side,
}

impl Deal {
    /// What a command trades, `None` of all but a Trade.
    pub fn in_command(command: &Command) -> Option<Deal>
        ensures { result ≡ deal_in command.now }
    {
        match command {
            Command::Trade {
                instrument,
                side,
                ..
            } => Some(Deal {
                instrument: *instrument,
                side: *side,
            }),
            _ => None,
        }
    }
}

/// What a claim costs its taker: `lots x rate` hundredths, paid to the giver.
#[derive(Clone, Copy)]
pub struct Charge {
    pub giver: FirmId,
    pub taker: FirmId,
    /// The lots that were claimed.
    pub lots: u64,
    /// Hundredths per lot.
    pub rate: u64,
}
