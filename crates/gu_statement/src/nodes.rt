//! The lines of nodes: of each live trade for the house; for a firm below its own tops, which are
//! the roots of its trades and the parts that it is given.
ghost use Rattle.std.specs.Prelude.{◌<◌};
ghost use Rattle.gu_statement.specs.Sheets.{IsSheet};

use crate::lines::NodeLine;
use crate::node_text::push_node;
use crate::pieces::{go_on, made};
use crate::sheet::Sheet;
use crate::sight::deal_of;
use gu_base::{
    Charge, Command, Deal, Entry, FirmId, Kind, Node, NodeName, Number, Part, Place, State,
};
use gu_batch::{RunError, Sink};
use gu_book::entry_at;

/// How many levels of nodes a book has at most.
const LEVELS: u8 = 64;

/// What is known of a node from what stands above it.
#[derive(Clone, Copy)]
struct Below {
    /// How deep it lies below its top.
    depth: u8,
    /// Where the node above stands.
    above: Option<Place>,
    /// What its trade trades.
    deal: Option<Deal>,
    /// Its trade, where that is the top.
    trade: Option<Number>,
}

impl Below {
    /// The same of the parts of a node that stands there.
    fn under(&self, place: Option<Place>) -> Below {
        Below {
            depth: self.depth.saturating_add(1),
            above: place,
            deal: self.deal,
            trade: self.trade,
        }
    }
}

/// A Split: its number, whose it is, and its parts.
#[derive(Clone, Copy)]
struct Branch<'a> {
    number: Number,
    by: &'a FirmId,
    parts: &'a [Part],
}

impl Branch<'_> {
    /// The node of the part at this place, of the node of this name.
    fn part(&self, parent: &NodeName, place: usize) -> Option<Node> {
        if place < self.parts.len() && place < 100 {
            let part = &self.parts[place];
            Some(part_node(self.number, place as u8, parent, self.by, part))
        } else {
            None
        }
    }
}

/// What was decided on a node, and where it stands.
#[derive(Clone, Copy)]
struct Stands<'a> {
    decision: Option<Number>,
    decided: Option<&'a Entry>,
    place: Option<Place>,
}

/// The node of the part at this place of a Split.
pub(crate) fn part_node(
    split: Number,
    place: u8,
    parent: &NodeName,
    by: &FirmId,
    part: &Part,
) -> Node
    requires { place < 100 }
{
    let kind = if part.firm == *by {
        Kind::Own {
            parent: *parent,
            firm: *by,
            account: part.account,
        }
    } else {
        Kind::Given {
            parent: *parent,
            giver: *by,
            taker: part.firm,
        }
    };
    Node {
        name: NodeName::in_entry(split, place + 1),
        lots: part.lots,
        kind,
    }
}

/// The state in which its decision leaves a given part.
fn state_of(kind: &Kind, decided: &Option<&Entry>) -> State {
    match kind {
        Kind::Given { .. } => match decided {
            None => State::Offered,
            Some(entry) => match &entry.command {
                Command::Claim { .. } => State::Claimed,
                Command::Refuse { .. } => State::Refused,
                Command::Cancel { .. } => State::Cancelled,
                _ => State::Held,
            },
        },
        Kind::Root(_) | Kind::Own { .. } => State::Held,
    }
}

/// Where a node stands, of this kind and with this decision.
fn place_of(kind: &Kind, decided: &Option<&Entry>, above: &Option<Place>) -> Option<Place> {
    match kind {
        Kind::Root(place) => Some(*place),
        Kind::Own { firm, account, .. } => match account {
            Some(account) => Some(Place {
                firm: *firm,
                account: *account,
            }),
            None => None,
        },
        Kind::Given { taker, .. } => match decided {
            Some(entry) => match &entry.command {
                Command::Claim { account, .. } => Some(Place {
                    firm: *taker,
                    account: *account,
                }),
                _ => *above,
            },
            None => *above,
        },
    }
}

/// The giver and the taker of a given part.
fn pair_of_kind(kind: &Kind) -> Option<(FirmId, FirmId)> {
    match kind {
        Kind::Given { giver, taker, .. } => Some((*giver, *taker)),
        Kind::Root(_) | Kind::Own { .. } => None,
    }
}

/// Whether a node is given to this firm.
fn is_given_to(kind: &Kind, firm: &FirmId) -> bool {
    match kind {
        Kind::Given { taker, .. } => *taker == *firm,
        Kind::Root(_) | Kind::Own { .. } => false,
    }
}

impl<'a> Sheet<'a> {
    /// The Split of a node whose parts are shown: for a firm one of its own.
    fn split_shown(&self, name: &NodeName) -> Option<Branch<'a>> {
        let Some(number) = self.branches.split(self.entries(), name) else {
            return None;
        };
        let Some(entry) = entry_at(self.entries(), number) else {
            return None;
        };
        if !self.is_of(&entry.firm) {
            return None;
        }
        match &entry.command {
            Command::Split { parts, .. } => Some(Branch {
                number,
                by: &entry.firm,
                parts: parts.as_slice(),
            }),
            _ => None,
        }
    }

    /// The entry of the decision on a node.
    fn decided(&self, decision: &Option<Number>) -> Option<&'a Entry> {
        match decision {
            Some(number) => entry_at(self.entries(), *number),
            None => None,
        }
    }

    /// A place, where it may be seen.
    fn place_seen(&self, place: &Option<Place>) -> Option<Place> {
        match place {
            Some(p) => { if self.is_of(&p.firm) { Some(*p) } else { None } }
            None => None,
        }
    }

    /// What the claim of a node cost, where it is claimed.
    fn charge(&self, node: &Node, state: State) -> Option<Charge> {
        if state != State::Claimed {
            return None;
        }
        let Some((giver, taker)) = pair_of_kind(&node.kind) else {
            return None;
        };
        self.cost(&giver, &taker, node.lots)
    }

    /// What was decided on a node, and where it stands below this place.
    fn stands(&self, node: &Node, above: &Option<Place>) -> Stands<'a> {
        let decision = self.branches.decision(self.entries(), &node.name);
        let decided = self.decided(&decision);
        Stands {
            decision,
            decided,
            place: place_of(&node.kind, &decided, above),
        }
    }

    /// The line of a node that stands so, split or not.
    fn node_line(&self, node: &Node, below: &Below, stands: &Stands<'a>, leaf: bool) -> NodeLine {
        let state = state_of(&node.kind, &stands.decided);
        NodeLine {
            name: node.name,
            parent: if below.depth == 0 {
                None
            } else {
                node.kind.parent()
            },
            depth: below.depth,
            trade: below.trade,
            deal: below.deal,
            lots: node.lots,
            place: self.place_seen(&stands.place),
            state,
            pair: pair_of_kind(&node.kind),
            decision: stands.decision,
            charge: self.charge(node, state),
            leaf,
        }
    }

    /// Writes the line of a node that stands so, split or not.
    fn write_node<W: Sink>(
        &self,
        node: &Node,
        below: &Below,
        stands: &Stands<'a>,
        leaf: bool,
        out: &mut Vec<u8>,
        writer: &mut W,
    ) -> Result<(), RunError> {
        let line = self.node_line(node, below, stands, leaf);
        made(push_node(self.alloc, out, &line))?;
        go_on(out, writer)
    }

    /// Writes the line of a node, and then those of its parts that are shown, through this many
    /// levels.
    fn write_rows<W: Sink>(
        &self,
        node: &Node,
        below: &Below,
        levels: u8,
        out: &mut Vec<u8>,
        writer: &mut W,
    ) -> Result<(), RunError> {
        let stands = self.stands(node, &below.above);
        let split = self.split_shown(&node.name);
        self.write_node(node, below, &stands, split.is_none(), out, writer)?;
        let Some(split) = split else {
            return Ok(());
        };
        if levels == 0 {
            return Ok(());
        }
        let deeper = below.under(stands.place);
        for place in 0..split.parts.len() {
            if let Some(part) = split.part(&node.name, place) {
                self.write_rows(&part, &deeper, levels - 1, out, writer)?;
            }
        }
        Ok(())
    }

    /// Writes the lines of a trade, where it may be seen.
    fn write_trade<W: Sink>(
        &self,
        number: Number,
        entry: &Entry,
        out: &mut Vec<u8>,
        writer: &mut W,
    ) -> Result<(), RunError> {
        let Command::Trade {
            firm,
            account,
            lots,
            ..
        } = &entry.command
        else {
            return Ok(());
        };
        if !self.is_of(firm) {
            return Ok(());
        }
        let root = Node {
            name: NodeName::in_entry(number, 0),
            lots: *lots,
            kind: Kind::Root(Place {
                firm: *firm,
                account: *account,
            }),
        };
        let below = Below {
            depth: 0,
            above: None,
            deal: Deal::in_command(&entry.command),
            trade: Some(number),
        };
        self.write_rows(&root, &below, LEVELS, out, writer)
    }

    /// Writes the lines of the parts of a Split that the firm is given, and of what it made of
    /// them.
    fn write_given<W: Sink>(
        &self,
        firm: &FirmId,
        number: Number,
        entry: &Entry,
        out: &mut Vec<u8>,
        writer: &mut W,
    ) -> Result<(), RunError> {
        let Command::Split { node, parts } = &entry.command else {
            return Ok(());
        };
        let split = Branch {
            number,
            by: &entry.firm,
            parts: parts.as_slice(),
        };
        let below = Below {
            depth: 0,
            above: None,
            deal: deal_of(self.entries(), node),
            trade: None,
        };
        for place in 0..split.parts.len() {
            if let Some(part) = split.part(node, place) {
                if is_given_to(&part.kind, firm) {
                    self.write_rows(&part, &below, LEVELS, out, writer)?;
                }
            }
        }
        Ok(())
    }

    /// Writes the lines that the live change at this place begins.
    fn write_change<W: Sink>(
        &self,
        place: usize,
        out: &mut Vec<u8>,
        writer: &mut W,
    ) -> Result<(), RunError>
        requires { IsSheet self.now }
    {
        let Some((number, entry)) = self.live_at(place) else {
            return Ok(());
        };
        self.write_trade(number, entry, out, writer)?;
        match &self.whose {
            Some(firm) => self.write_given(firm, number, entry, out, writer),
            None => Ok(()),
        }
    }

    /// Writes the lines of the nodes.
    pub(crate) fn write_nodes<W: Sink>(
        &self,
        out: &mut Vec<u8>,
        writer: &mut W,
    ) -> Result<(), RunError>
        requires { IsSheet self.now }
    {
        for place in 0..self.live.len() {
            self.write_change(place, out, writer)?;
        }
        Ok(())
    }
}
