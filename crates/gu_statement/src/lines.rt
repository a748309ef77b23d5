//! The lines of a statement: what each says. The names of their members, and who may see what,
//! stand in `docs/statement.md`.
use crate::heard::RefusedCall;
use gu_base::{
    Account, AllocId, Charge, Command, Deal, FirmId, InstrumentId, Node, NodeName, Number, Place,
    Refusal, State,
};

/// What to reconcile with.
#[derive(Clone, Copy)]
pub(crate) struct Control {
    pub(crate) entries: u64,
    pub(crate) trades: u64,
    pub(crate) long: u64,
    pub(crate) short: u64,
    pub(crate) hops: u64,
    pub(crate) paid: u64,
    pub(crate) received: u64,
    pub(crate) refused: Option<u64>,
}

/// An entry, as whoever reads the statement may see it.
#[derive(Clone, Copy)]
pub(crate) struct EntryLine<'a> {
    pub(crate) number: Number,
    pub(crate) firm: FirmId,
    pub(crate) id: Option<AllocId>,
    pub(crate) status: State,
    pub(crate) command: &'a Command,
    /// Of whom the parts of a Split are shown: of all firms where it is none.
    pub(crate) parts_of: Option<FirmId>,
    /// Whether the account of a Claim is shown.
    pub(crate) shows_account: bool,
    pub(crate) deal: Option<Deal>,
    pub(crate) reversed_by: Option<Number>,
    pub(crate) time: &'a [u8],
}

/// A call that came to nothing, with its number among those of the statement.
#[derive(Clone, Copy)]
pub(crate) struct RefusedLine {
    pub(crate) number: u64,
    pub(crate) call: RefusedCall,
    /// Whether its place in the input is shown.
    pub(crate) shows_place: bool,
}

/// A node, as whoever reads the statement may see it.
#[derive(Clone, Copy)]
pub(crate) struct NodeLine {
    pub(crate) name: NodeName,
    pub(crate) parent: Option<NodeName>,
    pub(crate) depth: u8,
    pub(crate) trade: Option<Number>,
    pub(crate) deal: Option<Deal>,
    pub(crate) lots: u64,
    pub(crate) place: Option<Place>,
    pub(crate) state: State,
    pub(crate) pair: Option<(FirmId, FirmId)>,
    pub(crate) decision: Option<Number>,
    pub(crate) charge: Option<Charge>,
    pub(crate) leaf: bool,
}

/// Lots that stand in an account.
#[derive(Clone, Copy)]
pub(crate) struct PositionLine {
    pub(crate) at: Account,
    pub(crate) instrument: InstrumentId,
    pub(crate) long: u64,
    pub(crate) short: u64,
}

/// What a firm pays and receives.
#[derive(Clone, Copy)]
pub(crate) struct BalanceLine {
    pub(crate) firm: FirmId,
    pub(crate) paid: u64,
    pub(crate) received: u64,
}

/// A live Claim: its number, its node, and what it costs.
#[derive(Clone, Copy)]
pub(crate) struct HopLine {
    pub(crate) entry: Number,
    pub(crate) node: NodeName,
    pub(crate) charge: Charge,
}

/// The terms of a giver and a taker, and the entry that made them.
#[derive(Clone, Copy)]
pub(crate) struct AgreementLine {
    pub(crate) giver: FirmId,
    pub(crate) taker: FirmId,
    pub(crate) rate: u64,
    pub(crate) limit: u64,
    pub(crate) used: u64,
    pub(crate) entry: u32,
}

/// A part that waits for its taker.
#[derive(Clone, Copy)]
pub(crate) struct OfferLine {
    pub(crate) node: Node,
    pub(crate) giver: FirmId,
    pub(crate) taker: FirmId,
    pub(crate) costs: Option<Charge>,
    pub(crate) refusal: Option<Refusal>,
}

/// A change to whose reversal some firm has consented.
#[derive(Clone, Copy)]
pub(crate) struct ReversalLine<'a> {
    pub(crate) change: Number,
    pub(crate) consented: &'a [FirmId],
    pub(crate) lacking: &'a [FirmId],
    pub(crate) stands: Option<Number>,
}
