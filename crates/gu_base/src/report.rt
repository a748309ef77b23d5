//! What the book reports of an entry to a firm that it concerns (AllocationReport).
use crate::command::Side;
use crate::names::{AccountId, FirmId, InstrumentId};
use crate::numbers::{NodeName, Number};
use crate::state::State;
use std::marker::Model;

/// What an entry speaks of: a change of a node, the other commands of an entry.
#[derive(Clone, Copy, PartialEq, Eq)]
pub enum Target {
    Node(NodeName),
    Entry(Number),
}

/// A part as a report shows it.
#[derive(Clone, Copy)]
pub struct ReportPart {
    pub name: NodeName,
    /// Its lots (AllocQty 80).
    pub lots: u64,
    /// The firm that gets it (NestedPartyID 524).
    pub firm: FirmId,
    /// The account of an own part or of a claim (AllocAccount 79). A given part has none in the
    /// report of its Split.
    pub account: Option<AccountId>,
}

/// The parts that a report shows, in order. A clause sees the list of them.
#[derive(Drop)]
pub struct ReportParts {
    items: Vec<ReportPart>,
}

impl Model for ReportParts {
    ghost use Rattle.std.specs.Prelude.{List};
    ghost use Rattle.gu_base.specs.declared.report.ReportPart.{ReportPart};

    ghost Value = { List ReportPart };

    ghost view = { λ p. p.items.items };
}

impl ReportParts {
    ghost use Rattle.std.specs.Prelude.{◌≡◌};

    /// The parts of this vector, whose memory it keeps.
    pub fn from_vec(items: Vec<ReportPart>) -> ReportParts
        ensures { result ≡ items.items }
    {
        ReportParts { items }
    }

    /// The vector, which it gives back without taking memory.
    pub fn into_vec(self) -> Vec<ReportPart>
        ensures { result.items ≡ self }
    {
        self.items
    }

    /// The parts, in order.
    pub fn as_slice(&self) -> &[ReportPart]
        ensures { result.now ≡ self.now }
    {
        self.items.as_slice()
    }
}

/// What a firm is told of an entry that concerns it.
#[derive(Drop)]
pub struct Report {
    /// The entry (AllocReportID 755).
    pub number: Number,
    /// What kind of report it is (AllocReportType 794).
    pub kind: u8,
    /// The status with which the entry was accepted (AllocStatus 87).
    pub status: State,
    /// What the entry does (AllocTransType 71).
    pub trans: u8,
    /// What it speaks of (RefAllocID 72).
    pub target: Target,
    pub instrument: InstrumentId,
    pub side: Side,
    /// The lots that it speaks of (Quantity 53).
    pub lots: u64,
    /// The parts that the firm is shown (NoAllocs 78).
    pub parts: ReportParts,
}
