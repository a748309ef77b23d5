//! What a command has to know of the kind of the change that it names: who has to consent, and how
//! many parts it made. Where a Reverse is kept, its change is read again (`Book::keep_reversal`),
//! and the node of a Claim is looked up again for what it cost (`claim_charge`).
ghost use Rattle.std.specs.Prelude.{◌≡◌, ◌≤◌, ◌<◌, ◌^◌, take};
ghost use Rattle.gu_base.specs.Consents.{giver_alone, of_node, taker_and_giver};
ghost use Rattle.gu_base.specs.History.{RisesFrom};
ghost use Rattle.gu_book.specs.Undo.{IsOfKind};

use crate::live::{Change, Live};
use crate::rules::nodes::node_of;
use gu_base::{Command, FirmId, Kind, Node};
use gu_parties::House;

/// What follows of what kind of change a command names.
#[derive(Clone, Copy)]
pub(crate) struct Undo {
    /// Its parties, who have to consent to its reversal, in order, and how many they are.
    pub(crate) parties: ([FirmId; 3], usize),
    /// How many parts it makes: a Split has some.
    pub(crate) parts: u64,
}

impl Undo {
    /// What follows of the kind of this live change.
    pub(crate) fn of(house: &House, changes: &Live<'_>, made: &Change<'_>) -> Undo
        requires { RisesFrom 1 changes.now }
        ensures kind { IsOfKind house.now changes.now made.now.firm.now made.now.command.now
            result }
        ensures fits { result.parts < 2 ^ 63 }
    {
        let by = made.firm;
        match made.command {
            Command::Trade { firm, .. } => Undo::new([house.house(), *firm, *firm], 2),
            Command::Split { parts, .. } => Undo {
                parties: ([*by, *by, *by], 1),
                parts: parts.as_slice().len() as u64,
            },
            Command::Claim { node, .. } | Command::Refuse { node } => Undo {
                parties: taker_and_giver(&node_of(changes, node), by),
                parts: 0,
            },
            Command::Cancel { node } => Undo {
                parties: giver_alone(&node_of(changes, node), by),
                parts: 0,
            },
            Command::Agree { giver, taker, .. } => Undo::new([house.house(), *giver, *taker], 3),
            Command::Raise { giver, .. } => Undo::new([*by, *giver, *giver], 2),
            Command::Initiate { .. } | Command::Decline { .. } | Command::Reverse { .. } => {
                Undo::new([*by, *by, *by], 0)
            }
        }
    }

    /// That of so many of these firms, of a change that makes no parts.
    #[inline(always)]
    fn new(firms: [FirmId; 3], count: usize) -> Undo
        ensures { result ≡ record { parties = (firms, count); parts = 0 } }
    {
        Undo {
            parties: (firms, count),
            parts: 0,
        }
    }
}

/// The taker and the giver of a node, and how many they are: none where it isn't given.
fn taker_and_giver(node: &Option<Node>, by: &FirmId) -> ([FirmId; 3], usize)
    ensures value { take result.1 result.0 ≡ of_node taker_and_giver node.now }
    ensures fits { result.1 ≤ 3 }
{
    match node {
        None => ([*by, *by, *by], 0),
        Some(x) => match &x.kind {
            Kind::Given { giver, taker, .. } => ([*taker, *giver, *giver], 2),
            Kind::Root(_) | Kind::Own { .. } => ([*by, *by, *by], 0),
        },
    }
}

/// The giver of a node, if it is given.
fn giver_alone(node: &Option<Node>, by: &FirmId) -> ([FirmId; 3], usize)
    ensures value { take result.1 result.0 ≡ of_node giver_alone node.now }
    ensures fits { result.1 ≤ 3 }
{
    match node {
        None => ([*by, *by, *by], 0),
        Some(x) => match &x.kind {
            Kind::Given { giver, .. } => ([*giver, *giver, *giver], 1),
            Kind::Root(_) | Kind::Own { .. } => ([*by, *by, *by], 0),
        },
    }
}
