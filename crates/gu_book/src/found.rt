//! What a command names: a node, found by its name, or a change, found by its number.
ghost use Rattle.std.specs.Prelude.{◌≡◌, ◌≤◌, ◌<◌, ◌+◌, ◌^◌, ℕ, List, length, None, Some, IsSome};
ghost use Rattle.std.specs.Prelude.{IsSomeAnd};
ghost use Rattle.gu_base.specs.History.{RisesFrom, live};
ghost use Rattle.gu_base.specs.House.{House as HouseData};
ghost use Rattle.gu_base.specs.Numbers.{EntryPart};
ghost use Rattle.gu_base.specs.Nodes.{is_offered, node_of};
ghost use Rattle.gu_base.specs.Places.{depth_of};
ghost use Rattle.gu_base.specs.Refusals.{owns};
ghost use Rattle.gu_base.specs.Standing.{IsLegal, standing_on};
ghost use Rattle.gu_base.specs.declared.command.Command.TheVariants.{Reverse};
ghost use Rattle.gu_base.specs.declared.entry.Record.{Record as RecordData};
ghost use Rattle.gu_base.specs.declared.node.Node.{Node as NodeData};
ghost use Rattle.gu_book.specs.Found.{AreTreesOf, IsFoundAs, IsFoundIn, IsNamedBy, IsNamedIn};
ghost use Rattle.gu_book.specs.Found.{IsNothing, IsStandingIn, IsUndoneBy, IsUndoneIn, LiesThere};
ghost use Rattle.gu_book.specs.Live.{CanBeFound};
ghost use Rattle.gu_book.specs.Undo.{IsUndoIn, IsUndoOr};
ghost use Rattle.gu_book.specs.Visits.{AreSeen, depth_meant, parts_named};
ghost use Rattle.gu_depend.specs.Terms.{AreTermsOf, entries_dealt};
ghost use Rattle.gu_tree.specs.Grove.{Grove, HasTree, IsPlace};
ghost use Rattle.gu_tree.specs.Paths.{node_at};
ghost use Rattle.gu_tree.specs.Shown.{named_node};
ghost use Rattle.gu_tree.specs.ShownAll.{place_in};

use crate::live::{Live, look_up};
use crate::live_state::LiveState;
use crate::lookups::Reversals;
use crate::rules::holdings::traded_under;
use crate::rules::nodes::node_of;
use crate::undo::Undo;
use gu_base::{Command, Deal, Entry, FirmId, Node, NodeName, Number, Refusal, State};
use gu_depend::{entries_beside, first_standing_at, standing_beside};
use gu_fees::Terms;
use gu_parties::House;
use gu_tree::{Head, Path, Spot, Trees};
use std::alloc::Global;

/// What the trees say of a node.
#[derive(Clone, Copy)]
pub(crate) struct Found {
    /// What its tree keeps of it.
    pub(crate) head: Head,
    /// The Trade in whose tree it lies.
    pub(crate) trade: Number,
    /// How many nodes stand above it.
    pub(crate) depth: u32,
    /// The number of the Split that parted it.
    pub(crate) split: Option<Number>,
}

impl Found {
    /// Whether the firm owns the node.
    pub(crate) fn is_owned_by(&self, firm: &FirmId) -> bool
        ensures { (l : List RecordData) (x : NodeData) → IsFoundAs l x self.now
            → result ≡ owns l firm.now x.name }
    {
        self.head.place.firm == *firm
    }

    /// Whether the node is given and not decided.
    pub(crate) fn is_offered(&self) -> bool
        ensures { (l : List RecordData) (x : NodeData) → IsFoundAs l x self.now
            → result ≡ is_offered l x }
    {
        match self.head.state {
            State::Offered => true,
            State::Held => false,
            State::Claimed => false,
            State::Refused => false,
            State::Cancelled => false,
            State::ReversalPending => false,
            State::Reversed => false,
        }
    }
}

/// What the trees say of the node that was looked up, to which this path leads.
fn found_at(spot: &Spot<'_, Global>, path: &Path) -> Found
    ensures found { (l : List RecordData) (n : EntryPart) (g : Grove) → AreTreesOf l g
        → IsPlace g n spot.now.trade path.now.items
        → HasTree g spot.now.trade (λ t. node_at path.now.items t ≡ Some spot.now.node.now)
        → IsFoundIn l n (Some result) }
    ensures trade { result.trade ≡ spot.now.trade }
    ensures deep { result.depth ≡ length path.now.items }
{
    let split = match spot.node.parted() {
        Some(parted) => Some(parted.0),
        None => None,
    };
    Found {
        head: *spot.node.head(),
        trade: spot.trade,
        depth: path.len() as u32,
        split,
    }
}

/// What the trees say of the node of this name, `None` where no live change makes one.
pub(crate) fn find(trees: &Trees<Global>, name: NodeName) -> Option<Found>
    ensures { (l : List RecordData) → AreTreesOf l trees.now → IsFoundIn l name result }
{
    let mut path = Path::new();
    let Some(spot) = trees.find(name, &mut path) else {
        return None;
    };
    Some(found_at(&spot, &path))
}

/// How many nodes and entries a Reverse looks at beside the way to its change's node: its parts, or
/// if it makes none, the entries of its giver and taker, from among which it is taken out.
fn met_beside(terms: &Terms, number: Number, parts: u64) -> u64
    requires { parts < 2 ^ 63 }
    ensures fits { result < 2 ^ 63 }
    ensures least { parts ≤ result }
    ensures most { (t : HouseData) (l : List RecordData) → AreTermsOf t l terms.now
        → result ≤ parts + entries_dealt l number }
{
    if parts > 0 {
        parts
    } else {
        entries_beside(terms, number) as u64
    }
}

/// A node that a live change makes, and what the trees say of it.
#[derive(Clone, Copy)]
pub(crate) struct Named {
    pub(crate) node: Node,
    pub(crate) found: Found,
}

/// What the trees say of a live change that is to be undone.
#[derive(Clone, Copy)]
pub(crate) struct Undone {
    /// The node that it made or named.
    pub(crate) found: Found,
    /// What is traded there.
    pub(crate) deal: Option<Deal>,
}

/// What the trees and the terms say of what a command names, so that nothing is looked up and
/// climbed to again.
#[derive(Drop)]
pub(crate) struct Sought {
    /// The node that it names, if a live change makes it.
    pub(crate) named: Option<Named>,
    /// What follows of the kind of the change that it names, if it names an entry, or why no live
    /// change has the number.
    pub(crate) undo: Option<Result<Undo, Refusal>>,
    /// The change that a Reverse names, if it is live and has a node: an Agree and a Raise have
    /// none.
    pub(crate) undone: Option<Undone>,
    /// The first change that stands on the one which a Reverse names.
    pub(crate) standing: Option<Number>,
    /// From the root of the trade in whose tree the node lies; of no use where there is no node.
    pub(crate) path: Path,
    /// How many nodes are looked at: those on the way, and the parts of the Split that a Reverse
    /// names. Where it names a Claim, also how many entries its giver and taker have, and where an
    /// Agree or a Raise, these alone.
    pub(crate) nodes: u64,
}

impl Sought {
    /// Nothing.
    pub(crate) fn nothing() -> Sought
        ensures { IsNothing result }
    {
        Sought {
            named: None,
            undo: None,
            undone: None,
            standing: None,
            path: Path::new(),
            nodes: 0,
        }
    }
}

/// Puts the node of this name in. One that no live change makes isn't looked for in the trees.
fn seek_node(changes: &Live<'_>, trees: &Trees<Global>, name: NodeName, sought: &mut Sought)
    requires trees { AreTreesOf changes.now trees.now }
    requires nothing { IsNothing sought.old }
    ensures named { IsNamedBy changes.now name sought.new.named }
    ensures there { LiesThere changes.now sought.new.named sought.new.path.items }
    ensures undo { sought.new.undo ≡ None }
    ensures undone { sought.new.undone ≡ None }
    ensures standing { sought.new.standing ≡ None }
    ensures few { sought.new.nodes ≤ 2 ^ 32 }
    ensures most { sought.new.nodes ≤ depth_of changes.now name + 1 }
    ensures least { IsSome (node_of changes.now name)
        → depth_of changes.now name + 1 ≤ sought.new.nodes }
{
    let Some(node) = node_of(changes, &name) else {
        return;
    };
    let Some(spot) = trees.find(name, &mut sought.path) else {
        unreachable!()
    };
    let found = found_at(&spot, &sought.path);
    sought.nodes = found.depth as u64 + 1;
    sought.named = Some(Named { node, found });
}

/// Puts the node of the live change of this number in, which makes so many parts, and what stands
/// on it.
fn seek_change(
    changes: &Live<'_>,
    state: &LiveState,
    number: Number,
    parts: u64,
    sought: &mut Sought,
)
    requires trees { AreTreesOf changes.now state.now.trees }
    requires parts { parts ≡ parts_named changes.now (Reverse number) }
    requires fits { parts < 2 ^ 63 }
    requires nothing { sought.old.undone ≡ None }
    ensures undone { IsUndoneBy changes.now number sought.new.undone sought.new.path.items }
    ensures named { sought.new.named ≡ sought.old.named }
    ensures undo { sought.new.undo ≡ sought.old.undo }
    ensures standing { (t : HouseData) → IsLegal t changes.now
        → AreTermsOf t changes.now state.now.terms
        → sought.new.standing ≡ standing_on t changes.now number }
    ensures few { sought.new.nodes < 2 ^ 64 }
    ensures most { (t : HouseData) → AreTermsOf t changes.now state.now.terms
        → sought.new.nodes ≤ depth_meant changes.now (Reverse number) + parts
        + entries_dealt changes.now number + 1 }
    ensures least { IsSome (place_in changes.now number)
        → depth_meant changes.now (Reverse number) + parts + 1 ≤ sought.new.nodes }
{
    let Some(spot) = state.trees.named(number, &mut sought.path) else {
        let (standing, count) = standing_beside(&state.terms, number);
        sought.nodes = count as u64;
        sought.standing = standing;
        return;
    };
    let found = found_at(&spot, &sought.path);
    sought.nodes = found.depth as u64 + 1 + met_beside(&state.terms, number, parts);
    sought.undone = Some(Undone {
        found,
        deal: traded_under(changes, spot.trade),
    });
    sought.standing = first_standing_at(&spot, number);
}

/// Puts the change in that an Initiate or a Decline names.
fn seek_entry<'b>(
    house: &House,
    entries: &'b [Entry],
    reversals: &'b Reversals,
    number: Number,
    sought: &mut Sought,
)
    requires found { CanBeFound entries.now reversals.now }
    requires rises { RisesFrom 1 (live entries.now) }
    ensures undo { IsSomeAnd sought.new.undo (IsUndoOr house.now entries.now number) }
    ensures named { sought.new.named ≡ sought.old.named }
    ensures undone { sought.new.undone ≡ sought.old.undone }
    ensures standing { sought.new.standing ≡ sought.old.standing }
    ensures nodes { sought.new.nodes ≡ sought.old.nodes }
{
    match look_up(entries, reversals, number) {
        Ok(made) => {
            let changes = Live::of(entries, reversals);
            sought.undo = Some(Ok(Undo::of(house, &changes, &made)));
        }
        Err(refusal) => sought.undo = Some(Err(refusal)),
    }
}

/// Puts the change in that a Reverse names.
fn seek_reversed<'b>(
    house: &House,
    entries: &'b [Entry],
    reversals: &'b Reversals,
    state: &LiveState,
    number: Number,
    sought: &mut Sought,
)
    requires found { CanBeFound entries.now reversals.now }
    requires trees { AreTreesOf (live entries.now) state.now.trees }
    requires legal { IsLegal house.now (live entries.now) }
    requires dealt { AreTermsOf house.now (live entries.now) state.now.terms }
    requires nothing { IsNothing sought.old }
    ensures undo { IsSomeAnd sought.new.undo (IsUndoOr house.now entries.now number) }
    ensures undone { IsUndoneBy (live entries.now) number sought.new.undone
        sought.new.path.items }
    ensures standing { sought.new.standing ≡ standing_on house.now (live entries.now) number }
    ensures named { sought.new.named ≡ None }
    ensures few { sought.new.nodes < 2 ^ 64 }
    ensures most { sought.new.nodes ≤ depth_meant (live entries.now) (Reverse number)
        + parts_named (live entries.now) (Reverse number)
        + entries_dealt (live entries.now) number + 1 }
    ensures least { IsSome (place_in (live entries.now) number)
        → depth_meant (live entries.now) (Reverse number)
        + parts_named (live entries.now) (Reverse number) + 1 ≤ sought.new.nodes }
{
    match look_up(entries, reversals, number) {
        Ok(made) => {
            let changes = Live::of(entries, reversals);
            let undo = Undo::of(house, &changes, &made);
            let parts = undo.parts;
            sought.undo = Some(Ok(undo));
            seek_change(&changes, state, number, parts, sought);
        }
        Err(refusal) => sought.undo = Some(Err(refusal)),
    }
}

/// Puts in what a command names.
pub(crate) fn seek<'b>(
    house: &House,
    entries: &'b [Entry],
    reversals: &'b Reversals,
    state: &LiveState,
    command: &Command,
    sought: &mut Sought,
)
    requires found { CanBeFound entries.now reversals.now }
    requires trees { AreTreesOf (live entries.now) state.now.trees }
    requires legal { IsLegal house.now (live entries.now) }
    requires dealt { AreTermsOf house.now (live entries.now) state.now.terms }
    requires nothing { IsNothing sought.old }
    ensures named { IsNamedIn (live entries.now) (named_node command.now) sought.new.named }
    ensures undo { IsUndoIn house.now entries.now command.now sought.new.undo }
    ensures undone { IsUndoneIn (live entries.now) command.now sought.new.undone
        sought.new.path.items }
    ensures standing { IsStandingIn house.now (live entries.now) command.now sought.new.standing }
    ensures there { LiesThere (live entries.now) sought.new.named sought.new.path.items }
    ensures seen { (by : List ℕ) → AreSeen (live entries.now) by command.now sought.new.nodes }
{
    let changes = Live::of(entries, reversals);
    match command {
        Command::Split { node, .. } => seek_node(&changes, &state.trees, *node, sought),
        Command::Claim { node, .. } => seek_node(&changes, &state.trees, *node, sought),
        Command::Refuse { node } => seek_node(&changes, &state.trees, *node, sought),
        Command::Cancel { node } => seek_node(&changes, &state.trees, *node, sought),
        Command::Initiate { entry } => seek_entry(house, entries, reversals, *entry, sought),
        Command::Decline { entry } => seek_entry(house, entries, reversals, *entry, sought),
        Command::Reverse { entry } => {
            seek_reversed(house, entries, reversals, state, *entry, sought);
        }
        _ => {}
    }
}
