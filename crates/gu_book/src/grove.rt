//! The trees of the live trades, and the places of the live changes in them.
ghost use Rattle.std.specs.Prelude.{true, ◌≡◌, ◌≤◌, ℕ, List, option_map, IfOk, OnOk, OnErr};
ghost use Rattle.std.specs.Prelude.{IsSome};
ghost use Rattle.gu_base.specs.Numbers.{EntryPart};
ghost use Rattle.gu_base.specs.Rows.{state_after};
ghost use Rattle.gu_base.specs.declared.command.Command.TheVariants.{Split, Claim};
ghost use Rattle.gu_tree.specs.Changes.{is_given_back};
ghost use Rattle.gu_tree.specs.Grove.{tree_of, last_place, IsSameGrove};
ghost use Rattle.gu_tree.specs.Rose.{rows};
ghost use Rattle.gu_tree.specs.Shown.{DecidesNode, GivesBack, IsTradeOf, SplitsNode, named_node};
ghost use Rattle.gu_book.specs.Filed.{IsDue, Follows, MayGo, IsGone};
ghost use Rattle.gu_book.specs.Found.{IsFoundThere, IsUndoneThere};
ghost use Rattle.gu_book.specs.Live.{record_of};
ghost use Rattle.gu_book.specs.LiveState.{gone_of};
ghost use Rattle.gu_book.specs.TreeRows.{is_trade};

use crate::found::{Sought, Undone};
use crate::live::Change;
use crate::live_state::Removal;
use gu_base::{AccountId, Memory, Number, Part, Place, State};
use gu_tree::{Row, Tree, Trees};
use std::alloc::Global;

/// Adds the tree of a Trade.
pub(crate) fn plant(
    trees: &mut Trees<Global>,
    alloc: Global,
    made: &Change<'_>,
    place: Place,
    lots: u64,
)
    requires due { IsDue (record_of made.now) trees.old }
    requires tree_room { 1 ≤ trees.old.tree_room }
    requires place_room { 1 ≤ trees.old.place_room }
    requires trade { IsTradeOf made.now.number place lots (record_of made.now) }
    ensures follows { Follows (record_of made.now) trees.old trees.new }
    ensures last { last_place trees.new ≤ made.now.number }
{
    trees.plant(Tree::new(alloc, made.number, place, lots));
}

/// Gives the node its parts.
pub(crate) fn split(
    trees: &mut Trees<Global>,
    made: &Change<'_>,
    sought: &Sought,
    parts: &[Part],
) -> Result<(), Memory>
    requires due { IsDue (record_of made.now) trees.old }
    requires place_room { 1 ≤ trees.old.place_room }
    requires split { (n : EntryPart) × (made.now.command.now ≡ Split n parts.now) }
    requires there { IsFoundThere trees.old (named_node made.now.command.now) sought.now.named
        sought.now.path.items }
    ensures follows { OnOk result (Follows (record_of made.now) trees.old trees.new) }
    ensures last { OnOk result (last_place trees.new ≤ made.now.number) }
    ensures unchanged { OnErr result (IsSameGrove trees.old trees.new) }
{
    let Some(named) = &sought.named else {
        unreachable!()
    };
    trees.split(named.found.trade, &sought.path, made.number, parts)
}

/// Moves the node into the account of its claim.
pub(crate) fn claim(
    trees: &mut Trees<Global>,
    made: &Change<'_>,
    sought: &Sought,
    account: AccountId,
)
    requires due { IsDue (record_of made.now) trees.old }
    requires place_room { 1 ≤ trees.old.place_room }
    requires claim { (n : EntryPart) × (made.now.command.now ≡ Claim n account) }
    requires there { IsFoundThere trees.old (named_node made.now.command.now) sought.now.named
        sought.now.path.items }
    ensures follows { Follows (record_of made.now) trees.old trees.new }
    ensures last { last_place trees.new ≤ made.now.number }
{
    let Some(named) = &sought.named else {
        unreachable!()
    };
    let place = Place {
        firm: *made.firm,
        account,
    };
    trees.claim(named.found.trade, &sought.path, made.number, place);
}

/// Gives the node back to its giver: `state` is Refused or Cancelled.
pub(crate) fn give_back(trees: &mut Trees<Global>, made: &Change<'_>, sought: &Sought, state: State)
    requires due { IsDue (record_of made.now) trees.old }
    requires place_room { 1 ≤ trees.old.place_room }
    requires back { (n : EntryPart) × GivesBack n state made.now.command.now }
    requires there { IsFoundThere trees.old (named_node made.now.command.now) sought.now.named
        sought.now.path.items }
    ensures follows { Follows (record_of made.now) trees.old trees.new }
    ensures last { last_place trees.new ≤ made.now.number }
{
    let Some(named) = &sought.named else {
        unreachable!()
    };
    trees.give_back(named.found.trade, &sought.path, made.number, state);
}

/// Takes the tree of a Trade away, on which nothing may stand. The trees are then those of the
/// other changes. Takes no memory, like those below.
pub(crate) fn uproot(trees: &mut Trees<Global>, removal: &Removal<'_, '_>)
    requires may_go { MayGo (gone_of removal.now) trees.old }
    requires trade { is_trade removal.now.entry.now.command ≡ true }
    ensures gone { IsGone (gone_of removal.now) trees.old trees.new }
    ensures last { last_place trees.new ≡ last_place trees.old }
{
    trees.uproot(removal.number);
}

/// Takes the parts of a Split away, at the node that it names; nothing may stand on it.
pub(crate) fn unsplit(trees: &mut Trees<Global>, removal: &Removal<'_, '_>, undone: &Undone)
    requires may_go { MayGo (gone_of removal.now) trees.old }
    requires split { (n : EntryPart) × SplitsNode n removal.now.entry.now.command }
    requires there { IsUndoneThere trees.old removal.now.number undone.now
        removal.now.sought.now.path.items }
    ensures gone { IsGone (gone_of removal.now) trees.old trees.new }
    ensures last { last_place trees.new ≡ last_place trees.old }
{
    trees.unsplit(undone.found.trade, &removal.sought.path);
}

/// Takes the node of a Claim back; nothing may stand on it.
pub(crate) fn unclaim(trees: &mut Trees<Global>, removal: &Removal<'_, '_>, undone: &Undone)
    requires may_go { MayGo (gone_of removal.now) trees.old }
    requires claim { (n : EntryPart) × (account : List ℕ)
        × (removal.now.entry.now.command ≡ Claim n account) }
    requires there { IsUndoneThere trees.old removal.now.number undone.now
        removal.now.sought.now.path.items }
    ensures gone { IsGone (gone_of removal.now) trees.old trees.new }
    ensures last { last_place trees.new ≡ last_place trees.old }
{
    trees.unclaim(undone.found.trade, &removal.sought.path);
}

/// Offers the node of a Refuse or a Cancel again; nothing may stand on it.
pub(crate) fn offer_again(trees: &mut Trees<Global>, removal: &Removal<'_, '_>, undone: &Undone)
    requires may_go { MayGo (gone_of removal.now) trees.old }
    requires back { (n : EntryPart) × DecidesNode n removal.now.entry.now.command
        × (is_given_back (state_after removal.now.entry.now.command) ≡ true) }
    requires there { IsUndoneThere trees.old removal.now.number undone.now
        removal.now.sought.now.path.items }
    ensures gone { IsGone (gone_of removal.now) trees.old trees.new }
    ensures last { last_place trees.new ≡ last_place trees.old }
{
    trees.offer_again(undone.found.trade, &removal.sought.path);
}

/// The rows of the tree of that trade; `None` where there is none, which takes no memory.
pub(crate) fn rows(
    trees: &Trees<Global>,
    alloc: Global,
    trade: Number,
) -> Result<Option<Vec<Row>>, Memory>
    ensures rows { IfOk result (λ o. option_map (λ v. v.items) o
        ≡ option_map rows (tree_of trees.now trade)) }
    ensures memory { OnErr result (IsSome (tree_of trees.now trade)) }
{
    match trees.tree(trade) {
        Some(tree) => Ok(Some(tree.rows(alloc)?)),
        None => Ok(None),
    }
}
