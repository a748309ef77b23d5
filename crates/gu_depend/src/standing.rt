//! What a change touches, and what stands on it there.
ghost use Rattle.std.specs.Prelude.{◌≡◌, ◌<◌, ◌^◌, ◌↔◌, ℕ, List, None, Some, IsSomeAnd, option_map};
ghost use Rattle.gu_base.specs.History.{RisesFrom};
ghost use Rattle.gu_base.specs.House.{House};
ghost use Rattle.gu_base.specs.Standing.{IsLegal, standing_on, without};
ghost use Rattle.gu_base.specs.declared.entry.Record.{Record};
ghost use Rattle.gu_tree.specs.ShownAll.{ShowsAll, place_in};
ghost use Rattle.gu_tree.specs.Grove.{Grove, HasTree, IsPlace, place_of};
ghost use Rattle.gu_tree.specs.Paths.{node_at};
ghost use Rattle.gu_tree.specs.Rose.{split_of_node};
ghost use Rattle.gu_depend.specs.Touch.{Touches, is_trade_or_decision};
ghost use Rattle.gu_depend.specs.Terms.{AreTermsOf, entries_dealt};

use crate::touch::Touched;
use gu_base::{Command, Number};
use gu_fees::Terms;
use gu_tree::{Node, Path, Spot, Trees};
use std::alloc::Allocator;

/// What the command of this number makes or decides where it is accepted. Takes no memory.
pub fn touched(entry: Number, command: &Command) -> Touched
    ensures { Touches entry command.now result }
{
    match command {
        Command::Trade { .. } => Touched::Root,
        Command::Split { .. } => Touched::Parts,
        Command::Claim { node, .. } => Touched::Node(*node),
        Command::Refuse { node } => Touched::Node(*node),
        Command::Cancel { node } => Touched::Node(*node),
        _ => Touched::Nothing,
    }
}

/// The first change that stands on the one of this number: what would be refused first if that one
/// weren't there. `None` where nothing stands on it, so that it may go.
///
/// It is handed the trees and the terms, and no list: for whatever legal list they show, in the
/// order of its numbers, the answer is the list's. It looks at the node that the change made or
/// named, and where that is a Split's at the parts; where it is an Agree or a Raise, at the entries
/// of its giver and taker; and at nothing else. It takes no memory.
pub fn first_standing<A: Allocator + Clone>(
    trees: &Trees<A>,
    terms: &Terms,
    k: Number,
) -> Option<Number>
    ensures first { (t : House) (l : List Record) → RisesFrom 0 l → IsLegal t l
        → ShowsAll l trees.now → AreTermsOf t l terms.now → result ≡ standing_on t l k }
    ensures none { (t : House) (l : List Record) → RisesFrom 0 l → IsLegal t l
        → ShowsAll l trees.now → AreTermsOf t l terms.now → (result ≡ None)
        ↔ IsLegal t (without l k) }
{
    let mut path = Path::new();
    match trees.named(k, &mut path) {
        Some(spot) => first_standing_at(&spot, k),
        None => terms.first_standing(k),
    }
}

/// The same, where the node that the change made or named was looked up already: nothing climbs
/// there again.
pub fn first_standing_at<A: Allocator>(spot: &Spot<'_, A>, k: Number) -> Option<Number>
    ensures { (t : House) (l : List Record) (g : Grove) (p : List ℕ) → RisesFrom 0 l → IsLegal t l
        → ShowsAll l g
        → IsSomeAnd (place_of g k) (λ n. IsPlace g n spot.now.trade p)
        → HasTree g spot.now.trade (λ v. node_at p v ≡ Some spot.now.node.now)
        → result ≡ standing_on t l k }
{
    if is_trade_or_decision(k, spot.trade, spot.node.head().decision) {
        split_of(spot.node)
    } else {
        spot.node.first_on_parts()
    }
}

/// What stands on a change that has no place in the trees, an Agree or a Raise, and how many
/// entries its giver and taker have: `first_standing` and `entries_beside` by one look-up, and with
/// none in the trees.
pub fn standing_beside(terms: &Terms, k: Number) -> (Option<Number>, usize)
    ensures first { (t : House) (l : List Record) → RisesFrom 0 l → IsLegal t l
        → AreTermsOf t l terms.now → place_in l k ≡ None → result.0 ≡ standing_on t l k }
    ensures count { (t : House) (l : List Record) → AreTermsOf t l terms.now
        → result.1 ≡ entries_dealt l k }
    ensures fits { result.1 < 2 ^ 63 }
{
    match terms.row_beside(k) {
        Some(row) => (row.first_standing(k), row.entry_count()),
        None => (None, 0),
    }
}

/// How many entries the giver and the taker of the change of this number have, their Agree, Raises
/// and Claims; 0 where it deals for nobody. So many at most does `first_standing` look at. It walks
/// over none.
pub fn entries_beside(terms: &Terms, k: Number) -> usize
    ensures value { (t : House) (l : List Record) → AreTermsOf t l terms.now
        → result ≡ entries_dealt l k }
    ensures fits { result < 2 ^ 63 }
{
    terms.entries_beside(k)
}

/// Whether the change of this number is the trade itself, or the node's decision.
fn is_trade_or_decision(k: Number, trade: Number, decision: Option<Number>) -> bool
    ensures { result ≡ is_trade_or_decision k trade decision }
{
    match decision {
        Some(decision) => trade == k || decision == k,
        None => trade == k,
    }
}

/// The number of the node's Split.
fn split_of<A: Allocator>(node: &Node<A>) -> Option<Number>
    ensures { result ≡ option_map (λ s. s.0) (split_of_node node.now) }
{
    match node.parted() {
        Some((split, _)) => Some(split),
        None => None,
    }
}
