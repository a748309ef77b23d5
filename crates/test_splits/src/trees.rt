//! The changes of the trees of all trades and their undo, each made where all that it asks for
//! holds.

use crate::{Decision, Outcome, Undo};
use gu_base::{NodeName, Number, Part, Place, State};
use gu_tree::{MAX_DEPTH, Path, Tree, Trees};
use std::alloc::Allocator;

/// Adds the tree of a trade of these lots into this account. It grows by `alloc`.
pub fn plant<A: Allocator + Clone>(
    trees: &mut Trees<A>,
    alloc: A,
    trade: Number,
    into: Place,
    lots: u64,
) -> Outcome {
    if !trees.is_new(trade) {
        return Outcome::Unfit;
    }
    if trees.ready().is_err() {
        return Outcome::Memory;
    }
    trees.plant(Tree::new(alloc, trade, into, lots));
    Outcome::Done
}

/// Takes the tree of a trade away.
pub fn uproot<A: Allocator + Clone>(trees: &mut Trees<A>, trade: Number) -> Outcome {
    let root = Path::new();
    let Some(tree) = trees.tree(trade) else {
        return Outcome::Unfit;
    };
    if tree.parted(&root).is_some() || tree.head(&root).name.part() != 0 {
        return Outcome::Unfit;
    }
    trees.uproot(trade);
    Outcome::Done
}

/// Splits the node of that name.
pub fn split<A: Allocator + Clone>(
    trees: &mut Trees<A>,
    name: NodeName,
    entry: Number,
    parts: &[Part],
) -> Outcome {
    if trees.ready().is_err() {
        return Outcome::Memory;
    }
    let mut path = Path::new();
    let Some(spot) = trees.find(name, &mut path) else {
        return Outcome::Unfit;
    };
    let trade = spot.trade;
    let head = *spot.node.head();
    if spot.node.parted().is_some() || head.state == State::Offered || path.len() >= MAX_DEPTH {
        return Outcome::Unfit;
    }
    if !trees.is_new(entry) || parts.is_empty() || parts.len() > 100 {
        return Outcome::Unfit;
    }
    if !head.is_sum_of(parts) || !head.can_place(parts) {
        return Outcome::Unfit;
    }
    match trees.split(trade, &path, entry, parts) {
        Ok(()) => Outcome::Done,
        Err(_) => Outcome::Memory,
    }
}

/// Decides the part of that name, where it is offered.
pub fn decide<A: Allocator + Clone>(
    trees: &mut Trees<A>,
    name: NodeName,
    entry: Number,
    decision: Decision,
) -> Outcome {
    if trees.ready().is_err() {
        return Outcome::Memory;
    }
    let mut path = Path::new();
    let Some(spot) = trees.find(name, &mut path) else {
        return Outcome::Unfit;
    };
    let trade = spot.trade;
    if spot.node.head().state != State::Offered || !trees.is_new(entry) {
        return Outcome::Unfit;
    }
    match decision {
        Decision::Claim(into) => trees.claim(trade, &path, entry, into),
        Decision::Refuse => trees.give_back(trade, &path, entry, State::Refused),
        Decision::Cancel => trees.give_back(trade, &path, entry, State::Cancelled),
    }
    Outcome::Done
}

/// Takes back what was done at the node of that name.
pub fn take_back<A: Allocator + Clone>(
    trees: &mut Trees<A>,
    name: NodeName,
    undo: Undo,
) -> Outcome {
    let mut path = Path::new();
    let Some(spot) = trees.find(name, &mut path) else {
        return Outcome::Unfit;
    };
    let trade = spot.trade;
    let state = spot.node.head().state;
    let parted = spot.node.parted();
    match (undo, state) {
        (Undo::Split, _) if spot.node.can_unsplit() => trees.unsplit(trade, &path),
        (Undo::Claim, State::Claimed) if parted.is_none() => trees.unclaim(trade, &path),
        (Undo::GivingBack, State::Refused | State::Cancelled) if parted.is_none() => {
            trees.offer_again(trade, &path)
        }
        _ => return Outcome::Unfit,
    }
    Outcome::Done
}
