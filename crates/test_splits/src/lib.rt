//! The changes of a tree's node and their undo, each made where all that it asks for holds, for the
//! programs that change trees (`test_nodes`, `test_heap`); in `trees` the same among the trees of
//! all trades, and in `words` what the programs write.
//!
//! It has no cases of its own: those of the two programs try it.
#![tactic(auto)]

pub mod trees;
pub mod words;

use gu_base::{NodeName, Number, Part, Place, State};
use gu_tree::{MAX_DEPTH, Tree};
use std::alloc::Allocator;

/// What came of a change.
#[derive(Clone, Copy)]
pub enum Outcome {
    Done,
    Memory,
    /// The tree has no such node, or the change isn't one for it.
    Unfit,
}

impl Outcome {
    /// How it is written.
    pub fn text(self) -> &'static str {
        match self {
            Outcome::Done => "done",
            Outcome::Memory => "no memory",
            Outcome::Unfit => "not allowed",
        }
    }

    /// Whether the change was made.
    pub fn is_done(self) -> bool {
        match self {
            Outcome::Done => true,
            _ => false,
        }
    }
}

/// What is decided on an offered part.
#[derive(Clone, Copy)]
pub enum Decision {
    /// It moves into this account.
    Claim(Place),
    /// Its taker gives it back.
    Refuse,
    /// Its giver takes it back.
    Cancel,
}

/// A change that is taken back at its node.
#[derive(Clone, Copy)]
pub enum Undo {
    /// The node's Split, where nothing stands on its parts.
    Split,
    /// The Claim of a leaf.
    Claim,
    /// The Refuse or the Cancel of a leaf.
    GivingBack,
}

/// Splits the node of that name.
pub fn split<A: Allocator + Clone>(
    tree: &mut Tree<A>,
    name: NodeName,
    entry: Number,
    parts: &[Part],
) -> Outcome {
    let Some(path) = tree.find(name) else {
        return Outcome::Unfit;
    };
    let head = *tree.head(&path);
    if tree.parted(&path).is_some() || head.state == State::Offered || path.len() >= MAX_DEPTH {
        return Outcome::Unfit;
    }
    if tree.has_entry(entry) || parts.is_empty() || parts.len() > 100 {
        return Outcome::Unfit;
    }
    if !head.is_sum_of(parts) || !head.can_place(parts) {
        return Outcome::Unfit;
    }
    match tree.split(&path, entry, parts) {
        Ok(()) => Outcome::Done,
        Err(_) => Outcome::Memory,
    }
}

/// Decides the part of that name, where it is offered.
pub fn decide<A: Allocator + Clone>(
    tree: &mut Tree<A>,
    name: NodeName,
    entry: Number,
    decision: Decision,
) -> Outcome {
    let Some(path) = tree.find(name) else {
        return Outcome::Unfit;
    };
    let head = *tree.head(&path);
    if head.state != State::Offered {
        return Outcome::Unfit;
    }
    match decision {
        Decision::Claim(into) => tree.claim(&path, entry, into),
        Decision::Refuse => tree.give_back(&path, entry, State::Refused),
        Decision::Cancel => tree.give_back(&path, entry, State::Cancelled),
    }
    Outcome::Done
}

/// Takes back what was done at the node of that name.
pub fn take_back<A: Allocator + Clone>(tree: &mut Tree<A>, name: NodeName, undo: Undo) -> Outcome {
    let Some(path) = tree.find(name) else {
        return Outcome::Unfit;
    };
    let head = *tree.head(&path);
    let parted = tree.parted(&path);
    match (undo, head.state) {
        (Undo::Split, _) if tree.can_unsplit(&path) => tree.unsplit(&path),
        (Undo::Claim, State::Claimed) if parted.is_none() => tree.unclaim(&path),
        (Undo::GivingBack, State::Refused | State::Cancelled) if parted.is_none() => {
            tree.offer_again(&path)
        }
        _ => return Outcome::Unfit,
    }
    Outcome::Done
}
