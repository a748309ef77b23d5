//! Growths of the trees of all trades that are refused in one heap after another, until one has
//! room for a trade, its split and a claim.

use crate::trees::{Accounts, given_part, root};
use gu_base::Number;
use gu_tree::{Row, Trees};
use linked_list_allocator::LocalHeap;
use std::alloc::{Allocator, Global};
use std::io::Print;
use test_splits::trees::{decide, plant, split};
use test_splits::words::{say, say_line};
use test_splits::{Decision, Outcome};

/// A change of the trees, in the order in which they are made: entries 1 to 3.
#[derive(Clone, Copy)]
enum Change {
    Trade,
    Split,
    Claim,
}

/// The changes, each with how many entries have a place before it.
const CHANGES: [(Change, usize); 3] = [(Change::Trade, 0), (Change::Split, 1), (Change::Claim, 2)];

/// How far a run came in a heap.
#[derive(Clone, Copy)]
enum Reached {
    /// The change that was refused.
    Refused(Change),
    All,
    /// A refused growth changed something.
    Changed,
}

/// How many of the entries of the trade, its split and the claim have a place, where each has one
/// if the entry before has.
fn placed<A: Allocator + Clone>(trees: &Trees<A>) -> usize {
    for place in 0..3 {
        if trees.place(Number::at_place(place)).is_none() {
            return place;
        }
    }
    3
}

/// The rows of the trade, none where it isn't there. `None` where there is no memory.
fn rows<A: Allocator + Clone>(alloc: Global, trees: &Trees<A>) -> Option<Vec<Row>> {
    match trees.tree(Number::at_place(0)) {
        Some(tree) => tree.rows(alloc).ok(),
        None => Some(Vec::new(alloc)),
    }
}

/// Whether the trade has these rows, none where it isn't there.
fn has_rows<A: Allocator + Clone>(alloc: Global, trees: &Trees<A>, wanted: &[Row]) -> bool {
    match rows(alloc, trees) {
        Some(rows) => rows.as_slice() == wanted,
        None => false,
    }
}

/// Makes a change in the trees of this heap.
fn make<'a>(
    heap: &'a LocalHeap,
    trees: &mut Trees<&'a LocalHeap>,
    accounts: &Accounts,
    change: Change,
) -> Outcome {
    match change {
        Change::Trade => plant(trees, heap, Number::at_place(0), accounts.own, 100),
        Change::Split => {
            let parts = accounts.give_up_parts();
            split(trees, root(), Number::at_place(1), &parts)
        }
        Change::Claim => {
            let claim = Decision::Claim(accounts.other);
            decide(trees, given_part(), Number::at_place(2), claim)
        }
    }
}

/// Makes a change where so many entries have a place. How far that came, `None` where the change
/// was made.
fn step<'a>(
    alloc: Global,
    heap: &'a LocalHeap,
    trees: &mut Trees<&'a LocalHeap>,
    accounts: &Accounts,
    change: Change,
    before: usize,
) -> Option<Reached> {
    let Some(rows) = rows(alloc, trees) else {
        return Some(Reached::Changed);
    };
    if make(heap, trees, accounts, change).is_done() {
        return None;
    }
    if has_rows(alloc, trees, rows.as_slice()) && placed(trees) == before {
        Some(Reached::Refused(change))
    } else {
        Some(Reached::Changed)
    }
}

/// Makes the changes in their order. How far that comes.
fn run<'a>(
    alloc: Global,
    heap: &'a LocalHeap,
    trees: &mut Trees<&'a LocalHeap>,
    accounts: &Accounts,
) -> Reached {
    for (change, before) in CHANGES {
        if let Some(reached) = step(alloc, heap, trees, accounts, change, before) {
            return reached;
        }
    }
    if placed(trees) == 3 {
        Reached::All
    } else {
        Reached::Changed
    }
}

/// Makes the changes in a new heap of this size. How far that comes.
fn in_heap(alloc: Global, accounts: &Accounts, size: usize) -> Reached {
    let Ok(heap) = LocalHeap::new(alloc, size) else {
        return Reached::Refused(Change::Trade);
    };
    let mut trees = Trees::new(&heap, &heap);
    run(alloc, &heap, &mut trees, accounts)
}

/// Writes whether the trade and the split were refused in some heap, that no refusal changed
/// anything, and that a larger heap has room for all.
pub(crate) fn tell(rt: &impl Print, alloc: Global, accounts: &Accounts) {
    let mut trade_refused = false;
    let mut split_refused = false;
    for steps in 1..1000 {
        match in_heap(alloc, accounts, 16 * steps) {
            Reached::Refused(Change::Trade) => trade_refused = true,
            Reached::Refused(Change::Split) => split_refused = true,
            Reached::Refused(Change::Claim) => (),
            Reached::Changed => return say_line(rt, "a refused growth changed the trees"),
            Reached::All => return tell_done(rt, trade_refused, split_refused),
        }
    }
    say_line(rt, "never done among the trees")
}

/// Writes which changes were refused before all of them were done.
fn tell_done(rt: &impl Print, trade_refused: bool, split_refused: bool) {
    say(rt, "among the trees: trade refused ");
    say(rt, trade_refused);
    say(rt, ", split refused ");
    say(rt, split_refused);
    say_line(rt, "; then done")
}
