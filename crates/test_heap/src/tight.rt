//! A copy that finds no room, and changes that need none, in heaps that have room for a split into
//! two parts.

use crate::splits::least_heap;
use crate::trees::{Accounts, give_up, given_part, has_rows, root, split_in_hundred, trade};
use gu_base::Number;
use gu_tree::Tree;
use linked_list_allocator::LocalHeap;
use std::alloc::{Allocator, Global};
use std::io::Print;
use test_splits::words::{say, say_line};
use test_splits::{Decision, Outcome, Undo, decide, take_back};

/// A change of the trade whose part of 40 lots was given up, or one that is taken back.
#[derive(Clone, Copy)]
enum Change {
    Claim,
    Unclaim,
    Refuse,
    Cancel,
    OfferAgain,
    Unsplit,
}

/// The changes behind a split, in their order, with their names.
const CHANGES: [(Change, &str); 7] = [
    (Change::Claim, "Claim"),
    (Change::Unclaim, "Unclaim"),
    (Change::Refuse, "Refuse"),
    (Change::OfferAgain, "OfferAgain"),
    (Change::Cancel, "Cancel"),
    (Change::OfferAgain, "OfferAgain"),
    (Change::Unsplit, "Unsplit"),
];

/// Makes the change.
fn make<A: Allocator + Clone>(tree: &mut Tree<A>, accounts: &Accounts, change: Change) -> Outcome {
    let given = given_part();
    match change {
        Change::Claim => {
            let claim = Decision::Claim(accounts.other);
            decide(tree, given, Number::at_place(2), claim)
        }
        Change::Unclaim => take_back(tree, given, Undo::Claim),
        Change::Refuse => decide(tree, given, Number::at_place(3), Decision::Refuse),
        Change::Cancel => decide(tree, given, Number::at_place(4), Decision::Cancel),
        Change::OfferAgain => take_back(tree, given, Undo::GivingBack),
        Change::Unsplit => take_back(tree, root(), Undo::Split),
    }
}

/// Whether a new heap of this size takes a copy of the tree, and whether it is used as before once
/// the copy is dropped.
fn copy_into_heap(alloc: Global, tree: &Tree<Global>, size: usize) -> (bool, bool) {
    let Ok(heap) = LocalHeap::new(alloc, size) else {
        return (false, false);
    };
    let used = heap.used();
    let is_copied = tree.copy(&heap).is_ok();
    (is_copied, heap.used() == used)
}

/// Writes what came of the copy of a trade in a hundred parts.
fn tell_copied(rt: &impl Print, split: Outcome, is_copied: bool, is_same: bool, is_free: bool) {
    say(rt, "split into 100 where memory is ample: ");
    say(rt, split.text());
    say(rt, "; its copy: ");
    say(rt, if is_copied { "copied" } else { "no memory" });
    say(rt, ", rows as before: ");
    say(rt, is_same);
    say(rt, ", heap as before: ");
    say_line(rt, is_free)
}

/// Writes what comes of a copy of the tree that came of the split into a new heap of this size.
fn tell_copy(rt: &impl Print, alloc: Global, tree: &Tree<Global>, split: Outcome, size: usize) {
    let Ok(rows) = tree.rows(alloc) else {
        return say_line(rt, "no rows");
    };
    let (is_copied, is_free) = copy_into_heap(alloc, tree, size);
    let is_same = has_rows(alloc, tree, rows.as_slice());
    tell_copied(rt, split, is_copied, is_same, is_free)
}

/// Writes what comes of a copy of a trade in a hundred parts into a new heap of this size.
fn tell_hundred(rt: &impl Print, alloc: Global, accounts: &Accounts, size: usize) {
    let mut tree = trade(alloc, accounts);
    let split = split_in_hundred(&mut tree, accounts);
    tell_copy(rt, alloc, &tree, split, size)
}

/// Writes what came of a change.
fn tell_change(rt: &impl Print, name: &str, outcome: Outcome, is_free: bool) {
    say(rt, name);
    say(rt, ": ");
    say(rt, outcome.text());
    say(rt, ", heap as before: ");
    say_line(rt, is_free);
}

/// Writes what comes of the changes behind a split, and whether the heap is used as before.
fn tell_each<A: Allocator + Clone>(
    rt: &impl Print,
    heap: &LocalHeap,
    tree: &mut Tree<A>,
    accounts: &Accounts,
) {
    let used = heap.used();
    for (change, name) in CHANGES {
        let outcome = make(tree, accounts, change);
        tell_change(rt, name, outcome, heap.used() == used);
    }
}

/// Writes what comes of a split that gives up a part, of the changes behind it, and how many rows
/// are left.
fn tell_changes<A: Allocator + Clone>(
    rt: &impl Print,
    alloc: Global,
    heap: &LocalHeap,
    tree: &mut Tree<A>,
    accounts: &Accounts,
) {
    say(rt, "given up: ");
    say_line(rt, give_up(tree, accounts).text());
    tell_each(rt, heap, tree, accounts);
    say(rt, "rows ");
    match tree.rows(alloc) {
        Ok(rows) => say_line(rt, rows.len()),
        Err(_) => say_line(rt, "no memory"),
    }
}

/// Writes what comes of a split and the changes behind it in a new heap of this size.
fn tell_in_heap(rt: &impl Print, alloc: Global, accounts: &Accounts, size: usize) {
    let Ok(heap) = LocalHeap::new(alloc, size) else {
        return say_line(rt, "no heap");
    };
    let mut tree = trade(&heap, accounts);
    tell_changes(rt, alloc, &heap, &mut tree, accounts)
}

/// Writes what comes of the copy and of the changes in heaps of the least size for a split into
/// two.
pub(crate) fn tell(rt: &impl Print, alloc: Global, accounts: &Accounts) {
    let Some(size) = least_heap(alloc, accounts) else {
        return say_line(rt, "no heap takes a split into 2");
    };
    tell_hundred(rt, alloc, accounts, size);
    tell_in_heap(rt, alloc, accounts, size)
}
