//! Splits that are taken back, again and again in a heap that has only just room for them once.

use crate::trees::{Accounts, first_part, root, split_in_five, split_in_two, trade};
use gu_tree::Tree;
use linked_list_allocator::LocalHeap;
use std::alloc::{Allocator, Global};
use std::io::Print;
use test_splits::words::{say, say_line};
use test_splits::{Undo, take_back};

/// How often the splits are made and taken back.
const ROUNDS: u32 = 10;

/// Splits the trade and its part of 60 lots, and takes both Splits back: whether all of it was
/// done.
fn is_round<A: Allocator + Clone>(tree: &mut Tree<A>, accounts: &Accounts) -> bool {
    split_in_two(tree, accounts).is_done()
        && split_in_five(tree, accounts).is_done()
        && take_back(tree, first_part(), Undo::Split).is_done()
        && take_back(tree, root(), Undo::Split).is_done()
}

/// How many rounds are done.
fn rounds<A: Allocator + Clone>(tree: &mut Tree<A>, accounts: &Accounts) -> u32 {
    for done in 0..ROUNDS {
        if !is_round(tree, accounts) {
            return done;
        }
    }
    ROUNDS
}

/// How many rounds are done in a new heap of this size.
fn rounds_in_heap(alloc: Global, accounts: &Accounts, size: usize) -> u32 {
    let Ok(heap) = LocalHeap::new(alloc, size) else {
        return 0;
    };
    let mut tree = trade(&heap, accounts);
    rounds(&mut tree, accounts)
}

/// Writes how many rounds are done in the least heap in which one is.
fn tell_rounds(rt: &impl Print, size: usize, done: u32) {
    say(rt, "two splits, taken back: no memory below ");
    say(rt, size);
    say(rt, " bytes, then ");
    say(rt, done);
    say(rt, " of ");
    say(rt, ROUNDS);
    say_line(rt, " rounds")
}

/// Writes the least heap in which a round is done, and how many are done there: all, since what a
/// round takes, it leaves to the next.
pub(crate) fn tell(rt: &impl Print, alloc: Global, accounts: &Accounts) {
    for steps in 1..1000 {
        let size = 16 * steps;
        let done = rounds_in_heap(alloc, accounts, size);
        if done > 0 {
            return tell_rounds(rt, size, done);
        }
    }
    say_line(rt, "two splits, taken back: never")
}
