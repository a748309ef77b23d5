//! Splits in a heap that has room for two parts and no more.

use crate::trees::{Accounts, has_rows, split_in_hundred, split_in_two, trade};
use gu_tree::{Row, Tree};
use linked_list_allocator::LocalHeap;
use std::alloc::{Allocator, Global};
use std::io::Print;
use test_splits::words::{say, say_line};

/// Whether the split into two is accepted in a new heap of this size.
fn is_split_in_heap(alloc: Global, accounts: &Accounts, size: usize) -> bool {
    let Ok(heap) = LocalHeap::new(alloc, size) else {
        return false;
    };
    let mut tree = trade(&heap, accounts);
    split_in_two(&mut tree, accounts).is_done()
}

/// The least heap in which the split into two is accepted.
pub(crate) fn least_heap(alloc: Global, accounts: &Accounts) -> Option<usize> {
    for steps in 1..1000 {
        let size = 16 * steps;
        if is_split_in_heap(alloc, accounts, size) {
            return Some(size);
        }
    }
    None
}

/// Whether two trees have equal rows.
fn same_rows<A: Allocator + Clone>(alloc: Global, one: &Tree<A>, other: &Tree<Global>) -> bool {
    match other.rows(alloc) {
        Ok(rows) => has_rows(alloc, one, rows.as_slice()),
        Err(_) => false,
    }
}

/// Writes what comes of a split into 100, and whether it leaves the tree as this copy.
fn tell_hundred<A: Allocator + Clone>(
    rt: &impl Print,
    alloc: Global,
    tree: &mut Tree<A>,
    copy: &Tree<Global>,
    accounts: &Accounts,
) {
    say(rt, "split into 100: ");
    say_line(rt, split_in_hundred(tree, accounts).text());
    if same_rows(alloc, tree, copy) {
        say_line(rt, "rows as the copy's")
    } else {
        say_line(rt, "rows that the copy doesn't have")
    }
}

/// Writes rows, in their order.
fn show(rt: &impl Print, rows: &[Row]) {
    say(rt, "leaves ");
    say_line(rt, rows.len());
    for row in rows {
        say(rt, row.head.name);
        say(rt, " ");
        say_line(rt, row.head.lots);
    }
}

/// Writes what comes of a split into two, and the leaves.
fn tell_two<A: Allocator + Clone>(
    rt: &impl Print,
    alloc: Global,
    tree: &mut Tree<A>,
    accounts: &Accounts,
) {
    say(rt, "split into 2: ");
    say_line(rt, split_in_two(tree, accounts).text());
    match tree.leaves(alloc) {
        Ok(leaves) => show(rt, leaves.as_slice()),
        Err(_) => say_line(rt, "no leaves"),
    }
}

/// Writes what comes of a split into 100 of a trade that was copied.
fn tell_copied<A: Allocator + Clone>(
    rt: &impl Print,
    alloc: Global,
    tree: &mut Tree<A>,
    accounts: &Accounts,
) {
    let Ok(copy) = tree.copy(alloc) else {
        return say_line(rt, "no copy");
    };
    tell_hundred(rt, alloc, tree, &copy, accounts)
}

/// Writes what comes of the splits of a trade.
fn tell_splits<A: Allocator + Clone>(
    rt: &impl Print,
    alloc: Global,
    tree: &mut Tree<A>,
    accounts: &Accounts,
) {
    tell_copied(rt, alloc, tree, accounts);
    tell_two(rt, alloc, tree, accounts)
}

/// Writes what comes of the splits of a trade in a new heap of this size.
fn tell_in_heap(rt: &impl Print, alloc: Global, accounts: &Accounts, size: usize) {
    let Ok(heap) = LocalHeap::new(alloc, size) else {
        return say_line(rt, "no heap");
    };
    let mut tree = trade(&heap, accounts);
    tell_splits(rt, alloc, &mut tree, accounts)
}

/// Writes the least heap that takes a split into two, and what comes of splits in it.
pub(crate) fn tell(rt: &impl Print, alloc: Global, accounts: &Accounts) {
    let Some(size) = least_heap(alloc, accounts) else {
        return say_line(rt, "no heap takes a split into 2");
    };
    say(rt, "least heap for a split into 2: ");
    say(rt, size);
    say_line(rt, " bytes");
    tell_in_heap(rt, alloc, accounts, size)
}
