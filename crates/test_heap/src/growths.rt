//! Calls that grow by an allocator of their own, refused in one heap after another until one has
//! room.

use crate::trees::{Accounts, has_rows, split_in_five, split_in_two, trade};
use gu_base::Memory;
use gu_tree::{Row, Tree};
use linked_list_allocator::LocalHeap;
use std::alloc::{Allocator, Global};
use std::io::Print;
use test_splits::words::{say, say_line};

/// A call that takes an allocator of its own.
#[derive(Clone, Copy)]
enum Call {
    Rows,
    Leaves,
    Copy,
}

/// What came of a call in a heap.
#[derive(Clone, Copy)]
enum Growth {
    Refused,
    /// What it gives where memory is ample.
    Given,
    /// Anything else.
    Wrong,
    /// The call changed the tree.
    Changed,
}

/// What came of a call that took its memory.
fn given(is_wanted: bool) -> Growth {
    if is_wanted {
        Growth::Given
    } else {
        Growth::Wrong
    }
}

/// What came of a call for rows.
fn of_rows<A: Allocator>(rows: Result<Vec<Row, A>, Memory>, wanted: &[Row]) -> Growth {
    match rows {
        Ok(rows) => given(rows.as_slice() == wanted),
        Err(_) => Growth::Refused,
    }
}

/// What came of a call for a copy.
fn of_copy<A: Allocator + Clone>(
    alloc: Global,
    copy: Result<Tree<A>, Memory>,
    wanted: &[Row],
) -> Growth {
    match copy {
        Ok(copy) => given(has_rows(alloc, &copy, wanted)),
        Err(_) => Growth::Refused,
    }
}

/// What comes of the call in a new heap of this size.
fn in_heap(alloc: Global, size: usize, tree: &Tree<Global>, call: Call, wanted: &[Row]) -> Growth {
    let Ok(heap) = LocalHeap::new(alloc, size) else {
        return Growth::Refused;
    };
    match call {
        Call::Rows => of_rows(tree.rows(&heap), wanted),
        Call::Leaves => of_rows(tree.leaves(&heap), wanted),
        Call::Copy => of_copy(alloc, tree.copy(&heap), wanted),
    }
}

/// What comes of the call in the least heap in which it isn't refused, and the size of that heap.
/// `rows` are the tree's.
fn least(
    alloc: Global,
    tree: &Tree<Global>,
    call: Call,
    rows: &[Row],
    wanted: &[Row],
) -> (Growth, usize) {
    for steps in 1..1000 {
        let size = 16 * steps;
        let growth = in_heap(alloc, size, tree, call, wanted);
        if !has_rows(alloc, tree, rows) {
            return (Growth::Changed, size);
        }
        match growth {
            Growth::Refused => (),
            _ => return (growth, size),
        }
    }
    (Growth::Refused, 0)
}

/// Writes in which heaps the call was refused, and what it gave in the first that has room.
fn tell_call(rt: &impl Print, name: &str, (growth, size): (Growth, usize)) {
    say(rt, name);
    match growth {
        Growth::Refused => say_line(rt, ": never given"),
        Growth::Wrong => say_line(rt, ": another tree's"),
        Growth::Changed => say_line(rt, ": the tree is changed"),
        Growth::Given => {
            say(rt, ": no memory below ");
            say(rt, size);
            say_line(rt, " bytes, then given")
        }
    }
}

/// Writes what comes of each call, for the tree of these rows and leaves.
fn tell_calls(rt: &impl Print, alloc: Global, tree: &Tree<Global>, rows: &[Row], leaves: &[Row]) {
    tell_call(rt, "rows", least(alloc, tree, Call::Rows, rows, rows));
    tell_call(rt, "leaves", least(alloc, tree, Call::Leaves, rows, leaves));
    tell_call(rt, "copy", least(alloc, tree, Call::Copy, rows, rows))
}

/// Writes what comes of each call, for the tree of these rows.
fn tell_rows(rt: &impl Print, alloc: Global, tree: &Tree<Global>, rows: &[Row]) {
    match tree.leaves(alloc) {
        Ok(leaves) => tell_calls(rt, alloc, tree, rows, leaves.as_slice()),
        Err(_) => say_line(rt, "no leaves"),
    }
}

/// Writes what comes of two splits of the trade, and of each call behind them.
fn tell_tree(rt: &impl Print, alloc: Global, tree: &mut Tree<Global>, accounts: &Accounts) {
    say(rt, "where memory is ample: ");
    say(rt, split_in_two(tree, accounts).text());
    say(rt, ", ");
    say_line(rt, split_in_five(tree, accounts).text());
    match tree.rows(alloc) {
        Ok(rows) => tell_rows(rt, alloc, tree, rows.as_slice()),
        Err(_) => say_line(rt, "no rows"),
    }
}

/// Writes what comes of each call, for a tree of two splits.
pub(crate) fn tell(rt: &impl Print, alloc: Global, accounts: &Accounts) {
    let mut tree = trade(alloc, accounts);
    tell_tree(rt, alloc, &mut tree, accounts)
}
