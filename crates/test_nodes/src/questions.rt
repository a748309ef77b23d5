//! What a tree tells.

use crate::shown::show;
use crate::words::{first_word, node_of, number_of};
use gu_base::{NodeName, Number, State};
use gu_tree::{Head, Row, Tree};
use std::alloc::Global;
use std::io::Print;
use test_splits::words::{say, say_line};

/// A state as it is written.
fn state_name(state: State) -> &'static str {
    match state {
        State::Held => "Held",
        State::Offered => "Offered",
        State::Claimed => "Claimed",
        State::Refused => "Refused",
        State::Cancelled => "Cancelled",
        State::ReversalPending => "ReversalPending",
        State::Reversed => "Reversed",
    }
}

/// Writes a node, without an end of the line.
fn show_head(rt: &impl Print, head: &Head) {
    say(rt, head.name);
    show(rt, " ", head.lots);
    show(rt, " ", head.place.firm);
    show(rt, "/", head.place.account);
    show(rt, " ", state_name(head.state));
    if let Some(taker) = head.taker {
        show(rt, " to ", taker);
    }
    match head.decision {
        Some(decision) => show(rt, " by ", decision),
        None => (),
    }
}

/// Writes rows, a line each.
fn show_rows(rt: &impl Print, rows: &[Row]) {
    for row in rows {
        say(rt, row.depth);
        say(rt, " ");
        show_head(rt, &row.head);
        say_line(rt, "");
    }
}

/// Writes the steps of the way to a node.
fn show_way(rt: &impl Print, path: &[u8]) {
    say(rt, "; way");
    for step in path {
        show(rt, " ", *step);
    }
}

/// Writes by which entry a node is split, if it is, and what stands on its parts first.
fn show_parts(rt: &impl Print, parted: Option<(Number, usize)>, first: Option<Number>) {
    if let Some((entry, count)) = parted {
        show(rt, "; ", count);
        show(rt, " parts by ", entry);
    }
    match first {
        Some(first) => {
            show(rt, "; ", first);
            say_line(rt, " stands on them")
        }
        None => say_line(rt, ""),
    }
}

/// Writes a node and the way to it, its parts, and what stands on them first.
fn show_node(rt: &impl Print, tree: &Tree<Global>, name: NodeName) {
    let Some(path) = tree.find(name) else {
        say(rt, name);
        return say_line(rt, ": no node");
    };
    show_head(rt, tree.head(&path));
    show_way(rt, path.as_slice());
    show_parts(rt, tree.parted(&path), tree.first_on_parts(&path))
}

/// Writes the answer to a question about a node or an entry.
fn answer_about(rt: &impl Print, tree: &Tree<Global>, what: &str, word: &str) {
    match (what, node_of(word), number_of(word)) {
        ("node", Some(name), _) => show_node(rt, tree, name),
        ("entry", _, Some(entry)) => {
            show(rt, "entry ", entry);
            say(rt, ": ");
            say_line(rt, tree.has_entry(entry))
        }
        _ => {
            show(rt, "what? ", what);
            say(rt, " ");
            say_line(rt, word)
        }
    }
}

/// Writes the rows of the tree.
fn tell_rows(rt: &impl Print, alloc: Global, tree: &Tree<Global>) {
    match tree.rows(alloc) {
        Ok(rows) => show_rows(rt, rows.as_slice()),
        Err(_) => say_line(rt, "no memory"),
    }
}

/// Writes the leaves of the tree.
fn tell_leaves(rt: &impl Print, alloc: Global, tree: &Tree<Global>) {
    match tree.leaves(alloc) {
        Ok(leaves) => show_rows(rt, leaves.as_slice()),
        Err(_) => say_line(rt, "no memory"),
    }
}

/// Writes the rows of a copy of the tree.
fn tell_copy(rt: &impl Print, alloc: Global, tree: &Tree<Global>) {
    match tree.copy(alloc) {
        Ok(copy) => tell_rows(rt, alloc, &copy),
        Err(_) => say_line(rt, "no memory"),
    }
}

/// Writes the answer to a question.
pub(crate) fn answer(rt: &impl Print, alloc: Global, tree: &Tree<Global>, words: &str) {
    let (what, word) = first_word(words);
    match what {
        "rows" => tell_rows(rt, alloc, tree),
        "leaves" => tell_leaves(rt, alloc, tree),
        "copy" => tell_copy(rt, alloc, tree),
        _ => answer_about(rt, tree, what, word),
    }
}
