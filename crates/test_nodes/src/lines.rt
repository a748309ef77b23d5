//! The change of the tree that a line asks for.

use crate::shown::show_outcome;
use crate::words::{decision_of, first_word, node_of, number_of, parts_of, undo_of};
use gu_base::{NodeName, Number};
use gu_tree::Tree;
use std::alloc::Global;
use std::io::Print;
use test_splits::{Outcome, decide, split, take_back};

/// Splits this node into the parts of these words.
fn split_into(
    alloc: Global,
    tree: &mut Tree<Global>,
    node: NodeName,
    entry: Number,
    words: &str,
) -> Outcome {
    match parts_of(alloc, words) {
        Some(parts) => split(tree, node, entry, parts.as_slice()),
        None => Outcome::Memory,
    }
}

/// Makes the change of this entry.
fn make(
    alloc: Global,
    tree: &mut Tree<Global>,
    verb: &str,
    node: NodeName,
    entry: Number,
    words: &str,
) -> Outcome {
    match (verb, decision_of(verb, words)) {
        ("split", _) => split_into(alloc, tree, node, entry, words),
        (_, Some(decision)) => decide(tree, node, entry, decision),
        _ => Outcome::Unfit,
    }
}

/// Makes the change of a line, or takes one back.
fn change(alloc: Global, tree: &mut Tree<Global>, verb: &str, words: &str) -> Outcome {
    let (node, rest) = first_word(words);
    let (entry, rest) = first_word(rest);
    match (node_of(node), number_of(entry), undo_of(verb)) {
        (Some(node), Some(entry), _) => make(alloc, tree, verb, node, entry, rest),
        (Some(node), None, Some(undo)) => take_back(tree, node, undo),
        _ => Outcome::Unfit,
    }
}

/// Writes what a change of the tree gives.
pub(crate) fn tell(
    rt: &impl Print,
    alloc: Global,
    tree: &mut Tree<Global>,
    verb: &str,
    words: &str,
) {
    let outcome = change(alloc, tree, verb, words);
    show_outcome(rt, verb, first_word(words).0, outcome)
}
