//! The trees of all trades: the changes of a line among them, and where each entry has its place.

use crate::shown::{show, show_outcome};
use crate::words::{decision_of, first_word, node_of, number_of, parts_of, place_of, undo_of};
use gu_base::{NodeName, Number};
use gu_depend::first_standing;
use gu_fees::Terms;
use gu_tree::{Path, Trees};
use std::alloc::Global;
use std::io::Print;
use test_splits::Outcome;
use test_splits::trees::{decide, plant, split, take_back, uproot};
use test_splits::words::say_line;

/// Writes the place of an entry that has one: the entry, the node that it named, how deep that lies
/// in which trade, and the first change that stands on the entry.
fn show_place(
    rt: &impl Print,
    trees: &Trees<Global>,
    terms: &Terms,
    path: &mut Path,
    entry: Number,
) {
    let Some(spot) = trees.named(entry, path) else {
        return;
    };
    show(rt, "  ", entry);
    show(rt, ": ", spot.node.head().name);
    show(rt, ", ", path.len());
    show(rt, " deep in ", spot.trade);
    match first_standing(trees, terms, entry) {
        Some(first) => {
            show(rt, "; ", first);
            say_line(rt, " stands on it")
        }
        None => say_line(rt, ""),
    }
}

/// Writes the place of each entry of 1 to 12 that has one.
fn show_places(rt: &impl Print, trees: &Trees<Global>, terms: &Terms) {
    let mut path = Path::new();
    for place in 0..12 {
        show_place(rt, trees, terms, &mut path, Number::at_place(place));
    }
}

/// Plants or uproots the trade of this entry.
fn change_trade(
    alloc: Global,
    trees: &mut Trees<Global>,
    verb: &str,
    entry: Number,
    lots: &str,
) -> Outcome {
    match (verb, place_of("AAA/A1"), lots.parse::<u64>()) {
        ("plant", Some(place), Ok(lots)) => plant(trees, alloc, entry, place, lots),
        ("uproot", _, _) => uproot(trees, entry),
        _ => Outcome::Unfit,
    }
}

/// Splits this node into the parts of these words.
fn split_into(
    alloc: Global,
    trees: &mut Trees<Global>,
    node: NodeName,
    entry: Number,
    words: &str,
) -> Outcome {
    match parts_of(alloc, words) {
        Some(parts) => split(trees, node, entry, parts.as_slice()),
        None => Outcome::Memory,
    }
}

/// Makes the change of this entry.
fn make(
    alloc: Global,
    trees: &mut Trees<Global>,
    verb: &str,
    node: NodeName,
    entry: Number,
    words: &str,
) -> Outcome {
    match (verb, decision_of(verb, words)) {
        ("split", _) => split_into(alloc, trees, node, entry, words),
        (_, Some(decision)) => decide(trees, node, entry, decision),
        _ => Outcome::Unfit,
    }
}

/// Makes the change of a node, or takes one back.
fn change_node(
    alloc: Global,
    trees: &mut Trees<Global>,
    verb: &str,
    node: NodeName,
    rest: &str,
) -> Outcome {
    let (entry, words) = first_word(rest);
    match (number_of(entry), undo_of(verb)) {
        (Some(entry), _) => make(alloc, trees, verb, node, entry, words),
        (None, Some(undo)) => take_back(trees, node, undo),
        _ => Outcome::Unfit,
    }
}

/// Makes the change of a line, or takes one back.
fn change(alloc: Global, trees: &mut Trees<Global>, verb: &str, words: &str) -> Outcome {
    let (what, rest) = first_word(words);
    match (node_of(what), number_of(what)) {
        (Some(node), _) => change_node(alloc, trees, verb, node, rest),
        (None, Some(trade)) => change_trade(alloc, trees, verb, trade, rest),
        _ => Outcome::Unfit,
    }
}

/// Writes what a line about the trees gives.
pub(crate) fn tell(rt: &impl Print, alloc: Global, trees: &mut Trees<Global>, line: &str) {
    let (verb, words) = first_word(line);
    if verb == "places" {
        return show_places(rt, trees, &Terms::new(alloc));
    }
    let outcome = change(alloc, trees, verb, words);
    show_outcome(rt, verb, first_word(words).0, outcome)
}
