//! The tree of a trade, and the trees of some, change by change, and running sums. Input and output
//! are data: the files `stdin` and `stdout` beside `src/`.
//!
//! A line of standard input is a name for what follows (`# ..`, written again), or
//! - `trade LOTS`: a new tree, of the trade 1 of so many lots into AAA/A1;
//! - a change: `split NODE ENTRY LOTS/FIRM/ACCOUNT ..`, `claim NODE ENTRY FIRM/ACCOUNT`,
//!   `refuse NODE ENTRY`, `cancel NODE ENTRY`;
//! - a change that is taken back at its node: `unsplit NODE`, `unclaim NODE`, `offer NODE`;
//! - a question: `? rows`, `? leaves`, `? copy`, `? node NODE`, `? entry ENTRY`;
//! - `in ..`: one of these changes among the trees of all trades; `in plant ENTRY LOTS`, a tree
//!   more, and `in uproot ENTRY`; `in places`, the node that each entry up to 12 has as its place,
//!   and what stands on the entry.
//!
//! Of each change the program writes whether all that it asks for held, and it was made. A row is
//! its depth, the node, its lots, the account in which it stands, its state, the firm to which it
//! was given, and the entry that decided it. At last it writes what commands of each kind touch,
//! the place of a trade in the trees of a book, and what becomes of sums, fees, positions and
//! terms.
#![tactic(auto)]

mod changes;
mod grove;
mod lines;
mod places;
mod questions;
mod shown;
mod sums;
mod words;

use changes::trade;
use gu_tree::{Tree, Trees};
use std::alloc::Global;
use std::io::{ErrorKind, Print, Read};
use std::{io, str};
use test_splits::words::say_line;
use words::first_word;

/// Begins with the tree of a new trade.
fn begin(rt: &impl Print, alloc: Global, tree: &mut Tree<Global>, lots: &str) {
    match trade(alloc, lots) {
        Some(new) => *tree = new,
        None => say_line(rt, "no lots"),
    }
}

/// Writes what a line about the tree gives.
fn tell(rt: &impl Print, alloc: Global, tree: &mut Tree<Global>, line: &str) {
    let (first, rest) = first_word(line);
    match first {
        "#" => say_line(rt, line),
        "?" => questions::answer(rt, alloc, tree, rest),
        "trade" => begin(rt, alloc, tree, rest),
        _ => lines::tell(rt, alloc, tree, first, rest),
    }
}

/// Writes what each line gives.
fn tell_lines(
    rt: &impl Print,
    alloc: Global,
    tree: &mut Tree<Global>,
    trees: &mut Trees<Global>,
    text: &str,
) {
    for line in text.lines() {
        match line.strip_prefix("in ") {
            Some(rest) => grove::tell(rt, alloc, trees, rest),
            None => tell(rt, alloc, tree, line),
        }
    }
}

/// Writes what each line gives, of a first tree and no trees.
fn tell_all(rt: &impl Print, alloc: Global, text: &str) {
    let Some(mut tree) = trade(alloc, "1") else {
        return say_line(rt, "no tree");
    };
    let mut trees = Trees::new(alloc, alloc);
    tell_lines(rt, alloc, &mut tree, &mut trees, text);
}

fn main(rt: HostRuntime) -> io::Result<()> {
    let alloc = rt.alloc();
    let mut text = Vec::new(alloc);
    rt.reader().read_to_end(&mut text)?;
    match str::from_utf8(text.as_slice()) {
        Ok(text) => tell_all(&rt, alloc, text),
        Err(_) => say_line(&rt, "no text"),
    }
    places::tell(&rt, alloc);
    if sums::tell(&rt, alloc) {
        Ok(())
    } else {
        Err(io::Error::from(ErrorKind::InvalidData))
    }
}
