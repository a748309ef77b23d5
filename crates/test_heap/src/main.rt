//! Trees in heaps that are only just large enough. There is no input; the file `stdout` beside
//! `src/` holds what must be printed.
//!
//! A trade of 100 lots is split in heaps that grow in steps of 16 bytes, until one takes its split
//! into two parts. In a new heap of that size a split into 100 parts gets no memory and changes
//! nothing, and then the split into two is accepted. After it the rows, the leaves and a copy of a
//! tree are asked for in heaps that grow in the same steps: each call is refused until it gives
//! what it gives where memory is ample, and no refusal changes the tree.
//!
//! In a heap of that size a copy of a tree of 100 parts gets no memory, and leaves the tree and the
//! heap as they were; and behind a split into two that just fits, a claim, a refusal, a cancel and
//! the undo of each, and that of the split, need no more room.
//!
//! Then a trade and one of its parts are split, and both Splits taken back, ten times in the least
//! heap that takes them once: nothing is lost on the way, whether something stood on the parts or
//! not.
//!
//! Last a trade is planted, split and claimed among the trees of all trades, in heaps that grow
//! until all of it fits: no refusal changes anything.
#![tactic(auto)]

mod grove;
mod growths;
mod rounds;
mod splits;
mod tight;
mod trees;

use std::alloc::Global;
use std::io::Print;
use test_splits::words::say_line;
use trees::Accounts;

/// Writes the cases, one part after the other.
fn tell(rt: &impl Print, alloc: Global, accounts: &Accounts) {
    splits::tell(rt, alloc, accounts);
    tight::tell(rt, alloc, accounts);
    growths::tell(rt, alloc, accounts);
    rounds::tell(rt, alloc, accounts);
    grove::tell(rt, alloc, accounts);
}

fn main(rt: HostRuntime) {
    match Accounts::new() {
        Some(accounts) => tell(&rt, rt.alloc(), &accounts),
        None => say_line(&rt, "no accounts"),
    }
}
