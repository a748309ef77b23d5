//! The worked rows that cross crates: batches over memory.
//!
//! A row is `NAME;WAY;INPUT`. In INPUT the byte 0x01 is written `|`, and `{N}c` stands for N times
//! the byte c.
//! - `whole` gives the input in one piece;
//! - `pieces` in pieces of 1, of 7 and of 134 bytes;
//! - `in two` cut in two at each place;
//! - `failing reader` fails after each number of bytes;
//! - `failing writer` takes one byte a call and fails after each number of bytes; `quiet writer`
//!   takes no byte more; `wide writer` takes up to 50 bytes a call, and then fails;
//! - `interrupted` has each read and each write interrupted once before it is made;
//!   `interrupted reader` and `interrupted writer` have it each time;
//! - `endless reader` gives the input a byte a call, over and over;
//! - `totals` prints the totals after the input in place of the answers.
//!
//! Behind the way may stand `, opening calls`: the house's agreements are then opening calls, by
//! version 2 of its file.
//!
//! Expected outputs were computed from the written rules by a script outside this repository, never
//! from a run.

mod cases;
mod ways;

use cases::{bytes_of, case_of};
use std::alloc::Global;
use ways::{Row, run_row, say_line};

/// Runs the case of a row, where it is one, and prints what came of it.
pub(crate) fn run_line(rt: &HostRuntime, alloc: Global, line: &str) {
    let Some(case) = case_of(line) else {
        return;
    };
    let Some(input) = bytes_of(alloc, case.text) else {
        return say_line(rt, "no memory");
    };
    let row = Row {
        name: case.name,
        opens: case.opens,
        input: input.as_slice(),
    };
    run_row(rt, alloc, &row, case.way);
}
