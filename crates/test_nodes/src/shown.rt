//! How values and changes are written.

use std::fmt::Display;
use std::io::Print;
use test_splits::Outcome;
use test_splits::words::{say, say_line};

/// Writes a value behind a text.
pub(crate) fn show<D: Display + Drop>(rt: &impl Print, text: &str, value: D) {
    say(rt, text);
    say(rt, value);
}

/// Writes the line of a change: its verb, what it names, and what came of it.
pub(crate) fn show_outcome(rt: &impl Print, verb: &str, what: &str, outcome: Outcome) {
    say(rt, verb);
    show(rt, " ", what);
    say(rt, ": ");
    say_line(rt, outcome.text());
}
