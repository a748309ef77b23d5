//! What the book tells: reports to firms, the trace of a trade, and the totals of the day.
//!
//! - `reports` gives a firm what is told of the first 100 entries above a number that concern it,
//!   each with the fields of an AllocationReport. It begins at that number and looks nodes up by
//!   their entry, so it doesn't walk over the whole history.
//! - An `IndexedBook` is a book that many read: it files for each firm the numbers of the entries
//!   that concern it, so that its `reports` gives the same without a look at the others.
//! - `trace` writes the tree of a live trade, a line for each node with the fee of each claim;
//!   `totals` writes positions, fees and used agreements in the order of the house file, with the
//!   agreements that calls made behind those that are fixed, by their numbers.
//! - `news_above` tells whom the entries above a number concern.
//! - Each is a function of the book's house table and history, which the definitions in `specs/`
//!   give; an error leaves `out` as it was.
//! - But for `IndexedBook::apply` the book is only read.
//! - The law `nothing_is_passed_over`: what a connection's readings have looked at and told nothing
//!   of concerns its firm neither then nor later, so the next may begin behind it.
//! - Its cases are data of the program `test_book`.
#![tactic(auto)]

mod concern;
mod day_totals;
mod firm_numbers;
mod index;
mod indexed_book;
mod laws;
mod lookup;
mod news;
mod telling;
mod tree_text;

pub use day_totals::totals;
pub use gu_base::{Report, ReportPart, ReportParts, Target};
pub use indexed_book::IndexedBook;
pub use laws::nothing_is_passed_over;
pub use news::{News, news_above};
pub use telling::{MOST_REPORTS, reports};
pub use tree_text::{TraceError, trace};
