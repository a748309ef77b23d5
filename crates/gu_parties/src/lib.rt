//! The house file: who takes part in the book, and on which terms.
//!
//! `House::parse` reads a house file of any bytes. It gives the table that the file's lines name,
//! or the first line with a cause and that line's first cause, in the order in which `Cause` lists
//! them. A growth that was refused names its line, and no line up to it has a cause.
//!
//! A `House` never changes. It answers by hash whether a firm, an account or an instrument is there
//! and on which terms two firms deal, and by place what was named there, in file order from 0. None
//! of these look-ups takes memory. `House::copy` gives an equal table.
//!
//! The agreements of a file of version 1 are fixed: `agreement` and `agreement_at` give them. Those
//! of version 2 the clearing house makes by the first calls of the book, which `opening_at` gives.
//!
//! In each table the agreements are of two firms of the table, no two of one pair, and their terms
//! are in range: a rate of at most 100,000 hundredths a lot, a limit of at most 10,000,000,000,000
//! lots. The format is described in docs/profile.md; the definition of the table that the lines of
//! a text name is `house_of_lines` in specs/HouseFile.antt. Its cases are data of the program
//! `test_house`.
#![tactic(auto)]

mod add;
mod fault;
mod house;
mod line;
mod number;
mod opening;
mod parse;
mod words;

pub use fault::{Cause, HouseError};
pub use gu_base::Agreement;
pub use house::House;
