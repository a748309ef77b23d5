//! Two ways to keep something by a key: sums by hash, and things by the numbers of entries.
//!
//! `Sums` is a number at each key:
//! - A key that has no row has the number zero, so a row of zero and no row are seen as the same.
//!   `ready` makes a row.
//! - `add` changes a row that is there, `take` takes back no more than is there; neither can fail.
//!   `put` adds, and makes the row where there is none. It and `ready` alone take memory. The fees
//!   of a book are kept in these.
//!
//! `Filing` is a thing at each of some numbers, filed in the order of these:
//! - `file` puts one after all others, `take` takes one out; neither moves another. `get` and
//!   `look` find one.
//! - `ready` alone takes memory. The places of entries in the trees are kept in one, and what each
//!   pair deals in another.
//!
//! Its cases stand in the program `test_nodes`.
#![tactic(auto)]

mod filing;
mod sums;

pub use filing::{Filed, Filing};
pub use sums::Sums;
