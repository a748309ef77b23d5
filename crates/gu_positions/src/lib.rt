//! What stands in each account, as running rows: the lots of the leaves there, by instrument and
//! side.
//!
//! - `add` puts lots into an account, `take` takes them out again. Each finds one row by hash,
//!   takes no memory and can't fail.
//! - `of` is the sum of what was added less what was taken (`AreSumsOf`), long and short.
//! - `ready` makes the row that the two change. It changes no sum: a row of zero and no row are
//!   seen as the same. A row that is ready stays ready.
//! - `put` adds lots, and makes the row where there is none. It and `ready` alone take memory.
//! - What a call asks of its caller, a test of this crate answers: `can_add`, `can_take`; for `put`
//!   the sums that `of` gives.
//! - Its cases stand in the program `test_nodes`.
#![tactic(auto)]

mod positions;

pub use positions::{Key, Positions};
