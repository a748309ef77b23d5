//! A history's entries, each found by its firm and id through a hash.
//!
//! `History` has the entries, and beside them eight bytes for each, its hash and the number of the
//! entry before it in its bucket, and eight for each bucket, the number of its newest entry and its
//! marks; two to four entries share a bucket. That these are those of its entries is part of its
//! type. The caller has the `IdHash` of a firm and an id made, once for the look-up and the entry.
//! `ready` alone takes memory. `push` can't fail, so an entry is added last, and none is ever taken
//! out. The hash is SipHash-1-3 under a `HashKey`; `rekey` gives the entries another, and no answer
//! depends on it. Its cases are the repeats and the duplicate ids among those of the program
//! `test_book`.
#![tactic(auto)]

mod hash;
mod history;
mod ids;

pub use hash::{HashKey, IdHash};
pub use history::History;
