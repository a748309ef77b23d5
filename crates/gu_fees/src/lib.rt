//! What firms have paid and received for claims, as running rows, and the terms of each giver and
//! taker with what they deal under them.
//!
//! `Fees` is the sums:
//! - `charge` adds a claim and `uncharge` takes one away. Each finds three rows by hash, takes no
//!   memory and can't fail.
//! - `paid`, `received` and `used` are the sums of what was charged, less what was uncharged
//!   (`AreSumsOf`).
//! - `ready` makes the rows that a charge changes. It changes no sum: a row of zero and no row
//!   are seen as the same. A row that is ready stays ready.
//! - `put` adds a claim, and makes the rows where there are none. It and `ready` alone take memory.
//!
//! `Terms` is the Agree, the Raises and the Claims of each pair, in the order of their numbers:
//! - `agree`, `raise` and `claim` put an entry behind those of its pair, and `take_out` takes one
//!   out. They take no memory and can't fail.
//! - `terms`, `rate`, `limit` and `used` are what the pair's entries come to, over the terms of the
//!   house table that its first `ready` was given (`terms_under`, `limit_under`, `used_under`).
//!   They walk over no Raise and no Claim.
//! - `entries_beside` is how many entries the pair of an entry has. It walks over none.
//! - `first_standing` is the first entry of the pair that stands on another. Of a Raise it walks
//!   over the blocks of the pair's entries once, and into two of them; of an Agree into one. A
//!   block is 128 entries and 24 bytes: how far the limit must be above what is used before it, how
//!   far it is behind it, and whether a Raise or a Claim is in it. Fewer stand behind the last,
//!   where each is looked at.
//! - `ready` makes room for one more entry of a pair. It and `ready_at` alone take memory.
//! - `place` is where a pair stands, found by hash; `row_at`, `ready_at` and `put_at` go on from
//!   there without another look. `row_beside` is the row of an entry's pair.
//! - The entries lie in gu_sums' `Filing`: what is taken out moves nothing.
//!
//! What a call asks of its caller, a test of this crate answers: `can_charge`, `can_uncharge`;
//! `can_put` and `can_put_at`, also that the limit of an agreement is in its range; for `Fees::put`
//! the sums, for `ready_at` whether `row_at` has a row. For `Terms::ready` it is `has_low_limit`.
//! Its cases stand in the program `test_nodes`.
#![tactic(auto)]

mod blocks;
mod fees;
mod pair;
mod terms;

pub use fees::Fees;
pub use pair::{PairTerms, has_low_limit};
pub use terms::Terms;
