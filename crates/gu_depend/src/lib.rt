//! Which changes stand on which, by what they name alone.
//!
//! `first_standing` reads off the trees and the terms what stands on a change, and takes no memory:
//! the first change that would be refused without it, for every legal list that they show;
//! `first_standing_at` the same at a node that was looked up. `touched` says which node a change
//! made or decided; an Agree and a Raise touch none. `entries_beside` is how many entries the giver
//! and the taker of a change have, and `standing_beside` both of an Agree or a Raise, by one
//! look-up.
//!
//! The laws here speak of lists of changes and of nothing else; calling one gives its clauses as
//! facts. They hold for every legal list whose numbers are distinct, in whatever order it stands;
//! only where "first" becomes "least" the numbers have to rise.
//!
//! - `any_lawful_order`: in whatever lawful order its changes stand, a legal list is legal, and
//!   gives the same trees, positions and fees.
//! - `first_is_least`: the first change that would be refused without another is the first that the
//!   other stands under (a trade under a Split of its root, a Split under each change that names
//!   one of its parts, a decision under the Split of its node, an Agree under the first Raise or
//!   Claim of its giver and taker, a Raise under the first later Claim of theirs that passes the
//!   limit without it); in the order of the numbers it is the least of the numbers that stand at
//!   the nodes that the other made or decided and among the dealings of its giver and taker.
//! - `free_can_stand_last`: with a change last on which nothing stands the list is legal, and gives
//!   the same trees, positions and fees.
//! - `last_moves_its_own`: a change that stands last moves what it names and makes, and nothing
//!   else.
//! - `terms_follow`: the terms that `gu_fees` keeps stay those of the list, whatever is made ready,
//!   put in or taken out.
//!
//! `proofs/Worked.antt` computes one list of changes through these laws. The cases of
//! `first_standing_at` are the reversals among those of the program `test_book`.
#![tactic(auto)]

pub mod laws;
mod standing;
mod touch;

pub use standing::{entries_beside, first_standing, first_standing_at, standing_beside, touched};
pub use touch::Touched;
