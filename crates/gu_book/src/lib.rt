//! The book of a clearing house: what its firms have called for and what was accepted, in a flat
//! list, and beside it the allocation tree of each live trade.
//!
//! - `Book` is seen by clauses as its house table, its history, and how many nodes of the trees and
//!   entries of two firms its last call visited. `Book::new` is the empty book of any house.
//! - `Book::apply` answers every call exactly as the rules say at the history, keeps it at the end
//!   of the history where it is accepted, and leaves house table and history where it is not.
//!   `visits` tells what the call cost: no more nodes than its node lies deep, its parts, and two,
//!   and no more entries than its giver and taker have.
//! - `Memory` comes only where the rules accept the call. All growths come before anything changes,
//!   but for the lots that a change adds; they are taken out again. So it leaves everything too.
//! - `live` gives the numbers of the live changes, `tree_rows` the rows of a live trade's tree.
//!   `position` is a running row of what stands in an account; `paid`, `received` and `used` are
//!   running sums of what the live claims cost; `terms` are the agreement of two firms, `limit` is
//!   what it and their Raises allow. All fit.
//! - `entry_at` is the entry of a number in a history.
//! - The type keeps that its history is one that calls made of the empty book, that no firm and id
//!   stand in it twice, that none of its live changes would be refused after those before it, that
//!   the trees, positions, fees and terms are those of the live changes, and that the consents are
//!   those that the history left.
//! - `laws` has what follows for every book, first the headline in five laws.
//! - `lookups` finds the Reverse of an entry without going over the history, `live` a live change
//!   by its number, `found` what the trees say of what a command names, `undo` what follows of what
//!   kind of change it names. `live_state` has what is kept of the live changes, and adds and
//!   removes one.
//! - `rules` has each answer; what stands on a change it is told (gu_depend reads that off the
//!   trees). `grove` has what a change and its Reverse do to the trees; no public contract speaks
//!   of them.
//!
//! Its cases, whole days of a small house, are data of the program `test_book`.
#![tactic(auto)]

mod book;
mod copies;
mod found;
mod grove;
pub mod laws;
mod live;
mod live_state;
mod lookups;
mod rules;
mod undo;
mod visits;

pub use book::Book;
pub use gu_base::{Answer, Entry};
pub use gu_ids::HashKey;
pub use live::entry_at;
