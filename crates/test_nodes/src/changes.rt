//! The tree of a new trade.

use crate::words::place_of;
use gu_base::Number;
use gu_tree::Tree;
use std::alloc::Global;

/// The trade 1 of these lots into AAA/A1.
pub(crate) fn trade(alloc: Global, lots: &str) -> Option<Tree<Global>> {
    match (place_of("AAA/A1"), lots.parse::<u64>()) {
        (Some(place), Ok(lots)) => Some(Tree::new(alloc, Number::at_place(0), place, lots)),
        _ => None,
    }
}
