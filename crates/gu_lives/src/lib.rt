//! What lets a book live on: under a house table that has more, and in a new book with its live
//! changes alone, renumbered. Definitions, and laws over them.
//!
//! - `a_larger_house_keeps_the_history`: a run under a house table is one under each that extends
//!   it, and tells the same.
//! - `other_numbers_change_nothing`: what is refused, what stands on what and what is told stays,
//!   if no two numbers become one.
//! - `other_ids_change_nothing`: a whole list with other ids is whole.
//! - `live_changes_are_whole`, `a_whole_list_is_a_history`: the live changes of a run, numbered
//!   from 1 on, are a run with the same live changes.
//! - `a_run_is_made_by_its_calls`: calls made again make the same history.
//! - `a_closed_part_stays_legal`: changes under which none of the others stands may be left out.
//! - `trades_stand_alone`: the changes of some trades are such a part, and each has the same rows.
//! - `a_book_is_rolled`: all of it together.
#![tactic(auto)]

mod laws;

pub use laws::{
    a_book_is_rolled, a_closed_part_stays_legal, a_larger_house_keeps_the_history,
    a_run_is_made_by_its_calls, a_whole_list_is_a_history, live_changes_are_whole,
    other_ids_change_nothing, other_numbers_change_nothing, trades_stand_alone,
};
