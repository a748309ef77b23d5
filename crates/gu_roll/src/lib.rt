//! A book that lives past its house file.
//!
//! - `check_extends` says whether a house table has all that another has, so that a history under
//!   that one is one under it too, or what it lacks.
//! - `extend` writes the journal of a history under a house table that extends its own: the same
//!   entries under the same numbers, in the same groups and at the same moments, with a head and
//!   seals of their own. A start from it under the new house file gives that very history.
//! - `roll` writes the journal of a new book, which has the live changes of an old one alone, with
//!   numbers from 1 on.
//! - `told_at` says of a message of a journal what it is, and its moment.
#![tactic(auto)]

mod anew;
mod error;
mod extending;
mod groups;
mod keep;
mod lack;
mod lost;
mod opening;
mod picking;
mod renumbered;
mod rolling;
mod sharing;
mod told;
mod waiting;

pub use anew::extend;
pub use error::{ExtendError, RollError};
pub use extending::check_extends;
pub use keep::{Asked, Keep};
pub use lack::Lack;
pub use lost::Lost;
pub use rolling::{PinnedHouse, RolledBook, roll};
pub use sharing::Share;
pub use told::{Kind, MOMENT, Told, told_at};
