//! What an operator lets firms have of a server: the decisions, and nothing that counts or waits.
//!
//! - `Limits` says how many entries, parts, calls a second and connections a firm may have, how
//!   much may wait for it, and how many entries and how much memory are the house's alone. What
//!   isn't given is without a bound.
//! - None of it is for the house but the end of the memory: each decision asks first whether it is
//!   the house's.
//! - A `Size` is how large a book is, and tells about how much memory it takes, and whether so much
//!   fills a group of the journal.
//! - An `Ending` is why a connection is closed beside its session, and what its Logout says.
//! - `Said` is what an operator has said of a firm's connections, and decides which ones end.
//! - A pace is a moment, until which a firm has had its rate.
//! - A turn ends, and the connections of a firm share the time of one.
//!
//! Each function meets its definition in `specs/` exactly, and takes no memory.
#![tactic(auto)]

mod ending;
mod limits;
mod pace;
mod said;
mod size;
mod turn;

pub use ending::Ending;
pub use limits::{Limits, is_silent};
pub use pace::{counted, is_ahead};
pub use said::Said;
pub use size::{GROUP_BYTES, Size, fills_group};
pub use turn::{is_spent, share_left};
