//! A journal's file looked at, and copied, also while a server writes it; and written anew.
//!
//! - `verify` says in one line what a start would say of the bytes of a journal: it recovers them
//!   over a file in memory, so that it answers `Ok` where a start from these bytes would. It writes
//!   the trace of a trade and the totals too, if they are asked for.
//! - `back_up` copies a journal. The copy has its name only once it is whole and synced.
//! - `extend_journal` writes one anew, under a house file that has more; the old one, which no
//!   server has meanwhile, is renamed once the new one is whole.
//! - `roll_journal` begins a new book with what is live in an old one.
//! - `JournalFiles` is where they find files; those of the system are read and made by `read_file`,
//!   `draft_at`, `name_draft`, `discard_draft`, `hold_file` and `retire_file`. What is read of a
//!   file that a server writes is what it said at one moment: what was written behind a zero
//!   meanwhile is left out.
#![tactic(auto)]

mod backup;
mod draft;
mod error;
mod extending;
mod files;
mod reading;
mod rolling;
mod system;
mod verifying;
mod writing;

pub use backup::back_up;
pub use draft::{Draft, SyncedDraft};
pub use error::LookError;
pub use extending::extend_journal;
pub use files::{Drafted, JournalFiles, Synced};
pub use gu_roll::PinnedHouse;
pub use rolling::roll_journal;
pub use system::{
    HeldJournal, discard_draft, draft_at, hold_file, name_draft, read_file, retire_file,
};
pub use verifying::verify;
