//! What is told is kept: the journal and its seat, and what waits to be sent until it is durable.
//!
//! - A `Recorder` records what the desk has answered, in an `OpenJournal`: a journal over a disk
//!   (`DiskJournal`), whose entries other machines may have to have too.
//! - A desk of a kept book begins and ends with its recorder.
//! - An `Outbox` sends nothing before the history that it rests on is kept, and before a `Witness`
//!   has seen it. Nothing else goes out through a `Wire`.
//! - `SystemJournals` opens the journal of a path.
#![tactic(auto)]

mod beginning;
mod desk;
mod disk_journal;
mod journals;
mod made;
mod outbox;
mod place;
mod recorder;
mod replica;
mod room;
mod shutter;
mod standing;
mod system;
mod wire;

pub use desk::{close_desk, open_desk};
pub use disk_journal::DiskJournal;
pub use journals::{Checksum, Journals, OpenJournal};
pub use made::MadeByte;
pub use outbox::{Outbox, Rest};
pub use recorder::Recorder;
pub use room::make_room;
pub use shutter::Shutter;
pub use system::SystemJournals;
pub use wire::{Wire, Witness};
