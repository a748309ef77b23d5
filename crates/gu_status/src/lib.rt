//! What a server says of itself: figures, readiness, health, and when it warns.
//!
//! - `metrics` is the text of a `Snapshot` for Prometheus: each line is one of the snapshot's.
//! - `Pages` answers HTTP: `/metrics`, `/ready` and `/health` by GET and HEAD, any other path with
//!   404, any other method with 405 (`specs/Pages.antt`). The kit's `http_server` reads and writes.
//! - At a socket, and at no port, POST says a `Word` of an operator: `/drain`, and of a firm
//!   `/disconnect`, `/refuse` and `/admit`. Whoever answers heeds it.
//! - `stuck` tells the first part of a server that hasn't moved for so long.
//! - `mark_passed` tells when a count has passed 80 or 90 percent of what it may be.
//!
//! It is pure: it takes memory, no handle and no lock.
#![tactic(auto)]

mod causes;
mod figures;
mod gaps;
mod pages;
mod parts;
mod samples;
mod snapshot;
mod warning;
mod words;

pub use causes::{CAUSES, Cause};
pub use figures::{RELEASE, metrics};
pub use gaps::{SeenGap, is_due, seen_gap};
pub use pages::Pages;
pub use parts::{Part, Pulses, stuck};
pub use snapshot::{
    BOUNDS, BUCKETS, Faults, FirmEntries, REASONS, REJECT_REASONS, REJECTS, RefusedLogons,
    Snapshot, Syncs, Times,
};
pub use warning::mark_passed;
pub use words::{FirmWord, Word};
