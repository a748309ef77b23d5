//! How a server stands at a moment.

use crate::causes::{CAUSES, Cause};
use crate::parts::Part;
use gu_base::FirmId;

/// How many kinds of refusal there are: their numbers are 1 to 28.
pub const REASONS: usize = 28;

/// How many reasons of a Reject there are.
pub const REJECTS: usize = 6;

/// These reasons, as SessionRejectReason (373) has them.
pub const REJECT_REASONS: [u8; REJECTS] = [1, 2, 5, 6, 11, 16];

/// How many bounds the times of syncs are sorted by.
pub const BUCKETS: usize = 11;

/// These bounds, in microseconds: 1, 2, 5, 10, 20, 50, 100, 200 and 500 ms, 1 s and 10 s.
pub const BOUNDS: [u64; BUCKETS] = [
    1_000, 2_000, 5_000, 10_000, 20_000, 50_000, 100_000, 200_000, 500_000, 1_000_000, 10_000_000,
];

/// How many entries of the book are a firm's, and whether an operator has it refused.
#[derive(Clone, Copy, Debug)]
pub struct FirmEntries {
    pub firm: FirmId,
    pub entries: u64,
    pub is_refused: bool,
}

/// How many connections ended without an accepted Logon for a cause.
#[derive(Clone, Copy, Debug)]
pub struct RefusedLogons {
    pub cause: Cause,
    pub count: u64,
}

/// How long something took, each time.
#[derive(Clone, Copy, Debug)]
pub struct Times {
    /// How often it took no longer than each of the `BOUNDS`.
    pub within: [u64; BUCKETS],
    /// How often it was.
    pub count: u64,
    /// How long all took together, in microseconds.
    pub micros: u64,
}

/// The groups that were brought to the disk.
#[derive(Clone, Copy, Debug)]
pub struct Syncs {
    /// How long the disk took for each.
    pub disk: Times,
    /// How long the other machines' answer took behind that, where there are other machines.
    pub machines: Times,
    /// For how many the disk was slow.
    pub slow: u64,
    /// For how many seconds the one that is on its way now is; 0 where none is.
    pub oldest_seconds: u64,
    /// How many seconds ago the last one was, or the start.
    pub idle_seconds: u64,
}

/// What went wrong between firms and the server.
#[derive(Clone, Copy, Debug)]
pub struct Faults {
    /// Rejects that were sent, for each of the `REJECT_REASONS`.
    pub rejects: [u64; REJECTS],
    /// Frames that were garbled.
    pub garbled: u64,
    /// Messages that were dropped since some before them lacked.
    pub dropped: u64,
    /// Messages that were sent again.
    pub resent: u64,
}

/// How a server stands.
#[derive(Debug, Drop)]
pub struct Snapshot {
    /// When the server began, in seconds from 1970 on.
    pub began: u64,
    /// Whether the book was recovered, and connections are taken.
    pub is_ready: bool,
    /// The part that hasn't moved for long, if there is one.
    pub stuck: Option<Part>,
    /// The entries of the book, the most that it may have, and how many of these are the house's
    /// alone.
    pub entries: u32,
    pub most_entries: u32,
    pub reserved: u32,
    /// About how many bytes of memory the book takes, how many it may take (0 where there is no
    /// limit), and how many its journal's file has.
    pub book_bytes: u64,
    pub most_bytes: u64,
    pub journal_bytes: u64,
    /// Whether memory lacks, so that no calls of firms are made.
    pub lacks_memory: bool,
    /// The entries of each firm, in the order of the house file.
    pub firms: Vec<FirmEntries>,
    /// The connections that are open.
    pub connections: u64,
    /// Calls that were accepted and are on the disk, were a call made before, and were refused: by
    /// the refusal's number, from 1 on.
    pub accepted: u64,
    pub repeated: u64,
    pub refused: [u64; REASONS],
    pub faults: Faults,
    /// Connections that ended before a Logon was accepted, by their causes.
    pub logons_refused: [RefusedLogons; CAUSES],
    /// Bytes that wait for firms to take them.
    pub waiting_bytes: u64,
    pub syncs: Syncs,
    /// Lines of the log that were lost.
    pub lines_lost: u64,
}
