//! The streams of a worker whose connections have ended.

use gu_connection::{read_away, stays};
use gu_recorder::Wire;

/// How many of them a worker has at the most. Where there are more, the oldest is closed.
pub(crate) const MOST_LINGERING: usize = 512;

/// How many reads of what is thrown away are made at once.
pub(crate) const MOST_READS: usize = 256;

/// A stream on which all is sent, in the place that its connection had.
#[derive(Drop)]
pub(crate) struct Lingering {
    pub(crate) at: usize,
    wire: Wire,
    /// The second in which its connection ended, and for how many its peer may go on.
    since: u64,
    most: u64,
}

impl Lingering {
    /// Tells the peer that no more comes, which may go on for so many seconds. Nothing, if it has
    /// ended too.
    pub(crate) fn new(at: usize, wire: Wire, second: u64, most: u64) -> Option<Lingering> {
        let mut wire = wire;
        if wire.end_writing().is_err() || !read_away(&mut wire, MOST_READS) {
            return None;
        }
        Some(Lingering {
            at,
            wire,
            since: second,
            most,
        })
    }

    /// Has it stay open no longer than to this second.
    pub(crate) fn end_by(&mut self, second: u64) {
        self.most = self.most.min(second.saturating_sub(self.since));
    }

    /// Whether it is to stay open: its peer hasn't ended, and has time.
    pub(crate) fn stays(&mut self, second: u64) -> bool {
        let goes_on = read_away(&mut self.wire, MOST_READS);
        stays(goes_on, second.saturating_sub(self.since), self.most)
    }
}
