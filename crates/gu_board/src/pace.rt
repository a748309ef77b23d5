//! How the connections of a firm share its rate.
//!
//! Each message that a firm sends, or has sent again, is counted for the firm and for the
//! connection that it came on. While calls wait on several connections of a firm each of them has
//! its part of the rate alone, so that none takes it all.

use gu_limits::{counted, is_ahead};
use std::sync::atomic::{AtomicBool, AtomicU64, Ordering};

/// What a firm has had of its rate.
#[derive(Drop)]
pub(crate) struct FirmPace {
    /// Until when it has had its rate, in nanoseconds from the start.
    until: AtomicU64,
    /// On how many of its connections calls wait.
    waiting: AtomicU64,
}

/// What a connection has had of its firm's rate.
#[derive(Drop)]
pub struct Pace {
    until: AtomicU64,
    /// Whether calls wait on it.
    waits: AtomicBool,
}

impl Pace {
    /// Nothing yet.
    pub fn new() -> Pace {
        Pace {
            until: AtomicU64::new(0),
            waits: AtomicBool::new(false),
        }
    }
}

impl FirmPace {
    /// Nothing yet.
    pub(crate) fn new() -> FirmPace {
        FirmPace {
            until: AtomicU64::new(0),
            waiting: AtomicU64::new(0),
        }
    }

    /// On how many connections calls wait beside this one.
    fn others(&self, mine: &Pace) -> u64 {
        let all = self.waiting.load(Ordering::SeqCst);
        all.saturating_sub(u64::from(mine.waits.load(Ordering::SeqCst)))
    }

    /// Whether a further call on a connection waits.
    pub(crate) fn is_late(&self, mine: &Pace, now: u64) -> bool {
        let is_over = self.others(mine) > 0 && is_ahead(mine.until.load(Ordering::SeqCst), now);
        is_over || is_ahead(self.until.load(Ordering::SeqCst), now)
    }

    /// Notes whether calls wait on a connection.
    pub(crate) fn note(&self, mine: &Pace, waits: bool) {
        if mine.waits.swap(waits, Ordering::SeqCst) == waits {
            return;
        }
        if waits {
            self.waiting.fetch_add(1, Ordering::SeqCst);
        } else {
            self.waiting.fetch_sub(1, Ordering::SeqCst);
        }
    }

    /// Counts so many messages of a connection.
    pub(crate) fn count(&self, mine: &Pace, now: u64, rate: u32, count: u64) {
        let parts = self.others(mine).saturating_add(1);
        let before = mine.until.load(Ordering::SeqCst);
        let after = counted(before, now, rate, count.saturating_mul(parts));
        mine.until.store(after, Ordering::SeqCst);
        for _ in 0..u64::MAX {
            let before = self.until.load(Ordering::SeqCst);
            let after = counted(before, now, rate, count);
            // Where another worker has counted meanwhile, this counts behind it.
            let swapped = self
                .until
                .compare_exchange(before, after, Ordering::SeqCst, Ordering::SeqCst);
            if swapped.is_ok() {
                return;
            }
        }
    }
}
