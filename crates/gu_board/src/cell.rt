//! What is counted of a worker: by itself alone, and read by whoever asks.

use gu_base::{Answer, Memory};
use gu_status::{REASONS, REJECT_REASONS, REJECTS};
use std::alloc::{AllocError, Global};
use std::sync::atomic::{AtomicU64, Ordering};

/// Where a part doesn't move yet, or no more, since it has ended.
pub const ENDED: u64 = u64::MAX;

/// What is counted of a worker.
#[derive(Drop)]
pub struct Cell {
    /// The second of its last turn.
    pub turned: AtomicU64,
    /// The connection that it serves now.
    pub connection: AtomicU64,
    /// The bytes that it has read.
    pub read: AtomicU64,
    /// How many peers have closed their connections.
    pub gone: AtomicU64,
    /// The calls that it has made: those that were accepted, were a call made before, and were
    /// refused.
    accepted: AtomicU64,
    repeated: AtomicU64,
    refused: AtomicU64,
    /// Those that were refused in this turn, by the refusal's number, from 1 on.
    reasons: Vec<AtomicU64>,
    /// The Rejects that it has sent, and those of this turn for each of the `REJECT_REASONS`.
    rejected: AtomicU64,
    rejects: Vec<AtomicU64>,
    /// The frames that were garbled, the messages that it has dropped for a gap, and those that it
    /// has sent again.
    pub garbled: AtomicU64,
    pub dropped: AtomicU64,
    pub resent: AtomicU64,
}

/// What a worker has read and made so far.
#[derive(Clone, Copy, Default)]
pub struct Work {
    /// The bytes that were read.
    pub read: u64,
    /// The connections that were lost.
    pub gone: u64,
    /// The calls that were accepted.
    pub accepted: u64,
    /// The calls that repeated an accepted one.
    pub repeated: u64,
    /// The calls that were refused.
    pub refused: u64,
    /// The Rejects that were sent.
    pub rejected: u64,
    /// The frames that were garbled.
    pub garbled: u64,
    /// The messages that were dropped for a gap.
    pub dropped: u64,
    /// The messages that were sent again.
    pub resent: u64,
}

impl Work {
    /// What was done since it had done this.
    pub fn since(self, before: Work) -> Work {
        Work {
            read: self.read.saturating_sub(before.read),
            gone: self.gone.saturating_sub(before.gone),
            accepted: self.accepted.saturating_sub(before.accepted),
            repeated: self.repeated.saturating_sub(before.repeated),
            refused: self.refused.saturating_sub(before.refused),
            rejected: self.rejected.saturating_sub(before.rejected),
            garbled: self.garbled.saturating_sub(before.garbled),
            dropped: self.dropped.saturating_sub(before.dropped),
            resent: self.resent.saturating_sub(before.resent),
        }
    }

    /// This and what was done after it.
    pub fn with(self, after: Work) -> Work {
        Work {
            read: self.read.saturating_add(after.read),
            gone: self.gone.saturating_add(after.gone),
            accepted: self.accepted.saturating_add(after.accepted),
            repeated: self.repeated.saturating_add(after.repeated),
            refused: self.refused.saturating_add(after.refused),
            rejected: self.rejected.saturating_add(after.rejected),
            garbled: self.garbled.saturating_add(after.garbled),
            dropped: self.dropped.saturating_add(after.dropped),
            resent: self.resent.saturating_add(after.resent),
        }
    }

    /// How many calls it has made.
    pub fn calls(&self) -> u64 {
        self.accepted
            .saturating_add(self.repeated)
            .saturating_add(self.refused)
    }
}

/// A number for each of so many.
pub fn zeros(alloc: Global, count: usize) -> Result<Vec<AtomicU64>, Memory> {
    let mut numbers = Vec::new(alloc);
    for _ in 0..count {
        if numbers.push(AtomicU64::new(0)).is_err() {
            return Err(AllocError);
        }
    }
    Ok(numbers)
}

/// What a number is now.
pub fn load(number: &AtomicU64) -> u64 {
    number.load(Ordering::SeqCst)
}

/// Adds one to a number.
pub fn add(number: &AtomicU64) {
    number.fetch_add(1, Ordering::SeqCst);
}

/// Adds one to the number of a refusal: that of the first refusal comes first.
pub fn add_at(numbers: &[AtomicU64], refusal: u8) {
    if let Some(number) = numbers.get(usize::from(refusal).saturating_sub(1)) {
        add(number);
    }
}

/// Adds one to the number of a reason among those of the `REJECT_REASONS`.
pub fn add_reject(numbers: &[AtomicU64], reason: u8) {
    for i in 0..REJECTS {
        if REJECT_REASONS[i] == reason {
            if let Some(number) = numbers.get(i) {
                add(number);
            }
        }
    }
}

/// Moves numbers to others.
fn move_to(from: &[AtomicU64], to: &mut [u64]) {
    for i in 0..to.len() {
        if let Some(count) = from.get(i) {
            to[i] = to[i].saturating_add(count.swap(0, Ordering::SeqCst));
        }
    }
}

impl Cell {
    /// The cell of a worker that doesn't run yet.
    pub fn new(alloc: Global) -> Result<Cell, Memory> {
        Ok(Cell {
            turned: AtomicU64::new(ENDED),
            connection: AtomicU64::new(0),
            read: AtomicU64::new(0),
            gone: AtomicU64::new(0),
            accepted: AtomicU64::new(0),
            repeated: AtomicU64::new(0),
            refused: AtomicU64::new(0),
            reasons: zeros(alloc, REASONS)?,
            rejected: AtomicU64::new(0),
            rejects: zeros(alloc, REJECTS)?,
            garbled: AtomicU64::new(0),
            dropped: AtomicU64::new(0),
            resent: AtomicU64::new(0),
        })
    }

    /// Counts the answer to a call.
    pub fn count(&self, answer: &Answer) {
        match answer {
            Answer::Accepted { .. } => add(&self.accepted),
            Answer::Repeated { .. } => add(&self.repeated),
            Answer::Refused(refusal) => {
                add(&self.refused);
                add_at(self.reasons.as_slice(), refusal.number());
            }
        }
    }

    /// Counts a Reject for this reason.
    pub fn count_reject(&self, reason: u8) {
        add(&self.rejected);
        add_reject(self.rejects.as_slice(), reason);
    }

    /// What it has done so far.
    pub fn work(&self) -> Work {
        Work {
            read: load(&self.read),
            gone: load(&self.gone),
            accepted: load(&self.accepted),
            repeated: load(&self.repeated),
            refused: load(&self.refused),
            rejected: load(&self.rejected),
            garbled: load(&self.garbled),
            dropped: load(&self.dropped),
            resent: load(&self.resent),
        }
    }

    /// Adds the calls that were refused in this turn to those of a connection. The next turn has
    /// none yet.
    pub fn hand_over(&self, reasons: &mut [u64; REASONS]) {
        move_to(self.reasons.as_slice(), reasons);
    }

    /// The same of the Rejects.
    pub fn hand_rejects(&self, rejects: &mut [u64; REJECTS]) {
        move_to(self.rejects.as_slice(), rejects);
    }
}
