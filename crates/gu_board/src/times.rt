//! How long something took each time, by bounds: counted by whoever did it, read by whoever asks.

use crate::cell::{add, load, zeros};
use gu_base::Memory;
use gu_status::{BOUNDS, BUCKETS, Times};
use std::alloc::Global;
use std::sync::atomic::{AtomicU64, Ordering};

/// How often something was, how long all took, and how often it took no longer than each bound.
#[derive(Drop)]
pub struct Taken {
    within: Vec<AtomicU64>,
    count: AtomicU64,
    micros: AtomicU64,
}

impl Taken {
    /// It never was yet.
    pub fn new(alloc: Global) -> Result<Taken, Memory> {
        Ok(Taken {
            within: zeros(alloc, BOUNDS.len())?,
            count: AtomicU64::new(0),
            micros: AtomicU64::new(0),
        })
    }

    /// It took so many microseconds.
    pub fn note(&self, micros: u64) {
        // Whoever reads goes the other way, so that no bucket is seen above a wider one.
        add(&self.count);
        for i in (0..BOUNDS.len()).rev() {
            if micros <= BOUNDS[i] {
                if let Some(within) = self.within.get(i) {
                    add(within);
                }
            }
        }
        self.micros.fetch_add(micros, Ordering::SeqCst);
    }

    /// How it stands.
    pub fn times(&self) -> Times {
        let mut within = [0u64; BUCKETS];
        for i in 0..within.len() {
            if let Some(count) = self.within.get(i) {
                within[i] = load(count);
            }
        }
        Times {
            within,
            count: load(&self.count),
            micros: load(&self.micros),
        }
    }
}
