//! A gate that holds the first call until it is released, or refused. `test_book` has one of its
//! own: a program gives nothing to another.

use gu_desk::Gate;
use std::alloc::Global;
use std::sync::atomic::{AtomicU64, Ordering};
use std::thread;
use std::time::Duration;

/// The first call goes on, or doesn't.
const PASSES: u64 = 1;

const REFUSED: u64 = 2;

/// Holds the first call until it is released or refused, for at most 10,000 turns of a millisecond.
/// What the clients do has the system from here.
#[derive(Drop)]
pub(crate) struct Holds<'a> {
    pub(crate) rt: &'a HostRuntime,
    pub(crate) alloc: Global,
    /// How many calls came.
    came: AtomicU64,
    /// What becomes of the first: 0 while that isn't said.
    said: AtomicU64,
}

/// What this is as soon as it isn't 0. 0 where it still is at the end.
fn awaited(rt: &HostRuntime, flag: &AtomicU64) -> u64 {
    for _ in 0..10_000 {
        let found = flag.load(Ordering::SeqCst);
        if found > 0 {
            return found;
        }
        thread::sleep(rt, Duration::from_millis(1));
    }
    0
}

impl<'a> Holds<'a> {
    /// No call came yet, and none may go on.
    pub(crate) fn new(rt: &'a HostRuntime, alloc: Global) -> Holds<'a> {
        Holds {
            rt,
            alloc,
            came: AtomicU64::new(0),
            said: AtomicU64::new(0),
        }
    }

    /// Waits until the first call came. `false` where it didn't come in time.
    pub(crate) fn has_come(&self) -> bool {
        awaited(self.rt, &self.came) > 0
    }

    /// Lets the first call go on.
    pub(crate) fn release(&self) {
        self.said.store(PASSES, Ordering::SeqCst);
    }

    /// Has the first call not made.
    pub(crate) fn refuse(&self) {
        self.said.store(REFUSED, Ordering::SeqCst);
    }
}

impl<'a> Gate for Holds<'a> {
    fn before_book(&self, _worker: u32) -> bool {
        self.came.fetch_add(1, Ordering::SeqCst) > 0 || awaited(self.rt, &self.said) == PASSES
    }
}
