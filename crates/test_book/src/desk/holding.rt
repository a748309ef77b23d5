//! A gate that holds the first call until it is released. What releases it is also the flag by
//! which one worker tells the other.

use gu_desk::Gate;
use std::sync::{Mutex, Wait};
use std::thread;
use std::time::{Clock, Duration};

/// How many calls came to the gate, and whether the first may go on.
#[derive(Drop)]
pub(crate) struct Turns {
    came: u32,
    released: bool,
}

impl Turns {
    /// No call came yet.
    pub(crate) fn new() -> Turns {
        Turns {
            came: 0,
            released: false,
        }
    }

    /// Counts a call, and says whether it is the first.
    fn is_first(&mut self) -> bool {
        self.came = self.came.saturating_add(1);
        self.came == 1
    }
}

/// Holds the first call until it is released, for at most 10,000 turns of a millisecond.
#[derive(Drop)]
pub(crate) struct Holds<'a, R: Wait + Clock> {
    rt: &'a R,
    turns: &'a Mutex<Turns>,
}

impl<'a, R: Wait + Clock> Holds<'a, R> {
    /// A gate over these turns.
    pub(crate) fn new(rt: &'a R, turns: &'a Mutex<Turns>) -> Holds<'a, R> {
        Holds { rt, turns }
    }

    /// Waits until the first call came. `false` where it didn't come in time.
    pub(crate) fn has_come(&self) -> bool {
        for _ in 0..10_000 {
            if self.turns.lock(self.rt).came > 0 {
                return true;
            }
            thread::sleep(self.rt, Duration::from_millis(1));
        }
        false
    }

    /// Waits until the first call is released. `false` where it wasn't in time.
    pub(crate) fn is_released(&self) -> bool {
        for _ in 0..10_000 {
            if self.turns.lock(self.rt).released {
                return true;
            }
            thread::sleep(self.rt, Duration::from_millis(1));
        }
        false
    }

    /// Lets the first call go on.
    pub(crate) fn release(&self) {
        self.turns.lock(self.rt).released = true;
    }
}

impl<'a, R: Wait + Clock> Gate for Holds<'a, R> {
    fn before_book(&self, _worker: u32) -> bool {
        !self.turns.lock(self.rt).is_first() || self.is_released()
    }
}
