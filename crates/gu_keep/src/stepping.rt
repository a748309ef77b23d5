//! What the watch sees of the wall clock: that it was set, or that it can't be told.

use gu_board::{Board, text};
use gu_connection::SteadyClock;
use gu_log::{Event, Key};
use std::alloc::Global;
use std::sync::Wait;
use std::time::Clock;

/// From how many nanoseconds on it is told that the clock was set.
const TOLD_FROM: u64 = 1_000_000_000;

const SECOND: u64 = 1_000_000_000;

/// A clock that doesn't jump, beside the wall clock.
#[derive(Drop)]
pub(crate) struct ClockWatch(SteadyClock);

impl ClockWatch {
    /// One that goes with the wall clock at first.
    pub(crate) fn new() -> ClockWatch {
        ClockWatch(SteadyClock::new())
    }

    /// Looks at both. Where the wall clock has gone off by more than a second, a line says by how
    /// many seconds, and then both go together again.
    pub(crate) fn look<R: Wait + Clock>(&mut self, rt: &R, alloc: Global, board: &Board) {
        let is_told = self.0.now(rt).is_some();
        board.tells_time(is_told);
        let off = self.0.off();
        if !is_told || off <= TOLD_FROM {
            return;
        }
        let sign = if self.0.is_behind() { "+" } else { "-" };
        if let Ok(by) = format!(in alloc; "{sign}{}", off.saturating_add(SECOND / 2) / SECOND) {
            board.say(rt, Event::ClockStepped, &[text(Key::By, by.as_bytes())]);
        }
        self.0 = SteadyClock::new();
        let _ = self.0.now(rt);
    }
}
