//! How far a journal is read, as an operator is told.

use crate::board::{Board, number};
use gu_journal::Progress;
use gu_log::{Event, Key};
use std::sync::Wait;
use std::time::{Clock, Instant};

/// Tells each second how far a journal is read, and the watch that it is read on.
#[derive(Drop)]
pub struct Teller<'a, R> {
    rt: &'a R,
    board: &'a Board,
    start: Option<Instant>,
    told: u64,
}

impl<'a, R: Clock> Teller<'a, R> {
    /// One that begins now.
    pub fn new(rt: &'a R, board: &'a Board) -> Teller<'a, R> {
        let start = match Instant::now(rt) {
            Ok(start) => Some(start),
            Err(_) => None,
        };
        Teller {
            rt,
            board,
            start,
            told: 0,
        }
    }

    /// How many milliseconds it took so far.
    pub fn millis(&self) -> u64 {
        match self.start {
            Some(start) => match start.elapsed(self.rt) {
                Ok(took) => took.as_millis().min(u128::from(u64::MAX)) as u64,
                Err(_) => 0,
            },
            None => 0,
        }
    }
}

impl<R: Wait + Clock> Progress for Teller<'_, R> {
    fn read(&mut self, bytes: usize, entries: u32) {
        self.board.takes_journal();
        let second = self.millis() / 1000;
        if second > self.told {
            self.told = second;
            let fields = [
                number(Key::Entries, u64::from(entries)),
                number(Key::Bytes, bytes as u64),
            ];
            self.board.say(self.rt, Event::Recovering, &fields);
        }
    }
}
