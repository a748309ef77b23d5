//! What an operator has said, beside what the command line asks for: by whoever answers at the
//! socket, read by the threads that serve.

use crate::board::{Board, text};
use gu_base::{FirmId, Memory};
use gu_limits::Said;
use gu_log::{Event, Key};
use gu_parties::House;
use gu_status::{FirmWord, Word};
use indexmap::IndexMap;
use std::alloc::{AllocError, Global};
use std::sync::Wait;
use std::sync::atomic::{AtomicBool, AtomicU64, Ordering};
use std::time::Clock;

/// What was said of a firm.
#[derive(Drop)]
struct OfFirm {
    refused: AtomicBool,
    put_out: AtomicU64,
}

/// What was said.
#[derive(Drop)]
pub struct Instructions {
    /// Whether anything was.
    any: AtomicBool,
    stops: AtomicBool,
    firms: IndexMap<FirmId, OfFirm>,
}

impl Instructions {
    /// Nothing was said of the firms of a house.
    pub(crate) fn new(alloc: Global, house: &House) -> Result<Instructions, Memory> {
        let mut firms = IndexMap::new(alloc);
        for place in 0..house.firm_count() {
            let Some(firm) = house.firm_at(place) else {
                continue;
            };
            let nothing = OfFirm {
                refused: AtomicBool::new(false),
                put_out: AtomicU64::new(0),
            };
            if firms.insert(firm, nothing).is_err() {
                return Err(AllocError);
            }
        }
        Ok(Instructions {
            any: AtomicBool::new(false),
            stops: AtomicBool::new(false),
            firms,
        })
    }

    /// Whether the server is to stop.
    pub fn stops(&self) -> bool {
        self.stops.load(Ordering::SeqCst)
    }

    /// Whether anything was said.
    pub fn are_some(&self) -> bool {
        self.any.load(Ordering::SeqCst)
    }

    /// What was said of a firm's connections. Of the house nothing is said alone.
    pub fn of(&self, firm: &FirmId) -> Said {
        if !self.are_some() {
            return Said::NOTHING;
        }
        let stops = self.stops();
        match self.firms.get(firm) {
            Some(it) => Said {
                stops,
                refused: it.refused.load(Ordering::SeqCst),
                put_out: it.put_out.load(Ordering::SeqCst),
            },
            None => Said {
                stops,
                refused: false,
                put_out: 0,
            },
        }
    }

    /// Notes a word of a firm.
    fn note(&self, word: FirmWord, firm: &FirmId) {
        let Some(it) = self.firms.get(firm) else {
            return;
        };
        match word {
            FirmWord::Disconnect => {
                it.put_out.fetch_add(1, Ordering::SeqCst);
            }
            FirmWord::Refuse => it.refused.store(true, Ordering::SeqCst),
            FirmWord::Admit => it.refused.store(false, Ordering::SeqCst),
        }
        self.any.store(true, Ordering::SeqCst);
    }

    /// Notes that the server is to stop.
    fn stop(&self) {
        self.stops.store(true, Ordering::SeqCst);
        self.any.store(true, Ordering::SeqCst);
    }
}

/// The event that a word of a firm is.
fn event_of(word: FirmWord) -> Event {
    match word {
        FirmWord::Disconnect => Event::Disconnects,
        FirmWord::Refuse => Event::Refuses,
        FirmWord::Admit => Event::Admits,
    }
}

/// Heeds what an operator says, and says so.
pub fn heed<R: Wait + Clock>(rt: &R, board: &Board, word: Word) {
    let instructions = board.instructions();
    match word {
        Word::Drain => {
            board.say(rt, Event::Drains, &[]);
            instructions.stop();
        }
        Word::Of(word, firm) => {
            board.say(rt, event_of(word), &[text(Key::Firm, firm.as_bytes())]);
            instructions.note(word, &firm);
        }
    }
}
