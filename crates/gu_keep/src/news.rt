//! Who is to hear at once of what is kept now: the workers that have connections of a firm that a
//! new entry concerns. What a connection made itself it has heard in its turn, so where it alone is
//! there nothing is spread. Who logs on later looks at all that was kept.

use crate::bells::Bells;
use gu_base::{FirmId, Memory};
use gu_desk::News;
use gu_parties::House;
use indexmap::IndexMap;
use std::alloc::{AllocError, Global};
use std::sync::atomic::{AtomicBool, AtomicU32, AtomicU64, Ordering};

/// The last entry that was spread and concerns a firm, and the workers that have connections of it.
#[derive(Drop)]
struct Newest {
    number: AtomicU32,
    /// A bit for each.
    workers: AtomicU64,
}

/// What is newest of each firm.
#[derive(Drop)]
pub(crate) struct NewsBoard {
    firms: IndexMap<FirmId, Newest>,
    /// How many entries are kept.
    kept: AtomicU32,
    /// Whether a connection has ended that may have made what others haven't heard of.
    parted: AtomicBool,
}

/// The bit of a worker.
fn bit(worker: u32) -> u64 {
    1u64 << (worker % 64)
}

impl NewsBoard {
    /// Nothing is new yet, and no firm is named.
    pub(crate) fn new(alloc: Global) -> NewsBoard {
        NewsBoard {
            firms: IndexMap::new(alloc),
            kept: AtomicU32::new(0),
            parted: AtomicBool::new(false),
        }
    }

    /// Names a firm.
    fn name(&mut self, firm: FirmId) -> Result<(), Memory> {
        let none = Newest {
            number: AtomicU32::new(0),
            workers: AtomicU64::new(0),
        };
        match self.firms.insert(firm, none) {
            Ok(_) => Ok(()),
            Err(_) => Err(AllocError),
        }
    }

    /// Names the firms of a house, and the house.
    pub(crate) fn name_all(&mut self, house: &House) -> Result<(), Memory> {
        self.name(house.house())?;
        for place in 0..house.firm_count() {
            if let Some(firm) = house.firm_at(place) {
                self.name(firm)?;
            }
        }
        Ok(())
    }

    /// The place of a firm.
    pub(crate) fn place_of(&self, firm: &FirmId) -> Option<usize> {
        self.firms.get_index_of(firm)
    }

    /// How many entries are kept.
    pub(crate) fn kept(&self) -> u32 {
        self.kept.load(Ordering::SeqCst)
    }

    /// Notes that a connection ends, while it still counts as open.
    pub(crate) fn note_end(&self) {
        self.parted.store(true, Ordering::SeqCst);
    }

    /// Notes that so many entries are kept: whether the newest may concern others than who made
    /// them. Who isn't open yet finds the number when it logs on.
    pub(crate) fn are_due(&self, bells: &Bells, kept: u32) -> bool {
        self.kept.store(kept, Ordering::SeqCst);
        bells.open() > 1 || self.parted.swap(false, Ordering::SeqCst)
    }

    /// The last entry that was spread and concerns the firm at a place, or 0.
    pub(crate) fn newest(&self, place: usize) -> u32 {
        match self.firms.get_index(place) {
            Some((_, newest)) => newest.number.load(Ordering::SeqCst),
            None => 0,
        }
    }

    /// Notes that a worker has connections of the firm at a place.
    pub(crate) fn join(&self, place: usize, worker: u32) {
        if let Some((_, newest)) = self.firms.get_index(place) {
            newest.workers.fetch_or(bit(worker), Ordering::SeqCst);
        }
    }

    /// Notes that it has none any more.
    pub(crate) fn part(&self, place: usize, worker: u32) {
        if let Some((_, newest)) = self.firms.get_index(place) {
            newest.workers.fetch_and(!bit(worker), Ordering::SeqCst);
        }
    }

    /// Notes what is new, and gives the workers that have connections of the firms.
    fn note(&self, news: &[News]) -> u64 {
        let mut workers = 0u64;
        for it in news {
            if let Some(newest) = self.firms.get(&it.firm) {
                newest.number.fetch_max(it.number.get(), Ordering::SeqCst);
                workers |= newest.workers.load(Ordering::SeqCst);
            }
        }
        workers
    }

    /// Spreads what is new: each worker that has connections of a firm that it concerns is woken
    /// once, but for the one that spreads it.
    pub(crate) fn spread(&self, bells: &Bells, news: &[News], by: u32) {
        let workers = self.note(news);
        let Ok(count) = u32::try_from(bells.workers.len()) else {
            return;
        };
        for at in 0..count {
            if let Some(bell) = bells.workers.get(at as usize) {
                if workers & bit(at) != 0 && !bell.news.swap(true, Ordering::SeqCst) && at != by {
                    let _ = bell.waker.wake();
                }
            }
        }
    }
}
