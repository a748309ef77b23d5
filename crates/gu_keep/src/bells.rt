//! How the threads of a server wake each other.

use crate::news::NewsBoard;
use crate::shutter::Shutters;
use crate::words::Words;
use gu_archive::{Archive, ArchiveError, Hours};
use gu_command::KeepError;
use mio::Waker;
use std::alloc::Global;
use std::sync::atomic::{AtomicBool, AtomicU64, Ordering};
use std::sync::{Arc, Wait};

/// What a worker is woken by.
#[derive(Drop)]
pub(crate) struct Bell {
    pub(crate) waker: Waker,
    /// Its place among the bells.
    pub(crate) at: u32,
    /// Whether it waits until more is kept.
    pub(crate) waits: AtomicBool,
    /// Whether what is kept now concerns firms of its connections.
    pub(crate) news: AtomicBool,
    /// How many connections it has.
    pub(crate) open: AtomicU64,
    /// Whether descriptors lack, so that it is to close connections without a Logon.
    pub(crate) lacks: AtomicBool,
}

/// What the workers and the thread that accepts share.
#[derive(Drop)]
pub(crate) struct Bells {
    pub(crate) workers: Vec<Bell>,
    pub(crate) acceptor: Waker,
    pub(crate) journal: Waker,
    /// Whether a group is being written.
    pub(crate) writes: AtomicBool,
    /// Whether the server is to end at once.
    pub(crate) stop: AtomicBool,
    pub(crate) words: Words,
    pub(crate) news: NewsBoard,
    /// What the watch can shut of connections.
    pub(crate) shutters: Arc<Shutters>,
    /// Where a worker's files of the archive come from, where there is one.
    pub(crate) hours: Option<Arc<Hours>>,
}

/// What a server tells of a fault of its archive.
pub(crate) fn archive_fault(error: ArchiveError) -> KeepError {
    match error {
        ArchiveError::Memory => KeepError::Memory,
        ArchiveError::Clock => KeepError::Clock,
        ArchiveError::Disk(error) => KeepError::Archive(error),
    }
}

/// One more hold on the archive's hours, where there is one.
pub(crate) fn share_hours(hours: &Option<Arc<Hours>>) -> Result<Option<Arc<Hours>>, KeepError> {
    let Some(hours) = hours else {
        return Ok(None);
    };
    match Arc::try_clone(hours) {
        Ok(hours) => Ok(Some(hours)),
        Err(_) => Err(KeepError::Memory),
    }
}

impl Bell {
    /// The bell at this place, of a worker that this wakes, with no connections yet.
    pub(crate) fn new(waker: Waker, at: u32) -> Bell {
        Bell {
            waker,
            at,
            waits: AtomicBool::new(false),
            news: AtomicBool::new(false),
            open: AtomicU64::new(0),
            lacks: AtomicBool::new(false),
        }
    }
}

impl Bells {
    /// The end of the archive for the worker at this place, where there is one.
    pub(crate) fn open_archive<R: Wait>(
        &self,
        rt: &R,
        alloc: Global,
        at: usize,
    ) -> Result<Option<Archive>, KeepError> {
        let Some(hours) = share_hours(&self.hours)? else {
            return Ok(None);
        };
        match Archive::open(rt, alloc, hours, at) {
            Ok(archive) => Ok(Some(archive)),
            Err(error) => Err(archive_fault(error)),
        }
    }

    /// Wakes the workers that wait until more is kept.
    pub(crate) fn ring_waiting(&self) {
        for bell in self.workers.as_slice() {
            if bell.waits.load(Ordering::SeqCst) {
                let _ = bell.waker.wake();
            }
        }
    }

    /// Tells all workers that descriptors lack.
    pub(crate) fn tell_lack(&self) {
        for bell in self.workers.as_slice() {
            bell.lacks.store(true, Ordering::SeqCst);
            let _ = bell.waker.wake();
        }
    }

    /// Wakes all workers.
    pub(crate) fn ring_all(&self) {
        for bell in self.workers.as_slice() {
            let _ = bell.waker.wake();
        }
    }

    /// Ends the server.
    pub(crate) fn end(&self) {
        self.stop.store(true, Ordering::SeqCst);
        let _ = self.acceptor.wake();
        let _ = self.journal.wake();
        self.ring_all();
    }

    /// Whether the server is to end.
    pub(crate) fn ends(&self) -> bool {
        self.stop.load(Ordering::SeqCst)
    }

    /// Counts a connection that is handed to a worker.
    pub(crate) fn count_one(&self, at: usize) {
        if let Some(bell) = self.workers.get(at) {
            bell.open.fetch_add(1, Ordering::SeqCst);
        }
    }

    /// Counts a connection less, which a worker doesn't get.
    pub(crate) fn discount_one(&self, at: usize) {
        if let Some(bell) = self.workers.get(at) {
            bell.open.fetch_sub(1, Ordering::SeqCst);
        }
    }

    /// How many connections are open.
    pub(crate) fn open(&self) -> u64 {
        let mut open = 0u64;
        for bell in self.workers.as_slice() {
            open = open.saturating_add(bell.open.load(Ordering::SeqCst));
        }
        open
    }

    /// Wakes a worker.
    pub(crate) fn ring(&self, at: usize) {
        if let Some(bell) = self.workers.get(at) {
            let _ = bell.waker.wake();
        }
    }

    /// The worker that has the fewest connections.
    pub(crate) fn least(&self) -> usize {
        let mut least = 0usize;
        let mut fewest = u64::MAX;
        let mut at = 0usize;
        for bell in self.workers.as_slice() {
            let open = bell.open.load(Ordering::SeqCst);
            if open < fewest {
                least = at;
                fewest = open;
            }
            at = at.saturating_add(1);
        }
        least
    }
}
