//! Who records what the desk has answered: a worker that serves nobody else, and else a thread of
//! the journal, so that a group that takes long keeps nobody from the other connections.

use crate::bells::{Bell, Bells};
use crate::keeper::LATE_WAIT;
use gu_command::KeepError;
use gu_connection::Worker;
use gu_desk::{Job, News};
use gu_recorder::{OpenJournal, Recorder};
use mio::{Events, Poll};
use std::sync::atomic::Ordering;
use std::sync::{Mutex, Wait};
use std::time::{Clock, Duration};

/// How many events a poll brings.
const MOST_EVENTS: usize = 4;

/// After how many milliseconds in which nobody asked the thread of the journal looks at it.
const LOOK_WAIT: u64 = 500;

/// No worker has this place among the bells.
const NOBODY: u32 = u32::MAX;

/// Takes the room that a record may need where memory lacks, and notes whether that lacks.
fn prepare<K: OpenJournal, J: Job, R, G>(
    worker: &Worker<'_, J, R, G>,
    recorder: &mut Recorder<K, J>,
) {
    let has_room = recorder.prepare(worker.alloc);
    if let Some(board) = worker.tallies.board() {
        board.note_lack(!has_room);
    }
}

/// Records what the desk has answered. Where memory lacks for that it is tried again later, and no
/// calls of firms are made until it succeeds.
fn record_or_lack<K: OpenJournal, J: Job, R: Wait + Clock, G>(
    worker: &Worker<'_, J, R, G>,
    recorder: &mut Recorder<K, J>,
) -> Result<(), KeepError> {
    let board = worker.tallies.board();
    match recorder.record(worker.rt, worker.alloc, worker.desk, board) {
        Ok(()) => prepare(worker, recorder),
        Err(KeepError::Memory) => {
            if let Some(board) = board {
                board.note_lack(true);
            }
        }
        Err(error) => return Err(error),
    }
    Ok(())
}

/// Records what the desk has answered, and tells whom what is kept now concerns beside who made it:
/// nobody where there is no memory for that, who then hear it with the next tick. Before, and after
/// a group that took long, a further word is asked for, if that is due.
fn record<K: OpenJournal, J: Job, R: Wait + Clock, G>(
    worker: &Worker<'_, J, R, G>,
    recorder: &mut Recorder<K, J>,
    bells: &Bells,
) -> Result<Vec<News>, KeepError> {
    bells.words.renew(worker.rt, recorder)?;
    let before = recorder.kept();
    record_or_lack(worker, recorder)?;
    let kept = recorder.kept();
    let mut news = Vec::new(worker.alloc);
    if kept > before && bells.news.are_due(bells, kept) {
        if let Ok(found) = recorder.news_above(worker.rt, worker.alloc, worker.desk, before) {
            news = found;
        }
    }
    bells.words.renew(worker.rt, recorder)?;
    Ok(news)
}

/// The same, told to whoever looks meanwhile.
fn record_told<K: OpenJournal, J: Job, R: Wait + Clock, G>(
    worker: &Worker<'_, J, R, G>,
    recorder: &mut Recorder<K, J>,
    bells: &Bells,
) -> Result<Vec<News>, KeepError> {
    let board = worker.tallies.board();
    if let Some(board) = board {
        board.takes_journal();
    }
    bells.writes.store(true, Ordering::SeqCst);
    let recorded = record(worker, recorder, bells);
    bells.writes.store(false, Ordering::SeqCst);
    if let Some(board) = board {
        board.leaves_journal();
    }
    recorded
}

/// Has an empty group put behind the last one, where that is half a second old, and tells whoever
/// looks meanwhile. Where memory lacks for that, or this moment can't be told, it is tried again
/// later.
fn cover_told<K: OpenJournal, J: Job, R: Clock, G>(
    worker: &Worker<'_, J, R, G>,
    recorder: &mut Recorder<K, J>,
    bells: &Bells,
) -> Result<(), KeepError> {
    let board = worker.tallies.board();
    if let Some(board) = board {
        board.takes_journal();
    }
    bells.writes.store(true, Ordering::SeqCst);
    let covered = recorder.cover_older(worker.rt, worker.alloc);
    bells.writes.store(false, Ordering::SeqCst);
    if let Some(board) = board {
        board.leaves_journal();
        board.has_written(recorder.bytes() as u64);
    }
    match covered {
        Err(KeepError::Memory) => {
            if let Some(board) = board {
                board.note_lack(true);
            }
            Ok(())
        }
        Err(KeepError::Clock) => Ok(()),
        covered => covered,
    }
}

/// Once nobody has the journal's lock any more, wakes those that wait until more is kept, and
/// spreads what is new.
fn spread(bells: &Bells, news: &[News], by: u32) {
    bells.ring_waiting();
    if !news.is_empty() {
        bells.news.spread(bells, news, by);
    }
}

/// Records what the desk has answered, for the worker with this bell, if nobody else does so now.
/// The worker waits no more then.
pub(crate) fn record_alone<K: OpenJournal, J: Job, R: Wait + Clock, G>(
    worker: &Worker<'_, J, R, G>,
    recorder: &Mutex<Recorder<K, J>>,
    bells: &Bells,
    bell: &Bell,
) -> Result<(), KeepError> {
    let Some(mut guard) = recorder.try_lock() else {
        return Ok(());
    };
    let recorded = record_told(worker, &mut *guard, bells);
    drop(guard);
    bell.waits.store(false, Ordering::SeqCst);
    let news = recorded?;
    spread(bells, news.as_slice(), bell.at);
    Ok(())
}

/// What the thread of the journal has: what a worker has of the server, and the journal.
#[derive(Drop)]
pub(crate) struct Scribe<'a, K: OpenJournal, J: Job, R, G> {
    pub(crate) worker: Worker<'a, J, R, G>,
    pub(crate) recorder: &'a Mutex<Recorder<K, J>>,
    pub(crate) bells: &'a Bells,
}

impl<'a, K: OpenJournal, J: Job, R: Wait + Clock, G> Scribe<'a, K, J, R, G> {
    /// Records what the desk has answered.
    fn serve(&self) -> Result<(), KeepError> {
        let mut guard = self.recorder.lock(self.worker.rt);
        let recorded = record_told(&self.worker, &mut *guard, self.bells);
        drop(guard);
        let news = recorded?;
        spread(self.bells, news.as_slice(), NOBODY);
        Ok(())
    }

    /// Whether memory has lacked for a record, which is to be tried again soon.
    fn lacks_memory(&self) -> bool {
        match self.worker.tallies.board() {
            Some(board) => board.lacks_memory(),
            None => false,
        }
    }

    /// For how long it waits to be asked.
    fn patience(&self) -> Duration {
        if self.lacks_memory() {
            Duration::from_millis(LATE_WAIT)
        } else {
            Duration::from_millis(LOOK_WAIT)
        }
    }

    /// Looks whether the journal is where it was, takes the room that a record may need, and has an
    /// empty group put behind the last one, and a further word asked for, if these are due.
    fn look(&self) -> Result<(), KeepError> {
        let mut guard = self.recorder.lock(self.worker.rt);
        let recorder = &mut *guard;
        recorder.look()?;
        prepare(&self.worker, recorder);
        cover_told(&self.worker, recorder, self.bells)?;
        self.bells.words.renew(self.worker.rt, recorder)
    }

    /// Records whenever it is asked to, until the server ends.
    fn serve_all(&self, poll: &mut Poll, events: &mut Events) -> Result<(), KeepError> {
        for _ in self.worker.rt.forever() {
            if poll.poll(events, Some(self.patience())).is_err() {
                return Err(KeepError::Poll);
            }
            if self.bells.ends() {
                return Ok(());
            }
            if events.iter().next().is_some() || self.lacks_memory() {
                self.serve()?;
            } else {
                self.look()?;
                self.bells.ring_waiting();
            }
        }
        unreachable!()
    }

    /// Records whenever it is asked to, until the server ends. A fault ends it.
    pub(crate) fn keep(self, poll: Poll) -> Result<(), KeepError> {
        let mut poll = poll;
        let Ok(mut events) = Events::with_capacity(self.worker.alloc, MOST_EVENTS) else {
            self.bells.end();
            return Err(KeepError::Memory);
        };
        let served = self.serve_all(&mut poll, &mut events);
        if served.is_err() {
            self.bells.end();
        }
        served
    }
}
