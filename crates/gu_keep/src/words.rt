//! The words of the other machines that the server may go on, where there are such: without one
//! nobody is told anything.

ghost use Rattle.std.specs.Prelude.{◌≡◌, ◌+◌, ◌≤◌, ◌<◌, ◌↔◌, true, IsTrue};

use gu_command::KeepError;
use gu_desk::Job;
use gu_recorder::{OpenJournal, Recorder};
use std::sync::atomic::{AtomicU64, Ordering};
use std::time::{Clock, Instant};

/// After how many milliseconds the next word is asked for.
const ASKED_EACH: u64 = 3_000;

/// For how many milliseconds a word counts, from when it was asked for.
const COUNTS_FOR: u64 = 9_000;

/// When the last word was asked for that came.
#[derive(Drop)]
pub(crate) struct Words {
    /// Whether there are other machines.
    are_needed: bool,
    start: Instant,
    /// In milliseconds, as `now` has it.
    asked: AtomicU64,
}

/// Whether a word that was asked for at one moment counts at another.
fn counts(asked: u64, now: u64) -> bool
    ensures { IsTrue result ↔ (now < asked + 9000) }
{
    now.saturating_sub(asked) < COUNTS_FOR
}

/// Whether a further word is to be asked for.
fn is_due(asked: u64, now: u64) -> bool
    ensures { IsTrue result ↔ (asked + 3000 ≤ now) }
{
    now.saturating_sub(asked) >= ASKED_EACH
}

impl Words {
    /// No word yet.
    pub(crate) fn new<R: Clock>(rt: &R, are_needed: bool) -> Result<Words, KeepError> {
        match Instant::now(rt) {
            Ok(start) => Ok(Words {
                are_needed,
                start,
                asked: AtomicU64::new(0),
            }),
            Err(_) => Err(KeepError::Clock),
        }
    }

    /// The milliseconds since the start, and so many more that no word counts at first.
    fn now<R: Clock>(&self, rt: &R) -> Result<u64, KeepError> {
        match self.start.elapsed(rt) {
            Ok(passed) => {
                let millis = passed.as_millis().min(u128::from(u64::MAX)) as u64;
                Ok(millis.saturating_add(COUNTS_FOR))
            }
            Err(_) => Err(KeepError::Clock),
        }
    }

    /// Whether a further word is to be asked for.
    pub(crate) fn are_due<R: Clock>(&self, rt: &R) -> Result<bool, KeepError> {
        Ok(self.are_needed && is_due(self.asked.load(Ordering::SeqCst), self.now(rt)?))
    }

    /// Whether the last word counts, or none is needed.
    pub(crate) fn count<R: Clock>(&self, rt: &R) -> Result<bool, KeepError> {
        Ok(!self.are_needed || counts(self.asked.load(Ordering::SeqCst), self.now(rt)?))
    }

    /// Has a further word asked for, if that is due.
    pub(crate) fn renew<K: OpenJournal, J: Job, R: Clock>(
        &self,
        rt: &R,
        recorder: &mut Recorder<K, J>,
    ) -> Result<(), KeepError>
        ensures seen { recorder.new.seen ≡ recorder.old.seen }
        ensures kept { recorder.new.kept ≡ recorder.old.kept }
    {
        if !self.are_needed || !self.are_due(rt)? {
            return Ok(());
        }
        let now = self.now(rt)?;
        recorder.ask()?;
        self.asked.store(now, Ordering::SeqCst);
        Ok(())
    }
}
