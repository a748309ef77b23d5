//! A clock for a session's timers, which doesn't jump where the system's does.

ghost use Rattle.std.specs.Prelude.{◌≡◌, ◌<◌, ◌≤ℤ◌, ◌↔◌, pos, IfSome, IsNone, IsTrue};
ghost use Rattle.std.specs.Prelude.{option_map};
ghost use Rattle.gu_connection.specs.Steady.{drawn, off, most_off};

use jiff::Timestamp;
use std::time::{Clock, Instant};

/// By how many nanoseconds it may be off, for a session that goes on.
const MOST_OFF: u64 = 60_000_000_000;

/// Of what has passed it is drawn towards the wall clock by one part of so many.
const DRAWN_BY: u64 = 10;

/// What a clock told when it was read, in nanoseconds from 1970 on: its own moment, and the wall
/// clock's, or what that is taken to be.
#[derive(Clone, Copy)]
pub(crate) struct Read {
    at: Instant,
    moment: u64,
    wall: u64,
}

/// A clock that begins with the wall clock, and then goes on by what has passed, drawn towards the
/// wall clock by at most a tenth of that. So its moments never fall.
#[derive(Drop)]
pub struct SteadyClock {
    /// When it was read last.
    last: Option<Read>,
    /// Whether that moment has served one step alone, so that it may serve the next one too.
    serves: bool,
}

/// The moment behind another one, so many nanoseconds later, where the wall clock tells this.
fn drawn_towards(before: u64, passed: u64, wall: u64) -> u128
    ensures { result ≡ drawn before passed wall }
{
    let due = u128::from(before) + u128::from(passed);
    let most = u128::from(passed / DRAWN_BY);
    u128::from(wall).clamp(due - most, due + most)
}

/// The moment so many nanoseconds behind a reading, where the wall clock tells this. None where it
/// is too far from 1970.
fn moment_behind(last: &Read, passed: u64, wall: u64) -> Option<u64>
    ensures { IfSome result (λ m. pos last.now.moment ≤ℤ pos m) }
{
    u64::try_from(drawn_towards(last.moment, passed, wall)).ok()
}

/// How many nanoseconds have passed since a reading.
fn passed_since(last: &Read, at: Instant) -> Option<u64> {
    u64::try_from(at.duration_since(last.at).as_nanos()).ok()
}

/// The moment at a reading of the clocks, behind the last one. None where it is too far from 1970.
fn moment_at(last: &Option<Read>, at: Instant, wall: u64) -> Option<u64>
    ensures { IfSome result (λ m. IfSome last.now (λ r. pos r.moment ≤ℤ pos m)) }
{
    match last {
        Some(last) => moment_behind(last, passed_since(last, at)?, wall),
        None => Some(wall),
    }
}

/// The nanoseconds from 1970 on that the wall clock tells, if it tells a moment of five centuries
/// from there.
fn wall_now<R: Clock>(rt: &R) -> Option<u64> {
    let nanos = Timestamp::now(rt).ok()?.as_nanosecond();
    u64::try_from(nanos).ok()
}

impl SteadyClock {
    /// One that hasn't been read.
    pub fn new() -> SteadyClock
        ensures { IsNone result.last }
    {
        SteadyClock {
            last: None,
            serves: false,
        }
    }

    /// Notes this moment, at a reading of the clocks, and tells it. None, and nothing has changed,
    /// where it is too far from 1970.
    fn tell(&mut self, at: Instant, moment: u64, wall: u64) -> Option<Timestamp>
        requires { IfSome self.old.last (λ r. pos r.moment ≤ℤ pos moment) }
        ensures since_1970 { IfSome result (λ t. pos 0 ≤ℤ t.nanosecond) }
        ensures rises { IfSome result
            (λ t. IfSome self.old.last (λ r. pos r.moment ≤ℤ t.nanosecond)) }
        ensures told { IfSome result
            (λ t. IfSome self.new.last (λ r. t.nanosecond ≡ pos r.moment)) }
    {
        let told = Timestamp::from_nanosecond(i128::from(moment)).ok()?;
        self.last = Some(Read { at, moment, wall });
        self.serves = true;
        Some(told)
    }

    /// The moment now. None, and nothing has changed, where a clock can't be told.
    pub fn now<R: Clock>(&mut self, rt: &R) -> Option<Timestamp>
        ensures since_1970 { IfSome result (λ t. pos 0 ≤ℤ t.nanosecond) }
        ensures rises { IfSome result
            (λ t. IfSome self.old.last (λ r. pos r.moment ≤ℤ t.nanosecond)) }
        ensures told { IfSome result
            (λ t. IfSome self.new.last (λ r. t.nanosecond ≡ pos r.moment)) }
    {
        let at = Instant::now(rt).ok()?;
        let wall = wall_now(rt)?;
        let moment = moment_at(&self.last, at, wall)?;
        self.tell(at, moment, wall)
    }

    /// The moment now, shortly behind another one: the wall clock isn't read, but taken to have
    /// gone on by what has passed. None, and nothing has changed, where the other clock can't be
    /// told.
    pub(crate) fn later<R: Clock>(&mut self, rt: &R) -> Option<Timestamp>
        ensures since_1970 { IfSome result (λ t. pos 0 ≤ℤ t.nanosecond) }
        ensures rises { IfSome result
            (λ t. IfSome self.old.last (λ r. pos r.moment ≤ℤ t.nanosecond)) }
        ensures told { IfSome result
            (λ t. IfSome self.new.last (λ r. t.nanosecond ≡ pos r.moment)) }
    {
        let Some(last) = self.last else {
            return self.now(rt);
        };
        let at = Instant::now(rt).ok()?;
        let passed = passed_since(&last, at)?;
        let wall = last.wall.checked_add(passed)?;
        let moment = moment_behind(&last, passed, wall)?;
        self.tell(at, moment, wall)
    }

    /// The moment for a message: the one that was told last, where the step before has read the
    /// clock, unless that is long ago; else the moment now. None, and nothing has changed of its
    /// readings, where a clock can't be told.
    pub(crate) fn for_message<R: Clock>(&mut self, rt: &R, is_long_ago: bool) -> Option<Timestamp>
        ensures since_1970 { IfSome result (λ t. pos 0 ≤ℤ t.nanosecond) }
        ensures rises { IfSome result
            (λ t. IfSome self.old.last (λ r. pos r.moment ≤ℤ t.nanosecond)) }
        ensures told { IfSome result
            (λ t. IfSome self.new.last (λ r. t.nanosecond ≡ pos r.moment)) }
    {
        let serves = self.serves && !is_long_ago;
        if serves {
            if let Some(last) = self.last {
                self.serves = false;
                return Timestamp::from_nanosecond(i128::from(last.moment)).ok();
            }
        }
        let told = self.now(rt);
        self.serves = false;
        told
    }

    /// When it was read last.
    pub(crate) fn read_at(&self) -> Option<Instant>
        ensures { result ≡ option_map (λ r. r.at) self.now.last }
    {
        match &self.last {
            Some(last) => Some(last.at),
            None => None,
        }
    }

    /// By how many nanoseconds it was off when it was read last.
    pub fn off(&self) -> u64
        ensures { result ≡ off self.now.last }
    {
        match &self.last {
            Some(last) => last.wall.abs_diff(last.moment),
            None => 0,
        }
    }

    /// Whether the wall clock was ahead of it then.
    pub fn is_behind(&self) -> bool {
        match &self.last {
            Some(last) => last.moment < last.wall,
            None => false,
        }
    }

    /// Whether it was off by more than a session outlives.
    pub fn has_stepped(&self) -> bool
        ensures { IsTrue result ↔ (most_off < off self.now.last) }
    {
        self.off() > MOST_OFF
    }
}
