//! The parts of a server, and which of them stands still.

ghost use Rattle.std.specs.Prelude.{◌≡◌};
ghost use Rattle.gu_status.specs.Parts.{first_late, first_stuck, is_late};

/// A part of a server that has to move.
#[derive(Clone, Copy, Debug, PartialEq, Eq)]
pub enum Part {
    /// The lock of the journal: whoever has it commits.
    Journal,
    /// The thread that accepts connections.
    Acceptor,
    /// The worker of this number, from 0 on.
    Worker(usize),
    /// The wall clock, which can't be told.
    Clock,
}

/// When the parts moved last, in seconds from the start of the server.
#[derive(Clone, Copy)]
pub struct Pulses<'a> {
    /// Since when the journal's lock is held, if somebody has it.
    pub journal: Option<u64>,
    /// When the thread that accepts had its last turn, and each worker.
    pub acceptor: u64,
    pub workers: &'a [u64],
}

/// Whether so many seconds are over since a moment.
fn is_late(at: u64, now: u64, most: u64) -> bool
    ensures { result ≡ is_late now most at }
{
    now.saturating_sub(at) >= most
}

/// The first of the workers that hasn't moved for so many seconds.
fn first_late(workers: &[u64], now: u64, most: u64) -> Option<usize>
    ensures { result ≡ first_late now most 0 workers.now }
{
    let mut number = 0;
    for at in workers {
        if is_late(*at, now, most) {
            return Some(number);
        }
        number += 1;
    }
    None
}

/// The first part of a server that hasn't moved for so many seconds: the journal, the thread that
/// accepts, then the workers by their numbers.
pub fn stuck(pulses: &Pulses<'_>, now: u64, most: u64) -> Option<Part>
    ensures { result ≡ first_stuck now most pulses.now }
{
    if let Some(since) = pulses.journal {
        if is_late(since, now, most) {
            return Some(Part::Journal);
        }
    }
    if is_late(pulses.acceptor, now, most) {
        return Some(Part::Acceptor);
    }
    match first_late(pulses.workers, now, most) {
        Some(number) => Some(Part::Worker(number)),
        None => None,
    }
}
