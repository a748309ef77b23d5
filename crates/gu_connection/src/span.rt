//! How long a turn of `keep` takes messages.

ghost use Rattle.std.specs.Prelude.{IsTrue, is_some};

use gu_limits::is_spent;
use std::time::Instant;

/// How long a turn takes messages: for so many microseconds from its start on.
#[derive(Clone, Copy)]
pub struct Span {
    pub start: Instant,
    pub micros: u64,
}

/// How many microseconds there are from one moment to a later one; all where that is more than
/// 2^64 - 1.
pub fn micros_between(start: Instant, end: Instant) -> u64 {
    end.duration_since(start)
        .as_micros()
        .min(u128::from(u64::MAX)) as u64
}

impl Span {
    /// How many microseconds of it are over then. All, where that isn't known.
    pub fn used_at(&self, at: Option<Instant>) -> u64 {
        match at {
            Some(at) => micros_between(self.start, at),
            None => u64::MAX,
        }
    }
}

/// Whether a turn that has taken so many messages takes no further one, where its clock was read
/// then for the last one. A turn without a span takes all.
pub(crate) fn is_over(span: Option<Span>, count: usize, at: Option<Instant>) -> bool
    ensures { IsTrue result → IsTrue (is_some span) }
{
    match span {
        Some(span) => count > 0 && is_spent(count as u64, span.used_at(at), span.micros),
        None => false,
    }
}
