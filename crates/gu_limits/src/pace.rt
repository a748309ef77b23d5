//! Until when a firm has had its rate, as a moment in nanoseconds, so that several workers count at
//! once.

ghost use Rattle.std.specs.Prelude.{◌≡◌};
ghost use Rattle.gu_limits.specs.Pace.{is_ahead as is_ahead_of, counted as counted_of};

/// How many nanoseconds a second has.
const SECOND: u64 = 1_000_000_000;

/// How far ahead of the clock a firm may be: an eighth of a second, in nanoseconds.
const AHEAD: u64 = 125_000_000;

/// Whether a firm that has had its rate until the one moment has no more at the other.
pub fn is_ahead(until: u64, now: u64) -> bool
    ensures { result ≡ is_ahead_of until now }
{
    until.saturating_sub(now) > AHEAD
}

/// Until when a firm has had its rate that had it until the one moment, once so many messages are
/// counted at the other. At least the time of one message; all where that is more than 2^64 - 1.
pub fn counted(until: u64, now: u64, rate: u32, count: u64) -> u64
    ensures { result ≡ counted_of until now rate count }
{
    let each = SECOND / u64::from(rate.max(1));
    until.max(now).saturating_add(count.saturating_mul(each))
}
