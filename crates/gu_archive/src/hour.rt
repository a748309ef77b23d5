//! The moment of a line, and the hour whose file it stands in.

ghost use Rattle.std.specs.Prelude.{◌≡◌, ◌<◌};

use crate::error::ArchiveError;
use gu_message::SendingTime;
use jiff::Timestamp;
use std::time::Clock;

/// How many bytes the text of a moment has: `20260302-09:00:00.123456`.
pub(crate) const MOMENT_LEN: usize = 24;

/// How many of them name its hour: `20260302-09`.
const HOUR_LEN: usize = 11;

/// A moment from 1970 to 9999 in UTC, as a line begins with it, with microseconds.
#[derive(Clone, Copy)]
pub(crate) struct Moment {
    text: [u8; MOMENT_LEN],
    /// In which hour since 1970 it lies.
    pub(crate) hour: u64,
}

const NANOS_OF_HOUR: u64 = 3_600_000_000_000;

/// The digit of a number at a unit.
fn digit(number: u64, unit: u64) -> u8
    requires { 0 < unit }
{
    b'0' + (number / unit % 10) as u8
}

impl Moment {
    /// This moment. None where it is before 1970.
    pub(crate) fn of(moment: Timestamp) -> Option<Moment> {
        let nanos = u64::try_from(moment.as_nanosecond()).ok()?;
        let shown = SendingTime::new(moment);
        let mut text = [b'0'; MOMENT_LEN];
        for (to, from) in text.iter_mut().zip(shown.as_bytes()) {
            *to = *from;
        }
        let micros = nanos / 1000;
        text[21] = digit(micros, 100);
        text[22] = digit(micros, 10);
        text[23] = digit(micros, 1);
        let hour = nanos / NANOS_OF_HOUR;
        Some(Moment { text, hour })
    }

    /// The moment now.
    pub(crate) fn now<R: Clock>(rt: &R) -> Result<Moment, ArchiveError> {
        Moment::ahead(rt, 0)
    }

    /// The moment in so many seconds.
    pub(crate) fn ahead<R: Clock>(rt: &R, seconds: i64) -> Result<Moment, ArchiveError> {
        let Ok(now) = Timestamp::now(rt) else {
            return Err(ArchiveError::Clock);
        };
        let second = now.as_second().saturating_add(seconds);
        let Ok(moment) = Timestamp::new(second, now.subsec_nanosecond()) else {
            return Err(ArchiveError::Clock);
        };
        match Moment::of(moment) {
            Some(moment) => Ok(moment),
            None => Err(ArchiveError::Clock),
        }
    }

    /// The text that a line begins with.
    pub(crate) fn as_bytes(&self) -> &[u8]
        ensures { result.now ≡ self.now.text }
    {
        &self.text
    }

    /// The name of its hour: `YYYYMMDD-HH`.
    pub(crate) fn hour_name(&self) -> [u8; HOUR_LEN] {
        let [a, b, c, d, e, f, g, h, i, j, k, ..] = self.text;
        [a, b, c, d, e, f, g, h, i, j, k]
    }
}
