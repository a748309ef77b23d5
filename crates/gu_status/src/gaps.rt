//! When an operator is told of messages that lack.

ghost use Rattle.std.specs.Prelude.{◌≡◌};
ghost use Rattle.gu_status.specs.Gaps.{is_due, seen_gap};

/// For how many seconds a gap may be open before it is told.
const MOST_UNTOLD: u64 = 30;

/// After how many seconds it is told again.
const TOLD_EACH: u64 = 300;

/// A gap in the messages of a connection, as it was last seen.
#[derive(Clone, Copy, Debug)]
pub struct SeenGap {
    /// The second in which it was first seen.
    pub since: u64,
    /// The highest number of the messages that were dropped for it.
    pub highest: u32,
    /// The second in which it was last told, if it was.
    pub told: Option<u64>,
}

/// What is seen in this second of a gap whose first message lacks that has this number, where this
/// was seen before. It is the same gap, if some of what lacked then still lacks.
pub fn seen_gap(before: Option<SeenGap>, expected: u32, highest: u32, second: u64) -> SeenGap
    ensures { result ≡ seen_gap before expected highest second }
{
    match before {
        Some(before) if expected <= before.highest => SeenGap { highest, ..before },
        _ => SeenGap {
            since: second,
            highest,
            told: None,
        },
    }
}

/// Whether a gap is to be told in this second: it has been open for 30 seconds, or it was told
/// five minutes ago.
pub fn is_due(gap: &SeenGap, second: u64) -> bool
    ensures { result ≡ is_due gap.now second }
{
    match gap.told {
        None => second.saturating_sub(gap.since) >= MOST_UNTOLD,
        Some(told) => second.saturating_sub(told) >= TOLD_EACH,
    }
}
