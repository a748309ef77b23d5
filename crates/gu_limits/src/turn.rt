//! How much a turn of a connection takes.

ghost use Rattle.std.specs.Prelude.{◌≡◌};
ghost use Rattle.gu_limits.specs.Turn.{is_spent as is_spent_of, share_left as share_left_of};

/// How many messages a turn takes at the most.
const MOST_MESSAGES: u64 = 64;

/// For how many microseconds the connections of a firm take messages in a round.
const SHARE: u64 = 1_000;

/// Whether a turn is over that has taken so many messages, and these of its microseconds.
pub fn is_spent(count: u64, used: u64, most: u64) -> bool
    ensures { result ≡ is_spent_of count used most }
{
    count >= MOST_MESSAGES || (count > 0 && used >= most)
}

/// How many microseconds a firm has left in a round in which it has used so many.
pub fn share_left(used: u64) -> u64
    ensures { result ≡ share_left_of used }
{
    SHARE.saturating_sub(used)
}
