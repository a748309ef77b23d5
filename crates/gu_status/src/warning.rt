//! When an operator is warned that something is nearly full.

ghost use Rattle.std.specs.Prelude.{◌≡◌};
ghost use Rattle.gu_status.specs.Warning.{crosses, mark_passed};

/// Whether a count has passed so many percent of the most that it may be.
fn crosses(percent: u32, before: u32, after: u32, most: u32) -> bool
    ensures { result ≡ crosses percent before after most }
{
    let mark = u64::from(most) * u64::from(percent);
    u64::from(before) * 100 < mark && mark <= u64::from(after) * 100
}

/// Which mark a count has passed as it went from `before` to `after`: 90 percent of the most that
/// it may be, or 80; the higher one, if it has passed both.
pub fn mark_passed(before: u32, after: u32, most: u32) -> Option<u32>
    ensures { result ≡ mark_passed before after most }
{
    if crosses(90, before, after, most) {
        Some(90)
    } else if crosses(80, before, after, most) {
        Some(80)
    } else {
        None
    }
}
