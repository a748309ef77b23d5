//! The lines of the table for a message after the Logon.

ghost use Rattle.std.specs.Prelude.{◌≡◌};
ghost use Rattle.gu_session.specs.Table.{reset_to as reset_to_of};
ghost use Rattle.gu_session.specs.Table.{line_by_number as line_by_number_of};
ghost use Rattle.gu_session.specs.Table.{line_of as line_of_table};

use crate::link::LinkState;
use gu_base::FirmId;
use gu_message::{Heading, Inbound, Reject};

/// The lines of the table for a message after the Logon, in their order: the first that holds
/// decides.
#[derive(Clone, Copy)]
pub enum TableLine {
    /// The sender isn't the session's firm, the target isn't the house, or the number can't be
    /// read.
    BadHeader,
    /// A SequenceReset without GapFillFlag (123) Y, whatever its number.
    Reset { next: u32 },
    /// The number is below the expected one, and the message may have come before.
    Duplicate,
    /// The number is below the expected one.
    TooLow,
    /// The number of a Logout is above the expected one.
    LogoutAbove,
    /// The number is above the expected one.
    Gap { number: u32 },
    /// The number is the expected one.
    Expected { number: u32 },
}

/// NewSeqNo (36) of a SequenceReset without GapFillFlag (123) Y.
fn reset_to(meaning: &Result<Inbound, Reject>) -> Option<u32>
    ensures { result ≡ reset_to_of meaning.now }
{
    match meaning {
        Ok(Inbound::SequenceReset { gap_fill, next }) => {
            if *gap_fill { None } else { Some(*next) }
        }
        _ => None,
    }
}

/// The line of a message whose header is the session's.
fn line_by_number(
    link: &LinkState,
    heading: Heading,
    reset: Option<u32>,
    is_logout: bool,
) -> TableLine
    ensures { result ≡ line_by_number_of link.now heading reset is_logout }
{
    if let Some(next) = reset {
        TableLine::Reset { next }
    } else if heading.number < link.expected && heading.poss_dup {
        TableLine::Duplicate
    } else if heading.number < link.expected {
        TableLine::TooLow
    } else if link.expected < heading.number && is_logout {
        TableLine::LogoutAbove
    } else if link.expected < heading.number {
        TableLine::Gap {
            number: heading.number,
        }
    } else {
        TableLine::Expected {
            number: heading.number,
        }
    }
}

/// The first line that holds of a message after the Logon of this firm.
pub fn line_of(
    link: &LinkState,
    firm: FirmId,
    heading: Result<Heading, Reject>,
    meaning: &Result<Inbound, Reject>,
    is_logout: bool,
) -> TableLine
    ensures { result ≡ line_of_table link.now firm heading meaning.now is_logout }
{
    match heading {
        Err(_) => TableLine::BadHeader,
        Ok(heading) => {
            if heading.firm == firm {
                line_by_number(link, heading, reset_to(meaning), is_logout)
            } else {
                TableLine::BadHeader
            }
        }
    }
}
