//! What a journal adds to what its messages say, beside the moment.

ghost use Rattle.std.specs.Prelude.{◌≡◌, ◌↔◌, IsTrue, nat_lt};
ghost use Rattle.std.specs.List.{list_all};
ghost use Rattle.gu_journal.specs.Groups.{IsMoment};

use gu_base::FirmId;
use gu_codec::is_text;
use gu_message::is_timestamp;

/// Who keeps the journal, and a number.
#[derive(Clone, Copy)]
pub(crate) struct Stamp {
    /// The house: SenderCompID (49) of its own messages, TargetCompID (56) of all.
    pub(crate) house: FirmId,
    /// MsgSeqNum (34): the number of an entry, or of the next one.
    pub(crate) number: u32,
}

/// Whether none of the bytes is zero.
fn has_no_zero(bytes: &[u8]) -> bool
    ensures { result ≡ list_all (nat_lt 0) bytes.now }
{
    bytes.iter().all(|byte| 0 < *byte)
}

/// Whether a moment may stand in a message: a timestamp of 1 to 24 bytes, none of which is zero.
pub(crate) fn is_moment(moment: &[u8]) -> bool
    ensures { IsTrue result ↔ IsMoment moment.now }
{
    is_timestamp(moment) && is_text(moment) && has_no_zero(moment)
}
