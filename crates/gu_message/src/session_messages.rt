//! The messages of the session: Logon, Heartbeat, TestRequest, ResendRequest, Reject, SequenceReset
//! and Logout.

ghost use Rattle.std.specs.Prelude.{◌≡◌};
ghost use Rattle.gu_message.specs.Checks.{count_in as count_in_of};
ghost use Rattle.gu_message.specs.SessionMessages.{flag_of, flag_in as flag_in_of, logon_of};
ghost use Rattle.gu_message.specs.SessionMessages.{test_request_of, resend_request_of};
ghost use Rattle.gu_message.specs.SessionMessages.{sequence_reset_of, session_message_of};

use crate::fault::Reject;
use crate::inbound::Inbound;
use crate::index::Index;
use crate::msg_types;
use crate::test_req_id::TestReqId;
use crate::values::{YES, count};
use gu_codec::tags;

/// EncryptMethod (98) of a session without encryption.
const NO_ENCRYPTION: &[u8] = b"0";

/// DefaultApplVerID (1137) of FIX 5.0 SP2.
const FIX50SP2: &[u8] = b"9";

/// A flag that isn't set.
const NO: &[u8] = b"N";

/// The value of a flag.
#[tactic(auto, unfolding(crate::specs::SessionMessages::flag_of))]
fn flag(text: &[u8]) -> Option<bool>
    ensures { result ≡ flag_of text.now }
{
    if text == YES {
        Some(true)
    } else if text == NO {
        Some(false)
    } else {
        None
    }
}

/// A flag that may be missing, and then counts as `N`.
fn flag_in(message: &Index<'_, '_>, tag: u32) -> Result<bool, Reject>
    ensures { result ≡ flag_in_of tag message.now }
{
    match message.first(tag) {
        None => Ok(false),
        Some(text) => match flag(text) {
            Some(flag) => Ok(flag),
            None => Err(Reject::bad_kind(tag)),
        },
    }
}

/// A field that is a count.
#[tactic(auto, unfolding(crate::specs::Checks::count_in))]
fn count_in(message: &Index<'_, '_>, tag: u32) -> Result<u32, Reject>
    ensures { result ≡ count_in_of tag message.now }
{
    let text = message.needed(tag)?;
    match count(text) {
        Some(count) => Ok(count),
        None => Err(Reject::bad_kind(tag)),
    }
}

/// A Logon (A): EncryptMethod (98), HeartBtInt (108), DefaultApplVerID (1137), and perhaps
/// ResetSeqNumFlag (141).
#[tactic(auto, unfolding(crate::specs::SessionMessages::logon_of))]
fn logon(message: &Index<'_, '_>) -> Result<Inbound, Reject>
    ensures { result ≡ logon_of message.now }
{
    let method = message.needed(tags::ENCRYPT_METHOD)?;
    if method != NO_ENCRYPTION {
        return Err(Reject::bad_value(tags::ENCRYPT_METHOD));
    }
    let heartbeat = count_in(message, tags::HEART_BT_INT)?;
    let version = message.needed(tags::DEFAULT_APPL_VER_ID)?;
    if version != FIX50SP2 {
        return Err(Reject::bad_value(tags::DEFAULT_APPL_VER_ID));
    }
    let reset = flag_in(message, tags::RESET_SEQ_NUM_FLAG)?;
    Ok(Inbound::Logon { heartbeat, reset })
}

/// A TestRequest (1): TestReqID (112).
#[tactic(auto, unfolding(crate::specs::SessionMessages::test_request_of))]
fn test_request(message: &Index<'_, '_>) -> Result<Inbound, Reject>
    ensures { result ≡ test_request_of message.now }
{
    let text = message.needed(tags::TEST_REQ_ID)?;
    match TestReqId::new(text) {
        Some(id) => Ok(Inbound::TestRequest { id }),
        None => Err(Reject::bad_value(tags::TEST_REQ_ID)),
    }
}

/// A ResendRequest (2): BeginSeqNo (7) and EndSeqNo (16).
#[tactic(auto, unfolding(crate::specs::SessionMessages::resend_request_of))]
fn resend_request(message: &Index<'_, '_>) -> Result<Inbound, Reject>
    ensures { result ≡ resend_request_of message.now }
{
    let from = count_in(message, tags::BEGIN_SEQ_NO)?;
    if from == 0 {
        return Err(Reject::bad_value(tags::BEGIN_SEQ_NO));
    }
    let to = count_in(message, tags::END_SEQ_NO)?;
    Ok(Inbound::ResendRequest { from, to })
}

/// A SequenceReset (4): perhaps GapFillFlag (123), and NewSeqNo (36).
#[tactic(auto, unfolding(crate::specs::SessionMessages::sequence_reset_of))]
fn sequence_reset(message: &Index<'_, '_>) -> Result<Inbound, Reject>
    ensures { result ≡ sequence_reset_of message.now }
{
    let gap_fill = flag_in(message, tags::GAP_FILL_FLAG)?;
    let next = count_in(message, tags::NEW_SEQ_NO)?;
    Ok(Inbound::SequenceReset { gap_fill, next })
}

/// What a message of this type means, where the type is one of the session's.
#[tactic(auto, unfolding(crate::specs::SessionMessages::session_message_of))]
pub fn session_message(kind: &[u8], message: &Index<'_, '_>) -> Result<Inbound, Reject>
    ensures { result ≡ session_message_of kind.now message.now }
{
    if kind == msg_types::HEARTBEAT {
        Ok(Inbound::Heartbeat)
    } else if kind == msg_types::TEST_REQUEST {
        test_request(message)
    } else if kind == msg_types::RESEND_REQUEST {
        resend_request(message)
    } else if kind == msg_types::REJECT {
        Ok(Inbound::Reject)
    } else if kind == msg_types::SEQUENCE_RESET {
        sequence_reset(message)
    } else if kind == msg_types::LOGOUT {
        Ok(Inbound::Logout)
    } else if kind == msg_types::LOGON {
        logon(message)
    } else {
        Err(Reject::bad_type())
    }
}
