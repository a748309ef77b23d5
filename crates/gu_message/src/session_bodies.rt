//! The bodies of the session's messages (`docs/profile.md`, "Its messages").

ghost use Rattle.std.specs.Prelude.{◌≡◌, ◌≤◌, ◌++◌, OnOk, OnErr, codes, length};
ghost use Rattle.gu_codec.specs.Answer.{pairs};
ghost use Rattle.gu_codec.specs.Tags as tag;
ghost use Rattle.gu_codec.specs.Writing.{fields_text};
ghost use Rattle.gu_message.specs.Finding.{value_of, equals_text};
ghost use Rattle.gu_message.specs.SessionBodies.{reset_fields, logon_fields, heartbeat_fields};
ghost use Rattle.gu_message.specs.SessionBodies.{test_request_fields, resend_request_fields};
ghost use Rattle.gu_message.specs.SessionBodies.{sequence_reset_fields, logout_text, logout_fields};

use crate::bodies::{ROOM, append_number_field, append_number_text};
use crate::finding::has_value;
use crate::msg_types;
use crate::test_req_id::TestReqId;
use gu_base::Memory;
use gu_codec::{Fields, append_field, tags};

/// Why the service ends a session: Text (58) of its Logout (`docs/profile.md`, "The session").
#[derive(Clone, Copy, PartialEq, Eq)]
pub enum LogoutText {
    /// `bad header`: SenderCompID (49), TargetCompID (56) or MsgSeqNum (34) is missing or isn't
    /// that of the connection.
    BadHeader,
    /// `sequence number too low, expected n`: MsgSeqNum (34) is below `expected`, and PossDupFlag
    /// (43) isn't `Y`.
    NumberTooLow { expected: u32 },
    /// `second logon`: a Logon came in a session that is open.
    SecondLogon,
    /// `no heartbeat`: nothing came for three times HeartBtInt (108).
    NoHeartbeat,
}

/// Appends the body of a Logon (A): EncryptMethod (98) 0, HeartBtInt (108) in seconds,
/// DefaultApplVerID (1137) 9, and where `reset` is true ResetSeqNumFlag (141) Y.
///
/// # Errors
///
/// `Memory` where the room was refused; `out` is then as it was.
pub fn logon(out: &mut Vec<u8>, heartbeat: u32, reset: bool) -> Result<(), Memory>
    ensures ok { OnOk result
        (out.new.items ≡ out.old.items ++ fields_text (logon_fields heartbeat reset)) }
    ensures err { OnErr result (out.new.items ≡ out.old.items) }
    ensures short { OnOk result (length (fields_text (logon_fields heartbeat reset)) ≤ 256) }
{
    out.reserve(ROOM)?;
    append_field(out, tags::ENCRYPT_METHOD, b"0");
    append_number_field(out, tags::HEART_BT_INT, heartbeat);
    append_field(out, tags::DEFAULT_APPL_VER_ID, b"9");
    if reset {
        append_field(out, tags::RESET_SEQ_NUM_FLAG, b"Y");
    }
    Ok(())
}

/// Appends the body of a Heartbeat (0): the TestReqID (112) of the TestRequest that it answers, or
/// nothing where it answers none.
///
/// # Errors
///
/// `Memory` where the room was refused; `out` is then as it was.
pub fn heartbeat(out: &mut Vec<u8>, answered: Option<TestReqId>) -> Result<(), Memory>
    ensures ok { OnOk result
        (out.new.items ≡ out.old.items ++ fields_text (heartbeat_fields answered)) }
    ensures err { OnErr result (out.new.items ≡ out.old.items) }
    ensures short { OnOk result (length (fields_text (heartbeat_fields answered)) ≤ 256) }
{
    out.reserve(ROOM)?;
    if let Some(id) = answered {
        append_field(out, tags::TEST_REQ_ID, id.as_bytes());
    }
    Ok(())
}

/// Appends the body of a TestRequest (1): TestReqID (112) `TEST`.
///
/// # Errors
///
/// `Memory` where the room was refused; `out` is then as it was.
pub fn test_request(out: &mut Vec<u8>) -> Result<(), Memory>
    ensures ok { OnOk result (out.new.items ≡ out.old.items ++ fields_text test_request_fields) }
    ensures err { OnErr result (out.new.items ≡ out.old.items) }
    ensures short { OnOk result (length (fields_text test_request_fields) ≤ 256) }
{
    out.reserve(ROOM)?;
    append_field(out, tags::TEST_REQ_ID, b"TEST");
    Ok(())
}

/// Appends the body of a ResendRequest (2) for all messages from this number on: BeginSeqNo (7),
/// and EndSeqNo (16) 0.
///
/// # Errors
///
/// `Memory` where the room was refused; `out` is then as it was.
pub fn resend_request(out: &mut Vec<u8>, from: u32) -> Result<(), Memory>
    ensures ok { OnOk result
        (out.new.items ≡ out.old.items ++ fields_text (resend_request_fields from)) }
    ensures err { OnErr result (out.new.items ≡ out.old.items) }
    ensures short { OnOk result (length (fields_text (resend_request_fields from)) ≤ 256) }
{
    out.reserve(ROOM)?;
    append_number_field(out, tags::BEGIN_SEQ_NO, from);
    append_field(out, tags::END_SEQ_NO, b"0");
    Ok(())
}

/// Appends the body of a SequenceReset (4) that fills a gap up to this number, which is the next:
/// GapFillFlag (123) Y and NewSeqNo (36).
///
/// # Errors
///
/// `Memory` where the room was refused; `out` is then as it was.
pub fn sequence_reset(out: &mut Vec<u8>, next: u32) -> Result<(), Memory>
    ensures ok { OnOk result
        (out.new.items ≡ out.old.items ++ fields_text (sequence_reset_fields next)) }
    ensures err { OnErr result (out.new.items ≡ out.old.items) }
    ensures short { OnOk result (length (fields_text (sequence_reset_fields next)) ≤ 256) }
{
    out.reserve(ROOM)?;
    append_field(out, tags::GAP_FILL_FLAG, b"Y");
    append_number_field(out, tags::NEW_SEQ_NO, next);
    Ok(())
}

/// Appends the body of a Logout (5): Text (58) with this reason, or nothing.
///
/// # Errors
///
/// `Memory` where the room was refused; `out` is then as it was.
pub fn logout(out: &mut Vec<u8>, text: Option<LogoutText>) -> Result<(), Memory>
    ensures ok { OnOk result (out.new.items ≡ out.old.items ++ fields_text (logout_fields text)) }
    ensures err { OnErr result (out.new.items ≡ out.old.items) }
    ensures short { OnOk result (length (fields_text (logout_fields text)) ≤ 256) }
{
    out.reserve(ROOM)?;
    match text {
        None => {}
        Some(LogoutText::BadHeader) => append_field(out, tags::TEXT, b"bad header"),
        Some(LogoutText::NumberTooLow { expected }) => {
            append_number_text(out, b"sequence number too low, expected ", expected)
        }
        Some(LogoutText::SecondLogon) => append_field(out, tags::TEXT, b"second logon"),
        Some(LogoutText::NoHeartbeat) => append_field(out, tags::TEXT, b"no heartbeat"),
    }
    Ok(())
}

/// Whether a message is a Logout: its first MsgType (35) is `5`, whatever else is in it.
pub fn is_logout(fields: Fields<'_>) -> bool
    ensures { result ≡ equals_text (codes "5") (value_of tag.msg_type (pairs fields.entry)) }
{
    has_value(fields, tags::MSG_TYPE, msg_types::LOGOUT)
}
