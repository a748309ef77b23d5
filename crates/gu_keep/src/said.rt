//! What the first message of a connection and the last one to it say: who sends, why no Logon was
//! accepted, why the session has ended.

use gu_base::FirmId;
use gu_codec::{Fields, Frame, read_frame, tags};
use gu_parties::House;
use gu_status::Cause;

/// How many of the first bytes are shown where they are no frame.
const MOST_SHOWN: usize = 64;

/// The first value of a tag.
fn value_of<'a>(fields: Fields<'a>, wanted: u32) -> Option<&'a [u8]> {
    for (tag, value) in fields {
        if tag == wanted {
            return Some(value);
        }
    }
    None
}

/// Whether the first value of a tag is this text.
fn has(fields: Fields<'_>, tag: u32, text: &[u8]) -> bool {
    match value_of(fields, tag) {
        Some(value) => value == text,
        None => false,
    }
}

/// Whether a message says that it is from a firm of the house.
fn is_from_firm(house: &House, fields: Fields<'_>) -> bool {
    let Some(value) = value_of(fields, tags::SENDER_COMP_ID) else {
        return false;
    };
    match FirmId::new(value) {
        Some(firm) => house.firm(&firm),
        None => false,
    }
}

/// What is wrong with a message as the first of a connection.
fn fault_of(house: &House, fields: Fields<'_>) -> Cause {
    if !has(fields, tags::MSG_TYPE, b"A") {
        return Cause::NoLogon;
    }
    if !is_from_firm(house, fields) {
        return Cause::NoFirm;
    }
    if !has(fields, tags::TARGET_COMP_ID, house.house().as_bytes()) {
        return Cause::Target;
    }
    if !has(fields, tags::MSG_SEQ_NUM, b"1") {
        return Cause::Number;
    }
    if !has(fields, tags::ENCRYPT_METHOD, b"0") {
        return Cause::Encryption;
    }
    if !has(fields, tags::DEFAULT_APPL_VER_ID, b"9") {
        return Cause::Version;
    }
    Cause::Logon
}

/// Why the first bytes of a connection are no Logon that is accepted.
pub(crate) fn why_refused(house: &House, first: &[u8]) -> Cause {
    if first.is_empty() {
        return Cause::NoMessage;
    }
    match read_frame(first) {
        Frame::Whole { fields, .. } => fault_of(house, fields),
        Frame::Garbled { .. } => Cause::Garbled,
        Frame::Broken { .. } => Cause::NoFrame,
        Frame::Partial => Cause::Partial,
    }
}

/// What is said of a cause.
pub(crate) fn text_of_cause(cause: Cause) -> &'static str {
    match cause {
        Cause::NoMessage => "no message came",
        Cause::NoFrame => "no frame of FIX",
        Cause::Garbled => "a garbled frame",
        Cause::Partial => "no whole frame came",
        Cause::NoLogon => "the first message is no Logon",
        Cause::NoFirm => "49 is no firm of the house file",
        Cause::Target => "56 is not the house",
        Cause::Number => "34 is not 1",
        Cause::Encryption => "98 is not 0",
        Cause::Version => "1137 is not 9",
        Cause::Logon => "the Logon is not understood",
        Cause::Book => "5005 or 5006 is not one of this book",
        Cause::LoggedOut => "logged out",
    }
}

/// The cause that stands for what a Logout says. Where that is of LastReportNumber (5005) or of
/// BookName (5006), it says so.
pub(crate) fn cause_of_logout(said: &str) -> Cause {
    if said == "another book" || said.starts_with("5005") || said.starts_with("5006") {
        Cause::Book
    } else {
        Cause::LoggedOut
    }
}

/// The text of a Logout: Text (58), if it has one.
fn text_of(fields: Fields<'_>) -> &[u8] {
    match value_of(fields, tags::TEXT) {
        Some(text) => text,
        None => b"logged out",
    }
}

/// Why a session has ended, by the last of the frames that it sends: what its Logout says.
pub(crate) fn said_last(frames: &[u8]) -> Option<&[u8]> {
    let mut said = None;
    let mut at = 0usize;
    for _ in 0..frames.len() {
        let Some(rest) = frames.get(at..) else {
            return said;
        };
        let Frame::Whole { fields, len } = read_frame(rest) else {
            return said;
        };
        said = if has(fields, tags::MSG_TYPE, b"5") {
            Some(text_of(fields))
        } else {
            None
        };
        at = at.saturating_add(len);
    }
    said
}

/// What they say of who sends: SenderCompID (49), or where they are no frame the bytes themselves.
pub(crate) fn said_by(first: &[u8]) -> &[u8] {
    if let Frame::Whole { fields, .. } = read_frame(first) {
        if let Some(value) = value_of(fields, tags::SENDER_COMP_ID) {
            return value;
        }
    }
    &first[..first.len().min(MOST_SHOWN)]
}
