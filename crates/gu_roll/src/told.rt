//! The messages of a journal, as they stand in the bytes that count of its file.

ghost use Rattle.std.specs.Prelude.{◌≤◌, ◌<◌, length, IfSome};

use gu_codec::{Fields, Frame, read_frame, tags};

/// The moment of what has none that can be told: UTC, in milliseconds.
pub const MOMENT: &[u8] = b"19700101-00:00:00.000";

/// MsgType (35) of the head, a Logon.
const HEAD: &[u8] = b"A";

/// MsgType (35) of a seal, a Heartbeat.
const SEAL: &[u8] = b"0";

/// What a message of a journal is.
#[derive(Clone, Copy, PartialEq, Eq)]
pub enum Kind {
    /// The head, a Logon, with which it begins.
    Head,
    /// An entry.
    Entry,
    /// The seal of a group, a Heartbeat, behind the group's entries.
    Seal,
}

/// What a message of a journal tells.
#[derive(Clone, Copy)]
pub struct Told<'a> {
    /// What it is.
    pub kind: Kind,
    /// When it was written: its SendingTime (52).
    pub moment: &'a [u8],
}

/// What a message of this MsgType (35) is.
fn kind_of(msg_type: &[u8]) -> Kind {
    if msg_type == HEAD {
        Kind::Head
    } else if msg_type == SEAL {
        Kind::Seal
    } else {
        Kind::Entry
    }
}

/// What these fields tell.
fn told_in(fields: Fields<'_>) -> Told<'_> {
    let mut kind = Kind::Entry;
    for (tag, value) in fields {
        if tag == tags::MSG_TYPE {
            kind = kind_of(value);
        }
        if tag == tags::SENDING_TIME {
            return Told {
                kind,
                moment: value,
            };
        }
    }
    Told {
        kind,
        moment: MOMENT,
    }
}

/// What the message at a place tells, and where its frame ends; `None` where none stands there.
pub fn told_at(bytes: &[u8], at: usize) -> Option<(Told<'_>, usize)>
    ensures { IfSome result (λ r. (at < r.1) × (r.1 ≤ length bytes.now)) }
{
    if at >= bytes.len() {
        return None;
    }
    match read_frame(&bytes[at..]) {
        Frame::Whole { fields, len } => {
            let end = at + len;
            Some((told_in(fields), end))
        }
        _ => None,
    }
}
