//! A look at what stands first of the bytes that a feed holds, before it is taken.

use crate::connection::Closed;
use gu_codec::{Fields, Frame, read_frame, tags};
use std::alloc::Global;

/// What a message that was sent before has in its header.
const SENT_AGAIN: &[u8] = b"\x0143=Y\x01";

/// A copy of what a feed holds, where calls may have to wait.
#[derive(Drop)]
pub(crate) struct Look {
    is_on: bool,
    bytes: Vec<u8>,
    taken: usize,
}

/// Whether a message is one of the session itself, which never waits: a request for resends may.
fn is_of_session(fields: Fields<'_>) -> bool {
    for (tag, value) in fields {
        if tag == tags::MSG_TYPE {
            return matches!(value, b"0" | b"1" | b"3" | b"4" | b"5" | b"A");
        }
    }
    false
}

/// How many of these messages were sent before.
pub(crate) fn sent_again(messages: &[u8]) -> u64 {
    let mut count = 0u64;
    for at in 0..messages.len() {
        if messages[at..].starts_with(SENT_AGAIN) {
            count = count.saturating_add(1);
        }
    }
    count
}

/// The type of the message that a Reject is about, which comes first of these messages:
/// RefMsgType (372).
pub(crate) fn rejected_type(messages: &[u8]) -> &[u8] {
    if let Frame::Whole { fields, .. } = read_frame(messages) {
        for (tag, value) in fields {
            if tag == tags::REF_MSG_TYPE {
                return value;
            }
        }
    }
    b""
}

impl Look {
    /// A look at nothing, if one is needed.
    pub(crate) fn new(alloc: Global, is_on: bool) -> Look {
        Look {
            is_on,
            bytes: Vec::new(alloc),
            taken: 0,
        }
    }

    /// The feed takes these bytes.
    pub(crate) fn push(&mut self, piece: &[u8]) -> Result<(), Closed> {
        if !self.is_on {
            return Ok(());
        }
        let len = self.bytes.len();
        let taken = self.taken.min(len);
        self.bytes.as_mut_slice().copy_within(taken..len, 0);
        self.bytes.truncate(len - taken);
        self.taken = 0;
        match self.bytes.extend_from_slice(piece) {
            Ok(()) => Ok(()),
            Err(_) => Err(Closed),
        }
    }

    /// A frame of so many bytes is gone from the feed.
    pub(crate) fn pass(&mut self, len: usize) {
        self.taken = self.taken.saturating_add(len);
    }

    /// Whether what stands first is whole, and may have to wait.
    pub(crate) fn may_wait(&self) -> bool {
        let Some(rest) = self.bytes.get(self.taken..) else {
            return false;
        };
        match read_frame(rest) {
            Frame::Whole { fields, .. } => !is_of_session(fields),
            _ => false,
        }
    }
}
