//! Writing what a session asks for.

use crate::bodies::append_with;
use gu_base::Command;
use gu_codec::{Frame, read_frame, tags};
use gu_session::{Actions, Session};
use std::alloc::{AllocError, Global};
use std::io::Eprint;

/// Says on standard error that a growth was refused and is asked for once more.
pub(crate) fn tell_refused(rt: &impl Eprint) {
    let _ = rt.eprintln("refused, asked again");
}

/// The digits of a number. Where memory lacks, they are asked for once more.
pub(crate) fn digits(rt: &impl Eprint, alloc: Global, number: u32) -> Result<String, AllocError> {
    match number.to_string(alloc) {
        Ok(digits) => Ok(digits),
        Err(_) => {
            tell_refused(rt);
            number.to_string(alloc)
        }
    }
}

/// A body with `|` for SOH.
fn shown(alloc: Global, body: &[u8]) -> Result<Vec<u8>, AllocError> {
    let mut shown = Vec::new(alloc);
    append_with(&mut shown, body, 1, b'|')?;
    Ok(shown)
}

/// The same. Where memory lacks, it is asked for once more.
fn shown_twice(rt: &impl Eprint, alloc: Global, body: &[u8]) -> Result<Vec<u8>, AllocError> {
    match shown(alloc, body) {
        Ok(shown) => Ok(shown),
        Err(_) => {
            tell_refused(rt);
            shown(alloc, body)
        }
    }
}

/// Writes a frame's body.
fn show_body(rt: &(impl Print + Eprint), alloc: Global, body: &[u8]) -> bool {
    let Ok(shown) = shown_twice(rt, alloc, body) else {
        return false;
    };
    match str::from_utf8(shown.as_slice()) {
        Ok(text) => println!(rt; "  > {text}").is_ok(),
        Err(_) => rt.println("  > no text").is_ok(),
    }
}

/// Writes the body of the frame that some bytes begin with. The bytes behind it, `None` where they
/// begin with none.
fn show_first<'a>(rt: &(impl Print + Eprint), alloc: Global, bytes: &'a [u8]) -> Option<&'a [u8]> {
    match read_frame(bytes) {
        Frame::Whole { fields, len } => {
            if show_body(rt, alloc, fields.value_at(0, fields.left())) {
                bytes.get(len..)
            } else {
                None
            }
        }
        _ => None,
    }
}

/// Writes the frames of some bytes.
fn show_frames(rt: &(impl Print + Eprint), alloc: Global, bytes: &[u8]) -> bool {
    let mut rest = bytes;
    for _ in 0..bytes.len() {
        match show_first(rt, alloc, rest) {
            Some(behind) => rest = behind,
            None => break,
        }
    }
    rest.is_empty() || println!(rt; "  > {} bytes that are no frame", rest.len()).is_ok()
}

/// Writes a call.
fn show_call(rt: &impl Print, actions: &Actions) -> bool {
    match &actions.call {
        Some((id, Command::Split { node, .. })) => println!(rt; "  call {id} split {node}").is_ok(),
        Some((id, Command::Trade { .. })) => println!(rt; "  call {id} trade").is_ok(),
        Some((id, _)) => println!(rt; "  call {id}").is_ok(),
        None => true,
    }
}

/// Writes a word where it holds.
fn show_if(rt: &impl Print, holds: bool, word: &str) -> bool {
    !holds || println!(rt; "  {word}").is_ok()
}

/// Writes which messages lack, where some do.
fn show_gap(rt: &impl Print, session: &Session<'_>) -> bool {
    match session.gap() {
        Some(gap) => println!(rt; "  gap from {} to {}", gap.expected, gap.highest).is_ok(),
        None => true,
    }
}

/// Writes what a session asks for, and how it stands.
pub(crate) fn show(
    rt: &(impl Print + Eprint),
    alloc: Global,
    session: &Session<'_>,
    actions: &Actions,
) -> bool {
    show_frames(rt, alloc, actions.send.as_slice())
        && show_call(rt, actions)
        && show_if(rt, actions.close, "close")
        && show_gap(rt, session)
        && show_if(rt, session.awaiting(), "awaiting")
        && show_if(rt, session.closed(), "closed")
}

/// Whether some bytes begin with an acknowledgement of this number.
pub(crate) fn shows_answer(bytes: &[u8], number: &str) -> bool {
    let mut kind = false;
    let mut numbered = false;
    if let Frame::Whole { fields, .. } = read_frame(bytes) {
        for (tag, value) in fields {
            if tag == tags::MSG_TYPE {
                kind = value == b"P".as_slice();
            } else if tag == tags::MSG_SEQ_NUM {
                numbered = value == number.as_bytes();
            }
        }
    }
    kind && numbered
}
