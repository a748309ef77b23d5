//! Frames that are written: one behind the other, and one that is sent again.

use crate::bodies::append_with;
use gu_base::FirmId;
use gu_codec::{Header, write_frame};
use std::alloc::Global;

/// A time of 21 bytes.
const SENT: &[u8] = b"19700101-00:00:00.000";

/// Writes the bytes, with `|` for SOH.
fn show(rt: &impl Print, alloc: Global, bytes: &[u8]) -> bool {
    let mut shown = Vec::new(alloc);
    if append_with(&mut shown, bytes, 1, b'|').is_err() {
        return false;
    }
    match str::from_utf8(shown.as_slice()) {
        Ok(text) => rt.println(text).is_ok(),
        Err(_) => false,
    }
}

/// Appends a frame. Where memory lacks nothing may have changed, and it is appended once more.
fn append_frame(out: &mut Vec<u8>, header: &Header<'_>, body: &[u8]) -> bool {
    if !header.has_texts() || body.len() > 1000 {
        return false;
    }
    let before = out.len();
    match write_frame(out, header, body) {
        Ok(()) => true,
        Err(_) => out.len() == before && write_frame(out, header, body).is_ok(),
    }
}

/// Appends a frame and writes it.
fn tell_frame(
    rt: &impl Print,
    alloc: Global,
    out: &mut Vec<u8>,
    header: &Header<'_>,
    body: &[u8],
) -> bool {
    let before = out.len();
    if !append_frame(out, header, body) {
        return false;
    }
    match out.get(before..) {
        Some(frame) => show(rt, alloc, frame),
        None => false,
    }
}

/// Writes the answer to a trade twice, and the answer to an instruction once as it is sent again.
fn tell_frames(rt: &impl Print, alloc: Global, first: &Header<'_>, again: &Header<'_>) -> bool {
    let body = b"571=T1\x01939=0\x0158=entry 1\x01";
    let mut out = Vec::new(alloc);
    tell_frame(rt, alloc, &mut out, first, body)
        && tell_frame(rt, alloc, &mut out, first, body)
        && tell_frame(rt, alloc, &mut out, again, b"")
}

/// Writes frames one behind the other. Whether all went well.
pub(crate) fn tell(rt: &impl Print, alloc: Global) -> bool {
    let Some(house) = FirmId::new(b"HSE") else {
        return false;
    };
    let first = Header {
        kind: b"AR",
        sender: house,
        target: house,
        number: 1,
        sent: SENT,
        resent: None,
    };
    let again = Header {
        kind: b"P",
        resent: Some(SENT),
        ..first
    };
    tell_frames(rt, alloc, &first, &again)
}
