//! Bodies of messages as lines of text, and the frames around them.

use gu_base::Memory;
use std::alloc::Global;

/// Appends a text with one byte in place of another, as `|` for SOH.
pub(crate) fn append_with(out: &mut Vec<u8>, text: &[u8], from: u8, to: u8) -> Result<(), Memory> {
    for b in text {
        out.push(if *b == from { to } else { *b })?;
    }
    Ok(())
}

/// Appends texts with SOH for `|`.
pub(crate) fn append_texts(out: &mut Vec<u8>, texts: &[&str]) -> Result<(), Memory> {
    for text in texts {
        append_with(out, text.as_bytes(), b'|', 1)?;
    }
    Ok(())
}

/// The frame with this body, of fields or not.
pub(crate) fn framed(alloc: Global, body: &[u8]) -> Result<Vec<u8>, Memory> {
    let mut frame = Vec::new(alloc);
    let count = format!(in alloc; "8=FIXT.1.1\x019={}\x01", body.len())?;
    frame.extend_from_slice(count.as_bytes())?;
    frame.extend_from_slice(body)?;
    let mut sum = 0u8;
    for b in frame.as_slice() {
        sum = sum.wrapping_add(*b);
    }
    let trailer = format!(in alloc; "10={:03}\x01", sum)?;
    frame.extend_from_slice(trailer.as_bytes())?;
    Ok(frame)
}
