//! Streams of frames of all kinds, and what is read of each.
//!
//! The words of a line are a stream and how it comes: the size of its pieces, a space, and its
//! bytes, in which `|` stands for SOH and `@` for 65,501 times `x`. Piece after piece is pushed
//! into a feed; behind each the feed's room is written, and then each answer that it gives before
//! the next, one that ends the stream twice, since it is asked once more; each refusal of a piece,
//! and at last the room. Where the size is 0 it is written what is read of each front of the bytes,
//! and of all of them, and which fields stand before the text (58).

use gu_codec::{Feed, FeedError, Fields, Frame, Marked, read_frame, tags};
use std::alloc::Global;
use std::str;

/// Whether a walk by the marks of SOH meets the same fields.
fn is_marked_alike(fields: Fields<'_>) -> bool {
    let mut marked = Marked::of(fields);
    for field in fields {
        match marked.step() {
            Some((tag, value)) => {
                if tag != field.0 || value != field.1 {
                    return false;
                }
            }
            None => return false,
        }
    }
    marked.is_at_end()
}

/// Writes a tag and its value.
fn show_field(rt: &impl Print, tag: u32, value: &[u8]) -> bool {
    print!(rt; " {tag}={}", str::from_utf8(value).unwrap_or("?")).is_ok()
}

/// Writes the fields of a message, and ends the line.
fn show_fields(rt: &impl Print, fields: Fields<'_>) -> bool {
    if !is_marked_alike(fields) && rt.print(" (unlike by marks)").is_err() {
        return false;
    }
    for (tag, value) in fields {
        if !show_field(rt, tag, value) {
            return false;
        }
    }
    rt.println("").is_ok()
}

/// Writes an answer.
fn show(rt: &impl Print, frame: Frame<'_>) -> bool {
    match frame {
        Frame::Whole { fields, len } => {
            print!(rt; "whole {len}").is_ok() && show_fields(rt, fields)
        }
        Frame::Garbled { len } => println!(rt; "garbled {len}").is_ok(),
        Frame::Partial => rt.println("partial").is_ok(),
        Frame::Broken { at } => println!(rt; "broken at {at}").is_ok(),
    }
}

/// Whether another answer may follow.
fn may_follow(frame: &Frame<'_>) -> bool {
    match frame {
        Frame::Whole { .. } | Frame::Garbled { .. } => true,
        _ => false,
    }
}

/// Writes the answer that the feed gives next, if it doesn't wait. Whether another may follow.
fn show_next(rt: &impl Print, feed: &mut Feed) -> bool {
    match feed.next() {
        Some(frame) => {
            let follows = may_follow(&frame);
            show(rt, frame) && follows
        }
        None => false,
    }
}

/// Writes each answer that the feed gives before it waits or is broken, and asks once more: a feed
/// that waits goes on to wait, and a broken one answers the same again.
fn show_held(rt: &impl Print, feed: &mut Feed) {
    for _ in 0..65_536u32 {
        if !show_next(rt, feed) {
            break;
        }
    }
    show_next(rt, feed);
}

/// Pushes a piece, and writes the room that is left and what comes of it.
fn push(rt: &impl Print, feed: &mut Feed, piece: &[u8]) -> bool {
    match feed.push(piece) {
        Ok(()) => {
            let is_told = println!(rt; "pushed, room {}", feed.room()).is_ok();
            show_held(rt, feed);
            is_told
        }
        Err(FeedError::Full) => rt.println("full").is_ok(),
        Err(FeedError::Ended) => rt.println("ended").is_ok(),
    }
}

/// Pushes the bytes in pieces of this size, and writes what comes of it, and the room at last.
fn push_all(rt: &impl Print, feed: &mut Feed, size: usize, bytes: &[u8]) -> bool {
    for piece in bytes.chunks(size.max(1)) {
        if !push(rt, feed, piece) {
            return false;
        }
    }
    println!(rt; "room {}", feed.room()).is_ok()
}

/// Writes what is read of a stream that comes in pieces of this size.
fn tell(rt: &impl Print, alloc: Global, size: usize, bytes: &[u8]) -> bool {
    match Feed::new(alloc) {
        Ok(mut feed) => push_all(rt, &mut feed, size, bytes),
        Err(_) => false,
    }
}

/// Writes which fields stand before the text, if the bytes begin with a frame.
fn tell_before(rt: &impl Print, bytes: &[u8]) -> bool {
    match read_frame(bytes) {
        Frame::Whole { fields, .. } => {
            rt.print("before the text").is_ok() && show_fields(rt, fields.before(tags::TEXT))
        }
        _ => true,
    }
}

/// Writes what is read of each front of the bytes, and which fields stand before the text.
fn tell_fronts(rt: &impl Print, bytes: &[u8]) -> bool {
    for len in 0..bytes.len() {
        if !show(rt, read_frame(&bytes[..len])) {
            return false;
        }
    }
    show(rt, read_frame(bytes)) && tell_before(rt, bytes)
}

/// Appends 65,501 times `x`.
fn append_long(out: &mut Vec<u8>) -> bool {
    for _ in 0..65_501u32 {
        if out.push(b'x').is_err() {
            return false;
        }
    }
    true
}

/// Appends the bytes that a text stands for.
fn append_bytes(out: &mut Vec<u8>, text: &str) -> bool {
    for byte in text.as_bytes() {
        let is_appended = match *byte {
            b'|' => out.push(1).is_ok(),
            b'@' => append_long(out),
            other => out.push(other).is_ok(),
        };
        if !is_appended {
            return false;
        }
    }
    true
}

/// Writes what is read of the stream of a line.
fn tell_stream(rt: &impl Print, alloc: Global, size: usize, text: &str) -> bool {
    let mut bytes = Vec::new(alloc);
    if !append_bytes(&mut bytes, text) {
        return false;
    }
    if size == 0 {
        tell_fronts(rt, bytes.as_slice())
    } else {
        tell(rt, alloc, size, bytes.as_slice())
    }
}

/// Writes what is read of the stream of these words. Whether all went well.
pub(crate) fn tell_words(rt: &impl Print, alloc: Global, words: &str) -> bool {
    match words.split_once(' ') {
        Some((size, text)) => tell_stream(rt, alloc, size.parse().unwrap_or(1), text),
        None => false,
    }
}
