//! The reader of frames, to be timed from outside: `bench/codec` runs it beside a reader written by
//! hand.
//!
//! Both calls go over the bytes of whole frames, one after the other, and answer a number that
//! depends on every length they meet, so that no work can be left out and both sides can be seen to
//! have read the same.
#![tactic(auto)]

use gu_codec::{Frame, read_frame};

/// Adds a number to a mix.
fn mixed(mix: u64, number: u64) -> u64 {
    mix.wrapping_mul(31).wrapping_add(number)
}

/// Reads each frame, and goes over its fields.
#[unsafe(no_mangle)]
pub extern "C" fn read_with_fields(bytes: &[u8]) -> u64 {
    let mut rest = bytes;
    let mut mix = 0;
    for _ in 0..bytes.len() {
        match read_frame(rest) {
            Frame::Whole { fields, len } => {
                for (tag, value) in fields {
                    mix = mixed(mixed(mix, u64::from(tag)), value.len() as u64);
                }
                let Some(after) = rest.get(len..) else {
                    break;
                };
                rest = after;
            }
            _ => break,
        }
    }
    mixed(mix, rest.len() as u64)
}

/// Reads each frame.
#[unsafe(no_mangle)]
pub extern "C" fn read_frames(bytes: &[u8]) -> u64 {
    let mut rest = bytes;
    let mut mix = 0;
    for _ in 0..bytes.len() {
        match read_frame(rest) {
            Frame::Whole { len, .. } => {
                mix = mixed(mix, len as u64);
                let Some(after) = rest.get(len..) else {
                    break;
                };
                rest = after;
            }
            _ => break,
        }
    }
    mixed(mix, rest.len() as u64)
}
