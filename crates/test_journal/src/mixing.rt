//! What a crash may leave between the bytes that were synced and those that were written since.

use std::alloc::{AllocError, Global};

/// Which of the bytes that were written since the last sync a crash leaves.
#[derive(Clone, Copy, PartialEq, Eq)]
pub(crate) enum Left {
    /// The first half of what differs.
    Front,
    /// The last half: a later write is there, and an earlier one isn't.
    Back,
    /// Each byte at an odd place.
    Odd,
    /// Each byte at an even place.
    Even,
    /// Foreign bytes in their place, as a device may that doesn't finish a byte.
    Foreign,
}

/// All of these.
pub(crate) const ALL: &[Left] = &[
    Left::Front,
    Left::Back,
    Left::Odd,
    Left::Even,
    Left::Foreign,
];

/// The byte that stands at a place, if any: the old one, or the one that was written.
fn byte_at(how: Left, place: usize, middle: usize, old: Option<u8>, new: Option<u8>) -> Option<u8> {
    let takes_new = match how {
        Left::Front => place < middle,
        Left::Back => place >= middle,
        Left::Odd => place % 2 == 1,
        Left::Even => place % 2 == 0,
        Left::Foreign => return if old == new { old } else { Some(b'x') },
    };
    match (takes_new, old, new) {
        (true, _, Some(byte)) => Some(byte),
        (false, Some(byte), _) => Some(byte),
        // Before later bytes of a longer file there is a hole.
        (false, None, Some(_)) if how != Left::Front => Some(0),
        _ => None,
    }
}

/// The bytes that a crash leaves of a file.
pub(crate) fn bytes_left(
    alloc: Global,
    synced: &[u8],
    written: &[u8],
    how: Left,
) -> Result<Vec<u8>, AllocError> {
    let longest = synced.len().max(written.len());
    let same = synced
        .iter()
        .zip(written.iter())
        .take_while(|(old, new)| old == new)
        .count();
    let middle = same.midpoint(longest);
    let mut out = Vec::new(alloc);
    for place in 0..longest {
        let (old, new) = (synced.get(place).copied(), written.get(place).copied());
        let Some(byte) = byte_at(how, place, middle, old, new) else {
            break;
        };
        out.push(byte)?;
    }
    Ok(out)
}
