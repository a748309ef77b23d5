//! The words of a line.
ghost use Rattle.std.specs.Prelude.{◌≡◌, eqb, position};

use gu_base::{NodeName, Number};
use std::str;

/// The place of the first such byte.
fn place_of(text: &[u8], byte: u8) -> Option<usize>
    ensures { result ≡ position (λ b. eqb b byte) text.now }
{
    text.iter().position(|b| *b == byte)
}

/// What stands before the first such byte, and what stands behind it.
pub(crate) fn cut(text: &[u8], byte: u8) -> Option<(&[u8], &[u8])> {
    match place_of(text, byte) {
        Some(place) => Some((&text[..place], &text[place + 1..])),
        None => None,
    }
}

/// The first word of a line, and what stands behind the space after it.
pub(crate) fn first_word(line: &[u8]) -> (&[u8], &[u8]) {
    match cut(line, b' ') {
        Some((word, rest)) => (word, rest),
        None => (line, &line[line.len()..]),
    }
}

/// The text of these bytes, `?` where they are none.
pub(crate) fn shown(text: &[u8]) -> &str {
    match str::from_utf8(text) {
        Ok(text) => text,
        Err(_) => "?",
    }
}

/// The number of these digits.
pub(crate) fn count_of(text: &[u8]) -> Option<u64> {
    shown(text).parse::<u64>().ok()
}

/// The small number of these digits.
fn small_of(text: &[u8]) -> Option<u32> {
    shown(text).parse::<u32>().ok()
}

/// The number of an entry, `None` where no entry can have it.
pub(crate) fn number_of(word: &[u8]) -> Option<Number> {
    Number::new(small_of(word)?)
}

/// The node of this name, `entry.part`.
pub(crate) fn node_of(text: &[u8]) -> Option<NodeName> {
    let (entry, part) = cut(text, b'.')?;
    let entry = small_of(entry)?;
    let part = u8::try_from(small_of(part)?).ok()?;
    NodeName::new(entry, part)
}
