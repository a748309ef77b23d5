//! Values, and how they are written.

ghost use Rattle.std.specs.Prelude.{◌≡◌, ◌<◌, ◌++◌, flat_map, take, OnOk};
ghost use Rattle.std.specs.List.{list_all};
ghost use Rattle.gu_log.specs.Values.{escaped, hex_digit, is_bare, quoted, value_text};
ghost use Rattle.gu_log.specs.Lines.{shown};

use itoa::Buffer;
use std::alloc::AllocError;

/// The most bytes of a value that a line shows.
pub const MOST_SHOWN: usize = 200;

/// A value of a field.
#[derive(Clone, Copy)]
pub enum Value<'a> {
    /// A text, whatever its bytes are. The first `MOST_SHOWN` are shown.
    Text(&'a [u8]),
    /// A number, in decimal.
    Number(u64),
}

/// Whether a byte may stand in a value that isn't in quotes: printable, and no space, quote, `=` or
/// backslash.
fn is_bare(byte: u8) -> bool
    ensures { result ≡ is_bare byte }
{
    matches!(byte, 33 | 35..=60 | 62..=91 | 93..=126)
}

/// Whether all bytes of a text may.
fn all_bare(text: &[u8]) -> bool
    ensures { result ≡ list_all is_bare text.now }
{
    text.iter().all(|byte| is_bare(*byte))
}

/// The digit of a number below 16.
fn hex_digit(number: u8) -> u8
    requires { number < 16 }
    ensures { result ≡ hex_digit number }
{
    if number < 10 {
        b'0' + number
    } else {
        b'a' + (number - 10)
    }
}

/// Appends a byte as it stands in quotes.
fn push_escaped(line: &mut Vec<u8>, byte: u8) -> Result<(), AllocError>
    ensures { OnOk result (line.new.items ≡ line.old.items ++ escaped byte) }
{
    if byte == b'"' || byte == b'\\' {
        return line.extend_from_slice(&[b'\\', byte]);
    }
    if 32 <= byte && byte <= 126 {
        return line.extend_from_slice(&[byte]);
    }
    let digits = [hex_digit(byte / 16), hex_digit(byte % 16)];
    line.extend_from_slice(&[b'\\', b'u', b'0', b'0', digits[0], digits[1]])
}

/// Appends the bytes of a text as they stand in quotes.
fn push_each(line: &mut Vec<u8>, text: &[u8]) -> Result<(), AllocError>
    ensures { OnOk result (line.new.items ≡ line.old.items ++ flat_map escaped text.now) }
{
    for byte in text {
        push_escaped(line, *byte)?;
    }
    Ok(())
}

/// Appends a text in quotes.
fn push_quoted(line: &mut Vec<u8>, text: &[u8]) -> Result<(), AllocError>
    ensures { OnOk result (line.new.items ≡ line.old.items ++ quoted text.now) }
{
    line.push(b'"')?;
    push_each(line, text)?;
    Ok(line.push(b'"')?)
}

/// Appends a text as a value.
fn push_text(line: &mut Vec<u8>, text: &[u8]) -> Result<(), AllocError>
    ensures { OnOk result (line.new.items ≡ line.old.items ++ value_text text.now) }
{
    if !text.is_empty() && all_bare(text) {
        line.extend_from_slice(text)
    } else {
        push_quoted(line, text)
    }
}

/// The first bytes of a text, at most so many.
fn first_of(text: &[u8], most: usize) -> &[u8]
    ensures { result.now ≡ take most text.now }
{
    if text.len() <= most {
        text
    } else {
        &text[..most]
    }
}

/// Appends a value.
pub(crate) fn push_value(line: &mut Vec<u8>, value: Value<'_>) -> Result<(), AllocError>
    ensures { OnOk result (line.new.items ≡ line.old.items ++ value_text (shown value.entry)) }
{
    match value {
        Value::Text(text) => push_text(line, first_of(text, MOST_SHOWN)),
        Value::Number(number) => {
            let mut digits = Buffer::new();
            push_text(line, digits.format(number).as_bytes())
        }
    }
}
