//! The lines of an archive.

ghost use Rattle.std.specs.Prelude.{◌≡◌, ◌≤◌, ◌<◌, ◌++◌, [], length, take, flat_map, IfOk, OnOk};
ghost use Rattle.std.specs.Prelude.{IfSome};
ghost use Rattle.gu_archive.specs.Lines.{AppendsSaid, front_text, hex_digit, hex_line, hex_pair};
ghost use Rattle.gu_archive.specs.Lines.{piece_line, text_line, way_word};

use crate::hour::Moment;
use gu_base::Memory;
use gu_codec::{Frame, read_frame};
use itoa::Buffer;

/// Which way bytes go.
#[derive(Clone, Copy, PartialEq, Eq)]
pub(crate) enum Way {
    /// From the firm to the server.
    In,
    /// From the server to the firm.
    Out,
}

impl Way {
    /// The word of a line.
    fn word(self) -> &'static str
        ensures { result.now ≡ way_word self }
    {
        match self {
            Way::In => "IN",
            Way::Out => "OUT",
        }
    }
}

/// What each line of a connection begins with.
#[derive(Clone, Copy)]
pub(crate) struct Front<'a> {
    pub(crate) moment: &'a Moment,
    pub(crate) connection: u64,
}

const SOH: u8 = 1;

/// Whether a byte can stand in a line as it is: it ends none, and no terminal heeds it.
fn is_shown(byte: u8) -> bool {
    byte == SOH || (byte >= b' ' && byte != 127)
}

/// How much of the front of some bytes is a line's, and whether it stands there as it is: a whole
/// frame, a garbled one, or where no frame stands all of them. None where they only begin a frame.
fn piece_at(bytes: &[u8]) -> Option<(usize, bool)>
    requires { 0 < length bytes.now }
    ensures within { IfSome result (λ p. p.0 ≤ length bytes.now) }
    ensures some { IfSome result (λ p. 0 < p.0) }
{
    match read_frame(bytes) {
        Frame::Whole { len, .. } => {
            let is_plain = bytes[..len].iter().all(|byte| is_shown(*byte));
            Some((len, is_plain))
        }
        Frame::Garbled { len } => Some((len, false)),
        Frame::Broken { .. } => Some((bytes.len(), false)),
        Frame::Partial => None,
    }
}

/// Appends the front of a line: its moment, the connection, and its word.
#[tactic(auto, unfolding(crate::specs::Lines::front_text))]
fn push_front(line: &mut Vec<u8>, front: Front<'_>, word: &str) -> Result<(), Memory>
    ensures { OnOk result (line.new.items ≡ line.old.items
        ++ front_text front.entry.moment.now.text front.entry.connection word.now) }
{
    let mut digits = Buffer::new();
    line.extend_from_slice(front.moment.as_bytes())?;
    line.extend_from_slice(b" ")?;
    line.extend_from_slice(digits.format(front.connection).as_bytes())?;
    line.extend_from_slice(b" ")?;
    line.extend_from_slice(word.as_bytes())?;
    Ok(())
}

/// The hexadecimal digit of a number below 16.
fn hex_digit(number: u8) -> u8
    requires { number < 16 }
    ensures { result ≡ hex_digit number }
{
    if number < 10 {
        b'0' + number
    } else {
        b'a' + (number - 10)
    }
}

/// Appends a byte in hex.
fn push_pair(line: &mut Vec<u8>, byte: u8) -> Result<(), Memory>
    ensures { OnOk result (line.new.items ≡ line.old.items ++ hex_pair byte) }
{
    line.extend_from_slice(&[hex_digit(byte / 16), hex_digit(byte % 16)])
}

/// Appends bytes in hex.
fn push_hex(line: &mut Vec<u8>, bytes: &[u8]) -> Result<(), Memory>
    ensures { OnOk result (line.new.items ≡ line.old.items ++ flat_map hex_pair bytes.now) }
{
    for byte in bytes {
        push_pair(line, *byte)?;
    }
    Ok(())
}

/// Appends the line of a text.
#[tactic(auto, unfolding(crate::specs::Lines::text_line))]
fn push_text(line: &mut Vec<u8>, front: Front<'_>, word: &str, text: &[u8]) -> Result<(), Memory>
    ensures { OnOk result (line.new.items ≡ line.old.items
        ++ text_line front.entry.moment.now.text front.entry.connection word.now text.now) }
{
    push_front(line, front, word)?;
    line.extend_from_slice(b" : ")?;
    line.extend_from_slice(text)?;
    line.extend_from_slice(b"\n")?;
    Ok(())
}

/// Appends the line of bytes in hex.
#[tactic(auto, unfolding(crate::specs::Lines::hex_line))]
fn push_coded(line: &mut Vec<u8>, front: Front<'_>, way: Way, bytes: &[u8]) -> Result<(), Memory>
    ensures { OnOk result (line.new.items ≡ line.old.items
        ++ hex_line front.entry.moment.now.text front.entry.connection (way_word way) bytes.now) }
{
    push_front(line, front, way.word())?;
    line.extend_from_slice(b" hex : ")?;
    push_hex(line, bytes)?;
    line.extend_from_slice(b"\n")
}

/// Appends the line of a piece of what went this way: as it is, or in hex.
#[tactic(auto, unfolding(crate::specs::Lines::piece_line))]
fn push_piece(
    line: &mut Vec<u8>,
    front: Front<'_>,
    way: Way,
    bytes: &[u8],
    is_plain: bool,
) -> Result<(), Memory>
    ensures { OnOk result (line.new.items ≡ line.old.items
        ++ piece_line front.entry.moment.now.text front.entry.connection way
        (record { bytes = bytes.now; is_plain = is_plain })) }
{
    if is_plain {
        push_text(line, front, way.word(), bytes)
    } else {
        push_coded(line, front, way, bytes)
    }
}

/// Appends a line for each piece at the front of these bytes, and tells how many bytes they have:
/// what is left only begins a frame.
///
/// # Errors
///
/// `Memory` where a growth is refused. A front of the lines may stand there.
pub(crate) fn push_pieces(
    line: &mut Vec<u8>,
    front: Front<'_>,
    way: Way,
    bytes: &[u8],
) -> Result<usize, Memory>
    ensures within { IfOk result (λ n. n ≤ length bytes.now) }
    ensures said { IfOk result (λ n. AppendsSaid front.entry.moment.now.text
        front.entry.connection way line.old.items line.new.items (take n bytes.now)) }
{
    let mut at = 0;
    while at < bytes.len() {
        let Some((len, is_plain)) = piece_at(&bytes[at..]) else {
            return Ok(at);
        };
        push_piece(line, front, way, &bytes[at..at + len], is_plain)?;
        at += len;
    }
    Ok(at)
}

/// Appends the line of bytes that end within a frame, if there are some.
///
/// # Errors
///
/// `Memory` where a growth is refused. A front of the line may stand there.
pub(crate) fn push_rest(
    line: &mut Vec<u8>,
    front: Front<'_>,
    way: Way,
    bytes: &[u8],
) -> Result<(), Memory>
    ensures { OnOk result (AppendsSaid front.entry.moment.now.text front.entry.connection way
        line.old.items line.new.items bytes.now) }
{
    if bytes.is_empty() {
        return Ok(());
    }
    push_piece(line, front, way, bytes, false)?;
    Ok(())
}

/// Appends the line of a connection's begin, with its peer.
pub(crate) fn push_open(line: &mut Vec<u8>, front: Front<'_>, peer: &str) -> Result<(), Memory> {
    push_text(line, front, "OPEN", peer.as_bytes())
}

/// Appends the line of a connection's end: why, and how many of the bytes that stand as sent the
/// peer didn't take, if there are some.
pub(crate) fn push_close(
    line: &mut Vec<u8>,
    front: Front<'_>,
    why: &str,
    untaken: usize,
) -> Result<(), Memory> {
    push_front(line, front, "CLOSE")?;
    line.extend_from_slice(b" : ")?;
    line.extend_from_slice(why.as_bytes())?;
    if untaken > 0 {
        let mut digits = Buffer::new();
        line.extend_from_slice(b"; bytes not taken: ")?;
        line.extend_from_slice(digits.format(untaken).as_bytes())?;
    }
    line.extend_from_slice(b"\n")?;
    Ok(())
}
