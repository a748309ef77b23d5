//! The bytes of a file that a server may be writing.

ghost use Rattle.std.specs.Prelude.{◌≤◌, length};

use memchr::memchr;
use std::alloc::Global;
use std::io;
use std::io::{ErrorKind, Read, Seek, SeekFrom};

/// How much is read at a time, in bytes.
const PIECE: usize = 65_536;

/// Reads a file to its end behind a list.
fn read_whole<T: Read>(file: &mut T, text: &mut Vec<u8>) -> io::Result<()> {
    let mut buf = [0; PIECE];
    for _ in 0..u64::MAX {
        match file.read(&mut buf) {
            Ok(count) => {
                if count == 0 {
                    return Ok(());
                }
                if text.extend_from_slice(&buf[..count]).is_err() {
                    return Err(io::Error::from(ErrorKind::OutOfMemory));
                }
            }
            Err(error) => {
                if error.kind() != ErrorKind::Interrupted {
                    return Err(error);
                }
            }
        }
    }
    Err(io::Error::from(ErrorKind::FileTooLarge))
}

/// How many bytes stand before the first zero.
fn counted_len(text: &[u8]) -> usize
    ensures { result ≤ length text.now }
{
    memchr(0, text).unwrap_or(text.len())
}

/// Whether nothing but zeros stands from a place on.
fn is_bare_from(text: &[u8], at: usize) -> bool
    requires { at ≤ length text.now }
{
    text[at..].iter().all(|byte| *byte == 0)
}

/// The byte at a place of a file, and none behind its end.
fn byte_at<T: Read + Seek>(file: &mut T, at: usize) -> io::Result<Option<u8>> {
    file.seek(SeekFrom::Start(at as u64))?;
    let mut byte = [0];
    let count = file.read(&mut byte)?;
    Ok(if count == 0 { None } else { Some(byte[0]) })
}

/// Leaves of what was read of a file what it said at one moment. Where bytes stand behind a zero
/// that isn't one any more, they were written since, and don't count.
fn settle<T: Read + Seek>(file: &mut T, text: &mut Vec<u8>) -> io::Result<()> {
    let at = counted_len(text);
    if is_bare_from(text, at) {
        return Ok(());
    }
    match byte_at(file, at)? {
        None | Some(0) => Ok(()),
        Some(_) => {
            text.truncate(at + 1);
            Ok(())
        }
    }
}

/// The bytes of a file at one moment, also while a server writes it.
pub(crate) fn read_still<T: Read + Seek>(alloc: Global, file: &mut T) -> io::Result<Vec<u8>> {
    let mut text = Vec::new(alloc);
    read_whole(file, &mut text)?;
    settle(file, &mut text)?;
    Ok(text)
}
