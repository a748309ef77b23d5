//! The pieces in which a statement is written.
ghost use Rattle.std.specs.Prelude.{ℕ, [], length, take, OnOk, OnErr, IsOk};
ghost use Rattle.std.specs.Io.KnownBytes.{Appends};
ghost use Rattle.gu_statement.specs.Writing.{Comes};

use gu_base::Memory;
use gu_batch::{RunError, Sink};
use std::io::ErrorKind;

/// How many bytes are written at a time, and the rest of the last line.
const PIECE: usize = 65_536;

/// Writes all the bytes, or a front of them where the writer failed.
fn write_all<W: Sink>(writer: &mut W, bytes: &[u8]) -> Result<(), RunError>
    ensures ok { OnOk result (Appends (W.contents writer.old) (W.contents writer.new) bytes.now) }
    ensures err { OnErr result
        ((n : ℕ) × Appends (W.contents writer.old) (W.contents writer.new) (take n bytes.now)) }
{
    let mut at = 0;
    'pieces: while at < bytes.len() {
        match writer.write(&bytes[at..]) {
            Ok(n) => {
                if n == 0 {
                    return Err(RunError::Write);
                }
                at += n;
            }
            Err(e) => {
                if e.kind() != ErrorKind::Interrupted {
                    return Err(RunError::Write);
                }
            }
        }
    }
    Ok(())
}

/// Writes what has been made, and begins anew.
pub(crate) fn flush<W: Sink>(out: &mut Vec<u8>, writer: &mut W) -> Result<(), RunError>
    ensures { OnOk result (Comes (W.contents writer.old) out.old.items (W.contents writer.new)
        out.new.items []) }
{
    let written = write_all(writer, out.as_slice());
    out.clear();
    written
}

/// Goes on behind a line that was made: what has been made is written where it fills a piece.
#[inline(always)]
pub(crate) fn go_on<W: Sink>(out: &mut Vec<u8>, writer: &mut W) -> Result<(), RunError>
    ensures { OnOk result (Comes (W.contents writer.old) out.old.items (W.contents writer.new)
        out.new.items []) }
{
    if out.len() < PIECE {
        Ok(())
    } else {
        flush(out, writer)
    }
}

/// A fault of a line that was not made.
#[inline(always)]
pub(crate) fn made(line: Result<(), Memory>) -> Result<(), RunError>
    ensures { OnOk result (IsOk line) }
{
    match line {
        Ok(()) => Ok(()),
        Err(_) => Err(RunError::Memory),
    }
}
