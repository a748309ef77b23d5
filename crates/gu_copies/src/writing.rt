//! Bytes are written to a writer, all of them.

ghost use Rattle.std.specs.Prelude.{◌≤◌, ℕ, take, OnOk, OnErr};
ghost use Rattle.std.specs.Io.KnownBytes.{Appends};
ghost use Rattle.gu_batch.specs.Counts.{Fails};

use gu_batch::Sink;
use std::io;
use std::io::ErrorKind;

/// Writes all the bytes, or a front of them where the writer failed.
pub(crate) fn write_whole<W: Sink>(writer: &mut W, bytes: &[u8]) -> io::Result<()>
    ensures ok { OnOk result (Appends (W.contents writer.old) (W.contents writer.new) bytes.now) }
    ensures err { OnErr result
        ((n : ℕ) × Appends (W.contents writer.old) (W.contents writer.new) (take n bytes.now)) }
    ensures failed { OnErr result (Fails (W.failed writer.old) (W.failed writer.new)) }
    ensures grows { W.failed writer.old ≤ W.failed writer.new }
{
    let mut at = 0;
    'pieces: while at < bytes.len() {
        match writer.write(&bytes[at..]) {
            Ok(n) => {
                if n == 0 {
                    return Err(io::Error::from(ErrorKind::WriteZero));
                }
                at += n;
            }
            Err(error) => {
                if error.kind() != ErrorKind::Interrupted {
                    return Err(error);
                }
            }
        }
    }
    Ok(())
}
