//! Readers and writers that tell their bytes and count their calls.

ghost use Rattle.std.specs.Prelude.{◌≡◌, ℕ, ◌-◌, ◌<◌, ◌≤◌, List, Option, None, length, take, IfOk};
ghost use Rattle.std.specs.Prelude.{IfErr, OnOk, OnErr};
ghost use Rattle.std.specs.Io.{ReadsAtMost, WritesAtMost};
ghost use Rattle.std.specs.Io.KnownBytes.{ReadConsumes, WriteAppends, Appends};
ghost use Rattle.gu_batch.specs.Counts.{CountsOne, Fails, IsToldBy};

use std::io;
use std::io::{ErrorKind, Read, Write};

/// A reader that counts its calls, so that a contract can say that one failed for good. An
/// interrupted call isn't a failure: it can be made again, as often as the reader is patient.
pub trait Source {
    /// The bytes that reads will give from here on, where they are known.
    ghost remaining: { Self → Option (List ℕ) };

    /// How many reads were made.
    ghost made: { Self → ℕ };

    /// How many of them failed for good.
    ghost failed: { Self → ℕ };

    /// How many interruptions more it bears.
    ghost patience: { Self → ℕ };

    /// Reads at most as many bytes as the buffer has, and counts the call.
    fn read(&mut self, buf: &mut [u8]) -> io::Result<usize>
        ensures bound { ReadsAtMost result buf.new }
        ensures bytes { ReadConsumes (remaining self.old) (remaining self.new) result buf.new }
        ensures made { CountsOne (made self.old) (made self.new) }
        ensures worked { OnOk result (failed self.new ≡ failed self.old) }
        ensures patient { OnOk result (patience self.new ≡ patience self.old) }
        ensures failed { IfErr result
            (IsToldBy (failed self.old) (failed self.new) (patience self.old)
            (patience self.new)) };
}

/// A writer that counts its failed calls. A write that takes none of the bytes that it was given
/// counts as one, an interrupted write doesn't.
pub trait Sink {
    /// The bytes that it holds, where they are known.
    ghost contents: { Self → Option (List ℕ) };

    /// How many writes failed for good.
    ghost failed: { Self → ℕ };

    /// How many interruptions more it bears.
    ghost patience: { Self → ℕ };

    /// Writes a front of these bytes, and counts a call that failed.
    fn write(&mut self, buf: &[u8]) -> io::Result<usize>
        ensures bound { WritesAtMost result buf.now }
        ensures bytes { WriteAppends (contents self.old) (contents self.new) result buf.now }
        ensures worked { IfOk result (λ n. 0 < n → failed self.new ≡ failed self.old) }
        ensures stuck { IfOk result
            (λ n. n ≡ 0 → 0 < length buf.now → Fails (failed self.old) (failed self.new)) }
        ensures patient { OnOk result (patience self.new ≡ patience self.old) }
        ensures failed { IfErr result
            (IsToldBy (failed self.old) (failed self.new) (patience self.old)
            (patience self.new)) };
}

/// How many interruptions a counted reader or writer bears before it tells one as a failure.
const PATIENCE: u32 = 16_777_216;

/// The calls of a reader or writer.
#[derive(Clone, Copy)]
struct Counts {
    made: u64,
    failed: u64,
    patience: u32,
}

impl Counts {
    /// Counts a call that failed for good.
    fn fails(&mut self)
        ensures failed { Fails self.old.failed self.new.failed }
        ensures patience { self.new.patience ≡ self.old.patience }
        ensures made { self.new.made ≡ self.old.made }
    {
        self.failed = self.failed.saturating_add(1);
    }

    /// What is told of a call that came back with this error: an interruption as long as there is
    /// patience, and else a failure.
    fn told(&mut self, error: io::Error) -> io::Error
        ensures told { IsToldBy self.old.failed self.new.failed self.old.patience self.new.patience
            result }
        ensures made { self.new.made ≡ self.old.made }
    {
        if error.kind() != ErrorKind::Interrupted {
            self.fails();
            return error;
        }
        if self.patience == 0 {
            self.fails();
            return io::Error::other("interrupted too often");
        }
        self.patience -= 1;
        error
    }
}

/// A reader or writer of std's, with its counts. It bears 16,777,216 interruptions.
#[derive(Drop)]
pub struct Counted<T> {
    inner: T,
    counts: Counts,
}

impl<T> Counted<T> {
    /// With no call counted yet.
    pub fn new(inner: T) -> Counted<T>
        ensures inner { result.inner ≡ inner }
        ensures made { result.counts.made ≡ 0 }
        ensures failed { result.counts.failed ≡ 0 }
        ensures patience { result.counts.patience ≡ 16777216 }
    {
        let counts = Counts {
            made: 0,
            failed: 0,
            patience: PATIENCE,
        };
        Counted { inner, counts }
    }

    /// The reader or writer back, without its counts.
    pub fn into_inner(self) -> T
        ensures { result ≡ self.inner }
    {
        let Counted { inner, counts: _ } = self;
        inner
    }
}

impl<T: Read> Source for Counted<T> {
    ghost remaining = { λ c. T.remaining c.inner };

    ghost made = { λ c. c.counts.made };

    ghost failed = { λ c. c.counts.failed };

    ghost patience = { λ c. c.counts.patience };

    fn read(&mut self, buf: &mut [u8]) -> io::Result<usize> {
        self.counts.made = self.counts.made.saturating_add(1);
        match self.inner.read(buf) {
            Ok(count) => Ok(count),
            Err(error) => Err(self.counts.told(error)),
        }
    }
}

impl<T: Write> Sink for Counted<T> {
    ghost contents = { λ c. T.contents c.inner };

    ghost failed = { λ c. c.counts.failed };

    ghost patience = { λ c. c.counts.patience };

    fn write(&mut self, buf: &[u8]) -> io::Result<usize> {
        match self.inner.write(buf) {
            Ok(count) => {
                if count == 0 {
                    self.counts.fails();
                }
                Ok(count)
            }
            Err(error) => Err(self.counts.told(error)),
        }
    }
}

/// Takes whatever is written, and keeps nothing of it.
#[derive(Clone, Copy)]
pub(crate) struct Nowhere;

impl Sink for Nowhere {
    ghost contents = { λ _. None };

    ghost failed = { λ _. 0 };

    ghost patience = { λ _. 0 };

    fn write(&mut self, buf: &[u8]) -> io::Result<usize> {
        Ok(buf.len())
    }
}

/// The writer failed.
#[derive(Clone, Copy, PartialEq, Eq)]
pub(crate) struct Failed;

/// Writes all the bytes, or a front of them where the writer failed.
pub(crate) fn write_all<W: Sink>(writer: &mut W, bytes: &[u8]) -> Result<(), Failed>
    ensures ok { OnOk result (Appends (W.contents writer.old) (W.contents writer.new) bytes.now) }
    ensures err { OnErr result
        ((n : ℕ) × Appends (W.contents writer.old) (W.contents writer.new) (take n bytes.now)) }
    ensures failed { OnErr result (Fails (W.failed writer.old) (W.failed writer.new)) }
    ensures grows { W.failed writer.old ≤ W.failed writer.new }
{
    let mut at = 0;
    'pieces: while at < bytes.len() {
        match writer.write(&bytes[at..]) {
            Ok(n) => {
                if n == 0 {
                    return Err(Failed);
                }
                at += n;
            }
            Err(e) => {
                if e.kind() != ErrorKind::Interrupted {
                    return Err(Failed);
                }
            }
        }
    }
    Ok(())
}
