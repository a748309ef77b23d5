//! A reader and a writer over memory, of several tempers.
ghost use Rattle.std.specs.Prelude.{IfOk};
ghost use Rattle.std.specs.Counts.{IsPrefixLen};

use std::alloc::Global;
use std::io;
use std::io::{ErrorKind, Read, Write};

/// How often calls are interrupted.
#[derive(Clone, Copy)]
pub(crate) enum Interruptions {
    Never,
    /// Each once before it is made.
    Once,
    Always,
}

impl Interruptions {
    /// Whether a call is interrupted, where `was` says it of the one before.
    fn is_now(self, was: bool) -> bool {
        match self {
            Interruptions::Never => false,
            Interruptions::Once => !was,
            Interruptions::Always => true,
        }
    }
}

/// What a reader does at its end.
#[derive(Clone, Copy)]
pub(crate) enum AtEnd {
    /// The stream is at its end.
    Ends,
    Fails,
    /// It begins again.
    Repeats,
}

/// Gives its text in pieces of at most `most` bytes, none of which reaches over `cut`, up to `end`.
#[derive(Clone, Copy, Drop)]
pub(crate) struct Pieces<'a> {
    pub(crate) text: &'a [u8],
    pub(crate) at: usize,
    pub(crate) most: usize,
    pub(crate) cut: usize,
    pub(crate) end: usize,
    pub(crate) at_end: AtEnd,
    pub(crate) interruptions: Interruptions,
    pub(crate) was_interrupted: bool,
}

/// The whole text, in pieces of so many bytes.
pub(crate) fn pieces_of<'a>(text: &'a [u8], most: usize) -> Pieces<'a> {
    Pieces {
        text,
        at: 0,
        most,
        cut: text.len(),
        end: text.len(),
        at_end: AtEnd::Ends,
        interruptions: Interruptions::Never,
        was_interrupted: false,
    }
}

impl<'a> Pieces<'a> {
    /// Gives the next piece, as much as there is room for.
    fn give(&mut self, buf: &mut [u8]) -> io::Result<usize>
        ensures { IfOk result (λ n. IsPrefixLen n buf.new) }
    {
        let next = if self.at < self.cut {
            self.cut
        } else {
            self.end
        };
        let stop = next.min(self.end).min(self.at.saturating_add(self.most));
        let Some(rest) = self.text.get(self.at..stop) else {
            return Err(io::Error::from(ErrorKind::BrokenPipe));
        };
        let n = rest.len().min(buf.len());
        buf[..n].copy_from_slice(&rest[..n]);
        self.at = self.at.saturating_add(n);
        Ok(n)
    }
}

impl<'a> Read for Pieces<'a> {
    fn read(&mut self, buf: &mut [u8]) -> io::Result<usize> {
        self.was_interrupted = self.interruptions.is_now(self.was_interrupted);
        if self.was_interrupted {
            return Err(io::Error::from(ErrorKind::Interrupted));
        }
        if self.at >= self.end {
            match self.at_end {
                AtEnd::Ends => return Ok(0),
                AtEnd::Fails => return Err(io::Error::from(ErrorKind::BrokenPipe)),
                AtEnd::Repeats => self.at = 0,
            }
        }
        self.give(buf)
    }
}

/// How a writer takes bytes: at most `most` a call and `room` in all. Then it fails or, where it is
/// quiet, takes none.
#[derive(Clone, Copy)]
pub(crate) struct Taking {
    pub(crate) most: usize,
    pub(crate) room: usize,
    pub(crate) quiet: bool,
    pub(crate) interruptions: Interruptions,
}

/// Takes all bytes at once.
pub(crate) fn takes_all() -> Taking {
    Taking {
        most: usize::MAX,
        room: usize::MAX,
        quiet: false,
        interruptions: Interruptions::Never,
    }
}

/// Takes bytes in its way, and holds them.
#[derive(Drop)]
pub(crate) struct Narrow {
    pub(crate) held: Vec<u8>,
    pub(crate) taking: Taking,
    pub(crate) was_interrupted: bool,
}

/// A writer that has taken no byte yet.
pub(crate) fn writer_of(alloc: Global, taking: Taking) -> Narrow {
    Narrow {
        held: Vec::new(alloc),
        taking,
        was_interrupted: false,
    }
}

impl Write for Narrow {
    fn write(&mut self, buf: &[u8]) -> io::Result<usize> {
        let taking = self.taking;
        self.was_interrupted = taking.interruptions.is_now(self.was_interrupted);
        if self.was_interrupted {
            return Err(io::Error::from(ErrorKind::Interrupted));
        }
        let room = taking.room.saturating_sub(self.held.len());
        if room == 0 {
            if taking.quiet {
                return Ok(0);
            }
            return Err(io::Error::from(ErrorKind::BrokenPipe));
        }
        let count = buf.len().min(taking.most).min(room);
        let (front, _) = buf.split_at(count);
        match self.held.extend_from_slice(front) {
            Ok(()) => Ok(count),
            Err(_) => Err(io::Error::from(ErrorKind::OutOfMemory)),
        }
    }

    fn flush(&mut self) -> io::Result<()> {
        Ok(())
    }
}
