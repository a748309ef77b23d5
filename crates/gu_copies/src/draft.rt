//! A copy that is being written.

ghost use Rattle.std.specs.Prelude.{◌≡◌, length, IfOk};

use crate::files::{Drafted, Synced};
use crate::writing::write_whole;
use gu_batch::Counted;
use std::fs::OpenFile;
use std::io;
use std::io::Write;

/// A file that is to be a copy, and has no name of its own yet but the path at which it lies. Of
/// its bytes nothing is known but how many were written.
#[derive(Drop)]
pub struct Draft<T> {
    file: Counted<T>,
    part: String,
    written: usize,
}

impl<T: Write> Draft<T> {
    /// A file that is empty, at this path.
    pub(crate) fn new(file: T, part: String) -> Draft<T> {
        Draft {
            file: Counted::new(file),
            part,
            written: 0,
        }
    }
}

impl<T: Write + OpenFile + Drop> Draft<T> {
    /// Syncs the file, and closes it.
    ///
    /// # Errors
    ///
    /// The error of the sync.
    pub fn sync(self) -> io::Result<SyncedDraft>
        ensures { IfOk result (λ copy. copy.written ≡ self.written) }
    {
        let Draft {
            file,
            part,
            written,
        } = self;
        let file = file.into_inner();
        match file.sync_all() {
            Ok(()) => Ok(SyncedDraft { part, written }),
            Err(error) => Err(error),
        }
    }
}

/// A file that is synced, and has no name of its own yet but the path at which it lies. Of its
/// bytes nothing is known but how many were written.
#[derive(Drop)]
pub struct SyncedDraft {
    pub(crate) part: String,
    written: usize,
}

impl Synced for SyncedDraft {
    ghost keeps = { λ d text. d.written ≡ length text };
}

impl<T: Write> Drafted for Draft<T> {
    ghost has = { λ d text. d.written ≡ length text };

    fn fill(&mut self, text: &[u8]) -> io::Result<()> {
        match write_whole(&mut self.file, text) {
            Ok(()) => {
                self.written = text.len();
                Ok(())
            }
            Err(error) => Err(error),
        }
    }
}
