//! House files and journals by their paths.

ghost use Rattle.std.specs.Prelude.{◌≡◌, ℕ, List, [], Option, None};
ghost use Rattle.gu_server.specs.HouseText.{Reads, ReadsAll};

use gu_batch::{Counted, RunError, Source};
use gu_command::Fault;
use gu_copies::{
    Draft, HeldJournal, JournalFiles, SyncedDraft, discard_draft, draft_at, hold_file, name_draft,
    read_file, retire_file,
};
use std::alloc::Global;
use std::fs::File;
use std::io;
use std::io::ErrorKind;
use std::rt::Files;

/// How long a house file may be, in bytes: 16 MiB.
const MOST_BYTES: usize = 16_777_216;

/// The longest read of a house file, in bytes.
const LONGEST_READ: usize = 4096;

/// Where house files are read by their paths.
pub trait HouseFiles {
    /// The bytes of the file at a path, where it is known that they can be read.
    ghost bytes_at: { Self → List ℕ → Option (List ℕ) };

    /// Reads the file at a path into an empty list. The fault is `HouseFile` where it isn't there,
    /// can't be read to its end or is longer than 16,777,216 bytes, and want of memory where a
    /// growth was refused.
    fn read(&self, path: &str, text: &mut Vec<u8>) -> Result<(), Fault>
        requires { text.old.items ≡ [] }
        ensures { Reads (bytes_at self.now path.now) text.new.items result };
}

/// Reads a file to its end into an empty list. Of a file that is longer than 16 MiB no more than a
/// read is taken beyond them.
fn read_all<R: Source>(file: &mut R, text: &mut Vec<u8>) -> Result<(), Fault>
    requires { text.old.items ≡ [] }
    ensures { ReadsAll (R.remaining file.old) (R.remaining file.new) (R.failed file.old)
        (R.failed file.new) text.new.items result }
{
    let mut buf = [0; LONGEST_READ];
    'reads: loop {
        match file.read(&mut buf) {
            Ok(count) => {
                if count == 0 {
                    return Ok(());
                }
                if count > MOST_BYTES - text.len() {
                    return Err(Fault::HouseFile);
                }
                text.extend_from_slice(&buf[..count])?;
            }
            Err(error) => {
                if error.kind() != ErrorKind::Interrupted {
                    return Err(Fault::HouseFile);
                }
            }
        }
    }
}

/// The files of the system that a program runs on. Nothing is known of their bytes.
#[derive(Clone, Copy)]
pub struct SystemFiles<'a, R> {
    rt: &'a R,
}

impl<'a, R: Files> SystemFiles<'a, R> {
    /// The files that the runtime opens.
    pub fn new(rt: &'a R) -> SystemFiles<'a, R> {
        SystemFiles { rt }
    }
}

impl<R: Files> HouseFiles for SystemFiles<'_, R> {
    ghost bytes_at = { λ _ _. None };

    fn read(&self, path: &str, text: &mut Vec<u8>) -> Result<(), Fault> {
        match File::open(self.rt, path) {
            Ok(file) => read_all(&mut Counted::new(file), text),
            Err(error) => Err(match error.kind() {
                ErrorKind::OutOfMemory => Fault::Run(RunError::Memory),
                _ => Fault::HouseFile,
            }),
        }
    }
}

impl JournalFiles for SystemFiles<'_, HostRuntime> {
    ghost journal_at = { λ _ _. None };

    ghost is_copied = { λ _ _ _. Unit {0} };

    type Draft = Draft<File>;

    type Synced = SyncedDraft;

    type Held = HeldJournal;

    fn read_journal(&self, alloc: Global, path: &str) -> Result<Vec<u8>, Fault> {
        read_file(self.rt, alloc, path)
    }

    fn draft(&self, alloc: Global, to: &str) -> Result<Draft<File>, Fault> {
        draft_at(self.rt, alloc, to)
    }

    fn sync(&self, draft: Draft<File>, _text: &[u8]) -> io::Result<SyncedDraft> {
        draft.sync()
    }

    fn name(&self, alloc: Global, copy: SyncedDraft, to: &str, _text: &[u8]) -> Result<(), Fault> {
        name_draft(self.rt, alloc, copy, to)
    }

    fn discard(&self, alloc: Global, to: &str) {
        discard_draft(self.rt, alloc, to);
    }

    fn hold(&self, alloc: Global, path: &str) -> Result<HeldJournal, Fault> {
        hold_file(self.rt, alloc, path)
    }

    fn retire(&self, alloc: Global, held: HeldJournal, path: &str) -> Result<(), Fault> {
        retire_file(self.rt, alloc, held, path)
    }
}
