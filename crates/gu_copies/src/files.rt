//! Where journals are read and copied by their paths.

use gu_command::Fault;
use std::alloc::Global;
use std::io;

/// A new file that is to be a copy.
pub trait Drafted {
    ghost use Rattle.std.specs.Prelude.{ℕ, List, OnOk};

    /// All of these bytes were written to it, and nothing else.
    ghost has: { Self → List ℕ → Type 0 };

    /// Writes all of the bytes to it, once it is made.
    ///
    /// # Errors
    ///
    /// The error of the write that failed, or `WriteZero`; a front of the bytes may stand in it.
    fn fill(&mut self, text: &[u8]) -> io::Result<()>
        ensures { OnOk result (has self.new text.now) };
}

/// A copy that is on the disk.
pub trait Synced {
    ghost use Rattle.std.specs.Prelude.{ℕ, List};

    /// It has these bytes there, and nothing else.
    ghost keeps: { Self → List ℕ → Type 0 };
}

/// Where the bytes of journals are read, and copies of them are made.
pub trait JournalFiles {
    ghost use Rattle.std.specs.Prelude.{◌≡◌, ℕ, List, Option, IfSome, IfOk, IfErr, OnOk};
    ghost use Rattle.std.specs.Prelude.{IsTrue};
    ghost use Rattle.gu_command.specs.Faults.{is_keep_fault};

    /// The bytes of the file at a path, where it is known that they can be read.
    ghost journal_at: { Self → List ℕ → Option (List ℕ) };

    /// A copy that has no name of its own yet.
    type Draft: Drafted + Drop;

    /// The same, once it is on the disk.
    type Synced: Synced + Drop;

    /// A journal that no server has while this is there.
    type Held: Drop;

    /// A copy with these bytes was made at a path, and is on the disk.
    ghost is_copied: { Self → List ℕ → List ℕ → Type 0 };

    /// The bytes of the journal at a path. Where a server writes it, they are those of a moment.
    ///
    /// # Errors
    ///
    /// `Journal` where it isn't there, is no regular file, is empty or can't be read, which the
    /// text says; or want of memory.
    fn read_journal(&self, alloc: Global, path: &str) -> Result<Vec<u8>, Fault>
        ensures bytes { IfOk result (λ text. IfSome (journal_at self.now path.now)
            (λ bytes. text.items ≡ bytes)) }
        ensures fault { IfErr result (λ e. IsTrue (is_keep_fault e)) };

    /// A new file without bytes beside the path that a copy is to have.
    ///
    /// # Errors
    ///
    /// `Journal` where something stands at either path, or the file can't be made; or want of
    /// memory.
    fn draft(&self, alloc: Global, to: &str) -> Result<Self::Draft, Fault>
        ensures fault { IfErr result (λ e. IsTrue (is_keep_fault e)) };

    /// Syncs a copy that has all of these bytes.
    ///
    /// # Errors
    ///
    /// The error of the sync. Of the copy nothing is known then.
    fn sync(&self, draft: Self::Draft, text: &[u8]) -> io::Result<Self::Synced>
        requires whole { Self.Draft.has draft text.now }
        ensures kept { IfOk result (λ copy. Self.Synced.keeps copy text.now) };

    /// Gives a copy that has all of these bytes on the disk its name, which nothing has yet.
    ///
    /// # Errors
    ///
    /// `Journal` where something has the name, or it can't be given; then the copy is taken away.
    /// `Journal` too where the folder can't be synced, and want of memory.
    fn name(&self, alloc: Global, copy: Self::Synced, to: &str, text: &[u8]) -> Result<(), Fault>
        requires kept { Self.Synced.keeps copy text.now }
        ensures copied { OnOk result (is_copied self.now to.now text.now) }
        ensures fault { IfErr result (λ e. IsTrue (is_keep_fault e)) };

    /// Takes a copy away that isn't whole, or isn't on the disk.
    fn discard(&self, alloc: Global, to: &str);

    /// Locks the journal at a path, until it is dropped. Nothing stands under its name and
    /// `.before`.
    ///
    /// # Errors
    ///
    /// `Journal` where a server has it, where it isn't there or is no regular file, or where
    /// something has that other name; or want of memory.
    fn hold(&self, alloc: Global, path: &str) -> Result<Self::Held, Fault>
        ensures fault { IfErr result (λ e. IsTrue (is_keep_fault e)) };

    /// Puts `.before` behind the name of the journal at a path, which is locked.
    ///
    /// # Errors
    ///
    /// `Journal`, whose text says that it keeps its name, or after a crash may have it, while what
    /// comes in its place is whole; or want of memory for that.
    fn retire(&self, alloc: Global, held: Self::Held, path: &str) -> Result<(), Fault>
        ensures fault { IfErr result (λ e. IsTrue (is_keep_fault e)) };
}
