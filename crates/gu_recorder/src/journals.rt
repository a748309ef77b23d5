//! What a kept book asks of its journal.

use gu_base::Entry;
use gu_book::{Book, HashKey};
use gu_command::{Fault, RecordError};
use gu_desk::Keeps;
use gu_journal::Progress;
use gu_parties::House;
use std::alloc::Global;

/// A checksum of a journal's file.
#[derive(Clone, Copy)]
pub struct Checksum {
    /// How many bytes count.
    pub bytes: usize,
    /// Their SHA-512 in hex digits.
    pub sha512: [u8; 128],
}

/// A journal that is open: it says a history of a house, and takes further entries.
pub trait OpenJournal: Keeps {
    ghost use Rattle.std.specs.Prelude.{◌≡◌, List, ◌++◌, true, OnOk, IfErr};
    ghost use Rattle.gu_base.specs.House.{House as HouseTable};
    ghost use Rattle.gu_base.specs.Runs.{IsRunFrom};
    ghost use Rattle.gu_base.specs.declared.entry.Entry.{Entry};
    ghost use Rattle.gu_desk.specs.Begins.{BeginsWith};
    ghost use Rattle.gu_command.specs.declared.errors.RecordError.TheVariants.{Memory as NoMemory};

    /// The house whose history it says.
    ghost house: { Self → HouseTable };

    /// It takes further entries.
    ghost takes: { Self → Type 0 };

    /// It says this history.
    ghost says: { Self → List Entry → Type 0 };

    /// Puts entries that the rules accept behind the history, all at this moment. At `Ok` they are
    /// kept with it. Whatever it answers, the history from before is kept.
    ///
    /// # Errors
    ///
    /// As `RecordError` says; the journal takes no more then, but for `Memory`, which leaves it as
    /// it was.
    fn record(&mut self, moment: &[u8], entries: &[Entry]) -> Result<(), RecordError>
        requires { takes self.old }
        ensures takes { OnOk result (takes self.new) }
        ensures same { house self.new ≡ house self.old }
        ensures says { (h : List Entry) → says self.old h
            → IsRunFrom (house self.old) h (h ++ entries.now)
            → OnOk result (says self.new (h ++ entries.now)) }
        ensures kept { (h : List Entry) → says self.old h
            → IsRunFrom (house self.old) h (h ++ entries.now)
            → Self.Keeps.keeps self.new h }
        ensures refused { IfErr result (λ e. e ≡ NoMemory → takes self.new) }
        ensures still { (h : List Entry) → says self.old h
            → IfErr result (λ e. e ≡ NoMemory → says self.new h) };

    /// The last word of the other machines is that the server may go on, if they have a say in it.
    ghost has_word: { Self → Type 0 };

    /// Asks whether the server may go on: whether it may. The journal stays as it is.
    fn ask(&mut self) -> bool
        ensures word { result ≡ true → has_word self.new }
        ensures house { house self.new ≡ house self.old }
        ensures takes { takes self.old → takes self.new }
        ensures says { (h : List Entry) → says self.old h → says self.new h }
        ensures kept { (h : List Entry) → Self.Keeps.keeps self.old h
            → Self.Keeps.keeps self.new h };

    /// Whether its file, if it has one, is where it was opened, and not shorter than what it says.
    fn is_there(&self) -> bool {
        true
    }

    /// Whether others than its owner and group might read its file, if it has one, when that was
    /// opened.
    fn is_others(&self) -> bool {
        false
    }

    /// For how many microseconds the last record has waited for other machines behind its disk.
    /// None where there are none.
    fn waited(&self) -> Option<u64> {
        None
    }

    /// How many bytes of its file count; 0 where it has no file.
    fn bytes(&self) -> usize {
        0
    }

    /// What an operator may compare its file with. None where it has no file, or memory lacks.
    fn checksum(&self) -> Option<Checksum> {
        None
    }

    /// With a history each beginning of it is kept.
    ghost keeps_begun: { (journal : Self) (h begun : List Entry) → BeginsWith h begun
        → Self.Keeps.keeps journal h → Self.Keeps.keeps journal begun };

    /// What it says is kept.
    ghost keeps_all: { (journal : Self) (h : List Entry) → says journal h
        → Self.Keeps.keeps journal h };
}

/// Where a journal is opened by its path: one, since opening it uses this up.
pub trait Journals {
    ghost use Rattle.std.specs.Prelude.{◌≡◌, IfOk, IfErr, IsTrue};
    ghost use Rattle.gu_base.specs.Runs.{IsRunFrom, opening_history};
    ghost use Rattle.gu_command.specs.Faults.{is_keep_fault};

    /// What `open` gives: a journal that keeps entries.
    type Journal: OpenJournal + Drop + Send + 'static;

    /// Opens the journal at a path, which is made where it isn't there, and gives the book of the
    /// history that it says, which finds ids under this key from its first entry on. It is one of
    /// this house, whose file has these bytes. Where the path of a socket is given, whoever listens
    /// there puts on other machines what is kept. How far the journal is read is told meanwhile.
    ///
    /// # Errors
    ///
    /// `Journal`, whose text says which file and what is wrong with it; or want of memory. Nothing
    /// was written then.
    fn open<P: Progress>(
        self,
        alloc: Global,
        path: &str,
        replica: Option<&str>,
        text: &[u8],
        house: House,
        key: HashKey,
        progress: &mut P,
    ) -> Result<(Book, Self::Journal), Fault>
        ensures house { IfOk result (λ r. Self.Journal.house r.1 ≡ house) }
        ensures book { IfOk result (λ r. r.0.house ≡ house) }
        ensures run { IfOk result (λ r. IsRunFrom house (opening_history house) r.0.history) }
        ensures says { IfOk result (λ r. Self.Journal.says r.1 r.0.history) }
        ensures takes { IfOk result (λ r. Self.Journal.takes r.1) }
        ensures fault { IfErr result (λ e. IsTrue (is_keep_fault e)) };
}
