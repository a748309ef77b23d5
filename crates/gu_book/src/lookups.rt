//! The Reverse of an entry, found without going over the history.
ghost use Rattle.std.specs.Prelude.{◌≡◌, ◌==◌, ℕ, Some, None, if◌then◌else◌, OnOk};
ghost use Rattle.gu_book.specs.Lookups.{reversal_in, HasRoomAt};

use gu_base::{Memory, Number};
use std::alloc::Global;

/// The number of the Reverse of each entry of a history that has one. It lies at the entry's own
/// place, so a look-up is one look, however many there are; the list is no longer than the last of
/// these entries.
#[derive(Drop)]
pub(crate) struct Reversals {
    /// 0 at an entry without one.
    numbers: Vec<u32>,
}

impl Reversals {
    /// No Reverse.
    pub(crate) fn new(alloc: Global) -> Reversals
        ensures { (entry : ℕ) → reversal_in result entry ≡ None }
    {
        Reversals {
            numbers: Vec::new(alloc),
        }
    }

    /// The number of the Reverse of the entry.
    pub(crate) fn number(&self, entry: Number) -> Option<Number>
        ensures { result ≡ reversal_in self.now entry }
    {
        match self.numbers.get(entry.get() as usize) {
            Some(number) => Number::new(*number),
            None => None,
        }
    }

    /// Makes room for the number of the Reverse of an entry.
    pub(crate) fn ready(&mut self, entry: Number) -> Result<(), Memory>
        ensures room { OnOk result (HasRoomAt self.new entry) }
        ensures same { (n : ℕ) → reversal_in self.new n ≡ reversal_in self.old n }
    {
        let place = entry.get() as usize;
        if place >= self.numbers.len() {
            self.numbers.resize(place + 1, 0)?;
        }
        Ok(())
    }

    /// Puts the number of the Reverse of an entry in; there has to be room for it.
    pub(crate) fn put(&mut self, entry: Number, number: Number)
        requires { HasRoomAt self.old entry }
        ensures { (n : ℕ) → reversal_in self.new n
            ≡ (if entry == n then Some number else reversal_in self.old n) }
    {
        self.numbers[entry.get() as usize] = number.get();
    }
}
