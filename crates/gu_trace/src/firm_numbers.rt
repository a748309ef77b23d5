//! For each firm the numbers of the entries that concern it.
ghost use Rattle.std.specs.Prelude.{◌≡◌, ◌||◌, ℕ, false, List, [], bytes_eq, OnOk, OnErr};
ghost use Rattle.std.specs.List.{All, list_any};
ghost use Rattle.gu_trace.specs.Concerned.{is_among};
ghost use Rattle.gu_trace.specs.Index.{numbers_of, ends_with, with_last, filed, CanPut};

use crate::concern::Concerned;
use gu_base::{FirmId, Memory, Number, Part};
use std::alloc::Global;
use std::collections::HashMap;

/// The numbers of entries, kept for each firm in their order.
#[derive(Drop)]
pub(crate) struct FirmNumbers {
    firms: HashMap<FirmId, Vec<Number>>,
}

/// Whether the last of these numbers is this one.
fn ends_with(numbers: &[Number], number: Number) -> bool
    ensures { result ≡ ends_with number numbers.now }
{
    match numbers.last() {
        Some(last) => *last == number,
        None => false,
    }
}

impl FirmNumbers {
    /// No numbers.
    pub(crate) fn new(alloc: Global) -> FirmNumbers
        ensures { (f : List ℕ) → numbers_of result f ≡ [] }
    {
        FirmNumbers {
            firms: HashMap::new(alloc),
        }
    }

    /// The numbers kept for the firm.
    pub(crate) fn of(&self, firm: &FirmId) -> &[Number]
        ensures { result.now ≡ numbers_of self.now firm.now }
    {
        match self.firms.get(firm) {
            Some(numbers) => numbers.as_slice(),
            None => &[],
        }
    }

    /// Makes room for one more number of the firm.
    fn ready(&mut self, alloc: Global, firm: &FirmId) -> Result<(), Memory>
        ensures ready { OnOk result ((n : ℕ) → CanPut self.new n firm.now) }
        ensures same { (f : List ℕ) → numbers_of self.new f ≡ numbers_of self.old f }
        ensures stays_ready { (n : ℕ) (f : List ℕ) → CanPut self.old n f → CanPut self.new n f }
    {
        if let Some(numbers) = self.firms.get_mut(firm) {
            numbers.reserve(1)?;
            return Ok(());
        }
        let mut numbers = Vec::new(alloc);
        numbers.reserve(1)?;
        self.firms.insert(*firm, numbers)?;
        Ok(())
    }

    /// Makes room for one more number of each firm that a part is for.
    fn ready_parts(&mut self, alloc: Global, parts: &[Part]) -> Result<(), Memory>
        ensures ready { OnOk result (All (λ p. (n : ℕ) → CanPut self.new n p.firm) parts.now) }
        ensures same { (f : List ℕ) → numbers_of self.new f ≡ numbers_of self.old f }
        ensures stays_ready { (n : ℕ) (f : List ℕ) → CanPut self.old n f → CanPut self.new n f }
    {
        for part in parts {
            self.ready(alloc, &part.firm)?;
        }
        Ok(())
    }

    /// Keeps the number for the firm, unless it is the last there. Takes no memory.
    fn put(&mut self, number: Number, firm: &FirmId)
        requires { CanPut self.old number firm.now }
        ensures put { (f : List ℕ) → numbers_of self.new f
            ≡ filed number (bytes_eq firm.now f) (numbers_of self.old f) }
        ensures stays_ready { (f : List ℕ) → CanPut self.old number f → CanPut self.new number f }
    {
        if let Some(numbers) = self.firms.get_mut(firm) {
            if !ends_with(numbers.as_slice(), number) {
                numbers.push_reserved(number);
            }
        }
    }

    /// Keeps the number for each firm that a part is for. Takes no memory.
    fn put_parts(&mut self, number: Number, parts: &[Part])
        requires { All (λ p. CanPut self.old number p.firm) parts.now }
        ensures { (f : List ℕ) → numbers_of self.new f
            ≡ filed number (list_any (λ p. bytes_eq p.firm f) parts.now) (numbers_of self.old f) }
    {
        for part in parts {
            self.put(number, &part.firm);
        }
    }

    /// Keeps the number for each of these firms: all growths come before the first change.
    ///
    /// # Errors
    ///
    /// `Memory` where a growth was refused; then no number has changed.
    pub(crate) fn file(
        &mut self,
        alloc: Global,
        number: Number,
        firms: &Concerned<'_>,
    ) -> Result<(), Memory>
        ensures filed { OnOk result ((f : List ℕ) → numbers_of self.new f
            ≡ filed number (is_among f firms.now) (numbers_of self.old f)) }
        ensures same { OnErr result ((f : List ℕ) → numbers_of self.new f ≡ numbers_of self.old f) }
    {
        match firms {
            Concerned::Nobody => {}
            Concerned::Two(first, second) => {
                self.ready(alloc, first)?;
                self.ready(alloc, second)?;
                self.put(number, first);
                self.put(number, second);
            }
            Concerned::Parts(by, parts) => {
                self.ready(alloc, by)?;
                self.ready_parts(alloc, parts)?;
                self.put(number, by);
                self.put_parts(number, parts);
            }
        }
        Ok(())
    }
}
