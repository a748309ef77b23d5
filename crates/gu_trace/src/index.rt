//! The entries that concern each firm, found without a look at those that don't.
ghost use Rattle.std.specs.Prelude.{◌≡◌, ◌≤◌, ℕ, List, length, map, filter, nat_lt};
ghost use Rattle.std.specs.Prelude.{if◌then◌else◌, IfOk, OnOk, OnErr};
ghost use Rattle.std.specs.List.{All};
ghost use Rattle.gu_base.specs.Limits.{most_parts};
ghost use Rattle.gu_base.specs.declared.entry.Entry.{Entry};
ghost use Rattle.gu_trace.specs.Index.{IsIndexOf, RiseWithin};
ghost use Rattle.gu_trace.specs.Reports.{most_reports, entries_for, reports_for};

use crate::concern::firms_concerned;
use crate::firm_numbers::FirmNumbers;
use crate::telling::{tell_from, tell_numbers};
use gu_base::{FirmId, Memory, Number, Report};
use gu_book::Book;
use std::alloc::Global;

/// For each firm the numbers of those of a book's first entries that concern it. It goes with its
/// book whatever calls that answers.
#[derive(Drop)]
pub(crate) struct ConcernIndex {
    by_firm: FirmNumbers,
    /// How many entries are filed.
    filed: u32,
}

/// Of numbers that rise those above this one.
fn above(numbers: &[Number], after: u32) -> &[Number]
    requires { (high : ℕ) × RiseWithin 0 high numbers.now }
    ensures { result.now ≡ filter (λ n. nat_lt after n) numbers.now }
{
    let place = numbers.partition_point(|n| n.get() <= after);
    &numbers[place..]
}

/// The greater of the two.
fn later(after: u32, filed: u32) -> u32
    ensures { result ≡ (if nat_lt filed after then after else filed) }
{
    if filed < after { after } else { filed }
}

impl ConcernIndex {
    /// An index that has filed nothing yet.
    pub(crate) fn new(alloc: Global) -> ConcernIndex
        ensures { (house : List ℕ) (h : List Entry) → IsIndexOf house h result }
    {
        ConcernIndex {
            by_firm: FirmNumbers::new(alloc),
            filed: 0,
        }
    }

    /// Files the entries of its book that aren't filed yet. Where a growth was refused the entries
    /// before the one that wanted it are filed.
    pub(crate) fn file(&mut self, alloc: Global, book: &Book) -> Result<(), Memory>
        requires { IsIndexOf book.now.house.house book.now.history self.old }
        ensures goes_with { IsIndexOf book.now.house.house book.now.history self.new }
        ensures all { OnOk result (self.new.filed ≡ length book.now.history) }
        ensures stays_filed { self.old.filed ≤ self.new.filed }
    {
        let entries = book.history();
        let house = book.house().house();
        for place in self.filed as usize..entries.len() {
            let e = &entries[place];
            let firms = firms_concerned(&house, entries, &e.firm, &e.command);
            self.by_firm.file(alloc, Number::at_place(place), &firms)?;
            self.filed = place as u32 + 1;
        }
        Ok(())
    }

    /// What `reports` gives, by the numbers that are filed for the firm. The entries that aren't
    /// filed are looked at one by one.
    pub(crate) fn reports_by(
        &self,
        alloc: Global,
        book: &Book,
        firm: &FirmId,
        after: u32,
    ) -> Result<Vec<Report>, Memory>
        requires { IsIndexOf book.now.house.house book.now.history self.now }
        ensures value { IfOk result (λ v. v.items
            ≡ reports_for book.now.house.house book.now.history firm.now after) }
        ensures each { IfOk result (λ v. map (λ r. r.number) v.items ≡ map (λ r. r.number)
            (entries_for book.now.house.house book.now.history firm.now after)) }
        ensures memory { OnErr result (1 ≤ length
            (entries_for book.now.house.house book.now.history firm.now after)) }
        ensures few { IfOk result (λ v. length v.items ≤ most_reports) }
        ensures short { IfOk result (λ v. All (λ r. length r.parts ≤ most_parts) v.items) }
    {
        let mut found = Vec::new(alloc);
        let numbers = above(self.by_firm.of(firm), after);
        tell_numbers(alloc, book, firm, numbers, &mut found)?;
        let rest = later(after, self.filed);
        tell_from(alloc, book, firm, rest as usize, &mut found)?;
        Ok(found)
    }
}
