//! What a statement is made from.
ghost use Rattle.std.specs.Prelude.{◌≡◌, ◌≤◌, ◌∷◌, [], length, option_map, slice_get};
ghost use Rattle.gu_base.specs.History.{live, numbered_as};
ghost use Rattle.gu_base.specs.Limits.{most_entries};
ghost use Rattle.gu_base.specs.Standing.{IsLegal};
ghost use Rattle.gu_statement.specs.Lines.{is_of};
ghost use Rattle.gu_statement.specs.Sheets.{IsSheet};

use crate::branches::Branches;
use crate::heard::{RefusedCalls, Times};
use gu_base::{Entry, FirmId, Number};
use gu_book::{Book, entry_at};
use std::alloc::Global;

/// A book with its times and calls that came to nothing, and of which firm it is told: of all where
/// that is none.
#[derive(Clone, Copy)]
pub(crate) struct Sheet<'a> {
    pub(crate) alloc: Global,
    pub(crate) book: &'a Book,
    /// The numbers of its live changes, in order.
    pub(crate) live: &'a [Number],
    pub(crate) times: &'a Times,
    pub(crate) refused: Option<&'a RefusedCalls>,
    pub(crate) branches: &'a Branches,
    pub(crate) whose: Option<FirmId>,
}

impl<'a> Sheet<'a> {
    /// The entries.
    pub(crate) fn entries(&self) -> &'a [Entry]
        ensures value { result.now ≡ self.now.book.now.history }
        ensures fits { length self.now.book.now.history ≤ most_entries }
        ensures legal { IsLegal self.now.book.now.house (live self.now.book.now.history) }
    {
        self.book.history()
    }

    /// Whether something of this firm is in the statement.
    pub(crate) fn is_of(&self, firm: &FirmId) -> bool
        ensures { result ≡ is_of self.now.whose (firm.now ∷ []) }
    {
        match &self.whose {
            None => true,
            Some(f) => *f == *firm,
        }
    }

    /// Whether something between these firms is.
    pub(crate) fn is_between(&self, giver: &FirmId, taker: &FirmId) -> bool
        ensures { result ≡ is_of self.now.whose (giver.now ∷ taker.now ∷ []) }
    {
        self.is_of(giver) || self.is_of(taker)
    }

    /// The live change at this place among them, with its number.
    #[tactic(auto, using(crate::proofs::Live::live_past))]
    pub(crate) fn live_at(&self, place: usize) -> Option<(Number, &'a Entry)>
        requires { IsSheet self.now }
        ensures change { option_map (λ p. numbered_as p.0 p.1.now) result
            ≡ slice_get (live self.now.book.now.history) place }
        ensures legal { IsLegal self.now.book.now.house (live self.now.book.now.history) }
    {
        let entries = self.entries();
        let Some(number) = self.live.get(place) else {
            return None;
        };
        match entry_at(entries, *number) {
            Some(entry) => Some((*number, entry)),
            None => None,
        }
    }
}
