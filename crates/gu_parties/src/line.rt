//! The lines behind line 2.
ghost use Rattle.std.specs.Prelude.{◌≡◌, [], OnErr};
ghost use Rattle.gu_base.specs.House.{House as Table};
ghost use Rattle.gu_parties.specs.Steps.{add_line, Does};
ghost use Rattle.gu_parties.specs.Words.{words};
ghost use Rattle.gu_parties.specs.Line.{says};

use crate::fault::Cause;
use crate::house::House;
use crate::words::first_word;

/// A line by its first word and its number of words.
#[derive(Clone, Copy)]
pub(crate) enum HouseLine<'a> {
    Firm(&'a [u8]),
    Account(&'a [u8], &'a [u8]),
    Instrument(&'a [u8]),
    Agreement(&'a [u8], &'a [u8], &'a [u8], &'a [u8]),
    Other,
}

/// The line of these words.
#[tactic(auto, using(crate::proofs::LongLine::long_lines))]
pub(crate) fn line_of(text: &[u8]) -> HouseLine<'_>
    ensures { (t : Table) → add_line t (words text.now) ≡ says result t }
{
    let (word, rest) = first_word(text);
    let Some(rest) = rest else {
        return HouseLine::Other;
    };
    let (first, rest) = first_word(rest);
    let Some(rest) = rest else {
        if word == b"FIRM".as_slice() {
            return HouseLine::Firm(first);
        }
        if word == b"INSTRUMENT".as_slice() {
            return HouseLine::Instrument(first);
        }
        return HouseLine::Other;
    };
    let (second, rest) = first_word(rest);
    let Some(rest) = rest else {
        if word == b"ACCOUNT".as_slice() {
            return HouseLine::Account(first, second);
        }
        return HouseLine::Other;
    };
    let (third, rest) = first_word(rest);
    let Some(rest) = rest else {
        return HouseLine::Other;
    };
    let (fourth, rest) = first_word(rest);
    if rest.is_some() {
        return HouseLine::Other;
    }
    if word == b"AGREEMENT".as_slice() {
        return HouseLine::Agreement(first, second, third, fourth);
    }
    HouseLine::Other
}

impl House {
    /// Does what a line says.
    pub(crate) fn add_line(&mut self, text: &[u8]) -> Result<(), Cause>
        requires none_made { self.old.opening ≡ [] }
        ensures does { Does self.new result (add_line self.old (words text.now)) }
        ensures refused { OnErr result (self.new ≡ self.old) }
    {
        match line_of(text) {
            HouseLine::Firm(firm) => self.add_firm(firm),
            HouseLine::Account(firm, name) => self.add_account(firm, name),
            HouseLine::Instrument(name) => self.add_instrument(name),
            HouseLine::Agreement(giver, taker, rate, limit) => {
                self.add_agreement(giver, taker, rate, limit)
            }
            HouseLine::Other => Err(Cause::BadLine),
        }
    }
}
