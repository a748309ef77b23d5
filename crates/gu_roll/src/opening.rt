//! The opening of a new book, which has the agreements of the old one's that weren't reversed.

ghost use Rattle.std.specs.Prelude.{◌≡◌, ◌+◌, ◌-◌, ◌++◌, ◌∷◌, [], false, length, slice_get};
ghost use Rattle.std.specs.Prelude.{IsTrue, IfOk, IfErr, OnOk};
ghost use Rattle.std.specs.List.{filter_map};
ghost use Rattle.gu_base.specs.Answers.{answer_to};
ghost use Rattle.gu_base.specs.Runs.{call_of, opening_history};
ghost use Rattle.gu_base.specs.declared.entry.Answer.TheVariants.{Accepted};
ghost use Rattle.gu_book.specs.Seen.{stored};
ghost use Rattle.gu_roll.specs.Lack.{first_apart};
ghost use Rattle.gu_roll.specs.Reopened.{begun_under};
ghost use Rattle.gu_roll.specs.Rolled.{IsUnmade};

use crate::error::RollError;
use crate::extending::{are_same_made, made_at};
use gu_base::{Agreement, Answer, Entry, Memory, Number, Pair};
use gu_book::Book;
use gu_parties::House;
use std::alloc::{AllocError, Global};

/// The agreements of a table's opening that have these numbers.
fn lines_at(
    alloc: Global,
    house: &House,
    numbers: &[Number],
) -> Result<Vec<(Pair, Agreement)>, Memory>
    ensures { IfOk result (λ v. v.items
        ≡ filter_map (λ n. slice_get house.now.opening (n - 1)) numbers.now) }
{
    let mut lines = Vec::new(alloc);
    for number in numbers {
        if let Some(line) = made_at(house, number.get() as usize - 1) {
            lines.push(line)?;
        }
    }
    Ok(lines)
}

/// The agreement at a place.
fn line_at(lines: &[(Pair, Agreement)], place: usize) -> Option<(Pair, Agreement)>
    ensures { result ≡ slice_get lines.now place }
{
    match lines.get(place) {
        Some(line) => Some(*line),
        None => None,
    }
}

/// The first agreement of a table's opening, counted from 1, that isn't the same as the one at its
/// place among others.
fn first_other_line(house: &House, lines: &[(Pair, Agreement)]) -> Option<usize>
    ensures { result ≡ first_apart 1 house.now.opening lines.now }
{
    let most = house.opening_count().max(lines.len());
    for place in 0..most {
        if !are_same_made(made_at(house, place), line_at(lines, place)) {
            return Some(place + 1);
        }
    }
    None
}

/// The first agreement of the new table's opening, counted from 1, that isn't the same as the one
/// at its place among those of the old one's that have these numbers.
pub(crate) fn first_changed(
    alloc: Global,
    old: &House,
    new: &House,
    numbers: &[Number],
) -> Result<Option<usize>, Memory>
    ensures { IfOk result (λ r. r ≡ first_apart 1 new.now.opening
        (filter_map (λ n. slice_get old.now.opening (n - 1)) numbers.now)) }
{
    let lines = lines_at(alloc, old, numbers)?;
    Ok(first_other_line(new, &lines))
}

/// The book of a house in its opening.
fn opened(alloc: Global, house: &House) -> Result<Book, Memory>
    ensures { IfOk result (λ b. stored b ≡ record {
      house = house.now;
      history = opening_history house.now;
    }) }
{
    let copy = house.copy(alloc)?;
    match Book::open(alloc, copy) {
        Ok(book) => Ok(book),
        Err((house, error)) => {
            drop(house);
            Err(error)
        }
    }
}

/// Makes the call of an entry once more. Whether it is accepted as it was.
fn is_again(alloc: Global, book: &mut Book, entry: &Entry) -> Result<bool, Memory>
    ensures house { OnOk result (book.new.house ≡ book.old.house) }
    ensures again { IfOk result (λ is. IsTrue is
        → book.new.history ≡ book.old.history ++ entry.now ∷ []) }
    ensures unlike { IfOk result (λ is. is ≡ false
        → answer_to book.old.house book.old.history (call_of entry.now)
        ≡ Accepted (length book.old.history + 1) entry.now.status → ⊥) }
{
    match &book.apply(alloc, &entry.firm, &entry.id, &entry.command) {
        Ok(Answer::Accepted { status, .. }) => Ok(*status == entry.status),
        Ok(_) => Ok(false),
        Err(_) => Err(AllocError),
    }
}

/// The book that the opening of a house makes, and behind it the calls of the entries that stand
/// behind as many.
pub(crate) fn begun_under(
    alloc: Global,
    house: &House,
    entries: &[Entry],
) -> Result<Book, RollError>
    ensures begun { IfOk result (λ b. stored b ≡ record {
      house = house.now;
      history = begun_under house.now entries.now;
    }) }
    ensures why { IfErr result (IsUnmade house.now entries.now) }
{
    let mut book = opened(alloc, house)?;
    for place in house.opening_count()..entries.len() {
        let number = book.history().len() + 1;
        match is_again(alloc, &mut book, &entries[place]) {
            Ok(true) => {}
            Ok(false) => {
                drop(book);
                return Err(RollError::Unlike(number));
            }
            Err(error) => {
                drop(book);
                return Err(RollError::from(error));
            }
        }
    }
    Ok(book)
}
