//! The entries that a new book gets of an old one.

ghost use Rattle.std.specs.Prelude.{◌≡◌, ◌≤◌, ◌-◌, ℕ, false, length, map};
ghost use Rattle.std.specs.Prelude.{IsTrue, IfOk, IfErr, OnOk};
ghost use Rattle.gu_base.specs.History.{is_reversed, live};
ghost use Rattle.gu_base.specs.House.{HasLawfulOpening};
ghost use Rattle.gu_base.specs.Limits.{most_entries};
ghost use Rattle.gu_base.specs.Runs.{opening_history, IsRunFrom};
ghost use Rattle.gu_lives.specs.Renumbered.{rolled};
ghost use Rattle.gu_lives.specs.Roll.{CanRoll};
ghost use Rattle.gu_roll.specs.Carried.{carried};
ghost use Rattle.gu_roll.specs.Losing.{IsLost, reversed_in};
ghost use Rattle.gu_roll.specs.Reopened.{live_opening};
ghost use Rattle.gu_roll.specs.Rolled.{IsUncarried};

use crate::error::RollError;
use crate::keep::{Asked, Keep};
use crate::lost::{Lost, count_consented, count_reversed};
use crate::opening::first_changed;
use crate::renumbered::entries_of;
use crate::sharing::{Share, shares_of};
use crate::waiting::open_numbers;
use gu_base::{Command, Entry, Memory, Number};
use gu_book::Book;
use gu_parties::House;
use std::alloc::Global;

/// Whether no Reverse of a history reverses an entry with a number up to this.
fn are_live(history: &[Entry], most: usize) -> bool
    ensures { IsTrue result → (n : ℕ) → n ≤ most → is_reversed history.now n ≡ false }
{
    for entry in history {
        if let Command::Reverse { entry: undone } = &entry.command {
            if undone.get() as usize <= most {
                return false;
            }
        }
    }
    true
}

/// The numbers of the live changes.
fn live_numbers(alloc: Global, book: &Book) -> Result<Vec<Number>, Memory>
    ensures { IfOk result (λ v. v.items ≡ map (λ r. r.number) (live book.now.history)) }
{
    book.live(alloc)
}

/// Those of the numbers of the live changes that are kept.
fn kept_numbers(
    alloc: Global,
    book: &Book,
    numbers: Vec<Number>,
    keep: Keep,
) -> Result<Vec<Number>, Memory>
    requires numbers { numbers.items ≡ map (λ r. r.number) (live book.now.history) }
    requires lawful { HasLawfulOpening book.now.house }
    requires small { length book.now.house.opening ≤ most_entries }
    requires run { IsRunFrom book.now.house (opening_history book.now.house) book.now.history }
    ensures { IfOk result (λ v. v.items ≡ map (λ r. r.number) (carried keep book.now.history)) }
{
    match keep {
        Keep::All => Ok(numbers),
        Keep::Open => open_numbers(alloc, book.history(), &numbers),
    }
}

/// What is told of a new book beside its entries: the numbers that they had, how much it lacks of
/// the old one, and which firms they concern, if that is asked for.
#[derive(Drop)]
pub(crate) struct Tally {
    pub(crate) numbers: Vec<Number>,
    pub(crate) lost: Lost,
    pub(crate) shares: Vec<Share>,
}

/// The entries of a new book, what is told of it, and whether no agreement of the old opening was
/// reversed.
#[derive(Drop)]
pub(crate) struct Picked {
    pub(crate) entries: Vec<Entry>,
    pub(crate) tally: Tally,
    pub(crate) is_whole: bool,
}

/// Which firms the entries of these numbers concern, if that is asked for.
fn asked_shares(
    alloc: Global,
    book: &Book,
    numbers: &[Number],
    asked: Asked,
) -> Result<Vec<Share>, Memory>
    requires few { length numbers.now ≤ most_entries }
{
    if asked.shares {
        shares_of(alloc, book, numbers)
    } else {
        Ok(Vec::new(alloc))
    }
}

/// What is told of a book that keeps these of the live changes, which are so many, so many of them
/// with consents.
fn tally_of(
    alloc: Global,
    book: &Book,
    numbers: Vec<Number>,
    count: usize,
    consented: usize,
    asked: Asked,
) -> Result<Tally, Memory>
    requires few { length numbers.items ≤ most_entries }
    ensures numbers { IfOk result (λ t. t.numbers.items ≡ numbers.items) }
    ensures reversed { IfOk result (λ t. t.lost.reversed ≡ reversed_in book.now.history) }
    ensures closed { IfOk result (λ t. t.lost.closed ≡ count - length numbers.items) }
    ensures consented { IfOk result (λ t. t.lost.consented ≡ consented) }
{
    let shares = asked_shares(alloc, book, &numbers, asked)?;
    let lost = Lost {
        reversed: count_reversed(book.history()),
        closed: count.saturating_sub(numbers.len()),
        consented,
    };
    Ok(Tally {
        numbers,
        lost,
        shares,
    })
}

/// The entries of a new book with what is kept of the live changes of an old one, and what is told
/// of it. The new table's opening has those agreements of the old one's that weren't reversed.
pub(crate) fn pick(
    alloc: Global,
    book: &Book,
    new: &House,
    asked: Asked,
) -> Result<Picked, RollError>
    requires lawful { HasLawfulOpening book.now.house }
    requires small { length book.now.house.opening ≤ most_entries }
    requires run { IsRunFrom book.now.house (opening_history book.now.house) book.now.history }
    ensures opens { OnOk result
        (new.now.opening ≡ live_opening book.now.house book.now.history) }
    ensures can { IfOk result (λ p. IsTrue p.is_whole → CanRoll book.now.house book.now.history) }
    ensures entries { IfOk result (λ p. p.entries.items
        ≡ rolled (carried asked.keep book.now.history)) }
    ensures numbers { IfOk result (λ p. p.tally.numbers.items
        ≡ map (λ r. r.number) (carried asked.keep book.now.history)) }
    ensures lost { IfOk result (λ p. IsLost asked.keep book.now.history p.tally.lost) }
    ensures why { IfErr result (IsUncarried book.now.house new.now book.now.history) }
{
    let live = live_numbers(alloc, book)?;
    if let Some(number) = first_changed(alloc, book.house(), new, &live)? {
        drop(live);
        return Err(RollError::OtherOpening(number));
    }
    let is_whole = are_live(book.history(), book.house().opening_count());
    let count = live.len();
    let consented = count_consented(alloc, book.history(), &live)?;
    let numbers = kept_numbers(alloc, book, live, asked.keep)?;
    let entries = match entries_of(alloc, book.history(), &numbers) {
        Ok(entries) => entries,
        Err(e) => {
            drop(numbers);
            return Err(RollError::from(e));
        }
    };
    let tally = match tally_of(alloc, book, numbers, count, consented, asked) {
        Ok(tally) => tally,
        Err(e) => {
            drop(entries);
            return Err(RollError::from(e));
        }
    };
    Ok(Picked {
        entries,
        tally,
        is_whole,
    })
}
