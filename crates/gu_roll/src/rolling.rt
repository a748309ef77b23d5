//! The journal of a new book, which has the live changes of an old one alone.

ghost use Rattle.std.specs.Prelude.{◌≡◌, ◌≤◌, [], length, IsTrue, IfOk, IfErr, OnOk};
ghost use Rattle.gu_base.specs.House.{HasLawfulOpening};
ghost use Rattle.gu_base.specs.Limits.{most_entries};
ghost use Rattle.gu_base.specs.Runs.{opening_history, IsRunFrom};
ghost use Rattle.gu_journal.specs.Counting.{Recovers, IsPart};
ghost use Rattle.gu_lives.specs.Extends.{Extends, HasMore};
ghost use Rattle.gu_roll.specs.Reopened.{begun_under};
ghost use Rattle.gu_roll.specs.Rolled.{IsRolledInto, IsRollWhy, IsOtherLack, IsUnmade};
ghost use Rattle.gu_roll.specs.Rolled.{IsUnrolled};

use crate::anew::{Form, counted, written};
use crate::error::{ExtendError, RollError};
use crate::extending::{check_extends, check_has_more};
use crate::keep::Asked;
use crate::lost::Lost;
use crate::opening::begun_under;
use crate::picking::{Picked, Tally, pick};
use crate::sharing::Share;
use gu_base::{Entry, Number};
use gu_book::HashKey;
use gu_journal::{HouseDigest, JournalError};
use gu_lives::a_book_is_rolled;
use gu_parties::House;
use std::alloc::Global;

/// A house table, and the digest of its file.
#[derive(Drop)]
pub struct PinnedHouse {
    /// The table.
    pub house: House,
    /// The digest.
    pub pin: HouseDigest,
}

/// The journal of a new book.
#[derive(Drop)]
pub struct RolledBook {
    /// Its file.
    pub bytes: Vec<u8>,
    /// The number that each of its entries had in the old book, in order: entry 1 the first of
    /// these, entry 2 the second.
    pub numbers: Vec<Number>,
    /// How much it lacks of the old one.
    pub lost: Lost,
    /// Which entry concerns which firm, in the order of the entries, if that was asked for.
    pub shares: Vec<Share>,
}

/// The journal of a new book of these entries.
fn written_anew(
    alloc: Global,
    entries: &[Entry],
    tally: Tally,
    form: Form,
    new: PinnedHouse,
    key: HashKey,
) -> Result<RolledBook, RollError>
    requires room { form.room.items ≡ [] }
    requires run { IsRunFrom new.house (opening_history new.house) entries.now }
    ensures again { IfOk result (λ r. Recovers new.house new.pin.bytes r.bytes.items entries.now) }
    ensures part { IfOk result (λ r. IsPart new.house new.pin.bytes r.bytes.items) }
    ensures numbers { IfOk result (λ r. r.numbers.items ≡ tally.numbers.items) }
    ensures lost { IfOk result (λ r. r.lost ≡ tally.lost) }
    ensures unwritten { IfErr result IsUnrolled }
{
    let Tally {
        numbers,
        lost,
        shares,
    } = tally;
    let PinnedHouse { house, pin } = new;
    match written(alloc, entries, Some(&numbers), form, house, key, &pin) {
        Ok(bytes) => Ok(RolledBook {
            bytes,
            numbers,
            lost,
            shares,
        }),
        Err(error) => {
            drop(numbers);
            drop(shares);
            Err(RollError::Extend(error))
        }
    }
}

/// The same behind the opening of the new house, whose calls and those of the entries are made
/// once more: the entries that stand behind as many as it has are accepted again.
fn written_again(
    alloc: Global,
    entries: Vec<Entry>,
    tally: Tally,
    form: Form,
    new: PinnedHouse,
    key: HashKey,
) -> Result<RolledBook, RollError>
    requires { form.room.items ≡ [] }
    ensures again { IfOk result (λ r. Recovers new.house new.pin.bytes r.bytes.items
        (begun_under new.house entries.items)) }
    ensures part { IfOk result (λ r. IsPart new.house new.pin.bytes r.bytes.items) }
    ensures numbers { IfOk result (λ r. r.numbers.items ≡ tally.numbers.items) }
    ensures lost { IfOk result (λ r. r.lost ≡ tally.lost) }
    ensures why { IfErr result (IsUnmade new.house entries.items) }
{
    let found = begun_under(alloc, &new.house, &entries);
    drop(entries);
    match found {
        Ok(book) => {
            let made = written_anew(alloc, book.history(), tally, form, new, key);
            drop(book);
            made
        }
        Err(error) => {
            drop(tally);
            drop(form);
            drop(new);
            Err(error)
        }
    }
}

/// The journal of a new book of what was picked. Where the new table extends the old one, and no
/// agreement of the opening was reversed, the entries are accepted again.
fn written_of(
    alloc: Global,
    picked: Picked,
    extends: bool,
    form: Form,
    new: PinnedHouse,
    key: HashKey,
) -> Result<RolledBook, RollError>
    requires room { form.room.items ≡ [] }
    requires run { IsTrue extends → IsTrue picked.is_whole
        → IsRunFrom new.house (opening_history new.house) picked.entries.items }
    requires begun { IsTrue extends → IsTrue picked.is_whole
        → picked.entries.items ≡ begun_under new.house picked.entries.items }
    ensures again { IfOk result (λ r. Recovers new.house new.pin.bytes r.bytes.items
        (begun_under new.house picked.entries.items)) }
    ensures part { IfOk result (λ r. IsPart new.house new.pin.bytes r.bytes.items) }
    ensures numbers { IfOk result (λ r. r.numbers.items ≡ picked.tally.numbers.items) }
    ensures lost { IfOk result (λ r. r.lost ≡ picked.tally.lost) }
    ensures why { IfErr result (IsUnmade new.house picked.entries.items) }
{
    let Picked {
        entries,
        tally,
        is_whole,
    } = picked;
    if extends && is_whole {
        written_anew(alloc, &entries, tally, form, new, key)
    } else {
        written_again(alloc, entries, tally, form, new, key)
    }
}

/// Whether the new table extends the old one. It has more, whatever their openings.
fn extends(old: &House, new: &House) -> Result<bool, RollError>
    ensures more { OnOk result (HasMore old.now new.now) }
    ensures extends { IfOk result (λ b. IsTrue b → Extends old.now new.now) }
    ensures lawful { OnOk result (HasLawfulOpening old.now) }
    ensures small { OnOk result (length old.now.opening ≤ most_entries) }
    ensures why { IfErr result (IsOtherLack old.now new.now) }
{
    match check_has_more(old, new) {
        Ok(()) => {}
        Err(lack) => return Err(RollError::Extend(ExtendError::Lacks(lack))),
    }
    if old.opening_count() > Number::MAX as usize {
        return Err(RollError::Extend(ExtendError::Unwritten(JournalError::Full)));
    }
    Ok(check_extends(old, new).is_ok())
}

/// The journal of a new book with the live changes of an old one alone, whose journal is in these
/// bytes: entry by entry in their order, with numbers from 1 on and with the new number of each
/// entry that a command names, each of its own firm, under its own id and at its own moment. The
/// new house table has more than the old one; its opening has the agreements of the old one's that
/// weren't reversed, under ids of their own. A start from the new journal under the new house file,
/// which has this digest, gives that history.
///
/// # Errors
///
/// `OtherOpening`, where the new opening isn't that; `Unlike`, where an entry isn't accepted again
/// under another opening; `Extend`, with what else `extend` would end with, or for want of memory.
pub fn roll(
    alloc: Global,
    file: Vec<u8>,
    old: PinnedHouse,
    new: PinnedHouse,
    key: HashKey,
    asked: Asked,
) -> Result<RolledBook, RollError>
    ensures rolled { IfOk result (λ r. IsRolledInto old.house new.house old.pin.bytes new.pin.bytes
        file.items asked.keep r.lost r.numbers.items r.bytes.items) }
    ensures why { IfErr result (IsRollWhy old.house new.house old.pin.bytes file.items
        asked.keep) }
{
    a_book_is_rolled();
    let extends = match extends(&old.house, &new.house) {
        Ok(extends) => extends,
        Err(error) => {
            drop(file);
            drop(old);
            drop(new);
            return Err(error);
        }
    };
    let PinnedHouse { house, pin } = old;
    let (book, form) = match counted(alloc, file, house, key, &pin) {
        Ok(found) => found,
        Err(error) => {
            drop(new);
            return Err(RollError::Extend(ExtendError::Refused(error)));
        }
    };
    let found = pick(alloc, &book, &new.house, asked);
    drop(book);
    match found {
        Ok(picked) => written_of(alloc, picked, extends, form, new, key),
        Err(error) => {
            drop(form);
            drop(new);
            Err(error)
        }
    }
}
