//! The journal of a history under a house table that extends its own.

ghost use Rattle.std.specs.Prelude.{◌≡◌, ◌≤◌, [], length, IfOk, IfErr, OnOk};
ghost use Rattle.gu_base.specs.House.{HasLawfulOpening};
ghost use Rattle.gu_base.specs.Limits.{most_entries};
ghost use Rattle.gu_base.specs.Runs.{opening_history, IsRunFrom};
ghost use Rattle.gu_image.specs.Image.{seen_of, leaves};
ghost use Rattle.gu_journal.specs.Counting.{Recovers, IsPart};
ghost use Rattle.gu_journal.specs.Damages.{HasNoLater};
ghost use Rattle.gu_journal.specs.Keeping.{Keeps};
ghost use Rattle.gu_lives.specs.Extends.{Extends};
ghost use Rattle.gu_roll.specs.Extended.{IsExtended, IsLack, IsRefusal, IsUnwritten, IsWhy};

use crate::error::ExtendError;
use crate::extending::check_extends;
use crate::groups::{Groups, commit_groups, groups_of};
use crate::told::MOMENT;
use gu_base::{Entry, Memory, Number};
use gu_book::{Book, HashKey};
use gu_image::Image;
use gu_journal::laws::kept_is_read;
use gu_journal::{
    HouseDigest, Journal, JournalError, RecoverError, Recovered, Silent, Unrecovered, recover,
};
use gu_lives::a_larger_house_keeps_the_history;
use gu_parties::House;
use std::alloc::Global;

/// What is left of a journal's bytes beside its book: what they tell of groups, and their room.
#[derive(Drop)]
pub(crate) struct Form {
    groups: Groups,
    room: Vec<u8>,
}

/// The form of the bytes of a journal that count, whose book has so many entries in its opening.
fn form_of(alloc: Global, bytes: Vec<u8>, opening: usize) -> Result<Form, Memory>
    ensures { IfOk result (λ r. r.room.items ≡ []) }
{
    let groups = groups_of(alloc, &bytes, opening)?;
    let mut room = bytes;
    room.clear();
    Ok(Form { groups, room })
}

/// The book of a journal in the bytes of its file, and the form of those that count.
pub(crate) fn counted(
    alloc: Global,
    file: Vec<u8>,
    house: House,
    key: HashKey,
    pin: &HouseDigest,
) -> Result<(Book, Form), RecoverError>
    ensures house { IfOk result (λ r. r.0.house ≡ house) }
    ensures run { IfOk result (λ r. IsRunFrom house (opening_history house) r.0.history) }
    ensures recovers { IfOk result (λ r. Recovers house pin.now.bytes file.items r.0.history) }
    ensures later { IfOk result (λ r. HasNoLater house pin.now.bytes file.items r.0.history) }
    ensures room { IfOk result (λ r. r.1.room.items ≡ []) }
    ensures refusal { IfErr result (IsRefusal house pin.now.bytes file.items) }
{
    let disk = Image::new(file);
    match recover(alloc, disk, house, key, pin, MOMENT, &mut Silent) {
        Ok(Recovered { book, journal }) => {
            let len = journal.len();
            let mut bytes = journal.into_disk().into_bytes();
            bytes.truncate(len);
            match form_of(alloc, bytes, book.house().opening_count()) {
                Ok(form) => Ok((book, form)),
                Err(_) => {
                    drop(book);
                    Err(RecoverError::Memory)
                }
            }
        }
        Err(Unrecovered { disk, error }) => {
            drop(disk);
            Err(error)
        }
    }
}

/// A journal in an empty room of a house in its opening, whose head has this moment, and how many
/// entries it has.
fn begun(
    alloc: Global,
    room: Vec<u8>,
    house: House,
    key: HashKey,
    pin: &HouseDigest,
    moment: &[u8],
) -> Result<(Journal<Image>, usize), RecoverError>
    requires { room.items ≡ [] }
    ensures keeps { IfOk result (λ r. Keeps seen_of leaves house pin.now.bytes
        (opening_history house) r.0) }
    ensures have { IfOk result (λ r. r.1 ≡ length (opening_history house)) }
{
    let disk = Image::new(room);
    match recover(alloc, disk, house, key, pin, moment, &mut Silent) {
        Ok(Recovered { book, journal }) => {
            let have = book.history().len();
            drop(book);
            Ok((journal, have))
        }
        Err(Unrecovered { disk, error }) => {
            drop(disk);
            Err(error)
        }
    }
}

/// The file of a journal of this history in the form of another journal: with its groups and
/// moments, in its room. The other one has all entries, or each has one of these numbers there.
pub(crate) fn written(
    alloc: Global,
    history: &[Entry],
    numbers: Option<&[Number]>,
    form: Form,
    house: House,
    key: HashKey,
    pin: &HouseDigest,
) -> Result<Vec<u8>, ExtendError>
    requires room { form.room.items ≡ [] }
    requires run { IsRunFrom house (opening_history house) history.now }
    ensures again { IfOk result (λ new. Recovers house pin.now.bytes new.items history.now) }
    ensures part { IfOk result (λ new. IsPart house pin.now.bytes new.items) }
    ensures unwritten { IfErr result IsUnwritten }
{
    let Form { groups, room } = form;
    let (mut journal, have) = match begun(alloc, room, house, key, pin, groups.begun()) {
        Ok(begun) => begun,
        Err(error) => return Err(ExtendError::Unbegun(error)),
    };
    kept_is_read::<Image>();
    match commit_groups(&mut journal, history, numbers, have, &groups) {
        Ok(()) => Ok(journal.into_disk().into_bytes()),
        Err(error) => {
            drop(journal);
            Err(ExtendError::Unwritten(error))
        }
    }
}

/// The file of a journal of a book's history under another house table.
fn moved(
    alloc: Global,
    book: &Book,
    form: Form,
    house: House,
    key: HashKey,
    pin: &HouseDigest,
) -> Result<Vec<u8>, ExtendError>
    requires room { form.room.items ≡ [] }
    requires run { IsRunFrom house (opening_history house) book.now.history }
    ensures again { IfOk result (λ new. Recovers house pin.now.bytes new.items book.now.history) }
    ensures part { IfOk result (λ new. IsPart house pin.now.bytes new.items) }
    ensures unwritten { IfErr result IsUnwritten }
{
    written(alloc, book.history(), None, form, house, key, pin)
}

/// Whether a journal under a house table can be written anew under another.
fn may_extend(house: &House, new: &House) -> Result<(), ExtendError>
    ensures extends { OnOk result (Extends house.now new.now) }
    ensures lawful { OnOk result (HasLawfulOpening house.now) }
    ensures small { OnOk result (length house.now.opening ≤ most_entries) }
    ensures why { IfErr result (IsLack house.now new.now) }
{
    match check_extends(house, new) {
        Ok(()) => {}
        Err(lack) => return Err(ExtendError::Lacks(lack)),
    }
    if house.opening_count() > Number::MAX as usize {
        return Err(ExtendError::Unwritten(JournalError::Full));
    }
    Ok(())
}

/// The file of a journal under a house table that extends that of the journal in these bytes: it
/// has the same entries under the same numbers, in the same groups and at the same moments. A start
/// from it under the new house file, which has this digest, gives the same history.
///
/// # Errors
///
/// `Lacks`, where the new table doesn't extend the old one; `Refused`, with what a start from the
/// bytes would end with; `Unbegun` and `Unwritten`, where memory ran out or a moment is none.
pub fn extend(
    alloc: Global,
    file: Vec<u8>,
    house: House,
    pin: &HouseDigest,
    new: House,
    new_pin: &HouseDigest,
    key: HashKey,
) -> Result<Vec<u8>, ExtendError>
    ensures extended { IfOk result (λ bytes. IsExtended house new pin.now.bytes new_pin.now.bytes
        file.items bytes.items) }
    ensures why { IfErr result (IsWhy house new pin.now.bytes file.items) }
{
    a_larger_house_keeps_the_history();
    match may_extend(&house, &new) {
        Ok(()) => {}
        Err(error) => {
            drop(file);
            drop(house);
            drop(new);
            return Err(error);
        }
    }
    let (book, form) = match counted(alloc, file, house, key, pin) {
        Ok(found) => found,
        Err(error) => {
            drop(new);
            return Err(ExtendError::Refused(error));
        }
    };
    let made = moved(alloc, &book, form, new, key, new_pin);
    drop(book);
    made
}
