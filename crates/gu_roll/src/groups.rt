//! A history is written group by group, as its journal has it.

ghost use Rattle.std.specs.Prelude.{◌≤◌, ℕ, List, length, take, OnOk, IfOk};
ghost use Rattle.gu_base.specs.House.{House};
ghost use Rattle.gu_base.specs.Runs.{IsRunFrom};
ghost use Rattle.gu_base.specs.declared.entry.Entry.{Entry as EntryData};
ghost use Rattle.gu_image.specs.Image.{seen_of, leaves};
ghost use Rattle.gu_journal.specs.Keeping.{Keeps};

use crate::told::{Kind, MOMENT, told_at};
use gu_base::{Entry, Memory, Number};
use gu_image::Image;
use gu_journal::{Journal, JournalError, Nothing};
use std::alloc::Global;

/// The longest moment that a journal has, in bytes.
const LONGEST: usize = 24;

/// A moment of a journal.
#[derive(Clone, Copy)]
struct Moment {
    text: [u8; LONGEST],
    len: u8,
}

impl Moment {
    /// The moment that a text tells, which has at most 24 bytes in a journal.
    fn of(text: &[u8]) -> Moment {
        let len = text.len().min(LONGEST);
        let mut room = [0u8; LONGEST];
        room[..len].copy_from_slice(&text[..len]);
        Moment {
            text: room,
            len: len as u8,
        }
    }

    /// Its text.
    fn as_bytes(&self) -> &[u8] {
        let len = (self.len as usize).min(LONGEST);
        &self.text[..len]
    }
}

/// A group of a journal: when it was committed, and which number its book's last entry has then.
#[derive(Clone, Copy)]
struct Group {
    moment: Moment,
    last: u32,
}

/// What a journal tells beside its entries: when it was begun, and its groups in their order.
#[derive(Drop)]
pub(crate) struct Groups {
    begun: Moment,
    groups: Vec<Group>,
}

impl Groups {
    /// The moment at which the journal was begun.
    pub(crate) fn begun(&self) -> &[u8] {
        self.begun.as_bytes()
    }
}

/// What the bytes of a journal tell beside its entries, whose book has so many in its opening. It
/// takes 32 bytes a group.
pub(crate) fn groups_of(alloc: Global, bytes: &[u8], opening: usize) -> Result<Groups, Memory> {
    let mut begun = Moment::of(MOMENT);
    let mut groups = Vec::new(alloc);
    let mut last = opening.min(u32::MAX as usize) as u32;
    let mut at = 0;
    'frames: while let Some((told, end)) = told_at(bytes, at) {
        let moment = Moment::of(told.moment);
        match told.kind {
            Kind::Head => begun = moment,
            Kind::Seal => groups.push(Group { moment, last })?,
            Kind::Entry => last = last.saturating_add(1),
        }
        at = end;
    }
    Ok(Groups { begun, groups })
}

/// Commits the entries of a history from a place to another.
fn commit_between(
    journal: &mut Journal<Image>,
    history: &[Entry],
    from: usize,
    to: usize,
    moment: &[u8],
) -> Result<(), JournalError>
    requires order { from ≤ to }
    requires within { to ≤ length history.now }
    ensures { (t : House) (pin : List ℕ) (opening : List EntryData)
        → IsRunFrom t opening history.now → length opening ≤ from
        → Keeps seen_of leaves t pin (take from history.now) journal.old
        → OnOk result (Keeps seen_of leaves t pin (take to history.now) journal.new) }
{
    journal.commit(moment, &history[from..to], &mut Nothing)
}

/// Whether the entry at a place is one of the other journal's up to the entry of this number: with
/// these numbers there, or with its own.
fn is_up_to(numbers: Option<&[Number]>, place: usize, last: u32) -> bool {
    match numbers {
        Some(numbers) => match numbers.get(place) {
            Some(number) => number.get() <= last,
            None => false,
        },
        None => place < last as usize,
    }
}

/// Up to where a history has the entries of the other journal up to the entry of this number, of
/// which so many are committed.
fn end_of(history: &[Entry], numbers: Option<&[Number]>, done: usize, last: u32) -> usize
    requires { done ≤ length history.now }
    ensures { (done ≤ result) × (result ≤ length history.now) }
{
    for place in done..history.len() {
        if !is_up_to(numbers, place, last) {
            return place;
        }
    }
    history.len()
}

/// Commits what a group of the other journal has of a history, of which so many entries are
/// committed: how many are then. One of which all was left out isn't committed.
fn commit_group(
    journal: &mut Journal<Image>,
    history: &[Entry],
    numbers: Option<&[Number]>,
    done: usize,
    group: &Group,
) -> Result<usize, JournalError>
    requires { done ≤ length history.now }
    ensures later { IfOk result (λ next. (done ≤ next) × (next ≤ length history.now)) }
    ensures kept { (t : House) (pin : List ℕ) (opening : List EntryData)
        → IsRunFrom t opening history.now → length opening ≤ done
        → Keeps seen_of leaves t pin (take done history.now) journal.old
        → IfOk result (λ next. Keeps seen_of leaves t pin (take next history.now) journal.new) }
{
    let end = end_of(history, numbers, done, group.last);
    if end == done && numbers.is_some() {
        return Ok(done);
    }
    match commit_between(journal, history, done, end, group.moment.as_bytes()) {
        Ok(()) => Ok(end),
        Err(error) => Err(error),
    }
}

/// Commits the entries of a history behind those that a journal has, group by group as another
/// journal has them, and those that are left last. The other journal has all of them, or under
/// these numbers.
pub(crate) fn commit_groups(
    journal: &mut Journal<Image>,
    history: &[Entry],
    numbers: Option<&[Number]>,
    have: usize,
    groups: &Groups,
) -> Result<(), JournalError>
    requires few { have ≤ length history.now }
    ensures { (t : House) (pin : List ℕ) (opening : List EntryData)
        → IsRunFrom t opening history.now → length opening ≤ have
        → Keeps seen_of leaves t pin (take have history.now) journal.old
        → OnOk result (Keeps seen_of leaves t pin history.now journal.new) }
{
    let mut done = have;
    let mut moment = groups.begun;
    for group in &groups.groups {
        moment = group.moment;
        done = commit_group(journal, history, numbers, done, group)?;
    }
    if done == history.len() {
        return Ok(());
    }
    commit_between(journal, history, done, history.len(), moment.as_bytes())
}
