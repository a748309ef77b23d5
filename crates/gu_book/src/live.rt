//! The live changes, read off the history by their numbers.
ghost use Rattle.std.specs.Prelude.{◌≡◌, ◌≤◌, ◌==◌, length, find, option_map, IfOk, map};
ghost use Rattle.gu_base.specs.Answers.{entry_of};
ghost use Rattle.gu_base.specs.History.{is_change, live, numbered_as};
ghost use Rattle.gu_base.specs.Limits.{most_entries};
ghost use Rattle.gu_book.specs.Lookups.{AreReversalsOf};
ghost use Rattle.gu_book.specs.Live.{CanBeFound, IsLookedUp, record_of};

use crate::lookups::Reversals;
use gu_base::{AllocId, Command, Entry, FirmId, Memory, Number, Refusal, State};
use std::alloc::Global;
use std::marker::Model;

/// An entry and its number, borrowed from the history or from the call that becomes the entry.
#[derive(Clone, Copy)]
pub(crate) struct Change<'a> {
    pub(crate) number: Number,
    pub(crate) firm: &'a FirmId,
    pub(crate) id: &'a AllocId,
    pub(crate) status: State,
    pub(crate) command: &'a Command,
}

/// The entry of this number, if the history has so many. The k-th entry has the number k, so
/// nothing is searched for.
#[inline(always)]
#[tactic(auto, using(crate::proofs::Cited::entry_by_number))]
pub fn entry_at(entries: &[Entry], number: Number) -> Option<&Entry>
    ensures { option_map (λ e. numbered_as number e.now) result ≡ entry_of entries.now number }
{
    let place = number.get() as usize - 1;
    if place >= entries.len() {
        return None;
    }
    Some(&entries[place])
}

/// Whether a command changes trees, positions, fees or terms.
fn is_change(command: &Command) -> bool
    ensures { result ≡ is_change command.now }
{
    match command {
        Command::Trade { .. } => true,
        Command::Split { .. } => true,
        Command::Claim { .. } => true,
        Command::Refuse { .. } => true,
        Command::Cancel { .. } => true,
        Command::Agree { .. } => true,
        Command::Raise { .. } => true,
        Command::Initiate { .. } => false,
        Command::Decline { .. } => false,
        Command::Reverse { .. } => false,
    }
}

/// The live change of this number, or why a command that names it is refused. Whether an entry is a
/// change, and whether it is reversed, is asked here alone.
#[inline(always)]
pub(crate) fn look_up<'a>(
    entries: &'a [Entry],
    reversals: &Reversals,
    number: Number,
) -> Result<Change<'a>, Refusal>
    requires { CanBeFound entries.now reversals.now }
    ensures { IsLookedUp entries.now number result }
{
    let Some(entry) = entry_at(entries, number) else {
        return Err(Refusal::UnknownEntry);
    };
    if !is_change(&entry.command) {
        return Err(Refusal::NotAChange);
    }
    match reversals.number(number) {
        Some(reversal) => Err(Refusal::AlreadyReversed(reversal)),
        None => Ok(Change {
            number,
            firm: &entry.firm,
            id: &entry.id,
            status: entry.status,
            command: &entry.command,
        }),
    }
}

/// The live changes of a history: its changes that no Reverse names. Nothing is copied; a change is
/// found by its number.
#[derive(Drop)]
pub(crate) struct Live<'a> {
    entries: &'a [Entry],
    reversals: &'a Reversals,
}

impl<'a> Model for Live<'a> {
    ghost use Rattle.std.specs.Prelude.{List};
    ghost use Rattle.gu_base.specs.declared.entry.Record.{Record};
    ghost use Rattle.gu_base.specs.History.{live};
    ghost use Rattle.gu_book.specs.Live.{CanBeFound};

    ghost Value = { List Record };

    ghost view = { λ l. live l.entries.now };

    ghost invariant = { λ l. CanBeFound l.entries.now l.reversals.now };
}

impl<'a> Live<'a> {
    /// Those of this history.
    pub(crate) fn of(entries: &'a [Entry], reversals: &'a Reversals) -> Live<'a>
        requires few { length entries.now ≤ most_entries }
        requires reversals { AreReversalsOf reversals.now entries.now }
        ensures { result ≡ live entries.now }
    {
        Live { entries, reversals }
    }

    /// The change of this number, if it is live.
    pub(crate) fn change(&self, number: Number) -> Option<Change<'a>>
        ensures { option_map record_of result ≡ find (λ r. r.number == number) self.now }
    {
        match look_up(self.entries, self.reversals, number) {
            Ok(made) => Some(made),
            Err(_) => None,
        }
    }

    /// The numbers of the changes, in order.
    #[tactic(auto, using(crate::proofs::ByNumber::left_none))]
    pub(crate) fn numbers(&self, alloc: Global) -> Result<Vec<Number>, Memory>
        ensures { IfOk result (λ v. v.items ≡ map (λ r. r.number) self.now) }
    {
        let mut numbers = Vec::new(alloc);
        for place in 0..self.entries.len() {
            if let Some(made) = self.change(Number::at_place(place)) {
                numbers.push(made.number)?;
            }
        }
        Ok(numbers)
    }
}
