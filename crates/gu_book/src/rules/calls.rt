//! The answer to a call.
ghost use Rattle.std.specs.Prelude.{◌≡◌, ◌≤◌, ◌+◌, [], ◌∷◌, length, find, nat_lt, unwrap_or};
ghost use Rattle.std.specs.Prelude.{IsSomeAnd, if◌then◌else◌};
ghost use Rattle.gu_base.specs.Limits.{most_entries};
ghost use Rattle.gu_base.specs.Same.{same_command};
ghost use Rattle.gu_base.specs.History.{records, live};
ghost use Rattle.gu_base.specs.Answers.{accepted_or, answer_by, answer_to, command_refusal};
ghost use Rattle.gu_base.specs.Answers.{entry_of, is_same_call, is_same_id, on_change, status_of};
ghost use Rattle.gu_base.specs.House.{knows_firm};
ghost use Rattle.gu_base.specs.Refusals.{first, unless};
ghost use Rattle.gu_base.specs.declared.entry.Answer.{Answer};
ghost use Rattle.gu_base.specs.declared.entry.Answer.TheVariants.{Repeated, Refused};
ghost use Rattle.gu_base.specs.declared.refusal.Refusal.TheVariants.{BookFull, DuplicateId};
ghost use Rattle.gu_base.specs.declared.refusal.Refusal.TheVariants.{UnknownFirm};
ghost use Rattle.gu_book.specs.Found.{IsNamedIn, IsStandingIn};
ghost use Rattle.gu_book.specs.Front.{IsStandingOn, rest_of};
ghost use Rattle.gu_book.specs.Ids.{NoIdTwice};
ghost use Rattle.gu_book.specs.Lookups.{IsNewestFirst};
ghost use Rattle.gu_book.specs.Undo.{IsUndoIn, IsUndoOr};
ghost use Rattle.gu_ids.specs.Hashing.{IsHashOf};
ghost use Rattle.gu_tree.specs.Shown.{named_node};

use crate::rules::basis::Basis;
use crate::rules::naming::naming_refusal;
use crate::rules::refusals::change_refusal;
use gu_base::{AllocId, Answer, Command, Entry, FirmId, Number, Refusal, State};
use gu_ids::{History, IdHash};

/// The answer to a call whose firm and id this entry has.
#[cold]
#[inline(never)]
fn known_answer(number: Number, e: &Entry, command: &Command) -> Answer
    ensures { result ≡ (if same_command e.now.command command.now then Repeated number e.now.status
        else Refused (DuplicateId number)) }
{
    if e.command == *command {
        Answer::Repeated {
            number,
            status: e.status,
        }
    } else {
        Answer::Refused(Refusal::DuplicateId(number))
    }
}

/// The answer to a call whose firm and id stand in the history, whatever the rules say of its
/// command.
#[tactic(auto, using(crate::proofs::Cited::answer_again))]
fn known(
    entries: &History,
    by: &FirmId,
    id: &AllocId,
    hash: IdHash,
    command: &Command,
) -> Option<Answer>
    requires hashed { IsHashOf hash by.now id.now }
    requires once { NoIdTwice entries.now.items }
    requires ids { IsNewestFirst entries.now.items }
    ensures { (other : Answer) → unwrap_or result other
        ≡ answer_by (find (is_same_call (record {
          firm = by.now;
          id = id.now;
          command = command.now;
        })) (records entries.now.items))
        (find (is_same_id (record { firm = by.now; id = id.now; command = command.now }))
        (records entries.now.items)) other }
{
    let Some(number) = entries.number(by, id, hash) else {
        return None;
    };
    let place = number.get() as usize - 1;
    Some(known_answer(number, &entries.as_slice()[place], command))
}

/// The status of a command that is accepted.
fn status_of(by: &FirmId, command: &Command) -> State
    ensures { result ≡ status_of by.now command.now }
{
    match command {
        Command::Trade { .. } => State::Held,
        Command::Split { parts, .. } => {
            if by.gives_up(parts.as_slice()) {
                State::Offered
            } else {
                State::Held
            }
        }
        Command::Claim { .. } => State::Claimed,
        Command::Refuse { .. } => State::Refused,
        Command::Cancel { .. } => State::Cancelled,
        Command::Agree { .. } | Command::Raise { .. } => State::Held,
        Command::Initiate { .. } => State::ReversalPending,
        Command::Decline { .. } => State::Held,
        Command::Reverse { .. } => State::Reversed,
    }
}

/// Why a command that names this entry is refused.
fn named_refusal(at: &Basis<'_>, by: &FirmId, command: &Command, entry: Number) -> Option<Refusal>
    requires undo { IsSomeAnd at.now.undo (IsUndoOr at.now.house at.now.history entry) }
    requires standing { IsStandingOn at.now.house (live at.now.history) command.now entry
        at.now.standing }
    ensures { result ≡ first (unless (knows_firm at.now.house by.now) UnknownFirm
        ∷ on_change at.now.house at.now.history by.now
        (rest_of at.now.house at.now.history by.now command.now)
        (entry_of at.now.history entry) ∷ []) }
{
    if !at.house.firm(by) {
        return Some(Refusal::UnknownFirm);
    }
    naming_refusal(at, by, command, entry)
}

/// Why a command is refused.
#[tactic(auto, using(crate::proofs::Cited::last_refusals))]
fn command_refusal(at: &Basis<'_>, by: &FirmId, command: &Command) -> Option<Refusal>
    requires named { IsNamedIn (live at.now.history) (named_node command.now) at.now.named }
    requires undo { IsUndoIn at.now.house at.now.history command.now at.now.undo }
    requires standing { IsStandingIn at.now.house (live at.now.history) command.now
        at.now.standing }
    ensures { result ≡ command_refusal at.now.house at.now.history by.now command.now }
{
    match command {
        Command::Initiate { entry } => named_refusal(at, by, command, *entry),
        Command::Decline { entry } => named_refusal(at, by, command, *entry),
        Command::Reverse { entry } => named_refusal(at, by, command, *entry),
        _ => change_refusal(at, by, command),
    }
}

/// The answer by the rules, to a call whose id no entry has.
fn answer_by_rules(at: &Basis<'_>, by: &FirmId, command: &Command) -> Answer
    requires named { IsNamedIn (live at.now.history) (named_node command.now) at.now.named }
    requires undo { IsUndoIn at.now.house at.now.history command.now at.now.undo }
    requires standing { IsStandingIn at.now.house (live at.now.history) command.now
        at.now.standing }
    ensures { result ≡ accepted_or (length at.now.history + 1) (status_of by.now command.now)
        (first (unless (nat_lt (length at.now.history) most_entries) BookFull
        ∷ command_refusal at.now.house at.now.history by.now command.now ∷ [])) }
{
    let count = at.entries.as_slice().len();
    if count >= Number::MAX as usize {
        return Answer::Refused(Refusal::BookFull);
    }
    if let Some(refusal) = command_refusal(at, by, command) {
        return Answer::Refused(refusal);
    }
    Answer::Accepted {
        number: Number::at_place(count),
        status: status_of(by, command),
    }
}

/// The answer to a call, at a history and what is kept beside it.
pub(crate) fn answer(
    at: &Basis<'_>,
    by: &FirmId,
    id: &AllocId,
    hash: IdHash,
    command: &Command,
) -> Answer
    requires hashed { IsHashOf hash by.now id.now }
    requires named { IsNamedIn (live at.now.history) (named_node command.now) at.now.named }
    requires undo { IsUndoIn at.now.house at.now.history command.now at.now.undo }
    requires standing { IsStandingIn at.now.house (live at.now.history) command.now
        at.now.standing }
    ensures { result ≡ answer_to at.now.house at.now.history (record {
      firm = by.now;
      id = id.now;
      command = command.now;
    }) }
{
    if let Some(answer) = known(at.entries, by, id, hash, command) {
        return answer;
    }
    answer_by_rules(at, by, command)
}
