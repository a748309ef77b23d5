//! Why an Initiate, a Decline or a Reverse is refused.
ghost use Rattle.std.specs.Prelude.{◌≡◌, IsSomeAnd};
ghost use Rattle.gu_base.specs.Answers.{entry_of, on_change};
ghost use Rattle.gu_base.specs.History.{live};
ghost use Rattle.gu_book.specs.Front.{IsStandingOn, own_refusal, rest_of};
ghost use Rattle.gu_book.specs.Undo.{IsUndoOf, IsUndoOr};
ghost use Rattle.gu_consent.specs.Given.{given};

use crate::rules::basis::Basis;
use crate::undo::Undo;
use gu_base::{Command, FirmId, Number, Refusal};
use gu_consent::Consents;

/// The last refusal of each row, over those who consent and what stands on the entry.
fn own_refusal(
    consents: &Consents,
    number: Number,
    parties: &[FirmId],
    standing: Option<Number>,
    by: &FirmId,
    command: &Command,
) -> Option<Refusal>
    ensures { result ≡ own_refusal (given consents.now number) parties.now standing by.now
        command.now }
{
    match command {
        Command::Initiate { .. } => match consents.missing(number, &[*by]) {
            None => Some(Refusal::AlreadyConsented),
            Some(_) => None,
        },
        Command::Decline { .. } => {
            if consents.any(number) {
                None
            } else {
                Some(Refusal::NothingPending)
            }
        }
        Command::Reverse { .. } => match consents.missing(number, parties) {
            Some(firm) => Some(Refusal::NeedsConsent(firm)),
            None => match standing {
                Some(other) => Some(Refusal::StandsOn(other)),
                None => None,
            },
        },
        _ => None,
    }
}

/// Why a command that names this live change is refused.
fn undo_refusal(
    at: &Basis<'_>,
    by: &FirmId,
    command: &Command,
    number: Number,
    undo: &Undo,
) -> Option<Refusal>
    requires undo { IsUndoOf at.now.house at.now.history number undo.now }
    requires standing { IsStandingOn at.now.house (live at.now.history) command.now number
        at.now.standing }
    ensures { result ≡ on_change at.now.house at.now.history by.now
        (rest_of at.now.house at.now.history by.now command.now)
        (entry_of at.now.history number) }
{
    let parties = &undo.parties.0[..undo.parties.1];
    if !by.is_among(parties) {
        return Some(Refusal::NotAParty);
    }
    own_refusal(at.consents, number, parties, at.standing, by, command)
}

/// Why a command that names the entry of this number is refused.
#[inline(never)]
pub(crate) fn naming_refusal(
    at: &Basis<'_>,
    by: &FirmId,
    command: &Command,
    number: Number,
) -> Option<Refusal>
    requires undo { IsSomeAnd at.now.undo (IsUndoOr at.now.house at.now.history number) }
    requires standing { IsStandingOn at.now.house (live at.now.history) command.now number
        at.now.standing }
    ensures { result ≡ on_change at.now.house at.now.history by.now
        (rest_of at.now.house at.now.history by.now command.now)
        (entry_of at.now.history number) }
{
    match at.undo {
        Some(Ok(undo)) => undo_refusal(at, by, command, number, undo),
        Some(Err(refusal)) => Some(*refusal),
        None => unreachable!(),
    }
}
