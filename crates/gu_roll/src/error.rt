//! Why a journal isn't extended or rolled.

ghost use Rattle.std.specs.Prelude.{◌≡◌};
ghost use Rattle.gu_journal.specs.declared.error.JournalError.TheVariants.{Memory as NoMemory};
ghost use Rattle.gu_roll.specs.declared.error.ExtendError.TheVariants as extend;
ghost use Rattle.gu_roll.specs.declared.error.RollError.TheVariants as error;

use crate::lack::Lack;
use gu_journal::{JournalError, RecoverError};
use std::alloc::AllocError;
use std::fmt;

/// Why a journal isn't extended. Nothing was written then. Shown, it is one line that an operator
/// can act on.
#[derive(Clone, Copy)]
pub enum ExtendError {
    /// The new house file doesn't extend the old one.
    Lacks(Lack),
    /// A start from the journal under the old house file would end with this.
    Refused(RecoverError),
    /// The new journal can't be begun.
    Unbegun(RecoverError),
    /// The new journal can't be written.
    Unwritten(JournalError),
}

impl fmt::Display for ExtendError {
    fn fmt<W: fmt::Write>(&self, f: &mut fmt::Formatter<W>) -> fmt::Result {
        match self {
            ExtendError::Lacks(lack) => {
                write!(f, "the new house file doesn't extend the old one: {lack}")
            }
            ExtendError::Refused(error) => write!(f, "{error}"),
            ExtendError::Unbegun(error) => write!(f, "the new journal can't be begun: {error}"),
            ExtendError::Unwritten(error) => write!(f, "the new journal can't be written: {error}"),
        }
    }
}

/// Why a journal isn't rolled. Nothing was written then. Shown, it is one line that an operator can
/// act on.
#[derive(Clone, Copy)]
pub enum RollError {
    /// It wouldn't be extended either, or memory ran out.
    Extend(ExtendError),
    /// The agreement of this number of the new opening, counted from 1, isn't the one at its place
    /// among those of the old opening that weren't reversed, or only one of the two has it.
    OtherOpening(usize),
    /// The entry of this number of the new book isn't accepted as it was.
    Unlike(usize),
}

impl From<AllocError> for RollError {
    ghost from_gives = { λ _ e. e ≡ error.Extend (extend.Unwritten NoMemory) };

    fn from(_: AllocError) -> RollError {
        RollError::Extend(ExtendError::Unwritten(JournalError::Memory))
    }
}

impl fmt::Display for RollError {
    fn fmt<W: fmt::Write>(&self, f: &mut fmt::Formatter<W>) -> fmt::Result {
        match self {
            RollError::Extend(error) => write!(f, "{error}"),
            RollError::OtherOpening(number) => {
                write!(
                    f,
                    "its AGREEMENT line {number} isn't the old file's next one that wasn't reversed"
                )
            }
            RollError::Unlike(number) => write!(f, "entry {number} isn't accepted again"),
        }
    }
}
