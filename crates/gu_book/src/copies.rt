//! The command of a change as it is kept: put together where its entry then lies.
ghost use Rattle.std.specs.Prelude.{◌≡◌, ◌≢◌, List, IfOk, true};
ghost use Rattle.gu_base.specs.History.{is_change};
ghost use Rattle.gu_base.specs.Numbers.{EntryPart};
ghost use Rattle.gu_base.specs.declared.command.Command.TheVariants.{Split};
ghost use Rattle.gu_base.specs.declared.command.Part.{Part as PartData};
ghost use Rattle.gu_book.specs.Kinds.{IsOfTerms};

use gu_base::{Command, Memory, Parts};
use std::alloc::Global;

/// The parts of a Split in memory of their own; none of another command.
#[inline(always)]
pub(crate) fn parts_of(alloc: Global, command: &Command) -> Result<Parts, Memory>
    ensures { IfOk result (λ kept. (n : EntryPart) (parts : List PartData)
        → command.now ≡ Split n parts → kept ≡ parts) }
{
    match command {
        Command::Split { parts, .. } => parts.copy(alloc),
        _ => Ok(Parts::from_vec(Vec::new(alloc))),
    }
}

/// A change that is equal to this one, which isn't a Split.
#[inline(always)]
pub(crate) fn copy_of(command: &Command) -> Command
    requires change { is_change command.now ≡ true }
    requires other { (n : EntryPart) (parts : List PartData) → command.now ≢ Split n parts }
    ensures { result ≡ command.now }
{
    match command {
        Command::Trade {
            firm,
            account,
            instrument,
            side,
            lots,
        } => Command::Trade {
            firm: *firm,
            account: *account,
            instrument: *instrument,
            side: *side,
            lots: *lots,
        },
        Command::Claim { node, account } => Command::Claim {
            node: *node,
            account: *account,
        },
        Command::Refuse { node } => Command::Refuse { node: *node },
        Command::Cancel { node } => Command::Cancel { node: *node },
        _ => of_terms(command),
    }
}

/// An Agree or a Raise that is equal to this one.
fn of_terms(command: &Command) -> Command
    requires { IsOfTerms command.now }
    ensures { result ≡ command.now }
{
    match command {
        Command::Agree {
            giver,
            taker,
            rate,
            limit,
        } => Command::Agree {
            giver: *giver,
            taker: *taker,
            rate: *rate,
            limit: *limit,
        },
        Command::Raise { giver, lots } => Command::Raise {
            giver: *giver,
            lots: *lots,
        },
        _ => unreachable!(),
    }
}
