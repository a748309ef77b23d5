//! How many nodes of the trees a call makes.
ghost use Rattle.std.specs.Prelude.{◌≡◌, ◌<◌, ◌^◌};
ghost use Rattle.gu_book.specs.Visits.{parts_in, nodes_made};

use gu_base::Command;

/// The parts of a Split.
pub(crate) fn parts_in(command: &Command) -> u64
    ensures value { result ≡ parts_in command.now }
    ensures fits { result < 2 ^ 63 }
{
    match command {
        Command::Split { parts, .. } => parts.as_slice().len() as u64,
        _ => 0,
    }
}

/// The nodes that a kept call makes.
pub(crate) fn nodes_made(command: &Command) -> u64
    ensures value { result ≡ nodes_made command.now }
    ensures fits { result < 2 ^ 63 }
{
    match command {
        Command::Trade { .. } => 1,
        _ => parts_in(command),
    }
}
