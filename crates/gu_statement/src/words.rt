//! The words of a statement for commands, states and sides.
ghost use Rattle.std.specs.Prelude.{◌≡◌};
ghost use Rattle.gu_statement.specs.Words.{command_word, state_word, side_word};

use gu_base::{Command, Side, State};

/// The word for a command.
pub(crate) fn command_word(command: &Command) -> &'static str
    ensures { result.now ≡ command_word command.now }
{
    match command {
        Command::Trade { .. } => "trade",
        Command::Split { .. } => "split",
        Command::Claim { .. } => "claim",
        Command::Refuse { .. } => "refuse",
        Command::Cancel { .. } => "cancel",
        Command::Agree { .. } => "agree",
        Command::Raise { .. } => "raise",
        Command::Initiate { .. } => "initiate",
        Command::Decline { .. } => "decline",
        Command::Reverse { .. } => "reverse",
    }
}

/// The word for a state.
pub(crate) fn state_word(state: State) -> &'static str
    ensures { result.now ≡ state_word state }
{
    match state {
        State::Held => "held",
        State::Offered => "offered",
        State::Claimed => "claimed",
        State::Refused => "refused",
        State::Cancelled => "cancelled",
        State::ReversalPending => "pending",
        State::Reversed => "reversed",
    }
}

/// The word for a side.
pub(crate) fn side_word(side: Side) -> &'static str
    ensures { result.now ≡ side_word side }
{
    match side {
        Side::Buy => "buy",
        Side::Sell => "sell",
    }
}
