//! The life of a given part, and the status of an entry.
//!
//! A part that is given to another firm is offered until its taker claims or
//! refuses it, or its giver cancels it. The reversal of that decision offers
//! the part again. `next` is this table: it answers `None` for each step that
//! the life of a part doesn't have.
//! An entry shows its own status until a reversal is pending, and then until it
//! is reversed: `entry_state`. The status goes out in FIX field AllocStatus (87)
//! by the numbers of `status_code`; `docs/profile.md` says which FIX has.
//! Each function meets its table in `specs/` exactly, and takes no memory.
//! Its cases stand in the program `test_messages`.
#![tactic(auto)]

ghost use Rattle.std.specs.Prelude.{◌≡◌, ◌≤◌};
ghost use Rattle.gu_life.specs.Life.{state_after};
ghost use Rattle.gu_life.specs.Status.{shown_state, code_of};

use gu_base::State;

/// What may happen to a given part.
#[derive(Clone, Copy, Debug, PartialEq, Eq)]
pub enum Act {
    /// The taker takes the part into an account.
    Claim,
    /// The taker turns the part down.
    Refuse,
    /// The giver takes the offer back.
    Cancel,
    /// The decision about the part is reversed.
    Reverse,
}

/// The state of a given part after an act, or `None` where the act can't be done.
///
/// An offered part becomes claimed, refused or cancelled, and each of the three
/// becomes offered again by `Reverse`. A part in any other state has no next one.
pub fn next(state: State, act: Act) -> Option<State>
    ensures { result ≡ state_after state act }
{
    match (state, act) {
        (State::Offered, Act::Claim) => Some(State::Claimed),
        (State::Offered, Act::Refuse) => Some(State::Refused),
        (State::Offered, Act::Cancel) => Some(State::Cancelled),
        (State::Claimed | State::Refused | State::Cancelled, Act::Reverse) => Some(State::Offered),
        _ => None,
    }
}

/// The state that an entry shows: reversed, else with its reversal pending, else its own.
pub fn entry_state(own: State, pending: bool, reversed: bool) -> State
    ensures { result ≡ shown_state own pending reversed }
{
    if reversed {
        State::Reversed
    } else if pending {
        State::ReversalPending
    } else {
        own
    }
}

/// The value of AllocStatus (87) for a state: 0, 6, 7, 9, 10, 12 or 14.
pub fn status_code(state: State) -> u8
    ensures value { result ≡ code_of state }
    ensures small { result ≤ 14 }
{
    match state {
        State::Held => 0,
        State::Offered => 6,
        State::Reversed => 7,
        State::Claimed => 9,
        State::Refused => 10,
        State::Cancelled => 12,
        State::ReversalPending => 14,
    }
}
