//! The tables of gu_life: what a part becomes by each act, and what an entry shows.

use gu_base::State;
use gu_life::{Act, entry_state, next, status_code};

/// All states.
const STATES: &[State] = &[
    State::Held,
    State::Offered,
    State::Claimed,
    State::Refused,
    State::Cancelled,
    State::ReversalPending,
    State::Reversed,
];

/// All that is done about a given part.
const ACTS: &[Act] = &[Act::Claim, Act::Refuse, Act::Cancel, Act::Reverse];

/// Writes what a state becomes by an act.
fn tell_next(rt: &impl Print, state: State, act: Act) -> bool {
    match next(state, act) {
        Some(after) => print!(rt; ", {act:?} {after:?}").is_ok(),
        None => print!(rt; ", {act:?} none").is_ok(),
    }
}

/// Writes what a state becomes by each act.
fn tell_acts(rt: &impl Print, state: State) -> bool {
    for act in ACTS {
        if !tell_next(rt, state, *act) {
            return false;
        }
    }
    true
}

/// Writes what an entry of this state shows where its reversal is pending, where it is reversed and
/// a reversal is pending, and else.
fn tell_shown(rt: &impl Print, state: State) -> bool {
    let pending = entry_state(state, true, false);
    let reversed = entry_state(state, true, true);
    let own = entry_state(state, false, false);
    println!(rt; "; shown {pending:?}, {reversed:?}, {own:?}").is_ok()
}

/// Writes a state and its code in a message.
fn tell_code(rt: &impl Print, state: State) -> bool {
    print!(rt; "{state:?} {}", status_code(state)).is_ok()
}

/// Writes a line for each state: its code, what it becomes by each act, and what its entry shows.
/// Whether all went well.
pub(crate) fn tell(rt: &impl Print) -> bool {
    for state in STATES {
        if !(tell_code(rt, *state) && tell_acts(rt, *state) && tell_shown(rt, *state)) {
            return false;
        }
    }
    true
}
