//! The session, to be timed from outside: `bench/session` runs it beside a session written by hand.
//!
//! The call goes over the bytes of whole frames, one after the other, and answers a number that
//! depends on all that the session asks for, so that no work can be left out and both sides can be
//! seen to have done the same.
#![tactic(auto)]

ghost use Rattle.std.specs.Prelude.{pos, ◌≤ℤ◌};

use gu_base::{Answer, Number, State};
use gu_codec::{Fields, Frame, read_frame};
use gu_parties::House;
use gu_session::{Event, Session, is_moment};
use jiff::Timestamp;
use std::alloc::Global;

/// 09:00:05 on 2 March 2026, in seconds since 1970.
const MOMENT: i64 = 1_772_442_005;

/// Adds a number to a mix.
fn mixed(mix: u64, number: u64) -> u64 {
    mix.wrapping_mul(31).wrapping_add(number)
}

/// Adds what is sent to a mix: its length, and its last bytes, which sum the others up.
fn mixed_sent(mix: u64, sent: &[u8]) -> u64 {
    let mut mix = mixed(mix, sent.len() as u64);
    for byte in sent.iter().rev().take(8) {
        mix = mixed(mix, u64::from(*byte));
    }
    mix
}

/// Steps a session with a message, and where it hands out a call, with the answer. None for want of
/// memory.
fn stepped(
    alloc: Global,
    session: &mut Session<'_>,
    fields: Fields<'_>,
    answer: Answer,
    moment: Timestamp,
    mix: u64,
) -> Option<u64>
    requires { pos 0 ≤ℤ moment.nanosecond }
{
    let asked = session.step(Event::Message(fields), moment).ok()?;
    let mix = mixed_sent(mix, asked.send.as_slice());
    if asked.call.is_none() {
        return Some(mix);
    }
    let reply = Event::Reply(Some(answer), Vec::new(alloc));
    let replied = session.step(reply, moment).ok()?;
    Some(mixed_sent(mix, replied.send.as_slice()))
}

/// Steps a new session with each message, and each call's answer. None for want of memory.
fn played(alloc: Global, house: &House, frames: &[u8]) -> Option<u64> {
    let moment = Timestamp::from_second(MOMENT).ok()?;
    if !is_moment(moment) {
        return None;
    }
    let answer = Answer::Accepted {
        number: Number::new(2)?,
        status: State::Held,
    };
    let mut session = Session::new(alloc, house);
    let mut rest = frames;
    let mut mix = 0;
    for _ in 0..frames.len() {
        let Frame::Whole { fields, len } = read_frame(rest) else {
            break;
        };
        mix = stepped(alloc, &mut session, fields, answer, moment, mix)?;
        rest = rest.get(len..)?;
    }
    Some(mixed(mix, rest.len() as u64))
}

/// Reads a house file, and then steps one session of it over the frames. Answers 0 where the file
/// has a fault, and for want of memory.
#[unsafe(no_mangle)]
pub extern "C" fn step_over(alloc: Global, house: &[u8], frames: &[u8]) -> u64 {
    match House::parse(alloc, house) {
        Ok(house) => played(alloc, &house, frames).unwrap_or(0),
        Err(_) => 0,
    }
}
