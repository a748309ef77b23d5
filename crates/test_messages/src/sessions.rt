//! Sessions, event by event.
//!
//! A line that begins with `=` opens a new session, and is its title. Any other line is an event:
//! the milliseconds since 09:00:00 on 2 March 2026, and then
//! - `< TYPE NUMBER BODY`: a message of AAA to HSE with this MsgType (35), MsgSeqNum (34) and body,
//!   `|` for SOH;
//! - `<< BODY`: a message with this body, header and all;
//! - `tick`, `end`;
//! - `reply accepted N`, `reply refused`, `reply none`, each perhaps followed by `with K`: a Reply,
//!   with K reports;
//! - `call N`: a message of a call with this number; `calls A B`: one for each number from A to B,
//!   with its answer.
//! Each line is written again, and behind an event what the session asks for: the fields of each
//! frame that goes out behind `>`, the call, `close`; and then `gap` where messages lack, with the
//! first and the highest number that came behind it, `awaiting` where a call waits, `closed` where
//! the session is closed. An empty line is copied.
ghost use Rattle.std.specs.Prelude.{IfOk, IfSome};
ghost use Rattle.std.specs.List.{All};
ghost use Rattle.gu_message.specs.AllocationReport.{ShowsFewParts};
ghost use Rattle.gu_session.specs.Text.{ShowFewParts};

mod showing;

use crate::bodies::{append_texts, framed};
use gu_base::{
    Answer, InstrumentId, NodeName, Number, Refusal, Report, ReportParts, Side, State, Target,
};
use gu_codec::{Frame, read_frame};
use gu_parties::{Cause, House};
use gu_session::{Actions, Event, Session, is_moment};
use jiff::Timestamp;
pub(crate) use showing::tell_refused;
use showing::{digits, show, shows_answer};
use std::alloc::{AllocError, Global};
use std::io::Eprint;

/// 09:00:00 on 2 March 2026, in milliseconds since 1970.
const START: i64 = 1_772_442_000_000;

/// The house of the cases.
const HOUSE: &[u8] = b"GIVEUP 1\nHOUSE HSE\nFIRM AAA\nFIRM BBB\nACCOUNT AAA A1\nINSTRUMENT ESZ6\n";

/// The header of a message of AAA, behind its type and behind its number.
const PARTIES: &str = "|49=AAA|56=HSE|34=";

/// SendingTime (52), and what stands around it.
const TIME: &str = "|52=20260302-09:00:05|";

/// The body of a call.
const SPLIT: &str = "70=S1|71=0|626=23|72=1.0|78=1|79=A1|80=100|";

/// The first word of a line, and what stands behind the space.
fn word(line: &str) -> (&str, &str) {
    match line.split_once(' ') {
        Some((word, rest)) => (word, rest),
        None => (line, ""),
    }
}

/// The number of a word of digits.
fn number(word: &str) -> u32 {
    word.parse().unwrap_or(0)
}

/// Appends the body of the message that an event is: `<` and its words, `call` and its number, or
/// `<<` and its body.
fn append_body(out: &mut Vec<u8>, what: &str, rest: &str) -> Result<(), AllocError> {
    if what == "<" {
        let (kind, rest) = word(rest);
        let (number, rest) = word(rest);
        append_texts(out, &["35=", kind, PARTIES, number, TIME, rest])
    } else if what == "call" {
        append_texts(out, &["35=J", PARTIES, rest, TIME, SPLIT])
    } else {
        append_texts(out, &[rest])
    }
}

/// The frame of that message.
fn frame_of(alloc: Global, what: &str, rest: &str) -> Result<Vec<u8>, AllocError> {
    let mut body = Vec::new(alloc);
    append_body(&mut body, what, rest)?;
    framed(alloc, body.as_slice())
}

/// Steps a session, if the moment is one that it takes.
fn step(
    alloc: Global,
    session: &mut Session<'_>,
    event: Event<'_>,
    moment: Timestamp,
) -> Result<Actions, AllocError>
    requires { ShowFewParts event }
{
    if is_moment(moment) {
        session.step(event, moment)
    } else {
        Ok(Actions {
            send: Vec::new(alloc),
            call: None,
            close: false,
        })
    }
}

/// Steps a session with the message of this frame.
fn take(
    alloc: Global,
    session: &mut Session<'_>,
    frame: &[u8],
    moment: Timestamp,
) -> Result<Actions, AllocError> {
    match read_frame(frame) {
        Frame::Whole { fields, .. } => step(alloc, session, Event::Message(fields), moment),
        _ => step(alloc, session, Event::Tick, moment),
    }
}

/// A report of a claim.
fn report(alloc: Global) -> Option<Report>
    ensures { IfSome result ShowsFewParts }
{
    Some(Report {
        number: Number::new(3)?,
        kind: 16,
        status: State::Claimed,
        trans: 0,
        target: Target::Node(NodeName::new(2, 2)?),
        instrument: InstrumentId::new(b"ESZ6")?,
        side: Side::Buy,
        lots: 40,
        parts: ReportParts::from_vec(Vec::new(alloc)),
    })
}

/// So many reports.
fn reports(alloc: Global, count: u32) -> Result<Vec<Report>, AllocError>
    ensures { IfOk result (λ told. All ShowsFewParts told.items) }
{
    let mut all = Vec::new(alloc);
    'reports: for _ in 0..count {
        if let Some(one) = report(alloc) {
            all.push(one)?;
        }
    }
    Ok(all)
}

/// The answer to a call that is accepted as this entry.
fn accepted(entry: u32) -> Option<Answer> {
    let number = Number::new(entry)?;
    Some(Answer::Accepted {
        number,
        status: State::Held,
    })
}

/// The number behind `with`, or 0.
fn count_behind(text: &str) -> u32 {
    match word(text) {
        ("with", count) => number(count),
        _ => 0,
    }
}

/// The answer that a text stands for, and what stands behind it.
fn answer_of(text: &str) -> (Option<Answer>, &str) {
    match word(text) {
        ("accepted", rest) => {
            let (entry, behind) = word(rest);
            (accepted(number(entry)), behind)
        }
        ("refused", rest) => (Some(Answer::Refused(Refusal::SumDiffers)), rest),
        (_, rest) => (None, rest),
    }
}

/// Steps a session with the Reply that a text stands for.
fn reply(
    alloc: Global,
    session: &mut Session<'_>,
    text: &str,
    moment: Timestamp,
) -> Result<Actions, AllocError> {
    let (answer, behind) = answer_of(text);
    let told = reports(alloc, count_behind(behind))?;
    step(alloc, session, Event::Reply(answer, told), moment)
}

/// Steps a session with the message that an event is.
fn message(
    alloc: Global,
    session: &mut Session<'_>,
    what: &str,
    rest: &str,
    moment: Timestamp,
) -> Result<Actions, AllocError> {
    let frame = frame_of(alloc, what, rest)?;
    take(alloc, session, frame.as_slice(), moment)
}

/// Steps a session with an event, of its first word and what stands behind it.
fn attempt(
    alloc: Global,
    session: &mut Session<'_>,
    what: &str,
    rest: &str,
    moment: Timestamp,
) -> Result<Actions, AllocError> {
    match what {
        "<" | "<<" | "call" => message(alloc, session, what, rest, moment),
        "reply" => reply(alloc, session, rest, moment),
        "end" => step(alloc, session, Event::End, moment),
        _ => step(alloc, session, Event::Tick, moment),
    }
}

/// The same. An event that lacks memory is handed in once more.
fn attempt_twice(
    rt: &impl Eprint,
    alloc: Global,
    session: &mut Session<'_>,
    what: &str,
    rest: &str,
    moment: Timestamp,
) -> Result<Actions, AllocError> {
    match attempt(alloc, session, what, rest, moment) {
        Ok(actions) => Ok(actions),
        Err(_) => {
            tell_refused(rt);
            attempt(alloc, session, what, rest, moment)
        }
    }
}

/// Steps a session with the answer to a call of this number. Whether the firm was sent it with its
/// number.
fn answered(
    rt: &impl Eprint,
    alloc: Global,
    session: &mut Session<'_>,
    number: &str,
    moment: Timestamp,
) -> bool {
    match attempt_twice(rt, alloc, session, "reply", "accepted 2", moment) {
        Ok(actions) => shows_answer(actions.send.as_slice(), number),
        Err(_) => false,
    }
}

/// Steps a session with a call of this number, and with its answer. Whether it was answered with
/// its number.
fn call(
    rt: &impl Eprint,
    alloc: Global,
    session: &mut Session<'_>,
    number: u32,
    moment: Timestamp,
) -> bool {
    match digits(rt, alloc, number) {
        Ok(number) => {
            attempt_twice(rt, alloc, session, "call", number.as_str(), moment).is_ok()
                && answered(rt, alloc, session, number.as_str(), moment)
        }
        Err(_) => false,
    }
}

/// Steps a session with a call of each number from one to another, and with its answer, and writes
/// how many were answered.
fn calls(
    rt: &(impl Print + Eprint),
    alloc: Global,
    session: &mut Session<'_>,
    text: &str,
    moment: Timestamp,
) -> bool {
    let (first, last) = word(text);
    let (from, to) = (number(first), number(last));
    let mut answered = 0u32;
    for n in from..to.saturating_add(1) {
        if call(rt, alloc, session, n, moment) {
            answered = answered.saturating_add(1);
        }
    }
    println!(rt; "  {answered} answers, numbered {from} to {to}").is_ok()
}

/// Does what a text asks for, at a moment, and writes what comes of it.
fn act(
    rt: &(impl Print + Eprint),
    alloc: Global,
    session: &mut Session<'_>,
    text: &str,
    moment: Timestamp,
) -> bool {
    let (what, rest) = word(text);
    if what == "calls" {
        return calls(rt, alloc, session, rest, moment);
    }
    match attempt_twice(rt, alloc, session, what, rest, moment) {
        Ok(actions) => show(rt, alloc, session, &actions),
        Err(_) => false,
    }
}

/// The same, so many milliseconds after the start.
fn act_at(
    rt: &(impl Print + Eprint),
    alloc: Global,
    session: &mut Session<'_>,
    text: &str,
    millis: u32,
) -> bool {
    match Timestamp::from_millisecond(START + i64::from(millis)) {
        Ok(moment) => act(rt, alloc, session, text, moment),
        Err(_) => false,
    }
}

/// Plays a line.
fn play_line<'a>(
    rt: &(impl Print + Eprint),
    alloc: Global,
    house: &'a House,
    session: &mut Session<'a>,
    line: &str,
) -> bool {
    let (time, event) = word(line);
    if time == "=" {
        *session = Session::new(alloc, house);
        true
    } else {
        line.is_empty() || act_at(rt, alloc, session, event, number(time))
    }
}

/// Plays the lines. Whether all went well.
fn play(rt: &(impl Print + Eprint), alloc: Global, house: &House, input: &str) -> bool {
    let mut session = Session::new(alloc, house);
    for line in input.split('\n') {
        if rt.println(line).is_err() || !play_line(rt, alloc, house, &mut session, line) {
            return false;
        }
    }
    true
}

/// The house of the cases.
fn house(rt: &impl Eprint, alloc: Global) -> Option<House> {
    match House::parse(alloc, HOUSE) {
        Ok(house) => Some(house),
        Err(fault) if fault.cause == Cause::Memory => {
            tell_refused(rt);
            House::parse(alloc, HOUSE).ok()
        }
        Err(_) => None,
    }
}

/// Plays lines at the house of the cases. Whether all went well.
pub(crate) fn play_all(rt: &(impl Print + Eprint), alloc: Global, lines: &str) -> bool {
    match house(rt, alloc) {
        Some(house) => play(rt, alloc, &house, lines),
        None => false,
    }
}
