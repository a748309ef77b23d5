//! The messages of a Reply: the answer to the call that waits, and reports.

ghost use Rattle.std.specs.Prelude.{◌≡◌, ◌≤◌, ◌+◌, ◌++◌, [], length, map, nat_le, ◌≤ℤ◌, pos};
ghost use Rattle.std.specs.Prelude.{Some};
ghost use Rattle.std.specs.Prelude.{OnOk, IfOk};
ghost use Rattle.std.specs.List.{All};
ghost use Rattle.gu_message.specs.AllocationReport.{ShowsFewParts};
ghost use Rattle.gu_session.specs.Limits.{past_last};
ghost use Rattle.gu_session.specs.Steps.{kept_from, report_body, answer_of, reply_bodies};
ghost use Rattle.gu_session.specs.Steps.{new as new_of, time_of};
ghost use Rattle.gu_session.specs.Text.{wire};

use crate::kept::KeptMessages;
use crate::link::{LinkState, Waiting};
use crate::writing::{Writer, write_new};
use gu_base::{Answer, Memory, Report};
use gu_message::SendingTime;
use jiff::Timestamp;
use std::alloc::Global;

/// How many bytes a frame has beside its body, where the names in it are short.
const FRAME_ROOM: usize = 128;

/// The last MsgSeqNum (34) that a message may have.
pub const LAST_NUMBER: u32 = 999_999_999;

/// How many messages answer the call that waits: one or none.
pub fn answers(waiting: Option<Waiting>, answer: &Option<Answer>) -> usize
    ensures { result ≡ length (answer_of waiting answer.now) }
{
    match waiting {
        None => 0,
        Some(_) => match answer {
            None => 0,
            Some(_) => 1,
        },
    }
}

/// Whether so many messages can be numbered.
pub fn has_numbers(next: u32, answers: usize, reports: usize) -> bool
    requires { next ≤ past_last }
    ensures { result ≡ nat_le (next + (answers + reports)) past_last }
{
    let room = (LAST_NUMBER + 1 - next) as usize;
    reports <= room && answers <= room - reports
}

/// Adds the messages of reports.
fn tell_reports(
    fresh: &mut KeptMessages,
    reports: &[Report],
    next: u32,
    moment: Timestamp,
    time: SendingTime,
) -> Result<(), Memory>
    requires moment { pos 0 ≤ℤ moment.nanosecond }
    requires time { time ≡ time_of moment }
    requires few { All ShowsFewParts reports.now }
    requires numbers { next + length reports.now ≤ past_last }
    ensures { OnOk result
        (fresh.new ≡ fresh.old ++ kept_from time next (map (report_body time) reports.now)) }
{
    let mut number = next;
    for report in reports {
        fresh.push_report(report, number, moment, time)?;
        number += 1;
    }
    Ok(())
}

/// No messages, in the room of others, with room for the first ones where reports are to come.
fn emptied(spare: KeptMessages, reports: &[Report]) -> Result<KeptMessages, Memory>
    ensures { IfOk result (λ fresh. fresh ≡ []) }
{
    let mut fresh = spare;
    fresh.clear();
    if !reports.is_empty() {
        fresh.make_room()?;
    }
    Ok(fresh)
}

/// The messages of a Reply, in the room of others.
fn messages(
    spare: KeptMessages,
    link: &LinkState,
    answer: &Option<Answer>,
    reports: &[Report],
    moment: Timestamp,
    time: SendingTime,
) -> Result<KeptMessages, Memory>
    requires moment { pos 0 ≤ℤ moment.nanosecond }
    requires time { time ≡ time_of moment }
    requires few { All ShowsFewParts reports.now }
    requires numbers { link.now.next
        + (length (answer_of link.now.waiting answer.now) + length reports.now)
        ≤ past_last }
    ensures { IfOk result (λ fresh. fresh
        ≡ kept_from time link.now.next
        (reply_bodies time link.now.waiting answer.now reports.now)) }
{
    let mut fresh = emptied(spare, reports)?;
    let mut number = link.next;
    if let Some(waiting) = link.waiting {
        if let Some(answer) = answer {
            fresh.push_answer(waiting, answer, number, time)?;
            number += 1;
        }
    }
    tell_reports(&mut fresh, reports, number, moment, time)?;
    Ok(fresh)
}

/// How many bytes the frames of messages have, as most are: so none is moved for the next.
fn room_of(fresh: &KeptMessages) -> usize {
    fresh
        .size()
        .saturating_add(fresh.len().saturating_mul(FRAME_ROOM))
}

/// The messages of a Reply at this moment, in the room of others, and their frames.
pub fn replied(
    spare: KeptMessages,
    alloc: Global,
    writer: &Writer,
    link: &LinkState,
    answer: &Option<Answer>,
    reports: &[Report],
    moment: Timestamp,
) -> Result<(KeptMessages, Vec<u8>), Memory>
    requires moment { pos 0 ≤ℤ moment.nanosecond }
    requires time { writer.now.time ≡ time_of moment }
    requires few { All ShowsFewParts reports.now }
    requires numbers { link.now.next
        + (length (answer_of link.now.waiting answer.now) + length reports.now)
        ≤ past_last }
    ensures kept { IfOk result (λ r. r.0
        ≡ kept_from (time_of moment) link.now.next
        (reply_bodies (time_of moment) link.now.waiting answer.now reports.now)) }
    ensures send { IfOk result
        (λ r. r.1.items ≡ wire writer.now.house (Some writer.now.firm) (time_of moment)
        (map new_of r.0)) }
{
    let fresh = messages(spare, link, answer, reports, moment, writer.time)?;
    let mut send = Vec::new(alloc);
    send.reserve(room_of(&fresh))?;
    write_new(&mut send, writer, &fresh)?;
    Ok((fresh, send))
}
