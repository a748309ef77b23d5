//! Writing the frames that go out: what the session says, what is new, and what is sent again.

ghost use Rattle.std.specs.Prelude.{◌≡◌, ◌≤◌, ◌+◌, ◌++◌, ◌∷◌, List, OnOk, IfOk, length, map};
ghost use Rattle.std.specs.Prelude.{option_map, Some, None};
ghost use Rattle.std.specs.List.{flat_map};
ghost use Rattle.gu_codec.specs.Limits.{longest_body};
ghost use Rattle.gu_codec.specs.Writing.{IsText, fields_text};
ghost use Rattle.gu_codec.specs.Answer.{pairs};
ghost use Rattle.gu_session.specs.Going.{type_of_say as type_of_say_lem, fields_of_say};
ghost use Rattle.gu_session.specs.Going.{type_of_app, said};
ghost use Rattle.gu_session.specs.Steps.{gap_fill as gap_fill_of, with_gaps, within, resends};
ghost use Rattle.gu_session.specs.Steps.{sayings, new as new_of};
ghost use Rattle.gu_session.specs.Text.{text_of, fields_of};
ghost use Rattle.gu_session.specs.Keeping.{Kept, kept_with, messages, total};

use crate::kept::{KeptHeader, KeptMessages, type_of};
use crate::verdict::{Say, Span};
use gu_base::{FirmId, Memory};
use gu_codec::{Fields, Header, write_frame};
use gu_message::{
    SendingTime, heartbeat, logon, logout, msg_types, reject, resend_request, sequence_reset,
    test_request,
};
use std::alloc::Global;
use std::collections::VecDeque;

/// Who writes to whom, and when.
#[derive(Clone, Copy)]
pub struct Writer {
    pub house: FirmId,
    pub firm: FirmId,
    pub time: SendingTime,
}

/// Appends a frame.
fn write(
    out: &mut Vec<u8>,
    writer: &Writer,
    kind: &[u8],
    number: u32,
    first: Option<SendingTime>,
    body: &[u8],
) -> Result<(), Memory>
    requires kind { IsText kind.now }
    requires body { length body.now ≤ longest_body }
    ensures { OnOk result
        (out.new.items ≡ out.old.items
        ++ text_of writer.now.house writer.now.firm writer.now.time (record {
          kind = kind.now;
          number = number;
          next = number + 1;
          first = first;
          body = body.now;
        })) }
{
    let time = writer.time;
    let resent = first.as_ref().map(|time| time.as_bytes());
    let header = Header {
        kind,
        sender: writer.house,
        target: writer.firm,
        number: u64::from(number),
        sent: time.as_bytes(),
        resent,
    };
    write_frame(out, &header, body)
}

/// MsgType (35) of what the session says.
fn type_of_say(say: &Say) -> &'static [u8]
    ensures value { result.now ≡ type_of_say_lem say.now }
    ensures text { IsText result.now }
{
    match say {
        Say::Logon { .. } => msg_types::LOGON,
        Say::Heartbeat(_) => msg_types::HEARTBEAT,
        Say::TestRequest => msg_types::TEST_REQUEST,
        Say::ResendRequest { .. } => msg_types::RESEND_REQUEST,
        Say::Reject(_) => msg_types::REJECT,
        Say::Logout(_) => msg_types::LOGOUT,
    }
}

/// The body of what the session says about a message, or about none.
fn body_of_say(alloc: Global, came: Option<Fields<'_>>, say: Say) -> Result<Vec<u8>, Memory>
    ensures value { IfOk result
        (λ body. body.items ≡ fields_text (fields_of_say (fields_of came.entry) say)) }
    ensures short { IfOk result (λ body. length body.items ≤ longest_body) }
{
    let mut body = Vec::new(alloc);
    match say {
        Say::Logon { heartbeat, reset } => logon(&mut body, heartbeat, reset)?,
        Say::Heartbeat(answered) => heartbeat(&mut body, answered)?,
        Say::TestRequest => test_request(&mut body)?,
        Say::ResendRequest { from } => resend_request(&mut body, from)?,
        Say::Reject(fault) => match came {
            Some(fields) => reject(&mut body, fields, fault)?,
            None => {}
        },
        Say::Logout(text) => logout(&mut body, text)?,
    }
    Ok(body)
}

/// Appends what the session says, as a new message with this number.
fn write_say(
    alloc: Global,
    out: &mut Vec<u8>,
    writer: &Writer,
    came: Option<Fields<'_>>,
    number: u32,
    say: Say,
) -> Result<(), Memory>
    ensures { OnOk result
        (out.new.items ≡ out.old.items
        ++ text_of writer.now.house writer.now.firm writer.now.time
        (said (fields_of came.entry) number say)) }
{
    let body = body_of_say(alloc, came, say)?;
    write(
        out,
        writer,
        type_of_say(&say),
        number,
        None,
        body.as_slice(),
    )
}

/// Appends an application message.
fn write_application(
    out: &mut Vec<u8>,
    writer: &Writer,
    header: &KeptHeader,
    body: &[u8],
    first: Option<SendingTime>,
) -> Result<(), Memory>
    requires { length body.now ≤ longest_body }
    ensures { OnOk result
        (out.new.items ≡ out.old.items
        ++ text_of writer.now.house writer.now.firm writer.now.time (record {
          kind = type_of_app header.now.kind;
          number = header.now.number;
          next = header.now.number + 1;
          first = first;
          body = body.now;
        })) }
{
    write(
        out,
        writer,
        type_of(header.kind),
        header.number,
        first,
        body,
    )
}

/// Appends one SequenceReset for the numbers from one up to another, if there are any.
fn write_gap(
    alloc: Global,
    out: &mut Vec<u8>,
    writer: &Writer,
    from: u32,
    next: u32,
) -> Result<(), Memory>
    ensures { OnOk result
        (out.new.items ≡ out.old.items
        ++ flat_map (text_of writer.now.house writer.now.firm writer.now.time)
        (gap_fill_of writer.now.time from next)) }
{
    if from < next {
        let mut body = Vec::new(alloc);
        sequence_reset(&mut body, next)?;
        write(
            out,
            writer,
            msg_types::SEQUENCE_RESET,
            from,
            Some(writer.time),
            body.as_slice(),
        )?;
    }
    Ok(())
}

/// Appends a kept message again, where its number is in the span, behind the gap before it. Answers
/// the next number.
fn write_one_again(
    alloc: Global,
    out: &mut Vec<u8>,
    writer: &Writer,
    header: &KeptHeader,
    body: &[u8],
    span: Span,
    next: u32,
) -> Result<u32, Memory>
    requires { length body.now ≤ longest_body }
    ensures { IfOk result (λ number. (later : List Kept)
        → out.new.items
        ++ flat_map (text_of writer.now.house writer.now.firm writer.now.time)
        (with_gaps writer.now.time number span.next (within span.from span.next later))
        ≡ out.old.items
        ++ flat_map (text_of writer.now.house writer.now.firm writer.now.time)
        (with_gaps writer.now.time next span.next
        (within span.from span.next (kept_with header.now body.now ∷ later)))) }
{
    if header.number < span.from {
        return Ok(next);
    }
    if span.next <= header.number {
        return Ok(next);
    }
    write_gap(alloc, out, writer, next, header.number)?;
    write_application(out, writer, header, body, Some(header.sent))?;
    Ok(header.number + 1)
}

/// Appends what is sent again of the messages of these headers, whose bodies stand one behind the
/// other.
fn write_again(
    alloc: Global,
    out: &mut Vec<u8>,
    writer: &Writer,
    headers: &VecDeque<KeptHeader>,
    bodies: &[u8],
    span: Span,
) -> Result<(), Memory>
    requires { total headers.now.items ≡ length bodies.now }
    ensures { OnOk result
        (out.new.items ≡ out.old.items
        ++ flat_map (text_of writer.now.house writer.now.firm writer.now.time)
        (with_gaps writer.now.time span.from span.next
        (within span.from span.next (messages headers.now.items bodies.now)))) }
{
    let mut next = span.from;
    let mut left = bodies;
    for i in 0..headers.len() {
        let (body, behind) = left.split_at(headers[i].size.get());
        next = write_one_again(alloc, out, writer, &headers[i], body, span, next)?;
        left = behind;
    }
    write_gap(alloc, out, writer, next, span.next)
}

/// Appends what is sent again, if anything is.
pub fn write_resend(
    alloc: Global,
    out: &mut Vec<u8>,
    writer: &Writer,
    kept: &KeptMessages,
    resend: Option<Span>,
) -> Result<(), Memory>
    ensures { OnOk result
        (out.new.items ≡ out.old.items
        ++ flat_map (text_of writer.now.house writer.now.firm writer.now.time)
        (resends writer.now.time kept.now resend)) }
{
    match resend {
        None => Ok(()),
        Some(span) => {
            let (headers, bodies) = kept.parts();
            write_again(alloc, out, writer, headers, bodies, span)
        }
    }
}

/// Appends what is said, if anything is.
pub fn write_saying(
    alloc: Global,
    out: &mut Vec<u8>,
    writer: &Writer,
    came: Option<Fields<'_>>,
    number: u32,
    say: Option<Say>,
) -> Result<(), Memory>
    ensures { OnOk result
        (out.new.items ≡ out.old.items
        ++ flat_map (text_of writer.now.house writer.now.firm writer.now.time)
        (sayings (fields_of came.entry) number say)) }
{
    match say {
        None => Ok(()),
        Some(say) => write_say(alloc, out, writer, came, number, say),
    }
}

/// Appends the new messages of these headers, whose bodies stand one behind the other.
fn write_fresh(
    out: &mut Vec<u8>,
    writer: &Writer,
    headers: &VecDeque<KeptHeader>,
    bodies: &[u8],
) -> Result<(), Memory>
    requires { total headers.now.items ≡ length bodies.now }
    ensures { OnOk result
        (out.new.items ≡ out.old.items
        ++ flat_map (text_of writer.now.house writer.now.firm writer.now.time)
        (map new_of (messages headers.now.items bodies.now))) }
{
    let mut left = bodies;
    for i in 0..headers.len() {
        let (body, behind) = left.split_at(headers[i].size.get());
        write_application(out, writer, &headers[i], body, None)?;
        left = behind;
    }
    Ok(())
}

/// Appends new application messages.
pub fn write_new(out: &mut Vec<u8>, writer: &Writer, fresh: &KeptMessages) -> Result<(), Memory>
    ensures { OnOk result
        (out.new.items ≡ out.old.items
        ++ flat_map (text_of writer.now.house writer.now.firm writer.now.time)
        (map new_of fresh.now)) }
{
    let (headers, bodies) = fresh.parts();
    write_fresh(out, writer, headers, bodies)
}
