//! The table of the session: what an event decides. `specs/Table.antt` states it line by line.

ghost use Rattle.std.specs.Prelude.{◌≡◌, ◌≤◌, ◌+◌};
ghost use Rattle.gu_session.specs.Limits.{last_number, past_last};
ghost use Rattle.gu_session.specs.Table.{silent as silent_of, says as says_of, closes as closes_of};
ghost use Rattle.gu_session.specs.Table.{shut as shut_of, again as again_of};
ghost use Rattle.gu_session.specs.Table.{hands_out as hands_out_of, last_asked as last_asked_of};
ghost use Rattle.gu_session.specs.Table.{span_of, resend_of, first_logon as first_logon_of};
ghost use Rattle.gu_session.specs.Table.{before_logon as before_logon_of, resets as resets_of};
ghost use Rattle.gu_session.specs.Table.{asks as asks_of, fills as fills_of, by_type as by_type_of};
ghost use Rattle.gu_session.specs.Table.{on_line as on_line_of, heard as heard_of};
ghost use Rattle.gu_session.specs.Table.{open_gap as open_gap_of, settled as settled_of};
ghost use Rattle.gu_session.specs.Table.{on_message as on_message_of, waited as waited_of};
ghost use Rattle.gu_session.specs.Table.{by_silence as by_silence_of, on_tick as on_tick_of};

use crate::line::{TableLine, line_of};
use crate::link::{LinkState, Waiting};
use crate::verdict::{Say, Span, Verdict};
use gu_base::{AllocId, FirmId};
use gu_codec::tags;
use gu_message::{Heading, Inbound, LogoutText, Reject, VALUE_IS_INCORRECT};
use gu_parties::House;
use jiff::Timestamp;

/// Nothing is sent.
fn silent(link: LinkState) -> Verdict
    ensures { result ≡ silent_of link }
{
    Verdict {
        link,
        resend: None,
        say: None,
        call: None,
    }
}

/// One new message.
fn says(moment: Timestamp, link: LinkState, say: Say) -> Verdict
    requires { link.next ≤ past_last }
    ensures { result ≡ says_of moment link say }
{
    Verdict {
        link: LinkState {
            next: link.next + 1,
            went: moment,
            ..link
        },
        resend: None,
        say: Some(say),
        call: None,
    }
}

/// A Logout, and the session is closed.
fn closes(moment: Timestamp, link: LinkState, text: Option<LogoutText>) -> Verdict
    requires { link.next ≤ past_last }
    ensures { result ≡ closes_of moment link text }
{
    says(
        moment,
        LinkState {
            closed: true,
            waiting: None,
            ..link
        },
        Say::Logout(text),
    )
}

/// The session is closed, and nothing is sent.
pub fn shut(link: LinkState) -> Verdict
    ensures { result ≡ shut_of link }
{
    silent(LinkState {
        closed: true,
        waiting: None,
        ..link
    })
}

/// A Reject of NewSeqNo (36).
fn bad_new_number(moment: Timestamp, link: LinkState) -> Verdict
    requires { link.next ≤ past_last }
    ensures { result ≡ says_of moment link (Say.Reject (record { reason = 5; tag = 36 })) }
{
    says(
        moment,
        link,
        Say::Reject(Reject {
            reason: VALUE_IS_INCORRECT,
            tag: tags::NEW_SEQ_NO,
        }),
    )
}

/// A resend first, where there is anything to resend.
fn again(moment: Timestamp, span: Option<Span>, verdict: Verdict) -> Verdict
    ensures { result ≡ again_of moment span verdict }
{
    match span {
        None => verdict,
        Some(span) => Verdict {
            link: LinkState {
                went: moment,
                ..verdict.link
            },
            resend: Some(span),
            ..verdict
        },
    }
}

/// The last number that a ResendRequest asks for: 0 and a number past the last sent mean the last
/// sent.
fn last_asked(next: u32, to: u32) -> u32
    ensures value { result ≡ last_asked_of next to }
    ensures small { result ≤ next }
{
    if to == 0 || to >= next {
        next.saturating_sub(1)
    } else {
        to
    }
}

/// What a ResendRequest asks for, of what was sent.
fn span(next: u32, from: u32, to: u32) -> Option<Span>
    requires { next ≤ past_last }
    ensures { result ≡ span_of next from to }
{
    let last = last_asked(next, to);
    if from <= last {
        Some(Span {
            from,
            next: last + 1,
        })
    } else {
        None
    }
}

/// A Logon that is understood.
fn first_logon(
    moment: Timestamp,
    house: &House,
    link: LinkState,
    heading: Heading,
    heartbeat: u32,
    reset: bool,
) -> Verdict
    requires { link.next ≤ past_last }
    ensures { result ≡ first_logon_of moment house.now link heading heartbeat reset }
{
    if heading.number == 1 && house.firm(&heading.firm) {
        says(
            moment,
            LinkState {
                firm: Some(heading.firm),
                expected: 2,
                heartbeat,
                came: moment,
                ..link
            },
            Say::Logon { heartbeat, reset },
        )
    } else {
        shut(link)
    }
}

/// A message before the Logon.
fn before_logon(
    moment: Timestamp,
    house: &House,
    link: LinkState,
    heading: Result<Heading, Reject>,
    meaning: &Result<Inbound, Reject>,
) -> Verdict
    requires { link.next ≤ past_last }
    ensures { result ≡ before_logon_of moment house.now link heading meaning.now }
{
    match heading {
        Err(_) => shut(link),
        Ok(heading) => match meaning {
            Ok(Inbound::Logon { heartbeat, reset }) => {
                first_logon(moment, house, link, heading, *heartbeat, *reset)
            }
            _ => shut(link),
        },
    }
}

/// A call is handed out, and waits for its Reply.
fn hands_out(link: LinkState, number: u32, trade: bool, id: AllocId) -> Verdict
    ensures { result ≡ hands_out_of link number trade id }
{
    Verdict {
        link: LinkState {
            waiting: Some(Waiting { trade, id }),
            ..link
        },
        resend: None,
        say: None,
        call: Some(number),
    }
}

/// A reset of the expected number, which may not fall.
fn resets(moment: Timestamp, link: LinkState, new_number: u32) -> Verdict
    requires { link.next ≤ past_last }
    ensures { result ≡ resets_of moment link new_number }
{
    if link.expected <= new_number {
        silent(LinkState {
            expected: new_number,
            ..link
        })
    } else {
        bad_new_number(moment, link)
    }
}

/// A gap, which is asked for once.
fn asks(moment: Timestamp, link: LinkState, number: u32) -> Verdict
    requires { link.next ≤ past_last }
    ensures { result ≡ asks_of moment link number link.asked }
{
    match link.asked {
        None => says(
            moment,
            LinkState {
                asked: Some(number),
                ..link
            },
            Say::ResendRequest {
                from: link.expected,
            },
        ),
        Some(highest) => silent(LinkState {
            asked: Some(highest.max(number)),
            ..link
        }),
    }
}

/// Numbers that are passed over, from the message's own on.
fn fills(moment: Timestamp, link: LinkState, number: u32, new_number: u32) -> Verdict
    requires { link.next ≤ past_last }
    ensures { result ≡ fills_of moment link number new_number }
{
    if number < new_number {
        silent(LinkState {
            expected: new_number,
            ..link
        })
    } else {
        bad_new_number(moment, link)
    }
}

/// The message with the expected number, by its type.
fn by_type(
    moment: Timestamp,
    link: LinkState,
    number: u32,
    meaning: &Result<Inbound, Reject>,
) -> Verdict
    requires { link.next ≤ past_last }
    ensures { result ≡ by_type_of moment link number meaning.now }
{
    match meaning {
        Err(fault) => says(moment, link, Say::Reject(*fault)),
        Ok(Inbound::Heartbeat) => silent(link),
        Ok(Inbound::Reject) => silent(link),
        Ok(Inbound::TestRequest { id }) => says(moment, link, Say::Heartbeat(Some(*id))),
        Ok(Inbound::Logout) => closes(moment, link, None),
        Ok(Inbound::Logon { .. }) => closes(moment, link, Some(LogoutText::SecondLogon)),
        Ok(Inbound::SequenceReset { next, .. }) => fills(moment, link, number, *next),
        Ok(Inbound::ResendRequest { from, to }) => {
            again(moment, span(link.next, *from, *to), silent(link))
        }
        Ok(Inbound::Call { trade, id, .. }) => hands_out(link, number, *trade, *id),
    }
}

/// What the line of a message decides.
fn on_line(
    moment: Timestamp,
    link: LinkState,
    meaning: &Result<Inbound, Reject>,
    line: TableLine,
) -> Verdict
    requires next { link.next ≤ past_last }
    requires expected { link.expected ≤ last_number }
    ensures { result ≡ on_line_of moment link meaning.now line }
{
    match line {
        TableLine::BadHeader => closes(moment, link, Some(LogoutText::BadHeader)),
        TableLine::Reset { next } => resets(moment, link, next),
        TableLine::Duplicate => silent(link),
        TableLine::TooLow => closes(
            moment,
            link,
            Some(LogoutText::NumberTooLow {
                expected: link.expected,
            }),
        ),
        TableLine::LogoutAbove => closes(moment, link, None),
        TableLine::Gap { number } => {
            let span = resend(link.next, meaning);
            again(moment, span, asks(moment, link, number))
        }
        TableLine::Expected { number } => by_type(
            moment,
            LinkState {
                expected: link.expected + 1,
                ..link
            },
            number,
            meaning,
        ),
    }
}

/// The span of a ResendRequest.
fn resend(next: u32, meaning: &Result<Inbound, Reject>) -> Option<Span>
    requires { next ≤ past_last }
    ensures { result ≡ resend_of next meaning.now }
{
    match meaning {
        Ok(Inbound::ResendRequest { from, to }) => span(next, *from, *to),
        _ => None,
    }
}

/// A message came.
fn heard(moment: Timestamp, link: LinkState) -> LinkState
    ensures { result ≡ heard_of moment link }
{
    LinkState {
        came: moment,
        tested: false,
        ..link
    }
}

/// A gap that was asked for is closed as soon as the expected number is past it.
fn open_gap(expected: u32, asked: Option<u32>) -> Option<u32>
    ensures { result ≡ open_gap_of expected asked }
{
    match asked {
        None => None,
        Some(highest) => {
            if highest < expected {
                None
            } else {
                Some(highest)
            }
        }
    }
}

/// The same of a verdict.
fn settled(verdict: Verdict) -> Verdict
    ensures { result ≡ settled_of verdict }
{
    Verdict {
        link: LinkState {
            asked: open_gap(verdict.link.expected, verdict.link.asked),
            ..verdict.link
        },
        ..verdict
    }
}

/// What a message decides.
pub fn on_message(
    moment: Timestamp,
    house: &House,
    link: LinkState,
    heading: Result<Heading, Reject>,
    meaning: &Result<Inbound, Reject>,
    is_logout: bool,
) -> Verdict
    requires next { link.next ≤ past_last }
    requires expected { link.expected ≤ last_number }
    ensures { result ≡ on_message_of moment house.now link heading meaning.now is_logout }
{
    let verdict = match link.firm {
        None => before_logon(moment, house, link, heading, meaning),
        Some(firm) => {
            let line = line_of(&link, firm, heading, meaning, is_logout);
            on_line(moment, heard(moment, link), meaning, line)
        }
    };
    settled(verdict)
}

/// Whole seconds from one moment to another, 0 where that is earlier.
fn waited(since: Timestamp, moment: Timestamp) -> u64
    ensures { result ≡ waited_of since moment }
{
    let seconds = moment.duration_since(since).as_secs();
    if seconds < 0 { 0 } else { seconds as u64 }
}

/// What the passing of time decides after the Logon.
fn by_silence(moment: Timestamp, link: LinkState) -> Verdict
    requires { link.next ≤ past_last }
    ensures { result ≡ by_silence_of moment link }
{
    let heartbeat = u64::from(link.heartbeat);
    let came = waited(link.came, moment);
    let went = waited(link.went, moment);
    if heartbeat == 0 {
        silent(link)
    } else if 3 * heartbeat <= came {
        closes(moment, link, Some(LogoutText::NoHeartbeat))
    } else if 2 * heartbeat <= came && !link.tested {
        says(
            moment,
            LinkState {
                tested: true,
                ..link
            },
            Say::TestRequest,
        )
    } else if heartbeat <= went {
        says(moment, link, Say::Heartbeat(None))
    } else {
        silent(link)
    }
}

/// What the passing of time decides.
pub fn on_tick(moment: Timestamp, link: LinkState) -> Verdict
    requires { link.next ≤ past_last }
    ensures { result ≡ on_tick_of moment link link.firm }
{
    match link.firm {
        None => silent(link),
        Some(_) => by_silence(moment, link),
    }
}
