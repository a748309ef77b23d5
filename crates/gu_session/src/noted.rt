//! What an operator is told of a step and of a session: what goes wrong between a firm and the
//! house.

ghost use Rattle.std.specs.Prelude.{◌≡◌, ◌&&◌, Ok, length, filter, nat_le, nat_lt};
ghost use Rattle.gu_session.specs.Noting.{rejected as rejected_of, is_dropped as is_dropped_of};
ghost use Rattle.gu_session.specs.Noting.{noted_by as noted_by_of, resent_for as resent_of};
ghost use Rattle.gu_session.specs.Noting.{is_above_gap as is_above_gap_of};

use crate::kept::{KeptHeader, KeptMessages};
use crate::line::{TableLine, line_of};
use crate::link::LinkState;
use crate::verdict::{Say, Span, Verdict};
use gu_message::{Heading, Inbound, Reject};
use std::collections::VecDeque;

/// What a step has of what goes wrong.
#[derive(Clone, Copy, PartialEq, Eq)]
pub struct Noted {
    /// The Reject that it sends.
    pub reject: Option<Reject>,
    /// Whether its message is dropped for the gap before it.
    pub dropped: bool,
    /// How many messages it sends again, 0 to 256: a SequenceReset is none of them.
    pub resent: usize,
}

/// A gap that is open: messages lack, and were asked for.
#[derive(Clone, Copy, PartialEq, Eq)]
pub struct Gap {
    /// MsgSeqNum (34) of the first message that lacks, 1 to 999,999,999.
    pub expected: u32,
    /// The highest of those that were dropped for it, which is at least that.
    pub highest: u32,
}

impl Noted {
    /// Nothing.
    pub const NONE: Noted = Noted {
        reject: None,
        dropped: false,
        resent: 0,
    };
}

/// The Reject that is said, if one is.
fn rejected(say: &Option<Say>) -> Option<Reject>
    ensures { result ≡ rejected_of say.now }
{
    match say {
        Some(Say::Reject(fault)) => Some(*fault),
        _ => None,
    }
}

/// Whether a line drops its message for a gap.
fn is_above_gap(line: TableLine) -> bool
    ensures { result ≡ is_above_gap_of line }
{
    match line {
        TableLine::Gap { .. } => true,
        _ => false,
    }
}

/// Whether a message with this header, whose number is above the expected one, is dropped for the
/// gap before it.
#[cold]
#[inline(never)]
fn is_above(
    link: &LinkState,
    heading: Heading,
    meaning: &Result<Inbound, Reject>,
    is_logout: bool,
) -> bool
    ensures { result ≡ is_dropped_of link.now link.now.firm (Ok heading) meaning.now is_logout }
{
    match link.firm {
        None => false,
        Some(firm) => is_above_gap(line_of(link, firm, Ok(heading), meaning, is_logout)),
    }
}

/// Whether a message is dropped for the gap before it. Of most its number alone tells.
#[tactic(auto, using(crate::proofs::Noting::few_are_kept, crate::proofs::Noting::refused_is_kept))]
fn is_dropped(
    link: &LinkState,
    heading: &Result<Heading, Reject>,
    meaning: &Result<Inbound, Reject>,
    is_logout: bool,
) -> bool
    ensures { result ≡ is_dropped_of link.now link.now.firm heading.now meaning.now is_logout }
{
    match heading {
        Err(_) => false,
        Ok(heading) => {
            heading.number > link.expected && is_above(link, *heading, meaning, is_logout)
        }
    }
}

/// How many messages of these headers have numbers in a span.
fn count_in(headers: &VecDeque<KeptHeader>, span: Span) -> usize
    ensures { result ≡ length (filter
        (λ e. nat_le span.from e.number && nat_lt e.number span.next) headers.now.items) }
{
    let mut count = 0;
    for i in 0..headers.len() {
        let number = headers[i].number;
        if span.from <= number && number < span.next {
            count += 1;
        }
    }
    count
}

/// How many messages that are kept are sent again for a span, if there is one.
#[tactic(auto, using(crate::proofs::KeptLists::as_many))]
fn resent_for(kept: &KeptMessages, resend: Option<Span>) -> usize
    ensures { result ≡ resent_of kept.now resend }
{
    match resend {
        None => 0,
        Some(span) => {
            let (headers, _) = kept.parts();
            count_in(headers, span)
        }
    }
}

/// What a message's step has of it, by what the table decides.
pub fn noted_by(
    link: &LinkState,
    kept: &KeptMessages,
    heading: &Result<Heading, Reject>,
    meaning: &Result<Inbound, Reject>,
    is_logout: bool,
    verdict: &Verdict,
) -> Noted
    ensures { result ≡ noted_by_of link.now kept.now heading.now meaning.now is_logout verdict.now }
{
    Noted {
        reject: rejected(&verdict.say),
        dropped: is_dropped(link, heading, meaning, is_logout),
        resent: resent_for(kept, verdict.resend),
    }
}
