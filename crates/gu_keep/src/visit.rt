//! What an operator is told of a connection.

use crate::said::{cause_of_logout, said_by, said_last, text_of_cause, why_refused};
use gu_archive::{Archive, Tap};
use gu_base::FirmId;
use gu_board::{Board, Work, number, text};
use gu_log::{Event, Key};
use gu_parties::House;
use gu_recorder::Wire;
use gu_session::Gap;
use gu_status::{Cause, REASONS, REJECT_REASONS, REJECTS, SeenGap, is_due, seen_gap};
use std::alloc::Global;
use std::mem::replace;
use std::sync::Wait;
use std::time::Clock;

/// How many of the first bytes of a connection are kept until it has logged on.
const MOST_FIRST: usize = 4096;

/// A connection, as an operator is told of it.
#[derive(Drop)]
pub(crate) struct Visit {
    number: u64,
    /// Its peer, as ADDRESS:PORT.
    peer: String,
    /// The second in which it was taken.
    since: u64,
    /// What was read and called on it, the calls that were refused by the refusal's number, from 1
    /// on, the Rejects for each of the `REJECT_REASONS`, and how many bytes were sent.
    work: Work,
    reasons: [u64; REASONS],
    rejects: [u64; REJECTS],
    sent: u64,
    /// The gap in what its firm sends, if one was open when that was last looked at.
    gap: Option<SeenGap>,
    /// What an archive keeps of it.
    pub(crate) tap: Tap,
    /// Its first bytes, while it has no Logon.
    first: Vec<u8>,
    /// Whether the Logon was told.
    is_told: bool,
    /// Why its session has ended, once it has.
    why: String,
}

/// The address of a peer, in words.
pub(crate) fn peer_of(alloc: Global, wire: &Wire) -> String {
    if let Ok(peer) = wire.peer_addr() {
        if let Ok(text) = format!(in alloc; "{peer}") {
            return text;
        }
    }
    String::new(alloc)
}

/// Appends that there were so many for a reason, if there were any, behind others.
fn push_reason(alloc: Global, text: &mut String, reason: usize, count: u64) {
    if count == 0 {
        return;
    }
    let comma = if text.is_empty() { "" } else { "," };
    if let Ok(told) = format!(in alloc; "{comma}{reason}:{count}") {
        let _ = text.push_str(told.as_str());
    }
}

/// How many calls were refused for each reason, by the refusal's number: as `3:1,14:2`.
fn reasons_text(alloc: Global, reasons: &[u64; REASONS]) -> String {
    let mut text = String::new(alloc);
    for i in 0..REASONS {
        push_reason(alloc, &mut text, i + 1, reasons[i]);
    }
    text
}

/// How many Rejects were sent for each reason, in the same way: as `1:1,5:2`.
fn rejects_text(alloc: Global, rejects: &[u64; REJECTS]) -> String {
    let mut text = String::new(alloc);
    for i in 0..REJECTS {
        let reason = usize::from(REJECT_REASONS[i]);
        push_reason(alloc, &mut text, reason, rejects[i]);
    }
    text
}

impl Visit {
    /// A connection that was taken in this second.
    pub(crate) fn new(alloc: Global, board: Option<&Board>, wire: &Wire, second: u64) -> Visit {
        let number = match board {
            Some(board) => board.enters(),
            None => 0,
        };
        Visit {
            number,
            peer: peer_of(alloc, wire),
            since: second,
            work: Work::default(),
            reasons: [0; REASONS],
            rejects: [0; REJECTS],
            sent: 0,
            gap: None,
            tap: Tap::new(alloc, number),
            first: Vec::new(alloc),
            is_told: false,
            why: String::new(alloc),
        }
    }

    /// A turn with it begins: what its worker had done before.
    pub(crate) fn begin(&self, board: &Board, worker: u32) -> Work {
        board.serves(worker, self.number);
        board.work(worker)
    }

    /// The turn has ended, which has read into this piece.
    pub(crate) fn end(&mut self, board: &Board, worker: u32, before: Work, piece: &[u8]) {
        let done = board.work(worker).since(before);
        let read = done.read;
        self.work = self.work.with(done);
        if done.refused > 0 {
            board.hand_over(worker, &mut self.reasons);
        }
        if done.rejected > 0 {
            board.hand_rejects(worker, &mut self.rejects);
        }
        if !self.is_told && self.first.len() < MOST_FIRST {
            let room = MOST_FIRST - self.first.len();
            let len = piece.len().min(read.min(room as u64) as usize);
            let _ = self.first.extend_from_slice(&piece[..len]);
        }
    }

    /// Notes why its session has ended, by the last frames that it sends.
    pub(crate) fn note_end(&mut self, frames: &[u8]) {
        if let Some(said) = said_last(frames) {
            if let Ok(said) = std::str::from_utf8(said) {
                let _ = self.why.push_str(said);
            }
        }
    }

    /// Whether its peer has closed it.
    pub(crate) fn is_gone(&self) -> bool {
        self.work.gone > 0
    }

    /// Why it has ended.
    fn why(&self) -> &str {
        if self.is_gone() {
            "the peer has closed"
        } else if self.why.is_empty() {
            "the session has ended"
        } else {
            self.why.as_str()
        }
    }

    /// Why no Logon was accepted on it, and what is said of that.
    fn refusal(&self, house: &House) -> (Cause, &str) {
        if self.why.is_empty() {
            let cause = why_refused(house, self.first.as_slice());
            (cause, text_of_cause(cause))
        } else {
            (cause_of_logout(self.why.as_str()), self.why.as_str())
        }
    }

    /// Puts its end into an archive, and why it ends.
    pub(crate) fn closes<R: Wait + Clock>(
        &mut self,
        rt: &R,
        alloc: Global,
        archive: &mut Archive,
        house: &House,
        why: Option<&'static str>,
    ) {
        let mut tap = replace(&mut self.tap, Tap::new(alloc, self.number));
        let _ = archive.closes(rt, &mut tap, self.ending(house, why));
    }

    /// Why it has ended, which it knows itself where no reason is given.
    fn ending(&self, house: &House, why: Option<&'static str>) -> &str {
        match why {
            _ if !self.is_told => self.refusal(house).1,
            Some(why) => why,
            None => self.why(),
        }
    }

    /// So many bytes were sent.
    pub(crate) fn sends(&mut self, bytes: usize) {
        self.sent = self.sent.saturating_add(bytes as u64);
    }

    /// Says that a firm has logged on, if that wasn't said, and above which entry its reports begin
    /// where they don't begin with the first.
    pub(crate) fn say_logon<R: Wait + Clock>(
        &mut self,
        rt: &R,
        board: &Board,
        firm: &FirmId,
        above: u32,
    ) {
        if self.is_told {
            return;
        }
        self.is_told = true;
        self.first.clear();
        let fields = [
            number(Key::Connection, self.number),
            text(Key::Firm, firm.as_bytes()),
            text(Key::Peer, self.peer.as_bytes()),
            number(Key::Above, u64::from(above)),
        ];
        let count = if above > 0 {
            fields.len()
        } else {
            fields.len() - 1
        };
        board.say(rt, Event::LoggedOn, &fields[..count]);
    }

    /// Looks in this second at the gap that is open in what its firm sends, if one is, and says so
    /// where that is due.
    pub(crate) fn look_at_gap<R: Wait + Clock>(
        &mut self,
        rt: &R,
        board: &Board,
        firm: &FirmId,
        gap: Option<Gap>,
        second: u64,
    ) {
        let Some(gap) = gap else {
            self.gap = None;
            return;
        };
        let mut seen = seen_gap(self.gap, gap.expected, gap.highest, second);
        if is_due(&seen, second) {
            seen.told = Some(second);
            let fields = [
                number(Key::Connection, self.number),
                text(Key::Firm, firm.as_bytes()),
                number(Key::Expected, u64::from(gap.expected)),
                number(Key::Seconds, second.saturating_sub(seen.since)),
            ];
            board.say(rt, Event::Gap, &fields);
        }
        self.gap = Some(seen);
    }

    /// Says that it has ended in this second without a Logon that was accepted, and why. That a
    /// peer came and went without a byte is counted alone.
    pub(crate) fn say_refusal<R: Wait + Clock>(
        &self,
        rt: &R,
        board: &Board,
        house: &House,
        second: u64,
    ) {
        let first = self.first.as_slice();
        let (cause, why) = self.refusal(house);
        board.refuses_logon(cause);
        if cause == Cause::NoMessage && self.is_gone() {
            return;
        }
        let fields = [
            number(Key::Connection, self.number),
            text(Key::Peer, self.peer.as_bytes()),
            text(Key::Said, said_by(first)),
            text(Key::Why, why.as_bytes()),
            number(Key::Seconds, second.saturating_sub(self.since)),
        ];
        board.say(rt, Event::LogonRefused, &fields);
    }

    /// Says that it has ended in this second, of a firm that had logged on; and why, which it knows
    /// itself where no reason is given; and how many messages are left that the peer didn't take.
    pub(crate) fn say_end<R: Wait + Clock>(
        &self,
        rt: &R,
        board: &Board,
        firm: &FirmId,
        second: u64,
        why: Option<&'static str>,
        left: u64,
    ) {
        let why = match why {
            Some(why) => why,
            None => self.why(),
        };
        let reasons = reasons_text(board.alloc(), &self.reasons);
        let rejects = rejects_text(board.alloc(), &self.rejects);
        let fields = [
            number(Key::Connection, self.number),
            text(Key::Firm, firm.as_bytes()),
            number(Key::Seconds, second.saturating_sub(self.since)),
            number(Key::Calls, self.work.calls()),
            number(Key::Accepted, self.work.accepted),
            number(Key::Repeated, self.work.repeated),
            number(Key::Refused, self.work.refused),
            text(Key::RefusedBy, reasons.as_bytes()),
            number(Key::Rejects, self.work.rejected),
            text(Key::RejectsBy, rejects.as_bytes()),
            number(Key::Garbled, self.work.garbled),
            number(Key::Dropped, self.work.dropped),
            number(Key::Resent, self.work.resent),
            number(Key::BytesIn, self.work.read),
            number(Key::BytesOut, self.sent),
            text(Key::Why, why.as_bytes()),
            number(Key::AnswersLeft, left),
        ];
        let count = if left > 0 {
            fields.len()
        } else {
            fields.len() - 1
        };
        board.say(rt, Event::Ended, &fields[..count]);
    }
}
