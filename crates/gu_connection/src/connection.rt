//! One connection: its session, the bytes that came of it, and what it is to be sent. Nothing here
//! asks the book.
ghost use Rattle.std.specs.Prelude.{◌≡◌, ◌⊎◌, ◌≤◌, ◌≤ℤ◌, pos, ◌+◌, ◌++◌, ℕ, List, [], length};
ghost use Rattle.std.specs.Prelude.{true, false, take, not, ◌&&◌};
ghost use Rattle.std.specs.Io.KnownBytes.{Appends};
ghost use Rattle.std.specs.Prelude.{nat_le, None, option_map, IfOk, OnOk, OnErr, IsErr, IfSome};
ghost use Rattle.std.specs.List.{All};
ghost use Rattle.gu_base.specs.Limits.{most_parts};
ghost use Rattle.gu_codec.specs.Limits.{longest_frame};
ghost use Rattle.gu_session.specs.Steps.{opening};
ghost use Rattle.gu_session.specs.Keeping.{bytes_of};
ghost use Rattle.gu_session.specs.Noting.{gap_of};
ghost use Rattle.gu_session.specs.Text.{ShowFewParts};
ghost use Rattle.gu_session.specs.declared.event.Event.TheVariants.{Reply};
ghost use Rattle.gu_base.specs.House.{House as HouseTable};
ghost use Rattle.gu_base.specs.Runs.{IsRunFrom};
ghost use Rattle.gu_base.specs.declared.entry.Entry.{Entry};
ghost use Rattle.gu_trace.specs.Between.{last_told, looked_to, HasLooked};
ghost use Rattle.gu_trace.specs.Reports.{most_reports, reports_for};
ghost use Rattle.gu_codec.specs.Answer.{pairs};
ghost use Rattle.gu_connection.specs.Beginning.{asked_by as asks_of};
ghost use Rattle.gu_connection.specs.Turns.{StepsNow, Speaks, Shuts, Brings, message_brings};
ghost use Rattle.gu_connection.specs.LoggingOut.{logout_of, LogsOut};
ghost use Rattle.gu_limits.specs.Admission.{most_text};
ghost use Rattle.gu_session.specs.Steps.{time_of};

use crate::beginning::{Beginning, asked_by};
use crate::look::Look;
use crate::steady::SteadyClock;
use gu_base::{Answer, FirmId, Memory, Report};
use gu_board::Pace;
use gu_codec::{Feed, Fields, Frame, Header, append_field, tags, write_frame};
use gu_command::NamedBook;
use gu_message::{SendingTime, msg_types};
use gu_parties::House;
use gu_session::{Actions, Event, Gap, LAST_NUMBER, Noted, Session};
use gu_trace::{MOST_REPORTS, nothing_is_passed_over};
use jiff::Timestamp;
use std::alloc::Global;
use std::io::Write;
use std::time::{Clock, Instant};

/// The bytes that the body of a Logout with a text of `log_out` has at the most.
const LOGOUT_ROOM: usize = 256;

/// From how many milliseconds on a write has waited for the peer.
const SLOW_WRITE: u128 = 100;

/// The connection is to be closed.
#[derive(Clone, Copy, PartialEq, Eq)]
pub struct Closed;

/// What the bytes held have brought.
#[derive(Drop)]
pub(crate) enum Brought {
    /// They only begin a frame, if there are any.
    Nothing,
    /// A garbled frame, which is passed over.
    Garbled,
    /// A message, and what its step asks for.
    Message(Actions),
    /// A Logon that was accepted, what its step asks for, and from where the firm asks its reports
    /// to begin.
    Logon(Actions, Beginning),
}

/// Whether a write that is over now, and began right behind this, has waited for the peer.
fn has_waited<R: Clock>(rt: &R, begun: Option<Instant>) -> bool {
    match begun {
        Some(begun) => match begun.elapsed(rt) {
            Ok(took) => took.as_millis() >= SLOW_WRITE,
            Err(_) => false,
        },
        None => false,
    }
}

/// The moment for an event that is no message, of a turn the first one or a later one. A reply
/// comes shortly behind a step of its turn. A Tick may have the moment of the reply before it.
#[inline(always)]
fn moment_for<R: Clock>(
    rt: &R,
    clock: &mut SteadyClock,
    event: &Event<'_>,
    is_first: bool,
) -> Option<Timestamp>
    ensures { IfSome result (λ t. pos 0 ≤ℤ t.nanosecond) }
{
    match event {
        Event::Reply(..) => clock.later(rt),
        _ => clock.for_message(rt, is_first),
    }
}

/// One step of a session, at this moment, and what is noted of it. A moment that can't be told
/// closes the connection, as want of memory does.
#[inline(always)]
fn step(
    session: &mut Session<'_>,
    noted: &mut Noted,
    event: Event<'_>,
    moment: Option<Timestamp>,
) -> Result<Actions, Closed>
    requires event { ShowFewParts event }
    requires moment { IfSome moment (λ t. pos 0 ≤ℤ t.nanosecond) }
    ensures ok { IfOk result (λ a. StepsNow event.entry session.old session.new a) }
    ensures err { OnErr result (session.new ≡ session.old) }
{
    let Some(moment) = moment else {
        return Err(Closed);
    };
    match session.step_noted(event, moment, noted) {
        Ok(actions) => Ok(actions),
        Err(_) => Err(Closed),
    }
}

/// Ends a session at this moment, if that can be told.
#[inline(never)]
fn end_session(session: &mut Session<'_>, moment: Option<Timestamp>)
    requires { IfSome moment (λ t. pos 0 ≤ℤ t.nanosecond) }
{
    if let Some(moment) = moment {
        let _ = session.step(Event::End, moment);
    }
}

/// What a message with these fields has brought, whose step asks for these actions, where a firm
/// had logged on before it or hadn't, and has behind it or hasn't.
fn brought_by(
    was_on: bool,
    is_on: bool,
    actions: Actions,
    book: Option<&NamedBook>,
    fields: Fields<'_>,
) -> Brought
    ensures { result ≡ message_brings (not was_on && is_on) actions
        (asks_of (option_map (λ b. b.now) book.entry) (pairs fields.entry)) }
{
    if !was_on && is_on {
        return Brought::Logon(actions, asked_by(book, fields));
    }
    Brought::Message(actions)
}

/// Appends a Logout of the house to a firm, with this number and this text.
fn write_logout(
    alloc: Global,
    out: &mut Vec<u8>,
    to: (FirmId, FirmId),
    number: u32,
    moment: Timestamp,
    text: &str,
) -> Result<(), Memory>
    requires moment { pos 0 ≤ℤ moment.nanosecond }
    requires text { length text.now ≤ most_text }
    ensures ok { OnOk result (out.new.items ≡ out.old.items
        ++ logout_of to.0 to.1 (time_of moment) number text.now) }
    ensures err { OnErr result (out.new.items ≡ out.old.items) }
{
    let mut body = Vec::new(alloc);
    body.reserve(LOGOUT_ROOM)?;
    append_field(&mut body, tags::TEXT, text.as_bytes());
    let time = SendingTime::new(moment);
    let header = Header {
        kind: msg_types::LOGOUT,
        sender: to.0,
        target: to.1,
        number: u64::from(number),
        sent: time.as_bytes(),
        resent: None,
    };
    write_frame(out, &header, body.as_slice())
}

/// The number of the last of these reports, or the one before where there are none.
fn last_number(reports: &[Report], before: u32) -> u32
    ensures { result ≡ last_told before reports.now }
{
    match reports.last() {
        Some(report) => report.number.get(),
        None => before,
    }
}

/// What is kept of a connection between its turns.
#[derive(Drop)]
pub struct Connection<'a> {
    session: Session<'a>,
    /// What an operator is told of its last step.
    noted: Noted,
    /// The clock by which the session goes.
    clock: SteadyClock,
    /// The book that is served, where its name is read.
    book: Option<&'a NamedBook>,
    feed: Feed,
    /// The number of the last report that was sent, or of that above which they begin, 0 at first.
    told: u32,
    /// The entry up to which its readings have looked, or above which they begin, 0 at first. No
    /// entry above the last report that was sent, up to it, concerns the firm.
    looked: u32,
    /// Whether the last reading had as many reports as one may have, so that more may be there.
    behind: bool,
    /// Above which entry its reports begin, once that is decided.
    begun: Option<u32>,
    /// What the turn sends, in one write at its end.
    out: Vec<u8>,
    /// Whether the turn was told of the book: an answer, reports, or from where these begin.
    tells: bool,
    /// What the feed holds, where calls may have to wait.
    look: Look,
    /// What it has had of its firm's rate.
    pace: Pace,
    /// Whether a write has waited for the peer.
    is_slow: bool,
}

impl<'a> Connection<'a> {
    /// A connection before its first turn, on which calls may have to wait or never do, to this
    /// book, where its name is read.
    pub fn new(
        alloc: Global,
        house: &'a House,
        book: Option<&'a NamedBook>,
        may_wait: bool,
    ) -> Result<Connection<'a>, Closed>
        ensures book { IfOk result (λ c. c.book ≡ book.entry) }
        ensures session { IfOk result (λ c. c.session ≡ opening house.now c.session.link.came) }
        ensures feed { IfOk result
            (λ c. (c.feed.held ≡ []) × (c.feed.passed ≡ 0) × (c.feed.broken ≡ None)) }
        ensures told { IfOk result (λ c. c.told ≡ 0) }
        ensures looked { IfOk result (λ c. c.looked ≡ 0) }
        ensures behind { IfOk result (λ c. c.behind ≡ false) }
        ensures out { IfOk result (λ c. c.out.items ≡ []) }
    {
        match Feed::new(alloc) {
            Ok(feed) => Ok(Connection {
                session: Session::new(alloc, house),
                noted: Noted::NONE,
                clock: SteadyClock::new(),
                book,
                feed,
                told: 0,
                looked: 0,
                behind: false,
                begun: None,
                out: Vec::new(alloc),
                tells: false,
                look: Look::new(alloc, may_wait),
                pace: Pace::new(),
                is_slow: false,
            }),
            Err(_) => Err(Closed),
        }
    }

    /// The firm that has logged on.
    pub fn firm(&self) -> Option<FirmId>
        ensures { result ≡ self.now.session.link.firm }
    {
        self.session.firm()
    }

    /// What an operator is told of the session's last step.
    pub(crate) fn noted(&self) -> Noted {
        self.noted
    }

    /// The gap that is open in what the firm sends, if one is.
    pub fn gap(&self) -> Option<Gap>
        ensures { result ≡ gap_of self.now.session.link }
    {
        self.session.gap()
    }

    /// The entry up to which its readings have looked, 0 at first.
    pub fn looked(&self) -> u32
        ensures { result ≡ self.now.looked }
    {
        self.looked
    }

    /// Whether more reports may be there than the last reading had, so that the firm isn't to wait
    /// for the next one.
    pub fn behind(&self) -> bool
        ensures { result ≡ self.now.behind }
    {
        self.behind
    }

    /// Above which entry the firm's reports begin, once it has logged on and was told no other.
    pub fn begun(&self) -> Option<u32> {
        self.begun
    }

    /// Whether the wall clock has left its session's clock by more than that outlives.
    pub(crate) fn has_stepped(&self) -> bool {
        self.clock.has_stepped()
    }

    /// What it has had of its firm's rate.
    pub fn pace(&self) -> &Pace {
        &self.pace
    }

    /// When its clock was read last.
    pub(crate) fn read_at(&self) -> Option<Instant> {
        self.clock.read_at()
    }

    /// Whether a write has waited for the peer.
    pub(crate) fn is_slow(&self) -> bool {
        self.is_slow
    }

    /// Whether a call, or a request for resends, stands first of what has come whole, on a
    /// connection where these may have to wait.
    pub(crate) fn may_wait(&self) -> bool {
        self.look.may_wait()
    }

    /// How many bytes the next read may bring.
    pub(crate) fn room(&self) -> usize
        ensures { result + length self.now.feed.held ≡ longest_frame }
    {
        self.feed.room()
    }

    /// Takes what a read has brought.
    pub(crate) fn push(&mut self, piece: &[u8]) -> Result<(), Closed>
        ensures ok { OnOk result
            (self.new.feed ≡ record self.old.feed { held = self.old.feed.held ++ piece.now }) }
        ensures session { self.new.session ≡ self.old.session }
        ensures book { self.new.book ≡ self.old.book }
        ensures told { self.new.told ≡ self.old.told }
        ensures looked { self.new.looked ≡ self.old.looked }
        ensures behind { self.new.behind ≡ self.old.behind }
        ensures tells { self.new.tells ≡ self.old.tells }
        ensures out { self.new.out.items ≡ self.old.out.items }
    {
        self.look.push(piece)?;
        match self.feed.push(piece) {
            Ok(()) => Ok(()),
            Err(_) => Err(Closed),
        }
    }

    /// Puts what a step sends behind what the turn sends. An `Err` closes the connection: the step
    /// asks for it, or memory ran out.
    pub(crate) fn send(&mut self, actions: &Actions) -> Result<(), Closed>
        ensures out { OnOk result
            (self.new.out.items ≡ self.old.out.items ++ actions.now.send.items) }
        ensures open { OnOk result (actions.now.close ≡ false) }
        ensures err { OnErr result ((self.new.out.items ≡ self.old.out.items)
            ⊎ ((self.new.out.items ≡ self.old.out.items ++ actions.now.send.items)
            × (actions.now.close ≡ true))) }
        ensures session { self.new.session ≡ self.old.session }
        ensures feed { self.new.feed ≡ self.old.feed }
        ensures book { self.new.book ≡ self.old.book }
        ensures told { self.new.told ≡ self.old.told }
        ensures looked { self.new.looked ≡ self.old.looked }
        ensures behind { self.new.behind ≡ self.old.behind }
        ensures tells { self.new.tells ≡ self.old.tells }
    {
        if self.out.extend_from_slice(actions.send.as_slice()).is_err() || actions.close {
            return Err(Closed);
        }
        Ok(())
    }

    /// Takes an event that leads to no call, of a turn the first one or a later one.
    #[inline(always)]
    pub(crate) fn quiet<R: Clock>(
        &mut self,
        rt: &R,
        event: Event<'_>,
        is_first: bool,
    ) -> Result<(), Closed>
        requires { ShowFewParts event }
        ensures ok { OnOk result
            (Speaks event.entry self.old.session self.new.session self.old.out.items
            self.new.out.items) }
        ensures err { OnErr result
            (Shuts event.entry self.old.session self.old.out.items self.new.out.items) }
        ensures feed { self.new.feed ≡ self.old.feed }
        ensures book { self.new.book ≡ self.old.book }
        ensures told { self.new.told ≡ self.old.told }
        ensures looked { self.new.looked ≡ self.old.looked }
        ensures behind { self.new.behind ≡ self.old.behind }
        ensures tells { self.new.tells ≡ self.old.tells }
    {
        let moment = moment_for(rt, &mut self.clock, &event, is_first);
        match step(&mut self.session, &mut self.noted, event, moment) {
            Ok(actions) => self.send(&actions),
            Err(e) => Err(e),
        }
    }

    /// Ends the session.
    pub fn end<R: Clock>(&mut self, rt: &R) -> Result<(), Closed>
        ensures err { IsErr result }
        ensures out { self.new.out.items ≡ self.old.out.items }
    {
        let _ = self.quiet(rt, Event::End, true);
        Err(Closed)
    }

    /// Puts a Logout with this text behind what the turn sends, with the session's next number,
    /// where a firm has logged on and a number is left. It is no step of the session: nothing may
    /// be asked of that any more, since the connection is to be closed.
    pub fn log_out<R: Clock>(&mut self, rt: &R, alloc: Global, house: &House, text: &str) -> Closed
        requires { length text.now ≤ most_text }
        ensures session { self.new.session ≡ self.old.session }
        ensures book { self.new.book ≡ self.old.book }
        ensures told { self.new.told ≡ self.old.told }
        ensures looked { self.new.looked ≡ self.old.looked }
        ensures behind { self.new.behind ≡ self.old.behind }
        ensures tells { self.new.tells ≡ self.old.tells }
        ensures out { LogsOut house.now.house text.now self.old.session self.old.out.items
            self.new.out.items }
    {
        let Some(firm) = self.session.firm() else {
            return Closed;
        };
        let number = self.session.next_number();
        if number > LAST_NUMBER {
            return Closed;
        }
        let Some(moment) = self.clock.now(rt) else {
            return Closed;
        };
        let to = (house.house(), firm);
        match write_logout(alloc, &mut self.out, to, number, moment, text) {
            Ok(()) => Closed,
            Err(_) => Closed,
        }
    }

    /// Takes the next frame that has come whole, of a turn the first one or a later one, which may
    /// have the moment of the reply before it. A broken stream ends the session.
    pub(crate) fn next<R: Clock>(&mut self, rt: &R, is_first: bool) -> Result<Brought, Closed>
        ensures brings { IfOk result
            (Brings (option_map (λ b. b.now) self.old.book) self.old.feed self.old.session
            self.new.session self.new.feed) }
        ensures book { self.new.book ≡ self.old.book }
        ensures told { self.new.told ≡ self.old.told }
        ensures looked { self.new.looked ≡ self.old.looked }
        ensures behind { self.new.behind ≡ self.old.behind }
        ensures tells { self.new.tells ≡ self.old.tells }
        ensures out { self.new.out.items ≡ self.old.out.items }
    {
        let was_on = self.session.firm().is_some();
        match self.feed.next() {
            None => Ok(Brought::Nothing),
            Some(Frame::Partial) => Ok(Brought::Nothing),
            Some(Frame::Garbled { len }) => {
                self.look.pass(len);
                Ok(Brought::Garbled)
            }
            Some(Frame::Whole { fields, len }) => {
                self.look.pass(len);
                let moment = self.clock.for_message(rt, is_first);
                let taken = Event::Message(fields);
                match step(&mut self.session, &mut self.noted, taken, moment) {
                    Ok(actions) => {
                        let is_on = self.session.firm().is_some();
                        Ok(brought_by(was_on, is_on, actions, self.book, fields))
                    }
                    Err(e) => Err(e),
                }
            }
            Some(Frame::Broken { .. }) => {
                let moment = self.clock.for_message(rt, is_first);
                end_session(&mut self.session, moment);
                Err(Closed)
            }
        }
    }

    /// Has reports begin above this entry, before one was sent.
    pub(crate) fn begin_above(&mut self, number: u32)
        ensures told { self.new.told ≡ number }
        ensures looked { self.new.looked ≡ number }
        ensures behind { self.new.behind ≡ self.old.behind }
        ensures tells { self.new.tells ≡ true }
        ensures session { self.new.session ≡ self.old.session }
        ensures book { self.new.book ≡ self.old.book }
        ensures feed { self.new.feed ≡ self.old.feed }
        ensures out { self.new.out.items ≡ self.old.out.items }
    {
        self.told = number;
        self.looked = number;
        self.begun = Some(number);
        self.tells = true;
    }

    /// Sends the answer to the call that waits, if one does, and the reports above the entry up to
    /// which was looked, which are those above the last that was sent. Notes the last of them,
    /// whether the firm is behind, and up to which entry was looked: all that there were, or where
    /// more may be there, the last of them.
    pub(crate) fn send_reply<R: Clock>(
        &mut self,
        rt: &R,
        entries: u32,
        answer: Option<Answer>,
        reports: Vec<Report>,
    ) -> Result<(), Closed>
        requires { All (λ r. length r.parts ≤ most_parts) reports.items }
        ensures ok { OnOk result
            (Speaks (Reply answer reports) self.old.session self.new.session self.old.out.items
            self.new.out.items) }
        ensures err { OnErr result (self.new.out.items ≡ self.old.out.items) }
        ensures feed { self.new.feed ≡ self.old.feed }
        ensures book { self.new.book ≡ self.old.book }
        ensures told { OnOk result (self.new.told ≡ last_told self.old.told reports.items) }
        ensures looked { OnOk result
            (self.new.looked ≡ looked_to self.old.looked entries reports.items) }
        ensures behind { OnOk result
            (self.new.behind ≡ nat_le most_reports (length reports.items)) }
        ensures tells { OnOk result (self.new.tells ≡ true) }
        ensures same { (t : HouseTable) (h : List Entry) (f : List ℕ) → IsRunFrom t [] h
            → length h ≡ entries → HasLooked t.house h f self.old.told self.old.looked
            → reports.items ≡ reports_for t.house h f self.old.looked
            → (reports.items ≡ reports_for t.house h f self.old.told)
            × OnOk result (HasLooked t.house h f self.new.told self.new.looked) }
    {
        nothing_is_passed_over();
        let told = last_number(reports.as_slice(), self.told);
        let behind = reports.len() >= MOST_REPORTS;
        let looked = if behind {
            last_number(reports.as_slice(), self.looked)
        } else {
            entries
        };
        match self.quiet(rt, Event::Reply(answer, reports), false) {
            Ok(()) => {
                self.told = told;
                self.looked = looked;
                self.behind = behind;
                self.tells = true;
                Ok(())
            }
            Err(e) => Err(e),
        }
    }

    /// Begins a turn, which wasn't told of the book yet.
    pub fn begin_turn(&mut self)
        ensures { self.new ≡ record self.old { tells = false } }
    {
        self.tells = false;
    }

    /// Whether the turn was told of the book.
    pub fn tells(&self) -> bool
        ensures { result ≡ self.now.tells }
    {
        self.tells
    }

    /// How many bytes the turn sends so far.
    pub fn waiting(&self) -> usize
        ensures { result ≡ length self.now.out.items }
    {
        self.out.len()
    }

    /// How many bytes the bodies have of the messages that its session keeps to send them again.
    pub fn kept_bytes(&self) -> usize
        ensures { result ≡ bytes_of self.now.session.kept }
    {
        self.session.kept_bytes()
    }

    /// What the turn sends so far.
    pub fn made(&self) -> &[u8]
        ensures { result.now ≡ self.now.out.items }
    {
        self.out.as_slice()
    }

    /// Puts what the turn sends behind what waits to be sent already.
    pub fn hand_out(&mut self, to: &mut Vec<u8>) -> Result<(), Closed>
        ensures ok { OnOk result (to.new.items ≡ to.old.items ++ self.old.out.items) }
        ensures err { OnErr result (to.new.items ≡ to.old.items) }
        ensures out { OnOk result (self.new.out.items ≡ []) }
    {
        if to.is_empty() {
            std::mem::swap(&mut self.out, to);
            return Ok(());
        }
        if to.extend_from_slice(self.out.as_slice()).is_err() {
            return Err(Closed);
        }
        self.out.clear();
        Ok(())
    }

    /// Writes what the turn sends, in one write. What it waits counts from the last reading of the
    /// session's clock. One that is short has waited for the peer as long as it may.
    pub(crate) fn write<R: Clock, W: Write>(&mut self, rt: &R, to: &mut W) -> Result<(), Closed>
        ensures ok { OnOk result
            (Appends (W.contents to.old) (W.contents to.new) self.old.out.items) }
        ensures err { OnErr result ((n : ℕ)
            × Appends (W.contents to.old) (W.contents to.new) (take n self.old.out.items)) }
        ensures out { self.new.out.items ≡ [] }
        ensures session { self.new.session ≡ self.old.session }
        ensures feed { self.new.feed ≡ self.old.feed }
        ensures book { self.new.book ≡ self.old.book }
        ensures told { self.new.told ≡ self.old.told }
        ensures looked { self.new.looked ≡ self.old.looked }
        ensures behind { self.new.behind ≡ self.old.behind }
        ensures tells { self.new.tells ≡ self.old.tells }
    {
        let whole = self.out.len();
        if whole == 0 {
            return Ok(());
        }
        let written = to.write(self.out.as_slice());
        self.is_slow = self.is_slow || has_waited(rt, self.clock.read_at());
        self.out.clear();
        match written {
            Ok(count) => { if count == whole { Ok(()) } else { Err(Closed) } }
            Err(_) => Err(Closed),
        }
    }
}
