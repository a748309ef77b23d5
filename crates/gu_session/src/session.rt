//! The session of one connection: what comes is decided by the table, sent and kept.

ghost use Rattle.std.specs.Prelude.{◌≡◌, ◌≤◌, ◌≤ℤ◌, ◌+◌, ◌++◌, pos, true, false, IsTrue, OnOk};
ghost use Rattle.std.specs.Prelude.{OnErr, IfOk, Ok, None, Some, is_some, option_map};
ghost use Rattle.std.specs.Prelude.{length};
ghost use Rattle.std.specs.List.{All};
ghost use Rattle.gu_codec.specs.Answer.{pairs};
ghost use Rattle.gu_message.specs.AllocationReport.{ShowsFewParts};
ghost use Rattle.gu_message.specs.Heading.{heading_of};
ghost use Rattle.gu_message.specs.Meaning.{meaning_of};
ghost use Rattle.gu_message.specs.declared.inbound.Inbound.TheVariants.{Heartbeat};
ghost use Rattle.gu_session.specs.Keeping.{bytes_of};
ghost use Rattle.gu_session.specs.Limits.{past_last};
ghost use Rattle.gu_session.specs.Noting.{gap_of, noted_of, noted_on, noted_where_it_fits};
ghost use Rattle.gu_session.specs.Steps as StepEvent;
ghost use Rattle.gu_session.specs.Steps.{fits as fits_of, call_of as call_of_table, opening, tells};
ghost use Rattle.gu_session.specs.Steps.{replies, where_it_fits, on_event, acts, resends, sayings};
ghost use Rattle.gu_session.specs.Steps.{time_of};
ghost use Rattle.gu_session.specs.Table.{shut as shut_of};
ghost use Rattle.gu_session.specs.Text.{ShowFewParts, Steps, Gives, IsEmpty, wire, fields_of};
ghost use Rattle.gu_session.specs.Text.{seen_event};

use crate::event::{Actions, Event};
use crate::kept::KeptMessages;
use crate::link::LinkState;
use crate::noted::{Gap, Noted, noted_by};
use crate::replying::{LAST_NUMBER, answers, has_numbers, replied};
use crate::table::{on_message, on_tick, shut};
use crate::verdict::Verdict;
use crate::writing::{Writer, write_resend, write_saying};
use gu_base::{AllocId, Answer, Command, FirmId, Memory, Report};
use gu_codec::Fields;
use gu_message::{
    Heading, Inbound, MeaningError, Reject, SendingTime, header_and_meaning, is_logout,
};
use gu_parties::House;
use jiff::Timestamp;
use std::alloc::{AllocError, Global};
use std::marker::Model;
use std::mem::replace;

/// The session of one connection of a member firm to the house.
///
/// A pure machine: `step` takes what came and answers what to do, and reads no clock and no socket.
#[derive(Drop)]
pub struct Session<'a> {
    alloc: Global,
    house: &'a House,
    link: LinkState,
    kept: KeptMessages,
    // The messages of a Reply before, whose room the next one has.
    spare: KeptMessages,
}

impl<'a> Model for Session<'a> {
    ghost use Rattle.std.specs.Prelude.{IsTrue};
    ghost use Rattle.gu_session.specs.Steps.{Seen, fits};

    ghost Value = { Seen };

    ghost view = { λ s. record { house = s.house.now; link = s.link; kept = s.kept } };

    ghost invariant = { λ s. IsTrue (fits s.link) };
}

/// The header of a message, and what it means; or the Rejects that answer them.
fn understood(
    alloc: Global,
    fields: Fields<'_>,
    house: &FirmId,
) -> Result<(Result<Heading, Reject>, Result<Inbound, Reject>), Memory>
    ensures heading { IfOk result (λ m. m.0 ≡ heading_of house.now (pairs fields.entry)) }
    ensures meaning { IfOk result (λ m. m.1 ≡ meaning_of house.now (pairs fields.entry)) }
{
    let (heading, meaning) = header_and_meaning(alloc, fields, house);
    match meaning {
        Ok(inbound) => Ok((heading, Ok(inbound))),
        Err(MeaningError::Reject(fault)) => Ok((heading, Err(fault))),
        Err(MeaningError::Memory) => Err(AllocError),
    }
}

/// The id of the call that a message makes.
fn id_of(meaning: &Result<Inbound, Reject>) -> Option<AllocId>
    ensures { result ≡ option_map (λ c. c.id) (call_of_table meaning.now (Some 0)) }
{
    match meaning {
        Ok(Inbound::Call { id, .. }) => Some(*id),
        _ => None,
    }
}

/// The call that a message makes, where it is handed out.
fn call_of(number: Option<u32>, meaning: Result<Inbound, Reject>) -> Option<(AllocId, Command)>
    ensures { result ≡ option_map (λ c. (c.id, c.command)) (call_of_table meaning number) }
{
    number?;
    let id = id_of(&meaning)?;
    match meaning {
        Ok(Inbound::Call { command, .. }) => Some((id, command)),
        _ => None,
    }
}

/// Whether all numbers are within their range.
fn fits(link: &LinkState) -> bool
    ensures { result ≡ fits_of link.now }
{
    link.next <= LAST_NUMBER + 1 && link.expected <= LAST_NUMBER
}

/// What stands for the meaning of no message: a Heartbeat asks for nothing.
fn no_message() -> Result<Inbound, Reject>
    ensures { result ≡ Ok Heartbeat }
{
    Ok(Inbound::Heartbeat)
}

/// Whether a verdict sends nothing.
fn is_silent(verdict: &Verdict) -> bool
    ensures resend { IsTrue result → verdict.now.resend ≡ None }
    ensures say { IsTrue result → verdict.now.say ≡ None }
{
    match verdict.resend {
        None => match verdict.say {
            None => true,
            Some(_) => false,
        },
        Some(_) => false,
    }
}

/// The frames of a verdict.
fn frames(
    alloc: Global,
    house: FirmId,
    kept: &KeptMessages,
    came: Option<Fields<'_>>,
    number: u32,
    verdict: &Verdict,
    moment: Timestamp,
) -> Result<Vec<u8>, Memory>
    requires { pos 0 ≤ℤ moment.nanosecond }
    ensures { IfOk result (λ send. send.items
        ≡ wire house verdict.now.link.firm (time_of moment)
        (resends (time_of moment) kept.now verdict.now.resend
        ++ sayings (fields_of came.entry) number verdict.now.say)) }
{
    let mut send = Vec::new(alloc);
    if is_silent(verdict) {
        return Ok(send);
    }
    if let Some(firm) = verdict.link.firm {
        let writer = Writer {
            house,
            firm,
            time: SendingTime::new(moment),
        };
        write_resend(alloc, &mut send, &writer, kept, verdict.resend)?;
        write_saying(alloc, &mut send, &writer, came, number, verdict.say)?;
    }
    Ok(send)
}

impl<'a> Session<'a> {
    /// The session of a new connection to this house, before its Logon. Takes no memory.
    pub fn new(alloc: Global, house: &'a House) -> Session<'a>
        ensures { result ≡ opening house.now result.link.came }
    {
        let never = Timestamp::UNIX_EPOCH;
        Session {
            alloc,
            house,
            link: LinkState {
                firm: None,
                closed: false,
                waiting: None,
                expected: 1,
                next: 1,
                asked: None,
                heartbeat: 0,
                came: never,
                went: never,
                tested: false,
            },
            kept: KeptMessages::new(alloc),
            spare: KeptMessages::new(alloc),
        }
    }

    /// Takes an event at a moment from 1970 to 9999 (`is_moment`), and answers what to do, by the
    /// table of `docs/profile.md`.
    ///
    /// After a `Message` whose actions have a call, the call is to be made and its answer handed in
    /// by a `Reply` before the next `Message`. A `Reply` clears the call that waits; where none
    /// waits, only its reports are sent. A closed session answers each event with no actions. Each
    /// report of a `Reply` shows at most 100 parts (`gu_message::shows_few_parts`). `Memory` leaves
    /// the session as it was, and the event may be handed in again.
    pub fn step(&mut self, event: Event<'_>, moment: Timestamp) -> Result<Actions, Memory>
        requires moment { pos 0 ≤ℤ moment.nanosecond }
        requires few { ShowFewParts event }
        ensures ok { IfOk result (λ a. Steps moment event.entry self.old self.new a) }
        ensures err { OnErr result (self.new ≡ self.old) }
    {
        let mut noted = Noted::NONE;
        self.step_noted(event, moment, &mut noted)
    }

    /// `step`, and what an operator is told of it, which is put into `noted`.
    pub fn step_noted(
        &mut self,
        event: Event<'_>,
        moment: Timestamp,
        noted: &mut Noted,
    ) -> Result<Actions, Memory>
        requires moment { pos 0 ≤ℤ moment.nanosecond }
        requires few { ShowFewParts event }
        ensures ok { IfOk result (λ a. Steps moment event.entry self.old self.new a) }
        ensures noted { OnOk result
            (noted.new ≡ noted_of moment self.old (seen_event event.entry)) }
        ensures err { OnErr result (self.new ≡ self.old) }
    {
        *noted = Noted::NONE;
        if self.link.closed {
            return Ok(self.nothing(false));
        }
        match event {
            Event::Message(fields) => self.message(fields, moment, noted),
            Event::Tick => self.tick(moment),
            Event::Reply(answer, reports) => self.reply(&answer, reports.as_slice(), moment),
            Event::End => Ok(self.shut_down()),
        }
    }

    /// Whether a call waits for its Reply. Takes no memory.
    pub fn awaiting(&self) -> bool
        ensures { result ≡ is_some self.now.link.waiting }
    {
        self.link.waiting.is_some()
    }

    /// Whether the session is closed. Takes no memory.
    pub fn closed(&self) -> bool
        ensures { result ≡ self.now.link.closed }
    {
        self.link.closed
    }

    /// The firm of the accepted Logon; it stays when the session is closed. Takes no memory.
    pub fn firm(&self) -> Option<FirmId>
        ensures { result ≡ self.now.link.firm }
    {
        self.link.firm
    }

    /// MsgSeqNum (34) of the next message that goes out, 1 to 1,000,000,000; no message has the
    /// last. Takes no memory.
    pub fn next_number(&self) -> u32
        ensures { result ≡ self.now.link.next }
    {
        self.link.next
    }

    /// The gap that is open, if one is: it stays when the session is closed. Takes no memory.
    pub fn gap(&self) -> Option<Gap>
        ensures { result ≡ gap_of self.now.link }
    {
        let highest = self.link.asked?;
        Some(Gap {
            expected: self.link.expected,
            highest,
        })
    }

    /// How many bytes the bodies have of the messages that are kept to be sent again. Takes no
    /// memory.
    pub fn kept_bytes(&self) -> usize
        ensures { result ≡ bytes_of self.now.kept }
    {
        self.kept.size()
    }

    /// What an operator is told of a message's step, by what the table decides.
    fn note(
        &self,
        heading: &Result<Heading, Reject>,
        meaning: &Result<Inbound, Reject>,
        is_logout: bool,
        verdict: &Verdict,
    ) -> Noted
        ensures { result
            ≡ noted_where_it_fits self.now heading.now meaning.now is_logout verdict.now }
    {
        if fits(&verdict.link) {
            noted_by(&self.link, &self.kept, heading, meaning, is_logout, verdict)
        } else {
            Noted::NONE
        }
    }

    /// Takes a message, and puts what an operator is told of its step into `noted`.
    fn message(
        &mut self,
        fields: Fields<'_>,
        moment: Timestamp,
        noted: &mut Noted,
    ) -> Result<Actions, Memory>
        requires { pos 0 ≤ℤ moment.nanosecond }
        ensures ok { IfOk result (λ a.
            Gives (where_it_fits moment self.old
            (on_event moment self.old (StepEvent.Came (pairs fields.entry))))
            self.new a) }
        ensures noted { OnOk result
            (noted.new ≡ noted_on moment self.old (StepEvent.Came (pairs fields.entry))) }
        ensures err { OnErr result (self.new ≡ self.old) }
    {
        let house = self.house.house();
        let (heading, meaning) = understood(self.alloc, fields, &house)?;
        let is_logout = is_logout(fields);
        let verdict = on_message(moment, self.house, self.link, heading, &meaning, is_logout);
        *noted = self.note(&heading, &meaning, is_logout, &verdict);
        self.act(Some(fields), meaning, verdict, moment)
    }

    /// Time has passed.
    fn tick(&mut self, moment: Timestamp) -> Result<Actions, Memory>
        requires { pos 0 ≤ℤ moment.nanosecond }
        ensures ok { IfOk result (λ a.
            Gives (where_it_fits moment self.old (on_event moment self.old StepEvent.Tick)) self.new
            a) }
        ensures err { OnErr result (self.new ≡ self.old) }
    {
        self.act(None, no_message(), on_tick(moment, self.link), moment)
    }

    /// Does what a verdict on a message, or on none, says: all frames are made before anything
    /// changes.
    fn act(
        &mut self,
        came: Option<Fields<'_>>,
        meaning: Result<Inbound, Reject>,
        verdict: Verdict,
        moment: Timestamp,
    ) -> Result<Actions, Memory>
        requires { pos 0 ≤ℤ moment.nanosecond }
        ensures ok { IfOk result (λ a.
            Gives (where_it_fits moment self.old
            (acts moment self.old (fields_of came.entry) (call_of_table meaning verdict.call)
            verdict))
            self.new a) }
        ensures err { OnErr result (self.new ≡ self.old) }
    {
        if !fits(&verdict.link) {
            return Ok(self.shut_down());
        }
        let send = frames(
            self.alloc,
            self.house.house(),
            &self.kept,
            came,
            self.link.next,
            &verdict,
            moment,
        )?;
        self.link = verdict.link;
        Ok(Actions {
            send,
            call: call_of(verdict.call, meaning),
            close: verdict.link.closed,
        })
    }

    /// Takes a Reply.
    fn reply(
        &mut self,
        answer: &Option<Answer>,
        reports: &[Report],
        moment: Timestamp,
    ) -> Result<Actions, Memory>
        requires moment { pos 0 ≤ℤ moment.nanosecond }
        requires few { All ShowsFewParts reports.now }
        ensures ok { IfOk result (λ a.
            Gives (where_it_fits moment self.old
            (on_event moment self.old (StepEvent.Reply answer.now reports.now)))
            self.new a) }
        ensures err { OnErr result (self.new ≡ self.old) }
    {
        match self.link.firm {
            None => Ok(self.nothing(false)),
            Some(firm) => {
                let spare = self.take_spare();
                self.tell(spare, firm, answer, reports, moment)
            }
        }
    }

    /// Takes the messages out whose room is for the next ones.
    fn take_spare(&mut self) -> KeptMessages
        ensures { self.new ≡ self.old }
    {
        replace(&mut self.spare, KeptMessages::new(self.alloc))
    }

    /// Sends the answer to the call that waits, and reports, to the firm, and keeps them, in the
    /// room of others.
    fn tell(
        &mut self,
        spare: KeptMessages,
        firm: FirmId,
        answer: &Option<Answer>,
        reports: &[Report],
        moment: Timestamp,
    ) -> Result<Actions, Memory>
        requires moment { pos 0 ≤ℤ moment.nanosecond }
        requires few { All ShowsFewParts reports.now }
        requires firm { self.old.link.firm ≡ Some firm }
        ensures ok { IfOk result (λ a.
            Gives (where_it_fits moment self.old
            (replies moment self.old (Some firm) answer.now reports.now))
            self.new a) }
        ensures err { OnErr result (self.new ≡ self.old) }
    {
        let link = self.link;
        if !has_numbers(link.next, answers(link.waiting, answer), reports.len()) {
            return Ok(self.shut_down());
        }
        let writer = Writer {
            house: self.house.house(),
            firm,
            time: SendingTime::new(moment),
        };
        let (fresh, send) = replied(spare, self.alloc, &writer, &link, answer, reports, moment)?;
        self.keep_fresh(fresh, moment)?;
        Ok(Actions {
            send,
            call: None,
            close: false,
        })
    }

    /// Keeps the new application messages, which were sent at this moment, and their room, if that
    /// is small. The growth comes first.
    fn keep_fresh(&mut self, fresh: KeptMessages, moment: Timestamp) -> Result<(), Memory>
        requires { self.old.link.next + length fresh ≤ past_last }
        ensures ok { OnOk result (self.new ≡ (tells moment self.old fresh).after) }
        ensures err { OnErr result (self.new ≡ self.old) }
    {
        let count = fresh.len();
        self.kept.keep(&fresh)?;
        self.link.waiting = None;
        self.link.next += count as u32;
        if count > 0 {
            self.link.went = moment;
        }
        if fresh.are_small() {
            self.spare = fresh;
        }
        Ok(())
    }

    /// Closes, and sends nothing.
    fn shut_down(&mut self) -> Actions
        ensures session { self.new ≡ record self.old { link = (shut_of self.old.link).link } }
        ensures actions { IsEmpty true result }
    {
        self.link = shut(self.link).link;
        self.nothing(true)
    }

    /// No actions.
    fn nothing(&self, close: bool) -> Actions
        ensures { IsEmpty close result }
    {
        Actions {
            send: Vec::new(self.alloc),
            call: None,
            close,
        }
    }
}
