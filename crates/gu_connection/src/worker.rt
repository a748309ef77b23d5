//! A worker, and the turns of the connection that it serves.
//!
//! A turn reads at most as many bytes as its buffer has: 4,096 in `serve`, where it waits one
//! second for them, or a millisecond where the firm is behind with its reports. It takes the
//! messages that have come whole through the session, and sends all that comes of them in one
//! write. Where more than 64 kB wait to be sent it takes no further message: the next turn takes
//! those before it reads. A turn of `keep` has a span besides. Only the book is asked under the
//! desk's lock: reading, decoding and writing are done without it. A connection that has no
//! accepted Logon in time is ended.
ghost use Rattle.std.specs.Prelude.{◌≡◌, ◌⊎◌, true, Some, is_some, length, IfOk, OnOk, OnErr};
ghost use Rattle.gu_desk.specs.Begins.{BeginsWith};
ghost use Rattle.gu_desk.specs.Views.{SeatView};
ghost use Rattle.gu_connection.specs.Asking.{Asks, Looks, LooksAtMost, AsksAtMost};
ghost use Rattle.gu_connection.specs.Standing.{stands, comes};
ghost use Rattle.gu_connection.specs.Turns.{Replies};
ghost use Rattle.gu_connection.specs.Beginning.{within};
ghost use Rattle.gu_connection.specs.Talks.{Begins, Enters};
ghost use Rattle.gu_connection.specs.Talks.{Calls, Acts, TakesNext, IsOfRead, Ticks};
ghost use Rattle.gu_connection.specs.Talks.{TakesAll, Idles, TakesOrIdles, Waits, TurnsRead, Turns};
ghost use Rattle.gu_connection.specs.Talks.{IsSpentBy};
ghost use Rattle.gu_connection.specs.Talks.{IsLoggedOut, ActsInPart, DoesNothing};
ghost use Rattle.gu_connection.specs.Talks.{Breaks, Closes, TurnsAndCloses};
ghost use Rattle.gu_connection.specs.Conversing.{talk_of, Rounds, RoundsAndCloses, Conversed};
ghost use Rattle.gu_connection.specs.declared.worker.Left.TheVariants.{Nothing};

use crate::beginning::Beginning;
use crate::connection::{Brought, Closed, Connection};
use crate::lingering::{linger, linger_wait};
use crate::look::{rejected_type, sent_again};
use crate::span::{Span, is_over};
use gu_base::{AllocId, Answer, Command, FirmId};
use gu_board::{Tallies, parts_in};
use gu_codec::MAX_FRAME_LEN;
use gu_command::NamedBook;
use gu_desk::{Desk, Gate, Job, Seat};
use gu_parties::House;
use gu_session::{Actions, Event, Noted};
use std::alloc::Global;
use std::io;
use std::io::{ErrorKind, Read, Write};
use std::net::TcpStream;
use std::sync::Wait;
use std::time::{Clock, Duration, Instant};

/// The longest read of a turn of `serve`, in bytes.
const LONGEST_READ: usize = 4096;

/// How many bytes may wait to be sent for a turn to take a further message.
const MOST_WAITING: usize = 65_536;

/// What the Logout of a session says whose clock the wall clock has left.
const CLOCK_STEPPED: &str = "clock stepped";

/// How long a read waits, in seconds.
const READ_WAIT: u64 = 1;

/// How long a read waits where the firm is behind with its reports, in milliseconds.
const BEHIND_WAIT: u64 = 1;

/// How long a firm may take nothing of what it is sent, in seconds: a write of `serve` waits no
/// longer, and `keep` closes the connection.
pub(crate) const WRITE_WAIT: u64 = 30;

/// Sets how long a connection waits, and that what is written goes out at once.
fn set_up(stream: &TcpStream) -> io::Result<()> {
    stream.set_nodelay(true)?;
    stream.set_read_timeout(Some(Duration::from_secs(READ_WAIT)))?;
    stream.set_write_timeout(Some(Duration::from_secs(WRITE_WAIT)))
}

/// Sets how long the next reads wait, where the last waited otherwise: a firm that is behind has
/// its next reports at once.
fn keep_pace(stream: &TcpStream, hurried: &mut bool, behind: bool) -> io::Result<()>
    ensures { OnOk result (hurried.new ≡ behind) }
{
    if *hurried == behind {
        return Ok(());
    }
    *hurried = behind;
    let wait = if behind {
        Duration::from_millis(BEHIND_WAIT)
    } else {
        Duration::from_secs(READ_WAIT)
    };
    stream.set_read_timeout(Some(wait))
}

/// Ends a connection that was taken then and has waited for its Logon as long as it may, in
/// seconds.
pub fn expire<R: Clock>(
    rt: &R,
    connection: &mut Connection<'_>,
    taken: Instant,
    most: u64,
) -> Result<(), Closed>
    ensures ok { OnOk result (connection.new ≡ connection.old) }
    ensures open { is_some connection.old.session.link.firm ≡ true → OnErr result ⊥ }
{
    if connection.firm().is_some() {
        return Ok(());
    }
    match taken.elapsed(rt) {
        Ok(waited) if waited.as_secs() < most => Ok(()),
        _ => connection.end(rt),
    }
}

/// What a turn leaves.
#[derive(Clone, Copy, PartialEq, Eq)]
pub enum Left {
    /// Nothing that is known of.
    Nothing,
    /// Perhaps bytes to be read: the read had as many as it might have, or was interrupted.
    Unread,
    /// Perhaps messages that have come whole: too much waits to be sent.
    Untaken,
    /// Perhaps messages that have come whole: the firm has had its rate, or what isn't on the disk
    /// yet fills a group of the journal.
    Late,
    /// Perhaps messages that have come whole: the turn's span is over.
    Spent,
}

/// What a read of so many bytes leaves, where it might have had that many.
fn left_by(n: usize, most: usize) -> Left
    ensures { IsOfRead result }
{
    if n == most {
        Left::Unread
    } else {
        Left::Nothing
    }
}

/// A worker: what it has for all its connections. Its seat goes from hand to hand.
#[derive(Drop)]
pub struct Worker<'a, J: Job, R, G> {
    /// The runtime: its clock, and by what a thread waits.
    pub rt: &'a R,
    pub alloc: Global,
    /// The desk that answers.
    pub desk: &'a Desk<J>,
    /// The table of those who take part.
    pub house: &'a House,
    /// The book that is served, where its name is read: not by `serve`.
    pub book: Option<&'a NamedBook>,
    /// What each call passes before the book.
    pub gate: &'a G,
    /// What is counted of firms, for the limits of `keep`.
    pub tallies: &'a Tallies,
    /// How long a connection may be without an accepted Logon, in seconds.
    pub logon_wait: u64,
    /// Which of the server's workers it is, from 0 on.
    pub number: u32,
}

impl<'a, J: Job, R, G> Worker<'a, J, R, G> {
    /// A worker as this one, with a number of its own.
    pub fn numbered(&self, number: u32) -> Worker<'a, J, R, G> {
        Worker {
            rt: self.rt,
            alloc: self.alloc,
            desk: self.desk,
            house: self.house,
            book: self.book,
            gate: self.gate,
            tallies: self.tallies,
            logon_wait: self.logon_wait,
            number,
        }
    }
}

impl<'a, J: Job, R: Wait + Clock, G: Gate> Worker<'a, J, R, G> {
    /// Reads the firm's reports above the entry up to which was looked, and sends the answer, if
    /// there is one, and them.
    fn reply(
        &self,
        seat: Seat<J>,
        connection: &mut Connection<'_>,
        firm: &FirmId,
        answer: Option<Answer>,
    ) -> (Seat<J>, Result<(), Closed>)
        ensures looks { Looks J.opening seat result.0 }
        ensures feed { connection.new.feed ≡ connection.old.feed }
        ensures err { OnErr result.1 (connection.new.out.items ≡ connection.old.out.items) }
        ensures replies { OnOk result.1 (Replies J.opening.house firm.now answer
            (stands seat connection.old) (stands result.0 connection.new)) }
    {
        let (seat, reports) = self
            .desk
            .read_reports(self.rt, self.alloc, seat, firm, connection.looked());
        match reports {
            Ok(reports) => {
                let entries = seat.seen();
                let sent = connection.send_reply(self.rt, entries, answer, reports);
                (seat, sent)
            }
            Err(_) => (seat, Err(Closed)),
        }
    }

    /// Counts a call that is to be made. Where the firm has as much as it may have, the call isn't
    /// made, and a Logout says so.
    fn admit(
        &self,
        connection: &mut Connection<'_>,
        firm: &FirmId,
        command: &Command,
    ) -> Result<(), Closed>
        ensures ok { OnOk result (connection.new ≡ connection.old) }
        ensures err { OnErr result (IsLoggedOut self.now.house.now.house connection.old.session
            connection.old.out.items connection.new.out.items) }
    {
        match self.tallies.begin_call(firm, parts_in(command)) {
            Ok(()) => Ok(()),
            Err(ending) => {
                Err(connection.log_out(self.rt, self.alloc, self.house, ending.text()))
            }
        }
    }

    /// Asks the book for the answer to a call that is counted, and takes the count back where it
    /// made no entry.
    #[tactic(auto, using(crate::proofs::Seen::itself, crate::proofs::Seen::still))]
    fn ask(
        &self,
        seat: Seat<J>,
        firm: &FirmId,
        id: &AllocId,
        command: &Command,
    ) -> (Seat<J>, Result<Answer, Closed>)
        ensures asks { IfOk result.1 (λ a. Asks J.opening
            (record { firm = firm.now; id = id.now; command = command.now }) a seat result.0) }
        ensures looks { OnErr result.1 (Looks J.opening seat result.0) }
        ensures later { BeginsWith result.0.seen seat.seen }
    {
        let (seat, answer) = self.desk.call(self.rt, self.alloc, seat, firm, id, command);
        match answer {
            Ok(answer) => {
                let is_entry = matches!(answer, Answer::Accepted { .. });
                self.tallies.end_call(firm, parts_in(command), is_entry);
                self.tallies
                    .note_answer(self.rt, self.number, firm, id, &answer);
                (seat, Ok(answer))
            }
            Err(_) => {
                self.tallies.end_call(firm, parts_in(command), false);
                (seat, Err(Closed))
            }
        }
    }

    /// Makes the call of a firm that has logged on, if the gate lets it pass and the firm may make
    /// it, and sends the answer.
    #[tactic(auto, using(crate::proofs::Seen::itself, crate::proofs::Seen::still))]
    fn call(
        &self,
        seat: Seat<J>,
        connection: &mut Connection<'_>,
        id: &AllocId,
        command: &Command,
    ) -> (Seat<J>, Result<(), Closed>)
        ensures calls { OnOk result.1 (Calls J.opening id.now command.now
            (stands seat connection.old) (stands result.0 connection.new)) }
        ensures err { OnErr result.1 (IsLoggedOut self.now.house.now.house connection.old.session
            connection.old.out.items connection.new.out.items) }
        ensures asks { OnErr result.1 (AsksAtMost J.opening connection.old.session.link.firm
            (Some (id.now, command.now)) seat result.0) }
        ensures later { BeginsWith result.0.seen seat.seen }
    {
        let Some(firm) = connection.firm() else {
            return (seat, Err(Closed));
        };
        if !self.gate.before_book(self.number) {
            return (seat, Err(Closed));
        }
        let Ok(()) = self.admit(connection, &firm, command) else {
            return (seat, Err(Closed));
        };
        let (seat, answer) = self.ask(seat, &firm, id, command);
        match answer {
            Ok(answer) => self.reply(seat, connection, &firm, Some(answer)),
            Err(_) => (seat, Err(Closed)),
        }
    }

    /// Whether what stands first on a connection of a firm waits: what isn't on the disk yet fills
    /// a group of the journal, or it is a call or a request for resends, and the firm has had its
    /// rate.
    #[inline(always)]
    fn is_late(&self, connection: &Connection<'_>) -> bool {
        if self.tallies.is_group_full() {
            return connection.firm().is_some();
        }
        if !self.tallies.has_rate() {
            return false;
        }
        let Some(firm) = connection.firm() else {
            return false;
        };
        let pace = connection.pace();
        let late = self.tallies.is_late(self.rt, &firm, pace) && connection.may_wait();
        self.tallies.note_waiting(&firm, pace, late);
        late
    }

    /// Counts for an operator what went wrong with a firm's message, whose step sends this.
    fn note_step(&self, firm: &FirmId, noted: Noted, sent: &[u8]) {
        if let Some(reject) = noted.reject {
            self.tallies
                .note_reject(self.rt, self.number, firm, rejected_type(sent), reject);
        }
        if noted.dropped {
            self.tallies.note_dropped(self.number);
        }
        if noted.resent > 0 {
            self.tallies.note_resent(self.number, noted.resent as u64);
        }
    }

    /// Counts a message of a firm, those that its step sends again, and what went wrong with it.
    fn count(&self, connection: &Connection<'_>, actions: &Actions) {
        let Some(firm) = connection.firm() else {
            return;
        };
        self.note_step(&firm, connection.noted(), actions.send.as_slice());
        if self.tallies.has_rate() {
            let count = sent_again(actions.send.as_slice()).saturating_add(1);
            self.tallies
                .count_messages(self.rt, &firm, connection.pace(), count);
        }
    }

    /// Does what a message's step asks for.
    #[tactic(auto, using(crate::proofs::Seen::itself, crate::proofs::Seen::still))]
    fn act(
        &self,
        seat: Seat<J>,
        connection: &mut Connection<'_>,
        actions: Actions,
    ) -> (Seat<J>, Result<(), Closed>)
        ensures acts { OnOk result.1 (Acts J.opening actions (stands seat connection.old)
            (stands result.0 connection.new)) }
        ensures err { OnErr result.1
            (DoesNothing (stands seat connection.old) (stands result.0 connection.new)
            ⊎ ActsInPart self.now.house.now.house J.opening actions (stands seat connection.old)
            (stands result.0 connection.new)) }
        ensures later { BeginsWith result.0.seen seat.seen }
    {
        self.count(connection, &actions);
        let Ok(()) = connection.send(&actions) else {
            return (seat, Err(Closed));
        };
        let Actions {
            send: _,
            call,
            close: _,
        } = actions;
        match call {
            Some((id, command)) => self.call(seat, connection, &id, &command),
            None => (seat, Ok(())),
        }
    }

    /// What a firm asks for that has just logged on, in the history that the seat has then seen.
    /// The desk is asked where the number is past what the seat has seen: another one may have seen
    /// more.
    #[tactic(auto, using(crate::proofs::Seen::itself, crate::proofs::Seen::still))]
    fn bound(&self, seat: Seat<J>, firm: &FirmId, asked: Beginning) -> (Seat<J>, Beginning)
        ensures looks { LooksAtMost J.opening seat result.0 }
        ensures later { BeginsWith result.0.seen seat.seen }
        ensures bound { result.1 ≡ within (length result.0.seen) asked }
    {
        let Beginning::Above(number) = asked else {
            return (seat, asked);
        };
        if number <= seat.seen() {
            return (seat, asked);
        }
        let (seat, above) = self
            .desk
            .read_reports(self.rt, self.alloc, seat, firm, number);
        drop(above);
        let entries = seat.seen();
        (seat, asked.within(entries))
    }

    /// Has the reports of a firm that has just logged on begin where it asks for, or a Logout say
    /// why there is no such beginning.
    #[tactic(auto, using(crate::proofs::Seen::itself, crate::proofs::Seen::still))]
    fn begin(
        &self,
        seat: Seat<J>,
        connection: &mut Connection<'_>,
        asked: Beginning,
    ) -> (Seat<J>, Result<(), Closed>)
        ensures begins { OnOk result.1 (Begins J.opening asked (stands seat connection.old)
            (stands result.0 connection.new)) }
        ensures err { OnErr result.1 (IsLoggedOut self.now.house.now.house connection.old.session
            connection.old.out.items connection.new.out.items) }
        ensures looks { LooksAtMost J.opening seat result.0 }
        ensures later { BeginsWith result.0.seen seat.seen }
    {
        let Some(firm) = connection.firm() else {
            return (seat, Err(Closed));
        };
        let (seat, beginning) = self.bound(seat, &firm, asked);
        match beginning {
            Beginning::Above(number) => {
                connection.begin_above(number);
                (seat, Ok(()))
            }
            Beginning::Nowhere(why) => {
                let closed = connection.log_out(self.rt, self.alloc, self.house, why.text());
                (seat, Err(closed))
            }
        }
    }

    /// Does what the step of a Logon asks for that was accepted.
    #[tactic(auto, using(crate::proofs::Seen::itself, crate::proofs::Seen::still))]
    fn enter(
        &self,
        seat: Seat<J>,
        connection: &mut Connection<'_>,
        actions: Actions,
        asked: Beginning,
    ) -> (Seat<J>, Result<(), Closed>)
        ensures enters { OnOk result.1 (Enters J.opening actions asked
            (stands seat connection.old) (stands result.0 connection.new)) }
        ensures err { OnErr result.1
            (DoesNothing (stands seat connection.old) (stands result.0 connection.new)
            ⊎ ActsInPart self.now.house.now.house J.opening actions (stands seat connection.old)
            (stands result.0 connection.new)) }
        ensures later { BeginsWith result.0.seen seat.seen }
    {
        self.count(connection, &actions);
        match connection.send(&actions) {
            Ok(()) => self.begin(seat, connection, asked),
            Err(e) => (seat, Err(e)),
        }
    }

    /// Takes the next frame of the bytes held, the turn's first one or a later one, if one has come
    /// whole: whether there was one.
    #[tactic(auto, using(crate::proofs::Seen::itself, crate::proofs::Seen::still))]
    fn take(
        &self,
        seat: Seat<J>,
        connection: &mut Connection<'_>,
        is_first: bool,
    ) -> (Seat<J>, Result<bool, Closed>)
        ensures takes { IfOk result.1 (λ some. TakesNext J.opening some
            (stands seat connection.old) (stands result.0 connection.new)) }
        ensures breaks { OnErr result.1 (Breaks self.now.house.now.house J.opening
            (stands seat connection.old) (stands result.0 connection.new)) }
        ensures later { BeginsWith result.0.seen seat.seen }
    {
        match connection.next(self.rt, is_first) {
            Ok(Brought::Nothing) => (seat, Ok(false)),
            Ok(Brought::Garbled) => {
                self.tallies.note_garbled(self.number);
                (seat, Ok(true))
            }
            Ok(Brought::Message(actions)) => {
                let (seat, acted) = self.act(seat, connection, actions);
                match acted {
                    Ok(()) => (seat, Ok(true)),
                    Err(e) => (seat, Err(e)),
                }
            }
            Ok(Brought::Logon(actions, asked)) => {
                let (seat, entered) = self.enter(seat, connection, actions, asked);
                match entered {
                    Ok(()) => (seat, Ok(true)),
                    Err(e) => (seat, Err(e)),
                }
            }
            Err(e) => (seat, Err(e)),
        }
    }

    /// Goes on where the wall clock has left the session's by no more than that outlives. Otherwise
    /// a Logout says so.
    fn keep_time(&self, connection: &mut Connection<'_>) -> Result<(), Closed>
        ensures ok { OnOk result (connection.new ≡ connection.old) }
        ensures err { OnErr result (IsLoggedOut self.now.house.now.house connection.old.session
            connection.old.out.items connection.new.out.items) }
    {
        if connection.has_stepped() {
            return Err(connection.log_out(self.rt, self.alloc, self.house, CLOCK_STEPPED));
        }
        Ok(())
    }

    /// A Tick, of a turn the first event or a later one. It rests on the session alone: whatever a
    /// seat has seen, it is the same. Where the wall clock has left the session's by too much, a
    /// Logout says so.
    pub fn beat(&self, connection: &mut Connection<'_>, is_first: bool) -> Result<(), Closed>
        ensures ticks { OnOk result ((seat : SeatView)
            → Ticks (stands seat connection.old) (stands seat connection.new)) }
        ensures breaks { OnErr result ((seat : SeatView)
            → Breaks self.now.house.now.house J.opening
            (stands seat connection.old) (stands seat connection.new)) }
    {
        match connection.quiet(self.rt, Event::Tick, is_first) {
            Ok(()) => match self.keep_time(connection) {
                Ok(()) => Ok(()),
                Err(e) => Err(e),
            },
            Err(e) => Err(e),
        }
    }

    /// The end of a turn that has taken all messages, if there were any: a Tick. It leaves this.
    #[tactic(auto, using(crate::proofs::Seen::itself, crate::proofs::Seen::still))]
    fn tick(
        &self,
        seat: Seat<J>,
        connection: &mut Connection<'_>,
        left: Left,
        is_first: bool,
    ) -> (Seat<J>, Result<Left, Closed>)
        ensures ticks { IfOk result.1 (λ l. (l ≡ left)
            × Ticks (stands seat connection.old) (stands result.0 connection.new)) }
        ensures breaks { OnErr result.1 (Breaks self.now.house.now.house J.opening
            (stands seat connection.old) (stands result.0 connection.new)) }
        ensures same { result.0 ≡ seat }
    {
        match self.beat(connection, is_first) {
            Ok(()) => (seat, Ok(left)),
            Err(e) => (seat, Err(e)),
        }
    }

    /// Takes the messages that have come whole, one after the other, and then a Tick; or those
    /// before too much waits to be sent, or the turn's span is over, where it has one.
    #[tactic(auto, using(crate::proofs::Seen::itself, crate::proofs::Seen::still))]
    fn messages(
        &self,
        seat: Seat<J>,
        connection: &mut Connection<'_>,
        left: Left,
        span: Option<Span>,
    ) -> (Seat<J>, Result<Left, Closed>)
        requires { IsOfRead left }
        ensures takes { IfOk result.1 (λ l. TakesAll J.opening (stands seat connection.old)
            (stands result.0 connection.new) l) }
        ensures closes { OnErr result.1 (Closes self.now.house.now.house J.opening
            (stands seat connection.old) (stands result.0 connection.new)) }
        ensures unspent { IfOk result.1 (λ l. IsSpentBy (is_some span) l) }
        ensures later { BeginsWith result.0.seen seat.seen }
    {
        let mut seat = seat;
        // A frame has a byte at least, so no feed holds more of them.
        for count in 0..MAX_FRAME_LEN {
            if connection.waiting() > MOST_WAITING {
                return (seat, Ok(Left::Untaken));
            }
            if self.is_late(connection) {
                return (seat, Ok(Left::Late));
            }
            if is_over(span, count, connection.read_at()) {
                return (seat, Ok(Left::Spent));
            }
            let (back, taken) = self.take(seat, connection, count == 0);
            seat = back;
            let Ok(some) = taken else {
                return (seat, Err(Closed));
            };
            if !some {
                return self.tick(seat, connection, left, count == 0);
            }
        }
        (seat, Ok(Left::Late))
    }

    /// A turn in which no message is taken: a Tick, and the reports to a firm that has logged on.
    /// It leaves this.
    #[tactic(auto, using(crate::proofs::Seen::itself, crate::proofs::Seen::still))]
    fn idle(
        &self,
        seat: Seat<J>,
        connection: &mut Connection<'_>,
        left: Left,
    ) -> (Seat<J>, Result<Left, Closed>)
        ensures idles { IfOk result.1 (λ l. (l ≡ left)
            × Idles J.opening (stands seat connection.old) (stands result.0 connection.new)) }
        ensures breaks { OnErr result.1 (Breaks self.now.house.now.house J.opening
            (stands seat connection.old) (stands result.0 connection.new)) }
        ensures later { BeginsWith result.0.seen seat.seen }
    {
        let (seat, ticked) = self.tick(seat, connection, left, true);
        let Ok(left) = ticked else {
            return (seat, Err(Closed));
        };
        let Some(firm) = connection.firm() else {
            return (seat, Ok(left));
        };
        let (seat, told) = self.reply(seat, connection, &firm, None);
        match told {
            Ok(()) => (seat, Ok(left)),
            Err(e) => (seat, Err(e)),
        }
    }

    /// A turn behind one in which the firm had had its rate.
    #[tactic(auto, using(crate::proofs::Seen::itself, crate::proofs::Seen::still))]
    fn late(
        &self,
        seat: Seat<J>,
        connection: &mut Connection<'_>,
        span: Option<Span>,
    ) -> (Seat<J>, Result<Left, Closed>)
        ensures does { IfOk result.1 (λ l. TakesOrIdles J.opening (stands seat connection.old)
            (stands result.0 connection.new) l) }
        ensures closes { OnErr result.1 (Closes self.now.house.now.house J.opening
            (stands seat connection.old) (stands result.0 connection.new)) }
        ensures unspent { IfOk result.1 (λ l. IsSpentBy (is_some span) l) }
        ensures later { BeginsWith result.0.seen seat.seen }
    {
        if self.is_late(connection) {
            self.idle(seat, connection, Left::Late)
        } else {
            self.messages(seat, connection, Left::Unread, span)
        }
    }

    /// The last turn: the peer is gone.
    #[tactic(auto, using(crate::proofs::Seen::itself, crate::proofs::Seen::still))]
    fn end(&self, seat: Seat<J>, connection: &mut Connection<'_>) -> (Seat<J>, Result<Left, Closed>)
        ensures err { OnOk result.1 ⊥ }
        ensures nothing { DoesNothing (stands seat connection.old)
            (stands result.0 connection.new) }
        ensures later { BeginsWith result.0.seen seat.seen }
    {
        let _ = connection.end(self.rt);
        self.tallies.note_gone(self.number);
        (seat, Err(Closed))
    }

    /// A turn whose read has brought this: the messages that have come whole with it.
    #[tactic(auto, using(crate::proofs::Seen::itself, crate::proofs::Seen::still))]
    fn given(
        &self,
        seat: Seat<J>,
        connection: &mut Connection<'_>,
        piece: &[u8],
        left: Left,
        span: Option<Span>,
    ) -> (Seat<J>, Result<Left, Closed>)
        requires { IsOfRead left }
        ensures takes { IfOk result.1 (λ l. TakesAll J.opening
            (comes piece.now (stands seat connection.old)) (stands result.0 connection.new) l) }
        ensures closes { OnErr result.1 (Closes self.now.house.now.house J.opening
            (comes piece.now (stands seat connection.old)) (stands result.0 connection.new)) }
        ensures unspent { IfOk result.1 (λ l. IsSpentBy (is_some span) l) }
        ensures later { BeginsWith result.0.seen seat.seen }
    {
        self.tallies.note_read(self.number, piece.len());
        match connection.push(piece) {
            Ok(()) => self.messages(seat, connection, left, span),
            Err(e) => (seat, Err(e)),
        }
    }

    /// A turn whose read has brought nothing, for this.
    #[tactic(auto, using(crate::proofs::Seen::itself, crate::proofs::Seen::still))]
    fn unread(
        &self,
        seat: Seat<J>,
        connection: &mut Connection<'_>,
        kind: ErrorKind,
    ) -> (Seat<J>, Result<Left, Closed>)
        ensures waits { IfOk result.1 (λ l. Waits J.opening (stands seat connection.old)
            (stands result.0 connection.new) l) }
        ensures breaks { OnErr result.1 (Breaks self.now.house.now.house J.opening
            (stands seat connection.old) (stands result.0 connection.new)) }
        ensures later { BeginsWith result.0.seen seat.seen }
    {
        match kind {
            ErrorKind::WouldBlock | ErrorKind::TimedOut => {
                self.idle(seat, connection, Left::Nothing)
            }
            ErrorKind::Interrupted => (seat, Ok(Left::Unread)),
            _ => self.end(seat, connection),
        }
    }

    /// A turn that reads.
    #[tactic(auto, using(crate::proofs::Seen::itself, crate::proofs::Seen::still))]
    fn read_on<S: Read>(
        &self,
        seat: Seat<J>,
        connection: &mut Connection<'_>,
        stream: &mut S,
        piece: &mut [u8],
        span: Option<Span>,
    ) -> (Seat<J>, Result<Left, Closed>)
        ensures turns { IfOk result.1 (λ l. TurnsRead J.opening (S.remaining stream.old)
            (S.remaining stream.new) (stands seat connection.old)
            (stands result.0 connection.new) l) }
        ensures closes { OnErr result.1 (TurnsAndCloses self.now.house.now.house J.opening
            (S.remaining stream.old) (S.remaining stream.new) (stands seat connection.old)
            (stands result.0 connection.new)) }
        ensures unspent { IfOk result.1 (λ l. IsSpentBy (is_some span) l) }
        ensures later { BeginsWith result.0.seen seat.seen }
    {
        let most = connection.room().min(piece.len());
        let room = &mut piece[..most];
        match stream.read(room) {
            Ok(0) => self.end(seat, connection),
            Ok(n) => self.given(seat, connection, &room[..n], left_by(n, most), span),
            Err(e) => self.unread(seat, connection, e.kind()),
        }
    }

    /// One turn, without its write, behind one that left this, with this span, if it has one.
    #[tactic(auto, using(crate::proofs::Seen::itself, crate::proofs::Seen::still))]
    pub fn turn<S: Read>(
        &self,
        seat: Seat<J>,
        connection: &mut Connection<'_>,
        stream: &mut S,
        piece: &mut [u8],
        left: Left,
        span: Option<Span>,
    ) -> (Seat<J>, Result<Left, Closed>)
        ensures turns { IfOk result.1 (λ l. Turns J.opening left (S.remaining stream.old)
            (S.remaining stream.new) (stands seat connection.old)
            (stands result.0 connection.new) l) }
        ensures closes { OnErr result.1 (TurnsAndCloses self.now.house.now.house J.opening
            (S.remaining stream.old) (S.remaining stream.new) (stands seat connection.old)
            (stands result.0 connection.new)) }
        ensures unspent { IfOk result.1 (λ l. IsSpentBy (is_some span) l) }
        ensures later { BeginsWith result.0.seen seat.seen }
    {
        if left == Left::Untaken || left == Left::Spent {
            return self.messages(seat, connection, Left::Unread, span);
        }
        if left == Left::Late {
            return self.late(seat, connection, span);
        }
        self.read_on(seat, connection, stream, piece, span)
    }

    /// One turn with its write, behind one that left this. `Err` where the connection is to be
    /// closed.
    fn round<S: Read, W: Write>(
        &self,
        seat: Seat<J>,
        connection: &mut Connection<'_>,
        reader: &mut S,
        writer: &mut W,
        piece: &mut [u8],
        left: Left,
    ) -> (Seat<J>, Result<Left, Closed>)
        ensures rounds { IfOk result.1 (λ l. Rounds J.opening
            (talk_of seat connection.old (S.remaining reader.old) (W.contents writer.old) left)
            (talk_of result.0 connection.new (S.remaining reader.new) (W.contents writer.new) l)) }
        ensures closes { OnErr result.1 (RoundsAndCloses self.now.house.now.house J.opening
            (talk_of seat connection.old (S.remaining reader.old) (W.contents writer.old) left)
            (record {
              seat = result.0;
              unread = S.remaining reader.new;
              written = W.contents writer.new;
            })) }
        ensures later { BeginsWith result.0.seen seat.seen }
    {
        let (seat, turned) = self.turn(seat, connection, reader, piece, left, None);
        match connection.write(self.rt, writer) {
            Ok(()) => (seat, turned),
            Err(e) => (seat, Err(e)),
        }
    }

    /// Serves a connection that was taken then to its end, and gives the seat back.
    fn converse<S: Read, W: Write>(
        &self,
        seat: Seat<J>,
        connection: &mut Connection<'_>,
        reader: &mut S,
        writer: &mut W,
        stream: &TcpStream,
        taken: Instant,
    ) -> Seat<J>
        ensures { Conversed self.now.house.now.house J.opening
            (talk_of seat connection.old (S.remaining reader.old) (W.contents writer.old) Nothing)
            (record {
              seat = result;
              unread = S.remaining reader.new;
              written = W.contents writer.new;
            }) }
    {
        let mut seat = seat;
        let mut piece = [0; LONGEST_READ];
        let mut left = Left::Nothing;
        let mut hurried = false;
        for _ in self.rt.forever() {
            let (back, turned) = self.round(seat, connection, reader, writer, &mut piece, left);
            seat = back;
            let Ok(rest) = turned else {
                return seat;
            };
            left = rest;
            let Ok(()) = expire(self.rt, connection, taken, self.logon_wait) else {
                return seat;
            };
            let Ok(()) = keep_pace(stream, &mut hurried, connection.behind()) else {
                return seat;
            };
        }
        unreachable!()
    }

    /// A connection that is set up and taken now.
    fn opened(&self, stream: &TcpStream) -> Result<(Connection<'a>, Instant), Closed> {
        if set_up(stream).is_err() {
            return Err(Closed);
        }
        let Ok(taken) = Instant::now(self.rt) else {
            return Err(Closed);
        };
        match Connection::new(self.alloc, self.house, self.book, false) {
            Ok(connection) => Ok((connection, taken)),
            Err(e) => Err(e),
        }
    }

    /// Serves a connection to its end, and gives the seat back.
    pub fn attend(&self, seat: Seat<J>, stream: TcpStream) -> Seat<J> {
        let seat = match self.opened(&stream) {
            Ok((mut connection, taken)) => {
                let mut from: &TcpStream = &stream;
                let mut to: &TcpStream = &stream;
                let seat = self.converse(seat, &mut connection, &mut from, &mut to, &stream, taken);
                if connection.firm().is_some() {
                    linger(self.rt, &stream, linger_wait(connection.is_slow()));
                }
                drop(connection);
                seat
            }
            Err(_) => seat,
        };
        drop(stream);
        seat
    }
}
