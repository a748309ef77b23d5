//! What a connection is to be sent, in the order in which it was made.
//!
//! What was made of a history waits until that history is kept: `wire.rt`'s `write` asks for it.

ghost use Rattle.std.specs.Prelude.{◌≡◌, ◌≤◌, ◌++◌, ◌↔◌, [], length, drop};
ghost use Rattle.std.specs.Prelude.{IfOk, OnOk, OnErr, IsTrue};
ghost use Rattle.gu_recorder.specs.Waiting.{made_of, Holds, Sends};
ghost use Rattle.gu_recorder.specs.declared.outbox.Rest.TheVariants.{Nothing};

use crate::made::{Made, made_after, made_behind, nothing_made};
use crate::wire::{Wire, Witness, write};
use gu_connection::{Closed, Connection};
use gu_desk::{Desk, Job, Seat, Ticket};
use std::alloc::Global;
use std::marker::Model;
use std::mem::{replace, swap};

/// What a message begins with, and what stands before each field but the first.
const BEGINS: &[u8] = b"8=FIX";

const SOH: u8 = 1;

/// Bytes to be sent, and a ticket for a history that begins with each that they were made of.
/// Contracts see the bytes, each with its history, and the ticket's.
#[derive(Drop)]
pub(crate) struct Batch<J: Job> {
    bytes: Vec<u8>,
    ticket: Ticket<J>,
    made: Made,
}

impl<J: Job> Model for Batch<J> {
    ghost use Rattle.std.specs.Prelude.{◌≡◌};
    ghost use Rattle.gu_recorder.specs.Waiting.{Together, bytes_of, RestOn};

    ghost Value = { Together };

    ghost view = { λ b. record { made = b.made.bytes; seen = b.ticket.seen } };

    ghost invariant = { λ b. (b.bytes.items ≡ bytes_of b.made.bytes)
        × RestOn b.made.bytes b.ticket.seen };
}

/// What is left to be sent.
#[derive(Clone, Copy, PartialEq, Eq)]
pub enum Rest {
    /// Nothing.
    Nothing,
    /// Bytes that rest on what isn't kept yet.
    Unkept,
    /// Bytes that the peer doesn't take now.
    Untaken,
}

/// What is to be sent: a batch that is being sent, and one that was made since. Contracts see the
/// bytes in order, each with the history that it was made of, those that were sent, and the history
/// that the last of all was made of.
#[derive(Drop)]
pub struct Outbox<J: Job> {
    front: Batch<J>,
    back: Batch<J>,
    /// Whether the last was put into the back. Where it was put into the front, the back has none.
    into_back: bool,
    sent: Made,
}

impl<J: Job> Model for Outbox<J> {
    ghost use Rattle.std.specs.Prelude.{◌≡◌, ◌++◌, false, []};
    ghost use Rattle.gu_recorder.specs.Waiting.{Outgoing, last_of};

    ghost Value = { Outgoing };

    ghost view = { λ o. record {
      sent = o.sent.bytes;
      waits = o.front.made ++ o.back.made;
      rests = last_of o.into_back o.front o.back;
    } };

    ghost invariant = { λ o. o.into_back ≡ false → o.back.made ≡ [] };
}

/// How many messages begin in these bytes, and one more where they begin within one.
fn messages_in(bytes: &[u8]) -> u64 {
    let mut count = u64::from(!bytes.is_empty() && !bytes.starts_with(BEGINS));
    for i in 0..bytes.len() {
        if bytes[i] == BEGINS[0] && (i == 0 || bytes[i - 1] == SOH) {
            count = count.saturating_add(u64::from(bytes[i..].starts_with(BEGINS)));
        }
    }
    count
}

/// Takes so many bytes from the front.
fn pass(bytes: &mut Vec<u8>, count: usize)
    requires { count ≤ length bytes.old.items }
    ensures { bytes.new.items ≡ drop count bytes.old.items }
{
    let len = bytes.len();
    bytes.as_mut_slice().copy_within(count..len, 0);
    bytes.truncate(len - count);
}

impl<J: Job> Batch<J> {
    /// A batch with nothing in it.
    fn new(alloc: Global, desk: &Desk<J>, seat: &mut Seat<J>) -> Batch<J>
        ensures nothing { result ≡ record { made = []; seen = seat.old.seen } }
        ensures same { seat.new ≡ seat.old }
    {
        Batch {
            bytes: Vec::new(alloc),
            ticket: desk.ticket(seat),
            made: nothing_made(),
        }
    }

    /// How many bytes it has.
    fn len(&self) -> usize
        ensures { result ≡ length self.now.made }
    {
        self.bytes.len()
    }

    /// Whether it has none.
    fn is_empty(&self) -> bool
        ensures { IsTrue result ↔ (self.now.made ≡ []) }
    {
        self.bytes.is_empty()
    }

    /// Puts what a turn with this seat has made behind the bytes: it was made of what the seat has
    /// seen, which begins with all that they rested on.
    fn hold(
        &mut self,
        desk: &Desk<J>,
        seat: &mut Seat<J>,
        connection: &mut Connection<'_>,
    ) -> Result<(), Closed>
        ensures same { seat.new ≡ seat.old }
        ensures held { OnOk result (self.new ≡ record {
          made = self.old.made ++ made_of connection.old.out.items seat.old.seen;
          seen = seat.old.seen;
        }) }
        ensures err { OnErr result (self.new ≡ self.old) }
        ensures out { OnOk result (connection.new.out.items ≡ []) }
    {
        let newer = desk.ticket(seat);
        if newer.seen() < self.ticket.seen() {
            return Err(Closed);
        }
        let made = made_behind(&self.made, connection.made(), &newer);
        match connection.hand_out(&mut self.bytes) {
            Ok(()) => {
                let older = replace(&mut self.ticket, newer);
                let _ = self.ticket.covers(desk, older);
                self.made = made;
                Ok(())
            }
            Err(e) => Err(e),
        }
    }

    /// Puts what a turn has made behind the bytes, which rests on no more than they do.
    fn hold_still(&mut self, connection: &mut Connection<'_>) -> Result<(), Closed>
        ensures held { OnOk result (self.new ≡ record self.old {
          made = self.old.made ++ made_of connection.old.out.items self.old.seen;
        }) }
        ensures err { OnErr result (self.new ≡ self.old) }
        ensures out { OnOk result (connection.new.out.items ≡ []) }
    {
        let made = made_behind(&self.made, connection.made(), &self.ticket);
        match connection.hand_out(&mut self.bytes) {
            Ok(()) => {
                self.made = made;
                Ok(())
            }
            Err(e) => Err(e),
        }
    }

    /// Writes what the peer takes now of the bytes, if what they rest on is kept, once a witness
    /// has seen them.
    #[tactic(auto, using(crate::proofs::Waiting::left_bytes, crate::proofs::Waiting::left_rests))]
    fn send<W: Witness>(
        &mut self,
        sent: &mut Made,
        desk: &Desk<J>,
        wire: &Wire,
        witness: &mut W,
    ) -> Result<Rest, Closed>
        ensures sends { Sends
            (record { sent = sent.old.bytes; waits = self.old.made; rests = self.old.seen })
            (record { sent = sent.new.bytes; waits = self.new.made; rests = self.new.seen }) }
        ensures nothing { IfOk result (λ r. r ≡ Nothing → self.new.made ≡ []) }
    {
        if self.bytes.is_empty() {
            return Ok(Rest::Nothing);
        }
        if !self.ticket.settle(desk) {
            return Ok(Rest::Unkept);
        }
        match write(&self.ticket, &self.made, sent, wire, witness, &self.bytes) {
            Ok(count) => {
                pass(&mut self.bytes, count);
                self.made = made_after(&self.made, count);
                if self.bytes.is_empty() {
                    Ok(Rest::Nothing)
                } else {
                    Ok(Rest::Untaken)
                }
            }
            Err(e) => Err(e),
        }
    }
}

impl<J: Job> Outbox<J> {
    /// An outbox with nothing to be sent.
    pub fn new(alloc: Global, desk: &Desk<J>, seat: &mut Seat<J>) -> Outbox<J>
        ensures nothing { result ≡ record { sent = []; waits = []; rests = seat.old.seen } }
        ensures same { seat.new ≡ seat.old }
    {
        Outbox {
            front: Batch::new(alloc, desk, seat),
            back: Batch::new(alloc, desk, seat),
            into_back: false,
            sent: nothing_made(),
        }
    }

    /// How many bytes are to be sent.
    pub fn len(&self) -> usize {
        self.front.len().saturating_add(self.back.len())
    }

    /// How many messages are to be sent, the first of them maybe in part.
    pub fn messages(&self) -> u64 {
        let front = messages_in(self.front.bytes.as_slice());
        front.saturating_add(messages_in(self.back.bytes.as_slice()))
    }

    /// Whether nothing is to be sent.
    pub fn is_empty(&self) -> bool
        ensures { IsTrue result ↔ (self.now.waits ≡ []) }
    {
        self.front.is_empty() && self.back.is_empty()
    }

    /// Puts what a turn with this seat has made behind what is to be sent: it was made of what the
    /// seat has seen.
    pub fn hold(
        &mut self,
        desk: &Desk<J>,
        seat: &mut Seat<J>,
        connection: &mut Connection<'_>,
    ) -> Result<(), Closed>
        ensures same { seat.new ≡ seat.old }
        ensures holds { OnOk result
            (Holds self.old self.new connection.old.out.items seat.old.seen) }
        ensures err { OnErr result (self.new ≡ self.old) }
        ensures out { OnOk result (connection.new.out.items ≡ []) }
    {
        if self.is_empty() {
            self.front.hold(desk, seat, connection)?;
            self.into_back = false;
        } else {
            self.back.hold(desk, seat, connection)?;
            self.into_back = true;
        }
        Ok(())
    }

    /// Puts what tells nothing of the book behind what is to be sent: it was made of the session,
    /// so of no more than the last before it, and waits for nothing newer.
    pub fn hold_still(&mut self, connection: &mut Connection<'_>) -> Result<(), Closed>
        ensures holds { OnOk result
            (Holds self.old self.new connection.old.out.items self.old.rests) }
        ensures err { OnErr result (self.new ≡ self.old) }
        ensures out { OnOk result (connection.new.out.items ≡ []) }
    {
        if self.into_back {
            self.back.hold_still(connection)
        } else {
            self.front.hold_still(connection)
        }
    }

    /// Sends what may go out, as far as the peer takes it: a front of what waits. A witness sees
    /// it before.
    #[tactic(auto, using(crate::proofs::Waiting::sends_front, crate::proofs::Waiting::sends_on))]
    pub fn send<W: Witness>(
        &mut self,
        desk: &Desk<J>,
        wire: &Wire,
        witness: &mut W,
    ) -> Result<Rest, Closed>
        ensures { Sends self.old self.new }
    {
        match self.front.send(&mut self.sent, desk, wire, witness) {
            Ok(Rest::Nothing) => {
                swap(&mut self.front, &mut self.back);
                self.into_back = !self.into_back;
                self.front.send(&mut self.sent, desk, wire, witness)
            }
            other => other,
        }
    }
}
