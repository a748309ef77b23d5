//! Answering one message after the other.

ghost use Rattle.std.specs.Prelude.{◌≡◌, ◌≤◌, ◌<◌, ◌^◌, ◌+◌, ◌++◌, length, take, OnOk, OnErr};
ghost use Rattle.gu_base.specs.declared.entry.Answer.{Answer as AnswerData};
ghost use Rattle.gu_codec.specs.Answer.{pairs};
ghost use Rattle.gu_codec.specs.Limits.{longest_body};
ghost use Rattle.gu_codec.specs.Messages.{Message};
ghost use Rattle.gu_codec.specs.Writing.{IsText, fields_text, message_text, stream_text};
ghost use Rattle.gu_base.specs.Answers.{answer_to, after};
ghost use Rattle.gu_message.specs.Meaning.{meaning_of};
ghost use Rattle.gu_message.specs.Outcome.{GivesBy, IsSplit};
ghost use Rattle.gu_message.specs.Reply.{message_of, answer_reply, reject_reply};

use gu_base::{AllocId, Answer, Command, FirmId, Memory, Part};
use gu_book::Book;
use gu_codec::{Fields, Header, close_frame, open_frame, write_frame};
use gu_message::{
    Inbound, Index, MeaningError, Reject, SLOTS, Slot, ack_len, give_back_parts, meaning_into,
    msg_types, put_ack, put_trade_ack, reject, reject_target, trade_ack_len, walk,
};
use gu_parties::House;
use std::alloc::{AllocError, Global};
use std::marker::Model;

/// SendingTime (52) of each message that a batch writes, so that its output depends on its input
/// alone.
const BATCH_TIME: &[u8] = b"19700101-00:00:00.000";

/// A firm's call of the book, which has another answer where it came as a trade report.
#[derive(Clone, Copy)]
struct Call<'a> {
    firm: &'a FirmId,
    trade: bool,
    id: &'a AllocId,
    command: &'a Command,
}

impl Call<'_> {
    /// MsgType (35) of the message that answers the call.
    #[inline(always)]
    fn answer_kind(&self) -> &'static [u8]
        ensures kind { (a : AnswerData)
            → result.now ≡ (answer_reply self.now.firm.now self.now.trade self.now.id.now a).kind }
        ensures text { IsText result.now }
    {
        if self.trade {
            msg_types::TRADE_CAPTURE_REPORT_ACK
        } else {
            msg_types::ALLOCATION_INSTRUCTION_ACK
        }
    }

    /// How many bytes the body of that message has, 256 at most.
    #[inline(always)]
    fn answer_len(&self, answer: &Answer) -> usize
        ensures exact { result
            ≡ length (fields_text
            (answer_reply self.now.firm.now self.now.trade self.now.id.now answer.now).fields) }
        ensures few { result ≤ 256 }
    {
        if self.trade {
            trade_ack_len(self.id, answer)
        } else {
            ack_len(self.id, answer)
        }
    }

    /// Puts that body at a place among bytes. Tells where it ends.
    #[inline(always)]
    fn put_answer(&self, bytes: &mut [u8], at: usize, answer: &Answer) -> usize
        requires { at + length
            (fields_text
            (answer_reply self.now.firm.now self.now.trade self.now.id.now answer.now).fields)
            ≤ length bytes.old }
        ensures text { take result bytes.new
            ≡ take at bytes.old
            ++ fields_text
            (answer_reply self.now.firm.now self.now.trade self.now.id.now answer.now).fields }
        ensures end { result
            ≡ at + length (fields_text
            (answer_reply self.now.firm.now self.now.trade self.now.id.now answer.now).fields) }
        ensures len { length bytes.new ≡ length bytes.old }
    {
        if self.trade {
            put_trade_ack(bytes, at, self.id, answer)
        } else {
            put_ack(bytes, at, self.id, answer)
        }
    }
}

/// Room that is taken anew for each message and kept between them, so that memory is asked for only
/// where more is needed than ever before.
#[derive(Drop)]
pub(crate) struct Room {
    /// For the body of a Reject.
    body: Vec<u8>,
    /// For the parts of a split.
    parts: Vec<Part>,
    /// For what a message means.
    meaning: Inbound,
}

impl Room {
    /// None taken yet.
    pub(crate) fn new(alloc: Global) -> Room {
        Room {
            body: Vec::new(alloc),
            parts: Vec::new(alloc),
            meaning: Inbound::Heartbeat,
        }
    }
}

/// The book of a batch, and how many messages it has written.
#[derive(Drop)]
pub(crate) struct Answering {
    book: Book,
    written: u64,
}

impl Model for Answering {
    ghost use Rattle.gu_batch.specs.Output.{Progress};

    ghost Value = { Progress };

    ghost view = { λ a. record {
      house = a.book.house;
      history = a.book.history;
      written = a.written;
    } };
}

impl Answering {
    ghost use Rattle.std.specs.Prelude.{IfOk};
    ghost use Rattle.gu_batch.specs.Output.{start, stamp, call_of, answers_to, answers_to_body};
    ghost use Rattle.gu_batch.specs.Output.{progress_after, progress_behind};

    /// Nothing answered yet, over the opening book of this house.
    pub(crate) fn open(alloc: Global, house: House) -> Result<Answering, Memory>
        ensures { IfOk result (λ a. a ≡ start house) }
    {
        match Book::open(alloc, house) {
            Ok(book) => Ok(Answering { book, written: 0 }),
            Err((house, memory)) => {
                drop(house);
                Err(memory)
            }
        }
    }

    /// The book.
    pub(crate) fn book(&self) -> &Book
        ensures house { result.now.house ≡ self.now.house }
        ensures history { result.now.history ≡ self.now.history }
    {
        &self.book
    }

    /// The number of the next message.
    #[inline(always)]
    fn next_number(&self) -> u64
        requires { self.now.written + 1 < 2 ^ 64 }
        ensures { result ≡ self.now.written + 1 }
    {
        self.written + 1
    }

    /// Appends a reply to a firm, with the next number. An `Err` appends nothing.
    #[inline(never)]
    fn send(
        &mut self,
        out: &mut Vec<u8>,
        target: &FirmId,
        kind: &[u8],
        body: &[u8],
    ) -> Result<(), Memory>
        requires kind { IsText kind.now }
        requires body { length body.now ≤ longest_body }
        requires counted { self.old.written + 1 < 2 ^ 64 }
        ensures ok { (fs : Message) → body.now ≡ fields_text fs
            → OnOk result
            (out.new.items ≡ out.old.items
            ++ message_text
            (message_of (stamp self.old.house.house (self.old.written + 1))
            (record { target = target.now; kind = kind.now; fields = fs }))) }
        ensures after { OnOk result
            (self.new ≡ record self.old { written = self.old.written + 1 }) }
        ensures err { OnErr result (out.new.items ≡ out.old.items) }
    {
        let header = Header {
            kind,
            sender: self.book.house().house(),
            target: *target,
            number: self.next_number(),
            sent: BATCH_TIME,
            resent: None,
        };
        write_frame(out, &header, body)?;
        self.written += 1;
        Ok(())
    }

    /// Appends the message that answers a call, with the next number: its body is put where it goes
    /// out. An `Err` appends nothing.
    #[inline(always)]
    fn send_answer(
        &mut self,
        call: &Call<'_>,
        answer: &Answer,
        out: &mut Vec<u8>,
    ) -> Result<(), Memory>
        requires { self.old.written + 1 < 2 ^ 64 }
        ensures ok { OnOk result
            (out.new.items ≡ out.old.items
            ++ message_text
            (message_of (stamp self.old.house.house (self.old.written + 1))
            (answer_reply call.now.firm.now call.now.trade call.now.id.now answer.now))) }
        ensures after { OnOk result
            (self.new ≡ record self.old { written = self.old.written + 1 }) }
        ensures err { OnErr result (out.new.items ≡ out.old.items) }
    {
        let header = Header {
            kind: call.answer_kind(),
            sender: self.book.house().house(),
            target: *call.firm,
            number: self.next_number(),
            sent: BATCH_TIME,
            resent: None,
        };
        let start = out.len();
        let at = open_frame(out, &header, call.answer_len(answer))?;
        let bytes = out.as_mut_slice();
        let end = call.put_answer(bytes, at, answer);
        close_frame(bytes, start, end);
        self.written += 1;
        Ok(())
    }

    /// Has the book answer a call, and sends the answer. An `Err` appends nothing.
    fn answer_call(
        &mut self,
        alloc: Global,
        call: &Call<'_>,
        out: &mut Vec<u8>,
    ) -> Result<(), Memory>
        requires { self.old.written + 1 < 2 ^ 64 }
        ensures ok { let asked = call_of call.now.firm.now call.now.id.now call.now.command.now in
            OnOk result
            (out.new.items ≡ out.old.items
            ++ message_text
            (message_of (stamp self.old.house.house (self.old.written + 1))
            (answer_reply call.now.firm.now call.now.trade call.now.id.now
            (answer_to self.old.house self.old.history asked)))) }
        ensures after { let asked =
            call_of call.now.firm.now call.now.id.now call.now.command.now in
            OnOk result
            (self.new ≡ record {
              house = self.old.house;
              history = after self.old.house self.old.history asked;
              written = self.old.written + 1;
            }) }
        ensures err { OnErr result (out.new.items ≡ out.old.items) }
    {
        match &self.book.apply(alloc, call.firm, call.id, call.command) {
            // Either way is compiled for its kind alone.
            Ok(answer) if call.trade => {
                let call = Call {
                    trade: true,
                    ..*call
                };
                self.send_answer(&call, answer, out)
            }
            Ok(answer) => {
                let call = Call {
                    trade: false,
                    ..*call
                };
                self.send_answer(&call, answer, out)
            }
            Err(_) => Err(AllocError),
        }
    }

    /// Sends the Reject of a message. An `Err` appends nothing.
    #[cold]
    #[inline(never)]
    fn answer_fault(
        &mut self,
        fields: Fields<'_>,
        fault: Reject,
        body: &mut Vec<u8>,
        out: &mut Vec<u8>,
    ) -> Result<(), Memory>
        requires { self.old.written + 1 < 2 ^ 64 }
        ensures ok { OnOk result
            (out.new.items ≡ out.old.items
            ++ message_text
            (message_of (stamp self.old.house.house (self.old.written + 1))
            (reject_reply (pairs fields.entry) fault))) }
        ensures after { OnOk result
            (self.new ≡ record self.old { written = self.old.written + 1 }) }
        ensures err { OnErr result (out.new.items ≡ out.old.items) }
    {
        body.clear();
        reject(body, fields, fault)?;
        self.send(out, &reject_target(fields), msg_types::REJECT, body)
    }

    /// Appends the answer to a message that was read into the room's meaning. An `Err` appends
    /// nothing.
    #[tactic(auto, // what goes out, and what is counted
    unfolding(crate::specs::Output::answers_to, crate::specs::Output::progress_after))]
    fn answer_meaning(
        &mut self,
        alloc: Global,
        fields: Fields<'_>,
        read: Result<(), MeaningError>,
        room: &mut Room,
        out: &mut Vec<u8>,
    ) -> Result<(), Memory>
        requires counted { self.old.written + 1 < 2 ^ 64 }
        requires gives { GivesBy IsSplit (λ _. room.old.meaning) read
            (meaning_of self.old.house.house (pairs fields)) }
        ensures ok { OnOk result
            (out.new.items ≡ out.old.items
            ++ stream_text (answers_to self.old (pairs fields.entry))) }
        ensures after { OnOk result (self.new ≡ progress_after self.old (pairs fields.entry)) }
        ensures err { OnErr result (out.new.items ≡ out.old.items) }
    {
        match read {
            Ok(()) => match &room.meaning {
                Inbound::Call {
                    firm,
                    trade,
                    id,
                    command,
                } => {
                    let call = Call {
                        firm,
                        trade: *trade,
                        id,
                        command,
                    };
                    let answered = self.answer_call(alloc, &call, out);
                    give_back_parts(alloc, &mut room.meaning, &mut room.parts);
                    answered
                }
                _ => Ok(()),
            },
            Err(MeaningError::Reject(fault)) => self.answer_fault(
                fields,
                fault,
                &mut room.body,
                out,
            ),
            Err(MeaningError::Memory) => Err(AllocError),
        }
    }

    /// Appends the answer to a message whose body wasn't looked at: nothing, where that isn't
    /// fields to its end. An `Err` appends nothing either, and the batch ends with it.
    pub(crate) fn answer(
        &mut self,
        alloc: Global,
        fields: Fields<'_>,
        room: &mut Room,
        out: &mut Vec<u8>,
    ) -> Result<(), Memory>
        requires { self.old.written + 1 < 2 ^ 64 }
        ensures ok { OnOk result
            (out.new.items ≡ out.old.items ++ stream_text (answers_to_body self.old fields.entry)) }
        ensures after { OnOk result (self.new ≡ progress_behind self.old fields.entry) }
        ensures err { OnErr result (out.new.items ≡ out.old.items) }
    {
        let house = self.book.house().house();
        let mut slots = [Slot::none(); SLOTS];
        let walked = walk(fields, &mut slots);
        if !walked.is_whole {
            return Ok(());
        }
        let message = Index::new(fields, &slots, walked);
        let read = meaning_into(alloc, &message, &house, &mut room.parts, &mut room.meaning);
        self.answer_meaning(alloc, fields, read, room, out)
    }
}
