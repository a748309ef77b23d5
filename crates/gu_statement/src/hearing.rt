//! A stream of messages, heard to its end: the book behind it, and what a statement has beside
//! that.
ghost use Rattle.std.specs.Prelude.{◌≡◌, None, OnOk};

use crate::heard::{Cause, Moment, RefusedCall, RefusedCalls, Times};
use gu_base::{AllocId, Answer, FirmId, Memory, Part};
use gu_batch::{RunError, Source};
use gu_book::Book;
use gu_codec::{Feed, Fields, Frame, MAX_FRAME_LEN, tags};
use gu_message::{
    Inbound, Index, MeaningError, SLOTS, Slot, give_back_parts, is_timestamp, meaning_into, walk,
};
use gu_parties::House;
use std::alloc::{AllocError, Global};
use std::io::ErrorKind;

/// How many reads may be made, as of a batch.
const MOST_READS: u32 = 16_777_216;

/// A book, and what a statement has beside it.
#[derive(Drop)]
pub struct Heard {
    pub book: Book,
    /// The times of its entries.
    pub times: Times,
    /// The calls that came to nothing: `None` where that isn't known, as of a journal.
    pub refused: Option<RefusedCalls>,
}

/// The longest read, in bytes: as much as the feed has room for.
const LONGEST_READ: usize = MAX_FRAME_LEN;

/// What a read brought.
#[derive(Clone, Copy, PartialEq, Eq)]
enum Came {
    Bytes { count: usize },
    /// The read was interrupted.
    Nothing,
    End,
    Fault,
}

/// Room that is taken anew for each message.
#[derive(Drop)]
struct Room {
    parts: Vec<Part>,
    meaning: Inbound,
}

/// A stream that is being heard.
#[derive(Drop)]
struct Hearing {
    book: Book,
    times: Times,
    refused: RefusedCalls,
    /// Of which firm the calls that came to nothing are kept: of all where it is none.
    whose: Option<FirmId>,
    /// How many messages came.
    messages: u64,
}

/// What a message says of itself, whatever it means.
#[derive(Clone, Copy)]
struct Label {
    firm: Option<FirmId>,
    id: Option<AllocId>,
    time: Moment,
}

/// The time of a message, or no byte.
fn time_of<'a>(message: &Index<'_, 'a>) -> &'a [u8] {
    match message.first(tags::SENDING_TIME) {
        Some(time) if is_timestamp(time) => time,
        _ => b"",
    }
}

/// The id of a message, if it has a lawful one.
fn id_of(message: &Index<'_, '_>) -> Option<AllocId> {
    match message.first(tags::ALLOC_ID) {
        Some(id) => AllocId::new(id),
        None => match message.first(tags::TRADE_REPORT_ID) {
            Some(id) => AllocId::new(id),
            None => None,
        },
    }
}

/// The firm that sent a message, if it names one.
fn sender_of(message: &Index<'_, '_>) -> Option<FirmId> {
    match message.first(tags::SENDER_COMP_ID) {
        Some(firm) => FirmId::new(firm),
        None => None,
    }
}

/// What a message says of itself.
fn label_of(message: &Index<'_, '_>) -> Label {
    Label {
        firm: sender_of(message),
        id: id_of(message),
        time: Moment::of(time_of(message)),
    }
}

impl Hearing {
    /// Nothing heard yet, over the opening book of this house.
    fn open(alloc: Global, house: House, whose: Option<FirmId>) -> Result<Hearing, Memory> {
        match Book::open(alloc, house) {
            Ok(book) => Ok(Hearing {
                book,
                times: Times::new(alloc),
                refused: RefusedCalls::new(alloc),
                whose,
                messages: 0,
            }),
            Err((house, memory)) => {
                drop(house);
                Err(memory)
            }
        }
    }

    /// Gives the opening calls no time.
    fn skip_opening(&mut self) -> Result<(), Memory> {
        for _ in 0..self.book.history().len() {
            self.times.push(b"")?;
        }
        Ok(())
    }

    /// Keeps a call that came to nothing, if it is asked for.
    fn keep(&mut self, label: Label, cause: Cause) -> Result<(), Memory> {
        if self.whose.is_some() && self.whose != label.firm {
            return Ok(());
        }
        self.refused.push(RefusedCall {
            firm: label.firm,
            id: label.id,
            place: self.messages,
            cause,
            time: label.time,
        })
    }

    /// Has the book answer the message that was read into the room.
    fn call(
        &mut self,
        alloc: Global,
        message: &Index<'_, '_>,
        room: &mut Room,
    ) -> Result<(), Memory> {
        let Inbound::Call {
            firm,
            id,
            command,
            ..
        } = &room.meaning
        else {
            return Ok(());
        };
        let answer = self.book.apply(alloc, firm, id, command)?;
        give_back_parts(alloc, &mut room.meaning, &mut room.parts);
        match answer {
            Answer::Accepted { .. } => self.times.push(time_of(message)),
            Answer::Repeated { .. } => Ok(()),
            Answer::Refused(refusal) => self.keep(label_of(message), Cause::Refused(refusal)),
        }
    }

    /// Hears a message whose body wasn't looked at: nothing, where that isn't fields to its end.
    fn hear(&mut self, alloc: Global, fields: Fields<'_>, room: &mut Room) -> Result<(), Memory> {
        let house = self.book.house().house();
        let mut slots = [Slot::none(); SLOTS];
        let walked = walk(fields, &mut slots);
        if !walked.is_whole {
            return Ok(());
        }
        let message = Index::new(fields, &slots, walked);
        self.messages = self.messages.saturating_add(1);
        match meaning_into(alloc, &message, &house, &mut room.parts, &mut room.meaning) {
            Ok(()) => self.call(alloc, &message, room),
            Err(MeaningError::Reject(fault)) => {
                self.keep(label_of(&message), Cause::Rejected(fault))
            }
            Err(MeaningError::Memory) => Err(AllocError),
        }
    }

    /// Hears the messages that are held whole.
    fn hear_frames(
        &mut self,
        alloc: Global,
        feed: &mut Feed,
        room: &mut Room,
    ) -> Result<(), RunError>
        requires { feed.old.broken ≡ None }
        ensures { OnOk result (feed.new.broken ≡ None) }
    {
        'frames: loop {
            match feed.next_sealed() {
                None => return Ok(()),
                Some(Frame::Whole { fields, .. }) => match self.hear(alloc, fields, room) {
                    Ok(()) => {}
                    Err(_) => return Err(RunError::Memory),
                },
                Some(Frame::Garbled { .. }) => {}
                Some(Frame::Partial) => return Ok(()),
                Some(Frame::Broken { at }) => return Err(RunError::Broken { at }),
            }
        }
    }

    /// Hears a stream to its end.
    fn hear_all<R: Source>(&mut self, alloc: Global, reader: &mut R) -> Result<(), RunError> {
        let Ok(mut feed) = Feed::new(alloc) else {
            return Err(RunError::Memory);
        };
        let mut room = Room {
            parts: Vec::new(alloc),
            meaning: Inbound::Heartbeat,
        };
        let mut total = 0usize;
        let mut buf = [0; LONGEST_READ];
        'reads: for _ in 0..MOST_READS {
            match fill(reader, &mut feed, &mut buf) {
                Came::Nothing => {}
                Came::Fault => return Err(RunError::Read),
                Came::End => return end_of(&feed, total),
                Came::Bytes { count } => {
                    total = total.saturating_add(count);
                    match self.hear_frames(alloc, &mut feed, &mut room) {
                        Ok(()) => {}
                        Err(e) => return Err(e),
                    }
                }
            }
        }
        Err(RunError::Read)
    }

    /// The book, and what is kept beside it.
    fn ended(self) -> Heard {
        let Hearing {
            book,
            times,
            refused,
            whose: _,
            messages: _,
        } = self;
        Heard {
            book,
            times,
            refused: Some(refused),
        }
    }
}

/// One read of as much as the feed has room for, by way of this buffer, into the feed. What an
/// earlier read left in the buffer isn't looked at.
fn fill<R: Source>(reader: &mut R, feed: &mut Feed, buf: &mut [u8; LONGEST_READ]) -> Came
    requires { feed.old.broken ≡ None }
    ensures { feed.new.broken ≡ None }
{
    let most = feed.room().min(buf.len());
    match reader.read(&mut buf[..most]) {
        Ok(0) => Came::End,
        Ok(n) => {
            let _ = feed.push(&buf[..n]);
            Came::Bytes { count: n }
        }
        Err(e) => {
            if e.kind() == ErrorKind::Interrupted {
                Came::Nothing
            } else {
                Came::Fault
            }
        }
    }
}

/// What the end of the stream means, of which so many bytes came.
fn end_of(feed: &Feed, total: usize) -> Result<(), RunError> {
    let held = MAX_FRAME_LEN - feed.room();
    if held == 0 {
        Ok(())
    } else {
        Err(RunError::Truncated {
            at: total.saturating_sub(held),
        })
    }
}

/// Hears the messages of a stream to its end, over the book behind the opening calls of this house.
/// Of the calls that came to nothing those of `whose` are kept, or all where it is none.
///
/// # Errors
///
/// Those of a batch.
pub fn hear<R: Source>(
    alloc: Global,
    reader: &mut R,
    house: House,
    whose: Option<FirmId>,
) -> Result<Heard, RunError> {
    let Ok(mut hearing) = Hearing::open(alloc, house, whose) else {
        return Err(RunError::Memory);
    };
    if hearing.skip_opening().is_err() {
        drop(hearing);
        return Err(RunError::Memory);
    }
    match hearing.hear_all(alloc, reader) {
        Ok(()) => Ok(hearing.ended()),
        Err(e) => {
            drop(hearing);
            Err(e)
        }
    }
}
