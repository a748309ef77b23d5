//! The batch: bytes in, answers out. What a trace tells is read and answered in the same way
//! (`tracing.rt`).

ghost use Rattle.std.specs.Prelude.{◌≡◌, ◌+◌, ◌<◌, ◌≤◌, ◌^◌, None, length};
ghost use Rattle.gu_codec.specs.Limits.{longest_frame, longest_stream};
ghost use Rattle.gu_batch.specs.Limits.{longest_read};
ghost use Rattle.gu_batch.specs.Counts.{CountsOne};
ghost use Rattle.gu_batch.specs.Output.{start};
ghost use Rattle.gu_batch.specs.Runs.{Fills, Runs, RunsTo, and_progress, Answered, EndsAs};

use crate::answering::{Answering, Room};
use crate::held::answer_frames;
use crate::streams::{Sink, Source, write_all};
use gu_codec::{Feed, MAX_FRAME_LEN};
use gu_parties::House;
use std::alloc::Global;
use std::io::ErrorKind;
use std::mem::ManuallyDrop;
use thiserror::Error;

/// Why a batch ended before its stream did.
#[derive(Clone, Copy, Debug, PartialEq, Eq, Error)]
pub enum RunError {
    /// The byte at this offset of the stream is the first that no frame admits.
    #[error("stream broken at {at}")]
    Broken { at: usize },
    /// The stream ends inside the frame that begins at this offset.
    #[error("stream truncated at {at}")]
    Truncated { at: usize },
    /// The reader failed, or all 16,777,216 reads that a batch may make were made.
    #[error("read failed")]
    Read,
    /// The writer failed, or took no byte.
    #[error("write failed")]
    Write,
    /// Memory ran out, for the opening calls of the house or later.
    #[error("out of memory")]
    Memory,
    /// The number is that of no live trade. A trace alone ends so.
    #[error("no live trade {trade}")]
    NoLiveTrade { trade: u32 },
}

/// How many reads a batch may make.
const MOST_READS: u32 = 16_777_216;

/// The longest read, in bytes: as much as the feed has room for.
const LONGEST_READ: usize = MAX_FRAME_LEN;

/// What a read brought.
#[derive(Clone, Copy, PartialEq, Eq)]
pub(crate) enum Came {
    Bytes { count: usize },
    /// The read was interrupted.
    Nothing,
    End,
    Fault,
}

/// One read of as much as the feed has room for, by way of this buffer, into the feed. What an
/// earlier read left in the buffer isn't looked at.
fn fill<R: Source>(reader: &mut R, feed: &mut Feed, buf: &mut [u8; LONGEST_READ]) -> Came
    requires unbroken { feed.old.broken ≡ None }
    requires room { length feed.old.held < longest_frame }
    requires short { feed.old.passed + length feed.old.held + longest_read ≤ longest_stream }
    ensures fills { Fills (R.remaining reader.old) (R.remaining reader.new) (R.failed reader.old)
        (R.failed reader.new) feed.old feed.new result }
    ensures made { CountsOne (R.made reader.old) (R.made reader.new) }
{
    let most = feed.room().min(buf.len());
    match reader.read(&mut buf[..most]) {
        Ok(0) => Came::End,
        Ok(n) => {
            let _ = feed.push(&buf[..n]);
            Came::Bytes { count: n }
        }
        Err(e) => {
            if e.kind() == ErrorKind::Interrupted {
                Came::Nothing
            } else {
                Came::Fault
            }
        }
    }
}

/// Answers the frames that are held, and writes the answers.
fn answer_read<W: Sink>(
    alloc: Global,
    feed: &mut Feed,
    answering: &mut Answering,
    room: &mut Room,
    out: &mut Vec<u8>,
    writer: &mut W,
) -> Result<(), RunError>
    requires unbroken { feed.old.broken ≡ None }
    requires numbered { answering.old.written ≤ feed.old.passed }
    requires short { feed.old.passed + length feed.old.held < 2 ^ 63 }
    ensures { Answered answering.old feed.old answering.new feed.new (W.contents writer.old)
        (W.contents writer.new) (W.failed writer.old) (W.failed writer.new) result }
{
    out.clear();
    let answered = answer_frames(alloc, feed, answering, room, out);
    match write_all(writer, out) {
        Ok(()) => answered,
        Err(_) => Err(RunError::Write),
    }
}

/// What the end of the stream means, of which so many bytes came.
fn end_of(feed: &Feed, total: usize) -> Result<(), RunError>
    requires { total ≡ feed.now.passed + length feed.now.held }
    ensures { EndsAs feed.now result }
{
    let held = MAX_FRAME_LEN - feed.room();
    if held == 0 {
        Ok(())
    } else {
        Err(RunError::Truncated { at: total - held })
    }
}

/// Answers the messages of a stream as they come, over the opening book. Whatever was answered
/// before a fault was written.
fn answer_reads<R: Source, W: Sink>(
    alloc: Global,
    reader: &mut R,
    writer: &mut W,
    answering: &mut Answering,
) -> Result<(), RunError>
    requires fresh { answering.old ≡ start answering.old.house }
    ensures { RunsTo answering.old.house
        (record {
          left = R.remaining reader.old;
          made = R.made reader.old;
          reads_failed = R.failed reader.old;
          contents = W.contents writer.old;
          writes_failed = W.failed writer.old;
        })
        (record {
          left = R.remaining reader.new;
          made = R.made reader.new;
          reads_failed = R.failed reader.new;
          contents = W.contents writer.new;
          writes_failed = W.failed writer.new;
        })
        (and_progress result answering.new) }
{
    let Ok(mut feed) = Feed::new(alloc) else {
        return Err(RunError::Memory);
    };
    let mut out = Vec::new(alloc);
    let mut room = Room::new(alloc);
    let mut total = 0usize;
    let mut buf = [0; LONGEST_READ];
    'reads: for _ in 0..MOST_READS {
        match fill(reader, &mut feed, &mut buf) {
            Came::Nothing => {}
            Came::Fault => return Err(RunError::Read),
            Came::End => return end_of(&feed, total),
            Came::Bytes { count } => {
                total += count;
                match answer_read(alloc, &mut feed, answering, &mut room, &mut out, writer) {
                    Ok(()) => {}
                    Err(e) => return Err(e),
                }
            }
        }
    }
    Err(RunError::Read)
}

/// Answers the messages of a stream as they come, over the opening book of this house, and gives
/// the book behind them. Whatever was answered before a fault was written. A book that finds no
/// memory for its opening calls is `Memory`: nothing was read then.
pub(crate) fn answer_stream<R: Source, W: Sink>(
    alloc: Global,
    reader: &mut R,
    writer: &mut W,
    house: House,
) -> Result<Answering, RunError>
    ensures { RunsTo house
        (record {
          left = R.remaining reader.old;
          made = R.made reader.old;
          reads_failed = R.failed reader.old;
          contents = W.contents writer.old;
          writes_failed = W.failed writer.old;
        })
        (record {
          left = R.remaining reader.new;
          made = R.made reader.new;
          reads_failed = R.failed reader.new;
          contents = W.contents writer.new;
          writes_failed = W.failed writer.new;
        })
        result }
{
    let mut answering = match Answering::open(alloc, house) {
        Ok(opened) => opened,
        Err(_) => return Err(RunError::Memory),
    };
    match answer_reads(alloc, reader, writer, &mut answering) {
        Ok(()) => Ok(answering),
        Err(e) => {
            drop(answering);
            Err(e)
        }
    }
}

/// Answers the messages of a stream as they come, over the book behind the opening calls of this
/// house. Whatever was answered before a fault was written.
///
/// Where the stream ended well its book is left as it is, and not taken apart node by node: a
/// process that ran a batch ends behind it, and the system then takes all its memory back at once.
/// So each call keeps the memory of its book.
pub fn run_batch<R: Source, W: Sink>(
    alloc: Global,
    reader: &mut R,
    writer: &mut W,
    house: House,
) -> Result<(), RunError>
    ensures { Runs house
        (record {
          left = R.remaining reader.old;
          made = R.made reader.old;
          reads_failed = R.failed reader.old;
          contents = W.contents writer.old;
          writes_failed = W.failed writer.old;
        })
        (record {
          left = R.remaining reader.new;
          made = R.made reader.new;
          reads_failed = R.failed reader.new;
          contents = W.contents writer.new;
          writes_failed = W.failed writer.new;
        })
        result }
{
    let answering = answer_stream(alloc, reader, writer, house)?;
    let _kept = ManuallyDrop::new(answering);
    Ok(())
}
