//! The trace: bytes in, and what the book behind them tells out.

ghost use Rattle.std.specs.Prelude.{◌≡◌, ◌++◌, true, Some, IfOk, IfErr, OnOk, Ok};
ghost use Rattle.gu_trace.specs.Trace.{trace_text};
ghost use Rattle.gu_batch.specs.Traces.{is_traced, told_text, IsUntold, Tells, Traces};
ghost use Rattle.gu_batch.specs.Traces.{WritesTotals};

use crate::batch::{RunError, answer_stream};
use crate::streams::{Nowhere, Sink, Source, write_all};
use gu_base::Number;
use gu_book::Book;
use gu_parties::House;
use gu_trace::{TraceError, totals};
use std::alloc::Global;

/// Appends the trace of the trade of this number, if it is live.
fn append_trace(alloc: Global, book: &Book, trade: u32, text: &mut Vec<u8>) -> Result<(), RunError>
    ensures text { OnOk result
        (text.new.items ≡ text.old.items ++ trace_text book.now.house book.now.history trade) }
    ensures live { OnOk result (is_traced book.now.history trade ≡ true) }
    ensures none { IfErr result (λ e. IsUntold book.now.history (Some trade) e) }
{
    let Some(number) = Number::new(trade) else {
        return Err(RunError::NoLiveTrade { trade });
    };
    match gu_trace::trace(alloc, book, number, text) {
        Ok(()) => Ok(()),
        Err(TraceError::NoLiveTrade) => Err(RunError::NoLiveTrade { trade }),
        Err(TraceError::Memory) => Err(RunError::Memory),
    }
}

/// The trace of a trade, if one is asked for, and the totals.
fn text_of(alloc: Global, book: &Book, trade: Option<u32>) -> Result<Vec<u8>, RunError>
    ensures ok { IfOk result (λ v. Tells book.now.house book.now.history trade (Ok v.items)) }
    ensures err { IfErr result (λ e. IsUntold book.now.history trade e) }
{
    let mut text = Vec::new(alloc);
    if let Some(trade) = trade {
        append_trace(alloc, book, trade, &mut text)?;
    }
    match totals(alloc, book, &mut text) {
        Ok(()) => Ok(text),
        Err(_) => Err(RunError::Memory),
    }
}

/// Reads a stream to its end as a batch, without writing its answers. Then writes the trace of the
/// trade of this number, if one is asked for, and the totals, over the history of the stream's
/// messages.
///
/// # Errors
///
/// Those of a batch, and `NoLiveTrade` where the number is of no live trade. But for `Write`,
/// nothing has been written then; at `Write` a front of the text.
pub fn run_trace<R: Source, W: Sink>(
    alloc: Global,
    reader: &mut R,
    writer: &mut W,
    house: House,
    trade: Option<u32>,
) -> Result<(), RunError>
    ensures { Traces house trade
        (record {
          left = R.remaining reader.old;
          made = R.made reader.old;
          reads_failed = R.failed reader.old;
          contents = W.contents writer.old;
          writes_failed = W.failed writer.old;
        })
        (record {
          left = R.remaining reader.new;
          made = R.made reader.new;
          reads_failed = R.failed reader.new;
          contents = W.contents writer.new;
          writes_failed = W.failed writer.new;
        })
        result }
{
    let mut nowhere = Nowhere;
    let answering = answer_stream(alloc, reader, &mut nowhere, house)?;
    let told = text_of(alloc, answering.book(), trade);
    drop(answering);
    let text = told?;
    match write_all(writer, &text) {
        Ok(()) => Ok(()),
        Err(_) => Err(RunError::Write),
    }
}

/// Writes the totals of a book.
///
/// # Errors
///
/// `Memory`, and nothing has been written then; `Write`, behind a front of the totals.
pub fn write_totals<W: Sink>(alloc: Global, book: &Book, writer: &mut W) -> Result<(), RunError>
    ensures { WritesTotals book.now.house book.now.history (W.contents writer.old)
        (W.contents writer.new) (W.failed writer.old) (W.failed writer.new) result }
{
    let mut text = Vec::new(alloc);
    if totals(alloc, book, &mut text).is_err() {
        return Err(RunError::Memory);
    }
    match write_all(writer, &text) {
        Ok(()) => Ok(()),
        Err(_) => Err(RunError::Write),
    }
}
