//! The trace of a trade: its tree in text.
ghost use Rattle.std.specs.Prelude.{◌≡◌, ◌++◌, [], ◌∷◌, true, false, decimal, flat_map, unwrap_or};
ghost use Rattle.std.specs.Prelude.{OnOk, OnErr, string_bytes};
ghost use Rattle.gu_base.specs.History.{live};
ghost use Rattle.gu_tree.specs.Shown.{shown};
ghost use Rattle.gu_book.specs.TreeRows.{is_live_trade};
ghost use Rattle.gu_trace.specs.declared.tree_text.TraceError.TheVariants as errors;
ghost use Rattle.gu_trace.specs.Trace.{indent, fee_of, giver_words, fee_words, giver_of};
ghost use Rattle.gu_trace.specs.Trace.{claimed_words, node_words, place_words, words_for, line_of};
ghost use Rattle.gu_trace.specs.Trace.{trace_text};

use gu_base::{FirmId, Memory, NodeName, Number, Place, State};
use gu_book::{Book, entry_at};
use gu_parties::House;
use gu_tree::{Head, Row};
use itoa::Buffer;
use std::alloc::Global;
use std::fmt::Write;
use thiserror::Error;

/// Why there is no trace.
#[derive(Clone, Copy, Debug, Drop, Error, PartialEq, Eq)]
pub enum TraceError {
    /// The number is of no live trade.
    #[error("no live trade")]
    NoLiveTrade,
    /// Memory was refused.
    #[error("out of memory")]
    Memory,
}

impl From<Memory> for TraceError {
    ghost use Rattle.gu_trace.specs.declared.tree_text.TraceError.TheVariants.{Memory as no_memory};

    ghost from_gives = { λ _ e. e ≡ no_memory };

    fn from(_error: Memory) -> TraceError {
        TraceError::Memory
    }
}

/// Appends two spaces for each level of depth.
fn append_indent(text: &mut String, depth: u8) -> Result<(), Memory>
    ensures { OnOk result (string_bytes text.new ≡ string_bytes text.old ++ indent depth) }
{
    for _level in 0..depth {
        text.push_str("  ")?;
    }
    Ok(())
}

/// Appends a taker behind these words.
fn append_taker(text: &mut String, words: &str, taker: &Option<FirmId>) -> Result<(), Memory>
    ensures { OnOk result
        (string_bytes text.new ≡ string_bytes text.old ++ (words.now ++ unwrap_or taker.now [])) }
{
    text.push_str(words)?;
    match taker {
        Some(firm) => text.push_str(firm.as_str()),
        None => Ok(()),
    }
}

/// What the claim of these lots costs the taker, in hundredths.
fn fee_of(book: &Book, lots: u64, giver: &FirmId, taker: &FirmId) -> u128
    ensures { result ≡ fee_of book.now.house book.now.history lots giver.now taker.now }
{
    match book.terms(giver, taker) {
        Some(terms) => u128::from(lots) * u128::from(terms.rate),
        None => 0,
    }
}

/// Appends a giver.
fn append_giver(text: &mut String, giver: &FirmId) -> Result<(), Memory>
    ensures { OnOk result (string_bytes text.new ≡ string_bytes text.old ++ giver_words giver.now) }
{
    write!(text, "claimed from {giver} fee ")
}

/// Appends a number's digits.
fn append_digits(text: &mut String, number: u128) -> Result<(), Memory>
    ensures { OnOk result (string_bytes text.new ≡ string_bytes text.old ++ decimal number) }
{
    let mut digits = Buffer::new();
    text.push_str(digits.format(number))
}

/// Appends a giver and a fee.
fn append_fee(text: &mut String, giver: &FirmId, fee: u128) -> Result<(), Memory>
    ensures { OnOk result
        (string_bytes text.new ≡ string_bytes text.old ++ fee_words giver.now fee) }
{
    append_giver(text, giver)?;
    append_digits(text, fee)
}

/// Appends from whom a node was claimed, and what the claim costs its taker in hundredths.
fn append_claim(text: &mut String, book: &Book, head: &Head) -> Result<(), Memory>
    ensures { OnOk result
        (string_bytes text.new
        ≡ string_bytes text.old
        ++ claimed_words book.now.house book.now.history head.now.lots
        (giver_of book.now.history head.now.name) head.now.taker) }
{
    let Some(split) = entry_at(book.history(), head.name.entry()) else {
        return Ok(());
    };
    let Some(taker) = head.taker else {
        return Ok(());
    };
    let fee = fee_of(book, head.lots, &split.firm, &taker);
    append_fee(text, &split.firm, fee)
}

/// Appends the words for a node's state.
fn append_words(text: &mut String, book: &Book, head: &Head) -> Result<(), Memory>
    ensures { OnOk result
        (string_bytes text.new
        ≡ string_bytes text.old
        ++ words_for book.now.house book.now.history head.now.lots
        (giver_of book.now.history head.now.name) head.now.taker head.now.state) }
{
    match head.state {
        State::Held => text.push_str("held"),
        State::Offered => append_taker(text, "offered to ", &head.taker),
        State::Claimed => append_claim(text, book, head),
        State::Refused => append_taker(text, "refused by ", &head.taker),
        State::Cancelled => append_taker(text, "cancelled for ", &head.taker),
        State::ReversalPending | State::Reversed => Ok(()),
    }
}

/// Appends the name and the lots of a node.
fn append_node(text: &mut String, name: NodeName, lots: u64) -> Result<(), Memory>
    ensures { OnOk result (string_bytes text.new ≡ string_bytes text.old ++ node_words name lots) }
{
    write!(text, "{name} {lots} ")
}

/// Appends where a node stands.
fn append_place(text: &mut String, place: &Place) -> Result<(), Memory>
    ensures { OnOk result
        (string_bytes text.new ≡ string_bytes text.old ++ place_words (Some place.now)) }
{
    write!(text, "{}/{} ", place.firm, place.account)
}

/// Appends the end of a line.
fn append_end(text: &mut String) -> Result<(), Memory>
    ensures { OnOk result (string_bytes text.new ≡ string_bytes text.old ++ 10 ∷ []) }
{
    text.push_str("\n")
}

/// Appends the line of a row.
fn append_line(text: &mut String, book: &Book, row: &Row) -> Result<(), Memory>
    ensures { OnOk result
        (string_bytes text.new
        ≡ string_bytes text.old ++ line_of book.now.house book.now.history (shown row.now)) }
{
    let head = &row.head;
    append_indent(text, row.depth)?;
    append_node(text, head.name, head.lots)?;
    append_place(text, &head.place)?;
    append_words(text, book, head)?;
    append_end(text)
}

/// Appends the lines of the rows.
fn append_lines(text: &mut String, book: &Book, rows: &[Row]) -> Result<(), Memory>
    ensures { OnOk result
        (string_bytes text.new
        ≡ string_bytes text.old
        ++ flat_map (λ r. line_of book.now.house book.now.history (shown r)) rows.now) }
{
    for row in rows {
        append_line(text, book, row)?;
    }
    Ok(())
}

/// Appends the trace of a live trade: a line for each node of its tree, with the account in which
/// it stands and its state, and the fee of each claim in hundredths. A node's parts stand below it,
/// two spaces further in.
///
/// # Errors
///
/// `NoLiveTrade` exactly where the number is of no live trade, `Memory` where a growth was refused,
/// of a live trade alone. Both leave `out` as it was.
pub fn trace(alloc: Global, book: &Book, trade: Number, out: &mut Vec<u8>) -> Result<(), TraceError>
    ensures text { OnOk result
        (out.new.items ≡ out.old.items ++ trace_text book.now.house book.now.history trade) }
    ensures live { OnOk result (is_live_trade (live book.now.history) trade ≡ true) }
    ensures none { result ≡ Err errors.NoLiveTrade
        → is_live_trade (live book.now.history) trade ≡ false }
    ensures memory { result ≡ Err errors.Memory
        → is_live_trade (live book.now.history) trade ≡ true }
    ensures unchanged { OnErr result (out.new.items ≡ out.old.items) }
{
    let Some(rows) = book.tree_rows(alloc, trade)? else {
        return Err(TraceError::NoLiveTrade);
    };
    let mut text = String::new(alloc);
    append_lines(&mut text, book, &rows)?;
    out.extend_from_slice(text.as_bytes())?;
    Ok(())
}
