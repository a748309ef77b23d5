//! The totals of the day in text: positions, fees and used agreements.
ghost use Rattle.std.specs.Prelude.{◌≡◌, ◌++◌, [], flat_map, OnOk, OnErr, string_bytes};
ghost use Rattle.gu_base.specs.History.{live};
ghost use Rattle.gu_trace.specs.Totals.{account_words, lots_words, position_line, position_in};
ghost use Rattle.gu_trace.specs.Totals.{fees_of, use_of, fixed_line, made_line, positions_text};
ghost use Rattle.gu_trace.specs.Totals.{fees_text, totals_text};

use gu_base::{Account, Command, FirmId, InstrumentId, Memory};
use gu_book::{Book, entry_at};
use std::alloc::Global;
use std::fmt::Write;

/// Appends the account of a position.
fn append_account_words(text: &mut String, account: &Account) -> Result<(), Memory>
    ensures { OnOk result
        (string_bytes text.new
        ≡ string_bytes text.old ++ account_words account.now.firm account.now.name) }
{
    write!(text, "position {}/{} ", account.firm, account.name)
}

/// Appends the lots of a position.
fn append_lots(
    text: &mut String,
    instrument: &InstrumentId,
    long: u64,
    short: u64,
) -> Result<(), Memory>
    ensures { OnOk result
        (string_bytes text.new ≡ string_bytes text.old ++ lots_words instrument.now long short) }
{
    writeln!(text, "{instrument} long {long} short {short}")
}

/// Appends the line of a position.
fn append_position_line(
    text: &mut String,
    account: &Account,
    instrument: &InstrumentId,
    long: u64,
    short: u64,
) -> Result<(), Memory>
    ensures { OnOk result
        (string_bytes text.new
        ≡ string_bytes text.old
        ++ position_line account.now.firm account.now.name instrument.now long short) }
{
    append_account_words(text, account)?;
    append_lots(text, instrument, long, short)
}

/// Appends the line of a position, unless no lots stand there.
fn append_position(
    text: &mut String,
    book: &Book,
    account: &Account,
    instrument: &InstrumentId,
) -> Result<(), Memory>
    ensures { OnOk result
        (string_bytes text.new
        ≡ string_bytes text.old ++ position_in (live book.now.history) account.now instrument.now) }
{
    let (long, short) = book.position(&account.firm, &account.name, instrument);
    if long == 0 && short == 0 {
        return Ok(());
    }
    append_position_line(text, account, instrument, long, short)
}

/// Appends the positions of an account, in the order of the instruments.
fn append_account(text: &mut String, book: &Book, account: &Account) -> Result<(), Memory>
    ensures { OnOk result
        (string_bytes text.new
        ≡ string_bytes text.old
        ++ flat_map (position_in (live book.now.history) account.now) book.now.house.instruments) }
{
    let house = book.house();
    for place in 0..house.instrument_count() {
        match house.instrument_at(place) {
            Some(instrument) => append_position(text, book, account, &instrument)?,
            None => {}
        }
    }
    Ok(())
}

/// Appends all positions, in the order of the accounts.
fn append_positions(text: &mut String, book: &Book) -> Result<(), Memory>
    ensures { OnOk result
        (string_bytes text.new
        ≡ string_bytes text.old ++ positions_text book.now.house (live book.now.history)) }
{
    let house = book.house();
    for place in 0..house.account_count() {
        match house.account_at(place) {
            Some(account) => append_account(text, book, &account)?,
            None => {}
        }
    }
    Ok(())
}

/// Appends the line of a firm's fees, unless it neither pays nor receives.
fn append_firm(text: &mut String, book: &Book, firm: &FirmId) -> Result<(), Memory>
    ensures { OnOk result
        (string_bytes text.new
        ≡ string_bytes text.old ++ fees_of book.now.house (live book.now.history) firm.now) }
{
    let paid = book.paid(firm);
    let received = book.received(firm);
    if paid == 0 && received == 0 {
        return Ok(());
    }
    writeln!(text, "fees {firm} paid {paid} received {received}")
}

/// Appends the fees of all firms, the house first.
fn append_fees(text: &mut String, book: &Book) -> Result<(), Memory>
    ensures { OnOk result
        (string_bytes text.new
        ≡ string_bytes text.old ++ fees_text book.now.house (live book.now.history)) }
{
    let house = book.house();
    append_firm(text, book, &house.house())?;
    for place in 0..house.firm_count() {
        match house.firm_at(place) {
            Some(firm) => append_firm(text, book, &firm)?,
            None => {}
        }
    }
    Ok(())
}

/// Appends what a giver and a taker have used, with their limit, unless they have used nothing.
fn append_use(text: &mut String, book: &Book, giver: &FirmId, taker: &FirmId) -> Result<(), Memory>
    ensures { OnOk result
        (string_bytes text.new
        ≡ string_bytes text.old
        ++ use_of book.now.house (live book.now.history) giver.now taker.now) }
{
    let used = book.used(giver, taker);
    if used == 0 {
        return Ok(());
    }
    let limit = book.limit(giver, taker).unwrap_or(0);
    writeln!(text, "agreement {giver} {taker} used {used} limit {limit}")
}

/// Appends what is used of each agreement that is fixed.
fn append_fixed(text: &mut String, book: &Book) -> Result<(), Memory>
    ensures { OnOk result
        (string_bytes text.new
        ≡ string_bytes text.old
        ++ flat_map (fixed_line book.now.house (live book.now.history)) book.now.house.agreements) }
{
    let house = book.house();
    for place in 0..house.agreement_count() {
        match house.agreement_at(place) {
            Some(line) => append_use(text, book, &line.0.giver, &line.0.taker)?,
            None => {}
        }
    }
    Ok(())
}

/// Appends what is used of the agreement that the command makes, if it makes one.
fn append_made_by(text: &mut String, book: &Book, command: &Command) -> Result<(), Memory>
    ensures { OnOk result
        (string_bytes text.new
        ≡ string_bytes text.old ++ made_line book.now.house (live book.now.history) command.now) }
{
    match command {
        Command::Agree { giver, taker, .. } => append_use(text, book, giver, taker),
        _ => Ok(()),
    }
}

/// Appends what is used of each agreement that a live change made.
fn append_made(text: &mut String, alloc: Global, book: &Book) -> Result<(), Memory>
    ensures { OnOk result
        (string_bytes text.new
        ≡ string_bytes text.old
        ++ flat_map (λ r. made_line book.now.house (live book.now.history) r.command)
        (live book.now.history)) }
{
    let numbers = book.live(alloc)?;
    for number in numbers.as_slice() {
        match entry_at(book.history(), *number) {
            Some(entry) => append_made_by(text, book, &entry.command)?,
            None => {}
        }
    }
    Ok(())
}

/// Appends the totals, in the order of the house file: a line for each account and instrument in
/// which lots stand, with those of buy trades and those of sell trades; a line for each firm that
/// pays or receives something for live claims, in hundredths, the house first; and a line for each
/// agreement of which lots are used, with its limit and what was raised: those that are fixed, and
/// then those that live changes made, by their numbers.
///
/// # Errors
///
/// `Memory` where a growth was refused. It leaves `out` as it was.
pub fn totals(alloc: Global, book: &Book, out: &mut Vec<u8>) -> Result<(), Memory>
    ensures text { OnOk result
        (out.new.items ≡ out.old.items ++ totals_text book.now.house book.now.history) }
    ensures unchanged { OnErr result (out.new.items ≡ out.old.items) }
{
    let mut text = String::new(alloc);
    append_positions(&mut text, book)?;
    append_fees(&mut text, book)?;
    append_fixed(&mut text, book)?;
    append_made(&mut text, alloc, book)?;
    out.extend_from_slice(text.as_bytes())
}
