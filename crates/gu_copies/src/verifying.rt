//! What a start would say of a journal's bytes.

ghost use Rattle.std.specs.Prelude.{◌≡◌, ◌++◌, ℕ, List, length, true, Some, IfOk, IfErr, OnOk};
ghost use Rattle.std.specs.Prelude.{IfSome, codes, decimal, string_bytes};
ghost use Rattle.gu_base.specs.House.{House as HouseTable};
ghost use Rattle.gu_base.specs.declared.entry.Entry.{Entry};
ghost use Rattle.gu_batch.specs.Traces.{is_traced, IsUntold};
ghost use Rattle.gu_trace.specs.Trace.{trace_text};
ghost use Rattle.gu_journal.specs.Keeping.{Keeps};
ghost use Rattle.gu_copies.specs.Verified.{verified_line, asked_text, IsVerified, IsRefusal};
ghost use Rattle.gu_copies.specs.Verified.{Looks};

use crate::error::LookError;
use crate::files::JournalFiles;
use crate::writing::write_whole;
use gu_base::{Memory, Number};
use gu_batch::{RunError, Sink};
use gu_book::{Book, HashKey};
use gu_command::Look;
use gu_image::Image;
use gu_journal::{HouseDigest, Journal, RecoverError, Recovered, Silent, Unrecovered, recover};
use gu_parties::House;
use gu_trace::{TraceError, totals, trace};
use sqlite_disk::Disk;
use std::alloc::Global;
use std::fmt::Write;

/// The moment of the head that a start would begin an empty file with.
const MOMENT: &[u8; 21] = b"19700101-00:00:00.000";

/// The front of the line: how many entries, and how many bytes count.
fn front_of(alloc: Global, entries: u32, bytes: usize) -> Result<String, Memory>
    ensures { IfOk result (λ text. string_bytes text ≡ codes "entries " ++ decimal entries
        ++ codes " bytes " ++ decimal bytes ++ codes " sha512 ") }
{
    let mut text = String::new(alloc);
    write!(text, "entries {entries} bytes {bytes} sha512 ")?;
    Ok(text)
}

/// The line that is said of a journal that a start gives.
fn line_of<D: Disk>(alloc: Global, journal: &Journal<D>) -> Result<Vec<u8>, Memory>
    ensures { (t : HouseTable) (pin : List ℕ) (h : List Entry)
        → (k : Keeps D.Disk.seen D.Disk.may_leave t pin h journal.now)
        → IfOk result (λ line. line.items ≡ verified_line (length h) k.bytes) }
{
    let digest = journal.digest()?;
    let front = front_of(alloc, journal.entries(), journal.len())?;
    let mut line = front.into_bytes();
    line.extend_from_slice(&digest)?;
    line.push(b'\n')?;
    Ok(line)
}

/// What a start from these bytes of a file says: its book, and the line; or why there is no start.
fn verified(
    alloc: Global,
    file: Vec<u8>,
    house: House,
    key: HashKey,
    pin: &HouseDigest,
) -> Result<(Book, Vec<u8>), RecoverError>
    ensures house { IfOk result (λ r. r.0.house ≡ house) }
    ensures line { IfOk result (λ r. IsVerified house pin.now.bytes file.items r.0.history
        r.1.items) }
    ensures refusal { IfErr result (IsRefusal house pin.now.bytes file.items) }
{
    let disk = Image::new(file);
    match recover(alloc, disk, house, key, pin, MOMENT, &mut Silent) {
        Ok(Recovered { book, journal }) => {
            let line = line_of(alloc, &journal);
            drop(journal);
            match line {
                Ok(line) => Ok((book, line)),
                Err(_) => {
                    drop(book);
                    Err(RecoverError::Memory)
                }
            }
        }
        Err(Unrecovered { disk, error }) => {
            drop(disk);
            Err(error)
        }
    }
}

/// Appends the trace of the trade of this number, if it is live.
fn append_trace(alloc: Global, book: &Book, number: u32, out: &mut Vec<u8>) -> Result<(), RunError>
    ensures text { OnOk result
        (out.new.items ≡ out.old.items ++ trace_text book.now.house book.now.history number) }
    ensures live { OnOk result (is_traced book.now.history number ≡ true) }
    ensures none { IfErr result (λ e. IsUntold book.now.history (Some number) e) }
{
    let Some(trade) = Number::new(number) else {
        return Err(RunError::NoLiveTrade { trade: number });
    };
    match trace(alloc, book, trade, out) {
        Ok(()) => Ok(()),
        Err(TraceError::NoLiveTrade) => Err(RunError::NoLiveTrade { trade: number }),
        Err(TraceError::Memory) => Err(RunError::Memory),
    }
}

/// Appends what is asked for beside the line.
fn append_asked(alloc: Global, book: &Book, look: &Look, out: &mut Vec<u8>) -> Result<(), RunError>
    ensures text { OnOk result (out.new.items ≡ out.old.items
        ++ asked_text book.now.house book.now.history look.now.totals look.now.trade) }
    ensures live { OnOk result (IfSome look.now.trade
        (λ number. is_traced book.now.history number ≡ true)) }
    ensures none { IfErr result (λ e. IsUntold book.now.history look.now.trade e) }
{
    if let Some(number) = look.trade {
        append_trace(alloc, book, number, out)?;
    } else if !look.totals {
        return Ok(());
    }
    match totals(alloc, book, out) {
        Ok(()) => Ok(()),
        Err(_) => Err(RunError::Memory),
    }
}

/// Writes on a writer what a start would say of a journal, which is only read: how many entries it
/// says, how many bytes count, and their SHA-512; and behind that the trace of a trade and the
/// totals, if they are asked for. The house file has this digest, and ids are found under this key.
///
/// # Errors
///
/// `Unread`, where its bytes can't be read; `Refused`, with what a start would end with, and damage
/// only where it is there; `NoLiveTrade`, and want of memory. Nothing was written then. `Write`,
/// behind a front of the text.
pub fn verify<F: JournalFiles, W: Sink>(
    alloc: Global,
    files: &F,
    writer: &mut W,
    house: House,
    key: HashKey,
    pin: &HouseDigest,
    look: &Look,
) -> Result<(), LookError>
    ensures { Looks house pin.now.bytes (F.journal_at files.now look.now.journal.bytes.items)
        look.now.totals look.now.trade (W.contents writer.old) (W.contents writer.new)
        (W.failed writer.old) (W.failed writer.new) result }
{
    let file = match files.read_journal(alloc, look.journal.as_str()) {
        Ok(file) => file,
        Err(fault) => {
            drop(house);
            return Err(LookError::Unread(fault));
        }
    };
    let (book, text) = match verified(alloc, file, house, key, pin) {
        Ok(found) => found,
        Err(error) => return Err(LookError::Refused(error)),
    };
    let mut text = text;
    let asked = append_asked(alloc, &book, look, &mut text);
    drop(book);
    match asked {
        Ok(()) => {}
        Err(error) => return Err(LookError::Run(error)),
    }
    match write_whole(writer, &text) {
        Ok(()) => Ok(()),
        Err(_) => Err(LookError::Run(RunError::Write)),
    }
}
