//! Questions of what is told of a day: reports, as lines or in frames, a trace, and totals. What
//! writes says whether it could.

use crate::frames::frames;
use crate::memory::tell_refused;
use crate::words::{count_of, first_word, number_of, shown};
use gu_base::{FirmId, Memory, Number, Report, ReportPart, Target};
use gu_batch::{Counted, write_totals};
use gu_book::Book;
use gu_trace::{TraceError, reports, totals, trace};
use jiff::Timestamp;
use std::alloc::Global;

/// What stands in `out` before a text is asked for.
const BEFORE: &[u8] = b"before";

/// 09:00:30 on 2 March 2026, in seconds since 1970: when frames are sent.
const SENT: i64 = 1_772_442_030;

/// `PART LOTS FIRM ACCOUNT`, and `-` where a part shows no account
fn show_part(rt: &HostRuntime, part: &ReportPart) -> bool {
    if print!(rt; "  {} {} {} ", part.name, part.lots, part.firm).is_err() {
        return false;
    }
    match part.account {
        Some(account) => println!(rt; "{account}").is_ok(),
        None => println!(rt; "-").is_ok(),
    }
}

/// What a report speaks of.
fn show_target(rt: &HostRuntime, target: Target) -> bool {
    match target {
        Target::Node(name) => print!(rt; "{name}").is_ok(),
        Target::Entry(number) => print!(rt; "entry {number}").is_ok(),
    }
}

/// `NUMBER KIND STATUS TRANS TARGET INSTRUMENT SIDE LOTS`
fn show_head(rt: &HostRuntime, report: &Report) -> bool {
    print!(rt;
        "{} {} {:?} {} ",
        report.number, report.kind, report.status, report.trans
    )
    .is_ok()
        && show_target(rt, report.target)
        && println!(rt; " {} {:?} {}", report.instrument, report.side, report.lots).is_ok()
}

/// A report's head, and then its parts.
fn show_report(rt: &HostRuntime, report: &Report) -> bool {
    if !show_head(rt, report) {
        return false;
    }
    for part in report.parts.as_slice() {
        if !show_part(rt, part) {
            return false;
        }
    }
    true
}

/// The firm and the number behind which it asks for reports.
fn reader_of(words: &[u8]) -> Option<(FirmId, u32)> {
    let (firm, after) = first_word(words);
    let after = u32::try_from(count_of(after)?).ok()?;
    Some((FirmId::new(firm)?, after))
}

/// Writes these reports.
fn show_found(rt: &HostRuntime, found: &[Report]) -> bool {
    if println!(rt; "{} reports", found.len()).is_err() {
        return false;
    }
    for report in found {
        if !show_report(rt, report) {
            return false;
        }
    }
    true
}

/// The reports to a firm from a number on. Where no memory is found they are asked for once more.
fn reports_to(
    rt: &HostRuntime,
    alloc: Global,
    book: &Book,
    firm: &FirmId,
    after: u32,
) -> Result<Vec<Report>, Memory> {
    match reports(alloc, book, firm, after) {
        Ok(found) => Ok(found),
        Err(_) => {
            tell_refused(rt);
            reports(alloc, book, firm, after)
        }
    }
}

/// The frames of these reports to a firm. Where no memory is found they are made once more.
fn frames_to(
    rt: &HostRuntime,
    alloc: Global,
    house: FirmId,
    firm: FirmId,
    found: &[Report],
    moment: Timestamp,
) -> Result<Vec<u8>, Memory> {
    match frames(alloc, house, firm, found, moment) {
        Ok(sent) => Ok(sent),
        Err(_) => {
            tell_refused(rt);
            frames(alloc, house, firm, found, moment)
        }
    }
}

/// Writes the frames of these reports to a firm, as a session sends them at 09:00:30 on 2 March
/// 2026.
fn show_sent(rt: &HostRuntime, alloc: Global, book: &Book, firm: FirmId, found: &[Report]) -> bool {
    let house = book.house().house();
    let Ok(moment) = Timestamp::from_second(SENT) else {
        return rt.println("what?").is_ok();
    };
    match frames_to(rt, alloc, house, firm, found, moment) {
        Ok(sent) => {
            let is_shown = print!(rt; "{}", shown(sent.as_slice())).is_ok();
            drop(sent);
            is_shown
        }
        Err(_) => false,
    }
}

/// Writes the reports to a firm from a number on, or their frames.
fn show_reports(
    rt: &HostRuntime,
    alloc: Global,
    book: &Book,
    words: &[u8],
    as_frames: bool,
) -> bool {
    let Some((firm, after)) = reader_of(words) else {
        return rt.println("what?").is_ok();
    };
    match reports_to(rt, alloc, book, &firm, after) {
        Ok(found) => {
            let is_shown = if as_frames {
                show_sent(rt, alloc, book, firm, found.as_slice())
            } else {
                show_found(rt, found.as_slice())
            };
            drop(found);
            is_shown
        }
        Err(_) => false,
    }
}

/// Writes a text that stands behind what was there before, or that it doesn't.
fn show_behind(rt: &HostRuntime, out: &[u8]) -> bool {
    match out.strip_prefix(BEFORE) {
        Some(text) => print!(rt; "{}", shown(text)).is_ok(),
        None => println!(rt; "changed what was there").is_ok(),
    }
}

/// Writes the trace of a trade, behind what is there. Where no memory is found it sees that nothing
/// was written, and asks again.
fn show_trace_behind(
    rt: &HostRuntime,
    alloc: Global,
    book: &Book,
    trade: Number,
    out: &mut Vec<u8>,
) -> bool {
    for _again in 0..2 {
        match trace(alloc, book, trade, out) {
            Ok(()) => return show_behind(rt, out.as_slice()),
            Err(TraceError::NoLiveTrade) => {
                return println!(rt; "no live trade").is_ok() && show_behind(rt, out.as_slice());
            }
            Err(TraceError::Memory) => tell_refused(rt),
        }
        if out.as_slice() != BEFORE {
            return println!(rt; "changed without memory").is_ok();
        }
    }
    rt.println("no memory").is_ok()
}

/// Writes the totals, behind what is there. Where no memory is found it sees that nothing was
/// written, and asks again.
fn show_totals_behind(rt: &HostRuntime, alloc: Global, book: &Book, out: &mut Vec<u8>) -> bool {
    for _again in 0..2 {
        match totals(alloc, book, out) {
            Ok(()) => return show_behind(rt, out.as_slice()),
            Err(_) => tell_refused(rt),
        }
        if out.as_slice() != BEFORE {
            return println!(rt; "changed without memory").is_ok();
        }
    }
    rt.println("no memory").is_ok()
}

/// What stands there before a text is asked for. Where no memory is found it is asked for once
/// more.
fn text_before(rt: &HostRuntime, alloc: Global) -> Result<Vec<u8>, Memory> {
    match BEFORE.to_vec(alloc) {
        Ok(text) => Ok(text),
        Err(_) => {
            tell_refused(rt);
            BEFORE.to_vec(alloc)
        }
    }
}

/// Writes the trace of a trade, and where none is named the totals.
fn show_text(rt: &HostRuntime, alloc: Global, book: &Book, trade: Option<Number>) -> bool {
    match text_before(rt, alloc) {
        Ok(mut out) => {
            let is_shown = match trade {
                Some(trade) => show_trace_behind(rt, alloc, book, trade, &mut out),
                None => show_totals_behind(rt, alloc, book, &mut out),
            };
            drop(out);
            is_shown
        }
        Err(_) => false,
    }
}

/// The totals as a server writes them in the end, with a writer of its own. `None` where no memory
/// is found.
fn written(alloc: Global, book: &Book) -> Option<Vec<u8>> {
    let mut writer = Counted::new(Vec::new(alloc));
    let is_written = write_totals(alloc, book, &mut writer).is_ok();
    let text = writer.into_inner();
    if is_written {
        Some(text)
    } else {
        drop(text);
        None
    }
}

/// Writes the totals as a server writes them in the end. Where no memory is found it asks again.
fn show_written(rt: &HostRuntime, alloc: Global, book: &Book) -> bool {
    for _again in 0..2 {
        match written(alloc, book) {
            Some(text) => return print!(rt; "{}", shown(text.as_slice())).is_ok(),
            None => tell_refused(rt),
        }
    }
    rt.println("no memory").is_ok()
}

/// Writes what a question of this first word asks for. Whether it could.
pub(crate) fn answer(
    rt: &HostRuntime,
    alloc: Global,
    book: &Book,
    what: &[u8],
    rest: &[u8],
) -> bool {
    if what == b"reports".as_slice() {
        return show_reports(rt, alloc, book, rest, false);
    }
    if what == b"frames".as_slice() {
        return show_reports(rt, alloc, book, rest, true);
    }
    if what == b"totals".as_slice() {
        return show_text(rt, alloc, book, None);
    }
    if what == b"written".as_slice() {
        return show_written(rt, alloc, book);
    }
    match number_of(rest) {
        Some(trade) => show_text(rt, alloc, book, Some(trade)),
        None => rt.println("what?").is_ok(),
    }
}
