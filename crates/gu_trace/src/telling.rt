//! What a firm is told of the entries that concern it.
ghost use Rattle.std.specs.Prelude.{◌≡◌, ◌≤◌, ◌<◌, ◌+◌, ◌^◌, ◌++◌, ℕ, List, [], length, map};
ghost use Rattle.std.specs.Prelude.{sum_by, slice_get, option_map, bytes_eq, ◌||◌, if◌then◌else◌};
ghost use Rattle.std.specs.Prelude.{true, IfOk, IfSome, OnOk, OnErr};
ghost use Rattle.std.specs.List.{All, cons_option};
ghost use Rattle.gu_base.specs.History.{numbered_as};
ghost use Rattle.gu_base.specs.Limits.{most_entries, most_parts};
ghost use Rattle.gu_base.specs.Runs.{IsRunFrom};
ghost use Rattle.gu_base.specs.declared.report.Report.{Report as ReportData};
ghost use Rattle.gu_book.specs.Limits.{IsWithinLimits, PartsWithinLimits};
ghost use Rattle.gu_trace.specs.Concerns.{concerns};
ghost use Rattle.gu_trace.specs.Filling.{told_at, told_from, told_of_numbers, filled};
ghost use Rattle.gu_trace.specs.Reports.{most_reports, report_with, report_part, shown_or_not};
ghost use Rattle.gu_trace.specs.Reports.{parts_shown, claimed_part, no_part, split_report};
ghost use Rattle.gu_trace.specs.Reports.{decision_report, change_report, reversal_report};
ghost use Rattle.gu_trace.specs.Reports.{report_of, told, entries_for, reports_for};

use crate::concern::concerns;
use crate::lookup::{deal_of, lots_at, node_at};
use gu_base::{
    AccountId, Command, Deal, Entry, FirmId, Kind, Memory, Node, NodeName, Number, Part, Report,
    ReportPart, ReportParts, Target,
};
use gu_book::{Book, entry_at};
use std::alloc::Global;

/// How many reports a reading has at most.
pub const MOST_REPORTS: usize = 100;

/// What kind of report it is.
#[derive(Clone, Copy)]
struct Codes {
    /// AllocReportType (794).
    kind: u8,
    /// AllocTransType (71): 0 new, 2 cancel, 6 reversal.
    trans: u8,
}

/// What is reported of each command.
const ACCEPT: Codes = Codes { kind: 9, trans: 0 };

const GIVE_UP: Codes = Codes { kind: 15, trans: 0 };

const TAKE_UP: Codes = Codes { kind: 16, trans: 0 };

const REFUSE: Codes = Codes { kind: 10, trans: 0 };

const CANCEL: Codes = Codes { kind: 10, trans: 2 };

const INITIATE: Codes = Codes { kind: 14, trans: 6 };

const DECLINE: Codes = Codes { kind: 10, trans: 6 };

const REVERSE: Codes = Codes { kind: 17, trans: 6 };

/// The report of an entry with what the table says of its command.
fn report(
    number: Number,
    e: &Entry,
    codes: Codes,
    target: Target,
    lots: u64,
    parts: Vec<ReportPart>,
    deal: Deal,
) -> Report
    ensures { result ≡ report_with (numbered_as number e.now) codes.kind codes.trans target lots
        parts.items deal }
{
    Report {
        number,
        kind: codes.kind,
        status: e.status,
        trans: codes.trans,
        target,
        instrument: deal.instrument,
        side: deal.side,
        lots,
        parts: ReportParts::from_vec(parts),
    }
}

/// Whether a part of a Split is shown to the firm: the owner sees all parts, another firm those
/// that are given to it.
fn is_shown(firm: &FirmId, by: &FirmId, part: &Part) -> bool
    ensures { result ≡ (bytes_eq by.now firm.now || bytes_eq part.now.firm firm.now) }
{
    *by == *firm || part.firm == *firm
}

/// The account that is shown of a part: that of an own part.
fn account_shown(by: &FirmId, part: &Part) -> Option<AccountId>
    ensures { result ≡ (if bytes_eq part.now.firm by.now then part.now.account else None) }
{
    if part.firm == *by { part.account } else { None }
}

/// The part with this place in its Split, counted from 1, as a report shows it.
fn report_part(number: Number, i: u8, by: &FirmId, part: &Part) -> ReportPart
    requires { i ≤ 100 }
    ensures { result ≡ report_part number i by.now part.now }
{
    ReportPart {
        name: NodeName::in_entry(number, i),
        lots: part.lots,
        firm: part.firm,
        account: account_shown(by, part),
    }
}

/// The same, if it is shown to the firm.
fn part_shown(firm: &FirmId, number: Number, i: u8, by: &FirmId, part: &Part) -> Option<ReportPart>
    requires { i ≤ 100 }
    ensures { result ≡ shown_or_not firm.now number i by.now part.now }
{
    if is_shown(firm, by, part) {
        Some(report_part(number, i, by, part))
    } else {
        None
    }
}

/// Of the parts of a Split those that a report shows to the firm.
fn parts_shown(
    alloc: Global,
    firm: &FirmId,
    number: Number,
    by: &FirmId,
    parts: &[Part],
) -> Result<Vec<ReportPart>, Memory>
    requires { length parts.now ≤ most_parts }
    ensures { IfOk result (λ v. v.items ≡ parts_shown firm.now number by.now parts.now) }
{
    let mut shown = Vec::new(alloc);
    for place in 0..parts.len() {
        match part_shown(firm, number, place as u8 + 1, by, &parts[place]) {
            Some(part) => shown.push(part)?,
            None => {}
        }
    }
    Ok(shown)
}

/// The lots of these parts.
fn lots_of(parts: &[ReportPart]) -> u64
    requires { sum_by (λ p. p.lots) parts.now < 2 ^ 64 }
    ensures { result ≡ sum_by (λ p. p.lots) parts.now }
{
    parts.iter().map(|p| p.lots).sum()
}

/// The report of a Split.
fn split_report(
    alloc: Global,
    entries: &[Entry],
    firm: &FirmId,
    number: Number,
    e: &Entry,
    node: NodeName,
    parts: &[Part],
) -> Result<Option<Report>, Memory>
    requires { PartsWithinLimits parts.now }
    ensures { IfOk result
        (λ o. o ≡ split_report entries.now firm.now (numbered_as number e.now) node parts.now) }
{
    let Some(deal) = deal_of(entries, &node) else {
        return Ok(None);
    };
    let shown = parts_shown(alloc, firm, number, &e.firm, parts)?;
    let lots = lots_of(shown.as_slice());
    let codes = if e.firm.gives_up(parts) {
        GIVE_UP
    } else {
        ACCEPT
    };
    Ok(Some(report(number, e, codes, Target::Node(node), lots, shown, deal)))
}

/// What a Claim shows its taker: the part in the account of the claim.
fn claimed_part(
    alloc: Global,
    firm: &FirmId,
    account: &AccountId,
    x: &Node,
) -> Result<Vec<ReportPart>, Memory>
    ensures { IfOk result (λ v. v.items ≡ claimed_part firm.now account.now x.now) }
{
    let mut shown = Vec::new(alloc);
    if let Kind::Given { taker, .. } = &x.kind {
        if *taker == *firm {
            shown.push(ReportPart {
                name: x.name,
                lots: x.lots,
                firm: *firm,
                account: Some(*account),
            })?;
        }
    }
    Ok(shown)
}

/// The report of a Claim.
fn claim_report(
    alloc: Global,
    entries: &[Entry],
    firm: &FirmId,
    number: Number,
    e: &Entry,
    node: NodeName,
    account: &AccountId,
) -> Result<Option<Report>, Memory>
    ensures { IfOk result (λ o. o
        ≡ decision_report entries.now (numbered_as number e.now) 16 0 node
        (claimed_part firm.now account.now)) }
{
    let Some(deal) = deal_of(entries, &node) else {
        return Ok(None);
    };
    let Some(x) = node_at(entries, &node) else {
        return Ok(None);
    };
    let shown = claimed_part(alloc, firm, account, &x)?;
    Ok(Some(report(number, e, TAKE_UP, Target::Node(node), x.lots, shown, deal)))
}

/// The report of a Refuse or a Cancel, which shows no parts.
fn give_back_report(
    alloc: Global,
    entries: &[Entry],
    number: Number,
    e: &Entry,
    codes: Codes,
    node: NodeName,
) -> Option<Report>
    ensures { result ≡ decision_report entries.now (numbered_as number e.now) codes.kind codes.trans
        node no_part }
{
    let Some(deal) = deal_of(entries, &node) else {
        return None;
    };
    let Some(lots) = lots_at(entries, &node) else {
        return None;
    };
    Some(report(
        number,
        e,
        codes,
        Target::Node(node),
        lots,
        Vec::new(alloc),
        deal,
    ))
}

/// The report of a change to the firm; `None` of another command.
fn change_report(
    alloc: Global,
    entries: &[Entry],
    firm: &FirmId,
    number: Number,
    e: &Entry,
) -> Result<Option<Report>, Memory>
    requires { IsWithinLimits e.now.command }
    ensures { IfOk result
        (λ o. o ≡ change_report entries.now firm.now (numbered_as number e.now) e.now.command) }
{
    match &e.command {
        Command::Trade {
            instrument,
            side,
            lots,
            ..
        } => {
            let deal = Deal {
                instrument: *instrument,
                side: *side,
            };
            let root = Target::Node(NodeName::in_entry(number, 0));
            Ok(Some(report(number, e, ACCEPT, root, *lots, Vec::new(alloc), deal)))
        }
        Command::Split { node, parts } => {
            split_report(alloc, entries, firm, number, e, *node, parts.as_slice())
        }
        Command::Claim { node, account } => {
            claim_report(alloc, entries, firm, number, e, *node, account)
        }
        Command::Refuse { node } => {
            Ok(give_back_report(alloc, entries, number, e, REFUSE, *node))
        }
        Command::Cancel { node } => {
            Ok(give_back_report(alloc, entries, number, e, CANCEL, *node))
        }
        _ => Ok(None),
    }
}

/// The report of an Initiate, Decline or Reverse of the change with the number `named`: its lots
/// are those of that change's report.
fn reversal_report(
    alloc: Global,
    entries: &[Entry],
    firm: &FirmId,
    number: Number,
    e: &Entry,
    codes: Codes,
    named: Number,
) -> Result<Option<Report>, Memory>
    requires within { All (λ e. IsWithinLimits e.command) entries.now }
    requires reversal { codes.trans ≡ 6 }
    ensures { IfOk result (λ o.
        o ≡ reversal_report entries.now firm.now (numbered_as number e.now) codes.kind named) }
{
    let Some(change) = entry_at(entries, named) else {
        return Ok(None);
    };
    let Some(told) = change_report(alloc, entries, firm, named, change)? else {
        return Ok(None);
    };
    let deal = Deal {
        instrument: told.instrument,
        side: told.side,
    };
    let target = Target::Entry(named);
    Ok(Some(report(number, e, codes, target, told.lots, Vec::new(alloc), deal)))
}

/// The report of an entry to the firm.
fn report_of(
    alloc: Global,
    entries: &[Entry],
    firm: &FirmId,
    number: Number,
    e: &Entry,
) -> Result<Option<Report>, Memory>
    requires within { All (λ e. IsWithinLimits e.command) entries.now }
    requires change { IsWithinLimits e.now.command }
    ensures { IfOk result
        (λ o. o ≡ report_of entries.now firm.now (numbered_as number e.now) e.now.command) }
{
    match &e.command {
        Command::Initiate { entry } => {
            reversal_report(alloc, entries, firm, number, e, INITIATE, *entry)
        }
        Command::Decline { entry } => {
            reversal_report(alloc, entries, firm, number, e, DECLINE, *entry)
        }
        Command::Reverse { entry } => {
            reversal_report(alloc, entries, firm, number, e, REVERSE, *entry)
        }
        _ => change_report(alloc, entries, firm, number, e),
    }
}

/// What the firm is told of the entry at this place of the history, counted from 0: nothing where
/// it doesn't concern the firm.
fn told(
    alloc: Global,
    house: &FirmId,
    entries: &[Entry],
    firm: &FirmId,
    place: usize,
) -> Result<Option<Report>, Memory>
    requires few { length entries.now ≤ most_entries }
    requires there { place < length entries.now }
    requires within { All (λ e. IsWithinLimits e.command) entries.now }
    ensures value { IfOk result (λ o. Some o
        ≡ option_map (λ e. told house.now entries.now firm.now (numbered_as (place + 1) e))
        (slice_get entries.now place)) }
    ensures memory { OnErr result
        (IfSome (slice_get entries.now place)
        (λ e. concerns house.now entries.now firm.now e.firm e.command ≡ true)) }
{
    let e = &entries[place];
    if concerns(house, entries, firm, &e.firm, &e.command) {
        report_of(alloc, entries, firm, Number::at_place(place), e)
    } else {
        Ok(None)
    }
}

/// Adds what the firm is told of the entry at this place.
fn tell(
    alloc: Global,
    book: &Book,
    firm: &FirmId,
    place: usize,
    found: &mut Vec<Report>,
) -> Result<(), Memory>
    requires there { place < length book.now.history }
    ensures value { OnOk result (found.new.items ≡ found.old.items
        ++ cons_option (told_at book.now.house.house book.now.history firm.now place) []) }
    ensures memory { OnErr result ((after : ℕ) → after ≤ place
        → 1 ≤ length (entries_for book.now.house.house book.now.history firm.now after)) }
{
    let house = book.house().house();
    let outcome = told(alloc, &house, book.history(), firm, place)?;
    match outcome {
        Some(report) => found.push(report)?,
        None => {}
    }
    Ok(())
}

/// Adds what the firm is told of the entries with these numbers, until there are 100 reports.
pub(crate) fn tell_numbers(
    alloc: Global,
    book: &Book,
    firm: &FirmId,
    numbers: &[Number],
    found: &mut Vec<Report>,
) -> Result<(), Memory>
    requires room { length found.old.items ≤ most_reports }
    requires there { All (λ n. n ≤ length book.now.history) numbers.now }
    ensures value { OnOk result ((others : List ReportData) → filled found.new.items others
        ≡ filled found.old.items
        (told_of_numbers book.now.house.house book.now.history firm.now numbers.now ++ others)) }
    ensures room { OnOk result (length found.new.items ≤ most_reports) }
    ensures memory { OnErr result ((after : ℕ) → All (λ n. after < n) numbers.now
        → 1 ≤ length (entries_for book.now.house.house book.now.history firm.now after)) }
{
    for number in numbers {
        if found.len() == MOST_REPORTS {
            return Ok(());
        }
        tell(alloc, book, firm, number.get() as usize - 1, found)?;
    }
    Ok(())
}

/// Adds what the firm is told of the entries from this place on, until there are 100 reports.
pub(crate) fn tell_from(
    alloc: Global,
    book: &Book,
    firm: &FirmId,
    from: usize,
    found: &mut Vec<Report>,
) -> Result<(), Memory>
    requires room { length found.old.items ≤ most_reports }
    ensures value { OnOk result (found.new.items ≡ filled found.old.items
        (told_from book.now.house.house book.now.history firm.now from)) }
    ensures run { IsRunFrom book.now.house [] book.now.history }
    ensures memory { OnErr result ((after : ℕ) → after ≤ from
        → 1 ≤ length (entries_for book.now.house.house book.now.history firm.now after)) }
{
    for place in from..book.history().len() {
        if found.len() == MOST_REPORTS {
            return Ok(());
        }
        tell(alloc, book, firm, place, found)?;
    }
    Ok(())
}

/// The reports to a firm of the first 100 entries numbered above `after` that concern it, in their
/// order.
///
/// A Trade concerns the house and the firm that it is for; a Split its owner and each firm that it
/// gives a part; a Claim, Refuse or Cancel giver and taker; an Agree or a Raise nobody; an
/// Initiate, Decline or Reverse those whom the change that it names concerns. An entry is reported
/// whether it is reversed or not, with the status with which it was accepted. A Split shows its
/// owner all parts and another firm those that are given to it, a Claim shows its taker its part;
/// no other report shows parts.
///
/// # Errors
///
/// `Memory` where a growth was refused, and only where an entry above the number concerns the firm.
pub fn reports(alloc: Global, book: &Book, firm: &FirmId, after: u32) -> Result<Vec<Report>, Memory>
    ensures value { IfOk result
        (λ v. v.items ≡ reports_for book.now.house.house book.now.history firm.now after) }
    ensures each { IfOk result (λ v. map (λ r. r.number) v.items
        ≡ map (λ r. r.number) (entries_for book.now.house.house book.now.history firm.now after)) }
    ensures memory { OnErr result
        (1 ≤ length (entries_for book.now.house.house book.now.history firm.now after)) }
    ensures few { IfOk result (λ v. length v.items ≤ most_reports) }
    ensures short { IfOk result (λ v. All (λ r. length r.parts ≤ most_parts) v.items) }
{
    let mut found = Vec::new(alloc);
    tell_from(alloc, book, firm, after as usize, &mut found)?;
    Ok(found)
}
