//! AllocationReport (AS): what a firm is told of an entry that concerns it.

ghost use Rattle.std.specs.Prelude.{◌≡◌, ◌↔◌, ◌≤◌, ◌≤ℤ◌, ◌+◌, ◌*◌, ◌++◌, IsTrue, OnOk, OnErr};
ghost use Rattle.std.specs.Prelude.{codes, decimal, length, pos, unsigned_abs, vec_len};
ghost use Rattle.std.specs.Prelude.{vec_capacity};
ghost use Rattle.std.specs.List.{flat_map};
ghost use Rattle.gu_base.specs.Limits.{most_parts};
ghost use Rattle.gu_codec.specs.Limits.{longest_body};
ghost use Rattle.gu_codec.specs.Tags as tag;
ghost use Rattle.gu_codec.specs.Writing.{field, fields_text};
ghost use Rattle.gu_message.specs.SendingTime.{sending_time};
ghost use Rattle.gu_message.specs.AllocationReport.{node_text, target_text, side_text};
ghost use Rattle.gu_message.specs.AllocationReport.{account_text, part_fields, shown_parts};
ghost use Rattle.gu_message.specs.AllocationReport.{entry_fields, date_in, report_fields};
ghost use Rattle.gu_message.specs.AllocationReport.{ShowsFewParts};

use crate::bodies::append_number_field;
use crate::sending_time::SendingTime;
use gu_base::{Memory, NodeName, Report, ReportPart, Side, Target};
use gu_codec::{append, append_field, tags};
use gu_life::status_code;
use itoa::Buffer;
use jiff::Timestamp;

/// No report is longer without its parts.
const ENTRY_ROOM: usize = 768;

/// No part of a report is longer.
const PART_ROOM: usize = 256;

/// Appends a field with a large number within the room that is there: 52 bytes.
fn append_lots_field(out: &mut Vec<u8>, tag: u32, lots: u64)
    requires { vec_len out.old + 52 ≤ vec_capacity out.old }
    ensures items { out.new.items ≡ out.old.items ++ field tag (decimal lots) }
    ensures len { vec_len out.new ≤ vec_len out.old + 52 }
    ensures room { vec_capacity out.old ≤ vec_capacity out.new }
{
    let mut digits = Buffer::new();
    append_field(out, tag, digits.format(lots).as_bytes());
}

/// Appends a field with the name of a node within the room that is there: 128 bytes.
fn append_node_field(out: &mut Vec<u8>, tag: u32, name: NodeName)
    requires { vec_len out.old + 128 ≤ vec_capacity out.old }
    ensures items { out.new.items ≡ out.old.items ++ field tag (node_text name) }
    ensures len { vec_len out.new ≤ vec_len out.old + 128 }
    ensures room { vec_capacity out.old ≤ vec_capacity out.new }
{
    let mut digits = Buffer::new();
    append(out, digits.format(tag).as_bytes());
    append(out, b"=");
    append(out, digits.format(name.entry().get()).as_bytes());
    append(out, b".");
    append(out, digits.format(u32::from(name.part())).as_bytes());
    append(out, b"\x01");
}

/// Appends RefAllocID (72) within the room that is there.
fn append_target(out: &mut Vec<u8>, target: Target)
    requires { vec_len out.old + 128 ≤ vec_capacity out.old }
    ensures items { out.new.items ≡ out.old.items ++ field tag.ref_alloc_id (target_text target) }
    ensures len { vec_len out.new ≤ vec_len out.old + 128 }
    ensures room { vec_capacity out.old ≤ vec_capacity out.new }
{
    match target {
        Target::Node(name) => append_node_field(out, tags::REF_ALLOC_ID, name),
        Target::Entry(number) => append_number_field(out, tags::REF_ALLOC_ID, number.get()),
    }
}

/// The text of a side.
fn side_of(side: Side) -> &'static [u8]
    ensures { result.now ≡ side_text side }
{
    match side {
        Side::Buy => b"1",
        Side::Sell => b"2",
    }
}

/// Appends the fields of a part within the room that is there.
fn append_part(out: &mut Vec<u8>, part: &ReportPart)
    requires { vec_len out.old + 256 ≤ vec_capacity out.old }
    ensures items { out.new.items ≡ out.old.items ++ fields_text (part_fields part.now) }
    ensures len { vec_len out.new ≤ vec_len out.old + 256 }
    ensures room { vec_capacity out.old ≤ vec_capacity out.new }
{
    match part.account {
        Some(account) => append_field(out, tags::ALLOC_ACCOUNT, account.as_bytes()),
        None => append_node_field(out, tags::ALLOC_ACCOUNT, part.name),
    }
    append_lots_field(out, tags::ALLOC_QTY, part.lots);
    append_field(out, tags::NO_NESTED_PARTY_IDS, b"1");
    append_field(out, tags::NESTED_PARTY_ID, part.firm.as_bytes());
    append_field(out, tags::NESTED_PARTY_ID_SOURCE, b"D");
    append_field(out, tags::NESTED_PARTY_ROLE, b"4");
}

/// Appends each part within the room that is there.
fn append_each(out: &mut Vec<u8>, parts: &[ReportPart])
    requires { vec_len out.old + 256 * length parts.now ≤ vec_capacity out.old }
    ensures items { out.new.items
        ≡ out.old.items ++ flat_map (λ p. fields_text (part_fields p)) parts.now }
    ensures len { vec_len out.new ≤ vec_len out.old + 256 * length parts.now }
{
    for part in parts {
        append_part(out, part);
    }
}

/// Appends the parts that are shown, if there are some, within the room that is there.
fn append_parts(out: &mut Vec<u8>, parts: &[ReportPart])
    requires room { vec_len out.old + (52 + 256 * length parts.now) ≤ vec_capacity out.old }
    requires few { length parts.now ≤ most_parts }
    ensures items { out.new.items ≡ out.old.items ++ fields_text (shown_parts parts.now) }
    ensures len { vec_len out.new ≤ vec_len out.old + (52 + 256 * length parts.now) }
{
    if !parts.is_empty() {
        append_number_field(out, tags::NO_ALLOCS, parts.len() as u32);
        append_each(out, parts);
    }
}

/// Appends the fields of an entry on this date within the room that is there.
fn append_entry(out: &mut Vec<u8>, report: &Report, date: &[u8])
    requires room { vec_len out.old + 768 ≤ vec_capacity out.old }
    requires date { length date.now ≤ 8 }
    ensures items { out.new.items
        ≡ out.old.items ++ fields_text (entry_fields date.now report.now) }
    ensures len { vec_len out.new ≤ vec_len out.old + 700 }
    ensures room { vec_capacity out.old ≤ vec_capacity out.new }
{
    append_number_field(out, tags::ALLOC_REPORT_ID, report.number.get());
    append_number_field(out, tags::ALLOC_TRANS_TYPE, u32::from(report.trans));
    append_number_field(out, tags::ALLOC_REPORT_TYPE, u32::from(report.kind));
    append_number_field(
        out,
        tags::ALLOC_STATUS,
        u32::from(status_code(report.status)),
    );
    append_target(out, report.target);
    append_field(out, tags::SYMBOL, report.instrument.as_bytes());
    append_field(out, tags::SIDE, side_of(report.side));
    append_lots_field(out, tags::QUANTITY, report.lots);
    append_field(out, tags::TRADE_DATE, date);
}

/// Whether a report shows at most 100 parts: the test for that condition of `report`.
pub fn shows_few_parts(report: &Report) -> bool
    ensures { IsTrue result ↔ ShowsFewParts report.now }
{
    report.parts.as_slice().len() <= usize::from(NodeName::MAX_PART)
}

/// Appends the body of the AllocationReport (AS) of a report, on the day of this moment.
///
/// AllocReportID (755), AllocTransType (71), AllocReportType (794), AllocStatus (87), RefAllocID
/// (72), Symbol (55), Side (54), Quantity (53) and TradeDate (75), the UTC date of the moment; and
/// where parts are shown NoAllocs (78), and of each AllocAccount (79), AllocQty (80) and the firm
/// that gets it (539, 524, 525, 538). Quantities are in lots (`docs/profile.md`, "Reports"). The
/// report shows at most 100 parts (`shows_few_parts`), and the moment is from 1970 on
/// (`is_moment`); so the body has at most 65,000 bytes.
///
/// # Errors
///
/// `Memory` where the room was refused; `out` is then as it was.
pub fn report(out: &mut Vec<u8>, report: &Report, moment: Timestamp) -> Result<(), Memory>
    requires few { ShowsFewParts report.now }
    requires moment { pos 0 ≤ℤ moment.nanosecond }
    ensures ok { OnOk result
        (out.new.items ≡ out.old.items
        ++ fields_text
        (report_fields (date_in (sending_time (unsigned_abs moment.nanosecond))) report.now)) }
    ensures err { OnErr result (out.new.items ≡ out.old.items) }
    ensures short { OnOk result
        (length (fields_text
        (report_fields (date_in (sending_time (unsigned_abs moment.nanosecond))) report.now))
        ≤ longest_body) }
{
    let parts = report.parts.as_slice();
    out.reserve(ENTRY_ROOM + PART_ROOM * parts.len())?;
    let time = SendingTime::new(moment);
    append_entry(out, report, time.date());
    append_parts(out, parts);
    Ok(())
}
