//! Reports as a session sends them: a frame for each.

use gu_base::{FirmId, Memory, Report};
use gu_codec::{Header, write_frame};
use gu_message::{SendingTime, msg_types, report, shows_few_parts};
use jiff::Timestamp;
use std::alloc::Global;

/// Appends the frame of a report to a firm, as a session sends it at a moment, if it can be
/// written.
fn append_frame(
    alloc: Global,
    out: &mut Vec<u8>,
    house: FirmId,
    firm: FirmId,
    number: u64,
    told: &Report,
    moment: Timestamp,
) -> Result<(), Memory> {
    if moment.as_nanosecond() < 0 || !shows_few_parts(told) {
        return Ok(());
    }
    let mut body = Vec::new(alloc);
    report(&mut body, told, moment)?;
    let time = SendingTime::new(moment);
    let header = Header {
        kind: msg_types::ALLOCATION_REPORT,
        sender: house,
        target: firm,
        number,
        sent: time.as_bytes(),
        resent: None,
    };
    write_frame(out, &header, body.as_slice())
}

/// Writes `|` for each SOH.
fn set_bars(bytes: &mut [u8]) {
    for byte in bytes {
        if *byte == 1 {
            *byte = b'|';
        }
    }
}

/// The frames of reports to a firm, a line for each, with `|` for SOH. Their numbers begin behind
/// that of the Logon.
pub(crate) fn frames(
    alloc: Global,
    house: FirmId,
    firm: FirmId,
    told: &[Report],
    moment: Timestamp,
) -> Result<Vec<u8>, Memory> {
    let mut out = Vec::new(alloc);
    let mut number = 2u64;
    for report in told {
        append_frame(alloc, &mut out, house, firm, number, report, moment)?;
        out.push(b'\n')?;
        number = number.saturating_add(1);
    }
    set_bars(&mut out);
    Ok(out)
}
