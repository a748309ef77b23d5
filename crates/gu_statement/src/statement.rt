//! The statement of a book, for its house or for one firm.
ghost use Rattle.gu_statement.specs.Sheets.{IsSheet};

use crate::branches::Branches;
use crate::hearing::{Heard, hear};
use crate::pieces::flush;
use crate::sheet::Sheet;
use gu_base::FirmId;
use gu_batch::{RunError, Sink, Source};
use gu_parties::House;
use std::alloc::Global;
use thiserror::Error;

/// Why there is no statement.
#[derive(Clone, Copy, Debug, PartialEq, Eq, Error)]
pub enum StatementError {
    /// The house table has no such firm.
    #[error("no firm {firm}")]
    NoFirm { firm: FirmId },
    /// The stream ended badly, a write failed, or memory ran out.
    #[error(transparent)]
    Run(RunError),
}

/// Writes all lines.
fn write_lines<W: Sink>(
    sheet: &Sheet<'_>,
    out: &mut Vec<u8>,
    writer: &mut W,
) -> Result<(), RunError>
    requires { IsSheet sheet.now }
{
    sheet.write_control(out, writer)?;
    sheet.write_entries(out, writer)?;
    sheet.write_refused(out, writer)?;
    sheet.write_nodes(out, writer)?;
    sheet.write_positions(out, writer)?;
    sheet.write_balances(out, writer)?;
    sheet.write_hops(out, writer)?;
    sheet.write_agreements(out, writer)?;
    sheet.write_offers(out, writer)?;
    sheet.write_reversals(out, writer)?;
    flush(out, writer)
}

/// Writes the statement of a book: for its house, or for this firm what it may see
/// (`docs/statement.md`).
///
/// # Errors
///
/// `Write` where a write failed, `Memory` where a growth was refused: a front of the text has been
/// written then.
pub fn write_statement<W: Sink>(
    alloc: Global,
    heard: &Heard,
    whose: Option<FirmId>,
    writer: &mut W,
) -> Result<(), RunError> {
    let Ok(branches) = Branches::of(alloc, heard.book.history()) else {
        return Err(RunError::Memory);
    };
    let Ok(live) = heard.book.live(alloc) else {
        return Err(RunError::Memory);
    };
    let sheet = Sheet {
        alloc,
        book: &heard.book,
        live: live.as_slice(),
        times: &heard.times,
        refused: heard.refused.as_ref(),
        branches: &branches,
        whose,
    };
    let mut out = Vec::new(alloc);
    write_lines(&sheet, &mut out, writer)
}

/// The firm that is asked for, where the house table doesn't have it.
fn unknown(house: &House, whose: &Option<FirmId>) -> Option<FirmId> {
    match whose {
        Some(firm) if !house.firm(firm) => Some(*firm),
        _ => None,
    }
}

/// Reads a stream to its end as a batch, without writing its answers, and then writes the statement
/// of the book behind it.
///
/// # Errors
///
/// `NoFirm` where the house table doesn't have the firm: nothing was read then. Those of a batch,
/// and nothing has been written then, but for `Write` and `Memory`: a front of the text may be.
pub fn run_statement<R: Source, W: Sink>(
    alloc: Global,
    reader: &mut R,
    writer: &mut W,
    house: House,
    whose: Option<FirmId>,
) -> Result<(), StatementError> {
    if let Some(firm) = unknown(&house, &whose) {
        drop(house);
        return Err(StatementError::NoFirm { firm });
    }
    let heard = match hear(alloc, reader, house, whose) {
        Ok(heard) => heard,
        Err(e) => return Err(StatementError::Run(e)),
    };
    match write_statement(alloc, &heard, whose, writer) {
        Ok(()) => Ok(()),
        Err(e) => Err(StatementError::Run(e)),
    }
}
