//! The house file, line by line.
ghost use Rattle.std.specs.Prelude.{◌≡◌, Some, None, Ok, MatchResult, MatchOption};
ghost use Rattle.gu_parties.specs.Words.{words, lines};
ghost use Rattle.gu_parties.specs.Causes.{house_cause, version_cause};
ghost use Rattle.gu_parties.specs.Table.{is_opening};
ghost use Rattle.gu_parties.specs.declared.fault.Cause.TheVariants.{BadVersion};
ghost use Rattle.gu_parties.specs.HouseFile.{second_word};
ghost use Rattle.gu_parties.specs.Parsing.{Gives, GivesBehind, StopsBehind, house_behind, Answers};
ghost use Rattle.gu_parties.specs.Steps.{house_alone};

use crate::fault::{Cause, HouseError};
use crate::house::House;
use crate::words::{first_line, first_word};
use gu_base::FirmId;
use std::alloc::Global;

/// The most lines that a house file may have.
const MAX_LINES: u32 = 100_000;

/// Whether the agreements of a file with this line 1 are those of the opening; `None` where that is
/// the line 1 of no version.
fn version_opens(line: &[u8]) -> Option<bool>
    ensures { MatchOption result (version_cause (Some line.now) ≡ Some BadVersion)
        (λ opens. (version_cause (Some line.now) ≡ None) × (opens ≡ is_opening line.now)) }
{
    if line == b"GIVEUP 2".as_slice() {
        return Some(true);
    }
    if line == b"GIVEUP 1".as_slice() {
        return Some(false);
    }
    None
}

/// The house that line 2 names.
#[tactic(auto, using(crate::proofs::LongLine::long_names))]
fn house_named(line: &[u8]) -> Result<FirmId, Cause>
    ensures { MatchResult result
        (λ house. (house_cause (Some (words line.now)) ≡ None)
        × (second_word (Some (words line.now)) ≡ house))
        (λ cause. house_cause (Some (words line.now)) ≡ Some cause) }
{
    let (word, rest) = first_word(line);
    if word != b"HOUSE".as_slice() {
        return Err(Cause::NoHouse);
    }
    let Some(rest) = rest else {
        return Err(Cause::BadLine);
    };
    let (name, more) = first_word(rest);
    if more.is_some() {
        return Err(Cause::BadLine);
    }
    match FirmId::new(name) {
        Some(house) => Ok(house),
        None => Err(Cause::BadName),
    }
}

/// Adds the lines from line 3 on to the table of a house with nothing else.
fn add_lines(house: &mut House, text: &[u8]) -> Result<(), HouseError>
    requires alone { house.now ≡ house_alone house.now.house }
    ensures { MatchResult result
        (λ _. house_behind house.old.house (lines text.now) ≡ Ok house.new)
        (λ e. StopsBehind e.cause e.line house.old.house (lines text.now)) }
{
    let mut rest = text;
    let mut line = 3;
    while let Some((here, behind)) = first_line(rest) {
        if line > MAX_LINES {
            return Err(HouseError {
                line,
                cause: Cause::TooManyLines,
            });
        }
        match house.add_line(here) {
            Ok(()) => {}
            Err(cause) => return Err(HouseError { line, cause }),
        }
        line += 1;
        rest = behind;
    }
    Ok(())
}

/// Reads the lines from line 3 on, behind a line 2 that names this house, of a file whose
/// agreements are those of the opening or are fixed.
fn read_rest(alloc: Global, opens: bool, name: FirmId, text: &[u8]) -> Result<House, HouseError>
    ensures { GivesBehind opens result name (lines text.now) }
{
    let mut house = House::alone(alloc, name);
    match add_lines(&mut house, text) {
        Ok(()) => {
            house.open_if(alloc, opens);
            Ok(house)
        }
        Err(fault) => {
            drop(house);
            Err(fault)
        }
    }
}

/// Reads the lines of a text.
fn read_file(alloc: Global, text: &[u8]) -> Result<House, HouseError>
    ensures { Gives result (lines text.now) }
{
    let Some((version, rest)) = first_line(text) else {
        return Err(HouseError {
            line: 1,
            cause: Cause::BadVersion,
        });
    };
    let Some(opens) = version_opens(version) else {
        return Err(HouseError {
            line: 1,
            cause: Cause::BadVersion,
        });
    };
    let Some((second, rest)) = first_line(rest) else {
        return Err(HouseError {
            line: 2,
            cause: Cause::NoHouse,
        });
    };
    match house_named(second) {
        Ok(house) => read_rest(alloc, opens, house, rest),
        Err(cause) => Err(HouseError { line: 2, cause }),
    }
}

impl House {
    /// The table of a house file, whose form `docs/profile.md` describes in "The house file". The
    /// text may be any bytes.
    ///
    /// # Errors
    ///
    /// The first line that has a cause, with its first cause. That is `Memory` only where a growth
    /// was refused, at a line up to which no line has another.
    #[tactic(auto, unfolding(crate::specs::Parsing::Answers))]
    pub fn parse(alloc: Global, text: &[u8]) -> Result<House, HouseError>
        ensures { Answers result text.now }
    {
        read_file(alloc, text)
    }
}
