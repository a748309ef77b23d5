//! The command `statement`, which writes what a book holds.

ghost use Rattle.std.specs.Prelude.{◌≡◌, true, false, Some, codes, IsTrue, IfOk, IfErr};
ghost use Rattle.clap.specs.Words.{first_value, found_of, rule_of};
ghost use Rattle.gu_command.specs.Faults.{no_memory};
ghost use Rattle.gu_command.specs.Lines.{Makes, statement, firm_rule, source_rule};
ghost use Rattle.gu_command.specs.Lines.{is_line_fault, IsLineOf, HasWorkers};
ghost use Rattle.gu_command.specs.Places.{told_among};

use crate::fault::Fault;
use crate::line::{JOURNAL, Line, STATEMENT, house_command, option, with_option};
use crate::options::word_of;
use clap::{Arg, ArgMatches, Command};
use std::alloc::Global;

/// The name by which `ArgMatches` gives the firm.
const FIRM: &str = "FIRM";

/// Of which book a statement is, and for whom.
#[derive(Drop)]
pub struct Stating {
    /// The path of the house file.
    pub house: String,
    /// `--firm FIRM`: for this firm alone.
    pub firm: Option<String>,
    /// `--journal JOURNAL`: of the book of the journal at this path, and not of what comes on
    /// standard input.
    pub journal: Option<String>,
}

/// The option `--firm`.
fn firm_option<'a>(alloc: Global) -> Arg<'a>
    ensures rule { rule_of result ≡ firm_rule }
    ensures local { result.global ≡ false }
{
    option(
        alloc,
        FIRM,
        "firm",
        "The firm of which it is, with what that may see; the whole book if not given",
        false,
    )
}

/// The option `--journal`.
fn source_option<'a>(alloc: Global) -> Arg<'a>
    ensures rule { rule_of result ≡ source_rule }
    ensures local { result.global ≡ false }
{
    option(
        alloc,
        JOURNAL,
        "journal",
        "The journal, or a copy, that is read in place of standard input; it is only read",
        false,
    )
}

/// The command `statement`.
pub(crate) fn statement_command<'a>(alloc: Global) -> Result<Command<'a>, Fault>
    ensures { Makes statement result }
{
    let command = house_command(
        alloc,
        STATEMENT,
        "Reads FIX on standard input, or a journal, and writes what the book holds as JSON Lines",
    );
    let command = with_option(command, firm_option(alloc));
    with_option(command, source_option(alloc))
}

/// What the words behind `statement` ask for.
pub(crate) fn statement_line(
    alloc: Global,
    house: String,
    given: &ArgMatches<'_>,
) -> Result<Line, Fault>
    requires { first_value (found_of given.now) (codes "HOUSE") ≡ Some house.bytes.items }
    ensures read { IfOk result (IsLineOf (codes "statement") (first_value (found_of given.now))
        (told_among (found_of given.now))) }
    ensures workers { IfOk result HasWorkers }
    ensures statement { IfErr result (λ e. e ≡ no_memory) }
    ensures fault { IfErr result (λ e. IsTrue (is_line_fault e)) }
{
    let firm = word_of(alloc, given.get_str(FIRM))?;
    let journal = word_of(alloc, given.get_str(JOURNAL))?;
    Ok(Line::Statement(Stating {
        house,
        firm,
        journal,
    }))
}
