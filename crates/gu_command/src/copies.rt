//! The commands for a journal's file: `verify` looks at one, `backup` copies one, `extend` writes
//! one anew, and `roll` begins a new book with what is live in one.

ghost use Rattle.std.specs.Prelude.{◌≡◌, true, false, Some, codes, is_some, IsTrue, IfOk, IfErr};
ghost use Rattle.clap.specs.Words.{first_value, found_of, new_app, rule_of, with_rule};
ghost use Rattle.gu_command.specs.Faults.{no_memory};
ghost use Rattle.gu_command.specs.Lines.{Makes, verify, backup, extend, totals_rule, copy_rule};
ghost use Rattle.gu_command.specs.Lines.{house_rule, journal_rule, larger_rule, roll};
ghost use Rattle.gu_command.specs.Lines.{open_rule, map_rule};
ghost use Rattle.gu_command.specs.Lines.{trade_meant, is_line_fault, IsLineOf, HasWorkers};
ghost use Rattle.gu_command.specs.Places.{told_among};

use crate::fault::Fault;
use crate::line::{
    BACKUP, EXTEND, JOURNAL, Line, ROLL, TRADE, VERIFY, copied, house_command, journal_argument,
    option, trade_of, trade_option, with_argument, with_option,
};
use crate::options::{is_set, word_of};
use clap::{Arg, ArgAction, ArgMatches, Command};
use std::alloc::Global;

/// The names by which `ArgMatches` gives what only these commands have.
const TOTALS: &str = "TOTALS";

const COPY: &str = "TO";

const LARGER: &str = "NEWHOUSE";

const OPEN: &str = "OPEN";

const MAP: &str = "FILE";

/// Which journal is looked at, and what is written of it beside what a start would say.
#[derive(Drop)]
pub struct Look {
    /// Its path.
    pub journal: String,
    /// `--totals`: the totals.
    pub totals: bool,
    /// `--trade N`: the tree of the trade of this number, and the totals.
    pub trade: Option<u32>,
}

/// Which journal is written anew, by which house file, and where.
#[derive(Drop)]
pub struct Extension {
    /// Its path.
    pub journal: String,
    /// The path of the house file that has more.
    pub larger: String,
    /// The path of the new journal.
    pub to: String,
}

/// Which journal's live changes begin a new book, and where.
#[derive(Drop)]
pub struct Rolling {
    /// The paths of the journal, of the house file that has more, and of the new journal.
    pub paths: Extension,
    /// `--open`: of trades only those with a part that waits for a decision.
    pub is_open: bool,
    /// `--map FILE`: where old and new numbers are written.
    pub map: Option<String>,
}

/// The argument for a copy.
fn copy_argument<'a>(alloc: Global) -> Arg<'a>
    ensures rule { rule_of result ≡ copy_rule }
    ensures local { result.global ≡ false }
{
    Arg::new(alloc, COPY)
        .help("The new file; nothing may stand there yet")
        .required(true)
        .action(ArgAction::Set)
}

/// The argument for the house file that has more.
fn larger_argument<'a>(alloc: Global) -> Arg<'a>
    ensures rule { rule_of result ≡ larger_rule }
    ensures local { result.global ≡ false }
{
    Arg::new(alloc, LARGER)
        .help("The house file that has all of HOUSE, and more firms, accounts or instruments")
        .required(true)
        .action(ArgAction::Set)
}

/// The option `--totals` of the command `verify`.
fn totals_option<'a>(alloc: Global) -> Arg<'a>
    ensures rule { rule_of result ≡ totals_rule }
    ensures local { result.global ≡ false }
{
    Arg::new(alloc, TOTALS)
        .long("totals")
        .help("Writes the totals too, as `trace` does")
        .action(ArgAction::SetTrue)
}

/// The option `--open` of the command `roll`.
fn open_option<'a>(alloc: Global) -> Arg<'a>
    ensures rule { rule_of result ≡ open_rule }
    ensures local { result.global ≡ false }
{
    Arg::new(alloc, OPEN)
        .long("open")
        .help("Of trades only those with a part that waits for a decision")
        .action(ArgAction::SetTrue)
}

/// Its option `--map`.
fn map_option<'a>(alloc: Global) -> Arg<'a>
    ensures rule { rule_of result ≡ map_rule }
    ensures local { result.global ≡ false }
{
    option(
        alloc,
        MAP,
        "map",
        "A new file for the old and the new number of each entry",
        false,
    )
}

/// The command `verify`.
pub(crate) fn verify_command<'a>(alloc: Global) -> Result<Command<'a>, Fault>
    ensures { Makes verify result }
{
    let command = house_command(
        alloc,
        VERIFY,
        "Says what a start would say of a journal, also while a server writes it",
    );
    let journal = journal_argument(alloc, "The journal, or a copy; it is only read");
    let command = with_option(command, journal);
    let command = with_option(command, totals_option(alloc));
    with_option(command, trade_option(alloc))
}

/// The command `backup`.
pub(crate) fn backup_command<'a>(alloc: Global) -> Result<Command<'a>, Fault>
    ensures { Makes backup result }
{
    let command = Command::new(alloc, BACKUP).about(
        "Copies a journal, also while a server writes it, and names the whole copy",
    );
    let journal = journal_argument(alloc, "The journal; it is only read");
    let command = with_argument(command, journal);
    with_option(command, copy_argument(alloc))
}

/// The command `extend`.
pub(crate) fn extend_command<'a>(alloc: Global) -> Result<Command<'a>, Fault>
    ensures { Makes extend result }
{
    let command = house_command(
        alloc,
        EXTEND,
        "Writes a journal anew under a house file that has more, and renames the old one",
    );
    let journal = journal_argument(
        alloc,
        "The journal, which no server has; .before is put behind its name",
    );
    let command = with_option(command, journal);
    let command = with_option(command, larger_argument(alloc));
    with_option(command, copy_argument(alloc))
}

/// The command `roll`, before its options.
fn roll_paths<'a>(alloc: Global) -> Result<Command<'a>, Fault>
    ensures { Makes (with_rule (with_rule (with_rule (with_rule (new_app (codes "roll")) house_rule)
        journal_rule) larger_rule) copy_rule) result }
{
    let command = house_command(
        alloc,
        ROLL,
        "Begins a new book with the live changes of a journal, and renames the old one",
    );
    let journal = journal_argument(
        alloc,
        "The journal, which no server has; .before is put behind its name",
    );
    let command = with_option(command, journal);
    let command = with_option(command, larger_argument(alloc));
    with_option(command, copy_argument(alloc))
}

/// The command `roll`.
pub(crate) fn roll_command<'a>(alloc: Global) -> Result<Command<'a>, Fault>
    ensures { Makes roll result }
{
    let command = with_option(roll_paths(alloc), open_option(alloc));
    with_option(command, map_option(alloc))
}

/// What the words behind `verify` ask for.
pub(crate) fn verify_line(
    alloc: Global,
    house: String,
    given: &ArgMatches<'_>,
) -> Result<Line, Fault>
    requires { first_value (found_of given.now) (codes "HOUSE") ≡ Some house.bytes.items }
    ensures read { IfOk result (IsLineOf (codes "verify") (first_value (found_of given.now))
        (told_among (found_of given.now))) }
    ensures workers { IfOk result HasWorkers }
    ensures verify { is_some (first_value (found_of given.now) (codes "JOURNAL")) ≡ true
        → is_some (trade_meant (first_value (found_of given.now) (codes "N"))) ≡ true
        → IfErr result (λ e. e ≡ no_memory) }
    ensures fault { IfErr result (λ e. IsTrue (is_line_fault e)) }
{
    let journal = copied(alloc, given.get_str(JOURNAL))?;
    let trade = trade_of(alloc, given.get_str(TRADE))?;
    let totals = is_set(given.get_str(TOTALS));
    let look = Look {
        journal,
        totals,
        trade,
    };
    Ok(Line::Verify { house, look })
}

/// What the words behind `backup` ask for.
pub(crate) fn backup_line(alloc: Global, given: &ArgMatches<'_>) -> Result<Line, Fault>
    ensures read { IfOk result (IsLineOf (codes "backup") (first_value (found_of given.now))
        (told_among (found_of given.now))) }
    ensures workers { IfOk result HasWorkers }
    ensures backup { is_some (first_value (found_of given.now) (codes "JOURNAL")) ≡ true
        → is_some (first_value (found_of given.now) (codes "TO")) ≡ true
        → IfErr result (λ e. e ≡ no_memory) }
    ensures fault { IfErr result (λ e. IsTrue (is_line_fault e)) }
{
    let journal = copied(alloc, given.get_str(JOURNAL))?;
    let to = copied(alloc, given.get_str(COPY))?;
    Ok(Line::Backup { journal, to })
}

/// The paths behind `extend` and `roll`.
fn paths_of(alloc: Global, given: &ArgMatches<'_>) -> Result<Extension, Fault>
    ensures journal { IfOk result (λ p. first_value (found_of given.now) (codes "JOURNAL")
        ≡ Some p.journal.bytes.items) }
    ensures larger { IfOk result (λ p. first_value (found_of given.now) (codes "NEWHOUSE")
        ≡ Some p.larger.bytes.items) }
    ensures to { IfOk result (λ p. first_value (found_of given.now) (codes "TO")
        ≡ Some p.to.bytes.items) }
    ensures there { is_some (first_value (found_of given.now) (codes "JOURNAL")) ≡ true
        → is_some (first_value (found_of given.now) (codes "NEWHOUSE")) ≡ true
        → is_some (first_value (found_of given.now) (codes "TO")) ≡ true
        → IfErr result (λ e. e ≡ no_memory) }
    ensures fault { IfErr result (λ e. IsTrue (is_line_fault e)) }
{
    let journal = copied(alloc, given.get_str(JOURNAL))?;
    let larger = copied(alloc, given.get_str(LARGER))?;
    let copy = copied(alloc, given.get_str(COPY))?;
    Ok(Extension {
        journal,
        larger,
        to: copy,
    })
}

/// What the words behind `extend` ask for.
pub(crate) fn extend_line(
    alloc: Global,
    house: String,
    given: &ArgMatches<'_>,
) -> Result<Line, Fault>
    requires { first_value (found_of given.now) (codes "HOUSE") ≡ Some house.bytes.items }
    ensures read { IfOk result (IsLineOf (codes "extend") (first_value (found_of given.now))
        (told_among (found_of given.now))) }
    ensures workers { IfOk result HasWorkers }
    ensures extend { is_some (first_value (found_of given.now) (codes "JOURNAL")) ≡ true
        → is_some (first_value (found_of given.now) (codes "NEWHOUSE")) ≡ true
        → is_some (first_value (found_of given.now) (codes "TO")) ≡ true
        → IfErr result (λ e. e ≡ no_memory) }
    ensures fault { IfErr result (λ e. IsTrue (is_line_fault e)) }
{
    let paths = paths_of(alloc, given)?;
    Ok(Line::Extend { house, paths })
}

/// What the words behind `roll` ask for.
pub(crate) fn roll_line(alloc: Global, house: String, given: &ArgMatches<'_>) -> Result<Line, Fault>
    requires { first_value (found_of given.now) (codes "HOUSE") ≡ Some house.bytes.items }
    ensures read { IfOk result (IsLineOf (codes "roll") (first_value (found_of given.now))
        (told_among (found_of given.now))) }
    ensures workers { IfOk result HasWorkers }
    ensures roll { is_some (first_value (found_of given.now) (codes "JOURNAL")) ≡ true
        → is_some (first_value (found_of given.now) (codes "NEWHOUSE")) ≡ true
        → is_some (first_value (found_of given.now) (codes "TO")) ≡ true
        → IfErr result (λ e. e ≡ no_memory) }
    ensures fault { IfErr result (λ e. IsTrue (is_line_fault e)) }
{
    let paths = paths_of(alloc, given)?;
    let is_open = is_set(given.get_str(OPEN));
    let map = word_of(alloc, given.get_str(MAP))?;
    let rolling = Rolling {
        paths,
        is_open,
        map,
    };
    Ok(Line::Roll { house, rolling })
}
