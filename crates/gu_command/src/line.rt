//! The command lines of the program.

ghost use Rattle.std.specs.Prelude.{◌≡◌, ℕ, List, [], ◌∷◌, true, false, None, Some, Ok, codes, map};
ghost use Rattle.std.specs.Prelude.{option_map, is_some, IsTrue, IfOk, IfErr, IfSome, MatchResult};
ghost use Rattle.std.specs.Prelude.{◌≤◌};
ghost use Rattle.clap.specs.Words.{App, first_value, found_of, kind_of, new_app, rule_of};
ghost use Rattle.clap.specs.Words.{with_rule, with_subcommand};
ghost use Rattle.gu_message.specs.Values.{entry_of};
ghost use Rattle.gu_command.specs.Lines.{program, top, batch, trace, serve, keep, house_rule};
ghost use Rattle.gu_command.specs.Lines.{trade_rule};
ghost use Rattle.gu_command.specs.Lines.{journal_rule, port_rule, workers_rule, connections_rule};
ghost use Rattle.gu_command.specs.Lines.{Makes, is_plain, trade_meant, up_to as number_up_to};
ghost use Rattle.gu_command.specs.Lines.{port_meant, workers_meant, connections_meant};
ghost use Rattle.gu_command.specs.Lines.{is_line_fault, IsLine, IsOneOfItsLines, IsLineOf};
ghost use Rattle.gu_command.specs.Lines.{AsksForBatch, AsksForTrace, AsksToServe, AsksToKeep};
ghost use Rattle.gu_command.specs.Lines.{AsksToVerify, AsksToBackUp, AsksToExtend, AsksToRoll};
ghost use Rattle.gu_command.specs.Lines.{AsksForStatement, HasWorkers};
ghost use Rattle.gu_command.specs.Options.{option_rule, AreMeant};
ghost use Rattle.gu_command.specs.Places.{told_among};
ghost use Rattle.gu_desk.specs.Views.{is_worker_count};
ghost use Rattle.gu_command.specs.Faults.{no_memory};
ghost use Rattle.std.specs.IoError.{error_kind};
ghost use Rattle.std.specs.declared.io.ErrorKind.TheVariants as io_kind;

use crate::copies::{
    Extension, Look, Rolling, backup_command, backup_line, extend_command, extend_line,
    roll_command, roll_line, verify_command, verify_line,
};
use crate::fault::Fault;
use crate::options::{KeepOptions, options_of, with_options};
use crate::statement::{Stating, statement_command, statement_line};
use clap::error::ErrorKind;
use clap::{Arg, ArgAction, ArgMatches, Command, Error};
use gu_base::Number;
use gu_batch::RunError;
use gu_message::entry;
use std::alloc::Global;
use std::io;

/// What a command line asks for.
#[derive(Drop)]
pub enum Line {
    /// `batch HOUSE`: answer standard input on standard output, by the house file at this path.
    Batch {
        house: String,
    },
    /// `trace HOUSE [--trade N]`: read standard input as a batch, and write the trace of the trade
    /// of this number, if one is asked for, and the totals.
    Trace {
        house: String,
        trade: Option<u32>,
    },
    /// `serve HOUSE --port PORT [--workers WORKERS] [--connections COUNT]`: serve this many
    /// connections (0: without end) on this port of 127.0.0.1 by this many workers, and then write
    /// the totals.
    Serve {
        house: String,
        port: u16,
        workers: u32,
        connections: u32,
    },
    /// `keep HOUSE JOURNAL --port PORT [--workers WORKERS] [--connections COUNT]` and its options:
    /// as `serve`, of a book that the journal at this path keeps.
    Keep {
        house: String,
        journal: String,
        port: u16,
        workers: u32,
        connections: u32,
        options: KeepOptions,
    },
    /// `verify HOUSE JOURNAL [--totals] [--trade N]`: say what a start would say of a journal.
    Verify {
        house: String,
        look: Look,
    },
    /// `backup JOURNAL TO`: copy the journal at the first path to the second one.
    Backup {
        journal: String,
        to: String,
    },
    /// `extend HOUSE JOURNAL NEWHOUSE TO`: write the journal anew, by a house file that has more.
    Extend {
        house: String,
        paths: Extension,
    },
    /// `roll HOUSE JOURNAL NEWHOUSE TO [--open] [--map FILE]`: begin a new book with the live
    /// changes of the journal.
    Roll {
        house: String,
        rolling: Rolling,
    },
    /// `statement HOUSE [--firm FIRM] [--journal JOURNAL]`: write what the book behind standard
    /// input, or that of a journal, holds, or what a firm may see of it.
    Statement(Stating),
}

/// The program's commands, and the names by which `ArgMatches` gives their words.
const BATCH: &str = "batch";

const TRACE: &str = "trace";

const SERVE: &str = "serve";

const KEEP: &str = "keep";

pub(crate) const VERIFY: &str = "verify";

pub(crate) const BACKUP: &str = "backup";

pub(crate) const EXTEND: &str = "extend";

pub(crate) const ROLL: &str = "roll";

pub(crate) const STATEMENT: &str = "statement";

const HOUSE: &str = "HOUSE";

pub(crate) const JOURNAL: &str = "JOURNAL";

pub(crate) const TRADE: &str = "N";

const PORT: &str = "PORT";

const WORKERS: &str = "WORKERS";

const CONNECTIONS: &str = "COUNT";

/// The most connections behind which a server ends.
const MOST_CONNECTIONS: u32 = 1_000_000;

/// The greatest port.
pub(crate) const MOST_PORT: u32 = 65_535;

/// The most workers.
pub const MOST_WORKERS: u32 = 16;

/// How many workers serve where the command line doesn't say.
const USUAL_WORKERS: u32 = 4;

/// The command with an argument more.
pub(crate) fn with_argument<'a>(
    command: Command<'a>,
    argument: Arg<'a>,
) -> Result<Command<'a>, Fault>
    requires { argument.global ≡ false }
    ensures { (app : App) → Makes app (Ok command.entry)
        → Makes (with_rule app (rule_of argument.entry)) result }
{
    match command.arg(argument) {
        Ok(command) => Ok(command),
        Err(_) => Err(Fault::Run(RunError::Memory)),
    }
}

/// The argument for the house file.
fn house_argument<'a>(alloc: Global) -> Arg<'a>
    ensures rule { rule_of result ≡ house_rule }
    ensures local { result.global ≡ false }
{
    Arg::new(alloc, HOUSE)
        .help("The house file: who takes part, and on which terms")
        .required(true)
        .action(ArgAction::Set)
}

/// The argument for the journal, and what is said of it.
pub(crate) fn journal_argument<'a>(alloc: Global, help: &'static str) -> Arg<'a>
    ensures rule { rule_of result ≡ journal_rule }
    ensures local { result.global ≡ false }
{
    Arg::new(alloc, JOURNAL)
        .help(help)
        .required(true)
        .action(ArgAction::Set)
}

/// A command of this name, whose first argument is the house file.
pub(crate) fn house_command<'a>(
    alloc: Global,
    name: &'static str,
    about: &'static str,
) -> Result<Command<'a>, Fault>
    ensures { Makes (with_rule (new_app name.now) house_rule) result }
{
    let house = house_argument(alloc);
    with_argument(Command::new(alloc, name).about(about), house)
}

/// The command `batch`.
fn batch_command<'a>(alloc: Global) -> Result<Command<'a>, Fault>
    ensures { Makes batch result }
{
    house_command(
        alloc,
        BATCH,
        "Answers FIX on standard input, on standard output",
    )
}

/// An option that takes a value: its name, the word behind its two hyphens, what it is for, and
/// whether it has to be there.
pub(crate) fn option<'a>(
    alloc: Global,
    name: &'static str,
    word: &'static str,
    help: &'static str,
    required: bool,
) -> Arg<'a>
    ensures rule { rule_of result ≡ record (option_rule name.now word.now) { required = required } }
    ensures local { result.global ≡ false }
{
    Arg::new(alloc, name)
        .long(word)
        .help(help)
        .required(required)
        .action(ArgAction::Set)
}

/// The command with an option more, if there is one.
///
/// An option is made and added before the next is made: one that lies beside another has to be
/// dropped where a growth is refused, at each exit, and the function that held three was long to
/// prove.
pub(crate) fn with_option<'a>(
    command: Result<Command<'a>, Fault>,
    option: Arg<'a>,
) -> Result<Command<'a>, Fault>
    requires { option.global ≡ false }
    ensures { (app : App) → Makes app command.entry
        → Makes (with_rule app (rule_of option.entry)) result }
{
    match command {
        Ok(command) => with_argument(command, option),
        Err(fault) => {
            drop(option);
            Err(fault)
        }
    }
}

/// The option `--trade`.
pub(crate) fn trade_option<'a>(alloc: Global) -> Arg<'a>
    ensures rule { rule_of result ≡ trade_rule }
    ensures local { result.global ≡ false }
{
    option(
        alloc,
        TRADE,
        "trade",
        "The number of the trade whose tree is written before the totals",
        false,
    )
}

/// The command `trace`.
fn trace_command<'a>(alloc: Global) -> Result<Command<'a>, Fault>
    ensures { Makes trace result }
{
    let command = house_command(
        alloc,
        TRACE,
        "Reads FIX on standard input, and writes a trade's tree and the totals",
    );
    with_option(command, trade_option(alloc))
}

/// The option `--port` of the command `serve`.
fn port_option<'a>(alloc: Global) -> Arg<'a>
    ensures rule { rule_of result ≡ port_rule }
    ensures local { result.global ≡ false }
{
    option(
        alloc,
        PORT,
        "port",
        "The port of 127.0.0.1, 1 to 65535",
        true,
    )
}

/// Its option `--workers`.
fn workers_option<'a>(alloc: Global) -> Arg<'a>
    ensures rule { rule_of result ≡ workers_rule }
    ensures local { result.global ≡ false }
{
    option(
        alloc,
        WORKERS,
        "workers",
        "How many threads serve connections, 1 to 16; 4 if not given",
        false,
    )
}

/// Its option `--connections`.
fn connections_option<'a>(alloc: Global) -> Arg<'a>
    ensures rule { rule_of result ≡ connections_rule }
    ensures local { result.global ≡ false }
{
    option(
        alloc,
        CONNECTIONS,
        "connections",
        "After how many connections the server ends, 0 to 1000000; 0 is without end, and so if not \
         given",
        false,
    )
}

/// The command `serve`.
fn serve_command<'a>(alloc: Global) -> Result<Command<'a>, Fault>
    ensures { Makes serve result }
{
    let command = house_command(
        alloc,
        SERVE,
        "Serves firms over FIX sessions on a port of 127.0.0.1, and at its end writes the totals",
    );
    let command = with_option(command, port_option(alloc));
    let command = with_option(command, workers_option(alloc));
    with_option(command, connections_option(alloc))
}

/// The command `keep`.
fn keep_command<'a>(alloc: Global) -> Result<Command<'a>, Fault>
    ensures { Makes keep result }
{
    let command = house_command(
        alloc,
        KEEP,
        "Serves firms, and tells nothing before the disk has it; `keep --version` says the version",
    );
    let journal = journal_argument(
        alloc,
        "The journal of the book; it is made where it isn't there",
    );
    let command = with_option(command, journal);
    let command = with_option(command, port_option(alloc));
    let command = with_option(command, workers_option(alloc));
    let command = with_option(command, connections_option(alloc));
    with_options(alloc, command)
}

/// The program before its commands.
fn bare_command<'a>(alloc: Global) -> Result<Command<'a>, Fault>
    ensures { Makes top result }
{
    let command = Command::new(alloc, "allocd")
        .about("The allocation and give-up service of a clearing house")
        .no_binary_name(true)
        .subcommand_required(true)
        .disable_help_subcommand(true);
    match command.bin_name("allocd") {
        Ok(command) => Ok(command),
        Err(_) => Err(Fault::Run(RunError::Memory)),
    }
}

/// The command with a command below it.
fn with_below<'a>(command: Command<'a>, below: Command<'a>) -> Result<Command<'a>, Fault>
    ensures { (app lower : App) → Makes app (Ok command.entry) → Makes lower (Ok below.entry)
        → Makes (with_subcommand app lower.top) result }
{
    match command.subcommand(below) {
        Ok(command) => Ok(command),
        Err(_) => Err(Fault::Run(RunError::Memory)),
    }
}

/// The command with a command below it, if there are both.
fn with_command<'a>(
    command: Result<Command<'a>, Fault>,
    below: Result<Command<'a>, Fault>,
) -> Result<Command<'a>, Fault>
    ensures { (app lower : App) → Makes app command.entry → Makes lower below.entry
        → Makes (with_subcommand app lower.top) result }
{
    let below = match below {
        Ok(below) => below,
        Err(fault) => {
            drop(command);
            return Err(fault);
        }
    };
    match command {
        Ok(command) => with_below(command, below),
        Err(fault) => {
            drop(below);
            Err(fault)
        }
    }
}

/// The command lines that the program knows.
fn program_command<'a>(alloc: Global) -> Result<Command<'a>, Fault>
    ensures { Makes program result }
{
    let command = with_command(bare_command(alloc), batch_command(alloc));
    let command = with_command(command, trace_command(alloc));
    let command = with_command(command, serve_command(alloc));
    let command = with_command(command, keep_command(alloc));
    let command = with_command(command, verify_command(alloc));
    let command = with_command(command, backup_command(alloc));
    let command = with_command(command, extend_command(alloc));
    let command = with_command(command, roll_command(alloc));
    with_command(command, statement_command(alloc))
}

/// What the parser says to a command line, without its last line end. Where it found no memory it
/// says nothing of the line.
fn usage(alloc: Global, error: &Error) -> Fault
    ensures memory { kind_of error.now ≡ ErrorKind.OutOfMemory → result ≡ no_memory }
    ensures fault { IsTrue (is_line_fault result) }
{
    if error.kind() == ErrorKind::OutOfMemory {
        return Fault::Run(RunError::Memory);
    }
    match error.to_string(alloc) {
        Ok(text) => match String::from_str(alloc, text.as_str().trim_end()) {
            Ok(text) => Fault::Usage(text),
            Err(_) => Fault::Run(RunError::Memory),
        },
        Err(_) => Fault::Run(RunError::Memory),
    }
}

/// Why the words after the program's name couldn't be had: one isn't UTF-8, and the fault is
/// `Usage` with what the parser says to that; or a growth was refused, and it is that of a run
/// without memory.
pub fn unread_words(alloc: Global, error: &io::Error) -> Fault
    ensures memory { error_kind error.now ≡ io_kind.OutOfMemory → result ≡ no_memory }
    ensures fault { IsTrue (is_line_fault result) }
{
    if error.kind() == io::ErrorKind::OutOfMemory {
        return Fault::Run(RunError::Memory);
    }
    let mut command = match program_command(alloc) {
        Ok(command) => command,
        Err(_) => return Fault::Run(RunError::Memory),
    };
    match command.error(
        ErrorKind::InvalidValue,
        "invalid UTF-8 was detected in one or more arguments",
    ) {
        Ok(said) => usage(alloc, &said),
        Err(_) => Fault::Run(RunError::Memory),
    }
}

/// A word of the command line in memory of its own.
pub(crate) fn copied(alloc: Global, word: Option<&str>) -> Result<String, Fault>
    ensures ok { IfOk result (λ s. option_map (λ w. w.now) word.entry ≡ Some s.bytes.items) }
    ensures err { IfErr result (λ e. is_some word.entry ≡ true → e ≡ no_memory) }
    ensures fault { IfErr result (λ e. IsTrue (is_line_fault e)) }
{
    let Some(word) = word else {
        return Err(Fault::Usage(String::new(alloc)));
    };
    Ok(String::from_str(alloc, word)?)
}

/// What is said to a word behind an option that isn't one of its numbers.
pub(crate) fn number_fault(alloc: Global, word: &str, option: &str, least: u32, most: u32) -> Fault
    ensures { IsTrue (is_line_fault result) }
{
    match format!(in alloc;
        "error: invalid value '{word}' for '{option}': it isn't a number of {least} to {most}"
    ) {
        Ok(text) => Fault::Usage(text),
        Err(_) => Fault::Run(RunError::Memory),
    }
}

/// Which trade the word behind `--trade` means, and none where there is no such word.
pub(crate) fn trade_of(alloc: Global, word: Option<&str>) -> Result<Option<u32>, Fault>
    ensures ok { IfOk result (λ t. trade_meant (option_map (λ w. w.now) word.entry) ≡ Some t) }
    ensures err { IfErr result (λ _. trade_meant (option_map (λ w. w.now) word.entry) ≡ None) }
    ensures fault { IfErr result (λ e. IsTrue (is_line_fault e)) }
{
    let Some(word) = word else {
        return Ok(None);
    };
    match entry(word.as_bytes()) {
        Some(number) => Ok(Some(number.get())),
        None => Err(number_fault(alloc, word, "--trade <N>", 1, Number::MAX)),
    }
}

/// The number of 1 to so many that a word is.
pub(crate) fn up_to(most: u32, word: &str) -> Option<u32>
    ensures value { result ≡ number_up_to most word.now }
    ensures range { IfSome result (λ n. (1 ≤ n) × (n ≤ most)) }
{
    match entry(word.as_bytes()) {
        Some(number) if number.get() <= most => Some(number.get()),
        _ => None,
    }
}

/// Which port the word behind `--port` means.
fn port_of(alloc: Global, word: Option<&str>) -> Result<u16, Fault>
    ensures ok { IfOk result (λ p. port_meant (option_map (λ w. w.now) word.entry) ≡ Some p) }
    ensures err { IfErr result (λ _. port_meant (option_map (λ w. w.now) word.entry) ≡ None) }
    ensures fault { IfErr result (λ e. IsTrue (is_line_fault e)) }
{
    let Some(word) = word else {
        return Err(Fault::Usage(String::new(alloc)));
    };
    match up_to(MOST_PORT, word) {
        Some(port) => Ok(port as u16),
        None => Err(number_fault(alloc, word, "--port <PORT>", 1, MOST_PORT)),
    }
}

/// How many workers the word behind `--workers` means, and 4 where there is no such word.
fn workers_of(alloc: Global, word: Option<&str>) -> Result<u32, Fault>
    ensures ok { IfOk result (λ n. workers_meant (option_map (λ w. w.now) word.entry) ≡ Some n) }
    ensures few { IfOk result (λ n. IsTrue (is_worker_count n)) }
    ensures err { IfErr result (λ _. workers_meant (option_map (λ w. w.now) word.entry) ≡ None) }
    ensures fault { IfErr result (λ e. IsTrue (is_line_fault e)) }
{
    let Some(word) = word else {
        return Ok(USUAL_WORKERS);
    };
    match up_to(MOST_WORKERS, word) {
        Some(workers) => Ok(workers),
        None => Err(number_fault(alloc, word, "--workers <WORKERS>", 1, MOST_WORKERS)),
    }
}

/// How many connections the word behind `--connections` means, and 0, without end, where there is
/// no such word.
fn connections_of(alloc: Global, word: Option<&str>) -> Result<u32, Fault>
    ensures ok { IfOk result
        (λ n. connections_meant (option_map (λ w. w.now) word.entry) ≡ Some n) }
    ensures err { IfErr result
        (λ _. connections_meant (option_map (λ w. w.now) word.entry) ≡ None) }
    ensures fault { IfErr result (λ e. IsTrue (is_line_fault e)) }
{
    let Some(word) = word else {
        return Ok(0);
    };
    if word == "0" {
        return Ok(0);
    }
    match up_to(MOST_CONNECTIONS, word) {
        Some(connections) => Ok(connections),
        None => Err(number_fault(alloc, word, "--connections <COUNT>", 0, MOST_CONNECTIONS)),
    }
}

/// What the words behind `serve` ask for.
fn serve_line(alloc: Global, house: String, given: &ArgMatches<'_>) -> Result<Line, Fault>
    requires { first_value (found_of given.now) (codes "HOUSE") ≡ Some house.bytes.items }
    ensures read { IfOk result (IsLineOf (codes "serve") (first_value (found_of given.now))
        (told_among (found_of given.now))) }
    ensures workers { IfOk result HasWorkers }
    ensures serve { is_some (port_meant (first_value (found_of given.now) (codes "PORT"))) ≡ true
        → is_some (workers_meant (first_value (found_of given.now) (codes "WORKERS"))) ≡ true
        → is_some (connections_meant (first_value (found_of given.now) (codes "COUNT"))) ≡ true
        → IfErr result (λ e. e ≡ no_memory) }
    ensures fault { IfErr result (λ e. IsTrue (is_line_fault e)) }
{
    let port = port_of(alloc, given.get_str(PORT))?;
    let workers = workers_of(alloc, given.get_str(WORKERS))?;
    let connections = connections_of(alloc, given.get_str(CONNECTIONS))?;
    Ok(Line::Serve {
        house,
        port,
        workers,
        connections,
    })
}

/// What the words behind `keep` ask for.
fn keep_line(alloc: Global, house: String, given: &ArgMatches<'_>) -> Result<Line, Fault>
    requires { first_value (found_of given.now) (codes "HOUSE") ≡ Some house.bytes.items }
    ensures read { IfOk result (IsLineOf (codes "keep") (first_value (found_of given.now))
        (told_among (found_of given.now))) }
    ensures workers { IfOk result HasWorkers }
    ensures keep { is_some (first_value (found_of given.now) (codes "JOURNAL")) ≡ true
        → is_some (port_meant (first_value (found_of given.now) (codes "PORT"))) ≡ true
        → is_some (workers_meant (first_value (found_of given.now) (codes "WORKERS"))) ≡ true
        → is_some (connections_meant (first_value (found_of given.now) (codes "COUNT"))) ≡ true
        → AreMeant (first_value (found_of given.now)) (told_among (found_of given.now))
        (IfErr result (λ e. e ≡ no_memory)) }
    ensures fault { IfErr result (λ e. IsTrue (is_line_fault e)) }
{
    let journal = copied(alloc, given.get_str(JOURNAL))?;
    let port = port_of(alloc, given.get_str(PORT))?;
    let workers = workers_of(alloc, given.get_str(WORKERS))?;
    let connections = connections_of(alloc, given.get_str(CONNECTIONS))?;
    let options = options_of(alloc, given)?;
    Ok(Line::Keep {
        house,
        journal,
        port,
        workers,
        connections,
        options,
    })
}

/// What a command and the words behind it ask for.
fn line_of(alloc: Global, name: &str, given: &ArgMatches<'_>) -> Result<Line, Fault>
    ensures read { IfOk result (IsLineOf name.now (first_value (found_of given.now))
        (told_among (found_of given.now))) }
    ensures workers { IfOk result HasWorkers }
    ensures batch { name.now ≡ codes "batch"
        → is_some (first_value (found_of given.now) (codes "HOUSE")) ≡ true
        → IfErr result (λ e. e ≡ no_memory) }
    ensures trace { name.now ≡ codes "trace"
        → is_some (first_value (found_of given.now) (codes "HOUSE")) ≡ true
        → is_some (trade_meant (first_value (found_of given.now) (codes "N"))) ≡ true
        → IfErr result (λ e. e ≡ no_memory) }
    ensures serve { name.now ≡ codes "serve"
        → is_some (first_value (found_of given.now) (codes "HOUSE")) ≡ true
        → is_some (port_meant (first_value (found_of given.now) (codes "PORT"))) ≡ true
        → is_some (workers_meant (first_value (found_of given.now) (codes "WORKERS"))) ≡ true
        → is_some (connections_meant (first_value (found_of given.now) (codes "COUNT"))) ≡ true
        → IfErr result (λ e. e ≡ no_memory) }
    ensures keep { name.now ≡ codes "keep"
        → is_some (first_value (found_of given.now) (codes "HOUSE")) ≡ true
        → is_some (first_value (found_of given.now) (codes "JOURNAL")) ≡ true
        → is_some (port_meant (first_value (found_of given.now) (codes "PORT"))) ≡ true
        → is_some (workers_meant (first_value (found_of given.now) (codes "WORKERS"))) ≡ true
        → is_some (connections_meant (first_value (found_of given.now) (codes "COUNT"))) ≡ true
        → AreMeant (first_value (found_of given.now)) (told_among (found_of given.now))
        (IfErr result (λ e. e ≡ no_memory)) }
    ensures verify { name.now ≡ codes "verify"
        → is_some (first_value (found_of given.now) (codes "HOUSE")) ≡ true
        → is_some (first_value (found_of given.now) (codes "JOURNAL")) ≡ true
        → is_some (trade_meant (first_value (found_of given.now) (codes "N"))) ≡ true
        → IfErr result (λ e. e ≡ no_memory) }
    ensures backup { name.now ≡ codes "backup"
        → is_some (first_value (found_of given.now) (codes "JOURNAL")) ≡ true
        → is_some (first_value (found_of given.now) (codes "TO")) ≡ true
        → IfErr result (λ e. e ≡ no_memory) }
    ensures extend { name.now ≡ codes "extend"
        → is_some (first_value (found_of given.now) (codes "HOUSE")) ≡ true
        → is_some (first_value (found_of given.now) (codes "JOURNAL")) ≡ true
        → is_some (first_value (found_of given.now) (codes "NEWHOUSE")) ≡ true
        → is_some (first_value (found_of given.now) (codes "TO")) ≡ true
        → IfErr result (λ e. e ≡ no_memory) }
    ensures roll { name.now ≡ codes "roll"
        → is_some (first_value (found_of given.now) (codes "HOUSE")) ≡ true
        → is_some (first_value (found_of given.now) (codes "JOURNAL")) ≡ true
        → is_some (first_value (found_of given.now) (codes "NEWHOUSE")) ≡ true
        → is_some (first_value (found_of given.now) (codes "TO")) ≡ true
        → IfErr result (λ e. e ≡ no_memory) }
    ensures statement { name.now ≡ codes "statement"
        → is_some (first_value (found_of given.now) (codes "HOUSE")) ≡ true
        → IfErr result (λ e. e ≡ no_memory) }
    ensures fault { IfErr result (λ e. IsTrue (is_line_fault e)) }
{
    if name == BACKUP {
        return backup_line(alloc, given);
    }
    let house = copied(alloc, given.get_str(HOUSE))?;
    if name == BATCH {
        return Ok(Line::Batch { house });
    }
    if name == TRACE {
        let trade = trade_of(alloc, given.get_str(TRADE))?;
        return Ok(Line::Trace { house, trade });
    }
    if name == SERVE {
        return serve_line(alloc, house, given);
    }
    if name == KEEP {
        return keep_line(alloc, house, given);
    }
    if name == VERIFY {
        return verify_line(alloc, house, given);
    }
    if name == EXTEND {
        return extend_line(alloc, house, given);
    }
    if name == ROLL {
        return roll_line(alloc, house, given);
    }
    if name == STATEMENT {
        return statement_line(alloc, house, given);
    }
    Err(Fault::Usage(String::new(alloc)))
}

/// Reads the words after the program's name. Anything that isn't one of the program's command
/// lines, and nothing else, is `Usage`, with what `clap` says to it; so are `--help` and
/// `--version`, and a number that is out of its range or has a leading zero: a trade's is 1 to
/// 1,000,000, a port's 1 to 65,535, that of workers 1 to 16, that of connections 0 to 1,000,000,
/// and that of each limit of `keep` 1 to 1,000,000. Where a growth was refused the fault is that of
/// a run without memory.
pub fn command_line(alloc: Global, words: &[String]) -> Result<Line, Fault>
    ensures read { IfOk result (IsLine (map (λ w. w.bytes.items) words.now)) }
    ensures workers { IfOk result HasWorkers }
    ensures batch { (path : List ℕ) → map (λ w. w.bytes.items) words.now ≡ codes "batch" ∷ path ∷ []
        → is_plain path ≡ true → MatchResult result (AsksForBatch path) (λ e. e ≡ no_memory) }
    ensures totals { (path : List ℕ)
        → map (λ w. w.bytes.items) words.now ≡ codes "trace" ∷ path ∷ [] → is_plain path ≡ true
        → MatchResult result (AsksForTrace path None) (λ e. e ≡ no_memory) }
    ensures trace { (path word : List ℕ) (trade : ℕ)
        → map (λ w. w.bytes.items) words.now ≡ codes "trace" ∷ path ∷ codes "--trade" ∷ word ∷ []
        → is_plain path ≡ true → is_plain word ≡ true → entry_of word ≡ Some trade
        → MatchResult result (AsksForTrace path (Some trade)) (λ e. e ≡ no_memory) }
    ensures serve { (path word : List ℕ) (port : ℕ)
        → map (λ w. w.bytes.items) words.now ≡ codes "serve" ∷ path ∷ codes "--port" ∷ word ∷ []
        → is_plain path ≡ true → is_plain word ≡ true → port_meant (Some word) ≡ Some port
        → MatchResult result (AsksToServe path port 4 0) (λ e. e ≡ no_memory) }
    ensures keep { (path file word : List ℕ) (port : ℕ)
        → map (λ w. w.bytes.items) words.now
        ≡ codes "keep" ∷ path ∷ file ∷ codes "--port" ∷ word ∷ []
        → is_plain path ≡ true → is_plain file ≡ true → is_plain word ≡ true
        → port_meant (Some word) ≡ Some port
        → MatchResult result (AsksToKeep path file port 4 0) (λ e. e ≡ no_memory) }
    ensures verify { (path file : List ℕ)
        → map (λ w. w.bytes.items) words.now ≡ codes "verify" ∷ path ∷ file ∷ []
        → is_plain path ≡ true → is_plain file ≡ true
        → MatchResult result (AsksToVerify path file) (λ e. e ≡ no_memory) }
    ensures backup { (file copy : List ℕ)
        → map (λ w. w.bytes.items) words.now ≡ codes "backup" ∷ file ∷ copy ∷ []
        → is_plain file ≡ true → is_plain copy ≡ true
        → MatchResult result (AsksToBackUp file copy) (λ e. e ≡ no_memory) }
    ensures extend { (path file larger copy : List ℕ) → map (λ w. w.bytes.items) words.now
        ≡ codes "extend" ∷ path ∷ file ∷ larger ∷ copy ∷ []
        → is_plain path ≡ true → is_plain file ≡ true → is_plain larger ≡ true
        → is_plain copy ≡ true
        → MatchResult result (AsksToExtend path file larger copy) (λ e. e ≡ no_memory) }
    ensures roll { (path file larger copy : List ℕ) → map (λ w. w.bytes.items) words.now
        ≡ codes "roll" ∷ path ∷ file ∷ larger ∷ copy ∷ []
        → is_plain path ≡ true → is_plain file ≡ true → is_plain larger ≡ true
        → is_plain copy ≡ true
        → MatchResult result (AsksToRoll path file larger copy) (λ e. e ≡ no_memory) }
    ensures statement { (path : List ℕ)
        → map (λ w. w.bytes.items) words.now ≡ codes "statement" ∷ path ∷ []
        → is_plain path ≡ true → MatchResult result (AsksForStatement path) (λ e. e ≡ no_memory) }
    ensures taken { IsOneOfItsLines (map (λ w. w.bytes.items) words.now)
        → IfErr result (λ e. e ≡ no_memory) }
    ensures fault { IfErr result (λ e. IsTrue (is_line_fault e)) }
{
    let matches = match program_command(alloc)?.try_get_matches_from(words) {
        Ok(matches) => matches,
        Err(error) => return Err(usage(alloc, &error)),
    };
    let Some((name, given)) = matches.subcommand() else {
        return Err(Fault::Usage(String::new(alloc)));
    };
    line_of(alloc, name, given)
}
