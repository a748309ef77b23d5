//! The options of the command `keep` beside those of `serve`.

ghost use Rattle.std.specs.Prelude.{◌≡◌, true, false, None, map, option_map, IsTrue, IfOk, IfErr};
ghost use Rattle.clap.specs.Words.{App, first_value, found_of, rule_of};
ghost use Rattle.gu_command.specs.Faults.{no_memory};
ghost use Rattle.gu_command.specs.Lines.{Makes, is_line_fault};
ghost use Rattle.gu_command.specs.Options.{replica_rule, most_entries_rule, reserve_rule};
ghost use Rattle.gu_command.specs.Options.{most_parts_rule, memory_rule, held_rule};
ghost use Rattle.gu_command.specs.Options.{rate_rule, per_firm_rule, status_rule, log_calls_rule};
ghost use Rattle.gu_command.specs.Options.{archive_rule};
ghost use Rattle.gu_command.specs.Options.{limited, telling, optioned, flag_meant, limit_meant};
ghost use Rattle.gu_command.specs.Options.{limit_or};
ghost use Rattle.gu_command.specs.Options.{AreLimitsOf, AreOptionsOf, AreMeant, IfMeant};
ghost use Rattle.gu_command.specs.Places.{has_slash, is_place, are_places, told_among};
ghost use Rattle.gu_command.specs.Places.{IsPlace, ArePlaces};

use crate::fault::Fault;
use crate::line::{MOST_PORT, number_fault, option, up_to, with_option};
use crate::naming::{NamedBook, book_of, with_naming};
use clap::{Arg, ArgAction, ArgMatches, Command};
use gu_base::Number;
use gu_batch::RunError;
use gu_limits::Limits;
use gu_message::entry;
use std::alloc::Global;

/// A place where figures, readiness and health are told over HTTP.
#[derive(Drop)]
pub enum StatusAt {
    /// A port of 127.0.0.1.
    Port(u16),
    /// A socket of the file system, at this path.
    Socket(String),
}

/// What a line that keeps a book asks for beside what it has to.
#[derive(Drop)]
pub struct KeepOptions {
    /// `--replicate PATH`: the socket of whoever puts the journal on other machines.
    pub replica: Option<String>,
    /// `--most-entries ENTRIES`, `--most-parts PARTS`, `--reserve RESERVED`, `--memory MEMORY`,
    /// `--rate CALLS`, `--per-firm CONNECTIONS`, `--held HELD`: what firms may have.
    pub limits: Limits,
    /// `--status PORT|PATH`, which may stand twice.
    pub status: Option<StatusAt>,
    pub more_status: Option<StatusAt>,
    /// `--log-calls`: whether each call is told on standard error.
    pub log_calls: bool,
    /// `--book NAME`, `--ask-book`: which book this is.
    pub book: NamedBook,
    /// `--archive FOLDER`: where each frame goes that came or was sent.
    pub archive: Option<String>,
}

/// The names by which `ArgMatches` gives the options.
const REPLICA: &str = "PATH";

const MOST_ENTRIES: &str = "ENTRIES";

const MOST_PARTS: &str = "PARTS";

const RESERVE: &str = "RESERVED";

const MEMORY: &str = "MEMORY";

const RATE: &str = "CALLS";

const PER_FIRM: &str = "CONNECTIONS";

const HELD: &str = "HELD";

/// How many connections of a firm may have logged on where the line doesn't say.
const USUAL_PER_FIRM: u32 = 8;

/// How many megabytes may wait for a firm where the line doesn't say.
const USUAL_HELD: u32 = 64;

const STATUS: &str = "STATUS";

const LOG_CALLS: &str = "LOG_CALLS";

const ARCHIVE: &str = "FOLDER";

/// The option `--replicate`.
fn replica_option<'a>(alloc: Global) -> Arg<'a>
    ensures rule { rule_of result ≡ replica_rule }
    ensures local { result.global ≡ false }
{
    option(
        alloc,
        REPLICA,
        "replicate",
        "The socket of whoever puts the journal on other machines, which have to have it too then",
        false,
    )
}

/// The option `--most-entries`.
fn most_entries_option<'a>(alloc: Global) -> Arg<'a>
    ensures rule { rule_of result ≡ most_entries_rule }
    ensures local { result.global ≡ false }
{
    option(
        alloc,
        MOST_ENTRIES,
        "most-entries",
        "How many entries of a firm the book takes, 1 to 1000000; the house has no limit",
        false,
    )
}

/// The option `--most-parts`.
fn most_parts_option<'a>(alloc: Global) -> Arg<'a>
    ensures rule { rule_of result ≡ most_parts_rule }
    ensures local { result.global ≡ false }
{
    option(
        alloc,
        MOST_PARTS,
        "most-parts",
        "How many parts the splits of a firm have together, 1 to 1000000; the house has no limit",
        false,
    )
}

/// The option `--reserve`.
fn reserve_option<'a>(alloc: Global) -> Arg<'a>
    ensures rule { rule_of result ≡ reserve_rule }
    ensures local { result.global ≡ false }
{
    option(
        alloc,
        RESERVE,
        "reserve",
        "How many of the book's 1000000 entries are the house's alone, 1 to 1000000",
        false,
    )
}

/// The option `--memory`.
fn memory_option<'a>(alloc: Global) -> Arg<'a>
    ensures rule { rule_of result ≡ memory_rule }
    ensures local { result.global ≡ false }
{
    option(
        alloc,
        MEMORY,
        "memory",
        "How many megabytes the book may take, 1 to 1000000; a tenth of them is the house's alone",
        false,
    )
}

/// The option `--rate`.
fn rate_option<'a>(alloc: Global) -> Arg<'a>
    ensures rule { rule_of result ≡ rate_rule }
    ensures local { result.global ≡ false }
{
    option(
        alloc,
        RATE,
        "rate",
        "How many calls of a firm are made in a second, 1 to 1000000; the others wait",
        false,
    )
}

/// The option `--per-firm`.
fn per_firm_option<'a>(alloc: Global) -> Arg<'a>
    ensures rule { rule_of result ≡ per_firm_rule }
    ensures local { result.global ≡ false }
{
    option(
        alloc,
        PER_FIRM,
        "per-firm",
        "How many connections a firm may have, 1 to 1000000, 8 if not given; the house has no \
         limit",
        false,
    )
}

/// The option `--held`.
fn held_option<'a>(alloc: Global) -> Arg<'a>
    ensures rule { rule_of result ≡ held_rule }
    ensures local { result.global ≡ false }
{
    option(
        alloc,
        HELD,
        "held",
        "How many megabytes may wait for a firm, 1 to 1000000, 64 if not given; the house has no \
         limit",
        false,
    )
}

/// A command with the options that say what firms may have.
fn with_limits<'a>(alloc: Global, command: Result<Command<'a>, Fault>) -> Result<Command<'a>, Fault>
    ensures { (app : App) → Makes app command.entry → Makes (limited app) result }
{
    let command = with_option(command, most_entries_option(alloc));
    let command = with_option(command, most_parts_option(alloc));
    let command = with_option(command, reserve_option(alloc));
    let command = with_option(command, memory_option(alloc));
    let command = with_option(command, rate_option(alloc));
    let command = with_option(command, per_firm_option(alloc));
    with_option(command, held_option(alloc))
}

/// The option `--status`.
fn status_option<'a>(alloc: Global) -> Arg<'a>
    ensures rule { rule_of result ≡ status_rule }
    ensures local { result.global ≡ false }
{
    Arg::new(alloc, STATUS)
        .long("status")
        .help(
            "Where /metrics, /ready and /health are told: a port of 127.0.0.1, or a socket's path \
             with a slash; it may stand twice",
        )
        .action(ArgAction::Append)
}

/// The option `--log-calls`.
fn log_calls_option<'a>(alloc: Global) -> Arg<'a>
    ensures rule { rule_of result ≡ log_calls_rule }
    ensures local { result.global ≡ false }
{
    Arg::new(alloc, LOG_CALLS)
        .long("log-calls")
        .help("Tells each call on standard error, and how it was answered")
        .action(ArgAction::SetTrue)
}

/// A command with the options that say what an operator is told.
fn with_telling<'a>(
    alloc: Global,
    command: Result<Command<'a>, Fault>,
) -> Result<Command<'a>, Fault>
    ensures { (app : App) → Makes app command.entry → Makes (telling app) result }
{
    let command = with_option(command, status_option(alloc));
    with_option(command, log_calls_option(alloc))
}

/// The option `--archive`.
fn archive_option<'a>(alloc: Global) -> Arg<'a>
    ensures rule { rule_of result ≡ archive_rule }
    ensures local { result.global ≡ false }
{
    option(
        alloc,
        ARCHIVE,
        "archive",
        "The folder where each frame goes that came or was sent, a file an hour",
        false,
    )
}

/// A command with all of these options.
pub(crate) fn with_options<'a>(
    alloc: Global,
    command: Result<Command<'a>, Fault>,
) -> Result<Command<'a>, Fault>
    ensures { (app : App) → Makes app command.entry → Makes (optioned app) result }
{
    let command = with_option(command, replica_option(alloc));
    let command = with_limits(alloc, command);
    let command = with_telling(alloc, command);
    let command = with_naming(alloc, command);
    with_option(command, archive_option(alloc))
}

/// The word behind an option, in memory of its own, and none where there is no such word.
pub(crate) fn word_of(alloc: Global, word: Option<&str>) -> Result<Option<String>, Fault>
    ensures ok { IfOk result (λ r.
        option_map (λ w. w.now) word.entry ≡ option_map (λ s. s.bytes.items) r) }
    ensures err { IfErr result (λ e. e ≡ no_memory) }
    ensures fault { IfErr result (λ e. IsTrue (is_line_fault e)) }
{
    let Some(word) = word else {
        return Ok(None);
    };
    Ok(Some(String::from_str(alloc, word)?))
}

/// Whether a word is a path: it has a slash.
fn has_slash(word: &str) -> bool
    ensures { result ≡ has_slash word.now }
{
    word.as_bytes().iter().any(|byte| *byte == b'/')
}

/// What is said to a word behind `--status` that is no place.
fn place_fault(alloc: Global, word: &str) -> Fault
    ensures { IsTrue (is_line_fault result) }
{
    match format!(in alloc;
        "error: invalid value '{word}' for '--status <STATUS>': it is no port of 1 to {MOST_PORT}, \
         and no socket's path, which has a slash"
    ) {
        Ok(text) => Fault::Usage(text),
        Err(_) => Fault::Run(RunError::Memory),
    }
}

/// Which place a word behind `--status` means: a path has a slash, and a port is a number.
fn place_of(alloc: Global, word: &str) -> Result<StatusAt, Fault>
    ensures ok { IfOk result (IsPlace word.now) }
    ensures err { IfErr result (λ e. is_place word.now ≡ true → e ≡ no_memory) }
    ensures fault { IfErr result (λ e. IsTrue (is_line_fault e)) }
{
    if has_slash(word) {
        return Ok(StatusAt::Socket(String::from_str(alloc, word)?));
    }
    match up_to(MOST_PORT, word) {
        Some(port) => Ok(StatusAt::Port(port as u16)),
        None => Err(place_fault(alloc, word)),
    }
}

/// Which places the words behind `--status` mean, at most two.
fn places_of(alloc: Global, words: &[&str]) -> Result<(Option<StatusAt>, Option<StatusAt>), Fault>
    ensures ok { IfOk result (λ p. ArePlaces (map (λ w. w.now) words.now) p.0 p.1) }
    ensures err { IfErr result (λ e. are_places (map (λ w. w.now) words.now) ≡ true
        → e ≡ no_memory) }
    ensures fault { IfErr result (λ e. IsTrue (is_line_fault e)) }
{
    match words {
        [] => Ok((None, None)),
        [only] => Ok((Some(place_of(alloc, only)?), None)),
        [first, second] => {
            let first = place_of(alloc, first)?;
            let second = place_of(alloc, second)?;
            Ok((Some(first), Some(second)))
        }
        [_, _, third, ..] => Err(place_fault(alloc, third)),
    }
}

/// Whether a flag was given.
pub(crate) fn is_set(word: Option<&str>) -> bool
    ensures { result ≡ flag_meant (option_map (λ w. w.now) word.entry) }
{
    match word {
        Some(word) => word == "true",
        None => false,
    }
}

/// What the word behind an option for a limit means: 1 to 1,000,000, and no limit where there is
/// no such word.
fn limit_of(alloc: Global, word: Option<&str>, option: &str) -> Result<Option<u32>, Fault>
    ensures ok { IfOk result (λ t. limit_meant (option_map (λ w. w.now) word.entry) ≡ Some t) }
    ensures err { IfErr result (λ _. limit_meant (option_map (λ w. w.now) word.entry) ≡ None) }
    ensures fault { IfErr result (λ e. IsTrue (is_line_fault e)) }
{
    let Some(word) = word else {
        return Ok(None);
    };
    match entry(word.as_bytes()) {
        Some(number) => Ok(Some(number.get())),
        None => Err(number_fault(alloc, word, option, 1, Number::MAX)),
    }
}

/// A limit, or the usual one where there is none.
fn limit_or(limit: Option<u32>, usual: u32) -> Option<u32>
    ensures { result ≡ limit_or usual limit }
{
    match limit {
        Some(limit) => Some(limit),
        None => Some(usual),
    }
}

/// What the words behind `keep` let firms have.
fn limits_of(alloc: Global, given: &ArgMatches<'_>) -> Result<Limits, Fault>
    ensures ok { IfOk result (AreLimitsOf (first_value (found_of given.now))) }
    ensures meant { IfMeant (first_value (found_of given.now)) (IfErr result (λ e. e ≡ no_memory)) }
    ensures fault { IfErr result (λ e. IsTrue (is_line_fault e)) }
{
    let most_entries = limit_of(
        alloc,
        given.get_str(MOST_ENTRIES),
        "--most-entries <ENTRIES>",
    )?;
    let most_parts = limit_of(alloc, given.get_str(MOST_PARTS), "--most-parts <PARTS>")?;
    let reserve = limit_of(alloc, given.get_str(RESERVE), "--reserve <RESERVED>")?;
    let memory = limit_of(alloc, given.get_str(MEMORY), "--memory <MEMORY>")?;
    let rate = limit_of(alloc, given.get_str(RATE), "--rate <CALLS>")?;
    let per_firm = limit_of(alloc, given.get_str(PER_FIRM), "--per-firm <CONNECTIONS>")?;
    let held = limit_of(alloc, given.get_str(HELD), "--held <HELD>")?;
    Ok(Limits {
        most_entries,
        most_parts,
        reserve,
        memory,
        rate,
        per_firm: limit_or(per_firm, USUAL_PER_FIRM),
        held: limit_or(held, USUAL_HELD),
    })
}

/// What the words behind `keep` ask for beside what they have to.
pub(crate) fn options_of(alloc: Global, given: &ArgMatches<'_>) -> Result<KeepOptions, Fault>
    ensures ok { IfOk result
        (AreOptionsOf (first_value (found_of given.now)) (told_among (found_of given.now))) }
    ensures meant { AreMeant (first_value (found_of given.now)) (told_among (found_of given.now))
        (IfErr result (λ e. e ≡ no_memory)) }
    ensures fault { IfErr result (λ e. IsTrue (is_line_fault e)) }
{
    let limits = limits_of(alloc, given)?;
    let replica = word_of(alloc, given.get_str(REPLICA))?;
    let (status, more_status) = places_of(alloc, given.get_strs(STATUS).unwrap_or(&[]))?;
    let book = book_of(alloc, given)?;
    let archive = word_of(alloc, given.get_str(ARCHIVE))?;
    Ok(KeepOptions {
        replica,
        limits,
        status,
        more_status,
        log_calls: is_set(given.get_str(LOG_CALLS)),
        book,
        archive,
    })
}
