//! The options of the command `keep` that say which book this is.

ghost use Rattle.std.specs.Prelude.{◌≡◌, true, false, None, Some, option_map, is_some, IsTrue};
ghost use Rattle.std.specs.Prelude.{IfOk, IfErr};
ghost use Rattle.std.specs.List.{list_all};
ghost use Rattle.clap.specs.Words.{App, first_value, found_of, rule_of};
ghost use Rattle.gu_command.specs.Faults.{no_memory};
ghost use Rattle.gu_command.specs.Lines.{Makes, is_line_fault};
ghost use Rattle.gu_command.specs.Naming.{book_rule, ask_book_rule, naming, is_from as range};
ghost use Rattle.gu_command.specs.Naming.{is_of_name, is_book_name, name_meant, asking_meant};
ghost use Rattle.gu_command.specs.Naming.{IsBookOf, IsBookMeant};

use crate::fault::Fault;
use crate::line::{option, with_option};
use crate::options::is_set;
use clap::{Arg, ArgAction, ArgMatches, Command};
use gu_batch::RunError;
use std::alloc::Global;

/// Which book a server has.
#[derive(Drop)]
pub struct NamedBook {
    /// `--book NAME`: its name, 1 to 64 letters, digits, `-`, `_` and `.`.
    pub name: Option<String>,
    /// `--ask-book`: whether each Logon has to say it.
    pub is_asked: bool,
}

/// The names by which `ArgMatches` gives the options.
const BOOK: &str = "NAME";

const ASK_BOOK: &str = "ASK_BOOK";

/// How many bytes a book's name has at most.
const MOST_NAME: usize = 64;

/// The option `--book`.
fn book_option<'a>(alloc: Global) -> Arg<'a>
    ensures rule { rule_of result ≡ book_rule }
    ensures local { result.global ≡ false }
{
    option(
        alloc,
        BOOK,
        "book",
        "The book's name, which a firm says (5006) that asks for the reports that it lacks",
        false,
    )
}

/// The option `--ask-book`.
fn ask_book_option<'a>(alloc: Global) -> Arg<'a>
    ensures rule { rule_of result ≡ ask_book_rule }
    ensures local { result.global ≡ false }
{
    Arg::new(alloc, ASK_BOOK)
        .long("ask-book")
        .help("Refuses each Logon that doesn't say the book's name")
        .action(ArgAction::SetTrue)
}

/// A command with these options.
pub(crate) fn with_naming<'a>(
    alloc: Global,
    command: Result<Command<'a>, Fault>,
) -> Result<Command<'a>, Fault>
    ensures { (app : App) → Makes app command.entry → Makes (naming app) result }
{
    let command = with_option(command, book_option(alloc));
    with_option(command, ask_book_option(alloc))
}

/// Whether a byte is one of these.
fn is_from(low: u8, high: u8, byte: u8) -> bool
    ensures { result ≡ range low high byte }
{
    low <= byte && byte <= high
}

/// Whether a byte may stand in a book's name.
fn is_name_byte(byte: u8) -> bool
    ensures { result ≡ is_of_name byte }
{
    is_from(b'A', b'Z', byte)
        || is_from(b'a', b'z', byte)
        || is_from(b'0', b'9', byte)
        || byte == b'-'
        || byte == b'_'
        || byte == b'.'
}

/// Whether all of these bytes may stand in a book's name.
fn are_of_name(bytes: &[u8]) -> bool
    ensures { result ≡ list_all is_of_name bytes.now }
{
    bytes.iter().all(|byte| is_name_byte(*byte))
}

/// Whether a word may be a book's name.
fn is_name(word: &str) -> bool
    ensures { result ≡ is_book_name word.now }
{
    let bytes = word.as_bytes();
    let are_of_name = are_of_name(bytes);
    let len = bytes.len();
    1 <= len && len <= MOST_NAME && are_of_name
}

/// What is said to a word behind `--book` that is no name.
fn name_fault(alloc: Global, word: &str) -> Fault
    ensures { IsTrue (is_line_fault result) }
{
    match format!(in alloc;
        "error: invalid value '{word}' for '--book <NAME>': it isn't 1 to {MOST_NAME} letters, \
         digits, '-', '_' and '.'"
    ) {
        Ok(text) => Fault::Usage(text),
        Err(_) => Fault::Run(RunError::Memory),
    }
}

/// Which name the word behind `--book` means, and none where there is no such word.
fn name_of(alloc: Global, word: Option<&str>) -> Result<Option<String>, Fault>
    ensures ok { IfOk result (λ r. name_meant (option_map (λ w. w.now) word.entry)
        ≡ Some (option_map (λ s. s.bytes.items) r)) }
    ensures err { IfErr result (λ e.
        is_some (name_meant (option_map (λ w. w.now) word.entry)) ≡ true → e ≡ no_memory) }
    ensures fault { IfErr result (λ e. IsTrue (is_line_fault e)) }
{
    let Some(word) = word else {
        return Ok(None);
    };
    if !is_name(word) {
        return Err(name_fault(alloc, word));
    }
    Ok(Some(String::from_str(alloc, word)?))
}

/// What is said where a name is asked for, and the book has none.
fn asking_fault(alloc: Global) -> Fault
    ensures { IsTrue (is_line_fault result) }
{
    match String::from_str(alloc, "error: '--ask-book' wants '--book <NAME>'") {
        Ok(text) => Fault::Usage(text),
        Err(_) => Fault::Run(RunError::Memory),
    }
}

/// Whether each Logon has to say the name that the word behind `--book` means.
fn asking_of(alloc: Global, name: Option<&str>, flag: Option<&str>) -> Result<bool, Fault>
    ensures ok { IfOk result (λ r. asking_meant (option_map (λ w. w.now) name.entry)
        (option_map (λ w. w.now) flag.entry) ≡ Some r) }
    ensures err { IfErr result (λ _. asking_meant (option_map (λ w. w.now) name.entry)
        (option_map (λ w. w.now) flag.entry) ≡ None) }
    ensures fault { IfErr result (λ e. IsTrue (is_line_fault e)) }
{
    if !is_set(flag) {
        return Ok(false);
    }
    match name {
        Some(_) => Ok(true),
        None => Err(asking_fault(alloc)),
    }
}

/// Which book the words behind `keep` name.
pub(crate) fn book_of(alloc: Global, given: &ArgMatches<'_>) -> Result<NamedBook, Fault>
    ensures ok { IfOk result (IsBookOf (first_value (found_of given.now))) }
    ensures meant { IsBookMeant (first_value (found_of given.now))
        (IfErr result (λ e. e ≡ no_memory)) }
    ensures fault { IfErr result (λ e. IsTrue (is_line_fault e)) }
{
    let is_asked = asking_of(alloc, given.get_str(BOOK), given.get_str(ASK_BOOK))?;
    let name = name_of(alloc, given.get_str(BOOK))?;
    Ok(NamedBook { name, is_asked })
}
