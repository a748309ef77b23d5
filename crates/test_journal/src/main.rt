//! Journals by hand: keeps the entries of a stream in a journal, recovers journals, and breaks them
//! in memory. `checks/journal` and `bench/journal` drive it by words, `rt ci` by lines of such
//! words on standard input:
//!
//! - `make HOUSE STREAM JOURNAL GROUP`: recovers the journal, and commits to it, GROUP at a time,
//!   the entries of the stream's book that it doesn't have. It tells how many entries it has
//!   recovered, and after each group at once the number of the last entry that is acknowledged.
//! - `recover HOUSE JOURNAL`: recovers it, and tells its entries and the totals of its book.
//! - `crashes HOUSE STREAM GROUP`: a crash at each call that keeping and recovering make of a disk
//!   in memory (`crashing.rt`).
//!
//! A fault is told in one line. Given as words, it ends the program with status 1.
#![tactic(auto)]

mod crashing;
mod fault;
mod keeping;
mod mixing;
mod reading;

use crashing::crash_all;
use fault::Fault;
use keeping::keep;
use reading::tell;
use std::env;
use std::process::ExitCode;

/// The word at a place, empty where there is none.
fn word_at(words: &[String], place: usize) -> &str {
    match words.get(place) {
        Some(word) => word.as_str(),
        None => "",
    }
}

/// Does what the words of a line ask for.
fn run(rt: &HostRuntime, words: &[String]) -> Result<(), Fault> {
    let house = word_at(words, 1);
    let second = word_at(words, 2);
    let third = word_at(words, 3);
    let group = word_at(words, 4);
    match word_at(words, 0) {
        "make" => keep(rt, house, second, third, group),
        "recover" => tell(rt, house, second),
        "crashes" => crash_all(rt, house, second, third),
        _ => Err(Fault::Other("no such word")),
    }
}

/// The same, with a fault told in a line. Whether there was none.
fn run_line(rt: &HostRuntime, words: &[String]) -> bool {
    match run(rt, words) {
        Ok(()) => true,
        Err(error) => {
            let _ = println!(rt; "fault: {error}");
            false
        }
    }
}

/// The words of the command line, behind the program's name.
fn words_given(rt: &HostRuntime) -> Result<Vec<String>, Fault> {
    let mut words = Vec::new(rt.alloc());
    for word in env::args(rt)?.skip(1) {
        words.push(word)?;
    }
    Ok(words)
}

/// The words of a line.
fn words_of(rt: &HostRuntime, line: &str) -> Result<Vec<String>, Fault> {
    let mut words = Vec::new(rt.alloc());
    for word in line.split(' ') {
        words.push(String::from_str(rt.alloc(), word)?)?;
    }
    Ok(words)
}

/// Runs each line of standard input, and tells it.
fn run_lines(rt: &HostRuntime) -> Result<(), Fault> {
    for line in rt.lines(rt.alloc()) {
        let line = line?;
        println!(rt; "{}", line.as_str())?;
        let _ = run_line(rt, words_of(rt, line.as_str())?.as_slice());
    }
    Ok(())
}

fn main(rt: HostRuntime) -> ExitCode {
    let done = match words_given(&rt) {
        Ok(words) if words.is_empty() => run_lines(&rt).is_ok(),
        Ok(words) => run_line(&rt, words.as_slice()),
        Err(_) => false,
    };
    if done {
        ExitCode::SUCCESS
    } else {
        ExitCode::from(1)
    }
}
