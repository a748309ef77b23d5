//! Statements of whole streams: for a house, and for its firms. Input and output are data: the
//! files `stdin` and `stdout` beside `src/`; `data/` has the house files and the streams.
//!
//! With no words each line of standard input is `HOUSE;FIRM;STREAM`: two files of `data/`, and a
//! firm between them, or none for the whole book. Of each the program writes the line, the
//! statement, and how it ended, if badly. With words, `HOUSE` or `HOUSE FIRM`, it writes the
//! statement of what comes on standard input; its status is 0 where that ended well.
#![tactic(auto)]

use gu_base::FirmId;
use gu_batch::{Counted, Sink, Source};
use gu_parties::House;
use gu_statement::run_statement;
use std::alloc::Global;
use std::io::Write;
use std::process::ExitCode;
use std::{env, fs, io};

/// Writes a text.
fn say(rt: &HostRuntime, text: &[u8]) {
    let _ = io::writer(rt).write_all(text);
}

/// The house table of a file.
fn house_of(rt: &HostRuntime, alloc: Global, path: &str) -> Option<House> {
    let text = fs::read(rt, path).ok()?;
    House::parse(alloc, text.as_slice()).ok()
}

/// Writes the statement of a stream over the house of this file, and how it ended. Whether it ended
/// well.
fn tell<R: Source, W: Sink>(
    rt: &HostRuntime,
    alloc: Global,
    reader: &mut R,
    writer: &mut W,
    path: &str,
    firm: &str,
) -> Option<String> {
    let Some(house) = house_of(rt, alloc, path) else {
        return String::from_str(alloc, "no house").ok();
    };
    let whose = if firm.is_empty() {
        None
    } else {
        FirmId::new(firm.as_bytes())
    };
    match run_statement(alloc, reader, writer, house, whose) {
        Ok(()) => None,
        Err(e) => format!(in alloc; "{e}").ok(),
    }
}

/// Writes the statement that a line of the input asks for.
fn tell_line(rt: &HostRuntime, alloc: Global, line: &str) -> Option<()> {
    let (path, rest) = line.split_once(';')?;
    let (firm, stream) = rest.split_once(';')?;
    let bytes = fs::read(rt, stream).ok()?;
    let mut reader = Counted::new(bytes.as_slice());
    let mut writer = Counted::new(io::writer(rt));
    let ended = tell(rt, alloc, &mut reader, &mut writer, path, firm);
    if let Some(fault) = &ended {
        say(rt, fault.as_str().as_bytes());
        say(rt, b"\n");
    }
    Some(())
}

/// Writes what each line of the input asks for.
fn tell_lines(rt: &HostRuntime, alloc: Global) -> u8 {
    for line in rt.lines(alloc) {
        let Ok(line) = line else {
            return 1;
        };
        say(rt, line.as_str().as_bytes());
        say(rt, b"\n");
        if tell_line(rt, alloc, line.as_str()).is_none() {
            say(rt, b"no such line\n");
        }
    }
    0
}

/// Writes the statement of a house file for a firm, which the words of the command line name.
fn tell_words(rt: &HostRuntime, alloc: Global, house: &str, firm: Option<&String>) -> u8 {
    let firm = match firm {
        Some(firm) => firm.as_str(),
        None => "",
    };
    let mut reader = Counted::new(rt.reader());
    let mut writer = Counted::new(io::writer(rt));
    match tell(rt, alloc, &mut reader, &mut writer, house, firm) {
        None => 0,
        Some(fault) => {
            say(rt, fault.as_str().as_bytes());
            say(rt, b"\n");
            1
        }
    }
}

/// The words after the program's name.
fn words_of(rt: &HostRuntime) -> Option<Vec<String>> {
    let mut words = Vec::new(rt.alloc());
    for word in env::args(rt).ok()?.skip(1) {
        words.push(word).ok()?;
    }
    Some(words)
}

fn main(rt: HostRuntime) -> ExitCode {
    let alloc = rt.alloc();
    let Some(words) = words_of(&rt) else {
        return ExitCode::from(1);
    };
    ExitCode::from(match words.get(0) {
        Some(house) => tell_words(&rt, alloc, house.as_str(), words.get(1)),
        None => tell_lines(&rt, alloc),
    })
}
