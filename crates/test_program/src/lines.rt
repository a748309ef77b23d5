//! One run of the program: its words, the stream that it reads, and how it is read and written.

use crate::journals::Shelf;
use crate::streams::{AtEnd, Narrow, pieces_of, takes_all, writer_of};
use gu_server::{Counted, Fault, SystemFiles, run};
use std::alloc::{AllocError, Global};
use std::fs::File;
use std::io::{Eprint, Write};
use std::net::{Net, TcpListener, TcpStream};
use std::random::RandomSource;
use std::rt::Files;
use std::sync::Wait;
use std::thread::Threads;
use std::time::Clock;
use std::{fs, io};

/// A line of the input: the stream's file, how it is read and written, and the words.
#[derive(Clone, Copy)]
pub(crate) struct Line<'a> {
    stream: &'a str,
    how: &'a str,
    words: &'a str,
}

/// The run that a line asks for, or none where it is no such line.
pub(crate) fn read_line(line: &str) -> Option<Line<'_>> {
    let (stream, rest) = line.split_once(';')?;
    let (how, words) = rest.split_once(';')?;
    Some(Line { stream, how, words })
}

/// A word of a command line: `PORT` stands for this port.
fn word_of(alloc: Global, word: &str, port: u16) -> Result<String, AllocError> {
    if word == "PORT" {
        format!(in alloc; "{port}")
    } else {
        String::from_str(alloc, word)
    }
}

/// The words of a command line, in which `PORT` stands for this port. Between two spaces stands
/// one, and an empty text has none. What can't be had is missing from what the program writes, here
/// and below.
pub(crate) fn words_of(alloc: Global, text: &str, port: u16) -> Vec<String> {
    let mut words = Vec::new(alloc);
    if !text.is_empty() {
        for word in text.split(' ') {
            if let Ok(word) = word_of(alloc, word, port) {
                let _ = words.push(word);
            }
        }
    }
    words
}

/// How a run ended, and what it wrote.
#[derive(Drop)]
pub(crate) struct Outcome {
    pub(crate) result: Result<(), Fault>,
    pub(crate) out: Vec<u8>,
}

/// Runs the program on these bytes and words.
pub(crate) fn run_words<
    H: Threads
        + Wait
        + Clock
        + RandomSource
        + Net<Stream = TcpStream, Listener = TcpListener>
        + Files<File = File>
        + Eprint
        + Copy
        + Send
        + Sync
        + 'static,
>(
    rt: &HostRuntime,
    handle: &H,
    alloc: Global,
    how: &str,
    stream: &[u8],
    words: &[String],
) -> Outcome {
    let mut pieces = pieces_of(stream, usize::MAX);
    if how == "failing reader" {
        pieces.at_end = AtEnd::Fails;
    }
    let mut taking = takes_all();
    if how == "full writer" {
        taking.room = 0;
        taking.quiet = true;
    }
    let mut reader = Counted::new(pieces);
    let mut writer = Counted::new(writer_of(alloc, taking));
    let files = SystemFiles::new(rt);
    let result = run(
        handle,
        alloc,
        &files,
        Shelf,
        &mut reader,
        &mut writer,
        words,
    );
    let Narrow { held, .. } = writer.into_inner();
    Outcome { result, out: held }
}

/// Writes a text.
pub(crate) fn say(rt: &HostRuntime, text: &[u8]) {
    let _ = io::writer(rt).write_all(text);
}

/// What the parser of command lines says goes over several lines.
fn first_line(text: &str) -> &str {
    match text.split_once('\n') {
        Some((line, _)) => line,
        None => text,
    }
}

/// Writes a fault's status, and the first line of its text.
pub(crate) fn tell_fault(rt: &HostRuntime, alloc: Global, fault: &Fault) {
    if let Ok(text) = format!(in alloc; "{}: {fault}", fault.status()) {
        say(rt, first_line(text.as_str()).as_bytes());
        say(rt, b"\n");
    }
}

/// The bytes of the file that says what the stream is answered by.
fn expected(rt: &HostRuntime, alloc: Global, stream: &str) -> Option<Vec<u8>> {
    let (name, _) = stream.rsplit_once('.')?;
    let path = format!(in alloc; "{name}.out").ok()?;
    fs::read(rt, path.as_str()).ok()
}

/// Whether these are the bytes by which the stream is answered.
fn is_as_expected(rt: &HostRuntime, alloc: Global, stream: &str, out: &[u8]) -> bool {
    match expected(rt, alloc, stream) {
        Some(expected) => expected.as_slice() == out,
        None => false,
    }
}

/// The commands whose text is written as it is.
const TOLD: &[&str] = &["trace", "verify", "statement"];

/// Writes the text of a trace, of a look at a journal or of a statement as it is, and of answers
/// whether they are those of the stream.
fn tell_out(rt: &HostRuntime, alloc: Global, line: &Line<'_>, out: &[u8]) {
    if out.is_empty() {
        say(rt, b"nothing written\n");
    } else if TOLD.iter().any(|command| line.words.starts_with(*command)) {
        say(rt, out);
    } else if is_as_expected(rt, alloc, line.stream, out) {
        say(rt, b"as expected\n");
    } else {
        say(rt, b"something else\n");
    }
}

/// Writes how the run of a line ended, and what it wrote. Gives its status.
fn tell_outcome(rt: &HostRuntime, alloc: Global, line: &Line<'_>, outcome: &Outcome) -> u8 {
    let _ = println!(rt; "{}, {}: {}", line.stream, line.how, line.words);
    let status = match &outcome.result {
        Ok(()) => {
            say(rt, b"0: done\n");
            0
        }
        Err(fault) => {
            tell_fault(rt, alloc, fault);
            fault.status()
        }
    };
    tell_out(rt, alloc, line, outcome.out.as_slice());
    status
}

/// Runs a line over a handle that may start threads, wait and listen, and writes what came of it.
/// Gives the status of the run, and none where its stream isn't there.
pub(crate) fn tell<
    H: Threads
        + Wait
        + Clock
        + RandomSource
        + Net<Stream = TcpStream, Listener = TcpListener>
        + Files<File = File>
        + Eprint
        + Copy
        + Send
        + Sync
        + 'static,
>(rt: &HostRuntime, handle: &H, alloc: Global, line: &Line<'_>, port: u16) -> Option<u8> {
    let Ok(stream) = fs::read(rt, line.stream) else {
        return None;
    };
    let words = words_of(alloc, line.words, port);
    let (bytes, words) = (stream.as_slice(), words.as_slice());
    let outcome = run_words(rt, handle, alloc, line.how, bytes, words);
    Some(tell_outcome(rt, alloc, line, &outcome))
}
