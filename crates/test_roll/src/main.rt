//! House files in pairs, and whether the second of each extends the first; and days that go on in a
//! new book. Input and output are data: the files `stdin` and `stdout` beside `src/`.
//!
//! Standard input holds house files, with a line `--` behind each. Of each two the program writes
//! what the second lacks to extend the first, or `it extends`.
//!
//! Behind a line `====` stand days, with `==` between them. A day is a house file, another one,
//! calls, and `all` or `open` with further calls, with `--` between these four. The first calls
//! make a book, whose journal is rolled under the second house file. The program writes the entries
//! of the new book, makes the further calls of both books, and writes before and behind them
//! whether both tell the same.
#![tactic(auto)]

mod days;
mod journals;
mod lines;
mod telling;
mod words;

use days::play;
use gu_parties::House;
use gu_roll::check_extends;
use std::alloc::Global;
use std::io;
use std::io::{ErrorKind, Read};

/// What ends a file of the input.
const END: &[u8] = b"\n--\n";

/// What stands between the pairs and the days.
const DAYS: &[u8] = b"====\n";

/// The pairs of an input, and its days.
fn first_part(input: &[u8]) -> Option<(&[u8], &[u8])> {
    for at in 0..input.len() {
        let (pairs, rest) = input.split_at(at);
        if let Some(days) = rest.strip_prefix(DAYS) {
            return Some((pairs, days));
        }
    }
    None
}

/// The file at the front of a text, and what stands behind its end.
fn first_file(text: &[u8]) -> Option<(&[u8], &[u8])> {
    for at in 0..text.len() {
        let (file, rest) = text.split_at(at);
        if let Some(more) = rest.strip_prefix(END) {
            return Some((file, more));
        }
    }
    None
}

/// Writes what a table lacks to extend another. Whether all went well.
fn tell_lack(rt: &impl Print, old: &House, new: &House) -> bool {
    match check_extends(old, new) {
        Ok(()) => rt.println("it extends").is_ok(),
        Err(lack) => rt.println(lack).is_ok(),
    }
}

/// The same of the table that a house file names.
fn tell_file(rt: &impl Print, alloc: Global, old: &House, new: &[u8]) -> bool {
    match House::parse(alloc, new) {
        Ok(new) => tell_lack(rt, old, &new),
        Err(_) => false,
    }
}

/// The same of those that two house files name.
fn tell_files(rt: &impl Print, alloc: Global, old: &[u8], new: &[u8]) -> bool {
    match House::parse(alloc, old) {
        Ok(old) => tell_file(rt, alloc, &old, new),
        Err(_) => false,
    }
}

/// The same of each two house files of a text, which has nothing else.
fn tell_all(rt: &impl Print, alloc: Global, text: &[u8]) -> bool {
    let mut rest = text;
    for _ in 0..text.len() {
        let Some((old, more)) = first_file(rest) else {
            break;
        };
        let Some((new, more)) = first_file(more) else {
            break;
        };
        if !tell_files(rt, alloc, old, new) {
            return false;
        }
        rest = more;
    }
    rest.is_empty()
}

/// The same of the pairs of an input, and then its days.
fn tell(rt: &impl Print, alloc: Global, input: &[u8]) -> bool {
    match first_part(input) {
        Some((pairs, days)) => tell_all(rt, alloc, pairs) && play(rt, alloc, days),
        None => false,
    }
}

fn main(rt: HostRuntime) -> io::Result<()> {
    let alloc = rt.alloc();
    let mut input = Vec::new(alloc);
    rt.reader().read_to_end(&mut input)?;
    if tell(&rt, alloc, input.as_slice()) {
        Ok(())
    } else {
        Err(io::Error::from(ErrorKind::InvalidData))
    }
}
