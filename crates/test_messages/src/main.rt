//! Names, frames, messages and sessions. Input and output are data: the files `stdin` and `stdout`
//! beside `src/`.
//!
//! The first word of a line of standard input says what it is: `name`, `number` or `node`
//! (`names`), `stream` (`frames`), and of any other line the message of that body is told
//! (`messages`). Behind the lines stand refusals as they are told, whether copies are what was
//! copied, for each state its code and what may follow it, and three frames that the codec has
//! written. What stands behind a line `sessions` are the events of sessions (`sessions`). An input
//! may begin with that line; then they are all.
#![tactic(auto)]

mod bodies;
mod copies;
mod frames;
mod life;
mod messages;
mod names;
mod sessions;
mod texts;
mod written;

use gu_base::FirmId;
use std::alloc::Global;
use std::io::{Eprint, ErrorKind, Read};
use std::{io, str};

/// What stands between the lines and the sessions.
const SESSIONS: &str = "sessions\n";

/// Writes what a line asks for.
fn tell(rt: &impl Print, alloc: Global, house: &FirmId, line: &str) -> bool {
    match line.split_once(' ') {
        Some(("name", text)) => names::tell_name(rt, alloc, text),
        Some(("number", text)) => names::tell_number(rt, text),
        Some(("node", text)) => names::tell_node(rt, text),
        Some(("stream", text)) => frames::tell_words(rt, alloc, text),
        _ => messages::tell(rt, alloc, house, line),
    }
}

/// Writes what each line asks for.
fn tell_lines(rt: &impl Print, alloc: Global, lines: &str) -> bool {
    let Some(house) = FirmId::new(b"HSE") else {
        return false;
    };
    for line in lines.lines() {
        if !tell(rt, alloc, &house, line) {
            return false;
        }
    }
    true
}

/// Writes what has no line.
fn tell_rest(rt: &impl Print, alloc: Global) -> bool {
    texts::tell(rt) && copies::tell(rt, alloc) && life::tell(rt) && written::tell(rt, alloc)
}

/// Writes all that an input asks for. Whether all went well.
fn tell_all(rt: &(impl Print + Eprint), alloc: Global, input: &[u8]) -> bool {
    let Ok(text) = str::from_utf8(input) else {
        return false;
    };
    let (lines, events) = text.split_once(SESSIONS).unwrap_or((text, ""));
    (lines.is_empty() || tell_lines(rt, alloc, lines) && tell_rest(rt, alloc))
        && sessions::play_all(rt, alloc, events)
}

fn main(rt: HostRuntime) -> io::Result<()> {
    let alloc = rt.alloc();
    let mut input = Vec::new(alloc);
    if rt.reader().read_to_end(&mut input).is_err() {
        // None of what was read is lost.
        sessions::tell_refused(&rt);
        rt.reader().read_to_end(&mut input)?;
    }
    if tell_all(&rt, alloc, input.as_slice()) {
        Ok(())
    } else {
        Err(io::Error::from(ErrorKind::InvalidData))
    }
}
