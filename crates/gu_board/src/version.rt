//! What the program says of itself.

use std::alloc::Global;
use std::fs::File;
use std::io::{Read, Seek, SeekFrom};
use std::rt::Files;

/// The program's version, the profile's, and the logic of the kit that proves the program.
pub const VERSION: &str = "1.0.0, profile 2, logic dac8208d650f15bf";

/// The file of the program that runs.
const OWN_FILE: &str = "/proc/self/exe";

/// How long the line is with which a packaged program's file ends.
const LINE: usize = 48;

/// What stands in it before git's commit, and behind it.
const FRONT: &[u8] = b"commit ";

const END: &[u8] = b"\n";

/// Whether a byte is a hex digit in lower case.
fn is_hex(byte: u8) -> bool {
    matches!(byte, 48..=57 | 97..=102)
}

/// Whether all bytes of a text are.
fn all_hex(text: &[u8]) -> bool {
    text.iter().all(|byte| is_hex(*byte))
}

/// The commit that a line says, if it does.
fn commit_in(line: &[u8]) -> Option<&[u8]> {
    if line.len() != LINE {
        return None;
    }
    let front = &line[..FRONT.len()];
    let commit = &line[FRONT.len()..LINE - 1];
    let end = &line[LINE - 1..];
    if front == FRONT && end == END && all_hex(commit) {
        Some(commit)
    } else {
        None
    }
}

/// Git's commit of the sources, which the package's build puts behind the program; none where the
/// program isn't packaged.
pub fn commit<R: Files>(rt: &R, alloc: Global) -> Option<String> {
    let mut file = File::open(rt, OWN_FILE).ok()?;
    file.seek(SeekFrom::End(-(LINE as i64))).ok()?;
    let mut line = [0; LINE];
    file.read_exact(&mut line).ok()?;
    let commit = std::str::from_utf8(commit_in(&line)?).ok()?;
    String::from_str(alloc, commit).ok()
}
