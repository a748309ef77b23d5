//! House files of all kinds, and what is told of each. Input and output are data: the files `stdin`
//! and `stdout` beside `src/`.
//!
//! Standard input holds house files, with a line `--` behind each. A file's text is what stands
//! above that line, without the LF in front of it: a file that ends with LF has an empty line
//! there. Of each file the program writes its first fault, or the entries of a copy of its table in
//! their order, if the copy's look-ups are the table's, and then `--`. Behind them it writes what a
//! small house answers, and what is told of files with as many lines as a house file may have, and
//! more.
#![tactic(auto)]

mod long;
mod reading;
mod small;
mod table;

use long::tell_long;
use reading::{Wanted, tell};
use small::{FIRST_VERSION, SECOND_VERSION};
use std::alloc::Global;
use std::io;
use std::io::{ErrorKind, Read};

/// What ends a file of the input.
const END: &[u8] = b"\n--\n";

/// Writes what is told of the file that these bytes end, if they end one, and then `--`. Whether
/// they did.
fn tell_ended(rt: &impl Print, alloc: Global, bytes: &[u8]) -> bool {
    match bytes.strip_suffix(END) {
        Some(text) => tell(rt, alloc, text, Wanted::Table) && rt.println("--").is_ok(),
        None => false,
    }
}

/// Writes what is told of each house file of the input.
fn tell_files(rt: &impl Print, alloc: Global, input: &[u8]) -> bool {
    let mut held = Vec::new(alloc);
    for byte in input {
        if held.push(*byte).is_err() {
            return false;
        }
        if tell_ended(rt, alloc, held.as_slice()) {
            held.clear();
        }
    }
    held.is_empty()
}

/// Writes all that is told. Whether all went well.
fn tell_all(rt: &impl Print, alloc: Global, input: &[u8]) -> bool {
    tell_files(rt, alloc, input)
        && tell(rt, alloc, FIRST_VERSION, Wanted::Names)
        && tell(rt, alloc, SECOND_VERSION, Wanted::Names)
        && tell_long(rt, alloc)
}

fn main(rt: HostRuntime) -> io::Result<()> {
    let alloc = rt.alloc();
    let mut input = Vec::new(alloc);
    rt.reader().read_to_end(&mut input)?;
    if tell_all(&rt, alloc, input.as_slice()) {
        Ok(())
    } else {
        Err(io::Error::from(ErrorKind::InvalidData))
    }
}
