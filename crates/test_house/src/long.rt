//! House files with as many lines as they may have, and more.

use crate::reading::{Wanted, tell};
use std::alloc::Global;
use std::fmt::Write;

/// The first line of each version.
const VERSIONS: &[&str] = &["GIVEUP 1", "GIVEUP 2"];

/// Appends lines that name a firm each, as the lines 3 to 100,000. Whether there was memory for
/// them.
fn add_firms(text: &mut String) -> bool {
    for line in 3..100_001u32 {
        if writeln!(text, "FIRM {line}").is_err() {
            return false;
        }
    }
    true
}

/// Writes the fault of this file behind what it is.
fn tell_fault(rt: &impl Print, alloc: Global, what: &str, text: &str) -> bool {
    print!(rt; "{what}: ").is_ok() && tell(rt, alloc, text.as_bytes(), Wanted::Fault)
}

/// Writes what is told of a file with its first line twice.
fn tell_headed(rt: &impl Print, alloc: Global, version: &str, text: &str) -> bool {
    match format!(in alloc; "{version}\n{text}") {
        Ok(headed) => tell_fault(rt, alloc, "a first line twice", headed.as_str()),
        Err(_) => false,
    }
}

/// Appends the lines of a file whose first line this is, as many as there may be.
fn add_lines(text: &mut String, version: &str) -> bool {
    writeln!(text, "{version}\nHOUSE HSE").is_ok() && add_firms(text)
}

/// Writes what is told of files whose first line this is. The two lines more are empty ones: bad
/// lines, if they stood further up.
fn tell_version(rt: &impl Print, alloc: Global, version: &str) -> bool {
    let mut text = String::new(alloc);
    add_lines(&mut text, version)
        && tell_fault(rt, alloc, "100000 lines", text.as_str())
        && text.push_str("\n\n").is_ok()
        && tell_fault(rt, alloc, "two more", text.as_str())
        && tell_headed(rt, alloc, version, text.as_str())
}

/// Writes what is told of them in each version. Whether all went well.
pub(crate) fn tell_long(rt: &impl Print, alloc: Global) -> bool {
    for version in VERSIONS {
        if rt.println(*version).is_err() || !tell_version(rt, alloc, version) {
            return false;
        }
    }
    true
}
