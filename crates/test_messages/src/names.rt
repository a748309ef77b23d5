//! Names and numbers of the base.
//!
//! What stands behind the word of a line:
//! - `name TEXT`: what the text may name, where `?` stands for the byte 0x7F and `^` for 0x1F;
//! - `number VALUE`: what the value may be;
//! - `node ENTRY PART`: the name of the node, if there may be such a one.

use gu_base::{AccountId, AllocId, FirmId, InstrumentId, Lots, NodeName, Number, Rate};
use std::alloc::{AllocError, Global};

/// The bytes that a text stands for.
fn bytes_of(alloc: Global, text: &str) -> Result<Vec<u8>, AllocError> {
    let mut bytes = Vec::new(alloc);
    for b in text.as_bytes() {
        bytes.push(match *b {
            b'?' => 0x7f,
            b'^' => 0x1f,
            other => other,
        })?;
    }
    Ok(bytes)
}

/// Writes texts, each with whether it holds, and ends the line.
pub(crate) fn show_each(rt: &impl Print, said: &[(&str, bool)]) -> bool {
    for (text, holds) in said {
        if print!(rt; "{text}{holds}").is_err() {
            return false;
        }
    }
    rt.println("").is_ok()
}

/// Writes what these bytes may name.
fn show_names(rt: &impl Print, name: &[u8]) -> bool {
    show_each(
        rt,
        &[
            (": firm ", FirmId::new(name).is_some()),
            (", account ", AccountId::new(name).is_some()),
            (", instrument ", InstrumentId::new(name).is_some()),
            (", id ", AllocId::new(name).is_some()),
        ],
    )
}

/// Writes what a text may name.
pub(crate) fn tell_name(rt: &impl Print, alloc: Global, text: &str) -> bool {
    match bytes_of(alloc, text) {
        Ok(name) => print!(rt; "name {text}").is_ok() && show_names(rt, name.as_slice()),
        Err(_) => false,
    }
}

/// The number that a text writes, or 0.
fn number(text: &str) -> u32 {
    text.parse().unwrap_or(0)
}

/// Writes what the value that a text writes may be.
pub(crate) fn tell_number(rt: &impl Print, text: &str) -> bool {
    let value = number(text);
    let wide = u64::from(value);
    let said = [
        (": number ", Number::new(value).is_some()),
        (", lots ", Lots::new(wide).is_some()),
        (", rate ", Rate::new(wide).is_some()),
    ];
    rt.print(value).is_ok() && show_each(rt, &said)
}

/// Writes the name of a part of an entry's split, where there is such a one.
fn show_node(rt: &impl Print, entry: u32, part: u8) -> bool {
    match NodeName::new(entry, part) {
        Some(node) => println!(rt; "part {part} of {entry}: {node}").is_ok(),
        None => println!(rt; "part {part} of {entry}: none").is_ok(),
    }
}

/// Writes what the words of a node name.
pub(crate) fn tell_node(rt: &impl Print, text: &str) -> bool {
    match text.split_once(' ') {
        Some((entry, part)) => show_node(rt, number(entry), part.parse().unwrap_or(0)),
        None => false,
    }
}
