//! The cases of the batch as lines of data: a name, how the input is given and the output taken,
//! and the text of the input.

use std::alloc::Global;

/// How a case gives its input and takes its output.
#[derive(Clone, Copy)]
pub(crate) enum Way {
    Whole,
    Pieces,
    InTwo,
    FailingReader,
    FailingWriter,
    QuietWriter,
    WideWriter,
    Interrupted,
    InterruptedReader,
    InterruptedWriter,
    EndlessReader,
    Totals,
}

/// A case: its name, its way, whether its house's agreements are opening calls, and the text of its
/// input.
#[derive(Clone, Copy)]
pub(crate) struct Case<'a> {
    pub(crate) name: &'a str,
    pub(crate) way: Way,
    pub(crate) opens: bool,
    pub(crate) text: &'a str,
}

/// The way of this name.
fn way_of(text: &str) -> Option<Way> {
    match text {
        "whole" => Some(Way::Whole),
        "pieces" => Some(Way::Pieces),
        "in two" => Some(Way::InTwo),
        "failing reader" => Some(Way::FailingReader),
        "failing writer" => Some(Way::FailingWriter),
        "quiet writer" => Some(Way::QuietWriter),
        "wide writer" => Some(Way::WideWriter),
        "interrupted" => Some(Way::Interrupted),
        "interrupted reader" => Some(Way::InterruptedReader),
        "interrupted writer" => Some(Way::InterruptedWriter),
        "endless reader" => Some(Way::EndlessReader),
        "totals" => Some(Way::Totals),
        _ => None,
    }
}

/// Appends a byte so many times. Whether there was memory.
fn push_times(bytes: &mut Vec<u8>, byte: u8, times: u32) -> bool {
    let byte = if byte == b'|' { 1 } else { byte };
    for _ in 0..times {
        if bytes.push(byte).is_err() {
            return false;
        }
    }
    true
}

/// Appends the bytes that a text of a case stands for. Whether there was memory.
fn push_text(bytes: &mut Vec<u8>, text: &str) -> bool {
    let mut times = 1u32;
    let mut counting = false;
    for b in text.as_bytes() {
        let byte = *b;
        if byte == b'{' {
            times = 0;
            counting = true;
        } else if byte == b'}' {
            counting = false;
        } else if counting {
            times = times
                .saturating_mul(10)
                .saturating_add(u32::from(byte % 16));
        } else {
            if !push_times(bytes, byte, times) {
                return false;
            }
            times = 1;
        }
    }
    true
}

/// The bytes that a text of a case stands for. `None` where there is no memory.
pub(crate) fn bytes_of(alloc: Global, text: &str) -> Option<Vec<u8>> {
    let mut bytes = Vec::new(alloc);
    if push_text(&mut bytes, text) {
        Some(bytes)
    } else {
        None
    }
}

/// The case of a line, or none where the line is no case.
pub(crate) fn case_of(line: &str) -> Option<Case<'_>> {
    let (name, rest) = line.split_once(';')?;
    let (way, text) = rest.split_once(';')?;
    let (way, house) = way.split_once(", ").unwrap_or((way, ""));
    Some(Case {
        name,
        way: way_of(way)?,
        opens: house == "opening calls",
        text,
    })
}
