//! What is written of the clients.

use crate::servers::peers::{count_of, read_byte, received};
use std::alloc::Global;
use std::io;
use std::io::{ErrorKind, Write};
use std::net::TcpStream;
use std::time::Instant;

/// How long a firm that is behind may wait for its thousand reports, in seconds. A server that
/// waits a second for each hundred takes ten.
const REPORTS_WAIT: u64 = 8;

/// Writes a text.
pub(crate) fn say(rt: &HostRuntime, text: &[u8]) {
    let _ = io::writer(rt).write_all(text);
}

/// Writes a line.
pub(crate) fn say_line(rt: &HostRuntime, who: &[u8], what: &[u8]) {
    say(rt, who);
    say(rt, what);
    say(rt, b"\n");
}

/// Writes the messages up to the first of this type (35), each as a line of its fields but the
/// times (52) and the checksum (10), which hangs on these.
fn show(rt: &HostRuntime, held: &[u8], wanted: &[u8]) {
    let mut is_answer = false;
    for field in held.split(|b| *b == 1) {
        if field.starts_with(b"10=") {
            say(rt, b"\n");
            if is_answer {
                break;
            }
        } else if !field.is_empty() && !field.starts_with(b"52=") {
            is_answer = is_answer || field == wanted;
            say(rt, field);
            say(rt, b"|");
        }
    }
}

/// Writes who is sent something, and what it is sent up to a message of this type (35), or until it
/// is closed.
pub(crate) fn tell(rt: &HostRuntime, alloc: Global, who: &[u8], stream: &TcpStream, wanted: &[u8]) {
    let held = received(alloc, stream, wanted, 1);
    say_line(rt, who, b"");
    show(rt, held.as_slice(), wanted);
}

/// Writes who is sent something, and whether it is sent a byte before the server closes the
/// connection.
pub(crate) fn tell_stranger(rt: &HostRuntime, who: &[u8], stream: &TcpStream) {
    let what = match read_byte(stream) {
        Ok(0) => b": nothing, and closed".as_slice(),
        Ok(_) => b": something".as_slice(),
        // what it sent wasn't all read when it was closed
        Err(e) if e.kind() == ErrorKind::ConnectionReset => b": nothing, and closed".as_slice(),
        Err(_) => b": not closed".as_slice(),
    };
    say_line(rt, who, what);
}

/// Whether the time for the reports isn't over.
fn is_in_time(rt: &HostRuntime, began: &Instant) -> bool {
    match began.elapsed(rt) {
        Ok(since) => since.as_secs() < REPORTS_WAIT,
        Err(_) => false,
    }
}

/// Whether a thousand reports come before the time for them is over.
fn has_reports(rt: &HostRuntime, alloc: Global, stream: &TcpStream) -> bool {
    let Ok(began) = Instant::now(rt) else {
        return false;
    };
    let held = received(alloc, stream, b"35=AS", 1000);
    count_of(held.as_slice(), b"35=AS") >= 1000 && is_in_time(rt, &began)
}

/// Writes whether a firm that is behind has its thousand reports in time.
pub(crate) fn tell_reports(rt: &HostRuntime, alloc: Global, who: &[u8], stream: &TcpStream) {
    if has_reports(rt, alloc, stream) {
        say_line(rt, who, b": a thousand reports within eight seconds");
    } else {
        say_line(rt, who, b": too late");
    }
}
