//! Batches over memory; runs of the program `allocd`, over the files of the system, but with a
//! reader and a writer in memory; and behind them servers and their clients. Input and output are
//! data: the files `stdin` and `stdout` beside `src/`; `data/` has the house files and streams.
//!
//! A line of standard input that begins with `row ` is a worked row (`rows.rt`). Of one that begins
//! with `line;` it writes what `command_line` takes the words behind that for. Any other is
//! `STREAM;HOW;WORDS`: a file of `data/`, how it is read and written, and the words of the command
//! line. HOW is `plain`, `failing reader` (it fails behind the stream's last byte) or `full writer`
//! (it takes no byte). Of each line the program writes how the run ended, with its status and the
//! first line of its text, and whether what it wrote is what the file of the stream's name with
//! `.out` for `.fix` holds; of a trace or a statement, what it wrote. In WORDS `PORT` stands for a
//! port that is in use. A book is kept in journals in memory (`journals.rt`). Then it writes the
//! text of each error, and what the clients of servers were told (`servers.rt`). It ends with the
//! status of the last line's run.
#![tactic(auto)]

mod asking;
mod journals;
mod lines;
mod rows;
mod servers;
mod streams;

use asking::tell_asked;
use gu_server::{Fault, KeepError, RecordError, RunError, ServeError, ServiceError};
use lines::{read_line, tell, tell_fault};
use servers::{play_all, play_kept};
use std::alloc::Global;
use std::fs::File;
use std::io;
use std::io::Eprint;
use std::net::{Net, TcpListener, TcpStream};
use std::process::ExitCode;
use std::random::RandomSource;
use std::rt::Files;
use std::sync::Wait;
use std::thread::Threads;
use std::time::Clock;

/// The errors of a run.
const RUN_ERRORS: &[RunError] = &[
    RunError::Broken { at: 14 },
    RunError::Truncated { at: 134 },
    RunError::Read,
    RunError::Write,
    RunError::Memory,
    RunError::NoLiveTrade { trade: 2 },
];

/// The errors of a server.
const SERVICE_ERRORS: &[ServiceError] = &[
    ServiceError::Listen,
    ServiceError::Serve(ServeError::Accept),
    ServiceError::Serve(ServeError::NoThread),
    ServiceError::Serve(ServeError::Memory),
];

/// The errors of a server of a kept book, but for those that the system's own text is part of.
const KEEP_ERRORS: &[KeepError] = &[
    KeepError::Listen,
    KeepError::Accept,
    KeepError::NoThread,
    KeepError::Poll,
    KeepError::Clock,
    KeepError::Memory,
    KeepError::Record(RecordError::Memory),
    KeepError::Record(RecordError::Full),
    KeepError::Record(RecordError::Unsaid),
    KeepError::Record(RecordError::Replica),
    KeepError::Record(RecordError::Silent),
    KeepError::Record(RecordError::Gone),
    KeepError::Record(RecordError::NoRoom),
    KeepError::Status,
    KeepError::Stuck,
    KeepError::Failed,
];

/// Writes the status and the text of each error of a run and of a server.
fn tell_errors(rt: &HostRuntime, alloc: Global) {
    for error in RUN_ERRORS {
        tell_fault(rt, alloc, &Fault::from(*error));
    }
    for error in SERVICE_ERRORS {
        tell_fault(rt, alloc, &Fault::from(*error));
    }
    for error in KEEP_ERRORS {
        tell_fault(rt, alloc, &Fault::Keep(*error));
    }
}

/// Runs the lines of standard input, while a port is in use. Gives the status of the last run.
fn run_lines<
    H: Threads
        + Wait
        + Clock
        + RandomSource
        + Net<Stream = TcpStream, Listener = TcpListener>
        + Files<File = File>
        + Eprint
        + Copy
        + Send
        + Sync
        + 'static,
>(rt: &HostRuntime, handle: &H, alloc: Global) -> io::Result<u8> {
    let listener = TcpListener::bind(rt, "127.0.0.1:0")?;
    let port = listener.local_addr()?.port();
    let mut status = 100;
    for line in rt.lines(alloc) {
        let line = line?;
        if let Some(row) = line.as_str().strip_prefix("row ") {
            rows::run_line(rt, alloc, row);
        } else if let Some(words) = line.as_str().strip_prefix("line;") {
            tell_asked(rt, alloc, words, port);
        } else if let Some(run) = read_line(line.as_str()) {
            status = tell(rt, handle, alloc, &run, port).unwrap_or(100);
        }
    }
    Ok(status)
}

fn main(rt: HostRuntime) -> ExitCode {
    let alloc = rt.alloc();
    let mut status = run_lines(&rt, &rt, alloc).unwrap_or(100);
    tell_errors(&rt, alloc);
    if play_all(&rt, &rt, alloc).is_err() || play_kept(&rt, &rt, alloc).is_err() {
        status = 100;
    }
    ExitCode::from(status)
}
