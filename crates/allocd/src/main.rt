//! The program `allocd`: the allocation and give-up service of a clearing house, on its command
//! line.
//!
//! It reads its words, does what they ask for (`gu_server::run`), and tells a fault on standard
//! error, with its status: 0 where all went well, 2 where the command line isn't one that the
//! program knows, else 1. `docs/operations.md` says how it is run.
#![tactic(auto)]

use gu_server::{
    Counted, Fault, RunError, SystemFiles, SystemJournals, VERSION, Wary, commit, run, unread_words,
};
use std::alloc::Global;
use std::fs::{File, OpenOptions};
use std::io::Eprint;
use std::os::fd::AsRawFd;
use std::process::ExitCode;
use std::sync::Wait;
use std::thread::Threads;
use std::time::{Clock, Duration};
use std::{env, io, thread};

/// What stands for the standard streams that were closed, so that no file and no socket gets their
/// numbers. As from a closed one nothing is read from it, and nothing is written to it.
type Standard = (Option<File>, Option<File>, Option<File>);

/// Opens /dev/null, if it gets one of these numbers.
fn stand_in(rt: &HostRuntime, how: &OpenOptions, last: i32) -> Option<File> {
    match how.open(rt, "/dev/null") {
        Ok(file) if file.as_raw_fd() <= last => Some(file),
        _ => None,
    }
}

/// Opens what stands for the standard streams that are closed.
fn stand_ins(rt: &HostRuntime) -> Standard {
    let mut writes = OpenOptions::new();
    writes.write(true);
    let input = stand_in(rt, &writes, 0);
    let mut reads = OpenOptions::new();
    reads.read(true);
    (input, stand_in(rt, &reads, 2), stand_in(rt, &reads, 2))
}

/// The words after the program's name.
fn words(rt: &HostRuntime) -> Result<Vec<String>, Fault> {
    let mut words = Vec::new(rt.alloc());
    let args = match env::args(rt) {
        Ok(args) => args,
        Err(error) => return Err(unread_words(rt.alloc(), &error)),
    };
    for word in args.skip(1) {
        words.push(word)?;
    }
    Ok(words)
}

/// Whether the words are `keep --version`.
fn asks_for_version(words: &[String]) -> bool {
    if words.len() != 2 {
        return false;
    }
    words[0].as_str() == "keep" && words[1].as_str() == "--version"
}

/// Writes the version on standard output, and git's commit, which a packaged program has.
fn tell_version(rt: &HostRuntime) -> Result<(), Fault> {
    let told = match commit(rt, rt.alloc()) {
        Some(commit) => println!(rt; "allocd, {VERSION}, commit {commit}"),
        None => println!(rt; "allocd, {VERSION}, no commit: not packaged"),
    };
    match told {
        Ok(()) => Ok(()),
        Err(_) => Err(Fault::Run(RunError::Write)),
    }
}

/// Writes a text on standard error. Who reads that has a second for it. False where nothing was
/// begun.
fn told_beside<R: Threads + Wait + Clock + Eprint + Copy + Send + 'static>(
    rt: &R,
    alloc: Global,
    text: String,
) -> bool {
    let Ok((done, told)) = crossbeam_channel::bounded::<(), Global>(alloc, 1) else {
        return false;
    };
    let there = *rt;
    let teller = thread::spawn(rt, move || {
        let _ = there.eprintln(&text);
        let _ = done.send(&there, ());
    });
    if teller.is_err() {
        return false;
    }
    let _ = told.recv_timeout(rt, Duration::from_secs(1));
    true
}

/// Tells a fault on standard error. A server that keeps a book ends though nobody reads it.
fn tell<R: Threads + Wait + Clock + Eprint + Copy + Send + 'static>(
    rt: &R,
    alloc: Global,
    fault: &Fault,
) {
    if let Fault::Journal(_) | Fault::Keep(_) = fault {
        if let Ok(text) = format!(in alloc; "{fault}") {
            if told_beside(rt, alloc, text) {
                return;
            }
        }
    }
    let _ = rt.eprintln(fault);
}

fn main(rt: HostRuntime) -> ExitCode {
    let _standard = stand_ins(&rt);
    let files = SystemFiles::new(&rt);
    let mut reader = Counted::new(rt.reader());
    let mut writer = Counted::new(io::writer(&rt));
    let done = match words(&rt) {
        Ok(words) if asks_for_version(words.as_slice()) => tell_version(&rt),
        Ok(words) => run(
            &rt,
            rt.alloc(),
            &files,
            SystemJournals::new(rt, Wary),
            &mut reader,
            &mut writer,
            words.as_slice(),
        ),
        Err(fault) => Err(fault),
    };
    match done {
        Ok(()) => ExitCode::SUCCESS,
        Err(fault) => {
            tell(&rt, rt.alloc(), &fault);
            ExitCode::from(fault.status())
        }
    }
}
