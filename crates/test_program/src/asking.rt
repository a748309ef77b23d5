//! What `command_line` takes the words of a line for.

use crate::lines::{say, tell_fault, words_of};
use gu_command::{Extension, Look, Rolling, Stating, StatusAt};
use gu_server::{KeepOptions, Line, command_line};
use std::alloc::Global;

/// Writes a limit, if there is one.
fn tell_limit(rt: &HostRuntime, alloc: Global, name: &str, limit: Option<u32>) {
    let Some(most) = limit else {
        return;
    };
    if let Ok(text) = format!(in alloc; ", {name} {most}") {
        say(rt, text.as_bytes());
    }
}

/// Writes a path, if there is one.
fn tell_path(rt: &HostRuntime, name: &[u8], path: &Option<String>) {
    if let Some(path) = path {
        say(rt, name);
        say(rt, path.as_bytes());
    }
}

/// Writes a place of the pages, if there is one.
fn tell_place(rt: &HostRuntime, alloc: Global, place: &Option<StatusAt>) {
    match place {
        Some(StatusAt::Port(port)) => {
            if let Ok(text) = format!(in alloc; ", status {port}") {
                say(rt, text.as_bytes());
            }
        }
        Some(StatusAt::Socket(path)) => {
            say(rt, b", status ");
            say(rt, path.as_bytes());
        }
        None => {}
    }
}

/// Writes what else is asked for where a book is kept.
fn tell_options(rt: &HostRuntime, alloc: Global, options: &KeepOptions) {
    let limits = &options.limits;
    tell_limit(rt, alloc, "most entries", limits.most_entries);
    tell_limit(rt, alloc, "most parts", limits.most_parts);
    tell_limit(rt, alloc, "reserve", limits.reserve);
    tell_limit(rt, alloc, "memory", limits.memory);
    tell_limit(rt, alloc, "rate", limits.rate);
    tell_limit(rt, alloc, "per firm", limits.per_firm);
    tell_limit(rt, alloc, "held", limits.held);
    tell_path(rt, b", replicate ", &options.replica);
    tell_place(rt, alloc, &options.status);
    tell_place(rt, alloc, &options.more_status);
    if options.log_calls {
        say(rt, b", log calls");
    }
    tell_path(rt, b", book ", &options.book.name);
    if options.book.is_asked {
        say(rt, b", ask book");
    }
    tell_path(rt, b", archive ", &options.archive);
}

/// Writes how a server serves.
fn tell_serving(rt: &HostRuntime, alloc: Global, port: u16, workers: u32, connections: u32) {
    if let Ok(text) = format!(in alloc;
        ", port {port}, workers {workers}, connections {connections}"
    ) {
        say(rt, text.as_bytes());
    }
}

/// Writes words, with a space before each.
fn tell_words(rt: &HostRuntime, command: &[u8], words: &[&str]) {
    say(rt, command);
    for word in words {
        say(rt, b" ");
        say(rt, word.as_bytes());
    }
}

/// Writes what is asked of a journal.
fn tell_look(rt: &HostRuntime, alloc: Global, house: &str, look: &Look) {
    tell_words(rt, b"verify", &[house, look.journal.as_str()]);
    if look.totals {
        say(rt, b", totals");
    }
    tell_limit(rt, alloc, "trade", look.trade);
}

/// Writes which journal is to be written anew, and how.
fn tell_extension(rt: &HostRuntime, house: &str, paths: &Extension) {
    let (journal, larger) = (paths.journal.as_str(), paths.larger.as_str());
    tell_words(rt, b"extend", &[house, journal, larger, paths.to.as_str()]);
}

/// Writes which journal's live changes are to begin a new book, and how.
fn tell_rolling(rt: &HostRuntime, house: &str, rolling: &Rolling) {
    let paths = &rolling.paths;
    let (journal, larger) = (paths.journal.as_str(), paths.larger.as_str());
    tell_words(rt, b"roll", &[house, journal, larger, paths.to.as_str()]);
    if rolling.is_open {
        say(rt, b", open");
    }
    tell_path(rt, b", map ", &rolling.map);
}

/// Writes whose statement is asked for, and of which journal.
fn tell_stating(rt: &HostRuntime, stating: &Stating) {
    tell_words(rt, b"statement", &[stating.house.as_str()]);
    tell_path(rt, b", firm ", &stating.firm);
    tell_path(rt, b", journal ", &stating.journal);
}

/// Writes what a line asks for.
fn tell_line(rt: &HostRuntime, alloc: Global, line: &Line) {
    match line {
        Line::Batch { house } => tell_words(rt, b"batch", &[house.as_str()]),
        Line::Trace { house, trade } => {
            tell_words(rt, b"trace", &[house.as_str()]);
            tell_limit(rt, alloc, "trade", *trade);
        }
        Line::Serve {
            house,
            port,
            workers,
            connections,
        } => {
            tell_words(rt, b"serve", &[house.as_str()]);
            tell_serving(rt, alloc, *port, *workers, *connections);
        }
        Line::Keep {
            house,
            journal,
            port,
            workers,
            connections,
            options,
        } => {
            tell_words(rt, b"keep", &[house.as_str(), journal.as_str()]);
            tell_serving(rt, alloc, *port, *workers, *connections);
            tell_options(rt, alloc, options);
        }
        Line::Verify { house, look } => tell_look(rt, alloc, house.as_str(), look),
        Line::Backup { journal, to } => {
            tell_words(rt, b"backup", &[journal.as_str(), to.as_str()]);
        }
        Line::Extend { house, paths } => tell_extension(rt, house.as_str(), paths),
        Line::Roll { house, rolling } => tell_rolling(rt, house.as_str(), rolling),
        Line::Statement(stating) => tell_stating(rt, stating),
    }
    say(rt, b"\n");
}

/// Writes what these words ask for, or the fault that they have.
pub(crate) fn tell_asked(rt: &HostRuntime, alloc: Global, words: &str, port: u16) {
    let words = words_of(alloc, words, port);
    match command_line(alloc, words.as_slice()) {
        Ok(line) => tell_line(rt, alloc, &line),
        Err(fault) => tell_fault(rt, alloc, &fault),
    }
}
