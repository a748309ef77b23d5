//! What an operator is told of the start, and of limits.

use crate::board::{Board, number, text};
use crate::version::{VERSION, commit};
use gu_base::{FirmId, Number};
use gu_command::{Order, StatusAt};
use gu_journal::HouseDigest;
use gu_limits::Ending;
use gu_log::{Event, Field, Key};
use std::alloc::Global;
use std::rt::Files;
use std::sync::Wait;
use std::time::Clock;

/// A field with a limit, or that there is none.
fn limit(key: Key, most: Option<u32>) -> Field<'static> {
    match most {
        Some(most) => number(key, u64::from(most)),
        None => text(key, b"none"),
    }
}

/// A field with a word, or that there is none.
fn word<'a>(key: Key, word: &'a Option<String>) -> Field<'a> {
    match word {
        Some(word) => text(key, word.as_bytes()),
        None => text(key, b"none"),
    }
}

/// A field that says whether an option was given.
fn switch(key: Key, is_on: bool) -> Field<'static> {
    text(key, if is_on { b"on" } else { b"no" })
}

/// A field with a place where figures are told, or that there is none.
fn place(key: Key, at: &Option<StatusAt>) -> Field<'_> {
    match at {
        Some(StatusAt::Port(port)) => number(key, u64::from(*port)),
        Some(StatusAt::Socket(path)) => text(key, path.as_bytes()),
        None => text(key, b"none"),
    }
}

/// Says that the program has begun: what it is, by a house file with these bytes, and all that its
/// line asks for.
pub fn say_started<R: Wait + Clock + Files>(
    rt: &R,
    alloc: Global,
    board: &Board,
    order: &Order,
    file: &[u8],
) {
    board.begins(rt);
    let pin = HouseDigest::of(file);
    let digest = format!(in alloc; "{pin}").ok();
    let commit = commit(rt, alloc);
    let options = &order.options;
    let limits = &options.limits;
    let endless = order.connections == 0;
    let fields = [
        text(Key::Version, VERSION.as_bytes()),
        word(Key::Commit, &commit),
        text(Key::House, order.house.as_bytes()),
        word(Key::HouseDigest, &digest),
        text(Key::Journal, order.journal.as_bytes()),
        number(Key::Port, u64::from(order.port)),
        number(Key::Workers, u64::from(order.workers)),
        limit(
            Key::Connections,
            if endless {
                None
            } else {
                Some(order.connections)
            },
        ),
        number(Key::Most, u64::from(Number::MAX)),
        limit(Key::MostEntries, limits.most_entries),
        limit(Key::MostParts, limits.most_parts),
        limit(Key::Reserve, limits.reserve),
        limit(Key::Memory, limits.memory),
        limit(Key::Rate, limits.rate),
        limit(Key::PerFirm, limits.per_firm),
        limit(Key::Held, limits.held),
        word(Key::Replicate, &options.replica),
        place(Key::StatusAt, &options.status),
        place(Key::MoreStatusAt, &options.more_status),
        switch(Key::LogCalls, options.log_calls),
        word(Key::Book, &options.book.name),
        switch(Key::AskBook, options.book.is_asked),
    ];
    board.say(rt, Event::Started, &fields);
}

/// Says that so many connections of a firm were closed for this.
pub fn say_closed<R: Wait + Clock>(
    rt: &R,
    board: Option<&Board>,
    firm: &FirmId,
    ending: Ending,
    count: u64,
) {
    if let Some(board) = board {
        let fields = [
            text(Key::Firm, firm.as_bytes()),
            text(Key::Why, ending.text().as_bytes()),
            number(Key::Connections, count),
        ];
        board.say(rt, Event::AtLimit, &fields);
    }
}

/// Says that descriptors or buffers lack, so that connections wait.
pub fn say_lack<R: Wait + Clock>(rt: &R, board: Option<&Board>) {
    if let Some(board) = board {
        let fields = [text(Key::Why, b"descriptors or buffers lack: connections wait")];
        board.say(rt, Event::AtLimit, &fields);
    }
}
