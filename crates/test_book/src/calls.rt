//! A call, and that a book which lacks memory tells what it told before.

use crate::lines::{Call, show_answer};
use crate::memory::tell_refused;
use crate::snapshot::{BookSnapshot, take_snapshot};
use gu_book::Book;
use std::alloc::Global;

/// Whether the book tells this. `None` where no memory is found to look.
fn tells(rt: &HostRuntime, alloc: Global, book: &Book, before: &BookSnapshot) -> Option<bool> {
    match take_snapshot(rt, alloc, book) {
        Some(now) => {
            let same = now == *before;
            drop(now);
            Some(same)
        }
        None => None,
    }
}

/// Makes a call, of which nothing more is asked where no memory is found. Whether all could be
/// written.
fn make_last(rt: &HostRuntime, alloc: Global, book: &mut Book, call: &Call) -> bool {
    match book.apply(alloc, &call.by, &call.id, &call.command) {
        Ok(answer) => show_answer(rt, &answer),
        Err(_) => rt.println("no memory").is_ok(),
    }
}

/// Makes a call once more, of a book that lacked memory and told this before. Whether all could be
/// written.
fn make_again(
    rt: &HostRuntime,
    alloc: Global,
    book: &mut Book,
    call: &Call,
    before: &BookSnapshot,
) -> bool {
    match tells(rt, alloc, book, before) {
        Some(true) => make_last(rt, alloc, book, call),
        Some(false) => rt.println("changed without memory").is_ok(),
        None => false,
    }
}

/// Calls a book that tells this. Where no memory is found it sees that the book tells what it told
/// before, and calls again. Whether all could be written.
fn make_once(
    rt: &HostRuntime,
    alloc: Global,
    book: &mut Book,
    call: &Call,
    before: &BookSnapshot,
) -> bool {
    match book.apply(alloc, &call.by, &call.id, &call.command) {
        Ok(answer) => show_answer(rt, &answer),
        Err(_) => {
            tell_refused(rt);
            make_again(rt, alloc, book, call, before)
        }
    }
}

/// Calls, and where no memory is found sees that the book tells what it told before, and calls
/// again. Whether all could be written.
pub(crate) fn make(rt: &HostRuntime, alloc: Global, book: &mut Book, call: &Call) -> bool {
    match take_snapshot(rt, alloc, book) {
        Some(before) => {
            let made = make_once(rt, alloc, book, call, &before);
            drop(before);
            made
        }
        None => false,
    }
}
