//! The two cases, and how each is played.

use crate::desk::keeping::{Keeping, keeping_of};
use crate::desk::running::{Outcome, outcome_of};
use crate::desk::working::{Duty, Task, Tasks};
use crate::input::read_house;
use crate::lines::{Call, read_call};
use crate::memory::tell_refused;
use gu_base::Answer;
use gu_book::Book;
use std::alloc::Global;
use std::io::Eprint;
use std::sync::Wait;
use std::thread::Threads;
use std::time::Clock;

/// A case, its calls as lines of a day: the trades of the house, and what each of two workers calls
/// and does beside the other.
pub(crate) struct Case<'a> {
    trades: &'a [&'a [u8]],
    first: (Duty, &'a [u8]),
    second: (Duty, &'a [u8]),
}

/// AAA's call is held while CCC's is answered.
pub(crate) const HELD: Case<'static> = Case {
    trades: &[
        b"HSE T1 trade AAA A1 ESZ6 buy 100",
        b"HSE T2 trade CCC C1 ESZ6 buy 10",
    ],
    first: (Duty::IsHeld, b"AAA S1 split 1.0 100@A2"),
    second: (Duty::Frees, b"CCC S1 split 2.0 10@C1"),
};

/// BBB claims what AAA gives it, once it is told.
pub(crate) const TOLD: Case<'static> = Case {
    trades: &[b"HSE T1 trade AAA A1 ESZ6 buy 100"],
    first: (Duty::Tells, b"AAA S1 split 1.0 60@A1 40>BBB"),
    second: (Duty::IsTold, b"BBB C1 claim 2.2 B1"),
};

/// A trade of the house, and the call by which AAA splits it.
const KEPT: (&[&[u8]], &[u8]) = (
    &[b"HSE T1 trade AAA A1 ESZ6 buy 100"],
    b"AAA S1 split 1.0 100@A2",
);

/// Makes a call of the book, where no memory is found once more. Whether it is accepted.
fn is_accepted(rt: &HostRuntime, alloc: Global, book: &mut Book, call: &Call) -> bool {
    for _again in 0..2 {
        match book.apply(alloc, &call.by, &call.id, &call.command) {
            Ok(Answer::Accepted { .. }) => return true,
            Ok(_) => return false,
            Err(_) => tell_refused(rt),
        }
    }
    false
}

/// The call of a line.
fn call_of(rt: &HostRuntime, alloc: Global, line: &[u8]) -> Option<Call> {
    read_call(rt, alloc, line).ok()?
}

/// Makes the call of a line. Whether it is accepted.
fn is_line_accepted(rt: &HostRuntime, alloc: Global, book: &mut Book, line: &[u8]) -> bool {
    match call_of(rt, alloc, line) {
        Some(call) => {
            let accepted = is_accepted(rt, alloc, book, &call);
            drop(call);
            accepted
        }
        None => false,
    }
}

/// Makes the calls of these lines. Whether each is accepted.
fn are_accepted(rt: &HostRuntime, alloc: Global, book: &mut Book, lines: &[&[u8]]) -> bool {
    for line in lines {
        if !is_line_accepted(rt, alloc, book, line) {
            return false;
        }
    }
    true
}

/// The book of this house with these trades. None where they aren't all accepted.
fn opened(rt: &HostRuntime, alloc: Global, text: &[u8], trades: &[&[u8]]) -> Option<Book> {
    let house = read_house(rt, alloc, text)?;
    let mut book = Book::new(alloc, house);
    if are_accepted(rt, alloc, &mut book, trades) {
        Some(book)
    } else {
        drop(book);
        None
    }
}

/// What a worker calls and does.
fn task_of(rt: &HostRuntime, alloc: Global, of: (Duty, &[u8])) -> Option<Task> {
    let (duty, line) = of;
    let call = call_of(rt, alloc, line)?;
    Some(Task { duty, call })
}

/// What comes of these tasks over a book of this house with these trades. None where there is no
/// such book, or no desk.
fn played_by<H: Threads + Wait + Clock + Eprint + Sync>(
    rt: &HostRuntime,
    handle: &H,
    alloc: Global,
    house: &[u8],
    trades: &[&[u8]],
    tasks: &Tasks<'_>,
) -> Option<Outcome> {
    let book = opened(rt, alloc, house, trades)?;
    outcome_of(handle, alloc, book, tasks)
}

/// What comes of a case with this first task.
fn played_beside<H: Threads + Wait + Clock + Eprint + Sync>(
    rt: &HostRuntime,
    handle: &H,
    alloc: Global,
    house: &[u8],
    case: &Case<'_>,
    first: &Task,
) -> Option<Outcome> {
    let second = task_of(rt, alloc, case.second)?;
    let tasks = Tasks {
        first,
        second: &second,
    };
    let outcome = played_by(rt, handle, alloc, house, case.trades, &tasks);
    drop(second);
    outcome
}

/// What comes of a case over a book of this house. None where there is no such book, or no desk.
pub(crate) fn played<H: Threads + Wait + Clock + Eprint + Sync>(
    rt: &HostRuntime,
    handle: &H,
    alloc: Global,
    house: &[u8],
    case: &Case<'_>,
) -> Option<Outcome> {
    let first = task_of(rt, alloc, case.first)?;
    let outcome = played_beside(rt, handle, alloc, house, case, &first);
    drop(first);
    outcome
}

/// What is kept of a desk over a book of this house, before a call and after it. None where there
/// is no such book, or no desk.
pub(crate) fn kept<H: Wait + Eprint>(
    rt: &HostRuntime,
    handle: &H,
    alloc: Global,
    house: &[u8],
) -> Option<Keeping> {
    let (trades, line) = KEPT;
    let call = call_of(rt, alloc, line)?;
    let kept = match opened(rt, alloc, house, trades) {
        Some(book) => keeping_of(handle, alloc, book, &call),
        None => None,
    };
    drop(call);
    kept
}
