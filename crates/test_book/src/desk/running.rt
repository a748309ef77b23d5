//! A desk from its opening to its close, with two workers.

ghost use Rattle.std.specs.Prelude.{◌≡◌, ◌+◌};

use crate::desk::beside::side_by_side;
use crate::desk::closing::{Closed, close};
use crate::desk::working::{Tasks, Told, Work, read};
use crate::memory::tell_refused;
use gu_book::Book;
use gu_desk::{Desk, Ground, Job, Seat};
use std::alloc::Global;
use std::io::Eprint;
use std::marker::Brand;
use std::sync::Wait;
use std::thread::Threads;
use std::time::Clock;

/// What the two workers were answered and told, what the first was told in the end, and what the
/// close brought.
#[derive(Drop)]
pub(crate) struct Outcome {
    pub(crate) first: Told,
    pub(crate) second: Told,
    pub(crate) again: Vec<u32>,
    pub(crate) closed: Closed,
}

/// Reads all reports to the first worker's firm with its seat, and closes the desk. The list has
/// room for both seats.
fn read_and_close<J: Job, R: Wait + Eprint>(
    rt: &R,
    alloc: Global,
    desk: Desk<J>,
    list: Vec<Seat<J>>,
    works: (Work<J>, Work<J>),
    tasks: &Tasks<'_>,
) -> Outcome {
    let (first, second) = works;
    let (seat, again) = read(rt, alloc, &desk, first.seat, &tasks.first.call.by, 0);
    Outcome {
        first: first.told,
        second: second.told,
        again,
        closed: close(desk, list, seat, second.seat),
    }
}

/// The two workers at this desk, with the two seats of this list. None where there are no two, or
/// no thread.
fn work<J: Job + Send + Sync, R: Threads + Wait + Clock + Eprint + Sync>(
    rt: &R,
    alloc: Global,
    desk: &Desk<J>,
    seats: &mut Vec<Seat<J>>,
    tasks: &Tasks<'_>,
) -> Option<(Work<J>, Work<J>)> {
    let second = seats.pop()?;
    match seats.pop() {
        Some(first) => side_by_side(rt, alloc, desk, (first, second), tasks),
        None => {
            drop(second);
            None
        }
    }
}

/// The two workers at this desk, to its close. None where there are no two seats, or no thread.
fn work_and_close<J: Job + Send + Sync, R: Threads + Wait + Clock + Eprint + Sync>(
    rt: &R,
    alloc: Global,
    desk: Desk<J>,
    seats: Vec<Seat<J>>,
    tasks: &Tasks<'_>,
) -> Option<Outcome> {
    let mut seats = seats;
    let works = work(rt, alloc, &desk, &mut seats, tasks);
    match works {
        Some(works) => Some(read_and_close(rt, alloc, desk, seats, works, tasks)),
        None => {
            drop(seats);
            drop(desk);
            None
        }
    }
}

/// The two workers at a desk over this ground. The book comes back where there is no memory for the
/// desk.
fn run<J: Job + Send + Sync, R: Threads + Wait + Clock + Eprint + Sync>(
    rt: &R,
    alloc: Global,
    ground: Ground,
    tasks: &Tasks<'_>,
) -> Result<Option<Outcome>, Book>
    requires name { ground.name ≡ J.name }
    requires parts { ground.workers + 1 ≡ J.parts }
    requires table { ground.table ≡ J.table }
    requires opening { ground.opening ≡ J.opening }
{
    match Desk::<J>::new(alloc, ground) {
        Ok((desk, seats)) => Ok(work_and_close(rt, alloc, desk, seats, tasks)),
        Err((book, _)) => Err(book),
    }
}

/// The same over this book.
fn attempt<R: Threads + Wait + Clock + Eprint + Sync>(
    rt: &R,
    alloc: Global,
    book: Book,
    tasks: &Tasks<'_>,
) -> Result<Option<Outcome>, Book> {
    match Ground::new(alloc, book, 2) {
        Ok(ground) => run::<Brand, R>(rt, alloc, ground, tasks),
        Err((book, _)) => Err(book),
    }
}

/// The same, and where there is no memory for the ground or the desk once more with the book that
/// comes back.
pub(crate) fn outcome_of<R: Threads + Wait + Clock + Eprint + Sync>(
    rt: &R,
    alloc: Global,
    book: Book,
    tasks: &Tasks<'_>,
) -> Option<Outcome> {
    match attempt(rt, alloc, book, tasks) {
        Ok(outcome) => outcome,
        Err(book) => {
            tell_refused(rt);
            match attempt(rt, alloc, book, tasks) {
                Ok(outcome) => outcome,
                Err(book) => {
                    drop(book);
                    None
                }
            }
        }
    }
}
