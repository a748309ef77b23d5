//! What the two workers do.

use crate::desk::holding::{Holds, Turns};
use crate::lines::Call;
use crate::memory::tell_refused;
use gu_base::{Answer, FirmId, Memory, Report};
use gu_desk::{Desk, Gate, Job, Seat};
use std::alloc::Global;
use std::io::Eprint;
use std::sync::{Mutex, Wait};
use std::time::Clock;

/// What a worker does beside the other.
#[derive(Clone, Copy, PartialEq)]
pub(crate) enum Duty {
    /// Its call is held at the gate until the other lets it go on.
    IsHeld,
    /// It calls while the other is held, and then lets it go on.
    Frees,
    /// It calls, and then tells the other.
    Tells,
    /// It calls when the other has told.
    IsTold,
}

/// What a worker calls, and what it does beside the other.
#[derive(Drop)]
pub(crate) struct Task {
    pub(crate) duty: Duty,
    pub(crate) call: Call,
}

/// What the two workers call and do.
#[derive(Clone, Copy)]
pub(crate) struct Tasks<'a> {
    pub(crate) first: &'a Task,
    pub(crate) second: &'a Task,
}

/// What a worker was answered, and the numbers of the reports to its firm.
#[derive(Drop)]
pub(crate) struct Told {
    pub(crate) answer: Option<Answer>,
    pub(crate) told: Vec<u32>,
}

/// What a worker comes back with: its seat, and what it was told.
#[derive(Drop)]
pub(crate) struct Work<J: Job> {
    pub(crate) seat: Seat<J>,
    pub(crate) told: Told,
}

/// Calls the book. No answer where no memory is found.
fn call_once<J: Job, R: Wait>(
    rt: &R,
    alloc: Global,
    desk: &Desk<J>,
    seat: Seat<J>,
    call: &Call,
) -> (Seat<J>, Option<Answer>) {
    let (seat, answer) = desk.call(rt, alloc, seat, &call.by, &call.id, &call.command);
    (seat, answer.ok())
}

/// The same, where no memory is found once more with the seat that came back.
pub(crate) fn ask<J: Job, R: Wait + Eprint>(
    rt: &R,
    alloc: Global,
    desk: &Desk<J>,
    seat: Seat<J>,
    call: &Call,
) -> (Seat<J>, Option<Answer>) {
    let (seat, answer) = call_once(rt, alloc, desk, seat, call);
    match answer {
        Some(answer) => (seat, Some(answer)),
        None => {
            tell_refused(rt);
            call_once(rt, alloc, desk, seat, call)
        }
    }
}

/// Adds the numbers of these reports. Whether memory was found for them.
fn add_numbers(numbers: &mut Vec<u32>, told: &[Report]) -> bool {
    for report in told {
        if numbers.push(report.number.get()).is_err() {
            return false;
        }
    }
    true
}

/// The numbers of these reports. None where no memory is found for them, or wasn't for the reports.
fn numbers_of(alloc: Global, told: Result<Vec<Report>, Memory>) -> Option<Vec<u32>> {
    let told = told.ok()?;
    let mut numbers = Vec::new(alloc);
    let found = add_numbers(&mut numbers, told.as_slice());
    drop(told);
    if found {
        Some(numbers)
    } else {
        drop(numbers);
        None
    }
}

/// The numbers of the reports to a firm above a number.
fn read_once<J: Job, R: Wait>(
    rt: &R,
    alloc: Global,
    desk: &Desk<J>,
    seat: Seat<J>,
    firm: &FirmId,
    after: u32,
) -> (Seat<J>, Option<Vec<u32>>) {
    let (seat, told) = desk.read_reports(rt, alloc, seat, firm, after);
    (seat, numbers_of(alloc, told))
}

/// The same numbers, where no memory is found once more with the seat that came back.
pub(crate) fn read<J: Job, R: Wait + Eprint>(
    rt: &R,
    alloc: Global,
    desk: &Desk<J>,
    seat: Seat<J>,
    firm: &FirmId,
    after: u32,
) -> (Seat<J>, Vec<u32>) {
    let (seat, told) = read_once(rt, alloc, desk, seat, firm, after);
    match told {
        Some(told) => (seat, told),
        None => {
            tell_refused(rt);
            let (seat, told) = read_once(rt, alloc, desk, seat, firm, after);
            (seat, told_or_none(alloc, told))
        }
    }
}

/// What was told, nothing where no memory was found.
fn told_or_none(alloc: Global, told: Option<Vec<u32>>) -> Vec<u32> {
    match told {
        Some(told) => told,
        None => Vec::new(alloc),
    }
}

/// Waits until a worker may call. `false` where it isn't let in time.
fn may_call<R: Wait + Clock>(gate: &Holds<'_, R>, duty: Duty) -> bool {
    match duty {
        Duty::IsHeld => gate.before_book(0),
        Duty::Frees => gate.has_come() && gate.before_book(1),
        Duty::Tells => true,
        Duty::IsTold => gate.is_released(),
    }
}

/// Behind which number a worker reads its firm's reports.
fn read_after(duty: Duty) -> u32 {
    match duty {
        Duty::IsHeld | Duty::Frees => 1,
        Duty::Tells | Duty::IsTold => 0,
    }
}

/// Calls the book, and reads the firm's reports. One who tells the other does so between the two,
/// and one who frees it behind both.
fn call_and_read<J: Job, R: Wait + Clock + Eprint>(
    rt: &R,
    alloc: Global,
    desk: &Desk<J>,
    seat: Seat<J>,
    gate: &Holds<'_, R>,
    task: &Task,
) -> Work<J> {
    let (seat, answer) = ask(rt, alloc, desk, seat, &task.call);
    if task.duty == Duty::Tells {
        gate.release();
    }
    let (seat, told) = read(rt, alloc, desk, seat, &task.call.by, read_after(task.duty));
    if task.duty == Duty::Frees {
        gate.release();
    }
    Work {
        seat,
        told: Told { answer, told },
    }
}

/// A worker's call and readings.
pub(crate) fn attend<J: Job, R: Wait + Clock + Eprint>(
    rt: &R,
    alloc: Global,
    desk: &Desk<J>,
    seat: Seat<J>,
    turns: &Mutex<Turns>,
    task: &Task,
) -> Work<J> {
    let gate = Holds::new(rt, turns);
    if may_call(&gate, task.duty) {
        return call_and_read(rt, alloc, desk, seat, &gate, task);
    }
    Work {
        seat,
        told: Told {
            answer: None,
            told: Vec::new(alloc),
        },
    }
}
