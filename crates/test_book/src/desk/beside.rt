//! Two workers side by side.

use crate::desk::holding::Turns;
use crate::desk::working::{Tasks, Work, attend};
use crate::memory::tell_refused;
use gu_desk::{Desk, Job, Seat};
use std::alloc::Global;
use std::io::Eprint;
use std::sync::{Mutex, Wait};
use std::thread;
use std::thread::Threads;
use std::time::Clock;

/// The first worker in a thread of its own, and the second beside it. A thread that isn't had is
/// asked for once more, since one after the other they would wait for each other. None where it
/// isn't had then.
pub(crate) fn side_by_side<J: Job + Send + Sync, R: Threads + Wait + Clock + Eprint + Sync>(
    rt: &R,
    alloc: Global,
    desk: &Desk<J>,
    seats: (Seat<J>, Seat<J>),
    tasks: &Tasks<'_>,
) -> Option<(Work<J>, Work<J>)> {
    let turns = Mutex::new(Turns::new());
    let turns = &turns;
    let (first, second) = seats;
    let (task, other_task) = (tasks.first, tasks.second);
    thread::scope(thread::scope_env(), rt, move |scope| {
        let led = match scope.spawn(move || attend(rt, alloc, desk, first, turns, task)) {
            Ok(handle) => handle,
            Err(refused) => {
                tell_refused(rt);
                match scope.spawn(refused.value) {
                    Ok(handle) => handle,
                    Err(_) => return None,
                }
            }
        };
        let other = attend(rt, alloc, desk, second, turns, other_task);
        Some((led.join(rt), other))
    })
}
