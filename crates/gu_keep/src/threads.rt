//! The threads of a server: the journal's, and beside it the workers.

use crate::bells::Bells;
use crate::running::{Polls, Waits, named, run_keepers};
use crate::scribe::Scribe;
use gu_command::KeepError;
use gu_connection::Worker;
use gu_desk::{Gate, Job, Seat};
use gu_recorder::{OpenJournal, Recorder};
use mio::net::TcpListener;
use std::sync::{Mutex, Wait};
use std::thread;
use std::thread::{JoinHandle, Threads};
use std::time::Clock;

/// Ends the journal's thread behind the workers. The seats, or the first fault.
fn end_scribe<J: Job, R: Threads>(
    rt: &R,
    bells: &Bells,
    seats: Result<Vec<Seat<J>>, KeepError>,
    scribe: JoinHandle<Result<(), KeepError>>,
) -> Result<Vec<Seat<J>>, KeepError> {
    bells.end();
    match scribe.join(rt) {
        Ok(()) => seats,
        // A worker has failed first.
        Err(KeepError::Failed) if seats.is_err() => seats,
        Err(error) => Err(error),
    }
}

/// Starts the journal's thread, serves as `run_keepers` does, and ends the thread. Gives the seats
/// back.
pub(crate) fn run_threads<
    K: OpenJournal + Send,
    J: Job + Send + Sync,
    R: Threads + Wait + Clock + Sync,
    G: Gate + Sync,
>(
    first: Worker<'_, J, R, G>,
    listener: TcpListener,
    waits: Polls,
    recorder: &Mutex<Recorder<K, J>>,
    seats: Vec<Seat<J>>,
    connections: u32,
) -> Result<Vec<Seat<J>>, KeepError> {
    let (bells, polls, poll, journals) = named(waits, first.house)?;
    let bells = &bells;
    thread::scope(thread::scope_env(), first.rt, move |scope| {
        let rt = first.rt;
        let scribe = Scribe {
            worker: first.numbered(0),
            recorder,
            bells,
        };
        let Ok(handle) = scope.spawn(move || scribe.keep(journals)) else {
            return Err(KeepError::NoThread);
        };
        let waits = Waits { bells, polls, poll };
        let seats = run_keepers(first, listener, waits, recorder, seats, connections);
        end_scribe(rt, bells, seats, handle)
    })
}
