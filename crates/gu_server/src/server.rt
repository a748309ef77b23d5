//! The server: workers that share a book, each with one connection at a time.
ghost use Rattle.std.specs.Prelude.{◌≡◌, ◌+◌, IfOk, IsTrue};
ghost use Rattle.gu_book.specs.Seen.{stored};
ghost use Rattle.gu_desk.specs.Views.{is_worker_count};
ghost use Rattle.gu_desk.specs.Begins.{BeginsWith};
ghost use Rattle.gu_desk.specs.Runs.{IsRunOf};

use crate::accepting::accept_all;
use crossbeam_channel::Receiver;
use gu_board::Tallies;
use gu_book::Book;
use gu_command::ServeError;
use gu_connection::{LOGON_WAIT, Worker, prepare};
use gu_desk::{Desk, Gate, Ground, Job, Seat};
use gu_parties::House;
use std::alloc::Global;
use std::marker::Brand;
use std::net::{TcpListener, TcpStream};
use std::sync::Wait;
use std::thread;
use std::thread::{JoinHandle, Threads};
use std::time::Clock;

/// How many accepted connections wait for a worker, beside the one in hand. The others wait in the
/// system's queue, so that what a server keeps open is bounded by its workers.
const WAITING: usize = 1;

/// How much a server does.
#[derive(Clone, Copy)]
pub struct ServeLimits {
    /// How many workers share the book, 1 to 16.
    pub workers: u32,
    /// How many connections are served; with 0 there is no end.
    pub connections: u32,
    /// How long a connection may be without an accepted Logon, in seconds.
    pub logon_wait: u64,
}

/// Serves connections until the channel is closed, and gives the seat back.
fn work<J: Job, R: Wait + Clock, G: Gate>(
    worker: Worker<'_, J, R, G>,
    seat: Seat<J>,
    streams: Receiver<TcpStream>,
) -> Seat<J> {
    let mut seat = seat;
    for stream in streams.iter(worker.rt) {
        seat = worker.attend(seat, stream);
    }
    seat
}

/// Joins the workers, and gives their seats back.
fn join_all<J: Job, R: Threads>(
    rt: &R,
    alloc: Global,
    handles: Vec<JoinHandle<Seat<J>>>,
) -> Result<Vec<Seat<J>>, ServeError> {
    let mut seats = Vec::new(alloc);
    for handle in handles {
        if seats.push(handle.join(rt)).is_err() {
            return Err(ServeError::Memory);
        }
    }
    Ok(seats)
}

/// Starts a worker for each seat, as this one but for its number, accepts the connections, and
/// joins the workers. Gives the seats back.
fn run_workers<J: Job + Send + Sync, R: Threads + Wait + Clock + Sync, G: Gate + Sync>(
    first: Worker<'_, J, R, G>,
    listener: &TcpListener,
    seats: Vec<Seat<J>>,
    connections: u32,
) -> Result<Vec<Seat<J>>, ServeError> {
    let Ok((to, from)) = crossbeam_channel::bounded(first.alloc, WAITING) else {
        return Err(ServeError::Memory);
    };
    // Whatever ends the scope, the channel is closed then, and the workers end with their
    // connections.
    thread::scope(thread::scope_env(), first.rt, move |scope| {
        let mut handles: Vec<JoinHandle<Seat<J>>> = Vec::new(first.alloc);
        let mut number = 0u32;
        for seat in seats {
            let Ok(streams) = from.clone() else {
                return Err(ServeError::Memory);
            };
            let worker = first.numbered(number);
            let Ok(handle) = scope.spawn(move || work(worker, seat, streams)) else {
                return Err(ServeError::NoThread);
            };
            if handles.push(handle).is_err() {
                return Err(ServeError::Memory);
            }
            number = number.wrapping_add(1);
        }
        accept_all(first.rt, listener, &to, connections)?;
        drop(to);
        join_all(first.rt, first.alloc, handles)
    })
}

/// The first worker, with so many seconds for a Logon. It reads no book's name.
fn first_worker<'a, J: Job, R, G>(
    rt: &'a R,
    alloc: Global,
    desk: &'a Desk<J>,
    house: &'a House,
    gate: &'a G,
    tallies: &'a Tallies,
    logon_wait: u64,
) -> Worker<'a, J, R, G> {
    Worker {
        rt,
        alloc,
        desk,
        house,
        book: None,
        gate,
        tallies,
        logon_wait,
        number: 0,
    }
}

/// A desk over this ground, from its opening to its close.
fn run_desk<J: Job + Send + Sync, R: Threads + Wait + Clock + Sync, G: Gate + Sync>(
    rt: &R,
    alloc: Global,
    listener: &TcpListener,
    house: &House,
    ground: Ground,
    limits: ServeLimits,
    gate: &G,
) -> Result<Book, ServeError>
    requires name { ground.name ≡ J.name }
    requires parts { ground.workers + 1 ≡ J.parts }
    requires table { ground.table ≡ J.table }
    requires opening { ground.opening ≡ J.opening }
    ensures { IfOk result (λ b. IsRunOf J.opening (stored b)) }
{
    let (desk, seats) = match Desk::<J>::new(alloc, ground) {
        Ok(opened) => opened,
        Err((book, _)) => {
            drop(book);
            return Err(ServeError::Memory);
        }
    };
    let tallies = Tallies::none(alloc, house.house());
    let first = first_worker(rt, alloc, &desk, house, gate, &tallies, limits.logon_wait);
    let seats = match run_workers(first, listener, seats, limits.connections) {
        Ok(seats) => seats,
        Err(error) => {
            drop(desk);
            return Err(error);
        }
    };
    match desk.close(seats) {
        Ok(book) => Ok(book),
        Err(left) => {
            drop(left);
            Err(ServeError::NoThread)
        }
    }
}

/// Serves within these limits, by workers that share the book. Gives the book back when all
/// connections have ended. One that has no accepted Logon in time is ended, and nothing is sent to
/// it.
///
/// # Errors
///
/// `Accept`, `NoThread` and `Memory`, when the workers have ended; the book is dropped.
pub fn serve_within<R: Threads + Wait + Clock + Sync, G: Gate + Sync>(
    rt: &R,
    alloc: Global,
    listener: &TcpListener,
    book: Book,
    limits: ServeLimits,
    gate: &G,
) -> Result<Book, ServeError>
    requires { IsTrue (is_worker_count limits.workers) }
    ensures run { IfOk result (λ b. IsRunOf (stored book) (stored b)) }
    ensures begins { IfOk result (λ b. BeginsWith b.history book.history) }
{
    let (house, ground) = match prepare(alloc, book, limits.workers) {
        Ok(prepared) => prepared,
        Err(error) => return Err(error),
    };
    let served = run_desk::<Brand, R, G>(rt, alloc, listener, &house, ground, limits, gate);
    drop(house);
    served
}

/// Serves so many connections, or with 0 connections without end, by 1 to 16 workers that share the
/// book. Gives the book back when all have ended. A connection has 30 seconds for its Logon.
///
/// # Errors
///
/// As `serve_within`.
pub fn serve<R: Threads + Wait + Clock + Sync, G: Gate + Sync>(
    rt: &R,
    alloc: Global,
    listener: &TcpListener,
    book: Book,
    workers: u32,
    connections: u32,
    gate: &G,
) -> Result<Book, ServeError>
    requires { IsTrue (is_worker_count workers) }
    ensures run { IfOk result (λ b. IsRunOf (stored book) (stored b)) }
    ensures begins { IfOk result (λ b. BeginsWith b.history book.history) }
{
    let limits = ServeLimits {
        workers,
        connections,
        logon_wait: LOGON_WAIT,
    };
    serve_within(rt, alloc, listener, book, limits, gate)
}
