//! The threads of a server, from their start to their end.

use crate::accepting::Inlets;
use crate::bells::{Bell, Bells};
use crate::keeper::{Keeper, WOKEN};
use crate::news::NewsBoard;
use crate::shutter::Shutters;
use crate::words::Words;
use crossbeam_channel::Sender;
use gu_archive::Hours;
use gu_command::KeepError;
use gu_connection::Worker;
use gu_desk::{Gate, Job, Seat};
use gu_parties::House;
use gu_recorder::{OpenJournal, Recorder, Shutter};
use mio::net::TcpListener;
use mio::unix::SourceFd;
use mio::{Interest, Poll, Token, Waker};
use std::alloc::Global;
use std::net::{Net, TcpStream};
use std::os::fd::AsRawFd;
use std::sync::{Arc, Mutex, Wait};
use std::thread;
use std::thread::{JoinHandle, Threads};
use std::time::Clock;

/// What a worker's thread gives back.
type Done<J> = (Option<Seat<J>>, Result<(), KeepError>);

/// What the threads wake each other by, and the polls of the workers, of the thread that accepts
/// and of the journal's.
pub(crate) type Polls = (Bells, Vec<Poll>, Poll, Poll);

/// The polls of so many workers, who need the words of other machines or don't, what the watch can
/// shut of their connections, and where their files of the archive come from, if there is one.
pub(crate) fn make_polls<R: Net + Clock>(
    rt: &R,
    alloc: Global,
    workers: u32,
    need_words: bool,
    shutters: Arc<Shutters>,
    hours: Option<Arc<Hours>>,
) -> Result<Polls, KeepError> {
    let words = Words::new(rt, need_words)?;
    let mut bells: Vec<Bell> = Vec::new(alloc);
    let mut polls: Vec<Poll> = Vec::new(alloc);
    for at in 0..workers {
        let Ok((poll, waker)) = make_poll(rt) else {
            return Err(KeepError::Poll);
        };
        if bells.push(Bell::new(waker, at)).is_err() || polls.push(poll).is_err() {
            return Err(KeepError::Memory);
        }
    }
    let Ok((poll, acceptor)) = make_poll(rt) else {
        return Err(KeepError::Poll);
    };
    let Ok((journals, journal)) = make_poll(rt) else {
        return Err(KeepError::Poll);
    };
    let bells = Bells {
        workers: bells,
        acceptor,
        journal,
        writes: std::sync::atomic::AtomicBool::new(false),
        stop: std::sync::atomic::AtomicBool::new(false),
        words,
        news: NewsBoard::new(alloc),
        shutters,
        hours,
    };
    Ok((bells, polls, poll, journals))
}

/// A poll, and what wakes it.
fn make_poll<N: Net>(net: &N) -> std::io::Result<(Poll, Waker)> {
    let poll = Poll::new(net)?;
    let waker = Waker::new(poll.registry(), Token(WOKEN))?;
    Ok((poll, waker))
}

/// The last of the polls, and its bell.
fn next_poll<'a>(polls: &mut Vec<Poll>, bells: &'a Bells) -> Option<(Poll, &'a Bell)> {
    let poll = polls.pop()?;
    match bells.workers.get(polls.len()) {
        Some(bell) => Some((poll, bell)),
        None => None,
    }
}

/// Joins the workers. Their seats, or the first fault of one.
fn join_all<J: Job, R: Threads>(
    rt: &R,
    alloc: Global,
    handles: Vec<JoinHandle<Done<J>>>,
) -> Result<Vec<Seat<J>>, KeepError> {
    let mut seats = Vec::new(alloc);
    let mut fault = Ok(());
    for handle in handles {
        let (seat, served) = handle.join(rt);
        if let Some(seat) = seat {
            if seats.push(seat).is_err() {
                fault = Err(KeepError::Memory);
            }
        }
        if served.is_err() {
            fault = first_fault(fault, served);
        }
    }
    fault?;
    Ok(seats)
}

/// Of two faults the one that is told: a worker that found the journal failed isn't the first.
fn first_fault(one: Result<(), KeepError>, other: Result<(), KeepError>) -> Result<(), KeepError> {
    match one {
        Ok(()) => other,
        Err(KeepError::Failed) => other,
        Err(error) => Err(error),
    }
}

/// The next keeper, with a bell and a poll of its own, and where its connections go in.
fn next_keeper<'a, K: OpenJournal, J: Job, R, G>(
    worker: Worker<'a, J, R, G>,
    recorder: &'a Mutex<Recorder<K, J>>,
    bells: &'a Bells,
    polls: &mut Vec<Poll>,
) -> Result<(Keeper<'a, K, J, R, G>, Poll, Sender<TcpStream>), KeepError> {
    let Some((poll, bell)) = next_poll(polls, bells) else {
        return Err(KeepError::NoThread);
    };
    let Ok((inlet, streams)) = crossbeam_channel::unbounded(worker.alloc) else {
        return Err(KeepError::Memory);
    };
    let keeper = Keeper {
        worker,
        recorder,
        bells,
        bell,
        streams,
    };
    Ok((keeper, poll, inlet))
}

/// These, with news of the firms of a house.
pub(crate) fn named(waits: Polls, house: &House) -> Result<Polls, KeepError> {
    let (mut bells, polls, poll, journals) = waits;
    match bells.news.name_all(house) {
        Ok(()) => Ok((bells, polls, poll, journals)),
        Err(_) => Err(KeepError::Memory),
    }
}

/// Registers the listener with the poll of the thread that accepts.
fn watch(poll: &Poll, listener: &TcpListener) -> Result<(), KeepError> {
    let fd = listener.as_raw_fd();
    match poll
        .registry()
        .register(&mut SourceFd(&fd), Token(0), Interest::READABLE)
    {
        Ok(()) => Ok(()),
        Err(_) => Err(KeepError::Poll),
    }
}

/// Accepts the connections, and ends the workers with the last of them, or by a fault. Gives the
/// seats back. Nobody listens any more once the last connection is accepted.
fn accept_and_join<J: Job, R: Threads + Wait + Clock>(
    rt: &R,
    alloc: Global,
    poll: Poll,
    listener: TcpListener,
    inlets: Inlets<'_>,
    handles: Vec<JoinHandle<Done<J>>>,
    connections: u32,
) -> Result<Vec<Seat<J>>, KeepError> {
    let bells = inlets.bells;
    let accepted = inlets.accept_all(rt, alloc, poll, &listener, connections);
    // The watch has the socket too, so to close it isn't enough.
    if let Ok(shutter) = Shutter::of(&listener) {
        shutter.shut();
    }
    drop(listener);
    if let Some(board) = inlets.board {
        board.accepts_no_more();
    }
    // The workers take no more once their channels are closed.
    drop(inlets);
    if accepted.is_err() {
        bells.end();
    }
    bells.ring_all();
    let seats = join_all(rt, alloc, handles);
    accepted?;
    seats
}

/// What the workers and the thread that accepts wait by.
#[derive(Drop)]
pub(crate) struct Waits<'a> {
    pub(crate) bells: &'a Bells,
    pub(crate) polls: Vec<Poll>,
    pub(crate) poll: Poll,
}

/// Starts a worker for each seat, as this one but for its number, accepts the connections, and
/// joins the workers. Gives the seats back.
pub(crate) fn run_keepers<
    K: OpenJournal + Send,
    J: Job + Send + Sync,
    R: Threads + Wait + Clock + Sync,
    G: Gate + Sync,
>(
    first: Worker<'_, J, R, G>,
    listener: TcpListener,
    waits: Waits<'_>,
    recorder: &Mutex<Recorder<K, J>>,
    seats: Vec<Seat<J>>,
    connections: u32,
) -> Result<Vec<Seat<J>>, KeepError> {
    let Waits { bells, polls, poll } = waits;
    watch(&poll, &listener)?;
    thread::scope(thread::scope_env(), first.rt, move |scope| {
        let mut handles: Vec<JoinHandle<Done<J>>> = Vec::new(first.alloc);
        let mut to: Vec<Sender<TcpStream>> = Vec::new(first.alloc);
        let mut polls = polls;
        let mut number = 0u32;
        for seat in seats {
            let worker = first.numbered(number);
            let Ok((keeper, poll, inlet)) = next_keeper(worker, recorder, bells, &mut polls) else {
                bells.end();
                return Err(KeepError::NoThread);
            };
            let Ok(handle) = scope.spawn(move || keeper.keep(poll, seat)) else {
                bells.end();
                return Err(KeepError::NoThread);
            };
            if handles.push(handle).is_err() || to.insert(0, inlet).is_err() {
                bells.end();
                return Err(KeepError::Memory);
            }
            number = number.wrapping_add(1);
        }
        let inlets = Inlets {
            bells,
            to,
            board: first.tallies.board(),
        };
        accept_and_join(
            first.rt,
            first.alloc,
            poll,
            listener,
            inlets,
            handles,
            connections,
        )
    })
}
