//! A server on a thread of its own, from the first byte of its journal on, and the watch that looks
//! after it.
//!
//! Where a part of the server stands still the watch doesn't wait for it: it gives a fault back,
//! and whoever called ends the program, which cuts the threads off.

ghost use Rattle.std.specs.Prelude.{IfOk, IfErr, IsTrue};
ghost use Rattle.gu_book.specs.Seen.{stored};
ghost use Rattle.gu_desk.specs.Views.{is_worker_count};
ghost use Rattle.gu_command.specs.Faults.{is_keep_fault};
ghost use Rattle.gu_connection.specs.Serving.{IsServed};
ghost use Rattle.gu_keep.specs.Keeping.{Keeps};

use crate::bells::{archive_fault, share_hours};
use crate::pages::listen_at;
use crate::shutter::{Shutters, Watched};
use crate::starting::{fault_of, keep_port};
use crate::stepping::ClockWatch;
use crossbeam_channel::{Receiver, RecvTimeoutError, Sender};
use gu_archive::Hours;
use gu_batch::{Sink, write_totals};
use gu_board::{Board, Log, Written, number, say_started, text};
use gu_book::Book;
use gu_command::{Fault, KeepError, Order, StatusAt};
use gu_log::{Event, Key};
use gu_parties::House;
use gu_recorder::{Journals, Shutter};
use gu_status::Part;
use std::alloc::Global;
use std::fs::File;
use std::io::Eprint;
use std::net::{Net, TcpListener, TcpStream};
use std::random::RandomSource;
use std::rt::Files;
use std::snapshot::Snapshot;
use std::sync::{Arc, Wait};
use std::thread;
use std::thread::{Promise, Threads};
use std::time::{Clock, Duration};

/// For how many seconds a part may stand still.
const MOST_STILL: u64 = 30;

/// What ties a server's thread to the watch: what the server has, and what the watch has.
type Tie = (Tied, Watching);

/// What the server has: an end of a channel that is closed once its thread has ended, the board,
/// and where it hands over what the watch can shut.
type Tied = (Sender<u8>, Watched);

/// What the watch has: the other ends, what it can shut of connections, and the archive's hours.
type Watching = (
    Receiver<u8>,
    Receiver<Shutter>,
    Arc<Shutters>,
    Option<Arc<Hours>>,
);

/// That a server of this house gives a book back that calls made of the opening one, or a fault of
/// its own.
#[derive(Drop)]
struct OfHouse(Snapshot<House>);

impl Promise<Result<Book, Fault>> for OfHouse {
    ghost use Rattle.std.specs.Prelude.{IfOk, IfErr, IsTrue};
    ghost use Rattle.gu_book.specs.Seen.{stored};
    ghost use Rattle.gu_command.specs.Faults.{is_keep_fault};
    ghost use Rattle.gu_connection.specs.Serving.{IsServed};

    ghost kept_by = { λ p r. IfOk r (λ b. IsServed p.0.value (stored b))
        × IfErr r (λ e. IsTrue (is_keep_fault e)) };
}

/// Says which part stands still.
fn say_stuck<R: Wait + Clock>(rt: &R, alloc: Global, board: &Board, part: Part) {
    let name = match part {
        Part::Journal => String::from_str(alloc, "journal"),
        Part::Acceptor => String::from_str(alloc, "acceptor"),
        Part::Clock => String::from_str(alloc, "clock"),
        Part::Worker(at) => format!(in alloc; "worker {at}"),
    };
    if let Ok(name) = name {
        let fields = [
            text(Key::Part, name.as_bytes()),
            number(Key::Seconds, MOST_STILL),
        ];
        board.say(rt, Event::Stuck, &fields);
    }
}

/// Waits until a server has ended, or a part of it stands still: which. Looks at the clock too, and
/// opens the archive's next hour.
fn watch<R: Wait + Clock + Files<File = File>>(
    rt: &R,
    alloc: Global,
    ended: &Receiver<u8>,
    board: &Board,
    hours: Option<&Hours>,
) -> Option<Part> {
    let mut clock = ClockWatch::new();
    for _ in rt.forever() {
        clock.look(rt, alloc, board);
        if let Some(hours) = hours {
            hours.look(rt, alloc);
        }
        match ended.recv_timeout(rt, Duration::from_secs(1)) {
            Err(RecvTimeoutError::Timeout) => {}
            _ => return None,
        }
        board.begin_second(rt);
        if let Some(part) = board.stuck(MOST_STILL) {
            return Some(part);
        }
    }
    unreachable!()
}

/// Opens a journal and serves its book, as `keep_port` does, on a thread of its own, until that has
/// ended or a part of the server stands still.
#[tactic(auto, using(crate::proofs::Sent::served_sent))]
fn keep_beside<
    R: Threads
        + Wait
        + Clock
        + Net<Stream = TcpStream, Listener = TcpListener>
        + RandomSource
        + Files<File = File>
        + Copy
        + Send
        + Sync
        + 'static,
    K: Journals + Drop + Send + 'static,
>(
    rt: &R,
    alloc: Global,
    journals: K,
    text: Vec<u8>,
    house: House,
    order: Order,
    board: &Board,
    tie: Tie,
) -> Result<Book, Fault>
    requires workers { IsTrue (is_worker_count order.workers) }
    ensures served { IfOk result (λ b. IsServed house (stored b)) }
    ensures fault { IfErr result (λ e. IsTrue (is_keep_fault e)) }
{
    let ((running, watched), (ended, shutters, connections, hours)) = tie;
    let promise = OfHouse(Snapshot::of(&house));
    let there = *rt;
    let server = move ||
        requires workers { IsTrue (is_worker_count order.workers) }
        ensures served { IfOk result (λ b. IsServed house (stored b)) }
        ensures fault { IfErr result (λ e. IsTrue (is_keep_fault e)) }
    {
        let served = keep_port(&there, alloc, journals, &text, house, &order, &watched);
        drop(running);
        served
    };
    let Ok(child) = thread::spawn_with(rt, promise, server) else {
        return Err(Fault::Keep(KeepError::NoThread));
    };
    match watch(rt, alloc, &ended, board, hours.as_deref()) {
        None => child.join(rt),
        Some(part) => {
            say_stuck(rt, alloc, board, part);
            if let Ok(shutter) = shutters.try_recv(rt) {
                shutter.shut();
            }
            connections.shut_all(rt);
            Err(Fault::Keep(KeepError::Stuck))
        }
    }
}

/// Answers those who ask for pages at a place, on a thread of its own.
fn open_window<
    R: Threads
        + Wait
        + Clock
        + Net<Stream = TcpStream, Listener = TcpListener>
        + RandomSource
        + Files<File = File>
        + Copy
        + Send
        + Sync
        + 'static,
>(rt: &R, alloc: Global, place: &StatusAt, board: &Arc<Board>) -> Result<(), KeepError> {
    let Ok(shared) = Arc::try_clone(board) else {
        return Err(KeepError::Memory);
    };
    let Ok(window) = listen_at(rt, alloc, place) else {
        return Err(KeepError::Status);
    };
    let there = *rt;
    match thread::spawn(rt, move || window.answer_all(&there, alloc, shared)) {
        Ok(_) => Ok(()),
        Err(_) => Err(KeepError::NoThread),
    }
}

/// Answers those who ask for pages, where that is asked for.
fn open_pages<
    R: Threads
        + Wait
        + Clock
        + Net<Stream = TcpStream, Listener = TcpListener>
        + RandomSource
        + Files<File = File>
        + Copy
        + Send
        + Sync
        + 'static,
>(rt: &R, alloc: Global, order: &Order, board: &Arc<Board>) -> Result<(), KeepError> {
    if let Some(place) = &order.options.status {
        open_window(rt, alloc, place, board)?;
    }
    if let Some(place) = &order.options.more_status {
        open_window(rt, alloc, place, board)?;
    }
    Ok(())
}

/// Opens this hour's files of the archive, where an order asks for one: before anybody can come in.
fn open_hours<R: Clock + Files<File = File>>(
    rt: &R,
    alloc: Global,
    order: &Order,
) -> Result<Option<Arc<Hours>>, KeepError> {
    let Some(folder) = &order.options.archive else {
        return Ok(None);
    };
    match Hours::open(rt, alloc, folder.as_str(), order.workers) {
        Ok(hours) => match Arc::new(alloc, hours) {
            Ok(hours) => Ok(Some(hours)),
            Err(_) => Err(KeepError::Memory),
        },
        Err(error) => Err(archive_fault(error)),
    }
}

/// Opens the pages that an order asks for, and the archive, and makes what ties the server's thread
/// to the watch.
fn open_told<
    R: Threads
        + Wait
        + Clock
        + Net<Stream = TcpStream, Listener = TcpListener>
        + RandomSource
        + Files<File = File>
        + Copy
        + Send
        + Sync
        + 'static,
>(rt: &R, alloc: Global, order: &Order, board: &Arc<Board>) -> Result<Tie, KeepError> {
    open_pages(rt, alloc, order, board)?;
    let hours = open_hours(rt, alloc, order)?;
    let more = share_hours(&hours)?;
    let Ok(connections) = Arc::new(alloc, Shutters::new(alloc)) else {
        return Err(KeepError::Memory);
    };
    match (
        crossbeam_channel::bounded::<u8, Global>(alloc, 1),
        crossbeam_channel::bounded::<Shutter, Global>(alloc, 1),
        Arc::try_clone(board),
        Arc::try_clone(&connections),
    ) {
        (Ok((running, ended)), Ok((to, listeners)), Ok(board), Ok(shutters)) => {
            let watched = Watched {
                board,
                to,
                shutters,
                hours,
            };
            Ok(((running, watched), (ended, listeners, connections, more)))
        }
        _ => Err(KeepError::Memory),
    }
}

/// Says that the program ends, and why.
fn say_stopped<R: Wait + Clock>(rt: &R, alloc: Global, board: &Board, ended: &Result<(), Fault>) {
    let entries = number(Key::Entries, board.entries());
    match ended {
        Ok(()) => board.say(rt, Event::Stopped, &[entries, number(Key::Status, 0)]),
        Err(fault) => {
            let why = match format!(in alloc; "{fault}") {
                Ok(why) => why,
                Err(_) => String::new(alloc),
            };
            let fields = [
                entries,
                number(Key::Status, 1),
                text(Key::Why, why.as_bytes()),
            ];
            board.say(rt, Event::Stopped, &fields);
        }
    }
}

/// The board of an order, and the end of its log.
fn open_board<R: Threads + Wait + Eprint + Copy + Send + Sync + 'static>(
    rt: &R,
    alloc: Global,
    house: &House,
    order: &Order,
) -> Result<(Arc<Board>, Written), KeepError> {
    let Ok((log, written)) = Log::open(rt, alloc) else {
        return Err(KeepError::Memory);
    };
    let board = Board::new(
        alloc,
        log,
        order.options.log_calls,
        house,
        order.workers,
        order.options.limits,
    );
    let Ok(board) = board else {
        return Err(KeepError::Memory);
    };
    match Arc::new(alloc, board) {
        Ok(board) => Ok((board, written)),
        Err(_) => Err(KeepError::Memory),
    }
}

/// Opens the pages that an order asks for, and serves, on a thread of its own.
fn keep_told<
    R: Threads
        + Wait
        + Clock
        + Net<Stream = TcpStream, Listener = TcpListener>
        + RandomSource
        + Files<File = File>
        + Copy
        + Send
        + Sync
        + 'static,
    K: Journals + Drop + Send + 'static,
>(
    rt: &R,
    alloc: Global,
    journals: K,
    text: Vec<u8>,
    house: House,
    order: Order,
    board: &Arc<Board>,
) -> Result<Book, Fault>
    requires { IsTrue (is_worker_count order.workers) }
    ensures served { IfOk result (λ b. IsServed house (stored b)) }
    ensures fault { IfErr result (λ e. IsTrue (is_keep_fault e)) }
{
    match open_told(rt, alloc, &order, board) {
        Ok(tie) => keep_beside(rt, alloc, journals, text, house, order, board, tie),
        Err(error) => {
            drop(journals);
            drop(house);
            Err(fault_of(alloc, &order, error))
        }
    }
}

/// Serves as an order asks for, and then writes the totals of the book.
fn keep_and_tell<
    R: Threads
        + Wait
        + Clock
        + Net<Stream = TcpStream, Listener = TcpListener>
        + RandomSource
        + Files<File = File>
        + Copy
        + Send
        + Sync
        + 'static,
    K: Journals + Drop + Send + 'static,
    W: Sink,
>(
    rt: &R,
    alloc: Global,
    journals: K,
    writer: &mut W,
    text: Vec<u8>,
    house: House,
    order: Order,
    board: &Arc<Board>,
) -> Result<(), Fault>
    requires { IsTrue (is_worker_count order.workers) }
    ensures { Keeps house (W.contents writer.old) (W.contents writer.new) (W.failed writer.old)
        (W.failed writer.new) result }
{
    let book = keep_told(rt, alloc, journals, text, house, order, board)?;
    let told = write_totals(alloc, &book, writer);
    drop(book);
    match told {
        Ok(()) => Ok(()),
        Err(error) => Err(Fault::Run(error)),
    }
}

/// Says what begins, serves, writes the totals, and says what has ended.
fn keep_said<
    R: Threads
        + Wait
        + Clock
        + Net<Stream = TcpStream, Listener = TcpListener>
        + RandomSource
        + Files<File = File>
        + Copy
        + Send
        + Sync
        + 'static,
    K: Journals + Drop + Send + 'static,
    W: Sink,
>(
    rt: &R,
    alloc: Global,
    journals: K,
    writer: &mut W,
    text: Vec<u8>,
    house: House,
    order: Order,
    board: &Arc<Board>,
    log_end: &Written,
) -> Result<(), Fault>
    requires { IsTrue (is_worker_count order.workers) }
    ensures { Keeps house (W.contents writer.old) (W.contents writer.new) (W.failed writer.old)
        (W.failed writer.new) result }
{
    say_started(rt, alloc, board, &order, &text);
    let ended = keep_and_tell(rt, alloc, journals, writer, text, house, order, board);
    say_stopped(rt, alloc, board, &ended);
    let _ = board.log().end(rt, alloc, log_end);
    ended
}

/// Serves as an order asks for, of a book that a journal of this house keeps, whose file has these
/// bytes. Writes the totals of the book when all connections have ended: of one that calls made of
/// the opening one. An operator is told of it, on standard error and where the order says so, of
/// the end behind the totals.
///
/// # Errors
///
/// `Journal`, where the journal can't be opened, isn't one of this house or failed; `Run`, where
/// the totals couldn't be written; else `Keep`.
pub fn keep_watched<
    R: Threads
        + Wait
        + Clock
        + Net<Stream = TcpStream, Listener = TcpListener>
        + RandomSource
        + Files<File = File>
        + Eprint
        + Copy
        + Send
        + Sync
        + 'static,
    K: Journals + Drop + Send + 'static,
    W: Sink,
>(
    rt: &R,
    alloc: Global,
    journals: K,
    writer: &mut W,
    text: Vec<u8>,
    house: House,
    order: Order,
) -> Result<(), Fault>
    requires { IsTrue (is_worker_count order.workers) }
    ensures { Keeps house (W.contents writer.old) (W.contents writer.new) (W.failed writer.old)
        (W.failed writer.new) result }
{
    match open_board(rt, alloc, &house, &order) {
        Ok((board, log_end)) => {
            keep_said(
                rt, alloc, journals, writer, text, house, order, &board, &log_end,
            )
        }
        Err(error) => {
            drop(journals);
            drop(house);
            Err(Fault::Keep(error))
        }
    }
}
