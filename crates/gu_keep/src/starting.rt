//! The start of a server whose book is kept: the journal, the port, the desk.

ghost use Rattle.std.specs.Prelude.{◌≡◌, ◌+◌, IfOk, IfErr, IsTrue};
ghost use Rattle.gu_base.specs.Runs.{IsRunFrom, opening_history};
ghost use Rattle.gu_book.specs.Seen.{stored};
ghost use Rattle.gu_desk.specs.Runs.{IsRunOf};
ghost use Rattle.gu_desk.specs.Views.{is_worker_count};
ghost use Rattle.gu_command.specs.Faults.{is_keep_fault};
ghost use Rattle.gu_connection.specs.Serving.{IsServed};

use crate::bells::share_hours;
use crate::running::{Polls, make_polls};
use crate::shutter::Watched;
use crate::threads::run_threads;
use gu_board::{Board, Tallies, Teller, number, text};
use gu_book::Book;
use gu_command::{Fault, KeepError, NamedBook, Order, fault_at};
use gu_connection::{LOGON_WAIT, Open, Worker, listening, new_key, prepare};
use gu_desk::{Ground, Job};
use gu_limits::Limits;
use gu_log::{Event, Key};
use gu_parties::House;
use gu_recorder::{Checksum, Journals, OpenJournal, Shutter, close_desk, make_room, open_desk};
use mio::net::TcpListener;
use std::alloc::Global;
use std::marker::Brand;
use std::net::{Ipv4Addr, Net, SocketAddr};
use std::random::RandomSource;
use std::sync::{Arc, Mutex, Wait};
use std::thread::Threads;
use std::time::{Clock, Instant};

/// Where connections come in, of which firms, to which book, what is counted of these, and after
/// how many connections the server ends (0: never).
#[derive(Drop)]
struct Door<'a> {
    listener: TcpListener,
    house: &'a House,
    named: &'a NamedBook,
    tallies: &'a Tallies,
    connections: u32,
}

/// A desk over this ground, from its opening to its close.
fn run_kept<K: OpenJournal + Drop + Send, J: Job + Send + Sync, R: Threads + Wait + Clock + Sync>(
    rt: &R,
    alloc: Global,
    door: Door<'_>,
    polls: Polls,
    ground: Ground,
    journal: K,
) -> Result<Book, KeepError>
    requires name { ground.name ≡ J.name }
    requires parts { ground.workers + 1 ≡ J.parts }
    requires table { ground.table ≡ J.table }
    requires opening { ground.opening ≡ J.opening }
    requires house { K.house journal ≡ J.opening.house }
    requires says { K.says journal J.opening.history }
    requires takes { K.takes journal }
    ensures { IfOk result (λ b. IsRunOf J.opening (stored b)) }
{
    let (desk, seats, recorder) = open_desk::<K, J>(alloc, ground, journal)?;
    let recorder = Mutex::new(recorder);
    let Door {
        listener,
        house,
        named,
        tallies,
        connections,
    } = door;
    let first = Worker {
        rt,
        alloc,
        desk: &desk,
        house,
        book: Some(named),
        gate: &Open,
        tallies,
        logon_wait: LOGON_WAIT,
        number: 0,
    };
    let served = run_threads(first, listener, polls, &recorder, seats, connections);
    tallies.tell(rt);
    let seats = match served {
        Ok(seats) => seats,
        Err(error) => {
            drop(desk);
            return Err(error);
        }
    };
    let board = tallies.board();
    if let Some(board) = board {
        board.takes_journal();
    }
    let closed = close_desk(rt, alloc, desk, recorder.into_inner(), seats, board);
    if let Some(board) = board {
        board.leaves_journal();
    }
    let (book, journal) = closed?;
    drop(journal);
    Ok(book)
}

/// What is counted of the firms of a book, from now on.
fn count<R: Clock>(
    rt: &R,
    alloc: Global,
    book: &Book,
    limits: Limits,
    board: &Arc<Board>,
) -> Result<Tallies, KeepError> {
    let Ok(start) = Instant::now(rt) else {
        return Err(KeepError::Clock);
    };
    let Ok(board) = Arc::try_clone(board) else {
        return Err(KeepError::Memory);
    };
    match Tallies::new(alloc, book, limits, start, Some(board)) {
        Ok(tallies) => Ok(tallies),
        Err(_) => Err(KeepError::Memory),
    }
}

/// What a line asks for of the server: the port, 1 to 16 workers, after how many connections it
/// ends (0: never), whether other machines have a say in it, what firms may have, and which book it
/// is.
#[derive(Clone, Copy)]
struct Request<'a> {
    port: u16,
    workers: u32,
    connections: u32,
    is_replicated: bool,
    limits: Limits,
    named: &'a NamedBook,
}

/// Where connections come in, and what the server's threads wait by.
#[derive(Drop)]
struct Entrance {
    listener: TcpListener,
    polls: Polls,
}

/// Hands the watch what it can shut of a listener.
fn hand_over<R: Wait>(rt: &R, listener: &TcpListener, watched: &Watched) -> Result<(), KeepError> {
    let Ok(shutter) = Shutter::of(listener) else {
        return Err(KeepError::Listen);
    };
    match watched.to.try_send(rt, shutter) {
        Ok(()) => Ok(()),
        Err(_) => Err(KeepError::Listen),
    }
}

/// Listens on a port of 127.0.0.1, with as long a queue as the system allows.
fn listen<R: Net + Wait + Clock>(
    rt: &R,
    alloc: Global,
    request: Request<'_>,
    watched: &Watched,
) -> Result<Entrance, KeepError> {
    let address = SocketAddr::from((Ipv4Addr::LOCALHOST, request.port));
    let bound = TcpListener::bind(rt, address);
    let listener = match listening(bound, KeepError::Memory, KeepError::Listen) {
        Ok(listener) => listener,
        Err(error) => return Err(error),
    };
    hand_over(rt, &listener, watched)?;
    let Ok(shutters) = Arc::try_clone(&watched.shutters) else {
        return Err(KeepError::Memory);
    };
    let hours = share_hours(&watched.hours)?;
    let Request {
        workers,
        is_replicated,
        ..
    } = request;
    match make_polls(rt, alloc, workers, is_replicated, shutters, hours) {
        Ok(polls) => Ok(Entrance { listener, polls }),
        Err(error) => Err(error),
    }
}

/// Serves this book, which the journal says, to those who come in.
fn serve_listener<K: OpenJournal + Drop + Send, R: Threads + Wait + Clock + Sync>(
    rt: &R,
    alloc: Global,
    entrance: Entrance,
    book: Book,
    journal: K,
    request: Request<'_>,
    board: &Arc<Board>,
) -> Result<Book, KeepError>
    requires workers { IsTrue (is_worker_count request.workers) }
    requires says { K.says journal book.history }
    requires takes { K.takes journal }
    requires house { K.house journal ≡ book.house }
    ensures { IfOk result (λ b. IsRunOf (stored book) (stored b)) }
{
    let Entrance { listener, polls } = entrance;
    let tallies = match count(rt, alloc, &book, request.limits, board) {
        Ok(tallies) => tallies,
        Err(error) => {
            drop(book);
            drop(journal);
            return Err(error);
        }
    };
    let Ok((house, ground)) = prepare(alloc, book, request.workers) else {
        drop(journal);
        return Err(KeepError::Memory);
    };
    board.set_ready();
    let fields = [number(Key::Port, u64::from(request.port))];
    board.say(rt, Event::Listening, &fields);
    let door = Door {
        listener,
        house: &house,
        named: request.named,
        tallies: &tallies,
        connections: request.connections,
    };
    run_kept::<K, Brand, R>(rt, alloc, door, polls, ground, journal)
}

/// Lets a book and its journal go, since the server can't begin.
fn let_go<K: OpenJournal + Drop>(book: Book, journal: K, error: KeepError) -> KeepError {
    drop(book);
    drop(journal);
    error
}

/// Serves this book, which the journal says, on a port of 127.0.0.1, once there is room for a
/// group: till then nobody is taken in.
fn serve_kept<K: OpenJournal + Drop + Send, R: Threads + Wait + Clock + Net + Sync>(
    rt: &R,
    alloc: Global,
    book: Book,
    journal: K,
    request: Request<'_>,
    watched: &Watched,
) -> Result<Book, KeepError>
    requires workers { IsTrue (is_worker_count request.workers) }
    requires says { K.says journal book.history }
    requires takes { K.takes journal }
    requires house { K.house journal ≡ book.house }
    ensures { IfOk result (λ b. IsRunOf (stored book) (stored b)) }
{
    let entrance = match listen(rt, alloc, request, watched) {
        Ok(entrance) => entrance,
        Err(error) => return Err(let_go(book, journal, error)),
    };
    // Where the port is taken the journal stays as it is.
    let mut journal = journal;
    watched.board.takes_journal();
    if let Err(error) = make_room(rt, &mut journal) {
        drop(entrance);
        return Err(let_go(book, journal, error));
    }
    watched.board.has_written(journal.bytes() as u64);
    serve_listener(rt, alloc, entrance, book, journal, request, &watched.board)
}

/// The fault of a server that was asked for by an order: of its journal, or its archive.
pub(crate) fn fault_of(alloc: Global, order: &Order, error: KeepError) -> Fault
    ensures { IsTrue (is_keep_fault result) }
{
    match (error, &order.options.archive) {
        (KeepError::Record(cause), _) => fault_at(alloc, order.journal.as_str(), cause),
        (KeepError::Archive(_), Some(folder)) => fault_at(alloc, folder.as_str(), error),
        (other, _) => Fault::Keep(other),
    }
}

/// Notes that a book was recovered, in so many milliseconds, from a file with this checksum.
fn note_recovered<R: Wait + Clock>(
    rt: &R,
    board: &Board,
    book: &Book,
    checksum: Option<Checksum>,
    millis: u64,
) {
    board.count_book(book);
    let entries = number(Key::Entries, board.entries());
    let took = number(Key::Milliseconds, millis);
    match checksum {
        Some(checksum) => {
            board.has_written(checksum.bytes as u64);
            let fields = [
                entries,
                number(Key::Bytes, checksum.bytes as u64),
                text(Key::JournalDigest, &checksum.sha512),
                took,
            ];
            board.say(rt, Event::Recovered, &fields);
        }
        None => board.say(rt, Event::Recovered, &[entries, took]),
    }
    board.warn(rt);
}

/// Warns of a journal that others may read.
fn warn_of_others<R: Wait + Clock, K: OpenJournal>(rt: &R, board: &Board, journal: &K, path: &str) {
    if journal.is_others() {
        board.say(rt, Event::Readable, &[text(Key::Journal, path.as_bytes())]);
    }
}

/// Opens the journal that is asked for. Its book has a key that nobody knows.
fn open_journal<R: Wait + Clock + RandomSource, K: Journals>(
    rt: &R,
    alloc: Global,
    journals: K,
    text: &[u8],
    house: House,
    order: &Order,
    board: &Board,
) -> Result<(Book, K::Journal), Fault>
    ensures house { IfOk result (λ r. K.Journal.house r.1 ≡ house) }
    ensures book { IfOk result (λ r. r.0.house ≡ house) }
    ensures run { IfOk result (λ r. IsRunFrom house (opening_history house) r.0.history) }
    ensures says { IfOk result (λ r. K.Journal.says r.1 r.0.history) }
    ensures takes { IfOk result (λ r. K.Journal.takes r.1) }
    ensures fault { IfErr result (λ e. IsTrue (is_keep_fault e)) }
{
    let key = new_key(rt);
    let path = order.journal.as_str();
    let mut teller = Teller::new(rt, board);
    match journals.open(
        alloc,
        path,
        order.options.replica.as_deref(),
        text,
        house,
        key,
        &mut teller,
    ) {
        Ok((book, journal)) => {
            warn_of_others(rt, board, &journal, path);
            note_recovered(rt, board, &book, journal.checksum(), teller.millis());
            Ok((book, journal))
        }
        Err(fault) => Err(fault),
    }
}

/// Opens a journal of this house, whose file has these bytes, and serves its book on a port of
/// 127.0.0.1. Gives the book when all connections have ended: one that calls made of the opening
/// one.
///
/// # Errors
///
/// `Journal`, where the journal can't be opened, isn't one of this house or failed; else `Keep`.
pub(crate) fn keep_port<R: Threads + Wait + Clock + Net + RandomSource + Sync, K: Journals>(
    rt: &R,
    alloc: Global,
    journals: K,
    text: &[u8],
    house: House,
    order: &Order,
    watched: &Watched,
) -> Result<Book, Fault>
    requires { IsTrue (is_worker_count order.now.workers) }
    ensures served { IfOk result (λ b. IsServed house (stored b)) }
    ensures fault { IfErr result (λ e. IsTrue (is_keep_fault e)) }
{
    let request = Request {
        port: order.port,
        workers: order.workers,
        connections: order.connections,
        is_replicated: order.options.replica.is_some(),
        limits: order.options.limits,
        named: &order.options.book,
    };
    let opened = open_journal(rt, alloc, journals, text, house, order, &watched.board);
    let (book, journal) = match opened {
        Ok(opened) => opened,
        Err(fault) => return Err(fault),
    };
    match serve_kept::<K::Journal, R>(rt, alloc, book, journal, request, watched) {
        Ok(book) => Ok(book),
        Err(error) => Err(fault_of(alloc, order, error)),
    }
}
