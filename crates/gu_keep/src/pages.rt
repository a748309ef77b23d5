//! The pages of a server: figures, readiness and health over HTTP. A window where they are asked
//! for has a thread of its own, and each of its conversations has one.

use gu_board::{Board, heed};
use gu_command::StatusAt;
use gu_status::{Pages, Snapshot};
use http_server::{Config, Connection};
use std::alloc::Global;
use std::hash::RandomState;
use std::io::{Read, Write};
use std::net::{Ipv4Addr, Net, SocketAddr, TcpListener, TcpStream};
use std::os::unix::fs::FileTypeExt;
use std::os::unix::net::{UnixListener, UnixStream};
use std::random::RandomSource;
use std::rt::Files;
use std::sync::atomic::{AtomicU64, Ordering};
use std::sync::{Arc, Wait};
use std::thread::Threads;
use std::time::{Clock, Duration, Instant};
use std::{fs, io, thread};

/// How long a conversation may take, in milliseconds.
const MOST_TIME: u64 = 2000;

/// How many reads and writes it may take.
const MOST_STEPS: usize = 4096;

/// How many conversations a window has at a time. Others wait.
const MOST_AT_ONCE: u64 = 64;

/// How long whoever listens on a socket may take to be found, in milliseconds.
const ASKED_FOR: u64 = 1000;

/// How long others wait, and the window after a fault of accept, in milliseconds.
const SHORT_WAIT: u64 = 20;

/// Where pages are asked for.
#[derive(Drop)]
pub(crate) enum Window {
    /// A port of 127.0.0.1.
    Port(TcpListener),
    /// A socket of the file system.
    Socket(UnixListener),
}

/// Whether somebody listens on a socket, or nobody can tell within a second, as where whoever
/// listens there takes nobody any more. It is asked on a thread of its own.
fn is_listened_at<
    R: Threads
        + Wait
        + Clock
        + Net<Stream = TcpStream, Listener = TcpListener>
        + Copy
        + Send
        + Sync
        + 'static,
>(rt: &R, alloc: Global, path: &str) -> bool {
    let Ok((to, answer)) = crossbeam_channel::bounded::<bool, Global>(alloc, 1) else {
        return true;
    };
    let Ok(path) = String::from_str(alloc, path) else {
        return true;
    };
    let there = *rt;
    let asks = thread::spawn(rt, move || {
        let is_there = UnixStream::connect(&there, path.as_str()).is_ok();
        let _ = to.try_send(&there, is_there);
    });
    if asks.is_err() {
        return true;
    }
    match answer.recv_timeout(rt, Duration::from_millis(ASKED_FOR)) {
        Ok(is_there) => is_there,
        Err(_) => true,
    }
}

/// Takes the socket away that an earlier run left at a path. Another file stays, as does a socket
/// on which somebody listens.
fn make_way<
    R: Threads
        + Wait
        + Clock
        + Net<Stream = TcpStream, Listener = TcpListener>
        + Files
        + Copy
        + Send
        + Sync
        + 'static,
>(rt: &R, alloc: Global, path: &str) -> io::Result<()> {
    let Ok(found) = fs::symlink_metadata(rt, path) else {
        return Ok(());
    };
    if found.file_type().is_socket() && !is_listened_at(rt, alloc, path) {
        return fs::remove_file(rt, path);
    }
    Ok(())
}

/// Listens at a place: on a port of 127.0.0.1, or on a socket.
pub(crate) fn listen_at<
    R: Threads
        + Wait
        + Clock
        + Net<Stream = TcpStream, Listener = TcpListener>
        + Files
        + Copy
        + Send
        + Sync
        + 'static,
>(rt: &R, alloc: Global, place: &StatusAt) -> io::Result<Window> {
    match place {
        StatusAt::Port(port) => {
            let at = SocketAddr::from((Ipv4Addr::LOCALHOST, *port));
            Ok(Window::Port(TcpListener::bind(rt, at)?))
        }
        StatusAt::Socket(path) => {
            make_way(rt, alloc, path.as_str())?;
            Ok(Window::Socket(UnixListener::bind(rt, path.as_str())?))
        }
    }
}

/// Moves a connection on by one read or one write.
fn step<S: Read + Write>(connection: &mut Connection, stream: &mut S) -> io::Result<()> {
    if connection.wants_write() {
        connection.write_to(stream)?;
    } else {
        connection.read_from(stream)?;
    }
    Ok(())
}

/// Whoever asks for pages.
#[derive(Drop)]
enum Visitor {
    Port(TcpStream),
    Socket(UnixStream),
}

impl Visitor {
    /// Whether it asks at a socket.
    fn is_at_socket(&self) -> bool {
        match self {
            Visitor::Port(_) => false,
            Visitor::Socket(_) => true,
        }
    }

    /// Moves a connection on, for no longer than this.
    fn step(&mut self, connection: &mut Connection, wait: Duration) -> io::Result<()> {
        match self {
            Visitor::Port(stream) => {
                stream.set_read_timeout(Some(wait))?;
                stream.set_write_timeout(Some(wait))?;
                step(connection, stream)
            }
            Visitor::Socket(stream) => {
                stream.set_read_timeout(Some(wait))?;
                stream.set_write_timeout(Some(wait))?;
                step(connection, stream)
            }
        }
    }
}

/// Moves a connection on until it is answered, or has had the time that it may take. What an
/// operator says is heeded before that is answered.
fn converse<R: Wait + Clock>(
    rt: &R,
    board: &Board,
    connection: &mut Connection,
    pages: &mut Pages<'_>,
    visitor: &mut Visitor,
) -> io::Result<()> {
    let most = Duration::from_millis(MOST_TIME);
    let start = Instant::now(rt)?;
    for _ in 0..MOST_STEPS {
        connection.advance(pages);
        if let Some(word) = pages.take_word() {
            heed(rt, board, word);
        }
        let left = most.saturating_sub(start.elapsed(rt)?);
        if connection.is_done() || left.as_millis() == 0 {
            return Ok(());
        }
        visitor.step(connection, left)?;
    }
    Ok(())
}

/// Answers what a visitor asks for, as the server stood when it came.
fn answer<R: Wait + Clock + RandomSource>(
    rt: &R,
    alloc: Global,
    board: &Board,
    snapshot: &Snapshot,
    visitor: &mut Visitor,
) -> io::Result<()> {
    let keys = RandomState::new(rt)?;
    let at_socket = visitor.is_at_socket();
    let mut pages = Pages::new(alloc, snapshot, at_socket);
    let mut connection = Connection::new(alloc, keys, Config::default());
    converse(rt, board, &mut connection, &mut pages, visitor)
}

impl Visitor {
    /// Answers, and is no longer counted among those that are answered.
    fn answer_last<R: Wait + Clock + RandomSource>(
        self,
        rt: &R,
        alloc: Global,
        board: Arc<Board>,
        snapshot: Snapshot,
        open: Arc<AtomicU64>,
    ) {
        let mut visitor = self;
        let _ = answer(rt, alloc, &board, &snapshot, &mut visitor);
        open.fetch_sub(1, Ordering::SeqCst);
    }
}

/// Answers a visitor on a thread of its own: whether there is one.
fn answer_beside<R: Threads + Wait + Clock + RandomSource + Copy + Send + Sync + 'static>(
    rt: &R,
    alloc: Global,
    board: Arc<Board>,
    visitor: Visitor,
    snapshot: Snapshot,
    open: Arc<AtomicU64>,
) -> bool {
    let there = *rt;
    match thread::spawn(
        rt,
        move || visitor.answer_last(&there, alloc, board, snapshot, open),
    ) {
        Ok(_) => true,
        Err(_) => false,
    }
}

impl Window {
    /// Takes a visitor.
    fn accept(&self) -> io::Result<Visitor> {
        match self {
            Window::Port(listener) => Ok(Visitor::Port(listener.accept()?.0)),
            Window::Socket(listener) => Ok(Visitor::Socket(listener.accept()?.0)),
        }
    }

    /// Takes a visitor, and has it answered by how the server stands now; counts those that are
    /// answered.
    fn answer_one<R: Threads + Wait + Clock + RandomSource + Copy + Send + Sync + 'static>(
        &self,
        rt: &R,
        alloc: Global,
        board: &Arc<Board>,
        open: &Arc<AtomicU64>,
    ) -> io::Result<()> {
        let visitor = self.accept()?;
        let snapshot = board.snapshot()?;
        let (Ok(shared), Ok(mine)) = (Arc::try_clone(board), Arc::try_clone(open)) else {
            return Ok(());
        };
        open.fetch_add(1, Ordering::SeqCst);
        if !answer_beside(rt, alloc, shared, visitor, snapshot, mine) {
            open.fetch_sub(1, Ordering::SeqCst);
        }
        Ok(())
    }

    /// Answers whoever asks, so many at a time, until the program ends.
    pub(crate) fn answer_all<
        R: Threads + Wait + Clock + RandomSource + Copy + Send + Sync + 'static,
    >(self, rt: &R, alloc: Global, board: Arc<Board>) {
        let Ok(open) = Arc::new(alloc, AtomicU64::new(0)) else {
            return;
        };
        let short = Duration::from_millis(SHORT_WAIT);
        for _ in rt.forever() {
            let is_full = open.load(Ordering::SeqCst) >= MOST_AT_ONCE;
            if is_full || self.answer_one(rt, alloc, &board, &open).is_err() {
                thread::sleep(rt, short);
            }
        }
    }
}
