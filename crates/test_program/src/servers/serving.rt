//! A server, and beside it its clients in a thread of their own.
ghost use Rattle.std.specs.Prelude.{IsTrue};
ghost use Rattle.gu_desk.specs.Views.{is_worker_count};

use crate::servers::books::opened;
use crate::servers::holding::Holds;
use crate::servers::peers::connected;
use crate::servers::playing::{play, play_out};
use crate::servers::scenes::{Play, Scene};
use gu_book::Book;
use gu_server::{ServeError, ServeLimits, serve, serve_within};
use std::alloc::Global;
use std::net::{SocketAddr, TcpListener};
use std::sync::Wait;
use std::thread;
use std::thread::Threads;
use std::time::Clock;

/// Where the servers listen, and what they and their clients need.
#[derive(Clone, Copy)]
pub(crate) struct Ground<'a> {
    pub(crate) rt: &'a HostRuntime,
    pub(crate) alloc: Global,
    pub(crate) listener: &'a TcpListener,
    pub(crate) at: SocketAddr,
}

/// How many workers serve the clients of a scene.
fn workers_of(scene: &Scene<'_>) -> u32
    ensures { IsTrue (is_worker_count result) }
{
    if scene.has_two_workers { 2 } else { 1 }
}

/// Serves the clients of a scene over a handle that may start threads and wait: by `serve`, and
/// where the scene has a time to log on in, within it.
fn serve_scene<R: Threads + Wait + Clock + Sync>(
    handle: &R,
    ground: &Ground<'_>,
    book: Book,
    scene: &Scene<'_>,
    holds: &Holds<'_>,
) -> Result<Book, ServeError> {
    let workers = workers_of(scene);
    let connections = scene.connections;
    let Some(logon_wait) = scene.logon_wait else {
        return serve(
            handle,
            ground.alloc,
            ground.listener,
            book,
            workers,
            connections,
            holds,
        );
    };
    let limits = ServeLimits {
        workers,
        connections,
        logon_wait,
    };
    serve_within(handle, ground.alloc, ground.listener, book, limits, holds)
}

/// Serves the clients of a scene, and does beside it what they do. Gives the book that comes back.
fn served<R: Threads + Wait + Clock + Sync>(
    handle: &R,
    ground: &Ground<'_>,
    book: Book,
    scene: &Scene<'_>,
) -> Option<Book> {
    let holds = Holds::new(ground.rt, ground.alloc);
    let holds = &holds;
    let mut peers = connected(ground.rt, ground.alloc, ground.at, scene.connections);
    play(holds, &mut peers, scene.before);
    let ((), served) = thread::join(
        handle,
        move || play_out(holds, peers, scene.steps),
        move || serve_scene(handle, ground, book, scene, holds),
    );
    served.ok()
}

/// Serves the clients of a scene with this book, and writes how long the book is then. None where
/// there is none, or none comes back.
fn told<R: Threads + Wait + Clock + Sync>(
    handle: &R,
    ground: &Ground<'_>,
    book: Option<Book>,
    scene: &Scene<'_>,
) -> Option<Book> {
    let book = served(handle, ground, book?, scene)?;
    let _ = println!(ground.rt; "closed: {} entries", book.history().len());
    Some(book)
}

/// Serves the clients of the scenes of a play, with the book of this house and what becomes of it.
pub(crate) fn play_scenes<R: Threads + Wait + Clock + Sync>(
    handle: &R,
    ground: &Ground<'_>,
    house: &[u8],
    play: &Play<'_>,
) {
    let mut book = opened(ground.alloc, house, play.trades);
    for scene in play.scenes {
        book = told(handle, ground, book, scene);
    }
    drop(book);
}
