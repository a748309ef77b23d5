//! The program's server: a book behind a port.

ghost use Rattle.std.specs.Prelude.{IfOk, IsTrue};
ghost use Rattle.gu_desk.specs.Views.{is_worker_count};
ghost use Rattle.gu_book.specs.Seen.{stored};
ghost use Rattle.gu_connection.specs.Serving.{IsServed};

use crate::server::serve;
use gu_book::Book;
use gu_command::{ServeError, ServiceError};
use gu_connection::{Open, listening, new_key};
use gu_parties::House;
use std::alloc::Global;
use std::net::{Ipv4Addr, Net, TcpListener, TcpStream};
use std::random::RandomSource;
use std::sync::Wait;
use std::thread::Threads;
use std::time::Clock;

/// Serves so many connections (0: without end) on a port of 127.0.0.1, by 1 to 16 workers that
/// share the opening book of this house, and gives the book when all have ended.
///
/// # Errors
///
/// `Listen`, and those of `serve`. A book that finds no memory for its opening calls is `Memory`:
/// the port is let go, and nobody was served.
pub(crate) fn serve_port<
    R: Threads
        + Wait
        + Clock
        + RandomSource
        + Net<Stream = TcpStream, Listener = TcpListener>
        + Sync,
>(
    rt: &R,
    alloc: Global,
    house: House,
    port: u16,
    workers: u32,
    connections: u32,
) -> Result<Book, ServiceError>
    requires { IsTrue (is_worker_count workers) }
    ensures { IfOk result (λ b. IsServed house (stored b)) }
{
    let bound = TcpListener::bind(rt, (Ipv4Addr::LOCALHOST, port));
    let no_memory = ServiceError::Serve(ServeError::Memory);
    let listener = match listening(bound, no_memory, ServiceError::Listen) {
        Ok(listener) => listener,
        Err(error) => {
            drop(house);
            return Err(error);
        }
    };
    let mut book = match Book::open(alloc, house) {
        Ok(book) => book,
        Err((house, _)) => {
            drop(house);
            drop(listener);
            return Err(no_memory);
        }
    };
    book.rekey(new_key(rt));
    let served = serve(rt, alloc, &listener, book, workers, connections, &Open);
    drop(listener);
    match served {
        Ok(book) => Ok(book),
        Err(error) => Err(ServiceError::Serve(error)),
    }
}
