//! What both servers begin with: the table and the ground of their desk, a key for the look-ups by
//! id, the answer to a bind, how long a Logon may take, and the gate that is always open.
ghost use Rattle.std.specs.Prelude.{◌≡◌, IfOk, IsTrue};
ghost use Rattle.gu_book.specs.Seen.{stored};
ghost use Rattle.gu_desk.specs.Views.{is_worker_count};

use gu_book::{Book, HashKey};
use gu_command::ServeError;
use gu_desk::{Gate, Ground};
use gu_parties::House;
use std::alloc::Global;
use std::io;
use std::io::ErrorKind;
use std::random::RandomSource;

/// How long a connection may be without an accepted Logon, in seconds.
pub const LOGON_WAIT: u64 = 30;

/// A copy of the house table for all workers, and the ground of their desk.
pub fn prepare(alloc: Global, book: Book, workers: u32) -> Result<(House, Ground), ServeError>
    requires { IsTrue (is_worker_count workers) }
    ensures opening { IfOk result (λ r. r.1.opening ≡ stored book) }
{
    let house = match book.house().copy(alloc) {
        Ok(house) => house,
        Err(_) => {
            drop(book);
            return Err(ServeError::Memory);
        }
    };
    match Ground::new(alloc, book, workers) {
        Ok(ground) => Ok((house, ground)),
        Err((book, _)) => {
            drop(book);
            drop(house);
            Err(ServeError::Memory)
        }
    }
}

/// Lets all calls pass.
#[derive(Clone, Copy)]
pub struct Open;

impl Gate for Open {
    fn before_book(&self, _worker: u32) -> bool {
        true
    }
}

/// What listens on a port, or which of two faults it is that nothing does: want of memory, or one
/// of the port.
pub fn listening<L, E: Copy>(bound: io::Result<L>, memory: E, port: E) -> Result<L, E> {
    match bound {
        Ok(listener) => Ok(listener),
        Err(error) if error.kind() == ErrorKind::OutOfMemory => Err(memory),
        Err(_) => Err(port),
    }
}

/// A key for a book that nobody knows, by the system's randomness. Where the system gives none it
/// is the one that everyone knows: a book answers the same under each.
pub fn new_key<R: RandomSource>(rt: &R) -> HashKey {
    let mut bytes = [0; 16];
    match rt.fill_bytes(&mut bytes) {
        Ok(()) => HashKey::new(u128::from_le_bytes(bytes)),
        Err(_) => HashKey::KNOWN,
    }
}
