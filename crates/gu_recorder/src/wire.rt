//! The stream of a connection, and the one function that writes to it.
//!
//! A `Wire` is read, known to a poll and closed by whoever has it. Bytes go out through `write`
//! alone, in this file, which asks what they were made of, and through `put`, which asks for a
//! witness that has seen them.

ghost use Rattle.std.specs.Prelude.{◌≡◌, ◌≤◌, ◌++◌, length, take, IfOk, MatchResult};
ghost use Rattle.gu_recorder.specs.Waiting.{bytes_of, RestOn};

use crate::made::{Made, sent_behind};
use crate::shutter::Shutter;
use gu_connection::Closed;
use gu_desk::{Job, Ticket};
use std::io;
use std::io::{ErrorKind, Read, Write};
use std::net::{Shutdown, SocketAddr, TcpStream};
use std::os::fd::{AsRawFd, RawFd};

/// The stream of a connection, which doesn't wait.
#[derive(Drop)]
pub struct Wire {
    stream: TcpStream,
}

impl Wire {
    /// Takes the stream of a connection.
    pub fn new(stream: TcpStream) -> io::Result<Wire> {
        stream.set_nodelay(true)?;
        stream.set_nonblocking(true)?;
        Ok(Wire { stream })
    }

    /// The address of the peer.
    pub fn peer_addr(&self) -> io::Result<SocketAddr> {
        self.stream.peer_addr()
    }

    /// By what a poll knows it.
    pub fn as_raw_fd(&self) -> RawFd {
        self.stream.as_raw_fd()
    }

    /// By what others can shut it.
    pub fn shutter(&self) -> io::Result<Shutter> {
        Shutter::of(&self.stream)
    }

    /// Tells the peer that no more comes.
    pub fn end_writing(&self) -> io::Result<()> {
        self.stream.shutdown(Shutdown::Write)
    }
}

impl Read for Wire {
    fn read(&mut self, buf: &mut [u8]) -> io::Result<usize> {
        let mut from: &TcpStream = &self.stream;
        from.read(buf)
    }
}

/// Who sees bytes before they go out.
pub trait Witness {
    ghost use Rattle.std.specs.Prelude.{ℕ, List, OnOk};

    /// It has seen all of these bytes, which wait for the peer to take them.
    ghost saw: { Self → List ℕ → Type 0 };

    /// Sees bytes that may go out now. They begin with the first that the peer hasn't taken, so
    /// that it may have seen a front of them.
    ///
    /// # Errors
    ///
    /// `Closed`: none of them goes out, and the connection is to be closed.
    fn sees(&mut self, bytes: &[u8]) -> Result<(), Closed>
        ensures { OnOk result (saw self.new bytes.now) };

    /// Notes that the peer has taken so many of the bytes that it saw.
    fn took(&mut self, count: usize);
}

/// Writes what the peer takes of bytes that a witness has seen.
fn put<W: Witness>(wire: &Wire, witness: &W, bytes: &[u8]) -> io::Result<usize>
    requires seen { W.saw witness.now bytes.now }
    ensures { IfOk result (λ n. n ≤ length bytes.now) }
{
    let _ = witness;
    let mut to: &TcpStream = &wire.stream;
    to.write(bytes)
}

/// Writes what the peer takes of these bytes, once a witness has seen them, and tells how many.
/// Each history that they were made of is kept, as the ticket knows.
pub(crate) fn write<J: Job, W: Witness>(
    ticket: &Ticket<J>,
    made: &Made,
    sent: &mut Made,
    wire: &Wire,
    witness: &mut W,
    bytes: &[u8],
) -> Result<usize, Closed>
    requires bytes { bytes.now ≡ bytes_of made.now.bytes }
    requires kept { RestOn made.now.bytes ticket.now.kept }
    ensures count { IfOk result (λ n. n ≤ length bytes.now) }
    ensures sent { MatchResult result
        (λ n. sent.new.bytes ≡ sent.old.bytes ++ take n made.now.bytes)
        (λ _. sent.new.bytes ≡ sent.old.bytes) }
{
    let _ = ticket;
    witness.sees(bytes)?;
    match put(wire, witness, bytes) {
        Ok(0) => Err(Closed),
        Ok(count) => {
            *sent = sent_behind(sent, made, count);
            witness.took(count);
            Ok(count)
        }
        Err(error) => match error.kind() {
            ErrorKind::WouldBlock | ErrorKind::Interrupted => Ok(0),
            _ => Err(Closed),
        },
    }
}
