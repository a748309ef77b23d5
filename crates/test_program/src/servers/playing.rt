//! What clients do, step by step.

use crate::servers::holding::Holds;
use crate::servers::peers::{Message, send, send_all};
use crate::servers::telling::{say_line, tell, tell_reports, tell_stranger};
use std::net::{Shutdown, TcpStream};

/// What is done at a connection, or beside it.
#[derive(Clone, Copy)]
pub(crate) enum Deed<'a> {
    /// These messages are sent in one write.
    Asks(&'a [Message<'a>]),
    /// These bytes are sent.
    Sends(&'a [u8]),
    /// It is said that no more comes.
    Ends,
    /// It is closed, and those behind it move up by one.
    Leaves,
    /// A call comes to the gate, which holds it.
    IsHeld,
    /// The gate lets the held call pass.
    IsFreed,
    /// The gate doesn't let it pass.
    IsRefused,
    /// What came up to an acknowledgement, or until the connection was closed, is written under
    /// this name.
    Hears(&'a [u8]),
    /// Whether the connection is closed before a byte came is written under this name.
    IsClosed(&'a [u8]),
    /// Whether a thousand reports come in time is written under this name.
    CatchesUp(&'a [u8]),
}

/// What is done, at which of the connections.
pub(crate) type Step<'a> = (usize, Deed<'a>);

/// Waits until the gate holds a call, and writes where it doesn't.
fn wait(holds: &Holds<'_>) {
    if !holds.has_come() {
        say_line(holds.rt, b"no call", b"");
    }
}

/// Sends no more.
fn end(peer: &TcpStream) {
    let _ = peer.shutdown(Shutdown::Write);
}

/// Does this at a connection, which stays.
fn act(holds: &Holds<'_>, peer: &TcpStream, deed: Deed<'_>) {
    match deed {
        Deed::Asks(messages) => send_all(holds.alloc, peer, messages),
        Deed::Sends(bytes) => send(peer, bytes),
        Deed::Ends => end(peer),
        Deed::Leaves => {}
        Deed::IsHeld => wait(holds),
        Deed::IsFreed => holds.release(),
        Deed::IsRefused => holds.refuse(),
        Deed::Hears(who) => tell(holds.rt, holds.alloc, who, peer, b"35=P"),
        Deed::IsClosed(who) => tell_stranger(holds.rt, who, peer),
        Deed::CatchesUp(who) => tell_reports(holds.rt, holds.alloc, who, peer),
    }
}

/// Closes the connection at this place.
fn leave(peers: &mut Vec<TcpStream>, at: usize) {
    if at < peers.len() {
        drop(peers.remove(at));
    }
}

/// Takes these steps.
pub(crate) fn play(holds: &Holds<'_>, peers: &mut Vec<TcpStream>, steps: &[Step<'_>]) {
    for step in steps {
        let (at, deed) = *step;
        match peers.get(at) {
            Some(peer) => act(holds, peer, deed),
            None => say_line(holds.rt, b"no connection", b""),
        }
        if let Deed::Leaves = deed {
            leave(peers, at);
        }
    }
}

/// Takes these steps, and closes all connections. No call is held then, so that the server ends.
pub(crate) fn play_out(holds: &Holds<'_>, mut peers: Vec<TcpStream>, steps: &[Step<'_>]) {
    play(holds, &mut peers, steps);
    holds.release();
    drop(peers);
}
