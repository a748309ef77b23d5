//! Servers and their clients over loopback sockets. What must be printed was written by hand from
//! the rules.
//!
//! - Two workers, two connections, and a book with two trades of the house, 100 lots for AAA and 10
//!   for CCC. AAA's call is held at the gate; while it is, CCC logs on, splits its trade and gets
//!   entry 3. Then the gate lets AAA's call pass, and its answer is entry 4. A server of one thread
//!   for all, or one that decodes under the lock, answers otherwise: the gate holds no longer than
//!   10,000 turns of a millisecond.
//! - One worker, four connections, and the book that came back. Peers that are no sessions of a
//!   firm are sent nothing and closed, one after the other; then a firm's session is served.
//! - One worker, two connections, and a book with the trade for AAA alone. AAA's split is held
//!   until its connection is closed. AAA logs on again and sends the split again in the same write,
//!   and is told its entry.
//! - Two workers, two connections, a second to log on in, and that book. While a session of CCC
//!   goes on, a peer that says nothing is ended, and sent nothing.
//! - One worker, two connections, and a book with the trade for AAA alone. The gate doesn't let a
//!   split of AAA pass: it isn't made, and the connection is closed. Another one is accepted.
//! - One worker, one connection, and a book with a thousand trades for AAA. AAA logs on and says
//!   nothing more, and has its reports within eight seconds. A server that waits a second for each
//!   hundred takes ten.
//!
//! Then runs of the program that keep a book (`kept.rt`): firms are answered, and a journal takes
//! no more.
//!
//! `serve` serves them all but the silent peer, whose second to log on in is for `serve_within`. A
//! message is written as its fields but the times and the checksum, which hangs on these.

mod books;
mod holding;
mod kept;
mod peers;
mod playing;
mod scenes;
mod serving;
mod telling;

pub(crate) use kept::play_kept;
use scenes::PLAYS;
use serving::{Ground, play_scenes};
use std::alloc::Global;
use std::net::TcpListener;
use std::sync::Wait;
use std::thread::Threads;
use std::time::Clock;
use std::{fs, io};

/// Has the clients of all plays served, over a handle that may start threads and wait.
pub(crate) fn play_all<R: Threads + Wait + Clock + Sync>(
    rt: &HostRuntime,
    handle: &R,
    alloc: Global,
) -> io::Result<()> {
    let house = fs::read(rt, "rows.house")?;
    let listener = TcpListener::bind(rt, "127.0.0.1:0")?;
    let ground = Ground {
        rt,
        alloc,
        at: listener.local_addr()?,
        listener: &listener,
    };
    for play in PLAYS {
        play_scenes(handle, &ground, house.as_slice(), play);
    }
    Ok(())
}
