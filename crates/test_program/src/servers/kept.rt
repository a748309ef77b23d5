//! Runs of the program that keep a book, and their clients. What must be printed was written by
//! hand from the rules.
//!
//! - The house enters a trade, and is told its entry; AAA splits it, and is told its entry. Both
//!   have gone: the run ends, and the totals are those of the book.
//! - The journal takes one entry. The house is told the first; AAA's split isn't recorded, so AAA
//!   is told nothing, not even its Logon, which was to go out with it. The run ends, and names the
//!   journal.

use crate::lines::{Outcome, run_words, say, tell_fault, words_of};
use crate::servers::peers::{Message, send_all};
use crate::servers::scenes::{AAA_LOGON, AAA_SPLIT, LOGON};
use crate::servers::telling::tell;
use std::alloc::Global;
use std::fs::File;
use std::io::Eprint;
use std::net::{Ipv4Addr, Net, SocketAddr, TcpListener, TcpStream};
use std::random::RandomSource;
use std::rt::Files;
use std::sync::Wait;
use std::thread::Threads;
use std::time::{Clock, Duration};
use std::{io, thread};

/// A client: what it sends in one write, and up to a message of which type (35) it hears.
struct Client<'a> {
    who: &'a [u8],
    asks: &'a [Message<'a>],
    wanted: &'a [u8],
}

/// The words of a run, and its clients, one after the other.
struct Run<'a> {
    words: &'a str,
    clients: &'a [Client<'a>],
}

/// The house logs on.
const HOUSE_LOGON: Message<'static> = Message {
    firm: b"HSE",
    kind: b"A",
    number: 1,
    body: LOGON,
};

/// AAA has bought 100 lots for its first account.
const HOUSE_TRADE: Message<'static> = Message {
    firm: b"HSE",
    kind: b"AE",
    number: 2,
    body: b"571=T1\x0155=ESZ6\x0132=100\x01552=1\x0154=1\x01453=1\x01448=AAA\x01447=D\x01452=4\x01\
        1=A1\x01",
};

/// The house enters a trade, then AAA splits it.
const CLIENTS: &[Client<'static>] = &[
    Client {
        who: b"the house",
        asks: &[HOUSE_LOGON, HOUSE_TRADE],
        wanted: b"35=AR",
    },
    Client {
        who: b"AAA",
        asks: &[AAA_LOGON, AAA_SPLIT],
        wanted: b"35=P",
    },
];

/// A journal that keeps what is told, and one that is full.
const RUNS: &[Run<'static>] = &[
    Run {
        words: "keep rows.house kept --port PORT --workers 2 --connections 2",
        clients: CLIENTS,
    },
    Run {
        words: "keep rows.house full --port PORT --connections 2",
        clients: CLIENTS,
    },
];

/// A connection to a server, once it listens: within ten seconds.
fn connected(rt: &HostRuntime, at: SocketAddr) -> Option<TcpStream> {
    for _ in 0..1000 {
        if let Ok(peer) = TcpStream::connect(rt, at) {
            let _ = peer.set_read_timeout(Some(Duration::from_secs(20)));
            return Some(peer);
        }
        thread::sleep(rt, Duration::from_millis(10));
    }
    None
}

/// Has each client send what it asks, hear what it is told, and go.
fn play(rt: &HostRuntime, alloc: Global, at: SocketAddr, clients: &[Client<'_>]) {
    for client in clients {
        if let Some(peer) = connected(rt, at) {
            send_all(alloc, &peer, client.asks);
            tell(rt, alloc, client.who, &peer, client.wanted);
        }
    }
}

/// A port that nobody listens on.
fn free_port(rt: &HostRuntime) -> io::Result<u16> {
    let listener = TcpListener::bind(rt, "127.0.0.1:0")?;
    Ok(listener.local_addr()?.port())
}

/// Writes how a run ended, and what it wrote.
fn tell_outcome(rt: &HostRuntime, alloc: Global, outcome: &Outcome) {
    match &outcome.result {
        Ok(()) => say(rt, b"0: done\n"),
        Err(fault) => tell_fault(rt, alloc, fault),
    }
    say(rt, outcome.out.as_slice());
}

/// Makes the runs over a handle that may start threads, wait and listen, and beside each what its
/// clients do.
pub(crate) fn play_kept<
    H: Threads
        + Wait
        + Clock
        + RandomSource
        + Net<Stream = TcpStream, Listener = TcpListener>
        + Files<File = File>
        + Eprint
        + Copy
        + Send
        + Sync
        + 'static,
>(rt: &HostRuntime, handle: &H, alloc: Global) -> io::Result<()> {
    for run in RUNS {
        let port = free_port(rt)?;
        let at = SocketAddr::from((Ipv4Addr::LOCALHOST, port));
        let words = words_of(alloc, run.words, port);
        let words = words.as_slice();
        let _ = println!(rt; "{}", run.words);
        let ((), outcome) = thread::join(
            handle,
            move || play(rt, alloc, at, run.clients),
            move || run_words(rt, handle, alloc, "plain", b"", words),
        );
        tell_outcome(rt, alloc, &outcome);
    }
    Ok(())
}
