//! A connection of a client: what it sends, and what it is sent.

use gu_base::FirmId;
use gu_codec::{Header, write_frame};
use std::alloc::Global;
use std::io;
use std::io::{Read, Write};
use std::net::{SocketAddr, TcpStream};
use std::time::Duration;

/// What the time of each message says; the session checks its form alone.
const SENT: &[u8] = b"20260302-09:00:00";

/// A message of a firm: its type (35), its number and its body.
#[derive(Clone, Copy)]
pub(crate) struct Message<'a> {
    pub(crate) firm: &'a [u8],
    pub(crate) kind: &'a [u8],
    pub(crate) number: u64,
    pub(crate) body: &'a [u8],
}

/// Appends a message. What can't be sent is missing from what the program writes, here and below.
fn add_message(out: &mut Vec<u8>, message: &Message<'_>) {
    let (Some(sender), Some(target)) = (FirmId::new(message.firm), FirmId::new(b"HSE")) else {
        return;
    };
    let header = Header {
        kind: message.kind,
        sender,
        target,
        number: message.number,
        sent: SENT,
        resent: None,
    };
    if header.has_texts() && message.body.len() <= 1000 {
        let _ = write_frame(out, &header, message.body);
    }
}

/// Sends these bytes in one write.
pub(crate) fn send(stream: &TcpStream, bytes: &[u8]) {
    let mut to: &TcpStream = stream;
    let _ = to.write_all(bytes);
}

/// Sends these messages in one write.
pub(crate) fn send_all(alloc: Global, stream: &TcpStream, messages: &[Message<'_>]) {
    let mut out = Vec::new(alloc);
    for message in messages {
        add_message(&mut out, message);
    }
    send(stream, out.as_slice());
}

/// So many connections to a server. Until that accepts a connection it waits in the system's queue.
pub(crate) fn connected(
    rt: &HostRuntime,
    alloc: Global,
    at: SocketAddr,
    count: u32,
) -> Vec<TcpStream> {
    let mut peers = Vec::new(alloc);
    for _ in 0..count {
        if let Ok(peer) = TcpStream::connect(rt, at) {
            let _ = peer.set_read_timeout(Some(Duration::from_secs(20)));
            let _ = peers.push(peer);
        }
    }
    peers
}

/// Whether what has come ends with a message's end.
fn is_whole(held: &[u8]) -> bool {
    match held.len().checked_sub(8) {
        Some(at) => held[at..].starts_with(b"\x0110="),
        None => false,
    }
}

/// How often this field stands in what has come.
pub(crate) fn count_of(held: &[u8], wanted: &[u8]) -> usize {
    let mut count = 0usize;
    for field in held.split(|b| *b == 1) {
        if field == wanted {
            count = count.saturating_add(1);
        }
    }
    count
}

/// Appends what a peer is sent next. Whether it was sent a byte.
fn receive(stream: &TcpStream, held: &mut Vec<u8>) -> bool {
    let mut piece = [0u8; 4096];
    let mut from: &TcpStream = stream;
    match from.read(&mut piece) {
        Ok(count) => count > 0 && held.extend_from_slice(&piece[..count]).is_ok(),
        Err(_) => false,
    }
}

/// What a peer is sent until so many messages with this field have come whole, or until it is
/// closed.
pub(crate) fn received(alloc: Global, stream: &TcpStream, wanted: &[u8], most: usize) -> Vec<u8> {
    let mut held = Vec::new(alloc);
    for _ in 0..100_000 {
        if !receive(stream, &mut held) {
            break;
        }
        if is_whole(held.as_slice()) && count_of(held.as_slice(), wanted) >= most {
            break;
        }
    }
    held
}

/// Reads a byte of what a peer is sent. Gives how many came: none where it is closed.
pub(crate) fn read_byte(stream: &TcpStream) -> io::Result<usize> {
    let mut piece = [0u8; 1];
    let mut from: &TcpStream = stream;
    from.read(&mut piece)
}
