//! Worked cases of what an operator is told: a line with hostile bytes, the figures of a server as
//! Prometheus reads them, each page over HTTP, the parts that stand still, the marks that a
//! count passes, and when a gap is told. What must be printed was written by hand from the rules.
#![tactic(auto)]

use gu_base::{FirmId, Memory};
use gu_log::{Event, Field, Key, Value, line};
use gu_status::{
    CAUSES, Cause, Faults, FirmEntries, FirmWord, Pages, Part, Pulses, REASONS, RefusedLogons,
    SeenGap, Snapshot, Syncs, Times, Word, is_due, mark_passed, metrics, seen_gap, stuck,
};
use http_server::{Config, Connection, serve};
use std::alloc::Global;
use std::hash::RandomState;
use std::io;
use std::io::Write;

/// Writes bytes.
fn say(rt: &HostRuntime, bytes: &[u8]) {
    let _ = io::writer(rt).write_all(bytes);
}

/// A Logon that is refused, of a peer that would like to forge a line.
fn refused(alloc: Global) -> Result<Vec<u8>, Memory> {
    let fields = [
        Field {
            key: Key::Connection,
            value: Value::Number(17),
        },
        Field {
            key: Key::Said,
            value: Value::Text(b"A\"B\\C\n\x1b[31m=\xff"),
        },
        Field {
            key: Key::Why,
            value: Value::Text(b""),
        },
    ];
    line(
        alloc,
        b"20260302-09:00:00.123",
        Event::LogonRefused,
        &fields,
    )
}

/// What went wrong between firms and a server.
const FAULTS: Faults = Faults {
    rejects: [11, 12, 13, 14, 15, 16],
    garbled: 17,
    dropped: 18,
    resent: 19,
};

/// Refused Logons, of each cause another count.
fn refused_logons() -> [RefusedLogons; CAUSES] {
    let mut refused = [RefusedLogons {
        cause: Cause::NoMessage,
        count: 9,
    }; CAUSES];
    let mut count = 1u64;
    for at in 1..CAUSES {
        refused[at] = RefusedLogons {
            cause: Cause::ALL[at],
            count,
        };
        count = count.saturating_add(1);
    }
    refused
}

/// The entries of two firms, of which one has none.
fn firms(alloc: Global) -> Result<Vec<FirmEntries>, Memory> {
    let mut firms = Vec::new(alloc);
    if let Some(firm) = FirmId::new(b"A\"A") {
        firms.push(FirmEntries {
            firm,
            entries: 3,
            is_refused: true,
        })?;
    }
    if let Some(firm) = FirmId::new(b"A-1") {
        firms.push(FirmEntries {
            firm,
            entries: 0,
            is_refused: false,
        })?;
    }
    Ok(firms)
}

/// A server that has served two firms.
fn snapshot(alloc: Global, stuck: Option<Part>) -> Result<Snapshot, Memory> {
    let mut refused = [0; REASONS];
    refused[2] = 5;
    Ok(Snapshot {
        began: 1_772_442_000,
        is_ready: stuck.is_none(),
        stuck,
        entries: 250_000,
        most_entries: 1_000_000,
        reserved: 20_000,
        book_bytes: 71_250_000,
        most_bytes: 300_000_000,
        journal_bytes: 43_000_001,
        lacks_memory: false,
        firms: firms(alloc)?,
        connections: 2,
        accepted: 4,
        repeated: 1,
        refused,
        faults: FAULTS,
        logons_refused: refused_logons(),
        waiting_bytes: 77,
        syncs: Syncs {
            disk: Times {
                within: [1, 2, 3, 4, 5, 6, 7, 8, 9, 10, 11],
                count: 12,
                micros: 12_034_056,
            },
            machines: Times {
                within: [0, 0, 1, 1, 1, 1, 2, 2, 2, 2, 3],
                count: 3,
                micros: 2_000_001,
            },
            slow: 5,
            oldest_seconds: 4,
            idle_seconds: 6,
        },
        lines_lost: 8,
    })
}

/// The text of a word of a firm.
fn text_of(word: FirmWord) -> &'static [u8] {
    match word {
        FirmWord::Disconnect => b"(disconnect ",
        FirmWord::Refuse => b"(refuse ",
        FirmWord::Admit => b"(admit ",
    }
}

/// Writes what an operator has said.
fn tell_word(rt: &HostRuntime, word: Word) {
    match word {
        Word::Drain => say(rt, b"(drain)\n"),
        Word::Of(word, firm) => {
            say(rt, text_of(word));
            say(rt, firm.as_bytes());
            say(rt, b")\n");
        }
    }
}

/// Writes what a server that stands so answers to a request at a socket or a port, and what an
/// operator has said by that.
fn tell_page(rt: &HostRuntime, snapshot: &Snapshot, at_socket: bool, request: &[u8]) {
    let alloc: Global = rt.alloc();
    let Ok(keys) = RandomState::new(rt) else {
        return;
    };
    let mut connection = Connection::new(alloc, keys, Config::default());
    let mut pages = Pages::new(alloc, snapshot, at_socket);
    let mut from = request;
    let mut to = Vec::new(alloc);
    if serve(&mut connection, &mut pages, &mut from, &mut to).is_ok() {
        say(rt, to.as_slice());
    }
    if let Some(word) = pages.take_word() {
        tell_word(rt, word);
    }
}

/// Writes the pages of a server that is well, and of one of which a part stands still.
fn tell_pages(rt: &HostRuntime, well: &Snapshot, still: &Snapshot) {
    tell_page(rt, well, false, b"GET /ready HTTP/1.1\r\nHost: x\r\n\r\n");
    tell_page(rt, still, false, b"GET /ready HTTP/1.1\r\nHost: x\r\n\r\n");
    tell_page(rt, well, false, b"GET /health HTTP/1.1\r\nHost: x\r\n\r\n");
    tell_page(rt, still, false, b"GET /health HTTP/1.1\r\nHost: x\r\n\r\n");
    tell_page(
        rt,
        well,
        false,
        b"HEAD /metrics HTTP/1.1\r\nHost: x\r\n\r\n",
    );
    tell_page(
        rt,
        well,
        false,
        b"GET /metrics/ HTTP/1.1\r\nHost: x\r\n\r\n",
    );
    tell_page(
        rt,
        well,
        false,
        b"POST /metrics HTTP/1.1\r\nHost: x\r\n\r\n",
    );
}

/// Writes what comes of the words of an operator at a port and at a socket.
fn tell_words(rt: &HostRuntime, well: &Snapshot, still: &Snapshot) {
    tell_page(rt, well, false, b"POST /drain HTTP/1.1\r\nHost: x\r\n\r\n");
    tell_page(rt, well, true, b"GET /drain HTTP/1.1\r\nHost: x\r\n\r\n");
    tell_page(rt, well, true, b"POST /drain HTTP/1.1\r\nHost: x\r\n\r\n");
    tell_page(rt, still, true, b"POST /drain HTTP/1.1\r\nHost: x\r\n\r\n");
    tell_page(
        rt,
        still,
        true,
        b"POST /refuse?firm=A-1 HTTP/1.1\r\nHost: x\r\n\r\n",
    );
    tell_page(
        rt,
        well,
        true,
        b"POST /admit?firm=A-1 HTTP/1.1\r\nHost: x\r\n\r\n",
    );
    tell_page(
        rt,
        well,
        true,
        b"POST /disconnect?firm=A-1 HTTP/1.1\r\nHost: x\r\n\r\n",
    );
    tell_page(
        rt,
        well,
        true,
        b"POST /disconnect?firm=A- HTTP/1.1\r\nHost: x\r\n\r\n",
    );
    tell_page(
        rt,
        well,
        true,
        b"POST /disconnect HTTP/1.1\r\nHost: x\r\n\r\n",
    );
    tell_page(rt, well, true, b"POST /metrics HTTP/1.1\r\nHost: x\r\n\r\n");
}

/// Writes which part stands still of a server with these pulses, in its second 40.
fn tell_stuck(rt: &HostRuntime, journal: Option<u64>, acceptor: u64, workers: &[u64]) {
    let pulses = Pulses {
        journal,
        acceptor,
        workers,
    };
    match stuck(&pulses, 40, 30) {
        None => say(rt, b"none\n"),
        Some(Part::Journal) => say(rt, b"journal\n"),
        Some(Part::Acceptor) => say(rt, b"acceptor\n"),
        Some(Part::Worker(number)) => {
            let _ = println!(rt; "worker {number}");
        }
        Some(Part::Clock) => say(rt, b"clock\n"),
    }
}

/// Writes which mark a count has passed.
fn tell_mark(rt: &HostRuntime, before: u32, after: u32, most: u32) {
    match mark_passed(before, after, most) {
        Some(mark) => {
            let _ = println!(rt; "{mark}");
        }
        None => say(rt, b"no mark\n"),
    }
}

/// Writes in which seconds a gap is told that is looked at each second from this one on up to
/// another, the first message of which lacks has this number, where this was seen before.
fn tell_gap(rt: &HostRuntime, before: Option<SeenGap>, expected: u32, from: u64, to: u64) {
    let mut seen = before;
    for second in from..to {
        let mut now = seen_gap(seen, expected, 20, second);
        if is_due(&now, second) {
            now.told = Some(second);
            let _ = println!(rt; "gap since {} told in {second}", now.since);
        }
        seen = Some(now);
    }
}

/// Writes the same of a new gap, of one that is filled in part, and of another one behind it.
fn tell_gaps(rt: &HostRuntime) {
    let seen = SeenGap {
        since: 100,
        highest: 9,
        told: Some(130),
    };
    tell_gap(rt, None, 4, 100, 731);
    tell_gap(rt, Some(seen), 9, 400, 440);
    tell_gap(rt, Some(seen), 10, 400, 440);
    say(rt, b"gaps\n");
}

/// Writes all of it, but for the pages.
fn tell(rt: &HostRuntime, well: &Snapshot) -> Result<(), Memory> {
    let alloc: Global = rt.alloc();
    say(rt, refused(alloc)?.as_slice());
    say(rt, metrics(alloc, well)?.as_slice());
    tell_stuck(rt, None, 39, &[40, 11, u64::MAX]);
    tell_stuck(rt, Some(10), 39, &[10]);
    tell_stuck(rt, Some(11), 10, &[10]);
    tell_stuck(rt, None, 39, &[40, 10, 9]);
    tell_mark(rt, 7, 8, 10);
    tell_mark(rt, 8, 9, 10);
    tell_mark(rt, 0, 10, 10);
    tell_mark(rt, 8, 8, 10);
    tell_gaps(rt);
    Ok(())
}

fn main(rt: HostRuntime) -> Result<(), Memory> {
    let well = snapshot(rt.alloc(), None)?;
    tell(&rt, &well)?;
    let still = snapshot(rt.alloc(), Some(Part::Worker(3)))?;
    tell_pages(&rt, &well, &still);
    tell_words(&rt, &well, &still);
    let mut lacking = snapshot(rt.alloc(), None)?;
    lacking.lacks_memory = true;
    tell_page(
        &rt,
        &lacking,
        false,
        b"GET /ready HTTP/1.1\r\nHost: x\r\n\r\n",
    );
    Ok(())
}
