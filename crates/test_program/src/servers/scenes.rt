//! The servers, their books and what their clients do, as data.

use crate::servers::books::Trades;
use crate::servers::peers::Message;
use crate::servers::playing::{Deed, Step};

/// A server and its clients.
pub(crate) struct Scene<'a> {
    /// How many connect, one after the other.
    pub(crate) connections: u32,
    /// Whether two workers serve them, or one.
    pub(crate) has_two_workers: bool,
    /// How long a connection may be without an accepted Logon, in seconds, where `serve_within`
    /// serves. Without it `serve` does.
    pub(crate) logon_wait: Option<u64>,
    /// What is done before the server runs: what is sent then is read in its first turn.
    pub(crate) before: &'a [Step<'a>],
    /// What is done beside the server.
    pub(crate) steps: &'a [Step<'a>],
}

/// A book, and the servers that are given it, one after the other.
pub(crate) struct Play<'a> {
    pub(crate) trades: &'a [Trades<'a>],
    pub(crate) scenes: &'a [Scene<'a>],
}

/// All that is played.
pub(crate) const PLAYS: &[Play<'static>] = &[
    Play {
        trades: &[AAA_TRADE, CCC_TRADE],
        scenes: &[GATE, STRANGERS],
    },
    Play {
        trades: &[AAA_TRADE],
        scenes: &[RETRY, SILENT],
    },
    Play {
        trades: &[AAA_TRADE],
        scenes: &[REFUSED],
    },
    Play {
        trades: &[THOUSAND_TRADES],
        scenes: &[BEHIND],
    },
];

/// The first trade, of AAA.
const AAA_TRADE: Trades<'static> = Trades {
    firm: b"AAA",
    account: b"A1",
    lots: 100,
    first: 0,
    last: 1,
};

/// The second one, of CCC.
const CCC_TRADE: Trades<'static> = Trades {
    firm: b"CCC",
    account: b"C1",
    lots: 10,
    first: 1,
    last: 2,
};

/// A thousand trades of AAA.
const THOUSAND_TRADES: Trades<'static> = Trades {
    firm: b"AAA",
    account: b"A1",
    lots: 1,
    first: 0,
    last: 1000,
};

/// The body of a Logon.
pub(crate) const LOGON: &[u8] = b"98=0\x01108=30\x011137=9\x01";

/// AAA logs on.
pub(crate) const AAA_LOGON: Message<'static> = Message {
    firm: b"AAA",
    kind: b"A",
    number: 1,
    body: LOGON,
};

/// CCC logs on.
const CCC_LOGON: Message<'static> = Message {
    firm: b"CCC",
    kind: b"A",
    number: 1,
    body: LOGON,
};

/// DDD, which is no firm of the house, would log on.
const DDD_LOGON: Message<'static> = Message {
    firm: b"DDD",
    kind: b"A",
    number: 1,
    body: LOGON,
};

/// AAA logs out.
const AAA_LOGOUT: Message<'static> = Message {
    firm: b"AAA",
    kind: b"5",
    number: 2,
    body: b"",
};

/// AAA's trade goes to its other account.
pub(crate) const AAA_SPLIT: Message<'static> = Message {
    firm: b"AAA",
    kind: b"J",
    number: 2,
    body: b"70=S1\x0171=0\x01626=23\x0172=1.0\x0178=1\x0179=A2\x0180=100\x01",
};

/// AAA's trade goes to both its accounts.
const AAA_SPLIT_IN_TWO: Message<'static> = Message {
    firm: b"AAA",
    kind: b"J",
    number: 2,
    body: b"70=S1\x0171=0\x01626=23\x0172=1.0\x0178=2\x0179=A1\x0180=60\x0179=A2\x0180=40\x01",
};

/// The same, by another id.
const AAA_SECOND: Message<'static> = Message {
    firm: b"AAA",
    kind: b"J",
    number: 2,
    body: b"70=S2\x0171=0\x01626=23\x0172=1.0\x0178=2\x0179=A1\x0180=60\x0179=A2\x0180=40\x01",
};

/// CCC's trade stays in its account.
const CCC_SPLIT: Message<'static> = Message {
    firm: b"CCC",
    kind: b"J",
    number: 2,
    body: b"70=S1\x0171=0\x01626=23\x0172=2.0\x0178=1\x0179=C1\x0180=10\x01",
};

/// CCC asks for a Heartbeat.
const CCC_TEST: Message<'static> = Message {
    firm: b"CCC",
    kind: b"1",
    number: 2,
    body: b"112=HERE\x01",
};

/// CCC logs out.
const CCC_LOGOUT: Message<'static> = Message {
    firm: b"CCC",
    kind: b"5",
    number: 3,
    body: b"",
};

/// AAA's call is held; while it is, CCC logs on, splits its trade and is answered. Then the gate
/// lets AAA's call pass.
const GATE: Scene<'static> = Scene {
    connections: 2,
    has_two_workers: true,
    logon_wait: None,
    before: &[],
    steps: &[
        (0, Deed::Asks(&[AAA_LOGON, AAA_SPLIT])),
        (0, Deed::IsHeld),
        (1, Deed::Asks(&[CCC_LOGON, CCC_SPLIT])),
        (1, Deed::Hears(b"CCC, while AAA is held")),
        (0, Deed::IsFreed),
        (0, Deed::Hears(b"AAA")),
    ],
};

/// A peer that speaks another protocol, a firm that the house doesn't have, and a peer that goes in
/// mid-frame; then a session of AAA.
const STRANGERS: Scene<'static> = Scene {
    connections: 4,
    has_two_workers: false,
    logon_wait: None,
    before: &[],
    steps: &[
        (0, Deed::Sends(b"GET / HTTP/1.1\r\n\r\n")),
        (0, Deed::IsClosed(b"GET /")),
        (1, Deed::Asks(&[DDD_LOGON])),
        (1, Deed::IsClosed(b"DDD")),
        (2, Deed::Sends(b"8=FIXT.1.1\x019=60\x0135=A")),
        (2, Deed::Ends),
        (2, Deed::IsClosed(b"gone in mid-frame")),
        (3, Deed::Asks(&[AAA_LOGON, AAA_LOGOUT])),
        (3, Deed::Hears(b"AAA, behind them")),
    ],
};

/// AAA's split is held until its connection is closed. Then AAA logs on again, and sends the split
/// again in the same write.
const RETRY: Scene<'static> = Scene {
    connections: 2,
    has_two_workers: false,
    logon_wait: None,
    before: &[],
    steps: &[
        (0, Deed::Asks(&[AAA_LOGON, AAA_SPLIT_IN_TWO])),
        (0, Deed::IsHeld),
        (0, Deed::Leaves),
        (0, Deed::IsFreed),
        (0, Deed::Asks(&[AAA_LOGON, AAA_SPLIT_IN_TWO])),
        (0, Deed::Hears(b"AAA, again")),
    ],
};

/// AAA's split isn't let pass: it isn't made, and its connection is closed. AAA logs on again, and
/// its trade can still be split.
const REFUSED: Scene<'static> = Scene {
    connections: 2,
    has_two_workers: false,
    logon_wait: None,
    before: &[],
    steps: &[
        (0, Deed::Asks(&[AAA_LOGON, AAA_SPLIT])),
        (0, Deed::IsHeld),
        (0, Deed::IsRefused),
        (0, Deed::Hears(b"AAA, not let pass")),
        (1, Deed::Asks(&[AAA_LOGON, AAA_SECOND])),
        (1, Deed::Hears(b"AAA, once more")),
    ],
};

/// CCC, which nothing in the book concerns, has logged on. A peer that says nothing is ended, and
/// then CCC's TestRequest is answered.
const SILENT: Scene<'static> = Scene {
    connections: 2,
    has_two_workers: true,
    logon_wait: Some(1),
    before: &[(1, Deed::Asks(&[CCC_LOGON]))],
    steps: &[
        (0, Deed::IsClosed(b"silent")),
        (1, Deed::Asks(&[CCC_TEST, CCC_LOGOUT])),
        (1, Deed::Hears(b"CCC, behind it")),
    ],
};

/// AAA logs on and says nothing more. It has its thousand reports within eight seconds.
const BEHIND: Scene<'static> = Scene {
    connections: 1,
    has_two_workers: false,
    logon_wait: None,
    before: &[],
    steps: &[
        (0, Deed::Asks(&[AAA_LOGON])),
        (0, Deed::CatchesUp(b"AAA, which was behind")),
    ],
};
