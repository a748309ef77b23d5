//! What an event decides.

use crate::link::LinkState;
use gu_message::{LogoutText, Reject, TestReqId};

/// Numbers to be sent again: from one up to another, which isn't sent.
#[derive(Clone, Copy)]
pub struct Span {
    pub from: u32,
    pub next: u32,
}

/// A new message of the session.
#[derive(Clone, Copy)]
pub enum Say {
    Logon { heartbeat: u32, reset: bool },
    /// With the TestReqID (112) of the TestRequest that it answers, if it answers one.
    Heartbeat(Option<TestReqId>),
    TestRequest,
    ResendRequest { from: u32 },
    Reject(Reject),
    Logout(Option<LogoutText>),
}

/// What an event decides: what the session knows then, what is sent again, the new message behind
/// that, and the number of the message whose call is handed out.
#[derive(Clone, Copy)]
pub struct Verdict {
    pub link: LinkState,
    pub resend: Option<Span>,
    pub say: Option<Say>,
    pub call: Option<u32>,
}
