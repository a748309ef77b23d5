//! Which faults of accept a server outlives.
ghost use Rattle.std.specs.Prelude.{◌≡◌};
ghost use Rattle.gu_connection.specs.Accepting.{numbered, outcome_of};

use std::sync::Wait;
use std::thread;
use std::time::{Clock, Duration, Instant};

/// For how many seconds accept may give nothing but faults.
const MOST_FAULTS: u64 = 60;

/// How long a server waits behind such a fault, in milliseconds.
const FAULT_WAIT: u64 = 1;

/// What a server does where accept gives it no connection.
#[derive(Clone, Copy, PartialEq, Eq)]
pub enum AfterFault {
    /// It asks again: the fault was one of the connection that came, or of the network.
    AsksAgain,
    /// It waits for descriptors or buffers, and asks again.
    Waits,
    /// It ends.
    Ends,
}

/// What a server does behind the fault of this number, one of Linux's.
fn after_numbered(number: u32) -> AfterFault
    ensures { result ≡ numbered number }
{
    match number {
        // EBADF, EINVAL, ENOTSOCK
        9 | 22 | 88 => AfterFault::Ends,
        // ENOMEM, ENFILE, EMFILE, ENOBUFS
        12 | 23 | 24 | 105 => AfterFault::Waits,
        _ => AfterFault::AsksAgain,
    }
}

/// What a server does behind a fault of accept: it ends where the listener itself is at fault,
/// waits where descriptors or buffers lack, and else asks again.
pub fn after_fault(code: Option<i32>) -> AfterFault
    ensures { result ≡ outcome_of code }
{
    match code {
        Some(code) if code >= 0 => after_numbered(code.unsigned_abs()),
        _ => AfterFault::Ends,
    }
}

/// Since when accept has given nothing but faults behind which it is asked again.
#[derive(Drop)]
pub struct Faults {
    since: Option<Instant>,
}

impl Faults {
    /// None yet.
    pub fn none() -> Faults {
        Faults { since: None }
    }

    /// Notes that accept has answered.
    pub fn end(&mut self) {
        self.since = None;
    }

    /// Notes one, and waits a little: false where they have lasted for a minute.
    pub fn pass<R: Wait + Clock>(&mut self, rt: &R) -> bool {
        let Ok(now) = Instant::now(rt) else {
            return false;
        };
        let since = match self.since {
            Some(since) => since,
            None => now,
        };
        self.since = Some(since);
        thread::sleep(rt, Duration::from_millis(FAULT_WAIT));
        match since.elapsed(rt) {
            Ok(waited) => waited.as_secs() < MOST_FAULTS,
            Err(_) => false,
        }
    }
}
