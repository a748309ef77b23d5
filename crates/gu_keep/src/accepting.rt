//! How connections are accepted and handed to the workers.

use crate::bells::Bells;
use crossbeam_channel::Sender;
use gu_board::{Board, say_lack};
use gu_command::KeepError;
use gu_connection::{AfterFault, Faults, after_fault};
use mio::net::TcpListener;
use mio::unix::SourceFd;
use mio::{Events, Interest, Poll, Token};
use std::alloc::Global;
use std::io::ErrorKind;
use std::net::TcpStream;
use std::os::fd::AsRawFd;
use std::sync::Wait;
use std::thread;
use std::time::{Clock, Duration, Instant};

/// How many connections are accepted in one round.
const MOST_AT_ONCE: usize = 1024;

/// How long it waits for connections before it looks whether the server is to stop, in
/// milliseconds.
const LONGEST_WAIT: u64 = 250;

/// How long it waits for descriptors or buffers before it asks again, in milliseconds.
const LACK_WAIT: u64 = 20;

/// How often it says at the most that they lack, in seconds.
const SAY_WAIT: u64 = 10;

/// When it was last said that descriptors or buffers lack, and the faults of accept.
#[derive(Drop)]
struct Trouble {
    said: Option<Instant>,
    faults: Faults,
}

impl Trouble {
    /// Whether it is to be said again.
    fn is_due<R: Clock>(&self, rt: &R) -> bool {
        match self.said {
            Some(said) => match said.elapsed(rt) {
                Ok(waited) => waited.as_secs() >= SAY_WAIT,
                Err(_) => true,
            },
            None => true,
        }
    }

    /// Says so, if it wasn't said just now.
    fn say<R: Wait + Clock>(&mut self, rt: &R, board: Option<&Board>) {
        if !self.is_due(rt) {
            return;
        }
        self.said = match Instant::now(rt) {
            Ok(now) => Some(now),
            Err(_) => None,
        };
        say_lack(rt, board);
    }
}

/// What hands connections to workers.
#[derive(Drop)]
pub(crate) struct Inlets<'a> {
    pub(crate) bells: &'a Bells,
    pub(crate) to: Vec<Sender<TcpStream>>,
    /// What is counted for an operator.
    pub(crate) board: Option<&'a Board>,
}

impl Inlets<'_> {
    /// Whether an operator has said that the server is to stop.
    fn stops(&self) -> bool {
        match self.board {
            Some(board) => board.instructions().stops(),
            None => false,
        }
    }

    /// Hands a connection to the worker that has the fewest. One for which memory lacks is dropped.
    fn hand<R: Wait>(&self, rt: &R, stream: TcpStream) -> Result<(), KeepError> {
        let at = self.bells.least();
        let Some(to) = self.to.get(at) else {
            return Err(KeepError::NoThread);
        };
        self.bells.count_one(at);
        if to.send(rt, stream).is_err() {
            self.bells.discount_one(at);
            return Ok(());
        }
        self.bells.ring(at);
        Ok(())
    }

    /// Waits where descriptors or buffers lack, and has the workers close connections without a
    /// Logon.
    fn wait<R: Wait + Clock>(&self, rt: &R, trouble: &mut Trouble) {
        trouble.say(rt, self.board);
        self.bells.tell_lack();
        thread::sleep(rt, Duration::from_millis(LACK_WAIT));
    }

    /// Accepts the connections that wait, at most so many, and tells how many there were.
    fn accept_some<R: Wait + Clock>(
        &self,
        rt: &R,
        listener: &TcpListener,
        trouble: &mut Trouble,
        most: u32,
    ) -> Result<u32, KeepError> {
        let mut taken = 0u32;
        for _ in 0..MOST_AT_ONCE {
            if taken >= most {
                return Ok(taken);
            }
            match listener.accept() {
                Ok((stream, _peer)) => {
                    trouble.faults.end();
                    self.hand(rt, stream.into())?;
                    taken = taken.saturating_add(1);
                }
                Err(error) if error.kind() == ErrorKind::WouldBlock => {
                    trouble.faults.end();
                    return Ok(taken);
                }
                Err(error) => match after_fault(error.raw_os_error()) {
                    AfterFault::AsksAgain => {
                        if !trouble.faults.pass(rt) {
                            return Err(KeepError::Accept);
                        }
                    }
                    AfterFault::Waits => {
                        self.wait(rt, trouble);
                        return Ok(taken);
                    }
                    AfterFault::Ends => return Err(KeepError::Accept),
                },
            }
        }
        Ok(taken)
    }

    /// Accepts so many connections, or with 0 without end, until the server is to end or to stop.
    pub(crate) fn accept_all<R: Wait + Clock>(
        &self,
        rt: &R,
        alloc: Global,
        poll: Poll,
        listener: &TcpListener,
        connections: u32,
    ) -> Result<(), KeepError> {
        let mut poll = poll;
        let Ok(mut events) = Events::with_capacity(alloc, 8) else {
            return Err(KeepError::Memory);
        };
        let mut left = connections;
        let mut trouble = Trouble {
            said: None,
            faults: Faults::none(),
        };
        let fd = listener.as_raw_fd();
        for _ in rt.forever() {
            if poll
                .poll(&mut events, Some(Duration::from_millis(LONGEST_WAIT)))
                .is_err()
            {
                return Err(KeepError::Poll);
            }
            if self.bells.ends() || self.stops() {
                return Ok(());
            }
            if let Some(board) = self.board {
                board.accepts();
            }
            let most = if connections == 0 { u32::MAX } else { left };
            left = left.saturating_sub(self.accept_some(rt, listener, &mut trouble, most)?);
            if connections != 0 && left == 0 {
                return Ok(());
            }
            if poll
                .registry()
                .reregister(&mut SourceFd(&fd), Token(0), Interest::READABLE)
                .is_err()
            {
                return Err(KeepError::Poll);
            }
        }
        unreachable!()
    }
}
