//! A connection on which nothing has come yet. It has no feed and no session.

use crate::visit::Visit;
use gu_connection::{Closed, Worker};
use gu_desk::Job;
use gu_recorder::Wire;
use std::net::TcpStream;
use std::time::{Clock, Instant};

/// A connection that has said nothing.
#[derive(Drop)]
pub(crate) struct Stranger {
    pub(crate) wire: Wire,
    pub(crate) taken: Instant,
    /// Whether it has sent something, and whether it sends no more.
    pub(crate) speaks: bool,
    pub(crate) shut: bool,
    /// What an operator is told of it.
    pub(crate) visit: Visit,
}

impl Stranger {
    /// One that is taken now, in this second.
    pub(crate) fn new<J: Job, R: Clock, G>(
        worker: &Worker<'_, J, R, G>,
        stream: TcpStream,
        second: u64,
    ) -> Result<Stranger, Closed> {
        let Ok(wire) = Wire::new(stream) else {
            return Err(Closed);
        };
        let Ok(taken) = Instant::now(worker.rt) else {
            return Err(Closed);
        };
        let visit = Visit::new(worker.alloc, worker.tallies.board(), &wire, second);
        Ok(Stranger {
            wire,
            taken,
            speaks: false,
            shut: false,
            visit,
        })
    }

    /// Notes what the poll says of its stream: whether it is no stranger any more.
    pub(crate) fn note(&mut self, readable: bool, shut: bool) -> bool {
        self.speaks = self.speaks || readable;
        self.shut = self.shut || shut;
        self.speaks || self.shut
    }

    /// Whether it has had as many seconds as it may have without a Logon.
    pub(crate) fn is_late<R: Clock>(&self, rt: &R, most: u64) -> bool {
        match self.taken.elapsed(rt) {
            Ok(waited) => waited.as_secs() >= most,
            Err(_) => true,
        }
    }
}
