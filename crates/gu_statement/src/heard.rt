//! What a statement has beside the book: the times of the entries, and the calls that came to
//! nothing.
use gu_base::{AllocId, FirmId, Memory, Refusal};
use gu_message::Reject;
use std::alloc::{AllocError, Global};

/// The most bytes of a time.
pub(crate) const MOST_TIME: usize = 30;

/// How many of the calls that came to nothing are kept.
pub const MOST_REFUSED: usize = 100_000;

/// SendingTime (52) of the message of each entry, in the order of the entries: no byte where it
/// isn't known, as of an opening call.
#[derive(Drop)]
pub struct Times {
    texts: Vec<u8>,
    ends: Vec<u32>,
}

impl Times {
    /// Those of no entry.
    pub fn new(alloc: Global) -> Times {
        Times {
            texts: Vec::new(alloc),
            ends: Vec::new(alloc),
        }
    }

    /// How many entries have been given theirs.
    pub fn len(&self) -> usize {
        self.ends.len()
    }

    /// Adds the time of the next entry.
    ///
    /// # Errors
    ///
    /// `Memory` where a growth was refused, or all times together have more than 4,294,967,295
    /// bytes.
    pub fn push(&mut self, time: &[u8]) -> Result<(), Memory> {
        self.texts.extend_from_slice(time)?;
        match u32::try_from(self.texts.len()) {
            Ok(end) => self.ends.push(end)?,
            Err(_) => return Err(AllocError),
        }
        Ok(())
    }

    /// Where the time of the entry at this place, counted from 0, begins.
    fn start(&self, place: usize) -> usize {
        if place == 0 {
            return 0;
        }
        match self.ends.get(place - 1) {
            Some(end) => *end as usize,
            None => 0,
        }
    }

    /// The time of the entry at this place, counted from 0; no byte where it isn't known.
    pub fn at(&self, place: usize) -> &[u8] {
        let start = self.start(place);
        match self.ends.get(place) {
            None => b"",
            Some(end) => {
                let end = *end as usize;
                if start <= end && end <= self.texts.len() {
                    &self.texts[start..end]
                } else {
                    b""
                }
            }
        }
    }
}

/// A time in place: its bytes, and how many they are.
#[derive(Clone, Copy)]
pub struct Moment {
    bytes: [u8; MOST_TIME],
    len: u8,
}

impl Moment {
    /// Of these bytes; none of them where they are more than 30.
    pub fn of(time: &[u8]) -> Moment {
        let mut bytes = [0; MOST_TIME];
        if time.len() > MOST_TIME {
            return Moment { bytes, len: 0 };
        }
        for i in 0..time.len() {
            bytes[i] = time[i];
        }
        Moment {
            bytes,
            len: time.len() as u8,
        }
    }

    /// Its bytes.
    pub fn as_bytes(&self) -> &[u8] {
        let len = self.len as usize;
        if len <= MOST_TIME {
            &self.bytes[..len]
        } else {
            b""
        }
    }
}

/// Why a call came to nothing.
#[derive(Clone, Copy)]
pub enum Cause {
    /// The book refuses the command.
    Refused(Refusal),
    /// The message fails a check.
    Rejected(Reject),
}

/// A call that came to nothing.
#[derive(Clone, Copy)]
pub struct RefusedCall {
    /// The firm that sent it, where SenderCompID (49) is the name of a firm.
    pub firm: Option<FirmId>,
    /// Its id, where it has a lawful one.
    pub id: Option<AllocId>,
    /// Which message of the input it is, counted from 1.
    pub place: u64,
    pub cause: Cause,
    /// SendingTime (52), no byte where it is none.
    pub time: Moment,
}

/// The last 100,000 calls that came to nothing, and how many there were.
#[derive(Drop)]
pub struct RefusedCalls {
    calls: Vec<RefusedCall>,
    count: u64,
}

impl RefusedCalls {
    /// No call.
    pub fn new(alloc: Global) -> RefusedCalls {
        RefusedCalls {
            calls: Vec::new(alloc),
            count: 0,
        }
    }

    /// How many there were.
    pub fn count(&self) -> u64 {
        self.count
    }

    /// How many of them are kept.
    pub fn kept(&self) -> usize {
        self.calls.len()
    }

    /// Adds one, in place of the oldest where 100,000 are kept.
    pub fn push(&mut self, call: RefusedCall) -> Result<(), Memory> {
        if self.calls.len() < MOST_REFUSED {
            self.calls.push(call)?;
        } else {
            let place = (self.count % MOST_REFUSED as u64) as usize;
            if let Some(oldest) = self.calls.get_mut(place) {
                *oldest = call;
            }
        }
        self.count = self.count.saturating_add(1);
        Ok(())
    }

    /// The call at this place among those that are kept, from the oldest on, counted from 0.
    pub fn at(&self, place: usize) -> Option<&RefusedCall> {
        if self.calls.len() < MOST_REFUSED {
            return self.calls.get(place);
        }
        let oldest = (self.count % MOST_REFUSED as u64) as usize;
        if place >= MOST_REFUSED - oldest {
            self.calls.get(place - (MOST_REFUSED - oldest))
        } else {
            self.calls.get(oldest + place)
        }
    }
}
