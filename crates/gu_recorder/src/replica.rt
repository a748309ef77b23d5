//! The line to the program that puts the journal's bytes on other machines.
//!
//! The server says on it how many entries the journal has, and in how many bytes. The program
//! answers with the number of entries, once other machines have these bytes. The server also asks
//! whether it may go on, which is so as long as no other machine serves the book. One question is
//! open at a time.

ghost use Rattle.std.specs.Prelude.{◌≡◌, ℕ, true, false, IfSome};
ghost use Rattle.std.specs.Io.KnownBytes.{Consumes};
ghost use Rattle.gu_recorder.specs.Replicas.{answer_of, may_go, HasAnswered, HasWord};

use gu_connection::micros_between;
use gu_journal::Meanwhile;
use std::alloc::Global;
use std::io;
use std::io::{Read, Write};
use std::os::unix::net::UnixStream;
use std::time::{Clock, Duration, Instant};

/// How long a line may be silent, in seconds.
const ANSWER_WAIT: u64 = 15;

/// How long it may be silent where the server asks whether it may go on, in seconds.
const WORD_WAIT: u64 = 5;

/// What asks for the word that the server may go on.
const ASKS: &[u8] = b"?\n";

/// That word.
const MAY_GO: &[u8] = b"yes\n";

/// The line, connected, the last answer that was the one that was asked for, and the last word that
/// the server may go on: none at first.
#[derive(Drop)]
pub(crate) struct Replica {
    rt: HostRuntime,
    line: UnixStream,
    alloc: Global,
    /// For how many microseconds the last answer was waited for.
    waited: u64,
    pub(crate) answer: Vec<u8>,
    pub(crate) word: Vec<u8>,
}

/// How many microseconds have passed since then.
pub(crate) fn micros_since<R: Clock>(rt: &R, since: Instant) -> u64 {
    match Instant::now(rt) {
        Ok(now) => micros_between(since, now),
        Err(_) => 0,
    }
}

/// The next bytes of a line, so many; none where they don't come.
fn taken<L: Read>(alloc: Global, line: &mut L, count: usize) -> Option<Vec<u8>>
    ensures { IfSome result (λ b. Consumes (L.remaining line.old) (L.remaining line.new) b.items) }
{
    let Ok(mut bytes) = vec![in alloc; 0u8; count] else {
        return None;
    };
    match line.read_exact(&mut bytes) {
        Ok(()) => Some(bytes),
        Err(_) => None,
    }
}

impl Replica {
    /// Connects to the socket at a path.
    ///
    /// # Errors
    ///
    /// Nobody listens there, or memory ran out.
    pub(crate) fn connect(rt: HostRuntime, alloc: Global, path: &str) -> io::Result<Replica> {
        let line = UnixStream::connect(&rt, path)?;
        line.set_read_timeout(Some(Duration::from_secs(ANSWER_WAIT)))?;
        line.set_write_timeout(Some(Duration::from_secs(ANSWER_WAIT)))?;
        Ok(Replica {
            rt,
            line,
            alloc,
            waited: 0,
            answer: Vec::new(alloc),
            word: Vec::new(alloc),
        })
    }

    /// Says how many entries the journal has, and in how many bytes: whether that could be said.
    fn offer(&self, entries: u32, bytes: usize) -> bool {
        let Ok(text) = format!(in self.alloc; "{entries} {bytes}\n") else {
            return false;
        };
        let mut to: &UnixStream = &self.line;
        to.write_all(text.as_bytes()).is_ok()
    }

    /// Waits for the answer: whether it is that so many entries are on other machines.
    fn hear(&mut self, entries: u32) -> bool
        ensures yes { result ≡ true → self.new.answer.items ≡ answer_of entries }
        ensures no { result ≡ false → self.new.answer ≡ self.old.answer }
    {
        let Ok(expected) = format!(in self.alloc; "{entries}\n") else {
            return false;
        };
        let Some(answer) = taken(self.alloc, &mut self.line, expected.len()) else {
            return false;
        };
        if answer.as_slice() != expected.as_bytes() {
            return false;
        }
        self.answer = answer;
        true
    }

    /// This moment, if it can be told.
    fn now(&self) -> Option<Instant> {
        Instant::now(&self.rt).ok()
    }

    /// Notes that an answer was waited for since then.
    fn note_waited(&mut self, since: Option<Instant>)
        ensures answer { self.new.answer ≡ self.old.answer }
        ensures word { self.new.word ≡ self.old.word }
    {
        self.waited = match since {
            Some(since) => micros_since(&self.rt, since),
            None => 0,
        };
    }

    /// Has the line wait so many seconds for the next bytes: whether it does.
    fn wait(&self, seconds: u64) -> bool {
        self.line
            .set_read_timeout(Some(Duration::from_secs(seconds)))
            .is_ok()
    }

    /// Asks whether the server may go on, and waits for the word: whether it is that it may.
    fn ask(&mut self) -> bool
        ensures word { result ≡ true → self.new.word.items ≡ may_go }
        ensures same { self.new.answer ≡ self.old.answer }
    {
        let mut to: &UnixStream = &self.line;
        if !self.wait(WORD_WAIT) || to.write_all(ASKS).is_err() {
            return false;
        }
        let Some(word) = taken(self.alloc, &mut self.line, MAY_GO.len()) else {
            return false;
        };
        if word.as_slice() != MAY_GO {
            return false;
        }
        self.word = word;
        self.wait(ANSWER_WAIT)
    }
}

/// Says how many entries the journal has, if other machines are to have them: false where that
/// couldn't be said.
pub(crate) fn offered(replica: &Option<Replica>, entries: u32, bytes: usize) -> bool {
    match replica {
        Some(replica) => replica.offer(entries, bytes),
        None => true,
    }
}

/// Offers a group to other machines, if they are to have it, while it is synced here.
#[derive(Clone, Copy)]
pub(crate) struct Offer<'a> {
    pub(crate) replica: &'a Option<Replica>,
    /// How many entries the journal has with it.
    pub(crate) entries: u32,
    /// Whether it was offered.
    pub(crate) is_made: bool,
}

impl Meanwhile for Offer<'_> {
    fn written(&mut self, len: usize) {
        self.is_made = offered(self.replica, self.entries, len);
    }
}

/// Whether so many entries are on other machines, if they are to be there.
pub(crate) fn answered(replica: &mut Option<Replica>, entries: u32) -> bool
    ensures yes { result ≡ true → HasAnswered replica.new entries }
    ensures no { result ≡ false → (n : ℕ) → HasAnswered replica.old n → HasAnswered replica.new n }
{
    match replica {
        Some(replica) => {
            let since = replica.now();
            let is_there = replica.hear(entries);
            replica.note_waited(since);
            is_there
        }
        None => true,
    }
}

/// For how many microseconds the last answer was waited for, if there are other machines.
pub(crate) fn waited(replica: &Option<Replica>) -> Option<u64> {
    match replica {
        Some(replica) => Some(replica.waited),
        None => None,
    }
}

/// Asks whether the server may go on, if other machines have a say in that: whether it may.
pub(crate) fn allowed(replica: &mut Option<Replica>) -> bool
    ensures word { result ≡ true → HasWord replica.new }
    ensures still { (n : ℕ) → HasAnswered replica.old n → HasAnswered replica.new n }
{
    match replica {
        Some(replica) => replica.ask(),
        None => true,
    }
}
