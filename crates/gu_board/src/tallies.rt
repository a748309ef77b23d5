//! What is counted of the firms, for the limits that an operator sets.
//!
//! The counts are exact though several workers count at once: a call counts before it is made, and
//! is taken back where it made no entry. So no call too many is made; one that another call's count
//! stands in the way of may be one too few.

use crate::board::Board;
use crate::cell::zeros;
use crate::pace::{FirmPace, Pace};
use crate::saying::say_closed;
use gu_base::{AllocId, Answer, Command, FirmId, Memory};
use gu_book::Book;
use gu_command::MOST_WORKERS;
use gu_limits::{Ending, Limits, Said, Size};
use gu_message::Reject;
use indexmap::IndexMap;
use std::alloc::{AllocError, Global};
use std::sync::atomic::{AtomicBool, AtomicU64, Ordering};
use std::sync::{Arc, Wait};
use std::time::{Clock, Instant};

/// How many connections of a firm were closed and aren't told yet.
#[derive(Drop)]
struct Closures {
    entries: AtomicU64,
    parts: AtomicU64,
    reserve: AtomicU64,
    memory: AtomicU64,
    no_memory: AtomicU64,
    held: AtomicU64,
    connections: AtomicU64,
    silence: AtomicU64,
}

impl Closures {
    /// None yet.
    fn new() -> Closures {
        Closures {
            entries: AtomicU64::new(0),
            parts: AtomicU64::new(0),
            reserve: AtomicU64::new(0),
            memory: AtomicU64::new(0),
            no_memory: AtomicU64::new(0),
            held: AtomicU64::new(0),
            connections: AtomicU64::new(0),
            silence: AtomicU64::new(0),
        }
    }

    /// The count of those that a limit has closed for this.
    fn of(&self, ending: Ending) -> Option<&AtomicU64> {
        match ending {
            Ending::Entries => Some(&self.entries),
            Ending::Parts => Some(&self.parts),
            Ending::Reserve => Some(&self.reserve),
            Ending::Memory => Some(&self.memory),
            Ending::NoMemory => Some(&self.no_memory),
            Ending::Held => Some(&self.held),
            Ending::Connections => Some(&self.connections),
            Ending::Silence => Some(&self.silence),
            Ending::Stops | Ending::Refused | Ending::PutOut => None,
        }
    }
}

/// Entries, and calls that aren't answered yet, and the parts of the Splits among them.
#[derive(Drop)]
struct Amount {
    entries: AtomicU64,
    parts: AtomicU64,
}

impl Amount {
    /// None yet.
    fn new() -> Amount {
        Amount {
            entries: AtomicU64::new(0),
            parts: AtomicU64::new(0),
        }
    }

    /// Counts a call with so many parts, and tells what there was before.
    fn add(&self, parts: u64) -> Size {
        Size {
            entries: self.entries.fetch_add(1, Ordering::SeqCst),
            parts: self.parts.fetch_add(parts, Ordering::SeqCst),
        }
    }

    /// Takes a call with so many parts back.
    fn take_back(&self, parts: u64) {
        self.entries.fetch_sub(1, Ordering::SeqCst);
        self.parts.fetch_sub(parts, Ordering::SeqCst);
    }
}

/// How many parts a command has: those of a Split.
pub fn parts_in(command: &Command) -> u64 {
    match command {
        Command::Split { parts, .. } => parts.as_slice().len() as u64,
        _ => 0,
    }
}

/// What is counted of a firm.
#[derive(Drop)]
struct Tally {
    amount: Amount,
    /// How many bytes wait for it, or are kept to be sent again.
    held: AtomicU64,
    /// How many of them a connection has at each worker, of that which has most there, as it was
    /// when the worker last looked.
    heaviest: Vec<AtomicU64>,
    /// Its connections that have logged on.
    open: AtomicU64,
    pace: FirmPace,
    closures: Closures,
}

impl Tally {
    /// Nothing counted yet.
    fn new(alloc: Global) -> Result<Tally, Memory> {
        Ok(Tally {
            amount: Amount::new(),
            held: AtomicU64::new(0),
            heaviest: zeros(alloc, MOST_WORKERS as usize)?,
            open: AtomicU64::new(0),
            pace: FirmPace::new(),
            closures: Closures::new(),
        })
    }
}

/// What is counted of all firms, and the limits. The house is none of the firms.
#[derive(Drop)]
pub struct Tallies {
    limits: Limits,
    house: FirmId,
    firms: IndexMap<FirmId, Tally>,
    /// What is counted of the whole book.
    book: Amount,
    /// The house's connections that were closed.
    own: Closures,
    /// Whether a connection was closed since that was last told.
    news: AtomicBool,
    /// Whether more may wait for some firm than may.
    over: AtomicBool,
    /// When the server began: seconds are counted from then.
    start: Option<Instant>,
    /// What is counted for an operator, in `keep`.
    board: Option<Arc<Board>>,
}

/// A tally for each firm of a house.
fn tallies_of(alloc: Global, book: &Book) -> Result<IndexMap<FirmId, Tally>, Memory> {
    let house = book.house();
    let mut firms = IndexMap::new(alloc);
    for place in 0..house.firm_count() {
        if let Some(firm) = house.firm_at(place) {
            if firms.insert(firm, Tally::new(alloc)?).is_err() {
                return Err(AllocError);
            }
        }
    }
    Ok(firms)
}

impl Tallies {
    /// Counts nothing: there are no limits.
    pub fn none(alloc: Global, house: FirmId) -> Tallies {
        Tallies {
            limits: Limits::NONE,
            house,
            firms: IndexMap::new(alloc),
            book: Amount::new(),
            own: Closures::new(),
            news: AtomicBool::new(false),
            over: AtomicBool::new(false),
            start: None,
            board: None,
        }
    }

    /// The counts of a book, for these limits, of a server that begins now.
    pub fn new(
        alloc: Global,
        book: &Book,
        limits: Limits,
        start: Instant,
        board: Option<Arc<Board>>,
    ) -> Result<Tallies, Memory> {
        let tallies = Tallies {
            limits,
            house: book.house().house(),
            firms: tallies_of(alloc, book)?,
            book: Amount::new(),
            own: Closures::new(),
            news: AtomicBool::new(false),
            over: AtomicBool::new(false),
            start: Some(start),
            board,
        };
        if tallies.limits.counts_entries() {
            for entry in book.history() {
                tallies.count(&entry.firm, parts_in(&entry.command));
            }
        }
        Ok(tallies)
    }

    /// What is counted for an operator.
    pub fn board(&self) -> Option<&Board> {
        match &self.board {
            Some(board) => Some(board),
            None => None,
        }
    }

    /// When the server began.
    pub fn start(&self) -> Option<Instant> {
        self.start
    }

    /// Counts a call of a firm with so many parts, and tells what it had and what the book had.
    /// None of the house's are told.
    fn count(&self, firm: &FirmId, parts: u64) -> (Size, Size) {
        let all = self.book.add(parts);
        match self.firms.get(firm) {
            Some(tally) => (tally.amount.add(parts), all),
            None => (Size::NONE, all),
        }
    }

    /// Takes a call of a firm with so many parts back.
    fn take_back(&self, firm: &FirmId, parts: u64) {
        self.book.take_back(parts);
        if let Some(tally) = self.firms.get(firm) {
            tally.amount.take_back(parts);
        }
    }

    /// Notes that a connection of a firm is closed for this, so that it is told where that is a
    /// limit.
    pub fn note(&self, firm: &FirmId, ending: Ending) {
        let closures = match self.firms.get(firm) {
            Some(tally) => &tally.closures,
            None => &self.own,
        };
        if let Some(count) = closures.of(ending) {
            count.fetch_add(1, Ordering::SeqCst);
            self.news.store(true, Ordering::SeqCst);
        }
    }

    /// What an operator has said of a firm's connections.
    pub fn said_of(&self, firm: &FirmId) -> Said {
        match self.board() {
            Some(board) => board.instructions().of(firm),
            None => Said::NOTHING,
        }
    }

    /// The nanoseconds since the start; 0 where the clock can't be read.
    fn now<R: Clock>(&self, rt: &R) -> u64 {
        match self.start {
            Some(start) => match start.elapsed(rt) {
                Ok(took) => took.as_nanos().min(u128::from(u64::MAX)) as u64,
                Err(_) => 0,
            },
            None => 0,
        }
    }

    /// Whether firms have a rate.
    pub fn has_rate(&self) -> bool {
        self.limits.rate.is_some()
    }

    /// Whether a firm has had its rate, so that a further call on a connection with this pace
    /// waits. The house never has.
    pub fn is_late<R: Clock>(&self, rt: &R, firm: &FirmId, mine: &Pace) -> bool {
        if self.limits.rate_of(*firm == self.house).is_none() {
            return false;
        }
        match self.firms.get(firm) {
            Some(tally) => tally.pace.is_late(mine, self.now(rt)),
            None => false,
        }
    }

    /// Notes whether calls of a firm wait on a connection with this pace.
    pub fn note_waiting(&self, firm: &FirmId, mine: &Pace, waits: bool) {
        if let Some(tally) = self.firms.get(firm) {
            tally.pace.note(mine, waits);
        }
    }

    /// Counts so many messages that a firm has sent on a connection with this pace, or has sent
    /// again.
    pub fn count_messages<R: Clock>(&self, rt: &R, firm: &FirmId, mine: &Pace, count: u64) {
        let Some(rate) = self.limits.rate_of(*firm == self.house) else {
            return;
        };
        if let Some(tally) = self.firms.get(firm) {
            tally.pace.count(mine, self.now(rt), rate, count);
        }
    }

    /// Counts a call of a firm with so many parts that is to be made; or tells why it isn't, and
    /// then it doesn't count. None is made once the server stops, none of a firm that isn't let in,
    /// and none of a firm where memory lacks for the next entry.
    pub fn begin_call(&self, firm: &FirmId, parts: u64) -> Result<(), Ending> {
        let is_house = *firm == self.house;
        let said = self.said_of(firm);
        if let Some(ending) = said.ending(said.put_out) {
            return Err(ending);
        }
        if !is_house && self.lacks_memory() {
            self.note(firm, Ending::Memory);
            return Err(Ending::Memory);
        }
        if self.limits.counts_entries() {
            let (mine, all) = self.count(firm, parts);
            if let Some(ending) = self.limits.excess_of_call(is_house, mine, all, parts) {
                self.take_back(firm, parts);
                self.note(firm, ending);
                return Err(ending);
            }
        }
        if let Some(board) = self.board() {
            board.begins_entry(parts);
        }
        Ok(())
    }

    /// Takes the count of a call with so many parts back, if it made no entry.
    pub fn end_call(&self, firm: &FirmId, parts: u64, is_entry: bool) {
        if is_entry {
            return;
        }
        if let Some(board) = self.board() {
            board.takes_back(1, parts);
        }
        if self.limits.counts_entries() {
            self.take_back(firm, parts);
        }
    }

    /// Whether what isn't on the disk yet fills a group of the journal, so that further calls wait.
    pub fn is_group_full(&self) -> bool {
        match self.board() {
            Some(board) => board.is_group_full(),
            None => false,
        }
    }

    /// Whether memory lacks for the next entry.
    fn lacks_memory(&self) -> bool {
        match self.board() {
            Some(board) => board.lacks_memory(),
            None => false,
        }
    }

    /// Counts that so many bytes wait for a firm on a connection, or are kept there, where so many
    /// did before. For the house any may.
    pub fn hold(&self, firm: &FirmId, before: u64, after: u64) {
        if before == after || *firm == self.house {
            return;
        }
        let Some(tally) = self.firms.get(firm) else {
            return;
        };
        if before < after {
            tally.held.fetch_add(after - before, Ordering::SeqCst);
        } else {
            tally.held.fetch_sub(before - after, Ordering::SeqCst);
        }
        if self.holds_too_much(firm, tally) {
            self.over.store(true, Ordering::SeqCst);
        }
    }

    /// Whether more waits for a firm than may.
    fn holds_too_much(&self, firm: &FirmId, tally: &Tally) -> bool {
        let held = tally.held.load(Ordering::SeqCst);
        self.limits.holds_too_much(*firm == self.house, held)
    }

    /// A firm for which more waits than may, if there is one.
    pub fn first_over(&self) -> Option<FirmId> {
        if !self.over.swap(false, Ordering::SeqCst) {
            return None;
        }
        for (firm, tally) in self.firms.iter() {
            if self.holds_too_much(firm, tally) {
                self.over.store(true, Ordering::SeqCst);
                return Some(*firm);
            }
        }
        None
    }

    /// Notes that of a worker's connections of a firm the one that has most holds so many bytes:
    /// whether none of another worker held more when that one looked.
    pub fn is_heaviest(&self, firm: &FirmId, worker: u32, most: u64) -> bool {
        let Some(tally) = self.firms.get(firm) else {
            return false;
        };
        if let Some(mine) = tally.heaviest.get(worker as usize) {
            mine.store(most, Ordering::SeqCst);
        }
        let most = most.max(1);
        tally
            .heaviest
            .iter()
            .all(|other| other.load(Ordering::SeqCst) <= most)
    }

    /// Notes how a call was answered, for an operator.
    pub fn note_answer<R: Wait + Clock>(
        &self,
        rt: &R,
        worker: u32,
        firm: &FirmId,
        id: &AllocId,
        answer: &Answer,
    ) {
        if let Some(board) = self.board() {
            board.answers(rt, worker, firm, id, answer);
        }
    }

    /// Notes that a worker answers a firm's message of this type by a Reject.
    pub fn note_reject<R: Wait + Clock>(
        &self,
        rt: &R,
        worker: u32,
        firm: &FirmId,
        kind: &[u8],
        reject: Reject,
    ) {
        if let Some(board) = self.board() {
            board.rejects(rt, worker, firm, kind, reject);
        }
    }

    /// Notes that a worker has passed a garbled frame over.
    pub fn note_garbled(&self, worker: u32) {
        if let Some(board) = self.board() {
            board.passes_garbled(worker);
        }
    }

    /// Notes that a worker drops a message for the gap before it.
    pub fn note_dropped(&self, worker: u32) {
        if let Some(board) = self.board() {
            board.drops(worker);
        }
    }

    /// Notes that a worker sends so many messages again.
    pub fn note_resent(&self, worker: u32, count: u64) {
        if let Some(board) = self.board() {
            board.sends_again(worker, count);
        }
    }

    /// Notes that a worker has read so many bytes.
    pub fn note_read(&self, worker: u32, bytes: usize) {
        if let Some(board) = self.board() {
            board.reads(worker, bytes);
        }
    }

    /// Notes that the peer of a worker's connection has closed it.
    pub fn note_gone(&self, worker: u32) {
        if let Some(board) = self.board() {
            board.loses(worker);
        }
    }

    /// Counts a connection of a firm that has logged on: whether the firm may have it. If not, it
    /// doesn't count.
    pub fn enter(&self, firm: &FirmId) -> bool {
        let Some(tally) = self.firms.get(firm) else {
            return true;
        };
        let open = tally.open.fetch_add(1, Ordering::SeqCst);
        if self.limits.has_room(*firm == self.house, open) {
            return true;
        }
        tally.open.fetch_sub(1, Ordering::SeqCst);
        false
    }

    /// A connection that was counted has ended.
    pub fn leave(&self, firm: &FirmId) {
        if let Some(tally) = self.firms.get(firm) {
            tally.open.fetch_sub(1, Ordering::SeqCst);
        }
    }

    /// Says of which firms connections were closed since this was said last: a line for a firm and
    /// a reason.
    pub fn tell<R: Wait + Clock>(&self, rt: &R) {
        if !self.news.swap(false, Ordering::SeqCst) {
            return;
        }
        for (firm, tally) in self.firms.iter() {
            self.tell_closures(rt, firm, &tally.closures);
        }
        self.tell_closures(rt, &self.house, &self.own);
    }

    /// Says that connections of a firm were closed, and why.
    fn tell_closures<R: Wait + Clock>(&self, rt: &R, firm: &FirmId, closures: &Closures) {
        for ending in Ending::OF_LIMITS {
            let Some(count) = closures.of(ending) else {
                continue;
            };
            let count = count.swap(0, Ordering::SeqCst);
            if count > 0 {
                say_closed(rt, self.board(), firm, ending, count);
            }
        }
    }
}
