//! What is counted of a server while it runs, for an operator: by whoever does it, read by whoever
//! asks. It has no lock, so that nobody waits for a reader.

use crate::cell::{Cell, ENDED, Work, add, add_at, add_reject, load, zeros};
use crate::instructions::Instructions;
use crate::log::Log;
use crate::tallies::parts_in;
use crate::times::Taken;
use gu_base::{AllocId, Answer, Entry, FirmId, Memory, Number};
use gu_book::Book;
use gu_command::MOST_WORKERS;
use gu_limits::{Limits, Size, fills_group};
use gu_log::{Event, Field, Key, Value};
use gu_message::Reject;
use gu_parties::House;
use gu_status::{
    CAUSES, Cause, Faults, FirmEntries, Part, Pulses, REASONS, REJECTS, RefusedLogons, Snapshot,
    Syncs, mark_passed, stuck,
};
use indexmap::IndexMap;
use jiff::Timestamp;
use std::alloc::{AllocError, Global};
use std::sync::Wait;
use std::sync::atomic::{AtomicBool, AtomicU64, Ordering};
use std::time::Clock;

/// For how many seconds a part may stand still before `/health` says so.
const MOST_STILL: u64 = 5;

/// From how many microseconds on the disk is slow with a group.
const SLOW_SYNC: u64 = 100_000;

/// How many bytes of memory the book may take for each of MEMORY.
const MEGABYTE: u64 = 1_000_000;

/// What is counted.
#[derive(Drop)]
pub struct Board {
    alloc: Global,
    log: Log,
    logs_calls: bool,
    /// What an operator has said.
    instructions: Instructions,
    /// What firms may have.
    limits: Limits,
    /// The entries of each firm, in the order of the house file.
    firms: IndexMap<FirmId, AtomicU64>,
    cells: Vec<Cell>,
    /// The second of the watch: it stands while the whole program stands.
    second: AtomicU64,
    ready: AtomicBool,
    /// Whether the wall clock can't be told.
    timeless: AtomicBool,
    acceptor: AtomicU64,
    /// The second since which the journal's lock is held, and one more; 0 while it isn't. In the
    /// start it is held by whoever reads the journal, and each piece that was read is a new second.
    journal: AtomicU64,
    entries: AtomicU64,
    /// The parts of the book, and the bytes of its journal.
    parts: AtomicU64,
    journal_bytes: AtomicU64,
    /// About how many bytes a group takes of the entries that aren't on the disk yet, and of the
    /// calls that aren't answered yet.
    unkept: AtomicU64,
    /// Whether memory lacks for the next entry.
    lacks: AtomicBool,
    open: AtomicU64,
    taken: AtomicU64,
    waiting: AtomicU64,
    accepted: AtomicU64,
    repeated: AtomicU64,
    refused: Vec<AtomicU64>,
    /// The Rejects that were sent, for each of the `REJECT_REASONS`, the frames that were garbled,
    /// and the messages that were dropped for a gap, or sent again.
    rejects: Vec<AtomicU64>,
    garbled: AtomicU64,
    dropped: AtomicU64,
    resent: AtomicU64,
    /// How long the disk took for groups, and behind that the other machines.
    disk: Taken,
    machines: Taken,
    synced: AtomicU64,
    slow: AtomicU64,
    /// Connections that ended before a Logon was accepted, by their causes.
    logons_refused: Vec<AtomicU64>,
    /// When the server began, in seconds from 1970 on.
    began: AtomicU64,
}

/// A cell for each worker.
fn cells_for(alloc: Global, workers: u32) -> Result<Vec<Cell>, Memory> {
    let mut cells = Vec::new(alloc);
    for _ in 0..workers {
        if cells.push(Cell::new(alloc)?).is_err() {
            return Err(AllocError);
        }
    }
    Ok(cells)
}

/// A count for each firm of a house.
fn firms_of(alloc: Global, house: &House) -> Result<IndexMap<FirmId, AtomicU64>, Memory> {
    let mut firms = IndexMap::new(alloc);
    for place in 0..house.firm_count() {
        if let Some(firm) = house.firm_at(place) {
            if firms.insert(firm, AtomicU64::new(0)).is_err() {
                return Err(AllocError);
            }
        }
    }
    Ok(firms)
}

/// A number that fits.
fn small(number: u64) -> u32 {
    number.min(u64::from(u32::MAX)) as u32
}

/// A field with a number.
pub fn number(key: Key, number: u64) -> Field<'static> {
    Field {
        key,
        value: Value::Number(number),
    }
}

/// A field with a text.
pub fn text<'a>(key: Key, text: &'a [u8]) -> Field<'a> {
    Field {
        key,
        value: Value::Text(text),
    }
}

impl Board {
    /// A board for a server of this house with so many workers, before it is ready.
    pub fn new(
        alloc: Global,
        log: Log,
        logs_calls: bool,
        house: &House,
        workers: u32,
        limits: Limits,
    ) -> Result<Board, Memory> {
        Ok(Board {
            alloc,
            log,
            logs_calls,
            instructions: Instructions::new(alloc, house)?,
            limits,
            firms: firms_of(alloc, house)?,
            cells: cells_for(alloc, workers)?,
            second: AtomicU64::new(0),
            ready: AtomicBool::new(false),
            timeless: AtomicBool::new(false),
            acceptor: AtomicU64::new(ENDED),
            journal: AtomicU64::new(1),
            entries: AtomicU64::new(0),
            parts: AtomicU64::new(0),
            journal_bytes: AtomicU64::new(0),
            unkept: AtomicU64::new(0),
            lacks: AtomicBool::new(false),
            open: AtomicU64::new(0),
            taken: AtomicU64::new(0),
            waiting: AtomicU64::new(0),
            accepted: AtomicU64::new(0),
            repeated: AtomicU64::new(0),
            refused: zeros(alloc, REASONS)?,
            rejects: zeros(alloc, REJECTS)?,
            garbled: AtomicU64::new(0),
            dropped: AtomicU64::new(0),
            resent: AtomicU64::new(0),
            disk: Taken::new(alloc)?,
            machines: Taken::new(alloc)?,
            synced: AtomicU64::new(0),
            slow: AtomicU64::new(0),
            logons_refused: zeros(alloc, CAUSES)?,
            began: AtomicU64::new(0),
        })
    }

    /// Where its memory comes from.
    pub fn alloc(&self) -> Global {
        self.alloc
    }

    /// The log.
    pub fn log(&self) -> &Log {
        &self.log
    }

    /// What an operator has said.
    pub fn instructions(&self) -> &Instructions {
        &self.instructions
    }

    /// Whether connections are taken.
    fn is_ready(&self) -> bool {
        self.ready.load(Ordering::SeqCst) && !self.instructions.stops()
    }

    /// The server begins now.
    pub(crate) fn begins<R: Clock>(&self, rt: &R) {
        if let Ok(moment) = Timestamp::now(rt) {
            let second = moment.as_second().max(0) as u64;
            self.began.store(second, Ordering::SeqCst);
        }
    }

    /// Says an event.
    pub fn say<R: Wait + Clock>(&self, rt: &R, event: Event, fields: &[Field<'_>]) {
        self.log.say(rt, self.alloc, event, fields);
    }

    /// Counts a connection that has ended before a Logon was accepted, for this cause.
    pub fn refuses_logon(&self, cause: Cause) {
        for i in 0..CAUSES {
            if Cause::ALL[i] == cause {
                if let Some(count) = self.logons_refused.get(i) {
                    add(count);
                }
            }
        }
    }

    /// How many there were for each cause.
    fn refused_logons(&self) -> [RefusedLogons; CAUSES] {
        let mut refused = [RefusedLogons {
            cause: Cause::NoMessage,
            count: 0,
        }; CAUSES];
        for i in 0..CAUSES {
            if let Some(count) = self.logons_refused.get(i) {
                refused[i] = RefusedLogons {
                    cause: Cause::ALL[i],
                    count: load(count),
                };
            }
        }
        refused
    }

    /// Counts the entries of a book that was recovered, all of which are on the disk.
    pub fn count_book(&self, book: &Book) {
        let mut count = 0u64;
        for entry in book.history() {
            count = count.saturating_add(1);
            if let Some(entries) = self.firms.get(&entry.firm) {
                add(entries);
            }
        }
        self.entries.store(count, Ordering::SeqCst);
        self.parts.store(book.parts(), Ordering::SeqCst);
    }

    /// How many bytes the journal has.
    pub fn has_written(&self, bytes: u64) {
        self.journal_bytes.store(bytes, Ordering::SeqCst);
    }

    /// Notes whether memory lacks for the next entry.
    pub fn note_lack(&self, lacks: bool) {
        self.lacks.store(lacks, Ordering::SeqCst);
    }

    /// Whether memory lacks for the next entry.
    pub fn lacks_memory(&self) -> bool {
        self.lacks.load(Ordering::SeqCst)
    }

    /// How many entries the book has.
    pub fn entries(&self) -> u64 {
        load(&self.entries)
    }

    /// Warns of what is nearly full in a book that was recovered.
    pub fn warn<R: Wait + Clock>(&self, rt: &R) {
        self.warn_of_book(rt, 0, self.entries());
        for (firm, entries) in self.firms.iter() {
            self.warn_of_share(rt, firm, 0, load(entries));
        }
    }

    /// Connections are taken from now on.
    pub fn set_ready(&self) {
        let second = load(&self.second);
        self.acceptor.store(second, Ordering::SeqCst);
        for cell in self.cells.as_slice() {
            cell.turned.store(second, Ordering::SeqCst);
        }
        self.synced.store(second, Ordering::SeqCst);
        self.leaves_journal();
        self.ready.store(true, Ordering::SeqCst);
    }

    /// Begins a second of the watch, and of the log.
    pub fn begin_second<R: Wait + Clock>(&self, rt: &R) {
        self.second.fetch_add(1, Ordering::SeqCst);
        self.log.begin_second(rt, self.alloc);
    }

    /// A worker has a turn.
    pub fn turns(&self, worker: u32) {
        if let Some(cell) = self.cells.get(worker as usize) {
            cell.turned.store(load(&self.second), Ordering::SeqCst);
        }
    }

    /// A worker has ended.
    pub fn ends(&self, worker: u32) {
        if let Some(cell) = self.cells.get(worker as usize) {
            cell.turned.store(ENDED, Ordering::SeqCst);
        }
    }

    /// The thread that accepts has a turn.
    pub fn accepts(&self) {
        self.acceptor.store(load(&self.second), Ordering::SeqCst);
    }

    /// It has ended.
    pub fn accepts_no_more(&self) {
        self.acceptor.store(ENDED, Ordering::SeqCst);
    }

    /// The journal's lock is held from now on, or whoever holds it has moved.
    pub fn takes_journal(&self) {
        let since = load(&self.second).saturating_add(1);
        self.journal.store(since, Ordering::SeqCst);
    }

    /// It is free again.
    pub fn leaves_journal(&self) {
        self.journal.store(0, Ordering::SeqCst);
    }

    /// A call is to be made that may make an entry with so many parts.
    pub(crate) fn begins_entry(&self, parts: u64) {
        let call = Size { entries: 1, parts };
        self.unkept.fetch_add(call.group_bytes(), Ordering::SeqCst);
    }

    /// So many entries with so many parts together are on the disk, or weren't made.
    pub(crate) fn takes_back(&self, entries: u64, parts: u64) {
        let size = Size { entries, parts };
        self.unkept.fetch_sub(size.group_bytes(), Ordering::SeqCst);
    }

    /// Whether what isn't on the disk yet fills a group.
    pub(crate) fn is_group_full(&self) -> bool {
        fills_group(load(&self.unkept))
    }

    /// A group with these entries is on the disk: nobody was told of them yet.
    pub fn keeps<R: Wait + Clock>(&self, rt: &R, group: &[Entry]) {
        let count = group.len() as u64;
        self.accepted.fetch_add(count, Ordering::SeqCst);
        let before = self.entries.fetch_add(count, Ordering::SeqCst);
        let mut parts = 0u64;
        for entry in group {
            self.count_entry(rt, &entry.firm);
            parts = parts.saturating_add(parts_in(&entry.command));
        }
        self.parts.fetch_add(parts, Ordering::SeqCst);
        self.takes_back(count, parts);
        self.warn_of_book(rt, before, before.saturating_add(count));
    }

    /// Warns where the book has become nearly full.
    fn warn_of_book<R: Wait + Clock>(&self, rt: &R, before: u64, after: u64) {
        if let Some(percent) = mark_passed(small(before), small(after), Number::MAX) {
            let fields = [
                number(Key::Percent, u64::from(percent)),
                number(Key::Entries, after),
                number(Key::Most, u64::from(Number::MAX)),
            ];
            self.say(rt, Event::BookFills, &fields);
        }
    }

    /// A group of so many entries took the disk so many microseconds, and behind that the other
    /// machines so many, if there are such.
    pub fn recorded<R: Wait + Clock>(&self, rt: &R, count: u64, disk: u64, machines: Option<u64>) {
        self.disk.note(disk);
        if let Some(micros) = machines {
            self.machines.note(micros);
        }
        self.synced.store(load(&self.second), Ordering::SeqCst);
        if disk > SLOW_SYNC {
            add(&self.slow);
            let fields = [
                number(Key::Milliseconds, disk / 1000),
                number(Key::Entries, count),
            ];
            self.say(rt, Event::SlowSync, &fields);
        }
    }

    /// A worker has read so many bytes.
    pub(crate) fn reads(&self, worker: u32, bytes: usize) {
        if let Some(cell) = self.cells.get(worker as usize) {
            cell.read.fetch_add(bytes as u64, Ordering::SeqCst);
        }
    }

    /// The peer of a worker's connection has closed it.
    pub(crate) fn loses(&self, worker: u32) {
        if let Some(cell) = self.cells.get(worker as usize) {
            cell.gone.fetch_add(1, Ordering::SeqCst);
        }
    }

    /// What a worker has done so far.
    pub fn work(&self, worker: u32) -> Work {
        match self.cells.get(worker as usize) {
            Some(cell) => cell.work(),
            None => Work::default(),
        }
    }

    /// Adds the calls that a worker has refused in this turn to those of its connection, by the
    /// refusal's number.
    pub fn hand_over(&self, worker: u32, reasons: &mut [u64; REASONS]) {
        if let Some(cell) = self.cells.get(worker as usize) {
            cell.hand_over(reasons);
        }
    }

    /// Adds the Rejects that a worker has sent in this turn to those of its connection, for each of
    /// the `REJECT_REASONS`.
    pub fn hand_rejects(&self, worker: u32, rejects: &mut [u64; REJECTS]) {
        if let Some(cell) = self.cells.get(worker as usize) {
            cell.hand_rejects(rejects);
        }
    }

    /// A worker serves the connection of this number from now on.
    pub fn serves(&self, worker: u32, connection: u64) {
        if let Some(cell) = self.cells.get(worker as usize) {
            cell.connection.store(connection, Ordering::SeqCst);
        }
    }

    /// Bytes wait for a firm, or don't any more.
    pub fn waits(&self, before: usize, after: usize) {
        if after >= before {
            self.waiting
                .fetch_add((after - before) as u64, Ordering::SeqCst);
        } else {
            self.waiting
                .fetch_sub((before - after) as u64, Ordering::SeqCst);
        }
    }

    /// The number of a connection that is taken.
    pub fn enters(&self) -> u64 {
        self.taken.fetch_add(1, Ordering::SeqCst).saturating_add(1)
    }

    /// A connection is served from now on.
    pub fn opens(&self) {
        self.open.fetch_add(1, Ordering::SeqCst);
    }

    /// A connection has ended.
    pub fn leaves(&self) {
        self.open.fetch_sub(1, Ordering::SeqCst);
    }

    /// Counts an entry of a firm.
    fn count_entry<R: Wait + Clock>(&self, rt: &R, firm: &FirmId) {
        let Some(entries) = self.firms.get(firm) else {
            return;
        };
        let before = entries.fetch_add(1, Ordering::SeqCst);
        self.warn_of_share(rt, firm, before, before.saturating_add(1));
    }

    /// Warns where a firm has used most of what it may.
    fn warn_of_share<R: Wait + Clock>(&self, rt: &R, firm: &FirmId, before: u64, after: u64) {
        let Some(most) = self.limits.most_entries else {
            return;
        };
        if let Some(percent) = mark_passed(small(before), small(after), most) {
            let fields = [
                text(Key::Firm, firm.as_bytes()),
                number(Key::Percent, u64::from(percent)),
                number(Key::Entries, after),
                number(Key::Most, u64::from(most)),
            ];
            self.say(rt, Event::ShareFills, &fields);
        }
    }

    /// A worker has answered a call.
    pub(crate) fn answers<R: Wait + Clock>(
        &self,
        rt: &R,
        worker: u32,
        firm: &FirmId,
        id: &AllocId,
        answer: &Answer,
    ) {
        match answer {
            // It is counted once it is on the disk.
            Answer::Accepted { .. } => {}
            Answer::Repeated { .. } => add(&self.repeated),
            Answer::Refused(refusal) => add_at(self.refused.as_slice(), refusal.number()),
        }
        let Some(cell) = self.cells.get(worker as usize) else {
            return;
        };
        cell.count(answer);
        if self.logs_calls {
            self.say_call(rt, load(&cell.connection), firm, id, answer);
        }
    }

    /// Says which call was answered how: `entry N`, or the refusal's number and text.
    fn say_call<R: Wait + Clock>(
        &self,
        rt: &R,
        connection: u64,
        firm: &FirmId,
        id: &AllocId,
        answer: &Answer,
    ) {
        let said = match answer {
            Answer::Accepted { number, .. } => { format!(in self.alloc; "entry {}", number.get()) }
            Answer::Repeated { number, .. } => {
                format!(in self.alloc; "entry {} as before", number.get())
            }
            Answer::Refused(refusal) => { format!(in self.alloc; "{} {refusal}", refusal.number()) }
        };
        let Ok(said) = said else {
            return;
        };
        let fields = [
            number(Key::Connection, connection),
            text(Key::Firm, firm.as_bytes()),
            text(Key::Id, id.as_bytes()),
            text(Key::Answer, said.as_bytes()),
        ];
        self.say(rt, Event::Called, &fields);
    }

    /// A worker answers a firm's message of this type by a Reject.
    pub(crate) fn rejects<R: Wait + Clock>(
        &self,
        rt: &R,
        worker: u32,
        firm: &FirmId,
        kind: &[u8],
        reject: Reject,
    ) {
        add_reject(self.rejects.as_slice(), reject.reason);
        let Some(cell) = self.cells.get(worker as usize) else {
            return;
        };
        cell.count_reject(reject.reason);
        if self.logs_calls {
            let fields = [
                number(Key::Connection, load(&cell.connection)),
                text(Key::Firm, firm.as_bytes()),
                text(Key::Type, kind),
                number(Key::Tag, u64::from(reject.tag)),
                number(Key::Reason, u64::from(reject.reason)),
            ];
            self.say(rt, Event::Rejected, &fields);
        }
    }

    /// A worker has passed a garbled frame over.
    pub(crate) fn passes_garbled(&self, worker: u32) {
        add(&self.garbled);
        if let Some(cell) = self.cells.get(worker as usize) {
            add(&cell.garbled);
        }
    }

    /// A worker drops a message for the gap before it.
    pub(crate) fn drops(&self, worker: u32) {
        add(&self.dropped);
        if let Some(cell) = self.cells.get(worker as usize) {
            add(&cell.dropped);
        }
    }

    /// A worker sends so many messages again.
    pub(crate) fn sends_again(&self, worker: u32, count: u64) {
        self.resent.fetch_add(count, Ordering::SeqCst);
        if let Some(cell) = self.cells.get(worker as usize) {
            cell.resent.fetch_add(count, Ordering::SeqCst);
        }
    }

    /// What went wrong between firms and the server.
    fn faults(&self) -> Faults {
        let mut rejects = [0u64; REJECTS];
        for i in 0..REJECTS {
            if let Some(count) = self.rejects.get(i) {
                rejects[i] = load(count);
            }
        }
        Faults {
            rejects,
            garbled: load(&self.garbled),
            dropped: load(&self.dropped),
            resent: load(&self.resent),
        }
    }

    /// The first part that hasn't moved for so many seconds.
    pub fn stuck(&self, most: u64) -> Option<Part> {
        let mut turned = [ENDED; MOST_WORKERS as usize];
        for i in 0..self.cells.len().min(MOST_WORKERS as usize) {
            if let Some(cell) = self.cells.get(i) {
                turned[i] = load(&cell.turned);
            }
        }
        let journal = match load(&self.journal) {
            0 => None,
            since => Some(since.saturating_sub(1)),
        };
        let pulses = Pulses {
            journal,
            acceptor: load(&self.acceptor),
            workers: &turned,
        };
        stuck(&pulses, load(&self.second), most)
    }

    /// What `/health` says stands still: a part, or the clock.
    fn unhealthy(&self) -> Option<Part> {
        match self.stuck(MOST_STILL) {
            None if self.timeless.load(Ordering::SeqCst) => Some(Part::Clock),
            part => part,
        }
    }

    /// Whether the wall clock can be told.
    pub fn tells_time(&self, is_told: bool) {
        self.timeless.store(!is_told, Ordering::SeqCst);
    }

    /// How the syncs stand.
    fn snapshot_syncs(&self) -> Syncs {
        let second = load(&self.second);
        let oldest_seconds = match load(&self.journal) {
            0 => 0,
            since => second.saturating_sub(since.saturating_sub(1)),
        };
        Syncs {
            disk: self.disk.times(),
            machines: self.machines.times(),
            slow: load(&self.slow),
            oldest_seconds,
            idle_seconds: second.saturating_sub(load(&self.synced)),
        }
    }

    /// How large the book is.
    fn size(&self) -> Size {
        Size {
            entries: load(&self.entries),
            parts: load(&self.parts),
        }
    }

    /// How the server stands.
    pub fn snapshot(&self) -> Result<Snapshot, Memory> {
        let mut firms = Vec::with_capacity(self.alloc, self.firms.len())?;
        for (firm, entries) in self.firms.iter() {
            let entries = load(entries);
            firms.push(FirmEntries {
                firm: *firm,
                entries,
                is_refused: self.instructions.of(firm).refused,
            })?;
        }
        let mut refused = [0u64; REASONS];
        for i in 0..REASONS {
            if let Some(count) = self.refused.get(i) {
                refused[i] = load(count);
            }
        }
        Ok(Snapshot {
            began: load(&self.began),
            is_ready: self.is_ready(),
            stuck: self.unhealthy(),
            entries: small(load(&self.entries)),
            most_entries: Number::MAX,
            reserved: self.limits.reserve.unwrap_or(0),
            book_bytes: self.size().memory(),
            most_bytes: u64::from(self.limits.memory.unwrap_or(0)) * MEGABYTE,
            journal_bytes: load(&self.journal_bytes),
            lacks_memory: self.lacks_memory(),
            firms,
            connections: load(&self.open),
            accepted: load(&self.accepted),
            repeated: load(&self.repeated),
            refused,
            faults: self.faults(),
            logons_refused: self.refused_logons(),
            waiting_bytes: load(&self.waiting),
            syncs: self.snapshot_syncs(),
            lines_lost: self.log.lost(),
        })
    }
}
