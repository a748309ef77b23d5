//! The log of a server: lines that go to a thread of their own, so that nobody waits for a reader.

use crate::board::{number, text};
use crate::cell::{load, zeros};
use crossbeam_channel::{Receiver, Sender};
use gu_base::Memory;
use gu_log::{Event, Field, Key, line};
use gu_message::{SendingTime, is_moment};
use jiff::Timestamp;
use std::alloc::{AllocError, Global};
use std::io::Eprint;
use std::sync::atomic::{AtomicU64, Ordering};
use std::sync::{Arc, Wait};
use std::thread;
use std::thread::Threads;
use std::time::{Clock, Duration};

/// How many lines may wait for a reader. Where more come, they are lost and counted.
const MOST_LINES: usize = 2048;

/// How many may wait that tell of calls and Rejects, so that others have room.
const MOST_CALLS: usize = 1024;

/// How many lines an event of one kind has in a second, but for calls and Rejects. Where more come,
/// they are counted, and one line tells how many there were.
const MOST_A_SECOND: u64 = 50;

/// How long the end of the program waits for a reader, in milliseconds.
const LAST_WAIT: u64 = 1000;

/// How many lines were lost.
#[derive(Drop)]
struct Losses {
    /// Those that aren't told of yet, and all of them.
    untold: AtomicU64,
    all: AtomicU64,
}

impl Losses {
    /// A line is lost that tells of so many lost ones: they are untold again.
    fn lose(&self, tells: u64) {
        self.all.fetch_add(1, Ordering::SeqCst);
        self.untold
            .fetch_add(tells.saturating_add(1), Ordering::SeqCst);
    }
}

/// A line on its way to whoever reads.
#[derive(Drop)]
struct Line {
    text: Vec<u8>,
    /// How many lost lines it tells of.
    tells: u64,
}

/// Where lines are put, and how many there were.
#[derive(Drop)]
pub struct Log {
    to: Sender<Line>,
    losses: Arc<Losses>,
    /// The events of this second, by their kinds.
    paces: Vec<AtomicU64>,
}

/// The end of a log, which is told where its last line was written.
pub type Written = Receiver<()>;

/// Writes a line: one of its own, where the one before it may have been cut. Whether it could.
fn write_line<R: Eprint>(rt: &R, text: &[u8], is_cut: bool) -> bool {
    let Ok(text) = std::str::from_utf8(text) else {
        return false;
    };
    if is_cut && rt.eprint("\n").is_err() {
        return false;
    }
    rt.eprint(text).is_ok()
}

/// Writes lines until an empty one has come.
fn write_lines<R: Wait + Eprint>(
    rt: &R,
    lines: &Receiver<Line>,
    written: &Sender<()>,
    losses: &Losses,
) {
    let mut is_cut = false;
    for _ in rt.forever() {
        let Ok(line) = lines.recv(rt) else {
            break;
        };
        if line.text.is_empty() {
            break;
        }
        is_cut = !write_line(rt, line.text.as_slice(), is_cut);
        if is_cut {
            losses.lose(line.tells);
        }
    }
    let _ = written.send(rt, ());
}

impl Log {
    /// A log whose lines a thread of its own writes to standard error.
    pub fn open<R: Threads + Wait + Eprint + Copy + Send + Sync + 'static>(
        rt: &R,
        alloc: Global,
    ) -> Result<(Log, Written), Memory> {
        let (to, lines) = crossbeam_channel::bounded::<Line, Global>(alloc, MOST_LINES)?;
        let (end, written) = crossbeam_channel::bounded::<(), Global>(alloc, 1)?;
        let there = *rt;
        let losses = Losses {
            untold: AtomicU64::new(0),
            all: AtomicU64::new(0),
        };
        let Ok(losses) = Arc::new(alloc, losses) else {
            return Err(AllocError);
        };
        let Ok(counted) = Arc::try_clone(&losses) else {
            return Err(AllocError);
        };
        let log = Log {
            to,
            losses,
            paces: zeros(alloc, Event::ALL.len())?,
        };
        // Without a thread nothing takes the lines: they are lost, and the server serves.
        let _ = thread::spawn(rt, move || write_lines(&there, &lines, &end, &counted));
        Ok((log, written))
    }

    /// How many lines were lost.
    pub fn lost(&self) -> u64 {
        load(&self.losses.all)
    }

    /// Puts a line of an event that is now among those that are to be written, where there is room.
    fn put<R: Wait + Clock>(
        &self,
        rt: &R,
        alloc: Global,
        event: Event,
        fields: &[Field<'_>],
        tells: u64,
    ) {
        let is_put = match Log::line_now(rt, alloc, event, fields) {
            Some(text) => self.to.try_send(rt, Line { text, tells }).is_ok(),
            None => false,
        };
        if !is_put {
            self.losses.lose(tells);
        }
    }

    /// The line of an event that is now.
    fn line_now<R: Clock>(
        rt: &R,
        alloc: Global,
        event: Event,
        fields: &[Field<'_>],
    ) -> Option<Vec<u8>> {
        match Timestamp::now(rt) {
            Ok(moment) if is_moment(moment) => {
                line(alloc, SendingTime::new(moment).as_bytes(), event, fields).ok()
            }
            _ => line(alloc, b"", event, fields).ok(),
        }
    }

    /// Says how many lines were lost since that was said last.
    fn say_lost<R: Wait + Clock>(&self, rt: &R, alloc: Global) {
        if load(&self.losses.untold) == 0 || self.to.is_full() {
            return;
        }
        let count = self.losses.untold.swap(0, Ordering::SeqCst);
        let fields = [number(Key::Lines, count)];
        self.put(rt, alloc, Event::LinesLost, &fields, count);
    }

    /// Counts an event in this second: whether it has a line. A call and a Reject have one where
    /// there is room.
    fn has_line(&self, event: Event) -> bool {
        if event == Event::Called || event == Event::Rejected {
            let has_room = self.to.len() < MOST_CALLS;
            if !has_room {
                self.losses.lose(0);
            }
            return has_room;
        }
        for i in 0..Event::ALL.len() {
            if Event::ALL[i] == event {
                if let Some(pace) = self.paces.get(i) {
                    return pace.fetch_add(1, Ordering::SeqCst) < MOST_A_SECOND;
                }
            }
        }
        true
    }

    /// Begins a second: says of which events there were more in the last one than have lines.
    pub fn begin_second<R: Wait + Clock>(&self, rt: &R, alloc: Global) {
        for i in 0..Event::ALL.len() {
            let count = match self.paces.get(i) {
                Some(pace) => pace.swap(0, Ordering::SeqCst).saturating_sub(MOST_A_SECOND),
                None => 0,
            };
            if count > 0 {
                let of = text(Key::Of, Event::ALL[i].word().as_bytes());
                let fields = [of, number(Key::Lines, count)];
                self.put(rt, alloc, Event::Suppressed, &fields, 0);
            }
        }
    }

    /// Says an event. Who says it waits for nobody.
    pub fn say<R: Wait + Clock>(&self, rt: &R, alloc: Global, event: Event, fields: &[Field<'_>]) {
        self.say_lost(rt, alloc);
        if self.has_line(event) {
            self.put(rt, alloc, event, fields, 0);
        }
    }

    /// Ends the log: its last lines have a second to be written. Whether they were.
    pub fn end<R: Wait + Clock>(&self, rt: &R, alloc: Global, written: &Written) -> bool {
        self.begin_second(rt, alloc);
        self.say_lost(rt, alloc);
        let wait = Duration::from_millis(LAST_WAIT);
        let last = Line {
            text: Vec::new(alloc),
            tells: 0,
        };
        self.to.send_timeout(rt, last, wait).is_ok() && written.recv_timeout(rt, wait).is_ok()
    }
}
