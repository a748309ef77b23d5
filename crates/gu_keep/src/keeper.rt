//! A worker that serves many connections. In each round it waits until some are ready, has a turn
//! with each of them, has what the desk has answered recorded, and sends what may go out.

use crate::bells::{Bell, Bells};
use crate::client::{Client, open_client};
use crate::clients::Clients;
use crate::scribe::record_alone;
use crate::stranger::Stranger;
use crossbeam_channel::{Receiver, TryRecvError};
use gu_board::Work;
use gu_command::KeepError;
use gu_connection::{Closed, Span, Worker};
use gu_desk::{Gate, Job, Seat, Ticket};
use gu_recorder::{OpenJournal, Recorder, Wire};
use mio::unix::SourceFd;
use mio::{Events, Interest, Poll, Token};
use std::net::TcpStream;
use std::sync::atomic::Ordering;
use std::sync::{Mutex, Wait};
use std::time::{Clock, Duration, Instant};

/// The token of a worker's waker.
pub(crate) const WOKEN: usize = 1 << 40;

/// How many events a poll brings.
const MOST_EVENTS: usize = 256;

/// The longest read of a turn, in bytes.
const LONGEST_READ: usize = 16_384;

/// How many connections are taken in one round. Each has a turn before as many have come as may be
/// without a Logon, if its Logon is there.
const MOST_TAKEN: usize = 64;

/// How many connections of a worker may be without a Logon. Where there are more, the one that came
/// first is closed.
const MOST_UNNAMED: usize = 2_048;

/// Where the server stops: for how many milliseconds peers may leave what is kept untaken, and for
/// how many seconds a stream lingers, beside the one that goes on.
const MOST_LAST: u64 = 2_000;

const LAST_LINGER: u64 = 1;

/// After how many milliseconds those on which calls wait are asked again.
pub(crate) const LATE_WAIT: u64 = 16;

/// A worker, and what it has for its connections.
#[derive(Drop)]
pub(crate) struct Keeper<'a, K: OpenJournal, J: Job, R, G> {
    pub(crate) worker: Worker<'a, J, R, G>,
    pub(crate) recorder: &'a Mutex<Recorder<K, J>>,
    pub(crate) bells: &'a Bells,
    pub(crate) bell: &'a Bell,
    pub(crate) streams: Receiver<TcpStream>,
}

/// What a round is about.
#[derive(Drop)]
struct Round<J: Job> {
    /// Whether the worker was woken.
    woken: bool,
    /// Where reads put their bytes.
    piece: Vec<u8>,
    /// How many milliseconds the worker had served when its last poll ended, and in which second
    /// it last had a tick.
    millis: u64,
    second: u64,
    /// When those on which calls wait were last asked, in 16 milliseconds, and when others were
    /// last woken since too much waits for a firm.
    late_asked: u64,
    rang: u64,
    /// When the worker saw first that the server is to stop.
    stops: Option<u64>,
    /// When the clock was read last: the next turn begins then.
    now: Instant,
    /// What the newest bytes that were made rest on, and how many entries the journal was asked to
    /// record last.
    newest: Ticket<J>,
    asked_for: u32,
}

impl<J: Job> Round<J> {
    /// Before the first round, now, with room to read and a ticket.
    fn new(piece: Vec<u8>, now: Instant, newest: Ticket<J>) -> Round<J> {
        Round {
            woken: false,
            piece,
            millis: 0,
            second: 0,
            late_asked: 0,
            rang: 0,
            stops: None,
            now,
            newest,
            asked_for: 0,
        }
    }
}

/// Notes which connections are ready, and whether the worker was woken.
fn note<J: Job>(events: &Events, clients: &mut Clients<'_, J>, round: &mut Round<J>) {
    clients.ready.clear();
    round.woken = false;
    for event in events.iter() {
        let at = event.token().0;
        if at == WOKEN {
            round.woken = true;
        } else if clients.stranger_at(at).is_some() {
            let readable = event.is_readable() || event.is_error();
            if clients.note_stranger(at, readable, event.is_read_closed()) {
                let _ = clients.ready.push(at);
            }
        } else if clients.at(at).is_none() {
            clients.note_lingering(Some(at), round.second);
        } else if let Some(Some(client)) = clients.places.get_mut(at) {
            let readable = event.is_readable() || event.is_error();
            let writable = event.is_writable() || event.is_error();
            client.note(readable, event.is_read_closed(), writable);
            let _ = clients.ready.push(at);
        }
    }
}

/// Puts those that have a turn without being asked beside the ready ones, and each 16 milliseconds
/// those on which calls wait.
fn hurry<J: Job>(clients: &mut Clients<'_, J>, round: &mut Round<J>) {
    for _ in 0..clients.hurried_count() {
        let Some(at) = clients.next_hurried() else {
            return;
        };
        if let Some(Some(client)) = clients.places.get_mut(at) {
            client.hurries = false;
            let _ = clients.ready.push(at);
        }
    }
    if round.millis / LATE_WAIT != round.late_asked {
        round.late_asked = round.millis / LATE_WAIT;
        clients.ask_late();
    }
}

/// Why a connection has ended, if it isn't over: what is over knows itself why.
fn ended_by<J: Job>(client: Option<&Client<'_, J>>) -> Option<&'static str> {
    match client {
        Some(client) if client.is_over() || client.is_cut() => None,
        Some(client) if client.visit.is_gone() => None,
        _ => Some("cannot be written to"),
    }
}

impl<'a, K: OpenJournal, J: Job, R: Wait + Clock, G: Gate> Keeper<'a, K, J, R, G> {
    /// Registers a connection with the poll under this place.
    fn watch(&self, poll: &Poll, wire: &Wire, at: usize) -> Result<(), Closed> {
        let fd = wire.as_raw_fd();
        match poll.registry().register(
            &mut SourceFd(&fd),
            Token(at),
            Interest::READABLE | Interest::WRITABLE,
        ) {
            Ok(()) => Ok(()),
            Err(_) => Err(Closed),
        }
    }

    /// Takes a connection in. One that can't be set up, or for which memory lacks, is dropped.
    fn take(&self, poll: &Poll, clients: &mut Clients<'a, J>, stream: TcpStream, second: u64) {
        let added = match Stranger::new(&self.worker, stream, second) {
            Ok(stranger) => clients.add(stranger),
            Err(closed) => Err(closed),
        };
        let Ok(at) = added else {
            self.bell.open.fetch_sub(1, Ordering::SeqCst);
            return;
        };
        if let Some(board) = self.worker.tallies.board() {
            board.opens();
        }
        let watched = match clients.stranger_at(at) {
            Some(stranger) => self.watch(poll, &stranger.wire, at).is_ok(),
            None => false,
        };
        if !watched {
            self.close(clients, at, second, Some("not watched"));
        }
        self.close_unnamed(clients, MOST_UNNAMED, second);
    }

    /// Closes those without a Logon that came first, until there are at most so many.
    fn close_unnamed(&self, clients: &mut Clients<'a, J>, most: usize, second: u64) {
        for _ in most..clients.unnamed() {
            let Some(at) = clients.oldest_unnamed() else {
                return;
            };
            self.close(clients, at, second, Some("too many without a Logon"));
        }
    }

    /// Closes half of those without a Logon, and of those that linger, if descriptors lack. The one
    /// that came last stays.
    fn make_way(&self, clients: &mut Clients<'a, J>, second: u64) {
        if self.bell.lacks.swap(false, Ordering::SeqCst) {
            clients.close_half_of_lingering();
            let all = clients.unnamed();
            self.close_unnamed(clients, all.saturating_sub(all / 2), second);
        }
    }

    /// Takes the connections that have come. False where no more will come.
    fn take_all(&self, poll: &Poll, clients: &mut Clients<'a, J>, second: u64) -> bool {
        for _ in 0..MOST_TAKEN {
            match self.streams.try_recv(self.worker.rt) {
                Ok(stream) => self.take(poll, clients, stream, second),
                Err(TryRecvError::Empty) => return true,
                Err(TryRecvError::Disconnected) => return false,
            }
        }
        // More may be there: the next round takes them.
        let _ = self.bell.waker.wake();
        true
    }

    /// Says that a connection ends, and why.
    fn say_end(&self, client: &Client<'a, J>, second: u64, why: Option<&'static str>) {
        let Some(board) = self.worker.tallies.board() else {
            return;
        };
        let rt = self.worker.rt;
        match client.begun() {
            Some((firm, _)) => {
                let left = client.messages_left();
                client.visit.say_end(rt, board, &firm, second, why, left)
            }
            None => client
                .visit
                .say_refusal(rt, board, self.worker.house, second),
        }
        board.waits(client.waiting(), 0);
        board.leaves();
    }

    /// Closes the stranger at a place: whether there was one.
    fn close_stranger(&self, clients: &mut Clients<'a, J>, at: usize, second: u64) -> bool {
        let Some(stranger) = clients.take_stranger(at) else {
            return false;
        };
        if let Some(board) = self.worker.tallies.board() {
            stranger
                .visit
                .say_refusal(self.worker.rt, board, self.worker.house, second);
            board.leaves();
        }
        clients.free_stranger(at);
        self.bell.open.fetch_sub(1, Ordering::SeqCst);
        true
    }

    /// Opens the connection of the stranger at a place. One for which memory lacks is closed.
    #[cold]
    #[inline(never)]
    fn open(&self, seat: &mut Seat<J>, clients: &mut Clients<'a, J>, second: u64, at: usize) {
        let Some(stranger) = clients.take_stranger(at) else {
            return;
        };
        match open_client(&self.worker, seat, stranger, second) {
            Ok(client) => clients.know(at, client),
            Err(_) => {
                if let Some(board) = self.worker.tallies.board() {
                    board.leaves();
                }
                clients.free_stranger(at);
                self.bell.open.fetch_sub(1, Ordering::SeqCst);
            }
        }
    }

    /// Opens the connection at a place, if it is a stranger's. To take one moves much.
    fn know(&self, seat: &mut Seat<J>, clients: &mut Clients<'a, J>, second: u64, at: usize) {
        if clients.stranger_at(at).is_some() {
            self.open(seat, clients, second, at);
        }
    }

    /// Closes the connection at a place, for this reason, if it doesn't know itself why.
    fn close(
        &self,
        clients: &mut Clients<'a, J>,
        at: usize,
        second: u64,
        why: Option<&'static str>,
    ) {
        if self.close_stranger(clients, at, second) {
            return;
        }
        if let Some(Some(client)) = clients.places.get_mut(at) {
            client.leave(self.worker.tallies);
            client.close_archived(&self.worker, &mut clients.archive, why);
            self.say_end(client, second, why);
            self.let_go(client);
        }
        if clients.close(at, second) {
            self.bell.open.fetch_sub(1, Ordering::SeqCst);
        }
    }

    /// What the worker had done before a turn with a connection, and how much waited there.
    fn begin_turn(&self, client: &Client<'a, J>) -> (Work, usize) {
        match self.worker.tallies.board() {
            Some(board) => (
                client.visit.begin(board, self.worker.number),
                client.waiting(),
            ),
            None => (Work::default(), 0),
        }
    }

    /// Has the watch hold the stream of a client on which a firm has logged on.
    fn hold(&self, client: &mut Client<'a, J>) {
        if client.beside.shutter.is_some() || client.firm().is_none() {
            return;
        }
        if let Some(wire) = &client.wire {
            client.beside.shutter = self.bells.shutters.hold(self.worker.rt, wire);
        }
    }

    /// Has the watch let go of it, if it holds it.
    fn let_go(&self, client: &Client<'a, J>) {
        if let Some(place) = client.beside.shutter {
            self.bells.shutters.let_go(self.worker.rt, place);
        }
    }

    /// Has the watch let go of all that are there, so that they end with the worker.
    fn let_all_go(&self, clients: &Clients<'a, J>) {
        for at in 0..clients.places.len() {
            if let Some(client) = clients.at(at) {
                self.let_go(client);
            }
        }
    }

    /// Counts what a turn in this second has done, and says that a firm has logged on, if it has,
    /// and that its messages have lacked for long. The worker is well.
    fn end_turn(
        &self,
        client: &mut Client<'a, J>,
        before: (Work, usize),
        piece: &[u8],
        second: u64,
    ) {
        client.count_held(self.worker.tallies);
        self.hold(client);
        let Some(board) = self.worker.tallies.board() else {
            return;
        };
        board.turns(self.worker.number);
        client.visit.end(board, self.worker.number, before.0, piece);
        board.waits(before.1, client.waiting());
        if let Some((firm, above)) = client.begun() {
            client.visit.say_logon(self.worker.rt, board, &firm, above);
            let gap = client.gap();
            client
                .visit
                .look_at_gap(self.worker.rt, board, &firm, gap, second);
        }
    }

    /// A turn with the connection at a place, if its firm has time left in this round. It begins
    /// where the clock was read last, as the end of the turn before, and notes its own end.
    fn turn(
        &self,
        seat: Seat<J>,
        clients: &mut Clients<'a, J>,
        round: &mut Round<J>,
        at: usize,
    ) -> Seat<J> {
        let micros = clients.time_of(at);
        if micros == 0 {
            clients.pass_over(at);
            return seat;
        }
        let start = round.now;
        let second = round.second;
        let span = Span { start, micros };
        let mut over = false;
        let mut seat = seat;
        if let Some(Some(client)) = clients.places.get_mut(at) {
            let before = self.begin_turn(client);
            let archive = &mut clients.archive;
            seat = client.turn(&self.worker, seat, &mut round.piece, second, span, archive);
            self.end_turn(client, before, &round.piece, second);
            over = client.is_over();
            let end = Instant::now(self.worker.rt).ok();
            clients.shares.note(client.share(), span.used_at(end));
            round.now = end.unwrap_or(start);
        }
        clients.end_turn(at);
        if over {
            self.close(clients, at, second, ended_by(clients.at(at)));
        }
        seat
    }

    /// Has the session at a place say what is due, without a reading.
    fn beat(&self, clients: &mut Clients<'a, J>, second: u64, at: usize) {
        let mut over = false;
        if let Some(Some(client)) = clients.places.get_mut(at) {
            let before = self.begin_turn(client);
            client.beat(&self.worker, second);
            self.end_turn(client, before, &[], second);
            over = client.is_over();
        }
        clients.list(at);
        if over {
            self.close(clients, at, second, ended_by(clients.at(at)));
        }
    }

    /// A turn with each that is ready.
    fn turns(&self, seat: Seat<J>, clients: &mut Clients<'a, J>, round: &mut Round<J>) -> Seat<J> {
        let mut seat = seat;
        let second = round.second;
        for _ in 0..clients.ready.len() {
            let Some(at) = clients.ready.pop() else {
                break;
            };
            self.know(&mut seat, clients, second, at);
            seat = self.turn(seat, clients, round, at);
        }
        seat
    }

    /// Closes the connection at a place, if its peer takes nothing any more.
    fn end_stalled(&self, clients: &mut Clients<'a, J>, second: u64, at: usize) {
        let stalled = match clients.places.get_mut(at) {
            Some(Some(client)) => client.is_stalled(second),
            _ => false,
        };
        if stalled {
            self.close(clients, at, second, Some("takes nothing"));
        }
    }

    /// Closes the stranger at a place, if it has been one for too long.
    fn end_late(&self, clients: &mut Clients<'a, J>, second: u64, at: usize) {
        let late = match clients.stranger_at(at) {
            Some(stranger) => stranger.is_late(self.worker.rt, self.worker.logon_wait),
            None => false,
        };
        if late {
            self.close_stranger(clients, at, second);
        }
    }

    /// Whether an operator has said that the server is to stop.
    fn stops(&self) -> bool {
        match self.worker.tallies.board() {
            Some(board) => board.instructions().stops(),
            None => false,
        }
    }

    /// Counts what an end has put behind what waited for a client.
    fn count_end(&self, client: &mut Client<'a, J>, before: usize) {
        client.count_held(self.worker.tallies);
        if let Some(board) = self.worker.tallies.board() {
            board.waits(before, client.waiting());
        }
    }

    /// Lists the connection at a place where it belongs, or closes it where all is sent.
    fn settle(&self, clients: &mut Clients<'a, J>, second: u64, at: usize) {
        let over = match clients.at(at) {
            Some(client) => client.is_over(),
            None => false,
        };
        if over {
            self.close(clients, at, second, ended_by(clients.at(at)));
        } else {
            clients.list(at);
        }
    }

    /// Ends the connections of which an operator has said so.
    fn heed(&self, seat: &mut Seat<J>, clients: &mut Clients<'a, J>, second: u64) {
        let Some(board) = self.worker.tallies.board() else {
            return;
        };
        if !board.instructions().are_some() {
            return;
        }
        for at in 0..clients.places.len() {
            if let Some(Some(client)) = clients.places.get_mut(at) {
                let before = client.waiting();
                client.heed(&self.worker, seat, second);
                self.count_end(client, before);
            }
            self.settle(clients, second, at);
        }
    }

    /// Where the server stops: ends all connections. What was asked is answered, and two seconds
    /// later what a peer doesn't take at once is given up.
    fn stop(&self, seat: &mut Seat<J>, clients: &mut Clients<'a, J>, round: &mut Round<J>) {
        if !self.stops() {
            return;
        }
        let second = round.second;
        let since = round.stops.unwrap_or(round.millis);
        round.stops = Some(since);
        clients.linger_no_longer(second, LAST_LINGER);
        let is_late = round.millis.saturating_sub(since) >= MOST_LAST;
        for at in 0..clients.places.len() {
            self.close_stranger(clients, at, second);
            if let Some(Some(client)) = clients.places.get_mut(at) {
                let before = client.waiting();
                client.stop(&self.worker, seat, second, is_late);
                self.count_end(client, before);
            }
            self.settle(clients, second, at);
        }
    }

    /// Each second: a turn with each connection that had none, the end of those whose peer takes
    /// nothing, of strangers that stay it, and of those of which an operator has said so, and a
    /// word on those that were closed for a limit.
    /// What sessions say by themselves is made before the turn's reading, and where a group is
    /// being written there is no reading, so that it waits for no group.
    fn tick(&self, seat: Seat<J>, clients: &mut Clients<'a, J>, round: &mut Round<J>) -> Seat<J> {
        self.worker.tallies.tell(self.worker.rt);
        let mut seat = seat;
        let second = round.second;
        clients.begin_second(second);
        clients.sync_archive();
        self.heed(&mut seat, clients, second);
        for at in 0..clients.places.len() {
            self.end_stalled(clients, second, at);
            self.end_late(clients, second, at);
            let quiet = match clients.at(at) {
                Some(client) => client.is_quiet(second),
                _ => false,
            };
            if quiet {
                self.beat(clients, second, at);
                if !self.bells.writes.load(Ordering::SeqCst) {
                    seat = self.turn(seat, clients, round, at);
                }
            }
        }
        seat
    }

    /// Whether it serves one connection at the most, so that nobody else waits for it.
    fn is_alone(&self) -> bool {
        self.bell.open.load(Ordering::SeqCst) <= 1
    }

    /// Whether memory lacks for what is to be recorded.
    fn lacks_memory(&self) -> bool {
        match self.worker.tallies.board() {
            Some(board) => board.lacks_memory(),
            None => false,
        }
    }

    /// Has what the newest bytes rest on recorded, and a further word asked for, if that is due: by
    /// this worker, if it serves nobody else and nobody else records now, or by the journal's
    /// thread. Those that wait meanwhile are woken.
    fn ask(&self, round: &mut Round<J>) -> Result<(), KeepError> {
        let are_due = self.bells.words.are_due(self.worker.rt)?;
        if round.newest.settle(self.worker.desk) && !are_due {
            self.bell.waits.store(false, Ordering::SeqCst);
            return Ok(());
        }
        // The mark goes up before the lock is tried: whoever has that looks at the marks after its
        // end.
        self.bell.waits.store(true, Ordering::SeqCst);
        if self.is_alone() {
            return record_alone(&self.worker, self.recorder, self.bells, self.bell);
        }
        if are_due || round.newest.seen() > round.asked_for {
            round.asked_for = round.newest.seen();
            let _ = self.bells.journal.wake();
        }
        Ok(())
    }

    /// Counts what was sent of so many bytes that waited.
    fn count_sent(&self, client: &mut Client<'a, J>, before: usize) {
        let after = client.waiting();
        client.visit.sends(before.saturating_sub(after));
        if before != after {
            client.count_held(self.worker.tallies);
        }
        if let Some(board) = self.worker.tallies.board() {
            board.waits(before, after);
        }
    }

    /// Sends what may go out to the connection at a place.
    fn send(&self, clients: &mut Clients<'a, J>, second: u64, at: usize) {
        let mut over = false;
        if let Some(Some(client)) = clients.places.get_mut(at) {
            let before = client.waiting();
            let archive = &mut clients.archive;
            over = client.send(&self.worker, second, archive).is_err();
            self.count_sent(client, before);
        }
        if over {
            self.close(clients, at, second, ended_by(clients.at(at)));
        } else {
            clients.list(at);
        }
    }

    /// Sends what may go out.
    fn send_all(&self, clients: &mut Clients<'a, J>, second: u64) {
        clients.begin_sending();
        for _ in 0..clients.to_send.len() {
            let Some(at) = clients.to_send.pop() else {
                return;
            };
            self.send(clients, second, at);
        }
    }

    /// Has what waits recorded, and sends what may go out, while the other machines' word counts.
    fn tell(&self, clients: &mut Clients<'a, J>, round: &mut Round<J>) -> Result<(), KeepError> {
        let words = &self.bells.words;
        if clients.sending.is_empty() && !words.are_due(self.worker.rt)? {
            self.bell.waits.store(false, Ordering::SeqCst);
            return Ok(());
        }
        self.ask(round)?;
        if words.count(self.worker.rt)? {
            self.send_all(clients, round.second);
        }
        Ok(())
    }

    /// Has connections have a turn for what is new, if the worker was told of some.
    fn hear(&self, clients: &mut Clients<'a, J>) {
        if self.bell.news.swap(false, Ordering::SeqCst) {
            clients.hear();
        }
    }

    /// Ends the connection that holds most of those of a firm for which too much waits, if it is
    /// this worker's. Where it may be another's, all are woken, each 16 milliseconds.
    fn relieve(&self, seat: &mut Seat<J>, clients: &mut Clients<'a, J>, round: &mut Round<J>) {
        let Some(firm) = self.worker.tallies.first_over() else {
            return;
        };
        let found = clients.heaviest(&firm);
        let held = match found {
            Some((_, held)) => held,
            None => 0,
        };
        let is_mine = self
            .worker
            .tallies
            .is_heaviest(&firm, self.worker.number, held);
        match found {
            Some((at, _)) if is_mine => self.cut(seat, clients, round.second, at),
            _ if round.millis / LATE_WAIT != round.rang => {
                round.rang = round.millis / LATE_WAIT;
                self.bells.ring_all();
            }
            _ => {}
        }
    }

    /// Ends the connection at a place, since too much waits for its firm.
    fn cut(&self, seat: &mut Seat<J>, clients: &mut Clients<'a, J>, second: u64, at: usize) {
        if let Some(Some(client)) = clients.places.get_mut(at) {
            if !client.is_cut() {
                let before = client.waiting();
                client.cut(&self.worker, seat, second);
                self.count_end(client, before);
            }
        }
        clients.list(at);
    }

    /// Waits until a connection is ready, the worker is woken or a second is over.
    fn wait(
        &self,
        poll: &mut Poll,
        events: &mut Events,
        clients: &mut Clients<'a, J>,
        round: &mut Round<J>,
        start: Instant,
    ) -> Result<(), KeepError> {
        let most = if clients.is_hurried() {
            0
        } else if clients.some_rest() {
            1
        } else if clients.has_late() || self.lacks_memory() || self.stops() {
            LATE_WAIT
        } else {
            1000 - round.millis % 1000
        };
        if poll
            .poll(events, Some(Duration::from_millis(most)))
            .is_err()
        {
            return Err(KeepError::Poll);
        }
        let Ok(now) = Instant::now(self.worker.rt) else {
            return Err(KeepError::Clock);
        };
        round.now = now;
        let passed = now.duration_since(start);
        let millis = passed.as_secs().saturating_mul(1000);
        round.millis = millis.saturating_add(u64::from(passed.subsec_millis()));
        note(events, clients, round);
        clients.begin_round(round.millis);
        self.hear(clients);
        hurry(clients, round);
        Ok(())
    }

    /// Serves connections until no more come and all have ended, or the server is to end.
    fn serve(
        &self,
        poll: &mut Poll,
        events: &mut Events,
        seat: &mut Option<Seat<J>>,
        clients: &mut Clients<'a, J>,
        round: &mut Round<J>,
    ) -> Result<(), KeepError> {
        let mut coming = true;
        let Some(start) = self.worker.tallies.start() else {
            return Err(KeepError::Clock);
        };
        for _ in self.worker.rt.forever() {
            self.wait(poll, events, clients, round, start)?;
            if self.bells.ends() {
                return Ok(());
            }
            if let Some(board) = self.worker.tallies.board() {
                board.turns(self.worker.number);
            }
            let Some(mut mine) = seat.take() else {
                return Ok(());
            };
            clients.shares.begin_round();
            mine = self.turns(mine, clients, round);
            let ticks = round.millis / 1000 != round.second;
            if ticks {
                round.second = round.millis / 1000;
                mine = self.tick(mine, clients, round);
            }
            self.make_way(clients, round.second);
            if round.woken && coming {
                coming = self.take_all(poll, clients, round.second);
            }
            self.relieve(&mut mine, clients, round);
            self.stop(&mut mine, clients, round);
            round.newest = self.worker.desk.ticket(&mut mine);
            *seat = Some(mine);
            clients.archived()?;
            self.tell(clients, round)?;
            clients.archived()?;
            self.hear(clients);
            if !coming && clients.is_empty() {
                return Ok(());
            }
        }
        unreachable!()
    }

    /// Serves connections until no more come and all have ended, or the server is to end, and gives
    /// the seat back.
    pub(crate) fn keep(
        self,
        poll: Poll,
        seat: Seat<J>,
    ) -> (Option<Seat<J>>, Result<(), KeepError>) {
        let alloc = self.worker.alloc;
        let mut poll = poll;
        let mut seat = seat;
        let newest = self.worker.desk.ticket(&mut seat);
        let Ok(piece) = Vec::from_elem(alloc, 0u8, LONGEST_READ) else {
            return (Some(seat), Err(KeepError::Memory));
        };
        let Ok(mut events) = Events::with_capacity(alloc, MOST_EVENTS) else {
            return (Some(seat), Err(KeepError::Memory));
        };
        let Some(now) = self.worker.tallies.start() else {
            return (Some(seat), Err(KeepError::Clock));
        };
        let mut round = Round::new(piece, now, newest);
        let house = self.worker.house;
        let mut clients = Clients::new(alloc, house, &self.bells.news, self.bell.at);
        let mut seat = Some(seat);
        let served = match self
            .bells
            .open_archive(self.worker.rt, alloc, self.bell.at as usize)
        {
            Ok(archive) => {
                clients.archive = archive;
                self.serve(&mut poll, &mut events, &mut seat, &mut clients, &mut round)
            }
            Err(error) => Err(error),
        };
        clients.sync_archive();
        if served.is_err() {
            self.bells.end();
        }
        self.let_all_go(&clients);
        if let Some(board) = self.worker.tallies.board() {
            board.ends(self.worker.number);
        }
        (seat, served)
    }
}
