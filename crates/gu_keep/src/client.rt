//! A connection that a worker serves beside others.

ghost use Rattle.std.specs.Prelude.{◌≡◌, ◌⊎◌, ◌+◌, ◌<◌, [], false, IfOk, IsTrue};
ghost use Rattle.gu_connection.specs.Lasting.{most_untaken};
ghost use Rattle.gu_desk.specs.Begins.{BeginsWith};
ghost use Rattle.gu_keep.specs.Sending.{Adds, Beats, IsBeat, IsStill, Turns};
ghost use Rattle.gu_recorder.specs.Waiting.{Holds, Sends};

use crate::archiving::{Archiving, Heard};
use crate::lingering::MOST_READS;
use crate::shares::place_of;
use crate::stranger::Stranger;
use crate::visit::Visit;
use gu_archive::{Archive, Tap};
use gu_base::FirmId;
use gu_board::Tallies;
use gu_connection::{
    Closed, Connection, Left, Span, Worker, expire, linger_wait, read_away, takes_nothing,
};
use gu_desk::{Gate, Job, Seat};
use gu_limits::{Ending, is_silent};
use gu_recorder::{Outbox, Rest, Wire};
use gu_session::Gap;
use std::mem::replace;
use std::sync::Wait;
use std::time::{Clock, Instant};

/// How many bytes may wait for a firm to read them: a connection for which more wait has no turn.
const MOST_UNREAD: usize = 1 << 20;

/// After how many milliseconds without a turn it has one for what is new.
const REST: u64 = 2;

/// What others have of a connection, once a firm has logged on.
#[derive(Clone, Copy)]
pub(crate) struct Beside {
    /// Where the watch has it in its hands.
    pub(crate) shutter: Option<usize>,
    /// How often an operator had put the firm's connections out.
    put_out: Option<u64>,
}

impl Beside {
    /// Nothing yet.
    const NOTHING: Beside = Beside {
        shutter: None,
        put_out: None,
    };
}

/// A connection, what it is to be sent, and how it stands.
#[derive(Drop)]
pub(crate) struct Client<'a, J: Job> {
    /// Its stream, but while a turn has it.
    pub(crate) wire: Option<Wire>,
    connection: Connection<'a>,
    outbox: Outbox<J>,
    taken: Instant,
    left: Left,
    /// Whether it is closed once all is sent, and whether also where the peer doesn't take that.
    ended: bool,
    cut: bool,
    /// How many bytes are counted that wait for its firm here, or are kept to be sent again.
    held: u64,
    /// Whether the peer took nothing when it was last written to, and whether it ever did so.
    full: bool,
    slow: bool,
    /// Whether the peer sends no more: what it has sent is read to its end.
    shut: bool,
    /// The second in which it last had a turn, and that in which the peer last took something.
    turned: u64,
    took: u64,
    /// The millisecond of its last turn.
    rested_from: u64,
    /// The place of its firm, once one has logged on, and the entry up to which it is to look at
    /// the least.
    pub(crate) place: Option<usize>,
    wanted: u32,
    /// Whether a write was tried since the worker last paused.
    tried: bool,
    /// The second in which the peer last sent something, and whether it has since.
    heard: u64,
    speaks: bool,
    /// The firm for whose connection it counts.
    counted: Option<FirmId>,
    /// The place of its firm in the house file, once it has logged on.
    share: Option<usize>,
    /// Whether it has given its place among its firm's connections back, since its peer is gone.
    gave_back: bool,
    /// Whether it stands among those on which calls wait.
    waits: bool,
    /// Whether no firm has logged on.
    unnamed: bool,
    /// Whether it stands among those that have something to be sent, and among those that have a
    /// turn without being asked.
    sends: bool,
    pub(crate) hurries: bool,
    /// Whether it stands among those that have a turn once they have rested.
    pub(crate) rests: bool,
    pub(crate) beside: Beside,
    /// What an operator is told of it.
    pub(crate) visit: Visit,
}

/// The connection of a stranger before its first turn.
pub(crate) fn open_client<'a, J: Job, R, G>(
    worker: &Worker<'a, J, R, G>,
    seat: &mut Seat<J>,
    stranger: Stranger,
    second: u64,
) -> Result<Client<'a, J>, Closed>
    ensures { IfOk result
        (λ c. c.outbox ≡ record { sent = []; waits = []; rests = seat.old.seen }) }
{
    let may_wait = worker.tallies.has_rate();
    let connection = Connection::new(worker.alloc, worker.house, worker.book, may_wait)?;
    let Stranger {
        wire,
        taken,
        speaks,
        shut,
        visit,
    } = stranger;
    Ok(Client {
        wire: Some(wire),
        connection,
        outbox: Outbox::new(worker.alloc, worker.desk, seat),
        taken,
        left: Left::Unread,
        ended: false,
        cut: false,
        held: 0,
        full: false,
        slow: false,
        shut,
        turned: second,
        took: second,
        rested_from: 0,
        place: None,
        wanted: 0,
        tried: false,
        heard: second,
        speaks,
        counted: None,
        share: None,
        gave_back: false,
        waits: false,
        unnamed: true,
        sends: false,
        hurries: false,
        rests: false,
        beside: Beside::NOTHING,
        visit,
    })
}

impl<'a, J: Job> Client<'a, J> {
    /// Notes what the poll says of its stream.
    pub(crate) fn note(&mut self, readable: bool, shut: bool, writable: bool)
        ensures { self.new.outbox ≡ self.old.outbox }
    {
        self.speaks = self.speaks || readable;
        self.shut = self.shut || shut;
        if (readable || shut) && self.left == Left::Nothing {
            self.left = Left::Unread;
        }
        if writable {
            self.full = false;
        }
    }

    /// The firm that has logged on.
    pub(crate) fn firm(&self) -> Option<FirmId> {
        self.connection.firm()
    }

    /// The firm that has logged on, and above which entry its reports begin. None where there is no
    /// such beginning.
    pub(crate) fn begun(&self) -> Option<(FirmId, u32)> {
        let firm = self.connection.firm()?;
        let above = self.connection.begun()?;
        Some((firm, above))
    }

    /// The gap that is open in what its firm sends, if one is and it goes on.
    pub(crate) fn gap(&self) -> Option<Gap> {
        if self.ended {
            return None;
        }
        self.connection.gap()
    }

    /// How many bytes wait to be sent.
    pub(crate) fn waiting(&self) -> usize {
        self.outbox.len()
    }

    /// Whether it may have a turn now.
    fn may_turn(&self) -> bool {
        !self.ended && self.outbox.len() <= MOST_UNREAD
    }

    /// Whether it is to have a turn without being asked.
    pub(crate) fn is_due(&self) -> bool {
        let unread = self.left == Left::Unread || self.left == Left::Untaken;
        let unread = unread || self.left == Left::Spent;
        self.may_turn() && (unread || self.connection.behind())
    }

    /// Notes that it has had a turn in this millisecond.
    pub(crate) fn note_turn(&mut self, millis: u64)
        ensures { self.new.outbox ≡ self.old.outbox }
    {
        self.rested_from = millis;
    }

    /// Notes that an entry of this number is kept and concerns its firm.
    pub(crate) fn want(&mut self, number: u32)
        ensures { self.new.outbox ≡ self.old.outbox }
    {
        self.wanted = self.wanted.max(number);
    }

    /// Whether it is to have a turn for what is new.
    pub(crate) fn lacks(&self) -> bool {
        self.may_turn() && self.connection.looked() < self.wanted
    }

    /// Whether it has had no turn for a while.
    pub(crate) fn has_rested(&self, millis: u64) -> bool {
        millis >= self.rested_from.saturating_add(REST)
    }

    /// The place of its firm in the house file.
    pub(crate) fn share(&self) -> Option<usize> {
        self.share
    }

    /// Notes that it waits for the next round, as its firm has had its time: whether that is news.
    pub(crate) fn is_passed_over(&mut self) -> bool
        ensures { self.new.outbox ≡ self.old.outbox }
    {
        let is_news = !self.hurries;
        self.hurries = true;
        is_news
    }

    /// Whether no firm has logged on.
    pub(crate) fn is_unnamed(&self) -> bool {
        self.unnamed
    }

    /// Whether a firm has logged on since this was asked last.
    pub(crate) fn has_logged_on(&mut self) -> bool
        ensures { self.new.outbox ≡ self.old.outbox }
    {
        let has = self.unnamed && self.connection.firm().is_some();
        self.unnamed = self.unnamed && !has;
        has
    }

    /// How many bytes are counted that wait for its firm here, or are kept to be sent again.
    pub(crate) fn held(&self) -> u64 {
        self.held
    }

    /// Whether it has ended since too much waits for its firm.
    pub(crate) fn is_cut(&self) -> bool {
        self.cut
    }

    /// Counts so many bytes that wait for its firm here, or are kept to be sent again.
    fn note_held(&mut self, tallies: &Tallies, bytes: usize)
        ensures { self.new.outbox ≡ self.old.outbox }
    {
        if let Some(firm) = self.connection.firm() {
            tallies.hold(&firm, self.held, bytes as u64);
            self.held = bytes as u64;
        }
    }

    /// Counts what waits for its firm here, or is kept to be sent again.
    pub(crate) fn count_held(&mut self, tallies: &Tallies)
        ensures { self.new.outbox ≡ self.old.outbox }
    {
        let bytes = self
            .outbox
            .len()
            .saturating_add(self.connection.kept_bytes());
        self.note_held(tallies, bytes);
    }

    /// Ends its count as a connection of its firm, and what is held for that.
    pub(crate) fn leave(&mut self, tallies: &Tallies)
        ensures { self.new.outbox ≡ self.old.outbox }
    {
        self.let_go(tallies);
        self.note_held(tallies, 0);
        if let Some(firm) = self.counted {
            tallies.leave(&firm);
            self.counted = None;
        }
    }

    /// Ends its count as a connection of its firm, where the peer sends no more, whatever it has
    /// left unread.
    fn give_back(&mut self, tallies: &Tallies)
        ensures outbox { self.new.outbox ≡ self.old.outbox }
        ensures connection { self.new.connection ≡ self.old.connection }
    {
        if !self.shut {
            return;
        }
        if let Some(firm) = self.counted {
            tallies.leave(&firm);
            self.counted = None;
            self.gave_back = true;
        }
    }

    /// Whether it is to be listed among those on which calls wait. Where it is, it notes so.
    pub(crate) fn waits_anew(&mut self) -> bool
        ensures { self.new.outbox ≡ self.old.outbox }
    {
        let waits = !self.waits && !self.ended && self.left == Left::Late;
        self.waits = self.waits || waits;
        waits
    }

    /// Notes that it stands among those no more.
    pub(crate) fn waits_no_more(&mut self)
        ensures { self.new.outbox ≡ self.old.outbox }
    {
        self.waits = false;
    }

    /// Whether it is to be listed among those that have something to be sent, and among those that
    /// have a turn without being asked. Where it is, it notes so.
    pub(crate) fn lists(&mut self) -> (bool, bool)
        ensures { self.new.outbox ≡ self.old.outbox }
    {
        let sends = !self.sends && !self.outbox.is_empty();
        let hurries = !self.hurries && self.is_due();
        self.sends = self.sends || sends;
        self.hurries = self.hurries || hurries;
        (sends, hurries)
    }

    /// Whether it is to be closed: it has ended and all is sent.
    pub(crate) fn is_over(&self) -> bool
        ensures { IsTrue result → self.now.outbox.waits ≡ [] }
    {
        self.ended && self.outbox.is_empty()
    }

    /// Whether its stream is to linger once it is closed: all is sent to a firm that had logged on.
    pub(crate) fn lingers(&self) -> bool
        ensures { IsTrue result → self.now.outbox.waits ≡ [] }
    {
        self.is_over() && self.connection.firm().is_some()
    }

    /// For how many seconds it lingers: longer for a peer that takes slowly.
    pub(crate) fn linger_wait(&self) -> u64 {
        linger_wait(self.slow)
    }

    /// How many messages it wasn't sent, or not to their end.
    pub(crate) fn messages_left(&self) -> u64 {
        self.outbox.messages()
    }

    /// Its stream alone.
    pub(crate) fn into_wire(self) -> Option<Wire> {
        let Client { wire, .. } = self;
        wire
    }

    /// Puts what the turn has made into the outbox, made of what the seat has seen. Where memory
    /// runs out for it, the connection has ended.
    fn hold<R, G>(&mut self, worker: &Worker<'a, J, R, G>, seat: &mut Seat<J>)
        ensures same { seat.new ≡ seat.old }
        ensures holds { Holds self.old.outbox self.new.outbox self.old.connection.out.items
            seat.old.seen
            ⊎ ((self.new.outbox ≡ self.old.outbox) × IsTrue self.new.ended) }
    {
        if self
            .outbox
            .hold(worker.desk, seat, &mut self.connection)
            .is_err()
        {
            self.ended = true;
        }
    }

    /// Puts what the turn has made, if it has made anything, into the outbox, made of what the seat
    /// has seen.
    fn hold_told<R, G>(&mut self, worker: &Worker<'a, J, R, G>, seat: &mut Seat<J>, second: u64)
        ensures same { seat.new ≡ seat.old }
        ensures adds { Adds self.old.outbox self.new.outbox seat.old.seen }
    {
        if self.connection.waiting() == 0 {
            return;
        }
        if self.outbox.is_empty() {
            self.took = second;
        }
        self.hold(worker, seat);
    }

    /// Puts what was made that tells nothing of the book, if anything was, into the outbox: it
    /// waits for nothing newer than the rest. Where memory runs out for it, the connection has
    /// ended.
    fn hold_still(&mut self, second: u64)
        ensures { Holds self.old.outbox self.new.outbox self.old.connection.out.items
            self.old.outbox.rests ⊎ (self.new.outbox ≡ self.old.outbox) }
    {
        if self.connection.waiting() == 0 {
            return;
        }
        if self.outbox.is_empty() {
            self.took = second;
        }
        if self.outbox.hold_still(&mut self.connection).is_err() {
            self.ended = true;
        }
    }

    /// Whether nothing is made that isn't in the outbox yet.
    fn is_clear(&self) -> bool
        ensures { IsTrue result → self.now.connection.out.items ≡ [] }
    {
        self.connection.made().is_empty()
    }

    /// One Tick of its session. Where that closes it, the connection has ended.
    fn tick<R: Wait + Clock, G: Gate>(&mut self, worker: &Worker<'a, J, R, G>)
        ensures beat { IsBeat worker.now.house.now.house J.opening self.old.connection
            self.new.connection }
        ensures same { self.new.outbox ≡ self.old.outbox }
    {
        match worker.beat(&mut self.connection, true) {
            Ok(()) => {}
            Err(_) => self.ended = true,
        }
    }

    /// Has the session say what is due, without a reading, if nothing has come that is to be read.
    pub(crate) fn beat<R: Wait + Clock, G: Gate>(
        &mut self,
        worker: &Worker<'a, J, R, G>,
        second: u64,
    )
        ensures { Beats worker.now.house.now.house J.opening self.old.connection self.old.outbox
            self.new.outbox }
    {
        if !self.may_turn() || self.left != Left::Nothing || !self.is_clear() {
            return;
        }
        self.tick(worker);
        self.note_end(worker.tallies);
        self.hold_still(second);
    }

    /// Notes why it has ended, if it has: what the last message says that the turn sends. No calls
    /// wait on it then.
    fn note_end(&mut self, tallies: &Tallies)
        ensures outbox { self.new.outbox ≡ self.old.outbox }
        ensures connection { self.new.connection ≡ self.old.connection }
        ensures ended { self.new.ended ≡ self.old.ended }
    {
        if self.ended {
            self.visit.note_end(self.connection.made());
            self.let_go(tallies);
        }
    }

    /// Notes that no calls wait on it.
    fn let_go(&self, tallies: &Tallies) {
        if let Some(firm) = self.connection.firm() {
            tallies.note_waiting(&firm, self.connection.pace(), false);
        }
    }

    /// Notes that it has a turn in this second.
    fn begin_turn(&mut self, second: u64)
        ensures outbox { self.new.outbox ≡ self.old.outbox }
        ensures connection { self.new.connection ≡ self.old.connection }
    {
        self.turned = second;
        if self.speaks {
            self.heard = second;
            self.speaks = false;
        }
    }

    /// Counts it as a connection of its firm, once one has logged on: whether the firm may have it.
    fn enters<R, G>(&mut self, worker: &Worker<'a, J, R, G>, firm: &FirmId) -> bool
        ensures outbox { self.new.outbox ≡ self.old.outbox }
        ensures connection { self.new.connection ≡ self.old.connection }
    {
        if self.counted.is_some() || self.gave_back {
            return true;
        }
        self.share = place_of(worker.house, firm);
        if worker.tallies.enter(firm) {
            self.counted = Some(*firm);
            return true;
        }
        false
    }

    /// Why it ends by what an operator has said, if it does.
    fn said<R, G>(&mut self, worker: &Worker<'a, J, R, G>) -> Option<Ending>
        ensures outbox { self.new.outbox ≡ self.old.outbox }
        ensures connection { self.new.connection ≡ self.old.connection }
    {
        let Some(firm) = self.connection.firm() else {
            return None;
        };
        let said = worker.tallies.said_of(&firm);
        let before = self.beside.put_out.unwrap_or(said.put_out);
        self.beside.put_out = Some(before);
        said.ending(before)
    }

    /// Ends it for this, if it hasn't ended, and it is told so.
    #[tactic(auto, using(gu_connection::proofs::Seen::itself, gu_connection::proofs::Seen::still))]
    fn dismiss<R: Clock, G>(
        &mut self,
        worker: &Worker<'a, J, R, G>,
        seat: &mut Seat<J>,
        second: u64,
        ending: Ending,
    )
        ensures same { seat.new ≡ seat.old }
        ensures adds { Adds self.old.outbox self.new.outbox seat.old.seen }
    {
        if self.ended {
            return;
        }
        let _ = self
            .connection
            .log_out(worker.rt, worker.alloc, worker.house, ending.text());
        self.ended = true;
        self.note_end(worker.tallies);
        self.hold_told(worker, seat, second);
    }

    /// Ends it, if an operator has said so of its firm, and it is told so.
    pub(crate) fn heed<R: Clock, G>(
        &mut self,
        worker: &Worker<'a, J, R, G>,
        seat: &mut Seat<J>,
        second: u64,
    )
        ensures same { seat.new ≡ seat.old }
        ensures adds { Adds self.old.outbox self.new.outbox seat.old.seen }
    {
        if let Some(ending) = self.said(worker) {
            self.dismiss(worker, seat, second, ending);
        }
    }

    /// Ends it, since the server stops, and it is told so. From then on it is closed where the peer
    /// doesn't take what is left at once, if that is late.
    pub(crate) fn stop<R: Clock, G>(
        &mut self,
        worker: &Worker<'a, J, R, G>,
        seat: &mut Seat<J>,
        second: u64,
        is_late: bool,
    )
        ensures same { seat.new ≡ seat.old }
        ensures adds { Adds self.old.outbox self.new.outbox seat.old.seen }
    {
        self.cut = self.cut || is_late;
        self.dismiss(worker, seat, second, Ending::Stops);
    }

    /// Whether it is to be closed behind a turn: it has no Logon in time, or an operator has said
    /// so, or its firm has too many connections or has said nothing for too long, and is told so.
    fn ends<R: Clock, G>(&mut self, worker: &Worker<'a, J, R, G>, second: u64) -> bool
        ensures outbox { self.new.outbox ≡ self.old.outbox }
        ensures open { result ≡ false → self.new.connection ≡ self.old.connection }
    {
        let late = expire(
            worker.rt,
            &mut self.connection,
            self.taken,
            worker.logon_wait,
        );
        if late.is_err() {
            return true;
        }
        let Some(firm) = self.connection.firm() else {
            return false;
        };
        let ending = if let Some(ending) = self.said(worker) {
            ending
        } else if !self.enters(worker, &firm) {
            Ending::Connections
        } else if is_silent(self.heard, second) {
            Ending::Silence
        } else {
            return false;
        };
        worker.tallies.note(&firm, ending);
        let _ = self
            .connection
            .log_out(worker.rt, worker.alloc, worker.house, ending.text());
        true
    }

    /// Ends it, since too much waits for its firm, and it is told so.
    pub(crate) fn cut<R: Clock, G>(
        &mut self,
        worker: &Worker<'a, J, R, G>,
        seat: &mut Seat<J>,
        second: u64,
    )
        ensures same { seat.new ≡ seat.old }
        ensures adds { Adds self.old.outbox self.new.outbox seat.old.seen }
    {
        self.cut = true;
        if self.ended {
            return;
        }
        if let Some(firm) = self.connection.firm() {
            worker.tallies.note(&firm, Ending::Held);
        }
        self.dismiss(worker, seat, second, Ending::Held);
    }

    /// What a turn leaves that knows of this: where the peer sends no more, also the end of what
    /// it has sent.
    fn left_by(&self, left: Left) -> Left {
        if self.shut && left == Left::Nothing {
            Left::Unread
        } else {
            left
        }
    }

    /// Throws away what has come, where it has ended.
    fn drain<R: Wait + Clock, G>(
        &mut self,
        worker: &Worker<'a, J, R, G>,
        archive: &mut Option<Archive>,
    )
        ensures { self.new.outbox ≡ self.old.outbox }
    {
        if !self.ended {
            return;
        }
        if let Some(mut heard) = self.lend(worker, archive) {
            let _ = read_away(&mut heard, MOST_READS);
            self.take_back(heard, archive);
        }
    }

    /// Lends the archive to whoever sends, with what that keeps of the connection.
    fn archiving<R, G>(
        &mut self,
        worker: &Worker<'a, J, R, G>,
        archive: &mut Option<Archive>,
    ) -> Archiving<'a, R>
        ensures outbox { self.new.outbox ≡ self.old.outbox }
        ensures connection { self.new.connection ≡ self.old.connection }
        ensures ended { self.new.ended ≡ self.old.ended }
    {
        Archiving {
            rt: worker.rt,
            archive: archive.take(),
            tap: replace(&mut self.visit.tap, Tap::new(worker.alloc, 0)),
        }
    }

    /// Lends the stream to whoever reads it, and the archive. None where another has it.
    fn lend<R, G>(
        &mut self,
        worker: &Worker<'a, J, R, G>,
        archive: &mut Option<Archive>,
    ) -> Option<Heard<'a, R>>
        ensures outbox { self.new.outbox ≡ self.old.outbox }
        ensures connection { self.new.connection ≡ self.old.connection }
        ensures ended { self.new.ended ≡ self.old.ended }
    {
        let wire = self.wire.take()?;
        let Archiving { rt, archive, tap } = self.archiving(worker, archive);
        Some(Heard {
            rt,
            alloc: worker.alloc,
            archive,
            tap,
            wire,
        })
    }

    /// Takes back what was lent.
    fn take_back<R>(&mut self, heard: Heard<'_, R>, archive: &mut Option<Archive>)
        ensures outbox { self.new.outbox ≡ self.old.outbox }
        ensures connection { self.new.connection ≡ self.old.connection }
        ensures ended { self.new.ended ≡ self.old.ended }
    {
        let Heard {
            archive: lent,
            tap,
            wire,
            ..
        } = heard;
        self.wire = Some(wire);
        *archive = lent;
        self.visit.tap = tap;
    }

    /// Takes back the archive, and what that keeps of the connection.
    fn end_archiving<R>(&mut self, to: Archiving<'_, R>, archive: &mut Option<Archive>)
        ensures outbox { self.new.outbox ≡ self.old.outbox }
        ensures connection { self.new.connection ≡ self.old.connection }
        ensures ended { self.new.ended ≡ self.old.ended }
    {
        let Archiving {
            archive: lent,
            tap,
            ..
        } = to;
        *archive = lent;
        self.visit.tap = tap;
    }

    /// Puts the connection's end into the archive, where there is one, and why it ends, which it
    /// knows itself where no reason is given.
    pub(crate) fn close_archived<R: Wait + Clock, G>(
        &mut self,
        worker: &Worker<'a, J, R, G>,
        archive: &mut Option<Archive>,
        why: Option<&'static str>,
    )
        ensures { self.new.outbox ≡ self.old.outbox }
    {
        if let Some(archive) = archive {
            let Worker {
                rt,
                alloc,
                house,
                ..
            } = worker;
            self.visit.closes(*rt, *alloc, archive, house, why);
        }
    }

    /// What the worker does in a turn with this span. What it makes stands in the connection then.
    fn work<R: Wait + Clock, G: Gate>(
        &mut self,
        worker: &Worker<'a, J, R, G>,
        seat: Seat<J>,
        piece: &mut [u8],
        second: u64,
        span: Span,
        archive: &mut Option<Archive>,
    ) -> Seat<J>
        ensures later { BeginsWith result.seen seat.seen }
        ensures same { self.new.outbox ≡ self.old.outbox }
        ensures still { self.new.ended ≡ false → self.new.connection.tells ≡ false
            → IsStill J.opening self.old.connection self.new.connection }
    {
        self.begin_turn(second);
        let Some(mut heard) = self.lend(worker, archive) else {
            self.ended = true;
            return seat;
        };
        let (seat, turned) = worker.turn(
            seat,
            &mut self.connection,
            &mut heard,
            piece,
            self.left,
            Some(span),
        );
        self.take_back(heard, archive);
        match turned {
            Ok(left) => {
                self.left = self.left_by(left);
                self.ended = self.ends(worker, second);
            }
            Err(_) => self.ended = true,
        }
        self.note_end(worker.tallies);
        seat
    }

    /// A turn with this span, if it may have one. Where it has ended, what has come is thrown away.
    #[tactic(auto, using(gu_connection::proofs::Seen::itself, gu_connection::proofs::Seen::still))]
    pub(crate) fn turn<R: Wait + Clock, G: Gate>(
        &mut self,
        worker: &Worker<'a, J, R, G>,
        seat: Seat<J>,
        piece: &mut [u8],
        second: u64,
        span: Span,
        archive: &mut Option<Archive>,
    ) -> Seat<J>
        ensures later { BeginsWith result.seen seat.seen }
        ensures turns { Turns J.opening self.old.connection self.old.outbox self.new.outbox
            result.seen }
    {
        self.give_back(worker.tallies);
        if !self.may_turn() {
            self.drain(worker, archive);
            return seat;
        }
        let is_clear = self.is_clear();
        self.connection.begin_turn();
        let mut seat = self.work(worker, seat, piece, second, span, archive);
        if is_clear && !self.ended && !self.connection.tells() {
            self.hold_still(second);
        } else {
            self.hold_told(worker, &mut seat, second);
        }
        seat
    }

    /// Sends what may go out, once it is in the archive. What is left, or `Err` where it is to be
    /// closed.
    pub(crate) fn send<R: Wait + Clock, G>(
        &mut self,
        worker: &Worker<'a, J, R, G>,
        second: u64,
        archive: &mut Option<Archive>,
    ) -> Result<Rest, Closed>
        ensures { Sends self.old.outbox self.new.outbox }
    {
        self.sends = false;
        if self.full && self.cut {
            return Err(Closed);
        }
        if self.full {
            return Ok(Rest::Untaken);
        }
        self.tried = true;
        let before = self.outbox.len();
        let mut to = self.archiving(worker, archive);
        let sent = match &self.wire {
            Some(wire) => self.outbox.send(worker.desk, wire, &mut to),
            None => Err(Closed),
        };
        self.end_archiving(to, archive);
        let rest = sent?;
        if self.outbox.len() < before || rest == Rest::Unkept {
            self.took = second;
        }
        self.full = rest == Rest::Untaken;
        self.slow = self.slow || self.full;
        if self.is_over() || (self.full && self.cut) {
            return Err(Closed);
        }
        Ok(rest)
    }

    /// Whether a turn is due because none was for a second.
    pub(crate) fn is_quiet(&self, second: u64) -> bool {
        self.turned < second
    }

    /// Notes that the worker has paused: what the peer took meanwhile isn't known until a write was
    /// tried.
    pub(crate) fn note_pause(&mut self)
        ensures { self.new.outbox ≡ self.old.outbox }
    {
        self.tried = false;
    }

    /// Whether the peer has taken nothing for so long that the connection is to be closed.
    pub(crate) fn is_stalled(&mut self, second: u64) -> bool
        ensures outbox { self.new.outbox ≡ self.old.outbox }
        ensures stalled { IsTrue result → self.old.took + most_untaken < second }
    {
        if self.outbox.is_empty() {
            return false;
        }
        self.full = false;
        takes_nothing(self.tried, self.took, second)
    }
}
