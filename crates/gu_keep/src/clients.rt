//! The connections of a worker, in places that the poll names.

use crate::client::Client;
use crate::lingering::{Lingering, MOST_LINGERING};
use crate::news::NewsBoard;
use crate::shares::Shares;
use crate::stranger::Stranger;
use gu_archive::Archive;
use gu_base::FirmId;
use gu_command::KeepError;
use gu_connection::Closed;
use gu_desk::Job;
use gu_parties::House;
use gu_recorder::Wire;
use std::alloc::Global;
use std::collections::VecDeque;
use std::mem::{replace, swap};

/// For how many seconds no second begins at the most, unless the worker has paused.
const MOST_ROUND: u64 = 2;

/// The connections of a worker.
#[derive(Drop)]
pub(crate) struct Clients<'a, J: Job> {
    pub(crate) places: Vec<Option<Client<'a, J>>>,
    /// Those of the places where nothing has come yet.
    strangers: Vec<Option<Stranger>>,
    free: Vec<usize>,
    open: usize,
    /// The places of those that are ready in this round.
    pub(crate) ready: Vec<usize>,
    /// The places of those without a Logon, in the order in which they came.
    unnamed: VecDeque<usize>,
    /// The places of those that have something to be sent.
    pub(crate) sending: Vec<usize>,
    /// The places of those that are sent something now.
    pub(crate) to_send: Vec<usize>,
    /// The places of those that have a turn without being asked.
    pub(crate) hurried: Vec<usize>,
    /// The places of those that have a turn once they have rested.
    resting: VecDeque<usize>,
    /// The places of those that had no turn in this round, since their firm had had its time. They
    /// come first in the next one.
    passed_over: Vec<usize>,
    /// The places of those on which calls wait.
    late: Vec<usize>,
    /// What each firm has had in this round.
    pub(crate) shares: Shares,
    /// The worker's end of the archive, where there is one.
    pub(crate) archive: Option<Archive>,
    /// The streams of those that have ended, in the order in which they did.
    lingering: VecDeque<Lingering>,
    /// For how many seconds one lingers at the most, where the server stops.
    most_lingering: Option<u64>,
    /// The second that began last.
    second: u64,
    /// The millisecond of the round.
    millis: u64,
    /// What is new of each firm, the worker that these are of, and how many of them each firm has,
    /// by its place.
    news: &'a NewsBoard,
    worker: u32,
    of_firms: Vec<u32>,
}

impl<'a, J: Job> Clients<'a, J> {
    /// No connections yet.
    pub(crate) fn new(
        alloc: Global,
        house: &House,
        news: &'a NewsBoard,
        worker: u32,
    ) -> Clients<'a, J> {
        Clients {
            places: Vec::new(alloc),
            strangers: Vec::new(alloc),
            free: Vec::new(alloc),
            open: 0,
            ready: Vec::new(alloc),
            unnamed: VecDeque::new(alloc),
            sending: Vec::new(alloc),
            to_send: Vec::new(alloc),
            hurried: Vec::new(alloc),
            resting: VecDeque::new(alloc),
            passed_over: Vec::new(alloc),
            late: Vec::new(alloc),
            shares: Shares::new(alloc, house),
            archive: None,
            lingering: VecDeque::new(alloc),
            most_lingering: None,
            second: 0,
            millis: 0,
            news,
            worker,
            of_firms: Vec::new(alloc),
        }
    }

    /// The error of the archive, once one has come: nothing goes on then.
    pub(crate) fn archived(&self) -> Result<(), KeepError> {
        match &self.archive {
            Some(archive) => match archive.failed() {
                Some(error) => Err(KeepError::Archive(error)),
                None => Ok(()),
            },
            None => Ok(()),
        }
    }

    /// Brings what was archived to the disk.
    pub(crate) fn sync_archive(&mut self) {
        if let Some(archive) = &mut self.archive {
            let _ = archive.sync();
        }
    }

    /// Whether there are none, and none lingers.
    pub(crate) fn is_empty(&self) -> bool {
        self.open == 0 && self.lingering.is_empty()
    }

    /// The connection at a place.
    pub(crate) fn at(&self, at: usize) -> Option<&Client<'a, J>> {
        match self.places.get(at) {
            Some(Some(client)) => Some(client),
            _ => None,
        }
    }

    /// The place of the connection of a firm that holds most, and how many bytes it holds.
    pub(crate) fn heaviest(&self, firm: &FirmId) -> Option<(usize, u64)> {
        let mut found: Option<(usize, u64)> = None;
        for at in 0..self.places.len() {
            let Some(client) = self.at(at) else {
                continue;
            };
            let held = client.held();
            let is_more = match found {
                Some((_, most)) => held > most,
                None => held > 0,
            };
            if is_more && client.firm() == Some(*firm) {
                found = Some((at, held));
            }
        }
        found
    }

    /// Makes room in the lists for one connection more, so that each has all of them. One is ready
    /// at most three times in a round: by the poll, in a hurry, and since calls wait.
    fn make_room(&mut self) -> bool {
        let most = self.places.len().saturating_add(1);
        self.ready.reserve(most.saturating_mul(3)).is_ok()
            && self.sending.reserve(most).is_ok()
            && self.to_send.reserve(most).is_ok()
            && self.hurried.reserve(most).is_ok()
            && self.resting.reserve(most).is_ok()
            && self.passed_over.reserve(most).is_ok()
            && self.late.reserve(most).is_ok()
            && self.free.reserve(most).is_ok()
            && self.unnamed.reserve(most).is_ok()
    }

    /// A place that no connection has.
    fn free_place(&mut self) -> Result<usize, Closed> {
        if !self.make_room() {
            return Err(Closed);
        }
        if let Some(at) = self.free.pop() {
            return Ok(at);
        }
        if self.places.reserve(1).is_err() || self.strangers.reserve(1).is_err() {
            return Err(Closed);
        }
        let at = self.places.len();
        self.places.push_reserved(None);
        self.strangers.push_reserved(None);
        Ok(at)
    }

    /// Puts this at a place, and gives what was there; or this, where there is no such place.
    fn put(&mut self, at: usize, client: Option<Client<'a, J>>) -> Option<Client<'a, J>> {
        match self.places.get_mut(at) {
            Some(place) => replace(place, client),
            None => client,
        }
    }

    /// Takes a stranger in, and tells its place.
    pub(crate) fn add(&mut self, stranger: Stranger) -> Result<usize, Closed> {
        let at = self.free_place()?;
        if let Some(place) = self.strangers.get_mut(at) {
            *place = Some(stranger);
        }
        self.open = self.open.saturating_add(1);
        let _ = self.unnamed.push_back(at);
        Ok(at)
    }

    /// The stranger at a place.
    pub(crate) fn stranger_at(&self, at: usize) -> Option<&Stranger> {
        match self.strangers.get(at) {
            Some(Some(stranger)) => Some(stranger),
            _ => None,
        }
    }

    /// Notes what the poll says of the stranger at a place: whether it is no stranger any more.
    pub(crate) fn note_stranger(&mut self, at: usize, readable: bool, shut: bool) -> bool {
        match self.strangers.get_mut(at) {
            Some(Some(stranger)) => stranger.note(readable, shut),
            _ => false,
        }
    }

    /// Takes the stranger at a place out of it.
    pub(crate) fn take_stranger(&mut self, at: usize) -> Option<Stranger> {
        match self.strangers.get_mut(at) {
            Some(place) => replace(place, None),
            None => None,
        }
    }

    /// Has a connection stand where its stranger stood.
    pub(crate) fn know(&mut self, at: usize, client: Client<'a, J>) {
        drop(self.put(at, Some(client)));
    }

    /// Frees the place of a stranger that is gone.
    pub(crate) fn free_stranger(&mut self, at: usize) {
        self.forget(at);
        self.open = self.open.saturating_sub(1);
        let _ = self.free.push(at);
    }

    /// Puts the connection at a place into the lists that it belongs in and isn't in.
    pub(crate) fn list(&mut self, at: usize) {
        let Some(Some(client)) = self.places.get_mut(at) else {
            return;
        };
        let (sends, hurries) = client.lists();
        if sends {
            let _ = self.sending.push(at);
        }
        if hurries {
            let _ = self.hurried.push(at);
        }
        if client.waits_anew() {
            let _ = self.late.push(at);
        }
    }

    /// Whether one is to have a turn without being asked.
    pub(crate) fn is_hurried(&self) -> bool {
        !self.hurried.is_empty() || !self.passed_over.is_empty()
    }

    /// How many there are of those.
    pub(crate) fn hurried_count(&self) -> usize {
        self.hurried.len().saturating_add(self.passed_over.len())
    }

    /// Takes the next of them out of its list: those that had a turn before those that had none, as
    /// who comes last has the first turn.
    pub(crate) fn next_hurried(&mut self) -> Option<usize> {
        match self.hurried.pop() {
            Some(at) => Some(at),
            None => self.passed_over.pop(),
        }
    }

    /// Whether calls wait on one of them.
    pub(crate) fn has_late(&self) -> bool {
        !self.late.is_empty()
    }

    /// Has those on which calls wait be asked again: they are ready.
    pub(crate) fn ask_late(&mut self) {
        for _ in 0..self.late.len() {
            let Some(at) = self.late.pop() else {
                return;
            };
            if let Some(Some(client)) = self.places.get_mut(at) {
                client.waits_no_more();
                let _ = self.ready.push(at);
            }
        }
    }

    /// How many microseconds the one at a place has for its turn.
    pub(crate) fn time_of(&self, at: usize) -> u64 {
        match self.at(at) {
            Some(client) => self.shares.left(client.share()),
            None => 0,
        }
    }

    /// Has the one at a place wait for the next round, since its firm has had its time.
    pub(crate) fn pass_over(&mut self, at: usize) {
        if let Some(Some(client)) = self.places.get_mut(at) {
            if client.is_passed_over() {
                let _ = self.passed_over.push(at);
            }
        }
    }

    /// Takes those that have something to be sent out of their list.
    pub(crate) fn begin_sending(&mut self) {
        self.to_send.clear();
        swap(&mut self.sending, &mut self.to_send);
    }

    /// How many are without a Logon.
    pub(crate) fn unnamed(&self) -> usize {
        self.unnamed.len()
    }

    /// The place of the one without a Logon that came first.
    pub(crate) fn oldest_unnamed(&self) -> Option<usize> {
        self.unnamed.front().copied()
    }

    /// Takes a place out of those without a Logon.
    fn forget(&mut self, at: usize) {
        if let Some(index) = self.unnamed.iter().position(|it| *it == at) {
            let _ = self.unnamed.remove(index);
        }
    }

    /// Takes the one at a place out of those without a Logon, if it has logged on.
    fn note_logon(&mut self, at: usize) {
        let has_logged_on = match self.places.get_mut(at) {
            Some(Some(client)) => client.has_logged_on(),
            _ => false,
        };
        if has_logged_on {
            self.forget(at);
            self.join(at);
        }
    }

    /// Counts the connection at a place for its firm, whose news it hears from now on. It looks at
    /// what was kept before.
    fn join(&mut self, at: usize) {
        let Some(Some(client)) = self.places.get_mut(at) else {
            return;
        };
        let Some(firm) = client.firm() else {
            return;
        };
        let Some(place) = self.news.place_of(&firm) else {
            return;
        };
        for _ in self.of_firms.len()..place.saturating_add(1) {
            if self.of_firms.push(0).is_err() {
                return;
            }
        }
        client.place = Some(place);
        if let Some(count) = self.of_firms.get_mut(place) {
            *count = count.saturating_add(1);
        }
        self.news.join(place, self.worker);
        client.want(self.news.newest(place).max(self.news.kept()));
    }

    /// Counts a connection of the firm at a place less.
    fn part(&mut self, place: usize) {
        if let Some(count) = self.of_firms.get_mut(place) {
            *count = count.saturating_sub(1);
            if *count == 0 {
                self.news.part(place, self.worker);
            }
        }
    }

    /// Has the connection at a place have a turn, if what is new concerns it: at once, or once it
    /// has rested.
    fn hurry_news(&mut self, at: usize) {
        let Some(Some(client)) = self.places.get_mut(at) else {
            return;
        };
        if !client.lacks() {
            return;
        }
        if client.has_rested(self.millis) {
            if !client.hurries {
                client.hurries = true;
                let _ = self.hurried.push(at);
            }
        } else if !client.rests {
            client.rests = true;
            let _ = self.resting.push_back(at);
        }
    }

    /// Looks at what is new of each firm.
    pub(crate) fn hear(&mut self) {
        for at in 0..self.places.len() {
            if let Some(Some(client)) = self.places.get_mut(at) {
                if let Some(place) = client.place {
                    client.want(self.news.newest(place));
                }
            }
            self.hurry_news(at);
        }
    }

    /// Begins a round in this millisecond: those that have rested have a turn, if they still lack
    /// what is new.
    pub(crate) fn begin_round(&mut self, millis: u64) {
        self.millis = millis;
        for _ in 0..self.resting.len() {
            let Some(at) = self.resting.pop_front() else {
                return;
            };
            if let Some(Some(client)) = self.places.get_mut(at) {
                client.rests = false;
            }
            self.hurry_news(at);
        }
    }

    /// Whether some have a turn once they have rested.
    pub(crate) fn some_rest(&self) -> bool {
        !self.resting.is_empty()
    }

    /// Behind a turn with the connection at a place: notes a Logon, and lists it where it belongs.
    pub(crate) fn end_turn(&mut self, at: usize) {
        if let Some(Some(client)) = self.places.get_mut(at) {
            client.note_turn(self.millis);
        }
        self.note_logon(at);
        self.list(at);
        self.hurry_news(at);
    }

    /// Closes the lingering stream that ended first.
    fn close_oldest(&mut self) {
        if let Some(oldest) = self.lingering.pop_front() {
            let _ = self.free.push(oldest.at);
        }
    }

    /// Closes half of the lingering streams, those that ended first.
    pub(crate) fn close_half_of_lingering(&mut self) {
        for _ in 0..self.lingering.len().div_ceil(2) {
            self.close_oldest();
        }
    }

    /// Has the stream of a connection that was at this place linger for so many seconds, unless its
    /// peer has ended.
    fn linger(&mut self, at: usize, wire: Wire, second: u64, wait: u64) {
        if self.lingering.len() >= MOST_LINGERING {
            self.close_oldest();
        }
        let wait = wait.min(self.most_lingering.unwrap_or(wait));
        let Some(lingering) = Lingering::new(at, wire, second, wait) else {
            let _ = self.free.push(at);
            return;
        };
        if self.lingering.push_back(lingering).is_err() {
            let _ = self.free.push(at);
        }
    }

    /// Has streams linger for no more than so many seconds from now on.
    pub(crate) fn linger_no_longer(&mut self, second: u64, most: u64) {
        if self.most_lingering.is_some() {
            return;
        }
        self.most_lingering = Some(most);
        for _ in 0..self.lingering.len() {
            let Some(mut it) = self.lingering.pop_front() else {
                return;
            };
            it.end_by(second.saturating_add(most));
            let at = it.at;
            if self.lingering.push_back(it).is_err() {
                let _ = self.free.push(at);
            }
        }
    }

    /// Closes the lingering streams that don't stay open: of this place, or of each where none is
    /// named.
    pub(crate) fn note_lingering(&mut self, place: Option<usize>, second: u64) {
        for _ in 0..self.lingering.len() {
            let Some(mut it) = self.lingering.pop_front() else {
                return;
            };
            let at = it.at;
            let is_meant = place.is_none() || place == Some(at);
            if is_meant && !it.stays(second) {
                let _ = self.free.push(at);
            } else if self.lingering.push_back(it).is_err() {
                let _ = self.free.push(at);
            }
        }
    }

    /// Begins a second: lingering streams that don't stay open are closed. If the last one began
    /// long before, the worker has paused.
    pub(crate) fn begin_second(&mut self, second: u64) {
        if second > self.second.saturating_add(MOST_ROUND) {
            for at in 0..self.places.len() {
                if let Some(Some(client)) = self.places.get_mut(at) {
                    client.note_pause();
                }
            }
        }
        self.second = second;
        self.note_lingering(None, second);
    }

    /// Closes the connection at a place in this second: whether there was one. Its stream lingers,
    /// if all is sent to a firm that had logged on.
    pub(crate) fn close(&mut self, at: usize, second: u64) -> bool {
        let Some(client) = self.put(at, None) else {
            return false;
        };
        if client.is_unnamed() {
            self.forget(at);
        }
        if let Some(place) = client.place {
            self.part(place);
        }
        self.news.note_end();
        self.open = self.open.saturating_sub(1);
        // The system drops the descriptor from the poll when it is closed.
        if client.lingers() {
            let wait = client.linger_wait();
            match client.into_wire() {
                Some(wire) => self.linger(at, wire, second, wait),
                None => {
                    let _ = self.free.push(at);
                }
            }
        } else {
            drop(client);
            let _ = self.free.push(at);
        }
        true
    }
}
