//! The watch's own hold on where connections come in, and on those of firms. It can shut them, and
//! nothing else.

use crossbeam_channel::Sender;
use gu_archive::Hours;
use gu_board::Board;
use gu_recorder::{Shutter, Wire};
use std::alloc::Global;
use std::mem::replace;
use std::sync::{Arc, Mutex, Wait};
use std::thread;
use std::time::{Clock, Duration};

/// How often the watch asks for the list where a thread has it, and how long it waits between, in
/// milliseconds.
const MOST_ASKED: usize = 100;

const SHORT_WAIT: u64 = 10;

/// The shutters of connections, in places of their own, and the places that are free.
#[derive(Drop)]
struct Held {
    places: Vec<Option<Shutter>>,
    free: Vec<usize>,
}

impl Held {
    /// Puts a shutter into a place, unless memory lacks for that.
    fn put(&mut self, shutter: Shutter) -> Option<usize> {
        if let Some(at) = self.free.pop() {
            if let Some(place) = self.places.get_mut(at) {
                *place = Some(shutter);
            }
            return Some(at);
        }
        let at = self.places.len();
        if self.free.reserve(at.saturating_add(1)).is_err() {
            return None;
        }
        match self.places.push(Some(shutter)) {
            Ok(()) => Some(at),
            Err(_) => None,
        }
    }

    /// Takes the shutter out of a place.
    fn take(&mut self, at: usize) -> Option<Shutter> {
        let found = match self.places.get_mut(at) {
            Some(place) => replace(place, None),
            None => None,
        };
        if found.is_some() {
            let _ = self.free.push(at);
        }
        found
    }

    /// Shuts all.
    fn shut(&self) {
        for place in self.places.as_slice() {
            if let Some(shutter) = place {
                shutter.shut();
            }
        }
    }
}

/// What can be shut of the connections of firms that have logged on.
#[derive(Drop)]
pub(crate) struct Shutters(Mutex<Held>);

impl Shutters {
    /// None yet.
    pub(crate) fn new(alloc: Global) -> Shutters {
        Shutters(Mutex::new(Held {
            places: Vec::new(alloc),
            free: Vec::new(alloc),
        }))
    }

    /// Holds a shutter of a stream: in this place. None where descriptors or memory lack.
    pub(crate) fn hold<R: Wait>(&self, rt: &R, wire: &Wire) -> Option<usize> {
        let Ok(shutter) = wire.shutter() else {
            return None;
        };
        let mut held = self.0.lock(rt);
        (*held).put(shutter)
    }

    /// Lets the one in a place go.
    pub(crate) fn let_go<R: Wait>(&self, rt: &R, at: usize) {
        let mut held = self.0.lock(rt);
        let found = (*held).take(at);
        drop(held);
        drop(found);
    }

    /// Shuts all, also where a thread stands still that has them.
    pub(crate) fn shut_all<R: Wait + Clock>(&self, rt: &R) {
        for _ in 0..MOST_ASKED {
            if let Some(held) = self.0.try_lock() {
                (*held).shut();
                return;
            }
            thread::sleep(rt, Duration::from_millis(SHORT_WAIT));
        }
    }
}

/// What a server hands to the watch: what is counted of it, and what the watch can shut; and what
/// the watch hands to it: where its files of the archive come from, if there is one.
#[derive(Drop)]
pub(crate) struct Watched {
    pub(crate) board: Arc<Board>,
    pub(crate) to: Sender<Shutter>,
    pub(crate) shutters: Arc<Shutters>,
    pub(crate) hours: Option<Arc<Hours>>,
}
