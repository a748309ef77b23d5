//! What each firm has had of its time in a round: its connections share the time of one turn.

use gu_base::FirmId;
use gu_limits::share_left;
use gu_parties::House;
use std::alloc::Global;

/// What a firm has had of the last round in which it had a turn.
#[derive(Clone, Copy)]
struct Share {
    round: u64,
    /// In microseconds.
    used: u64,
}

/// What each firm has had, in the order of the house file.
#[derive(Drop)]
pub(crate) struct Shares {
    round: u64,
    firms: Vec<Share>,
}

/// The place of a firm in the house file.
pub(crate) fn place_of(house: &House, firm: &FirmId) -> Option<usize> {
    for place in 0..house.firm_count() {
        if house.firm_at(place) == Some(*firm) {
            return Some(place);
        }
    }
    None
}

impl Shares {
    /// Nobody has had anything. Where memory lacks, some firms share nothing.
    pub(crate) fn new(alloc: Global, house: &House) -> Shares {
        let mut firms = Vec::new(alloc);
        for _ in 0..house.firm_count() {
            let _ = firms.push(Share { round: 0, used: 0 });
        }
        Shares { round: 0, firms }
    }

    /// Begins a round: nobody has had anything.
    pub(crate) fn begin_round(&mut self) {
        self.round = self.round.wrapping_add(1);
    }

    /// How many microseconds a firm may still have. One that hasn't logged on has all.
    pub(crate) fn left(&self, place: Option<usize>) -> u64 {
        let Some(place) = place else {
            return share_left(0);
        };
        match self.firms.get(place) {
            Some(share) if share.round == self.round => share_left(share.used),
            _ => share_left(0),
        }
    }

    /// A firm has had so many microseconds more.
    pub(crate) fn note(&mut self, place: Option<usize>, micros: u64) {
        let Some(place) = place else {
            return;
        };
        let round = self.round;
        if let Some(share) = self.firms.get_mut(place) {
            let before = if share.round == round { share.used } else { 0 };
            share.round = round;
            share.used = before.saturating_add(micros);
        }
    }
}
