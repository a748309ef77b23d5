//! The lines of what waits: offers for their takers, and changes whose reversal some firm has
//! consented to.
ghost use Rattle.std.specs.Prelude.{◌≡◌, ◌+◌};
ghost use Rattle.gu_base.specs.History.{live};
ghost use Rattle.gu_base.specs.Refusals.{limit_row};
ghost use Rattle.gu_base.specs.Terms.{limit_of, used_of};
ghost use Rattle.gu_statement.specs.Lines.{offer_line};
ghost use Rattle.gu_statement.specs.Sheets.{IsSheet};

use crate::branches::is_change;
use crate::lines::{OfferLine, ReversalLine};
use crate::nodes::part_node;
use crate::pieces::{go_on, made};
use crate::sheet::Sheet;
use crate::sight::{node_at, pair_of};
use crate::waiting_text::{push_offer, push_reversal};
use gu_base::{Command, Entry, FirmId, Kind, Memory, Node, NodeName, Number, Refusal};
use gu_batch::{RunError, Sink};
use gu_book::entry_at;
use std::alloc::Global;
use std::collections::BTreeMap;

/// The firms that consent to the reversal of each entry.
type Consents = BTreeMap<u32, Vec<FirmId>>;

/// Adds a firm's consent.
fn give(alloc: Global, consents: &mut Consents, entry: Number, firm: FirmId) -> Result<(), Memory> {
    if let Some(firms) = consents.get_mut(&entry.get()) {
        firms.push(firm)?;
        return Ok(());
    }
    let mut firms = Vec::new(alloc);
    firms.push(firm)?;
    consents.insert(entry.get(), firms)?;
    Ok(())
}

/// The consents that a history left: none of what was reversed.
fn consents_of(alloc: Global, entries: &[Entry]) -> Result<Consents, Memory> {
    let mut consents = BTreeMap::new(alloc);
    for entry in entries {
        match &entry.command {
            Command::Initiate { entry: change } => {
                give(alloc, &mut consents, *change, entry.firm)?;
            }
            Command::Decline { entry: change } | Command::Reverse { entry: change } => {
                consents.remove(&change.get());
            }
            _ => {}
        }
    }
    Ok(consents)
}

/// Those of the first so many of these parties that aren't among the firms.
fn lacking_of(
    alloc: Global,
    parties: &[FirmId; 3],
    count: usize,
    firms: &[FirmId],
) -> Result<Vec<FirmId>, Memory> {
    let mut lacking = Vec::new(alloc);
    for i in 0..3 {
        let party = &parties[i];
        if i < count && !party.is_among(firms) {
            lacking.push(*party)?;
        }
    }
    Ok(lacking)
}

/// The least of two numbers, if there are some.
fn least(a: Option<Number>, b: Option<Number>) -> Option<Number> {
    match (a, b) {
        (Some(x), Some(y)) => Some(if x <= y { x } else { y }),
        (Some(x), None) => Some(x),
        (None, other) => other,
    }
}

/// The lots of dealings: what may be claimed, and what was.
#[derive(Clone, Copy)]
struct Room {
    limit: u64,
    used: u64,
}

impl Room {
    /// Both together.
    fn after(&self, more: &Room) -> Room {
        Room {
            limit: self.limit.saturating_add(more.limit),
            used: self.used.saturating_add(more.used),
        }
    }
}

impl<'a> Sheet<'a> {
    /// Why the claim of so many lots more would be refused.
    fn refusal_now(&self, giver: &FirmId, taker: &FirmId, lots: u64) -> Option<Refusal>
        ensures { result ≡ limit_row
            (used_of (live self.now.book.now.history) giver.now taker.now + lots)
            (limit_of self.now.book.now.house (live self.now.book.now.history) giver.now
            taker.now) }
    {
        let Some(limit) = self.book.limit(giver, taker) else {
            return Some(Refusal::NoAgreement);
        };
        match self.book.used(giver, taker).checked_add(lots) {
            Some(sum) => {
                if sum <= limit {
                    None
                } else {
                    Some(Refusal::LimitExceeded)
                }
            }
            None => Some(Refusal::LimitExceeded),
        }
    }

    /// The line of a node that is offered by the one to the other.
    fn offer_line(&self, node: &Node, giver: &FirmId, taker: &FirmId) -> OfferLine
        ensures { result ≡ offer_line self.now.book.now.house
            (live self.now.book.now.history) node.now giver.now taker.now }
    {
        OfferLine {
            node: *node,
            giver: *giver,
            taker: *taker,
            costs: self.cost(giver, taker, node.lots),
            refusal: self.refusal_now(giver, taker, node.lots),
        }
    }

    /// The line of a node, if it is an offer that may be seen.
    fn offer_of(&self, node: &Node) -> Option<OfferLine> {
        match &node.kind {
            Kind::Given { giver, taker, .. } => {
                if self.is_between(giver, taker)
                    && self.branches.decision(self.entries(), &node.name).is_none()
                {
                    Some(self.offer_line(node, giver, taker))
                } else {
                    None
                }
            }
            Kind::Root(_) | Kind::Own { .. } => None,
        }
    }

    /// Writes the line of a node that this entry made, if it is an offer that may be seen.
    fn write_offer<W: Sink>(
        &self,
        node: &Node,
        out: &mut Vec<u8>,
        writer: &mut W,
    ) -> Result<(), RunError> {
        match self.offer_of(node) {
            Some(line) => {
                let since = self.times.at(node.name.entry().get() as usize - 1);
                made(push_offer(self.alloc, out, &line, since))?;
                go_on(out, writer)
            }
            None => Ok(()),
        }
    }

    /// Writes the lines of the offers of a Split.
    fn write_parts<W: Sink>(
        &self,
        number: Number,
        entry: &Entry,
        out: &mut Vec<u8>,
        writer: &mut W,
    ) -> Result<(), RunError> {
        let Command::Split { node, parts } = &entry.command else {
            return Ok(());
        };
        let parts = parts.as_slice();
        for i in 0..parts.len() {
            if i < 100 {
                let part = part_node(number, i as u8, node, &entry.firm, &parts[i]);
                self.write_offer(&part, out, writer)?;
            }
        }
        Ok(())
    }

    /// Writes the lines of the offers of the live change at this place.
    fn write_offers_at<W: Sink>(
        &self,
        place: usize,
        out: &mut Vec<u8>,
        writer: &mut W,
    ) -> Result<(), RunError>
        requires { IsSheet self.now }
    {
        match self.live_at(place) {
            Some((number, entry)) => self.write_parts(number, entry, out, writer),
            None => Ok(()),
        }
    }

    /// Writes the lines of the offers, in the order of their Splits.
    pub(crate) fn write_offers<W: Sink>(
        &self,
        out: &mut Vec<u8>,
        writer: &mut W,
    ) -> Result<(), RunError>
        requires { IsSheet self.now }
    {
        for place in 0..self.live.len() {
            self.write_offers_at(place, out, writer)?;
        }
        Ok(())
    }

    /// The parties of a change, in order, and how many they are.
    fn parties(&self, entry: &Entry) -> ([FirmId; 3], usize) {
        let house = self.book.house().house();
        let by = entry.firm;
        match &entry.command {
            Command::Trade { firm, .. } => ([house, *firm, *firm], 2),
            Command::Split { .. } => ([by, by, by], 1),
            Command::Claim { node, .. } | Command::Refuse { node } => {
                match pair_of(&node_at(self.entries(), node)) {
                    Some((giver, taker)) => ([taker, giver, giver], 2),
                    None => ([by, by, by], 0),
                }
            }
            Command::Cancel { node } => match pair_of(&node_at(self.entries(), node)) {
                Some((giver, _)) => ([giver, giver, giver], 1),
                None => ([by, by, by], 0),
            },
            Command::Agree { giver, taker, .. } => ([house, *giver, *taker], 3),
            Command::Raise { giver, .. } => ([by, *giver, *giver], 2),
            _ => ([by, by, by], 0),
        }
    }

    /// The parties of a change that haven't consented.
    fn lacking(&self, entry: &Entry, firms: &[FirmId]) -> Result<Vec<FirmId>, Memory> {
        let (parties, count) = self.parties(entry);
        lacking_of(self.alloc, &parties, count, firms)
    }

    /// The first that stands on the parts of a Split.
    fn first_on_parts(&self, number: Number, count: usize) -> Option<Number> {
        let entries = self.entries();
        let mut first = None;
        for i in 0..count {
            if i < 100 {
                let name = NodeName::in_entry(number, i as u8 + 1);
                let decision = self.branches.decision(entries, &name);
                let split = self.branches.split(entries, &name);
                first = least(first, least(decision, split));
            }
        }
        first
    }

    /// The lots of a node that the one gives to the other, if it is one.
    fn given_lots(&self, name: &NodeName, giver: &FirmId, taker: &FirmId) -> Option<u64> {
        let Some(node) = node_at(self.entries(), name) else {
            return None;
        };
        match &node.kind {
            Kind::Given {
                giver: g,
                taker: t,
                ..
            } => {
                if *g == *giver && *t == *taker {
                    Some(node.lots)
                } else {
                    None
                }
            }
            Kind::Root(_) | Kind::Own { .. } => None,
        }
    }

    /// What an entry raises and uses of the terms of a giver and a taker; `None` where it deals
    /// nothing under them.
    fn dealt(&self, entry: &Entry, giver: &FirmId, taker: &FirmId) -> Option<Room> {
        match &entry.command {
            Command::Raise { giver: g, lots } => {
                if *g == *giver && entry.firm == *taker {
                    Some(Room {
                        limit: *lots,
                        used: 0,
                    })
                } else {
                    None
                }
            }
            Command::Claim { node, .. } => match self.given_lots(node, giver, taker) {
                Some(used) => Some(Room { limit: 0, used }),
                None => None,
            },
            _ => None,
        }
    }

    /// The same of the live change at this place, with its number.
    fn dealt_at(&self, place: usize, giver: &FirmId, taker: &FirmId) -> Option<(Number, Room)>
        requires { IsSheet self.now }
    {
        let Some((number, entry)) = self.live_at(place) else {
            return None;
        };
        match self.dealt(entry, giver, taker) {
            Some(room) => Some((number, room)),
            None => None,
        }
    }

    /// The first entry that deals under the terms of a giver and a taker.
    fn first_dealing(&self, giver: &FirmId, taker: &FirmId) -> Option<Number>
        requires { IsSheet self.now }
    {
        for place in 0..self.live.len() {
            if let Some((number, _)) = self.dealt_at(place, giver, taker) {
                return Some(number);
            }
        }
        None
    }

    /// The first Claim that would pass the limit of a giver and a taker without this Raise.
    fn first_over(&self, raise: Number, giver: &FirmId, taker: &FirmId) -> Option<Number>
        requires { IsSheet self.now }
    {
        let mut room = Room {
            limit: match self.book.terms(giver, taker) {
                Some(terms) => terms.limit,
                None => 0,
            },
            used: 0,
        };
        for place in 0..self.live.len() {
            match self.dealt_at(place, giver, taker) {
                Some((number, more)) if number != raise => {
                    room = room.after(&more);
                    if room.used > room.limit {
                        return Some(number);
                    }
                }
                _ => {}
            }
        }
        None
    }

    /// The first change that stands on this one: for the house alone.
    fn standing(&self, number: Number, entry: &Entry) -> Option<Number>
        requires { IsSheet self.now }
    {
        if self.whose.is_some() {
            return None;
        }
        let entries = self.entries();
        match &entry.command {
            Command::Trade { .. } => {
                self.branches.split(entries, &NodeName::in_entry(number, 0))
            }
            Command::Split { parts, .. } => self.first_on_parts(number, parts.as_slice().len()),
            Command::Claim { node, .. } | Command::Refuse { node } | Command::Cancel { node } => {
                self.branches.split(entries, node)
            }
            Command::Agree { giver, taker, .. } => self.first_dealing(giver, taker),
            Command::Raise { giver, .. } => self.first_over(number, giver, &entry.firm),
            _ => None,
        }
    }

    /// Appends the line of a change to whose reversal these firms consent, where it may be seen.
    fn push_pending(
        &self,
        number: Number,
        firms: &[FirmId],
        out: &mut Vec<u8>,
    ) -> Result<(), Memory>
        requires { IsSheet self.now }
    {
        let Some(entry) = entry_at(self.entries(), number) else {
            return Ok(());
        };
        if !is_change(&entry.command) || !self.shows(entry) {
            return Ok(());
        }
        let lacking = self.lacking(entry, firms)?;
        push_reversal(
            self.alloc,
            out,
            &ReversalLine {
                change: number,
                consented: firms,
                lacking: lacking.as_slice(),
                stands: self.standing(number, entry),
            },
        )
    }

    /// Writes the lines of the changes to whose reversal some firm has consented.
    pub(crate) fn write_reversals<W: Sink>(
        &self,
        out: &mut Vec<u8>,
        writer: &mut W,
    ) -> Result<(), RunError>
        requires { IsSheet self.now }
    {
        let Ok(consents) = consents_of(self.alloc, self.entries()) else {
            return Err(RunError::Memory);
        };
        for (change, firms) in &consents {
            if let Some(number) = Number::new(*change) {
                made(self.push_pending(number, firms.as_slice(), out))?;
                go_on(out, writer)?;
            }
        }
        Ok(())
    }
}
