//! The positions of a book.
ghost use Rattle.std.specs.Prelude.{◌≡◌, ◌+◌, ◌<◌, ◌≤◌, ◌^◌, ◌&&◌, ◌++◌, List, [], ◌∷◌, cond};
ghost use Rattle.std.specs.Prelude.{IsTrue, ◌↔◌, OnOk, OnErr};
ghost use Rattle.gu_base.specs.Positions.{same_side};
ghost use Rattle.gu_base.specs.declared.command.Side.{Side};
ghost use Rattle.gu_base.specs.declared.command.Side.TheVariants.{Buy, Sell};
ghost use Rattle.gu_positions.specs.declared.positions.Key.{Key};
ghost use Rattle.gu_positions.specs.Rows.{lots_on, row_at, lots_in, is_key, IsReady, CanAdd};
ghost use Rattle.gu_positions.specs.Sums.{Stake, AreSumsOf};

use gu_base::{AccountId, FirmId, InstrumentId, Memory, Side};
use std::alloc::Global;
use std::collections::HashMap;
use std::marker::Model;

/// An instrument in an account of a firm.
#[derive(Clone, Copy, PartialEq, Eq, Hash)]
pub struct Key {
    pub firm: FirmId,
    pub account: AccountId,
    pub instrument: InstrumentId,
}

/// The lots of an instrument in an account: long those of buy trades, short those of sell trades.
#[derive(Clone, Copy)]
struct Row {
    long: u64,
    short: u64,
}

impl Row {
    /// The lots of one side.
    fn on(&self, side: Side) -> u64
        ensures { result ≡ lots_on side self.now }
    {
        match side {
            Side::Buy => self.long,
            Side::Sell => self.short,
        }
    }

    /// Whether so many lots more fit on one side.
    fn has_room(&self, side: Side, lots: u64) -> bool
        ensures { IsTrue result ↔ (lots_on side self.now + lots < 2 ^ 64) }
    {
        self.on(side).checked_add(lots).is_some()
    }

    /// With so many lots more on one side.
    fn with(self, side: Side, lots: u64) -> Row
        requires { lots_on side self + lots < 2 ^ 64 }
        ensures { (s : Side) → lots_on s result ≡ lots_on s self + cond (same_side side s) lots 0 }
    {
        match side {
            Side::Buy => Row {
                long: self.long + lots,
                ..self
            },
            Side::Sell => Row {
                short: self.short + lots,
                ..self
            },
        }
    }

    /// With so many lots less on one side.
    fn without(self, side: Side, lots: u64) -> Row
        requires { lots ≤ lots_on side self }
        ensures { (s : Side) → lots_on s result + cond (same_side side s) lots 0 ≡ lots_on s self }
    {
        match side {
            Side::Buy => Row {
                long: self.long - lots,
                ..self
            },
            Side::Sell => Row {
                short: self.short - lots,
                ..self
            },
        }
    }
}

/// The lots that stand in each account, by instrument: one row for both sides.
#[derive(Drop)]
pub struct Positions {
    rows: HashMap<Key, Row>,
}

impl Model for Positions {
    ghost use Rattle.gu_positions.specs.Rows.{PositionRows};

    ghost Value = { PositionRows };

    ghost view = { λ p. p.rows.entries };
}

impl Positions {
    /// Nothing in any account, and no row. The rows will grow by this allocator.
    pub fn new(alloc: Global) -> Positions
        ensures { AreSumsOf result [] }
    {
        Positions {
            rows: HashMap::new(alloc),
        }
    }

    /// Makes the row of the account and the instrument. No sum changes, not even where memory is
    /// refused.
    pub fn ready(&mut self, key: &Key) -> Result<(), Memory>
        ensures ready { OnOk result (IsReady self.new key.now) }
        ensures same { (at : Key) (side : Side)
            → lots_in self.new at side ≡ lots_in self.old at side }
        ensures stays_ready { (at : Key) → IsReady self.old at → IsReady self.new at }
    {
        if !self.rows.contains_key(key) {
            self.rows.insert(*key, Row { long: 0, short: 0 })?;
        }
        Ok(())
    }

    /// Puts lots into the account, on the side of their trade.
    ///
    /// The row has to be ready, and its sum has to stay below 2^64 (`can_add`).
    pub fn add(&mut self, key: &Key, side: Side, lots: u64)
        requires { CanAdd self.old key.now side lots }
        ensures added { (at : Key) (s : Side)
            → lots_in self.new at s
            ≡ lots_in self.old at s + cond (is_key key.now at && same_side side s) lots 0 }
        ensures stays_ready { (at : Key) → IsReady self.old at → IsReady self.new at }
        ensures sums { (before after : List Stake) → AreSumsOf self.old (before ++ after)
            → AreSumsOf self.new
            (before ++ record { key = key.now; side = side; lots = lots } ∷ after) }
    {
        if let Some(row) = self.rows.get_mut(key) {
            *row = row.with(side, lots);
        }
    }

    /// Puts lots into the account, on the side of their trade, and makes its row where there is
    /// none. One look finds a row that is there.
    ///
    /// Its sum has to stay below 2^64.
    ///
    /// # Errors
    ///
    /// `Memory` where a row was wanted. No sum has changed then.
    pub fn put(&mut self, key: &Key, side: Side, lots: u64) -> Result<(), Memory>
        requires { lots_in self.old key.now side + lots < 2 ^ 64 }
        ensures added { OnOk result
            ((at : Key) (s : Side)
            → lots_in self.new at s
            ≡ lots_in self.old at s + cond (is_key key.now at && same_side side s) lots 0) }
        ensures same { OnErr result
            ((at : Key) (s : Side) → lots_in self.new at s ≡ lots_in self.old at s) }
        ensures stays_ready { (at : Key) → IsReady self.old at → IsReady self.new at }
        ensures sums { OnOk result
            ((before after : List Stake) → AreSumsOf self.old (before ++ after)
            → AreSumsOf self.new
            (before ++ record { key = key.now; side = side; lots = lots } ∷ after)) }
    {
        if let Some(row) = self.rows.get_mut(key) {
            *row = row.with(side, lots);
            return Ok(());
        }
        self.ready(key)?;
        self.add(key, side, lots);
        Ok(())
    }

    /// Takes lots out of the account again: what `add` of the same put in.
    ///
    /// No more may be taken than is there (`can_take`).
    pub fn take(&mut self, key: &Key, side: Side, lots: u64)
        requires { lots ≤ lots_in self.old key.now side }
        ensures taken { (at : Key) (s : Side)
            → lots_in self.new at s + cond (is_key key.now at && same_side side s) lots 0
            ≡ lots_in self.old at s }
        ensures stays_ready { (at : Key) → IsReady self.old at → IsReady self.new at }
        ensures sums { (before after : List Stake)
            → AreSumsOf self.old
            (before ++ record { key = key.now; side = side; lots = lots } ∷ after)
            → AreSumsOf self.new (before ++ after) }
    {
        if let Some(row) = self.rows.get_mut(key) {
            *row = row.without(side, lots);
        }
    }

    /// The row of the account and the instrument. Without one it has no lots.
    fn row(&self, key: &Key) -> Row
        ensures { result ≡ row_at self.now key.now }
    {
        let none = Row { long: 0, short: 0 };
        self.rows.get(key).copied().unwrap_or(none)
    }

    /// The lots that stand in the account: long, then short.
    pub fn of(&self, key: &Key) -> (u64, u64)
        ensures { result ≡ (lots_in self.now key.now Buy, lots_in self.now key.now Sell) }
    {
        let row = self.row(key);
        (row.long, row.short)
    }

    /// Whether lots can be put into the account: its row is ready, and its sum has room for them.
    pub fn can_add(&self, key: &Key, side: Side, lots: u64) -> bool
        ensures { IsTrue result ↔ CanAdd self.now key.now side lots }
    {
        match self.rows.get(key) {
            Some(row) => row.has_room(side, lots),
            None => false,
        }
    }

    /// Whether lots can be taken out of the account: so many are there.
    pub fn can_take(&self, key: &Key, side: Side, lots: u64) -> bool
        ensures { IsTrue result ↔ (lots ≤ lots_in self.now key.now side) }
    {
        lots <= self.row(key).on(side)
    }
}
