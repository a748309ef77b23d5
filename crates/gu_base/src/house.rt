//! The lines of the house table, and what is dealt under terms.
use crate::names::{AccountId, FirmId};
use crate::numbers::Number;

/// An account of a firm.
#[derive(Clone, Copy, PartialEq, Eq, Hash)]
pub struct Account {
    pub firm: FirmId,
    pub name: AccountId,
}

/// A firm that gives up trades and a firm that takes them.
#[derive(Clone, Copy, PartialEq, Eq, Hash)]
pub struct Pair {
    pub giver: FirmId,
    pub taker: FirmId,
}

/// The terms of a giver and a taker.
#[derive(Clone, Copy, PartialEq, Eq)]
pub struct Agreement {
    /// What a claimed lot costs the taker, in hundredths: 0 to 100,000.
    pub rate: u64,
    /// The lots of live claims that the giver allows the taker: 0 to 10,000,000,000,000.
    pub limit: u64,
}

impl Agreement {
    /// The highest limit of an agreement, in lots.
    pub const MAX_LIMIT: u64 = 10_000_000_000_000;
}

/// What an entry does to the terms of a giver and a taker.
#[derive(Clone, Copy, PartialEq, Eq)]
pub enum Deed {
    /// An Agree makes them.
    Makes(Agreement),
    /// A Raise raises their limit by so many lots.
    Raises(u64),
    /// A Claim uses so many lots.
    Uses(u64),
}

/// An entry of a giver and a taker: its number, and what it does to their terms.
#[derive(Clone, Copy, PartialEq, Eq)]
pub struct Dealing {
    pub number: Number,
    pub deed: Deed,
}
