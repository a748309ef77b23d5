//! Numbers in their ranges, and names of nodes. A clause sees each number as a natural number.
ghost use Rattle.std.specs.Prelude.{◌≡◌, ◌≤◌, ◌<◌, ◌+◌, ◌++◌, IsTrue, Some, None, if◌then◌else◌};
ghost use Rattle.std.specs.Prelude.{decimal, codes};
ghost use Rattle.gu_base.specs.Limits.{most_entries, most_parts};
ghost use Rattle.gu_base.specs.Numbers.{is_number, is_lots, is_rate, is_node_name};

use std::fmt;
use std::marker::Model;

/// The number of an entry of the history: 1 to 1,000,000.
#[derive(Clone, Copy, Debug, PartialEq, Eq, PartialOrd, Ord, Hash)]
pub struct Number {
    number: u32,
}

impl Model for Number {
    ghost use Rattle.std.specs.Prelude.{ℕ, IsTrue};
    ghost use Rattle.gu_base.specs.Numbers.{is_number};

    ghost Value = { ℕ };

    ghost view = { λ n. n.number };

    ghost invariant = { λ n. IsTrue (is_number n.number) };

    ghost inverse = { λ n. record { number = n } };
}

impl Number {
    /// The entries that a history may have.
    pub const MAX: u32 = 1_000_000;

    /// The number of this value, `None` where it is out of range.
    pub fn new(value: u32) -> Option<Number>
        ensures { result ≡ (if is_number value then Some value else None) }
    {
        if 1 <= value && value <= Self::MAX {
            Some(Number { number: value })
        } else {
            None
        }
    }

    /// The number of the entry at this place of a history, counted from 0.
    pub fn at_place(place: usize) -> Number
        requires { place < most_entries }
        ensures { result ≡ place + 1 }
    {
        Number {
            number: place as u32 + 1,
        }
    }

    /// Its value.
    pub fn get(&self) -> u32
        ensures value { result ≡ self.now }
        ensures in_range { IsTrue (is_number result) }
    {
        self.number
    }
}

impl fmt::Display for Number {
    ghost output = { λ n. Some (decimal n) };

    fn fmt<W: fmt::Write>(&self, f: &mut fmt::Formatter<W>) -> fmt::Result {
        fmt::Display::fmt(&self.get(), f)
    }
}

/// The lots of a trade or of a part: 1 to 10,000,000.
#[derive(Clone, Copy, PartialEq, Eq)]
pub struct Lots {
    lots: u64,
}

impl Model for Lots {
    ghost use Rattle.std.specs.Prelude.{ℕ, IsTrue};
    ghost use Rattle.gu_base.specs.Numbers.{is_lots};

    ghost Value = { ℕ };

    ghost view = { λ n. n.lots };

    ghost invariant = { λ n. IsTrue (is_lots n.lots) };

    ghost inverse = { λ n. record { lots = n } };
}

impl Lots {
    /// The most lots of a trade or of a part.
    pub const MAX: u64 = 10_000_000;

    /// The lots of this value, `None` where it is out of range.
    pub fn new(value: u64) -> Option<Lots>
        ensures { result ≡ (if is_lots value then Some value else None) }
    {
        if 1 <= value && value <= Self::MAX {
            Some(Lots { lots: value })
        } else {
            None
        }
    }

    /// Its value.
    pub fn get(&self) -> u64
        ensures value { result ≡ self.now }
        ensures in_range { IsTrue (is_lots result) }
    {
        self.lots
    }
}

impl fmt::Display for Lots {
    ghost output = { λ n. Some (decimal n) };

    fn fmt<W: fmt::Write>(&self, f: &mut fmt::Formatter<W>) -> fmt::Result {
        fmt::Display::fmt(&self.get(), f)
    }
}

/// What a claimed lot costs, in hundredths: 0 to 100,000.
#[derive(Clone, Copy, PartialEq, Eq)]
pub struct Rate {
    hundredths: u64,
}

impl Model for Rate {
    ghost use Rattle.std.specs.Prelude.{ℕ, IsTrue};
    ghost use Rattle.gu_base.specs.Numbers.{is_rate};

    ghost Value = { ℕ };

    ghost view = { λ n. n.hundredths };

    ghost invariant = { λ n. IsTrue (is_rate n.hundredths) };

    ghost inverse = { λ n. record { hundredths = n } };
}

impl Rate {
    /// The highest rate, in hundredths per lot.
    pub const MAX: u64 = 100_000;

    /// The rate of this value, `None` where it is out of range.
    pub fn new(value: u64) -> Option<Rate>
        ensures { result ≡ (if is_rate value then Some value else None) }
    {
        if value <= Self::MAX {
            Some(Rate { hundredths: value })
        } else {
            None
        }
    }

    /// Its value.
    pub fn get(&self) -> u64
        ensures value { result ≡ self.now }
        ensures in_range { IsTrue (is_rate result) }
    {
        self.hundredths
    }
}

impl fmt::Display for Rate {
    ghost output = { λ n. Some (decimal n) };

    fn fmt<W: fmt::Write>(&self, f: &mut fmt::Formatter<W>) -> fmt::Result {
        fmt::Display::fmt(&self.get(), f)
    }
}

/// The name of a node, written `entry.part`: `k.0` is the root of trade k, `k.i` the i-th part of
/// split k, i from 1 to 100.
#[derive(Clone, Copy, PartialEq, Eq)]
pub struct NodeName {
    entry: Number,
    part: u8,
}

impl Model for NodeName {
    ghost use Rattle.std.specs.Prelude.{ℕ, ◌≤◌};
    ghost use Rattle.gu_base.specs.Limits.{most_parts};
    ghost use Rattle.gu_base.specs.Numbers.{EntryPart};

    ghost Value = { EntryPart };

    ghost view = { λ n. record { entry = n.entry; part = n.part } };

    ghost invariant = { λ n. n.part ≤ most_parts };

    ghost inverse = { λ n. record { entry = n.entry; part = n.part } };
}

impl NodeName {
    /// The parts that a split may have.
    pub const MAX_PART: u8 = 100;

    /// The name of part `part` of entry `entry`, `None` where either is out of range.
    pub fn new(entry: u32, part: u8) -> Option<NodeName>
        ensures { result ≡ (if is_node_name entry part
            then Some (record { entry = entry; part = part })
            else None) }
    {
        if part > Self::MAX_PART {
            return None;
        }
        match Number::new(entry) {
            Some(entry) => Some(NodeName { entry, part }),
            None => None,
        }
    }

    /// The name of part `part` of an entry that is known.
    pub fn in_entry(entry: Number, part: u8) -> NodeName
        requires { part ≤ most_parts }
        ensures { result ≡ record { entry = entry; part = part } }
    {
        NodeName { entry, part }
    }

    /// The entry that made the node.
    pub fn entry(&self) -> Number
        ensures { result ≡ self.now.entry }
    {
        self.entry
    }

    /// Which of the entry's parts it is, 0 for the root of a trade.
    pub fn part(&self) -> u8
        ensures value { result ≡ self.now.part }
        ensures in_range { result ≤ most_parts }
    {
        self.part
    }
}

impl fmt::Display for NodeName {
    ghost output = { λ n. Some (decimal n.entry ++ codes "." ++ decimal n.part) };

    fn fmt<W: fmt::Write>(&self, f: &mut fmt::Formatter<W>) -> fmt::Result {
        write!(f, "{}.{}", self.entry, self.part)
    }
}
