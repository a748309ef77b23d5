//! The limits, and what they decide.

ghost use Rattle.std.specs.Prelude.{◌≡◌, ◌≤◌, ◌*◌, ℕ, Bool, false, None, option_map};
ghost use Rattle.gu_limits.specs.Admission.{reaches, passes as passes_of, bounds_entries};
ghost use Rattle.gu_limits.specs.Admission.{unreserved as unreserved_of, has_room as has_room_of};
ghost use Rattle.gu_limits.specs.Admission.{excess_of_call as excess_of, rate_of};
ghost use Rattle.gu_limits.specs.Admission.{holds_too_much as holds_too_much_of};
ghost use Rattle.gu_limits.specs.Admission.{is_silent as is_silent_of};
ghost use Rattle.gu_limits.specs.declared.size.Size.{Size as SizeData};

use crate::ending::Ending;
use crate::size::Size;
use gu_base::Number;

/// For how many seconds a firm that has logged on may say nothing: three times an hour, whatever
/// HeartBtInt (108) its Logon asked for.
const MOST_SILENCE: u64 = 3 * 3600;

/// How many bytes of each megabyte of memory are for the book, and for calls of firms.
const MEGABYTE: u64 = 1_000_000;

const NINE_TENTHS: u64 = 900_000;

/// What an operator lets a firm have; what isn't given is without a bound.
#[derive(Clone, Copy, Debug)]
pub struct Limits {
    /// How many entries of a firm other than the house the book takes.
    pub most_entries: Option<u32>,
    /// How many parts the Splits of a firm other than the house have together.
    pub most_parts: Option<u32>,
    /// How many of the 1,000,000 entries that a book may have are the house's alone.
    pub reserve: Option<u32>,
    /// How many megabytes of memory the book may take, of which a tenth is the house's alone.
    pub memory: Option<u32>,
    /// How many messages a firm sends, or has sent again, in a second. Its further calls wait.
    pub rate: Option<u32>,
    /// How many connections of a firm may have logged on.
    pub per_firm: Option<u32>,
    /// How many megabytes may wait for a firm, and be kept to be sent again.
    pub held: Option<u32>,
}

/// Whether so many are as many as a limit admits.
fn reaches_limit(most: Option<u32>, count: u64) -> bool
    ensures { result ≡ reaches most count }
{
    match most {
        Some(most) => u64::from(most) <= count,
        None => false,
    }
}

/// Whether so many are more than a limit admits.
fn passes(most: Option<u64>, count: u64) -> bool
    ensures { result ≡ passes_of most count }
{
    match most {
        Some(most) => most < count,
        None => false,
    }
}

/// A limit in another unit, of which so many make one.
fn in_units(most: Option<u32>, unit: u64) -> Option<u64>
    requires { unit ≤ 1_000_000 }
    ensures { result ≡ option_map (λ n. n * unit) most }
{
    match most {
        Some(most) => Some(u64::from(most) * unit),
        None => None,
    }
}

/// The same limit as a wider number.
fn widened(most: Option<u32>) -> Option<u64>
    ensures { result ≡ most }
{
    match most {
        Some(most) => Some(u64::from(most)),
        None => None,
    }
}

/// How many entries of the book may be others than the house's, where some are the house's alone.
fn unreserved(reserve: Option<u32>) -> Option<u32>
    ensures { result ≡ unreserved_of reserve }
{
    match reserve {
        Some(reserve) => Some(Number::MAX.saturating_sub(reserve)),
        None => None,
    }
}

impl Limits {
    /// No limits.
    pub const NONE: Limits = Limits {
        most_entries: None,
        most_parts: None,
        reserve: None,
        memory: None,
        rate: None,
        per_firm: None,
        held: None,
    };

    /// Whether entries and parts have to be counted: without a limit on them no call is in excess.
    pub fn counts_entries(&self) -> bool
        ensures value { result ≡ bounds_entries self.now }
        ensures none { result ≡ false
            → (is_house : Bool) (mine all : SizeData) (parts : ℕ)
            → excess_of self.now is_house mine all parts ≡ None }
    {
        let of_firms = self.most_entries.is_some() || self.most_parts.is_some();
        of_firms || self.reserve.is_some() || self.memory.is_some()
    }

    /// Why a call isn't made, if it isn't: whether it is the house's, what the firm has, what the
    /// book has, and how many parts the call has. The house's is made as long as there is memory
    /// for the book.
    pub fn excess_of_call(
        &self,
        is_house: bool,
        mine: Size,
        all: Size,
        parts: u64,
    ) -> Option<Ending>
        ensures { result ≡ excess_of self.now is_house mine all parts }
    {
        let memory = all.with_call(parts).memory();
        if is_house {
            if passes(in_units(self.memory, MEGABYTE), memory) {
                return Some(Ending::NoMemory);
            }
            return None;
        }
        if reaches_limit(self.most_entries, mine.entries) {
            return Some(Ending::Entries);
        }
        if passes(widened(self.most_parts), mine.with_call(parts).parts) {
            return Some(Ending::Parts);
        }
        if reaches_limit(unreserved(self.reserve), all.entries) {
            return Some(Ending::Reserve);
        }
        if passes(in_units(self.memory, NINE_TENTHS), memory) {
            return Some(Ending::Memory);
        }
        None
    }

    /// Whether more waits for a firm than may, where this many bytes do. For the house any may.
    pub fn holds_too_much(&self, is_house: bool, bytes: u64) -> bool
        ensures { result ≡ holds_too_much_of self.now is_house bytes }
    {
        !is_house && passes(in_units(self.held, MEGABYTE), bytes)
    }

    /// Whether a firm that has so many connections may have one more. The house may.
    pub fn has_room(&self, is_house: bool, count: u64) -> bool
        ensures { result ≡ has_room_of self.now is_house count }
    {
        is_house || !reaches_limit(self.per_firm, count)
    }

    /// The rate of a firm, if it has one. The house has none.
    pub fn rate_of(&self, is_house: bool) -> Option<u32>
        ensures { result ≡ rate_of self.now is_house }
    {
        if !is_house { self.rate } else { None }
    }
}

/// Whether a firm has said nothing for too long, that was heard last in the one second, in the
/// other: for more than three hours.
pub fn is_silent(heard: u64, now: u64) -> bool
    ensures { result ≡ is_silent_of heard now }
{
    now.saturating_sub(heard) > MOST_SILENCE
}
