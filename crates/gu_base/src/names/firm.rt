//! The names of firms.
ghost use Rattle.std.specs.Prelude.{◌≡◌, ◌≤◌, length, IsTrue, Some, None, if◌then◌else◌};
ghost use Rattle.gu_base.specs.Limits.{longest_name};
ghost use Rattle.gu_base.specs.Names.{is_firm_text};

use crate::cells::Cells;
use crate::names::{LOWEST_IN_NAME, NAME_LEN};
use std::marker::Model;
use std::{fmt, str};

/// The name of a firm: 1 to 16 bytes, each 0x21 to 0x7E (PartyID 448, SenderCompID 49,
/// NestedPartyID 524).
#[derive(Clone, Copy, Debug, PartialEq, Eq, PartialOrd, Ord, Hash)]
pub struct FirmId {
    text: Cells<NAME_LEN>,
}

impl Model for FirmId {
    ghost use Rattle.std.specs.Prelude.{List, ℕ, IsTrue};
    ghost use Rattle.gu_base.specs.Names.{is_firm_text};

    ghost Value = { List ℕ };

    ghost view = { λ f. f.text };

    ghost invariant = { λ f. IsTrue (is_firm_text f.text) };

    ghost inverse = { λ s. record { text = s } };
}

impl FirmId {
    /// The name of this text, `None` where the text is not a lawful one.
    pub fn new(text: &[u8]) -> Option<FirmId>
        ensures { result ≡ (if is_firm_text text.now then Some text.now else None) }
    {
        match Cells::of_text(text, LOWEST_IN_NAME) {
            Some(text) => Some(FirmId { text }),
            None => None,
        }
    }

    /// Its bytes.
    pub fn as_bytes(&self) -> &[u8]
        ensures value { result.now ≡ self.now }
        ensures lawful { IsTrue (is_firm_text self.now) }
    {
        self.text.as_slice()
    }

    /// Its text, which is ASCII.
    #[tactic(auto, using(crate::proofs::NameText::name_text))]
    pub fn as_str(&self) -> &str
        ensures value { result.now ≡ self.now }
        ensures fits { length self.now ≤ longest_name }
    {
        match str::from_utf8(self.as_bytes()) {
            Ok(text) => text,
            Err(_) => unreachable!(),
        }
    }
}

impl fmt::Display for FirmId {
    ghost output = { λ s. Some s };

    fn fmt<W: fmt::Write>(&self, f: &mut fmt::Formatter<W>) -> fmt::Result {
        fmt::Display::fmt(&self.as_str(), f)
    }
}
