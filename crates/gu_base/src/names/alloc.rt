//! The ids of commands.
ghost use Rattle.std.specs.Prelude.{◌≡◌, ◌≤◌, length, IsTrue, Some, None, if◌then◌else◌};
ghost use Rattle.gu_base.specs.Limits.{longest_id};
ghost use Rattle.gu_base.specs.Names.{is_id_text};

use crate::cells::Cells;
use crate::names::{ID_LEN, LOWEST_IN_ID};
use std::marker::Model;
use std::{fmt, str};

/// The id that a firm gives to a command: 1 to 32 bytes, each 0x20 to 0x7E (AllocID 70,
/// TradeReportID 571).
#[derive(Clone, Copy, PartialEq, Eq, PartialOrd, Ord, Hash)]
pub struct AllocId {
    text: Cells<ID_LEN>,
}

impl Model for AllocId {
    ghost use Rattle.std.specs.Prelude.{List, ℕ, IsTrue};
    ghost use Rattle.gu_base.specs.Names.{is_id_text};

    ghost Value = { List ℕ };

    ghost view = { λ f. f.text };

    ghost invariant = { λ f. IsTrue (is_id_text f.text) };

    ghost inverse = { λ s. record { text = s } };
}

impl AllocId {
    /// The id of this text, `None` where the text is not a lawful one.
    pub fn new(text: &[u8]) -> Option<AllocId>
        ensures { result ≡ (if is_id_text text.now then Some text.now else None) }
    {
        match Cells::of_text(text, LOWEST_IN_ID) {
            Some(text) => Some(AllocId { text }),
            None => None,
        }
    }

    /// Its bytes.
    pub fn as_bytes(&self) -> &[u8]
        ensures value { result.now ≡ self.now }
        ensures lawful { IsTrue (is_id_text self.now) }
    {
        self.text.as_slice()
    }

    /// Its text, which is ASCII.
    #[tactic(auto, using(crate::proofs::NameText::name_text))]
    pub fn as_str(&self) -> &str
        ensures value { result.now ≡ self.now }
        ensures fits { length self.now ≤ longest_id }
    {
        match str::from_utf8(self.as_bytes()) {
            Ok(text) => text,
            Err(_) => unreachable!(),
        }
    }
}

impl fmt::Display for AllocId {
    ghost output = { λ s. Some s };

    fn fmt<W: fmt::Write>(&self, f: &mut fmt::Formatter<W>) -> fmt::Result {
        fmt::Display::fmt(&self.as_str(), f)
    }
}
