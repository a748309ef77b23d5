//! A firm beside others: among some of them, or in the parts of a split.
ghost use Rattle.std.specs.Prelude.{◌≡◌};
ghost use Rattle.gu_base.specs.Answers.{gives_up};
ghost use Rattle.gu_base.specs.Consents.{is_among};

use crate::command::Part;
use crate::names::FirmId;

impl FirmId {
    /// Whether the firm is one of these.
    pub fn is_among(&self, firms: &[FirmId]) -> bool
        ensures { result ≡ is_among self.now firms.now }
    {
        firms.iter().any(|f| *self == *f)
    }

    /// Whether some part of a split by this firm goes to another.
    pub fn gives_up(&self, parts: &[Part]) -> bool
        ensures { result ≡ gives_up self.now parts.now }
    {
        parts.iter().any(|p| p.firm != *self)
    }
}
