//! Which entries a message can say.

ghost use Rattle.std.specs.Prelude.{◌≡◌, true};
ghost use Rattle.std.specs.List.{list_all};
ghost use Rattle.gu_base.specs.Runs.{call_of};
ghost use Rattle.gu_journal.specs.Entries.{is_short, is_sayable_part, is_sayable, IsLawfulCall};

use crate::lawful::entry_is_lawful;
use gu_base::{Command, Entry, FirmId, Part};

/// A number of lots or hundredths has at most 18 digits.
const MOST: u64 = 1_000_000_000_000_000_000;

/// The most parts of a split.
const MOST_PARTS: usize = 100;

/// Whether a quantity is short enough.
fn is_short(quantity: u64) -> bool
    ensures { result ≡ is_short quantity }
{
    quantity < MOST
}

/// Whether a part of a split by this firm has an account where it is the firm's own, and none where
/// it is given.
fn is_sayable_part(by: FirmId, part: &Part) -> bool
    ensures { result ≡ is_sayable_part by part.now }
{
    let is_own = part.firm == by;
    let is_named = part.account.is_some();
    is_own == is_named && is_short(part.lots)
}

/// The same of each part.
fn are_sayable_parts(by: FirmId, parts: &[Part]) -> bool
    ensures { result ≡ list_all (is_sayable_part by) parts.now }
{
    for part in parts {
        if !is_sayable_part(by, part) {
            return false;
        }
    }
    true
}

/// Whether a message can say this command of a firm.
fn is_sayable_command(by: FirmId, command: &Command) -> bool
    ensures { result ≡ is_sayable by command.now }
{
    match command {
        Command::Trade { lots, .. } => is_short(*lots),
        Command::Split { parts, .. } => {
            let parts = parts.as_slice();
            parts.len() <= MOST_PARTS && are_sayable_parts(by, parts)
        }
        Command::Agree { rate, limit, .. } => is_short(*rate) && is_short(*limit),
        Command::Raise { lots, .. } => is_short(*lots),
        Command::Claim { .. } => true,
        Command::Refuse { .. } => true,
        Command::Cancel { .. } => true,
        Command::Initiate { .. } => true,
        Command::Decline { .. } => true,
        Command::Reverse { .. } => true,
    }
}

/// Whether a message can say this entry's call.
///
/// Lots, a rate and a limit have at most 18 digits. A split has at most 100 parts, of which an own
/// one has its account, and a given one has none. What a message means is always such a call.
pub fn is_sayable(entry: &Entry) -> bool
    ensures answer { result ≡ is_sayable entry.now.firm entry.now.command }
    ensures lawful { result ≡ true → IsLawfulCall (call_of entry.now) }
{
    entry_is_lawful(entry);
    is_sayable_command(entry.firm, &entry.command)
}
