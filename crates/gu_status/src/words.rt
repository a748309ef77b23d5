//! What an operator may say, at a socket alone: who may write there may end the server.

ghost use Rattle.std.specs.Prelude.{◌≡◌, option_map};
ghost use Rattle.gu_status.specs.Words.{firm_in, firm_word, is_named};

use crate::snapshot::FirmEntries;
use gu_base::FirmId;

/// What stands before the name of a firm.
const FIRM: &[u8] = b"firm=";

/// What an operator may say of a firm.
#[derive(Clone, Copy, Debug, PartialEq, Eq)]
pub enum FirmWord {
    /// Its connections are to end.
    Disconnect,
    /// They are to end, and it isn't to be let in.
    Refuse,
    /// It is to be let in again.
    Admit,
}

/// What an operator says.
#[derive(Clone, Copy, Debug, PartialEq, Eq)]
pub enum Word {
    /// The server is to stop, once what was asked is answered.
    Drain,
    /// Something of a firm.
    Of(FirmWord, FirmId),
}

/// The word of a firm that a path is.
pub(crate) fn word_at(path: &str) -> Option<FirmWord>
    ensures { result ≡ firm_word path.now }
{
    if path == "/disconnect" {
        Some(FirmWord::Disconnect)
    } else if path == "/refuse" {
        Some(FirmWord::Refuse)
    } else if path == "/admit" {
        Some(FirmWord::Admit)
    } else {
        None
    }
}

/// Whether a query names this firm.
fn names(query: &str, firm: &FirmId) -> bool
    ensures { result ≡ is_named query.now firm.now }
{
    let query = query.as_bytes();
    if query.len() < FIRM.len() {
        return false;
    }
    let (front, name) = query.split_at(FIRM.len());
    front == FIRM && name == firm.as_bytes()
}

/// The firm that a query names, if it is one of these.
pub(crate) fn firm_named(query: Option<&str>, firms: &[FirmEntries]) -> Option<FirmId>
    ensures { result ≡ firm_in (option_map (λ q. q.now) query.entry) firms.now }
{
    let Some(words) = query else {
        return None;
    };
    for it in firms {
        if names(words, &it.firm) {
            return Some(it.firm);
        }
    }
    None
}
