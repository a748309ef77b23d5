//! Why a connection is closed beside its session.

ghost use Rattle.std.specs.Prelude.{◌≡◌, ◌≤◌, length};
ghost use Rattle.gu_limits.specs.Admission.{text_of, most_text};

/// Why a connection of a firm is closed beside its session.
#[derive(Clone, Copy, Debug, PartialEq, Eq)]
pub enum Ending {
    /// The firm has as many entries as it may have.
    Entries,
    /// The firm has as many parts of Splits as it may have.
    Parts,
    /// What the book still takes is the house's.
    Reserve,
    /// What is left of the memory for the book is the house's, or the next entry couldn't be kept.
    Memory,
    /// The book has all of the memory that is for it.
    NoMemory,
    /// Too much waits for the firm.
    Held,
    /// The firm has as many connections as it may have.
    Connections,
    /// The firm has said nothing for too long.
    Silence,
    /// The server stops.
    Stops,
    /// An operator lets the firm in no more.
    Refused,
    /// An operator has put the firm out.
    PutOut,
}

impl Ending {
    /// Those of a limit.
    pub const OF_LIMITS: [Ending; 8] = [
        Ending::Entries,
        Ending::Parts,
        Ending::Reserve,
        Ending::Memory,
        Ending::NoMemory,
        Ending::Held,
        Ending::Connections,
        Ending::Silence,
    ];

    /// What the Logout says: Text (58), at most 64 bytes of printable ASCII.
    pub fn text(self) -> &'static str
        ensures value { result.now ≡ text_of self }
        ensures short { length result.now ≤ most_text }
    {
        match self {
            Ending::Entries => "too many entries",
            Ending::Parts => "too many parts",
            Ending::Reserve => "entries left are the house's",
            Ending::Memory => "memory left is the house's",
            Ending::NoMemory => "no memory left",
            Ending::Held => "too much waits",
            Ending::Connections => "too many connections",
            Ending::Silence => "no heartbeat",
            Ending::Stops => "server stops",
            Ending::Refused => "refused by an operator",
            Ending::PutOut => "put out by an operator",
        }
    }
}
