//! The events, and the keys of what is said of them.

ghost use Rattle.std.specs.Prelude.{◌≡◌};
ghost use Rattle.gu_log.specs.Words.{event_word, key_word};

/// What an operator is told of.
#[derive(Clone, Copy, Debug, PartialEq, Eq)]
pub enum Event {
    /// The program has read its command line and the house file.
    Started,
    /// The journal is being read.
    Recovering,
    /// The journal was read.
    Recovered,
    /// Connections are taken.
    Listening,
    /// A firm has logged on.
    LoggedOn,
    /// A connection ended before a Logon was accepted on it.
    LogonRefused,
    /// A connection on which a firm had logged on has ended.
    Ended,
    /// A firm's call was answered.
    Called,
    /// A firm's message was answered by a Reject.
    Rejected,
    /// Messages of a firm have lacked for long.
    Gap,
    /// A group was long on its way to the disk.
    SlowSync,
    /// The book is nearly full.
    BookFills,
    /// What one firm may enter is nearly used up.
    ShareFills,
    /// A limit turned something away.
    AtLimit,
    /// Lines of this log were lost: nobody read them in time, or they couldn't be written.
    LinesLost,
    /// More events of a kind came in a second than have lines.
    Suppressed,
    /// A part of the server stands still.
    Stuck,
    /// The wall clock has been set.
    ClockStepped,
    /// Others may read the journal.
    Readable,
    /// An operator has said: that the server is to stop, that a firm's connections are to end, that
    /// it isn't to be let in, and that it is again.
    Drains,
    Disconnects,
    Refuses,
    Admits,
    /// The server ends.
    Stopped,
}

impl Event {
    /// All of them.
    pub const ALL: [Event; 24] = [
        Event::Started,
        Event::Recovering,
        Event::Recovered,
        Event::Listening,
        Event::LoggedOn,
        Event::LogonRefused,
        Event::Ended,
        Event::Called,
        Event::Rejected,
        Event::Gap,
        Event::SlowSync,
        Event::BookFills,
        Event::ShareFills,
        Event::AtLimit,
        Event::LinesLost,
        Event::Suppressed,
        Event::Stuck,
        Event::ClockStepped,
        Event::Readable,
        Event::Drains,
        Event::Disconnects,
        Event::Refuses,
        Event::Admits,
        Event::Stopped,
    ];

    /// The word that stands for it.
    pub fn word(self) -> &'static str
        ensures { result.now ≡ event_word self }
    {
        match self {
            Event::Started => "started",
            Event::Recovering => "recovering",
            Event::Recovered => "recovered",
            Event::Listening => "listening",
            Event::LoggedOn => "logged_on",
            Event::LogonRefused => "logon_refused",
            Event::Ended => "ended",
            Event::Called => "called",
            Event::Rejected => "rejected",
            Event::Gap => "gap",
            Event::SlowSync => "slow_sync",
            Event::BookFills => "book_fills",
            Event::ShareFills => "share_fills",
            Event::AtLimit => "at_limit",
            Event::LinesLost => "lines_lost",
            Event::Suppressed => "suppressed",
            Event::Stuck => "stuck",
            Event::ClockStepped => "clock_stepped",
            Event::Readable => "readable",
            Event::Drains => "drains",
            Event::Disconnects => "disconnects",
            Event::Refuses => "refuses",
            Event::Admits => "admits",
            Event::Stopped => "stopped",
        }
    }
}

/// What a value says.
#[derive(Clone, Copy, Debug, PartialEq, Eq)]
pub enum Key {
    /// The version of the program, and git's commit.
    Version,
    Commit,
    /// The path of the house file, and the SHA-256 of its bytes.
    House,
    HouseDigest,
    /// The path of the journal, and the SHA-512 of its bytes that count.
    Journal,
    JournalDigest,
    /// The port that is listened on.
    Port,
    /// How many workers serve.
    Workers,
    /// How many entries the book has, or a group.
    Entries,
    /// How many there may be at most.
    Most,
    /// How much of that is used.
    Percent,
    /// The options by the same words.
    MostEntries,
    MostParts,
    Reserve,
    Memory,
    Rate,
    PerFirm,
    Held,
    Replicate,
    LogCalls,
    Book,
    AskBook,
    /// Where figures and pages are told: a port, or a socket; and where else.
    StatusAt,
    MoreStatusAt,
    /// How many bytes were read, and were sent.
    Bytes,
    BytesIn,
    BytesOut,
    /// How many messages the peer didn't take.
    AnswersLeft,
    /// How long it took.
    Seconds,
    Milliseconds,
    /// The entry above which a firm's reports begin.
    Above,
    /// The number of a connection: they are counted from 1 on.
    Connection,
    /// How many connections.
    Connections,
    /// The address of a peer.
    Peer,
    /// A firm of the house file.
    Firm,
    /// What a peer said that it is.
    Said,
    /// The id of a call.
    Id,
    /// What a call was answered.
    Answer,
    /// How many calls there were, how many were accepted, were a call made before and were refused,
    /// and of these how many for each reason.
    Calls,
    Accepted,
    Repeated,
    Refused,
    RefusedBy,
    /// How many Rejects were sent, and of these how many for each reason.
    Rejects,
    RejectsBy,
    /// How many frames were garbled, and messages dropped for a gap, or sent again.
    Garbled,
    Dropped,
    Resent,
    /// The type of a rejected message, and the tag and the reason of its Reject.
    Type,
    Tag,
    Reason,
    /// The number of the first message that lacks.
    Expected,
    /// Why it is so.
    Why,
    /// Which part of the server.
    Part,
    /// Of which events, and how many lines.
    Of,
    Lines,
    /// By how many seconds.
    By,
    /// The status that the program ends with.
    Status,
}

impl Key {
    /// The word that stands for it.
    pub fn word(self) -> &'static str
        ensures { result.now ≡ key_word self }
    {
        match self {
            Key::Version => "version",
            Key::Commit => "commit",
            Key::House => "house",
            Key::HouseDigest => "house_sha256",
            Key::Journal => "journal",
            Key::JournalDigest => "journal_sha512",
            Key::Port => "port",
            Key::Workers => "workers",
            Key::Entries => "entries",
            Key::Most => "most",
            Key::Percent => "percent",
            Key::MostEntries => "most_entries",
            Key::MostParts => "most_parts",
            Key::Reserve => "reserve",
            Key::Memory => "memory",
            Key::Rate => "rate",
            Key::PerFirm => "per_firm",
            Key::Held => "held",
            Key::Replicate => "replicate",
            Key::LogCalls => "log_calls",
            Key::Book => "book",
            Key::AskBook => "ask_book",
            Key::StatusAt => "status_at",
            Key::MoreStatusAt => "more_status_at",
            Key::Bytes => "bytes",
            Key::BytesIn => "bytes_in",
            Key::BytesOut => "bytes_out",
            Key::AnswersLeft => "answers_left",
            Key::Seconds => "seconds",
            Key::Milliseconds => "ms",
            Key::Above => "above",
            Key::Connection => "connection",
            Key::Connections => "connections",
            Key::Peer => "peer",
            Key::Firm => "firm",
            Key::Said => "said",
            Key::Id => "id",
            Key::Answer => "answer",
            Key::Calls => "calls",
            Key::Accepted => "accepted",
            Key::Repeated => "repeated",
            Key::Refused => "refused",
            Key::RefusedBy => "refused_by",
            Key::Rejects => "rejects",
            Key::RejectsBy => "rejects_by",
            Key::Garbled => "garbled",
            Key::Dropped => "dropped",
            Key::Resent => "resent",
            Key::Type => "type",
            Key::Tag => "tag",
            Key::Reason => "reason",
            Key::Expected => "expected",
            Key::Why => "why",
            Key::Part => "part",
            Key::Of => "of",
            Key::Lines => "lines",
            Key::By => "by",
            Key::Status => "status",
        }
    }
}
