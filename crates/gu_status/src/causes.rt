//! Why no Logon was accepted on a connection.

ghost use Rattle.std.specs.Prelude.{◌≡◌};
ghost use Rattle.gu_status.specs.Causes.{cause_word};

/// Why no Logon was accepted on a connection that has ended.
#[derive(Clone, Copy, Debug, PartialEq, Eq)]
pub enum Cause {
    /// Nothing came.
    NoMessage,
    /// What came can't be FIX.
    NoFrame,
    /// The first frame is garbled.
    Garbled,
    /// The first frame didn't come whole.
    Partial,
    /// The first message is no Logon.
    NoLogon,
    /// SenderCompID (49) is no firm of the house file.
    NoFirm,
    /// TargetCompID (56) isn't the house.
    Target,
    /// MsgSeqNum (34) isn't 1.
    Number,
    /// EncryptMethod (98) isn't 0.
    Encryption,
    /// DefaultApplVerID (1137) isn't 9.
    Version,
    /// Something else is wrong with the Logon.
    Logon,
    /// LastReportNumber (5005) or BookName (5006) isn't one of this book.
    Book,
    /// A Logout has said why.
    LoggedOut,
}

/// How many causes there are.
pub const CAUSES: usize = 13;

impl Cause {
    /// All of them.
    pub const ALL: [Cause; CAUSES] = [
        Cause::NoMessage,
        Cause::NoFrame,
        Cause::Garbled,
        Cause::Partial,
        Cause::NoLogon,
        Cause::NoFirm,
        Cause::Target,
        Cause::Number,
        Cause::Encryption,
        Cause::Version,
        Cause::Logon,
        Cause::Book,
        Cause::LoggedOut,
    ];

    /// The word that stands for it in the figures.
    pub fn word(self) -> &'static str
        ensures { result.now ≡ cause_word self }
    {
        match self {
            Cause::NoMessage => "no_message",
            Cause::NoFrame => "no_frame",
            Cause::Garbled => "garbled",
            Cause::Partial => "no_whole_frame",
            Cause::NoLogon => "no_logon",
            Cause::NoFirm => "no_firm",
            Cause::Target => "target",
            Cause::Number => "number",
            Cause::Encryption => "encryption",
            Cause::Version => "version",
            Cause::Logon => "logon",
            Cause::Book => "book",
            Cause::LoggedOut => "logged_out",
        }
    }
}
