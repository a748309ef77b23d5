//! From where a firm that has logged on is sent its reports: the decision. Nothing here reads a
//! frame or asks the book.

ghost use Rattle.std.specs.Prelude.{◌≡◌, ◌≤◌, Option, None, option_map, length};
ghost use Rattle.gu_codec.specs.Answer.{pairs};
ghost use Rattle.gu_connection.specs.Beginning.{is_named as names, number_of as number_meant};
ghost use Rattle.gu_connection.specs.Beginning.{asked as asked_of, asked_by as asks_of, within};
ghost use Rattle.gu_connection.specs.Beginning.{text_of};
ghost use Rattle.gu_limits.specs.Admission.{most_text};
ghost use Rattle.gu_message.specs.Finding.{value_of as first_of};

use gu_codec::Fields;
use gu_command::NamedBook;
use gu_message::entry;

/// LastReport: AllocReportID (755) of the last report that a firm has, or 0. This tag is the
/// profile's own, and so is the next.
const LAST_REPORT: u32 = 5005;

/// BookName: the name of the book that the firm has it of.
const BOOK_NAME: u32 = 5006;

/// What a firm says that has no report yet.
const NONE_YET: &[u8] = b"0";

/// Why a firm's reports have nowhere to begin.
#[derive(Clone, Copy, Debug, PartialEq, Eq)]
pub enum NoBeginning {
    /// The firm names a book, and the server's has another name or none.
    AnotherBook,
    /// It says the last report that it has, and not of which book.
    NoBook,
    /// What it says there is no number of a report.
    NoNumber,
    /// The book has no such entry yet.
    PastLast,
    /// It names no book, and has to.
    Unnamed,
}

impl NoBeginning {
    /// What the Logout says: Text (58), at most 64 bytes of printable ASCII.
    pub fn text(self) -> &'static str
        ensures value { result.now ≡ text_of self }
        ensures short { length result.now ≤ most_text }
    {
        match self {
            NoBeginning::AnotherBook => "another book",
            NoBeginning::NoBook => "5005 without 5006",
            NoBeginning::NoNumber => "5005 is no number of 0 to 1000000",
            NoBeginning::PastLast => "5005 is past the last entry",
            NoBeginning::Unnamed => "5006 has to name the book",
        }
    }
}

/// From where a firm's reports begin.
#[derive(Clone, Copy, Debug, PartialEq, Eq)]
pub enum Beginning {
    /// Above the entry of this number: with the first one above 0.
    Above(u32),
    /// Nowhere: the connection is to be closed.
    Nowhere(NoBeginning),
}

/// The value of the first field with this tag.
fn value_of<'a>(fields: Fields<'a>, tag: u32) -> Option<&'a [u8]>
    ensures { option_map (λ v. v.now) result ≡ first_of tag (pairs fields.entry) }
{
    for (it, value) in fields {
        if it == tag {
            return Some(value);
        }
    }
    None
}

/// Whether the server's book has this name.
fn is_named(book: &NamedBook, name: &[u8]) -> bool
    ensures { result ≡ names book.now name.now }
{
    match &book.name {
        Some(own) => own.as_bytes() == name,
        None => false,
    }
}

/// The number of a report, or 0.
fn number_of(word: &[u8]) -> Option<u32>
    ensures { result ≡ number_meant word.now }
{
    if word == NONE_YET {
        return Some(0);
    }
    match entry(word) {
        Some(number) => Some(number.get()),
        None => None,
    }
}

/// What a firm asks for that says this of the book and of its last report, whatever entries there
/// are.
pub fn asked(book: &NamedBook, name: Option<&[u8]>, last: Option<&[u8]>) -> Beginning
    ensures { result ≡ asked_of book.now (option_map (λ w. w.now) name.entry)
        (option_map (λ w. w.now) last.entry) }
{
    match name {
        Some(name) => {
            if !is_named(book, name) {
                return Beginning::Nowhere(NoBeginning::AnotherBook);
            }
            match last {
                None => Beginning::Above(0),
                Some(last) => match number_of(last) {
                    Some(number) => Beginning::Above(number),
                    None => Beginning::Nowhere(NoBeginning::NoNumber),
                },
            }
        }
        None => {
            if last.is_some() {
                Beginning::Nowhere(NoBeginning::NoBook)
            } else if book.is_asked {
                Beginning::Nowhere(NoBeginning::Unnamed)
            } else {
                Beginning::Above(0)
            }
        }
    }
}

/// What a Logon asks for. Where nothing is read of books, it asks for all.
pub(crate) fn asked_by(book: Option<&NamedBook>, logon: Fields<'_>) -> Beginning
    ensures { result ≡ asks_of (option_map (λ b. b.now) book.entry) (pairs logon.entry) }
{
    match book {
        Some(book) => asked(
            book,
            value_of(logon, BOOK_NAME),
            value_of(logon, LAST_REPORT),
        ),
        None => Beginning::Above(0),
    }
}

impl Beginning {
    /// What is asked for, of a book with so many entries: none may be passed over that is still to
    /// come.
    pub fn within(self, entries: u32) -> Beginning
        ensures { result ≡ within entries self }
    {
        match self {
            Beginning::Above(number) => {
                if number <= entries {
                    Beginning::Above(number)
                } else {
                    Beginning::Nowhere(NoBeginning::PastLast)
                }
            }
            Beginning::Nowhere(why) => Beginning::Nowhere(why),
        }
    }
}
