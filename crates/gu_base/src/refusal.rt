//! Why the book refuses a command: the table of refusals, each with its number and its text.
ghost use Rattle.std.specs.Prelude.{◌≡◌, ◌+◌, ◌≤◌, ◌++◌, length, decimal};
ghost use Rattle.arrayvec.specs.ArrayString.{array_string_len};
ghost use Rattle.gu_base.specs.Limits.{most_entries};
ghost use Rattle.gu_base.specs.Texts.{number_of, words_of, tail_of, refusal_text};

use crate::names::FirmId;
use crate::numbers::Number;
use arrayvec::ArrayString;
use itoa::Buffer;
use thiserror::Error;

/// Why a command is refused. Its message has the words alone; `Refusal::text` puts the number
/// before them.
#[derive(Clone, Copy, Debug, PartialEq, Eq, Error)]
pub enum Refusal {
    /// The calling firm, or a firm that the command names, is not in the house table.
    #[error("unknown firm")]
    UnknownFirm,
    /// The firm has no such account; an own part without an account has none.
    #[error("unknown account")]
    UnknownAccount,
    /// The instrument is not in the house table.
    #[error("unknown instrument")]
    UnknownInstrument,
    /// No live change made the node.
    #[error("unknown node")]
    UnknownNode,
    /// The caller is not the one who may ask: the owner, the taker or the giver of the node.
    #[error("not yours")]
    NotYours,
    /// A live Split, which it names, has split the node.
    #[error("already split by {0}")]
    AlreadySplit(Number),
    /// The node is offered, and not yet decided.
    #[error("still offered")]
    StillOffered,
    /// The node is not offered.
    #[error("not offered")]
    NotOffered,
    /// Lots are not 1 to 10,000,000.
    #[error("lots out of range")]
    BadLots,
    /// The parts do not sum to the lots of the node.
    #[error("parts do not sum")]
    SumDiffers,
    /// A split has not 1 to 100 parts.
    #[error("part count out of range")]
    BadPartCount,
    /// Giver and taker have no agreement.
    #[error("no agreement")]
    NoAgreement,
    /// The claim would pass the limit of the agreement.
    #[error("limit exceeded")]
    LimitExceeded,
    /// The node has depth 64.
    #[error("too deep")]
    TooDeep,
    /// The history has no such entry.
    #[error("unknown entry")]
    UnknownEntry,
    /// The entry is an Initiate, Decline or Reverse.
    #[error("not a change")]
    NotAChange,
    /// The Reverse that it names has reversed the entry.
    #[error("already reversed by {0}")]
    AlreadyReversed(Number),
    /// The caller is no party of the change.
    #[error("not a party")]
    NotAParty,
    /// The first party that has not consented.
    #[error("needs consent of {0}")]
    NeedsConsent(FirmId),
    /// The first live change that would be refused without the entry.
    #[error("entry {0} stands on it")]
    StandsOn(Number),
    /// The caller has used the id for the entry that it names.
    #[error("id used by {0}")]
    DuplicateId(Number),
    /// The history has 1,000,000 entries.
    #[error("book full")]
    BookFull,
    /// The clearing house alone may ask.
    #[error("house only")]
    HouseOnly,
    /// The caller has consented already.
    #[error("already consented")]
    AlreadyConsented,
    /// Nobody's consent stands.
    #[error("nothing pending")]
    NothingPending,
    /// Giver and taker are one firm.
    #[error("own agreement")]
    OwnAgreement,
    /// A rate is above 100,000, a limit is or would pass 10,000,000,000,000, or a raise is of no
    /// lots.
    #[error("terms out of range")]
    BadTerms,
    /// Giver and taker have terms already.
    #[error("agreement exists")]
    AgreementExists,
}

/// Appends a number's digits.
fn push_number(text: &mut ArrayString<48>, n: u32)
    requires small { n ≤ most_entries }
    requires room { array_string_len text.old ≤ 41 }
    ensures bytes { text.new.bytes ≡ text.old.bytes ++ decimal n }
    ensures len { array_string_len text.new ≤ array_string_len text.old + 7 }
{
    let mut digits = Buffer::new();
    text.push_str(digits.format(n));
}

impl Refusal {
    /// Its number in the table of refusals, 1 to 28.
    pub fn number(&self) -> u8
        ensures value { result ≡ number_of self.now }
        ensures small { result ≤ 28 }
    {
        match self {
            Refusal::UnknownFirm => 1,
            Refusal::UnknownAccount => 2,
            Refusal::UnknownInstrument => 3,
            Refusal::UnknownNode => 4,
            Refusal::NotYours => 5,
            Refusal::AlreadySplit(_) => 6,
            Refusal::StillOffered => 7,
            Refusal::NotOffered => 8,
            Refusal::BadLots => 9,
            Refusal::SumDiffers => 10,
            Refusal::BadPartCount => 11,
            Refusal::NoAgreement => 12,
            Refusal::LimitExceeded => 13,
            Refusal::TooDeep => 14,
            Refusal::UnknownEntry => 15,
            Refusal::NotAChange => 16,
            Refusal::AlreadyReversed(_) => 17,
            Refusal::NotAParty => 18,
            Refusal::NeedsConsent(_) => 19,
            Refusal::StandsOn(_) => 20,
            Refusal::DuplicateId(_) => 21,
            Refusal::BookFull => 22,
            Refusal::HouseOnly => 23,
            Refusal::AlreadyConsented => 24,
            Refusal::NothingPending => 25,
            Refusal::OwnAgreement => 26,
            Refusal::BadTerms => 27,
            Refusal::AgreementExists => 28,
        }
    }

    /// Its number, a space and the words, up to the number or the firm that it names.
    #[tactic(auto, using(crate::proofs::RefusalWords::words_are))]
    #[inline]
    pub fn words(&self) -> &'static str
        ensures value { result.now ≡ words_of self.now }
        ensures few { length result.now ≤ 26 }
    {
        match self {
            Refusal::UnknownFirm => "1 unknown firm",
            Refusal::UnknownAccount => "2 unknown account",
            Refusal::UnknownInstrument => "3 unknown instrument",
            Refusal::UnknownNode => "4 unknown node",
            Refusal::NotYours => "5 not yours",
            Refusal::AlreadySplit(_) => "6 already split by ",
            Refusal::StillOffered => "7 still offered",
            Refusal::NotOffered => "8 not offered",
            Refusal::BadLots => "9 lots out of range",
            Refusal::SumDiffers => "10 parts do not sum",
            Refusal::BadPartCount => "11 part count out of range",
            Refusal::NoAgreement => "12 no agreement",
            Refusal::LimitExceeded => "13 limit exceeded",
            Refusal::TooDeep => "14 too deep",
            Refusal::UnknownEntry => "15 unknown entry",
            Refusal::NotAChange => "16 not a change",
            Refusal::AlreadyReversed(_) => "17 already reversed by ",
            Refusal::NotAParty => "18 not a party",
            Refusal::NeedsConsent(_) => "19 needs consent of ",
            Refusal::StandsOn(_) => "20 entry ",
            Refusal::DuplicateId(_) => "21 id used by ",
            Refusal::BookFull => "22 book full",
            Refusal::HouseOnly => "23 house only",
            Refusal::AlreadyConsented => "24 already consented",
            Refusal::NothingPending => "25 nothing pending",
            Refusal::OwnAgreement => "26 own agreement",
            Refusal::BadTerms => "27 terms out of range",
            Refusal::AgreementExists => "28 agreement exists",
        }
    }

    /// Appends the number or the firm, and what stands behind it.
    fn push_tail(&self, text: &mut ArrayString<48>)
        requires { array_string_len text.old ≤ 27 }
        ensures { text.new.bytes ≡ text.old.bytes ++ tail_of self.now }
    {
        match self {
            Refusal::AlreadySplit(number)
            | Refusal::AlreadyReversed(number)
            | Refusal::DuplicateId(number) => push_number(text, number.get()),
            Refusal::NeedsConsent(firm) => text.push_str(firm.as_str()),
            Refusal::StandsOn(number) => {
                push_number(text, number.get());
                text.push_str(" stands on it");
            }
            _ => {}
        }
    }

    /// The number, a space and the words: what Text 58 of a refusal holds, 48 bytes at most. It
    /// takes no memory.
    pub fn text(&self) -> ArrayString<48>
        ensures { result.bytes ≡ refusal_text self.now }
    {
        let mut text = ArrayString::new();
        text.push_str(self.words());
        self.push_tail(&mut text);
        text
    }
}
