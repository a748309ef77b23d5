//! What is wrong with a house file, and where.
use thiserror::Error;

/// What is wrong with a line of a house file (`docs/profile.md`, "What is wrong with a file"). A
/// line's causes are looked for in this order, and its first one counts. Shown, a cause is its
/// words there: `bad line`.
#[derive(Clone, Copy, Debug, PartialEq, Eq, Error)]
pub enum Cause {
    /// The line is line 100,001: a house file has at most 100,000 lines.
    #[error("too many lines")]
    TooManyLines,
    /// Line 1 is neither `GIVEUP 1` nor `GIVEUP 2`, or is missing.
    #[error("bad version")]
    BadVersion,
    /// Line 2 doesn't begin with the word `HOUSE`, or is missing.
    #[error("no house")]
    NoHouse,
    /// The first word isn't one that may stand there, or the number of words is wrong.
    #[error("bad line")]
    BadLine,
    /// A name isn't 1 to 16 bytes, each 0x21 to 0x7E.
    #[error("bad name")]
    BadName,
    /// A rate isn't a number from 0 to 100,000, or a limit isn't one from 0 to 10,000,000,000,000,
    /// written without leading zeros.
    #[error("bad number")]
    BadNumber,
    /// The giver and the taker of an agreement are one firm.
    #[error("own agreement")]
    OwnAgreement,
    /// A firm wasn't named in an earlier line.
    #[error("unknown name")]
    UnknownName,
    /// An earlier line named the same firm, account, instrument, or pair of giver and taker.
    #[error("named twice")]
    NamedTwice,
    /// A growth was refused at this line. No line up to it has another cause.
    #[error("out of memory")]
    Memory,
}

/// The first line of a house file that has a cause, and its first cause. Shown, it is
/// `house line n: ` and the cause's words.
#[derive(Clone, Copy, Debug, PartialEq, Eq, Error)]
#[error("house line {line}: {cause}")]
pub struct HouseError {
    /// The number of the line, from 1 to 100,001.
    pub line: u32,
    /// What is wrong with it.
    pub cause: Cause,
}
