//! What a house table lacks to extend another.

use gu_base::{Account, FirmId, InstrumentId, Pair};
use std::fmt;

/// What a house table lacks to extend another. Shown, it is one line that an operator can act on.
#[derive(Clone, Copy)]
pub enum Lack {
    /// It is of another clearing house.
    OtherHouse,
    /// The agreement of this number of the opening, counted from 1, is another, or only one of the
    /// two has it.
    OtherOpening(usize),
    /// A firm.
    NoFirm(FirmId),
    /// An account of a firm.
    NoAccount(Account),
    /// An instrument.
    NoInstrument(InstrumentId),
    /// The fixed terms of a giver and a taker.
    OtherTerms(Pair),
    /// Nothing, but a giver and a taker have fixed terms that had none, and both were known.
    NewTerms(Pair),
}

impl fmt::Display for Lack {
    fn fmt<W: fmt::Write>(&self, f: &mut fmt::Formatter<W>) -> fmt::Result {
        match self {
            Lack::OtherHouse => f.write_str("it has another HOUSE"),
            Lack::OtherOpening(number) => write!(f, "its AGREEMENT line {number} is another"),
            Lack::NoFirm(firm) => write!(f, "it lacks FIRM {firm}"),
            Lack::NoAccount(account) => {
                write!(f, "it lacks ACCOUNT {} {}", account.firm, account.name)
            }
            Lack::NoInstrument(instrument) => write!(f, "it lacks INSTRUMENT {instrument}"),
            Lack::OtherTerms(pair) => {
                write!(
                    f,
                    "it lacks AGREEMENT {} {} or has other terms",
                    pair.giver, pair.taker
                )
            }
            Lack::NewTerms(pair) => {
                write!(
                    f,
                    "its AGREEMENT {} {} is new between firms of the old file",
                    pair.giver, pair.taker
                )
            }
        }
    }
}
