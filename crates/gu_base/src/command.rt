//! What a firm can ask of the book: the ten commands.
ghost use Rattle.std.specs.Prelude.{◌≡◌, IfOk, OnErr, IsTrue, ◌↔◌};
ghost use Rattle.gu_base.specs.Nodes.{is_split};
ghost use Rattle.gu_base.specs.SameParts.{same_account};

use crate::memory::Memory;
use crate::names::{AccountId, FirmId, InstrumentId};
use crate::numbers::{NodeName, Number};
use std::alloc::Global;
use std::marker::Model;

/// The side of a trade (Side 54): its lots are long where they were bought, short where they were
/// sold.
#[derive(Clone, Copy, Debug, PartialEq, Eq)]
pub enum Side {
    Buy,
    Sell,
}

/// One part of a split: own where it names the firm that splits, else given up to the firm that it
/// names. The account of a part for another firm is ignored.
#[derive(Clone, Copy)]
pub struct Part {
    /// Its lots (AllocQty 80), as they were asked for: the book refuses what is out of range.
    pub lots: u64,
    /// The firm that gets it (NestedPartyID 524).
    pub firm: FirmId,
    /// The account of an own part (AllocAccount 79).
    pub account: Option<AccountId>,
}

/// The parts of a split, in order. A clause sees the list of them.
#[derive(Drop)]
pub struct Parts {
    items: Vec<Part>,
}

impl Model for Parts {
    ghost use Rattle.std.specs.Prelude.{List};
    ghost use Rattle.gu_base.specs.declared.command.Part.{Part};

    ghost Value = { List Part };

    ghost view = { λ p. p.items.items };
}

impl Parts {
    /// The parts of this vector, whose memory it keeps.
    pub fn from_vec(items: Vec<Part>) -> Parts
        ensures { result ≡ items.items }
    {
        Parts { items }
    }

    /// The vector, which it gives back without taking memory.
    pub fn into_vec(self) -> Vec<Part>
        ensures { result.items ≡ self }
    {
        self.items
    }

    /// The parts, in order.
    pub fn as_slice(&self) -> &[Part]
        ensures { result.now ≡ self.now }
    {
        self.items.as_slice()
    }

    /// Equal parts in memory of their own.
    pub fn copy(&self, alloc: Global) -> Result<Parts, Memory>
        ensures { IfOk result (λ p. p ≡ self.now) }
    {
        Ok(Parts {
            items: Vec::from_slice(alloc, self.as_slice())?,
        })
    }
}

impl PartialEq for Part {
    ghost use Rattle.std.specs.Cmp.{partial_equiv_from_equiv};
    ghost use Rattle.gu_base.specs.SameParts.{same_part};
    ghost use Rattle.gu_base.specs.SamePartsLaws.{equivalence_from, same_part-Decides};

    ghost eq = { same_part };

    ghost laws = { partial_equiv_from_equiv (equivalence_from same_part same_part-Decides) };

    fn eq(&self, other: &Part) -> bool {
        self.lots == other.lots
            && self.firm == other.firm
            && same_account(&self.account, &other.account)
    }
}

impl Eq for Part {
    ghost use Rattle.gu_base.specs.SameParts.{same_part};
    ghost use Rattle.gu_base.specs.SamePartsLaws.{equivalence_from, same_part-Decides};

    ghost laws = { equivalence_from same_part same_part-Decides };
}

impl PartialEq for Parts {
    ghost use Rattle.std.specs.Cmp.{partial_equiv_from_equiv};
    ghost use Rattle.gu_base.specs.SameParts.{same_parts};
    ghost use Rattle.gu_base.specs.SamePartsLaws.{equivalence_from, same_parts-Decides};

    ghost eq = { same_parts };

    ghost laws = { partial_equiv_from_equiv (equivalence_from same_parts same_parts-Decides) };

    fn eq(&self, other: &Parts) -> bool {
        self.as_slice() == other.as_slice()
    }
}

impl Eq for Parts {
    ghost use Rattle.gu_base.specs.SameParts.{same_parts};
    ghost use Rattle.gu_base.specs.SamePartsLaws.{equivalence_from, same_parts-Decides};

    ghost laws = { equivalence_from same_parts same_parts-Decides };
}

/// Whether two accounts, either of which may be missing, are one.
fn same_account(a: &Option<AccountId>, b: &Option<AccountId>) -> bool
    ensures { result ≡ same_account a.now b.now }
{
    match (a, b) {
        (None, None) => true,
        (Some(a), Some(b)) => *a == *b,
        _ => false,
    }
}

/// A command. Trade, Split, Claim, Refuse, Cancel, Agree and Raise are changes; Initiate, Decline
/// and Reverse speak of one.
#[derive(Drop)]
pub enum Command {
    /// A trade of the clearing house for an account of a firm (TradeCaptureReport).
    Trade {
        firm: FirmId,
        account: AccountId,
        instrument: InstrumentId,
        side: Side,
        lots: u64,
    },
    /// The owner splits a node among its accounts and other firms.
    Split {
        node: NodeName,
        parts: Parts,
    },
    /// The taker takes up a part that it is offered, into an account of its own.
    Claim {
        node: NodeName,
        account: AccountId,
    },
    /// The taker refuses a part that it is offered.
    Refuse {
        node: NodeName,
    },
    /// The giver takes an offer back.
    Cancel {
        node: NodeName,
    },
    /// The clearing house makes terms for a giver and a taker.
    Agree {
        giver: FirmId,
        taker: FirmId,
        /// What a claimed lot is to cost the taker, as it was asked for: the book refuses what is
        /// out of range.
        rate: u64,
        /// The lots that may be claimed, as they were asked for.
        limit: u64,
    },
    /// The taker raises the limit of its terms with a giver.
    Raise {
        giver: FirmId,
        /// By how many lots, as it was asked for.
        lots: u64,
    },
    /// A party consents to the reversal of a change.
    Initiate {
        entry: Number,
    },
    /// A party clears all consents to the reversal of a change.
    Decline {
        entry: Number,
    },
    /// A party asks for the reversal of a change.
    Reverse {
        entry: Number,
    },
}

impl PartialEq for Command {
    ghost use Rattle.std.specs.Cmp.{partial_equiv_from_equiv};
    ghost use Rattle.gu_base.specs.Same.{same_command};
    ghost use Rattle.gu_base.specs.SameLaws.{same_command-equivalence};

    ghost eq = { same_command };

    ghost laws = { partial_equiv_from_equiv same_command-equivalence };

    fn eq(&self, other: &Command) -> bool {
        match (self, other) {
            (
                Command::Trade {
                    firm,
                    account,
                    instrument,
                    side,
                    lots,
                },
                Command::Trade {
                    firm: firm_2,
                    account: account_2,
                    instrument: instrument_2,
                    side: side_2,
                    lots: lots_2,
                },
            ) => {
                *firm == *firm_2
                    && *account == *account_2
                    && *instrument == *instrument_2
                    && *side == *side_2
                    && *lots == *lots_2
            }
            (
                Command::Split { node, parts },
                Command::Split {
                    node: node_2,
                    parts: parts_2,
                },
            ) => *node == *node_2 && *parts == *parts_2,
            (
                Command::Claim { node, account },
                Command::Claim {
                    node: node_2,
                    account: account_2,
                },
            ) => *node == *node_2 && *account == *account_2,
            (Command::Refuse { node }, Command::Refuse { node: node_2 }) => *node == *node_2,
            (Command::Cancel { node }, Command::Cancel { node: node_2 }) => *node == *node_2,
            (
                Command::Agree {
                    giver,
                    taker,
                    rate,
                    limit,
                },
                Command::Agree {
                    giver: giver_2,
                    taker: taker_2,
                    rate: rate_2,
                    limit: limit_2,
                },
            ) => {
                *giver == *giver_2 && *taker == *taker_2 && *rate == *rate_2 && *limit == *limit_2
            }
            (
                Command::Raise { giver, lots },
                Command::Raise {
                    giver: giver_2,
                    lots: lots_2,
                },
            ) => *giver == *giver_2 && *lots == *lots_2,
            (Command::Initiate { entry }, Command::Initiate { entry: entry_2 }) => *entry
                == *entry_2,
            (Command::Decline { entry }, Command::Decline { entry: entry_2 }) => *entry == *entry_2,
            (Command::Reverse { entry }, Command::Reverse { entry: entry_2 }) => *entry == *entry_2,
            _ => false,
        }
    }
}

impl Eq for Command {
    ghost use Rattle.gu_base.specs.SameLaws.{same_command-equivalence};

    ghost laws = { same_command-equivalence };
}

impl Command {
    /// Whether two commands are equal as values, which is what `==` says of them.
    pub fn is_same(&self, other: &Command) -> bool
        ensures { IsTrue result ↔ (self.now ≡ other.now) }
    {
        *self == *other
    }

    /// An equal command in memory of its own.
    ///
    /// # Errors
    ///
    /// `Memory` where a growth was refused, for a Split alone: only its parts take memory.
    pub fn copy(&self, alloc: Global) -> Result<Command, Memory>
        ensures equal { IfOk result (λ c. c ≡ self.now) }
        ensures memory { OnErr result (IsTrue (is_split self.now)) }
    {
        Ok(match self {
            Command::Trade {
                firm,
                account,
                instrument,
                side,
                lots,
            } => Command::Trade {
                firm: *firm,
                account: *account,
                instrument: *instrument,
                side: *side,
                lots: *lots,
            },
            Command::Split { node, parts } => Command::Split {
                node: *node,
                parts: parts.copy(alloc)?,
            },
            Command::Claim { node, account } => Command::Claim {
                node: *node,
                account: *account,
            },
            Command::Refuse { node } => Command::Refuse { node: *node },
            Command::Cancel { node } => Command::Cancel { node: *node },
            Command::Agree {
                giver,
                taker,
                rate,
                limit,
            } => Command::Agree {
                giver: *giver,
                taker: *taker,
                rate: *rate,
                limit: *limit,
            },
            Command::Raise { giver, lots } => Command::Raise {
                giver: *giver,
                lots: *lots,
            },
            Command::Initiate { entry } => Command::Initiate { entry: *entry },
            Command::Decline { entry } => Command::Decline { entry: *entry },
            Command::Reverse { entry } => Command::Reverse { entry: *entry },
        })
    }
}
