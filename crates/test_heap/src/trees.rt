//! The trees of the example, and their splits.

use gu_base::{AccountId, FirmId, NodeName, Number, Part, Place};
use gu_tree::{Row, Tree};
use std::alloc::{Allocator, Global};
use test_splits::{Outcome, split};

/// The accounts of the example: A1 of AAA, and B1 of BBB.
#[derive(Clone, Copy)]
pub(crate) struct Accounts {
    pub(crate) own: Place,
    pub(crate) other: Place,
}

/// The account of this name of the firm.
fn place(firm: &[u8], account: &[u8]) -> Option<Place> {
    Some(Place {
        firm: FirmId::new(firm)?,
        account: AccountId::new(account)?,
    })
}

impl Accounts {
    /// `AAA/A1` and `BBB/B1`.
    pub(crate) fn new() -> Option<Accounts> {
        Some(Accounts {
            own: place(b"AAA", b"A1")?,
            other: place(b"BBB", b"B1")?,
        })
    }

    /// A part of these lots for AAA.
    fn part(&self, lots: u64) -> Part {
        Part {
            lots,
            firm: self.own.firm,
            account: Some(self.own.account),
        }
    }

    /// A part of 60 lots for AAA, and one of 40 that is given up to BBB.
    pub(crate) fn give_up_parts(&self) -> [Part; 2] {
        let given = Part {
            lots: 40,
            firm: self.other.firm,
            account: None,
        };
        [self.part(60), given]
    }
}

/// The node of the trade, entry 1.
pub(crate) fn root() -> NodeName {
    NodeName::in_entry(Number::at_place(0), 0)
}

/// The first part of the Split of the trade, entry 2.
pub(crate) fn first_part() -> NodeName {
    NodeName::in_entry(Number::at_place(1), 1)
}

/// The second part, which may be given up.
pub(crate) fn given_part() -> NodeName {
    NodeName::in_entry(Number::at_place(1), 2)
}

/// The trade 1 of 100 lots into AAA/A1.
pub(crate) fn trade<A: Allocator + Clone>(alloc: A, accounts: &Accounts) -> Tree<A> {
    Tree::new(alloc, Number::at_place(0), accounts.own, 100)
}

/// Splits the trade into parts of 60 and 40 lots.
pub(crate) fn split_in_two<A: Allocator + Clone>(
    tree: &mut Tree<A>,
    accounts: &Accounts,
) -> Outcome {
    let parts = [accounts.part(60), accounts.part(40)];
    split(tree, root(), Number::at_place(1), &parts)
}

/// Splits the trade into a part that AAA keeps and one that it gives up.
pub(crate) fn give_up<A: Allocator + Clone>(tree: &mut Tree<A>, accounts: &Accounts) -> Outcome {
    split(tree, root(), Number::at_place(1), &accounts.give_up_parts())
}

/// Splits the trade into 100 parts of one lot.
pub(crate) fn split_in_hundred<A: Allocator + Clone>(
    tree: &mut Tree<A>,
    accounts: &Accounts,
) -> Outcome {
    let parts = [accounts.part(1); 100];
    split(tree, root(), Number::at_place(1), &parts)
}

/// Splits the part of 60 lots into five.
pub(crate) fn split_in_five<A: Allocator + Clone>(
    tree: &mut Tree<A>,
    accounts: &Accounts,
) -> Outcome {
    let parts = [accounts.part(12); 5];
    split(tree, first_part(), Number::at_place(2), &parts)
}

/// Whether the tree has these rows.
pub(crate) fn has_rows<A: Allocator + Clone>(
    alloc: Global,
    tree: &Tree<A>,
    wanted: &[Row],
) -> bool {
    match tree.rows(alloc) {
        Ok(rows) => rows.as_slice() == wanted,
        Err(_) => false,
    }
}
