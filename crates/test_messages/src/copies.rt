//! Copies of commands, and parts that keep their vector.

use crate::names::show_each;
use gu_base::{AccountId, Command, FirmId, Memory, NodeName, Part, Parts, ReportPart, ReportParts};
use std::alloc::Global;

/// The lots and the accounts of the parts of a split.
const PARTS: &[(u64, &[u8])] = &[(60, b"A1"), (40, b"A2")];

/// The split of a node into 60 lots for A1 and 40 for A2.
fn split_of(alloc: Global, node: NodeName, firm: FirmId) -> Result<Command, Memory> {
    let mut items = Vec::new(alloc);
    for (lots, account) in PARTS {
        items.push(Part {
            lots: *lots,
            firm,
            account: AccountId::new(account),
        })?;
    }
    Ok(Command::Split {
        node,
        parts: Parts::from_vec(items),
    })
}

/// Whether a copy of a command is the command.
fn is_copied(alloc: Global, command: &Command) -> bool {
    match command.copy(alloc) {
        Ok(copy) => command.is_same(&copy),
        Err(_) => false,
    }
}

/// Writes whether a split is its copy, and whether it is a refusal.
fn tell_split(rt: &impl Print, alloc: Global, split: &Command, node: NodeName) -> bool {
    let copied = is_copied(alloc, split);
    let refusal = split.is_same(&Command::Refuse { node });
    show_each(
        rt,
        &[
            ("a copy of a split is the split: ", copied),
            ("\na split is a refusal: ", refusal),
        ],
    )
}

/// Writes whether a copy of a split is the split.
fn tell_copy(rt: &impl Print, alloc: Global, node: NodeName, firm: FirmId) -> bool {
    match split_of(alloc, node, firm) {
        Ok(split) => tell_split(rt, alloc, &split, node),
        Err(_) => false,
    }
}

/// The command that makes these terms.
fn agree(giver: FirmId, taker: FirmId, rate: u64, limit: u64) -> Command {
    Command::Agree {
        giver,
        taker,
        rate,
        limit,
    }
}

/// Whether a command is this agreement.
fn is_agreement(command: &Command, giver: FirmId, taker: FirmId, rate: u64, limit: u64) -> bool {
    command.is_same(&agree(giver, taker, rate, limit))
}

/// Whether a command is this raise.
fn is_raise(command: &Command, giver: FirmId, lots: u64) -> bool {
    command.is_same(&Command::Raise { giver, lots })
}

/// Writes which agreements and raises an agreement and a raise are equal to.
fn tell_equal(
    rt: &impl Print,
    alloc: Global,
    made: &Command,
    raise: &Command,
    giver: FirmId,
    taker: FirmId,
) -> bool {
    show_each(
        rt,
        &[
            (
                "a copy of an agreement is the agreement: ",
                is_copied(alloc, made),
            ),
            (", and of a raise the raise: ", is_copied(alloc, raise)),
            (
                "\nequal with giver and taker turned round: ",
                is_agreement(made, taker, giver, 125, 500),
            ),
            (
                ", another rate: ",
                is_agreement(made, giver, taker, 124, 500),
            ),
            (
                ", another limit: ",
                is_agreement(made, giver, taker, 125, 501),
            ),
            (
                "\nequal with another giver of a raise: ",
                is_raise(raise, taker, 100),
            ),
            (", other lots: ", is_raise(raise, giver, 101)),
            ("; a raise is an agreement: ", raise.is_same(made)),
        ],
    )
}

/// The same, of an agreement and a raise of these firms.
fn tell_terms(rt: &impl Print, alloc: Global, giver: FirmId, taker: FirmId) -> bool {
    let made = agree(giver, taker, 125, 500);
    let raise = Command::Raise { giver, lots: 100 };
    tell_equal(rt, alloc, &made, &raise, giver, taker)
}

/// A part of a report.
fn report_parts(alloc: Global, name: NodeName, firm: FirmId) -> Result<ReportParts, Memory> {
    let mut items = Vec::new(alloc);
    items.push(ReportPart {
        name,
        lots: 60,
        firm,
        account: None,
    })?;
    Ok(ReportParts::from_vec(items))
}

/// Writes how many parts a report shows, and how many it gives back.
fn tell_parts(rt: &impl Print, alloc: Global, name: NodeName, firm: FirmId) -> bool {
    match report_parts(alloc, name, firm) {
        Ok(parts) => {
            let shown = parts.as_slice().len();
            let given = parts.into_vec().len();
            println!(rt; "parts of a report: {shown} shown, {given} given back").is_ok()
        }
        Err(_) => false,
    }
}

/// Writes whether copies are what was copied. Whether all went well.
pub(crate) fn tell(rt: &impl Print, alloc: Global) -> bool {
    match (
        NodeName::new(1, 0),
        FirmId::new(b"AAA"),
        FirmId::new(b"BBB"),
    ) {
        (Some(node), Some(firm), Some(other)) => {
            tell_copy(rt, alloc, node, firm)
                && tell_parts(rt, alloc, node, firm)
                && tell_terms(rt, alloc, firm, other)
        }
        _ => false,
    }
}
