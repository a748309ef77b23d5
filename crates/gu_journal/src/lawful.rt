//! The names and numbers of an entry are lawful: laws of their types. Calling one does nothing.

ghost use Rattle.std.specs.Prelude.{IsTrue};
ghost use Rattle.std.specs.List.{AllByRecursion};
ghost use Rattle.gu_base.specs.Names.{is_firm_text, is_id_text};
ghost use Rattle.gu_base.specs.Numbers.{is_number};
ghost use Rattle.hex.specs.Hex.{IsBytes};
ghost use Rattle.gu_journal.specs.Entries.{IsNode, IsNamedPart, HasLawfulNames};

use gu_base::{AccountId, Command, Entry, FirmId, InstrumentId, NodeName, Number, Part};

/// The numbers of eight bits.
pub(crate) fn are_bytes(bytes: &[u8])
    ensures { IsBytes bytes.now }
{
    let _ = bytes.len();
}

/// The name of a firm.
pub(crate) fn firm_is_lawful(firm: &FirmId)
    ensures { IsTrue (is_firm_text firm.now) }
{
    let _ = firm.as_bytes();
}

/// The name of an account.
fn account_is_lawful(account: &AccountId)
    ensures { IsTrue (is_firm_text account.now) }
{
    let _ = account.as_bytes();
}

/// The name of an instrument.
fn instrument_is_lawful(instrument: &InstrumentId)
    ensures { IsTrue (is_firm_text instrument.now) }
{
    let _ = instrument.as_bytes();
}

/// The number of an entry.
fn number_is_lawful(number: Number)
    ensures { IsTrue (is_number number) }
{
    let _ = number.get();
}

/// The name of a node.
fn node_is_lawful(node: NodeName)
    ensures { IsNode node }
{
    number_is_lawful(node.entry());
    let _ = node.part();
}

/// The names of a part.
fn part_is_lawful(part: &Part)
    ensures { IsNamedPart part.now }
{
    firm_is_lawful(&part.firm);
    if let Some(account) = &part.account {
        account_is_lawful(account);
    }
}

/// Those of each part of a split.
fn parts_are_lawful(parts: &[Part])
    ensures { AllByRecursion IsNamedPart parts.now }
{
    for part in parts {
        part_is_lawful(part);
    }
}

/// The names and numbers of a command.
fn command_is_lawful(command: &Command)
    ensures { HasLawfulNames command.now }
{
    match command {
        Command::Trade {
            firm,
            account,
            instrument,
            ..
        } => {
            firm_is_lawful(firm);
            account_is_lawful(account);
            instrument_is_lawful(instrument);
        }
        Command::Split { node, parts } => {
            node_is_lawful(*node);
            parts_are_lawful(parts.as_slice());
        }
        Command::Claim { node, account } => {
            node_is_lawful(*node);
            account_is_lawful(account);
        }
        Command::Refuse { node } => node_is_lawful(*node),
        Command::Cancel { node } => node_is_lawful(*node),
        Command::Agree { giver, taker, .. } => {
            firm_is_lawful(giver);
            firm_is_lawful(taker);
        }
        Command::Raise { giver, .. } => firm_is_lawful(giver),
        Command::Initiate { entry } => number_is_lawful(*entry),
        Command::Decline { entry } => number_is_lawful(*entry),
        Command::Reverse { entry } => number_is_lawful(*entry),
    }
}

/// Those of an entry.
pub(crate) fn entry_is_lawful(entry: &Entry)
    ensures firm { IsTrue (is_firm_text entry.now.firm) }
    ensures id { IsTrue (is_id_text entry.now.id) }
    ensures command { HasLawfulNames entry.now.command }
{
    firm_is_lawful(&entry.firm);
    let _ = entry.id.as_bytes();
    command_is_lawful(&entry.command);
}
