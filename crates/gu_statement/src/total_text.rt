//! The texts of the lines of positions, balances, hops and agreements, and of the control line.
ghost use Rattle.std.specs.Prelude.{◌≡◌, ◌++◌, OnOk};
ghost use Rattle.serde_json.specs.Data.{no_members};
ghost use Rattle.gu_statement.specs.Going.{GoesOn, Says, tokens_of};
ghost use Rattle.gu_statement.specs.LineTexts.{control_sums, control_said};
ghost use Rattle.gu_statement.specs.Text.{line_with, position_said, balance_said, hop_said};
ghost use Rattle.gu_statement.specs.Text.{agreement_said};

use crate::lines::{AgreementLine, BalanceLine, Control, HopLine, PositionLine};
use crate::text::{
    begin, close, count, count_entry, count_fee, count_some, end, name_node, open, say, say_firm,
};
use gu_base::{FirmId, Memory};
use json::Writer;
use std::alloc::Global;

/// The members of a position.
fn say_position(w: &mut Writer, line: &PositionLine) -> Result<(), Memory>
    ensures { OnOk result (GoesOn w.old w.new (tokens_of (position_said line.now))) }
{
    w.begin_object()?;
    say(w, "account", line.at.name.as_str())?;
    say(w, "firm", line.at.firm.as_str())?;
    say(w, "instrument", line.instrument.as_str())?;
    say(w, "kind", "position")?;
    count(w, "long", line.long)?;
    count(w, "short", line.short)?;
    w.end_object()
}

/// Appends the line of a position.
pub(crate) fn push_position(
    alloc: Global,
    out: &mut Vec<u8>,
    line: &PositionLine,
) -> Result<(), Memory>
    ensures { OnOk result (out.new.items ≡ out.old.items ++ line_with (position_said line.now)) }
{
    let mut w = begin(alloc, out);
    say_position(&mut w, line)?;
    end(out, w)
}

/// The members of a firm's balance.
fn say_balance(w: &mut Writer, line: &BalanceLine) -> Result<(), Memory>
    ensures { OnOk result (GoesOn w.old w.new (tokens_of (balance_said line.now))) }
{
    w.begin_object()?;
    say(w, "firm", line.firm.as_str())?;
    say(w, "kind", "balance")?;
    count(w, "paid", line.paid)?;
    count(w, "received", line.received)?;
    w.end_object()
}

/// Appends the line of a firm's balance.
pub(crate) fn push_balance(
    alloc: Global,
    out: &mut Vec<u8>,
    line: &BalanceLine,
) -> Result<(), Memory>
    ensures { OnOk result (out.new.items ≡ out.old.items ++ line_with (balance_said line.now)) }
{
    let mut w = begin(alloc, out);
    say_balance(&mut w, line)?;
    end(out, w)
}

/// The members of a hop.
fn say_hop(w: &mut Writer, line: &HopLine) -> Result<(), Memory>
    ensures { OnOk result (GoesOn w.old w.new (tokens_of (hop_said line.now))) }
{
    w.begin_object()?;
    count_entry(w, "entry", line.entry)?;
    count_fee(w, "fee", &line.charge)?;
    say(w, "giver", line.charge.giver.as_str())?;
    say(w, "kind", "hop")?;
    count(w, "lots", line.charge.lots)?;
    name_node(w, "node", &line.node)?;
    count(w, "rate", line.charge.rate)?;
    say(w, "taker", line.charge.taker.as_str())?;
    w.end_object()
}

/// Appends the line of a live Claim.
pub(crate) fn push_hop(alloc: Global, out: &mut Vec<u8>, line: &HopLine) -> Result<(), Memory>
    ensures { OnOk result (out.new.items ≡ out.old.items ++ line_with (hop_said line.now)) }
{
    let mut w = begin(alloc, out);
    say_hop(&mut w, line)?;
    end(out, w)
}

/// The members of an agreement.
fn say_agreement(w: &mut Writer, line: &AgreementLine) -> Result<(), Memory>
    ensures { OnOk result (GoesOn w.old w.new (tokens_of (agreement_said line.now))) }
{
    w.begin_object()?;
    count(w, "entry", u64::from(line.entry))?;
    say(w, "giver", line.giver.as_str())?;
    say(w, "kind", "agreement")?;
    count(w, "limit", line.limit)?;
    count(w, "rate", line.rate)?;
    say(w, "taker", line.taker.as_str())?;
    count(w, "used", line.used)?;
    w.end_object()
}

/// Appends the line of an agreement.
pub(crate) fn push_agreement(
    alloc: Global,
    out: &mut Vec<u8>,
    line: &AgreementLine,
) -> Result<(), Memory>
    ensures { OnOk result (out.new.items ≡ out.old.items ++ line_with (agreement_said line.now)) }
{
    let mut w = begin(alloc, out);
    say_agreement(&mut w, line)?;
    end(out, w)
}

/// The members of the control line from the hops on.
fn say_sums(w: &mut Writer, house: &FirmId, line: &Control) -> Result<(), Memory>
    ensures { OnOk result (Says w.old w.new (control_sums house.now line.now)) }
{
    count(w, "hops", line.hops)?;
    say(w, "house", house.as_str())?;
    say(w, "kind", "book")?;
    count(w, "long", line.long)?;
    count(w, "paid", line.paid)?;
    count(w, "received", line.received)?;
    count_some(w, "refused", &line.refused)?;
    count(w, "short", line.short)?;
    count(w, "trades", line.trades)
}

/// The members of the control line.
fn say_control(
    w: &mut Writer,
    house: &FirmId,
    whose: &Option<FirmId>,
    line: &Control,
) -> Result<(), Memory>
    ensures { OnOk result (Says w.old w.new (control_said house.now whose.now line.now)) }
{
    count(w, "entries", line.entries)?;
    say_firm(w, "firm", whose)?;
    count(w, "form", 1)?;
    say_sums(w, house, line)
}

/// Appends the control line, of the house or of one firm.
pub(crate) fn push_control(
    alloc: Global,
    out: &mut Vec<u8>,
    house: &FirmId,
    whose: &Option<FirmId>,
    line: &Control,
) -> Result<(), Memory>
    ensures { OnOk result (out.new.items
        ≡ out.old.items ++ line_with (control_said house.now whose.now line.now no_members)) }
{
    let mut w = begin(alloc, out);
    open(&mut w)?;
    say_control(&mut w, house, whose, line)?;
    close(&mut w)?;
    end(out, w)
}
