//! The text of a node's line.
ghost use Rattle.std.specs.Prelude.{◌≡◌, ◌++◌, OnOk};
ghost use Rattle.serde_json.specs.Data.{no_members};
ghost use Rattle.gu_statement.specs.Going.{Says};
ghost use Rattle.gu_statement.specs.LineTexts.{node_front, node_firms, node_names, node_back};
ghost use Rattle.gu_statement.specs.LineTexts.{node_said};
ghost use Rattle.gu_statement.specs.Text.{line_with};

use crate::lines::NodeLine;
use crate::text::{
    begin, close, count, count_cost, count_number, end, flag, name_node, name_some, open, say,
    say_account, say_giver, say_instrument, say_side, say_stands, say_taker,
};
use crate::words::state_word;
use gu_base::Memory;
use json::Writer;
use std::alloc::Global;

/// The account, the decision, the depth and the fee of a node.
fn say_front(w: &mut Writer, line: &NodeLine) -> Result<(), Memory>
    ensures { OnOk result (Says w.old w.new (node_front line.now)) }
{
    say_account(w, "account", &line.place)?;
    count_number(w, "decision", &line.decision)?;
    count(w, "depth", u64::from(line.depth))?;
    count_cost(w, "fee", &line.charge)
}

/// The firm, the giver and the instrument of a node.
fn say_firms(w: &mut Writer, line: &NodeLine) -> Result<(), Memory>
    ensures { OnOk result (Says w.old w.new (node_firms line.now)) }
{
    say_stands(w, "firm", &line.place)?;
    say_giver(w, "giver", &line.pair)?;
    say_instrument(w, "instrument", &line.deal)
}

/// What stands behind the instrument: the kind, whether it is a leaf, the lots and the names.
fn say_names(w: &mut Writer, line: &NodeLine) -> Result<(), Memory>
    ensures { OnOk result (Says w.old w.new (node_names line.now)) }
{
    say(w, "kind", "node")?;
    flag(w, "leaf", line.leaf)?;
    count(w, "lots", line.lots)?;
    name_node(w, "name", &line.name)?;
    name_some(w, "parent", &line.parent)
}

/// The side, the state, the taker and the trade of a node.
fn say_back(w: &mut Writer, line: &NodeLine) -> Result<(), Memory>
    ensures { OnOk result (Says w.old w.new (node_back line.now)) }
{
    say_side(w, "side", &line.deal)?;
    say(w, "state", state_word(line.state))?;
    say_taker(w, "taker", &line.pair)?;
    count_number(w, "trade", &line.trade)
}

/// The members of a node.
fn say_node(w: &mut Writer, line: &NodeLine) -> Result<(), Memory>
    ensures { OnOk result (Says w.old w.new (node_said line.now)) }
{
    say_front(w, line)?;
    say_firms(w, line)?;
    say_names(w, line)?;
    say_back(w, line)
}

/// Appends the line of a node.
pub(crate) fn push_node(alloc: Global, out: &mut Vec<u8>, line: &NodeLine) -> Result<(), Memory>
    ensures { OnOk result
        (out.new.items ≡ out.old.items ++ line_with (node_said line.now no_members)) }
{
    let mut w = begin(alloc, out);
    open(&mut w)?;
    say_node(&mut w, line)?;
    close(&mut w)?;
    end(out, w)
}
