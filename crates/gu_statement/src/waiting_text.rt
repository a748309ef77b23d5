//! The texts of the lines of offers and reversals.
ghost use Rattle.std.specs.Prelude.{◌≡◌, ◌++◌, ◌∷◌, [], map, OnOk, option_map};
ghost use Rattle.gu_base.specs.Texts.{refusal_text};
ghost use Rattle.gu_base.specs.declared.node.Charge.{Charge as ChargeData};
ghost use Rattle.json.specs.Token.{key, string, begin_array, end_array};
ghost use Rattle.serde_json.specs.Data.{no_members};
ghost use Rattle.gu_statement.specs.Going.{GoesOn, Says};
ghost use Rattle.gu_statement.specs.LineTexts.{offer_front, offer_terms, offer_said, says_all};
ghost use Rattle.gu_statement.specs.LineTexts.{reversal_said, time_in};
ghost use Rattle.gu_statement.specs.Text.{line_with, counts_if, says_if};

use crate::lines::{OfferLine, ReversalLine};
use crate::text::{
    begin, close, count, count_cost, count_entry, count_number, end, name_node, open, say, say_time,
};
use gu_base::{Charge, FirmId, Memory, Refusal};
use json::Writer;
use std::alloc::Global;

/// A member that is the rate of a charge, if there is one.
fn count_rate(w: &mut Writer, name: &str, costs: &Option<Charge>) -> Result<(), Memory>
    ensures { OnOk result (Says w.old w.new (counts_if name.now
        (option_map (λ (c : ChargeData). c.rate) costs.now))) }
{
    match costs {
        Some(charge) => count(w, name, charge.rate),
        None => Ok(()),
    }
}

/// A member that is the text of a refusal, if there is one.
fn say_refusal(w: &mut Writer, name: &str, refusal: &Option<Refusal>) -> Result<(), Memory>
    ensures { OnOk result (Says w.old w.new (says_if name.now
        (option_map refusal_text refusal.now))) }
{
    match refusal {
        Some(refusal) => say(w, name, refusal.text().as_str()),
        None => Ok(()),
    }
}

/// What stands before the rate of an offer.
fn say_front(w: &mut Writer, line: &OfferLine) -> Result<(), Memory>
    ensures { OnOk result (Says w.old w.new (offer_front line.now)) }
{
    count_cost(w, "fee", &line.costs)?;
    say(w, "giver", line.giver.as_str())?;
    say(w, "kind", "offer")?;
    count(w, "lots", line.node.lots)?;
    name_node(w, "node", &line.node.name)
}

/// The rate, the refusal and the time of an offer, and its taker.
fn say_terms(w: &mut Writer, line: &OfferLine, since: &[u8]) -> Result<(), Memory>
    ensures { OnOk result (Says w.old w.new (offer_terms line.now (time_in since.now))) }
{
    count_rate(w, "rate", &line.costs)?;
    say_refusal(w, "refusal", &line.refusal)?;
    say_time(w, "since", since)?;
    say(w, "taker", line.taker.as_str())
}

/// The members of an offer.
fn say_offer(w: &mut Writer, line: &OfferLine, since: &[u8]) -> Result<(), Memory>
    ensures { OnOk result (Says w.old w.new (offer_said line.now (time_in since.now))) }
{
    say_front(w, line)?;
    say_terms(w, line, since)
}

/// Appends the line of an offer, with the time of its Split, if it is known.
pub(crate) fn push_offer(
    alloc: Global,
    out: &mut Vec<u8>,
    line: &OfferLine,
    since: &[u8],
) -> Result<(), Memory>
    ensures { OnOk result (out.new.items
        ≡ out.old.items ++ line_with (offer_said line.now (time_in since.now) no_members)) }
{
    let mut w = begin(alloc, out);
    open(&mut w)?;
    say_offer(&mut w, line, since)?;
    close(&mut w)?;
    end(out, w)
}

/// Texts, one after the other.
fn say_texts(w: &mut Writer, firms: &[FirmId]) -> Result<(), Memory>
    ensures { OnOk result (GoesOn w.old w.new (map string firms.now)) }
{
    for firm in firms {
        w.string(firm.as_str())?;
    }
    Ok(())
}

/// The name of a member that is a list, and the bracket that opens it.
fn open_list(w: &mut Writer, name: &str) -> Result<(), Memory>
    ensures { OnOk result (GoesOn w.old w.new (key name.now ∷ begin_array ∷ [])) }
{
    w.key(name)?;
    w.begin_array()
}

/// The bracket that closes a list.
fn close_list(w: &mut Writer) -> Result<(), Memory>
    ensures { OnOk result (GoesOn w.old w.new (end_array ∷ [])) }
{
    w.end_array()
}

/// A member that is a list of firms.
fn say_firms(w: &mut Writer, name: &str, firms: &[FirmId]) -> Result<(), Memory>
    ensures { OnOk result (Says w.old w.new (says_all name.now firms.now)) }
{
    open_list(w, name)?;
    say_texts(w, firms)?;
    close_list(w)
}

/// The members of a reversal.
fn say_reversal(w: &mut Writer, line: &ReversalLine<'_>) -> Result<(), Memory>
    ensures { OnOk result (Says w.old w.new (reversal_said line.now)) }
{
    count_entry(w, "change", line.change)?;
    say_firms(w, "consented", line.consented)?;
    say(w, "kind", "reversal")?;
    say_firms(w, "lacking", line.lacking)?;
    count_number(w, "stands", &line.stands)
}

/// Appends the line of a change to whose reversal some firm has consented.
pub(crate) fn push_reversal(
    alloc: Global,
    out: &mut Vec<u8>,
    line: &ReversalLine<'_>,
) -> Result<(), Memory>
    ensures { OnOk result (out.new.items
        ≡ out.old.items ++ line_with (reversal_said line.now no_members)) }
{
    let mut w = begin(alloc, out);
    open(&mut w)?;
    say_reversal(&mut w, line)?;
    close(&mut w)?;
    end(out, w)
}
