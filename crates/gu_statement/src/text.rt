//! The pieces of a line: an object of JSON, its members in the order of their names, and LF.
ghost use Rattle.std.specs.Prelude.{◌≡◌, ◌*◌, ◌++◌, ◌∷◌, [], OnOk, decimal, option_map, List, ℕ};
ghost use Rattle.json.specs.Print.{print};
ghost use Rattle.json.specs.Token.{key, string, number, begin_object, end_object};
ghost use Rattle.serde_json.specs.Data.{boolean, member};
ghost use Rattle.gu_base.specs.declared.node.Charge.{Charge as ChargeData};
ghost use Rattle.gu_base.specs.declared.node.Deal.{Deal as DealData};
ghost use Rattle.gu_base.specs.declared.node.Place.{Place as PlaceData};
ghost use Rattle.gu_statement.specs.Going.{GoesOn, Says, node_words};
ghost use Rattle.gu_statement.specs.LineTexts.{time_in};
ghost use Rattle.gu_statement.specs.Text.{says_if, counts_if, names_if};
ghost use Rattle.gu_statement.specs.Words.{side_word};

use crate::words::side_word;
use arrayvec::ArrayString;
use gu_base::{Charge, Deal, FirmId, Memory, NodeName, Number, Place};
use itoa::Buffer;
use json::Writer;
use std::alloc::{AllocError, Global};
use std::{mem, str};

/// Begins a line behind this text, which is with the line until it ends.
#[inline(always)]
pub(crate) fn begin(alloc: Global, out: &mut Vec<u8>) -> Writer
    ensures before { result.before ≡ out.old.items }
    ensures tokens { result.tokens ≡ [] }
{
    Writer::new(mem::replace(out, Vec::new(alloc)))
}

/// Ends a line, and puts the text back.
#[inline(always)]
pub(crate) fn end(out: &mut Vec<u8>, line: Writer) -> Result<(), Memory>
    ensures { OnOk result (out.new.items ≡ line.before ++ print line.tokens ++ 10 ∷ []) }
{
    let mut text = line.into_inner();
    text.push(b'\n')?;
    *out = text;
    Ok(())
}

/// A member that is a text.
pub(crate) fn say(line: &mut Writer, name: &str, text: &str) -> Result<(), Memory>
    ensures { OnOk result (GoesOn line.old line.new (key name.now ∷ string text.now ∷ [])) }
{
    line.key(name)?;
    line.string(text)
}

/// A member that is the name of a firm, if there is one.
pub(crate) fn say_firm(line: &mut Writer, name: &str, firm: &Option<FirmId>) -> Result<(), Memory>
    ensures { OnOk result (Says line.old line.new (says_if name.now firm.now)) }
{
    match firm {
        Some(firm) => say(line, name, firm.as_str()),
        None => Ok(()),
    }
}

/// The text that these bytes are, if they are one and there is a byte.
fn text_in(bytes: &[u8]) -> Option<&str>
    ensures { option_map (λ t. t.now) result ≡ time_in bytes.now }
{
    if bytes.is_empty() {
        return None;
    }
    match str::from_utf8(bytes) {
        Ok(text) => Some(text),
        Err(_) => None,
    }
}

/// A member that is a time, if there is one.
pub(crate) fn say_time(line: &mut Writer, name: &str, time: &[u8]) -> Result<(), Memory>
    ensures { OnOk result (Says line.old line.new (says_if name.now (time_in time.now))) }
{
    match text_in(time) {
        Some(text) => say(line, name, text),
        None => Ok(()),
    }
}

/// A member that is a number.
pub(crate) fn count(line: &mut Writer, name: &str, n: u64) -> Result<(), Memory>
    ensures { OnOk result (GoesOn line.old line.new (key name.now ∷ number (decimal n) ∷ [])) }
{
    line.key(name)?;
    line.u64(n)
}

/// A member that is the number of an entry.
pub(crate) fn count_entry(line: &mut Writer, name: &str, entry: Number) -> Result<(), Memory>
    ensures { OnOk result
        (GoesOn line.old line.new (key name.now ∷ number (decimal entry) ∷ [])) }
{
    count(line, name, u64::from(entry.get()))
}

/// A member that is what a claim costs. In a book that fits: a claim has at most 10,000,000 lots,
/// and none of them costs more than 100,000.
pub(crate) fn count_fee(line: &mut Writer, name: &str, charge: &Charge) -> Result<(), Memory>
    ensures { OnOk result (GoesOn line.old line.new
        (key name.now ∷ number (decimal (charge.now.lots * charge.now.rate)) ∷ [])) }
{
    match charge.lots.checked_mul(charge.rate) {
        Some(fee) => count(line, name, fee),
        None => Err(AllocError),
    }
}

/// A member that is a number, if there is one.
pub(crate) fn count_some(line: &mut Writer, name: &str, number: &Option<u64>) -> Result<(), Memory>
    ensures { OnOk result (Says line.old line.new (counts_if name.now number.now)) }
{
    match number {
        Some(number) => count(line, name, *number),
        None => Ok(()),
    }
}

/// A member that is the name of a node.
pub(crate) fn name_node(line: &mut Writer, name: &str, node: &NodeName) -> Result<(), Memory>
    ensures { OnOk result
        (GoesOn line.old line.new (key name.now ∷ string (node_words node.now) ∷ [])) }
{
    let mut text = ArrayString::<16>::new();
    let mut digits = Buffer::new();
    text.push_str(digits.format(node.entry().get()));
    text.push_str(".");
    text.push_str(digits.format(node.part()));
    say(line, name, text.as_str())
}

/// A member that is the name of a node, if there is one.
pub(crate) fn name_some(
    line: &mut Writer,
    name: &str,
    node: &Option<NodeName>,
) -> Result<(), Memory>
    ensures { OnOk result (Says line.old line.new (names_if name.now node.now)) }
{
    match node {
        Some(node) => name_node(line, name, node),
        None => Ok(()),
    }
}

/// A member that is the number of an entry, if there is one.
pub(crate) fn count_number(
    line: &mut Writer,
    name: &str,
    number: &Option<Number>,
) -> Result<(), Memory>
    ensures { OnOk result (Says line.old line.new (counts_if name.now number.now)) }
{
    match number {
        Some(number) => count_entry(line, name, *number),
        None => Ok(()),
    }
}

/// A member that is what a claim costs, if there is one.
pub(crate) fn count_cost(
    line: &mut Writer,
    name: &str,
    charge: &Option<Charge>,
) -> Result<(), Memory>
    ensures { OnOk result (Says line.old line.new (counts_if name.now
        (option_map (λ (c : ChargeData). c.lots * c.rate) charge.now))) }
{
    match charge {
        Some(charge) => count_fee(line, name, charge),
        None => Ok(()),
    }
}

/// A member that is the account of a place, if there is one.
pub(crate) fn say_account(
    line: &mut Writer,
    name: &str,
    place: &Option<Place>,
) -> Result<(), Memory>
    ensures { OnOk result (Says line.old line.new (says_if name.now
        (option_map (λ (p : PlaceData). p.account) place.now))) }
{
    match place {
        Some(place) => say(line, name, place.account.as_str()),
        None => Ok(()),
    }
}

/// A member that is the firm of a place, if there is one.
pub(crate) fn say_stands(line: &mut Writer, name: &str, place: &Option<Place>) -> Result<(), Memory>
    ensures { OnOk result (Says line.old line.new (says_if name.now
        (option_map (λ (p : PlaceData). p.firm) place.now))) }
{
    match place {
        Some(place) => say(line, name, place.firm.as_str()),
        None => Ok(()),
    }
}

/// A member that is the giver of a pair, if there is one.
pub(crate) fn say_giver(
    line: &mut Writer,
    name: &str,
    pair: &Option<(FirmId, FirmId)>,
) -> Result<(), Memory>
    ensures { OnOk result (Says line.old line.new (says_if name.now
        (option_map (λ (p : List ℕ × List ℕ). p.0) pair.now))) }
{
    match pair {
        Some(pair) => say(line, name, pair.0.as_str()),
        None => Ok(()),
    }
}

/// A member that is the taker of a pair, if there is one.
pub(crate) fn say_taker(
    line: &mut Writer,
    name: &str,
    pair: &Option<(FirmId, FirmId)>,
) -> Result<(), Memory>
    ensures { OnOk result (Says line.old line.new (says_if name.now
        (option_map (λ (p : List ℕ × List ℕ). p.1) pair.now))) }
{
    match pair {
        Some(pair) => say(line, name, pair.1.as_str()),
        None => Ok(()),
    }
}

/// A member that is the instrument of a deal, if there is one.
pub(crate) fn say_instrument(
    line: &mut Writer,
    name: &str,
    deal: &Option<Deal>,
) -> Result<(), Memory>
    ensures { OnOk result (Says line.old line.new (says_if name.now
        (option_map (λ (d : DealData). d.instrument) deal.now))) }
{
    match deal {
        Some(deal) => say(line, name, deal.instrument.as_str()),
        None => Ok(()),
    }
}

/// A member that is the side of a deal, if there is one.
pub(crate) fn say_side(line: &mut Writer, name: &str, deal: &Option<Deal>) -> Result<(), Memory>
    ensures { OnOk result (Says line.old line.new (says_if name.now
        (option_map (λ (d : DealData). side_word d.side) deal.now))) }
{
    match deal {
        Some(deal) => say(line, name, side_word(deal.side)),
        None => Ok(()),
    }
}

/// A member that is yes or no.
pub(crate) fn flag(line: &mut Writer, name: &str, is: bool) -> Result<(), Memory>
    ensures { OnOk result (Says line.old line.new (member name.now (boolean is))) }
{
    line.key(name)?;
    line.boolean(is)
}

/// Opens the object of a line.
#[inline(always)]
pub(crate) fn open(line: &mut Writer) -> Result<(), Memory>
    ensures { OnOk result (GoesOn line.old line.new (begin_object ∷ [])) }
{
    line.begin_object()
}

/// Closes it.
#[inline(always)]
pub(crate) fn close(line: &mut Writer) -> Result<(), Memory>
    ensures { OnOk result (GoesOn line.old line.new (end_object ∷ [])) }
{
    line.end_object()
}
