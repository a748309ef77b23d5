//! What a change touches, the place of a trade in the trees of a book, and what stands on an
//! agreement.

use crate::shown::show;
use crate::words::place_of;
use gu_base::{
    Agreement, Command, Deed, FirmId, InstrumentId, NodeName, Number, Parts, Place, Side,
};
use gu_depend::{Touched, first_standing, touched};
use gu_fees::Terms;
use gu_tree::Trees;
use std::alloc::Global;
use std::io::Print;
use test_splits::trees::plant;
use test_splits::words::{say, say_line};

/// Writes what a command of entry 7 makes or decides.
fn tell_touched(rt: &impl Print, name: &str, command: Command) {
    let touched = touched(Number::at_place(6), &command);
    drop(command);
    say(rt, name);
    match touched {
        Touched::Root => say_line(rt, ": the root"),
        Touched::Parts => say_line(rt, ": the parts"),
        Touched::Nothing => say_line(rt, ": nothing"),
        Touched::Node(node) => {
            say(rt, ": ");
            say_line(rt, node)
        }
    }
}

/// Writes what a Trade makes.
fn tell_trade(rt: &impl Print, instrument: &InstrumentId, into: &Place) {
    let Place { firm, account } = *into;
    let command = Command::Trade {
        firm,
        account,
        instrument: *instrument,
        side: Side::Buy,
        lots: 100,
    };
    tell_touched(rt, "trade", command)
}

/// Writes what the commands that name a node make or decide.
fn tell_named(rt: &impl Print, alloc: Global, node: NodeName, into: &Place) {
    let parts = Parts::from_vec(Vec::new(alloc));
    tell_touched(rt, "split", Command::Split { node, parts });
    let account = into.account;
    tell_touched(rt, "claim", Command::Claim { node, account });
    tell_touched(rt, "refuse", Command::Refuse { node });
    tell_touched(rt, "cancel", Command::Cancel { node })
}

/// Writes what the commands that name an entry make or decide.
fn tell_entries(rt: &impl Print, entry: Number) {
    tell_touched(rt, "initiate", Command::Initiate { entry });
    tell_touched(rt, "decline", Command::Decline { entry });
    tell_touched(rt, "reverse", Command::Reverse { entry })
}

/// Writes what the commands that change what two firms agreed on make or decide.
fn tell_terms(rt: &impl Print, giver: FirmId, taker: FirmId) {
    let agree = Command::Agree {
        giver,
        taker,
        rate: 50,
        limit: 100,
    };
    tell_touched(rt, "agree", agree);
    tell_touched(rt, "raise", Command::Raise { giver, lots: 10 })
}

/// Writes the place of an entry, and what stands on it first.
fn show_entry(rt: &impl Print, trees: &Trees<Global>, terms: &Terms, entry: Number) {
    show(rt, "entry ", entry);
    match trees.place(entry) {
        Some((trade, path)) => {
            show(rt, ": ", path.len());
            show(rt, " deep in ", trade);
        }
        None => say(rt, ": no place"),
    }
    match first_standing(trees, terms, entry) {
        Some(first) => {
            show(rt, "; ", first);
            say_line(rt, " stands on it")
        }
        None => say_line(rt, "; nothing stands on it"),
    }
}

/// Writes the place of a trade before it is planted and behind it.
fn tell_places(
    rt: &impl Print,
    alloc: Global,
    trees: &mut Trees<Global>,
    terms: &Terms,
    into: &Place,
) {
    let entry = Number::at_place(0);
    show_entry(rt, trees, terms, entry);
    if !plant(trees, alloc, entry, *into, 100).is_done() {
        return say_line(rt, "not planted");
    }
    show_entry(rt, trees, terms, entry)
}

/// Puts an entry of a giver and a taker in. Whether it could be.
fn put(terms: &mut Terms, giver: &FirmId, taker: &FirmId, entry: Number, deed: Deed) -> bool {
    if terms.ready(giver, taker, None).is_err() || !terms.can_put(giver, taker, entry, deed) {
        return false;
    }
    match deed {
        Deed::Makes(made) => terms.agree(giver, taker, entry, made),
        Deed::Raises(lots) => terms.raise(giver, taker, entry, lots),
        Deed::Uses(lots) => terms.claim(giver, taker, entry, lots),
    }
    true
}

/// Puts an agreement of no lots in, a raise by 10, and a claim of 5 that needs the raise: entries 1
/// to 3. Whether they could be.
fn put_three(terms: &mut Terms, giver: &FirmId, taker: &FirmId) -> bool {
    let made = Agreement { rate: 50, limit: 0 };
    put(terms, giver, taker, Number::at_place(0), Deed::Makes(made))
        && put(terms, giver, taker, Number::at_place(1), Deed::Raises(10))
        && put(terms, giver, taker, Number::at_place(2), Deed::Uses(5))
}

/// Writes what stands on an agreement, on a raise, and on a claim that needs the raise, and then
/// without the claim.
fn tell_standing(
    rt: &impl Print,
    trees: &Trees<Global>,
    terms: &mut Terms,
    giver: &FirmId,
    taker: &FirmId,
) {
    if !put_three(terms, giver, taker) {
        return say_line(rt, "not put in");
    }
    for place in 0..3 {
        show_entry(rt, trees, terms, Number::at_place(place));
    }
    terms.take_out(Number::at_place(2));
    for place in 0..2 {
        show_entry(rt, trees, terms, Number::at_place(place));
    }
}

/// Writes the place of a trade.
fn tell_planted(rt: &impl Print, alloc: Global, into: &Place) {
    let terms = Terms::new(alloc);
    let mut trees = Trees::new(alloc, alloc);
    tell_places(rt, alloc, &mut trees, &terms, into)
}

/// Writes what stands on an agreement where there are no trees.
fn tell_agreed(rt: &impl Print, alloc: Global, giver: &FirmId, taker: &FirmId) {
    let trees = Trees::new(alloc, alloc);
    let mut terms = Terms::new(alloc);
    tell_standing(rt, &trees, &mut terms, giver, taker)
}

/// Writes what each kind of command touches, then the place of a trade, and what stands on an
/// agreement.
pub(crate) fn tell(rt: &impl Print, alloc: Global) {
    let (Some(into), Some(node), Some(instrument), Some(taker)) = (
        place_of("AAA/A1"),
        NodeName::new(2, 1),
        InstrumentId::new(b"ESZ6"),
        FirmId::new(b"BBB"),
    ) else {
        return say_line(rt, "no names");
    };
    tell_trade(rt, &instrument, &into);
    tell_named(rt, alloc, node, &into);
    tell_entries(rt, Number::at_place(1));
    tell_terms(rt, into.firm, taker);
    tell_planted(rt, alloc, &into);
    tell_agreed(rt, alloc, &into.firm, &taker)
}
