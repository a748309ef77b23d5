//! What a giver and a taker deal under their terms.
use crate::sums::show_each;
use gu_base::{Agreement, Deed, FirmId, Number};
use gu_fees::Terms;
use std::alloc::Global;

/// What is put in, one after the other: the number of each entry, and its deed.
const PUT: &[(u32, Deed)] = &[
    (
        1,
        Deed::Makes(Agreement {
            rate: 125,
            limit: 500,
        }),
    ),
    (3, Deed::Uses(450)),
    (4, Deed::Raises(100)),
    (5, Deed::Uses(60)),
];

/// What is taken out, one after the other, and how the pair is called then.
const TAKEN: &[(&str, &[u32])] = &[
    ("without 5", &[5]),
    ("without 3", &[3]),
    ("without 6 and 4", &[6, 4]),
    ("without 1", &[1]),
];

/// What is seen of a pair: its limit, its rate, and what it has used.
fn seen(terms: &Terms, giver: &FirmId, taker: &FirmId) -> (Option<u64>, Option<u64>, u64) {
    (
        terms.limit(giver, taker),
        terms.rate(giver, taker),
        terms.used(giver, taker),
    )
}

/// Makes a pair ready. Where memory lacks, nothing that is seen may have changed, and it is made
/// ready once more.
fn make_ready(terms: &mut Terms, giver: &FirmId, taker: &FirmId) -> bool {
    let before = seen(terms, giver, taker);
    match terms.ready(giver, taker, None) {
        Ok(()) => true,
        Err(_) => { seen(terms, giver, taker) == before && terms.ready(giver, taker, None).is_ok() }
    }
}

/// Puts an entry in where it may be put, and says whether it was.
fn put_deed(terms: &mut Terms, giver: &FirmId, taker: &FirmId, entry: Number, deed: Deed) -> bool {
    if !terms.can_put(giver, taker, entry, deed) {
        return false;
    }
    match deed {
        Deed::Makes(made) => terms.agree(giver, taker, entry, made),
        Deed::Raises(lots) => terms.raise(giver, taker, entry, lots),
        Deed::Uses(lots) => terms.claim(giver, taker, entry, lots),
    }
    true
}

/// Makes the pair ready and puts an entry in where it may be put, and says whether it was.
fn put_entry(terms: &mut Terms, giver: &FirmId, taker: &FirmId, entry: u32, deed: Deed) -> bool {
    match Number::new(entry) {
        Some(entry) => {
            make_ready(terms, giver, taker) && put_deed(terms, giver, taker, entry, deed)
        }
        None => false,
    }
}

/// Puts entries in, one after the other, and says whether all were.
fn put_entries(terms: &mut Terms, giver: &FirmId, taker: &FirmId, entries: &[(u32, Deed)]) -> bool {
    for (entry, deed) in entries {
        if !put_entry(terms, giver, taker, *entry, *deed) {
            return false;
        }
    }
    true
}

/// Puts a Claim of 60 lots of a pair in that stands somewhere, by its place: one look for both
/// steps. Says whether it was put in.
fn put_claim_there(terms: &mut Terms, giver: &FirmId, taker: &FirmId, entry: Number) -> bool {
    let Some(place) = terms.place(giver, taker) else {
        return false;
    };
    if terms.ready_at(place).is_err() {
        return false;
    }
    let deed = Deed::Uses(60);
    if !terms.can_put_at(place, entry, deed) {
        return false;
    }
    terms.put_at(place, entry, deed);
    true
}

/// The number of the first entry that stands on this one, 0 where there is none.
fn standing(terms: &Terms, entry: u32) -> u32 {
    match Number::new(entry) {
        Some(number) => match terms.first_standing(number) {
            Some(first) => first.get(),
            None => 0,
        },
        None => 0,
    }
}

/// How many entries the pair of this one has.
fn beside(terms: &Terms, entry: u32) -> u64 {
    match Number::new(entry) {
        Some(number) => terms.entries_beside(number) as u64,
        None => 0,
    }
}

/// Takes these entries out.
fn take_out(terms: &mut Terms, entries: &[u32]) {
    for entry in entries {
        if let Some(number) = Number::new(*entry) {
            terms.take_out(number);
        }
    }
}

/// Writes the limit of a pair, what it has used, what stands on entries 1 and 4, and how many
/// entries stand beside 1 and 8.
fn tell_pair(rt: &impl Print, terms: &Terms, when: &str, giver: &FirmId, taker: &FirmId) -> bool {
    let said = [
        (": limit ", terms.limit(giver, taker).unwrap_or(0)),
        (", rate ", terms.rate(giver, taker).unwrap_or(0)),
        (", used ", terms.used(giver, taker)),
        ("; on 1 stands ", u64::from(standing(terms, 1))),
        (", on 4 ", u64::from(standing(terms, 4))),
        ("; beside 1 ", beside(terms, 1)),
        (", beside 8 ", beside(terms, 8)),
    ];
    rt.print(when).is_ok() && show_each(rt, &said)
}

/// Puts the entries in up to 6.
fn put_all(terms: &mut Terms, giver: &FirmId, taker: &FirmId) -> bool {
    match Number::new(6) {
        Some(last) => {
            put_entries(terms, giver, taker, PUT) && put_claim_there(terms, giver, taker, last)
        }
        None => false,
    }
}

/// Writes whether what can't be put in is put in.
fn tell_refused(rt: &impl Print, terms: &mut Terms, giver: &FirmId, taker: &FirmId) -> bool {
    let again = put_entry(terms, giver, taker, 6, Deed::Uses(1));
    let many = put_entry(terms, giver, taker, 7, Deed::Uses(u64::MAX));
    println!(rt; "a number once more: {again}, and too many lots: {many}").is_ok()
}

/// Takes entries out, and writes what becomes of the pair.
fn tell_taken(rt: &impl Print, terms: &mut Terms, giver: &FirmId, taker: &FirmId) -> bool {
    for (when, entries) in TAKEN {
        take_out(terms, entries);
        if !tell_pair(rt, terms, when, giver, taker) {
            return false;
        }
    }
    true
}

/// Writes what becomes of a pair that is dealt under its terms, and of the pair the other way
/// round.
fn tell_dealt(rt: &impl Print, terms: &mut Terms, giver: &FirmId, taker: &FirmId) -> bool {
    put_all(terms, giver, taker)
        && tell_pair(rt, terms, "raised and used", giver, taker)
        && tell_refused(rt, terms, giver, taker)
        && put_entry(terms, taker, giver, 8, Deed::Uses(9))
        && tell_pair(rt, terms, "the other way round", taker, giver)
}

/// The deed of an entry of a long list: from the fourth on they raise and use two lots in turn.
fn long_deed(entry: u32) -> Deed {
    match entry {
        1 => Deed::Makes(Agreement {
            rate: 125,
            limit: 100,
        }),
        2 => Deed::Raises(50),
        3 => Deed::Uses(120),
        599 => Deed::Raises(40),
        600 => Deed::Uses(71),
        _ => {
            if entry % 2 == 0 {
                Deed::Raises(2)
            } else {
                Deed::Uses(2)
            }
        }
    }
}

/// Puts the 600 entries of a long list in.
fn put_long(terms: &mut Terms, giver: &FirmId, taker: &FirmId) -> bool {
    for entry in 1..=600 {
        if !put_entry(terms, giver, taker, entry, long_deed(entry)) {
            return false;
        }
    }
    true
}

/// What is taken out of a long list, one span after the other, and how it is called then.
const SPANS: &[(&str, u32, u32)] = &[
    ("without 600", 600, 600),
    ("without 256 and 257", 256, 257),
    ("without 2 to 290", 2, 290),
    ("without 291 to 520", 291, 520),
    ("without 521 to 598", 521, 598),
    ("without 599", 599, 599),
];

/// Entries of a long list on which others stand: the Agree, a Raise that the third needs, a Claim,
/// and Raises of the first 256 entries, of the next and of the last.
const ASKED: &[u32] = &[1, 2, 3, 4, 256, 258, 400, 522, 599];

/// Writes what stands on some entries of a long list.
fn tell_standing(rt: &impl Print, terms: &Terms, when: &str) -> bool {
    if rt.print(when).is_err() {
        return false;
    }
    for entry in ASKED {
        let first = standing(terms, *entry);
        if print!(rt; "; on {entry} stands {first}").is_err() {
            return false;
        }
    }
    rt.println("").is_ok()
}

/// Takes a span of entries out.
fn take_span(terms: &mut Terms, from: u32, to: u32) {
    for entry in from..=to {
        take_out(terms, &[entry]);
    }
}

/// Writes what stands on entries of a list of 600, and what of it then, where some are taken out.
fn tell_long(rt: &impl Print, alloc: Global, giver: &FirmId, taker: &FirmId) -> bool {
    let mut terms = Terms::new(alloc);
    if !put_long(&mut terms, giver, taker) || !tell_standing(rt, &terms, "of 600 entries") {
        return false;
    }
    for (when, from, to) in SPANS {
        take_span(&mut terms, *from, *to);
        if !tell_standing(rt, &terms, when) {
            return false;
        }
    }
    true
}

/// Writes what becomes of terms that are made by 1, used by 3 and raised by 4, so that 5 and 6 can
/// use more, and of which 5, 6 and 4 are taken out; and of a long list.
/// Whether all went well.
pub fn tell_terms(rt: &impl Print, alloc: Global, giver: &FirmId, taker: &FirmId) -> bool {
    let mut terms = Terms::new(alloc);
    tell_pair(rt, &terms, "never made ready", giver, taker)
        && tell_dealt(rt, &mut terms, giver, taker)
        && tell_taken(rt, &mut terms, giver, taker)
        && tell_long(rt, alloc, giver, taker)
}
