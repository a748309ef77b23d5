//! Running sums, and the fees, positions and terms that are kept as such.
//!
//! Memory is ample here, so each row is made ready; then what was added, and what was taken again,
//! is written.

mod agreements;

use agreements::tell_terms;
use gu_base::{AccountId, FirmId, InstrumentId, Side};
use gu_fees::Fees;
use gu_positions::{Key, Positions};
use gu_sums::Sums;
use std::alloc::Global;
use std::io::Print;

/// Writes texts, each with its number, and ends the line.
pub(crate) fn show_each(rt: &impl Print, said: &[(&str, u64)]) -> bool {
    for (text, number) in said {
        if print!(rt; "{text}{number}").is_err() {
            return false;
        }
    }
    rt.println("").is_ok()
}

/// Makes the row of a key ready, adds to it and takes from it.
fn move_some(sums: &mut Sums<u32>) -> bool {
    if sums.ready(&7).is_err() {
        return false;
    }
    if sums.can_add(&7, 40) {
        sums.add(&7, 40);
    }
    if 15 <= sums.of(&7) {
        sums.take(&7, 15);
    }
    true
}

/// Writes what the key has that was moved, and another.
fn tell_moved(rt: &impl Print, sums: &Sums<u32>) -> bool {
    show_each(
        rt,
        &[
            ("40 added, 15 taken: ", sums.of(&7)),
            ("; of another key ", sums.of(&8)),
        ],
    )
}

/// Writes what one key has, and another that was never made ready.
fn tell_sums(rt: &impl Print, alloc: Global) -> bool {
    let mut sums: Sums<u32> = Sums::new(alloc);
    let can_add = sums.can_add(&7, 1);
    println!(rt; "without a row: {can_add}").is_ok()
        && move_some(&mut sums)
        && tell_moved(rt, &sums)
}

/// Makes the rows of a pair ready and charges it.
fn charge(fees: &mut Fees, giver: &FirmId, taker: &FirmId) -> bool {
    if fees.ready(giver, taker).is_err() {
        return false;
    }
    if fees.can_charge(giver, taker, 40, 125) {
        fees.charge(giver, taker, 40, 125);
    }
    true
}

/// Takes the charge of a pair back.
fn uncharge(fees: &mut Fees, giver: &FirmId, taker: &FirmId) {
    if fees.can_uncharge(giver, taker, 40, 125) {
        fees.uncharge(giver, taker, 40, 125);
    }
}

/// Writes what the taker paid, the giver received and the pair used.
fn tell_paid(rt: &impl Print, fees: &Fees, giver: &FirmId, taker: &FirmId) -> bool {
    show_each(
        rt,
        &[
            ("paid ", fees.paid(taker)),
            (", received ", fees.received(giver)),
            (", used ", fees.used(giver, taker)),
        ],
    )
}

/// Writes what was paid for what is charged, and then for what isn't any more.
fn tell_charged(rt: &impl Print, fees: &mut Fees, giver: &FirmId, taker: &FirmId) -> bool {
    let is_told = charge(fees, giver, taker) && tell_paid(rt, fees, giver, taker);
    uncharge(fees, giver, taker);
    is_told && rt.print("then ").is_ok() && tell_paid(rt, fees, giver, taker)
}

/// Writes what a firm paid another, which gave it lots up.
fn tell_fees(rt: &impl Print, alloc: Global, giver: &FirmId, taker: &FirmId) -> bool {
    let mut fees = Fees::new(alloc);
    let can_charge = fees.can_charge(giver, taker, 40, 125);
    println!(rt; "without rows: {can_charge}").is_ok() && tell_charged(rt, &mut fees, giver, taker)
}

/// Adds lots, where that is allowed.
fn add(positions: &mut Positions, key: &Key, side: Side, lots: u64) {
    if positions.can_add(key, side, lots) {
        positions.add(key, side, lots);
    }
}

/// Takes lots, where that is allowed.
fn take(positions: &mut Positions, key: &Key, side: Side, lots: u64) {
    if positions.can_take(key, side, lots) {
        positions.take(key, side, lots);
    }
}

/// Writes what stands at a key.
fn tell_position(rt: &impl Print, positions: &Positions, when: &str, key: &Key) -> bool {
    let (long, short) = positions.of(key);
    println!(rt; "{when}long {long}, short {short}").is_ok()
}

/// Writes what stands on both sides.
fn tell_positions(rt: &impl Print, alloc: Global, key: &Key) -> bool {
    let mut positions = Positions::new(alloc);
    let is_ready = positions.ready(key).is_ok();
    add(&mut positions, key, Side::Buy, 100);
    add(&mut positions, key, Side::Sell, 30);
    take(&mut positions, key, Side::Buy, 40);
    is_ready && tell_position(rt, &positions, "", key)
}

/// Puts lots where few stand, and says whether they were put.
fn put(positions: &mut Positions, key: &Key, lots: u64) -> bool {
    if positions.of(key).0 <= 1_000 && lots <= 1_000 {
        return positions.put(key, Side::Buy, lots).is_ok();
    }
    false
}

/// Writes what stands where lots are put without a row, and then into a row.
fn tell_put(rt: &impl Print, alloc: Global, key: &Key) -> bool {
    let mut positions = Positions::new(alloc);
    put(&mut positions, key, 70)
        && put(&mut positions, key, 5)
        && tell_position(rt, &positions, "put without a row, then into it: ", key)
}

/// Puts seven lots at a rate of three, where the sums are small, and says whether they were put.
fn put_some(fees: &mut Fees, giver: &FirmId, taker: &FirmId) -> bool {
    if fees.paid(taker) <= 1_000 {
        if fees.received(giver) <= 1_000 {
            if fees.used(giver, taker) <= 1_000 {
                return fees.put(giver, taker, 7, 3).is_ok();
            }
        }
    }
    false
}

/// Writes the sums of a pair whose charges were put.
fn tell_put_paid(rt: &impl Print, fees: &Fees, giver: &FirmId, taker: &FirmId) -> bool {
    show_each(
        rt,
        &[
            ("put without rows, then into them: paid ", fees.paid(taker)),
            (", received ", fees.received(giver)),
            (", used ", fees.used(giver, taker)),
            ("; the other way round ", fees.used(taker, giver)),
        ],
    )
}

/// Writes what is paid, received and used where claims are put without rows, and then into rows.
fn tell_put_fees(rt: &impl Print, alloc: Global, giver: &FirmId, taker: &FirmId) -> bool {
    let mut fees = Fees::new(alloc);
    put_some(&mut fees, giver, taker)
        && put_some(&mut fees, giver, taker)
        && tell_put_paid(rt, &fees, giver, taker)
}

/// A key of a firm.
fn key_of(firm: FirmId) -> Option<Key> {
    let account = AccountId::new(b"A1")?;
    let instrument = InstrumentId::new(b"ESZ6")?;
    Some(Key {
        firm,
        account,
        instrument,
    })
}

/// Writes what becomes of each.
fn tell_each(rt: &impl Print, alloc: Global, firm: &FirmId, other: &FirmId, key: &Key) -> bool {
    tell_sums(rt, alloc)
        && tell_fees(rt, alloc, firm, other)
        && tell_positions(rt, alloc, key)
        && tell_put(rt, alloc, key)
        && tell_put_fees(rt, alloc, firm, other)
        && tell_terms(rt, alloc, firm, other)
}

/// The same, of two firms, and of a key of the first. Whether all went well.
pub(crate) fn tell(rt: &impl Print, alloc: Global) -> bool {
    let (Some(firm), Some(other)) = (FirmId::new(b"AAA"), FirmId::new(b"BBB")) else {
        return false;
    };
    match key_of(firm) {
        Some(key) => tell_each(rt, alloc, &firm, &other, &key),
        None => false,
    }
}
