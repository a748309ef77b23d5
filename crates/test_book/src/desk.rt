//! A desk with two seats in two threads.
//!
//! The book opens with two trades of the house, 100 lots for AAA and 10 for CCC. AAA's worker asks
//! the gate, which holds it. Meanwhile CCC's worker splits CCC's trade and gets entry 3, so nobody
//! waits for the held worker. Then the gate lets AAA's worker go on: its split is entry 4. Each
//! reads its firm's reports above 1 with the seat that came back. The desk isn't closed with one
//! seat, and gives desk and seat back; with both it gives a book of 4 entries. Then a desk over
//! another book, of one trade of 100 lots for AAA. AAA's worker splits it, gives 40 lots to BBB,
//! and tells the other worker, whose seat then claims them for BBB. Each reads its firm's reports
//! with the seat that came back: AAA's begin with 1 and 2, and BBB's are 2 and 3, since a seat that
//! comes back has seen what was accepted before. AAA reads again after the joins, and the desk is
//! closed. Then a desk with a journal's side, over a book of one trade. The trade is copied and
//! kept. AAA's seat takes a ticket, splits the trade, and takes another: one entry is durable, so
//! the first ticket is settled and the second waits. Then the split is copied and kept, and both
//! are settled. What finds no memory is asked for once more: a ground and a desk give the book
//! back, a call and a reading the seat.

mod beside;
mod cases;
mod closing;
mod holding;
mod keeping;
mod running;
mod telling;
mod working;

use cases::{HELD, TOLD, kept, played};
use std::alloc::Global;
use std::io::Eprint;
use std::sync::Wait;
use std::thread::Threads;
use std::time::Clock;
use telling::{tell_held, tell_kept, tell_told};

/// Plays both cases over books of this house, by a handle that may start threads and wait. Whether
/// all could be written.
pub(crate) fn tell<H: Threads + Wait + Clock + Eprint + Sync>(
    rt: &HostRuntime,
    handle: &H,
    alloc: Global,
    house: &[u8],
) -> bool {
    let held = played(rt, handle, alloc, house, &HELD);
    let told = played(rt, handle, alloc, house, &TOLD);
    let is_told = tell_held(rt, &held) && tell_told(rt, &told);
    drop(held);
    drop(told);
    is_told && tell_kept(rt, &kept(rt, handle, alloc, house))
}
