//! What is written of each case. What writes says whether it could.

use crate::desk::closing::Closed;
use crate::desk::keeping::{Keeping, Looked};
use crate::desk::running::Outcome;
use crate::desk::working::Told;
use gu_base::Answer;

/// Writes numbers, and ends the line.
fn tell_numbers(rt: &HostRuntime, numbers: &[u32]) -> bool {
    for number in numbers {
        if print!(rt; " {number}").is_err() {
            return false;
        }
    }
    println!(rt;).is_ok()
}

/// Writes what a worker was answered.
fn tell_answer(rt: &HostRuntime, answer: &Option<Answer>) -> bool {
    match answer {
        Some(Answer::Accepted { number, status }) => print!(rt; "{number} {status:?}").is_ok(),
        Some(_) => print!(rt; "not accepted").is_ok(),
        None => print!(rt; "no answer").is_ok(),
    }
}

/// Writes what a worker came back with, of its reports these.
fn tell_work(rt: &HostRuntime, who: &str, answer: &Option<Answer>, told: &[u32]) -> bool {
    print!(rt; "{who}: ").is_ok()
        && tell_answer(rt, answer)
        && print!(rt; ", told of").is_ok()
        && tell_numbers(rt, told)
}

/// Writes what a worker came back with.
fn tell(rt: &HostRuntime, who: &str, told: &Told) -> bool {
    tell_work(rt, who, &told.answer, told.told.as_slice())
}

/// Writes what the close without a seat brought.
fn tell_back(rt: &HostRuntime, closed: &Closed) -> bool {
    match closed.back {
        Some(seats) => println!(rt; "not closed: desk and {seats} seat back").is_ok(),
        None => println!(rt; "closed without a seat").is_ok(),
    }
}

/// Writes how many entries the closed book has.
fn tell_entries(rt: &HostRuntime, entries: Option<usize>) -> bool {
    match entries {
        Some(entries) => println!(rt; "closed: {entries} entries").is_ok(),
        None => println!(rt; "no book").is_ok(),
    }
}

/// The first two of these, which are there whether or not the other worker was faster.
fn first_two(told: &[u32]) -> &[u32] {
    &told[..told.len().min(2)]
}

/// Writes what came of the case in which AAA's call is held.
pub(crate) fn tell_held(rt: &HostRuntime, held: &Option<Outcome>) -> bool {
    let Some(held) = held else {
        return println!(rt; "no desk").is_ok();
    };
    tell(rt, "CCC", &held.second)
        && tell(rt, "AAA", &held.first)
        && tell_back(rt, &held.closed)
        && tell_entries(rt, held.closed.entries)
}

/// Writes what came of the case in which BBB is told.
pub(crate) fn tell_told(rt: &HostRuntime, told: &Option<Outcome>) -> bool {
    let Some(told) = told else {
        return println!(rt; "no desk").is_ok();
    };
    let led = &told.first;
    tell_work(rt, "AAA", &led.answer, first_two(led.told.as_slice()))
        && tell(rt, "BBB", &told.second)
        && print!(rt; "AAA, told of").is_ok()
        && tell_numbers(rt, told.again.as_slice())
        && tell_entries(rt, told.closed.entries)
}

/// Whether a ticket is settled, in a word.
fn settled(is_settled: bool) -> &'static str {
    if is_settled { "settled" } else { "waits" }
}

/// Writes how many entries were copied, and what the seat and the tickets found.
fn tell_looked(rt: &HostRuntime, copied: usize, looked: &Looked) -> bool {
    let (first, second) = (settled(looked.first), settled(looked.second));
    println!(rt;
        "copied {copied}: {} durable, {first}, {second}",
        looked.durable
    )
    .is_ok()
}

/// Writes what came of the case in which a journal keeps.
pub(crate) fn tell_kept(rt: &HostRuntime, kept: &Option<Keeping>) -> bool {
    let Some(kept) = kept else {
        return println!(rt; "no desk").is_ok();
    };
    tell_looked(rt, kept.opening, &kept.before)
        && tell_looked(rt, kept.copied, &kept.after)
        && tell_entries(rt, kept.entries)
}
