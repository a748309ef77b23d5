//! Whole days, line by line.

use crate::calls::make;
use crate::desk;
use crate::input::read_house;
use crate::lines::read_call;
use crate::memory::tell_refused;
use crate::questions::answer;
use crate::words::{first_word, shown};
use gu_book::Book;
use gu_parties::House;
use std::alloc::Global;
use std::io::Eprint;
use std::sync::Wait;
use std::thread::Threads;
use std::time::Clock;

/// The day whose calls two workers make at desks.
const DESK: &str = "desk";

/// The book of a house after its opening calls, for which memory wasn't found before.
fn opened_again(alloc: Global, house: House) -> Option<Book> {
    match Book::open(alloc, house) {
        Ok(book) => Some(book),
        Err((house, _)) => {
            drop(house);
            None
        }
    }
}

/// The book of a house after its opening calls. Where no memory is found it is opened once more,
/// with the house that came back.
fn opened(rt: &HostRuntime, alloc: Global, house: House) -> Option<Book> {
    match Book::open(alloc, house) {
        Ok(book) => Some(book),
        Err((house, _)) => {
            tell_refused(rt);
            opened_again(alloc, house)
        }
    }
}

/// The book after the opening calls of the house of this text.
fn new_book(rt: &HostRuntime, alloc: Global, text: &str) -> Option<Book> {
    let house = read_house(rt, alloc, text.as_bytes())?;
    opened(rt, alloc, house)
}

/// Makes the call of a line.
fn tell_call(rt: &HostRuntime, alloc: Global, book: &mut Book, line: &[u8]) -> bool {
    match read_call(rt, alloc, line) {
        Ok(Some(call)) => {
            let made = make(rt, alloc, book, &call);
            drop(call);
            made
        }
        Ok(None) => println!(rt; "what? {}", shown(line)).is_ok(),
        Err(_) => false,
    }
}

/// Writes what a line of a day gives.
fn tell(rt: &HostRuntime, alloc: Global, book: &mut Book, line: &[u8]) -> bool {
    let (first, question) = first_word(line);
    if first == b"#".as_slice() {
        return println!(rt; "{}", shown(line)).is_ok();
    }
    if first == b"?".as_slice() {
        return answer(rt, alloc, book, question);
    }
    tell_call(rt, alloc, book, line)
}

/// Writes what each line of a day gives.
fn tell_day(rt: &HostRuntime, alloc: Global, book: &mut Book, day: &str) -> bool {
    for line in day.lines() {
        if !tell(rt, alloc, book, line.as_bytes()) {
            return false;
        }
    }
    true
}

/// Plays a day, at a book of its own, or the two cases of a desk.
fn play_day<H: Threads + Wait + Clock + Eprint + Sync>(
    rt: &HostRuntime,
    handle: &H,
    alloc: Global,
    house: &str,
    day: &str,
) -> bool {
    if day.trim_end() == DESK {
        return desk::tell(rt, handle, alloc, house.as_bytes());
    }
    match new_book(rt, alloc, house) {
        Some(mut book) => {
            let told = tell_day(rt, alloc, &mut book, day);
            drop(book);
            told
        }
        None => println!(rt; "no house").is_ok(),
    }
}

/// Plays the days of a house.
fn play_house<H: Threads + Wait + Clock + Eprint + Sync>(
    rt: &HostRuntime,
    handle: &H,
    alloc: Global,
    text: &str,
) -> bool {
    let Some((house, days)) = text.split_once("\n--\n") else {
        return println!(rt; "no house").is_ok();
    };
    for day in days.split("\n\n") {
        if !play_day(rt, handle, alloc, house, day) {
            return false;
        }
    }
    true
}

/// Plays the days of an input, and writes what each line gives. `false` where something can't be
/// written, or memory is refused twice.
pub(crate) fn play<H: Threads + Wait + Clock + Eprint + Sync>(
    rt: &HostRuntime,
    handle: &H,
    alloc: Global,
    input: &[u8],
) -> bool {
    for text in shown(input).split("\n==\n") {
        if !play_house(rt, handle, alloc, text) {
            return false;
        }
    }
    true
}
