//! Days of a small house, each of which goes on in a new book.

use crate::journals::{KEY, house_of, journal_of, recovered};
use crate::lines::{Call, call_of};
use crate::telling::{compare, show_history, show_lost, show_shares};
use gu_base::{Answer, Command, NodeName, Number};
use gu_book::{Book, HashKey};
use gu_journal::Recovered;
use gu_roll::{Asked, Keep, PinnedHouse, RolledBook, roll};
use std::alloc::Global;
use std::str;

/// The place of an entry that the old book doesn't have.
const NOWHERE: usize = 999_999;

/// The text of these bytes, `?` where they are none.
fn shown(text: &[u8]) -> &str {
    match str::from_utf8(text) {
        Ok(text) => text,
        Err(_) => "?",
    }
}

/// The book of a house file in its opening.
fn opened(alloc: Global, file: &[u8]) -> Option<Book> {
    let PinnedHouse { house, .. } = house_of(alloc, file)?;
    match Book::open(alloc, house) {
        Ok(book) => Some(book),
        Err((house, _)) => {
            drop(house);
            None
        }
    }
}

/// Writes what a book answered.
fn show_answer(rt: &impl Print, answer: &Answer) -> bool {
    match *answer {
        Answer::Accepted { number, status } => print!(rt; "{number} {status:?}").is_ok(),
        Answer::Repeated { number, status } => {
            print!(rt; "repeated {number} {status:?}").is_ok()
        }
        Answer::Refused(refusal) => {
            let text = refusal.text();
            rt.print(text.as_str()).is_ok()
        }
    }
}

/// Makes a call, and writes what is answered.
fn make(rt: &impl Print, alloc: Global, book: &mut Book, call: &Call) -> Option<Answer> {
    match book.apply(alloc, &call.by, &call.id, &call.command) {
        Ok(answer) => {
            if show_answer(rt, &answer) {
                Some(answer)
            } else {
                None
            }
        }
        Err(_) => None,
    }
}

/// The new number of an old one, which stays where it has none.
fn new_of(numbers: &[Number], old: Number) -> Number {
    for place in 0..numbers.len().min(Number::MAX as usize) {
        if numbers[place] == old {
            return Number::at_place(place);
        }
    }
    old
}

/// The same of a node's name.
fn new_node(numbers: &[Number], node: &NodeName) -> NodeName {
    NodeName::in_entry(new_of(numbers, node.entry()), node.part())
}

/// The same of a command.
fn renamed(numbers: &[Number], command: Command) -> Command {
    match command {
        Command::Split { node, parts } => Command::Split {
            node: new_node(numbers, &node),
            parts,
        },
        Command::Claim { node, account } => Command::Claim {
            node: new_node(numbers, &node),
            account,
        },
        Command::Refuse { node } => Command::Refuse {
            node: new_node(numbers, &node),
        },
        Command::Cancel { node } => Command::Cancel {
            node: new_node(numbers, &node),
        },
        Command::Initiate { entry } => Command::Initiate {
            entry: new_of(numbers, entry),
        },
        Command::Decline { entry } => Command::Decline {
            entry: new_of(numbers, entry),
        },
        Command::Reverse { entry } => Command::Reverse {
            entry: new_of(numbers, entry),
        },
        other => other,
    }
}

/// The book of a house file behind the calls of these lines, each with what is answered.
fn played(rt: &impl Print, alloc: Global, book: &mut Book, lines: &str) -> bool {
    for line in lines.lines() {
        match call_of(alloc, line.as_bytes()) {
            Ok(Some(call)) => {
                let made = print!(rt; "{line}: ").is_ok()
                    && make(rt, alloc, book, &call).is_some()
                    && println!(rt;).is_ok();
                drop(call);
                if !made {
                    return false;
                }
            }
            Ok(None) => {
                if println!(rt; "# {line}").is_err() {
                    return false;
                }
            }
            Err(_) => return false,
        }
    }
    true
}

/// The two books, and the numbers that the new one's entries had.
#[derive(Drop)]
struct Both {
    old: Book,
    new: Book,
    numbers: Vec<Number>,
}

/// Keeps the number that a new entry has in the old book, where it has one.
fn note(numbers: &mut Vec<Number>, old: Answer, new: Answer) -> bool {
    let Answer::Accepted { .. } = new else {
        return true;
    };
    match old {
        Answer::Accepted { number, .. } | Answer::Repeated { number, .. } => {
            numbers.push(number).is_ok()
        }
        Answer::Refused(_) => numbers.push(Number::at_place(NOWHERE)).is_ok(),
    }
}

/// Makes a call of both books, which names entries by their old numbers.
fn make_twice(rt: &impl Print, alloc: Global, both: &mut Both, call: Call) -> bool {
    let first = make(rt, alloc, &mut both.old, &call);
    let Call { by, id, command } = call;
    let mapped = Call {
        by,
        id,
        command: renamed(&both.numbers, command),
    };
    if rt.print(" | ").is_err() {
        drop(mapped);
        return false;
    }
    let then = make(rt, alloc, &mut both.new, &mapped);
    drop(mapped);
    match (first, then) {
        (Some(old), Some(new)) => note(&mut both.numbers, old, new) && println!(rt;).is_ok(),
        _ => false,
    }
}

/// Makes the calls of these lines of both books.
fn played_twice(rt: &impl Print, alloc: Global, both: &mut Both, lines: &str) -> bool {
    for line in lines.lines() {
        match call_of(alloc, line.as_bytes()) {
            Ok(Some(call)) => {
                if print!(rt; "{line}: ").is_err() {
                    drop(call);
                    return false;
                }
                if !make_twice(rt, alloc, both, call) {
                    return false;
                }
            }
            _ => return false,
        }
    }
    true
}

/// A day: the house file, the new one, the calls before and behind, and which changes are kept.
#[derive(Clone, Copy)]
struct Day<'a> {
    house: &'a str,
    new: &'a str,
    calls: &'a str,
    later: &'a str,
    keep: Keep,
}

/// The journal of a new book. It is told why there is none.
fn rolled(rt: &impl Print, alloc: Global, day: Day<'_>, book: &Book) -> Option<RolledBook> {
    let bytes = journal_of(rt, alloc, day.house.as_bytes(), book, 3)?;
    let old = house_of(alloc, day.house.as_bytes())?;
    let new = house_of(alloc, day.new.as_bytes())?;
    let asked = Asked {
        keep: day.keep,
        shares: true,
    };
    match roll(alloc, bytes, old, new, HashKey::new(KEY), asked) {
        Ok(made) => {
            let _ = show_lost(rt, &made.lost) && show_shares(rt, &made.shares);
            Some(made)
        }
        Err(error) => {
            let _ = rt.println(error);
            None
        }
    }
}

/// The new book of a journal, beside the old one.
fn both_of(
    rt: &impl Print,
    alloc: Global,
    day: Day<'_>,
    old: Book,
    made: RolledBook,
) -> Option<Both> {
    let RolledBook {
        bytes,
        numbers,
        lost: _,
        shares: _,
    } = made;
    let found = recovered(rt, alloc, day.new.as_bytes(), bytes);
    match found {
        Some(Recovered { book: new, journal }) => {
            drop(journal);
            Some(Both { old, new, numbers })
        }
        None => {
            drop(old);
            drop(numbers);
            None
        }
    }
}

/// Writes what both books tell, makes the later calls of both, and writes it again.
fn told(rt: &impl Print, alloc: Global, both: &mut Both, day: Day<'_>) -> bool {
    show_history(rt, both.new.history(), &both.numbers)
        && compare(rt, alloc, &both.numbers, &both.old, &both.new)
        && played_twice(rt, alloc, both, day.later)
        && compare(rt, alloc, &both.numbers, &both.old, &both.new)
}

/// Plays a day.
fn play_day(rt: &impl Print, alloc: Global, day: Day<'_>) -> bool {
    let Some(mut book) = opened(alloc, day.house.as_bytes()) else {
        return rt.println("no house").is_ok();
    };
    if !played(rt, alloc, &mut book, day.calls) {
        drop(book);
        return false;
    }
    let Some(made) = rolled(rt, alloc, day, &book) else {
        drop(book);
        return true;
    };
    let Some(mut both) = both_of(rt, alloc, day, book, made) else {
        return false;
    };
    let done = told(rt, alloc, &mut both, day);
    drop(both);
    done
}

/// The day of a text: two house files, the calls before, `all` or `open` alone, and the calls
/// behind.
fn day_of(text: &str) -> Option<Day<'_>> {
    let (house, rest) = text.split_once("\n--\n")?;
    let (new, rest) = rest.split_once("\n--\n")?;
    let (calls, rest) = rest.split_once("\n--\n")?;
    let (word, later) = match rest.split_once("\n") {
        Some(parts) => parts,
        None => (rest, ""),
    };
    Some(Day {
        house,
        new,
        calls,
        later,
        keep: if word == "open" {
            Keep::Open
        } else {
            Keep::All
        },
    })
}

/// Plays the days of a text.
pub(crate) fn play(rt: &impl Print, alloc: Global, text: &[u8]) -> bool {
    for text in shown(text).split("\n==\n") {
        match day_of(text) {
            Some(day) => {
                if !play_day(rt, alloc, day) {
                    return false;
                }
            }
            None => return false,
        }
    }
    true
}
