//! A desk with a journal's side: what is durable, and which of two tickets are settled, before and
//! after a copy.

ghost use Rattle.std.specs.Prelude.{◌≡◌, ◌+◌, ◌++◌, [], OnOk, OnErr};

use crate::desk::closing::entries_at_close;
use crate::desk::working::ask;
use crate::lines::Call;
use crate::memory::tell_refused;
use gu_base::{Entry, Memory};
use gu_book::Book;
use gu_desk::{Desk, Ground, Job, JournalSeat, Keeps, Seat, Ticket};
use std::alloc::Global;
use std::io::Eprint;
use std::marker::Brand;
use std::sync::Wait;

/// A device: the entries that it was given.
#[derive(Drop)]
struct Shelf {
    entries: Vec<Entry>,
}

impl Keeps for Shelf {
    ghost use Rattle.std.specs.Prelude.{◌≡◌};

    ghost keeps = { λ s h. s.entries.items ≡ h };
}

impl Shelf {
    /// Puts these entries behind the others.
    fn add(&mut self, copies: Vec<Entry>) -> Result<(), Memory>
        ensures added { OnOk result
            (self.new.entries.items ≡ self.old.entries.items ++ copies.items) }
        ensures unchanged { OnErr result (self.new.entries.items ≡ self.old.entries.items) }
    {
        let mut more = copies;
        let added = self.entries.append(&mut more);
        drop(more);
        added
    }
}

/// How many entries are durable, and which of two tickets are settled.
#[derive(Clone, Copy)]
pub(crate) struct Looked {
    pub(crate) durable: u32,
    pub(crate) first: bool,
    pub(crate) second: bool,
}

/// What came of it: how many entries were copied before the call and after it, what was found
/// before the second copy and after it, and how many entries the book has in the end.
#[derive(Clone, Copy)]
pub(crate) struct Keeping {
    pub(crate) opening: usize,
    pub(crate) before: Looked,
    pub(crate) copied: usize,
    pub(crate) after: Looked,
    pub(crate) entries: Option<usize>,
}

/// Puts the entries that aren't durable on the shelf, and says how many.
fn keep_once<J: Job, R: Wait>(
    rt: &R,
    alloc: Global,
    desk: &Desk<J>,
    journal: &mut JournalSeat<J>,
    shelf: &mut Shelf,
) -> Option<usize>
    requires { shelf.old.entries.items ≡ journal.old.kept }
    ensures { shelf.new.entries.items ≡ journal.new.kept }
{
    let Ok(copies) = desk.copy_above(rt, alloc, journal) else {
        return None;
    };
    let count = copies.len();
    if shelf.add(copies).is_err() {
        return None;
    }
    desk.confirm(journal, shelf);
    Some(count)
}

/// The same, where no memory is found once more.
fn keep<J: Job, R: Wait + Eprint>(
    rt: &R,
    alloc: Global,
    desk: &Desk<J>,
    journal: &mut JournalSeat<J>,
    shelf: &mut Shelf,
) -> Option<usize>
    requires { shelf.old.entries.items ≡ journal.old.kept }
    ensures { shelf.new.entries.items ≡ journal.new.kept }
{
    match keep_once(rt, alloc, desk, journal, shelf) {
        Some(count) => Some(count),
        None => {
            tell_refused(rt);
            keep_once(rt, alloc, desk, journal, shelf)
        }
    }
}

/// What a seat and two tickets find.
fn look<J: Job>(
    desk: &Desk<J>,
    seat: &mut Seat<J>,
    first: &mut Ticket<J>,
    second: &mut Ticket<J>,
) -> Looked {
    Looked {
        durable: desk.settle(seat),
        first: first.settle(desk),
        second: second.settle(desk),
    }
}

/// Keeps the opening history, makes a call, and keeps what it added. One ticket is from before the
/// call, and one from after it.
fn play<J: Job, R: Wait + Eprint>(
    rt: &R,
    alloc: Global,
    desk: &Desk<J>,
    seat: Seat<J>,
    journal: &mut JournalSeat<J>,
    shelf: &mut Shelf,
    call: &Call,
) -> (Seat<J>, Option<Keeping>)
    requires { shelf.old.entries.items ≡ journal.old.kept }
{
    let mut seat = seat;
    let Some(opening) = keep(rt, alloc, desk, journal, shelf) else {
        return (seat, None);
    };
    let mut first = desk.ticket(&mut seat);
    let (mut seat, _answer) = ask(rt, alloc, desk, seat, call);
    let mut second = desk.ticket(&mut seat);
    let before = look(desk, &mut seat, &mut first, &mut second);
    let Some(copied) = keep(rt, alloc, desk, journal, shelf) else {
        return (seat, None);
    };
    let after = look(desk, &mut seat, &mut first, &mut second);
    let keeping = Keeping {
        opening,
        before,
        copied,
        after,
        entries: None,
    };
    (seat, Some(keeping))
}

/// Plays with the one seat of this list, and closes the desk.
fn play_and_close<J: Job, R: Wait + Eprint>(
    rt: &R,
    alloc: Global,
    desk: Desk<J>,
    seats: Vec<Seat<J>>,
    journal: JournalSeat<J>,
    call: &Call,
) -> Option<Keeping>
    requires { journal.kept ≡ [] }
{
    let mut seats = seats;
    let mut journal = journal;
    let mut shelf = Shelf {
        entries: Vec::new(alloc),
    };
    let Some(seat) = seats.pop() else {
        return None;
    };
    let (seat, played) = play(rt, alloc, &desk, seat, &mut journal, &mut shelf, call);
    drop(seats.push(seat));
    let entries = entries_at_close(desk, seats);
    let keeping = played?;
    Some(Keeping { entries, ..keeping })
}

/// The same at a desk of one worker over this ground. The book comes back where there is no memory
/// for the desk.
fn run<J: Job, R: Wait + Eprint>(
    rt: &R,
    alloc: Global,
    ground: Ground,
    call: &Call,
) -> Result<Option<Keeping>, Book>
    requires name { ground.name ≡ J.name }
    requires parts { ground.workers + 1 ≡ J.parts }
    requires table { ground.table ≡ J.table }
    requires opening { ground.opening ≡ J.opening }
{
    match Desk::<J>::with_journal(alloc, ground) {
        Ok((desk, seats, journal)) => { Ok(play_and_close(rt, alloc, desk, seats, journal, call)) }
        Err((book, _)) => Err(book),
    }
}

/// The same over this book.
fn attempt<R: Wait + Eprint>(
    rt: &R,
    alloc: Global,
    book: Book,
    call: &Call,
) -> Result<Option<Keeping>, Book> {
    match Ground::new(alloc, book, 1) {
        Ok(ground) => run::<Brand, R>(rt, alloc, ground, call),
        Err((book, _)) => Err(book),
    }
}

/// The same, and where there is no memory for the ground or the desk once more with the book that
/// comes back.
pub(crate) fn keeping_of<R: Wait + Eprint>(
    rt: &R,
    alloc: Global,
    book: Book,
    call: &Call,
) -> Option<Keeping> {
    match attempt(rt, alloc, book, call) {
        Ok(keeping) => keeping,
        Err(book) => {
            tell_refused(rt);
            match attempt(rt, alloc, book, call) {
                Ok(keeping) => keeping,
                Err(book) => {
                    drop(book);
                    None
                }
            }
        }
    }
}
