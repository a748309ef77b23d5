//! The close of the desk.

use gu_desk::{CloseError, Desk, Job, Seat};

/// What the close brought: how many seats came back where one was missing, and how many entries the
/// book has in the end.
#[derive(Clone, Copy)]
pub(crate) struct Closed {
    pub(crate) back: Option<usize>,
    pub(crate) entries: Option<usize>,
}

/// How many entries the book has, against these seats.
pub(crate) fn entries_at_close<J: Job>(desk: Desk<J>, seats: Vec<Seat<J>>) -> Option<usize> {
    match desk.close(seats) {
        Ok(book) => {
            let entries = book.history().len();
            drop(book);
            Some(entries)
        }
        Err(left) => {
            drop(left);
            None
        }
    }
}

/// Closes a desk of two seats, first with one of them, and then with both. The list has room for
/// both.
pub(crate) fn close<J: Job>(
    desk: Desk<J>,
    list: Vec<Seat<J>>,
    first: Seat<J>,
    second: Seat<J>,
) -> Closed {
    let mut seats = list;
    drop(seats.push(first));
    match desk.close(seats) {
        Ok(book) => {
            drop(book);
            Closed {
                back: None,
                entries: None,
            }
        }
        Err(CloseError { desk, seats }) => {
            let mut seats = seats;
            let back = seats.len();
            drop(seats.push(second));
            Closed {
                back: Some(back),
                entries: entries_at_close(desk, seats),
            }
        }
    }
}
