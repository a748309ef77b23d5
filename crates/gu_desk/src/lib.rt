//! The shared desk: one book behind one lock, and seats that count what was accepted and carry the
//! history that they have seen.
//!
//! - `Ground` is a book with a count of its records and a ledger that no type names yet;
//!   `Desk::new` makes of it a desk and a seat for each worker. Both, and what lies behind the
//!   lock, are generic in a `Job`, which stands for one ground: a seat of another desk is of
//!   another type.
//! - Behind the lock lies a `Till`: the book, the total of the ledger, the count and the book's
//!   pass. Its type keeps that the book's history is one that calls made of the opening book, that
//!   it is as long as the total, and that the book's pass has seen it all. `Till::call` and
//!   `Till::read` answer what the rules say at the till's own history.
//! - The till's book has an index of the entries by the firms that they concern (gu_trace's
//!   `IndexedBook`), so a reading looks at no other.
//! - `Desk::call` and `Desk::read_reports` take the lock and hand on the till's answer. A seat goes
//!   in and comes back: its share is greater by one exactly where the answer is Accepted, and it
//!   has then seen the history that the call left. The answer is that of the rules at a history
//!   that begins with what the seat had seen; the reports are those at what it has then seen.
//! - The count is two words of an atomic table: how many records there are, and how many of them
//!   are durable. Its rule (`specs/Passes.antt`) ties the passes of all seats to one history: the
//!   book's pass has seen it whole, each other a beginning of it; the journal's pass knows of all
//!   that is durable, each other of a beginning of that. Passes are values of the proofs alone and
//!   take no bytes; a call costs four or five accesses of a word, and `Seat::seen` is what the last
//!   of them found.
//! - A desk that has a journal gives out one seat more, the `JournalSeat` (`Desk::with_journal`).
//!   `Desk::copy_above` shows it the history and copies the entries above those that are durable,
//!   and `Desk::confirm` tells all passes that what it has seen is durable. For this it takes a
//!   device, which by its own clause `Keeps` that history.
//! - `Desk::settle` and `Ticket::settle` are one load each, without the lock: where as many entries
//!   are durable as a seat or a ticket has seen, what is durable begins with all that it has seen.
//!   That is the receipt. A `Ticket` is a pass that is split off a seat, for bytes that wait.
//! - `Desk::news_above` tells whom new entries concern.
//! - `Desk::close` gives the book back against all seats: its history is as long as the opening one
//!   and the sum of the shares, and begins with what each seat has seen. `Desk::close_seen` shows
//!   the journal's seat all of it.
//! - `Desk::call`, `read_reports`, `copy_above` and `news_above` may wait for the lock; nothing
//!   else here waits.
//! - Its cases stand in the program `test_book`.
#![tactic(auto)]

mod copies;
mod count;
mod desk;
mod gate;
mod ground;
mod journal;
mod keeps;
mod seat;
mod ticket;
mod till;

pub use desk::{CloseError, Desk};
pub use gate::Gate;
pub use ground::Ground;
pub use gu_trace::News;
pub use journal::JournalSeat;
pub use keeps::Keeps;
pub use seat::{Job, Seat};
pub use ticket::Ticket;
pub use till::Till;
