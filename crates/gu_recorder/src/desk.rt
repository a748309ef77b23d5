//! The desk of a kept book, from its opening to its end.

ghost use Rattle.std.specs.Prelude.{◌≡◌, ◌+◌, IfOk};
ghost use Rattle.gu_book.specs.Seen.{stored};
ghost use Rattle.gu_desk.specs.Runs.{IsRunOf};

use crate::journals::OpenJournal;
use crate::recorder::Recorder;
use gu_board::Board;
use gu_book::Book;
use gu_command::KeepError;
use gu_desk::{Desk, Ground, Job, JournalSeat, Seat};
use std::alloc::Global;
use std::sync::Wait;
use std::time::Clock;

/// The recorder of a journal that says what the desk opened with, and whose last group has an empty
/// one behind it.
fn begin<K: OpenJournal, J: Job>(
    alloc: Global,
    desk: &Desk<J>,
    journal: K,
    seat: JournalSeat<J>,
) -> Recorder<K, J>
    requires house { K.house journal ≡ J.opening.house }
    requires seen { seat.seen ≡ J.opening.history }
    requires says { K.says journal J.opening.history }
    requires takes { K.takes journal }
{
    let mut seat = seat;
    desk.confirm(&mut seat, &journal);
    Recorder {
        journal,
        seat,
        failed: false,
        room: Vec::new(alloc),
        is_bare: false,
        since: None,
    }
}

/// A desk over this ground, its seats, and the recorder of a journal that says what it opened with.
/// `make_room` has put an empty group behind that.
pub fn open_desk<K: OpenJournal + Drop, J: Job>(
    alloc: Global,
    ground: Ground,
    journal: K,
) -> Result<(Desk<J>, Vec<Seat<J>>, Recorder<K, J>), KeepError>
    requires name { ground.name ≡ J.name }
    requires parts { ground.workers + 1 ≡ J.parts }
    requires table { ground.table ≡ J.table }
    requires opening { ground.opening ≡ J.opening }
    requires house { K.house journal ≡ J.opening.house }
    requires says { K.says journal J.opening.history }
    requires takes { K.takes journal }
{
    let (desk, seats, seat) = match Desk::<J>::with_journal(alloc, ground) {
        Ok(opened) => opened,
        Err((book, _)) => {
            drop(book);
            drop(journal);
            return Err(KeepError::Memory);
        }
    };
    let recorder = begin(alloc, &desk, journal, seat);
    Ok((desk, seats, recorder))
}

/// The book of a desk and its journal, where that keeps all of the book.
fn end<K: OpenJournal + Drop, J: Job>(
    desk: Desk<J>,
    recorder: Recorder<K, J>,
    seats: Vec<Seat<J>>,
) -> Result<(Book, K), KeepError>
    ensures run { IfOk result (λ r. IsRunOf J.opening (stored r.0)) }
    ensures kept { IfOk result (λ r. K.Keeps.keeps r.1 r.0.history) }
{
    let Recorder {
        journal,
        mut seat,
        failed: _,
        room: _,
        is_bare: _,
        since: _,
    } = recorder;
    let book = match desk.close_seen(seats, &mut seat) {
        Ok(book) => book,
        Err(left) => {
            drop(left);
            drop(journal);
            return Err(KeepError::NoThread);
        }
    };
    if seat.kept() < seat.seen() {
        drop(book);
        drop(journal);
        return Err(KeepError::Failed);
    }
    Ok((book, journal))
}

/// Gives the book back, and the journal, which keeps all of it, also what was answered to nobody.
///
/// # Errors
///
/// As `Recorder::record` says; `NoThread` where a seat is missing, and `Failed` where the journal
/// doesn't keep all.
pub fn close_desk<K: OpenJournal + Drop, J: Job, R: Wait + Clock>(
    rt: &R,
    alloc: Global,
    desk: Desk<J>,
    recorder: Recorder<K, J>,
    seats: Vec<Seat<J>>,
    board: Option<&Board>,
) -> Result<(Book, K), KeepError>
    ensures run { IfOk result (λ r. IsRunOf J.opening (stored r.0)) }
    ensures kept { IfOk result (λ r. K.Keeps.keeps r.1 r.0.history) }
{
    let mut recorder = recorder;
    if let Err(error) = recorder.record(rt, alloc, &desk, board) {
        drop(desk);
        return Err(error);
    }
    if let Err(error) = recorder.cover(rt, alloc) {
        drop(desk);
        return Err(error);
    }
    end(desk, recorder, seats)
}
