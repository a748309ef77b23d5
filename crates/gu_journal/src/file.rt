//! A journal's file: its frames are taken, and it is put at rest.

ghost use Rattle.std.specs.Prelude.{◌≡◌, ◌≤◌, ◌<◌, ◌+◌, ◌^◌, [], List, ℕ, length, IsTrue};
ghost use Rattle.std.specs.Prelude.{IfOk, IfErr, OnOk};
ghost use Rattle.sqlite_disk.specs.Disk.{Only};
ghost use Rattle.gu_base.specs.Runs.{opening_history};
ghost use Rattle.gu_base.specs.declared.entry.Entry.{Entry};
ghost use Rattle.gu_journal.specs.Counting.{Stands, StartsAlike};
ghost use Rattle.gu_journal.specs.Held.{OnlyReads, IsUntouched, at_front};
ghost use Rattle.gu_journal.specs.Places.{IsAt, NamesCause};
ghost use Rattle.gu_journal.specs.Recovered.{Replays, Meets, MeetsReason, Finds, Counts};
ghost use Rattle.gu_journal.specs.Recovered.{CountsAgain, Brings, Settles};
ghost use Rattle.gu_journal.specs.Taking.{IsTold};
ghost use Rattle.gu_journal.specs.declared.replay.Stand.TheVariants.{Fresh};

use crate::behind::check_rest;
use crate::books::reopen;
use crate::damage::{Cause, HouseDigest, RecoverError};
use crate::group::MOST_BYTES;
use crate::progress::Progress;
use crate::replay::{FramePlace, Replay, Stand, next_number};
use crate::window::Window;
use gu_book::{Book, HashKey};
use gu_codec::Frame;
use gu_store::{create, repair};
use sha2::{Digest, Sha512};
use sqlite_disk::Disk;
use std::alloc::Global;
use std::io;

/// What was met at the front of what is held.
#[derive(Clone, Copy)]
pub(crate) enum Met {
    /// A frame of so many bytes, which was taken.
    Taken { len: usize },
    /// What only begins a frame.
    Begun,
}

/// Takes the frame at the front, if one stands there whole.
fn take_front(
    alloc: Global,
    window: &Window,
    replay: &mut Replay,
    book: &mut Book,
    pin: &HouseDigest,
    place: FramePlace,
) -> Result<Met, RecoverError>
    requires entry { place.entry ≡ length book.old.history + 1 }
    requires small { place.at + length window.now.bytes < 2 ^ 64 }
    ensures meets { IfOk result (Meets pin.now.bytes window.now.bytes place.at replay.old book.old
        replay.new book.new) }
    ensures cause { IfErr result (λ e. MeetsReason pin.now.bytes window.now.bytes replay.old
        book.old e) }
    ensures place { IfErr result (λ e. IsAt place.at place.entry e) }
{
    match window.front() {
        Frame::Whole { fields, len } => {
            replay.take(alloc, book, pin, fields, window.bytes(len), place.at)?;
            Ok(Met::Taken { len })
        }
        Frame::Garbled { .. } => Err(place.damaged(Cause::Garbled)),
        Frame::Broken { .. } => Err(place.damaged(Cause::NoFrame)),
        Frame::Partial => Ok(Met::Begun),
    }
}

/// Takes the frames at the front of a file of which so many bytes may count, up to its first zero.
/// Tells by `size` how many do.
fn take_frames<D: Disk, P: Progress>(
    alloc: Global,
    disk: &mut D,
    size: &mut usize,
    window: &mut Window,
    replay: &mut Replay,
    book: &mut Book,
    pin: &HouseDigest,
    progress: &mut P,
) -> Result<(), RecoverError>
    requires usable { IsTrue (D.Disk.is_usable disk.old) }
    requires short { size.old ≤ 2 ^ 60 }
    requires front { window.old ≡ at_front [] }
    requires new { replay.old.stand ≡ Fresh }
    requires fresh { Replays book.old.house pin.now.bytes [] replay.old book.old }
    ensures reads { OnlyReads D.Disk.seen D.Disk.may_leave D.Disk.is_usable D.Disk.is_clean
        disk.old disk.new }
    ensures finds { OnOk result (Finds (D.Disk.is_clean disk.new) (D.Disk.seen disk.old)
        size.old size.new book.old.house pin.now.bytes window.new replay.new book.new) }
    ensures cause { IfErr result (λ e. NamesCause (D.Disk.is_clean disk.new) (D.Disk.seen disk.old)
        book.old.house pin.now.bytes e) }
{
    'frames: loop {
        let place = FramePlace {
            at: window.at(),
            entry: next_number(book),
        };
        let met = take_front(alloc, window, replay, book, pin, place)?;
        match met {
            Met::Taken { len } => window.pass(len),
            Met::Begun => {
                if window.at() + window.len() >= *size {
                    return Ok(());
                }
                window.fill_counted(disk, size)?;
                progress.read(window.at() + window.len(), place.entry - 1);
            }
        }
    }
}

/// Takes the frames of a file of so many bytes, and looks at what stands behind what counts.
fn take_file<D: Disk, P: Progress>(
    alloc: Global,
    disk: &mut D,
    size: usize,
    replay: &mut Replay,
    book: &mut Book,
    pin: &HouseDigest,
    progress: &mut P,
) -> Result<(), RecoverError>
    requires usable { IsTrue (D.Disk.is_usable disk.old) }
    requires short { size ≤ 2 ^ 60 }
    requires size { IsTrue (D.Disk.is_clean disk.old) → size ≡ length (D.Disk.seen disk.old) }
    requires new { replay.old.stand ≡ Fresh }
    requires fresh { Replays book.old.house pin.now.bytes [] replay.old book.old }
    ensures reads { OnlyReads D.Disk.seen D.Disk.may_leave D.Disk.is_usable D.Disk.is_clean
        disk.old disk.new }
    ensures counts { OnOk result (Counts (D.Disk.is_clean disk.new) (D.Disk.seen disk.old) size
        book.old.house pin.now.bytes replay.new book.new) }
    ensures cause { IfErr result (λ e. NamesCause (D.Disk.is_clean disk.new) (D.Disk.seen disk.old)
        book.old.house pin.now.bytes e) }
{
    let mut window = Window::new(alloc)?;
    let mut end = size;
    take_frames(
        alloc,
        disk,
        &mut end,
        &mut window,
        replay,
        book,
        pin,
        progress,
    )?;
    let place = FramePlace {
        at: window.at(),
        entry: next_number(book),
    };
    check_rest(disk, size, &mut window, replay, place, progress)
}

/// Takes the frames up to a seal that was met there once more, into a book in its opening, since
/// the entries behind it don't count.
fn take_again<D: Disk, P: Progress>(
    alloc: Global,
    disk: &mut D,
    sealed: usize,
    replay: &mut Replay,
    book: &mut Book,
    pin: &HouseDigest,
    progress: &mut P,
) -> Result<(), RecoverError>
    requires usable { IsTrue (D.Disk.is_usable disk.old) }
    requires short { sealed ≤ 2 ^ 60 }
    requires new { replay.old.stand ≡ Fresh }
    requires fresh { Replays book.old.house pin.now.bytes [] replay.old book.old }
    ensures reads { OnlyReads D.Disk.seen D.Disk.may_leave D.Disk.is_usable D.Disk.is_clean
        disk.old disk.new }
    ensures again { OnOk result (CountsAgain (D.Disk.is_clean disk.new) (D.Disk.seen disk.old)
        sealed book.old.house pin.now.bytes replay.new book.new) }
    ensures cause { IfErr result (λ e. NamesCause (D.Disk.is_clean disk.new) (D.Disk.seen disk.old)
        book.old.house pin.now.bytes e) }
{
    let mut window = Window::new(alloc)?;
    let mut end = sealed;
    take_frames(
        alloc,
        disk,
        &mut end,
        &mut window,
        replay,
        book,
        pin,
        progress,
    )?;
    if window.at() == sealed && replay.stand == Stand::Sealed {
        Ok(())
    } else {
        Err(RecoverError::Disk(io::Error::from(io::ErrorKind::Other)))
    }
}

/// How many bytes of the file are a journal, of which there may be none yet, how many zeros stand
/// behind them, and the hasher that has taken them in.
#[derive(Drop)]
pub(crate) struct Rest {
    pub(crate) hasher: Sha512,
    pub(crate) end: usize,
    pub(crate) left: usize,
    pub(crate) is_new: bool,
}

/// Brings a book from its opening to the history of a file of so many bytes.
fn take_counted<D: Disk, P: Progress>(
    alloc: Global,
    disk: &mut D,
    size: usize,
    book: &mut Book,
    key: HashKey,
    pin: &HouseDigest,
    progress: &mut P,
) -> Result<Replay, RecoverError>
    requires usable { IsTrue (D.Disk.is_usable disk.old) }
    requires short { size ≤ 2 ^ 60 }
    requires size { IsTrue (D.Disk.is_clean disk.old) → size ≡ length (D.Disk.seen disk.old) }
    requires opening { book.old.history ≡ opening_history book.old.house }
    ensures reads { OnlyReads D.Disk.seen D.Disk.may_leave D.Disk.is_usable D.Disk.is_clean
        disk.old disk.new }
    ensures brings { IfOk result (λ replay. Brings (D.Disk.is_clean disk.new)
        (D.Disk.seen disk.old) size book.old.house pin.now.bytes replay book.new) }
    ensures cause { IfErr result (λ e. NamesCause (D.Disk.is_clean disk.new) (D.Disk.seen disk.old)
        book.old.house pin.now.bytes e) }
{
    let mut replay = Replay::new(alloc);
    take_file(alloc, disk, size, &mut replay, book, pin, progress)?;
    if replay.stand != Stand::Unsealed {
        return Ok(replay);
    }
    let sealed = replay.sealed;
    drop(replay);
    reopen(alloc, book, key)?;
    let mut replay = Replay::new(alloc);
    take_again(alloc, disk, sealed, &mut replay, book, pin, progress)?;
    Ok(replay)
}

/// Brings a book from its opening to the history of a file, and writes zeros over what stands
/// behind what counts.
pub(crate) fn settle<D: Disk, P: Progress>(
    alloc: Global,
    disk: &mut D,
    book: &mut Book,
    key: HashKey,
    pin: &HouseDigest,
    progress: &mut P,
) -> Result<Rest, RecoverError>
    requires durable { Only (D.Disk.seen disk.old) (D.Disk.may_leave disk.old) }
    requires usable { IsTrue (D.Disk.is_usable disk.old) }
    requires opening { book.old.history ≡ opening_history book.old.house }
    ensures settles { IfOk result (λ rest. Settles (D.Disk.is_clean disk.new) (D.Disk.seen
        disk.old) (D.Disk.seen disk.new)
        book.old.house pin.now.bytes rest book.new) }
    ensures durable { OnOk result (Only (D.Disk.seen disk.new) (D.Disk.may_leave disk.new)) }
    ensures usable { OnOk result (IsTrue (D.Disk.is_usable disk.new)) }
    ensures clean { IsTrue (D.Disk.is_clean disk.new) → IsTrue (D.Disk.is_clean disk.old) }
    ensures cause { IfErr result (λ e. NamesCause (D.Disk.is_clean disk.new) (D.Disk.seen disk.old)
        book.old.house pin.now.bytes e) }
    ensures untouched { IfErr result (λ e. IsTold e
        → IsUntouched D.Disk.seen D.Disk.may_leave disk.old disk.new) }
    ensures crash { (c : List ℕ) (k : List Entry) → IsTrue (D.Disk.is_clean disk.new)
        → D.Disk.may_leave disk.new c
        → Stands book.old.house pin.now.bytes (D.Disk.seen disk.old) k
        → Stands book.old.house pin.now.bytes c k }
    ensures mixed { ((d : D) → IsTrue (D.Disk.is_mixing d)) → (c : List ℕ)
        → IsTrue (D.Disk.is_clean disk.new) → D.Disk.may_leave disk.new c
        → StartsAlike book.old.house pin.now.bytes (D.Disk.seen disk.old) c }
{
    let size = disk.len()?;
    if size > MOST_BYTES {
        return Err(RecoverError::Full);
    }
    if size <= 1 {
        create(disk)?;
        return Ok(Rest {
            hasher: Sha512::new(),
            end: 0,
            left: 1,
            is_new: true,
        });
    }
    let replay = take_counted(alloc, disk, size, book, key, pin, progress)?;
    let end = replay.sealed;
    let is_new = replay.stand == Stand::Fresh;
    let left = repair(disk, end, size)?;
    Ok(Rest {
        hasher: replay.into_hasher(),
        end,
        left,
        is_new,
    })
}
