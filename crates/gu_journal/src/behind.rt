//! What stands behind what counts of a journal's file.

ghost use Rattle.std.specs.Prelude.{◌≡◌, ◌≤◌, ◌<◌, ◌^◌, ◌↔◌, [], length, drop, codes, decimal};
ghost use Rattle.std.specs.Prelude.{Some, false, IsTrue, IfOk, IfErr, OnOk};
ghost use Rattle.gu_codec.specs.Answer.{pairs};
ghost use Rattle.gu_codec.specs.Tags as tag;
ghost use Rattle.gu_message.specs.Finding.{value_of};
ghost use Rattle.gu_journal.specs.Damages.{IsLaterSeal, HasLaterSeal, IsBadRest};
ghost use Rattle.gu_journal.specs.Held.{OnlyReads, end_of};
ghost use Rattle.gu_journal.specs.Places.{IsAt};
ghost use Rattle.gu_journal.specs.Taking.{IsTold};
ghost use Rattle.gu_journal.specs.declared.replay.Stand.TheVariants.{Fresh};

use crate::damage::{Cause, RecoverError};
use crate::progress::Progress;
use crate::replay::{FramePlace, Replay, Stand};
use crate::session::LONGEST_BEGINNING;
use crate::window::Window;
use gu_codec::{Fields, Frame, tags};
use gu_message::{Index, SLOTS, Slot, msg_types, walk};
use itoa::Buffer;
use sqlite_disk::Disk;

/// Whether a message is a seal, by its type alone.
fn is_seal(message: &Index<'_, '_>) -> bool
    ensures { IsTrue result ↔ (value_of tag.msg_type message.now ≡ Some (codes "0")) }
{
    message.has_value(tags::MSG_TYPE, msg_types::HEARTBEAT)
}

/// Whether a seal tells of a group whose first entry has this number.
fn begins_at(message: &Index<'_, '_>, number: u32) -> bool
    ensures { IsTrue result ↔ (value_of tag.text message.now ≡ Some (decimal number)) }
{
    let mut digits = Buffer::new();
    message.has_value(tags::TEXT, digits.format(number).as_bytes())
}

/// Whether a message is the seal of another group than the next one, whose first entry has this
/// number. Where there is no head yet, each seal is.
fn is_later_seal(fields: Fields<'_>, stand: Stand, number: u32) -> bool
    ensures { IsTrue result ↔ IsLaterSeal stand number (pairs fields.entry) }
{
    let mut slots = [Slot::none(); SLOTS];
    let walked = walk(fields, &mut slots);
    let message = Index::new(fields, &slots, walked);
    is_seal(&message) && (stand == Stand::Fresh || !begins_at(&message, number))
}

/// Whether such a seal stands in the file from a place on, at any byte. So many entries stand
/// before it.
fn has_later_seal<D: Disk, P: Progress>(
    disk: &mut D,
    size: usize,
    window: &mut Window,
    replay: &Replay,
    entries: u32,
    progress: &mut P,
) -> Result<bool, RecoverError>
    requires usable { IsTrue (D.Disk.is_usable disk.old) }
    requires short { size ≤ 2 ^ 60 }
    requires size { IsTrue (D.Disk.is_clean disk.old) → size ≡ length (D.Disk.seen disk.old) }
    requires empty { window.old.bytes ≡ [] }
    requires within { window.old.at ≤ size }
    ensures reads { OnlyReads D.Disk.seen D.Disk.may_leave D.Disk.is_usable D.Disk.is_clean
        disk.old disk.new }
    ensures err { IfErr result (λ e. IsTold e → ⊥) }
    ensures found { IfOk result (λ found. IsTrue found → IsTrue (D.Disk.is_clean disk.new)
        → HasLaterSeal replay.now.stand replay.now.first
        (drop window.old.at (D.Disk.seen disk.old))) }
    ensures none { IfOk result (λ found. found ≡ false → IsTrue (D.Disk.is_clean disk.new)
        → HasLaterSeal replay.now.stand replay.now.first
        (drop window.old.at (D.Disk.seen disk.old)) → ⊥) }
{
    'frames: loop {
        match window.front() {
            Frame::Whole { fields, .. } => {
                if is_later_seal(fields, replay.stand, replay.first) {
                    return Ok(true);
                }
                window.pass_to_frame();
            }
            Frame::Garbled { .. } => window.pass_to_frame(),
            Frame::Broken { .. } => window.pass_to_frame(),
            Frame::Partial => {
                if window.at() + window.len() < size {
                    window.fill(disk, size)?;
                    progress.read(window.at() + window.len(), entries);
                } else if window.len() == 0 {
                    return Ok(false);
                } else {
                    window.pass_to_frame();
                }
            }
        }
    }
}

/// Looks at what wasn't taken of a file of so many bytes, of which no more count than the window
/// has: it has to be what a crash may leave.
pub(crate) fn check_rest<D: Disk, P: Progress>(
    disk: &mut D,
    size: usize,
    window: &mut Window,
    replay: &Replay,
    place: FramePlace,
    progress: &mut P,
) -> Result<(), RecoverError>
    requires usable { IsTrue (D.Disk.is_usable disk.old) }
    requires short { size ≤ 2 ^ 60 }
    requires size { IsTrue (D.Disk.is_clean disk.old) → size ≡ length (D.Disk.seen disk.old) }
    requires within { end_of window.old ≤ size }
    requires front { place.at ≤ end_of window.old }
    ensures reads { OnlyReads D.Disk.seen D.Disk.may_leave D.Disk.is_usable D.Disk.is_clean
        disk.old disk.new }
    ensures cut { OnOk result (end_of window.old < size) }
    ensures none { OnOk result (IsTrue (D.Disk.is_clean disk.new)
        → HasLaterSeal replay.now.stand replay.now.first
        (drop place.at (D.Disk.seen disk.old)) → ⊥) }
    ensures cause { IfErr result (λ e. IsTrue (D.Disk.is_clean disk.new)
        → IsBadRest replay.now.stand replay.now.first (end_of window.old) size
        (drop place.at (D.Disk.seen disk.old)) e) }
    ensures place { IfErr result (λ e. IsAt place.at place.entry e) }
{
    if window.at() + window.len() >= size {
        return Err(place.damaged(Cause::Cut));
    }
    if replay.stand == Stand::Fresh && size > LONGEST_BEGINNING {
        return Err(place.damaged(Cause::NoBeginning));
    }
    window.go_to(place.at);
    let entries = place.entry.saturating_sub(1);
    if has_later_seal(disk, size, window, replay, entries, progress)? {
        return Err(place.damaged(Cause::LaterGroup));
    }
    Ok(())
}
