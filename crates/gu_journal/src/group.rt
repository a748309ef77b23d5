//! A group as it is written: the frames of its entries, and its seal.

ghost use Rattle.std.specs.Prelude.{◌≡◌, ◌⊎◌, ◌≤◌, ◌<◌, ◌+◌, ◌^◌, ◌++◌, ℕ, length, true, false};
ghost use Rattle.std.specs.Prelude.{OnOk, IfErr};
ghost use Rattle.std.specs.List.{AllByRecursion};
ghost use Rattle.gu_codec.specs.Writing.{IsText};
ghost use Rattle.sha2.specs.declared.Sha512.{Sha512 as HasherValue};
ghost use Rattle.gu_journal.specs.Causes.{IsStopped};
ghost use Rattle.gu_journal.specs.Groups.{entry_frames, IsMoment, IsSayableEntry, IsGroupOf};

use crate::error::JournalError;
use crate::lawful::firm_is_lawful;
use crate::sayable::is_sayable;
use crate::session::write_seal;
use crate::stamp::Stamp;
use crate::writing::write_entry;
use gu_base::{Entry, Number};
use sha2::{Digest, Sha512};
use std::alloc::Global;

/// The most bytes of a group, and of a file that a group is put behind.
pub(crate) const MOST_BYTES: usize = 1 << 60;

/// Room for a group, which is kept, so that memory is asked for only where more is needed than ever
/// before.
#[derive(Drop)]
pub(crate) struct Room {
    /// For the group.
    pub(crate) text: Vec<u8>,
    /// For the fields of a call.
    pub(crate) body: Vec<u8>,
}

impl Room {
    /// None taken yet.
    pub(crate) fn new(alloc: Global) -> Room {
        Room {
            text: Vec::new(alloc),
            body: Vec::new(alloc),
        }
    }
}

/// Whether so many entries may follow, of which the first has this number.
fn has_room(first: u32, count: usize) -> bool
    ensures yes { result ≡ true → (0 < first) × (first + count ≤ 1000001) }
    ensures no { result ≡ false → (first ≡ 0) ⊎ (1000001 < first + count) }
{
    let first = first as usize;
    let most = Number::MAX as usize;
    0 < first && first <= most + 1 && count <= most + 1 - first
}

/// Appends the frames of these entries, of which the first has the number of the stamp.
fn write_entries(
    room: &mut Room,
    first: Stamp,
    moment: &[u8],
    entries: &[Entry],
) -> Result<(), JournalError>
    requires moment { IsText moment.now }
    requires few { first.number + length entries.now ≤ 1000001 }
    ensures text { OnOk result (room.new.text.items ≡ room.old.text.items
        ++ entry_frames first.house moment.now first.number entries.now) }
    ensures sayable { OnOk result (AllByRecursion IsSayableEntry entries.now) }
    ensures cause { IfErr result (λ e. (size : ℕ) (hasher : HasherValue)
        → IsStopped first.house moment.now size hasher first.number entries.now e) }
{
    for i in 0..entries.len() {
        let entry = &entries[i];
        let stamp = Stamp {
            house: first.house,
            number: first.number + i as u32,
        };
        if !is_sayable(entry) {
            return Err(JournalError::Unsayable {
                entry: stamp.number,
            });
        }
        write_entry(&mut room.text, &mut room.body, stamp, moment, entry)?;
    }
    Ok(())
}

/// Writes the group of these entries in place of what was in the room, of which the first has the
/// number of the stamp. The hasher has taken in all bytes of the file before the group, and takes
/// in the group's frames.
fn write_frames(
    room: &mut Room,
    hasher: &mut Sha512,
    first: Stamp,
    moment: &[u8],
    entries: &[Entry],
) -> Result<(), JournalError>
    requires moment { IsMoment moment.now }
    ensures group { OnOk result (IsGroupOf first.house moment.now first.number
        entries.now hasher.old hasher.new room.new.text.items) }
    ensures cause { IfErr result (λ e. (size : ℕ)
        → IsStopped first.house moment.now size hasher.old first.number entries.now e) }
{
    firm_is_lawful(&first.house);
    if !has_room(first.number, entries.len()) {
        return Err(JournalError::Full);
    }
    room.text.clear();
    write_entries(room, first, moment, entries)?;
    hasher.update(room.text.as_slice());
    let seal_at = room.text.len();
    let digest = hasher.clone()?.finalize();
    let stamp = Stamp {
        house: first.house,
        number: first.number + entries.len() as u32,
    };
    write_seal(&mut room.text, stamp, moment, &digest, first.number)?;
    hasher.update(&room.text[seal_at..]);
    Ok(())
}

/// The same, of at most 2^60 bytes.
pub(crate) fn write_group(
    room: &mut Room,
    hasher: &mut Sha512,
    first: Stamp,
    moment: &[u8],
    entries: &[Entry],
) -> Result<(), JournalError>
    requires moment { IsMoment moment.now }
    ensures group { OnOk result (IsGroupOf first.house moment.now first.number
        entries.now hasher.old hasher.new room.new.text.items) }
    ensures short { OnOk result (length room.new.text.items ≤ 2 ^ 60) }
    ensures cause { IfErr result (λ e. (size : ℕ)
        → IsStopped first.house moment.now size hasher.old first.number entries.now e) }
{
    write_frames(room, hasher, first, moment, entries)?;
    if room.text.len() > MOST_BYTES {
        return Err(JournalError::Full);
    }
    Ok(())
}
