//! Room on the disk for a group, before anybody is let in.

ghost use Rattle.std.specs.Prelude.{◌≡◌, List, OnOk};
ghost use Rattle.gu_base.specs.declared.entry.Entry.{Entry as EntryData};

use crate::journals::OpenJournal;
use crate::recorder::moment;
use gu_command::{KeepError, RecordError};
use std::io;
use std::time::Clock;

/// Whether a disk has refused since it is full, a share of it is, or the file is as long as it may
/// be: EFBIG, ENOSPC and EDQUOT.
fn lacks_room(error: &io::Error) -> bool {
    matches!(error.raw_os_error(), Some(27 | 28 | 122))
}

/// Has room for a group made, by one without entries. What the journal says stays.
///
/// # Errors
///
/// `Record`, where the group isn't recorded, `NoRoom` where the disk has no room for it; `Clock`;
/// `Memory`.
pub fn make_room<R: Clock, K: OpenJournal>(rt: &R, journal: &mut K) -> Result<(), KeepError>
    requires { K.takes journal.old }
    ensures takes { OnOk result (K.takes journal.new) }
    ensures house { K.house journal.new ≡ K.house journal.old }
    ensures says { (h : List EntryData) → K.says journal.old h
        → OnOk result (K.says journal.new h) }
{
    let Some(sent) = moment(rt) else {
        return Err(KeepError::Clock);
    };
    match journal.record(sent.as_bytes(), &[]) {
        Ok(()) => Ok(()),
        Err(RecordError::Memory) => Err(KeepError::Memory),
        Err(RecordError::Disk(error)) if lacks_room(&error) => {
            Err(KeepError::Record(RecordError::NoRoom))
        }
        Err(error) => Err(KeepError::Record(error)),
    }
}
