//! Zeros are written to a disk.

ghost use Rattle.std.specs.Prelude.{◌≡◌, ◌≤◌, ◌<◌, ◌+◌, ◌^◌};
ghost use Rattle.std.specs.Prelude.{IsTrue, OnOk};
ghost use Rattle.sqlite_disk.specs.Disk.{Holds, CountsFault};
ghost use Rattle.gu_store.specs.Zeros.{zeros, IsZeroing};

use sqlite_disk::Disk;
use std::io;

/// The most zeros that are written at once.
const PIECE: usize = 1 << 16;

/// As many zeros.
const ZEROS: [u8; PIECE] = [0; PIECE];

/// So many zeros, of which there are at most `PIECE`.
fn zeros_of(count: usize) -> &'static [u8]
    requires { count ≤ 65536 }
    ensures { result.now ≡ zeros count }
{
    &ZEROS[..count]
}

/// Writes so many zeros at a place, of which there are at most `PIECE`.
fn write_piece<D: Disk>(disk: &mut D, at: usize, count: usize) -> io::Result<()>
    requires usable { IsTrue (D.Disk.is_usable disk.old) }
    requires few { count ≤ 65536 }
    requires small { at + count < 2 ^ 64 }
    ensures usable { IsTrue (D.Disk.is_usable disk.new) }
    ensures clean { D.Disk.is_clean disk.new ≡ D.Disk.is_clean disk.old }
    ensures faults { CountsFault result (D.Disk.faults disk.old) (D.Disk.faults disk.new) }
    ensures written { OnOk result (0 < count → Holds (D.Disk.seen disk.new) at (zeros count)) }
    ensures zeroing { IsZeroing D.Disk.seen D.Disk.may_leave D.Disk.is_mixing at count
        disk.old disk.new }
{
    disk.write_at(at, zeros_of(count))
}

/// Writes so many zeros at a place.
///
/// # Errors
///
/// That of the disk.
pub(crate) fn write_zeros<D: Disk>(disk: &mut D, at: usize, count: usize) -> io::Result<()>
    requires usable { IsTrue (D.Disk.is_usable disk.old) }
    requires small { at + count < 2 ^ 64 }
    ensures usable { IsTrue (D.Disk.is_usable disk.new) }
    ensures clean { D.Disk.is_clean disk.new ≡ D.Disk.is_clean disk.old }
    ensures faults { CountsFault result (D.Disk.faults disk.old) (D.Disk.faults disk.new) }
    ensures written { OnOk result (0 < count → Holds (D.Disk.seen disk.new) at (zeros count)) }
    ensures zeroing { IsZeroing D.Disk.seen D.Disk.may_leave D.Disk.is_mixing at count
        disk.old disk.new }
{
    let mut done = 0;
    while done < count {
        let piece = (count - done).min(PIECE);
        write_piece(disk, at + done, piece)?;
        done += piece;
    }
    Ok(())
}
