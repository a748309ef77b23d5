//! A file is begun, and one that a crash left is put at rest.

ghost use Rattle.std.specs.Prelude.{◌≡◌, ◌≤◌, ◌<◌, ◌+◌, ◌-◌, ◌^◌, ◌++◌, max, List, ℕ, length};
ghost use Rattle.std.specs.Prelude.{IsTrue, IfOk, OnOk};
ghost use Rattle.sqlite_disk.specs.Disk.{Only, CountsFault};
ghost use Rattle.gu_store.specs.Zeros.{zeros, counted, HasZero};
ghost use Rattle.gu_store.specs.Store.{StillHas, IsLeft};

use crate::zeros::write_zeros;
use sqlite_disk::Disk;
use std::io;

/// Begins a file: nothing counts, and behind it stands one zero. It is for a file that has a byte
/// at most, which is all that a crash leaves of a beginning.
///
/// # Errors
///
/// That of the disk.
pub fn create<D: Disk>(disk: &mut D) -> io::Result<()>
    requires usable { IsTrue (D.Disk.is_usable disk.old) }
    ensures usable { OnOk result (IsTrue (D.Disk.is_usable disk.new)) }
    ensures clean { D.Disk.is_clean disk.new ≡ D.Disk.is_clean disk.old }
    ensures faults { CountsFault result (D.Disk.faults disk.old) (D.Disk.faults disk.new) }
    ensures file { length (D.Disk.seen disk.old) ≤ 1
        → OnOk result (D.Disk.seen disk.new ≡ zeros 1) }
    ensures durable { OnOk result (Only (D.Disk.seen disk.new) (D.Disk.may_leave disk.new)) }
    ensures crash { (c : List ℕ) → Only (D.Disk.seen disk.old) (D.Disk.may_leave disk.old)
        → length (D.Disk.seen disk.old) ≤ 1 → D.Disk.may_leave disk.new c → length c ≤ 1 }
{
    disk.write_at(0, &[0])?;
    disk.sync()
}

/// Writes zeros over all that stands behind what counts, in a file of so many bytes. Where nothing
/// does, it lays one. Gives how many stand there then.
///
/// # Errors
///
/// That of the disk. A crash then leaves what counts, and no more bytes than there were, or one
/// behind what counts. Where the device finishes each byte that it begins, it leaves behind what
/// counts a front of what stood there: so what wasn't whole never becomes whole.
pub fn repair<D: Disk>(disk: &mut D, end: usize, size: usize) -> io::Result<usize>
    requires usable { IsTrue (D.Disk.is_usable disk.old) }
    requires within { end ≤ size }
    requires room { size < 2 ^ 62 }
    ensures usable { OnOk result (IsTrue (D.Disk.is_usable disk.new)) }
    ensures clean { D.Disk.is_clean disk.new ≡ D.Disk.is_clean disk.old }
    ensures faults { CountsFault result (D.Disk.faults disk.old) (D.Disk.faults disk.new) }
    ensures left { IfOk result (λ left. left ≡ max (size - end) 1) }
    ensures file { (before : List ℕ) → end ≡ length before → size ≡ length (D.Disk.seen disk.old)
        → StillHas before (D.Disk.seen disk.old)
        → IfOk result (λ left. D.Disk.seen disk.new ≡ before ++ zeros left) }
    ensures durable { OnOk result (Only (D.Disk.seen disk.new) (D.Disk.may_leave disk.new)) }
    ensures crash { (before c : List ℕ) → end ≡ length before
        → StillHas before (D.Disk.seen disk.old)
        → Only (D.Disk.seen disk.old) (D.Disk.may_leave disk.old)
        → D.Disk.may_leave disk.new c → StillHas before c }
    ensures few { (c : List ℕ) → size ≡ length (D.Disk.seen disk.old)
        → Only (D.Disk.seen disk.old) (D.Disk.may_leave disk.old)
        → D.Disk.may_leave disk.new c → length c ≤ max size (end + 1) }
    ensures mixed { ((d : D) → IsTrue (D.Disk.is_mixing d)) → (before front c : List ℕ)
        → end ≡ length before → size ≡ length (D.Disk.seen disk.old) → end < size
        → counted (D.Disk.seen disk.old) ≡ before ++ front
        → Only (D.Disk.seen disk.old) (D.Disk.may_leave disk.old)
        → D.Disk.may_leave disk.new c → IsLeft before front c }
    ensures zero { ((d : D) → IsTrue (D.Disk.is_mixing d)) → (before c : List ℕ)
        → end ≡ length before → size ≡ length (D.Disk.seen disk.old)
        → HasZero (D.Disk.seen disk.old)
        → StillHas before (counted (D.Disk.seen disk.old))
        → Only (D.Disk.seen disk.old) (D.Disk.may_leave disk.old)
        → D.Disk.may_leave disk.new c → HasZero c }
{
    let left = (size - end).max(1);
    write_zeros(disk, end, left)?;
    disk.sync()?;
    Ok(left)
}
