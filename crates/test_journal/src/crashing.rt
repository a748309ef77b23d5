//! A crash at each call that keeping and recovering make of a disk in memory.
//!
//! A disk breaks after so many calls, 0, 1, 2 ..: while its file is begun, and while groups are
//! committed. Of each such run a crash may leave what was written, what was
//! synced, and five files between the two, with the call that failed (`mixing.rt`). Each of these
//! files is recovered. Its history has to be that of the groups that were acknowledged, or that
//! with the group that was on its way, whole; only foreign bytes may be told as damage. Then it has
//! to go on to the last entry. And each such recovery is broken at each of its calls in turn: what
//! a crash leaves of it has to be recovered as the same history.

ghost use Rattle.std.specs.Prelude.{◌<◌, IfOk, IsTrue};
ghost use Rattle.gu_journal.specs.Keeping.{disk_of};

use crate::fault::Fault;
use crate::keeping::{Told, commit_all};
use crate::mixing::{ALL, Left, bytes_left};
use crate::reading::{Kept, attempt_beside, book_of, number_of, opening_count, read_file};
use gu_base::Entry;
use gu_journal::{Journal, RecoverError, Unrecovered};
use sqlite_disk::{Crash, Disk, Fuse, Memory};
use std::alloc::Global;
use std::mem::ManuallyDrop;

/// A disk in memory that breaks.
type Breaking = Fuse<Memory>;

/// A house, the entries of a day, how many of them it opens with, and how many are committed at
/// once.
#[derive(Clone, Copy)]
struct Day<'a> {
    house: &'a [u8],
    entries: &'a [Entry],
    opening: usize,
    group: usize,
}

/// How far a run has come: the last entry that was acknowledged, and the last of the group that was
/// on its way.
#[derive(Clone, Copy)]
struct Far {
    acknowledged: usize,
    tried: usize,
}

/// A run over a disk that broke, or that ended, and what was written and synced by then.
#[derive(Drop)]
struct Broken {
    far: Far,
    ended: bool,
    written: Vec<u8>,
    synced: Vec<u8>,
}

/// What was counted.
#[derive(Clone, Copy)]
struct Count {
    crashes: u32,
    files: u32,
    before: u32,
    behind: u32,
    damaged: u32,
    recoveries: u32,
}

/// How many calls a disk has before it is recovered: its bytes are written and synced.
const CALLS_BEFORE: u64 = 2;

/// Writes these bytes to a disk, and recovers it.
fn recovery_of<D: Disk + Drop>(
    alloc: Global,
    day: Day<'_>,
    disk: D,
    bytes: &[u8],
) -> Result<Result<Kept<D>, Unrecovered<D>>, Fault>
    requires usable { IsTrue (D.Disk.is_usable disk) }
    ensures usable { IfOk result (λ r. IfOk r (λ kept.
        IsTrue (D.Disk.is_usable (disk_of kept.journal)))) }
{
    let mut disk = disk;
    disk.write_at(0, bytes)?;
    attempt_beside(alloc, day.house, disk, day.entries)
}

/// The same bytes once more.
fn copy(alloc: Global, bytes: &[u8]) -> Result<Vec<u8>, Fault> {
    let mut out = Vec::new(alloc);
    out.extend_from_slice(bytes)?;
    Ok(out)
}

impl Told for Far {
    fn trying(&mut self, last: usize) {
        self.tried = last;
    }

    fn acknowledged(&mut self, last: usize) -> Result<(), Fault> {
        self.acknowledged = last;
        Ok(())
    }
}

/// Keeps entries of a day that follow so many others. Gives the disk back, and whether it never
/// failed.
fn keep_rest<D: Disk + Drop>(
    journal: Journal<D>,
    day: Day<'_>,
    have: usize,
    far: &mut Far,
) -> (D, bool)
    requires usable { IsTrue (D.Disk.is_usable (disk_of journal)) }
    requires some { 0 < day.group }
{
    let mut journal = journal;
    let rest = day.entries.get(have..).unwrap_or(&[]);
    let kept = commit_all(&mut journal, far, have, rest, day.group);
    (journal.into_disk(), kept.is_ok())
}

/// What was written to a disk and synced, of a run that came so far.
fn broken_of(alloc: Global, disk: Breaking, ended: bool, far: Far) -> Result<Broken, Fault> {
    let mut disk = disk;
    let written = copy(alloc, disk.inner().bytes())?;
    disk.crash();
    let synced = copy(alloc, disk.inner().bytes())?;
    Ok(Broken {
        far,
        ended,
        written,
        synced,
    })
}

/// Keeps a day on an empty disk that breaks after so many calls.
fn run_day(alloc: Global, day: Day<'_>, calls: u64) -> Result<Broken, Fault>
    requires some { 0 < day.group }
{
    let mut far = Far {
        acknowledged: day.opening,
        tried: day.opening,
    };
    let empty = Fuse::new(Memory::new(alloc), calls.saturating_add(CALLS_BEFORE));
    let (disk, ended) = match recovery_of(alloc, day, empty, b"")? {
        Ok(kept) => keep_rest(kept.journal, day, day.opening, &mut far),
        Err(Unrecovered { disk, .. }) => (disk, false),
    };
    broken_of(alloc, disk, ended, far)
}

/// Whether damage was told.
fn is_damaged(lost: Unrecovered<Breaking>) -> bool {
    let Unrecovered { disk, error } = lost;
    drop(disk);
    matches!(error, RecoverError::Damaged(_))
}

/// What is recovered of a file.
#[derive(Clone, Copy, PartialEq, Eq)]
enum Found {
    /// The first so many entries of the day.
    Front(usize),
    /// Damage was told.
    Damage,
    /// Anything else.
    Other,
}

/// What is recovered of these bytes.
fn found_in(alloc: Global, day: Day<'_>, bytes: &[u8]) -> Result<Found, Fault> {
    let whole = Fuse::new(Memory::new(alloc), u64::MAX);
    match recovery_of(alloc, day, whole, bytes)? {
        Ok(kept) => {
            if kept.is_front {
                Ok(Found::Front(kept.have))
            } else {
                Ok(Found::Other)
            }
        }
        Err(lost) => {
            if is_damaged(lost) {
                Ok(Found::Damage)
            } else {
                Ok(Found::Other)
            }
        }
    }
}

/// Whether a recovery of these bytes goes on to the last entry, which is recovered too.
fn goes_on(alloc: Global, day: Day<'_>, bytes: &[u8], have: usize) -> Result<bool, Fault>
    requires some { 0 < day.group }
{
    let mut far = Far {
        acknowledged: have,
        tried: have,
    };
    let whole = Fuse::new(Memory::new(alloc), u64::MAX);
    let (disk, ended) = match recovery_of(alloc, day, whole, bytes)? {
        Ok(kept) => keep_rest(kept.journal, day, have, &mut far),
        Err(Unrecovered { disk, .. }) => (disk, false),
    };
    let found = found_in(alloc, day, disk.inner().bytes())?;
    drop(disk);
    Ok(ended && found == Found::Front(day.entries.len()))
}

/// Whether what a crash leaves of a disk, written or synced alone, has so many entries.
fn has_front(alloc: Global, day: Day<'_>, disk: Breaking, have: usize) -> Result<bool, Fault> {
    let mut disk = disk;
    let written = found_in(alloc, day, disk.inner().bytes())?;
    disk.crash();
    let synced = found_in(alloc, day, disk.inner().bytes())?;
    drop(disk);
    Ok(written == Found::Front(have) && synced == Found::Front(have))
}

/// Breaks a recovery at each of its calls. What a crash leaves of it has to have as many entries.
fn crash_recovery(
    alloc: Global,
    day: Day<'_>,
    bytes: &[u8],
    have: usize,
    count: &mut Count,
) -> Result<(), Fault> {
    for calls in 0..1000u64 {
        let breaking = Fuse::new(Memory::new(alloc), calls.saturating_add(CALLS_BEFORE));
        match recovery_of(alloc, day, breaking, bytes)? {
            Ok(_) => return Ok(()),
            Err(Unrecovered { disk, .. }) => {
                count.recoveries = count.recoveries.saturating_add(1);
                if !has_front(alloc, day, disk, have)? {
                    return Err(Fault::Other("a recovery that broke left another history"));
                }
            }
        }
    }
    Err(Fault::Other("a recovery without an end"))
}

/// Recovers what a crash left, of a run that had come so far.
fn check(
    alloc: Global,
    day: Day<'_>,
    far: Far,
    bytes: &[u8],
    is_foreign: bool,
    count: &mut Count,
) -> Result<(), Fault>
    requires some { 0 < day.group }
{
    count.files = count.files.saturating_add(1);
    match found_in(alloc, day, bytes)? {
        Found::Front(have) if have == far.acknowledged || have == far.tried => {
            if have == far.acknowledged {
                count.before = count.before.saturating_add(1);
            } else {
                count.behind = count.behind.saturating_add(1);
            }
            if !goes_on(alloc, day, bytes, have)? {
                return Err(Fault::Other("another history after going on"));
            }
            crash_recovery(alloc, day, bytes, have, count)
        }
        Found::Damage if is_foreign => {
            count.damaged = count.damaged.saturating_add(1);
            Ok(())
        }
        _ => Err(Fault::Other("a crash left another history")),
    }
}

/// Recovers each file that a crash may leave of a run, where the call that failed was to leave
/// these bytes.
fn check_all(
    alloc: Global,
    day: Day<'_>,
    broken: &Broken,
    next: &[u8],
    count: &mut Count,
) -> Result<(), Fault>
    requires some { 0 < day.group }
{
    count.crashes = count.crashes.saturating_add(1);
    check(alloc, day, broken.far, &broken.written, false, count)?;
    check(alloc, day, broken.far, &broken.synced, false, count)?;
    for how in ALL {
        let bytes = bytes_left(alloc, &broken.synced, next, *how)?;
        check(alloc, day, broken.far, &bytes, *how == Left::Foreign, count)?;
    }
    Ok(())
}

/// Checks what a crash leaves of a run that broke, and breaks the day one call later.
fn crash_once(
    alloc: Global,
    day: Day<'_>,
    broken: Broken,
    calls: u64,
    count: &mut Count,
) -> Result<Broken, Fault>
    requires some { 0 < day.group }
{
    let next = run_day(alloc, day, calls)?;
    check_all(alloc, day, &broken, &next.written, count)?;
    drop(broken);
    Ok(next)
}

/// Breaks a day at each of its calls.
fn crash_day(alloc: Global, day: Day<'_>, count: &mut Count) -> Result<(), Fault>
    requires some { 0 < day.group }
{
    let mut broken = run_day(alloc, day, 0)?;
    for calls in 1..100_000u64 {
        if broken.ended {
            return Ok(());
        }
        broken = crash_once(alloc, day, broken, calls, count)?;
    }
    Err(Fault::Other("a day without an end"))
}

/// The same, and tells what was counted.
fn tell_day(rt: &HostRuntime, day: Day<'_>) -> Result<(), Fault>
    requires some { 0 < day.group }
{
    let mut count = Count {
        crashes: 0,
        files: 0,
        before: 0,
        behind: 0,
        damaged: 0,
        recoveries: 0,
    };
    crash_day(rt.alloc(), day, &mut count)?;
    println!(rt; "{} crashes, {} files", count.crashes, count.files)?;
    println!(rt;
        "{} as before, {} with the group",
        count.before, count.behind
    )?;
    println!(rt;
        "{} damaged, {} crashes of recoveries",
        count.damaged, count.recoveries
    )?;
    Ok(())
}

/// Breaks the day of a stream, and tells what was counted.
pub(crate) fn crash_all(
    rt: &HostRuntime,
    house: &str,
    stream: &str,
    group: &str,
) -> Result<(), Fault> {
    let group = number_of(group)?;
    let file = read_file(rt, house)?;
    let opening = opening_count(rt.alloc(), &file)?;
    let bytes = read_file(rt, stream)?;
    // Left as it is: one for each line of words.
    let whole = ManuallyDrop::new(book_of(rt.alloc(), &file, &bytes)?);
    tell_day(
        rt,
        Day {
            house: &file,
            entries: whole.history(),
            opening,
            group,
        },
    )
}
