//! The ways to run a case.

use crate::rows::cases::Way;
use crate::streams::{
    AtEnd, Interruptions, Narrow, Pieces, Taking, pieces_of, takes_all, writer_of,
};
use gu_parties::House;
use gu_server::{Counted, RunError, run_batch, run_trace};
use std::alloc::Global;
use std::fmt::Display;
use std::io::Print;

/// The house of all rows, without the line of its version.
const HOUSE: &[u8] =
    b"HOUSE HSE\nFIRM AAA\nFIRM BBB\nFIRM CCC\nACCOUNT AAA A1\nACCOUNT AAA A2\nACCOUNT BBB B1\n\
      ACCOUNT BBB B2\nACCOUNT CCC C1\nINSTRUMENT ESZ6\nAGREEMENT AAA BBB 125 500\n\
      AGREEMENT BBB CCC 40 100\n";

/// What a case runs on: its name, whether its house's agreements are opening calls, and its input.
#[derive(Clone, Copy)]
pub(crate) struct Row<'a> {
    pub(crate) name: &'a str,
    pub(crate) opens: bool,
    pub(crate) input: &'a [u8],
}

/// How a batch ended, and what it wrote.
#[derive(Drop)]
struct Outcome {
    result: Result<(), RunError>,
    out: Vec<u8>,
}

/// Writes a value. Where that fails, the program hasn't written what it must.
fn say<D: Display + Drop>(rt: &HostRuntime, value: D) {
    let _ = rt.print(value);
}

/// Writes a value and the end of a line.
pub(crate) fn say_line<D: Display + Drop>(rt: &HostRuntime, value: D) {
    let _ = rt.println(value);
}

/// The house of a row.
fn house(alloc: Global, opens: bool) -> Option<House> {
    let version = if opens {
        b"GIVEUP 2\n".as_slice()
    } else {
        b"GIVEUP 1\n".as_slice()
    };
    let mut text = Vec::new(alloc);
    if text.extend_from_slice(version).is_err() || text.extend_from_slice(HOUSE).is_err() {
        return None;
    }
    House::parse(alloc, text.as_slice()).ok()
}

/// Runs the batch over a reader and a writer.
fn run(alloc: Global, row: &Row<'_>, pieces: Pieces<'_>, taking: Taking) -> Option<Outcome> {
    let house = house(alloc, row.opens)?;
    let mut reader = Counted::new(pieces);
    let mut writer = Counted::new(writer_of(alloc, taking));
    let result = run_batch(alloc, &mut reader, &mut writer, house);
    let Narrow { held, .. } = writer.into_inner();
    Some(Outcome { result, out: held })
}

/// The totals after the input.
fn total(alloc: Global, row: &Row<'_>) -> Option<Outcome> {
    let house = house(alloc, row.opens)?;
    let mut reader = Counted::new(pieces_of(row.input, 4096));
    let mut writer = Counted::new(writer_of(alloc, takes_all()));
    let result = run_trace(alloc, &mut reader, &mut writer, house, None);
    let Narrow { held, .. } = writer.into_inner();
    Some(Outcome { result, out: held })
}

/// The batch over the whole input.
fn run_whole(alloc: Global, row: &Row<'_>) -> Option<Outcome> {
    run(alloc, row, pieces_of(row.input, 4096), takes_all())
}

/// The bytes with `|` for 0x01, and an LF.
fn shown(alloc: Global, bytes: &[u8]) -> Option<Vec<u8>> {
    let mut line = Vec::new(alloc);
    for b in bytes {
        if line.push(if *b == 1 { b'|' } else { *b }).is_err() {
            return None;
        }
    }
    match line.push(b'\n') {
        Ok(()) => Some(line),
        Err(_) => None,
    }
}

/// Prints how a batch of a case ended, and what it wrote.
fn tell(rt: &HostRuntime, alloc: Global, name: &str, outcome: &Outcome) {
    say(rt, name);
    say(rt, ": ");
    match outcome.result {
        Ok(()) => say_line(rt, "done"),
        Err(e) => say_line(rt, e),
    }
    match shown(alloc, outcome.out.as_slice()) {
        Some(line) => {
            let _ = rt.write_all(line.as_slice());
        }
        None => say_line(rt, "no memory"),
    }
}

/// Prints what came of a batch, where it could begin.
fn tell_run(rt: &HostRuntime, alloc: Global, name: &str, outcome: Option<Outcome>) {
    match outcome {
        Some(outcome) => tell(rt, alloc, name, &outcome),
        None => say_line(rt, "no run"),
    }
}

/// What comes of the input in pieces of some sizes.
fn in_pieces(rt: &HostRuntime, alloc: Global, row: &Row<'_>) {
    for most in [1usize, 7, 134] {
        say(rt, "pieces of ");
        say_line(rt, most);
        let outcome = run(alloc, row, pieces_of(row.input, most), takes_all());
        tell_run(rt, alloc, row.name, outcome);
    }
}

/// Whether the input cut in two at this place gives what the whole gives.
fn is_same_cut(alloc: Global, row: &Row<'_>, cut: usize, whole: &Outcome) -> bool {
    let mut pieces = pieces_of(row.input, 4096);
    pieces.cut = cut;
    match run(alloc, row, pieces, takes_all()) {
        Some(outcome) => {
            outcome.result == whole.result && outcome.out.as_slice() == whole.out.as_slice()
        }
        None => false,
    }
}

/// How many of the cuts in two give what the whole gives.
fn same_cuts(alloc: Global, row: &Row<'_>, whole: &Outcome) -> u64 {
    let mut same = 0u64;
    for cut in 1..row.input.len() {
        if is_same_cut(alloc, row, cut, whole) {
            same = same.saturating_add(1);
        }
    }
    same
}

/// What comes of the input cut in two at each place.
fn in_two(rt: &HostRuntime, alloc: Global, row: &Row<'_>) {
    let Some(whole) = run_whole(alloc, row) else {
        return say_line(rt, "no run");
    };
    let same = same_cuts(alloc, row, &whole);
    drop(whole);
    say(rt, row.name);
    say(rt, " cut in two: the same ");
    say(rt, same);
    say_line(rt, " times")
}

/// Prints what came of a reader that failed after so many bytes.
fn tell_failed(rt: &HostRuntime, alloc: Global, row: &Row<'_>, end: usize, outcome: &Outcome) {
    say(rt, "after ");
    say(rt, end);
    say_line(rt, " bytes");
    tell(rt, alloc, row.name, outcome)
}

/// Prints what comes of a reader that fails after so many bytes, where it isn't `last` bytes of
/// output. Gives how many are written.
fn fail_after(rt: &HostRuntime, alloc: Global, row: &Row<'_>, end: usize, last: usize) -> usize {
    let mut pieces = pieces_of(row.input, 7);
    pieces.end = end;
    pieces.at_end = AtEnd::Fails;
    let Some(outcome) = run(alloc, row, pieces, takes_all()) else {
        return last;
    };
    let written = outcome.out.len();
    if written != last || outcome.result != Err(RunError::Read) {
        tell_failed(rt, alloc, row, end, &outcome);
    }
    written
}

/// What comes of a reader that fails after so many bytes, wherever that changes.
fn failing_reader(rt: &HostRuntime, alloc: Global, row: &Row<'_>) {
    let mut last = usize::MAX;
    for end in 0..=row.input.len() {
        last = fail_after(rt, alloc, row, end, last);
    }
}

/// What comes of a writer with so much room.
fn write_to(
    alloc: Global,
    row: &Row<'_>,
    room: usize,
    most: usize,
    quiet: bool,
) -> Option<Outcome> {
    let taking = Taking {
        most,
        room,
        quiet,
        interruptions: Interruptions::Never,
    };
    run(alloc, row, pieces_of(row.input, 4096), taking)
}

/// Whether a writer with so much room fails with so much of the output of the whole.
fn is_front(outcome: Option<Outcome>, front: &[u8]) -> bool {
    match outcome {
        Some(outcome) => {
            outcome.result == Err(RunError::Write) && outcome.out.as_slice() == front
        }
        None => false,
    }
}

/// With how much room what was written is so much of the output of the whole.
fn count_fronts(alloc: Global, row: &Row<'_>, most: usize, quiet: bool, whole: &[u8]) -> u64 {
    let mut fronts = 0u64;
    for room in 0..whole.len() {
        let (front, _) = whole.split_at(room);
        if is_front(write_to(alloc, row, room, most, quiet), front) {
            fronts = fronts.saturating_add(1);
        }
    }
    fronts
}

/// Prints what comes of a writer that takes so many bytes a call, with less room than for the
/// whole, and with just that.
fn failing_writer(rt: &HostRuntime, alloc: Global, row: &Row<'_>, most: usize, quiet: bool) {
    let Some(whole) = run_whole(alloc, row) else {
        return say_line(rt, "no run");
    };
    let room = whole.out.len();
    let fronts = count_fronts(alloc, row, most, quiet, whole.out.as_slice());
    drop(whole);
    say(rt, "write failed, with the front of the output: ");
    say(rt, fronts);
    say_line(rt, " times");
    tell_run(rt, alloc, row.name, write_to(alloc, row, room, most, quiet))
}

/// What comes of calls that are interrupted.
fn interrupted(
    alloc: Global,
    row: &Row<'_>,
    reads: Interruptions,
    writes: Interruptions,
) -> Option<Outcome> {
    let mut pieces = pieces_of(row.input, 7);
    pieces.interruptions = reads;
    let mut taking = takes_all();
    taking.interruptions = writes;
    run(alloc, row, pieces, taking)
}

/// What comes of a reader that never ends.
fn endless(alloc: Global, row: &Row<'_>) -> Option<Outcome> {
    let mut pieces = pieces_of(row.input, 1);
    pieces.at_end = AtEnd::Repeats;
    run(alloc, row, pieces, takes_all())
}

/// What comes of a case of one run.
fn run_once(alloc: Global, row: &Row<'_>, way: Way) -> Option<Outcome> {
    let once = Interruptions::Once;
    let always = Interruptions::Always;
    match way {
        Way::Interrupted => interrupted(alloc, row, once, once),
        Way::InterruptedReader => interrupted(alloc, row, always, once),
        Way::InterruptedWriter => interrupted(alloc, row, once, always),
        Way::EndlessReader => endless(alloc, row),
        Way::Totals => total(alloc, row),
        _ => run_whole(alloc, row),
    }
}

/// Runs a case in its way, and prints what came of it.
pub(crate) fn run_row(rt: &HostRuntime, alloc: Global, row: &Row<'_>, way: Way) {
    match way {
        Way::Pieces => in_pieces(rt, alloc, row),
        Way::InTwo => in_two(rt, alloc, row),
        Way::FailingReader => failing_reader(rt, alloc, row),
        Way::FailingWriter => failing_writer(rt, alloc, row, 1, false),
        Way::QuietWriter => failing_writer(rt, alloc, row, 1, true),
        Way::WideWriter => failing_writer(rt, alloc, row, 50, false),
        _ => tell_run(rt, alloc, row.name, run_once(alloc, row, way)),
    }
}
