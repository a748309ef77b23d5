//! The text of a snapshot.

ghost use Rattle.std.specs.Prelude.{◌≡◌, ◌++◌, codes, is_none, OnOk, IfOk};
ghost use Rattle.gu_status.specs.Samples.{labelled, single};
ghost use Rattle.gu_status.specs.Metrics.{answers_text, book_text, build_text, calls_text};
ghost use Rattle.gu_status.specs.Metrics.{causes_text, cause_text, faults_text, firm_text};
ghost use Rattle.gu_status.specs.Metrics.{logons_text, losses_text, rejects_text};
ghost use Rattle.gu_status.specs.Metrics.{delays_text, firms_text, server_text, start_text};
ghost use Rattle.gu_status.specs.Metrics.{firms_refused_text, refused_firm_text};
ghost use Rattle.gu_status.specs.Metrics.{refused_firms_text};
ghost use Rattle.gu_status.specs.Metrics.{fullness, fullness_text, long_buckets};
ghost use Rattle.gu_status.specs.Metrics.{metrics_text, one_if, refusal_text, refusals_text};
ghost use Rattle.gu_status.specs.Metrics.{rest_text, firm_entries_text, room_text};
ghost use Rattle.gu_status.specs.Metrics.{short_buckets, state_text, times_text, totals_text};

use crate::causes::CAUSES;
use crate::samples::{push, push_family, push_labelled, push_millionths, push_number, push_single};
use crate::snapshot::{Faults, FirmEntries, REASONS, REJECTS, RefusedLogons, Snapshot, Times};
use gu_base::Memory;
use itoa::Buffer;
use std::alloc::Global;

/// The version of the program.
pub const RELEASE: &str = "1.0.0";

/// 1 where something is so, else 0.
fn one_if(is_so: bool) -> u64
    ensures { result ≡ one_if is_so }
{
    if is_so { 1 } else { 0 }
}

/// Whether each part moves.
fn is_healthy(snapshot: &Snapshot) -> bool
    ensures { result ≡ is_none snapshot.now.stuck }
{
    snapshot.stuck.is_none()
}

/// Appends a gauge that says whether something is so.
fn push_flag(text: &mut Vec<u8>, name: &str, help: &str, is_so: bool) -> Result<(), Memory>
    ensures { OnOk result (text.new.items ≡ text.old.items
        ++ single name.now (codes "gauge") help.now (one_if is_so)) }
{
    push_single(text, name, "gauge", help, one_if(is_so))
}

/// Appends a gauge of a count.
fn push_count(text: &mut Vec<u8>, name: &str, help: &str, count: u32) -> Result<(), Memory>
    ensures { OnOk result (text.new.items ≡ text.old.items
        ++ single name.now (codes "gauge") help.now count) }
{
    push_single(text, name, "gauge", help, u64::from(count))
}

/// Appends how the server stands.
#[tactic(auto, unfolding(crate::specs::Metrics::state_text))]
fn push_state(text: &mut Vec<u8>, snapshot: &Snapshot) -> Result<(), Memory>
    ensures { OnOk result (text.new.items ≡ text.old.items ++ state_text snapshot.now) }
{
    push_flag(
        text,
        "allocd_ready",
        "1 where the book was recovered and connections are taken, else 0.",
        snapshot.is_ready,
    )?;
    push_flag(
        text,
        "allocd_healthy",
        "1 where each part of the server moves, else 0.",
        is_healthy(snapshot),
    )?;
    push_single(
        text,
        "allocd_connections",
        "gauge",
        "Connections that are open.",
        snapshot.connections,
    )
}

/// Appends which program it is.
#[tactic(auto, unfolding(crate::specs::Metrics::build_text))]
fn push_build(text: &mut Vec<u8>) -> Result<(), Memory>
    ensures { OnOk result (text.new.items ≡ text.old.items ++ build_text) }
{
    push_family(
        text,
        "allocd_build_info",
        "gauge",
        "1, with the version of the program.",
    )?;
    push_labelled(text, "allocd_build_info{version=\"", RELEASE.as_bytes(), 1)
}

/// Appends when the server began.
fn push_start(text: &mut Vec<u8>, began: u64) -> Result<(), Memory>
    ensures { OnOk result (text.new.items ≡ text.old.items ++ start_text began) }
{
    push_single(
        text,
        "process_start_time_seconds",
        "gauge",
        "When the server began, in seconds from 1970 on.",
        began,
    )
}

/// Appends how many Logons were refused for a cause.
#[tactic(auto, unfolding(crate::specs::Metrics::cause_text))]
fn push_cause(text: &mut Vec<u8>, it: &RefusedLogons) -> Result<(), Memory>
    ensures { OnOk result (text.new.items ≡ text.old.items ++ cause_text it.now) }
{
    push_labelled(
        text,
        "allocd_logons_refused_total{cause=\"",
        it.cause.word().as_bytes(),
        it.count,
    )
}

/// Appends how many Logons were refused for each cause.
fn push_causes(text: &mut Vec<u8>, refused: &[RefusedLogons; CAUSES]) -> Result<(), Memory>
    ensures { OnOk result (text.new.items ≡ text.old.items ++ causes_text refused.now) }
{
    for it in refused {
        push_cause(text, it)?;
    }
    Ok(())
}

/// Appends which Logons were refused.
#[tactic(auto, unfolding(crate::specs::Metrics::logons_text))]
fn push_logons(text: &mut Vec<u8>, refused: &[RefusedLogons; CAUSES]) -> Result<(), Memory>
    ensures { OnOk result (text.new.items ≡ text.old.items ++ logons_text refused.now) }
{
    push_family(
        text,
        "allocd_logons_refused_total",
        "counter",
        "Connections that ended before a Logon was accepted, by the cause.",
    )?;
    push_causes(text, refused)
}

/// Appends what was slow, and what was refused.
#[tactic(auto, unfolding(crate::specs::Metrics::delays_text))]
fn push_delays(text: &mut Vec<u8>, snapshot: &Snapshot) -> Result<(), Memory>
    ensures { OnOk result (text.new.items ≡ text.old.items ++ delays_text snapshot.now) }
{
    push_single(
        text,
        "allocd_slow_syncs_total",
        "counter",
        "Groups for which the disk took longer than 100 ms.",
        snapshot.syncs.slow,
    )?;
    push_single(
        text,
        "allocd_oldest_group_seconds",
        "gauge",
        "Seconds for which a group is on its way to the disk; 0 where none is.",
        snapshot.syncs.oldest_seconds,
    )?;
    push_logons(text, &snapshot.logons_refused)
}

/// Appends what the program, its start and its delays are.
#[tactic(auto, unfolding(crate::specs::Metrics::server_text))]
fn push_server(text: &mut Vec<u8>, snapshot: &Snapshot) -> Result<(), Memory>
    ensures { OnOk result (text.new.items ≡ text.old.items ++ server_text snapshot.now) }
{
    push_build(text)?;
    push_start(text, snapshot.began)?;
    push_delays(text, snapshot)
}

/// How much of the book is used, in millionths.
fn fullness(entries: u32, most: u32) -> u64
    ensures { result ≡ fullness entries most }
{
    if most == 0 {
        0
    } else {
        u64::from(entries) * 1_000_000 / u64::from(most)
    }
}

/// Appends the entries of a firm.
#[tactic(auto, unfolding(crate::specs::Metrics::firm_text))]
fn push_firm(text: &mut Vec<u8>, it: &FirmEntries) -> Result<(), Memory>
    ensures { OnOk result (text.new.items ≡ text.old.items ++ firm_text it.now) }
{
    push_labelled(
        text,
        "allocd_firm_entries{firm=\"",
        it.firm.as_bytes(),
        it.entries,
    )
}

/// Appends the entries of each firm.
fn push_firms(text: &mut Vec<u8>, firms: &[FirmEntries]) -> Result<(), Memory>
    ensures { OnOk result (text.new.items ≡ text.old.items ++ firms_text firms.now) }
{
    for it in firms {
        push_firm(text, it)?;
    }
    Ok(())
}

/// Appends how much of the book is used.
#[tactic(auto, unfolding(crate::specs::Metrics::fullness_text))]
fn push_fullness(text: &mut Vec<u8>, snapshot: &Snapshot) -> Result<(), Memory>
    ensures { OnOk result (text.new.items ≡ text.old.items ++ fullness_text snapshot.now) }
{
    push_family(
        text,
        "allocd_book_fullness_ratio",
        "gauge",
        "Entries of the book as a part of the most that it takes.",
    )?;
    push(text, "allocd_book_fullness_ratio")?;
    push_millionths(text, fullness(snapshot.entries, snapshot.most_entries))
}

/// Appends how full the book is.
#[tactic(auto, unfolding(crate::specs::Metrics::book_text))]
fn push_book(text: &mut Vec<u8>, snapshot: &Snapshot) -> Result<(), Memory>
    ensures { OnOk result (text.new.items ≡ text.old.items ++ book_text snapshot.now) }
{
    push_count(
        text,
        "allocd_entries",
        "Entries of the book, all on the disk.",
        snapshot.entries,
    )?;
    push_count(
        text,
        "allocd_entries_limit",
        "The most entries that the book takes.",
        snapshot.most_entries,
    )?;
    push_count(
        text,
        "allocd_entries_reserved",
        "How many of them are the house's alone.",
        snapshot.reserved,
    )?;
    push_fullness(text, snapshot)
}

/// Appends how much room the book takes in memory, and its journal.
#[tactic(auto, unfolding(crate::specs::Metrics::room_text))]
fn push_room(text: &mut Vec<u8>, snapshot: &Snapshot) -> Result<(), Memory>
    ensures { OnOk result (text.new.items ≡ text.old.items ++ room_text snapshot.now) }
{
    push_single(
        text,
        "allocd_book_bytes",
        "gauge",
        "About how many bytes of memory the book takes.",
        snapshot.book_bytes,
    )?;
    push_single(
        text,
        "allocd_book_bytes_limit",
        "gauge",
        "How many bytes of memory the book may take; 0 where there is no limit.",
        snapshot.most_bytes,
    )?;
    push_single(
        text,
        "allocd_journal_bytes",
        "gauge",
        "Bytes of the journal.",
        snapshot.journal_bytes,
    )?;
    push_flag(
        text,
        "allocd_lacks_memory",
        "1 where memory lacks, so that no calls of firms are made, else 0.",
        snapshot.lacks_memory,
    )
}

/// Appends the entries of firms.
#[tactic(auto, unfolding(crate::specs::Metrics::firm_entries_text))]
fn push_firm_entries(text: &mut Vec<u8>, snapshot: &Snapshot) -> Result<(), Memory>
    ensures { OnOk result (text.new.items ≡ text.old.items ++ firm_entries_text snapshot.now) }
{
    push_family(
        text,
        "allocd_firm_entries",
        "gauge",
        "Entries of the book that a firm has made.",
    )?;
    push_firms(text, &snapshot.firms)
}

/// Appends whether a firm is refused.
#[tactic(auto, unfolding(crate::specs::Metrics::refused_firm_text))]
fn push_refused_firm(text: &mut Vec<u8>, it: &FirmEntries) -> Result<(), Memory>
    ensures { OnOk result (text.new.items ≡ text.old.items ++ refused_firm_text it.now) }
{
    push_labelled(
        text,
        "allocd_firm_refused{firm=\"",
        it.firm.as_bytes(),
        one_if(it.is_refused),
    )
}

/// Appends whether each firm is refused.
fn push_refused_firms(text: &mut Vec<u8>, firms: &[FirmEntries]) -> Result<(), Memory>
    ensures { OnOk result (text.new.items ≡ text.old.items ++ refused_firms_text firms.now) }
{
    for it in firms {
        push_refused_firm(text, it)?;
    }
    Ok(())
}

/// Appends which firms are refused.
#[tactic(auto, unfolding(crate::specs::Metrics::firms_refused_text))]
fn push_firms_refused(text: &mut Vec<u8>, snapshot: &Snapshot) -> Result<(), Memory>
    ensures { OnOk result (text.new.items ≡ text.old.items ++ firms_refused_text snapshot.now) }
{
    push_family(
        text,
        "allocd_firm_refused",
        "gauge",
        "1 where an operator has the firm refused, else 0.",
    )?;
    push_refused_firms(text, &snapshot.firms)
}

/// Appends how many calls were refused for a reason.
#[tactic(auto, unfolding(crate::specs::Metrics::refusal_text))]
fn push_refusal(text: &mut Vec<u8>, reason: usize, count: u64) -> Result<(), Memory>
    ensures { OnOk result (text.new.items ≡ text.old.items ++ refusal_text reason count) }
{
    let mut digits = Buffer::new();
    push_labelled(
        text,
        "allocd_refusals_total{reason=\"",
        digits.format(reason).as_bytes(),
        count,
    )
}

/// Appends how many calls were refused for each reason.
fn push_refusals(text: &mut Vec<u8>, refused: &[u64; REASONS]) -> Result<(), Memory>
    ensures { OnOk result (text.new.items ≡ text.old.items ++ refusals_text 1 refused.now) }
{
    let mut reason = 1;
    for count in refused {
        push_refusal(text, reason, *count)?;
        reason += 1;
    }
    Ok(())
}

/// Appends how calls were answered.
#[tactic(auto, unfolding(crate::specs::Metrics::calls_text))]
fn push_calls(text: &mut Vec<u8>, snapshot: &Snapshot) -> Result<(), Memory>
    ensures { OnOk result (text.new.items ≡ text.old.items ++ calls_text snapshot.now) }
{
    push_single(
        text,
        "allocd_calls_accepted_total",
        "counter",
        "Calls that were accepted and are on the disk.",
        snapshot.accepted,
    )?;
    push_single(
        text,
        "allocd_calls_repeated_total",
        "counter",
        "Calls that had been made and accepted before.",
        snapshot.repeated,
    )?;
    push_family(
        text,
        "allocd_refusals_total",
        "counter",
        "Calls that were refused, by the refusal's number.",
    )?;
    push_refusals(text, &snapshot.refused)
}

/// Appends how many Rejects were sent for each reason.
#[tactic(auto, unfolding(crate::specs::Metrics::rejects_text))]
fn push_rejects(text: &mut Vec<u8>, rejects: &[u64; REJECTS]) -> Result<(), Memory>
    ensures { OnOk result (text.new.items ≡ text.old.items ++ rejects_text rejects.now) }
{
    push_labelled(text, "allocd_rejects_total{reason=\"", b"1", rejects[0])?;
    push_labelled(text, "allocd_rejects_total{reason=\"", b"2", rejects[1])?;
    push_labelled(text, "allocd_rejects_total{reason=\"", b"5", rejects[2])?;
    push_labelled(text, "allocd_rejects_total{reason=\"", b"6", rejects[3])?;
    push_labelled(text, "allocd_rejects_total{reason=\"", b"11", rejects[4])?;
    push_labelled(text, "allocd_rejects_total{reason=\"", b"16", rejects[5])
}

/// Appends what was lost or sent again.
#[tactic(auto, unfolding(crate::specs::Metrics::losses_text))]
fn push_losses(text: &mut Vec<u8>, faults: &Faults) -> Result<(), Memory>
    ensures { OnOk result (text.new.items ≡ text.old.items ++ losses_text faults.now) }
{
    push_single(
        text,
        "allocd_garbled_frames_total",
        "counter",
        "Frames that were garbled, and so passed over.",
        faults.garbled,
    )?;
    push_single(
        text,
        "allocd_messages_dropped_total",
        "counter",
        "Messages that were dropped since some before them lacked.",
        faults.dropped,
    )?;
    push_single(
        text,
        "allocd_messages_resent_total",
        "counter",
        "Messages that were sent again.",
        faults.resent,
    )
}

/// Appends what went wrong between firms and the server.
#[tactic(auto, unfolding(crate::specs::Metrics::faults_text))]
fn push_faults(text: &mut Vec<u8>, faults: &Faults) -> Result<(), Memory>
    ensures { OnOk result (text.new.items ≡ text.old.items ++ faults_text faults.now) }
{
    push_family(
        text,
        "allocd_rejects_total",
        "counter",
        "Rejects that were sent, by SessionRejectReason (373).",
    )?;
    push_rejects(text, &faults.rejects)?;
    push_losses(text, faults)
}

/// Appends how often something took no longer than a bound.
fn push_bucket(text: &mut Vec<u8>, name: &str, bound: &str, count: u64) -> Result<(), Memory>
    ensures { OnOk result (text.new.items ≡ text.old.items ++ labelled name.now bound.now count) }
{
    push_labelled(text, name, bound.as_bytes(), count)
}

/// Appends how often it was short.
#[tactic(auto, unfolding(crate::specs::Metrics::short_buckets))]
fn push_short(text: &mut Vec<u8>, name: &str, times: &Times) -> Result<(), Memory>
    ensures { OnOk result (text.new.items ≡ text.old.items ++ short_buckets name.now times.now) }
{
    push_bucket(text, name, "0.001", times.within[0])?;
    push_bucket(text, name, "0.002", times.within[1])?;
    push_bucket(text, name, "0.005", times.within[2])?;
    push_bucket(text, name, "0.01", times.within[3])?;
    push_bucket(text, name, "0.02", times.within[4])?;
    push_bucket(text, name, "0.05", times.within[5])
}

/// Appends how often it was longer.
#[tactic(auto, unfolding(crate::specs::Metrics::long_buckets))]
fn push_long(text: &mut Vec<u8>, name: &str, times: &Times) -> Result<(), Memory>
    ensures { OnOk result (text.new.items ≡ text.old.items ++ long_buckets name.now times.now) }
{
    push_bucket(text, name, "0.1", times.within[6])?;
    push_bucket(text, name, "0.2", times.within[7])?;
    push_bucket(text, name, "0.5", times.within[8])?;
    push_bucket(text, name, "1", times.within[9])?;
    push_bucket(text, name, "10", times.within[10])?;
    push_bucket(text, name, "+Inf", times.count)
}

/// Appends how long all took together, and how many they were.
#[tactic(auto, unfolding(crate::specs::Metrics::totals_text))]
fn push_totals(text: &mut Vec<u8>, sum: &str, count: &str, times: &Times) -> Result<(), Memory>
    ensures { OnOk result (text.new.items ≡ text.old.items
        ++ totals_text sum.now count.now times.now) }
{
    push(text, sum)?;
    push_millionths(text, times.micros)?;
    push(text, count)?;
    push_number(text, times.count)
}

/// Appends how long syncs took.
#[tactic(auto, unfolding(crate::specs::Metrics::times_text))]
fn push_times(text: &mut Vec<u8>, times: &Times) -> Result<(), Memory>
    ensures { OnOk result (text.new.items ≡ text.old.items ++ times_text times.now) }
{
    push_family(
        text,
        "allocd_sync_seconds",
        "histogram",
        "How long the disk took for a group.",
    )?;
    push_short(text, "allocd_sync_seconds_bucket{le=\"", times)?;
    push_long(text, "allocd_sync_seconds_bucket{le=\"", times)?;
    push_totals(
        text,
        "allocd_sync_seconds_sum",
        "allocd_sync_seconds_count",
        times,
    )
}

/// Appends how long the other machines' answers took.
#[tactic(auto, unfolding(crate::specs::Metrics::answers_text))]
fn push_answers(text: &mut Vec<u8>, times: &Times) -> Result<(), Memory>
    ensures { OnOk result (text.new.items ≡ text.old.items ++ answers_text times.now) }
{
    push_family(
        text,
        "allocd_replicate_seconds",
        "histogram",
        "How long a group that was on the disk waited for the other machines.",
    )?;
    push_short(text, "allocd_replicate_seconds_bucket{le=\"", times)?;
    push_long(text, "allocd_replicate_seconds_bucket{le=\"", times)?;
    push_totals(
        text,
        "allocd_replicate_seconds_sum",
        "allocd_replicate_seconds_count",
        times,
    )
}

/// Appends what waits, and what was lost.
#[tactic(auto, unfolding(crate::specs::Metrics::rest_text))]
fn push_rest(text: &mut Vec<u8>, snapshot: &Snapshot) -> Result<(), Memory>
    ensures { OnOk result (text.new.items ≡ text.old.items ++ rest_text snapshot.now) }
{
    push_single(
        text,
        "allocd_since_sync_seconds",
        "gauge",
        "Seconds since a group was last brought to the disk, or since the start.",
        snapshot.syncs.idle_seconds,
    )?;
    push_single(
        text,
        "allocd_waiting_bytes",
        "gauge",
        "Bytes that wait for firms to take them.",
        snapshot.waiting_bytes,
    )?;
    push_single(
        text,
        "allocd_log_lines_lost_total",
        "counter",
        "Lines of the log that nobody read in time, or that could not be written.",
        snapshot.lines_lost,
    )
}

/// The text of a snapshot for Prometheus.
///
/// # Errors
///
/// `Memory`, if a growth is refused.
#[tactic(auto, unfolding(crate::specs::Metrics::metrics_text))]
pub fn metrics(alloc: Global, snapshot: &Snapshot) -> Result<Vec<u8>, Memory>
    ensures { IfOk result (λ v. v.items ≡ metrics_text snapshot.now) }
{
    let mut text = Vec::new(alloc);
    push_state(&mut text, snapshot)?;
    push_book(&mut text, snapshot)?;
    push_room(&mut text, snapshot)?;
    push_firm_entries(&mut text, snapshot)?;
    push_firms_refused(&mut text, snapshot)?;
    push_calls(&mut text, snapshot)?;
    push_faults(&mut text, &snapshot.faults)?;
    push_times(&mut text, &snapshot.syncs.disk)?;
    push_answers(&mut text, &snapshot.syncs.machines)?;
    push_rest(&mut text, snapshot)?;
    push_server(&mut text, snapshot)?;
    Ok(text)
}
