//! The lots that stand in an account, and which of them a change moves.
ghost use Rattle.std.specs.Prelude.{◌≡◌, ◌≤◌, ◌<◌, ◌+◌, ◌^◌, ◌==◌, List, [], ◌∷◌, length, take};
ghost use Rattle.std.specs.Prelude.{filter_map, sum_by, Some, None, option_and_then, option_map};
ghost use Rattle.std.specs.Prelude.{IsSome, IfOk, OnOk, OnErr};
ghost use Rattle.gu_base.specs.Nodes.{node_of};
ghost use Rattle.gu_base.specs.declared.command.Command.TheVariants.{Split, Claim};
ghost use Rattle.gu_base.specs.declared.entry.Record.{Record as RecordData};
ghost use Rattle.gu_base.specs.Numbers.{EntryPart};
ghost use Rattle.gu_book.specs.Found.{AreTreesOf, IsFoundAs, IsFoundIn};
ghost use Rattle.gu_book.specs.Holdings.{deal_of, held_at, holding_of, held_above, taken_before};
ghost use Rattle.gu_book.specs.Holdings.{holding_away, part_away, lots_told, goes_back, comes_from};
ghost use Rattle.gu_book.specs.Holdings.{HasFewLots, HaveRoom, SameLots, HaveMoved, HaveThere};
ghost use Rattle.gu_book.specs.Holdings.{IsReadyBack, HasRoomBack};
ghost use Rattle.gu_positions.specs.Rows.{IsReady, lots_in};
ghost use Rattle.gu_tree.specs.Shown.{named_node};
ghost use Rattle.gu_positions.specs.declared.positions.Key.{Key as KeyData};

use crate::found::{Named, Undone, find};
use crate::live::Live;
use crate::rules::nodes::parent_of;
use gu_base::{
    AccountId, Deal, Entry, FirmId, InstrumentId, Memory, NodeName, Number, Part, Place, Side,
};
use gu_positions::{Key, Positions};
use gu_tree::Trees;
use std::alloc::{AllocError, Global};

/// Lots of one instrument and side that stand in an account.
#[derive(Clone, Copy)]
pub(crate) struct Holding {
    pub(crate) key: Key,
    pub(crate) side: Side,
    pub(crate) lots: u64,
}

/// The lots of a Trade with these fields.
#[inline(always)]
pub(crate) fn traded(
    firm: &FirmId,
    account: &AccountId,
    instrument: &InstrumentId,
    side: Side,
    lots: u64,
) -> Holding
    ensures { result ≡ record {
      key = record {
        firm = firm.now;
        account = account.now;
        instrument = instrument.now;
      };
      side = side;
      lots = lots;
    } }
{
    Holding {
        key: Key {
            firm: *firm,
            account: *account,
            instrument: *instrument,
        },
        side,
        lots,
    }
}

/// What was traded by the entry of this number.
pub(crate) fn traded_under(changes: &Live<'_>, number: Number) -> Option<Deal>
    ensures { result ≡ deal_of changes.now number }
{
    match changes.change(number) {
        Some(made) => Deal::in_command(made.command),
        None => None,
    }
}

/// So many lots of what was traded, in an account.
fn held_at(place: &Place, traded: &Option<Deal>, lots: u64) -> Option<Holding>
    ensures { result ≡ held_at (Some place.now) traded.now lots }
{
    match traded {
        None => None,
        Some(traded) => Some(Holding {
            key: Key {
                firm: place.firm,
                account: place.account,
                instrument: traded.instrument,
            },
            side: traded.side,
            lots,
        }),
    }
}

/// The lots of a node that was found, where it stands.
#[inline(always)]
pub(crate) fn whole_of(changes: &Live<'_>, named: &Named) -> Holding
    requires there { IsSome (holding_of changes.now named.now.node) }
    requires found { IsFoundAs changes.now named.now.node named.now.found }
    ensures { Some result ≡ holding_of changes.now named.now.node }
{
    let Some(traded) = traded_under(changes, named.found.trade) else {
        unreachable!()
    };
    let place = &named.found.head.place;
    Holding {
        key: Key {
            firm: place.firm,
            account: place.account,
            instrument: traded.instrument,
        },
        side: traded.side,
        lots: named.found.head.lots,
    }
}

/// The lots of the node of a change that is to be undone, where it stands.
fn holding_found(undone: &Undone) -> Option<Holding>
    ensures { (l : List RecordData) (n : EntryPart) → IsFoundIn l n (Some undone.now.found)
        → undone.now.deal ≡ deal_of l undone.now.found.trade
        → result ≡ option_and_then (holding_of l) (node_of l n) }
{
    let found = &undone.found;
    held_at(&found.head.place, &undone.deal, found.head.lots)
}

/// The lots of the node of this name, whose change is to be undone, where the node above it stands:
/// a Claim took them from there.
pub(crate) fn holding_above(
    changes: &Live<'_>,
    trees: &Trees<Global>,
    name: NodeName,
    undone: &Undone,
) -> Option<Holding>
    requires trees { AreTreesOf changes.now trees.now }
    requires found { IsFoundIn changes.now name (Some undone.now.found) }
    requires deal { undone.now.deal ≡ deal_of changes.now undone.now.found.trade }
    ensures { result ≡ option_and_then (held_above changes.now) (node_of changes.now name) }
{
    let Some(parent) = parent_of(changes, &name) else {
        return None;
    };
    match find(trees, parent) {
        None => None,
        Some(above) => held_at(&above.head.place, &undone.deal, undone.found.head.lots),
    }
}

/// The same lots in an account of a firm.
#[inline(always)]
pub(crate) fn in_account(whole: &Holding, firm: &FirmId, account: &AccountId) -> Holding
    ensures { result ≡ holding_away whole.now firm.now account.now whole.now.lots }
{
    Holding {
        key: Key {
            firm: *firm,
            account: *account,
            instrument: whole.key.instrument,
        },
        side: whole.side,
        lots: whole.lots,
    }
}

/// Puts lots into their account, and makes its row where there is none.
#[inline(always)]
pub(crate) fn put(positions: &mut Positions, held: &Holding) -> Result<(), Memory>
    requires { lots_in positions.old held.now.key held.now.side + held.now.lots < 2 ^ 64 }
    ensures put { OnOk result (HaveMoved positions.old positions.new None (held.now ∷ [])) }
    ensures same { OnErr result (SameLots positions.old positions.new) }
{
    positions.put(&held.key, held.side, held.lots)
}

/// Takes lots out of their account.
#[inline(always)]
pub(crate) fn take(positions: &mut Positions, held: &Holding)
    requires { held.now.lots ≤ lots_in positions.old held.now.key held.now.side }
    ensures { HaveMoved positions.new positions.old None (held.now ∷ []) }
{
    positions.take(&held.key, held.side, held.lots);
}

/// What a part of the whole holds in another account than the one in which the whole stood, and
/// which one.
#[inline(always)]
fn account_away<'a>(whole: &Holding, by: &FirmId, part: &'a Part) -> Option<&'a AccountId>
    ensures { option_map (λ a. holding_away whole.now by.now a.now part.now.lots) result
        ≡ part_away whole.now by.now part.now }
{
    if part.firm != *by {
        return None;
    }
    match &part.account {
        None => None,
        Some(account) => {
            if *account == whole.key.account {
                None
            } else {
                Some(account)
            }
        }
    }
}

/// Puts the lots of the parts that go to other accounts than the whole's into these, up to the
/// first part for whose row memory is refused. How many parts it went over, and how many lots it
/// put.
#[inline(always)]
fn put_away(positions: &mut Positions, whole: &Holding, by: &FirmId, parts: &[Part]) -> (usize, u64)
    requires home { whole.now.key.firm ≡ by.now }
    requires room { HaveRoom positions.old (filter_map (part_away whole.now by.now) parts.now) }
    ensures within { result.0 ≤ length parts.now }
    ensures put { HaveMoved positions.old positions.new None
        (filter_map (part_away whole.now by.now) (take result.0 parts.now)) }
    ensures moved { result.1 ≡ sum_by (λ h. h.lots)
        (filter_map (part_away whole.now by.now) (take result.0 parts.now)) }
{
    let mut key = whole.key;
    let mut done = 0;
    let mut moved = 0;
    for part in parts {
        if let Some(account) = account_away(whole, by, part) {
            key.account = *account;
            if positions.put(&key, whole.side, part.lots).is_err() {
                return (done, moved);
            }
            moved += part.lots;
        }
        done += 1;
    }
    (done, moved)
}

/// Takes the lots of the parts that went to other accounts than the whole's out of these again.
#[inline(never)]
pub(crate) fn take_away(positions: &mut Positions, whole: &Holding, by: &FirmId, parts: &[Part])
    requires { HaveThere positions.old (filter_map (part_away whole.now by.now) parts.now) }
    ensures gone { HaveMoved positions.new positions.old None
        (filter_map (part_away whole.now by.now) parts.now) }
    ensures stays_ready { (at : KeyData) → IsReady positions.old at → IsReady positions.new at }
{
    for part in parts {
        if let Some(account) = account_away(whole, by, part) {
            let key = Key {
                firm: *by,
                account: *account,
                instrument: whole.key.instrument,
            };
            positions.take(&key, whole.side, part.lots);
        }
    }
}

/// Puts the lots of all parts that go to other accounts than the whole's into these, or those of
/// none where memory is refused. How many lots these are.
#[inline(always)]
pub(crate) fn put_all_away(
    positions: &mut Positions,
    whole: &Holding,
    by: &FirmId,
    parts: &[Part],
) -> Result<u64, Memory>
    requires home { whole.now.key.firm ≡ by.now }
    requires room { HaveRoom positions.old (filter_map (part_away whole.now by.now) parts.now) }
    ensures put { OnOk result (HaveMoved positions.old positions.new None
        (filter_map (part_away whole.now by.now) parts.now)) }
    ensures moved { IfOk result (λ moved. moved
        ≡ sum_by (λ h. h.lots) (filter_map (part_away whole.now by.now) parts.now)) }
    ensures same { OnErr result (SameLots positions.old positions.new) }
{
    let (done, moved) = put_away(positions, whole, by, parts);
    if done < parts.len() {
        take_away(positions, whole, by, &parts[..done]);
        return Err(AllocError);
    }
    Ok(moved)
}

/// Takes the lots that went to other accounts out of the whole's.
#[inline(always)]
pub(crate) fn take_moved(positions: &mut Positions, whole: &Holding, moved: u64)
    requires { moved ≤ lots_in positions.old whole.now.key whole.now.side }
    ensures { HaveMoved positions.old positions.new (Some (record whole.now { lots = moved })) [] }
{
    if moved > 0 {
        positions.take(&whole.key, whole.side, moved);
    }
}

/// The lots of a part that went to another account than the whole's, and 0 of one that stayed.
#[inline(always)]
fn part_lots_away(whole: &Holding, by: &FirmId, part: &Part) -> u64
    ensures { result ≡ lots_told (part_away whole.now by.now part.now) }
{
    match account_away(whole, by, part) {
        Some(_) => part.lots,
        None => 0,
    }
}

/// The lots of the parts that went to other accounts than the whole's.
fn lots_away(whole: &Holding, by: &FirmId, parts: &[Part]) -> u64
    requires { sum_by (λ h. h.lots) (filter_map (part_away whole.now by.now) parts.now) < 2 ^ 64 }
    ensures { result ≡ sum_by (λ h. h.lots) (filter_map (part_away whole.now by.now) parts.now) }
{
    let mut away = 0;
    for part in parts {
        away += part_lots_away(whole, by, part);
    }
    away
}

/// What goes back where it came from when a live Split into these parts is undone, read while it
/// still stands at the node that was found. It took the lots of its node from where that stands,
/// and those of the parts that stayed there don't move.
pub(crate) fn parts_back(
    changes: &Live<'_>,
    entry: &Entry,
    parts: &[Part],
    undone: &Undone,
) -> Option<Holding>
    requires split { (n : EntryPart) × (entry.now.command ≡ Split n parts.now) }
    requires found { (n : EntryPart) → named_node entry.now.command ≡ Some n
        → IsFoundIn changes.now n (Some undone.now.found) }
    requires deal { undone.now.deal ≡ deal_of changes.now undone.now.found.trade }
    requires few { HasFewLots entry.now.command }
    ensures { result ≡ goes_back entry.now.firm entry.now.command
        (taken_before changes.now entry.now.command) }
{
    match holding_found(undone) {
        None => None,
        Some(whole) => Some(Holding {
            key: whole.key,
            side: whole.side,
            lots: lots_away(&whole, &entry.firm, parts),
        }),
    }
}

/// Makes the row to which lots go back, if some do. No lots change, not even where memory is
/// refused.
pub(crate) fn ready_back(positions: &mut Positions, back: &Option<Holding>) -> Result<(), Memory>
    ensures ready { OnOk result (IsReadyBack positions.new back.now) }
    ensures same { SameLots positions.old positions.new }
{
    if let Some(h) = back {
        if h.lots > 0 {
            return positions.ready(&h.key);
        }
    }
    Ok(())
}

/// Puts lots back where they came from. Where there are some, the row has to be ready and to have
/// room.
fn put_back(positions: &mut Positions, back: &Holding)
    requires ready { IsReadyBack positions.old (Some back.now) }
    requires room { HasRoomBack positions.old (Some back.now) [] }
    ensures { HaveMoved positions.new positions.old (Some back.now) [] }
{
    if back.lots > 0 {
        positions.add(&back.key, back.side, back.lots);
    }
}

/// Moves the lots that a Split into these parts moved back. The row to which they go has to be
/// ready and to have room.
pub(crate) fn move_parts_back(
    positions: &mut Positions,
    entry: &Entry,
    parts: &[Part],
    back: &Option<Holding>,
)
    requires split { (n : EntryPart) × (entry.now.command ≡ Split n parts.now) }
    requires there { HaveThere positions.old (comes_from entry.now.firm entry.now.command
        back.now) }
    requires ready { IsReadyBack positions.old back.now }
    requires room { HasRoomBack positions.old back.now
        (comes_from entry.now.firm entry.now.command back.now) }
    ensures { HaveMoved positions.new positions.old back.now
        (comes_from entry.now.firm entry.now.command back.now) }
{
    let Some(whole) = back else {
        return;
    };
    take_away(positions, whole, &entry.firm, parts);
    put_back(positions, whole);
}

/// The same of a Claim into this account.
pub(crate) fn move_claim_back(
    positions: &mut Positions,
    entry: &Entry,
    account: &AccountId,
    back: &Option<Holding>,
)
    requires claim { (n : EntryPart) × (entry.now.command ≡ Claim n account.now) }
    requires there { HaveThere positions.old (comes_from entry.now.firm entry.now.command
        back.now) }
    requires ready { IsReadyBack positions.old back.now }
    requires room { HasRoomBack positions.old back.now
        (comes_from entry.now.firm entry.now.command back.now) }
    ensures { HaveMoved positions.new positions.old back.now
        (comes_from entry.now.firm entry.now.command back.now) }
{
    let Some(whole) = back else {
        return;
    };
    let key = Key {
        firm: entry.firm,
        account: *account,
        instrument: whole.key.instrument,
    };
    positions.take(&key, whole.side, whole.lots);
    put_back(positions, whole);
}
