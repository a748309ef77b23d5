//! What the deeds of a pair come to, block by block, so that a walk over them steps over most.
ghost use Rattle.std.specs.Prelude.{◌≡◌, ◌+◌, ◌-◌, ◌*◌, ◌≤◌, ◌<◌, ◌^◌, ◌++◌, ◌∷◌, [], ℕ, List};
ghost use Rattle.std.specs.Prelude.{set, take, drop, min, None, Some, IfOk, IsTrue, ◌↔◌, vec_len};
ghost use Rattle.std.specs.Prelude.{vec_capacity, length, OnOk};
ghost use Rattle.gu_base.specs.Terms.{raised_by_deed, raised_under, used_by_deed, used_under};
ghost use Rattle.gu_base.specs.Dealt.{first_over, first_under_terms};
ghost use Rattle.gu_base.specs.declared.house.Dealing.{Dealing};
ghost use Rattle.gu_base.specs.declared.house.Deed.{Deed as DeedData};
ghost use Rattle.gu_sums.specs.declared.filing.Filed.{Filed as FiledData};
ghost use Rattle.gu_sums.specs.Filing.{kept_at, last_of, IsTakenOut};
ghost use Rattle.gu_fees.specs.Pairs.{dealings_of};
ghost use Rattle.gu_fees.specs.Blocks.{is_under_terms, block_with, block_of, deeds_in, AreBlocks};
ghost use Rattle.gu_fees.specs.Blocks.{goes_on};

use gu_base::{Deed, Memory, Number};
use gu_sums::{Filed, Filing};
use std::alloc::Global;

/// How many deeds, with the marks of those that were taken out, make a block. Behind the last block
/// stand fewer, which have none.
const SIZE: usize = 128;

/// What the Raises and the Claims of some deeds come to.
#[derive(Clone, Copy)]
pub(crate) struct Block {
    /// How far above what is used the limit must be before them, so that no Claim passes it.
    pub(crate) need: u64,
    /// How far above what is used it is behind them, if it was no further before them.
    pub(crate) left: u64,
    /// Whether a Raise or a Claim is among them.
    pub(crate) has_under_terms: bool,
}

impl Block {
    /// The block of no deeds.
    const EMPTY: Block = Block {
        need: 0,
        left: 0,
        has_under_terms: false,
    };
}

/// The block with one deed more.
fn block_with(block: Block, deed: Deed) -> Block
    requires need { block.need + used_by_deed deed < 2 ^ 64 }
    requires left { block.left + raised_by_deed deed < 2 ^ 64 }
    ensures { result ≡ block_with block deed }
{
    let left = block.left + raised_by(deed);
    let used = used_by(deed);
    Block {
        need: block.need + used.saturating_sub(left),
        left: left.saturating_sub(used),
        has_under_terms: block.has_under_terms || is_under_terms(deed),
    }
}

/// The block of these deeds.
fn block_of(deeds: &[Filed<Deed>]) -> Block
    requires raised { raised_under (deeds_in deeds.now) < 2 ^ 64 }
    requires used { used_under (deeds_in deeds.now) < 2 ^ 64 }
    ensures { result ≡ block_of (deeds_in deeds.now) }
{
    let mut block = Block::EMPTY;
    for filed in deeds {
        if let Some(deed) = filed.kept {
            block = block_with(block, deed);
        }
    }
    block
}

/// The deeds of the first block, or of none, and those behind.
fn first_block(deeds: &[Filed<Deed>]) -> (&[Filed<Deed>], &[Filed<Deed>])
    ensures first { result.0.now ≡ take 128 deeds.now }
    ensures behind { result.1.now ≡ drop 128 deeds.now }
{
    deeds.split_at(SIZE.min(deeds.len()))
}

/// The deeds of the block of this place.
fn block_at(deeds: &[Filed<Deed>], i: usize) -> &[Filed<Deed>]
    requires { i * 128 + 128 ≤ length deeds.now }
    ensures { result.now ≡ take 128 (drop (i * 128) deeds.now) }
{
    let (_, rest) = deeds.split_at(i * SIZE);
    let (these, _) = rest.split_at(SIZE);
    these
}

/// The deeds behind so many blocks.
fn behind_blocks(deeds: &[Filed<Deed>], count: usize) -> &[Filed<Deed>]
    requires { count * 128 ≤ length deeds.now }
    ensures { result.now ≡ drop (count * 128) deeds.now }
{
    let (_, rest) = deeds.split_at(count * SIZE);
    rest
}

/// Makes room for one more block. There mostly is some, so that growth stands apart from the code
/// that runs each time.
pub(crate) fn ready(blocks: &mut Vec<Block, Global>) -> Result<(), Memory>
    ensures items { blocks.new.items ≡ blocks.old.items }
    ensures room { OnOk result (vec_len blocks.new < vec_capacity blocks.new) }
{
    if blocks.len() >= blocks.capacity() {
        grow(blocks)?;
    }
    Ok(())
}

/// Makes room for one more block where there is none.
#[cold]
#[inline(never)]
fn grow(blocks: &mut Vec<Block, Global>) -> Result<(), Memory>
    ensures items { blocks.new.items ≡ blocks.old.items }
    ensures room { OnOk result (vec_len blocks.new < vec_capacity blocks.new) }
{
    blocks.reserve(1)?;
    Ok(())
}

/// Whether there is room for one more deed, and for one more block.
pub(crate) fn has_room(deeds: &Filing<Deed, Global>, blocks: &Vec<Block, Global>) -> bool
    ensures { IsTrue result
        ↔ (1 ≤ min deeds.now.room (vec_capacity blocks.now - vec_len blocks.now)) }
{
    deeds.has_room() && blocks.len() < blocks.capacity()
}

/// Makes a block of the last deeds where they have become as many as make one, since one more is
/// filed.
pub(crate) fn put(blocks: &mut Vec<Block, Global>, deeds: &[Filed<Deed>])
    requires room { vec_len blocks.old < vec_capacity blocks.old }
    requires blocks { vec_len blocks.old * 128 ≤ length deeds.now }
    requires raised { raised_under (deeds_in deeds.now) < 2 ^ 64 }
    requires used { used_under (deeds_in deeds.now) < 2 ^ 64 }
    ensures { (before : List (FiledData DeedData)) (f : FiledData DeedData)
        → AreBlocks blocks.old.items before → deeds.now ≡ before ++ f ∷ []
        → AreBlocks blocks.new.items deeds.now }
{
    if deeds.len() - blocks.len() * SIZE >= SIZE {
        close(blocks, deeds);
    }
}

/// Makes a block of the deeds behind those of the blocks.
#[cold]
#[inline(never)]
fn close(blocks: &mut Vec<Block, Global>, deeds: &[Filed<Deed>])
    requires room { vec_len blocks.old < vec_capacity blocks.old }
    requires blocks { vec_len blocks.old * 128 ≤ length deeds.now }
    requires raised { raised_under (deeds_in deeds.now) < 2 ^ 64 }
    requires used { used_under (deeds_in deeds.now) < 2 ^ 64 }
    ensures { blocks.new.items ≡ blocks.old.items
        ++ block_of (deeds_in (drop (length blocks.old.items * 128) deeds.now)) ∷ [] }
{
    let rest = behind_blocks(deeds, blocks.len());
    blocks.push_reserved(block_of(rest));
}

/// Makes the block new, if there is one, in which the deed of this place was taken out.
fn renew(blocks: &mut Vec<Block, Global>, deeds: &[Filed<Deed>], place: usize)
    requires blocks { vec_len blocks.old * 128 ≤ length deeds.now }
    requires raised { raised_under (deeds_in deeds.now) < 2 ^ 64 }
    requires used { used_under (deeds_in deeds.now) < 2 ^ 64 }
    ensures { (before : List (FiledData DeedData)) (f : FiledData DeedData)
        → AreBlocks blocks.old.items before → deeds.now ≡ set before place f
        → AreBlocks blocks.new.items deeds.now }
{
    let i = place / SIZE;
    if i < blocks.len() {
        blocks[i] = block_of(block_at(deeds, i));
    }
}

/// Makes all blocks new.
fn rebuild(blocks: &mut Vec<Block, Global>, deeds: &[Filed<Deed>])
    requires room { length deeds.now < 128 * vec_len blocks.old + 128 }
    requires raised { raised_under (deeds_in deeds.now) < 2 ^ 64 }
    requires used { used_under (deeds_in deeds.now) < 2 ^ 64 }
    ensures { AreBlocks blocks.new.items deeds.now }
{
    blocks.clear();
    let mut rest = deeds;
    while rest.len() >= SIZE {
        let (these, behind) = first_block(rest);
        blocks.push_reserved(block_of(these));
        rest = behind;
    }
}

/// Takes out what is filed under this number, if there is something, and gives it. Takes no memory.
pub(crate) fn take(
    deeds: &mut Filing<Deed, Global>,
    blocks: &mut Vec<Block, Global>,
    entry: Number,
) -> Option<Deed>
    requires blocks { AreBlocks blocks.old.items deeds.old.all }
    requires raised { raised_under (dealings_of deeds.old.filed.kept) < 2 ^ 64 }
    requires used { used_under (dealings_of deeds.old.filed.kept) < 2 ^ 64 }
    ensures value { result ≡ kept_at deeds.old.filed entry }
    ensures taken { IsTakenOut deeds.old.filed deeds.new.filed entry }
    ensures blocks { AreBlocks blocks.new.items deeds.new.all }
{
    let place = deeds.place(entry)?;
    let deed = deeds.take(entry)?;
    renew(blocks, deeds.all(), place);
    Some(deed)
}

/// Leaves out the marks where they outnumber the deeds, as `Filing::sweep` does. Takes no memory.
pub(crate) fn sweep(deeds: &mut Filing<Deed, Global>, blocks: &mut Vec<Block, Global>)
    requires blocks { AreBlocks blocks.old.items deeds.old.all }
    requires raised { raised_under (dealings_of deeds.old.filed.kept) < 2 ^ 64 }
    requires used { used_under (dealings_of deeds.old.filed.kept) < 2 ^ 64 }
    ensures kept { deeds.new.filed.kept ≡ deeds.old.filed.kept }
    ensures last { last_of deeds.new.filed ≤ last_of deeds.old.filed }
    ensures blocks { AreBlocks blocks.new.items deeds.new.all }
{
    if deeds.sweep() {
        rebuild(blocks, deeds.all());
    }
}

/// How far above what is used the limit is behind these deeds, if it is so far above it before
/// them, or else the first Claim that passes it.
fn walk(room: u64, deeds: &[Filed<Deed>]) -> Result<u64, Number>
    requires { room + raised_under (deeds_in deeds.now) < 2 ^ 64 }
    ensures goes { (later : List Dealing)
        → first_over room 0 (deeds_in deeds.now ++ later) ≡ goes_on result later }
    ensures fits { IfOk result (λ r. r ≤ room + raised_under (deeds_in deeds.now)) }
{
    let mut room = room;
    for filed in deeds {
        if let Some(deed) = filed.kept {
            room += raised_by(deed);
            let used = used_by(deed);
            if room < used {
                return Err(filed.number);
            }
            room -= used;
        }
    }
    Ok(room)
}

/// The same, with the blocks of these deeds. It walks into the first in which a Claim passes the
/// limit, and into no other, and over the deeds behind the last.
fn walk_blocks(room: u64, blocks: &[Block], deeds: &[Filed<Deed>]) -> Result<u64, Number>
    requires blocks { AreBlocks blocks.now deeds.now }
    requires room { room + raised_under (deeds_in deeds.now) < 2 ^ 64 }
    ensures goes { (later : List Dealing)
        → first_over room 0 (deeds_in deeds.now ++ later) ≡ goes_on result later }
    ensures fits { IfOk result (λ r. r ≤ room + raised_under (deeds_in deeds.now)) }
{
    let mut room = room;
    let mut i = 0;
    for block in blocks {
        if block.need <= room {
            room = room - block.need + block.left;
        } else {
            match walk(room, block_at(deeds, i)) {
                Ok(left) => room = left,
                Err(number) => return Err(number),
            }
        }
        i += 1;
    }
    walk(room, behind_blocks(deeds, i))
}

/// The same, without the deed of this place.
pub(crate) fn walk_without(
    room: u64,
    blocks: &[Block],
    deeds: &[Filed<Deed>],
    place: usize,
) -> Result<u64, Number>
    requires blocks { AreBlocks blocks.now deeds.now }
    requires place { place < length deeds.now }
    requires room { room + raised_under (deeds_in deeds.now) < 2 ^ 64 }
    ensures { (later : List Dealing) → first_over room 0
        (deeds_in (take place deeds.now ++ drop (place + 1) deeds.now) ++ later)
        ≡ goes_on result later }
{
    let i = place / SIZE;
    let (blocks_before, blocks_rest) = blocks.split_at(i);
    let (_, blocks_behind) = blocks_rest.split_at(blocks_rest.len().min(1));
    let (before, rest) = deeds.split_at(i * SIZE);
    let (these, behind) = first_block(rest);
    let (first, others) = these.split_at(place - i * SIZE);
    let (_, last) = others.split_at(1);
    let room = walk_blocks(room, blocks_before, before)?;
    let room = walk(room, first)?;
    let room = walk(room, last)?;
    walk_blocks(room, blocks_behind, behind)
}

/// The first Raise or Claim of these deeds, with their blocks. It looks into the first block that
/// has one, or else at the deeds behind the last.
pub(crate) fn first_under_terms(blocks: &[Block], deeds: &[Filed<Deed>]) -> Option<Number>
    requires { AreBlocks blocks.now deeds.now }
    ensures { result ≡ first_under_terms (deeds_in deeds.now) }
{
    let mut i = 0;
    for block in blocks {
        if block.has_under_terms {
            return first_among(block_at(deeds, i));
        }
        i += 1;
    }
    first_among(behind_blocks(deeds, i))
}

/// The first Raise or Claim, by a look at each deed.
fn first_among(deeds: &[Filed<Deed>]) -> Option<Number>
    ensures { result ≡ first_under_terms (deeds_in deeds.now) }
{
    for filed in deeds {
        match &filed.kept {
            None | Some(Deed::Makes(_)) => {}
            _ => return Some(filed.number),
        }
    }
    None
}

/// Whether it is a Raise or a Claim.
fn is_under_terms(deed: Deed) -> bool
    ensures { result ≡ is_under_terms deed }
{
    match deed {
        Deed::Makes(_) => false,
        _ => true,
    }
}

/// The lots by which a limit is raised.
pub(crate) fn raised_by(deed: Deed) -> u64
    ensures { result ≡ raised_by_deed deed }
{
    match deed {
        Deed::Raises(lots) => lots,
        _ => 0,
    }
}

/// The lots that are claimed.
pub(crate) fn used_by(deed: Deed) -> u64
    ensures { result ≡ used_by_deed deed }
{
    match deed {
        Deed::Uses(lots) => lots,
        _ => 0,
    }
}
