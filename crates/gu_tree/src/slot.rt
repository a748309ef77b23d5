//! What each entry named, filed by the number of the entry.
ghost use Rattle.std.specs.Prelude.{◌≡◌, ◌<◌, ℕ, [], unwrap_or};
ghost use Rattle.gu_base.specs.Numbers.{EntryPart};
ghost use Rattle.gu_sums.specs.Filing.{kept_at};
ghost use Rattle.gu_tree.specs.Filing.{IsRoot, slot_of, name_in, Climbs, IsClimbed};

use crate::path::{MAX_DEPTH, Path};
use gu_base::{NodeName, Number};
use gu_sums::Filing;
use std::alloc::Allocator;
use std::marker::Model;

/// What an entry named.
#[derive(Clone, Copy)]
pub(crate) enum Slot {
    /// Nothing, or nothing any more.
    Empty,
    /// The root of its tree, which stands here among the trees.
    Root(u32),
    /// The node that a Split or a decision names.
    Node(NodeName),
}

/// What an entry named, in eight bytes. An entry that names no node is filed nowhere.
#[derive(Clone, Copy)]
pub(crate) struct Named {
    packed: Packed,
}

#[derive(Clone, Copy)]
enum Packed {
    Tree(u32),
    /// The part, and the entry that made it.
    Part(u8, Number),
}

impl Model for Named {
    ghost use Rattle.gu_tree.specs.Slots.{Slot, slot_code};

    ghost Value = { Slot };

    ghost coded = { slot_code };

    ghost use Rattle.gu_tree.specs.Slots.{unpacked, pack, pack_again, HasPart};

    ghost view = { λ n. unpacked n.packed };

    ghost invariant = { λ n. HasPart n.packed };

    ghost inverse = { λ s. record { packed = pack s } };

    ghost inverse_ok = { λ s h i. record { packed = pack_again s.packed i } };
}

impl Named {
    /// The root of the tree that stands here among the trees.
    pub(crate) fn root(i: u32) -> Named
        ensures { result ≡ Slot.Root i }
    {
        Named {
            packed: Packed::Tree(i),
        }
    }

    /// A node.
    pub(crate) fn node(node: NodeName) -> Named
        ensures { result ≡ Slot.Node node }
    {
        Named {
            packed: Packed::Part(node.part(), node.entry()),
        }
    }

    fn slot(&self) -> Slot
        ensures { result ≡ self.now }
    {
        match &self.packed {
            Packed::Tree(i) => Slot::Root(*i),
            Packed::Part(part, entry) => Slot::Node(NodeName::in_entry(*entry, *part)),
        }
    }
}

/// What the entry named, and how far above its number it is filed; `shift` as for `Filing::look`.
fn filed_at<A: Allocator>(slots: &Filing<Named, A>, shift: usize, entry: Number) -> (usize, Slot)
    ensures { result.1 ≡ slot_of slots.now.filed entry }
{
    let (found, named) = slots.look(shift, entry);
    match named {
        Some(named) => (found, named.slot()),
        None => (found, Slot::Empty),
    }
}

/// What the entry named.
pub(crate) fn slot_at<A: Allocator>(slots: &Filing<Named, A>, entry: Number) -> Slot
    ensures { result ≡ slot_of slots.now.filed entry }
{
    filed_at(slots, slots.shift(), entry).1
}

/// Where the tree of a trade stands among the trees.
pub(crate) fn root_of<A: Allocator>(slots: &Filing<Named, A>, trade: Number) -> usize
    requires { IsRoot (slot_of slots.now.filed trade) }
    ensures { slot_of slots.now.filed trade ≡ Slot.Root result }
{
    match slot_at(slots, trade) {
        Slot::Root(i) => i as usize,
        _ => unreachable!(),
    }
}

/// The node that an entry with this slot named, a Trade its root.
pub(crate) fn named_by(slot: Slot, entry: Number) -> Option<NodeName>
    ensures { result ≡ name_in entry slot }
{
    match slot {
        Slot::Empty => None,
        Slot::Root(_) => Some(NodeName::in_entry(entry, 0)),
        Slot::Node(node) => Some(node),
    }
}

/// Leaves in an empty path the steps that lead from the root to the node, and gives the root's
/// trade.
///
/// The steps are gone upward, and kept from the last on. Each slot is first looked for as far above
/// its number as the one before was found.
pub(crate) fn climb<A: Allocator>(
    slots: &Filing<Named, A>,
    node: NodeName,
    path: &mut Path,
) -> Number
    requires room { Climbs slots.now.filed node 0 }
    requires falls { (e : ℕ) (n : EntryPart) → slot_of slots.now.filed e ≡ Slot.Node n
        → n.entry < e }
    requires empty { path.old.items ≡ [] }
    ensures { IsClimbed slots.now.filed node [] path.new.items result }
{
    if node.part() == 0 {
        return node.entry();
    }
    let mut node = node;
    let mut shift = slots.shift();
    let mut steps = [0; MAX_DEPTH];
    let mut first = MAX_DEPTH;
    while node.part() != 0 {
        first -= 1;
        steps[first] = node.part() - 1;
        let (found, slot) = filed_at(slots, shift, node.entry());
        let Slot::Node(above) = slot else {
            unreachable!()
        };
        shift = found;
        node = above;
    }
    let Ok(()) = path.try_extend_from_slice(&steps[first..]) else {
        unreachable!()
    };
    node.entry()
}
