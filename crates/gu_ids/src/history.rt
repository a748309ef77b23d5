//! The entries of a history, each found by its firm and id.
ghost use Rattle.std.specs.Prelude.{◌≡◌, ◌≤◌, ◌<◌, ◌↔◌, [], ◌∷◌, ◌++◌, length, IsTrue, OnOk};
ghost use Rattle.std.specs.Prelude.{vec_len, vec_capacity};
ghost use Rattle.gu_base.specs.Limits.{most_entries};
ghost use Rattle.gu_ids.specs.Hashing.{IsHashOf};
ghost use Rattle.gu_ids.specs.History.{HasRoom};
ghost use Rattle.gu_ids.specs.Newest.{newest_of};

use crate::hash::{HashKey, IdHash};
use crate::ids::Ids;
use gu_base::{AllocId, Command, Entry, FirmId, Memory, Number, State};
use std::alloc::Global;
use std::marker::Model;

/// The entries of a history in their order, at most 1,000,000.
///
/// Contracts see the entries, and how many more take no memory.
#[derive(Drop)]
pub struct History {
    entries: Vec<Entry>,
    ids: Ids,
}

impl Model for History {
    ghost use Rattle.std.specs.Prelude.{◌-◌, ◌*◌, ◌≤◌, length, vec_len, vec_capacity};
    ghost use Rattle.gu_base.specs.Limits.{most_entries};
    ghost use Rattle.gu_ids.specs.Chains.{AreIdsOf, count};
    ghost use Rattle.gu_ids.specs.History.{HistoryView};

    ghost Value = { HistoryView };

    ghost view = { λ h. record {
      items = h.entries.items;
      room = vec_capacity h.entries - vec_len h.entries;
      link_room = vec_capacity h.ids.links - vec_len h.ids.links;
      bucket_room = 4 * length h.ids.buckets.items - count h.ids;
    } };

    ghost invariant = { λ h. AreIdsOf h.ids h.entries.items
        × (length h.entries.items ≤ most_entries) };
}

impl History {
    /// No entries.
    pub fn new(alloc: Global) -> History
        ensures { result.items ≡ [] }
    {
        History {
            entries: Vec::new(alloc),
            ids: Ids::new(alloc),
        }
    }

    /// The entries, in their order.
    #[inline(always)]
    pub fn as_slice(&self) -> &[Entry]
        ensures value { result.now ≡ self.now.items }
        ensures few { length self.now.items ≤ most_entries }
    {
        self.entries.as_slice()
    }

    /// The hash of this firm and id under the key of this history.
    #[inline(always)]
    pub fn hash_of(&self, firm: &FirmId, id: &AllocId) -> IdHash
        ensures { IsHashOf result firm.now id.now }
    {
        self.ids.hash_of(firm, id)
    }

    /// The number of the newest entry of this firm and id, which have this hash.
    #[inline(always)]
    pub fn number(&self, firm: &FirmId, id: &AllocId, hash: IdHash) -> Option<Number>
        requires { IsHashOf hash firm.now id.now }
        ensures { result ≡ newest_of self.now.items firm.now id.now }
    {
        self.ids.number(&self.entries, firm, id, hash)
    }

    /// Makes room for one more entry, and for its id. There mostly is some for the entry, so that
    /// growth stands apart from the code that runs each time.
    ///
    /// # Errors
    ///
    /// `Memory` where a growth was refused.
    #[inline(always)]
    pub fn ready(&mut self) -> Result<(), Memory>
        ensures items { self.new.items ≡ self.old.items }
        ensures ready { OnOk result (HasRoom self.new) }
    {
        if self.entries.len() >= self.entries.capacity() {
            grow(&mut self.entries)?;
        }
        self.ids.ready()
    }

    /// Whether there is room for one more entry, as behind `ready`: the test for that condition of
    /// `push`.
    pub fn is_ready(&self) -> bool
        ensures { IsTrue result ↔ HasRoom self.now }
    {
        self.entries.len() < self.entries.capacity() && self.ids.is_ready()
    }

    /// Puts an entry at the end, whose firm and id have this hash. It is put together where it then
    /// lies. Takes no memory.
    #[inline(always)]
    pub fn push(
        &mut self,
        hash: IdHash,
        firm: &FirmId,
        id: &AllocId,
        status: State,
        command: Command,
    )
        requires ready { HasRoom self.old }
        requires few { length self.old.items < most_entries }
        requires hash { IsHashOf hash firm.now id.now }
        ensures { self.new.items ≡ self.old.items ++ record {
          firm = firm.now;
          id = id.now;
          command = command;
          status = status;
        } ∷ [] }
    {
        self.ids.add(hash, firm, id);
        self.entries.push_reserved(Entry {
            firm: *firm,
            id: *id,
            status,
            command,
        });
    }

    /// Finds ids under this key from now on. Takes time by the number of entries, and no memory.
    pub fn rekey(&mut self, key: HashKey)
        ensures { self.new.items ≡ self.old.items }
    {
        self.ids.rekey(&self.entries, key);
    }
}

/// Makes room for one entry more where there is none.
#[cold]
#[inline(never)]
fn grow(entries: &mut Vec<Entry>) -> Result<(), Memory>
    ensures items { entries.new.items ≡ entries.old.items }
    ensures room { OnOk result (vec_len entries.new < vec_capacity entries.new) }
{
    entries.reserve(1)?;
    Ok(())
}
