//! The numbers of a history's entries, in chains by hash.
ghost use Rattle.std.specs.Prelude.{true, ◌≡◌, ◌≤◌, ◌<◌, ◌*◌, ◌==◌, ◌&&◌, [], ◌∷◌, ◌++◌, ℕ, List};
ghost use Rattle.std.specs.Prelude.{length, replicate, vec_capacity, IsTrue, OnOk, ◌↔◌};
ghost use Rattle.gu_base.specs.Limits.{most_entries};
ghost use Rattle.gu_base.specs.declared.entry.Entry.{Entry};
ghost use Rattle.gu_ids.specs.Hashing.{hash_of, IsHashOf};
ghost use Rattle.gu_ids.specs.Chains.{hashes_of, befores_of, newests_of, AreChains, AreIdsOf};
ghost use Rattle.gu_ids.specs.Chains.{IsReady, Stands, count};
ghost use Rattle.gu_ids.specs.Marks.{bucket_of, mark_of, second_mark_of, is_marked, bears};
ghost use Rattle.gu_ids.specs.Marks.{marks_of, AreMarked};
ghost use Rattle.gu_ids.specs.Newest.{is_of, newest_of};

use crate::hash::{HashKey, IdHash, hash_anew};
use gu_base::{AllocId, Entry, FirmId, Memory, Number};
use std::alloc::Global;

/// The buckets of the first growth.
const FEWEST_BUCKETS: usize = 16;

/// What is kept of an entry.
#[derive(Clone, Copy)]
pub(crate) struct Link {
    /// The hash of its firm and id.
    hash: u32,
    /// The number of the entry before it in its bucket, 0 for none.
    before: u32,
}

/// What is kept of a bucket.
///
/// With four entries at most eight of the 32 bits are set, so a new id finds both its marks there
/// by chance in one look-up of sixteen or fewer. One mark for each entry would tell as well where
/// two entries share a bucket, but then there would be twice as many buckets, and fewer of them in
/// the processor's caches.
#[derive(Clone, Copy)]
pub(crate) struct Bucket {
    /// The number of its newest entry, 0 for none.
    newest: u32,
    /// The marks of its entries, two bits each.
    marks: u32,
}

/// The number of each entry of a history, by the firm and the id of its call.
#[derive(Drop)]
pub(crate) struct Ids {
    /// For each entry of the history.
    links: Vec<Link>,
    /// For each bucket.
    buckets: Vec<Bucket>,
    /// The key that the hashes are under.
    key: HashKey,
}

/// The bucket of a hash among this many, a power of two.
#[inline(always)]
#[tactic(auto, unfolding(crate::specs::Marks::bucket_of))]
fn bucket_of(hash: u32, buckets: usize) -> usize
    requires { 1 ≤ buckets }
    ensures value { result ≡ bucket_of hash buckets }
    ensures within { result < buckets }
{
    hash as usize & (buckets - 1)
}

/// Which bit of its bucket's marks is the first mark of a hash: its upper five bits tell, which
/// choose no bucket.
#[inline(always)]
#[tactic(auto, unfolding(crate::specs::Marks::mark_of))]
fn mark_of(hash: u32) -> u32
    ensures value { result ≡ mark_of hash }
    ensures within { result < 32 }
{
    hash >> 27
}

/// Which bit is the second: the five bits below those tell, which choose none either.
#[inline(always)]
#[tactic(auto, unfolding(crate::specs::Marks::second_mark_of))]
fn second_mark_of(hash: u32) -> u32
    ensures value { result ≡ second_mark_of hash }
    ensures within { result < 32 }
{
    (hash >> 22) % 32
}

/// Whether this bit is among the marks.
#[inline(always)]
fn is_marked(marks: u32, bit: u32) -> bool
    requires { bit < 32 }
    ensures { result ≡ is_marked marks bit }
{
    (marks >> bit) & 1 == 1
}

/// The marks, and this bit among them.
#[inline(always)]
fn marked(marks: u32, bit: u32) -> u32
    requires { bit < 32 }
    ensures own { is_marked result bit ≡ true }
    ensures others { (b : ℕ) → is_marked marks b ≡ true → is_marked result b ≡ true }
{
    marks | 1 << bit
}

impl Bucket {
    /// Of a bucket without entries.
    const NONE: Bucket = Bucket {
        newest: 0,
        marks: 0,
    };

    /// Whether an entry of this hash may be in the bucket: both its marks are there. Most ids that
    /// are new are told so, from one place in memory and by a branch that nearly always goes one
    /// way.
    #[inline(always)]
    fn bears(self, hash: u32) -> bool
        ensures { result ≡ bears self.marks hash }
    {
        is_marked(self.marks, mark_of(hash)) && is_marked(self.marks, second_mark_of(hash))
    }

    /// With the entry of this number and hash as the newest.
    #[inline(always)]
    fn with(self, number: u32, hash: u32) -> Bucket
        ensures newest { result.newest ≡ number }
        ensures own { bears result.marks hash ≡ true }
        ensures others { (h : ℕ) → bears self.marks h ≡ true → bears result.marks h ≡ true }
    {
        Bucket {
            newest: number,
            marks: marked(marked(self.marks, mark_of(hash)), second_mark_of(hash)),
        }
    }
}

/// Whether an entry has this firm and id. Its link is asked first: the entry itself is looked at
/// where the hash is the same.
fn is_of(link: Link, hash: u32, entry: &Entry, firm: &FirmId, id: &AllocId) -> bool
    ensures { result ≡ (link.hash == hash && is_of firm.now id.now entry.now) }
{
    link.hash == hash && entry.firm == *firm && entry.id == *id
}

impl Ids {
    /// The ids of no history.
    pub(crate) fn new(alloc: Global) -> Ids
        ensures { AreIdsOf result [] }
    {
        Ids {
            links: Vec::new(alloc),
            buckets: Vec::new(alloc),
            key: HashKey::KNOWN,
        }
    }

    /// The number of the newest entry of this firm and id, which have this hash, in the history
    /// whose ids these are.
    pub(crate) fn number(
        &self,
        entries: &[Entry],
        firm: &FirmId,
        id: &AllocId,
        hash: IdHash,
    ) -> Option<Number>
        requires ids { AreIdsOf self.now entries.now }
        requires few { length entries.now ≤ most_entries }
        requires hash { IsHashOf hash firm.now id.now }
        ensures { result ≡ newest_of entries.now firm.now id.now }
    {
        if self.buckets.is_empty() {
            return None;
        }
        let hash = hash.under(self.key, firm, id);
        let bucket = bucket_of(hash, self.buckets.len());
        let kept = self.buckets[bucket];
        if !kept.bears(hash) {
            return None;
        }
        self.walk(entries, firm, id, hash, kept.newest)
    }

    /// The same, by a walk along a chain from the entry of this number on, 0 for none. It stands
    /// apart, so that a new id is told by the marks alone: that its bucket is empty too is a branch
    /// that can't be foreseen, and what comes behind would wait for it.
    #[cold]
    #[inline(never)]
    fn walk(
        &self,
        entries: &[Entry],
        firm: &FirmId,
        id: &AllocId,
        hash: u32,
        newest: u32,
    ) -> Option<Number>
        requires ids { AreIdsOf self.now entries.now }
        requires few { length entries.now ≤ most_entries }
        requires hash { hash ≡ hash_of self.now.key firm.now id.now }
        requires stands { Stands self.now entries.now firm.now id.now newest }
        ensures { result ≡ newest_of entries.now firm.now id.now }
    {
        let mut number = newest;
        while number != 0 {
            let place = number as usize - 1;
            let link = self.links[place];
            if is_of(link, hash, &entries[place], firm, id) {
                return Some(Number::at_place(place));
            }
            number = link.before;
        }
        None
    }

    /// Makes room for one more entry. Where there are four times as many entries as buckets it
    /// makes twice as many buckets, and links all entries anew.
    pub(crate) fn ready(&mut self) -> Result<(), Memory>
        requires { count self.old ≤ most_entries }
        ensures ready { OnOk result (IsReady self.new) }
        ensures same { (h : List Entry) → AreIdsOf self.old h → AreIdsOf self.new h }
    {
        if self.links.len() / 4 >= self.buckets.len() {
            self.grow()?;
        }
        self.links.reserve(1)?;
        Ok(())
    }

    /// Whether there is room for one more entry.
    pub(crate) fn is_ready(&self) -> bool
        ensures { IsTrue result ↔ IsReady self.now }
    {
        self.links.len() < self.links.capacity() && self.links.len() / 4 < self.buckets.len()
    }

    /// Makes half as many buckets as there are entries, in place of those that are there, and links
    /// all entries anew.
    #[cold]
    #[inline(never)]
    fn grow(&mut self) -> Result<(), Memory>
        requires { count self.old ≤ most_entries }
        ensures buckets { OnOk result (count self.new < 4 * length self.new.buckets.items) }
        ensures same { (h : List Entry) → AreIdsOf self.old h → AreIdsOf self.new h }
    {
        let buckets = (self.links.len() / 2).max(FEWEST_BUCKETS);
        let alloc = *self.buckets.allocator();
        self.buckets = Vec::from_elem(alloc, Bucket::NONE, buckets)?;
        self.link_anew();
        Ok(())
    }

    /// Links all entries anew, by their hashes. The buckets are new.
    fn link_anew(&mut self)
        requires new { self.old.buckets.items
            ≡ replicate (length self.old.buckets.items) (record { newest = 0; marks = 0 }) }
        requires some { 1 ≤ length self.old.buckets.items }
        requires numbered { count self.old ≤ most_entries }
        ensures hashes { hashes_of self.new.links.items ≡ hashes_of self.old.links.items }
        ensures buckets { length self.new.buckets.items ≡ length self.old.buckets.items }
        ensures count { count self.new ≡ count self.old }
        ensures key { self.new.key ≡ self.old.key }
        ensures chains { AreChains (hashes_of self.new.links.items)
            (befores_of self.new.links.items) (newests_of self.new.buckets.items) (count self.new) }
        ensures marked { AreMarked (hashes_of self.new.links.items)
            (marks_of self.new.buckets.items) (count self.new) }
    {
        let buckets = self.buckets.len();
        for place in 0..self.links.len() {
            let hash = self.links[place].hash;
            let bucket = bucket_of(hash, buckets);
            let kept = self.buckets[bucket];
            self.links[place] = Link {
                hash,
                before: kept.newest,
            };
            self.buckets[bucket] = kept.with(place as u32 + 1, hash);
        }
    }

    /// The hash of this firm and id under the key of these ids.
    #[inline(always)]
    pub(crate) fn hash_of(&self, firm: &FirmId, id: &AllocId) -> IdHash
        ensures { IsHashOf result firm.now id.now }
    {
        IdHash::of(self.key, firm, id)
    }

    /// Adds the entry of this firm and id, which have this hash: it comes next in the history.
    pub(crate) fn add(&mut self, hash: IdHash, firm: &FirmId, id: &AllocId)
        requires ready { IsReady self.old }
        requires few { count self.old < most_entries }
        requires hash { IsHashOf hash firm.now id.now }
        ensures { (h : List Entry) (e : Entry) → e.firm ≡ firm.now → e.id ≡ id.now
            → AreIdsOf self.old h → AreIdsOf self.new (h ++ e ∷ []) }
    {
        self.file(hash.under(self.key, firm, id));
    }

    /// Adds the entry that comes next in the history, whose firm and id have this hash under the
    /// key.
    #[inline(always)]
    fn file(&mut self, hash: u32)
        requires ready { IsReady self.old }
        requires few { count self.old < most_entries }
        ensures filed { (h : List Entry) (e : Entry) → hash ≡ hash_of self.old.key e.firm e.id
            → AreIdsOf self.old h → AreIdsOf self.new (h ++ e ∷ []) }
        ensures key { self.new.key ≡ self.old.key }
        ensures room { vec_capacity self.new.links ≡ vec_capacity self.old.links }
        ensures buckets { length self.new.buckets.items ≡ length self.old.buckets.items }
    {
        let bucket = bucket_of(hash, self.buckets.len());
        let kept = self.buckets[bucket];
        self.links.push_reserved(Link {
            hash,
            before: kept.newest,
        });
        self.buckets[bucket] = kept.with(self.links.len() as u32, hash);
    }

    /// Leaves the ids of no history, under this key, and all the room.
    fn empty(&mut self, key: HashKey)
        ensures none { AreIdsOf self.new [] }
        ensures key { self.new.key ≡ key }
        ensures room { vec_capacity self.new.links ≡ vec_capacity self.old.links }
        ensures buckets { length self.new.buckets.items ≡ length self.old.buckets.items }
    {
        self.key = key;
        self.links.clear();
        vacate(&mut self.buckets);
    }

    /// Makes the hashes of this history's entries anew, under this key, and links the entries anew.
    /// Takes time by their number, and no memory.
    pub(crate) fn rekey(&mut self, entries: &[Entry], key: HashKey)
        requires ids { AreIdsOf self.old entries.now }
        requires few { length entries.now ≤ most_entries }
        ensures ids { AreIdsOf self.new entries.now }
        ensures key { self.new.key ≡ key }
    {
        self.empty(key);
        for place in 0..entries.len() {
            let entry = &entries[place];
            self.file(hash_anew(key, &entry.firm, &entry.id));
        }
    }
}

/// Leaves all buckets without entries.
fn vacate(buckets: &mut Vec<Bucket>)
    ensures { buckets.new.items
        ≡ replicate (length buckets.old.items) (record { newest = 0; marks = 0 }) }
{
    for bucket in 0..buckets.len() {
        buckets[bucket] = Bucket::NONE;
    }
}
