//! A number at each key.
ghost use Rattle.std.specs.Prelude.{◌≡◌, ◌+◌, ◌<◌, ◌≤◌, ◌^◌, [], cond, IsTrue, ◌↔◌, OnOk, OnErr};
ghost use Rattle.gu_sums.specs.Sums.{number_at, has_row, CanAdd};

use gu_base::Memory;
use std::alloc::Global;
use std::collections::HashMap;
use std::hash::Hash;
use std::marker::Model;

/// A number at each key. A key without a row has the number zero.
#[derive(Drop)]
pub struct Sums<K: Eq + Hash> {
    rows: HashMap<K, u64>,
}

impl<K: Eq + Hash> Model for Sums<K> {
    ghost use Rattle.std.specs.Prelude.{List, ℕ};
    ghost use Rattle.std.specs.Coded.{coded_list, coded×, coded_ℕ};

    ghost Value = { List (K × ℕ) };

    ghost coded = { coded_list (coded× K.code coded_ℕ) };

    ghost view = { λ s. s.rows.entries };
}

impl<K: Eq + Hash> Sums<K> {
    /// Zero at each key, and no row. The rows will grow by this allocator.
    pub fn new(alloc: Global) -> Sums<K>
        ensures { result ≡ [] }
    {
        Sums {
            rows: HashMap::new(alloc),
        }
    }

    /// The number at the key.
    pub fn of(&self, key: &K) -> u64
        ensures { result ≡ number_at (K.eq key.now) self.now }
    {
        self.rows.get(key).copied().unwrap_or(0)
    }

    /// Whether `add` may be called: the key has a row, and its number has room.
    pub fn can_add(&self, key: &K, by: u64) -> bool
        ensures { IsTrue result ↔ CanAdd (K.eq key.now) self.now by }
    {
        match self.rows.get(key) {
            Some(number) => number.checked_add(by).is_some(),
            None => false,
        }
    }

    /// Adds to the number at a key that has a row, and room for so much (`can_add`).
    pub fn add(&mut self, key: &K, by: u64)
        requires { CanAdd (K.eq key.now) self.old by }
        ensures added { (q : K) → number_at (K.eq q) self.new ≡ number_at (K.eq q) self.old
            + cond (K.eq key.now q) by 0 }
        ensures stays_ready { (q : K) → has_row (K.eq q) self.new ≡ has_row (K.eq q) self.old }
    {
        if let Some(number) = self.rows.get_mut(key) {
            *number += by;
        }
    }

    /// Takes from the number at a key no more than is there.
    pub fn take(&mut self, key: &K, by: u64)
        requires { by ≤ number_at (K.eq key.now) self.old }
        ensures taken { (q : K) → number_at (K.eq q) self.new + cond (K.eq key.now q) by 0
            ≡ number_at (K.eq q) self.old }
        ensures stays_ready { (q : K) → has_row (K.eq q) self.new ≡ has_row (K.eq q) self.old }
    {
        if let Some(number) = self.rows.get_mut(key) {
            *number -= by;
        }
    }
}

impl<K: Eq + Hash + Copy + Drop> Sums<K> {
    /// Makes a row of zero at the key, unless it has one. No number changes.
    pub fn ready(&mut self, key: &K) -> Result<(), Memory>
        ensures ready { OnOk result (IsTrue (has_row (K.eq key.now) self.new)) }
        ensures same { (q : K) → number_at (K.eq q) self.new ≡ number_at (K.eq q) self.old }
        ensures stays_ready { (q : K) → IsTrue (has_row (K.eq q) self.old)
            → IsTrue (has_row (K.eq q) self.new) }
    {
        if !self.rows.contains_key(key) {
            self.rows.insert(*key, 0)?;
        }
        Ok(())
    }

    /// Adds to the number at a key, and makes its row where there is none. One look finds a row
    /// that is there.
    ///
    /// # Errors
    ///
    /// `Memory` where a row was wanted. No number has changed then.
    pub fn put(&mut self, key: &K, by: u64) -> Result<(), Memory>
        requires { number_at (K.eq key.now) self.old + by < 2 ^ 64 }
        ensures added { OnOk result ((q : K) → number_at (K.eq q) self.new
            ≡ number_at (K.eq q) self.old + cond (K.eq key.now q) by 0) }
        ensures same { OnErr result ((q : K) → number_at (K.eq q) self.new
            ≡ number_at (K.eq q) self.old) }
        ensures stays_ready { (q : K) → IsTrue (has_row (K.eq q) self.old)
            → IsTrue (has_row (K.eq q) self.new) }
    {
        if let Some(sum) = self.rows.get_mut(key) {
            *sum += by;
            return Ok(());
        }
        self.ready(key)?;
        self.add(key, by);
        Ok(())
    }
}
