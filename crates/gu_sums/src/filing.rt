//! What is filed by the numbers of entries.
ghost use Rattle.std.specs.Prelude.{◌≡◌, ◌≤◌, ◌<◌, ◌^◌, [], length, OnOk, OnErr, IfOk, IfSome};
ghost use Rattle.std.specs.Prelude.{IfNone, IsTrue, ◌↔◌, is_some, filter, ◌++◌, ◌∷◌, Some, None, ℕ};
ghost use Rattle.std.specs.Prelude.{set, false};
ghost use Rattle.gu_sums.specs.Filing.{kept_at, last_of, IsFiled, IsTakenOut};
ghost use Rattle.gu_sums.specs.Filed.{contents, kept_in, last_from, IsRising, IsFiledAt};
ghost use Rattle.gu_sums.specs.Filed.{IsNotFiled, IsPlaceOf};

use gu_base::{Memory, Number};
use std::alloc::Allocator;
use std::marker::Model;

/// A number with what is filed under it, or with the mark, `None`, that it was taken out.
#[derive(Clone, Copy)]
pub struct Filed<T> {
    pub number: Number,
    pub kept: Option<T>,
}

/// Things filed by the numbers of entries, each above those before it.
///
/// A thing is found by halves, or by one look where the numbers have few gaps. One that is taken
/// out leaves a mark in its place, so nothing moves.
#[derive(Drop)]
pub struct Filing<T: Copy, A: Allocator> {
    filed: Vec<Filed<T>, A>,
    marks: usize,
}

impl<T: Copy, A: Allocator> Model for Filing<T, A> {
    ghost use Rattle.std.specs.Prelude.{◌-◌, vec_len, vec_capacity};
    ghost use Rattle.gu_sums.specs.Filing.{FilingView, filing_code};

    ghost Value = { FilingView T };

    ghost coded = { filing_code T.code };

    ghost use Rattle.gu_sums.specs.Filed.{contents, IsFiling};

    ghost view = { λ f. record {
      all = f.filed.items;
      filed = contents f.filed.items;
      room = vec_capacity f.filed - vec_len f.filed;
    } };

    ghost invariant = { λ f. IsFiling f.filed.items f.marks };
}

impl<T: Copy, A: Allocator> Filing<T, A> {
    /// Nothing filed. It grows by this allocator.
    pub fn new(alloc: A) -> Filing<T, A>
        ensures filed { result.filed ≡ record { kept = []; last = 0 } }
        ensures all { result.all ≡ [] }
    {
        Filing {
            filed: Vec::new(alloc),
            marks: 0,
        }
    }

    /// Makes room for one more. Nothing that is filed changes.
    ///
    /// # Errors
    ///
    /// `Memory` where a growth was refused.
    pub fn ready(&mut self) -> Result<(), Memory>
        ensures same { self.new.filed ≡ self.old.filed }
        ensures all { self.new.all ≡ self.old.all }
        ensures room { OnOk result (1 ≤ self.new.room) }
    {
        self.filed.reserve(1)?;
        Ok(())
    }

    /// Whether there is room for one more.
    pub fn has_room(&self) -> bool
        ensures { IsTrue result ↔ (1 ≤ self.now.room) }
    {
        self.filed.len() < self.filed.capacity()
    }

    /// The last number that was filed, taken out or not, 0 where there is none.
    pub fn last(&self) -> u32
        ensures { result ≡ last_of self.now.filed }
    {
        last_in(self.filed.as_slice())
    }

    /// How many things are filed. It walks over none.
    pub fn count(&self) -> usize
        ensures value { result ≡ length self.now.filed.kept }
        ensures fits { result < 2 ^ 63 }
    {
        self.filed.len() - self.marks
    }

    /// Each number with its thing or its mark, in their order.
    pub fn all(&self) -> &[Filed<T>]
        ensures kept { kept_in result.now ≡ self.now.filed.kept }
        ensures all { result.now ≡ self.now.all }
    {
        self.filed.as_slice()
    }

    /// What is filed under the number.
    pub fn get(&self, number: Number) -> Option<T>
        ensures { result ≡ kept_at self.now.filed number }
    {
        self.look(self.shift(), number).1
    }

    /// Where the thing or the mark of the number stands among all.
    pub fn place(&self, number: Number) -> Option<usize>
        ensures found { IfSome result (λ i. IsPlaceOf self.now.all number i) }
        ensures absent { IfNone result (kept_at self.now.filed number ≡ None) }
    {
        match find(self.filed.as_slice(), self.shift(), number) {
            Some((i, _)) => Some(i),
            None => None,
        }
    }

    /// How far above its number a thing lies if each number from it on was filed: where `look` may
    /// begin.
    pub fn shift(&self) -> usize {
        shift_of(self.filed.as_slice())
    }

    /// What is filed under the number, and how far above the number that lies. It is first looked
    /// for as far above as `shift` says, then by halves. What lies there is known by its number, so
    /// `shift` may be any.
    pub fn look(&self, shift: usize, number: Number) -> (usize, Option<T>)
        ensures { result.1 ≡ kept_at self.now.filed number }
    {
        look(self.filed.as_slice(), shift, number)
    }

    /// Files a thing after all others, for which there is room. Takes no memory.
    pub fn file(&mut self, number: Number, thing: T)
        requires room { 1 ≤ self.old.room }
        requires above { last_of self.old.filed < number }
        ensures filed { IsFiled self.old.filed self.new.filed number thing }
        ensures all { self.new.all ≡ self.old.all ++ record {
          number =
              number;
          kept = Some thing;
        } ∷ [] }
    {
        self.filed.push_reserved(Filed {
            number,
            kept: Some(thing),
        });
    }

    /// Takes out what is filed under the number, if there is something, and gives it. Takes no
    /// memory.
    pub fn take(&mut self, number: Number) -> Option<T>
        ensures value { result ≡ kept_at self.old.filed number }
        ensures taken { IsTakenOut self.old.filed self.new.filed number }
        ensures marked { (i : ℕ) → IsFiledAt self.old.all number i
            → self.new.all ≡ set self.old.all i (record { number = number; kept = None }) }
        ensures same { IfNone result (self.new.all ≡ self.old.all) }
    {
        let shift = shift_of(self.filed.as_slice());
        let Some((i, _)) = find(self.filed.as_slice(), shift, number) else {
            return None;
        };
        let Some(thing) = self.filed[i].kept else {
            return None;
        };
        self.filed[i] = Filed { number, kept: None };
        self.marks += 1;
        Some(thing)
    }

    /// Leaves out the marks where they outnumber the things, so that a walk over all is no longer
    /// than twice these. Says whether it did.
    pub fn sweep(&mut self) -> bool
        ensures kept { self.new.filed.kept ≡ self.old.filed.kept }
        ensures last { last_of self.new.filed ≤ last_of self.old.filed }
        ensures same { result ≡ false → self.new.all ≡ self.old.all }
        ensures fewer { length self.new.all ≤ length self.old.all }
    {
        let sparse = self.marks > self.filed.len() / 2;
        if sparse {
            sweep(&mut self.filed);
            self.marks = 0;
        }
        sparse
    }
}

/// Where the number stands, or where it would have to.
#[cold]
#[inline(never)]
fn search<T>(filed: &[Filed<T>], number: Number) -> Result<usize, usize>
    requires { IsRising filed.now }
    ensures found { IfOk result (IsFiledAt filed.now number) }
    ensures absent { OnErr result (IsNotFiled filed.now number) }
{
    filed.binary_search_by_key(&number.get(), |one| one.number.get())
}

/// Where the number stands, and how far above itself that is.
fn find<T>(filed: &[Filed<T>], shift: usize, number: Number) -> Option<(usize, usize)>
    requires { IsRising filed.now }
    ensures found { IfSome result (λ r. IsFiledAt filed.now number r.0) }
    ensures absent { IfNone result (IsNotFiled filed.now number) }
{
    let n = number.get() as usize;
    let near = n.wrapping_add(shift);
    if near < filed.len() && filed[near].number.get() == number.get() {
        return Some((near, shift));
    }
    match search(filed, number) {
        Ok(i) => Some((i, i.wrapping_sub(n))),
        Err(_) => None,
    }
}

/// How far above its number a thing lies if each number from it on was filed.
fn shift_of<T>(filed: &[Filed<T>]) -> usize {
    let Some(last) = filed.last() else {
        return 0;
    };
    (filed.len() - 1).wrapping_sub(last.number.get() as usize)
}

/// What is filed under the number, and how far above the number that lies; `shift` as for `find`.
fn look<T: Copy>(filed: &[Filed<T>], shift: usize, number: Number) -> (usize, Option<T>)
    requires { IsRising filed.now }
    ensures { result.1 ≡ kept_at (contents filed.now) number }
{
    match find(filed, shift, number) {
        Some((i, found)) => (found, filed[i].kept),
        None => (shift, None),
    }
}

/// The last number, 0 where there is none.
fn last_in<T>(filed: &[Filed<T>]) -> u32
    ensures { result ≡ last_from 0 filed.now }
{
    match filed.last() {
        Some(one) => one.number.get(),
        None => 0,
    }
}

/// Leaves out the marks.
fn sweep<T: Copy, A: Allocator>(filed: &mut Vec<Filed<T>, A>)
    ensures { filed.new.items ≡ filter (λ one. is_some one.kept) filed.old.items }
{
    filed.retain(|one| one.kept.is_some());
}
