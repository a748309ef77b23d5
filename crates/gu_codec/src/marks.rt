//! The fields of a body, by the marks of their SOH: 64 bytes are looked at in a step.

ghost use Rattle.std.specs.Prelude.{◌≡◌, ◌≤◌, ◌<◌, ◌+◌, ◌==◌, length, drop, option_map, IsNone};
ghost use Rattle.std.specs.List.{position_or_len};
ghost use Rattle.gu_codec.specs.Fields.{field_at, is_soh};
ghost use Rattle.gu_codec.specs.MarkBits.{AreMarks, IsMarked};

use crate::fields::{Fields, SOH, field_to};
use std::marker::Model;
use std::simd::prelude::*;

/// The marks of 64 bytes: a bit for each, from the lowest on, that says whether it is SOH.
#[inline(always)]
fn marks_of_64(bytes: &[u8], at: usize) -> u64
    requires { at + 64 ≤ length bytes.now }
    ensures { AreMarks bytes.now at 64 result }
{
    u8x64::from_slice(&bytes[at..])
        .simd_eq(u8x64::splat(SOH))
        .to_bitmask()
}

/// The marks of 32 bytes.
#[inline(always)]
fn marks_of_32(bytes: &[u8], at: usize) -> u64
    requires { at + 32 ≤ length bytes.now }
    ensures { AreMarks bytes.now at 32 result }
{
    u8x32::from_slice(&bytes[at..])
        .simd_eq(u8x32::splat(SOH))
        .to_bitmask()
}

/// The marks of 16 bytes.
#[inline(always)]
pub(crate) fn marks_of_16(bytes: &[u8], at: usize) -> u64
    requires { at + 16 ≤ length bytes.now }
    ensures { AreMarks bytes.now at 16 result }
{
    u8x16::from_slice(&bytes[at..])
        .simd_eq(u8x16::splat(SOH))
        .to_bitmask()
}

/// The marks of fewer than 16 bytes.
#[cold]
#[inline(never)]
fn marks_of_few(bytes: &[u8]) -> u64
    requires { length bytes.now < 16 }
    ensures { AreMarks bytes.now 0 64 result }
{
    let mut marks = 0u64;
    let mut i = bytes.len();
    while i > 0 {
        i -= 1;
        marks = marks * 2 + (bytes[i] == SOH) as u64;
    }
    marks
}

/// The marks of the first 64 bytes. Where there are fewer, those of the first 32 or 16 and of as
/// many at the end are joined.
#[inline(always)]
fn first_marks(bytes: &[u8]) -> u64
    ensures { AreMarks bytes.now 0 64 result }
{
    let len = bytes.len();
    if 64 <= len {
        return marks_of_64(bytes, 0);
    }
    if 32 <= len {
        return marks_of_32(bytes, 0) | (marks_of_32(bytes, len - 32) << (len - 32));
    }
    if 16 <= len {
        return marks_of_16(bytes, 0) | (marks_of_16(bytes, len - 16) << (len - 16));
    }
    marks_of_few(bytes)
}

/// The marks of the next 64 bytes. Where fewer are left, the last 64 are looked at.
#[inline(always)]
fn more_marks(bytes: &[u8], at: usize) -> u64
    requires behind { 64 ≤ at }
    requires inside { at < length bytes.now }
    ensures { AreMarks bytes.now at 64 result }
{
    let len = bytes.len();
    if at + 64 <= len {
        return marks_of_64(bytes, at);
    }
    marks_of_64(bytes, len - 64) >> (64 - (len - at))
}

/// Marks that aren't 0, and where the bytes begin that they are of: those that are given, or the
/// next ones. They are 0 where no SOH is left. Where the next field begins (`at`) is for the
/// contract alone.
#[inline(always)]
fn advance(bytes: &[u8], at: usize, base: usize, marks: u64) -> (usize, u64)
    requires { IsMarked bytes.now at base marks }
    ensures marked { IsMarked bytes.now at result.0 result.1 }
    ensures all { result.1 ≡ 0 → length bytes.now ≤ result.0 + 64 }
{
    let mut base = base;
    let mut marks = marks;
    while marks == 0 && base + 64 < bytes.len() {
        base += 64;
        marks = more_marks(bytes, base);
    }
    (base, marks)
}

/// The fields of a body, or those of them that are left, by the marks of their SOH. Contracts see
/// the bytes that are left.
///
/// The lowest bit that is set tells where a value ends, however long it is: so a time or an id
/// costs no more than a digit. `Fields` compares byte by byte with SOH, which is as good for values
/// of one to three bytes, as those of groups are, and wants nothing made ready. So a message is
/// walked over by its marks once, and its groups by `Fields`.
#[derive(Drop)]
pub struct Marked<'a> {
    bytes: &'a [u8],
    /// Where the next field begins.
    at: usize,
    /// Where the 64 bytes begin that are marked.
    base: usize,
    /// A bit for each of them, from the lowest on: whether it is SOH and doesn't stand before `at`.
    marks: u64,
}

impl<'a> Model for Marked<'a> {
    ghost use Rattle.std.specs.Prelude.{ℕ, List};
    ghost use Rattle.gu_codec.specs.Left.{left_of, AreLeft};

    ghost Value = { List ℕ };

    ghost view = { left_of };

    ghost invariant = { AreLeft };
}

impl<'a> Marked<'a> {
    /// Those of a message.
    #[inline(always)]
    pub fn of(fields: Fields<'a>) -> Marked<'a>
        ensures { result ≡ fields.entry.rest.now }
    {
        let bytes = fields.rest;
        let marks = first_marks(bytes);
        Marked {
            bytes,
            at: 0,
            base: 0,
            marks,
        }
    }

    /// The next field, as `Fields::step` gives it.
    #[inline(always)]
    pub fn step(&mut self) -> Option<(u32, &'a [u8])>
        ensures field { option_map (λ item. ((item.0, item.1.now), self.new)) result
            ≡ field_at self.old }
        ensures stays { IsNone result → self.new ≡ self.old }
    {
        let (base, marks) = advance(self.bytes, self.at, self.base, self.marks);
        if marks == 0 {
            return None;
        }
        let end = base + marks.trailing_zeros() as usize;
        let field = field_to(&self.bytes[self.at..], end - self.at)?;
        self.base = base;
        self.marks = marks & (marks - 1);
        self.at = end + 1;
        Some(field)
    }

    /// How many bytes are left.
    #[inline(always)]
    pub fn left(&self) -> usize
        ensures { result ≡ length self.now }
    {
        self.bytes.len() - self.at
    }

    /// Whether no byte is left.
    #[inline(always)]
    pub fn is_at_end(&self) -> bool
        ensures { result ≡ (length self.now == 0) }
    {
        self.at == self.bytes.len()
    }
}
