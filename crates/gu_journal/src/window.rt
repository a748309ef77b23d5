//! The bytes of a file in pieces.

ghost use Rattle.std.specs.Prelude.{◌≡◌, ◌≤◌, ◌<◌, ◌+◌, ◌^◌, ◌++◌, [], List, ℕ, length};
ghost use Rattle.std.specs.Prelude.{take, drop, vec_len, eqb, position, OnOk, IfOk, IfErr, IsTrue};
ghost use Rattle.std.specs.List.{position_or_len};
ghost use Rattle.sqlite_disk.specs.Disk.{Holds};
ghost use Rattle.gu_store.specs.Zeros.{counted};
ghost use Rattle.gu_journal.specs.Held.{Adds, Gains, OnlyReads};
ghost use Rattle.gu_journal.specs.Taking.{IsTold};

use crate::damage::RecoverError;
use gu_codec::{Frame, MAX_FRAME_LEN, read_frame};
use sqlite_disk::Disk;
use std::alloc::{AllocError, Global};
use std::marker::Model;

/// The most bytes that are read at once.
const PIECE: usize = 65_536;

/// The bytes of a file from a place on, as many as were read and not yet passed.
///
/// Its buffer of 131,072 bytes is reserved once: what only begins a frame has fewer than 65,536
/// bytes, and a piece has no more.
#[derive(Drop)]
pub(crate) struct Window {
    buffer: Vec<u8>,
    // How many bytes at the front of the buffer were passed and not yet moved away.
    taken: usize,
    at: usize,
}

impl Model for Window {
    ghost use Rattle.gu_journal.specs.Held.{Held, held_of, IsKept};

    ghost Value = { Held };

    ghost view = { held_of };

    ghost invariant = { IsKept };
}

/// Appends a piece of so many bytes, which stands at this place of a file.
fn read_piece<D: Disk>(
    disk: &mut D,
    from: usize,
    count: usize,
    buffer: &mut Vec<u8>,
) -> Result<(), RecoverError>
    requires usable { IsTrue (D.Disk.is_usable disk.old) }
    requires some { 0 < count }
    requires few { count ≤ 65536 }
    ensures reads { OnlyReads D.Disk.seen D.Disk.may_leave D.Disk.is_usable D.Disk.is_clean
        disk.old disk.new }
    ensures err { IfErr result (λ e. IsTold e → ⊥) }
    ensures kept { vec_len buffer.old ≤ vec_len buffer.new }
    ensures piece { OnOk result ((piece : List ℕ) × (length piece ≡ count)
        × (buffer.new.items ≡ buffer.old.items ++ piece)
        × (IsTrue (D.Disk.is_clean disk.new) → Holds (D.Disk.seen disk.old) from piece)) }
{
    let held = buffer.len();
    buffer.resize(held + count, 0)?;
    disk.read_at(from, &mut buffer[held..])?;
    Ok(())
}

/// The place of the first zero.
fn zero_in(bytes: &[u8]) -> Option<usize>
    ensures { result ≡ position (λ b. eqb b 0) bytes.now }
{
    bytes.iter().position(|byte| *byte == 0)
}

/// The place of the first `8`.
fn frame_in(bytes: &[u8]) -> Option<usize>
    ensures { result ≡ position (λ b. eqb b 56) bytes.now }
{
    bytes.iter().position(|byte| *byte == b'8')
}

/// How many bytes stand before the first `8`.
fn strange_in(bytes: &[u8]) -> usize
    ensures value { result ≡ position_or_len (λ b. eqb b 56) bytes.now }
    ensures few { result ≤ length bytes.now }
{
    frame_in(bytes).unwrap_or(bytes.len())
}

/// How many bytes stand before the first zero.
fn counted_len(bytes: &[u8]) -> usize
    ensures { result ≡ length (counted bytes.now) }
{
    zero_in(bytes).unwrap_or(bytes.len())
}

impl Window {
    ghost use Rattle.gu_codec.specs.Answer.{Answers};
    ghost use Rattle.gu_journal.specs.Held.{end_of, at_front, strange_len};

    /// A window at the front of a file, of which nothing was read.
    pub(crate) fn new(alloc: Global) -> Result<Window, AllocError>
        ensures { IfOk result (λ w. w ≡ at_front []) }
    {
        Ok(Window {
            buffer: Vec::with_capacity(alloc, PIECE + MAX_FRAME_LEN)?,
            taken: 0,
            at: 0,
        })
    }

    /// The place in the file of the first byte that wasn't passed.
    pub(crate) fn at(&self) -> usize
        ensures { result ≡ self.now.at }
    {
        self.at
    }

    /// How many bytes were read and not passed.
    pub(crate) fn len(&self) -> usize
        ensures { result ≡ length self.now.bytes }
    {
        self.buffer.len() - self.taken
    }

    /// What stands at the front.
    pub(crate) fn front(&self) -> Frame<'_>
        ensures { Answers self.now.bytes result }
    {
        read_frame(&self.buffer[self.taken..])
    }

    /// The first bytes.
    pub(crate) fn bytes(&self, len: usize) -> &[u8]
        requires { len ≤ length self.now.bytes }
        ensures { result.now ≡ take len self.now.bytes }
    {
        &self.buffer[self.taken..self.taken + len]
    }

    /// Passes the first bytes.
    pub(crate) fn pass(&mut self, len: usize)
        requires within { len ≤ length self.old.bytes }
        requires small { self.old.at + len < 2 ^ 64 }
        ensures { self.new ≡ record { at = self.old.at + len; bytes = drop len self.old.bytes } }
    {
        self.taken += len;
        self.at += len;
    }

    /// Passes the first byte, and all up to the next `8`, with which each frame begins.
    pub(crate) fn pass_to_frame(&mut self)
        requires some { 0 < length self.old.bytes }
        requires small { end_of self.old < 2 ^ 64 }
        ensures within { strange_len self.old.bytes ≤ length self.old.bytes }
        ensures passed { self.new ≡ record {
          at = self.old.at + strange_len self.old.bytes;
          bytes = drop (strange_len self.old.bytes) self.old.bytes;
        } }
    {
        let strange = strange_in(&self.buffer[self.taken + 1..]);
        self.pass(strange + 1);
    }

    /// Moves what is held to the front of the buffer.
    fn settle(&mut self)
        ensures { self.new ≡ self.old }
    {
        let held = self.buffer.len() - self.taken;
        self.buffer.copy_within(self.taken.., 0);
        self.buffer.truncate(held);
        self.taken = 0;
    }

    /// Reads the next piece of a file of this length.
    pub(crate) fn fill<D: Disk>(&mut self, disk: &mut D, len: usize) -> Result<(), RecoverError>
        requires usable { IsTrue (D.Disk.is_usable disk.old) }
        requires more { end_of self.old < len }
        ensures reads { OnlyReads D.Disk.seen D.Disk.may_leave D.Disk.is_usable D.Disk.is_clean
            disk.old disk.new }
        ensures err { IfErr result (λ e. IsTold e → ⊥) }
        ensures adds { OnOk result (Adds (D.Disk.is_clean disk.new) (D.Disk.seen disk.old) len
            self.old self.new) }
    {
        self.settle();
        let from = self.at + self.len();
        read_piece(disk, from, (len - from).min(PIECE), &mut self.buffer)
    }

    /// Reads the next piece of a file of which so many bytes may count, up to its first zero. Where
    /// there is one, no more count.
    pub(crate) fn fill_counted<D: Disk>(
        &mut self,
        disk: &mut D,
        size: &mut usize,
    ) -> Result<(), RecoverError>
        requires usable { IsTrue (D.Disk.is_usable disk.old) }
        requires more { end_of self.old < size.old }
        ensures reads { OnlyReads D.Disk.seen D.Disk.may_leave D.Disk.is_usable D.Disk.is_clean
            disk.old disk.new }
        ensures err { IfErr result (λ e. IsTold e → ⊥) }
        ensures gains { OnOk result (Gains (D.Disk.is_clean disk.new) (D.Disk.seen disk.old)
            size.old size.new self.old self.new) }
    {
        let held = self.len();
        self.fill(disk, *size)?;
        let first = counted_len(&self.buffer[self.taken + held..]);
        if first < self.len() - held {
            self.buffer.truncate(self.taken + held + first);
            *size = self.at + held + first;
        }
        Ok(())
    }

    /// Goes on at another place of the file, from which nothing was read yet.
    pub(crate) fn go_to(&mut self, at: usize)
        ensures { self.new ≡ record { at = at; bytes = [] } }
    {
        self.buffer.clear();
        self.taken = 0;
        self.at = at;
    }
}
