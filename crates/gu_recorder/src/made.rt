//! What bytes that wait were made of. It is known in the proofs alone: no code reads it, and it
//! takes no room.

ghost use Rattle.std.specs.Prelude.{◌≡◌, ◌++◌, List, [], take, drop};
ghost use Rattle.gu_recorder.specs.Waiting.{made_of};
ghost use Rattle.gu_recorder.specs.declared.made.MadeByte.{MadeByte};
ghost use base.Fml.{ftrue};

use gu_base::Entry;
use gu_desk::{Job, Ticket};
use std::collections::LinkedList;
use std::marker::{Model, PhantomData};

/// A byte, and the history that it was made of. No code makes one.
pub struct MadeByte {
    pub byte: u8,
    pub history: LinkedList<Entry>,
}

/// The bytes that wait, each with the history that it was made of.
#[derive(Drop)]
pub(crate) struct Made {
    marker: PhantomData<()>,
    pub(crate) ghost bytes: { List MadeByte },
}

impl Model for Made {
    ghost also_owns = { λ _. ftrue };
}

/// What the proof of its caller picks, from what it passes.
fn note<T>(from: &T) -> Made
    ghost bytes: { List MadeByte }
    ensures { result.bytes ≡ bytes }
{
    let _ = from;
    Made {
        marker: PhantomData,
    }
}

/// No bytes.
pub(crate) fn nothing_made() -> Made
    ensures { result.bytes ≡ [] }
{
    note(&())
}

/// These bytes behind the others, made of the history that the ticket has seen.
pub(crate) fn made_behind<J: Job>(made: &Made, bytes: &[u8], ticket: &Ticket<J>) -> Made
    ensures { result.bytes ≡ made.now.bytes ++ made_of bytes.now ticket.now.seen }
{
    note(&(made, bytes, ticket))
}

/// All but so many at the front.
pub(crate) fn made_after(made: &Made, count: usize) -> Made
    ensures { result.bytes ≡ drop count made.now.bytes }
{
    note(&(made, count))
}

/// So many of the front of what was made, behind what was sent.
pub(crate) fn sent_behind(sent: &Made, made: &Made, count: usize) -> Made
    ensures { result.bytes ≡ sent.now.bytes ++ take count made.now.bytes }
{
    note(&(sent, made, count))
}
