//! Answering the frames that have come.

ghost use Rattle.std.specs.Prelude.{◌≡◌, ◌+◌, ◌<◌, ◌≤◌, ◌^◌, None, [], length};
ghost use Rattle.gu_batch.specs.Held.{AnswersHeld};

use crate::answering::{Answering, Room};
use crate::batch::RunError;
use gu_codec::{Feed, Frame};
use std::alloc::Global;

/// Appends the answers to the messages that are held whole. An `Err` is `Broken` or `Memory`,
/// behind the answers before it.
pub(crate) fn answer_frames(
    alloc: Global,
    feed: &mut Feed,
    answering: &mut Answering,
    room: &mut Room,
    out: &mut Vec<u8>,
) -> Result<(), RunError>
    requires unbroken { feed.old.broken ≡ None }
    requires empty { out.old.items ≡ [] }
    requires numbered { answering.old.written ≤ feed.old.passed }
    requires short { feed.old.passed + length feed.old.held < 2 ^ 63 }
    ensures { AnswersHeld answering.old feed.old answering.new feed.new out.new.items result }
{
    'frames: loop {
        match feed.next_sealed() {
            None => return Ok(()),
            Some(Frame::Whole { fields, .. }) => {
                match answering.answer(alloc, fields, room, out) {
                    Ok(()) => {}
                    Err(_) => return Err(RunError::Memory),
                }
            }
            Some(Frame::Garbled { .. }) => {}
            Some(Frame::Partial) => return Ok(()),
            Some(Frame::Broken { at }) => return Err(RunError::Broken { at }),
        }
    }
}
