//! What an archive keeps of a connection between two lines.

ghost use Rattle.std.specs.Prelude.{◌≡◌, ◌≤◌, length, drop, OnOk};
ghost use Rattle.gu_archive.specs.Lines.{AppendsSaid};
ghost use Rattle.gu_archive.specs.Taps.{Hears};
ghost use Rattle.gu_archive.specs.declared.lines.Way.TheVariants.{Out};

use crate::hour::Moment;
use crate::lines::{Front, Way, push_close, push_pieces, push_rest};
use gu_base::Memory;
use std::alloc::Global;

/// What an archive keeps of a connection: its number, what came and is no whole frame yet, and how
/// many bytes stand in the archive that the peer hasn't taken.
#[derive(Drop)]
pub struct Tap {
    pub(crate) number: u64,
    pub(crate) incoming: Vec<u8>,
    pub(crate) ahead: usize,
    pub(crate) is_open: bool,
}

/// Takes so many bytes from the front.
fn pass(bytes: &mut Vec<u8>, count: usize)
    requires { count ≤ length bytes.old.items }
    ensures { bytes.new.items ≡ drop count bytes.old.items }
{
    let len = bytes.len();
    bytes.as_mut_slice().copy_within(count..len, 0);
    bytes.truncate(len - count);
}

impl Tap {
    /// Of a connection with this number on which nothing has come yet.
    pub fn new(alloc: Global, number: u64) -> Tap {
        Tap {
            number,
            incoming: Vec::new(alloc),
            ahead: 0,
            is_open: false,
        }
    }

    /// Whether the line of its begin is in the archive.
    pub fn is_open(&self) -> bool {
        self.is_open
    }

    /// What its lines of this moment begin with.
    pub(crate) fn front<'a>(&self, moment: &'a Moment) -> Front<'a>
        ensures moment { result.moment.now ≡ moment.now }
        ensures connection { result.connection ≡ self.now.number }
    {
        Front {
            moment,
            connection: self.number,
        }
    }

    /// Appends the lines of the frames that end with these bytes, which came. What is left waits.
    pub(crate) fn hear(
        &mut self,
        lines: &mut Vec<u8>,
        moment: &Moment,
        bytes: &[u8],
    ) -> Result<(), Memory>
        ensures { OnOk result (Hears moment.now.text self.old self.new lines.old.items
            lines.new.items bytes.now) }
    {
        let front = self.front(moment);
        self.incoming.extend_from_slice(bytes)?;
        let told = push_pieces(lines, front, Way::In, self.incoming.as_slice())?;
        pass(&mut self.incoming, told);
        Ok(())
    }

    /// Appends the lines of these bytes, which go out.
    pub(crate) fn say(
        &self,
        lines: &mut Vec<u8>,
        moment: &Moment,
        bytes: &[u8],
    ) -> Result<(), Memory>
        ensures { OnOk result (AppendsSaid moment.now.text self.now.number Out lines.old.items
            lines.new.items bytes.now) }
    {
        let front = self.front(moment);
        let told = push_pieces(lines, front, Way::Out, bytes)?;
        let (_, rest) = bytes.split_at(told);
        push_rest(lines, front, Way::Out, rest)?;
        Ok(())
    }

    /// Appends the lines of its end.
    pub(crate) fn end(
        &mut self,
        lines: &mut Vec<u8>,
        moment: &Moment,
        why: &str,
    ) -> Result<(), Memory> {
        let front = self.front(moment);
        push_rest(lines, front, Way::In, self.incoming.as_slice())?;
        push_close(lines, front, why, self.ahead)
    }

    /// The peer has taken so many bytes of those that went out first.
    pub fn took(&mut self, count: usize) {
        self.ahead = self.ahead.saturating_sub(count);
    }
}
