//! A worker's end of the archive.

ghost use Rattle.std.specs.Prelude.{◌≤◌, length, OnOk};

use crate::error::ArchiveError;
use crate::hour::Moment;
use crate::hours::Hours;
use crate::lines::push_open;
use crate::tap::Tap;
use gu_base::Memory;
use std::alloc::Global;
use std::fs::File;
use std::io;
use std::io::{ErrorKind, Write};
use std::sync::{Arc, Wait};
use std::time::Clock;

/// How many bytes of room for lines are kept from one write to the next at the most.
const MOST_KEPT: usize = 1 << 16;

/// An end of the archive, through which one worker writes: where its files come from, the file of
/// the hour, what is on its way, and whether something was written that isn't on the disk.
#[derive(Drop)]
pub struct Archive {
    hours: Arc<Hours>,
    at: usize,
    file: File,
    hour: u64,
    lines: Vec<u8>,
    is_dirty: bool,
    failed: Option<io::Error>,
}

impl Archive {
    /// The end of the archive for the worker at this place, with the file that waits for it there.
    ///
    /// # Errors
    ///
    /// `Disk` where none waits, or it couldn't be opened.
    pub fn open<R: Wait>(
        rt: &R,
        alloc: Global,
        hours: Arc<Hours>,
        at: usize,
    ) -> Result<Archive, ArchiveError> {
        let Some((hour, file)) = hours.take(rt, at, u64::MAX)? else {
            return Err(ArchiveError::Disk(io::Error::from(ErrorKind::NotFound)));
        };
        Ok(Archive {
            hours,
            at,
            file,
            hour,
            lines: Vec::new(alloc),
            is_dirty: false,
            failed: None,
        })
    }

    /// The error of the file, once one has come: from then on nothing may be answered.
    pub fn failed(&self) -> Option<io::Error> {
        self.failed
    }

    /// Goes on to the file of a later hour, if it waits, once what was written to the one before is
    /// on the disk.
    fn turn_to<R: Wait>(&mut self, rt: &R, moment: &Moment) -> Result<(), ArchiveError> {
        if moment.hour <= self.hour {
            return Ok(());
        }
        let Some((hour, file)) = self.hours.take(rt, self.at, moment.hour)? else {
            return Ok(());
        };
        self.file.sync_all()?;
        self.file = file;
        self.hour = hour;
        Ok(())
    }

    /// Writes the lines that were made, at this moment.
    fn write_out<R: Wait>(&mut self, rt: &R, moment: &Moment) -> Result<(), ArchiveError> {
        if self.lines.is_empty() {
            return Ok(());
        }
        self.turn_to(rt, moment)?;
        self.file.write_all(self.lines.as_slice())?;
        self.is_dirty = true;
        Ok(())
    }

    /// Writes the lines that were made, if they could be. They are gone from here then, and an
    /// error of the file is noted.
    fn finish<R: Wait>(
        &mut self,
        rt: &R,
        moment: &Moment,
        made: Result<(), Memory>,
    ) -> Result<(), ArchiveError> {
        let told = match made {
            Ok(()) => self.write_out(rt, moment),
            Err(error) => Err(error.into()),
        };
        self.lines.clear();
        self.lines.shrink_to(MOST_KEPT);
        if let Err(ArchiveError::Disk(error)) = told {
            self.failed = Some(error);
        }
        told
    }

    /// Puts the line of a connection's begin into the archive, if it isn't there.
    ///
    /// # Errors
    ///
    /// Those of `ArchiveError`.
    pub fn opens<R: Wait + Clock>(
        &mut self,
        rt: &R,
        tap: &mut Tap,
        peer: &str,
    ) -> Result<(), ArchiveError> {
        if tap.is_open {
            return Ok(());
        }
        tap.is_open = true;
        let moment = Moment::now(rt)?;
        let made = push_open(&mut self.lines, tap.front(&moment), peer);
        self.finish(rt, &moment, made)
    }

    /// Puts what came on a connection into the archive, which was read just now and which nobody
    /// has looked at. What only begins a frame goes there with the rest of the frame, or with the
    /// connection's end.
    ///
    /// # Errors
    ///
    /// Those of `ArchiveError`. Then nobody may look at it.
    pub fn hears<R: Wait + Clock>(
        &mut self,
        rt: &R,
        tap: &mut Tap,
        bytes: &[u8],
    ) -> Result<(), ArchiveError> {
        let moment = Moment::now(rt)?;
        let made = tap.hear(&mut self.lines, &moment, bytes);
        self.finish(rt, &moment, made)
    }

    /// Puts what may go out on a connection into the archive: of these bytes, which begin with the
    /// first that the peer hasn't taken, those that aren't there.
    ///
    /// # Errors
    ///
    /// Those of `ArchiveError`. Then nothing may go out.
    pub fn says<R: Wait + Clock>(
        &mut self,
        rt: &R,
        tap: &mut Tap,
        bytes: &[u8],
    ) -> Result<(), ArchiveError>
        ensures { OnOk result (length bytes.now ≤ tap.new.ahead) }
    {
        if tap.ahead >= bytes.len() {
            return Ok(());
        }
        let moment = Moment::now(rt)?;
        let made = tap.say(&mut self.lines, &moment, &bytes[tap.ahead..]);
        self.finish(rt, &moment, made)?;
        tap.ahead = bytes.len();
        Ok(())
    }

    /// Puts the lines of a connection's end into the archive, if its begin is there: what came and
    /// is no whole frame, and why it ends.
    ///
    /// # Errors
    ///
    /// Those of `ArchiveError`.
    pub fn closes<R: Wait + Clock>(
        &mut self,
        rt: &R,
        tap: &mut Tap,
        why: &str,
    ) -> Result<(), ArchiveError> {
        if !tap.is_open {
            return Ok(());
        }
        tap.is_open = false;
        let moment = Moment::now(rt)?;
        let made = tap.end(&mut self.lines, &moment, why);
        self.finish(rt, &moment, made)
    }

    /// Brings what was written to the disk, if something was since the last time.
    ///
    /// # Errors
    ///
    /// `Disk` with the error of the sync.
    pub fn sync(&mut self) -> Result<(), ArchiveError> {
        if !self.is_dirty {
            return Ok(());
        }
        self.is_dirty = false;
        match self.file.sync_data() {
            Ok(()) => Ok(()),
            Err(error) => {
                self.failed = Some(error);
                Err(ArchiveError::Disk(error))
            }
        }
    }
}
