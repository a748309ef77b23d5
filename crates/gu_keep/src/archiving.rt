//! What a connection reads and sends goes into the archive first, where there is one.

ghost use Rattle.std.specs.Prelude.{OnOk};
ghost use Rattle.gu_keep.specs.Archived.{HasAll};

use crate::visit::peer_of;
use gu_archive::{Archive, ArchiveError, Tap};
use gu_connection::Closed;
use gu_recorder::{Wire, Witness};
use std::alloc::Global;
use std::io;
use std::io::{ErrorKind, Read};
use std::sync::Wait;
use std::time::Clock;

/// The archive, if there is one, and what it keeps of a connection.
#[derive(Drop)]
pub(crate) struct Archiving<'b, R> {
    pub(crate) rt: &'b R,
    pub(crate) archive: Option<Archive>,
    pub(crate) tap: Tap,
}

/// The stream of a connection that is read: who reads it gets nothing that isn't in the archive.
#[derive(Drop)]
pub(crate) struct Heard<'b, R> {
    pub(crate) rt: &'b R,
    pub(crate) alloc: Global,
    pub(crate) archive: Option<Archive>,
    pub(crate) tap: Tap,
    pub(crate) wire: Wire,
}

/// Puts what came into an archive, behind the connection's begin.
fn comes<R: Wait + Clock>(
    rt: &R,
    alloc: Global,
    archive: &mut Archive,
    tap: &mut Tap,
    wire: &Wire,
    bytes: &[u8],
) -> Result<(), ArchiveError> {
    if !tap.is_open() {
        let peer = peer_of(alloc, wire);
        archive.opens(rt, tap, peer.as_str())?;
    }
    archive.hears(rt, tap, bytes)
}

/// Puts what came into the archive, where there is one.
fn hears<R: Wait + Clock>(
    rt: &R,
    alloc: Global,
    archive: &mut Option<Archive>,
    tap: &mut Tap,
    wire: &Wire,
    bytes: &[u8],
) -> io::Result<()> {
    let Some(archive) = archive else {
        return Ok(());
    };
    match comes(rt, alloc, archive, tap, wire, bytes) {
        Ok(()) => Ok(()),
        Err(_) => Err(io::Error::from(ErrorKind::Other)),
    }
}

/// Puts what may go out into the archive, where there is one.
fn goes<R: Wait + Clock>(
    rt: &R,
    archive: &mut Option<Archive>,
    tap: &mut Tap,
    bytes: &[u8],
) -> Result<(), Closed>
    ensures { OnOk result (HasAll archive.new tap.new bytes.now) }
{
    let Some(archive) = archive else {
        return Ok(());
    };
    match archive.says(rt, tap, bytes) {
        Ok(()) => Ok(()),
        Err(_) => Err(Closed),
    }
}

impl<'b, R: Wait + Clock> Read for Heard<'b, R> {
    fn read(&mut self, buf: &mut [u8]) -> io::Result<usize> {
        let count = self.wire.read(buf)?;
        if count > 0 {
            hears(
                self.rt,
                self.alloc,
                &mut self.archive,
                &mut self.tap,
                &self.wire,
                &buf[..count],
            )?;
        }
        Ok(count)
    }
}

impl<'b, R: Wait + Clock> Witness for Archiving<'b, R> {
    ghost use Rattle.gu_keep.specs.Archived.{HasAll};

    ghost saw = { λ a bytes. HasAll a.archive a.tap bytes };

    fn sees(&mut self, bytes: &[u8]) -> Result<(), Closed> {
        goes(self.rt, &mut self.archive, &mut self.tap, bytes)
    }

    fn took(&mut self, count: usize) {
        self.tap.took(count);
    }
}
