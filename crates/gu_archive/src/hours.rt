//! The files of the hours, opened before the workers need them by a thread that may open files.

use crate::error::ArchiveError;
use crate::hour::Moment;
use std::alloc::Global;
use std::fs::{File, OpenOptions};
use std::io;
use std::io::{Read, Seek, SeekFrom, Write};
use std::mem::replace;
use std::os::unix::fs::OpenOptionsExt;
use std::rt::Files;
use std::sync::{Mutex, Wait};
use std::time::Clock;

/// How many seconds before its hour a file is opened.
const AHEAD: i64 = 30;

/// The file of an hour since 1970, or why it can't be opened.
#[derive(Drop)]
struct Next {
    hour: u64,
    file: Result<File, io::Error>,
}

/// What lies there for a worker: the file that it hasn't taken yet, and the hour of the newest one.
#[derive(Drop)]
struct Place {
    newest: u64,
    next: Option<Next>,
}

/// The files of an archive's folder that wait for the workers, a place for each.
#[derive(Drop)]
pub struct Hours {
    folder: String,
    places: Vec<Mutex<Place>>,
}

/// Ends the last line of a file, where a program that was killed has left a front of one.
fn end_line(file: &mut File) -> io::Result<()> {
    if file.seek(SeekFrom::End(0))? == 0 {
        return Ok(());
    }
    let mut last = [0; 1];
    file.seek(SeekFrom::End(-1))?;
    file.read_exact(&mut last)?;
    if last[0] != b'\n' {
        file.write_all(b"\n")?;
    }
    Ok(())
}

/// Opens the file of a moment's hour in a folder, which only the owner reads, to write behind what
/// stands there. It is made where there is none.
fn open_hour<R: Files<File = File>>(
    rt: &R,
    alloc: Global,
    folder: &str,
    moment: &Moment,
) -> Result<File, ArchiveError> {
    let hour = moment.hour_name();
    let name = std::str::from_utf8(&hour).unwrap_or("");
    let path = format!(in alloc; "{folder}/{name}.log")?;
    let mut how = OpenOptions::new();
    how.read(true).append(true).create(true).mode(0o600);
    let mut file = how.open(rt, path.as_str())?;
    end_line(&mut file)?;
    Ok(file)
}

impl Place {
    /// With a file that waits.
    fn with(hour: u64, file: File) -> Place {
        Place {
            newest: hour,
            next: Some(Next {
                hour,
                file: Ok(file),
            }),
        }
    }

    /// Puts a file there, or why it can't be opened: then it is tried again.
    fn put(&mut self, hour: u64, file: Result<File, io::Error>) {
        if file.is_ok() {
            self.newest = hour;
        }
        self.next = Some(Next { hour, file });
    }

    /// Takes the file that waits, if it is one of this hour or an earlier one.
    fn take(&mut self, hour: u64) -> Option<Next> {
        match &self.next {
            Some(next) if next.hour <= hour => replace(&mut self.next, None),
            _ => None,
        }
    }
}

impl Hours {
    /// The files of this hour in a folder, for so many workers.
    ///
    /// # Errors
    ///
    /// Those of `ArchiveError`.
    pub fn open<R: Files<File = File> + Clock>(
        rt: &R,
        alloc: Global,
        folder: &str,
        workers: u32,
    ) -> Result<Hours, ArchiveError> {
        let moment = Moment::now(rt)?;
        let mut places = Vec::new(alloc);
        for _ in 0..workers {
            let file = open_hour(rt, alloc, folder, &moment)?;
            places.push(Mutex::new(Place::with(moment.hour, file)))?;
        }
        let folder = String::from_str(alloc, folder)?;
        Ok(Hours { folder, places })
    }

    /// Whether a place wants the file of this hour.
    fn wants<R: Wait>(&self, rt: &R, at: usize, hour: u64) -> bool {
        match self.places.get(at) {
            Some(place) => {
                let held = place.lock(rt);
                (*held).newest < hour
            }
            None => false,
        }
    }

    /// Opens the file of a moment's hour for a place.
    fn fill<R: Files<File = File> + Wait>(
        &self,
        rt: &R,
        alloc: Global,
        at: usize,
        moment: &Moment,
    ) {
        let opened = match open_hour(rt, alloc, self.folder.as_str(), moment) {
            Ok(file) => Ok(file),
            Err(ArchiveError::Disk(error)) => Err(error),
            Err(_) => return,
        };
        if let Some(place) = self.places.get(at) {
            let mut held = place.lock(rt);
            (*held).put(moment.hour, opened);
        }
    }

    /// Opens the files of the hour that begins within 30 seconds, where they aren't open. To be
    /// called each second: a file that can't be opened is tried again, and a worker that comes for
    /// it meanwhile is told why.
    pub fn look<R: Files<File = File> + Clock + Wait>(&self, rt: &R, alloc: Global) {
        let Ok(moment) = Moment::ahead(rt, AHEAD) else {
            return;
        };
        for at in 0..self.places.len() {
            if self.wants(rt, at, moment.hour) {
                self.fill(rt, alloc, at, &moment);
            }
        }
    }

    /// Takes the file that waits for a worker, with its hour, if it is one of this hour or an
    /// earlier one.
    pub(crate) fn take<R: Wait>(
        &self,
        rt: &R,
        at: usize,
        hour: u64,
    ) -> Result<Option<(u64, File)>, ArchiveError> {
        let Some(place) = self.places.get(at) else {
            return Ok(None);
        };
        let mut held = place.lock(rt);
        let found = (*held).take(hour);
        drop(held);
        match found {
            Some(Next { hour, file }) => Ok(Some((hour, file?))),
            None => Ok(None),
        }
    }
}
