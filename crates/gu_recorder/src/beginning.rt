//! A journal is begun: whole under its name, or not at all.

use crate::place::Node;
use crate::standing::{PlaceError, beside, byte_at, is_left, look};
use gu_journal::{OpenError, open_file};
use sqlite_std_file::Unknown;
use std::fs::{File, OpenOptions};
use std::io::ErrorKind;
use std::os::unix::fs::{MetadataExt, OpenOptionsExt};
use std::{fs, io};

/// The mode of a journal that is begun: its owner reads and writes it.
const OWNERS: u32 = 0o600;

/// The most bytes that count in a journal without entries.
const LONGEST_HEAD: u64 = 216;

/// Takes away the name that a journal had while it was begun, where a start that was killed left
/// it.
fn remove_second(rt: &HostRuntime, path: &str) -> io::Result<()> {
    let real = fs::canonicalize(rt, path)?;
    let name = beside(rt, real.as_str(), "-new")?;
    let Ok(second) = fs::symlink_metadata(rt, name.as_str()) else {
        return Ok(());
    };
    let found = fs::symlink_metadata(rt, real.as_str())?;
    if Node::of(&second).is(Node::of(&found)) {
        fs::remove_file(rt, name.as_str())?;
    }
    Ok(())
}

/// Makes the file of a journal that is begun, empty, so that its owner alone may read it: which one
/// that is.
fn make(rt: &HostRuntime, name: &str) -> io::Result<Node> {
    let made = OpenOptions::new()
        .write(true)
        .create_new(true)
        .mode(OWNERS)
        .open(rt, name)?;
    Ok(Node::of(&made.metadata()?))
}

/// What is said where another start has made a file, or has taken it away, while it was opened.
fn met(error: OpenError) -> OpenError {
    match error {
        OpenError::SecondName => OpenError::InUse,
        OpenError::Io(error) if is_other(error) => OpenError::InUse,
        error => error,
    }
}

/// Whether the system says that another file has a name, or none.
fn is_other(error: io::Error) -> bool {
    matches!(
        error.kind(),
        ErrorKind::Unsupported | ErrorKind::NotFound | ErrorKind::AlreadyExists
    )
}

/// Takes away what a start left under a name that was killed. It is locked meanwhile, so that it
/// isn't what another start begins now; where its journal has its own name that isn't needed.
fn remove_left(rt: &HostRuntime, name: &str) -> Result<(), PlaceError> {
    let found = fs::symlink_metadata(rt, name)?;
    if !found.is_file() {
        return Err(PlaceError::BesideNew);
    }
    if found.nlink() > 1 {
        fs::remove_file(rt, name)?;
        return Ok(());
    }
    let held = match open_file(rt, name, Unknown) {
        Ok(held) => held,
        Err(error) => return Err(PlaceError::Open(error)),
    };
    let removed = remove_held(rt, name);
    drop(held);
    removed
}

/// Takes away what a start left under a name that was killed, which is locked.
fn remove_held(rt: &HostRuntime, name: &str) -> Result<(), PlaceError> {
    if !is_left(byte_at(rt, name, 0)?, byte_at(rt, name, LONGEST_HEAD)?) {
        return Err(PlaceError::BesideNew);
    }
    fs::remove_file(rt, name)?;
    Ok(())
}

/// Makes the file of a journal that is begun, in place of what a start left that was killed.
fn make_anew(rt: &HostRuntime, name: &str) -> Result<Node, PlaceError> {
    match make(rt, name) {
        Err(error) if error.kind() == ErrorKind::AlreadyExists => {}
        Err(error) => return Err(PlaceError::from(error)),
        Ok(made) => return Ok(made),
    }
    match remove_left(rt, name) {
        Err(PlaceError::Open(error)) => return Err(PlaceError::Open(met(error))),
        Err(error) => return Err(error),
        Ok(()) => {}
    }
    match make(rt, name) {
        Err(error) => Err(PlaceError::Open(met(OpenError::Io(error)))),
        Ok(made) => Ok(made),
    }
}

/// Syncs the folder of a file.
fn sync_folder(rt: &HostRuntime, path: &str) -> io::Result<()> {
    let mut real = fs::canonicalize(rt, path)?;
    real.pop();
    File::open(rt, real.as_str())?.sync_all()
}

/// The name under which the file of a journal is opened: its own, or where the journal is begun,
/// the one that it has until it is whole, and which file that is.
#[derive(Drop)]
pub(crate) struct Name {
    text: String,
    made: Option<Node>,
}

impl Name {
    /// Looks at the place of a journal and beside it. Where nothing stands there, an empty file is
    /// made under its name and `-new`, and what a start left there that was killed goes.
    ///
    /// # Errors
    ///
    /// As `PlaceError` says. No file is made then.
    pub(crate) fn of(rt: &HostRuntime, path: &str) -> Result<Name, PlaceError> {
        if look(rt, path)? {
            let text = beside(rt, path, "-new")?;
            let made = Some(make_anew(rt, text.as_str())?);
            return Ok(Name { text, made });
        }
        remove_second(rt, path)?;
        let text = beside(rt, path, "")?;
        Ok(Name { text, made: None })
    }

    /// The name.
    pub(crate) fn as_str(&self) -> &str {
        self.text.as_str()
    }

    /// Whether it leads to the file that was made, if one was.
    pub(crate) fn leads_to(&self, found: Node) -> bool {
        match self.made {
            Some(made) => made.is(found),
            None => true,
        }
    }

    /// What is said where the file isn't opened: of one that was made, that another start has taken
    /// it, if that is so.
    pub(crate) fn refused(&self, error: OpenError) -> OpenError {
        match self.made {
            Some(_) => met(error),
            None => error,
        }
    }

    /// Gives a journal that was begun, and is on the disk, its own name, if nothing has that. The
    /// name is on the disk too then.
    ///
    /// # Errors
    ///
    /// `Open`, where something has the name, or the system failed.
    pub(crate) fn settle(&self, rt: &HostRuntime, path: &str) -> Result<(), PlaceError> {
        if self.made.is_none() {
            return Ok(());
        }
        match fs::hard_link(rt, self.as_str(), path) {
            Ok(()) => {}
            Err(error) => return Err(PlaceError::Open(met(OpenError::Io(error)))),
        }
        self.remove(rt);
        sync_folder(rt, path)?;
        Ok(())
    }

    /// Takes the name away under which a journal was begun, as far as the system does, if it leads
    /// to the file that was made.
    pub(crate) fn remove(&self, rt: &HostRuntime) {
        if self.made.is_none() {
            return;
        }
        if let Ok(found) = fs::symlink_metadata(rt, self.as_str()) {
            if self.leads_to(Node::of(&found)) {
                let _ = fs::remove_file(rt, self.as_str());
            }
        }
    }
}
