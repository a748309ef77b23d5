//! Where a journal's file stands, and whether it stands there still.

ghost use Rattle.std.specs.Prelude.{◌≡◌, ◌↔◌, IsTrue};

use std::alloc::Global;
use std::fs::Metadata;
use std::os::unix::fs::MetadataExt;
use std::sync::atomic::{AtomicU64, Ordering};
use std::{fs, io};

/// The bits of a mode by which others than the owner and the group may read, write or run a file.
const OTHERS: u32 = 0o007;

/// Which file it is.
#[derive(Clone, Copy)]
pub(crate) struct Node {
    device: u64,
    number: u64,
}

impl Node {
    /// That of a file of which this was found.
    pub(crate) fn of(found: &Metadata) -> Node {
        Node {
            device: found.dev(),
            number: found.ino(),
        }
    }

    /// Whether they are the same.
    pub(crate) fn is(self, other: Node) -> bool
        ensures { IsTrue result ↔ (self ≡ other) }
    {
        self.device == other.device && self.number == other.number
    }
}

/// The path of a file, which file was there, and how many bytes it had when it was looked at last:
/// a journal's file never gets shorter, as zeros stand behind what counts.
#[derive(Drop)]
pub(crate) struct Place {
    rt: HostRuntime,
    path: String,
    node: Node,
    bytes: AtomicU64,
    is_others: bool,
}

impl Place {
    /// The file that a name leads to now, whose path is this one.
    ///
    /// # Errors
    ///
    /// None is there, or memory ran out.
    pub(crate) fn of(rt: HostRuntime, alloc: Global, path: &str, name: &str) -> io::Result<Place> {
        let found = fs::metadata(&rt, name)?;
        Ok(Place {
            rt,
            path: String::from_str(alloc, path)?,
            node: Node::of(&found),
            bytes: AtomicU64::new(found.len()),
            is_others: found.mode() & OTHERS != 0,
        })
    }

    /// Which file was there.
    pub(crate) fn node(&self) -> Node {
        self.node
    }

    /// Whether others than its owner and group might read, write or run the file.
    pub(crate) fn is_others(&self) -> bool {
        self.is_others
    }

    /// Whether the path leads to the same file still, and that has so many bytes or more, and no
    /// fewer than before.
    pub(crate) fn has(&self, bytes: usize) -> bool {
        match fs::metadata(&self.rt, self.path.as_str()) {
            Ok(found) => {
                let is_same = Node::of(&found).is(self.node);
                let before = self.bytes.swap(found.len(), Ordering::SeqCst);
                is_same && found.len() >= before.max(bytes as u64)
            }
            Err(_) => false,
        }
    }
}
