//! How large a book is, and what memory it takes.

ghost use Rattle.std.specs.Prelude.{◌≡◌};
ghost use Rattle.gu_limits.specs.Size.{memory_of, with_call as with_call_of, group_of};
ghost use Rattle.gu_limits.specs.Size.{fills_group as fills_group_of};

/// About how many bytes of memory a book takes for an entry, and for a part of a Split, as
/// `bench/memory` measures them.
const ENTRY_BYTES: u64 = 254;

const PART_BYTES: u64 = 155;

/// How many bytes of memory a group of the journal may take.
pub const GROUP_BYTES: u64 = 8_000_000;

/// About how many of them it takes for an entry, and for a part of a Split: its copies, and what
/// is written of it, in lists that may have doubled.
const GROUP_ENTRY_BYTES: u64 = 1_000;

const GROUP_PART_BYTES: u64 = 150;

/// How many entries a book has, or a firm in it, and how many parts the Splits among them.
#[derive(Clone, Copy, Debug, PartialEq, Eq)]
pub struct Size {
    pub entries: u64,
    pub parts: u64,
}

impl Size {
    /// Nothing.
    pub const NONE: Size = Size {
        entries: 0,
        parts: 0,
    };

    /// About how many bytes of memory a book of this size takes; all where that is more than
    /// 2^64 - 1.
    pub fn memory(self) -> u64
        ensures { result ≡ memory_of self }
    {
        let entries = self.entries.saturating_mul(ENTRY_BYTES);
        entries.saturating_add(self.parts.saturating_mul(PART_BYTES))
    }

    /// The size with the entry of a call more, which has so many parts.
    pub fn with_call(self, parts: u64) -> Size
        ensures { result ≡ with_call_of self parts }
    {
        Size {
            entries: self.entries.saturating_add(1),
            parts: self.parts.saturating_add(parts),
        }
    }
    /// About how many bytes of memory a group of the journal takes for so many; all where that is
    /// more than 2^64 - 1.
    pub fn group_bytes(self) -> u64
        ensures { result ≡ group_of self }
    {
        let entries = self.entries.saturating_mul(GROUP_ENTRY_BYTES);
        entries.saturating_add(self.parts.saturating_mul(GROUP_PART_BYTES))
    }
}

/// Whether so many bytes that aren't on the disk yet fill a journal's group: further calls wait
/// until they are there.
pub fn fills_group(bytes: u64) -> bool
    ensures { result ≡ fills_group_of bytes }
{
    GROUP_BYTES <= bytes
}
