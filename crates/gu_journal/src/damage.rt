//! What is wrong with a journal's file, told so that whoever runs the house can act on it.

ghost use Rattle.std.specs.Prelude.{◌≡◌};
ghost use Rattle.sha2.specs.Sha256.{sha256};
ghost use Rattle.gu_journal.specs.declared.damage.RecoverError.TheVariants as error;

use crate::session::house_digits;
use sha2::{Digest, Sha256};
use std::alloc::AllocError;
use std::{fmt, io, str};
use thiserror::Error;

/// The SHA-256 of a house file's bytes, by which a journal is pinned to its house.
#[derive(Clone, Copy, Debug, PartialEq, Eq)]
pub struct HouseDigest {
    /// The digest.
    pub bytes: [u8; 32],
}

impl HouseDigest {
    /// The digest of a house file of these bytes.
    pub fn of(file: &[u8]) -> HouseDigest
        ensures { result.bytes ≡ sha256 file.now }
    {
        HouseDigest {
            bytes: Sha256::digest(file),
        }
    }
}

/// 64 hex digits in lower case.
impl fmt::Display for HouseDigest {
    fn fmt<W: fmt::Write>(&self, f: &mut fmt::Formatter<W>) -> fmt::Result {
        match str::from_utf8(&house_digits(&self.bytes)) {
            Ok(text) => f.write_str(text),
            Err(_) => Ok(()),
        }
    }
}

/// Why bytes of a journal aren't what a journal has there.
#[derive(Clone, Copy, Debug, PartialEq, Eq, Error)]
pub enum Cause {
    /// The frame's checksum is wrong, or its body is no list of fields.
    #[error("the frame is garbled")]
    Garbled,
    /// The byte begins no frame.
    #[error("no frame stands here")]
    NoFrame,
    /// No zero stands behind what counts: the file was cut at the end of a frame or inside one.
    #[error("the file ends without a zero")]
    Cut,
    /// The first message isn't the head of a journal.
    #[error("the first message is no head of a journal")]
    NoHead,
    /// MsgSeqNum (34) isn't the number of the next entry.
    #[error("the message has another number than the next entry")]
    OtherNumber,
    /// The message means no call, or one that the book doesn't accept as its next entry.
    #[error("the message is no entry that the book accepts")]
    NoEntry,
    /// The digest of a seal isn't that of the bytes before it.
    #[error("the bytes before this seal aren't those that were sealed")]
    OtherDigest,
    /// Behind the last whole frame before the first zero stands the seal of a later group than the
    /// next one.
    #[error("a group that was committed stands behind bytes that aren't whole")]
    LaterGroup,
    /// The file has no head, and more bytes than a journal that is begun.
    #[error("the file begins with no head, and is no journal that was begun")]
    NoBeginning,
}

/// What is wrong, and where.
#[derive(Clone, Copy, Debug, PartialEq, Eq, Error)]
#[error("the journal is damaged at byte {at}, entry {entry}: {cause}")]
pub struct Damage {
    /// The byte of the file, from 0: the first of what isn't as it has to be.
    pub at: usize,
    /// The number of the entry that was to come.
    pub entry: u32,
    /// What is wrong there.
    pub cause: Cause,
}

/// Why a journal isn't recovered. But for `Disk`, and `Memory` where a file has no head yet,
/// nothing was written.
#[derive(Clone, Copy, Debug, Error)]
pub enum RecoverError {
    /// Memory ran out.
    #[error("out of memory")]
    Memory,
    /// The moment isn't a timestamp of 1 to 24 bytes.
    #[error("bad moment")]
    Moment,
    /// The disk failed. What the file says is as before.
    #[error("the disk failed: {0}")]
    Disk(io::Error),
    /// The journal was begun with another house file.
    #[error("another house file: this one has SHA-256 {file}, the journal's has {journal}")]
    OtherHouse {
        file: HouseDigest,
        journal: HouseDigest,
    },
    /// The journal has a form that this program doesn't read.
    #[error("the journal isn't of the form allocd-journal-3")]
    OtherForm,
    /// The file isn't what a crash leaves of a journal.
    #[error("{0}")]
    Damaged(Damage),
    /// The file has more bytes than a journal may have.
    #[error("the journal is too long")]
    Full,
}

impl From<AllocError> for RecoverError {
    ghost from_gives = { λ _ e. e ≡ error.Memory };

    fn from(_: AllocError) -> RecoverError {
        RecoverError::Memory
    }
}

impl From<io::Error> for RecoverError {
    ghost from_gives = { λ x e. e ≡ error.Disk x };

    fn from(error: io::Error) -> RecoverError {
        RecoverError::Disk(error)
    }
}
