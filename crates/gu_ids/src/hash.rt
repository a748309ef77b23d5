//! The hash of a firm and an id: SipHash-1-3 under a key. Its words are read from the rooms that
//! the texts lie in, so no byte is looked at alone.
ghost use Rattle.std.specs.Prelude.{◌≡◌, ◌≤◌, ◌<◌, ◌+◌, ◌*◌, ◌/◌, ◌%◌, ◌^◌, ◌↔◌, length, IsTrue};
ghost use Rattle.std.specs.Hash.DefaultHasher.{read_word};
ghost use Rattle.gu_base.specs.Limits.{longest_id, longest_name};
ghost use Rattle.gu_ids.specs.Hashing.{begun, finished, taken, taken_of, turned};
ghost use Rattle.gu_ids.specs.Hashing.{IsHashOf, hash_of, padded, room_of, word_at};

use gu_base::{AllocId, FirmId};
use std::hash::{Hash, Hasher};

/// The bytes of a word.
const WORD_LEN: usize = 8;

/// The key of the hashes of a book: 128 bits. Whoever doesn't know it can't choose ids that fall
/// together.
#[derive(Clone, Copy, PartialEq, Eq)]
pub struct HashKey {
    low: u64,
    high: u64,
}

impl HashKey {
    /// The key that a book has until it is given another. Everyone knows it.
    pub const KNOWN: HashKey = HashKey { low: 0, high: 0 };

    /// The key of these bits.
    pub fn new(bits: u128) -> HashKey
        ensures { result ≡ record { low = bits % 2 ^ 64; high = bits / 2 ^ 64 } }
    {
        HashKey {
            low: (bits % (1 << 64)) as u64,
            high: (bits >> 64) as u64,
        }
    }
}

/// The state of SipHash-1-3 between two words.
#[derive(Clone, Copy)]
struct Sip {
    v0: u64,
    v1: u64,
    v2: u64,
    v3: u64,
}

impl Sip {
    /// Nothing taken in.
    #[inline(always)]
    fn new(key: HashKey) -> Sip
        ensures { result ≡ begun key }
    {
        Sip {
            v0: key.low ^ 0x736f_6d65_7073_6575,
            v1: key.high ^ 0x646f_7261_6e64_6f6d,
            v2: key.low ^ 0x6c79_6765_6e65_7261,
            v3: key.high ^ 0x7465_6462_7974_6573,
        }
    }

    /// One round.
    #[inline(always)]
    fn turn(self) -> Sip
        ensures { result ≡ turned self }
    {
        let a0 = self.v0.wrapping_add(self.v1);
        let a2 = self.v2.wrapping_add(self.v3);
        let a1 = self.v1.rotate_left(13) ^ a0;
        let a3 = self.v3.rotate_left(16) ^ a2;
        let b2 = a2.wrapping_add(a1);
        let b0 = a0.rotate_left(32).wrapping_add(a3);
        Sip {
            v0: b0,
            v1: a1.rotate_left(17) ^ b2,
            v2: b2.rotate_left(32),
            v3: a3.rotate_left(21) ^ b0,
        }
    }

    /// With one word more.
    #[inline(always)]
    fn take(self, word: u64) -> Sip
        ensures { result ≡ taken self word }
    {
        let mixed = Sip {
            v0: self.v0,
            v1: self.v1,
            v2: self.v2,
            v3: self.v3 ^ word,
        };
        let turned = mixed.turn();
        Sip {
            v0: turned.v0 ^ word,
            v1: turned.v1,
            v2: turned.v2,
            v3: turned.v3,
        }
    }

    /// The hash of the words taken in and of a last one: seven bytes of `tail`, and the lowest byte
    /// of `count` above them.
    #[inline(always)]
    fn finish(self, tail: u64, count: u64) -> u64
        ensures { result ≡ finished self tail count }
    {
        let all = self.take((count & 0xFF) << 56 | tail);
        let closed = Sip {
            v0: all.v0,
            v1: all.v1,
            v2: all.v2 ^ 0xFF,
            v3: all.v3,
        };
        let end = closed.turn().turn().turn();
        end.v0 ^ end.v1 ^ end.v2 ^ end.v3
    }
}

/// What `Hash` writes of a name: the words of the room that its text lies in, with zeros after the
/// text.
#[derive(Clone, Copy)]
struct Room {
    words: [u64; 4],
}

impl Hasher for Room {
    ghost use Rattle.gu_ids.specs.Hashing.{room_of};

    ghost write = { λ _ bytes. room_of bytes };

    ghost finish = { λ _. 0 };

    #[inline(always)]
    fn write(&mut self, bytes: &[u8]) {
        self.words = [
            word_at(bytes, 0),
            word_at(bytes, WORD_LEN),
            word_at(bytes, 2 * WORD_LEN),
            word_at(bytes, 3 * WORD_LEN),
        ];
    }

    fn finish(&self) -> u64 {
        0
    }
}

/// The eight bytes from a place on, the lowest first.
#[inline(always)]
fn read_word(bytes: &[u8], at: usize) -> u64
    requires { at + 8 ≤ length bytes.now }
    ensures { result ≡ read_word bytes.now at }
{
    let low = bytes[at] as u64
        | (bytes[at + 1] as u64) << 8
        | (bytes[at + 2] as u64) << 16
        | (bytes[at + 3] as u64) << 24;
    low | (bytes[at + 4] as u64) << 32
        | (bytes[at + 5] as u64) << 40
        | (bytes[at + 6] as u64) << 48
        | (bytes[at + 7] as u64) << 56
}

/// The same; 0 where they aren't all there.
#[inline(always)]
#[tactic(auto, unfolding(crate::specs::Hashing::word_at))]
fn word_at(bytes: &[u8], at: usize) -> u64
    requires { at ≤ 24 }
    ensures { result ≡ word_at bytes.now at }
{
    if bytes.len() < at + WORD_LEN {
        return 0;
    }
    read_word(bytes, at)
}

/// The words of an id's room.
#[inline(always)]
fn words_of_id(id: &AllocId) -> [u64; 4]
    ensures { result ≡ (room_of (padded longest_id id.now)).words }
{
    let mut room = Room { words: [0; 4] };
    id.hash(&mut room);
    room.words
}

/// The words of a firm's room.
#[inline(always)]
fn words_of_firm(firm: &FirmId) -> [u64; 4]
    ensures { result ≡ (room_of (padded longest_name firm.now)).words }
{
    let mut room = Room { words: [0; 4] };
    firm.hash(&mut room);
    room.words
}

/// The first bytes of a word, fewer than eight.
#[inline(always)]
fn first_bytes(word: u64, count: usize) -> u64
    requires { count < 8 }
    ensures { result ≡ word % 2 ^ (8 * count) }
{
    word % (1 << (8 * count))
}

/// The state with the first bytes of an id taken in, so many.
#[inline(always)]
fn take_id(state: Sip, id: &AllocId, count: usize) -> Sip
    requires { count < longest_id }
    ensures { result ≡ taken_of state id.now count }
{
    if count >= WORD_LEN {
        return take_long_id(state, id, count);
    }
    state.take(first_bytes(words_of_id(id)[0], count))
}

/// The same of eight bytes and more.
#[inline(never)]
fn take_long_id(state: Sip, id: &AllocId, count: usize) -> Sip
    requires { count < longest_id }
    ensures { result ≡ taken_of state id.now count }
{
    let words = words_of_id(id);
    let whole = count / WORD_LEN;
    let mut taken = state;
    for place in 0..whole {
        taken = taken.take(words[place]);
    }
    taken.take(first_bytes(words[whole], count % WORD_LEN))
}

/// The hash of this firm and id under a key. A name of at most seven bytes fills no word of its
/// own.
#[inline(always)]
#[tactic(auto, unfolding(crate::specs::Hashing::hash_of))]
fn hash_of(key: HashKey, firm: &FirmId, id: &AllocId) -> u32
    ensures { result ≡ hash_of key firm.now id.now }
{
    let bytes = id.as_bytes();
    let count = bytes.len() - 1;
    let name = words_of_firm(firm);
    let state = take_id(Sip::new(key), id, count);
    let hash = if name[0] >> 56 == 0 {
        state.finish(name[0], bytes.len() as u64)
    } else {
        state
            .take(name[0])
            .take(name[1])
            .finish(0, bytes.len() as u64)
    };
    (hash >> 32) as u32 ^ bytes[count] as u32
}

/// The same, apart from the code that runs each time.
#[cold]
#[inline(never)]
pub(crate) fn hash_anew(key: HashKey, firm: &FirmId, id: &AllocId) -> u32
    ensures { result ≡ hash_of key firm.now id.now }
{
    hash_of(key, firm, id)
}

/// The hash of a firm and an id, and the key that it is under.
///
/// The last byte of the id chooses the place beside the hash of all before it, so ids that count up
/// lie side by side in the buckets, and the next one is mostly found where the processor already
/// looks. Of the ids that differ in their last byte alone no two share a bucket where there are 256
/// or more.
#[derive(Clone, Copy)]
pub struct IdHash {
    value: u32,
    key: HashKey,
}

impl IdHash {
    /// That of this firm and id under a key.
    #[inline(always)]
    pub(crate) fn of(key: HashKey, firm: &FirmId, id: &AllocId) -> IdHash
        ensures { IsHashOf result firm.now id.now }
    {
        IdHash {
            value: hash_of(key, firm, id),
            key,
        }
    }

    /// Whether this is the hash of the firm and the id: the test for that condition of a history's
    /// calls.
    pub fn is_of(self, firm: &FirmId, id: &AllocId) -> bool
        ensures { IsTrue result ↔ IsHashOf self firm.now id.now }
    {
        self.value == hash_anew(self.key, firm, id)
    }

    /// The hash under this key of the firm and the id whose hash this is: one that is under another
    /// key is made anew.
    #[inline(always)]
    pub(crate) fn under(self, key: HashKey, firm: &FirmId, id: &AllocId) -> u32
        requires { IsHashOf self firm.now id.now }
        ensures { result ≡ hash_of key firm.now id.now }
    {
        if self.key == key {
            return self.value;
        }
        hash_anew(key, firm, id)
    }
}
