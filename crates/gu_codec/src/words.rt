//! Eight bytes at once.

ghost use Rattle.std.specs.Prelude.{◌≡◌, ◌≤◌, true, take, drop, length};

/// Whether these eight bytes stand at a place.
#[inline(always)]
pub fn is_word_at(bytes: &[u8], at: usize, word: [u8; 8]) -> bool
    requires { at ≤ length bytes.now }
    ensures { result ≡ true → take 8 (drop at bytes.now) ≡ word }
{
    match bytes[at..].split_first_chunk::<8>() {
        Some((front, _)) => u64::from_le_bytes(*front) == u64::from_le_bytes(word),
        None => false,
    }
}
