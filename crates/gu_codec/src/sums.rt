//! The sum of bytes, 16 of them at once.

ghost use Rattle.std.specs.Prelude.{◌≡◌, ◌≤◌, ◌<◌, ◌%◌, ◌+◌, ◌-◌, length, drop, sum};

use std::simd::prelude::*;

/// 16 zeros, and then 255 as often. The 16 bytes from place k on keep the last k of 16 others.
const KEPT: [u8; 32] = [
    0, 0, 0, 0, 0, 0, 0, 0, 0, 0, 0, 0, 0, 0, 0, 0, 255, 255, 255, 255, 255, 255, 255, 255, 255,
    255, 255, 255, 255, 255, 255, 255,
];

/// The sums of 16 pairs, each modulo 256.
#[inline(always)]
fn added(a: u8x16, b: u8x16) -> u8x16
    requires a { length a ≡ 16 }
    requires b { length b ≡ 16 }
    ensures len { length result ≡ 16 }
    ensures sum { sum result % 256 ≡ (sum a + sum b) % 256 }
{
    a + b
}

/// The sum of 16 bytes, modulo 256.
#[inline(always)]
fn total(v: u8x16) -> u8
    ensures { result ≡ sum v % 256 }
{
    v.reduce_sum()
}

/// The last so many bytes, behind zeros.
#[inline(always)]
fn last_of(bytes: &[u8], left: usize) -> u8x16
    requires len { 16 ≤ length bytes.now }
    requires few { left ≤ 16 }
    ensures len { length result ≡ 16 }
    ensures sum { sum result ≡ sum (drop (length bytes.now - left) bytes.now) }
{
    let last = u8x16::from_slice(&bytes[bytes.len() - 16..]);
    let kept = u8x16::from_slice(&KEPT[left..]);
    last & kept
}

/// The sum of fewer than 16 bytes, modulo 256.
#[cold]
#[inline(never)]
fn sum_of_few(bytes: &[u8]) -> u8
    ensures { result ≡ sum bytes.now % 256 }
{
    let mut sum = 0u8;
    for b in bytes {
        sum = sum.wrapping_add(*b);
    }
    sum
}

/// The sum of the bytes, modulo 256: what CheckSum (10) writes.
///
/// 16 sums stand side by side in one register, and 16 bytes are added in a step. What is left
/// behind the last step is loaded with the bytes before it, 16 in all, and `KEPT` takes out those
/// that were added already: so no byte is gone to by itself, as the last ones are where the
/// compiler makes vectors of a plain `for`.
#[inline(always)]
pub fn checksum(bytes: &[u8]) -> u8
    ensures { result ≡ sum bytes.now % 256 }
{
    let len = bytes.len();
    if len < 16 {
        return sum_of_few(bytes);
    }
    let mut sums = u8x16::splat(0);
    let mut i = 0;
    while i + 16 <= len {
        sums = added(sums, u8x16::from_slice(&bytes[i..]));
        i += 16;
    }
    total(added(sums, last_of(bytes, len - i)))
}
