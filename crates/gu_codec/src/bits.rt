//! Where a field may begin among 64 or 32 bytes, as the bits of a word.

ghost use Rattle.std.specs.Prelude.{◌≡◌, ◌==◌, ◌-◌, length, true};
ghost use Rattle.gu_base.specs.Names.{is_digit};
ghost use Rattle.gu_codec.specs.Fields.{ShortBehind};
ghost use Rattle.gu_codec.specs.MarkBits.{AreBits, IsWindow};

use crate::fields::SOH;
use std::simd::prelude::*;

/// A bit for each of 64 or 32 bytes, from the lowest on, that says whether it is this one.
#[inline(always)]
fn bits_of(bytes: &[u8], byte: u8) -> u64
    requires { IsWindow (length bytes.now) }
    ensures { AreBits (λ b. b == byte) bytes.now result }
{
    if bytes.len() == 64 {
        return u8x64::from_slice(bytes)
            .simd_eq(u8x64::splat(byte))
            .to_bitmask();
    }
    u8x32::from_slice(bytes)
        .simd_eq(u8x32::splat(byte))
        .to_bitmask()
}

/// The same, whether it is a digit.
#[inline(always)]
fn bits_of_digits(bytes: &[u8]) -> u64
    requires { IsWindow (length bytes.now) }
    ensures { AreBits is_digit bytes.now result }
{
    if bytes.len() == 64 {
        let bytes = u8x64::from_slice(bytes);
        let from_0 = bytes.simd_ge(u8x64::splat(b'0'));
        let to_9 = bytes.simd_le(u8x64::splat(b'9'));
        return (from_0 & to_9).to_bitmask();
    }
    let bytes = u8x32::from_slice(bytes);
    let from_0 = bytes.simd_ge(u8x32::splat(b'0'));
    let to_9 = bytes.simd_le(u8x32::splat(b'9'));
    (from_0 & to_9).to_bitmask()
}

/// Whether a field may begin behind each SOH of 64 or 32 bytes but the last five. Each bit of a
/// word that is shifted down by one tells of the byte behind its own.
#[inline(always)]
pub fn is_short_behind(bytes: &[u8]) -> bool
    requires { IsWindow (length bytes.now) }
    ensures { result ≡ true → ShortBehind bytes.now (length bytes.now - 5) }
{
    let soh = bits_of(bytes, SOH);
    let digits = bits_of_digits(bytes);
    let no_zeros = !bits_of(bytes, b'0');
    let ends = bits_of(bytes, b'=') & !(soh >> 1);
    let one_before = ends | (digits & (ends >> 1));
    let two_before = ends | (digits & (one_before >> 1));
    let fronts = digits & (no_zeros & (two_before >> 1));
    (soh & !(fronts >> 1)) << (69 - bytes.len()) == 0
}
