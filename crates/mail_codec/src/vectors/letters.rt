//! Base64 letters in vectors of 16 and of 64 bytes: which bytes are letters, and the bytes that
//! groups of them encode.
//!
//! A processor with shorter vectors takes several for each of 64 bytes. A table is repeated for
//! each sixteen lanes and read within them, and a vector of 16 takes the first lanes of it. No
//! function is generic over the width, as the toolchain has no look-ups in a vector whose length is
//! a parameter.
ghost use Rattle.std.specs.Prelude.{◌≡◌, ◌==◌, length, map};
ghost use Rattle.std.specs.List.{prefix_len};
ghost use Rattle.mail_codec.specs.private.Vectors.{fault_of, is_letter, value_of, AreNumbers, Packs};

use super::masks::first_lane;
use std::simd::prelude::*;

/// The number of bytes in a wide vector.
pub(crate) const WIDE: usize = 64;

/// What may be wrong with a byte, by its upper half. If a bit is set both here and in
/// `LOWER_FAULTS`, the byte is not a letter.
static UPPER_FAULTS: [u8; 64] = [
    0x10, 0x10, 0x01, 0x02, 0x04, 0x08, 0x04, 0x08, 0x10, 0x10, 0x10, 0x10, 0x10, 0x10, 0x10, 0x10,
    0x10, 0x10, 0x01, 0x02, 0x04, 0x08, 0x04, 0x08, 0x10, 0x10, 0x10, 0x10, 0x10, 0x10, 0x10, 0x10,
    0x10, 0x10, 0x01, 0x02, 0x04, 0x08, 0x04, 0x08, 0x10, 0x10, 0x10, 0x10, 0x10, 0x10, 0x10, 0x10,
    0x10, 0x10, 0x01, 0x02, 0x04, 0x08, 0x04, 0x08, 0x10, 0x10, 0x10, 0x10, 0x10, 0x10, 0x10, 0x10,
];

/// What may be wrong with a byte, by its lower half.
static LOWER_FAULTS: [u8; 64] = [
    0x15, 0x11, 0x11, 0x11, 0x11, 0x11, 0x11, 0x11, 0x11, 0x11, 0x13, 0x1A, 0x1B, 0x1B, 0x1B, 0x1A,
    0x15, 0x11, 0x11, 0x11, 0x11, 0x11, 0x11, 0x11, 0x11, 0x11, 0x13, 0x1A, 0x1B, 0x1B, 0x1B, 0x1A,
    0x15, 0x11, 0x11, 0x11, 0x11, 0x11, 0x11, 0x11, 0x11, 0x11, 0x13, 0x1A, 0x1B, 0x1B, 0x1B, 0x1A,
    0x15, 0x11, 0x11, 0x11, 0x11, 0x11, 0x11, 0x11, 0x11, 0x11, 0x13, 0x1A, 0x1B, 0x1B, 0x1B, 0x1A,
];

/// What is added to a letter to get its value, by the letter's upper half; the index of `/` is 1.
static ADDITIONS: [u8; 64] = [
    0, 16, 19, 4, 191, 191, 185, 185, 0, 0, 0, 0, 0, 0, 0, 0, 0, 16, 19, 4, 191, 191, 185, 185, 0,
    0, 0, 0, 0, 0, 0, 0, 0, 16, 19, 4, 191, 191, 185, 185, 0, 0, 0, 0, 0, 0, 0, 0, 0, 16, 19, 4,
    191, 191, 185, 185, 0, 0, 0, 0, 0, 0, 0, 0,
];

/// Weights that combine the first two values of a group.
static FIRST_PAIR: [u8; 64] = [
    64, 1, 0, 0, 64, 1, 0, 0, 64, 1, 0, 0, 64, 1, 0, 0, 64, 1, 0, 0, 64, 1, 0, 0, 64, 1, 0, 0, 64,
    1, 0, 0, 64, 1, 0, 0, 64, 1, 0, 0, 64, 1, 0, 0, 64, 1, 0, 0, 64, 1, 0, 0, 64, 1, 0, 0, 64, 1,
    0, 0, 64, 1, 0, 0,
];

/// Weights that combine the last two values of a group.
static LAST_PAIR: [u8; 64] = [
    0, 0, 64, 1, 0, 0, 64, 1, 0, 0, 64, 1, 0, 0, 64, 1, 0, 0, 64, 1, 0, 0, 64, 1, 0, 0, 64, 1, 0,
    0, 64, 1, 0, 0, 64, 1, 0, 0, 64, 1, 0, 0, 64, 1, 0, 0, 64, 1, 0, 0, 64, 1, 0, 0, 64, 1, 0, 0,
    64, 1, 0, 0, 64, 1,
];

/// Returns the number of letters before the first byte that is not one.
#[inline(always)]
pub(crate) fn letters_len(bytes: u8x16) -> usize
    ensures { result ≡ prefix_len is_letter bytes }
{
    first_lane(faults(bytes).simd_ne(u8x16::splat(0)).to_bitmask())
}

/// Whether all bytes are letters.
#[inline(always)]
pub(crate) fn are_letters(bytes: u8x64) -> bool
    ensures { result ≡ (prefix_len is_letter bytes == 64) }
{
    wide_faults(bytes).simd_ne(u8x64::splat(0)).to_bitmask() == 0
}

/// Returns the bytes that groups of letters encode, three for each group. The last four bytes
/// have no meaning.
#[inline(always)]
pub(crate) fn packed(letters: u8x16) -> u8x16
    ensures len { length result ≡ 16 }
    ensures groups { Packs letters result }
{
    numbers(values(letters))
        .to_le_bytes()
        .swizzle([2, 1, 0, 6, 5, 4, 10, 9, 8, 14, 13, 12, 3, 7, 11, 15])
}

/// Returns the same for 64 letters. The last sixteen bytes have no meaning.
#[inline(always)]
pub(crate) fn wide_packed(letters: u8x64) -> u8x64
    ensures len { length result ≡ 64 }
    ensures groups { Packs letters result }
{
    wide_numbers(wide_values(letters)).to_le_bytes().swizzle([
        2, 1, 0, 6, 5, 4, 10, 9, 8, 14, 13, 12, 18, 17, 16, 22, 21, 20, 26, 25, 24, 30, 29, 28, 34,
        33, 32, 38, 37, 36, 42, 41, 40, 46, 45, 44, 50, 49, 48, 54, 53, 52, 58, 57, 56, 62, 61, 60,
        48, 49, 50, 51, 52, 53, 54, 55, 56, 57, 58, 59, 60, 61, 62, 63,
    ])
}

/// Returns 0 for each byte that is a letter.
#[inline(always)]
fn faults(bytes: u8x16) -> u8x16
    ensures { result ≡ map fault_of bytes }
{
    let upper = u8x16::from_slice(&UPPER_FAULTS).swizzle_dyn(bytes >> u8x16::splat(4));
    let lower = u8x16::from_slice(&LOWER_FAULTS).swizzle_dyn(bytes & u8x16::splat(15));
    upper & lower
}

/// Returns the same for 64 bytes.
#[inline(always)]
fn wide_faults(bytes: u8x64) -> u8x64
    ensures { result ≡ map fault_of bytes }
{
    let upper = u8x64::from_slice(&UPPER_FAULTS).swizzle_dyn_within::<16>(bytes >> u8x64::splat(4));
    let lower = u8x64::from_slice(&LOWER_FAULTS).swizzle_dyn_within::<16>(bytes & u8x64::splat(15));
    upper & lower
}

/// Returns the value of each letter.
#[inline(always)]
fn values(letters: u8x16) -> u8x16
    ensures { result ≡ map value_of letters }
{
    let slashes = letters.simd_eq(u8x16::splat(b'/'));
    let places = (letters >> u8x16::splat(4)) + slashes.select(u8x16::splat(255), u8x16::splat(0));
    let additions = u8x16::from_slice(&ADDITIONS).swizzle_dyn(places);
    letters + additions
}

/// Returns the same for 64 letters.
#[inline(always)]
fn wide_values(letters: u8x64) -> u8x64
    ensures { result ≡ map value_of letters }
{
    let slashes = letters.simd_eq(u8x64::splat(b'/'));
    let places = (letters >> u8x64::splat(4)) + slashes.select(u8x64::splat(255), u8x64::splat(0));
    let additions = u8x64::from_slice(&ADDITIONS).swizzle_dyn_within::<16>(places);
    letters + additions
}

/// Returns the number of 24 bits that the values of each group make.
#[inline(always)]
fn numbers(values: u8x16) -> u32x4
    ensures { AreNumbers 4 values result }
{
    let first = values.dot4(u8x16::from_slice(&FIRST_PAIR));
    let last = values.dot4(u8x16::from_slice(&LAST_PAIR));
    (first << u32x4::splat(12)) | last
}

/// Returns the same for 64 values.
#[inline(always)]
fn wide_numbers(values: u8x64) -> u32x16
    ensures { AreNumbers 16 values result }
{
    let first = values.dot4(u8x64::from_slice(&FIRST_PAIR));
    let last = values.dot4(u8x64::from_slice(&LAST_PAIR));
    (first << u32x16::splat(12)) | last
}
