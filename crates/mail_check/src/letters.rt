//! Runs of letters of Base64, tested 64 bytes at a time, and then sixteen.
ghost use Rattle.std.specs.Prelude.{◌≡◌, ◌≤◌, ℕ, Bool, List, length, map, not};
ghost use Rattle.std.specs.Simd.Lanes.{mask_l};
ghost use Rattle.mail_codec.specs.Places.{begins, first_place};
ghost use Rattle.mail_check.specs.Bodies.{is_letter};

use crate::bodies::is_letter;
use std::simd::prelude::*;

/// The number of bytes in a vector.
const LANES: usize = 16;

/// The number of bytes in a wide vector.
const WIDE: usize = 64;

/// What may be wrong with a byte, by its upper half. If a bit is set both here and in
/// `LOWER_FAULTS`, the byte is not a letter. Each table is repeated for each sixteen lanes.
static UPPER_FAULTS: [u8; 64] = [
    0x10, 0x10, 0x01, 0x02, 0x04, 0x08, 0x04, 0x08, 0x10, 0x10, 0x10, 0x10, 0x10, 0x10, 0x10, 0x10,
    0x10, 0x10, 0x01, 0x02, 0x04, 0x08, 0x04, 0x08, 0x10, 0x10, 0x10, 0x10, 0x10, 0x10, 0x10, 0x10,
    0x10, 0x10, 0x01, 0x02, 0x04, 0x08, 0x04, 0x08, 0x10, 0x10, 0x10, 0x10, 0x10, 0x10, 0x10, 0x10,
    0x10, 0x10, 0x01, 0x02, 0x04, 0x08, 0x04, 0x08, 0x10, 0x10, 0x10, 0x10, 0x10, 0x10, 0x10, 0x10,
];

/// What may be wrong with a byte, by its lower half.
static LOWER_FAULTS: [u8; 64] = [
    0x15, 0x11, 0x11, 0x11, 0x11, 0x11, 0x11, 0x11, 0x11, 0x11, 0x13, 0x1A, 0x1B, 0x1B, 0x1B, 0x1A,
    0x15, 0x11, 0x11, 0x11, 0x11, 0x11, 0x11, 0x11, 0x11, 0x11, 0x13, 0x1A, 0x1B, 0x1B, 0x1B, 0x1A,
    0x15, 0x11, 0x11, 0x11, 0x11, 0x11, 0x11, 0x11, 0x11, 0x11, 0x13, 0x1A, 0x1B, 0x1B, 0x1B, 0x1A,
    0x15, 0x11, 0x11, 0x11, 0x11, 0x11, 0x11, 0x11, 0x11, 0x11, 0x13, 0x1A, 0x1B, 0x1B, 0x1B, 0x1A,
];

/// Returns the offset of the first byte that is not a letter, or the length if there is none.
#[inline(always)]
pub(crate) fn letters_len(bytes: &[u8]) -> usize
    ensures least { result ≡ first_place (begins (λ b. not (is_letter b))) bytes.now }
    ensures bounds { result ≤ length bytes.now }
{
    let wide = wide_len(bytes);
    wide + vectors_len(&bytes[wide..])
}

/// Returns 64 if that many letters come first, which is so on most lines of mail, and otherwise 0.
#[inline(always)]
fn wide_len(bytes: &[u8]) -> usize
    ensures passed { result ≤ first_place (begins (λ b. not (is_letter b))) bytes.now }
    ensures bounds { result ≤ length bytes.now }
{
    if bytes.len() >= WIDE && wide_others(u8x64::from_slice(bytes)) == 0 {
        return WIDE;
    }
    0
}

/// Returns the offset of the first byte that is not a letter, or the length if there is none.
#[inline(always)]
fn vectors_len(bytes: &[u8]) -> usize
    ensures least { result ≡ first_place (begins (λ b. not (is_letter b))) bytes.now }
    ensures bounds { result ≤ length bytes.now }
{
    let mut at = 0;
    'vectors: while bytes.len() - at >= LANES {
        let place = first_lane(others(u8x16::from_slice(&bytes[at..])));
        if place != LANES {
            return at + place;
        }
        at += LANES;
    }
    at + tail_len(&bytes[at..])
}

/// Returns the same, byte by byte.
fn tail_len(tail: &[u8]) -> usize
    ensures least { result ≡ first_place (begins (λ b. not (is_letter b))) tail.now }
    ensures bounds { result ≤ length tail.now }
{
    for (place, byte) in tail.iter().enumerate() {
        if !is_letter(*byte) {
            return place;
        }
    }
    tail.len()
}

/// Returns the mask of the bytes that are not letters. The lowest bit is that of the first byte.
#[inline(always)]
fn others(bytes: u8x16) -> u64
    ensures { result ≡ mask_l (map (λ b. not (is_letter b)) bytes) }
{
    let upper = u8x16::from_slice(&UPPER_FAULTS).swizzle_dyn(bytes >> u8x16::splat(4));
    let lower = u8x16::from_slice(&LOWER_FAULTS).swizzle_dyn(bytes & u8x16::splat(15));
    (upper & lower).simd_ne(u8x16::splat(0)).to_bitmask()
}

/// Returns the same for 64 bytes.
#[inline(always)]
fn wide_others(bytes: u8x64) -> u64
    ensures { result ≡ mask_l (map (λ b. not (is_letter b)) bytes) }
{
    let upper = u8x64::from_slice(&UPPER_FAULTS).swizzle_dyn_within::<16>(bytes >> u8x64::splat(4));
    let lower = u8x64::from_slice(&LOWER_FAULTS).swizzle_dyn_within::<16>(bytes & u8x64::splat(15));
    (upper & lower).simd_ne(u8x64::splat(0)).to_bitmask()
}

/// Returns the first lane of a mask of sixteen, or 16 if the mask is empty.
#[inline(always)]
fn first_lane(mask: u64) -> usize
    ensures { (test : ℕ → Bool) (bytes : List ℕ) → length bytes ≡ 16
        → mask ≡ mask_l (map test bytes) → result ≡ first_place (begins test) bytes }
{
    if mask == 0 {
        LANES
    } else {
        mask.trailing_zeros() as usize
    }
}
