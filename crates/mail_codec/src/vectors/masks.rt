//! Tests of the bytes of a vector. The result is a mask with a bit for each byte, set where the
//! byte passes; the lowest bit is that of the first byte.
ghost use Rattle.std.specs.Prelude.{◌≡◌, ◌≢◌, ◌<◌, ◌≤◌, ℕ, Bool, List, length, map, drop, ◌==◌, ◌||◌, nat_le};
ghost use Rattle.std.specs.Char.{is_ascii_whitespace};
ghost use Rattle.mail_codec.specs.Places.{begins, first_place};
ghost use Rattle.mail_codec.specs.private.Vectors.{is_set, lane_mask, pair_flags, whitespace_of_half};

use super::LANES;
use std::simd::prelude::*;

/// The ASCII whitespace with each lower half, or 0 if there is none.
const WHITESPACE: [u8; 16] = [
    b' ', 0, 0, 0, 0, 0, 0, 0, 0, b'\t', b'\n', 0, 0x0C, b'\r', 0, 0,
];

/// Returns the mask of the bytes that are `wanted`.
#[inline(always)]
pub(crate) fn equal_lanes<const N: usize>(bytes: Simd<u8, N>, wanted: u8) -> u64
    requires { N ≤ 64 }
    ensures { result ≡ lane_mask (λ b. b == wanted) bytes.entry }
{
    bytes.simd_eq(Simd::splat(wanted)).to_bitmask()
}

/// Returns the mask of the bytes that are `first` or `second`.
#[inline(always)]
pub(crate) fn either_lanes<const N: usize>(bytes: Simd<u8, N>, first: u8, second: u8) -> u64
    requires { N ≤ 64 }
    ensures { result ≡ lane_mask (λ b. b == first || b == second) bytes.entry }
{
    let matches = bytes.simd_eq(Simd::splat(first)) | bytes.simd_eq(Simd::splat(second));
    matches.to_bitmask()
}

/// Returns the mask of the lanes that are `first` in one vector and `second` in the other.
#[inline(always)]
#[tactic(auto, using(crate::proofs::lemmas::Pairs::pair_mask))]
pub(crate) fn pair_lanes(bytes: u8x64, next: u8x64, first: u8, second: u8) -> u64
    ensures { result ≡ lane_mask is_set (pair_flags first second bytes next) }
{
    let matches = bytes.simd_eq(u8x64::splat(first)) & next.simd_eq(u8x64::splat(second));
    matches.to_bitmask()
}

/// Returns the mask of the bytes that are `bound` or greater.
#[inline(always)]
pub(crate) fn lanes_from(bytes: u8x16, bound: u8) -> u64
    ensures { result ≡ lane_mask (λ b. nat_le bound b) bytes }
{
    bytes.simd_ge(u8x16::splat(bound)).to_bitmask()
}

/// Returns the mask of the bytes that are ASCII whitespace: space, tab, LF, FF and CR.
#[inline(always)]
pub(crate) fn whitespace_lanes(bytes: u8x16) -> u64
    ensures { result ≡ lane_mask is_ascii_whitespace bytes }
{
    bytes.simd_eq(whitespace_like(bytes)).to_bitmask()
}

/// Returns, for each byte, the ASCII whitespace with the same lower half, or 0.
#[inline(always)]
fn whitespace_like(bytes: u8x16) -> u8x16
    ensures { result ≡ map whitespace_of_half bytes }
{
    u8x16::from_array(WHITESPACE).swizzle_dyn(bytes & u8x16::splat(15))
}

/// Returns the first lane of a mask of sixteen, or 16 if the mask is empty.
#[inline(always)]
#[tactic(auto, using(crate::proofs::lemmas::Vectors::first_lane_none))]
pub(crate) fn first_lane(mask: u64) -> usize
    ensures { (test : ℕ → Bool) (bytes : List ℕ) → length bytes ≡ 16
        → mask ≡ lane_mask test bytes → result ≡ first_place (begins test) bytes }
{
    if mask == 0 { LANES } else { first_match(mask) }
}

/// Returns the first lane of a mask of up to 64.
#[inline(always)]
pub(crate) fn first_match(mask: u64) -> usize
    requires { mask ≢ 0 }
    ensures least { (test : ℕ → Bool) (bytes : List ℕ) → length bytes ≤ 64
        → mask ≡ lane_mask test bytes
        → (result ≡ first_place (begins test) bytes) × (result < length bytes) }
    ensures bounds { result < 64 }
{
    mask.trailing_zeros() as usize
}

/// Returns the mask of the lanes after the first `count`.
#[inline(always)]
#[tactic(auto, using(crate::proofs::lemmas::Vectors::mask_shifted))]
pub(crate) fn matches_after(mask: u64, count: usize) -> u64
    requires { count < 64 }
    ensures { (test : ℕ → Bool) (bytes : List ℕ)
        → mask ≡ lane_mask test bytes → result ≡ lane_mask test (drop count bytes) }
{
    mask >> count
}
