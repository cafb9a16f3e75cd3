//! Searches for either of two bytes, by vectors.
ghost use Rattle.std.specs.Prelude.{◌≡◌, ◌≤◌, ◌+◌, ◌==◌, ◌||◌, length, take};
ghost use Rattle.mail_codec.specs.Places.{begins, first_place};

use crate::vectors::LANES;
use crate::vectors::masks::{either_lanes, first_lane, first_match};
use std::simd::prelude::*;

/// The number of bytes that are tested at once at first.
const WIDE: usize = 32;

/// Returns the offset of the first of either byte, or the length if there is none. The first 32
/// bytes are tested at once, since most names of headers end within them.
#[inline(always)]
pub(super) fn either_len(bytes: &[u8], first: u8, second: u8) -> usize
    ensures least { result ≡ first_place (begins (λ b. b == first || b == second)) bytes.now }
    ensures bounds { result ≤ length bytes.now }
{
    if bytes.len() < WIDE {
        return few_len(bytes, first, second);
    }
    let mask = either_lanes(u8x32::from_slice(bytes), first, second);
    if mask != 0 {
        return first_match(mask);
    }
    WIDE + few_len(&bytes[WIDE..], first, second)
}

/// Returns the same. Fewer than eight bytes are searched one by one, up to 64 by two vectors that
/// overlap, and more by vectors of 16.
#[inline(never)]
fn few_len(bytes: &[u8], first: u8, second: u8) -> usize
    ensures least { result ≡ first_place (begins (λ b. b == first || b == second)) bytes.now }
    ensures bounds { result ≤ length bytes.now }
{
    match bytes.len() {
        0..8 => short_len(bytes, first, second),
        8..=16 => overlapping_len::<8>(bytes, first, second),
        17..=32 => overlapping_len::<16>(bytes, first, second),
        33..=64 => overlapping_len::<32>(bytes, first, second),
        _ => vectors_len(bytes, first, second),
    }
}

/// Returns the same for at least one vector. The last vector ends with the bytes, some of which may
/// have been searched before.
#[inline(always)]
fn vectors_len(bytes: &[u8], first: u8, second: u8) -> usize
    requires { 16 ≤ length bytes.now }
    ensures least { result ≡ first_place (begins (λ b. b == first || b == second)) bytes.now }
    ensures bounds { result ≤ length bytes.now }
{
    let last = bytes.len() - LANES;
    let mut at = 0;
    'vectors: while at < last {
        let place = first_lane(either_lanes(u8x16::from_slice(&bytes[at..]), first, second));
        if place != LANES {
            return at + place;
        }
        at += LANES;
    }
    last + first_lane(either_lanes(u8x16::from_slice(&bytes[last..]), first, second))
}

/// Returns the same for as many bytes as one vector to two have. The second vector ends with the
/// bytes, some of which may have been searched before.
#[inline(always)]
fn overlapping_len<const N: usize>(bytes: &[u8], first: u8, second: u8) -> usize
    requires size { N ≤ 64 }
    requires fits { N ≤ length bytes.now }
    requires covers { length bytes.now ≤ N + N }
    ensures least { result ≡ first_place (begins (λ b. b == first || b == second)) bytes.now }
    ensures bounds { result ≤ length bytes.now }
{
    let front = either_lanes(Simd::<u8, N>::from_slice(bytes), first, second);
    if front != 0 {
        return first_match(front);
    }
    let last = bytes.len() - N;
    let back = either_lanes(Simd::<u8, N>::from_slice(&bytes[last..]), first, second);
    if back == 0 {
        return bytes.len();
    }
    last + first_match(back)
}

/// Returns the same, byte by byte.
#[inline(always)]
fn short_len(bytes: &[u8], first: u8, second: u8) -> usize
    ensures least { result ≡ first_place (begins (λ b. b == first || b == second)) bytes.now }
    ensures bounds { result ≤ length bytes.now }
{
    for (place, byte) in bytes.iter().enumerate() {
        if *byte == first || *byte == second {
            return place;
        }
    }
    bytes.len()
}
