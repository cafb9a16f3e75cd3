//! Searches for a single byte, by vectors.
ghost use Rattle.std.specs.Prelude.{◌≡◌, ◌<◌, ◌≤◌, ◌+◌, ◌==◌, length, take, drop};
ghost use Rattle.mail_codec.specs.Places.{begins, first_place};

use crate::vectors::LANES;
use crate::vectors::masks::{equal_lanes, first_lane, first_match};
use std::simd::prelude::*;

/// The number of bytes searched vector by vector before the search goes on by blocks.
const NEAR: usize = 512;

/// The number of bytes that are tested at once at first.
const WIDE: usize = 64;

/// The number of bytes in two vectors of 64.
const BLOCK: usize = 128;

/// Returns the offset of the first `wanted`, or the length if it does not occur. The first 64 bytes
/// are tested at once, with one branch that is mostly taken, since most lines of a mail end within
/// them.
#[inline(always)]
pub(super) fn byte_len(bytes: &[u8], wanted: u8) -> usize
    ensures least { result ≡ first_place (begins (λ b. b == wanted)) bytes.now }
    ensures bounds { result ≤ length bytes.now }
{
    if bytes.len() < WIDE {
        return few_len(bytes, wanted);
    }
    let mask = equal_lanes(u8x64::from_slice(bytes), wanted);
    if mask != 0 {
        return first_match(mask);
    }
    WIDE + rest_len(&bytes[WIDE..], wanted)
}

/// Returns the same. The first bytes are searched vector by vector. After them, blocks without
/// `wanted` are skipped, and the rest is searched vector by vector.
#[inline(never)]
fn rest_len(bytes: &[u8], wanted: u8) -> usize
    ensures least { result ≡ first_place (begins (λ b. b == wanted)) bytes.now }
    ensures bounds { result ≤ length bytes.now }
{
    if bytes.len() <= NEAR {
        return few_len(bytes, wanted);
    }
    let place = few_len(&bytes[..NEAR], wanted);
    if place != NEAR {
        return place;
    }
    let next = NEAR + free_len(&bytes[NEAR..], wanted);
    let rest = few_len(&bytes[next..], wanted);
    next + rest
}

/// Returns the same. Fewer than eight bytes are searched one by one, up to 64 by two vectors that
/// overlap, and more by vectors of 16.
#[inline(never)]
fn few_len(bytes: &[u8], wanted: u8) -> usize
    ensures least { result ≡ first_place (begins (λ b. b == wanted)) bytes.now }
    ensures bounds { result ≤ length bytes.now }
{
    match bytes.len() {
        0..8 => tail_len(bytes, wanted),
        8..=16 => overlapping_len::<8>(bytes, wanted),
        17..=32 => overlapping_len::<16>(bytes, wanted),
        33..=64 => overlapping_len::<32>(bytes, wanted),
        _ => vectors_len(bytes, wanted),
    }
}

/// Returns the same for at least one vector. The last vector ends with the bytes, some of which may
/// have been searched before.
#[inline(always)]
fn vectors_len(bytes: &[u8], wanted: u8) -> usize
    requires { 16 ≤ length bytes.now }
    ensures least { result ≡ first_place (begins (λ b. b == wanted)) bytes.now }
    ensures bounds { result ≤ length bytes.now }
{
    let last = bytes.len() - LANES;
    let mut at = 0;
    'vectors: while at < last {
        let place = first_lane(equal_lanes(u8x16::from_slice(&bytes[at..]), wanted));
        if place != LANES {
            return at + place;
        }
        at += LANES;
    }
    last + first_lane(equal_lanes(u8x16::from_slice(&bytes[last..]), wanted))
}

/// Returns the length of the leading whole blocks that do not contain `wanted`.
#[inline(always)]
fn free_len(bytes: &[u8], wanted: u8) -> usize
    ensures passed { first_place (begins (λ b. b == wanted)) bytes.now
        ≡ result + first_place (begins (λ b. b == wanted)) (drop result bytes.now) }
    ensures bounds { result ≤ length bytes.now }
{
    let mut at = 0;
    'blocks: while bytes.len() - at >= BLOCK {
        if !is_free(bytes, at, wanted) {
            break;
        }
        at += BLOCK;
    }
    at
}

/// Whether `wanted` is none of the 128 bytes from `at` onwards. The masks of two vectors are
/// combined and tested once.
#[inline(always)]
fn is_free(bytes: &[u8], at: usize, wanted: u8) -> bool
    requires within { at + 128 ≤ length bytes.now }
    ensures { result
        ≡ (first_place (begins (λ b. b == wanted)) (take 128 (drop at bytes.now)) == 128) }
{
    let first = equal_lanes(u8x64::from_slice(&bytes[at..]), wanted);
    let second = equal_lanes(u8x64::from_slice(&bytes[at + 64..]), wanted);
    first | second == 0
}

/// Returns the same for as many bytes as one vector to two have. The second vector ends with the
/// bytes, some of which may have been searched before.
#[inline(always)]
fn overlapping_len<const N: usize>(bytes: &[u8], wanted: u8) -> usize
    requires size { N ≤ 64 }
    requires fits { N ≤ length bytes.now }
    requires covers { length bytes.now ≤ N + N }
    ensures least { result ≡ first_place (begins (λ b. b == wanted)) bytes.now }
    ensures bounds { result ≤ length bytes.now }
{
    let front = equal_lanes(Simd::<u8, N>::from_slice(bytes), wanted);
    if front != 0 {
        return first_match(front);
    }
    let last = bytes.len() - N;
    let back = equal_lanes(Simd::<u8, N>::from_slice(&bytes[last..]), wanted);
    if back == 0 {
        return bytes.len();
    }
    last + first_match(back)
}

/// Returns the same, byte by byte.
#[inline(always)]
fn tail_len(tail: &[u8], wanted: u8) -> usize
    ensures least { result ≡ first_place (begins (λ b. b == wanted)) tail.now }
    ensures bounds { result ≤ length tail.now }
{
    for (place, byte) in tail.iter().enumerate() {
        if *byte == wanted {
            return place;
        }
    }
    tail.len()
}
