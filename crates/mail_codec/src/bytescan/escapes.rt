//! Searches for bytes that JSON text may have to escape, by vectors.
ghost use Rattle.std.specs.Prelude.{◌≡◌, ◌≤◌, length};
ghost use Rattle.mail_codec.specs.Escapes.{may_need_escape};
ghost use Rattle.mail_codec.specs.Places.{begins, first_place};

use crate::vectors::LANES;
use crate::vectors::escapes::escape_lanes;
use crate::vectors::masks::first_lane;
use std::simd::prelude::*;

/// Returns the offset of the first byte that may need an escape, or the length if there is none.
#[inline(always)]
pub(super) fn escape_len(bytes: &[u8]) -> usize
    ensures least { result ≡ first_place (begins may_need_escape) bytes.now }
    ensures bounds { result ≤ length bytes.now }
{
    if bytes.len() < LANES {
        short_len(bytes)
    } else {
        vectors_len(bytes)
    }
}

/// Returns the same for at least one vector. The last vector ends with the bytes, some of which may
/// have been searched before.
#[inline(always)]
fn vectors_len(bytes: &[u8]) -> usize
    requires { 16 ≤ length bytes.now }
    ensures least { result ≡ first_place (begins may_need_escape) bytes.now }
    ensures bounds { result ≤ length bytes.now }
{
    let last = bytes.len() - LANES;
    let mut at = 0;
    'vectors: while at < last {
        let place = first_lane(escape_lanes(u8x16::from_slice(&bytes[at..])));
        if place != LANES {
            return at + place;
        }
        at += LANES;
    }
    last + first_lane(escape_lanes(u8x16::from_slice(&bytes[last..])))
}

/// Returns the same, byte by byte.
#[inline(always)]
fn short_len(bytes: &[u8]) -> usize
    ensures least { result ≡ first_place (begins may_need_escape) bytes.now }
    ensures bounds { result ≤ length bytes.now }
{
    for (place, byte) in bytes.iter().enumerate() {
        if may_need_escape(*byte) {
            return place;
        }
    }
    bytes.len()
}

/// Returns whether JSON text may have to escape a byte.
#[inline(always)]
fn may_need_escape(byte: u8) -> bool
    ensures { result ≡ may_need_escape byte }
{
    byte < 0x20 || matches!(byte, b'"' | b'\\' | 0x7F | 0xC2 | 0xD8 | 0xE2)
}
