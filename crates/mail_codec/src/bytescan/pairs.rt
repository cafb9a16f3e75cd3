//! Searches for two adjacent bytes, by vectors.
//!
//! The vectors have 64 lanes, where those of the other searches have sixteen. A processor with
//! shorter vectors uses several for each, and there is one branch for 64 bytes.
ghost use Rattle.std.specs.Prelude.{◌≡◌, ◌+◌, ◌<◌, ◌≤◌, ◌∷◌, [], length, take, drop};
ghost use Rattle.mail_codec.specs.Places.{first_place, has_prefix};
ghost use Rattle.mail_codec.specs.private.Vectors.{is_set, lane_mask, pair_flags};

use crate::vectors::masks::pair_lanes;
use std::simd::prelude::*;

/// The number of bytes in a vector of this search.
pub(super) const WIDE: usize = 64;

/// Returns the offset of the first `first` that `second` follows immediately, or the length if
/// there is none. The last pair of vectors ends with the bytes, some of which may have been
/// searched before.
pub(super) fn pair_len(bytes: &[u8], first: u8, second: u8) -> usize
    requires { 64 < length bytes.now }
    ensures least { result ≡ first_place (has_prefix (first ∷ second ∷ [])) bytes.now }
    ensures bounds { result ≤ length bytes.now }
{
    let last = bytes.len() - WIDE - 1;
    let mut at = 0;
    'vectors: while at < last {
        let matches = matches_at(bytes, at, first, second);
        if matches != 0 {
            return at + matches.trailing_zeros() as usize;
        }
        at += WIDE;
    }
    let matches = matches_at(bytes, last, first, second);
    if matches == 0 {
        return bytes.len();
    }
    last + matches.trailing_zeros() as usize
}

/// Returns the mask of those of the 64 bytes from `at` onwards that are `first` and that `second`
/// follows: one vector is compared with `first`, and the vector a byte later with `second`.
#[inline(always)]
fn matches_at(bytes: &[u8], at: usize, first: u8, second: u8) -> u64
    requires within { at + 64 < length bytes.now }
    ensures { result ≡ lane_mask is_set (pair_flags first second (take 64 (drop at bytes.now))
        (take 64 (drop (at + 1) bytes.now))) }
{
    let front = u8x64::from_slice(&bytes[at..]);
    let next = u8x64::from_slice(&bytes[at + 1..]);
    pair_lanes(front, next, first, second)
}
