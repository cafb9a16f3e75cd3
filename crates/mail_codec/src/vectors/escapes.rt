//! Tests which bytes of a vector JSON text may have to escape.
ghost use Rattle.std.specs.Prelude.{◌≡◌, ◌/◌, map, slice_index, bit_and};
ghost use Rattle.mail_codec.specs.Escapes.{may_need_escape};
ghost use Rattle.mail_codec.specs.private.Vectors.{escape_class, lane_mask, lower_escapes, upper_escapes};

use std::simd::prelude::*;

/// What may make a byte need an escape, by its upper half. If a bit is set both here and in
/// `LOWER_ESCAPES`, the byte may need one.
const UPPER_ESCAPES: [u8; 16] = [1, 1, 2, 0, 0, 4, 0, 8, 0, 0, 0, 0, 2, 16, 2, 0];

/// What may make a byte need an escape, by its lower half.
const LOWER_ESCAPES: [u8; 16] = [1, 1, 3, 1, 1, 1, 1, 1, 17, 1, 1, 1, 5, 1, 1, 9];

/// Returns the mask of the bytes that JSON text may have to escape.
#[inline(always)]
pub(crate) fn escape_lanes(bytes: u8x16) -> u64
    ensures { result ≡ lane_mask may_need_escape bytes }
{
    escape_classes(bytes).simd_ne(u8x16::splat(0)).to_bitmask()
}

/// Returns 0 for each byte that needs no escape.
#[inline(always)]
fn escape_classes(bytes: u8x16) -> u8x16
    ensures { result ≡ map escape_class bytes }
{
    upper_escapes_of(bytes) & lower_escapes_of(bytes)
}

/// Returns what the upper half of each byte says.
#[inline(always)]
fn upper_escapes_of(bytes: u8x16) -> u8x16
    ensures { result ≡ map (λ b. slice_index upper_escapes (b / 16)) bytes }
{
    u8x16::from_array(UPPER_ESCAPES).swizzle_dyn(bytes >> u8x16::splat(4))
}

/// Returns what the lower half of each byte says.
#[inline(always)]
fn lower_escapes_of(bytes: u8x16) -> u8x16
    ensures { result ≡ map (λ b. slice_index lower_escapes (bit_and b 15)) bytes }
{
    u8x16::from_array(LOWER_ESCAPES).swizzle_dyn(bytes & u8x16::splat(15))
}
