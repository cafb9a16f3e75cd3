//! Copies bytes without those that end a run.
//!
//! Small functions are inlined: a copy is fast if the compiler knows which bytes end a run.
ghost use Rattle.std.specs.Prelude.{◌≡◌, ◌≤◌, ◌++◌, length, take, OnOk};
ghost use Rattle.mail_codec.specs.private.Runs.{ends_run, without_ends};
ghost use Rattle.mail_codec.specs.private.Vectors.{lane_mask};

use crate::vectors::LANES;
use crate::vectors::masks::{either_lanes, first_lane, whitespace_lanes};
use std::alloc::AllocError;
use std::simd::prelude::*;

/// The number of bytes that are searched before those kept are appended.
const BUFFER: usize = 1024;

/// Which bytes end a run.
#[derive(Clone, Copy)]
pub(crate) enum RunEnd {
    /// CR and LF.
    LineEnd,
    /// ASCII whitespace: space, tab, LF, FF and CR.
    Whitespace,
}

impl RunEnd {
    /// Whether the byte ends a run.
    #[inline(always)]
    pub(crate) fn is_met_by(self, byte: u8) -> bool
        ensures { result ≡ ends_run self byte }
    {
        match self {
            RunEnd::LineEnd => byte == b'\r' || byte == b'\n',
            RunEnd::Whitespace => byte.is_ascii_whitespace(),
        }
    }

    /// Returns the mask of those of sixteen bytes that end a run.
    #[inline(always)]
    fn end_lanes(self, bytes: u8x16) -> u64
        ensures { result ≡ lane_mask (ends_run self) bytes }
    {
        match self {
            RunEnd::LineEnd => either_lanes(bytes, b'\r', b'\n'),
            RunEnd::Whitespace => whitespace_lanes(bytes),
        }
    }
}

/// Appends the bytes that do not end a run, in order. Fails only if it runs out of memory.
#[inline(always)]
pub(crate) fn push_runs(kept: &mut Vec<u8>, bytes: &[u8], end: RunEnd) -> Result<(), AllocError>
    ensures { OnOk result (kept.new.items ≡ kept.old.items ++ without_ends end bytes.now) }
{
    let mut buffer = [0u8; BUFFER];
    let mut at = 0;
    'buffers: while at < bytes.len() {
        let next = at + (bytes.len() - at).min(BUFFER);
        let len = put_runs(&mut buffer, &bytes[at..next], end);
        kept.extend_from_slice(&buffer[..len])?;
        at = next;
    }
    Ok(())
}

/// Writes the bytes that do not end a run at the start of `output`, and returns their number. Each
/// vector is written whole before it is searched. The bytes after the first end of a run are
/// overwritten.
#[inline(always)]
fn put_runs(output: &mut [u8], bytes: &[u8], end: RunEnd) -> usize
    requires capacity { length bytes.now ≤ length output.old }
    ensures written { take result output.new ≡ without_ends end bytes.now }
    ensures bounds { result ≤ length bytes.now }
{
    let mut len = 0;
    let mut at = 0;
    'vectors: while bytes.len() - at >= LANES {
        let vector = u8x16::from_slice(&bytes[at..]);
        vector.copy_to_slice(&mut output[len..]);
        let place = first_lane(end.end_lanes(vector));
        if place != LANES {
            len += place;
            at += place + 1;
            continue;
        }
        len += LANES;
        at += LANES;
    }
    len + put_few(&mut output[len..], &bytes[at..], end)
}

/// Does the same byte by byte: each byte is written, and overwritten if it ends a run.
#[inline(always)]
fn put_few(output: &mut [u8], bytes: &[u8], end: RunEnd) -> usize
    requires capacity { length bytes.now ≤ length output.old }
    ensures written { take result output.new ≡ without_ends end bytes.now }
    ensures bounds { result ≤ length bytes.now }
{
    let mut len = 0;
    for byte in bytes {
        output[len] = *byte;
        if end.is_met_by(*byte) {
            continue;
        }
        len += 1;
    }
    len
}
