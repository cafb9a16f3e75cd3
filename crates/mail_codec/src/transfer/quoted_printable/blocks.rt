//! Quoted-printable in blocks of 64 bytes. All special bytes of a block are found at once, so the
//! search for the next one does not wait until the one before is decoded.
ghost use Rattle.std.specs.Prelude.{◌≡◌, ◌≢◌, ◌+◌, ◌*◌, ◌<◌, ◌≤◌, ◌-◌, length, take, drop, slice_index, None, Some};
ghost use Rattle.mail_codec.specs.Ascii.{equals_sign, line_feed};
ghost use Rattle.mail_codec.specs.QuotedPrintable.{first_escape};
ghost use Rattle.mail_codec.specs.private.QuotedPrintable.{IsInBlock, IsPlain, IsReading};
ghost use Rattle.mail_codec.specs.private.QuotedPrintable.{IsSoftBreak};

use super::{after_soft_break, escape_at, put_ended_line, put_escapes};
use crate::vectors::masks::{either_lanes, first_match, matches_after};
use std::simd::prelude::*;

/// The length of a block.
const BLOCK: usize = 64;

/// The length of the vectors that copy pieces. Most pieces fit in one.
const PIECE: usize = 32;

/// The number of bytes that must be left where a block is read: the block and as many again, since
/// the vectors that copy its pieces may extend past its end.
const RESERVE: usize = 128;

/// The progress of decoding a text.
#[derive(Clone, Copy)]
pub(super) struct Progress {
    /// The offset where decoding began.
    pub(super) from: usize,
    /// The number of bytes written for the text before `plain`.
    pub(super) len: usize,
    /// The offset after the last line end or escape.
    pub(super) plain: usize,
    /// The offset up to which bytes have been copied since.
    pub(super) at: usize,
}

/// The special bytes of a block that are left to decode.
#[derive(Clone, Copy)]
struct Specials {
    /// The progress before them.
    read: Progress,
    /// The offset of the byte that the lowest bit of `rest` represents.
    next: usize,
    /// A bit for each byte from `next` onwards, set where the byte is special.
    rest: u64,
}

/// Decodes whole blocks from `from` onwards, up to `end`, and writes their bytes at the start of
/// `output`.
#[inline(always)]
pub(super) fn put_blocks(output: &mut [u8], text: &[u8], from: usize, end: usize) -> Progress
    requires within { (from ≤ end) × (end ≤ length text.now) }
    requires capacity { end ≤ from + length output.old }
    ensures reading { IsReading text.now from output.new result.len result.plain result.at }
{
    let mut read = Progress {
        from,
        len: 0,
        plain: from,
        at: from,
    };
    'whole: while read.at + RESERVE <= end {
        read = put_block(output, text, read);
    }
    read
}

/// Decodes a block, which is copied whole before it is searched.
#[inline(always)]
fn put_block(output: &mut [u8], text: &[u8], read: Progress) -> Progress
    requires reading { IsReading text.now read.from output.old read.len read.plain read.at }
    requires within { read.at + 128 ≤ length text.now }
    requires capacity { read.len + (read.at - read.plain) + 128 ≤ length output.old }
    ensures reading { IsReading text.now result.from output.new result.len result.plain result.at }
    ensures from { result.from ≡ read.from }
    ensures after { read.at + 64 ≤ result.at }
{
    let end = read.at + BLOCK;
    let place = read.len + (read.at - read.plain);
    let block = u8x64::from_slice(&text[read.at..]);
    block.copy_to_slice(&mut output[place..]);
    let matches = either_lanes(block, b'=', b'\n');
    if matches == 0 {
        return copied_to(read, end);
    }
    let count = first_match(matches);
    let next = read.at + count;
    let rest = matches_after(matches, count);
    let read = copied_to(read, next);
    put_specials(output, text, Specials { read, next, rest }, end)
}

/// Returns the same progress with `at` as the offset up to which bytes have been copied.
#[inline(always)]
fn copied_to(read: Progress, at: usize) -> Progress
    ensures { result ≡ record { from = read.from; len = read.len; plain = read.plain; at = at } }
{
    Progress {
        from: read.from,
        len: read.len,
        plain: read.plain,
        at,
    }
}

/// Decodes the rest of a block, which ends at `end`.
#[inline(always)]
fn put_specials(output: &mut [u8], text: &[u8], start: Specials, end: usize) -> Progress
    requires within { end + 64 ≤ length text.now }
    requires block { IsInBlock text.now output.old start end }
    ensures reading { IsReading text.now result.from output.new result.len result.plain result.at }
    ensures from { result.from ≡ start.read.from }
    ensures after { end ≤ result.at }
{
    let mut block = start;
    'specials: while block.rest != 0 {
        let count = first_match(block.rest);
        let rest = matches_after(block.rest, count);
        let next = block.next + count;
        prove!(next < end);
        let read = block.read;
        block = put_special(output, text, Specials { read, next, rest }, end);
    }
    put_rest(output, text, block.read, end)
}

/// Decodes what the special byte at `found.next` begins.
#[inline(always)]
fn put_special(output: &mut [u8], text: &[u8], found: Specials, end: usize) -> Specials
    requires within { (found.next < end) × (end + 64 ≤ length text.now) }
    requires block { IsInBlock text.now output.old found end }
    requires special { slice_index text.now found.next ≢ line_feed
        → slice_index text.now found.next ≡ equals_sign }
    ensures block { IsInBlock text.now output.new result end }
    ensures from { result.read.from ≡ found.read.from }
    ensures after { found.next < result.next }
{
    if text[found.next] == b'\n' {
        let read = put_line_end(output, text, found.read, found.next);
        let rest = matches_after(found.rest, 1);
        let next = found.next + 1;
        return Specials { read, next, rest };
    }
    let Some(byte) = escape_at(text, found.next) else {
        return put_sign(output, text, found, end);
    };
    put_escape_run(output, text, found, byte, end)
}

/// Decodes the soft line break at a `=`. A `=` that begins none is left, to be copied together with
/// the bytes after it.
#[inline(always)]
fn put_sign(output: &mut [u8], text: &[u8], found: Specials, end: usize) -> Specials
    requires within { (found.next < end) × (end + 64 ≤ length text.now) }
    requires block { IsInBlock text.now output.old found end }
    requires sign { slice_index text.now found.next ≡ equals_sign }
    requires none { first_escape (drop found.next text.now) ≡ None }
    ensures block { IsInBlock text.now output.new result end }
    ensures from { result.read.from ≡ found.read.from }
    ensures after { found.next < result.next }
{
    let after = after_soft_break(text, found.next);
    if after == found.next {
        let rest = matches_after(found.rest, 1);
        let next = found.next + 1;
        let read = found.read;
        return Specials { read, next, rest };
    }
    let read = put_soft_break(output, text, found.read, found.next, after);
    let rest = matches_after(found.rest, after - found.next);
    let next = after;
    Specials { read, next, rest }
}

/// Decodes the escape at `found.next`, which encodes `byte`, and the escapes after it if there are
/// several.
#[inline(always)]
fn put_escape_run(output: &mut [u8], text: &[u8], found: Specials, byte: u8, end: usize) -> Specials
    requires within { (found.next < end) × (end + 64 ≤ length text.now) }
    requires block { IsInBlock text.now output.old found end }
    requires escape { first_escape (drop found.next text.now) ≡ Some byte }
    ensures block { IsInBlock text.now output.new result end }
    ensures from { result.read.from ≡ found.read.from }
    ensures after { found.next < result.next }
{
    let read = put_escape(output, text, found.read, found.next, byte);
    let next = found.next + 3;
    let rest = matches_after(found.rest, 3);
    if text[next] != b'=' || text[next + 3] != b'=' {
        return Specials { read, next, rest };
    }
    let read = put_more_escapes(output, text, read);
    let after = read.at;
    if after >= end {
        return Specials {
            read,
            next: after,
            rest: 0,
        };
    }
    let left = matches_after(rest, after - next);
    Specials {
        read,
        next: after,
        rest: left,
    }
}

/// Copies plain bytes up to the end of a block, unless decoding has already passed it.
#[inline(always)]
fn put_rest(output: &mut [u8], text: &[u8], read: Progress, end: usize) -> Progress
    requires reading { IsReading text.now read.from output.old read.len read.plain read.at }
    requires plain { IsPlain text.now read.at end }
    requires near { end ≤ read.at + 64 }
    requires within { end + 64 ≤ length text.now }
    requires capacity { read.len + end + 64 ≤ length output.old + read.plain }
    ensures reading { IsReading text.now result.from output.new result.len result.plain result.at }
    ensures from { result.from ≡ read.from }
    ensures after { end ≤ result.at }
{
    if read.at >= end {
        return read;
    }
    let place = read.len + (read.at - read.plain);
    u8x64::from_slice(&text[read.at..]).copy_to_slice(&mut output[place..]);
    copied_to(read, end)
}

/// Copies plain bytes up to the line end at `special`, and ends the line.
#[inline(always)]
fn put_line_end(output: &mut [u8], text: &[u8], read: Progress, special: usize) -> Progress
    requires reading { IsReading text.now read.from output.old read.len read.plain read.at }
    requires ahead { read.at ≤ special }
    requires plain { IsPlain text.now read.at special }
    requires within { special + 32 ≤ length text.now }
    requires capacity { read.len + special + 32 ≤ length output.old + read.plain }
    requires line_end { slice_index text.now special ≡ line_feed }
    ensures reading { IsReading text.now result.from output.new result.len result.plain result.at }
    ensures from { result.from ≡ read.from }
    ensures after { (result.at ≡ special + 1) × (result.plain ≡ special + 1) }
    ensures fits { result.len + read.plain ≤ read.len + special + 1 }
{
    put_plain(output, text, read, special);
    let piece = &text[read.plain..special];
    let len = read.len + put_ended_line(&mut output[read.len..], piece);
    Progress {
        from: read.from,
        len,
        plain: special + 1,
        at: special + 1,
    }
}

/// Copies plain bytes up to the soft line break from `special` to `after`, which encodes
/// nothing.
#[inline(always)]
#[tactic(auto, using(crate::proofs::lemmas::QuotedPrintableSpecials::after_soft))]
fn put_soft_break(
    output: &mut [u8],
    text: &[u8],
    read: Progress,
    special: usize,
    after: usize,
) -> Progress
    requires reading { IsReading text.now read.from output.old read.len read.plain read.at }
    requires ahead { read.at ≤ special }
    requires plain { IsPlain text.now read.at special }
    requires within { (special + 32 ≤ length text.now) × (after ≤ length text.now) }
    requires capacity { read.len + special + 32 ≤ length output.old + read.plain }
    requires soft { IsSoftBreak text.now special after }
    ensures reading { IsReading text.now result.from output.new result.len result.plain result.at }
    ensures from { result.from ≡ read.from }
    ensures after { (result.at ≡ after) × (result.plain ≡ after) }
    ensures fits { result.len + read.plain ≤ read.len + special + 1 }
{
    put_plain(output, text, read, special);
    Progress {
        from: read.from,
        len: read.len + (special - read.plain),
        plain: after,
        at: after,
    }
}

/// Copies plain bytes up to the escape at `special`, and writes its byte.
#[inline(always)]
fn put_escape(output: &mut [u8], text: &[u8], read: Progress, special: usize, byte: u8) -> Progress
    requires reading { IsReading text.now read.from output.old read.len read.plain read.at }
    requires ahead { read.at ≤ special }
    requires plain { IsPlain text.now read.at special }
    requires within { special + 32 ≤ length text.now }
    requires capacity { read.len + special + 32 ≤ length output.old + read.plain }
    requires escape { first_escape (drop special text.now) ≡ Some byte }
    ensures reading { IsReading text.now result.from output.new result.len result.plain result.at }
    ensures from { result.from ≡ read.from }
    ensures after { (result.at ≡ special + 3) × (result.plain ≡ special + 3) }
    ensures fits { result.len + read.plain ≤ read.len + special + 1 }
{
    put_plain(output, text, read, special);
    let sign = read.len + (special - read.plain);
    output[sign] = byte;
    Progress {
        from: read.from,
        len: sign + 1,
        plain: special + 3,
        at: special + 3,
    }
}

/// Decodes the consecutive escapes from a `=` onwards, if there are any.
#[inline(always)]
fn put_more_escapes(output: &mut [u8], text: &[u8], read: Progress) -> Progress
    requires reading { IsReading text.now read.from output.old read.len read.plain read.at }
    requires within { read.at < length text.now }
    requires capacity { read.len + (read.at - read.plain) < length output.old }
    requires sign { slice_index text.now read.at ≡ equals_sign }
    ensures reading { IsReading text.now result.from output.new result.len result.plain result.at }
    ensures from { result.from ≡ read.from }
    ensures after { read.at ≤ result.at }
    ensures fits { result.len + read.plain ≤ read.len + result.plain }
{
    let sign = read.len + (read.at - read.plain);
    let count = put_escapes(&mut output[sign..], text, read.at);
    if count == 0 {
        return read;
    }
    let next = read.at + 3 * count;
    Progress {
        from: read.from,
        len: sign + count,
        plain: next,
        at: next,
    }
}

/// Copies plain bytes up to `to`.
#[inline(always)]
fn put_plain(output: &mut [u8], text: &[u8], read: Progress, to: usize)
    requires reading { IsReading text.now read.from output.old read.len read.plain read.at }
    requires ahead { read.at ≤ to }
    requires plain { IsPlain text.now read.at to }
    requires within { to + 32 ≤ length text.now }
    requires capacity { read.len + to + 32 ≤ length output.old + read.plain }
    ensures reading { IsReading text.now read.from output.new read.len read.plain to }
{
    let place = read.len + (read.at - read.plain);
    put_vectors(&mut output[place..], &text[read.at..], to - read.at);
}

/// Copies `len` bytes by whole vectors. The bytes after them may be overwritten.
#[inline(always)]
fn put_vectors(output: &mut [u8], bytes: &[u8], len: usize)
    requires within { len + 32 ≤ length bytes.now }
    requires capacity { len + 32 ≤ length output.old }
    ensures written { take len output.new ≡ take len bytes.now }
{
    let mut at = 0;
    'vectors: while at < len {
        u8x32::from_slice(&bytes[at..]).copy_to_slice(&mut output[at..]);
        at += PIECE;
    }
}
