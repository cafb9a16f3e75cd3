//! Base64 groups read in place: 64 letters at a time and then sixteen, since lines of mail have 64
//! to 76, and four at a time if a line ends within a group.
ghost use Rattle.std.specs.Prelude.{◌≡◌, ℕ, ◌+◌, ◌*◌, ◌/◌, ◌<◌, ◌≤◌, ◌++◌, Ok, length, take, drop, OnSome, IfSome};
ghost use Rattle.std.specs.List.{prefix_len};
ghost use Rattle.mail_codec.specs.Base64.{groups_from, prepend};
ghost use Rattle.mail_codec.specs.private.Base64.{KeepsLetters};
ghost use Rattle.mail_codec.specs.private.Runs.{without_ends};
ghost use Rattle.mail_codec.specs.private.Vectors.{is_letter};

use crate::bytescan::runs::RunEnd;
use crate::vectors::LANES;
use crate::vectors::letters::{WIDE, are_letters, letters_len, packed, wide_packed};
use std::simd::prelude::*;

/// The number of bytes that must be left in a buffer for one turn of the loop: those of 64 letters,
/// and a vector each for the rest of the line and for the group over its end.
const RESERVE: usize = 96;

/// Writes the bytes of the groups of the text from `from` onwards to the start of `output`, up to
/// the first group that is not four letters or until the buffer is full. Returns the number of
/// these groups and the offset after them. The bytes of `output` after theirs may be overwritten.
#[inline(always)]
pub(crate) fn put_groups(
    output: &mut [u8],
    text: &[u8],
    from: usize,
    absent: RunEnd,
) -> (usize, usize)
    requires within { from ≤ length text.now }
    requires letters { KeepsLetters absent }
    ensures bounds { result.1 ≤ length text.now }
    ensures counted { from + 4 * result.0 ≤ result.1 }
    ensures fits { 3 * result.0 ≤ length output.old }
    ensures read { (n : ℕ) → groups_from n (without_ends absent (drop from text.now))
        ≡ prepend (take (3 * result.0) output.new)
        (groups_from (n + result.0) (without_ends absent (drop result.1 text.now))) }
{
    let mut count = 0;
    let mut at = from;
    'parts: while at < text.len() && output.len() - 3 * count >= RESERVE {
        let wide = put_wide(output, 3 * count, text, at);
        count += wide / 4;
        at += wide / 4 * 4;
        let len = put_block(output, 3 * count, text, at);
        if len == LANES {
            count += LANES / 4;
            at += LANES;
            continue;
        }
        count += len / 4;
        at += len / 4 * 4;
        let next = after_line_end(text, at, absent);
        if next > at {
            at = next;
            continue;
        }
        if text.len() - at <= 4 {
            return (count, at);
        }
        let Some(next) = put_next_group(output, 3 * count, text, at, absent) else {
            return (count, at);
        };
        count += 1;
        at = next;
    }
    (count, at)
}

/// Writes the bytes of the groups of the next 64 bytes at offset `place`, and returns 64; or
/// returns 0 if not all of them are letters, or fewer are left.
#[inline(always)]
fn put_wide(output: &mut [u8], place: usize, text: &[u8], at: usize) -> usize
    requires capacity { place + 64 ≤ length output.old }
    requires within { at ≤ length text.now }
    ensures fits { result ≤ 64 }
    ensures bounds { at + result ≤ length text.now }
    ensures letters { result ≤ prefix_len is_letter (drop at text.now) }
    ensures kept { take place output.new ≡ take place output.old }
    ensures read { (k n : ℕ) → 4 * k ≤ result → groups_from n (take (4 * k) (drop at text.now))
        ≡ Ok (take (3 * k) (drop place output.new)) }
{
    if text.len() - at < WIDE {
        return 0;
    }
    let letters = u8x64::from_slice(&text[at..]);
    if !are_letters(letters) {
        return 0;
    }
    wide_packed(letters).copy_to_slice(&mut output[place..]);
    WIDE
}

/// Writes the bytes of the groups of letters at the start of the next sixteen bytes at offset
/// `place`. Returns the number of letters before the first byte that is not one, or before the end
/// of the text.
#[inline(always)]
fn put_block(output: &mut [u8], place: usize, text: &[u8], at: usize) -> usize
    requires capacity { place + 16 ≤ length output.old }
    requires within { at ≤ length text.now }
    ensures fits { result ≤ 16 }
    ensures bounds { at + result ≤ length text.now }
    ensures letters { result ≤ prefix_len is_letter (drop at text.now) }
    ensures kept { take place output.new ≡ take place output.old }
    ensures read { (k n : ℕ) → 4 * k ≤ result → groups_from n (take (4 * k) (drop at text.now))
        ≡ Ok (take (3 * k) (drop place output.new)) }
{
    if text.len() - at < LANES {
        return put_tail(output, place, &text[at..]);
    }
    put_letters(output, place, u8x16::from_slice(&text[at..]))
}

/// Does the same for the last bytes of a text, which are fewer than a vector has. They are followed
/// by zeros, which are not letters.
fn put_tail(output: &mut [u8], place: usize, tail: &[u8]) -> usize
    requires capacity { place + 16 ≤ length output.old }
    requires short { length tail.now < 16 }
    ensures bounds { result ≤ length tail.now }
    ensures letters { result ≤ prefix_len is_letter tail.now }
    ensures kept { take place output.new ≡ take place output.old }
    ensures read { (k n : ℕ) → 4 * k ≤ result
        → groups_from n (take (4 * k) tail.now) ≡ Ok (take (3 * k) (drop place output.new)) }
{
    let mut letters = [0u8; LANES];
    letters[..tail.len()].copy_from_slice(tail);
    put_letters(output, place, u8x16::from_array(letters))
}

/// Writes the bytes of the groups at the start of the letters at offset `place`. Returns the number
/// of letters before the first byte that is not one. Bytes written after their groups have no
/// meaning.
#[inline(always)]
pub(crate) fn put_letters(output: &mut [u8], place: usize, letters: u8x16) -> usize
    requires capacity { place + 16 ≤ length output.old }
    ensures len { result ≡ prefix_len is_letter letters }
    ensures bounds { result ≤ 16 }
    ensures kept { take place output.new ≡ take place output.old }
    ensures read { (k n : ℕ) → 4 * k ≤ result
        → groups_from n (take (4 * k) letters) ≡ Ok (take (3 * k) (drop place output.new)) }
{
    packed(letters).copy_to_slice(&mut output[place..]);
    letters_len(letters)
}

/// Writes the three bytes of the group that the next four bytes make, absent ones skipped, and
/// returns the offset after it; or returns `None` if not all of them are letters.
fn put_next_group(
    output: &mut [u8],
    place: usize,
    text: &[u8],
    at: usize,
    absent: RunEnd,
) -> Option<usize>
    requires capacity { place + 16 ≤ length output.old }
    requires within { at ≤ length text.now }
    ensures kept { take place output.new ≡ take place output.old }
    ensures bounds { IfSome result (λ next. next ≤ length text.now) }
    ensures later { IfSome result (λ next. at + 4 ≤ next) }
    ensures read { IfSome result (λ next. (n : ℕ)
        → groups_from n (without_ends absent (drop at text.now))
        ≡ prepend (take 3 (drop place output.new))
        (groups_from (n + 1) (without_ends absent (drop next text.now)))) }
{
    let (group, next) = next_four(text, at, absent)?;
    let [p, q, r, s] = group;
    let letters = u8x16::from_array([p, q, r, s, 0, 0, 0, 0, 0, 0, 0, 0, 0, 0, 0, 0]);
    if put_letters(output, place, letters) < 4 {
        return None;
    }
    Some(next)
}

/// Returns the next four bytes that are not absent, and the offset after them.
fn next_four(text: &[u8], at: usize, absent: RunEnd) -> Option<([u8; 4], usize)>
    requires within { at ≤ length text.now }
    ensures bounds { IfSome result (λ found. found.1 ≤ length text.now) }
    ensures later { IfSome result (λ found. at + 4 ≤ found.1) }
    ensures len { IfSome result (λ found. length found.0 ≡ 4) }
    ensures four { IfSome result (λ found. without_ends absent (drop at text.now)
        ≡ found.0 ++ without_ends absent (drop found.1 text.now)) }
{
    let mut four = [0u8; 4];
    let mut found = 0;
    'bytes: for place in at..text.len() {
        let byte = text[place];
        if absent.is_met_by(byte) {
            continue;
        }
        four[found] = byte;
        found += 1;
        if found == 4 {
            return Some((four, place + 1));
        }
    }
    None
}

/// Returns an offset up to which all bytes from `at` onwards are absent: the one after a CR LF, or
/// else that of the first byte that is not absent.
#[inline(always)]
#[tactic(auto, using(crate::proofs::lemmas::Base64Parts::line_end_passed))]
fn after_line_end(text: &[u8], at: usize, absent: RunEnd) -> usize
    requires within { at ≤ length text.now }
    ensures after { at ≤ result }
    ensures bounds { result ≤ length text.now }
    ensures passed { without_ends absent (drop at text.now)
        ≡ without_ends absent (drop result text.now) }
{
    if text.len() - at < 2 || text[at] != b'\r' || text[at + 1] != b'\n' {
        return after_absent(text, at, absent);
    }
    at + 2
}

/// Returns the offset of the first byte from `at` onwards that is not absent, or the length.
#[inline(always)]
fn after_absent(text: &[u8], at: usize, absent: RunEnd) -> usize
    requires within { at ≤ length text.now }
    ensures after { at ≤ result }
    ensures bounds { result ≤ length text.now }
    ensures passed { without_ends absent (drop at text.now)
        ≡ without_ends absent (drop result text.now) }
{
    let mut place = at;
    'absent: while place < text.len() && absent.is_met_by(text[place]) {
        place += 1;
    }
    place
}
