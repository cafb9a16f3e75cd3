//! Base64, over bytes (RFC 4648, section 4; RFC 2045, section 6.8).
ghost use Rattle.std.specs.Prelude.{◌≡◌, ◌+◌, ◌*◌, ◌/◌, ◌%◌, ◌^◌, ◌<◌, ◌≤◌, ◌≢◌, ◌++◌, length, drop, vec_len, IfOk, OnOk, option_map, if◌then◌else◌};
ghost use Rattle.mail_codec.specs.Ascii.{equals_sign};
ghost use Rattle.mail_codec.specs.Base64.{base64, bytes_of_values, group_bytes, groups_from, items_or_fault, letter_value, prepend};
ghost use Rattle.mail_codec.specs.private.Base64.{KeepsLetters, KeepsPadding, items_unless_fault};
ghost use Rattle.mail_codec.specs.Places.{without_ascii_whitespace};
ghost use Rattle.mail_codec.specs.private.Runs.{without_ends};

mod groups;
mod padded;

use self::groups::put_groups;
use self::padded::{decode_padded_groups, filled_pair, group_len, push_one_group};
use crate::bytescan::runs::{RunEnd, push_runs};
use base64::DecodeAllocError;
use base64::engine::general_purpose::STANDARD;
use std::alloc::{AllocError, Global};

/// The size of the buffer that groups of letters are decoded into before they are appended.
const BUFFER: usize = 1024;

/// The size of the buffer for a text of at most this length, such as an encoded word (RFC 2047,
/// section 2): the buffer is filled with zeros for each text.
const SHORT: usize = 192;

/// The number of bytes of a Base64 text read at a time, from the first other group onwards.
const WINDOW: usize = 4096;

/// Returns the bytes that a Base64 text encodes (RFC 4648, section 4).
///
/// CR and LF are ignored everywhere, groups with padding may occur anywhere, and bits that do not
/// make a whole byte are ignored. Allocates the bytes, all at once, and a few kilobytes
/// temporarily.
///
/// # Errors
///
/// The inner error is the index, counted from 0, of the first invalid group of four; a short last
/// group is invalid. The outer error is `AllocError` if it runs out of memory.
///
/// # Examples
///
/// ```rust
/// use mail_codec::transfer::decode_base64;
///
/// let bytes = decode_base64(alloc, b"aG\r\nk=")?.ok().ok_or("an invalid group")?;
/// assert_eq!(rt; bytes.as_slice(), b"hi".as_slice());
/// assert_eq!(rt; decode_base64(alloc, b"aGk=a")?.err(), Some(1));
/// ```
#[tactic(auto, unfolding(crate::specs::Base64::base64))]
pub fn decode_base64(alloc: Global, text: &[u8]) -> Result<Result<Vec<u8>, usize>, AllocError>
    ensures { IfOk result (λ decoded. items_or_fault decoded ≡ base64 text.now) }
{
    if text.len() <= SHORT {
        return decode_base64_without(alloc, &mut [0u8; SHORT], text, RunEnd::LineEnd);
    }
    decode_base64_without(alloc, &mut [0u8; BUFFER], text, RunEnd::LineEnd)
}

/// Returns the bytes that a Base64 body encodes (RFC 2045, section 6.8).
///
/// All ASCII whitespace is ignored: space, tab, LF, FF and CR, but not the vertical tab (0x0B).
/// Otherwise it reads and allocates as `decode_base64` does: the body is not copied.
///
/// # Errors
///
/// The inner error is the index, counted from 0, of the first invalid group of four; a short last
/// group is invalid. The outer error is `AllocError` if it runs out of memory.
///
/// # Examples
///
/// ```rust
/// use mail_codec::transfer::decode_base64_body;
///
/// let bytes = decode_base64_body(alloc, b"aG k=")?.ok().ok_or("an invalid group")?;
/// assert_eq!(rt; bytes.as_slice(), b"hi".as_slice());
/// ```
pub fn decode_base64_body(alloc: Global, body: &[u8]) -> Result<Result<Vec<u8>, usize>, AllocError>
    ensures { IfOk result
        (λ decoded. items_or_fault decoded ≡ base64 (without_ascii_whitespace body.now)) }
{
    decode_base64_without(alloc, &mut [0u8; BUFFER], body, RunEnd::Whitespace)
}

/// Returns the bytes of the groups of a text without its absent bytes. Letters are read in place.
/// From the first other group onwards a window of the text is read at a time, unless that group
/// ends the text. `buffer` is scratch space.
#[inline(always)]
fn decode_base64_without(
    alloc: Global,
    buffer: &mut [u8],
    text: &[u8],
    absent: RunEnd,
) -> Result<Result<Vec<u8>, usize>, AllocError>
    requires letters { KeepsLetters absent }
    requires padding { KeepsPadding absent }
    ensures { IfOk result
        (λ decoded. items_or_fault decoded ≡ groups_from 0 (without_ends absent text.now)) }
{
    let mut bytes = Vec::with_capacity(alloc, text.len() / 4 * 3)?;
    let mut groups = 0;
    let mut at = 0;
    'buffers: while at < text.len() {
        let (count, next) = put_groups(buffer, text, at, absent);
        bytes.extend_from_slice(&buffer[..3 * count])?;
        groups += count;
        if push_one_group(&mut bytes, &text[next..])? {
            return Ok(Ok(bytes));
        }
        if next == at {
            return decode_windows(alloc, bytes, groups, text, next, absent);
        }
        at = next;
    }
    Ok(Ok(bytes))
}

/// Returns the bytes in `before` and then those of the groups of the text from `from` onwards, of
/// which the first has index `first`. Reads a window of the text at a time.
fn decode_windows(
    alloc: Global,
    before: Vec<u8>,
    first: usize,
    text: &[u8],
    from: usize,
    absent: RunEnd,
) -> Result<Result<Vec<u8>, usize>, AllocError>
    requires within { from ≤ length text.now }
    requires counted { 4 * first ≤ from }
    ensures { IfOk result (λ decoded. items_or_fault decoded
        ≡ prepend before.items (groups_from first (without_ends absent (drop from text.now)))) }
{
    let mut bytes = before;
    let mut letters = Vec::with_capacity(alloc, (text.len() - from).min(WINDOW + 3))?;
    let mut full = Vec::new(alloc);
    let mut decoded = Vec::new(alloc);
    let mut groups = first;
    let mut at = from;
    'windows: while at < text.len() {
        let end = (text.len() - at).min(WINDOW) + at;
        push_runs(&mut letters, &text[at..end], absent)?;
        let whole = letters.len() / 4;
        let window = &letters[..4 * whole];
        if let Err(group) = decode_groups(&mut bytes, &mut full, &mut decoded, window, groups)? {
            return Ok(Err(group));
        }
        keep_from(&mut letters, 4 * whole);
        groups += whole;
        at = end;
    }
    if letters.is_empty() {
        Ok(Ok(bytes))
    } else {
        Ok(Err(groups))
    }
}

/// Drops the letters before offset `at`.
fn keep_from(letters: &mut Vec<u8>, at: usize)
    requires within { at ≤ vec_len letters.old }
    ensures { letters.new.items ≡ drop at letters.old.items }
{
    let left = letters.len() - at;
    letters.as_mut_slice().copy_within(at.., 0);
    letters.truncate(left);
}

/// Appends the bytes of whole groups, of which the first has index `first`, or returns the index of
/// the first invalid one. `full` and `decoded` are scratch space.
#[tactic(auto, using(crate::proofs::lemmas::Base64Steps::groups_decoded))]
fn decode_groups(
    bytes: &mut Vec<u8>,
    full: &mut Vec<u8>,
    decoded: &mut Vec<u8>,
    letters: &[u8],
    first: usize,
) -> Result<Result<(), usize>, AllocError>
    requires whole { length letters.now % 4 ≡ 0 }
    requires fits { first + length letters.now / 4 < 2 ^ 64 }
    ensures { IfOk result (λ done. prepend bytes.old.items (groups_from first letters.now)
        ≡ items_unless_fault done bytes.new.items) }
{
    match STANDARD.decode_vec(letters, bytes) {
        Ok(()) => Ok(Ok(())),
        Err(DecodeAllocError::OutOfMemory) => Err(AllocError),
        Err(DecodeAllocError::DecodeError(_)) => {
            if decode_padded_groups(bytes, full, decoded, letters)? {
                return Ok(Ok(()));
            }
            decode_each_group(bytes, letters, first)
        }
    }
}

/// Does the same as `decode_groups`, a group at a time, to find the first invalid one.
fn decode_each_group(
    bytes: &mut Vec<u8>,
    letters: &[u8],
    first: usize,
) -> Result<Result<(), usize>, AllocError>
    requires whole { length letters.now % 4 ≡ 0 }
    requires fits { first + length letters.now / 4 < 2 ^ 64 }
    ensures { IfOk result (λ done. prepend bytes.old.items (groups_from first letters.now)
        ≡ items_unless_fault done bytes.new.items) }
{
    'groups: for number in 0..letters.len() / 4 {
        let at = 4 * number;
        if !push_group(
            bytes,
            letters[at],
            letters[at + 1],
            letters[at + 2],
            letters[at + 3],
        )? {
            return Ok(Err(first + number));
        }
    }
    Ok(Ok(()))
}

/// Appends the bytes of a group and returns true, or returns false if it is invalid. The missing
/// letters of a group with padding are replaced by `A`, whose value is 0, and their bytes are cut
/// off.
fn push_group(bytes: &mut Vec<u8>, p: u8, q: u8, r: u8, s: u8) -> Result<bool, AllocError>
    ensures { IfOk result (λ is_group. option_map (λ decoded. bytes.old.items ++ decoded)
        (group_bytes p q r s)
        ≡ (if is_group then Some bytes.new.items else None)) }
{
    let (third, fourth) = filled_pair(r, s);
    push_bytes(bytes, p, q, third, fourth, group_len(r, s))
}

/// Appends the first `len` bytes of four letters and returns true, or returns false if not all four
/// are letters.
fn push_bytes(
    bytes: &mut Vec<u8>,
    p: u8,
    q: u8,
    r: u8,
    s: u8,
    len: usize,
) -> Result<bool, AllocError>
    requires unpadded { s ≢ equals_sign }
    requires short { len ≤ 3 }
    ensures { IfOk result (λ are_letters. option_map (λ decoded. bytes.old.items ++ decoded)
        (bytes_of_values len (letter_value p) (letter_value q) (letter_value r) (letter_value s))
        ≡ (if are_letters then Some bytes.new.items else None)) }
{
    let mut decoded = [0u8; 3];
    if STANDARD.decode_slice(&[p, q, r, s], &mut decoded).is_err() {
        return Ok(false);
    }
    bytes.extend_from_slice(&decoded[..len])?;
    Ok(true)
}
