//! Base64 groups with padding: a single one, and many together.
ghost use Rattle.std.specs.Prelude.{◌≡◌, ℕ, Ok, true, false, ◌+◌, ◌*◌, ◌/◌, ◌%◌, ◌≤◌, ◌++◌, length, IfOk, OnOk};
ghost use Rattle.mail_codec.specs.Base64.{groups_from, prepend};
ghost use Rattle.mail_codec.specs.private.Base64.{KeepsLetters, KeepsPadding};
ghost use Rattle.mail_codec.specs.private.Padded.{cut_groups, filled, fourth, group_len, third};
ghost use Rattle.mail_codec.specs.private.Runs.{without_ends};
ghost use Rattle.mail_codec.specs.declared.bytescan.runs.RunEnd.{RunEnd};

use super::groups::put_letters;
use crate::vectors::LANES;
use base64::DecodeAllocError;
use base64::engine::general_purpose::STANDARD;
use std::alloc::AllocError;
use std::simd::prelude::*;

/// Appends the bytes of whole groups, with or without padding, and returns true if all of them are
/// valid; otherwise appends nothing and returns false. The engine accepts padding only in the last
/// group, so missing letters are filled in, all groups are read at once, and then the bytes of each
/// are cut. `full` and `decoded` are scratch space that all windows share.
pub(crate) fn decode_padded_groups(
    bytes: &mut Vec<u8>,
    full: &mut Vec<u8>,
    decoded: &mut Vec<u8>,
    letters: &[u8],
) -> Result<bool, AllocError>
    requires whole { length letters.now % 4 ≡ 0 }
    ensures read { IfOk result (λ is_read. is_read ≡ true →
        (n : ℕ) → prepend bytes.old.items (groups_from n letters.now) ≡ Ok bytes.new.items) }
    ensures kept { IfOk result (λ is_read. is_read ≡ false →
        bytes.new.items ≡ bytes.old.items) }
{
    fill_up(full, letters)?;
    decoded.clear();
    match STANDARD.decode_vec(full.as_slice(), decoded) {
        Ok(()) => {
            push_cut_groups(bytes, letters, decoded.as_slice())?;
            Ok(true)
        }
        Err(DecodeAllocError::OutOfMemory) => Err(AllocError),
        Err(DecodeAllocError::DecodeError(_)) => Ok(false),
    }
}

/// Appends the bytes of a text that is one group, with or without padding, and returns true;
/// otherwise appends nothing and returns false. Missing letters are filled in, and their bytes are
/// cut off.
pub(crate) fn push_one_group(bytes: &mut Vec<u8>, text: &[u8]) -> Result<bool, AllocError>
    ensures read { IfOk result (λ is_read. is_read ≡ true → (absent : RunEnd) (n : ℕ)
        → KeepsLetters absent → KeepsPadding absent
        → prepend bytes.old.items (groups_from n (without_ends absent text.now))
        ≡ Ok bytes.new.items) }
    ensures kept { IfOk result (λ is_read. is_read ≡ false →
        bytes.new.items ≡ bytes.old.items) }
{
    if text.len() != 4 {
        return Ok(false);
    }
    let (third, fourth) = filled_pair(text[2], text[3]);
    let letters = u8x16::from_array([
        text[0], text[1], third, fourth, 0, 0, 0, 0, 0, 0, 0, 0, 0, 0, 0, 0,
    ]);
    let mut decoded = [0u8; LANES];
    if put_letters(&mut decoded, 0, letters) < 4 {
        return Ok(false);
    }
    bytes.extend_from_slice(&decoded[..group_len(text[2], text[3])])?;
    Ok(true)
}

/// Replaces the content of `full` by the groups with their padding filled in.
#[tactic(auto, using(crate::proofs::lemmas::Padded::fill_step, crate::proofs::lemmas::Padded::fill_end))]
fn fill_up(full: &mut Vec<u8>, letters: &[u8]) -> Result<(), AllocError>
    requires whole { length letters.now % 4 ≡ 0 }
    ensures { OnOk result (full.new.items ≡ filled letters.now) }
{
    full.clear();
    full.reserve(letters.len())?;
    'groups: for number in 0..letters.len() / 4 {
        let at = 4 * number;
        let (third, fourth) = filled_pair(letters[at + 2], letters[at + 3]);
        full.extend_from_slice(&[letters[at], letters[at + 1], third, fourth])?;
    }
    Ok(())
}

/// Returns the third and the fourth byte of a group, with `A`, whose value is 0, for padding.
pub(crate) fn filled_pair(r: u8, s: u8) -> (u8, u8)
    ensures third { result.0 ≡ third r s }
    ensures fourth { result.1 ≡ fourth s }
{
    if s != b'=' {
        return (r, s);
    }
    if r != b'=' {
        return (r, b'A');
    }
    (b'A', b'A')
}

/// Appends, of the three bytes decoded for each group, those that the group encodes.
fn push_cut_groups(bytes: &mut Vec<u8>, letters: &[u8], decoded: &[u8]) -> Result<(), AllocError>
    requires whole { length letters.now % 4 ≡ 0 }
    requires three { length decoded.now ≡ 3 * (length letters.now / 4) }
    ensures { OnOk result
        (bytes.new.items ≡ bytes.old.items ++ cut_groups letters.now decoded.now) }
{
    'groups: for number in 0..letters.len() / 4 {
        let at = 4 * number;
        let len = group_len(letters[at + 2], letters[at + 3]);
        let place = 3 * number;
        bytes.extend_from_slice(&decoded[place..place + len])?;
    }
    Ok(())
}

/// Returns the number of bytes that a group encodes, by its third and its fourth byte.
pub(crate) fn group_len(r: u8, s: u8) -> usize
    ensures len { result ≡ group_len r s }
    ensures bounds { result ≤ 3 }
{
    if s != b'=' {
        return 3;
    }
    if r != b'=' {
        return 2;
    }
    1
}
