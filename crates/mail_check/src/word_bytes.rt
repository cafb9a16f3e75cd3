//! The bytes of encoded words that other programs may read as another text.
ghost use Rattle.std.specs.Prelude.{◌≡◌, IfOk, drop, map};
ghost use Rattle.std.specs.List.{list_any};
ghost use Rattle.mail_codec.specs.Places.{begins};
ghost use Rattle.mail_check.specs.WordBytes.{are_bad, are_controls, are_marked, has_bad_octets};
ghost use Rattle.mail_check.specs.WordBytes.{has_spare_bits, is_ascii_control, is_one_of};
ghost use Rattle.mail_check.specs.WordBytes.{label_of, lacks_one};

use crate::charsets::{has_c1, is_lacking, is_utf_8};
use crate::scan::from_offset;
use crate::words::{is_in_base64, is_word, label_length, octets_of, up_to, word_text};
use mail_codec::bytescan::find_byte;
use mail_codec::charset::{Charset, KnownCharsets};
use std::alloc::{AllocError, Global};

/// Returns whether one of some pieces is a word with bytes that programs read as different texts.
pub(crate) fn has_bad_word<K: KnownCharsets>(
    alloc: Global,
    found: &[&[u8]],
    known: &K,
) -> Result<bool, AllocError>
    ensures { IfOk result (λ is. is
        ≡ list_any (has_bad_octets (K.known known.now)) (map (λ piece. piece.now) found.now)) }
{
    for piece in found {
        if has_bad_octets(alloc, piece, known)? {
            return Ok(true);
        }
    }
    Ok(false)
}

/// Returns whether a piece is a word with such bytes.
fn has_bad_octets<K: KnownCharsets>(
    alloc: Global,
    piece: &[u8],
    known: &K,
) -> Result<bool, AllocError>
    ensures { IfOk result (λ is. is ≡ has_bad_octets (K.known known.now) piece.now) }
{
    if !is_word(piece) {
        return Ok(false);
    }
    if is_in_base64(piece) && has_spare_bits(word_text(piece)) {
        return Ok(true);
    }
    let octets = octets_of(alloc, piece)?;
    are_bad(alloc, label_of(piece), octets.as_slice(), known)
}

/// Returns whether the last letter of a text in Base64 with padding has a bit that makes no byte
/// and is not 0.
pub(crate) fn has_spare_bits(text: &[u8]) -> bool
    ensures { result ≡ has_spare_bits text.now }
{
    if text.ends_with(b"==") {
        return lacks_one(b"AQgw", 3, text);
    }
    text.ends_with(b"=") && lacks_one(b"AEIMQUYcgkosw048", 2, text)
}

/// Returns whether the n-th byte from the end of a text is not among these.
fn lacks_one(some: &[u8], n: usize, text: &[u8]) -> bool
    ensures { result ≡ lacks_one some.now n text.now }
{
    !has_one_at(some, text, text.len().saturating_sub(n))
}

/// Returns whether one of some bytes is at an offset.
fn has_one_at(some: &[u8], bytes: &[u8], at: usize) -> bool
    ensures { result ≡ begins (is_one_of some.now) (drop at bytes.now) }
{
    match bytes.get(at) {
        Some(byte) => is_one_of(some, *byte),
        None => false,
    }
}

/// Returns whether a byte is one of some.
#[tactic(auto, unfolding(crate::specs::WordBytes::is_one_of))]
fn is_one_of(some: &[u8], byte: u8) -> bool
    ensures { result ≡ is_one_of some.now byte }
{
    find_byte(some, byte).is_some()
}

/// Returns the charset of a word.
fn label_of(word: &[u8]) -> &[u8]
    ensures { result.now ≡ label_of word.now }
{
    up_to(from_offset(word, 2), label_length(word))
}

/// Returns whether programs read bytes as different texts under a label.
fn are_bad<K: KnownCharsets>(
    alloc: Global,
    label: &[u8],
    octets: &[u8],
    known: &K,
) -> Result<bool, AllocError>
    ensures { IfOk result (λ is. is ≡ are_bad (K.known known.now) label.now octets.now) }
{
    if octets.is_empty() || are_marked(octets) || are_controls(label, octets) {
        return Ok(true);
    }
    is_lacking(alloc, label, octets, known)
}

/// Returns whether bytes begin with a byte order mark or have control characters.
fn are_marked(octets: &[u8]) -> bool
    ensures { result ≡ are_marked octets.now }
{
    Charset::for_bom(octets).is_some() || have_control(octets)
}

/// Returns whether the label is one of UTF-8, and one of the characters U+0080 to U+009F is among
/// the bytes.
fn are_controls(label: &[u8], octets: &[u8]) -> bool
    ensures { result ≡ are_controls label.now octets.now }
{
    is_utf_8(label) && has_c1(octets)
}

/// Returns whether one of some bytes is a control character of ASCII.
fn have_control(octets: &[u8]) -> bool
    ensures { result ≡ list_any is_ascii_control octets.now }
{
    octets.iter().any(|byte| *byte < 32 || *byte == 127)
}
