//! Encoded words in a phrase, which are atoms whatever bytes they contain.
ghost use Rattle.std.specs.Prelude.{◌≡◌, ◌≤◌, ◌||◌, codes, drop, length, IsTrue};
ghost use Rattle.std.specs.List.{prefix_len};
ghost use Rattle.mail_codec.specs.Places.{begins, has_prefix, is_empty};
ghost use Rattle.mail_address.specs.PhraseWords.{encoded_len, has_encoding, is_label_byte};
ghost use Rattle.mail_address.specs.PhraseWords.{is_word_end, may_follow, text_step};

use crate::folding::is_control;
use crate::tokens::{Steps, far, is_white};

/// Returns whether the bytes begin with `=?`.
fn has_opening(bytes: &[u8]) -> bool
    ensures value { result ≡ has_prefix (codes "=?") bytes.now }
    ensures within { IsTrue result → 2 ≤ length bytes.now }
{
    bytes.starts_with(b"=?")
}

/// Returns whether a byte may be in the label of a charset.
fn is_label_byte(byte: u8) -> bool
    ensures { result ≡ is_label_byte byte }
{
    !(is_control(byte) || byte == b'?')
}

/// Returns the length of the label at the front.
fn label_len(bytes: &[u8]) -> usize
    ensures value { result ≡ prefix_len is_label_byte bytes.now }
    ensures bounds { result ≤ length bytes.now }
{
    bytes
        .iter()
        .take_while(|byte| is_label_byte(**byte))
        .count()
}

/// Returns whether the bytes begin with an encoding between question marks.
fn has_encoding(bytes: &[u8]) -> bool
    ensures value { result ≡ has_encoding bytes.now }
    ensures within { IsTrue result → 3 ≤ length bytes.now }
{
    bytes.starts_with(b"?B?")
        || bytes.starts_with(b"?b?")
        || bytes.starts_with(b"?Q?")
        || bytes.starts_with(b"?q?")
}

/// Returns whether there is nothing at an offset, or a byte that may follow an encoded word.
fn may_end(bytes: &[u8], place: usize) -> bool
    ensures { result
        ≡ (is_empty (drop place bytes.now) || begins may_follow (drop place bytes.now)) }
{
    if place >= bytes.len() {
        return true;
    }
    let next = bytes[place];
    is_white(next) || next == b'"' || next == b'('
}

/// Returns whether an encoded word ends here.
fn is_word_end(bytes: &[u8]) -> bool
    ensures value { result ≡ is_word_end bytes.now }
    ensures within { IsTrue result → 2 ≤ length bytes.now }
{
    bytes.starts_with(b"?=") && may_end(bytes, 2)
}

/// The step over a byte of an encoded text.
#[derive(Clone, Copy)]
struct TextBytes;

impl Steps for TextBytes {
    ghost passes = { λ _. text_step };

    fn pass(self, bytes: &[u8]) -> usize {
        let Some((first, _)) = bytes.split_first() else {
            return 0;
        };
        if is_control(*first) || is_word_end(bytes) {
            0
        } else {
            1
        }
    }
}

/// Returns the length of the encoded word at the front, or 0 if there is none.
#[tactic(auto, unfolding(crate::specs::PhraseWords::encoded_len))]
pub(crate) fn encoded_len(bytes: &[u8]) -> usize
    ensures value { result ≡ encoded_len bytes.now }
    ensures bounds { result ≤ length bytes.now }
{
    if !has_opening(bytes) {
        return 0;
    }
    let label = label_len(&bytes[2..]);
    if !has_encoding(&bytes[label + 2..]) {
        return 0;
    }
    let len = label + 5 + far(TextBytes, &bytes[label + 5..]);
    if is_word_end(&bytes[len..]) {
        len + 2
    } else {
        0
    }
}
