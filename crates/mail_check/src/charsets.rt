//! The charsets that all programs know, and bytes that these lack.
ghost use Rattle.std.specs.Prelude.{◌≡◌, IfOk, map, option_map};
ghost use Rattle.std.specs.List.{list_any};
ghost use Rattle.std.specs.Str.{is_utf8, str_eq_ignore_ascii_case};
ghost use Rattle.mail_check.specs.Charsets.{after_pair_byte, after_pair_bytes, has_c1_after};
ghost use Rattle.mail_check.specs.Charsets.{has_replaced, is_c1, is_foreign, is_label_of};
ghost use Rattle.mail_check.specs.Charsets.{is_lacking, is_pair_byte, is_unread, is_whole};
ghost use Rattle.mail_check.specs.Charsets.{utf_8_labels};
ghost use Rattle.mail_check.specs.declared.charsets.PairState.TheVariants.{Whole};

use crate::disputed::has_disputed;
use crate::scan::{high_byte, is_same};
use mail_codec::bytescan::find;
use mail_codec::charset::{Decode, KnownCharsets};
use std::alloc::{AllocError, Global};

/// The labels of US-ASCII.
const ASCII_LABELS: [&str; 2] = ["us-ascii", "ascii"];

/// The labels of UTF-8.
const UTF_8_LABELS: [&str; 2] = ["utf-8", "utf8"];

/// The labels of the parts of ISO 8859 that all programs know.
const ISO_8859_LABELS: [&str; 12] = [
    "iso-8859-1",
    "iso-8859-2",
    "iso-8859-3",
    "iso-8859-4",
    "iso-8859-5",
    "iso-8859-6",
    "iso-8859-7",
    "iso-8859-8",
    "iso-8859-9",
    "iso-8859-11",
    "iso-8859-13",
    "iso-8859-15",
];

/// Those of other charsets that all programs know, in which bytes below 128 are ASCII.
const OTHER_LABELS: [&str; 15] = [
    "windows-1250",
    "windows-1251",
    "windows-1252",
    "windows-1253",
    "windows-1254",
    "windows-1255",
    "windows-1256",
    "windows-1257",
    "koi8-r",
    "koi8-u",
    "gbk",
    "gb18030",
    "big5",
    "euc-jp",
    "shift_jis",
];

/// Those of GB 2312 and KS X 1001, in which two bytes from A1 to FE are a character.
const PAIR_LABELS: [&str; 3] = ["gb2312", "euc-kr", "ks_c_5601-1987"];

/// What was read of bytes that are ASCII and pairs from A1 to FE.
#[derive(Clone, Copy, Debug)]
pub enum PairState {
    /// ASCII and whole pairs.
    Whole,
    /// The first byte of a pair.
    Half,
    /// Something else.
    Cut,
}

/// Returns whether bytes are not all text in the charset that a label names.
pub(crate) fn is_lacking<K: KnownCharsets>(
    alloc: Global,
    label: &[u8],
    octets: &[u8],
    known: &K,
) -> Result<bool, AllocError>
    ensures { IfOk result (λ is. is ≡ is_lacking (K.known known.now) label.now octets.now) }
{
    if is_label_of(label, &ASCII_LABELS) {
        return Ok(high_byte(octets).is_some());
    }
    if is_utf_8(label) {
        return Ok(!is_utf8(octets));
    }
    if is_foreign(label, octets) || has_disputed(label, octets) {
        return Ok(true);
    }
    is_unread(alloc, label, octets, known)
}

/// Returns whether a label is that of a part of ISO 8859, and one of the bytes is from 80 to 9F; or
/// that of a charset of pairs, and they are not ASCII and pairs; or that of no charset that all
/// programs know.
fn is_foreign(label: &[u8], octets: &[u8]) -> bool
    ensures { result ≡ is_foreign label.now octets.now }
{
    if is_label_of(label, &ISO_8859_LABELS) {
        return have_c1(octets);
    }
    if is_label_of(label, &PAIR_LABELS) {
        return !are_pairs(octets);
    }
    !is_label_of(label, &OTHER_LABELS)
}

/// Returns whether bytes are ASCII and pairs.
fn are_pairs(octets: &[u8]) -> bool
    ensures { result ≡ is_whole (after_pair_bytes Whole octets.now) }
{
    let mut state = PairState::Whole;
    for byte in octets {
        state = after_pair_byte(state, *byte);
    }
    matches!(state, PairState::Whole)
}

/// Returns the state after one more byte.
fn after_pair_byte(state: PairState, byte: u8) -> PairState
    ensures { result ≡ after_pair_byte state byte }
{
    match state {
        PairState::Whole if byte < 128 => PairState::Whole,
        PairState::Whole if is_pair_byte(byte) => PairState::Half,
        PairState::Half if is_pair_byte(byte) => PairState::Whole,
        _ => PairState::Cut,
    }
}

/// Returns whether a byte is one of a pair.
fn is_pair_byte(byte: u8) -> bool
    ensures { result ≡ is_pair_byte byte }
{
    byte >= 0xA1 && byte < 0xFF
}

/// Returns whether bytes are not read in the charset with a label: none is known, or they are not
/// ASCII and have a character in their text that replaces bytes or is a control character.
fn is_unread<K: KnownCharsets>(
    alloc: Global,
    label: &[u8],
    octets: &[u8],
    known: &K,
) -> Result<bool, AllocError>
    ensures { IfOk result (λ is. is ≡ is_unread (K.known known.now label.now) octets.now) }
{
    let Some(charset) = known.for_label(label) else {
        return Ok(true);
    };
    if high_byte(octets).is_none() {
        return Ok(false);
    }
    let text = charset.decode_without_bom_handling(alloc, octets)?;
    Ok(has_replaced(text.as_bytes()))
}

/// Returns whether a text has a character that replaces bytes, or one of U+0080 to U+009F.
fn has_replaced(text: &[u8]) -> bool
    ensures { result ≡ has_replaced text.now }
{
    find(text, b"\xEF\xBF\xBD").is_some() || has_c1(text)
}

/// Returns whether a label is one of UTF-8.
pub(crate) fn is_utf_8(label: &[u8]) -> bool
    ensures { result ≡ is_label_of label.now utf_8_labels }
{
    is_label_of(label, &UTF_8_LABELS)
}

/// Returns whether one of some bytes is among 80 to 9F.
fn have_c1(octets: &[u8]) -> bool
    ensures { result ≡ list_any is_c1 octets.now }
{
    octets.iter().any(|byte| is_c1(*byte))
}

/// Returns whether a label is one of some, ignoring ASCII case.
fn is_label_of(label: &[u8], labels: &[&str]) -> bool
    ensures { result ≡ is_label_of label.now (map (λ known. known.now) labels.now) }
{
    for known in labels {
        if is_same_label(label, known) {
            return true;
        }
    }
    false
}

/// Returns whether two labels are equal, ignoring ASCII case.
pub(crate) fn is_same_label(label: &[u8], known: &str) -> bool
    ensures { result ≡ str_eq_ignore_ascii_case label.now known.now }
{
    is_same(label, known.as_bytes())
}

/// Returns whether bytes are UTF-8.
fn is_utf8(octets: &[u8]) -> bool
    ensures { result ≡ is_utf8 octets.now }
{
    str::from_utf8(octets).is_ok()
}

/// Returns whether the UTF-8 of one of the characters U+0080 to U+009F is among bytes.
pub(crate) fn has_c1(octets: &[u8]) -> bool
    ensures { result ≡ has_c1_after 0 octets.now }
{
    let mut before = 0;
    for byte in octets {
        if before == 0xC2 && is_c1(*byte) {
            return true;
        }
        before = *byte;
    }
    false
}

/// Returns whether a byte is one of 80 to 9F.
fn is_c1(byte: u8) -> bool
    ensures { result ≡ is_c1 byte }
{
    byte >= 128 && byte < 160
}
