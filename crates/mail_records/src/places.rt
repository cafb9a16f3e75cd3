//! The offsets of a header that was read, from the lengths of its key and its value.
ghost use Rattle.std.specs.Prelude.{◌≡◌, ◌≤◌, ◌==◌, suc, drop, min, not, length};
ghost use Rattle.mail_codec.specs.Ascii.{is_blank, space};
ghost use Rattle.mail_codec.specs.Places.{begins, place_from};
ghost use Rattle.mailparse.specs.Block.{bare_header};
ghost use Rattle.mailparse.specs.Header.{header_length, header_of, is_line_feed};
ghost use Rattle.mailparse.specs.Header.{key_end, value_end, value_start};
ghost use Rattle.mail_records.specs.Records.{bare_key_end};

use mailparse::{HeaderPlaces, MailHeader};

/// Returns the offsets in the header that was read at the front of `raw`, whose key has no blanks at
/// its end. Its key and its value are not searched.
#[inline(always)]
#[tactic(auto, using(crate::proofs::lemmas::HeaderLengths::lengths))]
pub(crate) fn places_of(raw: &[u8], header: &MailHeader<'_>) -> HeaderPlaces
    requires { header.now ≡ bare_header (header_of raw.now) }
    ensures key { result.key_end ≡ bare_key_end raw.now }
    ensures start { result.value_start ≡ value_start raw.now }
    ensures end { result.value_end ≡ value_end raw.now }
    ensures len { result.length ≡ header_length raw.now }
    ensures order { (result.key_end ≤ result.value_start) × (result.value_start ≤ result.value_end)
        × (result.value_end ≤ result.length) × (result.length ≤ length raw.now) }
{
    let key_end = header.get_key_raw().len();
    let value_start = value_start(raw, after_blanks(raw, key_end));
    let value_end = value_start + header.get_value_raw().len();
    let end = line_feed_from(raw, value_end);
    HeaderPlaces {
        key_end,
        value_start,
        value_end,
        length: length_to(raw, end),
    }
}

/// Returns the end of a key that ends at `key`, without the blanks at its end.
#[inline(always)]
#[tactic(auto, using(crate::proofs::lemmas::HeaderLengths::key_blanks))]
pub(crate) fn bare_key_end(raw: &[u8], key: usize) -> usize
    requires { key ≡ key_end raw.now }
    ensures value { result ≡ bare_key_end raw.now }
    ensures bounds { result ≤ key }
{
    let mut end = key;
    'blanks: while 0 < end && is_blank_at(raw, end - 1) {
        end -= 1;
    }
    end
}

/// Returns the start of the value of a header whose key ends at `key`.
#[inline(always)]
#[tactic(auto, using(crate::proofs::lemmas::HeaderLengths::starts))]
fn value_start(raw: &[u8], key: usize) -> usize
    requires { key ≡ key_end raw.now }
    ensures { result ≡ value_start raw.now }
{
    if !is_at(raw, key, b':') {
        return key;
    }
    after_spaces(raw, key + 1)
}

/// Returns the offset of the first byte at or after `from` that is neither a space nor a tab, or the
/// length if all are.
#[inline(always)]
fn after_blanks(raw: &[u8], from: usize) -> usize
    requires within { from ≤ length raw.now }
    ensures { result ≡ place_from (begins (λ b. not (is_blank b))) raw.now from }
{
    let mut at = from;
    while is_blank_at(raw, at) {
        at += 1;
    }
    at
}

/// Returns whether a space or a tab is at `offset`.
#[inline(always)]
fn is_blank_at(raw: &[u8], offset: usize) -> bool
    ensures { result ≡ begins is_blank (drop offset raw.now) }
{
    match raw.get(offset) {
        Some(found) => *found == b' ' || *found == b'\t',
        None => false,
    }
}

/// Returns the offset of the first byte at or after `from` that is not a space, or the length if
/// all are spaces.
#[inline(always)]
fn after_spaces(raw: &[u8], from: usize) -> usize
    requires within { from ≤ length raw.now }
    ensures { result ≡ place_from (begins (λ b. not (b == space))) raw.now from }
{
    let mut at = from;
    while is_at(raw, at, b' ') {
        at += 1;
    }
    at
}

/// Returns whether this byte is at `offset`.
#[inline(always)]
fn is_at(raw: &[u8], offset: usize, byte: u8) -> bool
    ensures { result ≡ begins (λ b. b == byte) (drop offset raw.now) }
{
    match raw.get(offset) {
        Some(found) => *found == byte,
        None => false,
    }
}

/// Returns the offset of the first LF at or after `from`, or the length if there is none. Only CRs
/// come between a value and its LF, mostly one or none, so that each byte is compared.
#[inline(always)]
fn line_feed_from(raw: &[u8], from: usize) -> usize
    requires within { from ≤ length raw.now }
    ensures least { result ≡ place_from (begins is_line_feed) raw.now from }
    ensures bounds { result ≤ length raw.now }
{
    let mut at = from;
    while is_other_at(raw, at, b'\n') {
        at += 1;
    }
    at
}

/// Returns whether another byte than this is at `offset`.
#[inline(always)]
fn is_other_at(raw: &[u8], offset: usize, byte: u8) -> bool
    ensures { result ≡ begins (λ b. not (b == byte)) (drop offset raw.now) }
{
    match raw.get(offset) {
        Some(found) => *found != byte,
        None => false,
    }
}

/// Returns the length of a header that ends at `end`, including its LF.
#[inline(always)]
fn length_to(raw: &[u8], end: usize) -> usize
    requires within { end ≤ length raw.now }
    ensures { result ≡ min (suc end) (length raw.now) }
{
    if end < raw.len() { end + 1 } else { end }
}
