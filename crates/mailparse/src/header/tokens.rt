//! The tokens of one line of a header's value (RFC 2047, sections 2 and 4).
ghost use Rattle.std.specs.Prelude.{◌≡◌, ◌≢◌, ◌≤◌, [], ◌∷◌, length, reverse, MatchOption, OnOk};
ghost use Rattle.std.specs.Str.{chars};
ghost use Rattle.mail_codec.specs.Places.{has_prefix, place_from};
ghost use Rattle.mailparse.specs.Tokens.{begins_with_boundary, closing, is_boundary, opening};
ghost use Rattle.mailparse.specs.Value.{line_tokens, outside_token};
ghost use Rattle.mailparse.specs.private.Cuts.{IsCut, IsOpening, KeepsClosing};
ghost use Rattle.mailparse.specs.private.Unfolded.{Shows, token_view};

use super::encoded_word::decode_word;
use super::unfolded::{HeaderToken, UnfoldedValue};
use mail_codec::bytescan::find_pair;
use mail_codec::charset::KnownCharsets;
use std::alloc::{AllocError, Global};

/// Returns whether a character may be directly beside an encoded word.
fn is_boundary(c: char) -> bool
    ensures { result ≡ is_boundary c }
{
    c.is_whitespace() || matches!(c, '"' | '(' | ')' | '<' | '>' | ',')
}

/// Returns whether a text is empty or its first character is a boundary.
fn begins_with_boundary(text: &str) -> bool
    ensures { result ≡ begins_with_boundary (chars text.now) }
{
    match text.chars().next() {
        Some(c) => is_boundary(c),
        None => true,
    }
}

/// Returns whether a text is empty or its last character is a boundary.
#[tactic(auto, using(crate::proofs::lemmas::Cuts::boundaries))]
fn ends_with_boundary(text: &str) -> bool
    ensures { result ≡ begins_with_boundary (reverse (chars text.now)) }
{
    match text.chars().next_back() {
        Some(c) => is_boundary(c),
        None => true,
    }
}

/// Returns the token of a text outside all encoded words.
#[tactic(auto, using(crate::proofs::lemmas::Cuts::outside_tokens))]
fn outside_token(text: &str) -> HeaderToken<'_>
    ensures { token_view result ≡ outside_token text.now }
{
    if text.trim_start().is_empty() {
        HeaderToken::Whitespace(text)
    } else {
        HeaderToken::Text(text)
    }
}

/// Returns the first offset at or after `from` of `first` followed by `second`, or the length if
/// there is none.
#[tactic(auto, using(crate::proofs::lemmas::Places::searches_from))]
fn find_two(bytes: &[u8], from: usize, first: u8, second: u8) -> usize
    requires within { from ≤ length bytes.now }
    ensures { result ≡ place_from (has_prefix (first ∷ second ∷ [])) bytes.now from }
{
    match find_pair(&bytes[from..], first, second) {
        Some(place) => from + place,
        None => bytes.len(),
    }
}

/// Returns the offset of the first `=?` at or after `from`.
#[tactic(auto, using(crate::proofs::lemmas::Cuts::opening_found))]
fn find_opening(line: &str, from: usize) -> Option<usize>
    requires within { from ≤ length line.now }
    ensures { MatchOption result (opening line.now from ≡ length line.now)
        (λ v. IsOpening line.now from v) }
{
    let bytes = line.as_bytes();
    let open = find_two(bytes, from, b'=', b'?');
    if open == bytes.len() {
        None
    } else {
        Some(open)
    }
}

/// Returns the offset of the first `?=` at or after `from` that a boundary follows, or the length.
fn find_closing(line: &str, from: usize) -> usize
    requires within { from ≤ length line.now }
    ensures { result ≡ closing line.now from }
{
    let bytes = line.as_bytes();
    let mut at = find_two(bytes, from, b'?', b'=');
    while at < bytes.len() {
        if begins_with_boundary(&line[at + 2..]) {
            return at;
        }
        at = find_two(bytes, at + 1, b'?', b'=');
    }
    at
}

/// Returns what `find_closing` does. `kept` is the result of an earlier search, or 0 before the
/// first; it is reused up to its offset.
fn find_closing_or_keep(line: &str, from: usize, kept: usize) -> usize
    requires within { from ≤ length line.now }
    requires keeps { KeepsClosing line.now from kept }
    ensures least { result ≡ closing line.now from }
    ensures cut { result ≢ length line.now → IsCut line.now result }
{
    if kept < from {
        find_closing(line, from)
    } else {
        kept
    }
}

/// Appends the tokens of one line, in order.
///
/// The time is linear in the length of the line: the end of a word, and the fact that there is
/// none, are kept until the search is past it.
pub(crate) fn push_line<'a, K: KnownCharsets>(
    alloc: Global,
    unfolded: &mut UnfoldedValue<'a>,
    line: &'a str,
    known: &K,
) -> Result<(), AllocError>
    ensures { OnOk result
        (Shows unfolded.old (line_tokens (K.known known.now) line.now) unfolded.new) }
{
    let mut start = 0;
    let mut close = 0;
    while let Some(open) = find_opening(line, start) {
        let inside = open + 2;
        if !ends_with_boundary(&line[..open]) {
            unfolded.push(HeaderToken::Text(&line[start..inside]))?;
            start = inside;
            continue;
        }
        unfolded.push(outside_token(&line[start..open]))?;
        close = find_closing_or_keep(line, inside, close);
        if close == line.len() {
            unfolded.push(HeaderToken::Text(&line[open..inside]))?;
            start = inside;
            continue;
        }
        match decode_word(alloc, &line[inside..close], known)? {
            Some(decoded) => unfolded.push(HeaderToken::DecodedWord(decoded))?,
            None => unfolded.push(HeaderToken::Text(&line[open..close + 2]))?,
        }
        start = close + 2;
    }
    unfolded.push(outside_token(&line[start..]))
}
