//! The text of a header's value: its lines are unfolded (RFC 5322, section 2.2.3) and its encoded
//! words decoded (RFC 2047, sections 2 and 4).
ghost use Rattle.std.specs.Prelude.{◌≡◌, ◌==◌, ◌-◌, ◌<◌, ◌∷◌, None, length, map, slice_index, IfOk, IfSome, IsOk, IsSome, IsTrue, MatchOption};
ghost use Rattle.std.specs.Cow.{cow_str_bytes, IsBorrowedStr};
ghost use Rattle.std.specs.List.{join_with_byte};
ghost use Rattle.std.specs.Str.{IsUtf8, trim_start};
ghost use Rattle.std.specs.Str.Lines.{lines, strip_carriage_return};
ghost use Rattle.std.specs.String.{string_bytes};
ghost use Rattle.mail_codec.specs.Ascii.{carriage_return, line_feed, space};
ghost use Rattle.mail_codec.specs.Charset.{Charsets};
ghost use Rattle.mail_codec.specs.Places.{byte_place};
ghost use Rattle.mailparse.specs.Value.{IsPlain, unfolded_value};

use super::plain::is_bare;
use super::tokens::push_line;
use super::unfolded::{HeaderToken, UnfoldedValue};
use mail_codec::bytescan::{find, find_byte};
use mail_codec::charset::KnownCharsets;
use std::alloc::{AllocError, Global};
use std::borrow::CowStr;

/// Returns the text of a value that is one line without `=?`, whatever charsets are known: the line
/// without its leading whitespace. One search is enough for a bare value.
#[inline(always)]
#[tactic(auto, using(crate::proofs::lemmas::ValueBare::plain_lines))]
fn plain_line(text: &str) -> Option<&str>
    ensures value { IfSome result (λ line. (known : Charsets) →
        line.now ≡ unfolded_value known text.now) }
    ensures same { IfSome result (λ line.
        length line.now ≡ length text.now → line.now ≡ text.now) }
    ensures plain { IsPlain text.now → IsSome result }
{
    if is_bare(text.as_bytes()) {
        return Some(text);
    }
    if find_byte(text.as_bytes(), b'\n').is_some() {
        return None;
    }
    let line = text.trim_start();
    match find(line.as_bytes(), b"=?") {
        Some(_) => None,
        None => Some(line),
    }
}

/// Returns the text of a value, borrowed if it is a part of `text`.
pub(crate) fn value_ref<'v, K: KnownCharsets>(
    alloc: Global,
    text: &'v str,
    known: &K,
) -> Result<CowStr<'v>, AllocError>
    ensures read { IfOk result (λ value.
        cow_str_bytes value ≡ unfolded_value (K.known known.now) text.now) }
    ensures borrowed { IsPlain text.now → IfOk result (λ value. IsBorrowedStr value) }
    ensures no_alloc { IsPlain text.now → IsOk result }
{
    match plain_line(text) {
        Some(line) => Ok(CowStr::Borrowed(line)),
        None => Ok(CowStr::Owned(owned_value(alloc, text, known)?)),
    }
}

/// Returns the text of a value: `text` itself if nothing in it changes.
pub(crate) fn value_of<K: KnownCharsets>(
    alloc: Global,
    text: String,
    known: &K,
) -> Result<String, AllocError>
    ensures { IfOk result (λ value.
        string_bytes value ≡ unfolded_value (K.known known.now) (string_bytes text)) }
{
    let Some(line) = plain_line(text.as_str()) else {
        return owned_value(alloc, text.as_str(), known);
    };
    if line.len() == text.len() {
        return Ok(text);
    }
    String::from_str(alloc, line)
}

/// Returns the text of a value. Lines without `=?` are joined; any other value is read token by
/// token.
#[tactic(auto, using(crate::proofs::lemmas::ValuePlain::joined_values))]
fn owned_value<K: KnownCharsets>(alloc: Global, text: &str, known: &K) -> Result<String, AllocError>
    ensures { IfOk result (λ value.
        string_bytes value ≡ unfolded_value (K.known known.now) text.now) }
{
    if find_byte(text.as_bytes(), b'\n').is_some() {
        let joined = joined_lines(alloc, text)?;
        if find(joined.as_bytes(), b"=?").is_none() {
            return Ok(joined);
        }
    }
    unfolded_value(alloc, text, known)
}

/// Returns the lines of a text without their leading whitespace, joined by spaces.
#[tactic(auto, using(crate::proofs::lemmas::ValueJoined::joins))]
fn joined_lines(alloc: Global, text: &str) -> Result<String, AllocError>
    ensures { IfOk result (λ joined.
        string_bytes joined ≡ join_with_byte space (map trim_start (lines text.now))) }
{
    let mut joined = String::with_capacity(alloc, text.len())?;
    let mut left = text;
    'lines: while let Some((line, rest)) = cut_line(left) {
        joined.push_str(line.trim_start())?;
        if rest.is_empty() {
            return Ok(joined);
        }
        joined.push(' ')?;
        left = rest;
    }
    joined.push_str(left.trim_start())?;
    Ok(joined)
}

/// Returns the first line of a text without its line end, and the text after it, or `None` if no LF
/// ends it.
#[tactic(auto, using(crate::proofs::lemmas::ValueJoined::line_cuts))]
fn cut_line(text: &str) -> Option<(&str, &str)>
    ensures cut { MatchOption result (None ≡ byte_place text.now line_feed)
        (λ cut. lines text.now ≡ cut.0.now ∷ lines cut.1.now) }
    ensures shorter { IfSome result (λ cut. length cut.1.now < length text.now) }
    ensures utf8 { IfSome result (λ cut. IsUtf8 cut.1.now) }
{
    let place = find_byte(text.as_bytes(), b'\n')?;
    let rest = &text[place + 1..];
    Some((without_return(&text[..place]), rest))
}

/// Returns a line without the CR at its end, if it has one.
fn without_return(line: &str) -> &str
    ensures { result.now ≡ strip_carriage_return line.now }
{
    if ends_in_return(line.as_bytes()) {
        return &line[..line.len() - 1];
    }
    line
}

/// Returns whether the last byte is a CR.
fn ends_in_return(line: &[u8]) -> bool
    ensures value { result ≡ (slice_index line.now (length line.now - 1) == carriage_return) }
    ensures some { IsTrue result → 0 < length line.now }
{
    matches!(line.last(), Some(b'\r'))
}

/// Returns the text of a value, read token by token.
fn unfolded_value<K: KnownCharsets>(
    alloc: Global,
    text: &str,
    known: &K,
) -> Result<String, AllocError>
    ensures { IfOk result (λ value.
        string_bytes value ≡ unfolded_value (K.known known.now) text.now) }
{
    let mut unfolded = UnfoldedValue::with_capacity(alloc, text.len())?;
    let mut is_first = true;
    for line in text.lines() {
        if is_first {
            is_first = false;
        } else {
            unfolded.push(HeaderToken::Newline)?;
        }
        push_line(alloc, &mut unfolded, line.trim_start(), known)?;
    }
    Ok(unfolded.into_text())
}
