//! Splits a text with parameters into segments, and reads quoted texts (RFC 2045, section 5.1).
ghost use Rattle.std.specs.Prelude.{◌≡◌, ◌==◌, ◌||◌, ◌∷◌, ◌<◌, ◌≤◌, false, true, length, take, drop, IfOk, IfSome, MatchOption};
ghost use Rattle.std.specs.Str.{chars, encode_utf8_all};
ghost use Rattle.std.specs.String.{string_bytes};
ghost use Rattle.mail_codec.specs.Ascii.{backslash, quote};
ghost use Rattle.mail_codec.specs.Places.{begins, first_place};
ghost use Rattle.mailparse.specs.Segments.{after, ends, inside_quotes, is_quoted, segments, segments_from, segments_of_rest, unescape, with_front, without_escapes};
ghost use Rattle.mailparse.specs.private.Segments.{plain_len, quote_state};

use mail_codec::bytescan::{find_byte, find_either};
use std::alloc::{AllocError, Global};

/// The state of a byte in a text with quoted runs.
#[derive(Clone, Copy)]
enum QuoteState {
    /// Outside of all quoted runs.
    Outside,
    /// Within a quoted run.
    Quoted,
    /// Within a quoted run, directly after a backslash that escapes it.
    Escaped,
}

impl QuoteState {
    /// The state of the byte after this one.
    fn after(self, byte: u8) -> QuoteState
        ensures { quote_state result ≡ after (quote_state self) byte }
    {
        match self {
            QuoteState::Outside => {
                if byte == b'"' {
                    QuoteState::Quoted
                } else {
                    QuoteState::Outside
                }
            }
            QuoteState::Quoted => {
                if byte == b'"' {
                    QuoteState::Outside
                } else if byte == b'\\' {
                    QuoteState::Escaped
                } else {
                    QuoteState::Quoted
                }
            }
            QuoteState::Escaped => QuoteState::Quoted,
        }
    }

    /// Whether this byte ends a segment.
    fn ends(self, byte: u8) -> bool
        ensures { result ≡ ends (quote_state self) byte }
    {
        match self {
            QuoteState::Outside => byte == b';',
            QuoteState::Quoted | QuoteState::Escaped => false,
        }
    }

    /// Returns the number of bytes from this one on that neither end a segment nor change the
    /// state; only those of a quoted run are counted.
    fn kept_len(self, bytes: &[u8]) -> usize
        ensures kept { segments_from (quote_state self) bytes.now ≡ with_front
            (take result bytes.now) (segments_from (quote_state self) (drop result bytes.now)) }
        ensures bounds { result ≤ length bytes.now }
    {
        match self {
            QuoteState::Quoted => run_len(bytes),
            QuoteState::Outside | QuoteState::Escaped => 0,
        }
    }
}

/// Returns the number of leading bytes that are neither a quote nor a semicolon.
#[tactic(auto, using(crate::proofs::lemmas::Places::searches))]
fn plain_len(bytes: &[u8]) -> usize
    ensures plain { result ≡ plain_len bytes.now }
    ensures bounds { result ≤ length bytes.now }
{
    match find_either(bytes, b';', b'"') {
        Some(offset) => offset,
        None => bytes.len(),
    }
}

/// Returns the number of leading bytes that are neither a quote nor a backslash.
#[tactic(auto, using(crate::proofs::lemmas::Places::searches))]
fn run_len(bytes: &[u8]) -> usize
    ensures least { result ≡ first_place (begins (λ b. b == quote || b == backslash)) bytes.now }
    ensures bounds { result ≤ length bytes.now }
{
    match find_either(bytes, b'"', b'\\') {
        Some(offset) => offset,
        None => bytes.len(),
    }
}

/// Returns the first segment of a text with parameters, and the text after its semicolon, or `None`
/// if it is the last (RFC 2045, section 5.1).
///
/// A segment ends at the first `;` outside quotes. In quotes a backslash escapes the next byte, and
/// quotes that do not end go up to the end of the text. `mailparse` reads a value in the first
/// segment of a text, and a parameter in each of the others. It does not allocate.
///
/// # Examples
///
/// ```rust
/// use mailparse::cut_segment;
///
/// let (first, rest) = cut_segment("a; b=\";\"; c");
/// assert_eq!(rt; first, "a");
/// let (second, rest) = cut_segment(rest.ok_or("no rest")?);
/// assert_eq!(rt; second, " b=\";\"");
/// assert!(rt; rest.is_some());
/// ```
#[tactic(auto, using(crate::proofs::lemmas::Segments::segment_cuts))]
pub fn cut_segment(text: &str) -> (&str, Option<&str>)
    ensures cut { segments text.now ≡ result.0.now ∷ segments_of_rest result.1 }
    ensures shorter { IfSome result.1 (λ rest. length rest.now < length text.now) }
{
    let bytes = text.as_bytes();
    let mut state = QuoteState::Outside;
    let mut at = plain_len(bytes);
    while at < bytes.len() {
        if state.ends(bytes[at]) {
            return (&text[..at], Some(&text[at + 1..]));
        }
        state = state.after(bytes[at]);
        at += 1 + state.kept_len(&bytes[at + 1..]);
    }
    (text, None)
}

/// Returns the text between the quotes, or `None` if the text does not begin and end with one.
fn inside_quotes(text: &str) -> Option<&str>
    ensures { MatchOption result (is_quoted text.now ≡ false)
        (λ inside. (is_quoted text.now ≡ true) × (inside.now ≡ inside_quotes text.now)) }
{
    let bytes = text.as_bytes();
    if bytes.len() < 2 || bytes[0] != b'"' || bytes[bytes.len() - 1] != b'"' {
        return None;
    }
    Some(&text[1..text.len() - 1])
}

/// Returns the contents of a quoted text, without the backslashes that escape; any other text is
/// returned as it is.
#[tactic(auto, unfolding(crate::specs::Segments::unescape))]
pub(super) fn unescape(alloc: Global, text: &str) -> Result<String, AllocError>
    ensures { IfOk result (λ plain. string_bytes plain ≡ unescape text.now) }
{
    match inside_quotes(text) {
        Some(inside) => without_escapes(alloc, inside),
        None => String::from_str(alloc, text),
    }
}

/// Returns a text without the backslashes that are not escaped themselves.
#[tactic(auto, using(crate::proofs::lemmas::SegmentsQuoted::unescapes))]
fn without_escapes(alloc: Global, text: &str) -> Result<String, AllocError>
    ensures { IfOk result (λ plain.
        string_bytes plain ≡ encode_utf8_all (without_escapes 0 (chars text.now))) }
{
    if find_byte(text.as_bytes(), b'\\').is_none() {
        return String::from_str(alloc, text);
    }
    let mut plain = String::with_capacity(alloc, text.len())?;
    let mut is_escaped = false;
    for c in text.chars() {
        if c == '\\' && !is_escaped {
            is_escaped = true;
            continue;
        }
        is_escaped = false;
        plain.push(c)?;
    }
    Ok(plain)
}
