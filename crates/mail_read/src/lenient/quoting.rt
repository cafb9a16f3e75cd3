//! Values without quotes that begin or end with whitespace beyond ASCII (RFC 2045, section 5.1).
ghost use Rattle.std.specs.Prelude.{◌≡◌, ◌==◌, ◌++◌, encode_utf8_all, IfOk, OnOk, string_bytes};
ghost use Rattle.std.specs.Cow.{cow_str_bytes};
ghost use Rattle.std.specs.List.{list_any};
ghost use Rattle.mail_codec.specs.Ascii.{quote};
ghost use Rattle.mailparse.specs.Segments.{segments, segments_of_rest};
ghost use Rattle.mail_read.specs.lenient.Quoting.{escaped, in_quotes, is_escaped, joined, quoted_pair, quoted_segment};
ghost use Rattle.mail_read.specs.lenient.Quoting.{quoted_value, trim_ascii, with_quotes};

use mail_codec::bytescan::find_byte;
use mailparse::cut_segment;
use std::alloc::{AllocError, Global};
use std::borrow::CowStr;

/// Returns a text with parameters in which each value is in quotes that begins or ends with
/// whitespace beyond ASCII, such as a no-break space, which would be trimmed otherwise. It is
/// borrowed if it is ASCII.
#[tactic(auto, using(crate::proofs::lemmas::lenient::Quoting::quotes_ascii, crate::proofs::lemmas::lenient::Quoting::quotes_other))]
pub(super) fn with_quotes(alloc: Global, text: &str) -> Result<CowStr<'_>, AllocError>
    ensures { IfOk result (λ made. cow_str_bytes made ≡ with_quotes text.now) }
{
    if text.is_ascii() {
        return Ok(CowStr::Borrowed(text));
    }
    Ok(CowStr::Owned(joined(alloc, text)?))
}

/// Returns the same of a text that is owned.
#[tactic(auto, using(crate::proofs::lemmas::lenient::Quoting::quotes_ascii, crate::proofs::lemmas::lenient::Quoting::quotes_other))]
pub(super) fn into_quotes(alloc: Global, text: String) -> Result<String, AllocError>
    ensures { IfOk result (λ made. string_bytes made ≡ with_quotes (string_bytes text)) }
{
    if text.as_str().is_ascii() {
        return Ok(text);
    }
    joined(alloc, text.as_str())
}

/// Returns the segments of a text, with such values in quotes.
fn joined(alloc: Global, text: &str) -> Result<String, AllocError>
    ensures { IfOk result (λ made. string_bytes made ≡ joined (segments text.now)) }
{
    let (first, rest) = cut_segment(text);
    let mut made = String::from_str(alloc, first)?;
    let mut left = rest;
    while let Some(more) = left {
        let (segment, others) = cut_segment(more);
        made.push(';')?;
        push_segment(alloc, &mut made, segment)?;
        left = others;
    }
    Ok(made)
}

/// Appends a segment, whose value is the text after its first `=`.
fn push_segment(alloc: Global, made: &mut String, segment: &str) -> Result<(), AllocError>
    ensures { OnOk result (string_bytes made.new
        ≡ string_bytes made.old ++ quoted_segment segment.now) }
{
    match segment.split_once('=') {
        Some((name, value)) => push_pair(alloc, made, name, value),
        None => made.push_str(segment),
    }
}

/// Appends a name and its value.
fn push_pair(alloc: Global, made: &mut String, name: &str, value: &str) -> Result<(), AllocError>
    ensures { OnOk result (string_bytes made.new
        ≡ string_bytes made.old ++ quoted_pair name.now value.now) }
{
    made.push_str(name)?;
    made.push('=')?;
    if has_quote(name) {
        return made.push_str(value);
    }
    push_value(alloc, made, value)
}

/// Returns whether a name contains a quote.
#[tactic(auto, using(crate::proofs::lemmas::FileTexts::quote_found))]
fn has_quote(name: &str) -> bool
    ensures { result ≡ list_any (λ b. b == quote) name.now }
{
    find_byte(name.as_bytes(), b'"').is_some()
}

/// Appends a value.
fn push_value(alloc: Global, made: &mut String, value: &str) -> Result<(), AllocError>
    ensures { OnOk result (string_bytes made.new
        ≡ string_bytes made.old ++ quoted_value value.now) }
{
    let within = trim_ascii(value);
    if within == value.trim() {
        return made.push_str(value);
    }
    let quoted = in_quotes(alloc, within)?;
    made.push_str(quoted.as_str())
}

/// Returns a text without the whitespace of ASCII around it.
fn trim_ascii(text: &str) -> &str
    ensures { result.now ≡ trim_ascii text.now }
{
    text.trim_ascii()
}

/// Returns a text in quotes.
fn in_quotes(alloc: Global, text: &str) -> Result<String, AllocError>
    ensures { IfOk result (λ made. string_bytes made ≡ in_quotes text.now) }
{
    let mut made = String::new(alloc);
    made.push('"')?;
    for c in text.chars() {
        push_escaped(&mut made, c)?;
    }
    made.push('"')?;
    Ok(made)
}

/// Appends a character in quotes.
fn push_escaped(made: &mut String, c: char) -> Result<(), AllocError>
    ensures { OnOk result (string_bytes made.new
        ≡ string_bytes made.old ++ encode_utf8_all (escaped c)) }
{
    if !is_escaped(c) {
        return made.push(c);
    }
    made.push('\\')?;
    made.push(c)
}

/// Returns whether a backslash is before a character in quotes.
fn is_escaped(c: char) -> bool
    ensures { result ≡ is_escaped c }
{
    c == '"' || c == '\\'
}
