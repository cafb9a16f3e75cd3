//! Types and dispositions in the usual form, which lack nothing (RFC 2045, section 5.1; RFC 2183,
//! section 2).
ghost use Rattle.std.specs.Prelude.{◌≡◌, ◌==◌, ◌≤◌, ◌∷◌, ◌⊎◌, true, not, chars, drop, length, IfOk, IfSome, string_bytes};
ghost use Rattle.std.specs.Str.{IsAscii, str_to_ascii_lowercase};
ghost use Rattle.mail_codec.specs.Charset.{Charsets};
ghost use Rattle.mail_codec.specs.Ascii.{space};
ghost use Rattle.mail_codec.specs.Places.{begins, place_from};
ghost use Rattle.mailparse.specs.ContentType.{content_type_in, type_with};
ghost use Rattle.mailparse.specs.Pairs.{text_at};
ghost use Rattle.mailparse.specs.Views.{content_type};
ghost use Rattle.mail_read.specs.lenient.Repairs.{lacks_nothing, repaired};
ghost use Rattle.mail_read.specs.private.Usual.{Holds, IsParameter, IsText, IsValue};
ghost use Rattle.mail_read.specs.private.Usual.{ends_run, ends_value};
ghost use Rattle.mail_read.specs.declared.lenient.repairs.Position.TheVariants.{BeforeWord, InName};

use mail_codec::bytescan::find_either;
use mailparse::ParsedContentType;
use std::alloc::{AllocError, Global};
use std::collections::BTreeMap;

/// Returns whether a value is ASCII and in the usual form: a word, or two with a slash between them,
/// and parameters, each of which is a semicolon, at most one space, a name, `=`, and a word or a
/// quoted text.
pub(super) fn is_usual(text: &str) -> bool
    ensures { result ≡ true → text.now ≡ repaired text.now }
{
    if !text.is_ascii() {
        return false;
    }
    let bytes = text.as_bytes();
    ends_usually(bytes, words_end(bytes))
}

/// Returns the type in a value that is ASCII and in the usual form, or `None` if its form is another.
pub(super) fn usual_type(alloc: Global, text: &str) -> Result<Option<ParsedContentType>, AllocError>
    ensures { IfOk result (λ found. IfSome found (λ ctype. (known : Charsets) →
        content_type ctype ≡ content_type_in known (repaired text.now))) }
{
    if !text.is_ascii() {
        return Ok(None);
    }
    let end = words_end(text.as_bytes());
    let Some(params) = usual_parameters(alloc, text, end)? else {
        return Ok(None);
    };
    Ok(Some(type_named(alloc, &text[..end], params)?))
}

/// Returns the type with a name, which is put into lower case, and with these parameters.
fn type_named(
    alloc: Global,
    name: &str,
    params: BTreeMap<String, String>,
) -> Result<ParsedContentType, AllocError>
    ensures { IfOk result (λ ctype. content_type ctype
        ≡ type_with (str_to_ascii_lowercase name.now) (text_at params)) }
{
    let charset = match params.get("charset") {
        Some(label) => String::from_str(alloc, label.as_str())?,
        None => String::from_str(alloc, "us-ascii")?,
    };
    Ok(ParsedContentType {
        mimetype: lower_case(alloc, name)?,
        charset,
        params,
    })
}

/// Returns a text in ASCII lower case.
fn lower_case(alloc: Global, text: &str) -> Result<String, AllocError>
    ensures { IfOk result (λ lower. string_bytes lower ≡ str_to_ascii_lowercase text.now) }
{
    let mut lower = String::from_str(alloc, text)?;
    lower.make_ascii_lowercase();
    Ok(lower)
}

/// Returns the usual parameters that follow at an offset of an ASCII text, or `None` if something
/// else follows.
fn usual_parameters(
    alloc: Global,
    text: &str,
    from: usize,
) -> Result<Option<BTreeMap<String, String>>, AllocError>
    requires ascii { IsAscii text.now }
    requires within { from ≤ length text.now }
    ensures { IfOk result (λ made. IfSome made (λ params.
        Holds text.now from (text_at params))) }
{
    let bytes = text.as_bytes();
    let mut found = BTreeMap::new(alloc);
    let mut at = from;
    'parameters: while at < bytes.len() {
        let Some(next) = parameter_at(bytes, at) else {
            return Ok(None);
        };
        let key = lower_case(alloc, &text[next.name..next.equals])?;
        let value = String::from_str(alloc, &text[next.text.start..next.text.stop])?;
        found.insert(key, value)?;
        at = next.text.end;
    }
    Ok(Some(found))
}

/// Returns the end of the word at the start, or that of a second one if a slash follows the first.
fn words_end(bytes: &[u8]) -> usize
    ensures usual { ends_value (drop result bytes.now) ≡ true →
        lacks_nothing BeforeWord bytes.now ≡ true }
    ensures value { IsValue bytes.now result }
    ensures bounds { result ≤ length bytes.now }
{
    let first = run_end(bytes, 0);
    if !is_at(bytes, first, b'/') {
        return first;
    }
    run_end(bytes, first + 1)
}

/// Returns whether nothing or usual parameters follow at an offset.
fn ends_usually(bytes: &[u8], from: usize) -> bool
    requires { from ≤ length bytes.now }
    ensures { result ≡ true → ends_value (drop from bytes.now) ≡ true }
{
    let mut at = from;
    'parameters: while at < bytes.len() {
        match parameter_at(bytes, at) {
            Some(found) => at = found.text.end,
            None => return false,
        }
    }
    true
}

/// The offsets of a parameter in the usual form.
#[derive(Clone, Copy)]
struct Parameter {
    /// The start of its name.
    name: usize,
    /// The `=` after the name.
    equals: usize,
    /// Its text.
    text: Text,
}

/// The offsets of the text of such a parameter.
#[derive(Clone, Copy)]
struct Text {
    /// Its start, after a quote before it.
    start: usize,
    /// Its end, before a quote after it.
    stop: usize,
    /// The end of the parameter.
    end: usize,
}

/// Returns the usual parameter that follows at an offset, or `None` if none does.
fn parameter_at(bytes: &[u8], at: usize) -> Option<Parameter>
    requires { at ≤ length bytes.now }
    ensures { IfSome result (λ found. IsParameter bytes.now at found) }
{
    if !is_at(bytes, at, b';') {
        return None;
    }
    let name = name_start(bytes, at + 1);
    let equals = run_end(bytes, name);
    if !is_at(bytes, equals, b'=') {
        return None;
    }
    let text = text_at(bytes, equals + 1)?;
    Some(Parameter { name, equals, text })
}

/// Returns the start of a name: an offset, or the one after it if a space is there.
#[inline(always)]
fn name_start(bytes: &[u8], at: usize) -> usize
    requires { at ≤ length bytes.now }
    ensures same { lacks_nothing InName (drop result bytes.now)
        ≡ lacks_nothing InName (drop at bytes.now) }
    ensures bounds { (at ≤ result) × (result ≤ length bytes.now) }
    ensures cut { (drop at bytes.now ≡ drop result bytes.now)
        ⊎ (drop at bytes.now ≡ space ∷ drop result bytes.now) }
{
    if is_at(bytes, at, b' ') { at + 1 } else { at }
}

/// Returns the text of a parameter that begins at an offset, or `None` if it is not usual.
fn text_at(bytes: &[u8], from: usize) -> Option<Text>
    requires { from ≤ length bytes.now }
    ensures { IfSome result (λ found. IsText bytes.now from found) }
{
    if !is_at(bytes, from, b'"') {
        let end = run_end(bytes, from);
        return Some(Text {
            start: from,
            stop: end,
            end,
        });
    }
    let start = from + 1;
    let length = find_either(&bytes[start..], b'"', b'\\')?;
    let stop = start + length;
    if bytes[stop] != b'"' {
        return None;
    }
    Some(Text {
        start,
        stop,
        end: stop + 1,
    })
}

/// Returns the end of the word that begins at an offset, which may be empty.
#[inline(always)]
fn run_end(bytes: &[u8], from: usize) -> usize
    requires { from ≤ length bytes.now }
    ensures end { result ≡ place_from (begins ends_run) bytes.now from }
    ensures bounds { result ≤ length bytes.now }
{
    let mut at = from;
    while is_in_run(bytes, at) {
        at += 1;
    }
    at
}

/// Returns whether a byte of a word is at an offset: none before `-` or after `~` in ASCII, and no
/// `/`, `;`, `=` and backslash.
#[inline(always)]
fn is_in_run(bytes: &[u8], at: usize) -> bool
    ensures { result ≡ begins (λ b. not (ends_run b)) (drop at bytes.now) }
{
    match bytes.get(at) {
        Some(byte) => matches!(*byte, b'-'..=b'~') && !matches!(*byte, b'/' | b';' | b'=' | b'\\'),
        None => false,
    }
}

/// Returns whether this byte is at an offset.
#[inline(always)]
fn is_at(bytes: &[u8], at: usize, byte: u8) -> bool
    ensures { result ≡ begins (λ b. b == byte) (drop at bytes.now) }
{
    match bytes.get(at) {
        Some(found) => *found == byte,
        None => false,
    }
}
