//! The manner in which mail is read leniently.
ghost use Rattle.std.specs.Prelude.{◌≡◌, ◌&&◌, IfOk, Ok, not, string_bytes, true};
ghost use Rattle.std.specs.Str.{bytes_eq, trim};
ghost use Rattle.mail_codec.specs.Places.{is_empty};
ghost use Rattle.mailparse.specs.Outcome.{AnswersOrMemory};
ghost use Rattle.mailparse.specs.Pairs.{HasTexts, text_at};
ghost use Rattle.mailparse.specs.Views.{content_type, in_digest};
ghost use Rattle.mail_read.specs.lenient.Manner.{has_broken_boundary, lenient, lenient_name};
ghost use Rattle.mail_read.specs.lenient.Manner.{lenient_type_from, lenient_type_in, lenient_type_of};
ghost use Rattle.mail_read.specs.lenient.Manner.{made_lenient, name_of_one, name_of_two};
ghost use Rattle.mail_read.specs.lenient.Manner.{with_whole_boundary, without_boundary};

use super::comments::without_comments;
use super::guess::OrGuess;
use super::repairs::repaired;
use super::undecoded::{undecoded, undecoded_ref};
use super::usual::usual_type;
use mail_codec::bytescan::find_either;
use mail_codec::charset::KnownCharsets;
use mailparse::{
    DefaultType, MailHeader, MailHeaderMap, MailParseError, ParsedContentType, ReadingManner,
    parse_content_type_in,
};
use std::alloc::{AllocError, Global};
use std::collections::BTreeMap;

/// The name of plain text.
const PLAIN_NAME: &str = "text/plain";

/// The manner of a lenient reader, under these charsets, for `mailparse::parse_mail_as`.
///
/// Comments in a `Content-Type` are left out, encoded words in it are not decoded (RFC 2047, section
/// 5), and a type without a readable name is plain text (RFC 2045, sections 5.1 and 5.2). Missing
/// semicolons, closing quotes and apostrophes of extended values are put in, whose charset may be
/// missing or unknown (RFC 2231, section 4). A boundary that contains a line end does not count, and
/// a delimiter is a whole line (RFC 2046, section 5.1.1). Headers also end before a line that begins
/// with `--` and has no colon, and blanks before the colon of a header are in no key, as
/// `mailparse::parse_lenient_headers` says (RFC 5322, section 4.5); the body of a multipart without
/// a delimiter is all that follows its headers. No mail is refused: a message that
/// `parse_mail` would refuse is kept as plain text without headers, and `refusal` returns why.
///
/// # Examples
///
/// ```rust
/// use mail_read::lenient::Lenient;
/// use mailparse::parse_mail_as;
///
/// let raw = b"Content-Type: multipart/mixed; boundary=b (x)\n\n\
///     --b\n\none\n--bX\n\
///     --b\n two\n--b--\n";
/// let mail = parse_mail_as(alloc, raw, 100, &Lenient(&()))?;
/// assert_eq!(rt; mail.subparts.len(), 2);
/// assert_eq!(rt; mail.subparts[0].get_body(alloc)?.as_str(), "one\n--bX");
/// assert_eq!(rt; mail.subparts[1].get_body(alloc)?.as_str(), " two");
/// ```
#[derive(Debug, Drop)]
pub struct Lenient<'k, K>(pub &'k K);

impl<'k, K: KnownCharsets> ReadingManner for Lenient<'k, K> {
    ghost manner = { λ s. lenient (K.known s.0.now) };

    // It is not inlined, so that the frame of the reader of a message, which calls itself for each
    // level, stays small.
    #[inline(never)]
    fn content_type(
        &self,
        alloc: Global,
        headers: &Vec<MailHeader<'_>>,
        default: DefaultType,
    ) -> Result<ParsedContentType, AllocError> {
        type_of(alloc, headers, default, self.0)
    }

    fn keeps_refused(&self) -> bool {
        true
    }

    fn has_whole_lines(&self) -> bool {
        true
    }

    fn has_lenient_headers(&self) -> bool {
        true
    }
}

/// Returns the type of a message with these headers.
#[tactic(auto, unfolding(crate::specs::lenient::Manner::lenient_type_of))]
fn type_of<K: KnownCharsets>(
    alloc: Global,
    headers: &Vec<MailHeader<'_>>,
    default: DefaultType,
    known: &K,
) -> Result<ParsedContentType, AllocError>
    ensures { IfOk result (λ ctype. content_type ctype
        ≡ lenient_type_of (K.known known.now) (in_digest default) headers.now.items) }
{
    let Some(header) = headers.get_first_header("Content-Type") else {
        return default.content_type(alloc);
    };
    match undecoded_ref(alloc, header) {
        Ok(value) => type_in(alloc, value.as_str(), known),
        Err(_) => Err(AllocError),
    }
}

/// Returns the type in the raw value of a `Content-Type` (RFC 2045, section 5.1), as `Lenient` reads
/// it: without comments, with what its parameters lack, and with a name that can be read. Encoded
/// words in it stay as they are.
///
/// Allocates the type, and copies of the value.
///
/// # Errors
///
/// `MailParseError::Memory` if it runs out of memory.
///
/// # Examples
///
/// ```rust
/// use mail_read::lenient::lenient_type;
///
/// let ctype = lenient_type(alloc, b"text/html (x) charset=\"koi8-r", &())?;
/// assert_eq!(rt; ctype.mimetype.as_str(), "text/html");
/// assert_eq!(rt; ctype.charset.as_str(), "koi8-r");
/// ```
pub fn lenient_type<K: KnownCharsets>(
    alloc: Global,
    value: &[u8],
    known: &K,
) -> Result<ParsedContentType, MailParseError>
    ensures { AnswersOrMemory content_type result
        (Ok (lenient_type_from (K.known known.now) value.now)) }
{
    let text = undecoded(alloc, value)?;
    Ok(type_in(alloc, text.as_str(), known)?)
}

/// Returns the type in the text of a value.
#[tactic(auto, unfolding(crate::specs::lenient::Manner::lenient_type_in))]
fn type_in<K: KnownCharsets>(
    alloc: Global,
    text: &str,
    known: &K,
) -> Result<ParsedContentType, AllocError>
    ensures { IfOk result (λ ctype. content_type ctype
        ≡ lenient_type_in (K.known known.now) text.now) }
{
    let plain = without_comments(alloc, text)?;
    if let Some(ctype) = usual_type(alloc, plain.as_str())? {
        return made_lenient(alloc, ctype);
    }
    let whole = repaired(alloc, plain.as_str())?;
    match parse_content_type_in(alloc, whole.as_str(), &OrGuess(known)) {
        Ok(ctype) => made_lenient(alloc, ctype),
        Err(_) => Err(AllocError),
    }
}

/// Reads a type leniently: its name, and a boundary that contains a line end.
#[tactic(auto, unfolding(crate::specs::lenient::Manner::made_lenient))]
fn made_lenient(alloc: Global, ctype: ParsedContentType) -> Result<ParsedContentType, AllocError>
    ensures { IfOk result (λ made. content_type made ≡ made_lenient (content_type ctype)) }
{
    let ParsedContentType {
        mimetype,
        charset,
        params,
    } = ctype;
    let mimetype = lenient_name(alloc, mimetype)?;
    Ok(ParsedContentType {
        mimetype,
        charset,
        params: with_whole_boundary(params),
    })
}

/// Returns parameters without a boundary that contains a line end.
#[tactic(auto, unfolding(crate::specs::lenient::Manner::with_whole_boundary))]
fn with_whole_boundary(params: BTreeMap<String, String>) -> BTreeMap<String, String>
    ensures { HasTexts result (with_whole_boundary (text_at params)) }
{
    if !has_broken_boundary(&params) {
        return params;
    }
    without_boundary(params)
}

/// Returns parameters without the boundary.
fn without_boundary(params: BTreeMap<String, String>) -> BTreeMap<String, String>
    ensures { HasTexts result (without_boundary (text_at params)) }
{
    let mut params = params;
    params.remove("boundary");
    params
}

/// Returns whether there is a boundary that contains a line end.
fn has_broken_boundary(params: &BTreeMap<String, String>) -> bool
    ensures { result ≡ has_broken_boundary (text_at params.now) }
{
    match params.get("boundary") {
        Some(boundary) => find_either(boundary.as_bytes(), b'\r', b'\n').is_some(),
        None => false,
    }
}

/// Returns the name of a type, read leniently: itself if it is a type and a subtype.
fn lenient_name(alloc: Global, name: String) -> Result<String, AllocError>
    ensures { IfOk result (λ made. string_bytes made ≡ lenient_name (string_bytes name)) }
{
    if has_two_parts(name.as_str()) {
        return Ok(name);
    }
    made_name(alloc, name.as_str())
}

/// Returns whether a name is a type and a subtype without whitespace around the first slash.
fn has_two_parts(name: &str) -> bool
    ensures { result ≡ true → lenient_name name.now ≡ name.now }
{
    match name.split_once('/') {
        Some((main, sub)) => is_trimmed(main) && is_trimmed(sub),
        None => false,
    }
}

/// Returns whether a text is not empty and clearly has no whitespace around it: it begins and ends
/// with a visible ASCII character.
fn is_trimmed(text: &str) -> bool
    ensures { result ≡ true →
        (not (is_empty text.now) && bytes_eq (trim text.now) text.now) ≡ true }
{
    let bytes = text.as_bytes();
    if bytes.is_empty() {
        return false;
    }
    bytes[0].is_ascii_graphic() && bytes[bytes.len() - 1].is_ascii_graphic()
}

/// Returns the name of a type, read leniently.
#[tactic(auto, unfolding(crate::specs::lenient::Manner::lenient_name))]
fn made_name(alloc: Global, name: &str) -> Result<String, AllocError>
    ensures { IfOk result (λ made. string_bytes made ≡ lenient_name name.now) }
{
    match name.split_once('/') {
        Some((main, sub)) => name_of_two(alloc, main.trim(), sub.trim()),
        None => name_of_one(alloc, name),
    }
}

/// Returns the name of a type without a slash.
fn name_of_one(alloc: Global, name: &str) -> Result<String, AllocError>
    ensures { IfOk result (λ made. string_bytes made ≡ name_of_one name.now) }
{
    if name.starts_with("multipart") {
        return String::from_str(alloc, name);
    }
    String::from_str(alloc, PLAIN_NAME)
}

/// Returns a type and a subtype as one name.
fn name_of_two(alloc: Global, main: &str, sub: &str) -> Result<String, AllocError>
    ensures { IfOk result (λ made. string_bytes made ≡ name_of_two main.now sub.now) }
{
    if main.is_empty() || sub.is_empty() {
        return String::from_str(alloc, PLAIN_NAME);
    }
    let mut made = String::from_str(alloc, main)?;
    made.push('/')?;
    made.push_str(sub)?;
    Ok(made)
}
