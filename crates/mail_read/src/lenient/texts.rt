//! Texts with a wrong label, and damaged texts.
ghost use Rattle.std.specs.Prelude.{◌≡◌, is_some, Ok};
ghost use Rattle.std.specs.Str.{is_utf8};
ghost use Rattle.mailparse.specs.Mail.{root};
ghost use Rattle.mailparse.specs.Outcome.{AnswersOrMemory, GivesText};
ghost use Rattle.mailparse.specs.Views.{content_type, tree_of};
ghost use Rattle.mail_read.specs.lenient.Texts.{body_text, charset_by_bytes, charset_name};
ghost use Rattle.mail_read.specs.lenient.Texts.{charset_used, is_default, lenient_text, names_none};
ghost use Rattle.mail_read.specs.lenient.TextViews.{text_view};

use super::content::lenient_content;
use super::encoding::lenient_body;
use mail_codec::charset::{Charset, Decode, KnownCharsets};
use mailparse::{MailParseError, ParsedContentType, ParsedMail};
use std::alloc::Global;

/// The text of a body, as `body_text` returns it.
#[derive(Debug, Drop)]
pub struct BodyText {
    /// The text.
    pub text: String,
    /// The name of the charset in which it was read, such as `utf-8`.
    pub charset: String,
    /// Whether the body is damaged, as `lenient_content` reports it: the text is that of the bytes
    /// that could be read.
    pub is_damaged: bool,
}

/// Returns the text of the body of a part, read leniently: the transfer encoding as `lenient_body`
/// reads it, damaged bytes as `lenient_content` does, and the charset as `lenient_text` does (RFC
/// 2045, sections 5.2 and 6; RFC 2046, section 4.1.2).
///
/// Allocates the bytes, the text and the name of the charset.
///
/// # Errors
///
/// `MailParseError::Memory` if it runs out of memory.
///
/// # Examples
///
/// ```rust
/// use mail_read::lenient::body_text;
/// use mailparse::parse_mail;
///
/// let mail = parse_mail(alloc, b"Content-Transfer-Encoding: base64\n\nY2Fmw6k*")?;
/// let read = body_text(alloc, &mail, &())?;
/// assert_eq!(rt; read.text.as_str(), "café");
/// assert!(rt; read.is_damaged);
/// ```
pub fn body_text<K: KnownCharsets>(
    alloc: Global,
    part: &ParsedMail<'_>,
    known: &K,
) -> Result<BodyText, MailParseError>
    ensures { AnswersOrMemory text_view result
        (Ok (body_text (K.known known.now) (root (tree_of part.now)))) }
{
    let body = lenient_body(alloc, part)?;
    let content = lenient_content(alloc, &body)?;
    let bytes = content.bytes.as_slice();
    let text = lenient_text(alloc, bytes, &part.ctype, known)?;
    let charset = charset_used(bytes, &part.ctype, known);
    Ok(BodyText {
        text,
        charset: String::from_str(alloc, charset)?,
        is_damaged: content.fault.is_some(),
    })
}

/// Returns the text of decoded bytes of this type. If its label of a charset is missing, means
/// ASCII or is unknown, the bytes are read as UTF-8 if they are UTF-8, and otherwise as
/// windows-1252. Under any other label they are read as `get_as_string_in` reads them (RFC 2045,
/// section 5.2; RFC 2046, section 4.1.2).
///
/// The labels of ASCII are `us-ascii`, `ascii` and `ansi_x3.4-1968`, in any case and with
/// whitespace around them. A byte order mark takes precedence over the label.
///
/// Allocates the text.
///
/// # Errors
///
/// `MailParseError::Memory` if it runs out of memory.
///
/// # Examples
///
/// ```rust
/// use mail_read::lenient::lenient_text;
/// use mailparse::parse_content_type;
///
/// let ctype = parse_content_type(alloc, "text/plain; charset=x-unknown")?;
/// let text = lenient_text(alloc, b"caf\xC3\xA9", &ctype, &())?;
/// assert_eq!(rt; text.as_str(), "café");
/// ```
#[tactic(auto, unfolding(crate::specs::lenient::Texts::lenient_text, crate::specs::lenient::Texts::names_none, mailparse::specs::Body::text_under_in))]
pub fn lenient_text<K: KnownCharsets>(
    alloc: Global,
    bytes: &[u8],
    ctype: &ParsedContentType,
    known: &K,
) -> Result<String, MailParseError>
    ensures { GivesText result
        (lenient_text (K.known known.now) (content_type ctype.now).charset bytes.now) }
{
    let label = ctype.charset.as_str();
    if is_default(label) {
        return Ok(charset_by_bytes(bytes).decode(alloc, bytes)?);
    }
    match known.for_label(label.as_bytes()) {
        Some(charset) => Ok(charset.decode(alloc, bytes)?),
        None => Ok(charset_by_bytes(bytes).decode(alloc, bytes)?),
    }
}

/// Returns the name of the charset in which `lenient_text` reads bytes of this type (RFC 2045,
/// section 5.2): that of a byte order mark; otherwise, if the label is missing, means ASCII or is
/// unknown, `utf-8` or `windows-1252`; and otherwise the label, without whitespace around it. Does
/// not allocate.
///
/// # Examples
///
/// ```rust
/// use mail_read::lenient::charset_used;
/// use mailparse::parse_content_type;
///
/// let ctype = parse_content_type(alloc, "text/plain")?;
/// assert_eq!(rt; charset_used(b"caf\xC3\xA9", &ctype, &()), "utf-8");
/// assert_eq!(rt; charset_used(b"caf\xE9", &ctype, &()), "windows-1252");
/// ```
#[tactic(auto, unfolding(crate::specs::lenient::Texts::charset_used))]
pub fn charset_used<'c, K: KnownCharsets>(
    bytes: &[u8],
    ctype: &'c ParsedContentType,
    known: &K,
) -> &'c str
    ensures { result.now
        ≡ charset_used (K.known known.now) (content_type ctype.now).charset bytes.now }
{
    if let Some((charset, _)) = Charset::for_bom(bytes) {
        return charset_name(charset);
    }
    let label = ctype.charset.as_str();
    if names_none(label, known) {
        return charset_name(charset_by_bytes(bytes));
    }
    label.trim()
}

/// Returns the charset of bytes under a label that names none.
#[tactic(auto, unfolding(crate::specs::lenient::Texts::charset_by_bytes))]
pub(super) fn charset_by_bytes(bytes: &[u8]) -> Charset
    ensures { result ≡ charset_by_bytes bytes.now }
{
    if is_utf8(bytes) {
        Charset::Utf8
    } else {
        Charset::Windows1252
    }
}

/// Returns whether a label names no charset: it is missing, means ASCII or is unknown.
#[tactic(auto, unfolding(crate::specs::lenient::Texts::names_none))]
fn names_none<K: KnownCharsets>(label: &str, known: &K) -> bool
    ensures { result ≡ names_none (K.known known.now) label.now }
{
    is_default(label) || !is_known(label, known)
}

/// Returns whether bytes are UTF-8.
fn is_utf8(bytes: &[u8]) -> bool
    ensures { result ≡ is_utf8 bytes.now }
{
    str::from_utf8(bytes).is_ok()
}

/// Returns whether a label is missing, which the port reports as `us-ascii`, or means ASCII.
#[tactic(auto, unfolding(crate::specs::lenient::Texts::is_default))]
fn is_default(label: &str) -> bool
    ensures { result ≡ is_default label.now }
{
    let label = label.trim();
    label.eq_ignore_ascii_case("us-ascii")
        || label.eq_ignore_ascii_case("ascii")
        || label.eq_ignore_ascii_case("ansi_x3.4-1968")
}

/// Returns whether the label of a charset is known.
fn is_known<K: KnownCharsets>(label: &str, known: &K) -> bool
    ensures { result ≡ is_some (K.known known.now label.now) }
{
    known.for_label(label.as_bytes()).is_some()
}

/// Returns the name of a charset.
fn charset_name(charset: Charset) -> &'static str
    ensures { result.now ≡ charset_name charset }
{
    match charset {
        Charset::Utf8 => "utf-8",
        Charset::Windows1252 => "windows-1252",
        Charset::Utf16Le => "utf-16le",
        Charset::Utf16Be => "utf-16be",
    }
}
