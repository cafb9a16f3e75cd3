//! What is read of ranges of a mail: of raw values, of names and of bodies.
ghost use Rattle.std.specs.Prelude.{◌≡◌, Ok, Some, IfOk};
ghost use Rattle.mailparse.specs.BodyViews.{name_of};
ghost use Rattle.mailparse.specs.Outcome.{AnswersOrMemory};
ghost use Rattle.mailparse.specs.Views.{content_type};
ghost use Rattle.mail_read.specs.lenient.Encoding.{lenient_kind_named};
ghost use Rattle.mail_records.specs.Buffer.{bytes_found, output};
ghost use Rattle.mail_records.specs.Ranges.{WritesDecodedOr, body, body_charset, body_text, bounced_id};
ghost use Rattle.mail_records.specs.Ranges.{decoded_view};
ghost use Rattle.mail_records.specs.Ranges.{file_name, kind_numbered, safe_name, type_of};
ghost use Rattle.mail_records.specs.Ranges.{unquoted, value};

use crate::buffer::write_items;
use crate::codes::NO_MEMORY;
use crate::nameless::is_nameless;
use crate::results::{NO_LIMIT, text_in};
use mail_data::bounce::original_message_id;
use mail_data::mailbox::quoted;
use mail_read::files::safe_file_name;
use mail_read::lenient::{
    LenientBody, charset_used, lenient_content, lenient_header_text, lenient_named_file,
    lenient_text, lenient_type,
};
use mail_read::reading::read_mail;
use mailparse::{KnownCharsets, MailParseError, ParsedContentType};
use std::alloc::{AllocError, Global};

/// Returns the text of a header, given its raw value.
///
/// # Errors
///
/// `MailParseError::Memory` if it runs out of memory.
///
/// # Examples
///
/// ```rust
/// use mail_records::ranges::value;
///
/// let text = value(alloc, b"=?UTF-8?Q?caf=C3=A9?=", &())?;
/// assert_eq!(rt; text.as_deref(), Some("café".as_bytes()));
/// ```
#[tactic(auto, unfolding(crate::specs::Ranges::value))]
pub fn value<K: KnownCharsets>(
    alloc: Global,
    raw: &[u8],
    known: &K,
) -> Result<Option<Vec<u8>>, MailParseError>
    ensures { AnswersOrMemory bytes_found result (value (K.known known.now) raw.now) }
{
    let text = lenient_header_text(alloc, raw, known)?;
    Ok(Some(text.into_bytes()))
}

/// Returns the type in a raw value, read leniently.
pub(crate) fn type_of<K: KnownCharsets>(
    alloc: Global,
    raw: &[u8],
    known: &K,
) -> Result<ParsedContentType, MailParseError>
    ensures { AnswersOrMemory content_type result
        (Ok (type_of (K.known known.now) raw.now)) }
{
    lenient_type(alloc, raw, known)
}

/// Returns the file name in the raw values of a disposition and of a type.
///
/// # Errors
///
/// `MailParseError::Memory` if it runs out of memory.
///
/// # Examples
///
/// ```rust
/// use mail_records::ranges::file_name;
///
/// let name = file_name(alloc, b"attachment; filename=a.txt", b"", &())?;
/// assert_eq!(rt; name.as_deref(), Some(b"a.txt".as_slice()));
/// ```
#[tactic(auto, unfolding(crate::specs::Ranges::file_name))]
pub fn file_name<K: KnownCharsets>(
    alloc: Global,
    disposition: &[u8],
    ctype: &[u8],
    known: &K,
) -> Result<Option<Vec<u8>>, MailParseError>
    ensures { AnswersOrMemory bytes_found result
        (file_name (K.known known.now) disposition.now ctype.now) }
{
    if is_nameless(disposition) && is_nameless(ctype) {
        return Ok(None);
    }
    match lenient_named_file(alloc, disposition, ctype, known)? {
        Some(name) => Ok(Some(name.into_bytes())),
        None => Ok(None),
    }
}

/// Returns a name that is safe in any directory.
///
/// # Errors
///
/// `MailParseError::EncodingError` if the bytes are not UTF-8, and `MailParseError::Memory` if it
/// runs out of memory.
///
/// # Examples
///
/// ```rust
/// use mail_records::ranges::safe_name;
///
/// let name = safe_name(alloc, b"a/b.txt")?;
/// assert_eq!(rt; name.as_deref(), Some(b"a_b.txt".as_slice()));
/// ```
#[tactic(auto, unfolding(crate::specs::Ranges::safe_name))]
pub fn safe_name(alloc: Global, name: &[u8]) -> Result<Option<Vec<u8>>, MailParseError>
    ensures { AnswersOrMemory bytes_found result (safe_name name.now) }
{
    let name = text_in(name)?;
    let safe = safe_file_name(alloc, name)?;
    Ok(Some(safe.into_bytes()))
}

/// Returns a mail of a mailbox in the format mboxrd as it was before it was quoted.
///
/// # Errors
///
/// `MailParseError::Memory` if it runs out of memory.
///
/// # Examples
///
/// ```rust
/// use mail_records::ranges::unquoted;
///
/// let mail = unquoted(alloc, b"A: 1\n\n>From here\n")?;
/// assert_eq!(rt; mail.as_deref(), Some(b"A: 1\n\nFrom here\n".as_slice()));
/// ```
#[tactic(auto, unfolding(crate::specs::Ranges::unquoted))]
pub fn unquoted(alloc: Global, mail: &[u8]) -> Result<Option<Vec<u8>>, MailParseError>
    ensures { AnswersOrMemory bytes_found result (unquoted mail.now) }
{
    let text = quoted::unquoted(alloc, mail)?;
    Ok(Some(text))
}

/// Returns the id of the mail that a delivery report is about.
///
/// # Errors
///
/// The refusal of the mail, and `MailParseError::Memory` if it runs out of memory.
///
/// # Examples
///
/// ```rust
/// use mail_records::ranges::bounced_id;
///
/// assert!(rt; bounced_id(alloc, b"A: 1\n\nHello\n", &())?.is_none());
/// ```
#[tactic(auto, unfolding(crate::specs::Ranges::bounced_id))]
pub fn bounced_id<K: KnownCharsets>(
    alloc: Global,
    raw: &[u8],
    known: &K,
) -> Result<Option<Vec<u8>>, MailParseError>
    ensures { AnswersOrMemory bytes_found result (bounced_id (K.known known.now) raw.now) }
{
    let mail = read_mail(alloc, raw, NO_LIMIT, known)?;
    match original_message_id(alloc, &mail)? {
        Some(id) => Ok(Some(id.into_bytes())),
        None => Ok(None),
    }
}

/// The decoded bytes of a body, or its text, and whether the body is damaged.
#[derive(Drop)]
pub struct Decoded {
    /// The bytes.
    pub bytes: Vec<u8>,
    /// Whether the body is damaged.
    pub is_damaged: bool,
}

/// Returns the decoded bytes of a body in the transfer encoding with this number.
///
/// # Errors
///
/// `MailParseError::Memory` if it runs out of memory.
///
/// # Examples
///
/// ```rust
/// use mail_records::ranges::body;
///
/// let found = body(alloc, b"SGk=\n", 4)?;
/// assert_eq!(rt; found.bytes.as_slice(), b"Hi".as_slice());
/// assert!(rt; !found.is_damaged);
/// ```
pub fn body(alloc: Global, raw: &[u8], encoding: u64) -> Result<Decoded, MailParseError>
    ensures { AnswersOrMemory decoded_view result (Ok (body encoding raw.now)) }
{
    let ctype = ParsedContentType::default(alloc)?;
    let name = encoding_named(alloc, encoding)?;
    let body = LenientBody::new(raw, &ctype, &name);
    let content = lenient_content(alloc, &body)?;
    let is_damaged = content.fault.is_some();
    let bytes = content.bytes.into_owned(alloc)?;
    Ok(Decoded { bytes, is_damaged })
}

/// Returns the text of a body in the transfer encoding with this number, given the raw value of its
/// type.
///
/// # Errors
///
/// `MailParseError::Memory` if it runs out of memory.
///
/// # Examples
///
/// ```rust
/// use mail_records::ranges::body_text;
///
/// let found = body_text(alloc, b"caf=E9\n", b"text/plain; charset=latin1", 3, &())?;
/// assert_eq!(rt; found.bytes.as_slice(), "café\n".as_bytes());
/// ```
pub fn body_text<K: KnownCharsets>(
    alloc: Global,
    raw: &[u8],
    raw_type: &[u8],
    encoding: u64,
    known: &K,
) -> Result<Decoded, MailParseError>
    ensures { AnswersOrMemory decoded_view result
        (Ok (body_text (K.known known.now) encoding raw.now raw_type.now)) }
{
    let ctype = type_of(alloc, raw_type, known)?;
    let name = encoding_named(alloc, encoding)?;
    let body = LenientBody::new(raw, &ctype, &name);
    let content = lenient_content(alloc, &body)?;
    let is_damaged = content.fault.is_some();
    let text = lenient_text(alloc, content.bytes.as_slice(), &ctype, known)?;
    let bytes = text.into_bytes();
    Ok(Decoded { bytes, is_damaged })
}

/// Returns the name of the charset in which `body_text` reads a body.
///
/// # Errors
///
/// `MailParseError::Memory` if it runs out of memory.
///
/// # Examples
///
/// ```rust
/// use mail_records::ranges::body_charset;
///
/// let name = body_charset(alloc, b"Hello\n", b"text/plain; charset=utf-8", 0, &())?;
/// assert_eq!(rt; name.as_deref(), Some(b"utf-8".as_slice()));
/// ```
pub fn body_charset<K: KnownCharsets>(
    alloc: Global,
    raw: &[u8],
    raw_type: &[u8],
    encoding: u64,
    known: &K,
) -> Result<Option<Vec<u8>>, MailParseError>
    ensures { AnswersOrMemory bytes_found result
        (body_charset (K.known known.now) encoding raw.now raw_type.now) }
{
    let ctype = type_of(alloc, raw_type, known)?;
    let name = encoding_named(alloc, encoding)?;
    let body = LenientBody::new(raw, &ctype, &name);
    let content = lenient_content(alloc, &body)?;
    let charset = charset_used(content.bytes.as_slice(), &ctype, known);
    Ok(Some(charset.as_bytes().to_vec(alloc)?))
}

/// Returns the name of the transfer encoding with a number, if bodies are encoded in it.
#[tactic(auto, unfolding(mailparse::specs::Body::kind_named, mail_read::specs::lenient::Encoding::lenient_kind_named))]
fn encoding_named(alloc: Global, number: u64) -> Result<Option<String>, AllocError>
    ensures { IfOk result (λ name.
        lenient_kind_named (name_of name) ≡ kind_numbered number) }
{
    if number == 4 {
        return Ok(Some(String::from_str(alloc, "base64")?));
    }
    if number == 3 {
        return Ok(Some(String::from_str(alloc, "quoted-printable")?));
    }
    if number == 5 {
        return Ok(Some(String::from_str(alloc, "x-uuencode")?));
    }
    Ok(None)
}

/// Writes what was decoded to the front of the buffer, its length to `needed`, and whether the body
/// is damaged to `is_damaged`. Returns the code.
///
/// # Examples
///
/// ```rust
/// use mail_records::codes::DONE;
/// use mail_records::ranges::body;
/// use mail_records::ranges::write_decoded;
///
/// let mut buffer = [0; 2];
/// let (mut needed, mut is_damaged) = (0, 0);
/// let found = body(alloc, b"SGk=\n", 4);
/// assert_eq!(rt; write_decoded(&mut buffer, &mut needed, &mut is_damaged, found), DONE);
/// assert!(rt; buffer == *b"Hi" && is_damaged == 0);
/// ```
pub fn write_decoded(
    buffer: &mut [u8],
    needed: &mut usize,
    is_damaged: &mut u8,
    found: Result<Decoded, MailParseError>,
) -> u32
    ensures { WritesDecodedOr (output buffer.old buffer.new needed.old needed.new)
        is_damaged.old is_damaged.new result found }
{
    match found {
        Ok(found) => {
            *is_damaged = if found.is_damaged { 1 } else { 0 };
            write_items(buffer, needed, found.bytes.as_slice())
        }
        Err(_) => NO_MEMORY,
    }
}
