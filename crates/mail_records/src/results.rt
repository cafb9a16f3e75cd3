//! The calls whose results are bytes, under any charsets.
ghost use Rattle.std.specs.Prelude.{◌≡◌, ◌++◌, IfOk, OnOk, flat_map, map, string_bytes};
ghost use Rattle.std.specs.Cow.{cow_slice_items};
ghost use Rattle.mailparse.specs.Mail.{root};
ghost use Rattle.mailparse.specs.Outcome.{Answers, AnswersOrMemory, IsMemory};
ghost use Rattle.mailparse.specs.Views.{tree_of};
ghost use Rattle.mail_read.specs.lenient.Content.{message_content, whole};
ghost use Rattle.mail_read.specs.lenient.IdViews as ids_seen;
ghost use Rattle.mail_records.specs.Buffer.{bytes_found};
ghost use Rattle.mail_records.specs.Results.{bracketed, content, ids, raw_value};
ghost use Rattle.mail_records.specs.Results.{links_if, readable, text, text_in, text_of_html, value};

use mail_data::readable::readable_text;
use mail_html::{Links, References, html_text};
use mail_read::lenient::{
    IdRule, body_text, find_ids, lenient_body, lenient_content, lenient_header_text,
};
use mail_read::reading::read_mail;
use mailparse::{KnownCharsets, MailHeaderMap, MailParseError, ParsedMail, parse_lenient_headers};
use std::alloc::{AllocError, Global};
use std::borrow::{CowSlice, CowStr};

/// The limit of the calls that have none: no mail has more messages, parts and headers.
pub const NO_LIMIT: usize = usize::MAX;

/// Returns the decoded bytes of the body of a message.
///
/// # Errors
///
/// The refusal of the mail, and `MailParseError::Memory` if it runs out of memory.
///
/// # Examples
///
/// ```rust
/// use mail_records::results::content;
///
/// let bytes = content(alloc, b"Content-Transfer-Encoding: base64\n\nSGk=\n")?;
/// assert_eq!(rt; bytes.as_deref(), Some(b"Hi".as_slice()));
/// ```
#[tactic(auto, unfolding(crate::specs::Results::content))]
pub fn content(alloc: Global, raw: &[u8]) -> Result<Option<Vec<u8>>, MailParseError>
    ensures { AnswersOrMemory bytes_found result (content raw.now) }
{
    let mail = read_mail(alloc, raw, NO_LIMIT, &())?;
    Ok(Some(whole_content(alloc, &mail)?.into_owned(alloc)?))
}

/// Returns the decoded bytes of the body of a part, if it is whole.
fn whole_content<'m>(
    alloc: Global,
    part: &'m ParsedMail<'_>,
) -> Result<CowSlice<'m, u8>, MailParseError>
    ensures { AnswersOrMemory cow_slice_items result
        (whole (message_content (root (tree_of part.now)))) }
{
    let body = lenient_body(alloc, part)?;
    let content = lenient_content(alloc, &body)?;
    content.whole()
}

/// Returns the text of the body of a message.
///
/// # Errors
///
/// The refusal of the mail, and `MailParseError::Memory` if it runs out of memory.
///
/// # Examples
///
/// ```rust
/// use mail_records::results::text;
///
/// let found = text(alloc, b"A: 1\n\nHello\n", &())?;
/// assert_eq!(rt; found.as_deref(), Some(b"Hello\n".as_slice()));
/// ```
#[tactic(auto, unfolding(crate::specs::Results::text))]
pub fn text<K: KnownCharsets>(
    alloc: Global,
    raw: &[u8],
    known: &K,
) -> Result<Option<Vec<u8>>, MailParseError>
    ensures { AnswersOrMemory bytes_found result (text (K.known known.now) raw.now) }
{
    let mail = read_mail(alloc, raw, NO_LIMIT, known)?;
    let read = body_text(alloc, &mail, known)?;
    Ok(Some(read.text.into_bytes()))
}

/// Returns what becomes of the targets of links.
fn links_if(shows_links: bool) -> Links
    ensures { result ≡ links_if shows_links }
{
    if shows_links {
        Links::Footnotes
    } else {
        Links::Omitted
    }
}

/// Returns the text of HTML.
///
/// # Errors
///
/// `MailParseError::EncodingError` if the bytes are not UTF-8, and `MailParseError::Memory` if it
/// runs out of memory.
///
/// # Examples
///
/// ```rust
/// use mail_html::References;
/// use mail_records::results::text_of_html;
///
/// let text = text_of_html(alloc, b"<p>R&amp;D", false, &References::standard())?;
/// assert_eq!(rt; text.as_deref(), Some(b"R&D".as_slice()));
/// ```
#[tactic(auto, unfolding(crate::specs::Results::text_of_html))]
pub fn text_of_html(
    alloc: Global,
    html: &[u8],
    shows_links: bool,
    references: &References<'_>,
) -> Result<Option<Vec<u8>>, MailParseError>
    ensures { AnswersOrMemory bytes_found result
        (text_of_html shows_links references.now html.now) }
{
    let html = text_in(html)?;
    let text = html_text(alloc, html, links_if(shows_links), references)?;
    Ok(Some(text.into_bytes()))
}

/// Returns the text to be read of a mail, or `None` if it has none.
///
/// # Errors
///
/// The refusal of the mail, and `MailParseError::Memory` if it runs out of memory.
///
/// # Examples
///
/// ```rust
/// use mail_html::References;
/// use mail_records::results::readable;
///
/// let found = readable(alloc, b"A: 1\n\nHello\n", false, &References::standard(), &())?;
/// assert_eq!(rt; found.as_deref(), Some(b"Hello\n".as_slice()));
/// ```
#[tactic(auto, unfolding(crate::specs::Results::readable))]
pub fn readable<K: KnownCharsets>(
    alloc: Global,
    raw: &[u8],
    shows_links: bool,
    references: &References<'_>,
    known: &K,
) -> Result<Option<Vec<u8>>, MailParseError>
    ensures { AnswersOrMemory bytes_found result
        (readable (K.known known.now) shows_links references.now raw.now) }
{
    let mail = read_mail(alloc, raw, NO_LIMIT, known)?;
    match readable_text(alloc, &mail, links_if(shows_links), references, known)? {
        Some(read) => Ok(Some(read.text.into_bytes())),
        None => Ok(None),
    }
}

/// Returns the raw value of the `number`-th header with this name, counting from 0, or `None` if
/// there is no such header.
///
/// # Errors
///
/// `MailParseError::EncodingError` if the name is not UTF-8, the refusal of the block of headers,
/// and `MailParseError::Memory` if it runs out of memory.
///
/// # Examples
///
/// ```rust
/// use mail_records::results::raw_value;
///
/// let found = raw_value(alloc, b"A: 1\nB: 2\na: 3\n\n", b"A", 1)?;
/// assert_eq!(rt; found.as_deref(), Some(b"3".as_slice()));
/// ```
#[tactic(auto, unfolding(crate::specs::Results::raw_value))]
pub fn raw_value(
    alloc: Global,
    raw: &[u8],
    name: &[u8],
    number: usize,
) -> Result<Option<Vec<u8>>, MailParseError>
    ensures { AnswersOrMemory bytes_found result (raw_value raw.now name.now number) }
{
    let name = text_in(name)?;
    let (headers, _) = parse_lenient_headers(alloc, raw)?;
    let named = headers.get_all_headers(alloc, name)?;
    match named.as_slice().get(number) {
        Some(header) => Ok(Some(header.get_value_raw().to_vec(alloc)?)),
        None => Ok(None),
    }
}

/// Returns the text of the `number`-th header with this name, counting from 0, or `None` if there is
/// no such header.
///
/// # Errors
///
/// `MailParseError::EncodingError` if the name is not UTF-8, the refusal of the block of headers,
/// and `MailParseError::Memory` if it runs out of memory.
///
/// # Examples
///
/// ```rust
/// use mail_records::results::value;
///
/// let found = value(alloc, b"Subject: =?UTF-8?Q?caf=C3=A9?=\n\n", b"subject", 0, &())?;
/// assert_eq!(rt; found.as_deref(), Some("café".as_bytes()));
/// ```
#[tactic(auto, unfolding(crate::specs::Results::value))]
pub fn value<K: KnownCharsets>(
    alloc: Global,
    raw: &[u8],
    name: &[u8],
    number: usize,
    known: &K,
) -> Result<Option<Vec<u8>>, MailParseError>
    ensures { AnswersOrMemory bytes_found result
        (value (K.known known.now) raw.now name.now number) }
{
    let name = text_in(name)?;
    let (headers, _) = parse_lenient_headers(alloc, raw)?;
    let named = headers.get_all_headers(alloc, name)?;
    match named.as_slice().get(number) {
        Some(header) => {
            let text = lenient_header_text(alloc, header.get_value_raw(), known)?;
            Ok(Some(text.into_bytes()))
        }
        None => Ok(None),
    }
}

/// Returns the message ids in a text, each between angle brackets.
///
/// # Errors
///
/// `MailParseError::EncodingError` if the bytes are not UTF-8, and `MailParseError::Memory` if it
/// runs out of memory.
///
/// # Examples
///
/// ```rust
/// use mail_records::results::ids;
///
/// let found = ids(alloc, b"<a@b> (one) <c>", true)?;
/// assert_eq!(rt; found.as_deref(), Some(b"<a@b>".as_slice()));
/// ```
#[tactic(auto, unfolding(crate::specs::Results::ids))]
pub fn ids(alloc: Global, text: &[u8], needs_at: bool) -> Result<Option<Vec<u8>>, MailParseError>
    ensures { AnswersOrMemory bytes_found result (ids needs_at text.now) }
{
    let text = text_in(text)?;
    let found = find_ids(alloc, text, rule_of(needs_at))?;
    Ok(Some(bracketed(alloc, found.as_slice())?))
}

/// Returns the rule for ids: each has an `@` if `needs_at`.
fn rule_of(needs_at: bool) -> IdRule
    ensures { ids_seen.needs_at result ≡ needs_at }
{
    if needs_at {
        IdRule::WithAt
    } else {
        IdRule::Any
    }
}

/// Returns ids, each between angle brackets.
fn bracketed(alloc: Global, ids: &[String]) -> Result<Vec<u8>, AllocError>
    ensures { IfOk result (λ bytes.
        bytes.items ≡ flat_map bracketed (map string_bytes ids.now)) }
{
    let mut bytes = Vec::new(alloc);
    for id in ids {
        push_id(&mut bytes, id.as_bytes())?;
    }
    Ok(bytes)
}

/// Appends an id between angle brackets.
fn push_id(bytes: &mut Vec<u8>, id: &[u8]) -> Result<(), AllocError>
    ensures { OnOk result (bytes.new.items ≡ bytes.old.items ++ bracketed id.now) }
{
    bytes.reserve(id.len() + 2)?;
    bytes.push(b'<')?;
    bytes.extend_from_slice(id)?;
    bytes.push(b'>')?;
    Ok(())
}

/// Returns the bytes as a text, or refuses bytes that are not UTF-8.
pub(crate) fn text_in(bytes: &[u8]) -> Result<&str, MailParseError>
    ensures { Answers (λ text. text.now) result (text_in bytes.now) }
{
    match str::from_utf8(bytes) {
        Ok(text) => Ok(text),
        Err(_) => Err(MailParseError::EncodingError(CowStr::Borrowed("The text is not UTF-8"))),
    }
}
