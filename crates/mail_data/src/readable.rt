//! The text to be read of a mail: plain text, or the text of its HTML.
ghost use Rattle.std.specs.Prelude.{◌≡◌, IfOk, not, Ok, string_bytes};
ghost use Rattle.std.specs.Str.{trim};
ghost use Rattle.mail_codec.specs.Places.{is_empty};
ghost use Rattle.mailparse.specs.Mail.{root, trees_within};
ghost use Rattle.mailparse.specs.Outcome.{AnswersOrMemory};
ghost use Rattle.mailparse.specs.Views.{content_type, tree_of};
ghost use Rattle.mail_data.specs.Readable.{first_html_text, html_part_text};
ghost use Rattle.mail_data.specs.Readable.{part_text, readable_of, readable_text, text_or_html};
ghost use Rattle.mail_data.specs.ReadableViews.{text_found};
ghost use Rattle.mail_read.specs.lenient.TextViews.{text_view};

use crate::texts::{is_text_of_type, text_part};
use mail_codec::charset::KnownCharsets;
use mail_html::{Links, References, html_text};
use mail_read::lenient::{BodyText, body_text};
use mailparse::{MailParseError, ParsedContentType, ParsedMail};
use std::alloc::{AllocError, Global};

/// Returns the text to be read of a mail, or `None` if it has none: the text of the part that
/// `texts::text_part` returns, or if this consists of whitespace, that of the first HTML part that
/// is not a file and whose text does not, if there is one (RFC 2046, section 5.1.4).
///
/// Bodies are read by `lenient::body_text`, and the text of HTML is that of `mail_html::html_text`.
/// So a mail without plain text, or with an empty one beside HTML, is read by the text of its HTML.
/// No part is decoded more than twice. Allocates the list of parts, the bytes and the texts.
///
/// # Errors
///
/// `MailParseError::Memory` if it runs out of memory.
///
/// # Examples
///
/// ```rust
/// use mail_data::readable::readable_text;
/// use mail_html::{Links, References};
/// use mailparse::parse_mail;
///
/// let mail = parse_mail(alloc, b"Content-Type: text/html\n\n<p>Fish &amp; <b>chips</b>")?;
/// let read = readable_text(alloc, &mail, Links::Omitted, &References::standard(), &())?;
/// assert_eq!(rt; read.ok_or("no text")?.text.as_str(), "Fish & chips");
///
/// let raw = b"Content-Type: multipart/alternative; boundary=b\n\n\
///     --b\n\n \n--b\nContent-Type: text/html\n\n<b>Hi</b>\n--b--\n";
/// let mail = parse_mail(alloc, raw)?;
/// let read = readable_text(alloc, &mail, Links::Omitted, &References::standard(), &())?;
/// assert_eq!(rt; read.ok_or("no text")?.text.as_str(), "Hi");
/// ```
#[tactic(auto, unfolding(crate::specs::Readable::readable_text))]
pub fn readable_text<K: KnownCharsets>(
    alloc: Global,
    mail: &ParsedMail<'_>,
    links: Links,
    references: &References<'_>,
    known: &K,
) -> Result<Option<BodyText>, MailParseError>
    ensures { AnswersOrMemory text_found result
        (Ok (readable_text (K.known known.now) links references.now (tree_of mail.now))) }
{
    let Some(part) = text_part(alloc, mail, known)? else {
        return Ok(None);
    };
    let read = part_text(alloc, part, links, references, known)?;
    let read = text_or_html(alloc, mail, read, links, references, known)?;
    Ok(Some(read))
}

/// Returns a text of a mail, or if it consists of whitespace, that of the first HTML part that has
/// one.
#[tactic(auto, unfolding(crate::specs::Readable::text_or_html))]
fn text_or_html<K: KnownCharsets>(
    alloc: Global,
    mail: &ParsedMail<'_>,
    read: BodyText,
    links: Links,
    references: &References<'_>,
    known: &K,
) -> Result<BodyText, MailParseError>
    ensures { AnswersOrMemory text_view result (Ok (text_or_html
        (K.known known.now) links references.now (tree_of mail.now) (text_view read))) }
{
    if has_text(read.text.as_str()) {
        return Ok(read);
    }
    match first_html_text(alloc, mail, links, references, known)? {
        Some(html) => Ok(html),
        None => Ok(read),
    }
}

/// Returns the text of the first HTML part that has one.
fn first_html_text<K: KnownCharsets>(
    alloc: Global,
    mail: &ParsedMail<'_>,
    links: Links,
    references: &References<'_>,
    known: &K,
) -> Result<Option<BodyText>, MailParseError>
    ensures { AnswersOrMemory text_found result (Ok (first_html_text
        (K.known known.now) links references.now (trees_within (tree_of mail.now)))) }
{
    for part in mail.parts(alloc)? {
        if let Some(read) = html_part_text(alloc, part, links, references, known)? {
            return Ok(Some(read));
        }
    }
    Ok(None)
}

/// Returns the text of an HTML part that is not a file, if it has one.
#[tactic(auto, unfolding(crate::specs::Readable::html_part_text))]
fn html_part_text<K: KnownCharsets>(
    alloc: Global,
    part: &ParsedMail<'_>,
    links: Links,
    references: &References<'_>,
    known: &K,
) -> Result<Option<BodyText>, MailParseError>
    ensures { AnswersOrMemory text_found result
        (Ok (html_part_text (K.known known.now) links references.now (tree_of part.now))) }
{
    if !is_text_of_type(alloc, part, false, "text/html", known)? {
        return Ok(None);
    }
    let read = part_text(alloc, part, links, references, known)?;
    if has_text(read.text.as_str()) {
        Ok(Some(read))
    } else {
        Ok(None)
    }
}

/// Returns whether a text has a character that is not whitespace.
pub(crate) fn has_text(text: &str) -> bool
    ensures { result ≡ not (is_empty (trim text.now)) }
{
    !text.trim().is_empty()
}

/// Returns the text of a part as it is read.
#[tactic(auto, unfolding(crate::specs::Readable::part_text))]
fn part_text<K: KnownCharsets>(
    alloc: Global,
    part: &ParsedMail<'_>,
    links: Links,
    references: &References<'_>,
    known: &K,
) -> Result<BodyText, MailParseError>
    ensures { AnswersOrMemory text_view result
        (Ok (part_text (K.known known.now) links references.now (root (tree_of part.now)))) }
{
    let read = body_text(alloc, part, known)?;
    let text = readable_of(alloc, &part.ctype, read.text, links, references)?;
    Ok(BodyText {
        text,
        charset: read.charset,
        is_damaged: read.is_damaged,
    })
}

/// Returns the text of a body of this type as it is read: that of HTML, or itself.
#[tactic(auto, unfolding(crate::specs::Readable::readable_of))]
fn readable_of(
    alloc: Global,
    ctype: &ParsedContentType,
    text: String,
    links: Links,
    references: &References<'_>,
) -> Result<String, AllocError>
    ensures { IfOk result (λ read. string_bytes read
        ≡ readable_of links references.now (content_type ctype.now) (string_bytes text)) }
{
    if ctype.mimetype.as_str() == "text/html" {
        let read = html_text(alloc, text.as_str(), links, references)?;
        return Ok(read);
    }
    Ok(text)
}
