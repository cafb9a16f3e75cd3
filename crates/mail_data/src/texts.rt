//! The text of a mail.
ghost use Rattle.std.specs.Prelude.{◌≡◌, Ok};
ghost use Rattle.mailparse.specs.Outcome.{AnswersOrMemory};
ghost use Rattle.mailparse.specs.Views.{tree_of};
ghost use Rattle.mail_data.specs.Texts.{first_text, first_text_of_type, is_no_text};
ghost use Rattle.mail_data.specs.Texts.{is_text_of_type, own_text, shown_text, text_part};
ghost use Rattle.mail_data.specs.Texts.{text_type, text_type_of};
ghost use Rattle.mail_data.specs.TextViews.{tree_found};

use crate::reports::has_type;
use mail_codec::charset::KnownCharsets;
use mail_read::files::{is_attachment, is_attachment_disposition};
use mail_read::lenient::{is_undivided, lenient_disposition};
use mailparse::{MailParseError, ParsedMail};
use std::alloc::Global;

/// Returns the part of a mail that is to be read as its text, or `None` if there is no text: the
/// first that is `text/plain` or `text/html`, but of a `multipart/alternative` the first
/// `text/plain`, if there is one (RFC 2046, sections 4.1 and 5.1.4).
///
/// The mail itself comes first, and then its parts, each before its own parts. So in a
/// `multipart/mixed` an HTML text takes precedence over the plain footer of a mailing list that
/// follows it. A text with a file name is a file by `files::is_attachment`, and counts only if
/// there is no other text and its disposition is not `attachment` (RFC 2183, section 2.1).
/// Dispositions and names are read leniently, in the charsets `known`. The type `text` alone is
/// plain text, and so is a multipart that has no parts (`text_type_of`). `lenient::body_text`
/// returns the text of the part. Allocates the list of parts, the dispositions and the names.
///
/// # Errors
///
/// `MailParseError::Memory` if it runs out of memory.
///
/// # Examples
///
/// ```rust
/// use mail_data::texts::text_part;
/// use mailparse::{SingleByteTable, parse_mail};
///
/// let raw = b"Content-Type: multipart/alternative; boundary=b\n\n\
///     --b\nContent-Type: text/html\n\n<b>Hi</b>\n--b\n\nHi\n--b--\n";
/// let mail = parse_mail(alloc, raw)?;
/// let part = text_part(alloc, &mail, &())?.ok_or("no text")?;
/// assert_eq!(rt; part.get_body(alloc)?.as_str(), "Hi");
///
/// let tables = [SingleByteTable { labels: &["x-euro"], high: &['€'; 128] }];
/// let mail = parse_mail(alloc, b"Content-Disposition: =?x-euro?Q?attachment?=\n\nHi")?;
/// assert!(rt; text_part(alloc, &mail, &tables.as_slice())?.is_none());
/// assert!(rt; text_part(alloc, &mail, &())?.is_some());
/// ```
#[tactic(auto, unfolding(crate::specs::Texts::text_part))]
pub fn text_part<'m, 'a, K: KnownCharsets>(
    alloc: Global,
    mail: &'m ParsedMail<'a>,
    known: &K,
) -> Result<Option<&'m ParsedMail<'a>>, MailParseError>
    ensures { AnswersOrMemory tree_found result
        (Ok (text_part (K.known known.now) (tree_of mail.now))) }
{
    if let Some(part) = shown_text(alloc, mail, false, known)? {
        return Ok(Some(part));
    }
    shown_text(alloc, mail, true, known)
}

/// Returns the text of the first part that has one.
#[tactic(auto, unfolding(crate::specs::Texts::shown_text))]
fn shown_text<'m, 'a, K: KnownCharsets>(
    alloc: Global,
    mail: &'m ParsedMail<'a>,
    may_have_name: bool,
    known: &K,
) -> Result<Option<&'m ParsedMail<'a>>, MailParseError>
    ensures { AnswersOrMemory tree_found result
        (Ok (shown_text (K.known known.now) may_have_name (tree_of mail.now))) }
{
    for part in mail.parts(alloc)? {
        if let Some(text) = own_text(alloc, part, may_have_name, known)? {
            return Ok(Some(text));
        }
    }
    Ok(None)
}

/// Returns the text of a part: of a `multipart/alternative` the preferred one in it, and the part
/// itself if it is a text.
#[tactic(auto, unfolding(crate::specs::Texts::own_text))]
fn own_text<'m, 'a, K: KnownCharsets>(
    alloc: Global,
    part: &'m ParsedMail<'a>,
    may_have_name: bool,
    known: &K,
) -> Result<Option<&'m ParsedMail<'a>>, MailParseError>
    ensures { AnswersOrMemory tree_found result
        (Ok (own_text (K.known known.now) may_have_name (tree_of part.now))) }
{
    if has_type(part, "multipart/alternative") {
        return first_text(alloc, part, may_have_name, known);
    }
    if is_text_of_type(alloc, part, may_have_name, "text/plain", known)? {
        return Ok(Some(part));
    }
    if is_text_of_type(alloc, part, may_have_name, "text/html", known)? {
        return Ok(Some(part));
    }
    Ok(None)
}

/// Returns the first plain text, otherwise the first HTML text.
#[tactic(auto, unfolding(crate::specs::Texts::first_text))]
fn first_text<'m, 'a, K: KnownCharsets>(
    alloc: Global,
    mail: &'m ParsedMail<'a>,
    may_have_name: bool,
    known: &K,
) -> Result<Option<&'m ParsedMail<'a>>, MailParseError>
    ensures { AnswersOrMemory tree_found result
        (Ok (first_text (K.known known.now) may_have_name (tree_of mail.now))) }
{
    if let Some(part) = first_text_of_type(alloc, mail, may_have_name, "text/plain", known)? {
        return Ok(Some(part));
    }
    first_text_of_type(alloc, mail, may_have_name, "text/html", known)
}

/// Returns the first text of this type.
#[tactic(auto, unfolding(crate::specs::Texts::first_text_of_type))]
fn first_text_of_type<'m, 'a, K: KnownCharsets>(
    alloc: Global,
    mail: &'m ParsedMail<'a>,
    may_have_name: bool,
    mimetype: &str,
    known: &K,
) -> Result<Option<&'m ParsedMail<'a>>, MailParseError>
    ensures { AnswersOrMemory tree_found result (Ok (first_text_of_type
        (K.known known.now) may_have_name mimetype.now (tree_of mail.now))) }
{
    for part in mail.parts(alloc)? {
        if is_text_of_type(alloc, part, may_have_name, mimetype, known)? {
            return Ok(Some(part));
        }
    }
    Ok(None)
}

/// Returns whether a part is a text of this type.
#[tactic(auto, unfolding(crate::specs::Texts::is_text_of_type))]
pub(crate) fn is_text_of_type<K: KnownCharsets>(
    alloc: Global,
    part: &ParsedMail<'_>,
    may_have_name: bool,
    mimetype: &str,
    known: &K,
) -> Result<bool, MailParseError>
    ensures { AnswersOrMemory (λ is. is) result (Ok (is_text_of_type
        (K.known known.now) may_have_name mimetype.now (tree_of part.now))) }
{
    if text_type_of(part) != mimetype {
        return Ok(false);
    }
    Ok(!is_no_text(alloc, part, may_have_name, known)?)
}

/// Returns whether a part is no text: its disposition is `attachment`, or it is a file although a
/// text may not have a name.
#[tactic(auto, unfolding(crate::specs::Texts::is_no_text))]
fn is_no_text<K: KnownCharsets>(
    alloc: Global,
    part: &ParsedMail<'_>,
    may_have_name: bool,
    known: &K,
) -> Result<bool, MailParseError>
    ensures { AnswersOrMemory (λ is. is) result
        (Ok (is_no_text (K.known known.now) may_have_name (tree_of part.now))) }
{
    if !may_have_name {
        return is_attachment(alloc, part, known);
    }
    let disposition = lenient_disposition(alloc, part, known)?;
    Ok(is_attachment_disposition(&disposition))
}

/// Returns the type of a text: `text` alone and an empty type are `text/plain` (RFC 2045, section
/// 5.2), and any other type is itself. Does not allocate.
///
/// # Examples
///
/// ```rust
/// use mail_data::texts::text_type;
///
/// assert_eq!(rt; text_type("text"), "text/plain");
/// assert_eq!(rt; text_type(""), "text/plain");
/// assert_eq!(rt; text_type("text/html"), "text/html");
/// ```
pub fn text_type(mimetype: &str) -> &str
    ensures { result.now ≡ text_type mimetype.now }
{
    if mimetype.is_empty() || mimetype == "text" {
        "text/plain"
    } else {
        mimetype
    }
}

/// Returns the type as which the body of a part is read: `text/plain` for a multipart that has no
/// parts, as `lenient::is_undivided` says, and otherwise the `text_type` of its type (RFC 2045,
/// section 5.2; RFC 2046, section 5.1.1). Does not allocate.
///
/// # Examples
///
/// ```rust
/// use mail_data::texts::text_type_of;
/// use mailparse::parse_mail;
///
/// let mail = parse_mail(alloc, b"Content-Type: multipart/mixed\n\nHi")?;
/// assert_eq!(rt; text_type_of(&mail), "text/plain");
/// ```
pub fn text_type_of<'p>(part: &'p ParsedMail<'_>) -> &'p str
    ensures { result.now ≡ text_type_of (tree_of part.now) }
{
    if is_undivided(part) {
        return "text/plain";
    }
    text_type(part.ctype.mimetype.as_str())
}
