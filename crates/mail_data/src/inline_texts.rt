//! The texts of a mail that are read one after another.
ghost use Rattle.std.specs.Prelude.{◌≡◌, ◌++◌, map, IfErr, IfOk, Ok, OnOk};
ghost use Rattle.mailparse.specs.Outcome.{AnswersOrMemory};
ghost use Rattle.mailparse.specs.Views.{tree_of};
ghost use Rattle.mail_read.specs.Files.{whole_path};
ghost use Rattle.mail_data.specs.InlineTextViews.{inline_view, text_part_view};
ghost use Rattle.mail_data.specs.InlineTexts.{has_one_text, inline_text, inline_texts};
ghost use Rattle.mail_data.specs.InlineTexts.{text_parts, texts_among};
ghost use Rattle.mail_data.specs.ReadableViews.{text_found};

use crate::readable::{has_text, readable_text};
use crate::reports::has_type;
use mail_codec::charset::KnownCharsets;
use mail_html::{Links, References};
use mail_read::files::{is_attachment, is_leaf, path_under, whole_path};
use mail_read::lenient::BodyText;
use mailparse::{MailParseError, ParsedMail};
use std::alloc::{AllocError, Global};

/// A text to be read of a mail.
#[derive(Debug, Drop)]
pub struct InlineText {
    /// The path of the part that it is the text of, as IMAP numbers parts (RFC 3501, section
    /// 6.4.5).
    pub path: String,
    /// The text, its charset, and whether it is damaged.
    pub read: BodyText,
}

/// A part that has one text.
#[derive(Drop)]
struct TextPart<'m, 'a> {
    path: String,
    part: &'m ParsedMail<'a>,
}

/// Returns the texts of a mail that are read one after another, in the order of its parts: the text
/// to be read of each part that has no parts, and of each `multipart/alternative`, as
/// `readable::readable_text` returns that of a mail (RFC 2046, sections 5.1.3 and 5.1.4).
///
/// A text that consists of whitespace is left out, and so is that of a file by
/// `files::is_attachment`. If no text is left, it is the text to be read of the mail, if there is
/// one, so that a mail has a text exactly if `readable_text` returns one. Allocates the lists, the
/// paths, the bytes and the texts.
///
/// # Errors
///
/// `MailParseError::Memory` if it runs out of memory.
///
/// # Examples
///
/// ```rust
/// use mail_data::inline_texts::inline_texts;
/// use mail_html::{Links, References};
/// use mailparse::parse_mail;
///
/// let raw = b"Content-Type: multipart/mixed; boundary=b\n\n\
///     --b\n\none\n--b\nContent-Type: image/png\n\nx\n--b\nContent-Type: text/html\n\n<p>two\n--b--\n";
/// let mail = parse_mail(alloc, raw)?;
/// let texts = inline_texts(alloc, &mail, Links::Omitted, &References::standard(), &())?;
/// assert_eq!(rt; texts.len(), 2);
/// assert_eq!(rt; (texts[0].path.as_str(), texts[0].read.text.as_str()), ("1", "one"));
/// assert_eq!(rt; (texts[1].path.as_str(), texts[1].read.text.as_str()), ("3", "two"));
/// ```
#[tactic(auto, unfolding(crate::specs::InlineTexts::inline_texts))]
pub fn inline_texts<K: KnownCharsets>(
    alloc: Global,
    mail: &ParsedMail<'_>,
    links: Links,
    references: &References<'_>,
    known: &K,
) -> Result<Vec<InlineText>, MailParseError>
    ensures { AnswersOrMemory (λ texts. map inline_view texts.items) result (Ok (inline_texts
        (K.known known.now) links references.now (tree_of mail.now))) }
{
    let path = whole_path(mail);
    let parts = text_parts(alloc, mail, path)?;
    let mut texts = texts_among(alloc, parts, links, references, known)?;
    if !texts.is_empty() {
        return Ok(texts);
    }
    if let Some(read) = readable_text(alloc, mail, links, references, known)? {
        let path = String::from_str(alloc, path)?;
        texts.push(InlineText { path, read })?;
    }
    Ok(texts)
}

/// Returns the parts of a message with this path that have one text each.
fn text_parts<'m, 'a>(
    alloc: Global,
    mail: &'m ParsedMail<'a>,
    path: &str,
) -> Result<Vec<TextPart<'m, 'a>>, AllocError>
    ensures { IfOk result (λ found. map text_part_view found.items
        ≡ text_parts path.now (tree_of mail.now)) }
{
    let mut found = Vec::new(alloc);
    push_text_parts(alloc, &mut found, mail, path)?;
    Ok(found)
}

/// Appends a message with this path if it has one text, otherwise those of its parts that have one
/// each.
fn push_text_parts<'m, 'a>(
    alloc: Global,
    found: &mut Vec<TextPart<'m, 'a>>,
    mail: &'m ParsedMail<'a>,
    path: &str,
) -> Result<(), AllocError>
    ensures { OnOk result (map text_part_view found.new.items
        ≡ map text_part_view found.old.items ++ text_parts path.now (tree_of mail.now)) }
{
    if has_one_text(mail) {
        let path = String::from_str(alloc, path)?;
        found.push(TextPart { path, part: mail })?;
        return Ok(());
    }
    let mut number = 0;
    for part in &mail.subparts {
        number += 1;
        let path = path_under(alloc, path, number)?;
        push_text_parts(alloc, found, part, path.as_str())?;
    }
    Ok(())
}

/// Returns whether a part has one text: it has no parts, or they are alternatives of each other.
fn has_one_text(part: &ParsedMail<'_>) -> bool
    ensures { result ≡ has_one_text (tree_of part.now) }
{
    is_leaf(part) || has_type(part, "multipart/alternative")
}

/// Returns the texts of some parts that have one.
fn texts_among<K: KnownCharsets>(
    alloc: Global,
    parts: Vec<TextPart<'_, '_>>,
    links: Links,
    references: &References<'_>,
    known: &K,
) -> Result<Vec<InlineText>, MailParseError>
    ensures { AnswersOrMemory (λ texts. map inline_view texts.items) result (Ok (texts_among
        (K.known known.now) links references.now (map text_part_view parts.entry.items))) }
{
    let mut texts = Vec::new(alloc);
    for text_part in parts {
        if let Some(read) = inline_text(alloc, text_part.part, links, references, known)? {
            texts.push(InlineText {
                path: text_part.path,
                read,
            })?;
        }
    }
    Ok(texts)
}

/// Returns the text to be read of a part that is no file, unless it consists of whitespace.
#[tactic(auto, unfolding(crate::specs::InlineTexts::inline_text))]
fn inline_text<K: KnownCharsets>(
    alloc: Global,
    part: &ParsedMail<'_>,
    links: Links,
    references: &References<'_>,
    known: &K,
) -> Result<Option<BodyText>, MailParseError>
    ensures { AnswersOrMemory text_found result
        (Ok (inline_text (K.known known.now) links references.now (tree_of part.now))) }
{
    if is_attachment(alloc, part, known)? {
        return Ok(None);
    }
    let Some(read) = readable_text(alloc, part, links, references, known)? else {
        return Ok(None);
    };
    if has_text(read.text.as_str()) {
        Ok(Some(read))
    } else {
        Ok(None)
    }
}
