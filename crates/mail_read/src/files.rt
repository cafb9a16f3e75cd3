//! The files that a mail carries.
ghost use Rattle.std.specs.Prelude.{◌≡◌, ◌++◌, map, option_map, string_bytes, Some, [], ◌∷◌, IfErr, IfOk, OnOk, Ok};
ghost use Rattle.mailparse.specs.Mail.{root};
ghost use Rattle.mailparse.specs.Map.{text_found};
ghost use Rattle.mailparse.specs.Outcome.{AnswersOrMemory, IsMemory};
ghost use Rattle.mailparse.specs.Pairs.{text_at};
ghost use Rattle.mailparse.specs.Views as views;
ghost use Rattle.mailparse.specs.Views.{content_type, kind, tree_of};
ghost use Rattle.mail_read.specs.Attachments.{attachments, describes_attachment, is_attachment};
ghost use Rattle.mail_read.specs.Attachments.{is_attachment_disposition, is_extracted};
ghost use Rattle.mail_read.specs.Files.{filled, is_leaf, is_shown, is_shown_type};
ghost use Rattle.mail_read.specs.Files.{name_among, name_in, path_under, shown_name, typed_name};
ghost use Rattle.mail_read.specs.Files.{whole_path};
ghost use Rattle.mail_read.specs.FileViews.{attachment_view};
ghost use Rattle.mail_read.specs.HeaderNames.{file_name};
ghost use Rattle.mail_read.specs.RawPaths.{file_name_or_path};

mod left_over;
mod names;
mod naming;
mod no_charsets;
mod paths;
mod windows;

use crate::lenient::{lenient_disposition, lenient_file_name, was_kept};
use crate::places::push_places;
use left_over::left_over_text;
pub use left_over::text_of_octets;
use mail_codec::charset::KnownCharsets;
use mailparse::{
    DispositionType, MailParseError, ParsedContentDisposition, ParsedContentType, ParsedMail,
    Strict,
};
pub use names::{is_unsafe, safe_file_name};
use naming::WithPaths;
pub(crate) use naming::{NameReading, cut_text, decoded_name, name_by};
pub use no_charsets::NoCharsets;
use std::alloc::{AllocError, Global};
use std::collections::BTreeMap;
pub use windows::windows_file_name;

/// A file that a mail carries, as `attachments` returns it.
#[derive(Debug, Drop)]
pub struct Attachment<'m, 'a> {
    /// The path of the part, as IMAP numbers parts (RFC 3501, section 6.4.5): `2.1` is the first
    /// part of the second part, and `1` the body of a mail without parts.
    pub path: String,
    /// The part: `get_body_raw` returns the bytes of the file. If its Base64 is damaged or the name
    /// of its transfer encoding has a comment, `lenient_body` and `lenient_content` of `lenient`
    /// read it.
    pub part: &'m ParsedMail<'a>,
}

/// Returns the file name of a part: the parameter `filename` of its disposition (RFC 2183, section
/// 2.3), otherwise the parameter `name` of its type, or `None` if it has neither, as `named_file`
/// finds it in headers whose encoded words (RFC 2047, section 2) stay as they are.
///
/// The words in the name are decoded after that, as `lenient_name_text` of `lenient` decodes them,
/// so a word that contains a `"` or a `;` neither ends the name nor begins another parameter. Bytes
/// that are not UTF-8 are windows-1252. The name is as the sender wrote it: use
/// `safe_file_name` before creating a file. Words and extended values (RFC 2231, section 4) are
/// read in the charsets `known`. Allocates the disposition, the type and the name.
///
/// # Errors
///
/// `MailParseError::Memory` if it runs out of memory.
///
/// # Examples
///
/// ```rust
/// use mail_read::files::file_name;
/// use mailparse::{SingleByteTable, parse_mail};
///
/// let mail = parse_mail(alloc, b"Content-Type: image/png; name=\"a.png\"\n\n")?;
/// assert_eq!(rt; file_name(alloc, &mail, &())?.ok_or("no name")?.as_str(), "a.png");
///
/// let tables = [SingleByteTable { labels: &["x-euro"], high: &['€'; 128] }];
/// let raw = b"Content-Disposition: attachment; filename*=x-euro''5%E4.txt\n\n";
/// let mail = parse_mail(alloc, raw)?;
/// let name = file_name(alloc, &mail, &tables.as_slice())?.ok_or("no name")?;
/// assert_eq!(rt; name.as_str(), "5€.txt");
///
/// let raw = b"Content-Disposition: inline; filename=\"=?utf-8?Q?a=22;_filename=3D=22b?=\"\n\n";
/// let mail = parse_mail(alloc, raw)?;
/// let name = file_name(alloc, &mail, &())?.ok_or("no name")?;
/// assert_eq!(rt; name.as_str(), "a\"; filename=\"b");
/// ```
#[tactic(auto, unfolding(crate::specs::HeaderNames::file_name))]
pub fn file_name<K: KnownCharsets>(
    alloc: Global,
    part: &ParsedMail<'_>,
    known: &K,
) -> Result<Option<String>, MailParseError>
    ensures { AnswersOrMemory text_found result
        (Ok (file_name (K.known known.now) (root (tree_of part.now)))) }
{
    name_by(alloc, part, &Strict(known), known)
}

/// Returns the file name of a part as `file_name` does, but with Windows paths in quotes as they
/// are: their backslashes are no escapes (against RFC 5322, section 3.2.1).
///
/// Such a path begins with a letter and `:\`, and is not escaped already. Some programs write it
/// in the place of a name; `safe_file_name` keeps its last component. Allocates as `file_name` does.
///
/// # Errors
///
/// `MailParseError::Memory` if it runs out of memory.
///
/// # Examples
///
/// ```rust
/// use mail_read::files::{file_name, file_name_or_path};
/// use mailparse::parse_mail;
///
/// let raw = b"Content-Disposition: attachment; filename=\"C:\\dir\\a.txt\"\n\n";
/// let mail = parse_mail(alloc, raw)?;
/// let name = file_name_or_path(alloc, &mail, &())?.ok_or("no name")?;
/// assert_eq!(rt; name.as_str(), "C:\\dir\\a.txt");
/// assert_eq!(rt; file_name(alloc, &mail, &())?.ok_or("no name")?.as_str(), "C:dira.txt");
/// ```
#[tactic(auto, unfolding(crate::specs::RawPaths::file_name_or_path))]
pub fn file_name_or_path<K: KnownCharsets>(
    alloc: Global,
    part: &ParsedMail<'_>,
    known: &K,
) -> Result<Option<String>, MailParseError>
    ensures { AnswersOrMemory text_found result
        (Ok (file_name_or_path (K.known known.now) (root (tree_of part.now)))) }
{
    name_by(alloc, part, &WithPaths(known), known)
}

/// Returns the file name in a disposition and a type, for callers that have read both; `file_name`
/// reads them. It is the parameter `filename` of the disposition, otherwise the parameter `name` of
/// the type, or `None` if there is neither (RFC 2183, section 2.3). A parameter that consists of
/// whitespace counts as missing.
///
/// If there is only an extended value whose charset is blank, unknown or missing (RFC 2231, section
/// 4), such as `filename*=''a%20b.txt`, its text after the second apostrophe is read: in UTF-8 if
/// the bytes are UTF-8, otherwise in windows-1252. Allocates the name.
///
/// # Errors
///
/// `AllocError` if it runs out of memory.
///
/// # Examples
///
/// ```rust
/// use mail_read::files::named_file;
/// use mailparse::{parse_content_disposition, parse_content_type};
///
/// let ctype = parse_content_type(alloc, "image/png; name=a.png")?;
/// let disposition = parse_content_disposition(alloc, "inline")?;
/// assert_eq!(rt; named_file(alloc, &disposition, &ctype)?.as_deref(), Some("a.png"));
/// let disposition = parse_content_disposition(alloc, "inline; filename*=''b%2Epng")?;
/// assert_eq!(rt; named_file(alloc, &disposition, &ctype)?.as_deref(), Some("b.png"));
/// ```
pub fn named_file(
    alloc: Global,
    disposition: &ParsedContentDisposition,
    ctype: &ParsedContentType,
) -> Result<Option<String>, AllocError>
    ensures { IfOk result (λ name. text_found name
        ≡ name_in (views.disposition disposition.now) (content_type ctype.now)) }
{
    if let Some(name) = shown_name(alloc, disposition)? {
        return Ok(Some(name));
    }
    typed_name(alloc, ctype)
}

/// Returns the parameter `filename` of a disposition.
fn shown_name(
    alloc: Global,
    disposition: &ParsedContentDisposition,
) -> Result<Option<String>, AllocError>
    ensures { IfOk result (λ name.
        text_found name ≡ shown_name (views.disposition disposition.now)) }
{
    name_among(alloc, &disposition.params, "filename", "filename*")
}

/// Returns the parameter `name` of a type.
fn typed_name(alloc: Global, ctype: &ParsedContentType) -> Result<Option<String>, AllocError>
    ensures { IfOk result (λ name. text_found name ≡ typed_name (content_type ctype.now)) }
{
    name_among(alloc, &ctype.params, "name", "name*")
}

/// Returns the text of a key, otherwise the value that is left over at its extended key.
fn name_among(
    alloc: Global,
    parameters: &BTreeMap<String, String>,
    key: &str,
    extended: &str,
) -> Result<Option<String>, AllocError>
    ensures { IfOk result (λ found. text_found found
        ≡ name_among (text_at parameters.now) key.now extended.now) }
{
    if let Some(text) = filled_parameter(parameters, key) {
        return Ok(Some(String::from_str(alloc, text)?));
    }
    match parameters.get(extended) {
        Some(value) => Ok(filled(left_over_text(alloc, value.as_str())?)),
        None => Ok(None),
    }
}

/// Returns the text, or `None` if it consists of whitespace.
pub(crate) fn filled(text: String) -> Option<String>
    ensures { text_found result ≡ filled (Some (string_bytes text)) }
{
    if text.as_str().trim().is_empty() {
        None
    } else {
        Some(text)
    }
}

/// Returns the text of a parameter of a type or a disposition (RFC 2045, section 5.1; RFC 2183,
/// section 2), or `None` if it is missing or consists of whitespace. Does not allocate.
///
/// # Examples
///
/// ```rust
/// use mail_read::files::filled_parameter;
/// use mailparse::parse_content_type;
///
/// let ctype = parse_content_type(alloc, "text/plain; name=\"\"; format=flowed")?;
/// assert_eq!(rt; filled_parameter(&ctype.params, "format"), Some("flowed"));
/// assert_eq!(rt; filled_parameter(&ctype.params, "name"), None);
/// ```
pub fn filled_parameter<'p>(parameters: &'p BTreeMap<String, String>, name: &str) -> Option<&'p str>
    ensures { option_map (λ text. text.now) result ≡ filled (text_at parameters.now name.now) }
{
    match parameters.get(name) {
        Some(text) if !text.trim().is_empty() => Some(text.as_str()),
        _ => None,
    }
}

/// Returns whether a part is a file: it has no parts of its own, and its disposition is
/// `attachment` or it has a file name (RFC 2183, sections 2.2 and 2.3), both read leniently, by
/// `lenient_disposition` and `lenient_file_name`.
///
/// So an image that is shown in the text counts if it has a name, and a forwarded message
/// (`message/rfc822`), whose content is not parsed, counts like any other part. Both are read in the
/// charsets `known` (RFC 2231, section 4). Allocates the disposition and the name.
///
/// # Errors
///
/// `MailParseError::Memory` if it runs out of memory.
///
/// # Examples
///
/// ```rust
/// use mail_read::files::is_attachment;
/// use mailparse::{SingleByteTable, parse_mail};
///
/// let mail = parse_mail(alloc, b"Content-Disposition: inline; filename=a.txt\n\n")?;
/// assert!(rt; is_attachment(alloc, &mail, &())?);
/// let mail = parse_mail(alloc, b"Content-Disposition: attachment (x)\n\n")?;
/// assert!(rt; is_attachment(alloc, &mail, &())?);
///
/// let tables = [SingleByteTable { labels: &["x-euro"], high: &['€'; 128] }];
/// let mail = parse_mail(alloc, b"Content-Disposition: =?x-euro?Q?attachment?=\n\n")?;
/// assert!(rt; is_attachment(alloc, &mail, &tables.as_slice())?);
/// assert!(rt; !is_attachment(alloc, &mail, &())?);
/// ```
pub fn is_attachment<K: KnownCharsets>(
    alloc: Global,
    part: &ParsedMail<'_>,
    known: &K,
) -> Result<bool, MailParseError>
    ensures { AnswersOrMemory (λ is. is) result
        (Ok (is_attachment (K.known known.now) (tree_of part.now))) }
{
    if !is_leaf(part) {
        return Ok(false);
    }
    let disposition = lenient_disposition(alloc, part, known)?;
    if is_attachment_disposition(&disposition) {
        return Ok(true);
    }
    let name = lenient_file_name(alloc, part, known)?;
    Ok(name.is_some())
}

/// Returns whether a message has no parts (RFC 2046, section 5.1). A forwarded message
/// (`message/rfc822`) has no parts, since its content is not parsed. Does not allocate.
///
/// # Examples
///
/// ```rust
/// use mail_read::files::is_leaf;
/// use mailparse::parse_mail;
///
/// let mail = parse_mail(alloc, b"Content-Type: multipart/mixed; boundary=b\n\n--b\n\nHi\n--b--")?;
/// assert!(rt; !is_leaf(&mail));
/// assert!(rt; is_leaf(&mail.subparts[0]));
/// ```
pub fn is_leaf(part: &ParsedMail<'_>) -> bool
    ensures { result ≡ is_leaf (tree_of part.now) }
{
    part.subparts.as_slice().is_empty()
}

/// Returns whether a part without parts of its own is a file, given its disposition and its file
/// name, for callers that have read both, by `lenient_disposition` and `lenient_file_name`;
/// `is_attachment` reads them. The disposition of a file is `attachment`, or there is a file name
/// (RFC 2183, sections 2.2 and 2.3). Does not allocate.
///
/// # Examples
///
/// ```rust
/// use mail_read::files::describes_attachment;
/// use mailparse::DispositionType;
///
/// assert!(rt; describes_attachment(&Some(DispositionType::Attachment), &None));
/// assert!(rt; describes_attachment(&None, &Some(String::from_str(alloc, "a.txt")?)));
/// assert!(rt; !describes_attachment(&Some(DispositionType::Inline), &None));
/// ```
pub fn describes_attachment(disposition: &Option<DispositionType>, name: &Option<String>) -> bool
    ensures { result
        ≡ describes_attachment (option_map kind disposition.now) (text_found name.now) }
{
    is_attachment_disposition(disposition) || name.is_some()
}

/// Returns whether there is a disposition, and it is `attachment` (RFC 2183, section 2.2). Does not
/// allocate.
///
/// # Examples
///
/// ```rust
/// use mail_read::files::is_attachment_disposition;
/// use mailparse::DispositionType;
///
/// assert!(rt; is_attachment_disposition(&Some(DispositionType::Attachment)));
/// assert!(rt; !is_attachment_disposition(&Some(DispositionType::Inline)));
/// assert!(rt; !is_attachment_disposition(&None));
/// ```
pub fn is_attachment_disposition(disposition: &Option<DispositionType>) -> bool
    ensures { result ≡ is_attachment_disposition (option_map kind disposition.now) }
{
    matches!(disposition, Some(DispositionType::Attachment))
}

/// Returns whether a part is saved when the files of a mail are extracted: it is a file by
/// `is_attachment`, or another part without parts of its own that mail readers do not show as the
/// text of a mail, by `is_shown` (RFC 2183, section 2.1).
///
/// So an image without a name, a forwarded message and the status in a delivery report count. The
/// disposition and the name are read in the charsets `known` (RFC 2231, section 4). Allocates both.
///
/// # Errors
///
/// `MailParseError::Memory` if it runs out of memory.
///
/// # Examples
///
/// ```rust
/// use mail_read::files::is_extracted;
/// use mailparse::parse_mail;
///
/// let image = parse_mail(alloc, b"Content-Type: image/png\n\n")?;
/// assert!(rt; is_extracted(alloc, &image, &())?);
/// let named = parse_mail(alloc, b"Content-Type: text/html; name=a.html\n\n")?;
/// assert!(rt; is_extracted(alloc, &named, &())?);
/// let text = parse_mail(alloc, b"Subject: Hi\n\nHi")?;
/// assert!(rt; !is_extracted(alloc, &text, &())?);
/// ```
pub fn is_extracted<K: KnownCharsets>(
    alloc: Global,
    part: &ParsedMail<'_>,
    known: &K,
) -> Result<bool, MailParseError>
    ensures { AnswersOrMemory (λ is. is) result
        (Ok (is_extracted (K.known known.now) (tree_of part.now))) }
{
    if is_leaf(part) && !is_shown(part) {
        return Ok(true);
    }
    is_attachment(alloc, part, known)
}

/// Returns whether a part is a text that mail readers show: its type is `text/plain` or
/// `text/html`, or `text` alone or an empty type, which count as plain text (RFC 2045, section
/// 5.2). A message that was kept although its headers could not be read, by `lenient::refusal`, is
/// none, since it may be a file. Does not allocate.
///
/// # Examples
///
/// ```rust
/// use mail_read::files::is_shown;
/// use mailparse::parse_mail;
///
/// assert!(rt; is_shown(&parse_mail(alloc, b"Content-Type:\n\nHi")?));
/// assert!(rt; !is_shown(&parse_mail(alloc, b"Content-Type: text/csv\n\n1,2")?));
/// ```
pub fn is_shown(part: &ParsedMail<'_>) -> bool
    ensures { result ≡ is_shown (root (tree_of part.now)) }
{
    !was_kept(part) && is_shown_type(part.ctype.mimetype.as_str())
}

/// Returns whether a type is that of a text that mail readers show.
fn is_shown_type(mimetype: &str) -> bool
    ensures { result ≡ is_shown_type mimetype.now }
{
    mimetype.is_empty() || mimetype == "text/plain" || mimetype == "text/html" || mimetype == "text"
}

/// Returns the files of a mail (RFC 2183, section 2), in the order in which they appear, each with
/// the path of its part.
///
/// Dispositions and names are read in the charsets `known` (RFC 2231, section 4). Allocates the
/// list, the paths, and each disposition and name in turn.
///
/// # Errors
///
/// `MailParseError::Memory` if it runs out of memory.
///
/// # Examples
///
/// ```rust
/// use mail_read::files::attachments;
/// use mailparse::parse_mail;
///
/// let raw = b"Content-Type: multipart/mixed; boundary=b\n\n--b\n\nHello\n\
///     --b\nContent-Disposition: attachment; filename=a.txt\n\none\n--b--\n";
/// let mail = parse_mail(alloc, raw)?;
/// let files = attachments(alloc, &mail, &())?;
/// assert_eq!(rt; files.len(), 1);
/// assert_eq!(rt; files[0].path.as_str(), "2");
/// assert_eq!(rt; files[0].part.get_body_raw(alloc)?.as_slice(), b"one".as_slice());
/// ```
pub fn attachments<'m, 'a, K: KnownCharsets>(
    alloc: Global,
    mail: &'m ParsedMail<'a>,
    known: &K,
) -> Result<Vec<Attachment<'m, 'a>>, MailParseError>
    ensures { AnswersOrMemory (λ files. map attachment_view files.items) result
        (Ok (attachments (K.known known.now) (tree_of mail.now))) }
{
    let mut found = Vec::new(alloc);
    push_places(alloc, &mut found, mail, whole_path(mail))?;
    let mut files = Vec::new(alloc);
    for place in found {
        if is_attachment(alloc, place.part, known)? {
            files.push(Attachment {
                path: place.path,
                part: place.part,
            })?;
        }
    }
    Ok(files)
}

/// Returns the path of a whole mail, as IMAP numbers parts (RFC 3501, section 6.4.5): `1`, that of
/// its body, if it has no parts, and otherwise the empty text.
///
/// # Examples
///
/// ```rust
/// use mail_read::files::whole_path;
/// use mailparse::parse_mail;
///
/// let mail = parse_mail(alloc, b"Subject: Hi\n\nHello\n")?;
/// assert_eq!(rt; whole_path(&mail), "1");
/// ```
pub fn whole_path(mail: &ParsedMail<'_>) -> &'static str
    ensures { result.now ≡ whole_path (tree_of mail.now) }
{
    if is_leaf(mail) { "1" } else { "" }
}

/// Returns the path of the part with this number, counted from 1, given the path of the message
/// that contains it (RFC 3501, section 6.4.5). Allocates the path.
///
/// # Errors
///
/// `AllocError` if it runs out of memory.
///
/// # Examples
///
/// ```rust
/// use mail_read::files::path_under;
///
/// assert_eq!(rt; path_under(alloc, "", 2)?.as_str(), "2");
/// assert_eq!(rt; path_under(alloc, "2", 1)?.as_str(), "2.1");
/// ```
#[tactic(auto, unfolding(crate::specs::Files::path_under))]
pub fn path_under(alloc: Global, path: &str, number: usize) -> Result<String, AllocError>
    ensures { IfOk result (λ text. string_bytes text ≡ path_under path.now number) }
{
    if path.is_empty() {
        format!(in alloc; "{number}")
    } else {
        format!(in alloc; "{path}.{number}")
    }
}
