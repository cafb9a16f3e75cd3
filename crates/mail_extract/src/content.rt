//! The bytes of a file that can be read.
ghost use Rattle.std.specs.Prelude.{◌≡◌, false, option_map, IfErr, IfOk};
ghost use Rattle.mailparse.specs.Mail.{root};
ghost use Rattle.mailparse.specs.Outcome.{IsMemory};
ghost use Rattle.mailparse.specs.Views.{tree_of};
ghost use Rattle.mail_read.specs.lenient.ContentViews.{content_view, fault_view};
ghost use Rattle.mail_parts.specs.DecodedViews.{IsDecoded, decoded_tree};
ghost use Rattle.mail_extract.specs.Content.{after_headers, content, is_in_headers, rest_content};
ghost use Rattle.mail_extract.specs.ContentViews.{damage_view, file_view};

use crate::stray::has_stray_line;
use mail_parts::Decoded;
use mail_read::lenient::{Content, ContentFault, lenient_body, lenient_content};
use mailparse::{MailParseError, ParsedMail};
use std::alloc::Global;
use std::borrow::CowSlice;

/// Why a file is damaged whose content may be among its headers.
const IN_HEADERS: &str = "Nothing follows the headers, and a line of them is no header";

/// The bytes of a file that can be read.
#[derive(Debug, Drop)]
pub struct FileContent<'c> {
    /// The bytes.
    pub bytes: CowSlice<'c, u8>,
    /// The damage, or `None` if they are whole.
    pub damage: Option<Damage>,
    /// The number of bytes of a damaged body that were ignored.
    pub ignored: usize,
}

/// The damage of a file.
#[derive(Clone, Copy, Debug, PartialEq, Eq)]
pub enum Damage {
    /// That of its body, or of a uuencoded file in a text.
    Body(ContentFault),
    /// Nothing follows its headers, and a line of them is no header.
    InHeaders,
}

impl Damage {
    /// Returns the error that the damage is.
    pub(crate) fn error(self) -> MailParseError {
        match self {
            Damage::Body(fault) => MailParseError::from(fault),
            Damage::InHeaders => MailParseError::Generic(IN_HEADERS),
        }
    }
}

/// Returns the content of a body, or of a uuencoded file in a text, as that of a file.
pub(crate) fn file_content<'c>(content: Content<'c>) -> FileContent<'c>
    ensures { file_view result ≡ content_view content.entry }
{
    FileContent {
        damage: damage_of(content.fault),
        ignored: content.ignored,
        bytes: content.bytes,
    }
}

/// Returns the fault of a body as the damage of a file.
fn damage_of(fault: Option<ContentFault>) -> Option<Damage>
    ensures { option_map damage_view result ≡ option_map fault_view fault }
{
    match fault {
        Some(fault) => Some(Damage::Body(fault)),
        None => None,
    }
}

/// What can be read of a part. Where its body is empty, as that of a multipart whose delimiter
/// never comes, it is all that follows its headers.
pub fn content_of<'m>(
    alloc: Global,
    part: &'m ParsedMail<'_>,
) -> Result<FileContent<'m>, MailParseError>
    ensures read { IfOk result (λ read. file_view read ≡ content (root (tree_of part.now))) }
    ensures only_memory { IfErr result IsMemory }
{
    let body = lenient_body(alloc, part)?;
    if body.get_raw().is_empty() {
        return Ok(rest_of(part));
    }
    let read = lenient_content(alloc, &body)?;
    Ok(file_content(read))
}

/// All bytes after the headers of a part, which are damaged if a line of the headers may be
/// content.
fn rest_of<'m>(part: &'m ParsedMail<'_>) -> FileContent<'m>
    ensures { file_view result ≡ rest_content (root (tree_of part.now)) }
{
    let bytes = CowSlice::Borrowed(after_headers(part));
    if is_in_headers(part) {
        return FileContent {
            bytes,
            damage: Some(Damage::InHeaders),
            ignored: 0,
        };
    }
    FileContent {
        bytes,
        damage: None,
        ignored: 0,
    }
}

/// Returns whether nothing follows the headers of a part, and a line of them is no header, so that
/// it may be the content without an empty line before it.
fn is_in_headers(part: &ParsedMail<'_>) -> bool
    ensures { result ≡ is_in_headers (root (tree_of part.now)) }
{
    let headers = part.get_headers();
    after_headers(part).is_empty() && has_stray_line(headers.get_raw_bytes())
}

/// What can be read of a part, as `content_of` returns it, where the mail that a part contains was
/// decoded already.
pub(crate) fn saved_content<'c>(
    alloc: Global,
    part: &'c Decoded<'_, '_, '_>,
) -> Result<FileContent<'c>, MailParseError>
    requires { IsDecoded false part.now }
    ensures read { IfOk result (λ read.
        file_view read ≡ content (root (decoded_tree part.now))) }
    ensures only_memory { IfErr result IsMemory }
{
    if part.body.get_raw().is_empty() {
        return content_of(alloc, part.place.part);
    }
    match &part.mail {
        Some(mail) => Ok(FileContent {
            bytes: CowSlice::Borrowed(mail.bytes.as_slice()),
            damage: damage_of(mail.fault),
            ignored: mail.ignored,
        }),
        None => content_of(alloc, part.place.part),
    }
}

/// The bytes of a part that follow its headers.
fn after_headers<'a>(part: &ParsedMail<'a>) -> &'a [u8]
    ensures { result.now ≡ after_headers (root (tree_of part.now)) }
{
    let headers = part.get_headers();
    let raw: &'a [u8] = part.raw_bytes;
    match raw.get(headers.get_raw_bytes().len()..) {
        Some(rest) => rest,
        None => &[],
    }
}
