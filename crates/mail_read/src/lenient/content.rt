//! The bytes of a body, even if it is damaged.
ghost use Rattle.std.specs.Prelude.{◌≡◌, ◌≤◌, length, IfErr, IfOk};
ghost use Rattle.std.specs.Cow.{cow_slice_items};
ghost use Rattle.mail_codec.specs.UuencodeViews.{file_view};
ghost use Rattle.mailparse.specs.Body.{BodyKind};
ghost use Rattle.mailparse.specs.BodyViews as bodies;
ghost use Rattle.mailparse.specs.BodyViews.{IsBody};
ghost use Rattle.mailparse.specs.Mail.{root};
ghost use Rattle.mailparse.specs.Outcome.{Answers, IsMemory};
ghost use Rattle.mailparse.specs.Views.{tree_of};
ghost use Rattle.mail_read.specs.lenient.Content.{file_content, lenient_content, message_content};
ghost use Rattle.mail_read.specs.lenient.Content.{damaged_uuencode, uuencode_content, whole};
ghost use Rattle.mail_read.specs.lenient.ContentViews.{content_view};
ghost use Rattle.mail_read.specs.lenient.Encoding.{LenientKind, standard};
ghost use Rattle.mail_read.specs.lenient.EncodingViews.{IsLenientBody};

use super::base64::base64_front;
use super::encoding::{LenientBody, lenient_body};
use mail_codec::transfer::{Uuencoded, decode_uuencode, find_uuencode, uudecoded_exceeds};
use mailparse::body::Body;
use mailparse::{Base64Fault, MailParseError, ParsedMail};
use std::alloc::{AllocError, Global};
use std::borrow::CowSlice;

/// The bytes of a body, as `lenient_content` returns them, or of a uuencoded file in a text.
#[derive(Debug, Drop)]
pub struct Content<'b> {
    /// The decoded bytes: all of them, or those that could be read.
    pub bytes: CowSlice<'b, u8>,
    /// The damage, or `None` if they are whole.
    pub fault: Option<ContentFault>,
    /// The number of bytes of a damaged body that were ignored: of Base64 as `base64_front` counts
    /// them, and of a uuencoded file those after its data.
    pub ignored: usize,
}

impl<'b> Content<'b> {
    /// Returns the decoded bytes of a body that is whole (RFC 2045, section 6). Does not allocate.
    ///
    /// # Errors
    ///
    /// The error for the damage of a body that is not.
    ///
    /// # Examples
    ///
    /// ```rust
    /// use mail_read::lenient::{lenient_body, lenient_content};
    /// use mailparse::parse_mail;
    ///
    /// let mail = parse_mail(alloc, b"Content-Transfer-Encoding: base64\n\naGVs!")?;
    /// let content = lenient_content(alloc, &lenient_body(alloc, &mail)?)?;
    /// assert!(rt; content.whole().is_err());
    /// ```
    pub fn whole(self) -> Result<CowSlice<'b, u8>, MailParseError>
        ensures { Answers cow_slice_items result (whole (content_view self.entry)) }
    {
        match self.fault {
            Some(fault) => Err(MailParseError::from(fault)),
            None => Ok(self.bytes),
        }
    }
}

/// The damage of a body, or of a uuencoded file in a text.
#[derive(Clone, Copy, Debug, PartialEq, Eq)]
pub enum ContentFault {
    /// The Base64 of the body, with the group that `Body::decoded` refuses.
    Base64(Base64Fault),
    /// A body in uuencode has no uuencoded file, the lines of the first are too short, or no line
    /// `end` follows its data.
    Uuencode,
    /// No line `end` follows the data of a uuencoded file in a text. No body has this damage.
    TextFile,
}

impl From<ContentFault> for MailParseError {
    ghost use Rattle.std.specs.Prelude.{Some};
    ghost use Rattle.mailparse.specs.Outcome.{refusal_of};
    ghost use Rattle.mail_read.specs.lenient.ContentViews.{fault_view};

    ghost from_gives = { λ fault error. refusal_of error ≡ Some (fault_view fault) };

    fn from(fault: ContentFault) -> MailParseError {
        match fault {
            ContentFault::Base64(fault) => MailParseError::Base64DecodeError(fault),
            ContentFault::Uuencode => {
                MailParseError::Generic("The body has no whole uuencoded file")
            }
            ContentFault::TextFile => {
                MailParseError::Generic("No line `end` follows the data of the uuencoded file")
            }
        }
    }
}

/// Returns the bytes of a body without its transfer encoding (RFC 2045, section 6): those that
/// `Body::decoded` returns, or if that refuses damaged Base64, those that `base64_front` returns,
/// the fault, and how many bytes were ignored.
///
/// Of a body in uuencode they are those of the first uuencoded file in it, as `find_uuencode` and
/// `decode_uuencode` of `mail_codec::transfer` read it. If the file is damaged, they are those of
/// its data. If there is no file, they are those of the body itself, and so they are if the lines
/// of the file are so short that they encode more bytes than they have.
///
/// Borrows the body if it is not encoded or its bytes are the result, and otherwise allocates them.
///
/// # Errors
///
/// `MailParseError::Memory` if it runs out of memory.
///
/// # Examples
///
/// ```rust
/// use mail_read::lenient::{ContentFault, lenient_body, lenient_content};
/// use mailparse::{Base64Fault, parse_mail};
///
/// let mail = parse_mail(alloc, b"Content-Transfer-Encoding: base64\n\naGVs!\nbG8=")?;
/// let body = lenient_body(alloc, &mail)?;
/// let content = lenient_content(alloc, &body)?;
/// assert_eq!(rt; content.bytes.as_slice(), b"hello".as_slice());
/// assert_eq!(rt; content.fault, Some(ContentFault::Base64(Base64Fault { group: 1 })));
/// assert_eq!(rt; content.ignored, 1);
/// ```
pub fn lenient_content<'b>(
    alloc: Global,
    body: &LenientBody<'b>,
) -> Result<Content<'b>, MailParseError>
    ensures read { (kind : LenientKind) (given : bodies.Content) →
        IsLenientBody kind given body.now →
        IfOk result (λ content. content_view content ≡ lenient_content kind given.raw) }
    ensures only_memory { IfErr result IsMemory }
{
    match body {
        LenientBody::Standard(body) => standard_content(alloc, body),
        LenientBody::Uuencode(raw) => Ok(uuencode_content(alloc, raw)?),
    }
}

/// Returns the bytes of a body in an encoding of RFC 2045.
fn standard_content<'b>(alloc: Global, body: &Body<'b>) -> Result<Content<'b>, MailParseError>
    ensures read { (kind : BodyKind) (given : bodies.Content) → IsBody kind given body.now →
        IfOk result (λ content.
        content_view content ≡ lenient_content (standard kind) given.raw) }
    ensures only_memory { IfErr result IsMemory }
{
    let error = match body.decoded(alloc) {
        Ok(bytes) => {
            return Ok(Content {
                bytes,
                fault: None,
                ignored: 0,
            });
        }
        Err(error) => error,
    };
    match error {
        MailParseError::Base64DecodeError(fault) => {
            let front = base64_front(alloc, body.get_raw())?;
            Ok(Content {
                bytes: CowSlice::Owned(front.bytes),
                fault: Some(ContentFault::Base64(fault)),
                ignored: front.ignored,
            })
        }
        error => Err(error),
    }
}

/// Returns the bytes of the first uuencoded file in a body, or those of the body if it has none.
#[tactic(auto, unfolding(crate::specs::lenient::Content::uuencode_content))]
fn uuencode_content<'b>(alloc: Global, raw: &'b [u8]) -> Result<Content<'b>, AllocError>
    ensures { IfOk result (λ content. content_view content ≡ uuencode_content raw.now) }
{
    match find_uuencode(raw) {
        Some(file) => file_content(alloc, raw, &file),
        None => Ok(damaged_uuencode(CowSlice::Borrowed(raw), 0)),
    }
}

/// Returns the bytes of a uuencoded file in a body.
fn file_content<'b>(
    alloc: Global,
    raw: &'b [u8],
    file: &Uuencoded,
) -> Result<Content<'b>, AllocError>
    requires lines { (file.now.lines.start ≤ file.now.lines.end)
        × (file.now.lines.end ≤ length raw.now) }
    requires block { file.now.block.end ≤ length raw.now }
    ensures { IfOk result (λ content.
        content_view content ≡ file_content raw.now (file_view file.now)) }
{
    let lines = &raw[file.lines.start..file.lines.end];
    if uudecoded_exceeds(lines, lines.len()) {
        return Ok(damaged_uuencode(CowSlice::Borrowed(raw), 0));
    }
    let decoded = decode_uuencode(alloc, lines)?;
    let bytes = CowSlice::Owned(decoded.bytes);
    if file.is_ended {
        return Ok(Content {
            bytes,
            fault: None,
            ignored: 0,
        });
    }
    Ok(damaged_uuencode(bytes, raw.len() - file.block.end))
}

/// Returns bytes that are not all of a body in uuencode.
fn damaged_uuencode(bytes: CowSlice<'_, u8>, ignored: usize) -> Content<'_>
    ensures { content_view result
        ≡ damaged_uuencode (cow_slice_items bytes.entry) ignored }
{
    Content {
        bytes,
        fault: Some(ContentFault::Uuencode),
        ignored,
    }
}

/// Returns the bytes of the body of a part without its transfer encoding (RFC 2045, section 6), as
/// `lenient_content` reads them. Allocates unless the body is not encoded.
///
/// # Errors
///
/// `MailParseError::Memory` if it runs out of memory.
///
/// # Examples
///
/// ```rust
/// use mail_read::lenient::part_content;
/// use mailparse::parse_mail;
///
/// let mail = parse_mail(alloc, b"Content-Transfer-Encoding: base64\n\nSGk=\n")?;
/// assert!(rt; part_content(alloc, &mail)?.bytes.as_slice() == b"Hi".as_slice());
/// ```
pub fn part_content<'m>(
    alloc: Global,
    part: &'m ParsedMail<'_>,
) -> Result<Content<'m>, MailParseError>
    ensures read { IfOk result (λ content.
        cow_slice_items content.bytes ≡ (message_content (root (tree_of part.now))).bytes) }
    ensures only_memory { IfErr result IsMemory }
{
    let body = lenient_body(alloc, part)?;
    lenient_content(alloc, &body)
}
