//! The type of a message, and what it implies for its parts.
ghost use Rattle.std.specs.Prelude.{◌≡◌, ◌∷◌, option_map, IfOk};
ghost use Rattle.mail_codec.specs.Ascii.{line_feed};
ghost use Rattle.mailparse.specs.Mail.{dash_boundary_of, is_digest, node_type, part_type};
ghost use Rattle.mailparse.specs.Views.{content_type, in_digest};

use crate::content_type::{
    DEFAULT_CHARSET, DEFAULT_MIMETYPE, ParsedContentType, read_content_type,
};
use crate::header::MailHeader;
use crate::headers::map::MailHeaderMap;
use mail_codec::charset::KnownCharsets;
use std::alloc::{AllocError, Global};
use std::collections::BTreeMap;

/// The type of a message without a `Content-Type` (RFC 2045, section 5.2; RFC 2046, section 5.1.5).
///
/// # Examples
///
/// ```rust
/// use mailparse::parse_mail;
///
/// let raw = b"Content-Type: multipart/digest; boundary=b\n\n--b\n\nSubject: Hi\n\n--b--\n";
/// let mail = parse_mail(alloc, raw)?;
/// assert_eq!(rt; mail.subparts[0].ctype.mimetype.as_str(), "message/rfc822");
/// ```
#[derive(Clone, Copy, Debug, PartialEq, Eq)]
pub enum DefaultType {
    /// `text/plain`: of a mail, and of a part of anything but a digest.
    Text,
    /// `message/rfc822`: of a part of a `multipart/digest`.
    Message,
}

impl DefaultType {
    /// Returns the type, in `us-ascii` and without parameters (RFC 2045, section 5.2).
    ///
    /// Allocates the two texts.
    ///
    /// # Errors
    ///
    /// `AllocError` if it runs out of memory.
    ///
    /// # Examples
    ///
    /// ```rust
    /// use mailparse::DefaultType;
    ///
    /// let ctype = DefaultType::Message.content_type(alloc)?;
    /// assert_eq!(rt; ctype.mimetype.as_str(), "message/rfc822");
    /// ```
    pub fn content_type(self, alloc: Global) -> Result<ParsedContentType, AllocError>
        ensures { IfOk result (λ ctype. content_type ctype ≡ part_type (in_digest self)) }
    {
        let mimetype = match self {
            DefaultType::Text => DEFAULT_MIMETYPE,
            DefaultType::Message => "message/rfc822",
        };
        Ok(ParsedContentType {
            mimetype: String::from_str(alloc, mimetype)?,
            charset: String::from_str(alloc, DEFAULT_CHARSET)?,
            params: BTreeMap::new(alloc),
        })
    }
}

/// Returns the type of a message with these headers: that of its first `Content-Type`, otherwise
/// the default.
#[tactic(auto, using(crate::proofs::lemmas::Mail::node_types))]
pub(crate) fn node_type<K: KnownCharsets>(
    alloc: Global,
    headers: &Vec<MailHeader<'_>>,
    default: DefaultType,
    known: &K,
) -> Result<ParsedContentType, AllocError>
    ensures { IfOk result (λ ctype. content_type ctype
        ≡ node_type (K.known known.now) (in_digest default) headers.now.items) }
{
    match headers.get_first_header("Content-Type") {
        Some(header) => {
            let value = header.get_value_ref_in(alloc, known)?;
            read_content_type(alloc, value.as_str(), known)
        }
        None => default.content_type(alloc),
    }
}

/// Returns the default type of the parts of a message of this type.
pub(super) fn parts_default(ctype: &ParsedContentType) -> DefaultType
    ensures { in_digest result ≡ is_digest (content_type ctype.now) }
{
    if ctype.mimetype.as_str() == "multipart/digest" {
        DefaultType::Message
    } else {
        DefaultType::Text
    }
}

/// Returns the line delimiter of the parts, a LF and the dash-boundary, or `None` if a message of
/// this type has no parts.
pub(super) fn line_delimiter_of(
    alloc: Global,
    ctype: &ParsedContentType,
) -> Result<Option<Vec<u8>>, AllocError>
    ensures { IfOk result (λ made. option_map (λ bytes. bytes.items) made
        ≡ option_map (λ dash_boundary. line_feed ∷ dash_boundary)
        (dash_boundary_of (content_type ctype.now))) }
{
    if !ctype.mimetype.starts_with("multipart") {
        return Ok(None);
    }
    let Some(boundary) = ctype.params.get("boundary") else {
        return Ok(None);
    };
    let mut line_delimiter = Vec::with_capacity(alloc, 3 + boundary.len())?;
    line_delimiter.extend_from_slice(b"\n--")?;
    line_delimiter.extend_from_slice(boundary.as_bytes())?;
    Ok(Some(line_delimiter))
}
