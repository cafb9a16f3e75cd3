//! The bodies that are not encoded.
ghost use Rattle.std.specs.Prelude.{◌≡◌};
ghost use Rattle.mailparse.specs.Body.{text_under, text_under_in};
ghost use Rattle.mailparse.specs.BodyViews.{unencoded_content};
ghost use Rattle.mailparse.specs.Outcome.{GivesText};
ghost use Rattle.mailparse.specs.Views.{content_type};

use super::content::BodyContent;
use crate::content_type::ParsedContentType;
use crate::error::MailParseError;
use mail_codec::charset::KnownCharsets;
use std::alloc::Global;

/// The kind of a `TextBody`.
#[derive(Clone, Copy, Debug)]
pub struct Text;

/// The kind of a `BinaryBody`.
#[derive(Clone, Copy, Debug)]
pub struct Binary;

/// A body that is not encoded: a `TextBody` or a `BinaryBody`.
#[derive(Clone, Copy, Debug)]
pub struct UnencodedBody<'a, Kind> {
    pub(super) kind: Kind,
    pub(super) content: BodyContent<'a>,
}

/// A body of text that is not encoded (RFC 2045, sections 2.7 and 2.8).
pub type TextBody<'a> = UnencodedBody<'a, Text>;

/// A body of bytes that are not encoded (RFC 2045, section 2.9).
pub type BinaryBody<'a> = UnencodedBody<'a, Binary>;

impl<'a, Kind> UnencodedBody<'a, Kind> {
    /// Returns the content type that the body was made with (RFC 2045, section 5).
    ///
    /// Does not allocate.
    ///
    /// # Examples
    ///
    /// ```rust
    /// use mailparse::body::Body;
    /// use mailparse::parse_mail;
    ///
    /// let mail = parse_mail(alloc, b"Subject: Hi\n\nbody")?;
    /// let Body::SevenBit(body) = mail.get_body_encoded(alloc)? else {
    ///     return Err("another encoding".into());
    /// };
    /// assert_eq!(rt; body.get_content_type().charset.as_str(), "us-ascii");
    /// ```
    pub fn get_content_type(&self) -> &'a ParsedContentType
        ensures { content_type result.now ≡ (unencoded_content self.now).ctype }
    {
        self.content.ctype
    }

    /// Returns the bytes of the body as they appear in the message, not decoded (RFC 2045, section
    /// 6).
    ///
    /// Does not allocate.
    ///
    /// # Examples
    ///
    /// ```rust
    /// use mailparse::body::Body;
    /// use mailparse::parse_mail;
    ///
    /// let mail = parse_mail(alloc, b"Content-Transfer-Encoding: binary\n\nbody")?;
    /// let Body::Binary(body) = mail.get_body_encoded(alloc)? else {
    ///     return Err("another encoding".into());
    /// };
    /// assert_eq!(rt; body.get_raw(), b"body".as_slice());
    /// ```
    pub fn get_raw(&self) -> &'a [u8]
        ensures { result.now ≡ (unencoded_content self.now).raw }
    {
        self.content.raw
    }

    /// Returns the text of the body in the charset of its content type (RFC 2046, section 4.1.2).
    ///
    /// A byte order mark overrides that charset. If the label is unknown, each byte that is not
    /// ASCII becomes U+FFFD. Allocates the text.
    ///
    /// # Errors
    ///
    /// `MailParseError::Memory` if it runs out of memory.
    ///
    /// # Examples
    ///
    /// ```rust
    /// use mailparse::body::Body;
    /// use mailparse::parse_mail;
    ///
    /// let mail = parse_mail(alloc, b"Subject: Hi\n\ncaf\xE9")?;
    /// let Body::SevenBit(body) = mail.get_body_encoded(alloc)? else {
    ///     return Err("another encoding".into());
    /// };
    /// assert_eq!(rt; body.get_as_string(alloc)?.as_str(), "café");
    /// ```
    pub fn get_as_string(&self, alloc: Global) -> Result<String, MailParseError>
        ensures { GivesText result (text_under
            (unencoded_content self.now).ctype.charset (unencoded_content self.now).raw) }
    {
        self.get_as_string_in(alloc, &())
    }

    /// Returns the text of the body as `get_as_string` does, in any charset of `known` (RFC
    /// 2046, section 4.1.2).
    ///
    /// Allocates the text.
    ///
    /// # Errors
    ///
    /// `MailParseError::Memory` if it runs out of memory.
    ///
    /// # Examples
    ///
    /// ```rust
    /// use mailparse::body::Body;
    /// use mailparse::{SingleByteTable, parse_mail};
    ///
    /// let tables = [SingleByteTable { labels: &["x-euro"], high: &['€'; 128] }];
    /// let raw = b"Content-Type: text/plain; charset=x-euro\n\n5 \x80";
    /// let mail = parse_mail(alloc, raw)?;
    /// let Body::SevenBit(body) = mail.get_body_encoded(alloc)? else {
    ///     return Err("another encoding".into());
    /// };
    /// assert_eq!(rt; body.get_as_string_in(alloc, &tables.as_slice())?.as_str(), "5 €");
    /// ```
    pub fn get_as_string_in<K: KnownCharsets>(
        &self,
        alloc: Global,
        known: &K,
    ) -> Result<String, MailParseError>
        ensures { GivesText result (text_under_in (K.known known.now)
            (unencoded_content self.now).ctype.charset (unencoded_content self.now).raw) }
    {
        self.content.text_in(alloc, known)
    }
}
