//! A body that is encoded (RFC 2045, sections 6.7 and 6.8).
ghost use Rattle.std.specs.Prelude.{◌≡◌};
ghost use Rattle.mailparse.specs.Body.{in_base64, decoded, decoded_text, decoded_text_in};
ghost use Rattle.mailparse.specs.BodyViews.{encoded_content, encoded_kind};
ghost use Rattle.mailparse.specs.Outcome.{ReadsBytes, ReadsText};
ghost use Rattle.mailparse.specs.Views.{content_type};

use super::content::{BodyContent, text_under};
use crate::content_type::ParsedContentType;
use crate::error::{Base64Fault, MailParseError};
use mail_codec::charset::KnownCharsets;
use mail_codec::transfer::{decode_base64_body, decode_quoted_printable};
use std::alloc::Global;

/// The transfer encoding of an encoded body.
#[derive(Clone, Copy, Debug)]
pub(super) enum Encoding {
    Base64,
    QuotedPrintable,
}

/// A body in Base64 or quoted-printable (RFC 2045, sections 6.7 and 6.8).
#[derive(Clone, Copy, Debug)]
pub struct EncodedBody<'a> {
    pub(super) encoding: Encoding,
    pub(super) content: BodyContent<'a>,
}

impl<'a> EncodedBody<'a> {
    /// Returns the content type that the body was made with (RFC 2045, section 5).
    ///
    /// Does not allocate.
    ///
    /// # Examples
    ///
    /// ```rust
    /// use mailparse::body::Body;
    /// use mailparse::parse_mail;
    ///
    /// let mail = parse_mail(alloc, b"Content-Transfer-Encoding: base64\n\naGk=")?;
    /// let Body::Base64(body) = mail.get_body_encoded(alloc)? else {
    ///     return Err("another encoding".into());
    /// };
    /// assert_eq!(rt; body.get_content_type().charset.as_str(), "us-ascii");
    /// ```
    pub fn get_content_type(&self) -> &'a ParsedContentType
        ensures { content_type result.now ≡ (encoded_content self.now).ctype }
    {
        self.content.ctype
    }

    /// Returns the bytes of the body as they appear in the message, not decoded (RFC 2045, section
    /// 6).
    ///
    /// Does not allocate.
    ///
    /// # Examples
    ///
    /// ```rust
    /// use mailparse::body::Body;
    /// use mailparse::parse_mail;
    ///
    /// let mail = parse_mail(alloc, b"Content-Transfer-Encoding: base64\n\naGk=")?;
    /// let Body::Base64(body) = mail.get_body_encoded(alloc)? else {
    ///     return Err("another encoding".into());
    /// };
    /// assert_eq!(rt; body.get_raw(), b"aGk=".as_slice());
    /// ```
    pub fn get_raw(&self) -> &'a [u8]
        ensures { result.now ≡ (encoded_content self.now).raw }
    {
        self.content.raw
    }

    /// Returns the decoded bytes of the body (RFC 2045, sections 6.7 and 6.8).
    ///
    /// In Base64, ASCII whitespace is ignored; in quoted-printable, any text is accepted. Takes
    /// memory for the bytes, and temporary memory, as `decode_base64_body` and
    /// `decode_quoted_printable` of `mail_codec` do.
    ///
    /// # Errors
    ///
    /// `MailParseError::Base64DecodeError` if a body in Base64 is invalid, with the index, counted
    /// from 0, of the first invalid group of four; and `MailParseError::Memory` if it runs out of
    /// memory.
    ///
    /// # Examples
    ///
    /// ```rust
    /// use mailparse::body::Body;
    /// use mailparse::parse_mail;
    ///
    /// let mail = parse_mail(alloc, b"Content-Transfer-Encoding: Base64\n\naG k=\n")?;
    /// let Body::Base64(body) = mail.get_body_encoded(alloc)? else {
    ///     return Err("another encoding".into());
    /// };
    /// assert_eq!(rt; body.get_decoded(alloc)?.as_slice(), b"hi".as_slice());
    /// ```
    #[tactic(auto, unfolding(crate::specs::Body::decoded))]
    pub fn get_decoded(&self, alloc: Global) -> Result<Vec<u8>, MailParseError>
        ensures { ReadsBytes result
            (decoded (encoded_kind self.now) (encoded_content self.now).raw) }
    {
        match self.encoding {
            Encoding::Base64 => base64_body(alloc, self.get_raw()),
            Encoding::QuotedPrintable => Ok(decode_quoted_printable(alloc, self.get_raw())?),
        }
    }

    /// Returns the decoded text of the body, in the charset of its content type (RFC 2045, sections
    /// 6.7 and 6.8; RFC 2046, section 4.1.2).
    ///
    /// A byte order mark overrides that charset. If the label is unknown, each byte that is not
    /// ASCII becomes U+FFFD. Allocates the bytes and the text.
    ///
    /// # Errors
    ///
    /// `MailParseError::Base64DecodeError` if a body in Base64 is invalid, with the index, counted
    /// from 0, of the first invalid group of four; and `MailParseError::Memory` if it runs out of
    /// memory.
    ///
    /// # Examples
    ///
    /// ```rust
    /// use mailparse::body::Body;
    /// use mailparse::parse_mail;
    ///
    /// let raw = b"Content-Transfer-Encoding: quoted-printable\n\ncaf=E9";
    /// let mail = parse_mail(alloc, raw)?;
    /// let Body::QuotedPrintable(body) = mail.get_body_encoded(alloc)? else {
    ///     return Err("another encoding".into());
    /// };
    /// assert_eq!(rt; body.get_decoded_as_string(alloc)?.as_str(), "café");
    /// ```
    pub fn get_decoded_as_string(&self, alloc: Global) -> Result<String, MailParseError>
        ensures { ReadsText result (decoded_text (encoded_kind self.now)
            (encoded_content self.now).ctype.charset (encoded_content self.now).raw) }
    {
        self.get_decoded_as_string_in(alloc, &())
    }

    /// Returns the decoded text of the body as `get_decoded_as_string` does, in any charset of
    /// `known` (RFC 2045, sections 6.7 and 6.8; RFC 2046, section 4.1.2).
    ///
    /// Allocates the bytes and the text.
    ///
    /// # Errors
    ///
    /// `MailParseError::Base64DecodeError` if a body in Base64 is invalid, with the index, counted
    /// from 0, of the first invalid group of four; and `MailParseError::Memory` if it runs out of
    /// memory.
    ///
    /// # Examples
    ///
    /// ```rust
    /// use mailparse::body::Body;
    /// use mailparse::{SingleByteTable, parse_mail};
    ///
    /// let tables = [SingleByteTable { labels: &["x-euro"], high: &['€'; 128] }];
    /// let raw = b"Content-Type: text/plain; charset=x-euro\n\
    ///     Content-Transfer-Encoding: quoted-printable\n\n5 =80";
    /// let mail = parse_mail(alloc, raw)?;
    /// let Body::QuotedPrintable(body) = mail.get_body_encoded(alloc)? else {
    ///     return Err("another encoding".into());
    /// };
    /// assert_eq!(rt; body.get_decoded_as_string_in(alloc, &tables.as_slice())?.as_str(), "5 €");
    /// ```
    #[tactic(auto, unfolding(crate::specs::Body::decoded_text_in))]
    pub fn get_decoded_as_string_in<K: KnownCharsets>(
        &self,
        alloc: Global,
        known: &K,
    ) -> Result<String, MailParseError>
        ensures { ReadsText result (decoded_text_in (K.known known.now)
            (encoded_kind self.now) (encoded_content self.now).ctype.charset
            (encoded_content self.now).raw) }
    {
        let bytes = self.get_decoded(alloc)?;
        let label = self.content.ctype.charset.as_str();
        Ok(text_under(alloc, label, bytes.as_slice(), known)?)
    }
}

/// Decodes a body in Base64.
#[tactic(auto, unfolding(crate::specs::Body::decoded))]
fn base64_body(alloc: Global, body: &[u8]) -> Result<Vec<u8>, MailParseError>
    ensures { ReadsBytes result (decoded in_base64 body.now) }
{
    match decode_base64_body(alloc, body)? {
        Ok(bytes) => Ok(bytes),
        Err(group) => Err(MailParseError::Base64DecodeError(Base64Fault { group })),
    }
}
