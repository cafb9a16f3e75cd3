//! The body of a message: its transfer encoding, its bytes and its text.
ghost use Rattle.std.specs.Prelude.{◌≡◌, ◌↔◌, true, false, IfOk, IsOk};
ghost use Rattle.std.specs.Cow.{IsBorrowedSlice, cow_slice_items};
ghost use Rattle.mailparse.specs.Body.{BodyKind, decoded, is_encoded, kind_named};
ghost use Rattle.mailparse.specs.BodyViews.{Content, IsBody, body_content, kind_of, name_of};
ghost use Rattle.mailparse.specs.Outcome.{AnswersOrMemory};
ghost use Rattle.mailparse.specs.Views.{content_type};

mod content;
mod encoded;
mod unencoded;

use crate::content_type::ParsedContentType;
use crate::error::MailParseError;
use content::BodyContent;
pub(crate) use content::text_under;
pub use encoded::EncodedBody;
use encoded::Encoding;
use std::alloc::Global;
use std::borrow::CowSlice;
pub use unencoded::{Binary, BinaryBody, Text, TextBody, UnencodedBody};

/// A body by its transfer encoding (RFC 2045, section 6).
#[derive(Debug, Drop)]
pub enum Body<'a> {
    /// A body in Base64 (RFC 2045, section 6.8).
    Base64(EncodedBody<'a>),
    /// A body in quoted-printable (RFC 2045, section 6.7).
    QuotedPrintable(EncodedBody<'a>),
    /// A body that is not encoded: its encoding is `7bit` (RFC 2045, section 2.7), absent or
    /// unknown. Its bytes and line lengths are not checked.
    SevenBit(TextBody<'a>),
    /// A body whose encoding is `8bit` (RFC 2045, section 2.8). Its line lengths are not checked.
    EightBit(TextBody<'a>),
    /// A body whose encoding is `binary` (RFC 2045, section 2.9).
    Binary(BinaryBody<'a>),
}

impl<'a> Body<'a> {
    /// Returns the body with these bytes and this content type, in the transfer encoding that
    /// `transfer_encoding` names (RFC 2045, section 6).
    ///
    /// The names are exactly `base64`, `quoted-printable`, `7bit`, `8bit` and `binary`, in lower
    /// case; any other text, or `None`, means `7bit`. Does not allocate.
    /// `ParsedMail::get_body_encoded` returns the body of a message.
    ///
    /// # Examples
    ///
    /// ```rust
    /// use mailparse::ParsedContentType;
    /// use mailparse::body::Body;
    ///
    /// let ctype = ParsedContentType::default(alloc)?;
    /// let name = Some(String::from_str(alloc, "base64")?);
    /// let Body::Base64(body) = Body::new(b"aGk=", &ctype, &name) else {
    ///     return Err("another encoding".into());
    /// };
    /// assert_eq!(rt; body.get_decoded_as_string(alloc)?.as_str(), "hi");
    /// ```
    #[tactic(auto, unfolding(crate::specs::Body::kind_named))]
    pub fn new(
        body: &'a [u8],
        ctype: &'a ParsedContentType,
        transfer_encoding: &Option<String>,
    ) -> Body<'a>
        ensures { IsBody (kind_named (name_of transfer_encoding.now))
            (record { raw = body.entry.now; ctype = content_type ctype.entry.now }) result }
    {
        let content = BodyContent { raw: body, ctype };
        let text = TextBody {
            kind: Text,
            content,
        };
        let Some(name) = transfer_encoding else {
            return Body::SevenBit(text);
        };
        match name.as_str() {
            "base64" => Body::Base64(EncodedBody {
                encoding: Encoding::Base64,
                content,
            }),
            "quoted-printable" => Body::QuotedPrintable(EncodedBody {
                encoding: Encoding::QuotedPrintable,
                content,
            }),
            "8bit" => Body::EightBit(text),
            "binary" => Body::Binary(BinaryBody {
                kind: Binary,
                content,
            }),
            _ => Body::SevenBit(text),
        }
    }

    /// Returns the bytes of the body as they appear in the message, not decoded (RFC 2045, section
    /// 6), whatever its transfer encoding.
    ///
    /// Does not allocate.
    ///
    /// # Examples
    ///
    /// ```rust
    /// use mailparse::parse_mail;
    ///
    /// let mail = parse_mail(alloc, b"Content-Transfer-Encoding: base64\n\naGk=")?;
    /// assert_eq!(rt; mail.get_body_encoded(alloc)?.get_raw(), b"aGk=".as_slice());
    /// ```
    pub fn get_raw(&self) -> &'a [u8]
        ensures value { result.now ≡ (body_content self.now).raw }
        ensures made { (kind : BodyKind) (given : Content) → IsBody kind given self.now →
            result.now ≡ given.raw }
    {
        match self {
            Body::Base64(body) | Body::QuotedPrintable(body) => body.get_raw(),
            Body::SevenBit(body) | Body::EightBit(body) => body.get_raw(),
            Body::Binary(body) => body.get_raw(),
        }
    }

    /// Returns the decoded bytes of the body: its transfer encoding is undone, and the charset is
    /// ignored (RFC 2045, section 6).
    ///
    /// A body that is not encoded is borrowed without allocating. Any other allocates the
    /// decoded bytes.
    ///
    /// # Errors
    ///
    /// `MailParseError::Base64DecodeError` if a body in Base64 is invalid, with the index, counted
    /// from 0, of the first invalid group of four; and `MailParseError::Memory` if it runs out of
    /// memory.
    ///
    /// # Examples
    ///
    /// ```rust
    /// use mailparse::parse_mail;
    ///
    /// let mail = parse_mail(alloc, b"Content-Transfer-Encoding: base64\n\naGk=")?;
    /// let body = mail.get_body_encoded(alloc)?;
    /// assert_eq!(rt; body.decoded(alloc)?.as_slice(), b"hi".as_slice());
    /// ```
    #[tactic(auto, unfolding(crate::specs::Body::decoded))]
    pub fn decoded(&self, alloc: Global) -> Result<CowSlice<'a, u8>, MailParseError>
        ensures value { AnswersOrMemory cow_slice_items result
            (decoded (kind_of self.now) (body_content self.now).raw) }
        ensures made { (kind : BodyKind) (given : Content) → IsBody kind given self.now →
            AnswersOrMemory cow_slice_items result (decoded kind given.raw) }
        ensures borrowed { IfOk result (λ bytes.
            IsBorrowedSlice bytes ↔ is_encoded (kind_of self.now) ≡ false) }
        ensures no_alloc { is_encoded (kind_of self.now) ≡ false → IsOk result }
    {
        match self {
            Body::Base64(body) | Body::QuotedPrintable(body) => {
                Ok(CowSlice::Owned(body.get_decoded(alloc)?))
            }
            Body::SevenBit(body) | Body::EightBit(body) => Ok(CowSlice::Borrowed(body.get_raw())),
            Body::Binary(body) => Ok(CowSlice::Borrowed(body.get_raw())),
        }
    }
}
