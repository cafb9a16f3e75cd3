//! The errors of the library.
ghost use Rattle.std.specs.Prelude.{◌≡◌};
ghost use Rattle.mailparse.specs.RefusalKinds.{error_kind, text_kind};
ghost use Rattle.mailparse.specs.Wrapped.{HasSource};

use std::alloc::{AllocError, AllocFailed};
use std::borrow::CowStr;
use thiserror::Error;

/// Why a call refuses its input, or that it runs out of memory.
#[derive(Debug, Drop, Error)]
pub enum MailParseError {
    /// A body that is not quoted-printable. No call returns it, since any text is accepted.
    #[error("QuotedPrintable decode error: {0}")]
    QuotedPrintableDecodeError(QuotedPrintableFault),
    /// A body that is not Base64.
    #[error("Base64 decode error: {0}")]
    Base64DecodeError(Base64Fault),
    /// Bytes that are not text in the required encoding; the text says which.
    #[error("Encoding error: {0}")]
    EncodingError(CowStr<'static>),
    /// Malformed input; the text says what is wrong with it.
    #[error("{0}")]
    Generic(&'static str),
    /// The call runs out of memory.
    #[error("out of memory")]
    Memory(AllocError),
}

/// The fault of a text that is not quoted-printable. No call returns it.
#[derive(Clone, Copy, Debug, PartialEq, Eq, Error)]
#[error("no quoted-printable text")]
pub struct QuotedPrintableFault;

/// The fault of a text that is not Base64.
#[derive(Clone, Copy, Debug, PartialEq, Eq, Error)]
#[error("group {group} is no Base64 group")]
pub struct Base64Fault {
    /// The index, counted from 0, of the first invalid group of four.
    pub group: usize,
}

/// The fault that an error wraps, as `MailParseError::source` returns it.
#[derive(Clone, Copy, Debug)]
pub enum Wrapped<'a> {
    /// The fault of a quoted-printable text.
    QuotedPrintable(&'a QuotedPrintableFault),
    /// The fault of a Base64 text.
    Base64(&'a Base64Fault),
}

/// The kind of a refusal.
#[derive(Clone, Copy, Debug, PartialEq, Eq)]
pub enum RefusalKind {
    /// A header begins with a space.
    LeadingSpace,
    /// A CR without a LF comes where a header or the blank line should begin.
    LoneCarriageReturn,
    /// A part is nested deeper than the limit.
    TooDeep,
    /// The message has more parts and headers than the limit.
    TooMany,
    /// A body is not Base64.
    NotBase64,
    /// Bytes are not text in the encoding that was asked for.
    NotText,
    /// Any other refusal.
    Other,
}

impl MailParseError {
    /// Returns the kind of the refusal, or `None` if the call ran out of memory.
    ///
    /// Does not allocate.
    ///
    /// # Examples
    ///
    /// ```rust
    /// use mailparse::{RefusalKind, parse_mail};
    ///
    /// let error = parse_mail(alloc, b" Subject: Hi").err().ok_or("no error")?;
    /// assert!(rt; error.refusal() == Some(RefusalKind::LeadingSpace));
    /// ```
    pub fn refusal(&self) -> Option<RefusalKind>
        ensures { result ≡ error_kind self.now }
    {
        match self {
            MailParseError::Generic(text) => Some(text_kind(text)),
            MailParseError::EncodingError(_) => Some(RefusalKind::NotText),
            MailParseError::Base64DecodeError(_) => Some(RefusalKind::NotBase64),
            MailParseError::QuotedPrintableDecodeError(_) => Some(RefusalKind::Other),
            MailParseError::Memory(_) => None,
        }
    }

    /// Returns the fault that the error wraps: that of the two decode errors, otherwise `None`.
    ///
    /// Does not allocate.
    ///
    /// # Examples
    ///
    /// ```rust
    /// use mailparse::{Wrapped, parse_mail};
    ///
    /// let mail = parse_mail(alloc, b"Content-Transfer-Encoding: base64\n\naGk=a")?;
    /// let error = mail.get_body(alloc).err().ok_or("no error")?;
    /// let Some(Wrapped::Base64(fault)) = error.source() else {
    ///     return Err("another fault".into());
    /// };
    /// assert_eq!(rt; fault.group, 1);
    /// ```
    pub fn source(&self) -> Option<Wrapped<'_>>
        ensures { HasSource self.now result }
    {
        match self {
            MailParseError::QuotedPrintableDecodeError(fault) => {
                Some(Wrapped::QuotedPrintable(fault))
            }
            MailParseError::Base64DecodeError(fault) => Some(Wrapped::Base64(fault)),
            _ => None,
        }
    }
}

/// Returns the kind of a refusal with this text.
fn text_kind(text: &str) -> RefusalKind
    ensures { result ≡ text_kind text.now }
{
    match text {
        "Header cannot start with a space; it is likely an overhanging line from a previous header" =>
            { RefusalKind::LeadingSpace }
        "Headers were followed by an unexpected lone CR character!" => {
            RefusalKind::LoneCarriageReturn
        }
        "Recursion limit reached" => RefusalKind::TooDeep,
        "Too many parts and headers" => RefusalKind::TooMany,
        _ => RefusalKind::Other,
    }
}

impl From<QuotedPrintableFault> for MailParseError {
    ghost use Rattle.mailparse.specs.declared.error.MailParseError.TheVariants.{QuotedPrintableDecodeError};

    ghost from_gives = { λ fault error. error ≡ QuotedPrintableDecodeError fault };

    fn from(fault: QuotedPrintableFault) -> MailParseError {
        MailParseError::QuotedPrintableDecodeError(fault)
    }
}

impl From<Base64Fault> for MailParseError {
    ghost use Rattle.mailparse.specs.declared.error.MailParseError.TheVariants.{Base64DecodeError};

    ghost from_gives = { λ fault error. error ≡ Base64DecodeError fault };

    fn from(fault: Base64Fault) -> MailParseError {
        MailParseError::Base64DecodeError(fault)
    }
}

impl From<CowStr<'static>> for MailParseError {
    ghost use Rattle.mailparse.specs.declared.error.MailParseError.TheVariants.{EncodingError};

    ghost from_gives = { λ text error. error ≡ EncodingError text };

    fn from(text: CowStr<'static>) -> MailParseError {
        MailParseError::EncodingError(text)
    }
}

impl From<AllocError> for MailParseError {
    ghost use Rattle.mailparse.specs.declared.error.MailParseError.TheVariants.{Memory};

    ghost from_gives = { λ e error. error ≡ Memory e };

    fn from(e: AllocError) -> MailParseError {
        MailParseError::Memory(e)
    }
}

impl<T: Drop> From<AllocFailed<T>> for MailParseError {
    ghost use Rattle.mailparse.specs.declared.error.MailParseError.TheVariants.{Memory};
    ghost use Rattle.std.specs.Prelude.{alloc_error};

    ghost from_gives = { λ _ error. error ≡ Memory alloc_error };

    fn from(e: AllocFailed<T>) -> MailParseError {
        MailParseError::Memory(AllocError::from(e))
    }
}
