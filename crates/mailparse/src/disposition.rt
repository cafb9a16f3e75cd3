//! How a part of a message is to be shown.
ghost use Rattle.std.specs.Prelude.{◌≡◌, IfOk, IsOk, Ok};
ghost use Rattle.std.specs.Str.{str_to_ascii_lowercase};
ghost use Rattle.mailparse.specs.Disposition.{IsNamed, default_disposition, disposition_in, disposition_named, disposition_of};
ghost use Rattle.mailparse.specs.Outcome.{AnswersOrMemory};
ghost use Rattle.mailparse.specs.Views.{disposition, kind};

use crate::ascii_case::lower_case;
use crate::error::MailParseError;
use crate::parameters::parameters;
use mail_codec::charset::KnownCharsets;
use std::alloc::{AllocError, Global};
use std::collections::BTreeMap;

/// The kind of a disposition (RFC 2183, section 2).
#[derive(Debug, Drop, PartialEq)]
pub enum DispositionType {
    /// To be shown with the message; an empty text means this too.
    Inline,
    /// To be kept apart from the message, and opened on demand.
    Attachment,
    /// A field of a form (RFC 7578, section 4.2).
    FormData,
    /// Any other text, in ASCII lower case.
    Extension(String),
}

/// The default is `Inline`.
impl Default for DispositionType {
    ghost use Rattle.mailparse.specs.Disposition.{inline};
    ghost use Rattle.mailparse.specs.Views.{kind};
    ghost use Rattle.std.specs.Prelude.{◌≡◌};

    ghost is_default = { λ d. kind d ≡ inline };

    fn default() -> DispositionType {
        DispositionType::Inline
    }
}

impl DispositionType {
    /// Returns an equal value.
    ///
    /// Allocates only the text of an `Extension`.
    ///
    /// # Errors
    ///
    /// `MailParseError::Memory` if it runs out of memory.
    ///
    /// # Examples
    ///
    /// ```rust
    /// use mailparse::DispositionType;
    ///
    /// let kind = DispositionType::Attachment.clone(alloc)?;
    /// assert!(rt; kind == DispositionType::Attachment);
    /// ```
    pub fn clone(&self, alloc: Global) -> Result<DispositionType, MailParseError>
        ensures same { AnswersOrMemory kind result (Ok (kind self.now)) }
        ensures no_alloc { IsNamed (kind self.now) → IsOk result }
    {
        match self {
            DispositionType::Inline => Ok(DispositionType::Inline),
            DispositionType::Attachment => Ok(DispositionType::Attachment),
            DispositionType::FormData => Ok(DispositionType::FormData),
            DispositionType::Extension(name) => Ok(DispositionType::Extension(String::from_str(
                alloc,
                name.as_str(),
            )?)),
        }
    }
}

/// How a message or part is to be shown, and the parameters, such as a file name (RFC 2183, section
/// 2).
#[derive(Debug, Drop)]
pub struct ParsedContentDisposition {
    /// The kind of the disposition.
    pub disposition: DispositionType,
    /// All parameters by name in ASCII lower case.
    pub params: BTreeMap<String, String>,
}

impl ParsedContentDisposition {
    /// Returns the disposition of a message without a `Content-Disposition`: `Inline`, without
    /// parameters.
    ///
    /// Does not allocate.
    ///
    /// # Examples
    ///
    /// ```rust
    /// use mailparse::{DispositionType, ParsedContentDisposition};
    ///
    /// let shown = ParsedContentDisposition::default(alloc);
    /// assert!(rt; shown.disposition == DispositionType::Inline);
    /// ```
    pub fn default(alloc: Global) -> ParsedContentDisposition
        ensures { disposition result ≡ default_disposition }
    {
        ParsedContentDisposition {
            disposition: DispositionType::Inline,
            params: BTreeMap::new(alloc),
        }
    }
}

/// Reads the value of a `Content-Disposition` header, as `get_value` returns it (RFC 2183, section
/// 2; RFC 2231, sections 3 and 4).
///
/// The kind is the text before the first semicolon outside quotes, without whitespace around it and
/// in ASCII lower case: `inline`, `attachment` and `form-data` have variants of their own, any
/// other text is an `Extension`, and an empty text means `Inline`. Any value is accepted. Takes
/// memory for the text and the parameters.
///
/// # Errors
///
/// `MailParseError::Memory` if it runs out of memory.
///
/// # Examples
///
/// ```rust
/// use mailparse::{DispositionType, parse_content_disposition};
///
/// let value = "attachment; filename*0*=utf-8''%E2%82; filename*1*=%AC.txt";
/// let shown = parse_content_disposition(alloc, value)?;
/// assert!(rt; shown.disposition == DispositionType::Attachment);
/// assert_eq!(rt; shown.params.get("filename").ok_or("no name")?.as_str(), "€.txt");
/// ```
pub fn parse_content_disposition(
    alloc: Global,
    text: &str,
) -> Result<ParsedContentDisposition, MailParseError>
    ensures { AnswersOrMemory disposition result (Ok (disposition_of text.now)) }
{
    parse_content_disposition_in(alloc, text, &())
}

/// Reads the value of a `Content-Disposition` header as `parse_content_disposition` does, with
/// extended parameters in any charset of `known` (RFC 2231, section 4).
///
/// Allocates the text and the parameters.
///
/// # Errors
///
/// `MailParseError::Memory` if it runs out of memory.
///
/// # Examples
///
/// ```rust
/// use mailparse::{SingleByteTable, parse_content_disposition_in};
///
/// let tables = [SingleByteTable { labels: &["x-euro"], high: &['€'; 128] }];
/// let value = "attachment; filename*=x-euro''5%80.txt";
/// let shown = parse_content_disposition_in(alloc, value, &tables.as_slice())?;
/// assert_eq!(rt; shown.params.get("filename").ok_or("no name")?.as_str(), "5€.txt");
/// ```
pub fn parse_content_disposition_in<K: KnownCharsets>(
    alloc: Global,
    text: &str,
    known: &K,
) -> Result<ParsedContentDisposition, MailParseError>
    ensures { AnswersOrMemory disposition result
        (Ok (disposition_in (K.known known.now) text.now)) }
{
    let (value, params) = parameters(alloc, text, known)?;
    Ok(ParsedContentDisposition {
        disposition: kind_named(alloc, value)?,
        params,
    })
}

/// Reads the kind of a disposition.
fn kind_named(alloc: Global, value: &str) -> Result<DispositionType, AllocError>
    ensures { IfOk result (λ d. kind d ≡ disposition_named (str_to_ascii_lowercase value.now)) }
{
    let name = lower_case(alloc, value)?;
    match name.as_str() {
        "" | "inline" => Ok(DispositionType::Inline),
        "attachment" => Ok(DispositionType::Attachment),
        "form-data" => Ok(DispositionType::FormData),
        _ => Ok(DispositionType::Extension(name)),
    }
}
