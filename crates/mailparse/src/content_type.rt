//! The content type of a message.
ghost use Rattle.std.specs.Prelude.{◌≡◌, IfOk, Ok, string_bytes};
ghost use Rattle.mailparse.specs.ContentType.{charset_named, content_type_in, content_type_of, default_type};
ghost use Rattle.mailparse.specs.Outcome.{AnswersOrMemory};
ghost use Rattle.mailparse.specs.Pairs.{text_at};
ghost use Rattle.mailparse.specs.Views.{content_type};

use crate::ascii_case::lower_case;
use crate::error::MailParseError;
use crate::parameters::parameters;
use mail_codec::charset::KnownCharsets;
use std::alloc::{AllocError, Global};
use std::collections::BTreeMap;

/// The type of a message without a `Content-Type`.
pub(crate) const DEFAULT_MIMETYPE: &str = "text/plain";

/// The charset of a type without that parameter.
pub(crate) const DEFAULT_CHARSET: &str = "us-ascii";

/// A content type, with its charset and its parameters (RFC 2045, section 5).
#[derive(Debug, Drop)]
pub struct ParsedContentType {
    /// The type and the subtype in ASCII lower case, as `text/plain`.
    pub mimetype: String,
    /// The label of the charset of a text, or `us-ascii` if none is given.
    pub charset: String,
    /// All parameters by name in ASCII lower case, including the charset if it is given.
    pub params: BTreeMap<String, String>,
}

impl ParsedContentType {
    /// Returns the type of a message without a `Content-Type`: `text/plain` in `us-ascii`, without
    /// parameters (RFC 2045, section 5.2).
    ///
    /// Allocates the two texts.
    ///
    /// # Errors
    ///
    /// `MailParseError::Memory` if it runs out of memory.
    ///
    /// # Examples
    ///
    /// ```rust
    /// use mailparse::ParsedContentType;
    ///
    /// let ctype = ParsedContentType::default(alloc)?;
    /// assert_eq!(rt; ctype.mimetype.as_str(), "text/plain");
    /// assert_eq!(rt; ctype.charset.as_str(), "us-ascii");
    /// assert_eq!(rt; ctype.params.len(), 0);
    /// ```
    pub fn default(alloc: Global) -> Result<ParsedContentType, MailParseError>
        ensures { AnswersOrMemory content_type result (Ok default_type) }
    {
        Ok(ParsedContentType {
            mimetype: String::from_str(alloc, DEFAULT_MIMETYPE)?,
            charset: String::from_str(alloc, DEFAULT_CHARSET)?,
            params: BTreeMap::new(alloc),
        })
    }
}

/// Reads the value of a `Content-Type` header, as `get_value` returns it (RFC 2045, section 5.1;
/// RFC 2231, sections 3 and 4).
///
/// The type is the text before the first semicolon outside quotes, without whitespace around it and
/// in ASCII lower case; it need not be a known type. The charset is the parameter of that name,
/// which also stays in the parameters, or `us-ascii` if there is none. Any text is accepted. Takes
/// memory for the texts and the parameters.
///
/// # Errors
///
/// `MailParseError::Memory` if it runs out of memory.
///
/// # Examples
///
/// ```rust
/// use mailparse::parse_content_type;
///
/// let ctype = parse_content_type(alloc, "Text/HTML; charset=utf-8; name=\"a;b\"")?;
/// assert_eq!(rt; ctype.mimetype.as_str(), "text/html");
/// assert_eq!(rt; ctype.charset.as_str(), "utf-8");
/// assert_eq!(rt; ctype.params.get("name").ok_or("no name")?.as_str(), "a;b");
/// assert_eq!(rt; ctype.params.len(), 2);
/// ```
pub fn parse_content_type(alloc: Global, text: &str) -> Result<ParsedContentType, MailParseError>
    ensures { AnswersOrMemory content_type result (Ok (content_type_of text.now)) }
{
    Ok(read_content_type(alloc, text, &())?)
}

/// Reads the value of a `Content-Type` header as `parse_content_type` does, with extended
/// parameters in any charset of `known` (RFC 2231, section 4).
///
/// Allocates the texts and the parameters.
///
/// # Errors
///
/// `MailParseError::Memory` if it runs out of memory.
///
/// # Examples
///
/// ```rust
/// use mailparse::{SingleByteTable, parse_content_type_in};
///
/// let tables = [SingleByteTable { labels: &["x-euro"], high: &['€'; 128] }];
/// let value = "text/plain; name*=x-euro''5%80";
/// let ctype = parse_content_type_in(alloc, value, &tables.as_slice())?;
/// assert_eq!(rt; ctype.params.get("name").ok_or("no name")?.as_str(), "5€");
/// ```
pub fn parse_content_type_in<K: KnownCharsets>(
    alloc: Global,
    text: &str,
    known: &K,
) -> Result<ParsedContentType, MailParseError>
    ensures { AnswersOrMemory content_type result
        (Ok (content_type_in (K.known known.now) text.now)) }
{
    Ok(read_content_type(alloc, text, known)?)
}

/// Reads the value of a `Content-Type` header.
pub(crate) fn read_content_type<K: KnownCharsets>(
    alloc: Global,
    text: &str,
    known: &K,
) -> Result<ParsedContentType, AllocError>
    ensures { IfOk result (λ ctype.
        content_type ctype ≡ content_type_in (K.known known.now) text.now) }
{
    let (value, params) = parameters(alloc, text, known)?;
    let mimetype = lower_case(alloc, value)?;
    let charset = charset_of(alloc, &params)?;
    Ok(ParsedContentType {
        mimetype,
        charset,
        params,
    })
}

/// Returns the charset of the parameters, or the default one.
fn charset_of(alloc: Global, params: &BTreeMap<String, String>) -> Result<String, AllocError>
    ensures { IfOk result (λ label. string_bytes label ≡ charset_named (text_at params.now)) }
{
    match params.get("charset") {
        Some(label) => String::from_str(alloc, label.as_str()),
        None => String::from_str(alloc, DEFAULT_CHARSET),
    }
}
