//! One header of a message: its key and its value, as bytes and as text.
ghost use Rattle.std.specs.Prelude.{◌≡◌, ◌↔◌, Ok, IfOk, IsOk, IsErr, IsAscii, string_bytes};
ghost use Rattle.std.specs.Cow.{cow_str_bytes, IsBorrowedStr};
ghost use Rattle.mailparse.specs.Header.{Header, key_text};
ghost use Rattle.mailparse.specs.Outcome.{Answers, AnswersOrMemory, GivesText, ReadsText};
ghost use Rattle.mailparse.specs.Value.{IsPlain, lenient_value, lenient_value_in, strict_value};

pub(crate) mod bare;
mod encoded_word;
pub(crate) mod parse;
pub(crate) mod plain;
mod tokens;
mod unfolded;
mod value;

use crate::error::MailParseError;
use crate::lossy_text::LossyText;
use mail_codec::charset::{KnownCharsets, decode_latin1};
use std::alloc::{AllocError, Global};
use std::borrow::CowStr;
use std::marker::Model;
use std::{fmt, str};
use value::{value_of, value_ref};

/// A header of a message (RFC 5322, section 2.2): the bytes of its key and of its value, as they
/// appear in the message.
#[derive(Drop)]
pub struct MailHeader<'a> {
    key: &'a [u8],
    value: &'a [u8],
}

/// A contract sees the bytes of the key and of the value.
impl<'a> Model for MailHeader<'a> {
    ghost Value = { Header };

    ghost view = { λ h. record { key = h.key.now; value = h.value.now } };
}

impl<'a> MailHeader<'a> {
    /// Returns the key as text: one character for each byte, the one with the same number (RFC
    /// 5322, section 2.2; IANA's ISO-8859-1).
    ///
    /// Allocates the text; `get_key_ref` borrows it if it can.
    ///
    /// # Errors
    ///
    /// `MailParseError::Memory` if it runs out of memory.
    ///
    /// # Examples
    ///
    /// ```rust
    /// use mailparse::parse_header;
    ///
    /// let (header, _) = parse_header(b"Subject: Hi")?;
    /// assert_eq!(rt; header.get_key(alloc)?.as_str(), "Subject");
    /// ```
    pub fn get_key(&self, alloc: Global) -> Result<String, MailParseError>
        ensures { GivesText result (key_text self.now) }
    {
        let text = decode_latin1(alloc, self.get_key_raw())?;
        Ok(text.into_owned(alloc)?)
    }

    /// Returns the key as text, as `get_key` does, borrowed if and only if all its bytes are ASCII
    /// (RFC 5322, section 2.2).
    ///
    /// When it borrows, it succeeds without allocating.
    ///
    /// # Errors
    ///
    /// `MailParseError::Memory` if it runs out of memory.
    ///
    /// # Examples
    ///
    /// ```rust
    /// use mailparse::parse_header;
    ///
    /// let (header, _) = parse_header(b"Subject: Hi")?;
    /// assert_eq!(rt; header.get_key_ref(alloc)?.as_str(), "Subject");
    /// ```
    pub fn get_key_ref(&self, alloc: Global) -> Result<CowStr<'_>, MailParseError>
        ensures read { AnswersOrMemory (λ text. cow_str_bytes text) result
            (Ok (key_text self.now)) }
        ensures borrowed { IfOk result (λ text. IsBorrowedStr text ↔ IsAscii self.now.key) }
        ensures no_alloc { IsAscii self.now.key → IsOk result }
    {
        Ok(decode_latin1(alloc, self.get_key_raw())?)
    }

    /// Returns the value as text: its lines are unfolded, with a space for each line end that
    /// shows, and its encoded words are decoded (RFC 5322, section 2.2.3; RFC 2047, sections 2, 4
    /// and 6.2).
    ///
    /// Bytes that are not UTF-8 are read as Latin-1, one character for each byte; `get_value_utf8`
    /// refuses them. Allocates the text.
    ///
    /// Control characters, such as ESC and LF, stay in the text, including those from encoded
    /// words. On a terminal they may move the cursor, and in a log they may forge a line: escape
    /// them first.
    ///
    /// # Errors
    ///
    /// `MailParseError::Memory` if it runs out of memory.
    ///
    /// # Examples
    ///
    /// ```rust
    /// use mailparse::parse_header;
    ///
    /// let (header, _) = parse_header(b"Subject: =?utf-8?Q?caf=C3=A9?=\r\n at noon")?;
    /// assert_eq!(rt; header.get_value(alloc)?.as_str(), "café at noon");
    /// let (header, _) = parse_header(b"Subject: caf\xE9")?;
    /// assert_eq!(rt; header.get_value(alloc)?.as_str(), "café");
    /// ```
    pub fn get_value(&self, alloc: Global) -> Result<String, MailParseError>
        ensures { GivesText result (lenient_value self.now.value) }
    {
        Ok(self.get_value_ref(alloc)?.into_owned(alloc)?)
    }

    /// Returns the text of the value as `get_value` does, with encoded words in any charset that
    /// `known` knows (RFC 2047, section 2).
    ///
    /// Allocates the text.
    ///
    /// Control characters stay in the text, as with `get_value`: escape them before showing the
    /// text on a terminal or writing it to a log.
    ///
    /// # Errors
    ///
    /// `MailParseError::Memory` if it runs out of memory.
    ///
    /// # Examples
    ///
    /// ```rust
    /// use mailparse::{SingleByteTable, parse_header};
    ///
    /// let tables = [SingleByteTable { labels: &["x-euro"], high: &['€'; 128] }];
    /// let (header, _) = parse_header(b"Subject: =?X-Euro?Q?5_=80?=")?;
    /// assert_eq!(rt; header.get_value_in(alloc, &tables.as_slice())?.as_str(), "5 €");
    /// assert_eq!(rt; header.get_value_in(alloc, &())?.as_str(), "=?X-Euro?Q?5_=80?=");
    /// ```
    pub fn get_value_in<K: KnownCharsets>(
        &self,
        alloc: Global,
        known: &K,
    ) -> Result<String, MailParseError>
        ensures { GivesText result (lenient_value_in (K.known known.now) self.now.value) }
    {
        Ok(self.get_value_ref_in(alloc, known)?.into_owned(alloc)?)
    }

    /// Returns the text of the value as `get_value` does, borrowed if it is plain: printable ASCII
    /// without `=?` that does not begin with a space (RFC 5322, section 2.2; RFC 2047, section 2).
    ///
    /// When it is plain, it succeeds without allocating. The text of another value of one line may
    /// be borrowed too. Control characters stay in it, as with `get_value`.
    ///
    /// # Errors
    ///
    /// `AllocError` if it runs out of memory.
    ///
    /// # Examples
    ///
    /// ```rust
    /// use mailparse::parse_header;
    ///
    /// let (header, _) = parse_header(b"Subject: Hi there")?;
    /// assert_eq!(rt; header.get_value_ref(alloc)?.as_str(), "Hi there");
    /// ```
    pub fn get_value_ref(&self, alloc: Global) -> Result<CowStr<'_>, AllocError>
        ensures read { IfOk result (λ text. cow_str_bytes text ≡ lenient_value self.now.value) }
        ensures borrowed { IsPlain self.now.value → IfOk result (λ text. IsBorrowedStr text) }
        ensures no_alloc { IsPlain self.now.value → IsOk result }
    {
        self.get_value_ref_in(alloc, &())
    }

    /// Returns the text of the value as `get_value_in` does, borrowed as by `get_value_ref` (RFC
    /// 2047, section 2).
    ///
    /// # Errors
    ///
    /// `AllocError` if it runs out of memory; never for a plain value, as `get_value_ref` says.
    ///
    /// # Examples
    ///
    /// ```rust
    /// use mailparse::{SingleByteTable, parse_header};
    ///
    /// let tables = [SingleByteTable { labels: &["x-euro"], high: &['€'; 128] }];
    /// let (header, _) = parse_header(b"Subject: =?X-Euro?Q?5_=80?=")?;
    /// let text = header.get_value_ref_in(alloc, &tables.as_slice())?;
    /// assert_eq!(rt; text.as_str(), "5 €");
    /// ```
    #[tactic(auto, using(crate::proofs::lemmas::Value::header_values))]
    pub fn get_value_ref_in<K: KnownCharsets>(
        &self,
        alloc: Global,
        known: &K,
    ) -> Result<CowStr<'_>, AllocError>
        ensures read { IfOk result (λ text.
            cow_str_bytes text ≡ lenient_value_in (K.known known.now) self.now.value) }
        ensures borrowed { IsPlain self.now.value → IfOk result (λ text. IsBorrowedStr text) }
        ensures no_alloc { IsPlain self.now.value → IsOk result }
    {
        match str::from_utf8(self.get_value_raw()) {
            Ok(text) => value_ref(alloc, text, known),
            Err(_) => {
                let text = decode_latin1(alloc, self.get_value_raw())?.into_owned(alloc)?;
                Ok(CowStr::Owned(value_of(alloc, text, known)?))
            }
        }
    }

    /// Returns the value as text, as `get_value` does, but only if its bytes are UTF-8 (RFC 6532).
    ///
    /// Allocates the text, and nothing if it refuses the bytes.
    ///
    /// # Errors
    ///
    /// `MailParseError::EncodingError` if the bytes are not UTF-8, and `MailParseError::Memory` if
    /// it runs out of memory.
    ///
    /// # Examples
    ///
    /// ```rust
    /// use mailparse::parse_header;
    ///
    /// let (header, _) = parse_header(b"Subject: caf\xC3\xA9")?;
    /// assert_eq!(rt; header.get_value_utf8(alloc)?.as_str(), "café");
    /// let (header, _) = parse_header(b"Subject: caf\xE9")?;
    /// assert!(rt; header.get_value_utf8(alloc).is_err());
    /// ```
    #[tactic(auto, using(crate::proofs::lemmas::Value::header_values), unfolding(crate::specs::Value::strict_value))]
    pub fn get_value_utf8(&self, alloc: Global) -> Result<String, MailParseError>
        ensures read { ReadsText result (strict_value self.now.value) }
        ensures no_alloc { IsErr (strict_value self.now.value) →
            Answers (λ text. string_bytes text) result (strict_value self.now.value) }
    {
        let Ok(text) = str::from_utf8(self.get_value_raw()) else {
            return Err(MailParseError::EncodingError(CowStr::Borrowed(
                "Invalid UTF-8 in header value",
            )));
        };
        Ok(value_ref(alloc, text, &())?.into_owned(alloc)?)
    }

    /// Returns the bytes of the key as they appear in the message, including any spaces before the
    /// colon (RFC 5322, section 2.2).
    ///
    /// Does not allocate.
    ///
    /// # Examples
    ///
    /// ```rust
    /// use mailparse::parse_header;
    ///
    /// let (header, _) = parse_header(b"To : you")?;
    /// assert_eq!(rt; header.get_key_raw(), b"To ".as_slice());
    /// ```
    pub fn get_key_raw(&self) -> &[u8]
        ensures { result.now ≡ self.now.key }
    {
        self.key
    }

    /// Returns the bytes of the value as they appear in the message: without the spaces at its
    /// front and all CR and LF at its end, but with the line ends inside it (RFC 5322, section
    /// 2.2).
    ///
    /// Does not allocate.
    ///
    /// # Examples
    ///
    /// ```rust
    /// use mailparse::parse_header;
    ///
    /// let (header, _) = parse_header(b"A:  b \r\n\tc\r\n\r\n")?;
    /// assert_eq!(rt; header.get_value_raw(), b"b \r\n\tc".as_slice());
    /// ```
    pub fn get_value_raw(&self) -> &[u8]
        ensures { result.now ≡ self.now.value }
    {
        self.value
    }
}

/// Returns the text of some bytes as the value of a header, as `get_value` reads it (RFC 5322,
/// section 2.2.3; RFC 2047, sections 2, 4 and 6.2). The bytes may be a part of a value.
///
/// Allocates the text. Control characters stay in it, as with `get_value`.
///
/// # Errors
///
/// `MailParseError::Memory` if it runs out of memory.
///
/// # Examples
///
/// ```rust
/// use mailparse::value_text;
///
/// assert_eq!(rt; value_text(alloc, b"=?utf-8?Q?caf=C3=A9?=")?.as_str(), "café");
/// ```
pub fn value_text(alloc: Global, value: &[u8]) -> Result<String, MailParseError>
    ensures { GivesText result (lenient_value value.now) }
{
    let header = MailHeader { key: value, value };
    header.get_value(alloc)
}

/// Returns the text of some bytes as the value of a header, as `get_value_in` reads it (RFC 2047,
/// section 2).
///
/// Allocates the text. Control characters stay in it, as with `get_value`.
///
/// # Errors
///
/// `MailParseError::Memory` if it runs out of memory.
///
/// # Examples
///
/// ```rust
/// use mailparse::{SingleByteTable, value_text_in};
///
/// let tables = [SingleByteTable { labels: &["x-euro"], high: &['€'; 128] }];
/// let text = value_text_in(alloc, b"=?X-Euro?Q?5_=80?=", &tables.as_slice())?;
/// assert_eq!(rt; text.as_str(), "5 €");
/// ```
pub fn value_text_in<K: KnownCharsets>(
    alloc: Global,
    value: &[u8],
    known: &K,
) -> Result<String, MailParseError>
    ensures { GivesText result (lenient_value_in (K.known known.now) value.now) }
{
    let header = MailHeader { key: value, value };
    header.get_value_in(alloc, known)
}

/// Shows the key and the value, with U+FFFD for bytes that are not UTF-8.
impl fmt::Debug for MailHeader<'_> {
    fn fmt<W: fmt::Write>(&self, f: &mut fmt::Formatter<W>) -> fmt::Result {
        f.debug_struct("MailHeader")
            .field("key", &LossyText(self.key))
            .field("value", &LossyText(self.value))
            .finish()
    }
}
