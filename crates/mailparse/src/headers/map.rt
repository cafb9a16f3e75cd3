//! Looking headers up by their names.
ghost use Rattle.std.specs.Prelude.{◌≡◌, map, List, IsOk, IsNone, IsTrue, Ok};
ghost use Rattle.std.specs.Option.{option_copied};
ghost use Rattle.std.specs.Str.{IsAscii, str_eq_ignore_ascii_case};
ghost use Rattle.mail_codec.specs.Latin1.{latin1_text};
ghost use Rattle.mailparse.specs.Map.{first_with_key, all_with_key, first_value, first_value_in};
ghost use Rattle.mailparse.specs.Map.{all_values, all_values_in, text_found};
ghost use Rattle.mailparse.specs.Outcome.{AnswersOrMemory, GivesTexts};

use super::Headers;
use crate::error::MailParseError;
use crate::header::MailHeader;
use mail_codec::charset::KnownCharsets;
use std::alloc::Global;

/// A list of headers, in the order of the message, with lookup by name (RFC 5322, section 2.2).
///
/// A name is compared with the text of the whole key, one character for each byte. Only ASCII case
/// is ignored (following RFC 5322, section 1.2.2): a space before the colon belongs to the key.
///
/// An implementation provides `headers`; the lookups follow from it.
pub trait MailHeaderMap {
    ghost use Rattle.mailparse.specs.Header.{Header};
    // The headers that the map has now.
    ghost present: { Self → List Header };

    /// Returns the headers, in the order of the message (RFC 5322, section 2.2).
    ///
    /// Does not allocate.
    ///
    /// # Examples
    ///
    /// ```rust
    /// use mailparse::{MailHeaderMap, parse_mail};
    ///
    /// let mail = parse_mail(alloc, b"To: a\nTo: b\n\n")?;
    /// assert_eq!(rt; mail.get_headers().headers().len(), 2);
    /// ```
    fn headers(&self) -> &[MailHeader<'_>]
        ensures { result.now ≡ present self.now };

    /// Returns the first header with this name (RFC 5322, section 2.2), or `None` if there is none.
    ///
    /// Does not allocate.
    ///
    /// # Examples
    ///
    /// ```rust
    /// use mailparse::{MailHeaderMap, parse_headers};
    ///
    /// let (headers, _) = parse_headers(alloc, b"To: a\nTo: b\n")?;
    /// let header = headers.get_first_header("TO").ok_or("no header")?;
    /// assert_eq!(rt; header.get_value_raw(), b"a".as_slice());
    /// assert!(rt; headers.get_first_header("Cc").is_none());
    /// ```
    fn get_first_header(&self, key: &str) -> Option<&MailHeader<'_>>
        ensures { option_copied result ≡ first_with_key key.now (present self.now) }
    {
        let name = Name::new(key);
        for header in self.headers() {
            if name.is_key(header.get_key_raw()) {
                return Some(header);
            }
        }
        None
    }

    /// Returns the value of the first header with this name (RFC 5322, section 2.2), as
    /// `MailHeader::get_value` reads it, or `None` if there is none.
    ///
    /// Allocates the value, and nothing if there is no such header.
    ///
    /// # Errors
    ///
    /// `MailParseError::Memory` if it runs out of memory.
    ///
    /// # Examples
    ///
    /// ```rust
    /// use mailparse::{MailHeaderMap, parse_headers};
    ///
    /// let (headers, _) = parse_headers(alloc, b"To: a\nTo: b\n")?;
    /// let value = headers.get_first_value(alloc, "To")?.ok_or("no header")?;
    /// assert_eq!(rt; value.as_str(), "a");
    /// assert!(rt; headers.get_first_value(alloc, "Cc")?.is_none());
    /// ```
    fn get_first_value(&self, alloc: Global, key: &str) -> Result<Option<String>, MailParseError>
        ensures read { AnswersOrMemory text_found result
            (Ok (first_value key.now (present self.now))) }
        ensures no_alloc { IsNone (first_with_key key.now (present self.now)) → IsOk result }
    {
        self.get_first_value_in(alloc, key, &())
    }

    /// Returns the value of the first header with this name (RFC 5322, section 2.2), as
    /// `MailHeader::get_value_in` reads it, or `None` if there is none.
    ///
    /// Allocates the value, and nothing if there is no such header.
    ///
    /// # Errors
    ///
    /// `MailParseError::Memory` if it runs out of memory.
    ///
    /// # Examples
    ///
    /// ```rust
    /// use mailparse::{MailHeaderMap, SingleByteTable, parse_headers};
    ///
    /// let tables = [SingleByteTable { labels: &["x-euro"], high: &['€'; 128] }];
    /// let (headers, _) = parse_headers(alloc, b"To: =?x-euro?Q?5_=80?=\n")?;
    /// let value = headers.get_first_value_in(alloc, "To", &tables.as_slice())?;
    /// assert_eq!(rt; value.ok_or("no header")?.as_str(), "5 €");
    /// ```
    fn get_first_value_in<K: KnownCharsets>(
        &self,
        alloc: Global,
        key: &str,
        known: &K,
    ) -> Result<Option<String>, MailParseError>
        ensures read { AnswersOrMemory text_found result
            (Ok (first_value_in (K.known known.now) key.now (present self.now))) }
        ensures no_alloc { IsNone (first_with_key key.now (present self.now)) → IsOk result }
    {
        match self.get_first_header(key) {
            None => Ok(None),
            Some(header) => Ok(Some(header.get_value_in(alloc, known)?)),
        }
    }

    /// Returns the values of all headers with this name (RFC 5322, section 2.2), as
    /// `MailHeader::get_value` reads them, in the order of the message.
    ///
    /// Allocates the values and their list, and nothing if there is no such header.
    ///
    /// # Errors
    ///
    /// `MailParseError::Memory` if it runs out of memory.
    ///
    /// # Examples
    ///
    /// ```rust
    /// use mailparse::{MailHeaderMap, parse_headers};
    ///
    /// let (headers, _) = parse_headers(alloc, b"To: a\nCc: c\nTo: b\n")?;
    /// let values = headers.get_all_values(alloc, "To")?;
    /// assert_eq!(rt; values.len(), 2);
    /// assert_eq!(rt; values[1].as_str(), "b");
    /// ```
    fn get_all_values(&self, alloc: Global, key: &str) -> Result<Vec<String>, MailParseError>
        ensures read { GivesTexts result (all_values key.now (present self.now)) }
        ensures no_alloc { IsNone (first_with_key key.now (present self.now)) → IsOk result }
    {
        self.get_all_values_in(alloc, key, &())
    }

    /// Returns the values of all headers with this name (RFC 5322, section 2.2), as
    /// `MailHeader::get_value_in` reads them, in the order of the message.
    ///
    /// Allocates the values and their list, and nothing if there is no such header.
    ///
    /// # Errors
    ///
    /// `MailParseError::Memory` if it runs out of memory.
    ///
    /// # Examples
    ///
    /// ```rust
    /// use mailparse::{MailHeaderMap, SingleByteTable, parse_headers};
    ///
    /// let tables = [SingleByteTable { labels: &["x-euro"], high: &['€'; 128] }];
    /// let (headers, _) = parse_headers(alloc, b"To: a\nTo: =?x-euro?Q?5_=80?=\n")?;
    /// let values = headers.get_all_values_in(alloc, "To", &tables.as_slice())?;
    /// assert_eq!(rt; values[1].as_str(), "5 €");
    /// ```
    fn get_all_values_in<K: KnownCharsets>(
        &self,
        alloc: Global,
        key: &str,
        known: &K,
    ) -> Result<Vec<String>, MailParseError>
        ensures read { GivesTexts result
            (all_values_in (K.known known.now) key.now (present self.now)) }
        ensures no_alloc { IsNone (first_with_key key.now (present self.now)) → IsOk result }
    {
        let name = Name::new(key);
        let mut values = Vec::new(alloc);
        for header in self.headers() {
            if name.is_key(header.get_key_raw()) {
                values.push(header.get_value_in(alloc, known)?)?;
            }
        }
        Ok(values)
    }

    /// Returns all headers with this name (RFC 5322, section 2.2), in the order of the message.
    ///
    /// Allocates the list, and nothing if there is no such header.
    ///
    /// # Errors
    ///
    /// `MailParseError::Memory` if it runs out of memory.
    ///
    /// # Examples
    ///
    /// ```rust
    /// use mailparse::{MailHeaderMap, parse_headers};
    ///
    /// let (headers, _) = parse_headers(alloc, b"To: a\nCc: c\nTo: b\n")?;
    /// let found = headers.get_all_headers(alloc, "To")?;
    /// assert_eq!(rt; found.len(), 2);
    /// assert_eq!(rt; found[1].get_value_raw(), b"b".as_slice());
    /// ```
    fn get_all_headers(
        &self,
        alloc: Global,
        key: &str,
    ) -> Result<Vec<&MailHeader<'_>>, MailParseError>
        ensures read { AnswersOrMemory (λ v. map (λ h. h.now) v.items) result
            (Ok (all_with_key key.now (present self.now))) }
        ensures no_alloc { IsNone (first_with_key key.now (present self.now)) → IsOk result }
    {
        let name = Name::new(key);
        let mut found = Vec::new(alloc);
        for header in self.headers() {
            if name.is_key(header.get_key_raw()) {
                found.push(header)?;
            }
        }
        Ok(found)
    }
}

impl MailHeaderMap for Vec<MailHeader<'_>> {
    ghost present = { λ v. v.items };

    fn headers(&self) -> &[MailHeader<'_>] {
        self.as_slice()
    }
}

impl MailHeaderMap for Headers<'_> {
    ghost present = { λ block. block.headers };

    fn headers(&self) -> &[MailHeader<'_>] {
        self.headers
    }
}

/// A name to look for, and whether it is ASCII, as nearly every name is.
#[derive(Clone, Copy, Debug)]
struct Name<'n> {
    text: &'n str,
    is_ascii: bool,
}

impl<'n> Name<'n> {
    fn new(text: &'n str) -> Name<'n>
        ensures same { result.text.now ≡ text.now }
        ensures ascii { IsTrue result.is_ascii → IsAscii text.now }
    {
        Name {
            text,
            is_ascii: text.is_ascii(),
        }
    }

    /// Whether the bytes of a key are the characters of this name, ignoring ASCII case.
    ///
    /// The bytes of an ASCII name are compared as they are first, since most mails spell a name as
    /// the caller does.
    #[inline(always)]
    fn is_key(&self, key: &[u8]) -> bool
        requires ascii { IsTrue self.now.is_ascii → IsAscii self.now.text.now }
        ensures { result ≡ str_eq_ignore_ascii_case (latin1_text key.now) self.now.text.now }
    {
        if !self.is_ascii {
            return is_spelled_by(key, self.text);
        }
        let wanted = self.text.as_bytes();
        if key.len() != wanted.len() {
            return false;
        }
        key == wanted || key.eq_ignore_ascii_case(wanted)
    }
}

/// Whether the bytes of a key are the characters of a name, ignoring ASCII case.
fn is_spelled_by(key: &[u8], name: &str) -> bool
    ensures { result ≡ str_eq_ignore_ascii_case (latin1_text key.now) name.now }
{
    let mut rest = key;
    for character in name.chars() {
        let Some((byte, others)) = rest.split_first() else {
            return false;
        };
        if !char::from(*byte).eq_ignore_ascii_case(&character) {
            return false;
        }
        rest = others;
    }
    rest.is_empty()
}
