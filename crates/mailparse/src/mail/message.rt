//! A message, or a part of one, with its calls, and the iterator over it and its parts.
ghost use Rattle.std.specs.Prelude.{◌≡◌, ◌<◌, ◌^◌, ◌++◌, length, map, IfErr, IfOk, Ok, OnOk};
ghost use Rattle.mailparse.specs.BodyViews.{IsBody, content_of};
ghost use Rattle.mailparse.specs.Mail.{block_of, body_bytes, body_kind, body_text, body_text_in, root, shown_as, shown_as_in, trees_within};
ghost use Rattle.mailparse.specs.Outcome.{AnswersOrMemory, IsMemory, ReadsText, ReadsBytes};
ghost use Rattle.mailparse.specs.Views.{disposition, placement_of, tree_of, trees_left};

use crate::body::{Body, text_under};
use crate::content_type::ParsedContentType;
use crate::disposition::{ParsedContentDisposition, parse_content_disposition_in};
use crate::error::MailParseError;
use crate::header::MailHeader;
use crate::headers::Headers;
use crate::headers::map::MailHeaderMap;
use mail_codec::charset::KnownCharsets;
use std::alloc::{AllocError, Global};
use std::fmt::{self, Debug, Formatter, Write};
use std::ops::Range;

/// A parsed message, or a part of one (RFC 5322, section 2.1; RFC 2046, section 5.1).
///
/// It borrows the bytes of the message. The public fields may be changed; the methods use their
/// current values.
#[derive(Drop)]
pub struct ParsedMail<'a> {
    /// The bytes of the message.
    pub raw_bytes: &'a [u8],
    /// The bytes of its header block, including the blank line.
    pub(super) header_bytes: &'a [u8],
    /// Its headers (RFC 5322, section 2.2), in the order in which they appear.
    pub headers: Vec<MailHeader<'a>>,
    /// Its content type (RFC 2045, section 5).
    pub ctype: ParsedContentType,
    /// The bytes of its body; for a message with parts, those of the preamble.
    pub(super) body_bytes: &'a [u8],
    /// Its parts (RFC 2046, section 5.1), in the order in which they appear.
    pub subparts: Vec<ParsedMail<'a>>,
    /// The range of its bytes in the mail that was parsed.
    pub(super) range: Range<usize>,
    /// The range of the bytes of its body in the mail that was parsed.
    pub(super) body_range: Range<usize>,
}

/// Shows the fields of the crate's own type.
impl<'a> Debug for ParsedMail<'a> {
    fn fmt<W: Write>(&self, f: &mut Formatter<W>) -> fmt::Result {
        f.debug_struct("ParsedMail")
            .field("raw_bytes", &self.raw_bytes)
            .field("header_bytes", &self.header_bytes)
            .field("headers", &self.headers)
            .field("ctype", &self.ctype)
            .field("body_bytes", &self.body_bytes)
            .field("subparts", &self.subparts)
            .finish()
    }
}

impl<'a> ParsedMail<'a> {
    /// Returns the range of the message's bytes in the mail that was parsed, counted from 0: for a
    /// part, that of the part (RFC 2046, section 5.1).
    ///
    /// It is the range found by parsing, whatever `raw_bytes` is set to later. Does not allocate.
    ///
    /// # Examples
    ///
    /// ```rust
    /// use mailparse::parse_mail;
    ///
    /// let raw = b"Content-Type: multipart/mixed; boundary=b\n\n--b\n\none\n--b--\n";
    /// let mail = parse_mail(alloc, raw)?;
    /// assert_eq!(rt; mail.byte_range(), 0..58);
    /// assert_eq!(rt; &raw[mail.subparts[0].byte_range()], b"\none".as_slice());
    /// ```
    pub fn byte_range(&self) -> Range<usize>
        ensures { (placement_of self.now).whole
            ≡ record { start = result.start; end = result.end } }
    {
        self.range.start..self.range.end
    }

    /// Returns the range of the body's bytes in the mail that was parsed, counted from 0; for a
    /// message with parts, that of the preamble (RFC 2046, section 5.1).
    ///
    /// The bytes there are those of `get_body_encoded`: nothing is decoded. Does not allocate.
    ///
    /// # Examples
    ///
    /// ```rust
    /// use mailparse::parse_mail;
    ///
    /// let raw = b"Content-Type: multipart/mixed; boundary=b\n\n--b\n\none\n--b--\n";
    /// let mail = parse_mail(alloc, raw)?;
    /// assert_eq!(rt; mail.body_range(), 43..43);
    /// assert_eq!(rt; &raw[mail.subparts[0].body_range()], b"one".as_slice());
    /// ```
    pub fn body_range(&self) -> Range<usize>
        ensures { (placement_of self.now).body
            ≡ record { start = result.start; end = result.end } }
    {
        self.body_range.start..self.body_range.end
    }

    /// Returns the header block (RFC 5322, section 2.2): its bytes, and the headers that are
    /// currently in `headers`.
    ///
    /// Does not allocate.
    ///
    /// # Examples
    ///
    /// ```rust
    /// use mailparse::parse_mail;
    ///
    /// let mail = parse_mail(alloc, b"Subject: Hi\nTo: you\n\nbody")?;
    /// let mut keys = Vec::new(alloc);
    /// for header in mail.get_headers() {
    ///     keys.push(header.get_key(alloc)?)?;
    /// }
    /// assert_eq!(rt; keys.len(), 2);
    /// assert_eq!(rt; keys[1].as_str(), "To");
    /// ```
    pub fn get_headers(&self) -> Headers<'_>
        ensures { result ≡ block_of (root (tree_of self.now)) }
    {
        Headers::new(self.header_bytes, self.headers.as_slice())
    }

    /// Returns the body, still in the transfer encoding that the first `Content-Transfer-Encoding`
    /// header names (RFC 2045, section 6).
    ///
    /// The name is compared ignoring ASCII case. By the crate's own rule, any other text, or no
    /// header, means `7bit`. Nothing is decoded yet. Allocates the name of the encoding.
    ///
    /// # Errors
    ///
    /// `MailParseError::Memory` if it runs out of memory.
    ///
    /// # Examples
    ///
    /// ```rust
    /// use mailparse::body::Body;
    /// use mailparse::parse_mail;
    ///
    /// let mail = parse_mail(alloc, b"Content-Transfer-Encoding: BASE64\n\naGk=")?;
    /// let Body::Base64(body) = mail.get_body_encoded(alloc)? else {
    ///     return Err("another encoding".into());
    /// };
    /// assert_eq!(rt; body.get_raw(), b"aGk=".as_slice());
    /// assert_eq!(rt; body.get_decoded(alloc)?.as_slice(), b"hi".as_slice());
    /// ```
    pub fn get_body_encoded(&self, alloc: Global) -> Result<Body<'_>, MailParseError>
        ensures read { let node = root (tree_of self.now) in
            IfOk result (IsBody (body_kind node) (content_of node)) }
        ensures only_memory { IfErr result IsMemory }
    {
        let mut encoding = self
            .headers
            .get_first_value(alloc, "Content-Transfer-Encoding")?;
        if let Some(name) = &mut encoding {
            name.make_ascii_lowercase();
        }
        Ok(Body::new(self.body_bytes, &self.ctype, &encoding))
    }

    /// Returns the body as text: its transfer encoding is undone, and the bytes are decoded in the
    /// charset of the current `ctype` (RFC 2045, section 6; RFC 2046, section 4.1.2).
    ///
    /// A byte order mark overrides that charset. If the label is unknown, each byte that is not
    /// ASCII becomes U+FFFD. Allocates the bytes and the text. For a message with parts,
    /// the body is the preamble.
    ///
    /// Control characters, including ESC and NUL, stay in the text. On a terminal they may move the
    /// cursor or change what it shows; in a log, a line end may forge a line. Escape them first.
    ///
    /// # Errors
    ///
    /// `MailParseError::Base64DecodeError` if a body in Base64 is invalid, with the index, counted
    /// from 0, of the first invalid group of four; and `MailParseError::Memory` if it runs out of
    /// memory.
    ///
    /// # Examples
    ///
    /// ```rust
    /// use mailparse::parse_mail;
    ///
    /// let mail = parse_mail(alloc, b"Subject: Hi\n\nHello, you")?;
    /// assert_eq!(rt; mail.get_body(alloc)?.as_str(), "Hello, you");
    /// ```
    pub fn get_body(&self, alloc: Global) -> Result<String, MailParseError>
        ensures { ReadsText result (body_text (root (tree_of self.now))) }
    {
        self.get_body_in(alloc, &())
    }

    /// Returns the body as text, as `get_body` does, in any charset of `known` (RFC 2045, section
    /// 6; RFC 2046, section 4.1.2).
    ///
    /// Allocates the bytes and the text.
    ///
    /// Control characters stay in the text, as with `get_body`: escape them before showing the text
    /// on a terminal or writing it to a log.
    ///
    /// # Errors
    ///
    /// `MailParseError::Base64DecodeError` if a body in Base64 is invalid, with the index, counted
    /// from 0, of the first invalid group of four; and `MailParseError::Memory` if it runs out of
    /// memory.
    ///
    /// # Examples
    ///
    /// ```rust
    /// use mailparse::{SingleByteTable, parse_mail};
    ///
    /// let tables = [SingleByteTable { labels: &["x-euro"], high: &['€'; 128] }];
    /// let mail = parse_mail(alloc, b"Content-Type: text/plain; charset=x-euro\n\n5 \x80")?;
    /// assert_eq!(rt; mail.get_body_in(alloc, &tables.as_slice())?.as_str(), "5 €");
    /// assert_eq!(rt; mail.get_body_in(alloc, &())?.as_str(), "5 \u{FFFD}");
    /// ```
    #[tactic(auto, unfolding(crate::specs::Body::decoded_text_in))]
    pub fn get_body_in<K: KnownCharsets>(
        &self,
        alloc: Global,
        known: &K,
    ) -> Result<String, MailParseError>
        ensures { ReadsText result (body_text_in (K.known known.now) (root (tree_of self.now))) }
    {
        let body = self.get_body_encoded(alloc)?;
        let bytes = body.decoded(alloc)?;
        let label = self.ctype.charset.as_str();
        Ok(text_under(alloc, label, bytes.as_slice(), known)?)
    }

    /// Returns the decoded bytes of the body: its transfer encoding is undone, and the charset is
    /// ignored (RFC 2045, section 6).
    ///
    /// Allocates the bytes. For a message with parts, the body is the preamble.
    ///
    /// # Errors
    ///
    /// `MailParseError::Base64DecodeError` if a body in Base64 is invalid, with the index, counted
    /// from 0, of the first invalid group of four; and `MailParseError::Memory` if it runs out of
    /// memory.
    ///
    /// # Examples
    ///
    /// ```rust
    /// use mailparse::parse_mail;
    ///
    /// let mail = parse_mail(alloc, b"Content-Transfer-Encoding: base64\n\n/w==")?;
    /// assert_eq!(rt; mail.get_body_raw(alloc)?.as_slice(), b"\xFF".as_slice());
    /// ```
    pub fn get_body_raw(&self, alloc: Global) -> Result<Vec<u8>, MailParseError>
        ensures { ReadsBytes result (body_bytes (root (tree_of self.now))) }
    {
        let body = self.get_body_encoded(alloc)?;
        Ok(body.decoded(alloc)?.into_owned(alloc)?)
    }

    /// Returns how the message is to be shown: the disposition in its first `Content-Disposition`
    /// header (RFC 2183, section 2) or, by the crate's own rule, `Inline` without parameters if it
    /// has none.
    ///
    /// Allocates the text and the parameters.
    ///
    /// # Errors
    ///
    /// `MailParseError::Memory` if it runs out of memory.
    ///
    /// # Examples
    ///
    /// ```rust
    /// use mailparse::{DispositionType, parse_mail};
    ///
    /// let raw = b"Content-Disposition: attachment; filename=\"a b.txt\"\n\n";
    /// let mail = parse_mail(alloc, raw)?;
    /// let shown = mail.get_content_disposition(alloc)?;
    /// assert!(rt; shown.disposition == DispositionType::Attachment);
    /// assert_eq!(rt; shown.params.get("filename").ok_or("no name")?.as_str(), "a b.txt");
    /// ```
    pub fn get_content_disposition(
        &self,
        alloc: Global,
    ) -> Result<ParsedContentDisposition, MailParseError>
        ensures { AnswersOrMemory disposition result (Ok (shown_as (root (tree_of self.now)))) }
    {
        self.get_content_disposition_in(alloc, &())
    }

    /// Returns how the message is to be shown, as `get_content_disposition` does, with encoded
    /// words and extended parameters in any charset of `known` (RFC 2183, section 2; RFC 2047,
    /// section 2; RFC 2231, section 4).
    ///
    /// Allocates the text and the parameters.
    ///
    /// # Errors
    ///
    /// `MailParseError::Memory` if it runs out of memory.
    ///
    /// # Examples
    ///
    /// ```rust
    /// use mailparse::{SingleByteTable, parse_mail};
    ///
    /// let tables = [SingleByteTable { labels: &["x-euro"], high: &['€'; 128] }];
    /// let raw = b"Content-Disposition: attachment; filename*=x-euro''5%80.txt\n\n";
    /// let mail = parse_mail(alloc, raw)?;
    /// let shown = mail.get_content_disposition_in(alloc, &tables.as_slice())?;
    /// assert_eq!(rt; shown.params.get("filename").ok_or("no name")?.as_str(), "5€.txt");
    /// ```
    pub fn get_content_disposition_in<K: KnownCharsets>(
        &self,
        alloc: Global,
        known: &K,
    ) -> Result<ParsedContentDisposition, MailParseError>
        ensures { AnswersOrMemory disposition result
            (Ok (shown_as_in (K.known known.now) (root (tree_of self.now)))) }
    {
        match self.headers.get_first_header("Content-Disposition") {
            Some(header) => {
                let value = header.get_value_ref_in(alloc, known)?;
                parse_content_disposition_in(alloc, value.as_str(), known)
            }
            None => Ok(ParsedContentDisposition::default(alloc)),
        }
    }

    /// Returns an iterator over the message itself and then all its parts, each part before its own
    /// parts (RFC 2046, section 5.1).
    ///
    /// Allocates the list.
    ///
    /// # Errors
    ///
    /// `MailParseError::Memory` if it runs out of memory.
    ///
    /// # Examples
    ///
    /// ```rust
    /// use mailparse::parse_mail;
    ///
    /// let raw = b"Content-Type: multipart/mixed; boundary=b\n\n--b\n\none\n--b\n\ntwo\n--b--\n";
    /// let mail = parse_mail(alloc, raw)?;
    /// let mut plain = 0;
    /// for part in mail.parts(alloc)? {
    ///     if part.ctype.mimetype.as_str() == "text/plain" {
    ///         plain += 1;
    ///     }
    /// }
    /// assert_eq!(rt; plain, 2);
    /// ```
    pub fn parts<'m>(&'m self, alloc: Global) -> Result<PartsIterator<'m, 'a>, MailParseError>
        ensures read { AnswersOrMemory trees_left result (Ok (trees_within (tree_of self.now))) }
        ensures bounds { IfOk result (λ iterator. length (trees_left iterator) < 2 ^ 64) }
    {
        let mut parts = Vec::new(alloc);
        push_parts(&mut parts, self)?;
        Ok(PartsIterator { parts, index: 0 })
    }
}

/// An iterator over a message and all its parts, each part before its own parts, as
/// `ParsedMail::parts` returns it (RFC 2046, section 5.1).
///
/// It contains the whole list; `next` does not allocate.
#[derive(Drop)]
pub struct PartsIterator<'m, 'a> {
    parts: Vec<&'m ParsedMail<'a>>,
    index: usize,
}

/// Shows the number of parts that were returned.
impl<'m, 'a> Debug for PartsIterator<'m, 'a> {
    fn fmt<W: Write>(&self, f: &mut Formatter<W>) -> fmt::Result {
        f.debug_struct("PartsIterator")
            .field("index", &self.index)
            .finish_non_exhaustive()
    }
}

impl<'m, 'a> Iterator for PartsIterator<'m, 'a> {
    ghost use Rattle.std.specs.Prelude.{drop};
    ghost use Rattle.std.specs.Iterator.{YieldsFirst, item_count};

    type Item = &'m ParsedMail<'a>;

    ghost next_gives = { YieldsFirst (λ s. drop s.index s.parts.items) };

    ghost remaining = { item_count (λ s. drop s.index s.parts.items) };

    fn next(&mut self) -> Option<&'m ParsedMail<'a>> {
        let at = self.index;
        if at >= self.parts.len() {
            return None;
        }
        let part = self.parts[at];
        self.index = at + 1;
        Some(part)
    }
}

/// Appends a message and its parts to a list, each before its own parts.
#[tactic(auto, using(crate::proofs::lemmas::Mail::parts_within))]
fn push_parts<'m, 'a>(
    found: &mut Vec<&'m ParsedMail<'a>>,
    mail: &'m ParsedMail<'a>,
) -> Result<(), AllocError>
    ensures { OnOk result (map (λ m. tree_of m.now) found.new.items
        ≡ map (λ m. tree_of m.now) found.old.items ++ trees_within (tree_of mail.now)) }
{
    found.push(mail)?;
    for part in &mail.subparts {
        push_parts(found, part)?;
    }
    Ok(())
}
