//! The charsets that a reader of mail knows, by label, and decoding in one of them.
//!
//! A caller adds a charset of its own by two implementations: `Decode` for the charset, and
//! `KnownCharsets` for a value that finds it by its label.
ghost use Rattle.std.specs.Prelude.{◌≡◌, ℕ, List, option_map, IfOk, string_bytes};
ghost use Rattle.either.specs.Either.{either};
ghost use Rattle.mail_codec.specs.Charset.{Charsets, four_charsets, known_by_either, marked, text_of};
ghost use Rattle.mail_codec.specs.Tables.{charsets_with, table_text};

use super::built_in::Charset;
use super::tables::{SingleByteTable, table_for_label};
use either::Either;
use std::alloc::{AllocError, Global};

/// A charset that decodes bytes: one of the four, a table, or a decoder of the caller.
///
/// An implementation gives `decode_without_bom_handling`, and in `text` the definition of what it
/// returns. The other calls have default bodies.
pub trait Decode: Copy {
    // The text of bytes in this charset; a byte order mark is read like any other bytes.
    ghost text: { Self → List ℕ → List ℕ };

    /// Returns the text of the bytes in this charset, reading a byte order mark like any other
    /// bytes.
    ///
    /// Allocates the text.
    ///
    /// # Errors
    ///
    /// `AllocError` if it runs out of memory.
    ///
    /// # Examples
    ///
    /// ```rust
    /// use mail_codec::charset::{Charset, Decode};
    ///
    /// let text = Decode::decode_without_bom_handling(Charset::Utf16Be, alloc, b"\0a\0")?;
    /// assert_eq!(rt; text.as_str(), "a\u{FFFD}");
    /// ```
    fn decode_without_bom_handling(self, alloc: Global, bytes: &[u8]) -> Result<String, AllocError>
        ensures { IfOk result (λ t. string_bytes t ≡ text self bytes.now) };

    /// Returns the text of the bytes in this charset, or in the one whose byte order mark they
    /// begin with (the WHATWG Encoding Standard, section 6).
    ///
    /// A byte order mark is removed, and overrides the charset. Allocates the text.
    ///
    /// # Errors
    ///
    /// `AllocError` if it runs out of memory.
    ///
    /// # Examples
    ///
    /// ```rust
    /// use mail_codec::charset::{Charset, Decode};
    ///
    /// let marked = Decode::decode(Charset::Windows1252, alloc, b"\xFE\xFF\0a")?;
    /// assert_eq!(rt; marked.as_str(), "a");
    /// ```
    fn decode(self, alloc: Global, bytes: &[u8]) -> Result<String, AllocError>
        ensures { IfOk result (λ t. string_bytes t ≡ marked (text self) bytes.now) }
    {
        match Charset::for_bom(bytes) {
            Some((charset, length)) => charset.decode_without_bom_handling(alloc, &bytes[length..]),
            None => self.decode_without_bom_handling(alloc, bytes),
        }
    }

    /// Returns the text of a vector of bytes in this charset, as `decode_without_bom_handling`
    /// does.
    ///
    /// Allocates the text, unless the charset can reuse that of the vector.
    ///
    /// # Errors
    ///
    /// `AllocError` if it runs out of memory.
    ///
    /// # Examples
    ///
    /// ```rust
    /// use mail_codec::charset::{Charset, Decode};
    ///
    /// let mut bytes = Vec::new(alloc);
    /// bytes.extend_from_slice(b"caf\xC3\xA9")?;
    /// let text = Charset::Utf8.into_text_without_bom_handling(alloc, bytes)?;
    /// assert_eq!(rt; text.as_str(), "café");
    /// ```
    fn into_text_without_bom_handling(
        self,
        alloc: Global,
        bytes: Vec<u8>,
    ) -> Result<String, AllocError>
        ensures { IfOk result (λ t. string_bytes t ≡ text self bytes.items) }
    {
        self.decode_without_bom_handling(alloc, bytes.as_slice())
    }
}

/// The charsets that a reader of mail knows, by label.
///
/// `()` knows the four built-in ones. A slice of `SingleByteTable`s knows the four and then its
/// tables, in order. A pair knows what its first value knows, and then what its second value knows.
pub trait KnownCharsets {
    /// One of these charsets.
    type Decoder: Decode;

    // These charsets: from a label to the text of bytes in the charset that has it, if one has.
    ghost known: { Self → Charsets };

    /// Returns the charset that has the label, or `None` if none of these has it (the WHATWG
    /// Encoding Standard, section 4.2).
    ///
    /// Does not allocate.
    ///
    /// # Examples
    ///
    /// ```rust
    /// use mail_codec::charset::{Charset, Decode, KnownCharsets, SingleByteTable};
    ///
    /// assert_eq!(rt; ().for_label(b"latin1"), Some(Charset::Windows1252));
    /// let tables = [SingleByteTable { labels: &["x-euro"], high: &['€'; 128] }];
    /// let euro = tables.as_slice().for_label(b"X-Euro").ok_or("an unknown label")?;
    /// assert_eq!(rt; euro.decode(alloc, b"5 \x80")?.as_str(), "5 €");
    /// ```
    fn for_label(&self, label: &[u8]) -> Option<Self::Decoder>
        ensures { option_map Self.Decoder.text result ≡ known self.now label.now };
}

impl Decode for Charset {
    ghost text = { text_of };

    fn decode_without_bom_handling(
        self,
        alloc: Global,
        bytes: &[u8],
    ) -> Result<String, AllocError> {
        Charset::decode_without_bom_handling(self, alloc, bytes)
    }

    /// The vector becomes the text itself if the charset is UTF-8 and the bytes are valid.
    fn into_text_without_bom_handling(
        self,
        alloc: Global,
        bytes: Vec<u8>,
    ) -> Result<String, AllocError> {
        let Charset::Utf8 = self else {
            return Charset::decode_without_bom_handling(self, alloc, bytes.as_slice());
        };
        match String::from_utf8(bytes) {
            Ok(text) => Ok(text),
            Err(e) => Charset::decode_without_bom_handling(self, alloc, e.as_bytes()),
        }
    }
}

impl KnownCharsets for () {
    type Decoder = Charset;

    ghost known = { λ _. four_charsets };

    fn for_label(&self, label: &[u8]) -> Option<Charset> {
        Charset::for_label(label)
    }
}

impl<'a, 't> Decode for &'a SingleByteTable<'t> {
    ghost text = { λ table. table_text table.now };

    fn decode_without_bom_handling(
        self,
        alloc: Global,
        bytes: &[u8],
    ) -> Result<String, AllocError> {
        SingleByteTable::decode_without_bom_handling(self, alloc, bytes)
    }
}

impl<'t> KnownCharsets for &'t [SingleByteTable<'t>] {
    type Decoder = Either<Charset, &'t SingleByteTable<'t>>;

    ghost known = { λ tables. charsets_with tables.now };

    fn for_label(&self, label: &[u8]) -> Option<Either<Charset, &'t SingleByteTable<'t>>> {
        if let Some(charset) = Charset::for_label(label) {
            return Some(Either::Left(charset));
        }
        let tables: &'t [SingleByteTable<'t>] = *self;
        match table_for_label(label, tables) {
            Some(number) => Some(Either::Right(&tables[number])),
            None => None,
        }
    }
}

impl<A: Decode, B: Decode> Decode for Either<A, B> {
    ghost text = { either A.text B.text };

    fn decode_without_bom_handling(
        self,
        alloc: Global,
        bytes: &[u8],
    ) -> Result<String, AllocError> {
        match self {
            Either::Left(charset) => charset.decode_without_bom_handling(alloc, bytes),
            Either::Right(charset) => charset.decode_without_bom_handling(alloc, bytes),
        }
    }

    fn into_text_without_bom_handling(
        self,
        alloc: Global,
        bytes: Vec<u8>,
    ) -> Result<String, AllocError> {
        match self {
            Either::Left(charset) => charset.into_text_without_bom_handling(alloc, bytes),
            Either::Right(charset) => charset.into_text_without_bom_handling(alloc, bytes),
        }
    }
}

impl<A: KnownCharsets, B: KnownCharsets> KnownCharsets for (A, B) {
    type Decoder = Either<A::Decoder, B::Decoder>;

    ghost known = { λ both. known_by_either (A.known both.0) (B.known both.1) };

    fn for_label(&self, label: &[u8]) -> Option<Either<A::Decoder, B::Decoder>> {
        if let Some(first) = self.0.for_label(label) {
            return Some(Either::Left(first));
        }
        match self.1.for_label(label) {
            Some(second) => Some(Either::Right(second)),
            None => None,
        }
    }
}
