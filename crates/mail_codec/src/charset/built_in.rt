//! The four built-in charsets.
ghost use Rattle.std.specs.Prelude.{◌≡◌, ◌≤◌, find, length, option_map, IfOk, IfSome, string_bytes};
ghost use Rattle.mail_codec.specs.Charset.{charset_of_label, is_among_labels, labels_by_charset, mark_at_start, marked_text_of, text_of};

use super::decoder::is_among;
use super::known::Decode;
use super::utf16::ByteOrder;
use super::{labels, single_byte, utf16};
use bstr::ByteSlice;
use std::alloc::{AllocError, Global};

/// One of the four built-in charsets.
#[derive(Clone, Copy, Debug, PartialEq, Eq)]
pub enum Charset {
    /// UTF-8.
    Utf8,
    /// windows-1252, also for the labels of ASCII and Latin-1.
    Windows1252,
    /// UTF-16 with the low byte of each unit first.
    Utf16Le,
    /// UTF-16 with the high byte of each unit first.
    Utf16Be,
}

impl Charset {
    /// Returns the charset that has the label, or `None` if none of the four has it (the WHATWG
    /// Encoding Standard, section 4.2).
    ///
    /// ASCII whitespace around the label (space, tab, LF, FF, CR) and ASCII case are ignored. Takes
    /// no memory.
    ///
    /// # Examples
    ///
    /// ```rust
    /// use mail_codec::charset::Charset;
    ///
    /// assert_eq!(rt; Charset::for_label(b" Latin1 "), Some(Charset::Windows1252));
    /// assert_eq!(rt; Charset::for_label(b"utf-16"), Some(Charset::Utf16Le));
    /// assert_eq!(rt; Charset::for_label(b"koi8-r"), None);
    /// ```
    pub fn for_label(label: &[u8]) -> Option<Charset>
        ensures { result ≡ charset_of_label label.now }
    {
        charset_of(label.trim_ascii())
    }

    /// Returns the charset whose byte order mark the bytes begin with, and the length of the mark,
    /// or `None` if they begin with no mark (the WHATWG Encoding Standard, section 6).
    ///
    /// Does not allocate.
    ///
    /// # Examples
    ///
    /// ```rust
    /// use mail_codec::charset::Charset;
    ///
    /// assert_eq!(rt; Charset::for_bom(b"\xEF\xBB\xBFa"), Some((Charset::Utf8, 3)));
    /// assert_eq!(rt; Charset::for_bom(b"a"), None);
    /// ```
    pub fn for_bom(bytes: &[u8]) -> Option<(Charset, usize)>
        ensures mark { result ≡ mark_at_start bytes.now }
        ensures bounds { IfSome result (λ found. found.1 ≤ length bytes.now) }
    {
        if bytes.starts_with(b"\xEF\xBB\xBF") {
            return Some((Charset::Utf8, 3));
        }
        if bytes.starts_with(b"\xFE\xFF") {
            return Some((Charset::Utf16Be, 2));
        }
        if bytes.starts_with(b"\xFF\xFE") {
            return Some((Charset::Utf16Le, 2));
        }
        None
    }

    /// Returns the text of the bytes in this charset, or in the one whose byte order mark they
    /// begin with (the WHATWG Encoding Standard, section 6).
    ///
    /// A byte order mark is removed, and overrides the charset. Invalid bytes decode to U+FFFD.
    /// Allocates the text.
    ///
    /// # Errors
    ///
    /// `AllocError` if it runs out of memory.
    ///
    /// # Examples
    ///
    /// ```rust
    /// use mail_codec::charset::Charset;
    ///
    /// let text = Charset::Windows1252.decode(alloc, b"\x80 5")?;
    /// assert_eq!(rt; text.as_str(), "€ 5");
    /// let marked = Charset::Windows1252.decode(alloc, b"\xFE\xFF\0a")?;
    /// assert_eq!(rt; marked.as_str(), "a");
    /// ```
    #[tactic(auto, unfolding(crate::specs::Charset::marked_text_of))]
    pub fn decode(self, alloc: Global, bytes: &[u8]) -> Result<String, AllocError>
        ensures { IfOk result (λ t. string_bytes t ≡ marked_text_of self bytes.now) }
    {
        Decode::decode(self, alloc, bytes)
    }

    /// Returns the text of the bytes in this charset, reading a byte order mark like any other
    /// bytes (the WHATWG Encoding Standard, sections 8, 9.1 and 14).
    ///
    /// Invalid bytes decode to U+FFFD. Allocates the text.
    ///
    /// # Errors
    ///
    /// `AllocError` if it runs out of memory.
    ///
    /// # Examples
    ///
    /// ```rust
    /// use mail_codec::charset::Charset;
    ///
    /// let text = Charset::Utf16Be.decode_without_bom_handling(alloc, b"\0a\0")?;
    /// assert_eq!(rt; text.as_str(), "a\u{FFFD}");
    /// let marked = Charset::Utf8.decode_without_bom_handling(alloc, b"\xEF\xBB\xBFa")?;
    /// assert_eq!(rt; marked.as_str(), "\u{FEFF}a");
    /// ```
    pub fn decode_without_bom_handling(
        self,
        alloc: Global,
        bytes: &[u8],
    ) -> Result<String, AllocError>
        ensures { IfOk result (λ t. string_bytes t ≡ text_of self bytes.now) }
    {
        match self {
            Charset::Utf8 => bytes.to_str_lossy(alloc)?.into_owned(alloc),
            Charset::Windows1252 => single_byte::decode_windows_1252(alloc, bytes),
            Charset::Utf16Le => utf16::decode(alloc, bytes, ByteOrder::Little),
            Charset::Utf16Be => utf16::decode(alloc, bytes, ByteOrder::Big),
        }
    }
}

/// Returns the charset that has the trimmed label, ignoring ASCII case.
fn charset_of(label: &[u8]) -> Option<Charset>
    ensures { result ≡ option_map (λ row. row.0)
        (find (λ row. is_among_labels row.1 label.now) labels_by_charset) }
{
    if is_among(label, &labels::UTF_8) {
        Some(Charset::Utf8)
    } else if is_among(label, &labels::WINDOWS_1252) {
        Some(Charset::Windows1252)
    } else if is_among(label, &labels::UTF_16_BE) {
        Some(Charset::Utf16Be)
    } else if is_among(label, &labels::UTF_16_LE) {
        Some(Charset::Utf16Le)
    } else {
        None
    }
}
