//! The encodings with their labels, and the text of bytes in each.
ghost use Rattle.std.specs.Prelude.{◌≡◌, find, option_map, IfOk, string_bytes};
ghost use Rattle.mail_codec.specs.Charset.{is_among_labels};
ghost use Rattle.mail_charsets.specs.Encoding.{encoding_of_label, labels_by_encoding, readable_encoding, replacement_text, text_in};

use crate::big5::decode_big5;
use crate::euc_jp::decode_euc_jp;
use crate::euc_kr::decode_euc_kr;
use crate::gb18030::decode_gb18030;
use crate::indexes::Indexes;
use crate::iso_2022_jp::decode_iso_2022_jp;
use crate::labels;
use crate::shift_jis::decode_shift_jis;
use crate::x_user_defined::decode_x_user_defined;
use mail_codec::charset::decoder::is_among;
use std::alloc::{AllocError, Global};

/// An encoding of the WHATWG Encoding Standard that is neither one of the four charsets of
/// `mail_codec` nor a table of single bytes.
#[derive(Clone, Copy, Debug, PartialEq, Eq)]
pub enum Encoding {
    /// GBK, which decodes as gb18030.
    Gbk,
    /// gb18030.
    Gb18030,
    /// Big5.
    Big5,
    /// EUC-JP.
    EucJp,
    /// ISO-2022-JP.
    Iso2022Jp,
    /// Shift_JIS.
    ShiftJis,
    /// EUC-KR.
    EucKr,
    /// The replacement encoding, for encodings that are not safe to decode.
    Replacement,
    /// x-user-defined.
    XUserDefined,
}

impl Encoding {
    /// Returns the encoding that has the label, or `None` if no encoding of this crate has it (the
    /// WHATWG Encoding Standard, section 4.2).
    ///
    /// ASCII whitespace around the label (space, tab, LF, FF, CR) and ASCII case are ignored. Takes
    /// no memory.
    ///
    /// # Examples
    ///
    /// ```rust
    /// use mail_charsets::Encoding;
    ///
    /// assert_eq!(rt; Encoding::for_label(b" KS_C_5601-1987 "), Some(Encoding::EucKr));
    /// assert_eq!(rt; Encoding::for_label(b"x-sjis"), Some(Encoding::ShiftJis));
    /// assert_eq!(rt; Encoding::for_label(b"utf-8"), None);
    /// ```
    pub fn for_label(label: &[u8]) -> Option<Encoding>
        ensures { result ≡ encoding_of_label label.now }
    {
        encoding_of(label.trim_ascii())
    }

    /// Returns the encoding that has the label, as `for_label` does, but `None` for the labels of
    /// the replacement encoding, whose texts cannot be read.
    ///
    /// Does not allocate.
    ///
    /// # Examples
    ///
    /// ```rust
    /// use mail_charsets::Encoding;
    ///
    /// assert_eq!(rt; Encoding::for_label_no_replacement(b"big5"), Some(Encoding::Big5));
    /// assert_eq!(rt; Encoding::for_label(b"iso-2022-kr"), Some(Encoding::Replacement));
    /// assert_eq!(rt; Encoding::for_label_no_replacement(b"iso-2022-kr"), None);
    /// ```
    pub fn for_label_no_replacement(label: &[u8]) -> Option<Encoding>
        ensures { result ≡ readable_encoding label.now }
    {
        let trimmed = label.trim_ascii();
        if is_among(trimmed, &labels::REPLACEMENT) {
            return None;
        }
        encoding_of(trimmed)
    }

    /// Returns the text of the bytes in this encoding under the indexes, reading a byte order mark
    /// like any other bytes (the WHATWG Encoding Standard, sections 10 to 14).
    ///
    /// Invalid bytes decode to U+FFFD. Allocates the text.
    ///
    /// # Errors
    ///
    /// `AllocError` if it runs out of memory.
    ///
    /// # Examples
    ///
    /// ```rust
    /// use mail_charsets::{Encoding, Indexes};
    ///
    /// let indexes = Indexes::standard();
    /// let text = Encoding::EucKr.decode_under(alloc, b"\xC7\xD1 a", &indexes)?;
    /// assert_eq!(rt; text.as_str(), "한 a");
    /// ```
    pub fn decode_under(
        self,
        alloc: Global,
        bytes: &[u8],
        indexes: &Indexes<'_>,
    ) -> Result<String, AllocError>
        ensures { IfOk result (λ t. string_bytes t ≡ text_in indexes.now self bytes.now) }
    {
        match self {
            Encoding::Gbk | Encoding::Gb18030 => {
                decode_gb18030(alloc, bytes, indexes.gb18030, indexes.gb18030_ranges)
            }
            Encoding::Big5 => decode_big5(alloc, bytes, indexes.big5, indexes.big5_plane),
            Encoding::EucJp => decode_euc_jp(alloc, bytes, indexes.jis_0208, indexes.jis_0212),
            Encoding::Iso2022Jp => decode_iso_2022_jp(alloc, bytes, indexes.jis_0208),
            Encoding::ShiftJis => decode_shift_jis(alloc, bytes, indexes.jis_0208),
            Encoding::EucKr => decode_euc_kr(alloc, bytes, indexes.euc_kr),
            Encoding::Replacement => decode_replacement(alloc, bytes),
            Encoding::XUserDefined => decode_x_user_defined(alloc, bytes),
        }
    }
}

/// Returns the text of the bytes in the replacement encoding.
fn decode_replacement(alloc: Global, bytes: &[u8]) -> Result<String, AllocError>
    ensures { IfOk result (λ t. string_bytes t ≡ replacement_text bytes.now) }
{
    let mut text = String::new(alloc);
    if bytes.is_empty() {
        return Ok(text);
    }
    text.push(char::REPLACEMENT_CHARACTER)?;
    Ok(text)
}

/// Returns the encoding that has the trimmed label, ignoring ASCII case.
fn encoding_of(label: &[u8]) -> Option<Encoding>
    ensures { result ≡ option_map (λ row. row.0)
        (find (λ row. is_among_labels row.1 label.now) labels_by_encoding) }
{
    match labels::ENCODINGS.iter().find(|row| is_among(label, row.1)) {
        Some(row) => Some(row.0),
        None => None,
    }
}
