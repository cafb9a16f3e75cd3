//! The encodings of the WHATWG Encoding Standard that `mail_codec` leaves out. The single-byte
//! encodings (sections 4.2 and 9) are tables with all their labels. GBK, gb18030, Big5, EUC-JP,
//! ISO-2022-JP, Shift_JIS and EUC-KR, in which a character may take several bytes, are values of
//! `Encoding`, as are x-user-defined and the replacement encoding.
//!
//! Pass all of the tables, or a few, to the calls of `mailparse` that take tables; a byte that has
//! no character in an encoding is U+FFFD. `AllCharsets` knows all charsets of the standard; the
//! pair `(tables, Indexes::standard())` knows the tables of a caller and the encodings of several
//! bytes.
//!
//! # Examples
//!
//! ```rust
//! use mail_charsets::{Encoding, Indexes, KOI8_R, TABLES};
//! use mail_codec::charset::table_for_label;
//!
//! let encoding = Encoding::for_label(b"GB2312").ok_or("an unknown label")?;
//! let indexes = Indexes::standard();
//! let text = encoding.decode_under(alloc, b"\xC4\xE3\xBA\xC3", &indexes)?;
//! assert_eq!(rt; text.as_str(), "你好");
//!
//! let number = table_for_label(b"KOI8-R", &TABLES).ok_or("an unknown label")?;
//! assert_eq!(rt; TABLES[number].decode(alloc, b"\xC4\xC1")?.as_str(), "да");
//! assert_eq!(rt; KOI8_R.decode(alloc, b"\xC4\xC1")?.as_str(), "да");
//! ```
#![tactic(auto)]

mod aliases;
mod all;
mod big5;
mod encoded;
mod encoding;
mod euc_jp;
mod euc_kr;
mod front;
mod gb18030;
mod indexes;
mod iso_2022_jp;
mod labels;
pub mod laws;
mod shift_jis;
mod single_byte;
mod tables;
mod x_user_defined;

pub use self::all::{AllCharsets, IndexedEncoding};
pub use self::encoding::Encoding;
pub use self::indexes::Indexes;
pub use self::single_byte::{
    IBM866, ISO_8859_2, ISO_8859_3, ISO_8859_4, ISO_8859_5, ISO_8859_6, ISO_8859_7, ISO_8859_8,
    ISO_8859_8_I, ISO_8859_10, ISO_8859_13, ISO_8859_14, ISO_8859_15, ISO_8859_16, KOI8_R, KOI8_U,
    MACINTOSH, TABLES, WINDOWS_874, WINDOWS_1250, WINDOWS_1251, WINDOWS_1253, WINDOWS_1254,
    WINDOWS_1255, WINDOWS_1256, WINDOWS_1257, WINDOWS_1258, X_MAC_CYRILLIC,
};
