//! The indexes of the encodings (the WHATWG Encoding Standard, section 5).

use crate::tables;

/// The indexes from which the encodings take their characters. An index maps each pointer to the
/// code of a character, or to 0 if it has no character there.
///
/// As known charsets, they know all encodings of this crate except for replacement.
#[derive(Clone, Copy, Debug)]
pub struct Indexes<'t> {
    /// The index of GBK and gb18030.
    pub gb18030: &'t [u16],
    /// The ranges of gb18030 up to pointer 39419: pointers of four bytes in ascending order, each
    /// with the code of its character.
    pub gb18030_ranges: &'t [(u16, u16)],
    /// The index of Big5, in which 0xD800 + n refers to entry n of `big5_plane`.
    pub big5: &'t [u16],
    /// The codes of the characters of Big5 from U+20000 onwards, minus 0x20000.
    pub big5_plane: &'t [u16],
    /// The index of JIS X 0208.
    pub jis_0208: &'t [u16],
    /// The index of JIS X 0212.
    pub jis_0212: &'t [u16],
    /// The index of EUC-KR.
    pub euc_kr: &'t [u16],
}

impl Indexes<'static> {
    /// Returns the indexes of the standard.
    ///
    /// Does not allocate.
    ///
    /// # Examples
    ///
    /// ```rust
    /// use mail_charsets::Indexes;
    ///
    /// let indexes = Indexes::standard();
    /// assert_eq!(rt; indexes.euc_kr[0], 0xAC02);
    /// ```
    pub fn standard() -> Indexes<'static> {
        Indexes {
            gb18030: &tables::GB18030,
            gb18030_ranges: &tables::GB18030_RANGES,
            big5: &tables::BIG5,
            big5_plane: &tables::BIG5_PLANE,
            jis_0208: &tables::JIS_0208,
            jis_0212: &tables::JIS_0212,
            euc_kr: &tables::EUC_KR,
        }
    }
}
