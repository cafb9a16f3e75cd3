//! Charsets in which each byte is one character, as tables of the caller.
ghost use Rattle.std.specs.Prelude.{◌≡◌, ◌<◌, map, length, IfOk, IfSome, string_bytes};
ghost use Rattle.std.specs.List.{position};
ghost use Rattle.mail_codec.specs.Charset.{is_among_labels, marked};
ghost use Rattle.mail_codec.specs.Tables.{table_of_label, table_text};

use super::built_in::Charset;
use super::decoder::is_among;
use super::known::Decode;
use super::single_byte;
use std::alloc::{AllocError, Global};

/// A charset in which each byte is one character: its labels, and the characters of its high bytes.
///
/// A byte below 0x80 is its own character, and byte 0x80 + n is the character `high[n]`, which is
/// U+FFFD if the byte has no character.
#[derive(Clone, Copy, Debug)]
pub struct SingleByteTable<'t> {
    /// The labels of the charset, without whitespace around them; ASCII case is ignored.
    pub labels: &'t [&'t str],
    /// The characters of the bytes from 0x80 to 0xFF, in order.
    pub high: &'t [char; 128],
}

impl<'t> SingleByteTable<'t> {
    /// Returns the text of the bytes under this table, or in the charset whose byte order mark they
    /// begin with (the WHATWG Encoding Standard, section 6).
    ///
    /// A byte order mark is removed, and overrides the table. Allocates the text.
    ///
    /// # Errors
    ///
    /// `AllocError` if it runs out of memory.
    ///
    /// # Examples
    ///
    /// ```rust
    /// use mail_codec::charset::SingleByteTable;
    ///
    /// let table = SingleByteTable { labels: &["x-euro"], high: &['€'; 128] };
    /// assert_eq!(rt; table.decode(alloc, b"5 \x80")?.as_str(), "5 €");
    /// assert_eq!(rt; table.decode(alloc, b"\xEF\xBB\xBF\xC3\xA9")?.as_str(), "é");
    /// ```
    pub fn decode(&self, alloc: Global, bytes: &[u8]) -> Result<String, AllocError>
        ensures { IfOk result (λ t. string_bytes t ≡ marked (table_text self.now) bytes.now) }
    {
        Decode::decode(self, alloc, bytes)
    }

    /// Returns the text of the bytes under this table, reading a byte order mark like any other
    /// bytes (the WHATWG Encoding Standard, section 9.1).
    ///
    /// Allocates the text.
    ///
    /// # Errors
    ///
    /// `AllocError` if it runs out of memory.
    ///
    /// # Examples
    ///
    /// ```rust
    /// use mail_codec::charset::SingleByteTable;
    ///
    /// let table = SingleByteTable { labels: &["x-euro"], high: &['€'; 128] };
    /// let text = table.decode_without_bom_handling(alloc, b"\xFF\xFEa")?;
    /// assert_eq!(rt; text.as_str(), "€€a");
    /// ```
    pub fn decode_without_bom_handling(
        &self,
        alloc: Global,
        bytes: &[u8],
    ) -> Result<String, AllocError>
        ensures { IfOk result (λ t. string_bytes t ≡ table_text self.now bytes.now) }
    {
        single_byte::decode(alloc, bytes, self.high)?.into_owned(alloc)
    }

    /// Returns whether the table has the trimmed label.
    fn has(&self, label: &[u8]) -> bool
        ensures { result
            ≡ is_among_labels (map (λ known. known.now) self.now.labels.now) label.now }
    {
        is_among(label, self.labels)
    }
}

/// Returns the index of the first table that has the label, counted from 0, or `None` if no table
/// has it. Also returns `None` if one of the four built-in charsets has it: these come first, by
/// this crate's own rule. Labels are matched as in the WHATWG Encoding Standard, section 4.2.
///
/// ASCII whitespace around the label (space, tab, LF, FF, CR) and ASCII case are ignored; the
/// labels of the tables are not trimmed. Does not allocate.
///
/// # Examples
///
/// ```rust
/// use mail_codec::charset::{SingleByteTable, table_for_label};
///
/// let tables = [SingleByteTable { labels: &["x-euro", "utf-8"], high: &['€'; 128] }];
/// assert_eq!(rt; table_for_label(b" X-Euro ", &tables), Some(0));
/// assert_eq!(rt; table_for_label(b"utf-8", &tables), None);
/// assert_eq!(rt; table_for_label(b"koi8-r", &tables), None);
/// ```
pub fn table_for_label(label: &[u8], tables: &[SingleByteTable<'_>]) -> Option<usize>
    ensures number { result ≡ table_of_label tables.now label.now }
    ensures bounds { IfSome result (λ number. number < length tables.now) }
{
    let Some(number) = first_with(tables, label.trim_ascii()) else {
        return None;
    };
    match Charset::for_label(label) {
        Some(_) => None,
        None => Some(number),
    }
}

/// Returns the index of the first table that has the trimmed label.
#[tactic(auto, using(crate::proofs::lemmas::Tables::has))]
fn first_with(tables: &[SingleByteTable<'_>], label: &[u8]) -> Option<usize>
    ensures number { result ≡ position (λ table.
        is_among_labels (map (λ known. known.now) table.labels.now) label.now) tables.now }
    ensures bounds { IfSome result (λ number. number < length tables.now) }
{
    tables.iter().position(|table| table.has(label))
}
