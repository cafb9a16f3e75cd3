//! All charsets of the standard, as one value that a reader of mail takes.
ghost use Rattle.std.specs.Prelude.{◌≡◌, find, option_map};
ghost use Rattle.mail_codec.specs.Charset.{is_among_labels};
ghost use Rattle.mail_charsets.specs.Aliases.{aliases_by_label, label_of_alias};
ghost use Rattle.mail_charsets.specs.All.{all_known, encodings_under};
ghost use Rattle.mail_charsets.specs.Encoding.{text_in};

use crate::aliases::ALIASES;
use crate::encoding::Encoding;
use crate::indexes::Indexes;
use crate::single_byte::TABLES;
use mail_codec::charset::decoder::is_among;
use mail_codec::charset::{Decode, KnownCharsets, SingleByteTable};
use std::alloc::{AllocError, Global};

/// An encoding of this crate, and the indexes under which it decodes.
#[derive(Clone, Copy, Debug)]
pub struct IndexedEncoding<'t> {
    /// The encoding.
    pub encoding: Encoding,
    /// The indexes.
    pub indexes: Indexes<'t>,
}

impl<'t> Decode for IndexedEncoding<'t> {
    ghost text = { λ charset. text_in charset.indexes charset.encoding };

    fn decode_without_bom_handling(
        self,
        alloc: Global,
        bytes: &[u8],
    ) -> Result<String, AllocError> {
        self.encoding.decode_under(alloc, bytes, &self.indexes)
    }
}

impl<'t> KnownCharsets for Indexes<'t> {
    type Decoder = IndexedEncoding<'t>;

    ghost known = { encodings_under };

    fn for_label(&self, label: &[u8]) -> Option<IndexedEncoding<'t>> {
        match Encoding::for_label_no_replacement(label) {
            Some(encoding) => Some(IndexedEncoding {
                encoding,
                indexes: *self,
            }),
            None => None,
        }
    }
}

/// The tables of this crate, and the indexes of its encodings.
type Standard = (&'static [SingleByteTable<'static>], Indexes<'static>);

/// All charsets of the standard that can be read: the four of `mail_codec`, then those of the
/// tables of this crate, and then its encodings.
///
/// They are known by the labels of the standard, and by other names that mail uses, such as
/// `cp936`, `latin-1` and `euc_kr`.
///
/// The labels of the replacement encoding, such as `iso-2022-kr`, are unknown, since the standard
/// does not read its texts: a value in one of them stays as it is written.
#[derive(Clone, Copy, Debug)]
pub struct AllCharsets {
    known: Standard,
}

impl AllCharsets {
    /// Returns the charsets of the standard.
    ///
    /// Does not allocate.
    ///
    /// # Examples
    ///
    /// ```rust
    /// use mail_charsets::AllCharsets;
    /// use mail_codec::charset::{Decode, KnownCharsets};
    ///
    /// let all = AllCharsets::standard();
    /// let korean = all.for_label(b"ks_c_5601-1987").ok_or("an unknown label")?;
    /// assert_eq!(rt; korean.decode(alloc, b"\xC7\xD1")?.as_str(), "한");
    /// let russian = all.for_label(b"koi8-r").ok_or("an unknown label")?;
    /// assert_eq!(rt; russian.decode(alloc, b"\xC4\xC1")?.as_str(), "да");
    /// ```
    pub fn standard() -> AllCharsets {
        AllCharsets {
            known: (&TABLES, Indexes::standard()),
        }
    }
}

impl KnownCharsets for AllCharsets {
    type Decoder = <Standard as KnownCharsets>::Decoder;

    ghost known = { all_known };

    fn for_label(&self, label: &[u8]) -> Option<<Standard as KnownCharsets>::Decoder> {
        if let Some(charset) = self.known.for_label(label) {
            return Some(charset);
        }
        match label_of_alias(label) {
            Some(known) => self.known.for_label(known.as_bytes()),
            None => None,
        }
    }
}

/// Returns the label of the standard for a name that mail uses, ignoring ASCII case and ASCII
/// whitespace around it.
fn label_of_alias(name: &[u8]) -> Option<&'static str>
    ensures { option_map (λ label. label.now) result ≡ label_of_alias name.now }
{
    trimmed_alias(name.trim_ascii())
}

/// Returns the label of the standard for a trimmed name, ignoring ASCII case.
fn trimmed_alias(name: &[u8]) -> Option<&'static str>
    ensures { option_map (λ label. label.now) result ≡ option_map (λ row. row.0)
        (find (λ row. is_among_labels row.1 name.now) aliases_by_label) }
{
    match ALIASES.iter().find(|row| is_among(name, row.1)) {
        Some(row) => Some(row.0),
        None => None,
    }
}
