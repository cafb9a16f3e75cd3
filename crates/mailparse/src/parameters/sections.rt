//! The numbered sections into which a value may be split (RFC 2231, section 3), and the numbers in
//! their names.
ghost use Rattle.std.specs.Prelude.{◌≡◌, ℕ, List, None, option_map, if◌then◌else◌};
ghost use Rattle.std.specs.Str.{bytes_eq};
ghost use Rattle.mailparse.specs.Sections.{is_text, numbered};
ghost use Rattle.mailparse.specs.private.Sections.{section_view, stored_section};

use mail_codec::charset::Decode;
use std::collections::BTreeMap;

/// The entry of a name, after the extended values are read.
#[derive(Drop)]
pub(super) enum Section<C: Decode> {
    /// A text.
    Text(String),
    /// The bytes of an extended section, and their charset.
    Octets(C, Vec<u8>),
}

/// The entry of each name: that of its extended value, otherwise its text.
#[derive(Drop)]
pub(super) struct Sections<C: Decode> {
    /// The texts of values that are not extended, by key.
    pub(super) texts: BTreeMap<String, String>,
    /// The entries of extended values, by name.
    pub(super) extended: BTreeMap<String, Section<C>>,
}

impl<C: Decode> Sections<C> {
    /// Whether the entry of a name is a text.
    pub(super) fn has_text(&self, name: &str) -> bool
        ensures { result ≡ is_text (stored_section C.text self.now name.now) }
    {
        match self.extended.get(name) {
            Some(Section::Text(_)) => true,
            Some(Section::Octets(_, _)) => false,
            None => self.texts.contains_key(name),
        }
    }

    /// Removes the entry of a name and returns it.
    #[tactic(auto, using(crate::proofs::lemmas::Sections::removals))]
    pub(super) fn take(&mut self, name: &str) -> Option<Section<C>>
        ensures taken { option_map (section_view C.text) result
            ≡ stored_section C.text self.old name.now }
        ensures left { (q : List ℕ) → stored_section C.text self.new q ≡
            (if bytes_eq name.now q then None else stored_section C.text self.old q) }
    {
        let text = self.texts.remove(name);
        if let Some(section) = self.extended.remove(name) {
            return Some(section);
        }
        match text {
            Some(text) => Some(Section::Text(text)),
            None => None,
        }
    }
}

/// Splits a name at its last star into the base before it and the number after it. Returns `None`
/// if there is no star or no number.
pub(super) fn numbered(name: &str) -> Option<(&str, u64)>
    ensures { option_map (λ n. (n.0.now, n.1)) result ≡ numbered name.now }
{
    let (base, text) = name.rsplit_once('*')?;
    match text.parse::<u64>() {
        Ok(number) => Some((base, number)),
        Err(_) => None,
    }
}
