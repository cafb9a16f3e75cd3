//! The extended names: names that are not keys themselves, but are keys with a star after them.
ghost use Rattle.std.specs.Prelude.{◌≡◌, map, option_map, IfOk};
ghost use Rattle.std.specs.BTreeMap.{IsOrdered};
ghost use Rattle.std.specs.String.{string_cmp};
ghost use Rattle.mailparse.specs.ExtendedValues.{label_in};
ghost use Rattle.mailparse.specs.Pairs.{text_at};
ghost use Rattle.mailparse.specs.private.ExtendedValues.{extended_entries, extended_view, star_taken};
ghost use Rattle.mailparse.specs.private.Pairs.{pair_view};

use mail_codec::charset::{Decode, KnownCharsets};
use std::alloc::{AllocError, Global};
use std::collections::BTreeMap;

/// A name that is not a key itself, but is a key with a star after it.
#[derive(Clone, Copy)]
pub(super) struct ExtendedName<'a, C: Decode> {
    /// The name, without the star.
    pub(super) name: &'a str,
    /// Its extended value, that of the starred key.
    pub(super) value: &'a str,
    /// The charset named by this value.
    pub(super) charset: Option<C>,
}

/// Returns a key without the star at its end, or `None` if it does not end in one.
#[tactic(auto, using(crate::proofs::lemmas::ExtendedValues::star_cases))]
fn without_star(key: &str) -> Option<&str>
    ensures { option_map (λ name. name.now) result ≡ star_taken key.now }
{
    key.strip_suffix('*')
}

/// Returns the charset whose label comes before the first apostrophe of a value; without an
/// apostrophe, the whole value is the label.
fn charset_in<K: KnownCharsets>(value: &str, known: &K) -> Option<K::Decoder>
    ensures { option_map K.Decoder.text result ≡ K.known known.now (label_in value.now) }
{
    let label = match value.split_once('\'') {
        Some((label, _)) => label,
        None => value,
    };
    known.for_label(label.as_bytes())
}

/// Returns the extended names, in the order of their starred keys.
#[tactic(auto, using(crate::proofs::lemmas::ExtendedValues::names_found))]
pub(super) fn extended_names<'a, K: KnownCharsets>(
    alloc: Global,
    pairs: &'a BTreeMap<String, String>,
    known: &K,
) -> Result<Vec<ExtendedName<'a, K::Decoder>>, AllocError>
    ensures ordered { IfOk result (λ _. IsOrdered string_cmp pairs.now) }
    ensures read { IfOk result (λ found. map (extended_view K.Decoder.text) found.items
        ≡ extended_entries (K.known known.now) (text_at pairs.now)
        (map pair_view pairs.now.entries)) }
{
    let mut found = Vec::new(alloc);
    for (key, value) in pairs {
        if let Some(name) = without_star(key.as_str()) {
            if !pairs.contains_key(name) {
                let charset = charset_in(value.as_str(), known);
                found.push(ExtendedName {
                    name,
                    value: value.as_str(),
                    charset,
                })?;
            }
        }
    }
    Ok(found)
}
