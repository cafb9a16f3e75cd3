//! Extended values, whose keys end in `*`: a charset, a language and percent pairs (RFC 2231,
//! section 4).
ghost use Rattle.std.specs.Prelude.{◌≡◌, ◌<◌, ℕ, List, length, map, option_map, IfOk, if◌then◌else◌};
ghost use Rattle.std.specs.Cow.{cow_slice_items};
ghost use Rattle.std.specs.List.{All};
ghost use Rattle.std.specs.Option.{is_some};
ghost use Rattle.mailparse.specs.ExtendedValues.{reading_of, section_at, text_in};
ghost use Rattle.mailparse.specs.Pairs.{text_at};
ghost use Rattle.mailparse.specs.private.ExtendedValues.{IsReading, extended_section, extended_view, names_read, read_section, reading_by, reading_view};
ghost use Rattle.mailparse.specs.private.Filled.{holds_name};
ghost use Rattle.mailparse.specs.private.Sections.{section_view, stored_section};

mod charset_sources;
mod names;

use self::charset_sources::charset_sources;
use self::names::{ExtendedName, extended_names};
use super::sections::{Section, Sections, numbered};
use mail_codec::charset::{Decode, KnownCharsets};
use percent_encoding::percent_decode;
use std::alloc::{AllocError, Global};
use std::borrow::CowSlice;
use std::collections::BTreeMap;

/// Returns the text after the first two apostrophes of an extended value, or `""` if there are
/// fewer.
fn text_in(value: &str) -> &str
    ensures { result.now ≡ text_in value.now }
{
    let Some((_, rest)) = value.split_once('\'') else {
        return "";
    };
    match rest.split_once('\'') {
        Some((_, text)) => text,
        None => "",
    }
}

/// Returns the section of a name whose extended value has these bytes in this charset.
fn extended_section<C: Decode>(
    alloc: Global,
    name: &str,
    charset: C,
    bytes: CowSlice<'_, u8>,
) -> Result<Section<C>, AllocError>
    ensures { IfOk result (λ section. section_view C.text section
        ≡ extended_section name.now (C.text charset) (cow_slice_items bytes.entry)) }
{
    if numbered(name).is_some() {
        return Ok(Section::Octets(charset, bytes.into_owned(alloc)?));
    }
    let text = charset.decode_without_bom_handling(alloc, bytes.as_slice())?;
    Ok(Section::Text(text))
}

/// Returns the part of an extended value that is percent-encoded: if the name is its own charset
/// source, the label and the language come before it.
fn encoded_in(value: &str, is_own_source: bool) -> &str
    ensures { result.now ≡ (if is_own_source then text_in value.now else value.now) }
{
    if is_own_source { text_in(value) } else { value }
}

/// How to read the extended value of a name.
#[derive(Drop)]
struct Reading<C: Decode> {
    /// The name, without the star.
    name: String,
    /// The charset named by the value of its charset source.
    charset: C,
    /// Whether the name is its own charset source.
    is_own_source: bool,
}

/// Returns how to read the value of a name, or `None` if the label of its charset source is not
/// known.
fn reading_at<C: Decode>(
    alloc: Global,
    extended: &[ExtendedName<'_, C>],
    place: usize,
    source: usize,
) -> Result<Option<Reading<C>>, AllocError>
    requires place { place < length extended.now }
    requires source { source < length extended.now }
    ensures { IfOk result (λ reading. option_map (reading_view C.text) reading
        ≡ reading_by (map (extended_view C.text) extended.now) place source) }
{
    let Some(charset) = extended[source].charset else {
        return Ok(None);
    };
    Ok(Some(Reading {
        name: String::from_str(alloc, extended[place].name)?,
        charset,
        is_own_source: source == place,
    }))
}

/// Returns how to read the values of the extended names, without those whose label is unknown.
fn readings<K: KnownCharsets>(
    alloc: Global,
    pairs: &BTreeMap<String, String>,
    known: &K,
) -> Result<Vec<Reading<K::Decoder>>, AllocError>
    ensures each { IfOk result (λ found. All
        (IsReading (K.known known.now) (text_at pairs.now))
        (map (reading_view K.Decoder.text) found.items)) }
    ensures names { IfOk result (λ found. (q : List ℕ) →
        holds_name (names_read found.items) q
        ≡ is_some (reading_of (K.known known.now) (text_at pairs.now) q)) }
{
    let extended = extended_names(alloc, pairs, known)?;
    let sources = charset_sources(alloc, extended.as_slice())?;
    let mut found = Vec::new(alloc);
    let mut place = 0;
    while place < extended.len() {
        if let Some(reading) = reading_at(alloc, extended.as_slice(), place, sources[place])? {
            found.push(reading)?;
        }
        place += 1;
    }
    Ok(found)
}

/// Reads an extended value.
fn read<C: Decode>(
    alloc: Global,
    name: &str,
    value: &str,
    charset: C,
    is_own_source: bool,
) -> Result<Section<C>, AllocError>
    ensures { IfOk result (λ section. section_view C.text section
        ≡ read_section (name.now, C.text charset, is_own_source) value.now) }
{
    let bytes = percent_decode(encoded_in(value, is_own_source).as_bytes()).into_cow(alloc)?;
    extended_section(alloc, name, charset, bytes)
}

/// Reads the extended values, and returns the entry of each name. A value leaves the map before its
/// section is inserted, so that it is not kept twice.
pub(super) fn read_sections<K: KnownCharsets>(
    alloc: Global,
    pairs: BTreeMap<String, String>,
    known: &K,
) -> Result<Sections<K::Decoder>, AllocError>
    ensures { IfOk result (λ sections. (q : List ℕ) → stored_section K.Decoder.text sections q
        ≡ section_at (K.known known.now) (text_at pairs) q) }
{
    let readings = readings(alloc, &pairs, known)?;
    let mut texts = pairs;
    let mut extended = BTreeMap::new(alloc);
    for reading in readings {
        let Reading {
            name,
            charset,
            is_own_source,
        } = reading;
        let key = format!(in alloc; "{name}*")?;
        if let Some(value) = texts.remove(key.as_str()) {
            let section = read(alloc, name.as_str(), value.as_str(), charset, is_own_source)?;
            extended.insert(name, section)?;
        }
    }
    Ok(Sections { texts, extended })
}
