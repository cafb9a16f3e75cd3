//! Joins the values that are split into sections (RFC 2231, section 3).
ghost use Rattle.std.specs.Prelude.{◌≡◌, ◌++◌, ℕ, List, Some, not, length, map, option_map, IfOk, OnOk, string_bytes, if◌then◌else◌};
ghost use Rattle.std.specs.List.{list_any};
ghost use Rattle.std.specs.Option.{option_or};
ghost use Rattle.std.specs.Str.{bytes_eq};
ghost use Rattle.mailparse.specs.Continuations.{joined, joined_at, parameters_in, sections_of};
ghost use Rattle.mailparse.specs.Pairs.{last_of, text_at};
ghost use Rattle.mailparse.specs.Sections.{alone};
ghost use Rattle.mailparse.specs.private.Continuations.{base_of_section_0, bases_of_sections_0, has_star, joined_text, left_by, names_in, names_of_sections, without_sections};
ghost use Rattle.mailparse.specs.private.Sections.{section_view, sections_at, stored_section};

mod joining;

use self::joining::Joining;
use super::extended_values::read_sections;
use super::sections::{Section, Sections, numbered};
use mail_codec::bytescan::find_byte;
use mail_codec::charset::{Decode, KnownCharsets};
use std::alloc::{AllocError, Global};
use std::collections::BTreeMap;

/// Removes the sections of a base, and joins them.
fn join<C: Decode>(
    alloc: Global,
    sections: &mut Sections<C>,
    base: &str,
) -> Result<String, AllocError>
    ensures text { IfOk result (λ text. string_bytes text
        ≡ joined (sections_of (stored_section C.text sections.old) base.now)) }
    ensures left { OnOk result ((q : List ℕ) → stored_section C.text sections.new q
        ≡ without_sections (stored_section C.text sections.old) base.now
        (length (sections_of (stored_section C.text sections.old) base.now)) q) }
{
    let mut joining = Joining::new(alloc);
    let mut count: u64 = 0;
    while count < u64::MAX {
        let name = format!(in alloc; "{base}*{count}")?;
        let Some(section) = sections.take(name.as_str()) else {
            return joining.finish(alloc);
        };
        joining.push(alloc, section)?;
        count += 1;
    }
    joining.finish(alloc)
}

/// Returns the base of a name with the number 0, unless the entry of the base is a text.
fn base_of_section_0<'n, C: Decode>(sections: &Sections<C>, name: &'n str) -> Option<&'n str>
    ensures { option_map (λ base. base.now) result
        ≡ base_of_section_0 (stored_section C.text sections.now) name.now }
{
    let (base, number) = numbered(name)?;
    if number != 0 {
        return None;
    }
    if sections.has_text(base) {
        return None;
    }
    Some(base)
}

/// Appends the bases of the names of a map.
fn add_bases<C: Decode, X>(
    alloc: Global,
    bases: &mut Vec<String>,
    sections: &Sections<C>,
    named: &BTreeMap<String, X>,
) -> Result<(), AllocError>
    ensures { OnOk result (map string_bytes bases.new.items ≡ map string_bytes bases.old.items
        ++ bases_of_sections_0 (stored_section C.text sections.now) (names_in named.now)) }
{
    for (name, _) in named {
        if let Some(base) = base_of_section_0(sections, name.as_str()) {
            bases.push(String::from_str(alloc, base)?)?;
        }
    }
    Ok(())
}

/// Returns the bases; some may occur more than once.
fn bases_of<C: Decode>(alloc: Global, sections: &Sections<C>) -> Result<Vec<String>, AllocError>
    ensures { IfOk result (λ bases. map string_bytes bases.items ≡ bases_of_sections_0
        (stored_section C.text sections.now) (names_of_sections sections.now)) }
{
    let mut bases = Vec::new(alloc);
    add_bases(alloc, &mut bases, sections, &sections.texts)?;
    add_bases(alloc, &mut bases, sections, &sections.extended)?;
    Ok(bases)
}

/// Removes the sections of each base, and joins them.
fn joined_bases<C: Decode>(
    alloc: Global,
    sections: &mut Sections<C>,
    bases: Vec<String>,
) -> Result<BTreeMap<String, String>, AllocError>
    ensures texts { IfOk result (λ found. (q : List ℕ) → text_at found q
        ≡ joined_text (stored_section C.text sections.old) (map string_bytes bases.items) q) }
    ensures left { OnOk result ((q : List ℕ) → stored_section C.text sections.new q
        ≡ left_by (stored_section C.text sections.old) (map string_bytes bases.items) q) }
{
    let mut texts = BTreeMap::new(alloc);
    for base in bases {
        if !texts.contains_key(base.as_str()) {
            let text = join(alloc, sections, base.as_str())?;
            put_text(&mut texts, base, text)?;
        }
    }
    Ok(texts)
}

/// Returns the text of a section that is not joined.
fn text_alone<C: Decode>(alloc: Global, section: Section<C>) -> Result<String, AllocError>
    ensures { IfOk result (λ text. string_bytes text ≡ alone (section_view C.text section)) }
{
    match section {
        Section::Text(text) => Ok(text),
        Section::Octets(charset, bytes) => {
            charset.decode_without_bom_handling(alloc, bytes.as_slice())
        }
    }
}

/// Sets the text of a name.
fn put_text(
    texts: &mut BTreeMap<String, String>,
    name: String,
    text: String,
) -> Result<(), AllocError>
    ensures { OnOk result ((q : List ℕ) → text_at texts.new q
        ≡ (if bytes_eq (string_bytes name) q then Some (string_bytes text)
        else text_at texts.old q)) }
{
    texts.insert(name, text)?;
    Ok(())
}

/// Sets the texts of the bases that have no text yet.
fn put_joined(
    texts: &mut BTreeMap<String, String>,
    bases: BTreeMap<String, String>,
) -> Result<(), AllocError>
    ensures { OnOk result ((q : List ℕ) → text_at texts.new q
        ≡ option_or (text_at texts.old q) (text_at bases q)) }
{
    for (base, text) in bases {
        if !texts.contains_key(base.as_str()) {
            put_text(texts, base, text)?;
        }
    }
    Ok(())
}

/// Sets the texts of sections, and replaces those of the same names.
fn put_extended<C: Decode>(
    alloc: Global,
    texts: &mut BTreeMap<String, String>,
    extended: BTreeMap<String, Section<C>>,
) -> Result<(), AllocError>
    ensures { OnOk result ((q : List ℕ) → text_at texts.new q
        ≡ option_or (option_map alone (sections_at C.text extended q)) (text_at texts.old q)) }
{
    for (name, section) in extended {
        put_text(texts, name, text_alone(alloc, section)?)?;
    }
    Ok(())
}

/// Returns the texts of the bases and of the sections that are not joined.
fn left_and_joined<C: Decode>(
    alloc: Global,
    sections: Sections<C>,
) -> Result<BTreeMap<String, String>, AllocError>
    ensures { IfOk result (λ texts. (q : List ℕ) → text_at texts q
        ≡ joined_at (stored_section C.text sections) (names_of_sections sections) q) }
{
    let bases = bases_of(alloc, &sections)?;
    let mut sections = sections;
    let joined_texts = joined_bases(alloc, &mut sections, bases)?;
    let Sections {
        mut texts,
        extended,
    } = sections;
    put_joined(&mut texts, joined_texts)?;
    put_extended(alloc, &mut texts, extended)?;
    Ok(texts)
}

/// Whether a name contains a star.
#[tactic(auto, using(crate::proofs::lemmas::StarFree::star_found))]
fn has_star(name: &str) -> bool
    ensures { result ≡ has_star name.now }
{
    find_byte(name.as_bytes(), b'*').is_some()
}

/// Whether no name of a map contains a star: then none is extended, and none has a number.
fn is_star_free(pairs: &BTreeMap<String, String>) -> bool
    ensures { result ≡ not (list_any has_star (names_in pairs.now)) }
{
    let mut starred = false;
    for (name, _) in pairs {
        starred |= has_star(name.as_str());
    }
    !starred
}

/// Returns the parameters of pairs of a key and a value: extended values are read, and sections are
/// joined. If no key contains a star, the parameters are the pairs.
pub(super) fn resolve<K: KnownCharsets>(
    alloc: Global,
    pairs: BTreeMap<String, String>,
    known: &K,
) -> Result<BTreeMap<String, String>, AllocError>
    ensures { IfOk result (λ texts. (ps : List (List ℕ × List ℕ)) → ((q : List ℕ) →
        text_at pairs q ≡ last_of ps q) → (q : List ℕ) → text_at texts q
        ≡ parameters_in (K.known known.now) ps q) }
{
    if is_star_free(&pairs) {
        return Ok(pairs);
    }
    let sections = read_sections(alloc, pairs, known)?;
    left_and_joined(alloc, sections)
}
