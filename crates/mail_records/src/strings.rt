//! Lists of strings, one after another, with the end of each.
ghost use Rattle.std.specs.Prelude.{[], ◌∷◌, ℕ, List, flat_map, IfOk, OnOk};
ghost use Rattle.mailparse.specs.Pairs.{text_at};
ghost use Rattle.mail_parts.specs.Part.{Lists};
ghost use Rattle.mail_records.specs.Codes.{IsOrMemory};
ghost use Rattle.mail_records.specs.Ranges.{type_of};
ghost use Rattle.mail_records.specs.Rows.{AppendsRows, rows_view};
ghost use Rattle.mail_records.specs.Strings.{AreTypeStrings, both, end_from, own};

use crate::codes::NO_MEMORY;
use crate::ranges::type_of;
use crate::rows::Rows;
use mailparse::{KnownCharsets, MailParseError};
use std::alloc::{AllocError, Global};
use std::collections::BTreeMap;

/// Returns the strings of the type in a raw value, or `NO_MEMORY`. The record of a string is the
/// offset at which it ends.
///
/// # Errors
///
/// `NO_MEMORY` if it runs out of memory.
///
/// # Examples
///
/// ```rust
/// use mail_records::strings::type_strings;
///
/// let found = type_strings(alloc, b"text/html; charset=utf-8", &())?;
/// assert!(rt; found.strings.as_slice().starts_with(b"text/html"));
/// assert_eq!(rt; found.records[0], 9);
/// ```
pub fn type_strings<K: KnownCharsets>(
    alloc: Global,
    raw: &[u8],
    known: &K,
) -> Result<Rows<u64>, u32>
    ensures { IsOrMemory (λ found.
        AreTypeStrings (type_of (K.known known.now) raw.now) (rows_view found)) result }
{
    match strings_in(alloc, raw, known) {
        Ok(found) => Ok(found),
        Err(_) => Err(NO_MEMORY),
    }
}

/// Returns the strings of the type in a raw value.
fn strings_in<K: KnownCharsets>(
    alloc: Global,
    raw: &[u8],
    known: &K,
) -> Result<Rows<u64>, MailParseError>
    ensures { IfOk result (λ found.
        AreTypeStrings (type_of (K.known known.now) raw.now) (rows_view found)) }
{
    let ctype = type_of(alloc, raw, known)?;
    let mut strings = Rows {
        records: Vec::new(alloc),
        strings: Vec::new(alloc),
    };
    push_string(&mut strings, ctype.mimetype.as_str())?;
    push_string(&mut strings, ctype.charset.as_str())?;
    push_parameters(&mut strings, &ctype.params)?;
    Ok(strings)
}

/// Appends parameters, each its name and its value.
fn push_parameters(
    strings: &mut Rows<u64>,
    parameters: &BTreeMap<String, String>,
) -> Result<(), AllocError>
    ensures { OnOk result ((pairs : List (List ℕ × List ℕ)) × Lists (text_at parameters.now) pairs
        × AppendsRows end_from own (flat_map both pairs) strings.old strings.new) }
{
    for (name, value) in parameters {
        push_string(strings, name.as_str())?;
        push_string(strings, value.as_str())?;
    }
    Ok(())
}

/// Appends a string.
fn push_string(strings: &mut Rows<u64>, text: &str) -> Result<(), AllocError>
    ensures { OnOk result (AppendsRows end_from own (text.now ∷ []) strings.old strings.new) }
{
    strings.strings.extend_from_slice(text.as_bytes())?;
    strings.records.push(strings.strings.len() as u64)?;
    Ok(())
}
