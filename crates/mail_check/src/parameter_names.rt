//! Types and dispositions with the syntax that all programs read, the names of their parameters,
//! and file names that differ.
ghost use Rattle.std.specs.Prelude.{◌≡◌, IfOk, OnOk, Some, map, option_map, string_bytes};
ghost use Rattle.mail_check.specs.LineViews.{line_view};
ghost use Rattle.mail_check.specs.Parameters.{ends_name, has_other_name, has_repeat, is_among};
ghost use Rattle.mail_check.specs.Parameters.{is_name_state, name_with, none_seen};
ghost use Rattle.mail_check.specs.Parameters.{strict, strict_value};
ghost use Rattle.mail_check.specs.private.StrictValues.{reading_of, strict_view};
ghost use Rattle.mail_check.specs.private.Unmoved.{is_unmoved};

use crate::lines::HeaderLine;
use crate::parameters::{
    Step, ValueState, after_byte, is_disposition, is_restricted, is_step, is_type, may_end,
    value_of,
};
use std::alloc::{AllocError, Global};
use std::collections::BTreeSet;

/// A type or a disposition with the syntax that all programs read.
#[derive(Drop)]
pub(crate) struct StrictValue<'m> {
    /// Its bytes from the subtype or disposition onwards.
    pub(crate) bytes: &'m [u8],
    /// The names of its parameters, in lower case, with their asterisks.
    pub(crate) names: Vec<String>,
    /// Whether a value in quotes has a semicolon, a tab or a line end, or a space at its start or
    /// end.
    pub(crate) has_quoted_special: bool,
    /// Whether the name of a parameter has an asterisk.
    pub(crate) has_extended: bool,
}

/// Returns the value of a header that is a type or a disposition, if it has the syntax that all
/// programs read.
pub(crate) fn strict_value<'m>(
    alloc: Global,
    line: &HeaderLine<'m>,
) -> Result<Option<StrictValue<'m>>, AllocError>
    ensures { IfOk result (λ value. option_map strict_view value
        ≡ option_map reading_of (strict_value (line_view line.now))) }
{
    match value_of(line) {
        Some(bytes) => read_value(alloc, bytes),
        None => Ok(None),
    }
}

/// Reads a value from its subtype or disposition onwards, if it has that syntax. One pass tests the
/// syntax and collects the names. Most bytes of a value change nothing.
fn read_value(alloc: Global, bytes: &[u8]) -> Result<Option<StrictValue<'_>>, AllocError>
    ensures { IfOk result (λ value. option_map strict_view value
        ≡ option_map reading_of (strict (Some bytes.now))) }
{
    let mut names = Vec::new(alloc);
    let mut name = String::new(alloc);
    let mut has_quoted_special = false;
    let mut has_extended = false;
    let mut state = ValueState::Start;
    for byte in bytes {
        if is_unmoved(state, *byte) {
            continue;
        }
        has_quoted_special = has_quoted_special || is_step(Step::Special, state, *byte);
        has_extended = has_extended || is_step(Step::Starred, state, *byte);
        state = after_byte(state, *byte);
        if ends_name(state) {
            names.push(name)?;
            name = String::new(alloc);
        } else {
            extend_name(state, &mut name, *byte)?;
        }
    }
    if !may_end(state) {
        return Ok(None);
    }
    Ok(Some(StrictValue {
        bytes,
        names,
        has_quoted_special,
        has_extended,
    }))
}

/// Returns whether a byte changes nothing of what was read of a value: one of a subtype, a
/// disposition or the value of a parameter, after another one.
#[inline(always)]
#[tactic(auto, unfolding(crate::specs::private::Unmoved::is_unmoved))]
fn is_unmoved(state: ValueState, byte: u8) -> bool
    ensures { result ≡ is_unmoved state byte }
{
    match state {
        ValueState::Token | ValueState::Text | ValueState::Quoted => is_restricted(byte),
        _ => false,
    }
}

/// Appends a byte to a name, in lower case, if that is one of it; otherwise empties the name.
#[inline(always)]
fn extend_name(state: ValueState, name: &mut String, byte: u8) -> Result<(), AllocError>
    ensures { OnOk result (string_bytes name.new ≡ name_with state (string_bytes name.old) byte) }
{
    if !is_name_state(state) {
        name.clear();
        return Ok(());
    }
    name.push(byte.to_ascii_lowercase() as char)
}

/// Returns whether a byte is one of a name, given the state after it.
#[inline(always)]
fn is_name_state(state: ValueState) -> bool
    ensures { result ≡ is_name_state state }
{
    matches!(state, ValueState::Attribute | ValueState::Star)
}

/// Returns whether it is the equals sign after a name.
#[inline(always)]
fn ends_name(state: ValueState) -> bool
    ensures { result ≡ ends_name state }
{
    matches!(state, ValueState::Equals | ValueState::StarEquals)
}

/// Returns whether one of some names comes after one that is equal. Fewer than two are not compared.
#[tactic(auto, using(crate::proofs::lemmas::Parameters::few_repeat))]
pub(crate) fn has_repeat(alloc: Global, names: &[String]) -> Result<bool, AllocError>
    ensures { IfOk result (λ is. is ≡ has_repeat none_seen (map string_bytes names.now)) }
{
    if names.len() < 2 {
        return Ok(false);
    }
    let mut seen = BTreeSet::new(alloc);
    for name in names {
        if !seen.insert(name.clone()?)? {
            return Ok(true);
        }
    }
    Ok(false)
}

/// Returns whether the file name of the other header is among the names of a type or a
/// disposition.
pub(crate) fn has_other_name(line: &HeaderLine<'_>, names: &[String]) -> bool
    ensures { result ≡ has_other_name (line_view line.now) (map string_bytes names.now) }
{
    (is_type(line) && is_among("filename", names))
        || (is_disposition(line) && is_among("name", names))
}

/// Returns whether a name is among some.
fn is_among(name: &str, names: &[String]) -> bool
    ensures { result ≡ is_among name.now (map string_bytes names.now) }
{
    for other in names {
        if name == other.as_str() {
            return true;
        }
    }
    false
}
