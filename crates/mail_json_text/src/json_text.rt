//! JSON text of strings and numbers (RFC 8259, sections 5 to 7).
ghost use Rattle.std.specs.Prelude.{map, option_map, string_bytes};
ghost use Rattle.json.specs.Json.{string};
ghost use Rattle.mail_json_text.specs.Printed.{comma, number_or_null, number_value, pair_value};
ghost use Rattle.mail_json_text.specs.Printed.{string_or_null, strings, text_of};
ghost use Rattle.mail_program.specs.Streams.{Writes};

use crate::escapes::write_escaped;
use mail_program::Fault;
use std::io::Write;

/// The position of an item in a list.
#[derive(Clone, Copy, Debug)]
pub enum Position {
    /// It is the first item.
    First,
    /// Another item comes before it.
    Later,
}

/// Writes a string.
///
/// Does not allocate.
///
/// # Errors
///
/// `Fault::Output` if a write fails.
///
/// # Examples
///
/// ```rust
/// use mail_json_text::write_text;
///
/// let mut out = Vec::new(alloc);
/// write_text(&mut out, "a\nb")?;
/// assert_eq!(rt; out.as_slice(), b"\"a\\nb\"".as_slice());
/// ```
#[tactic(auto, unfolding(crate::specs::JsonText::json_text, crate::specs::Printed::text_of))]
pub fn write_text<W: Write>(out: &mut W, text: &str) -> Result<(), Fault>
    ensures { Writes (W.contents out.old) (W.contents out.new) result
        (text_of (string text.now)) }
{
    write_word(out, "\"")?;
    write_escaped(out, text.as_bytes())?;
    write_word(out, "\"")
}

/// Writes a string, or `null` for `None`.
#[tactic(auto, unfolding(crate::specs::Printed::text_of))]
pub(crate) fn write_name<W: Write>(out: &mut W, name: Option<&str>) -> Result<(), Fault>
    ensures { Writes (W.contents out.old) (W.contents out.new) result
        (text_of (string_or_null (option_map (λ text. text.now) name.entry))) }
{
    match name {
        Some(name) => write_text(out, name),
        None => write_word(out, "null"),
    }
}

/// Writes a list of strings.
pub(crate) fn write_texts<W: Write>(out: &mut W, texts: &[String]) -> Result<(), Fault>
    ensures { Writes (W.contents out.old) (W.contents out.new) result
        (text_of (strings (map (λ t. string_bytes t) texts.now))) }
{
    write_word(out, "[")?;
    let mut position = Position::First;
    for text in texts {
        write_comma(out, position)?;
        write_text(out, text.as_str())?;
        position = Position::Later;
    }
    write_word(out, "]")
}

/// Writes a pair of strings: a list of two.
///
/// Does not allocate.
///
/// # Errors
///
/// `Fault::Output` if a write fails.
///
/// # Examples
///
/// ```rust
/// use mail_json_text::write_pair;
///
/// let mut out = Vec::new(alloc);
/// write_pair(&mut out, "Subject", "Hi")?;
/// assert_eq!(rt; out.as_slice(), b"[\"Subject\",\"Hi\"]".as_slice());
/// ```
pub fn write_pair<W: Write>(out: &mut W, name: &str, value: &str) -> Result<(), Fault>
    ensures { Writes (W.contents out.old) (W.contents out.new) result
        (text_of (pair_value (name.now, value.now))) }
{
    write_word(out, "[\"")?;
    write_escaped(out, name.as_bytes())?;
    write_word(out, "\",\"")?;
    write_escaped(out, value.as_bytes())?;
    write_word(out, "\"]")
}

/// Writes the comma before an item, unless it is the first.
///
/// Does not allocate.
///
/// # Errors
///
/// `Fault::Output` if a write fails.
///
/// # Examples
///
/// ```rust
/// use mail_json_text::{Position, write_comma};
///
/// let mut out = Vec::new(alloc);
/// write_comma(&mut out, Position::First)?;
/// write_comma(&mut out, Position::Later)?;
/// assert_eq!(rt; out.as_slice(), b",".as_slice());
/// ```
pub fn write_comma<W: Write>(out: &mut W, position: Position) -> Result<(), Fault>
    ensures { Writes (W.contents out.old) (W.contents out.new) result (comma position) }
{
    match position {
        Position::First => Ok(()),
        Position::Later => write_word(out, ","),
    }
}

/// Writes text as it is.
///
/// Does not allocate.
///
/// # Errors
///
/// `Fault::Output` if a write fails.
///
/// # Examples
///
/// ```rust
/// use mail_json_text::write_word;
///
/// let mut out = Vec::new(alloc);
/// write_word(&mut out, "null")?;
/// assert_eq!(rt; out.as_slice(), b"null".as_slice());
/// ```
#[inline(always)]
pub fn write_word<W: Write>(out: &mut W, word: &str) -> Result<(), Fault>
    ensures { Writes (W.contents out.old) (W.contents out.new) result word.now }
{
    out.write_all(word.as_bytes())?;
    Ok(())
}

/// Writes a number, or `null` for `None`.
#[tactic(auto, unfolding(crate::specs::Printed::text_of))]
pub(crate) fn write_number_or_null<W: Write>(
    out: &mut W,
    number: Option<usize>,
) -> Result<(), Fault>
    ensures { Writes (W.contents out.old) (W.contents out.new) result
        (text_of (number_or_null number)) }
{
    match number {
        Some(number) => write_number(out, number),
        None => write_word(out, "null"),
    }
}

/// Writes a number.
pub(crate) fn write_number<W: Write>(out: &mut W, number: usize) -> Result<(), Fault>
    ensures { Writes (W.contents out.old) (W.contents out.new) result
        (text_of (number_value number)) }
{
    write!(out, "{number}")?;
    Ok(())
}
