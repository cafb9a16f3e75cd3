//! The members of an object, which are written one after another.
//!
//! A key is the text before the value of a member: `first_key!("name")`, or `key!("name")` if other
//! members come before it. The closing brace is written by `write_word`.
ghost use Rattle.std.specs.Prelude.{◌≡◌, map, option_map, string_bytes, true};
ghost use Rattle.json.specs.Json.{boolean, null, string};
ghost use Rattle.mail_json_text.specs.Members.{AddsMember, is_key};
ghost use Rattle.mail_json_text.specs.Printed.{number_or_null, number_value, seconds_value};
ghost use Rattle.mail_json_text.specs.Printed.{string_or_null, strings, text_of};
ghost use Rattle.mail_program.specs.Streams.{Writes};

use crate::json_text::{
    write_name, write_number, write_number_or_null, write_text, write_texts, write_word,
};
use mail_program::Fault;
use std::alloc::Global;
use std::io::Write;

/// Returns the key of the first member of an object: `{"name":`.
#[macro_export]
macro_rules! first_key {
    ($name:literal) => {
        concat!("{\"", $name, "\":")
    };
}

/// Returns the key of a member after others: `,"name":`.
#[macro_export]
macro_rules! key {
    ($name:literal) => {
        concat!(",\"", $name, "\":")
    };
}

/// Adds a member that is a string.
///
/// Does not allocate.
///
/// # Errors
///
/// `Fault::Output` if a write fails.
///
/// # Examples
///
/// ```rust
/// use mail_json_text::{add_text, key};
///
/// let mut out = Vec::new(alloc);
/// add_text(&mut out, key!("a"), "b")?;
/// assert_eq!(rt; out.as_slice(), b",\"a\":\"b\"".as_slice());
/// ```
#[tactic(auto, using(crate::proofs::lemmas::Members::member))]
pub fn add_text<W: Write>(out: &mut W, key: &str, text: &str) -> Result<(), Fault>
    requires { is_key key.now ≡ true }
    ensures { AddsMember (W.contents out.old) (W.contents out.new) result key.now
        (string text.now) }
{
    write_word(out, key)?;
    write_text(out, text)
}

/// Adds a member that is a string, or `null` for `None`.
///
/// Does not allocate.
///
/// # Errors
///
/// `Fault::Output` if a write fails.
///
/// # Examples
///
/// ```rust
/// use mail_json_text::{add_optional, key};
///
/// let mut out = Vec::new(alloc);
/// add_optional(&mut out, key!("a"), None)?;
/// assert_eq!(rt; out.as_slice(), b",\"a\":null".as_slice());
/// ```
#[tactic(auto, using(crate::proofs::lemmas::Members::member))]
pub fn add_optional<W: Write>(out: &mut W, key: &str, text: Option<&str>) -> Result<(), Fault>
    requires { is_key key.now ≡ true }
    ensures { AddsMember (W.contents out.old) (W.contents out.new) result key.now
        (string_or_null (option_map (λ text. text.now) text.entry)) }
{
    write_word(out, key)?;
    write_name(out, text)
}

/// Adds a member that is a list of strings.
///
/// Does not allocate.
///
/// # Errors
///
/// `Fault::Output` if a write fails.
///
/// # Examples
///
/// ```rust
/// use mail_json_text::{add_texts, key};
///
/// let mut out = Vec::new(alloc);
/// add_texts(&mut out, key!("a"), &[])?;
/// assert_eq!(rt; out.as_slice(), b",\"a\":[]".as_slice());
/// ```
#[tactic(auto, using(crate::proofs::lemmas::Members::member))]
pub fn add_texts<W: Write>(out: &mut W, key: &str, texts: &[String]) -> Result<(), Fault>
    requires { is_key key.now ≡ true }
    ensures { AddsMember (W.contents out.old) (W.contents out.new) result key.now
        (strings (map (λ t. string_bytes t) texts.now)) }
{
    write_word(out, key)?;
    write_texts(out, texts)
}

/// Adds a member that is a number.
///
/// Does not allocate.
///
/// # Errors
///
/// `Fault::Output` if a write fails.
///
/// # Examples
///
/// ```rust
/// use mail_json_text::{add_number, key};
///
/// let mut out = Vec::new(alloc);
/// add_number(&mut out, key!("a"), 7)?;
/// assert_eq!(rt; out.as_slice(), b",\"a\":7".as_slice());
/// ```
#[tactic(auto, using(crate::proofs::lemmas::Members::member))]
pub fn add_number<W: Write>(out: &mut W, key: &str, number: usize) -> Result<(), Fault>
    requires { is_key key.now ≡ true }
    ensures { AddsMember (W.contents out.old) (W.contents out.new) result key.now
        (number_value number) }
{
    write_word(out, key)?;
    write_number(out, number)
}

/// Adds a member that is a number, or `null` for `None`.
///
/// Does not allocate.
///
/// # Errors
///
/// `Fault::Output` if a write fails.
///
/// # Examples
///
/// ```rust
/// use mail_json_text::{add_number_or_null, key};
///
/// let mut out = Vec::new(alloc);
/// add_number_or_null(&mut out, key!("a"), Some(7))?;
/// assert_eq!(rt; out.as_slice(), b",\"a\":7".as_slice());
/// ```
#[tactic(auto, using(crate::proofs::lemmas::Members::member))]
pub fn add_number_or_null<W: Write>(
    out: &mut W,
    key: &str,
    number: Option<usize>,
) -> Result<(), Fault>
    requires { is_key key.now ≡ true }
    ensures { AddsMember (W.contents out.old) (W.contents out.new) result key.now
        (number_or_null number) }
{
    write_word(out, key)?;
    write_number_or_null(out, number)
}

/// Adds a member that is a date, by its seconds.
///
/// Does not allocate.
///
/// # Errors
///
/// `Fault::Output` if a write fails.
///
/// # Examples
///
/// ```rust
/// use mail_json_text::{add_seconds, key};
///
/// let mut out = Vec::new(alloc);
/// add_seconds(&mut out, key!("a"), -7)?;
/// assert_eq!(rt; out.as_slice(), b",\"a\":-7".as_slice());
/// ```
#[tactic(auto, using(crate::proofs::lemmas::Members::member))]
pub fn add_seconds<W: Write>(out: &mut W, key: &str, seconds: i64) -> Result<(), Fault>
    requires { is_key key.now ≡ true }
    ensures { AddsMember (W.contents out.old) (W.contents out.new) result key.now
        (seconds_value seconds) }
{
    write_word(out, key)?;
    write_seconds(out, seconds)
}

/// Adds a member that is `true` or `false`.
///
/// Does not allocate.
///
/// # Errors
///
/// `Fault::Output` if a write fails.
///
/// # Examples
///
/// ```rust
/// use mail_json_text::{add_flag, key};
///
/// let mut out = Vec::new(alloc);
/// add_flag(&mut out, key!("a"), true)?;
/// assert_eq!(rt; out.as_slice(), b",\"a\":true".as_slice());
/// ```
#[tactic(auto, using(crate::proofs::lemmas::Members::member))]
pub fn add_flag<W: Write>(out: &mut W, key: &str, flag: bool) -> Result<(), Fault>
    requires { is_key key.now ≡ true }
    ensures { AddsMember (W.contents out.old) (W.contents out.new) result key.now (boolean flag) }
{
    write_word(out, key)?;
    write_flag(out, flag)
}

/// Adds a member that is `null`.
///
/// Does not allocate.
///
/// # Errors
///
/// `Fault::Output` if a write fails.
///
/// # Examples
///
/// ```rust
/// use mail_json_text::{add_null, key};
///
/// let mut out = Vec::new(alloc);
/// add_null(&mut out, key!("a"))?;
/// assert_eq!(rt; out.as_slice(), b",\"a\":null".as_slice());
/// ```
#[tactic(auto, using(crate::proofs::lemmas::Members::member))]
pub fn add_null<W: Write>(out: &mut W, key: &str) -> Result<(), Fault>
    requires { is_key key.now ≡ true }
    ensures { AddsMember (W.contents out.old) (W.contents out.new) result key.now null }
{
    write_word(out, key)?;
    write_null(out)
}

/// Writes `true` or `false`.
#[tactic(auto, unfolding(crate::specs::Printed::text_of))]
fn write_flag<W: Write>(out: &mut W, flag: bool) -> Result<(), Fault>
    ensures { Writes (W.contents out.old) (W.contents out.new) result (text_of (boolean flag)) }
{
    if flag {
        return write_word(out, "true");
    }
    write_word(out, "false")
}

/// Writes `null`.
#[tactic(auto, unfolding(crate::specs::Printed::text_of))]
fn write_null<W: Write>(out: &mut W) -> Result<(), Fault>
    ensures { Writes (W.contents out.old) (W.contents out.new) result (text_of null) }
{
    write_word(out, "null")
}

/// Writes the seconds of a date.
#[tactic(auto, unfolding(crate::specs::Printed::text_of))]
fn write_seconds<W: Write>(out: &mut W, seconds: i64) -> Result<(), Fault>
    ensures { Writes (W.contents out.old) (W.contents out.new) result
        (text_of (seconds_value seconds)) }
{
    write!(out, "{seconds}")?;
    Ok(())
}
