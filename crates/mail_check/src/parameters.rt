//! Types and dispositions that other programs may read differently.
ghost use Rattle.std.specs.Prelude.{◌≡◌, ◌||◌, option_map};
ghost use Rattle.mail_codec.specs.Ascii.{slash};
ghost use Rattle.mail_codec.specs.Places.{byte_place};
ghost use Rattle.mail_check.specs.LineViews.{line_view};
ghost use Rattle.mail_check.specs.Parameters.{after_byte, after_main, after_semicolon, after_value};
ghost use Rattle.mail_check.specs.Parameters.{has_quoted_pair, has_word, in_quotes, is_attribute};
ghost use Rattle.mail_check.specs.Parameters.{is_disposition, is_extended, is_main_type};
ghost use Rattle.mail_check.specs.Parameters.{is_restricted, is_special, is_special_step};
ghost use Rattle.mail_check.specs.Parameters.{is_star_step, is_step, is_type, may_end, value_of};
ghost use Rattle.mail_check.specs.declared.parameters.ValueState.TheVariants.{Attribute};

use crate::lines::{HeaderLine, is_named, trimmed_value};
use crate::scan::{is_blank, is_control, is_same};
use mail_codec::bytescan::{find, find_byte};

/// What was read of a value with parameters, from its subtype or disposition onwards.
#[derive(Clone, Copy, Debug)]
pub enum ValueState {
    /// Nothing.
    Start,
    /// A part of the subtype or disposition.
    Token,
    /// A semicolon after it, or after a parameter.
    Semicolon,
    /// Blanks after a semicolon.
    Blank,
    /// A CR after a semicolon and blanks.
    Return,
    /// A line end there.
    Feed,
    /// Blanks after that.
    Fold,
    /// A part of the name of a parameter.
    Attribute,
    /// An asterisk of the name, and asterisks and digits.
    Star,
    /// The equals sign after a name.
    Equals,
    /// The equals sign after a name with an asterisk.
    StarEquals,
    /// A part of a value that is not in quotes.
    Text,
    /// A part of such a value after a name with an asterisk.
    Extended,
    /// The quotation mark before a value.
    Opened,
    /// A part of a value in quotes.
    Quoted,
    /// A part of it that ends with a space.
    Space,
    /// A part of it that ends with a backslash.
    Escaped,
    /// The quotation mark after a value.
    Closed,
    /// Something else.
    Wrong,
}

/// A step through a value at which programs differ.
#[derive(Clone, Copy, Debug)]
pub enum Step {
    /// A byte in quotes: a semicolon, a tab, a byte of a line end, or a space at their ends.
    Special,
    /// The asterisk of a name.
    Starred,
}

/// Returns whether a header is a type or a disposition.
#[inline(always)]
pub(crate) fn has_parameters(line: &HeaderLine<'_>) -> bool
    ensures { result ≡ (is_type (line_view line.now) || is_disposition (line_view line.now)) }
{
    is_type(line) || is_disposition(line)
}

/// Returns whether a header has the type of its message.
pub(crate) fn is_type(line: &HeaderLine<'_>) -> bool
    ensures { result ≡ is_type (line_view line.now) }
{
    is_named(b"Content-Type", line)
}

/// Returns whether a header has the disposition of its message.
pub(crate) fn is_disposition(line: &HeaderLine<'_>) -> bool
    ensures { result ≡ is_disposition (line_view line.now) }
{
    is_named(b"Content-Disposition", line)
}

/// Returns the value of a header from its subtype or disposition onwards.
pub(crate) fn value_of<'m>(line: &HeaderLine<'m>) -> Option<&'m [u8]>
    ensures { option_map (λ bytes. bytes.now) result ≡ value_of (line_view line.now) }
{
    let value = trimmed_value(line);
    if is_type(line) {
        return subtype_of(value);
    }
    if is_disposition(line) {
        Some(value)
    } else {
        None
    }
}

/// Returns the bytes of a type after its slash, if it has a main type that all programs know.
#[tactic(auto, using(crate::proofs::lemmas::Parameters::slash_within))]
fn subtype_of(value: &[u8]) -> Option<&[u8]>
    ensures { option_map (λ bytes. bytes.now) result
        ≡ after_main value.now (byte_place value.now slash) }
{
    let at = find_byte(value, b'/')?;
    if is_main_type(&value[..at]) {
        Some(&value[at + 1..])
    } else {
        None
    }
}

/// Returns whether a text is a main type that all programs know.
fn is_main_type(text: &[u8]) -> bool
    ensures { result ≡ is_main_type text.now }
{
    is_same(text, b"text")
        || is_same(text, b"image")
        || is_same(text, b"audio")
        || is_same(text, b"video")
        || is_same(text, b"application")
        || is_same(text, b"multipart")
        || is_same(text, b"message")
        || is_same(text, b"font")
        || is_same(text, b"model")
}

/// Returns whether a backslash is in quotes.
pub(crate) fn has_quoted_pair(bytes: &[u8]) -> bool
    ensures { result ≡ has_quoted_pair bytes.now }
{
    find_byte(bytes, b'\\').is_some()
}

/// Returns whether a value looks as if it had an encoded word.
pub(crate) fn has_word(bytes: &[u8]) -> bool
    ensures { result ≡ has_word bytes.now }
{
    find(bytes, b"=?").is_some()
}

/// Returns whether a byte after a state is such a step.
#[inline(always)]
pub(crate) fn is_step(step: Step, state: ValueState, byte: u8) -> bool
    ensures { result ≡ is_step step state byte }
{
    match step {
        Step::Special => is_special_step(state, byte),
        Step::Starred => is_star_step(state, byte),
    }
}

/// Returns whether a byte after a state is one in quotes that is special, or a space at their start
/// or end.
#[inline(always)]
fn is_special_step(state: ValueState, byte: u8) -> bool
    ensures { result ≡ is_special_step state byte }
{
    match state {
        ValueState::Opened => byte == b' ' || is_special(byte),
        ValueState::Space => byte == b'"' || is_special(byte),
        ValueState::Quoted | ValueState::Escaped => is_special(byte),
        _ => false,
    }
}

/// Returns whether a byte is a semicolon, a tab or one of a line end.
#[inline(always)]
fn is_special(byte: u8) -> bool
    ensures { result ≡ is_special byte }
{
    byte == b';' || byte == b'\t' || byte == b'\n' || byte == b'\r'
}

/// Returns whether a byte after a state is the asterisk of a name.
#[inline(always)]
fn is_star_step(state: ValueState, byte: u8) -> bool
    ensures { result ≡ is_star_step state byte }
{
    match state {
        ValueState::Attribute => byte == b'*',
        _ => false,
    }
}

/// Returns the state after one more byte.
#[inline(always)]
pub(crate) fn after_byte(state: ValueState, byte: u8) -> ValueState
    ensures { result ≡ after_byte state byte }
{
    match state {
        ValueState::Start if byte.is_ascii_alphanumeric() => ValueState::Token,
        ValueState::Token if is_restricted(byte) => ValueState::Token,
        ValueState::Text if is_attribute(byte) => ValueState::Text,
        ValueState::Extended if is_extended(byte) => ValueState::Extended,
        ValueState::Token | ValueState::Text | ValueState::Extended | ValueState::Closed => {
            after_value(byte)
        }
        ValueState::Semicolon | ValueState::Blank => after_semicolon(byte),
        ValueState::Return if byte == b'\n' => ValueState::Feed,
        ValueState::Fold if is_attribute(byte) => ValueState::Attribute,
        ValueState::Feed | ValueState::Fold if is_blank(byte) => ValueState::Fold,
        ValueState::Attribute => after_attribute(byte),
        ValueState::Star if byte == b'*' || byte.is_ascii_digit() => ValueState::Star,
        ValueState::Star if byte == b'=' => ValueState::StarEquals,
        ValueState::Equals if is_attribute(byte) => ValueState::Text,
        ValueState::StarEquals if is_extended(byte) => ValueState::Extended,
        ValueState::Equals | ValueState::StarEquals if byte == b'"' => ValueState::Opened,
        ValueState::Opened | ValueState::Quoted | ValueState::Space => in_quotes(byte),
        ValueState::Escaped if byte == b' ' => ValueState::Space,
        ValueState::Escaped if byte > b' ' && byte <= b'~' => ValueState::Quoted,
        _ => ValueState::Wrong,
    }
}

/// Returns the state after a value and a byte.
#[inline(always)]
fn after_value(byte: u8) -> ValueState
    ensures { result ≡ after_value byte }
{
    match byte {
        b';' => ValueState::Semicolon,
        _ => ValueState::Wrong,
    }
}

/// Returns the state after a semicolon, blanks and a byte.
#[inline(always)]
fn after_semicolon(byte: u8) -> ValueState
    ensures { result ≡ after_semicolon byte }
{
    if is_attribute(byte) {
        return ValueState::Attribute;
    }
    match byte {
        b' ' | b'\t' => ValueState::Blank,
        b'\n' => ValueState::Feed,
        b'\r' => ValueState::Return,
        _ => ValueState::Wrong,
    }
}

/// Returns the state after a part of a name and a byte.
#[inline(always)]
fn after_attribute(byte: u8) -> ValueState
    ensures { result ≡ after_byte Attribute byte }
{
    if is_attribute(byte) {
        return ValueState::Attribute;
    }
    match byte {
        b'*' => ValueState::Star,
        b'=' => ValueState::Equals,
        _ => ValueState::Wrong,
    }
}

/// Returns the state after a quotation mark, a part of a value and a byte.
#[inline(always)]
fn in_quotes(byte: u8) -> ValueState
    ensures { result ≡ in_quotes byte }
{
    match byte {
        b'"' => ValueState::Closed,
        b'\\' => ValueState::Escaped,
        b' ' => ValueState::Space,
        byte if is_control(byte) => ValueState::Wrong,
        _ => ValueState::Quoted,
    }
}

/// Returns whether a value may end in a state.
pub(crate) fn may_end(state: ValueState) -> bool
    ensures { result ≡ may_end state }
{
    matches!(
        state,
        ValueState::Token
            | ValueState::Semicolon
            | ValueState::Text
            | ValueState::Extended
            | ValueState::Closed
    )
}

/// Returns whether a byte is a character of a subtype or a disposition.
#[inline(always)]
pub(crate) fn is_restricted(byte: u8) -> bool
    ensures { result ≡ is_restricted byte }
{
    byte.is_ascii_alphanumeric()
        || matches!(
            byte,
            b'!' | b'#' | b'$' | b'&' | b'-' | b'^' | b'_' | b'.' | b'+'
        )
}

/// Returns whether a byte is a character of the name of a parameter.
#[inline(always)]
fn is_attribute(byte: u8) -> bool
    ensures { result ≡ is_attribute byte }
{
    is_restricted(byte) || matches!(byte, b'`' | b'{'..=b'~')
}

/// Returns whether a byte is a character of a value after a name with an asterisk.
#[inline(always)]
fn is_extended(byte: u8) -> bool
    ensures { result ≡ is_extended byte }
{
    is_attribute(byte) || matches!(byte, b'*' | b'\'' | b'%')
}
