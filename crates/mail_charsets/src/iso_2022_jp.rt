//! ISO-2022-JP, in which escape sequences select a mode (the WHATWG Encoding Standard, section
//! 12.2).
ghost use Rattle.std.specs.Prelude.{◌≡◌, ◌<◌, ◌≤◌, ◌++◌, length, take, drop, IsUtf8, IfOk, IfSome, if◌then◌else◌, [], ◌∷◌, string_bytes};
ghost use Rattle.mail_charsets.specs.Front.{characters_of, taken_of};
ghost use Rattle.mail_charsets.specs.Iso2022Jp.{ascii_or, escape, iso_2022_jp_text, jp_chars, jp_front, jp_pair, jp_step, jp_text_from, katakana_or, roman_or};

use crate::front::{
    BUFFER, Characters, Front, LONGEST, characters_at, fault, front_or, is_within, offset_char,
    push_utf8, put_characters,
};
use std::alloc::{AllocError, Global};

/// The kind of the bytes after an escape.
#[derive(Clone, Copy)]
enum Mode {
    /// ASCII.
    Ascii,
    /// ASCII, with a yen sign and an overline.
    Roman,
    /// Half-width katakana.
    Katakana,
    /// Characters of two bytes.
    Pairs,
}

/// The state of the decoder between two bytes.
#[derive(Clone, Copy)]
struct State {
    /// The mode of the bytes that follow.
    mode: Mode,
    /// Whether an escape comes right before.
    fresh: bool,
}

/// Returns the text of the bytes in ISO-2022-JP under an index of JIS X 0208 (the WHATWG Encoding
/// Standard, section 12.2).
pub(crate) fn decode_iso_2022_jp(
    alloc: Global,
    bytes: &[u8],
    index: &[u16],
) -> Result<String, AllocError>
    ensures { IfOk result (λ t. string_bytes t ≡ iso_2022_jp_text index.now bytes.now) }
{
    let mut text = String::with_capacity(alloc, bytes.len())?;
    let mut buffer = [0; BUFFER];
    let mut state = State {
        mode: Mode::Ascii,
        fresh: false,
    };
    let mut rest = bytes;
    'rest: while !rest.is_empty() {
        let written = encode_steps(&mut buffer, rest, index, state);
        push_utf8(&mut text, &buffer[..written.made])?;
        rest = &rest[written.taken..];
        state = written.state;
    }
    Ok(text)
}

/// What was read and written.
#[derive(Clone, Copy)]
struct Written {
    /// The number of bytes that were read.
    taken: usize,
    /// The number of bytes of text that were written.
    made: usize,
    /// The state after them.
    state: State,
}

/// Writes the text of as many bytes as fit into the buffer.
fn encode_steps(buffer: &mut [u8], bytes: &[u8], index: &[u16], state: State) -> Written
    requires capacity { 8 ≤ length buffer.old }
    requires some { 0 < length bytes.now }
    ensures written { jp_text_from index.now state bytes.now ≡ take result.made buffer.new
        ++ jp_text_from index.now result.state (drop result.taken bytes.now) }
    ensures utf8 { IsUtf8 (take result.made buffer.new) }
    ensures takes_some { 0 < result.taken }
    ensures bounds { result.taken ≤ length bytes.now }
    ensures fits { result.made ≤ length buffer.old }
{
    let mut taken = 0;
    let mut at = 0;
    let mut state = state;
    'steps: while taken < bytes.len() && LONGEST <= buffer.len() - at {
        let (front, next) = step(&bytes[taken..], index, state);
        at = put_characters(buffer, at, front.characters);
        taken += front.taken;
        state = next;
    }
    Written {
        taken,
        made: at,
        state,
    }
}

/// Returns the front of the bytes, and the state after it.
fn step(bytes: &[u8], index: &[u16], state: State) -> (Front, State)
    requires { 0 < length bytes.now }
    ensures read { (taken_of result.0, result.1) ≡ jp_step index.now state bytes.now }
    ensures takes_some { 0 < result.0.taken }
    ensures bounds { result.0.taken ≤ length bytes.now }
{
    match escape(bytes) {
        Some(mode) => {
            let front = Front {
                characters: escape_characters(state.fresh),
                taken: 3,
            };
            (front, State { mode, fresh: true })
        }
        None => {
            let front = front_in(bytes, index, state.mode);
            (
                front,
                State {
                    mode: state.mode,
                    fresh: false,
                },
            )
        }
    }
}

/// Returns the characters of an escape: U+FFFD if another comes right before it, and none
/// otherwise.
fn escape_characters(fresh: bool) -> Characters
    ensures { characters_of result ≡ (if fresh then 0xFFFD ∷ [] else []) }
{
    if fresh {
        Characters::One(char::REPLACEMENT_CHARACTER)
    } else {
        Characters::Nothing
    }
}

/// Returns the mode that an escape at the front selects, or `None` if there is no escape.
fn escape(bytes: &[u8]) -> Option<Mode>
    ensures mode { result ≡ escape bytes.now }
    ensures bounds { IfSome result (λ mode. 3 ≤ length bytes.now) }
{
    if bytes.len() < 3 || bytes[0] != 0x1B {
        return None;
    }
    match (bytes[1], bytes[2]) {
        (b'(', b'B') => Some(Mode::Ascii),
        (b'(', b'J') => Some(Mode::Roman),
        (b'(', b'I') => Some(Mode::Katakana),
        (b'$', b'@') | (b'$', b'B') => Some(Mode::Pairs),
        _ => None,
    }
}

/// Returns the front in a mode, if it is not an escape.
fn front_in(bytes: &[u8], index: &[u16], mode: Mode) -> Front
    requires { 0 < length bytes.now }
    ensures read { taken_of result ≡ jp_front index.now mode bytes.now }
    ensures takes_some { 0 < result.taken }
    ensures bounds { result.taken ≤ length bytes.now }
{
    match mode {
        Mode::Ascii => single(ascii(bytes[0])),
        Mode::Roman => single(roman(bytes[0])),
        Mode::Katakana => single(katakana(bytes[0])),
        Mode::Pairs => pair(bytes, index),
    }
}

/// Returns the front of one byte that is this character.
fn single(character: char) -> Front
    ensures read { taken_of result ≡ (character ∷ [], 1) }
    ensures taken { result.taken ≡ 1 }
{
    Front {
        characters: Characters::One(character),
        taken: 1,
    }
}

/// Returns the character of a byte in the ASCII mode.
fn ascii(byte: u8) -> char
    ensures { result ≡ ascii_or byte }
{
    if byte >= 0x80 || byte == 0x0E || byte == 0x0F || byte == 0x1B {
        return char::REPLACEMENT_CHARACTER;
    }
    byte as char
}

/// Returns the character of a byte in the Roman mode.
fn roman(byte: u8) -> char
    ensures { result ≡ roman_or byte }
{
    if byte == 0x5C {
        return '\u{A5}';
    }
    if byte == 0x7E {
        return '\u{203E}';
    }
    ascii(byte)
}

/// Returns the character of a byte in the katakana mode.
fn katakana(byte: u8) -> char
    ensures { result ≡ katakana_or byte }
{
    if is_within(byte, 0x21, 0x5F) {
        offset_char('\u{FF61}', byte - 0x21)
    } else {
        char::REPLACEMENT_CHARACTER
    }
}

/// Returns the front in the mode of pairs.
fn pair(bytes: &[u8], index: &[u16]) -> Front
    requires { 0 < length bytes.now }
    ensures read { taken_of result ≡ jp_pair index.now bytes.now }
    ensures takes_some { 0 < result.taken }
    ensures bounds { result.taken ≤ length bytes.now }
{
    if !is_within(bytes[0], 0x21, 0x7E) {
        return fault(1);
    }
    if bytes.len() < 2 {
        return fault(1);
    }
    if bytes[1] == 0x1B {
        return fault(1);
    }
    front_or(characters(index, bytes[0], bytes[1]), 2, 2)
}

/// Returns the characters of a row and a column.
fn characters(index: &[u16], row: u8, column: u8) -> Characters
    ensures { characters_of result ≡ jp_chars index.now row column }
{
    if !is_within(column, 0x21, 0x7E) {
        return Characters::Nothing;
    }
    let row = usize::from(row.saturating_sub(0x21));
    characters_at(index, row * 94 + usize::from(column - 0x21))
}
