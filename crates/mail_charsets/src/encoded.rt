//! Decoding of the encodings in which ASCII bytes are themselves, one character at a time.
ghost use Rattle.std.specs.Prelude.{◌≡◌, ℕ, ◌<◌, ◌≤◌, ◌++◌, List, Option, length, take, drop, option_map, IsUtf8, IfOk, IfSome, string_bytes};
ghost use Rattle.mail_codec.specs.Front.{Taken, text_by};
ghost use Rattle.mail_charsets.specs.Front.{characters_of, front_by, taken_of};

use crate::front::{
    BUFFER, Characters, Front, LONGEST, fault, faulty, front_or, push_utf8, put_characters,
};
use mail_codec::charset::decoder::ascii_blocks_length;
use std::alloc::{AllocError, Global};

/// An encoding in which ASCII bytes are themselves.
pub(crate) trait Encoded {
    ghost single: { Self → ℕ → Option ℕ };

    ghost pairs: { Self → ℕ → ℕ → List ℕ };

    ghost long: { Self → List ℕ → Option Taken };

    /// Returns the character of a single byte, or `None` for a lead byte.
    fn single(&self, byte: u8) -> Option<char>
        requires { 0x80 ≤ byte }
        ensures { result ≡ single self.now byte };

    /// Returns the characters of a lead byte and the byte after it.
    fn pair(&self, lead: u8, trail: u8) -> Characters
        ensures { characters_of result ≡ pairs self.now lead trail };

    /// Returns the sequence of more than two bytes at the front, or `None` if the bytes do not
    /// begin one.
    fn long(&self, bytes: &[u8]) -> Option<Front>
        requires { 2 ≤ length bytes.now }
        ensures read { option_map taken_of result ≡ long self.now bytes.now }
        ensures takes_some { IfSome result (λ front. 0 < front.taken) }
        ensures bounds { IfSome result (λ front. front.taken ≤ length bytes.now) };
}

/// Returns the text of the bytes.
pub(crate) fn decode<E: Encoded>(
    alloc: Global,
    bytes: &[u8],
    encoding: &E,
) -> Result<String, AllocError>
    ensures { IfOk result (λ t. string_bytes t ≡ text_by
        (front_by (E.long encoding.now) (E.single encoding.now) (E.pairs encoding.now)) bytes.now) }
{
    let mut text = String::with_capacity(alloc, bytes.len())?;
    let mut buffer = [0; BUFFER];
    let mut rest = bytes;
    'rest: while !rest.is_empty() {
        let run = ascii_blocks_length(rest);
        if run > 0 {
            push_utf8(&mut text, &rest[..run])?;
            rest = &rest[run..];
        } else {
            let (taken, length) = encode_fronts(&mut buffer, rest, encoding);
            push_utf8(&mut text, &buffer[..length])?;
            rest = &rest[taken..];
        }
    }
    Ok(text)
}

/// Writes the text of as many fronts as fit into the buffer, and returns how many bytes were read
/// and written.
fn encode_fronts<E: Encoded>(buffer: &mut [u8], bytes: &[u8], encoding: &E) -> (usize, usize)
    requires capacity { 8 ≤ length buffer.old }
    requires some { 0 < length bytes.now }
    ensures written { text_by
        (front_by (E.long encoding.now) (E.single encoding.now) (E.pairs encoding.now)) bytes.now
        ≡ take result.1 buffer.new ++ text_by
        (front_by (E.long encoding.now) (E.single encoding.now) (E.pairs encoding.now))
        (drop result.0 bytes.now) }
    ensures utf8 { IsUtf8 (take result.1 buffer.new) }
    ensures takes_some { 0 < result.0 }
    ensures bounds { result.0 ≤ length bytes.now }
    ensures fits { result.1 ≤ length buffer.old }
{
    let mut taken = 0;
    let mut at = 0;
    'fronts: while taken < bytes.len() && LONGEST <= buffer.len() - at {
        let front = front_of(&bytes[taken..], encoding);
        at = put_characters(buffer, at, front.characters);
        taken += front.taken;
    }
    (taken, at)
}

/// Returns the front of the bytes.
fn front_of<E: Encoded>(bytes: &[u8], encoding: &E) -> Front
    requires { 0 < length bytes.now }
    ensures read { taken_of result ≡
        front_by (E.long encoding.now) (E.single encoding.now) (E.pairs encoding.now) bytes.now }
    ensures takes_some { 0 < result.taken }
    ensures bounds { result.taken ≤ length bytes.now }
{
    let byte = bytes[0];
    if byte < 0x80 {
        return Front {
            characters: Characters::One(byte as char),
            taken: 1,
        };
    }
    if let Some(character) = encoding.single(byte) {
        return Front {
            characters: Characters::One(character),
            taken: 1,
        };
    }
    if bytes.len() < 2 {
        return fault(1);
    }
    if let Some(long) = encoding.long(bytes) {
        return long;
    }
    front_or(encoding.pair(byte, bytes[1]), 2, faulty(bytes[1], 2))
}
