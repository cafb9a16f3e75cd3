//! Charsets in which each byte is one character.
ghost use Rattle.std.specs.Prelude.{◌≡◌, ◌*◌, ◌≤◌, ◌↔◌, ◌++◌, length, take, map, IfOk, OnOk, IsOk, IsAscii, IsUtf8, encode_utf8_all, string_bytes};
ghost use Rattle.std.specs.Cow.{cow_str_bytes, IsBorrowedStr};
ghost use Rattle.mail_codec.specs.Charset.{single_byte_char, windows_1252_char};

use super::decoder::{ascii_blocks_length, put_char};
use crate::vectors::LANES;
use crate::vectors::masks::{first_lane, lanes_from};
use std::alloc::{AllocError, Global};
use std::borrow::CowStr;
use std::simd::prelude::*;
use std::str;

/// The characters of the bytes from 0x80 to 0xFF, in order.
pub(crate) type HighHalf = [char; 128];

/// The largest number of bytes that are mapped together if some are not ASCII.
const MIXED: usize = 256;

/// The high characters of windows-1252 (the WHATWG Encoding Standard, section 9.1).
static WINDOWS_1252: HighHalf = [
    '\u{20AC}', '\u{0081}', '\u{201A}', '\u{0192}', '\u{201E}', '\u{2026}', '\u{2020}', '\u{2021}',
    '\u{02C6}', '\u{2030}', '\u{0160}', '\u{2039}', '\u{0152}', '\u{008D}', '\u{017D}', '\u{008F}',
    '\u{0090}', '\u{2018}', '\u{2019}', '\u{201C}', '\u{201D}', '\u{2022}', '\u{2013}', '\u{2014}',
    '\u{02DC}', '\u{2122}', '\u{0161}', '\u{203A}', '\u{0153}', '\u{009D}', '\u{017E}', '\u{0178}',
    '\u{00A0}', '\u{00A1}', '\u{00A2}', '\u{00A3}', '\u{00A4}', '\u{00A5}', '\u{00A6}', '\u{00A7}',
    '\u{00A8}', '\u{00A9}', '\u{00AA}', '\u{00AB}', '\u{00AC}', '\u{00AD}', '\u{00AE}', '\u{00AF}',
    '\u{00B0}', '\u{00B1}', '\u{00B2}', '\u{00B3}', '\u{00B4}', '\u{00B5}', '\u{00B6}', '\u{00B7}',
    '\u{00B8}', '\u{00B9}', '\u{00BA}', '\u{00BB}', '\u{00BC}', '\u{00BD}', '\u{00BE}', '\u{00BF}',
    '\u{00C0}', '\u{00C1}', '\u{00C2}', '\u{00C3}', '\u{00C4}', '\u{00C5}', '\u{00C6}', '\u{00C7}',
    '\u{00C8}', '\u{00C9}', '\u{00CA}', '\u{00CB}', '\u{00CC}', '\u{00CD}', '\u{00CE}', '\u{00CF}',
    '\u{00D0}', '\u{00D1}', '\u{00D2}', '\u{00D3}', '\u{00D4}', '\u{00D5}', '\u{00D6}', '\u{00D7}',
    '\u{00D8}', '\u{00D9}', '\u{00DA}', '\u{00DB}', '\u{00DC}', '\u{00DD}', '\u{00DE}', '\u{00DF}',
    '\u{00E0}', '\u{00E1}', '\u{00E2}', '\u{00E3}', '\u{00E4}', '\u{00E5}', '\u{00E6}', '\u{00E7}',
    '\u{00E8}', '\u{00E9}', '\u{00EA}', '\u{00EB}', '\u{00EC}', '\u{00ED}', '\u{00EE}', '\u{00EF}',
    '\u{00F0}', '\u{00F1}', '\u{00F2}', '\u{00F3}', '\u{00F4}', '\u{00F5}', '\u{00F6}', '\u{00F7}',
    '\u{00F8}', '\u{00F9}', '\u{00FA}', '\u{00FB}', '\u{00FC}', '\u{00FD}', '\u{00FE}', '\u{00FF}',
];

/// The high characters of Latin-1.
pub(crate) static LATIN_1: HighHalf = [
    '\u{0080}', '\u{0081}', '\u{0082}', '\u{0083}', '\u{0084}', '\u{0085}', '\u{0086}', '\u{0087}',
    '\u{0088}', '\u{0089}', '\u{008A}', '\u{008B}', '\u{008C}', '\u{008D}', '\u{008E}', '\u{008F}',
    '\u{0090}', '\u{0091}', '\u{0092}', '\u{0093}', '\u{0094}', '\u{0095}', '\u{0096}', '\u{0097}',
    '\u{0098}', '\u{0099}', '\u{009A}', '\u{009B}', '\u{009C}', '\u{009D}', '\u{009E}', '\u{009F}',
    '\u{00A0}', '\u{00A1}', '\u{00A2}', '\u{00A3}', '\u{00A4}', '\u{00A5}', '\u{00A6}', '\u{00A7}',
    '\u{00A8}', '\u{00A9}', '\u{00AA}', '\u{00AB}', '\u{00AC}', '\u{00AD}', '\u{00AE}', '\u{00AF}',
    '\u{00B0}', '\u{00B1}', '\u{00B2}', '\u{00B3}', '\u{00B4}', '\u{00B5}', '\u{00B6}', '\u{00B7}',
    '\u{00B8}', '\u{00B9}', '\u{00BA}', '\u{00BB}', '\u{00BC}', '\u{00BD}', '\u{00BE}', '\u{00BF}',
    '\u{00C0}', '\u{00C1}', '\u{00C2}', '\u{00C3}', '\u{00C4}', '\u{00C5}', '\u{00C6}', '\u{00C7}',
    '\u{00C8}', '\u{00C9}', '\u{00CA}', '\u{00CB}', '\u{00CC}', '\u{00CD}', '\u{00CE}', '\u{00CF}',
    '\u{00D0}', '\u{00D1}', '\u{00D2}', '\u{00D3}', '\u{00D4}', '\u{00D5}', '\u{00D6}', '\u{00D7}',
    '\u{00D8}', '\u{00D9}', '\u{00DA}', '\u{00DB}', '\u{00DC}', '\u{00DD}', '\u{00DE}', '\u{00DF}',
    '\u{00E0}', '\u{00E1}', '\u{00E2}', '\u{00E3}', '\u{00E4}', '\u{00E5}', '\u{00E6}', '\u{00E7}',
    '\u{00E8}', '\u{00E9}', '\u{00EA}', '\u{00EB}', '\u{00EC}', '\u{00ED}', '\u{00EE}', '\u{00EF}',
    '\u{00F0}', '\u{00F1}', '\u{00F2}', '\u{00F3}', '\u{00F4}', '\u{00F5}', '\u{00F6}', '\u{00F7}',
    '\u{00F8}', '\u{00F9}', '\u{00FA}', '\u{00FB}', '\u{00FC}', '\u{00FD}', '\u{00FE}', '\u{00FF}',
];

/// The high characters of ASCII: U+FFFD for each byte, since ASCII has none.
pub(crate) static ASCII: HighHalf = ['\u{FFFD}'; 128];

/// Returns the text of the bytes in windows-1252.
#[tactic(auto, using(crate::proofs::lemmas::CharsetSingleByte::spelled_windows_1252))]
pub(crate) fn decode_windows_1252(alloc: Global, bytes: &[u8]) -> Result<String, AllocError>
    ensures { IfOk result
        (λ t. string_bytes t ≡ encode_utf8_all (map windows_1252_char bytes.now)) }
{
    decode(alloc, bytes, &WINDOWS_1252)?.into_owned(alloc)
}

/// Returns the text of the bytes, in which a byte below 0x80 is its own character. The text borrows
/// the bytes if and only if all are ASCII.
pub(crate) fn decode<'a>(
    alloc: Global,
    bytes: &'a [u8],
    high: &HighHalf,
) -> Result<CowStr<'a>, AllocError>
    ensures read { IfOk result
        (λ t. cow_str_bytes t ≡ encode_utf8_all (map (single_byte_char high.now) bytes.now)) }
    ensures borrowed { IfOk result (λ t. IsBorrowedStr t ↔ IsAscii bytes.now) }
    ensures no_alloc { IsAscii bytes.now → IsOk result }
{
    if bytes.is_ascii() {
        // SAFETY: ASCII is UTF-8.
        return Ok(CowStr::Borrowed(unsafe { str::from_utf8_unchecked(bytes) }));
    }
    let mut text = String::with_capacity(alloc, bytes.len())?;
    push_text(&mut text, bytes, high)?;
    Ok(CowStr::Owned(text))
}

/// Appends the text of the bytes.
fn push_text(text: &mut String, bytes: &[u8], high: &HighHalf) -> Result<(), AllocError>
    ensures { OnOk result (string_bytes text.new
        ≡ string_bytes text.old ++ encode_utf8_all (map (single_byte_char high.now) bytes.now)) }
{
    let mut buffer = [0; 4 * MIXED];
    let mut rest = bytes;
    'rest: while !rest.is_empty() {
        let run = ascii_blocks_length(rest);
        if run > 0 {
            // SAFETY: the run is ASCII, and ASCII is UTF-8.
            text.push_str(unsafe { str::from_utf8_unchecked(&rest[..run]) })?;
            rest = &rest[run..];
        } else {
            let (block, others) = rest.split_at(rest.len().min(MIXED));
            let length = encode_block(&mut buffer, block, high);
            // SAFETY: `encode_block` writes whole characters.
            text.push_str(unsafe { str::from_utf8_unchecked(&buffer[..length]) })?;
            rest = others;
        }
    }
    Ok(())
}

/// Writes the text of the bytes to the front of the buffer, and returns its length.
fn encode_block(buffer: &mut [u8], bytes: &[u8], high: &HighHalf) -> usize
    requires capacity { 4 * length bytes.now ≤ length buffer.old }
    ensures written { take result buffer.new
        ≡ encode_utf8_all (map (single_byte_char high.now) bytes.now) }
    ensures utf8 { IsUtf8 (take result buffer.new) }
    ensures bounds { result ≤ length buffer.old }
{
    let mut at = 0;
    let mut from = 0;
    'characters: while from < bytes.len() {
        let run = put_ascii(&mut buffer[at..], &bytes[from..]);
        at += run;
        from += run;
        if from == bytes.len() {
            return at;
        }
        at = put_char(buffer, at, character(bytes[from], high));
        from += 1;
    }
    at
}

/// Writes the leading ASCII bytes, and returns how many: up to the first other byte, or up to the
/// last whole vector. A vector is written whole before it is tested.
#[inline(always)]
fn put_ascii(output: &mut [u8], bytes: &[u8]) -> usize
    requires capacity { length bytes.now ≤ length output.old }
    ensures bounds { result ≤ length bytes.now }
    ensures ascii { IsAscii (take result bytes.now) }
    ensures written { take result output.new ≡ take result bytes.now }
{
    let mut at = 0;
    'vectors: while bytes.len() - at >= LANES {
        let vector = u8x16::from_slice(&bytes[at..]);
        vector.copy_to_slice(&mut output[at..]);
        let lane = first_lane(lanes_from(vector, 0x80));
        if lane != LANES {
            return at + lane;
        }
        at += LANES;
    }
    at
}

/// Returns the character of a byte.
fn character(byte: u8, high: &HighHalf) -> char
    ensures { result ≡ single_byte_char high.now byte }
{
    if byte < 0x80 {
        byte as char
    } else {
        high[byte as usize - 0x80]
    }
}
