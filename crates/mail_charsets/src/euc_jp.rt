//! EUC-JP (the WHATWG Encoding Standard, section 12.1).
ghost use Rattle.std.specs.Prelude.{◌≡◌, true, ◌<◌, ◌≤◌, length, slice_index, if◌then◌else◌, nat_lt, IfOk, string_bytes};
ghost use Rattle.mail_charsets.specs.Front.{characters_of, fault, faulty, taken_of, whole_or};
ghost use Rattle.mail_charsets.specs.EucJp.{begins_three, euc_jp_chars, euc_jp_is_lead, euc_jp_long, euc_jp_pair, euc_jp_single, euc_jp_text, is_cell, is_katakana};

use crate::encoded::{Encoded, decode};
use crate::front::{
    Characters, Front, characters_at, fault, faulty, front_or, is_within, offset_char,
};
use std::alloc::{AllocError, Global};

/// The encoding under the indexes of JIS X 0208 and JIS X 0212.
#[derive(Clone, Copy)]
struct EucJp<'t> {
    index: &'t [u16],
    second: &'t [u16],
}

impl<'t> Encoded for EucJp<'t> {
    ghost single = { λ encoding. euc_jp_single };

    ghost pairs = { λ encoding. euc_jp_pair encoding.index.now };

    ghost long = { λ encoding. euc_jp_long encoding.second.now };

    fn single(&self, byte: u8) -> Option<char> {
        if is_lead(byte) {
            return None;
        }
        Some(char::REPLACEMENT_CHARACTER)
    }

    fn pair(&self, lead: u8, trail: u8) -> Characters {
        if is_katakana(lead, trail) {
            return Characters::One(offset_char('\u{FF61}', trail - 0xA1));
        }
        characters(self.index, lead, trail)
    }

    fn long(&self, bytes: &[u8]) -> Option<Front> {
        if begins_three(bytes) {
            return Some(three(bytes, self.second));
        }
        None
    }
}

/// Returns whether the byte is a lead byte.
fn is_lead(byte: u8) -> bool
    ensures { result ≡ euc_jp_is_lead byte }
{
    is_within(byte, 0x8E, 0x8F) || is_within(byte, 0xA1, 0xFE)
}

/// Returns whether a lead byte and the byte after it are half-width katakana.
fn is_katakana(lead: u8, trail: u8) -> bool
    ensures value { result ≡ is_katakana lead trail }
    ensures bounds { result ≡ true → 0xA1 ≤ trail }
{
    lead == 0x8E && is_within(trail, 0xA1, 0xDF)
}

/// Returns whether the bytes begin with 8F and a row.
fn begins_three(bytes: &[u8]) -> bool
    requires { 2 ≤ length bytes.now }
    ensures { result ≡ begins_three bytes.now }
{
    bytes[0] == 0x8F && is_within(bytes[1], 0xA1, 0xFE)
}

/// Returns whether the bytes are a row and a column.
fn is_cell(row: u8, column: u8) -> bool
    ensures value { result ≡ is_cell row column }
    ensures row_bound { result ≡ true → 0xA1 ≤ row }
    ensures column_bound { result ≡ true → 0xA1 ≤ column }
{
    is_within(row, 0xA1, 0xFE) && is_within(column, 0xA1, 0xFE)
}

/// Returns the characters of a row and a column in an index.
fn characters(index: &[u16], row: u8, column: u8) -> Characters
    ensures { characters_of result ≡ euc_jp_chars index.now row column }
{
    if is_cell(row, column) {
        return characters_at(
            index,
            usize::from(row - 0xA1) * 94 + usize::from(column - 0xA1),
        );
    }
    Characters::Nothing
}

/// Returns the front of bytes that begin with 8F and a row.
fn three(bytes: &[u8], second: &[u16]) -> Front
    requires { 2 ≤ length bytes.now }
    ensures read { taken_of result ≡ (if nat_lt (length bytes.now) 3 then fault 2 else
        whole_or (euc_jp_chars second.now (slice_index bytes.now 1) (slice_index bytes.now 2)) 3
        (faulty (slice_index bytes.now 2) 3)) }
    ensures takes_some { 0 < result.taken }
    ensures bounds { result.taken ≤ length bytes.now }
{
    if bytes.len() < 3 {
        return fault(2);
    }
    front_or(
        characters(second, bytes[1], bytes[2]),
        3,
        faulty(bytes[2], 3),
    )
}

/// Returns the text of the bytes in EUC-JP under the indexes of JIS X 0208 and JIS X 0212 (the
/// WHATWG Encoding Standard, section 12.1).
pub(crate) fn decode_euc_jp(
    alloc: Global,
    bytes: &[u8],
    index: &[u16],
    second: &[u16],
) -> Result<String, AllocError>
    ensures { IfOk result (λ t. string_bytes t ≡ euc_jp_text index.now second.now bytes.now) }
{
    decode(alloc, bytes, &EucJp { index, second })
}
