//! Characters of charsets that all programs know, which these read differently.
ghost use Rattle.std.specs.Prelude.{◌≡◌, false, None, codes};
ghost use Rattle.std.specs.List.{list_any};
ghost use Rattle.std.specs.Str.{str_eq_ignore_ascii_case};
ghost use Rattle.mail_check.specs.Disputed.{first_after, has_disputed, has_disputed_after};
ghost use Rattle.mail_check.specs.Disputed.{is_disputed, is_first, is_in};
ghost use Rattle.mail_check.specs.Disputed.{is_in_block, table_of};

use crate::charsets::is_same_label;
use crate::scan::high_byte;

/// Pairs of bytes: the first byte is from one to another, and so is the second.
type Block = ((u8, u8), (u8, u8));

/// Two letters of KOI8-U, which most programs read as line drawings.
const KOI8_U_BYTES: [(u8, u8); 2] = [(0xAE, 0xAE), (0xBE, 0xBE)];

/// Points of windows-1255, which some programs lack or join with the letter before.
const WINDOWS_1255_BYTES: [(u8, u8); 1] = [(0xC4, 0xD2)];

/// The backslash, the tilde and half-width katakana of Shift_JIS.
const SHIFT_JIS_BYTES: [(u8, u8); 3] = [(0x5C, 0x5C), (0x7E, 0x7E), (0xA1, 0xDF)];

/// Signs of Shift_JIS, and the characters of NEC and IBM.
const SHIFT_JIS_PAIRS: [Block; 8] = [
    ((0x81, 0x81), (0x5C, 0x5C)),
    ((0x81, 0x81), (0x60, 0x61)),
    ((0x81, 0x81), (0x7C, 0x7C)),
    ((0x81, 0x81), (0x91, 0x92)),
    ((0x81, 0x81), (0xCA, 0xCA)),
    ((0x87, 0x87), (0x40, 0xFC)),
    ((0xED, 0xEE), (0x40, 0xFC)),
    ((0xF0, 0xFC), (0x40, 0xFC)),
];

/// The byte of EUC-JP before a character of JIS X 0212.
const EUC_JP_BYTES: [(u8, u8); 1] = [(0x8F, 0x8F)];

/// Half-width katakana and signs of EUC-JP, and the characters of NEC and IBM.
const EUC_JP_PAIRS: [Block; 8] = [
    ((0x8E, 0x8E), (0xA1, 0xDF)),
    ((0xA1, 0xA1), (0xBD, 0xBD)),
    ((0xA1, 0xA1), (0xC1, 0xC2)),
    ((0xA1, 0xA1), (0xDD, 0xDD)),
    ((0xA1, 0xA1), (0xF1, 0xF2)),
    ((0xA2, 0xA2), (0xCC, 0xCC)),
    ((0xAD, 0xAD), (0xA1, 0xFE)),
    ((0xF9, 0xFC), (0xA1, 0xFE)),
];

/// Signs of Big5, and the characters of Hong Kong and ETEN.
const BIG5_PAIRS: [Block; 16] = [
    ((0x81, 0xA0), (0x40, 0xFE)),
    ((0xA1, 0xA1), (0x45, 0x45)),
    ((0xA1, 0xA1), (0x4E, 0x4E)),
    ((0xA1, 0xA1), (0x5A, 0x5A)),
    ((0xA1, 0xA1), (0xC2, 0xC5)),
    ((0xA1, 0xA1), (0xE3, 0xE3)),
    ((0xA1, 0xA1), (0xF2, 0xF3)),
    ((0xA1, 0xA1), (0xFE, 0xFE)),
    ((0xA2, 0xA2), (0x40, 0x47)),
    ((0xA2, 0xA2), (0xCC, 0xCE)),
    ((0xA3, 0xA3), (0xC0, 0xFE)),
    ((0xC2, 0xC2), (0x55, 0x55)),
    ((0xC6, 0xC6), (0xA1, 0xFE)),
    ((0xC7, 0xC8), (0x40, 0xFE)),
    ((0xF9, 0xF9), (0xD6, 0xFE)),
    ((0xFA, 0xFE), (0x40, 0xFE)),
];

/// Signs of EUC-KR, and a letter that Python joins with those after it.
const EUC_KR_PAIRS: [Block; 2] = [((0xA2, 0xA2), (0xE6, 0xE7)), ((0xA4, 0xA4), (0xD4, 0xD4))];

/// The euro sign of GBK.
const GB_BYTES: [(u8, u8); 1] = [(0x80, 0x80)];

/// Areas of users in GBK, and what was added to it later.
const GB_PAIRS: [Block; 22] = [
    ((0xA1, 0xA7), (0x40, 0xA0)),
    ((0xA2, 0xA2), (0xAB, 0xB0)),
    ((0xA2, 0xA2), (0xE3, 0xE4)),
    ((0xA2, 0xA2), (0xEF, 0xF0)),
    ((0xA2, 0xA2), (0xFD, 0xFE)),
    ((0xA4, 0xA4), (0xF4, 0xFE)),
    ((0xA5, 0xA5), (0xF7, 0xFE)),
    ((0xA6, 0xA6), (0xB9, 0xC0)),
    ((0xA6, 0xA6), (0xD9, 0xFE)),
    ((0xA7, 0xA7), (0xC2, 0xD0)),
    ((0xA7, 0xA7), (0xF2, 0xFE)),
    ((0xA8, 0xA8), (0x92, 0xA0)),
    ((0xA8, 0xA8), (0xBC, 0xC4)),
    ((0xA8, 0xA8), (0xEA, 0xFE)),
    ((0xA9, 0xA9), (0x58, 0x5F)),
    ((0xA9, 0xA9), (0x89, 0x95)),
    ((0xA9, 0xA9), (0x97, 0xA3)),
    ((0xA9, 0xA9), (0xF0, 0xFE)),
    ((0xAA, 0xAF), (0xA1, 0xFE)),
    ((0xD7, 0xD7), (0xFA, 0xFE)),
    ((0xF8, 0xFD), (0xA1, 0xFE)),
    ((0xFE, 0xFE), (0x50, 0xFE)),
];

/// Halves of the characters of four bytes, which GBK lacks.
const GBK_PAIRS: [Block; 1] = [((0x81, 0xFE), (0x30, 0x39))];

/// First halves of the characters of four bytes that changed with the versions of GB 18030.
const GB18030_PAIRS: [Block; 2] = [((0x81, 0x82), (0x35, 0x35)), ((0x84, 0x84), (0x31, 0x31))];

/// What GBK has among the pairs of GB 2312, and two signs.
const GB_2312_PAIRS: [Block; 4] = [
    ((0xA1, 0xA1), (0xA4, 0xA4)),
    ((0xA1, 0xA1), (0xAA, 0xAA)),
    ((0xA2, 0xA2), (0xA1, 0xAA)),
    ((0xA8, 0xA8), (0xBB, 0xBB)),
];

/// Returns whether bytes have a character that programs read differently in the charset that a
/// label names.
pub(crate) fn has_disputed(label: &[u8], octets: &[u8]) -> bool
    ensures { result ≡ has_disputed label.now octets.now }
{
    if is_same_label(label, "shift_jis") {
        let (bytes, pairs) = (&SHIFT_JIS_BYTES, &SHIFT_JIS_PAIRS);
        return has_disputed_in(octets, (0xA0, 0xDF), bytes, pairs, &[]);
    }
    if high_byte(octets).is_none() {
        return false;
    }
    has_disputed_high(label, octets)
}

/// Returns whether bytes have such a character, if the charset is not Shift_JIS: they are not ASCII
/// then.
fn has_disputed_high(label: &[u8], octets: &[u8]) -> bool
    requires { str_eq_ignore_ascii_case label.now (codes "shift_jis") ≡ false }
    ensures { result ≡ has_disputed label.now octets.now }
{
    if is_same_label(label, "koi8-u") {
        return has_disputed_in(octets, (0x80, 0xFF), &KOI8_U_BYTES, &[], &[]);
    }
    if is_same_label(label, "windows-1255") {
        return has_disputed_in(octets, (0x80, 0xFF), &WINDOWS_1255_BYTES, &[], &[]);
    }
    if is_same_label(label, "euc-jp") {
        return has_disputed_in(octets, (0x8F, 0x8F), &EUC_JP_BYTES, &EUC_JP_PAIRS, &[]);
    }
    if is_same_label(label, "big5") {
        return has_disputed_in(octets, (0x80, 0x80), &[], &BIG5_PAIRS, &[]);
    }
    if is_same_label(label, "euc-kr") || is_same_label(label, "ks_c_5601-1987") {
        return has_disputed_in(octets, (0x80, 0x80), &[], &EUC_KR_PAIRS, &[]);
    }
    if is_same_label(label, "gbk") {
        return has_disputed_in(octets, (0x80, 0x80), &GB_BYTES, &GB_PAIRS, &GBK_PAIRS);
    }
    if is_same_label(label, "gb18030") {
        return has_disputed_in(octets, (0x80, 0x80), &GB_BYTES, &GB_PAIRS, &GB18030_PAIRS);
    }
    if is_same_label(label, "gb2312") {
        return has_disputed_in(octets, (0x80, 0x80), &GB_BYTES, &GB_PAIRS, &GB_2312_PAIRS);
    }
    false
}

/// Returns whether bytes have a disputed character, or end in half a pair, under the parts of a
/// table.
fn has_disputed_in(
    octets: &[u8],
    singles: (u8, u8),
    bytes: &[(u8, u8)],
    pairs: &[Block],
    more_pairs: &[Block],
) -> bool
    ensures { result
        ≡ has_disputed_after (table_of singles bytes.now pairs.now more_pairs.now) None octets.now }
{
    let mut before = None;
    for byte in octets {
        if is_disputed(before, *byte, singles, bytes, pairs, more_pairs) {
            return true;
        }
        before = first_after(before, *byte, singles);
    }
    before.is_some()
}

/// Returns whether a byte is the last one of a disputed character, after the first byte of a pair
/// or none.
fn is_disputed(
    before: Option<u8>,
    byte: u8,
    singles: (u8, u8),
    bytes: &[(u8, u8)],
    pairs: &[Block],
    more_pairs: &[Block],
) -> bool
    ensures { result
        ≡ is_disputed (table_of singles bytes.now pairs.now more_pairs.now) before byte }
{
    match before {
        None => !is_first(byte, singles) && is_in_one(bytes, byte),
        Some(first) => is_in_blocks(pairs, first, byte) || is_in_blocks(more_pairs, first, byte),
    }
}

/// Returns the first byte of a pair that one more byte leaves.
fn first_after(before: Option<u8>, byte: u8, singles: (u8, u8)) -> Option<u8>
    ensures { result ≡ first_after singles before byte }
{
    if before.is_none() && is_first(byte, singles) {
        Some(byte)
    } else {
        None
    }
}

/// Returns whether a byte begins a pair.
fn is_first(byte: u8, singles: (u8, u8)) -> bool
    ensures { result ≡ is_first singles byte }
{
    byte >= 128 && !is_in(byte, singles)
}

/// Returns whether a byte is in one of some ranges.
fn is_in_one(ranges: &[(u8, u8)], byte: u8) -> bool
    ensures { result ≡ list_any (is_in byte) ranges.now }
{
    ranges.iter().any(|range| is_in(byte, *range))
}

/// Returns whether a pair is in one of some blocks.
fn is_in_blocks(blocks: &[Block], first: u8, second: u8) -> bool
    ensures { result ≡ list_any (is_in_block first second) blocks.now }
{
    blocks
        .iter()
        .any(|block| is_in(first, block.0) && is_in(second, block.1))
}

/// Returns whether a byte is in a range.
fn is_in(byte: u8, range: (u8, u8)) -> bool
    ensures { result ≡ is_in byte range }
{
    range.0 <= byte && byte <= range.1
}
