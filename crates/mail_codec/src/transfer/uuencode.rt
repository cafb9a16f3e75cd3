//! Uuencoded files, over bytes (POSIX.1, `uuencode`).
ghost use Rattle.std.specs.Prelude.{◌≡◌, ◌+◌, ◌-◌, ◌<◌, ◌≤◌, ◌++◌, ◌==◌, ◌&&◌, nat_lt, true, length, IfSome, if◌then◌else◌, drop, take, slice_index, OnOk, IfOk, option_map};
ghost use Rattle.std.specs.Char.{is_ascii_whitespace};
ghost use Rattle.std.specs.List.{list_all, prefix_len, suffix_len};
ghost use Rattle.mail_codec.specs.Base64.{group_number};
ghost use Rattle.mail_codec.specs.Places.{begins, place_from};
ghost use Rattle.mail_codec.specs.Uuencode.{after_line, begin_from, begins_file, bytes_count, bytes_of, data_bytes, data_length, ends_file, file_at, file_of, first_bytes, first_file, is_data, is_letter, is_lf, is_octal_digit, letter_value, line_at, line_bytes, lines_of, mode_end, name_end, name_start, needed, value_at};
ghost use Rattle.mail_codec.specs.UuencodeViews.{file_view};

use crate::bytescan::find_byte;
use std::alloc::{AllocError, Global};
use std::ops::Range;

/// A uuencoded file in a text, as `find_uuencode` returns it. The ranges are in bytes, counted from
/// the start of the text.
#[derive(Debug, PartialEq, Drop)]
pub struct Uuencoded {
    /// The range of its name.
    pub name: Range<usize>,
    /// The range of its lines of data, which `decode_uuencode` reads.
    pub lines: Range<usize>,
    /// The range of the whole block, from `begin` to the line `end`, if that follows the data.
    pub block: Range<usize>,
    /// Whether a line `end` follows the data. If none does, the file is damaged or cut off.
    pub is_ended: bool,
}

/// The bytes of uuencoded lines, as `decode_uuencode` returns them.
#[derive(Debug, Drop)]
pub struct Uudecoded {
    /// The bytes of the lines before the first that is no line of data.
    pub bytes: Vec<u8>,
    /// The offset of that line, or the length of all lines.
    pub read: usize,
}

/// Returns the bytes that uuencoded lines encode, up to the first that is no line of data, and the
/// offset of that one.
///
/// The lines are those between `begin` and `end`. The first letter of each is the number of its
/// bytes, of which four letters encode three. Letters that are missing at the end of a line were
/// blanks, and what follows those needed is ignored. So a line gives at most 63 bytes, and one of two
/// bytes can: `uudecoded_exceeds` says whether the result would be too long. Allocates the bytes.
///
/// # Errors
///
/// `AllocError` if it runs out of memory.
///
/// # Examples
///
/// ```rust
/// use mail_codec::transfer::decode_uuencode;
///
/// let decoded = decode_uuencode(alloc, b"#0V%T\n`\nend\n")?;
/// assert_eq!(rt; decoded.bytes.as_slice(), b"Cat".as_slice());
/// assert_eq!(rt; decoded.read, 8);
/// ```
pub fn decode_uuencode(alloc: Global, lines: &[u8]) -> Result<Uudecoded, AllocError>
    ensures bytes { IfOk result (λ decoded. decoded.bytes.items ≡ data_bytes lines.now) }
    ensures read { IfOk result (λ decoded. decoded.read ≡ data_length lines.now) }
{
    let mut bytes = Vec::with_capacity(alloc, lines.len() / 4 * 3)?;
    let mut at = 0;
    'lines: while at < lines.len() {
        let end = line_end(lines, at);
        let line = &lines[at..end];
        if !is_data(line) {
            return Ok(Uudecoded { bytes, read: at });
        }
        push_line(&mut bytes, line)?;
        let next = (end + 1).min(lines.len());
        at = next;
    }
    Ok(Uudecoded { bytes, read: at })
}

/// Returns whether uuencoded lines encode more bytes than a limit.
///
/// The bytes are those that `decode_uuencode` returns. Nothing is decoded: only the first letter of
/// each line counts. Does not allocate.
///
/// # Examples
///
/// ```rust
/// use mail_codec::transfer::uudecoded_exceeds;
///
/// assert!(rt; !uudecoded_exceeds(b"#0V%T\n", 3));
/// assert!(rt; uudecoded_exceeds(b"_\n", 2));
/// ```
pub fn uudecoded_exceeds(lines: &[u8], limit: usize) -> bool
    ensures { result ≡ nat_lt limit (length (data_bytes lines.now)) }
{
    let mut left = limit;
    let mut at = 0;
    'lines: while at < lines.len() {
        let end = line_end(lines, at);
        let line = &lines[at..end];
        if !is_data(line) {
            return false;
        }
        let count = value_at(line, 0) as usize;
        if count > left {
            return true;
        }
        left -= count;
        let next = (end + 1).min(lines.len());
        at = next;
    }
    false
}

/// Appends the bytes that a line encodes.
fn push_line(bytes: &mut Vec<u8>, line: &[u8]) -> Result<(), AllocError>
    ensures { OnOk result (bytes.new.items ≡ bytes.old.items ++ line_bytes line.now) }
{
    let count = value_at(line, 0) as usize;
    push_bytes(bytes, after(line, 1), count)?;
    Ok(())
}

/// Appends this many bytes of letters.
fn push_bytes(bytes: &mut Vec<u8>, letters: &[u8], count: usize) -> Result<(), AllocError>
    requires few { count < 64 }
    ensures { OnOk result (bytes.new.items ≡ bytes.old.items ++ bytes_of count letters.now) }
{
    let mut left = count;
    let mut rest = letters;
    'groups: while left > 0 {
        let three = first_bytes(rest);
        let len = left.min(3);
        bytes.extend_from_slice(&three[..len])?;
        left -= len;
        let next = after(rest, 4);
        rest = next;
    }
    Ok(())
}

/// Returns the three bytes of the first four letters.
#[tactic(auto, unfolding(crate::specs::Uuencode::first_bytes))]
fn first_bytes(letters: &[u8]) -> [u8; 3]
    ensures { result ≡ first_bytes letters.now }
{
    let number = first_number(letters);
    [
        (number / 0x1_0000) as u8,
        (number / 0x100 % 0x100) as u8,
        (number % 0x100) as u8,
    ]
}

/// Returns the 24 bits of the first four letters.
fn first_number(letters: &[u8]) -> u32
    ensures value { result ≡ group_number (value_at letters.now 0) (value_at letters.now 1)
        (value_at letters.now 2) (value_at letters.now 3) }
    ensures bounds { result < 0x100_0000 }
{
    let first = value_at(letters, 0) * 0x4_0000;
    let second = value_at(letters, 1) * 0x1000;
    let third = value_at(letters, 2) * 0x40;
    first + second + third + value_at(letters, 3)
}

/// Returns the value of the letter at an offset, and 0 past the end.
fn value_at(letters: &[u8], offset: usize) -> u32
    ensures value { result ≡ value_at letters.now offset }
    ensures bounds { result < 64 }
{
    if offset < letters.len() {
        u32::from(letter_value(letters[offset]))
    } else {
        0
    }
}

/// Returns the value of a letter, and 0 for any other byte.
fn letter_value(byte: u8) -> u8
    ensures value { result ≡ letter_value byte }
    ensures bounds { result < 64 }
{
    if byte < b' ' || byte > b'`' {
        return 0;
    }
    (byte - b' ') % 64
}

/// Returns whether a byte is a letter or a CR.
fn is_letter(byte: u8) -> bool
    ensures { result ≡ is_letter byte }
{
    (byte >= b' ' && byte <= b'`') || byte == b'\r'
}

/// Returns whether a line is one of data.
fn is_data(line: &[u8]) -> bool
    ensures { result ≡ is_data line.now }
{
    are_letters(front(line, needed(line)))
}

/// Returns whether all bytes are letters.
fn are_letters(bytes: &[u8]) -> bool
    ensures { result ≡ list_all is_letter bytes.now }
{
    bytes.iter().all(|byte| is_letter(*byte))
}

/// Returns this many bytes at the front, or all bytes if there are fewer.
fn front(bytes: &[u8], len: usize) -> &[u8]
    ensures { result.now ≡ take len bytes.now }
{
    &bytes[..len.min(bytes.len())]
}

/// Returns the bytes after this many, or none if there are fewer.
fn after(bytes: &[u8], len: usize) -> &[u8]
    ensures { result.now ≡ drop len bytes.now }
{
    &bytes[len.min(bytes.len())..]
}

/// Returns how many bytes of a line its own bytes need.
fn needed(line: &[u8]) -> usize
    ensures { result ≡ needed line.now }
{
    1 + (value_at(line, 0) as usize + 2) / 3 * 4
}

/// Returns the offset of the first LF at or after an offset, or the length if there is none.
fn line_end(text: &[u8], at: usize) -> usize
    requires within { at ≤ length text.now }
    ensures value { result ≡ place_from (begins is_lf) text.now at }
    ensures least { at ≤ result }
    ensures bounds { result ≤ length text.now }
{
    match find_byte(&text[at..], b'\n') {
        Some(passed) => at + passed,
        None => text.len(),
    }
}

/// Returns the length of the lines of data at the front of a text.
fn data_length(text: &[u8]) -> usize
    ensures value { result ≡ data_length text.now }
    ensures bounds { result ≤ length text.now }
{
    let mut at = 0;
    'lines: while at < text.len() {
        let end = line_end(text, at);
        if !is_data(&text[at..end]) {
            return at;
        }
        let next = (end + 1).min(text.len());
        at = next;
    }
    at
}

/// Returns the first uuencoded file in a text, or `None` if there is none.
///
/// A line `begin MODE NAME` begins it, whose mode has three octal digits or more. Its data are the
/// lines up to the first that is no line of data. Nothing is decoded: a line that begins a file may
/// have no data after it. Does not allocate.
///
/// # Examples
///
/// ```rust
/// use mail_codec::transfer::find_uuencode;
///
/// let text = b"Hi,\n\nbegin 644 cat.txt\n#0V%T\n`\nend\n\nBye\n";
/// let file = find_uuencode(text).ok_or("no file")?;
/// assert_eq!(rt; file.name, 15..22);
/// assert_eq!(rt; file.lines, 23..31);
/// assert_eq!(rt; file.block, 5..35);
/// assert!(rt; file.is_ended);
/// ```
pub fn find_uuencode(text: &[u8]) -> Option<Uuencoded>
    ensures read { option_map file_view result ≡ first_file text.now }
    ensures name { IfSome result
        (λ file. (file.name.start < file.name.end) × (file.name.end ≤ length text.now)) }
    ensures lines { IfSome result
        (λ file. (file.lines.start ≤ file.lines.end) × (file.lines.end ≤ length text.now)) }
    ensures block { IfSome result
        (λ file. (file.block.start < file.block.end) × (file.block.end ≤ length text.now)) }
{
    match find_begin(text) {
        Some(begin) => Some(file_at(text, begin)),
        None => None,
    }
}

/// Returns the offset of the first line that begins a file.
fn find_begin(text: &[u8]) -> Option<usize>
    ensures place { result ≡ begin_from 0 (lines_of text.now) }
    ensures bounds { IfSome result (λ begin. begin < length text.now) }
    ensures begins { IfSome result (λ begin. begins_file (line_at text.now begin) ≡ true) }
{
    let mut at = 0;
    'lines: while at < text.len() {
        let end = line_end(text, at);
        if begins_file(&text[at..end]) {
            return Some(at);
        }
        let next = (end + 1).min(text.len());
        at = next;
    }
    None
}

/// Returns the file whose first line has this offset.
fn file_at(text: &[u8], begin: usize) -> Uuencoded
    requires within { begin < length text.now }
    requires begins { begins_file (line_at text.now begin) ≡ true }
    ensures read { file_view result ≡ file_at text.now begin }
    ensures name { (result.name.start < result.name.end) × (result.name.end ≤ length text.now) }
    ensures lines { (result.lines.start ≤ result.lines.end)
        × (result.lines.end ≤ length text.now) }
    ensures block { (result.block.start < result.block.end)
        × (result.block.end ≤ length text.now) }
{
    let line = line_at(text, begin);
    let start = after_line(text, begin);
    let len = data_length(after(text, start));
    let end = start + len;
    let last = line_at(text, end);
    let is_ended = ends_file(last);
    let stop = block_end(text, end, is_ended);
    Uuencoded {
        name: begin + name_start(line)..begin + name_end(line),
        lines: start..end,
        block: begin..stop,
        is_ended,
    }
}

/// Returns the offset after the line `end` at an offset, or if there is none, the offset.
fn block_end(text: &[u8], end: usize, is_ended: bool) -> usize
    requires within { end ≤ length text.now }
    ensures value { result ≡ (if is_ended then after_line text.now end else end) }
    ensures least { end ≤ result }
    ensures bounds { result ≤ length text.now }
{
    if is_ended {
        return after_line(text, end);
    }
    end
}

/// Returns the line at an offset, without its LF.
fn line_at(text: &[u8], at: usize) -> &[u8]
    requires within { at ≤ length text.now }
    ensures value { result.now ≡ line_at text.now at }
    ensures bounds { at + length result.now ≤ length text.now }
{
    let end = line_end(text, at);
    &text[at..end]
}

/// Returns the offset after the line at an offset.
#[tactic(auto, unfolding(crate::specs::Uuencode::after_line))]
fn after_line(text: &[u8], at: usize) -> usize
    requires within { at ≤ length text.now }
    ensures value { result ≡ after_line text.now at }
    ensures least { at ≤ result }
    ensures more { at < length text.now → at < result }
    ensures bounds { result ≤ length text.now }
{
    let line = line_at(text, at);
    (at + line.len() + 1).min(text.len())
}

/// Returns whether a line begins a file.
fn begins_file(line: &[u8]) -> bool
    ensures { result ≡ begins_file line.now }
{
    if !line.starts_with(b"begin ") {
        return false;
    }
    has_name(mode_end(line), name_start(line), name_end(line))
}

/// Returns whether a mode of three digits or more ends there, and a name of one byte or more begins
/// after it.
fn has_name(mode: usize, start: usize, end: usize) -> bool
    ensures { result ≡ (nat_lt 8 mode && (nat_lt mode start && nat_lt start end)) }
{
    mode > 8 && (start > mode && end > start)
}

/// Returns the offset after the octal digits that follow `begin `.
fn mode_end(line: &[u8]) -> usize
    ensures value { result ≡ mode_end line.now }
    ensures bounds { result ≤ 6 + length line.now }
{
    6 + octal_len(after(line, 6))
}

/// Returns the number of octal digits at the front.
fn octal_len(bytes: &[u8]) -> usize
    ensures value { result ≡ prefix_len is_octal_digit bytes.now }
    ensures bounds { result ≤ length bytes.now }
{
    bytes
        .iter()
        .take_while(|byte| is_octal_digit(**byte))
        .count()
}

/// Returns whether a byte is an octal digit.
fn is_octal_digit(byte: u8) -> bool
    ensures { result ≡ is_octal_digit byte }
{
    byte >= b'0' && byte <= b'7'
}

/// Returns the offset of the name in a line that begins a file.
fn name_start(line: &[u8]) -> usize
    ensures value { result ≡ name_start line.now }
    ensures bounds { result ≤ 6 + length line.now }
{
    let mode = mode_end(line);
    mode + whitespace_len(after(line, mode))
}

/// Returns the number of whitespace bytes at the front.
fn whitespace_len(bytes: &[u8]) -> usize
    ensures value { result ≡ prefix_len is_ascii_whitespace bytes.now }
    ensures bounds { result ≤ length bytes.now }
{
    bytes
        .iter()
        .take_while(|byte| byte.is_ascii_whitespace())
        .count()
}

/// Returns the offset after the name in a line that begins a file.
fn name_end(line: &[u8]) -> usize
    ensures value { result ≡ name_end line.now }
    ensures bounds { result ≤ length line.now }
{
    match line.iter().rposition(|byte| !is_whitespace(*byte)) {
        Some(last) => last + 1,
        None => 0,
    }
}

/// Returns whether a byte is ASCII whitespace.
fn is_whitespace(byte: u8) -> bool
    ensures { result ≡ is_ascii_whitespace byte }
{
    byte.is_ascii_whitespace()
}

/// Returns whether a line ends a file.
fn ends_file(line: &[u8]) -> bool
    ensures { result ≡ ends_file line.now }
{
    if !line.starts_with(b"end") {
        return false;
    }
    are_whitespace(after(line, 3))
}

/// Returns whether all bytes are ASCII whitespace.
fn are_whitespace(bytes: &[u8]) -> bool
    ensures { result ≡ list_all is_ascii_whitespace bytes.now }
{
    bytes.iter().all(|byte| is_whitespace(*byte))
}
