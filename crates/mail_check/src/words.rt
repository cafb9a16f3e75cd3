//! Encoded words in subjects and senders that other programs may read differently.
ghost use Rattle.std.specs.Prelude.{◌≡◌, ◌≤◌, ◌++◌, [], IfOk, codes, length, map, take};
ghost use Rattle.std.specs.List.{list_any};
ghost use Rattle.mail_codec.specs.QuotedPrintable.{quoted_printable};
ghost use Rattle.mail_read.specs.lenient.Values.{spaced};
ghost use Rattle.mail_check.specs.Bytes.{first_byte};
ghost use Rattle.mail_check.specs.LineViews.{line_view};
ghost use Rattle.mail_check.specs.Words.{after_charset, after_label, after_word_byte};
ghost use Rattle.mail_check.specs.Words.{after_word_bytes, begins_as, later_piece};
ghost use Rattle.mail_check.specs.Words.{has_early_at, has_join, has_word_delimiter, hides_address, in_q};
ghost use Rattle.mail_check.specs.Words.{is_bad_name, is_bad_piece, is_closed, is_gap, is_in_base64};
ghost use Rattle.mail_check.specs.Words.{is_label_byte, is_padded, is_sender, is_sender_mark};
ghost use Rattle.mail_check.specs.Words.{is_word, is_worded, joins, label_length, octets_of};
ghost use Rattle.mail_check.specs.Words.{pieces, word_head, word_text};
ghost use Rattle.mail_check.specs.declared.words.WordState.TheVariants.{Base64, Charset, Front};
ghost use Rattle.mail_check.specs.declared.words.WordState.TheVariants.{Padding};

use crate::bodies::is_letter;
use crate::lines::{HeaderLine, is_named, is_visible};
use crate::scan::{from_offset, is_escape_digit};
use mail_codec::bytescan::{find, find_byte};
use mail_codec::transfer::{decode_base64, decode_quoted_printable};
use std::alloc::{AllocError, Global};

/// What was read of an encoded word (RFC 2047, section 2).
#[derive(Clone, Copy, Debug)]
pub enum WordState {
    /// Nothing.
    Front,
    /// The equals sign at the front.
    Equals,
    /// The question mark after it.
    Opened,
    /// A part of the charset.
    Charset,
    /// The question mark after the charset.
    Encoding,
    /// The encoding B.
    Base64Mark,
    /// The question mark after it.
    Base64Start,
    /// A part of a text in Base64.
    Base64,
    /// One equals sign or more after it.
    Padding,
    /// The encoding Q.
    QMark,
    /// The question mark after it.
    QStart,
    /// A part of a text in Q.
    Q,
    /// The equals sign of an escape.
    Escape,
    /// The first digit of an escape.
    Digit,
    /// The question mark after a text.
    Closing,
    /// The equals sign after that.
    Closed,
    /// Something else.
    Wrong,
}

/// Returns whether a header is one whose encoded words matter: a subject or a sender.
#[inline(always)]
pub(crate) fn is_worded(line: &HeaderLine<'_>) -> bool
    ensures { result ≡ is_worded (line_view line.now) }
{
    is_named(b"Subject", line) || is_sender(line)
}

/// Returns whether a header names who sent the mail.
fn is_sender(line: &HeaderLine<'_>) -> bool
    ensures { result ≡ is_sender (line_view line.now) }
{
    is_named(b"From", line) || is_named(b"Sender", line)
}

/// Returns the pieces of the value of a header.
pub(crate) fn pieces(alloc: Global, value: &[u8]) -> Result<Vec<&[u8]>, AllocError>
    ensures { IfOk result (λ found. map (λ piece. piece.now) found.items ≡ pieces value.now) }
{
    let mut found = Vec::new(alloc);
    let mut rest = value;
    'gaps: while let Some(at) = gap_offset(rest) {
        found.push(&rest[..at])?;
        rest = &rest[at + 1..];
    }
    found.push(rest)?;
    Ok(found)
}

/// Returns the offset of the first blank or byte of a line end.
fn gap_offset(bytes: &[u8]) -> Option<usize>
    ensures { result ≡ first_byte is_gap bytes.now }
{
    bytes.iter().position(|byte| is_gap(*byte))
}

/// Returns whether a byte is a blank or one of a line end.
#[inline(always)]
fn is_gap(byte: u8) -> bool
    ensures { result ≡ is_gap byte }
{
    byte == b' ' || byte == b'\t' || byte == b'\n' || byte == b'\r'
}

/// Returns whether a piece among these looks like an encoded word and does not have the syntax of one.
pub(crate) fn has_bad_piece(found: &[&[u8]]) -> bool
    ensures { result ≡ list_any is_bad_piece (map (λ piece. piece.now) found.now) }
{
    for piece in found {
        if is_bad_piece(piece) {
            return true;
        }
    }
    false
}

/// Returns whether a piece looks like an encoded word and does not have the syntax of one.
fn is_bad_piece(piece: &[u8]) -> bool
    ensures { result ≡ is_bad_piece piece.now }
{
    has_word_delimiter(piece) && !is_word(piece)
}

/// Returns whether an encoded word may begin or end in a piece.
fn has_word_delimiter(piece: &[u8]) -> bool
    ensures { result ≡ has_word_delimiter piece.now }
{
    find(piece, b"=?").is_some() || find(piece, b"?=").is_some()
}

/// Returns whether a piece is an encoded word of at most 75 bytes.
#[tactic(auto, using(crate::proofs::lemmas::WordFronts::no_front), unfolding(crate::specs::Words::is_word))]
pub(crate) fn is_word(piece: &[u8]) -> bool
    ensures { result ≡ is_word piece.now }
{
    piece.len() < 76 && piece.starts_with(b"=?") && is_closed_word(piece)
}

/// Returns whether bytes are an encoded word.
fn is_closed_word(bytes: &[u8]) -> bool
    ensures { result ≡ is_closed (after_word_bytes Front bytes.now) }
{
    let mut state = WordState::Front;
    for byte in bytes {
        state = after_word_byte(state, *byte);
    }
    matches!(state, WordState::Closed)
}

/// Returns the state after one more byte.
#[inline(always)]
fn after_word_byte(state: WordState, byte: u8) -> WordState
    ensures { result ≡ after_word_byte state byte }
{
    match state {
        WordState::Front if byte == b'=' => WordState::Equals,
        WordState::Equals if byte == b'?' => WordState::Opened,
        WordState::Opened if is_label_byte(byte) => WordState::Charset,
        WordState::Charset => after_label_byte(byte),
        WordState::Encoding => after_label(byte),
        WordState::Base64Mark if byte == b'?' => WordState::Base64Start,
        WordState::Base64Start if is_letter(byte) => WordState::Base64,
        WordState::Base64 => after_letter(byte),
        WordState::Padding => after_padding(byte),
        WordState::QMark if byte == b'?' => WordState::QStart,
        WordState::Q if byte == b'?' => WordState::Closing,
        WordState::QStart | WordState::Q => in_q(byte),
        WordState::Escape if is_escape_digit(byte) => WordState::Digit,
        WordState::Digit if is_escape_digit(byte) => WordState::Q,
        WordState::Closing if byte == b'=' => WordState::Closed,
        _ => WordState::Wrong,
    }
}

/// Returns the state after a part of the charset and a byte.
#[inline(always)]
fn after_label_byte(byte: u8) -> WordState
    ensures { result ≡ after_word_byte Charset byte }
{
    match byte {
        byte if is_label_byte(byte) => WordState::Charset,
        b'?' => WordState::Encoding,
        _ => WordState::Wrong,
    }
}

/// Returns the state after the question mark of a charset and a byte.
#[inline(always)]
fn after_label(byte: u8) -> WordState
    ensures { result ≡ after_label byte }
{
    match byte {
        b'B' | b'b' => WordState::Base64Mark,
        b'Q' | b'q' => WordState::QMark,
        _ => WordState::Wrong,
    }
}

/// Returns the state after letters of Base64 and a byte.
#[inline(always)]
fn after_letter(byte: u8) -> WordState
    ensures { result ≡ after_word_byte Base64 byte }
{
    match byte {
        byte if is_letter(byte) => WordState::Base64,
        b'=' => WordState::Padding,
        b'?' => WordState::Closing,
        _ => WordState::Wrong,
    }
}

/// Returns the state after equals signs of Base64 and a byte.
#[inline(always)]
fn after_padding(byte: u8) -> WordState
    ensures { result ≡ after_word_byte Padding byte }
{
    match byte {
        b'=' => WordState::Padding,
        b'?' => WordState::Closing,
        _ => WordState::Wrong,
    }
}

/// Returns the state after the next byte of a text in the encoding Q.
#[inline(always)]
fn in_q(byte: u8) -> WordState
    ensures { result ≡ in_q byte }
{
    match byte {
        b'=' => WordState::Escape,
        b'?' => WordState::Wrong,
        byte if is_visible(byte) => WordState::Q,
        _ => WordState::Wrong,
    }
}

/// Returns whether a byte is a character of the name of a charset.
#[inline(always)]
fn is_label_byte(byte: u8) -> bool
    ensures { result ≡ is_label_byte byte }
{
    byte.is_ascii_alphanumeric()
        || matches!(
            byte,
            b'!' | b'#'..=b'\'' | b'+' | b'-' | b'^'..=b'`' | b'{'..=b'~'
        )
}

/// Returns where the charset of a word ends, counted from its third byte.
pub(crate) fn label_length(word: &[u8]) -> usize
    ensures value { result ≡ label_length word.now }
    ensures bounds { result ≤ length word.now }
{
    let rest = from_offset(word, 2);
    find_byte(rest, b'?').unwrap_or(rest.len())
}

/// Returns what follows the charset of a word.
fn after_charset(word: &[u8]) -> &[u8]
    ensures { result.now ≡ after_charset word.now }
{
    from_offset(word, label_length(word) + 2)
}

/// Returns whether the encoding of a word is B.
pub(crate) fn is_in_base64(word: &[u8]) -> bool
    ensures { result ≡ is_in_base64 word.now }
{
    up_to(after_charset(word), 3).eq_ignore_ascii_case(b"?B?")
}

/// Returns a word up to its text.
fn word_head(word: &[u8]) -> &[u8]
    ensures { result.now ≡ word_head word.now }
{
    up_to(word, label_length(word) + 5)
}

/// Returns the encoded text of a word.
pub(crate) fn word_text(word: &[u8]) -> &[u8]
    ensures { result.now ≡ word_text word.now }
{
    let rest = from_offset(after_charset(word), 3);
    up_to(rest, rest.len().saturating_sub(2))
}

/// Returns the bytes up to an offset, or all if there are fewer.
pub(crate) fn up_to(bytes: &[u8], end: usize) -> &[u8]
    ensures { result.now ≡ take end bytes.now }
{
    if end < bytes.len() {
        &bytes[..end]
    } else {
        bytes
    }
}

/// Returns whether a piece is an encoded word in Base64 with padding.
fn is_padded(word: &[u8]) -> bool
    ensures { result ≡ is_padded word.now }
{
    is_word(word) && is_in_base64(word) && word.ends_with(b"=?=")
}

/// Returns whether a piece begins as a padded word in Base64 before it does.
fn joins(before: &[u8], piece: &[u8]) -> bool
    ensures { result ≡ joins before.now piece.now }
{
    is_padded(before) && begins_as(word_head(before), piece)
}

/// Returns whether a piece begins with a text, ignoring ASCII case.
fn begins_as(head: &[u8], piece: &[u8]) -> bool
    ensures { result ≡ begins_as head.now piece.now }
{
    up_to(piece, head.len()).eq_ignore_ascii_case(head)
}

/// Returns whether one of some pieces begins as a padded word in Base64 before it does.
pub(crate) fn has_join(found: &[&[u8]]) -> bool
    ensures { result ≡ has_join [] (map (λ piece. piece.now) found.now) }
{
    let mut before: &[u8] = b"";
    for piece in found {
        if joins(before, piece) {
            return true;
        }
        before = later_piece(before, piece);
    }
    false
}

/// Returns the later of two pieces, if that is not empty.
fn later_piece<'m>(before: &'m [u8], piece: &'m [u8]) -> &'m [u8]
    ensures { result.now ≡ later_piece before.now piece.now }
{
    if piece.is_empty() { before } else { piece }
}

/// Returns whether the name of a sender may be read as an address.
pub(crate) fn is_bad_name(
    alloc: Global,
    line: &HeaderLine<'_>,
    found: &[&[u8]],
) -> Result<bool, AllocError>
    ensures { IfOk result (λ is.
        is ≡ is_bad_name (line_view line.now) (map (λ piece. piece.now) found.now)) }
{
    if !is_sender(line) {
        return Ok(false);
    }
    if is_named(b"From", line) && has_early_at(line.value) {
        return Ok(true);
    }
    hide_address(alloc, found)
}

/// Returns whether an at sign comes before an opening angle bracket.
fn has_early_at(value: &[u8]) -> bool
    ensures { result ≡ has_early_at value.now }
{
    match find_byte(value, b'@') {
        Some(at) => find_byte(from_offset(value, at), b'<').is_some(),
        None => false,
    }
}

/// Returns whether one of some pieces is a word with a character that is more than a part of a word
/// in a sender.
fn hide_address(alloc: Global, found: &[&[u8]]) -> Result<bool, AllocError>
    ensures { IfOk result (λ is.
        is ≡ list_any hides_address (map (λ piece. piece.now) found.now)) }
{
    for piece in found {
        if hides_address(alloc, piece)? {
            return Ok(true);
        }
    }
    Ok(false)
}

/// Returns whether a piece is such a word.
fn hides_address(alloc: Global, piece: &[u8]) -> Result<bool, AllocError>
    ensures { IfOk result (λ is. is ≡ hides_address piece.now) }
{
    if !is_word(piece) {
        return Ok(false);
    }
    let octets = octets_of(alloc, piece)?;
    Ok(has_sender_mark(octets.as_slice()))
}

/// Returns whether one of some bytes is such a character.
fn has_sender_mark(octets: &[u8]) -> bool
    ensures { result ≡ list_any is_sender_mark octets.now }
{
    octets.iter().any(|byte| is_sender_mark(*byte))
}

/// Returns whether a byte is such a character.
fn is_sender_mark(byte: u8) -> bool
    ensures { result ≡ is_sender_mark byte }
{
    matches!(
        byte,
        b'@' | b'<' | b'>' | b',' | b':' | b';' | b'"' | b'(' | b')' | b'[' | b']' | b'\\'
    )
}

/// Returns the bytes of a word.
pub(crate) fn octets_of(alloc: Global, word: &[u8]) -> Result<Vec<u8>, AllocError>
    ensures { IfOk result (λ octets. octets.items ≡ octets_of word.now) }
{
    let text = word_text(word);
    if !is_in_base64(word) {
        return q_octets(alloc, text);
    }
    match decode_base64(alloc, text)? {
        Ok(octets) => Ok(octets),
        Err(_) => Ok(Vec::new(alloc)),
    }
}

/// Returns the bytes of a text in the encoding Q. A soft line break after it keeps the spaces at
/// its end.
fn q_octets(alloc: Global, text: &[u8]) -> Result<Vec<u8>, AllocError>
    ensures { IfOk result (λ octets. octets.items
        ≡ quoted_printable (spaced text.now ++ codes "=")) }
{
    let mut encoded = spaced(alloc, text)?;
    encoded.push(b'=')?;
    decode_quoted_printable(alloc, encoded.as_slice())
}

/// Returns a text with a space in place of each underscore.
fn spaced(alloc: Global, text: &[u8]) -> Result<Vec<u8>, AllocError>
    ensures { IfOk result (λ octets. octets.items ≡ spaced text.now) }
{
    let mut found = Vec::new(alloc);
    for byte in text {
        found.push(if *byte == b'_' { b' ' } else { *byte })?;
    }
    Ok(found)
}
