//! The text of a header's value, read leniently.
ghost use Rattle.std.specs.Prelude.{◌≡◌, ◌≤◌, ◌<◌, ◌+◌, ◌-◌, ◌++◌, ℕ, [], length, take, drop, true};
ghost use Rattle.std.specs.Prelude.{◌&&◌, not};
ghost use Rattle.std.specs.Prelude.{IfOk, IfSome, IsOk, IsSome, IsTrue, MatchOption, OnOk};
ghost use Rattle.std.specs.Prelude.{None, option_and_then, option_map, string_bytes};
ghost use Rattle.std.specs.Cow.{cow_str_bytes, IsBorrowedStr};
ghost use Rattle.std.specs.List.{prefix_len};
ghost use Rattle.std.specs.Str.{str_eq_ignore_ascii_case};
ghost use Rattle.mail_codec.specs.Charset.{Charsets};
ghost use Rattle.mailparse.specs.Map.{text_found};
ghost use Rattle.mailparse.specs.Value.{IsPlain};
ghost use Rattle.mail_read.specs.Files.{text_of_octets};
ghost use Rattle.mail_read.specs.lenient.Folding.{is_blank};
ghost use Rattle.mail_read.specs.lenient.Values.{Pieces, between, decoded, encoding_at};
ghost use Rattle.mail_read.specs.lenient.Values.{first_header_text, has_shifts, head_of};
ghost use Rattle.mail_read.specs.lenient.Values.{header_text, if_known};
ghost use Rattle.mail_read.specs.lenient.Values.{is_label_byte, is_white, joins, last, name_length};
ghost use Rattle.mail_read.specs.lenient.Values.{octets_of, piece, pieces, pieces_at};
ghost use Rattle.mail_read.specs.lenient.Values.{shown, spaced, without_language};
ghost use Rattle.mail_read.specs.lenient.ValueViews.{head_view, run_view, word_view};

use super::base64::base64_front;
use super::folding::{begins_in_blank, is_blank, unfolded};
use crate::files::text_of_octets;
use mail_codec::bytescan::{find, find_byte, find_either, find_pair};
use mail_codec::charset::{Decode, KnownCharsets};
use mail_codec::transfer::decode_quoted_printable;
use mailparse::MailHeaderMap;
use std::alloc::{AllocError, Global};
use std::borrow::CowStr;

/// How the text of an encoded word is encoded (RFC 2047, section 4).
#[derive(Clone, Copy, Debug)]
enum WordEncoding {
    Base64,
    QuotedPrintable,
}

/// What an encoded word has between its `=?` and its encoded text, and the offset of that text.
#[derive(Clone, Copy, Debug)]
struct Head<'a> {
    label: &'a [u8],
    encoding: WordEncoding,
    start: usize,
}

/// An encoded word, with the bytes before it, and the offset of its end.
#[derive(Clone, Copy, Debug)]
struct EncodedWord<'a> {
    before: &'a [u8],
    label: &'a [u8],
    encoding: WordEncoding,
    encoded: &'a [u8],
    end: usize,
}

/// The bytes of words that follow one another in one charset, which has this label.
#[derive(Debug, Drop)]
struct Run<'a> {
    label: Option<&'a [u8]>,
    octets: Vec<u8>,
}

/// Returns the text of a header's value, read leniently: unfolded, and with its encoded words
/// decoded wherever they are (RFC 5322, section 2.2.3; RFC 2047; RFC 2231, section 5).
///
/// Where `mailparse` leaves a word as it is written, because text is beside it, because its Base64
/// lacks padding, or because it names a language, this call decodes it. A character may be cut in
/// two by words of one charset. Blanks at the front are removed, and others stay. Bytes outside
/// words that are not UTF-8 are windows-1252. A printable value without `=?` is its own text.
/// Allocates the text and the bytes of the words.
///
/// # Errors
///
/// `AllocError` if it runs out of memory.
///
/// # Examples
///
/// ```rust
/// use mail_read::lenient::lenient_header_text;
///
/// let text = lenient_header_text(alloc, b"Re:=?utf-8*en?Q?caf=C3?=\r\n =?UTF-8?B?qQ?=!", &())?;
/// assert_eq!(rt; text.as_str(), "Re:café!");
/// ```
pub fn lenient_header_text<K: KnownCharsets>(
    alloc: Global,
    value: &[u8],
    known: &K,
) -> Result<String, AllocError>
    ensures { IfOk result (λ text. string_bytes text
        ≡ header_text (K.known known.now) value.now) }
{
    lenient_header_text_ref(alloc, value, known)?.into_owned(alloc)
}

/// Returns the text of a header's value as `lenient_header_text` does, borrowed if the value is
/// plain: printable ASCII without `=?` that does not begin with a space (RFC 5322, section 2.2; RFC
/// 2047, section 2).
///
/// When it is plain, it succeeds without allocating. The text of another value in UTF-8 that is not
/// folded may be borrowed too.
///
/// # Errors
///
/// `AllocError` if it runs out of memory; never for a plain value.
///
/// # Examples
///
/// ```rust
/// use mail_read::lenient::lenient_header_text_ref;
///
/// let text = lenient_header_text_ref(alloc, b"Hi there", &())?;
/// assert_eq!(rt; text.as_str(), "Hi there");
/// let text = lenient_header_text_ref(alloc, b"a\r\n =?utf-8?Q?b?=c", &())?;
/// assert_eq!(rt; text.as_str(), "a bc");
/// ```
pub fn lenient_header_text_ref<'v, K: KnownCharsets>(
    alloc: Global,
    value: &'v [u8],
    known: &K,
) -> Result<CowStr<'v>, AllocError>
    ensures read { IfOk result (λ text. cow_str_bytes text
        ≡ header_text (K.known known.now) value.now) }
    ensures borrowed { IsPlain value.now → IfOk result (λ text. IsBorrowedStr text) }
    ensures no_alloc { IsPlain value.now → IsOk result }
{
    match own_text(value) {
        Some(text) => Ok(CowStr::Borrowed(text)),
        None => Ok(CowStr::Owned(owned_text(alloc, value, known)?)),
    }
}

/// Returns the text of the first header with this name, read by `lenient_header_text`, or `None` if
/// there is no such header.
///
/// Allocates the text and the bytes of its words.
///
/// # Errors
///
/// `AllocError` if it runs out of memory.
///
/// # Examples
///
/// ```rust
/// use mail_read::lenient::first_header_text;
/// use mailparse::parse_mail;
///
/// let mail = parse_mail(alloc, b"Subject: Re:=?utf-8?Q?caf=C3=A9?=\n\n")?;
/// let subject = first_header_text(alloc, &mail.headers, "Subject", &())?.ok_or("no subject")?;
/// assert_eq!(rt; subject.as_str(), "Re:café");
/// ```
pub fn first_header_text<H: MailHeaderMap, K: KnownCharsets>(
    alloc: Global,
    headers: &H,
    name: &str,
    known: &K,
) -> Result<Option<String>, AllocError>
    ensures { IfOk result (λ text. text_found text
        ≡ first_header_text (K.known known.now) name.now (H.present headers.now)) }
{
    match headers.get_first_header(name) {
        Some(header) => Ok(Some(lenient_header_text(alloc, header.get_value_raw(), known)?)),
        None => Ok(None),
    }
}

/// Returns a value that is its own text, whatever charsets are known.
#[tactic(auto, using(crate::proofs::lemmas::lenient::Values::own_texts))]
fn own_text(value: &[u8]) -> Option<&str>
    ensures value { IfSome result (λ text. (known : Charsets) →
        text.now ≡ header_text known value.now) }
    ensures plain { IsPlain value.now → IsSome result }
{
    if !is_whole(value) {
        return None;
    }
    match str::from_utf8(value) {
        Ok(text) => Some(text),
        Err(_) => None,
    }
}

/// Returns whether all bytes of a value show, and by themselves: it does not begin with a blank,
/// and it contains neither a LF nor a `=?`. One search is enough for most values.
#[inline(always)]
#[tactic(auto, using(crate::proofs::lemmas::lenient::Values::whole_values))]
fn is_whole(value: &[u8]) -> bool
    ensures value { IsTrue result → (known : Charsets) →
        text_of_octets value.now ≡ header_text known value.now }
    ensures plain { IsPlain value.now → result ≡ true }
{
    if begins_in_blank(value) {
        return false;
    }
    if find_either(value, b'\n', b'?').is_none() {
        return true;
    }
    find_byte(value, b'\n').is_none() && find_pair(value, b'=', b'?').is_none()
}

/// Returns the text of a value: that of its bytes without folding and without blanks at their front.
#[tactic(auto, unfolding(crate::specs::lenient::Values::header_text))]
fn owned_text<K: KnownCharsets>(
    alloc: Global,
    value: &[u8],
    known: &K,
) -> Result<String, AllocError>
    ensures { IfOk result (λ text. string_bytes text
        ≡ header_text (K.known known.now) value.now) }
{
    let plain = unfolded(alloc, value)?;
    let bytes = plain.as_slice();
    unfolded_text(alloc, &bytes[blanks_length(bytes)..], known)
}

/// Returns the text of an unfolded value, in which words are looked for if there is a `=?`.
fn unfolded_text<K: KnownCharsets>(
    alloc: Global,
    bytes: &[u8],
    known: &K,
) -> Result<String, AllocError>
    ensures { IfOk result (λ text. string_bytes text
        ≡ shown (K.known known.now) None (pieces (K.known known.now) 0 bytes.now)) }
{
    if find_pair(bytes, b'=', b'?').is_none() {
        return text_of_octets(alloc, bytes);
    }
    decoded_text(alloc, bytes, known)
}

/// Returns the number of blanks at the front.
fn blanks_length(bytes: &[u8]) -> usize
    ensures value { result ≡ prefix_len is_blank bytes.now }
    ensures bounds { result ≤ length bytes.now }
{
    bytes.iter().take_while(|byte| is_blank(**byte)).count()
}

/// Returns the text of an unfolded value.
fn decoded_text<K: KnownCharsets>(
    alloc: Global,
    bytes: &[u8],
    known: &K,
) -> Result<String, AllocError>
    ensures { IfOk result (λ text. string_bytes text
        ≡ shown (K.known known.now) None (pieces (K.known known.now) 0 bytes.now)) }
{
    let mut text = String::new(alloc);
    let mut run = Run {
        label: None,
        octets: Vec::new(alloc),
    };
    let mut left = bytes;
    'words: while let Some(word) = next_word(left, known) {
        push_word(alloc, &mut text, &mut run, &word, known)?;
        left = &left[word.end..];
    }
    push_run(alloc, &mut text, &run, known)?;
    push_text(alloc, &mut text, left)?;
    Ok(text)
}

/// Returns the first word, or `None` if there is none.
#[tactic(auto, using(crate::proofs::lemmas::lenient::Values::next_words))]
fn next_word<'a, K: KnownCharsets>(bytes: &'a [u8], known: &K) -> Option<EncodedWord<'a>>
    ensures read { MatchOption result
        (pieces (K.known known.now) 0 bytes.now ≡ last bytes.now)
        (λ word. pieces (K.known known.now) 0 bytes.now
        ≡ piece word.before.now (word_view word)
        (pieces (K.known known.now) 0 (drop word.end bytes.now))) }
    ensures bounds { IfSome result (λ word. (0 < word.end) × (word.end ≤ length bytes.now)) }
{
    let mut at = 0;
    'openings: while let Some(place) = find_pair(&bytes[at..], b'=', b'?') {
        let from = at + place;
        let inside = &bytes[from + 2..];
        if let Some(head) = known_head(inside, known) {
            return word_at(bytes, from, head);
        }
        at = from + 1;
    }
    None
}

/// Returns the word with this head whose `=?` is at an offset, or `None` if it does not end.
#[tactic(auto, using(crate::proofs::lemmas::lenient::Values::words_at))]
fn word_at<'a>(bytes: &'a [u8], from: usize, head: Head<'a>) -> Option<EncodedWord<'a>>
    requires within { from + 2 + head.start ≤ length bytes.now }
    ensures read { (after : ℕ → Pieces) → MatchOption result
        (pieces_at (head_view head.entry) (drop from bytes.now) after ≡ last (drop from bytes.now))
        (λ word. pieces_at (head_view head.entry) (drop from bytes.now) after
        ≡ piece [] (word_view word) (after (word.end - from))) }
    ensures before { IfSome result (λ word. word.before.now ≡ take from bytes.now) }
    ensures bounds { IfSome result (λ word. (from < word.end) × (word.end ≤ length bytes.now)) }
{
    let start = from + 2 + head.start;
    let text = &bytes[start..];
    let length = find_pair(text, b'?', b'=')?;
    Some(EncodedWord {
        before: &bytes[..from],
        label: head.label,
        encoding: head.encoding,
        encoded: &text[..length],
        end: start + length + 2,
    })
}

/// Returns the head of a word after its `=?`, if its charset is known.
fn known_head<'a, K: KnownCharsets>(inside: &'a [u8], known: &K) -> Option<Head<'a>>
    ensures value { option_map head_view result
        ≡ option_and_then (if_known (K.known known.now)) (head_of inside.now) }
    ensures bounds { IfSome result (λ head. head.start ≤ length inside.now) }
{
    let head = head_of(inside)?;
    if known.for_label(head.label).is_some() {
        Some(head)
    } else {
        None
    }
}

/// Returns the head of a word after its `=?`.
#[tactic(auto, unfolding(crate::specs::lenient::Values::head_of))]
fn head_of(inside: &[u8]) -> Option<Head<'_>>
    ensures value { option_map head_view result ≡ head_of inside.now }
    ensures bounds { IfSome result (λ head. head.start ≤ length inside.now) }
{
    let length = label_length(inside);
    let encoding = encoding_at(&inside[length..])?;
    Some(Head {
        label: without_language(&inside[..length]),
        encoding,
        start: length + 3,
    })
}

/// Returns the number of bytes before the first `=` or `?`.
fn label_length(inside: &[u8]) -> usize
    ensures value { result ≡ prefix_len is_label_byte inside.now }
    ensures bounds { result ≤ length inside.now }
{
    inside
        .iter()
        .take_while(|byte| is_label_byte(**byte))
        .count()
}

/// Returns whether a byte may be in a label.
fn is_label_byte(byte: u8) -> bool
    ensures { result ≡ is_label_byte byte }
{
    !(byte == b'=' || byte == b'?')
}

/// Returns a label without its language.
fn without_language(label: &[u8]) -> &[u8]
    ensures { result.now ≡ without_language label.now }
{
    &label[..name_length(label)]
}

/// Returns the number of bytes of a label before its language.
fn name_length(label: &[u8]) -> usize
    ensures value { result ≡ name_length label.now }
    ensures bounds { result ≤ length label.now }
{
    label.iter().take_while(|byte| **byte != b'*').count()
}

/// Returns the encoding that is named at the front.
fn encoding_at(bytes: &[u8]) -> Option<WordEncoding>
    ensures value { result ≡ encoding_at bytes.now }
    ensures bounds { IfSome result (λ encoding. 3 ≤ length bytes.now) }
{
    if bytes.starts_with(b"?B?") || bytes.starts_with(b"?b?") {
        return Some(WordEncoding::Base64);
    }
    if bytes.starts_with(b"?Q?") || bytes.starts_with(b"?q?") {
        return Some(WordEncoding::QuotedPrintable);
    }
    None
}

/// Returns the bytes of an encoded text.
#[tactic(auto, unfolding(crate::specs::lenient::Values::octets_of))]
fn octets_of(alloc: Global, encoding: WordEncoding, encoded: &[u8]) -> Result<Vec<u8>, AllocError>
    ensures { IfOk result (λ octets. octets.items ≡ octets_of encoding encoded.now) }
{
    match encoding {
        WordEncoding::Base64 => Ok(base64_front(alloc, encoded)?.bytes),
        WordEncoding::QuotedPrintable => {
            let mut text = spaced(alloc, encoded)?;
            text.push(b'=')?;
            decode_quoted_printable(alloc, text.as_slice())
        }
    }
}

/// Returns a text with a space in place of each `_`.
fn spaced(alloc: Global, encoded: &[u8]) -> Result<Vec<u8>, AllocError>
    ensures { IfOk result (λ text. text.items ≡ spaced encoded.now) }
{
    let mut text = Vec::new(alloc);
    for byte in encoded {
        text.push(if *byte == b'_' { b' ' } else { *byte })?;
    }
    Ok(text)
}

/// Appends a word to the run, or the text of the run and what is before the word, which then begins
/// a run.
fn push_word<'a, K: KnownCharsets>(
    alloc: Global,
    text: &mut String,
    run: &mut Run<'a>,
    word: &EncodedWord<'a>,
    known: &K,
) -> Result<(), AllocError>
    ensures { OnOk result ((after : Pieces) →
        string_bytes text.new ++ shown (K.known known.now) (run_view run.new) after
        ≡ string_bytes text.old ++ shown (K.known known.now) (run_view run.old)
        (piece word.now.before.now (word_view word.now) after)) }
{
    let octets = octets_of(alloc, word.encoding, word.encoded)?;
    if joins(run, word) {
        return run.octets.extend_from_slice(octets.as_slice());
    }
    push_run(alloc, text, run, known)?;
    push_between(alloc, text, run, word.before)?;
    run.label = Some(word.label);
    run.octets = octets;
    Ok(())
}

/// Returns whether a word goes on the run.
fn joins(run: &Run<'_>, word: &EncodedWord<'_>) -> bool
    ensures { result ≡ joins (run_view run.now) word.now.before.now (word_view word.now) }
{
    match run.label {
        Some(label) => is_white(word.before) && is_joined(label, word.label),
        None => false,
    }
}

/// Returns whether the bytes of two words with these labels are joined.
fn is_joined(before: &[u8], label: &[u8]) -> bool
    ensures { result
        ≡ (str_eq_ignore_ascii_case before.now label.now && not (has_shifts label.now)) }
{
    before.eq_ignore_ascii_case(label) && !has_shifts(label)
}

/// Returns whether a label names a charset of the family of ISO 2022, such as ISO-2022-JP.
fn has_shifts(label: &[u8]) -> bool
    ensures { result ≡ has_shifts label.now }
{
    find(label, b"2022").is_some()
}

/// Returns whether a text is whitespace alone.
fn is_white(text: &[u8]) -> bool
    ensures { result ≡ is_white text.now }
{
    text.iter().all(|byte| byte.is_ascii_whitespace())
}

/// Appends the text of a run, if there is one.
fn push_run<K: KnownCharsets>(
    alloc: Global,
    text: &mut String,
    run: &Run<'_>,
    known: &K,
) -> Result<(), AllocError>
    ensures { OnOk result (string_bytes text.new
        ≡ string_bytes text.old ++ decoded (K.known known.now) (run_view run.now)) }
{
    let Some(label) = run.label else {
        return Ok(());
    };
    let Some(charset) = known.for_label(label) else {
        return Ok(());
    };
    let decoded = charset.decode_without_bom_handling(alloc, run.octets.as_slice())?;
    text.push_str(decoded.as_str())
}

/// Appends the text before a word, which is none if it is whitespace after a run.
fn push_between(
    alloc: Global,
    text: &mut String,
    run: &Run<'_>,
    bytes: &[u8],
) -> Result<(), AllocError>
    ensures { OnOk result (string_bytes text.new
        ≡ string_bytes text.old ++ between (run_view run.now) bytes.now) }
{
    if run.label.is_some() && is_white(bytes) {
        return Ok(());
    }
    push_text(alloc, text, bytes)
}

/// Appends the text of bytes outside words.
fn push_text(alloc: Global, text: &mut String, bytes: &[u8]) -> Result<(), AllocError>
    ensures { OnOk result
        (string_bytes text.new ≡ string_bytes text.old ++ text_of_octets bytes.now) }
{
    let decoded = text_of_octets(alloc, bytes)?;
    text.push_str(decoded.as_str())
}
