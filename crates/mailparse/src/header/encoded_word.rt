//! The text of an encoded word (RFC 2047, sections 2 and 4).
ghost use Rattle.std.specs.Prelude.{◌≡◌, false, IfOk, MatchOption};
ghost use Rattle.std.specs.Option.{option_map};
ghost use Rattle.std.specs.String.{string_bytes};
ghost use Rattle.mailparse.specs.EncodedWord.{IsCutAtMark, bytes_of_q, encoded_bytes, has_question_mark, spaced, word_text};

use mail_codec::charset::{Decode, KnownCharsets};
use mail_codec::transfer::{decode_base64, decode_quoted_printable};
use std::alloc::{AllocError, Global};

/// Returns the text before and after the first question mark, if there is one.
fn cut_at_question_mark(text: &str) -> Option<(&str, &str)>
    ensures { MatchOption result (has_question_mark text.now ≡ false)
        (λ p. IsCutAtMark text.now p.0.now p.1.now) }
{
    text.split_once('?')
}

/// Returns a text with a space in place of each `_`.
#[tactic(auto, using(crate::proofs::lemmas::EncodedWord::spaced_pieces))]
fn with_spaces(alloc: Global, encoded: &str) -> Result<String, AllocError>
    ensures { IfOk result (λ text. string_bytes text ≡ spaced encoded.now) }
{
    let mut text = String::with_capacity(alloc, encoded.len())?;
    let mut is_first = true;
    for piece in encoded.split('_') {
        if is_first {
            is_first = false;
        } else {
            text.push(' ')?;
        }
        text.push_str(piece)?;
    }
    Ok(text)
}

/// Decodes an encoded text under `Q`: quoted-printable, with a space for each `_`, that keeps its
/// trailing whitespace.
fn decode_q(alloc: Global, encoded: &str) -> Result<Vec<u8>, AllocError>
    ensures { IfOk result (λ bytes. bytes.items ≡ bytes_of_q encoded.now) }
{
    let text = with_spaces(alloc, encoded)?;
    let text = text.as_str();
    let kept = text.trim_end();
    let mut bytes = decode_quoted_printable(alloc, kept.as_bytes())?;
    bytes.extend_from_slice(&text.as_bytes()[kept.len()..])?;
    Ok(bytes)
}

/// Decodes an encoded text, or returns `None` if the encoding is unknown or the text invalid.
fn decode_encoded(
    alloc: Global,
    encoding: &str,
    encoded: &str,
) -> Result<Option<Vec<u8>>, AllocError>
    ensures { IfOk result (λ bytes.
        option_map (λ b. b.items) bytes ≡ encoded_bytes encoding.now encoded.now) }
{
    match encoding {
        "B" | "b" => Ok(decode_base64(alloc, encoded.as_bytes())?.ok()),
        "Q" | "q" => Ok(Some(decode_q(alloc, encoded)?)),
        _ => Ok(None),
    }
}

/// Returns the text of an encoded word, given the text between its `=?` and its `?=`, or `None` if
/// it does not decode. A byte order mark is not looked for.
pub(crate) fn decode_word<K: KnownCharsets>(
    alloc: Global,
    inside: &str,
    known: &K,
) -> Result<Option<String>, AllocError>
    ensures { IfOk result (λ text.
        option_map string_bytes text ≡ word_text (K.known known.now) inside.now) }
{
    let Some((label, rest)) = cut_at_question_mark(inside) else {
        return Ok(None);
    };
    let Some((encoding, encoded)) = cut_at_question_mark(rest) else {
        return Ok(None);
    };
    let Some(charset) = known.for_label(label.as_bytes()) else {
        return Ok(None);
    };
    let Some(bytes) = decode_encoded(alloc, encoding, encoded)? else {
        return Ok(None);
    };
    let text = charset.into_text_without_bom_handling(alloc, bytes)?;
    Ok(Some(text))
}
