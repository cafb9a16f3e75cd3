//! The text of names and addresses, without quotes, comments and folding.
ghost use Rattle.std.specs.Prelude.{◌≡◌, ◌++◌, ◌<◌, ◌≤◌, ◌||◌, ◌==◌, false, length, flat_map, IfOk, IsTrue, OnOk, string_bytes};
ghost use Rattle.std.specs.List.{list_all};
ghost use Rattle.mailparse.specs.Outcome.{GivesText};
ghost use Rattle.mailparse.specs.Value.{lenient_value_in, value_text};
ghost use Rattle.mail_address.specs.Accepted.{bare_text};
ghost use Rattle.mail_address.specs.Text.{address_bytes, address_front, address_meaning, bare};
ghost use Rattle.mail_address.specs.Text.{escaped_byte, front_len};
ghost use Rattle.mail_address.specs.Text.{front_meaning, local_text, meaning, needs_no_quotes};
ghost use Rattle.mail_address.specs.Text.{phrase_text, front_word, front_word_len, quoted_text};
ghost use Rattle.mail_address.specs.Text.{unquoted, word_or_space};
ghost use Rattle.mail_address.specs.Text.{word_or_white_len, words_text};
ghost use Rattle.mail_address.specs.Tokens.{dot, is_atom_byte};
ghost use Rattle.mail_address.specs.private.Plain.{IsDotAtom};

use crate::folding::{push_without_white, unfolded};
use crate::mailbox::{after_white, is_dotted, within_ends};
use crate::phrase_words::encoded_len;
use crate::plain::dot_atom_len;
use crate::tokens::{Kind, Span, front_token, is_atom_byte, run};
use mail_codec::charset::{KnownCharsets, decode_latin1};
use mailparse::{MailParseError, value_text_in};
use std::alloc::{AllocError, Global};

/// Appends the bytes without each backslash that quotes the byte after it.
fn push_unquoted(text: &mut Vec<u8>, bytes: &[u8]) -> Result<(), AllocError>
    ensures { OnOk result (text.new.items ≡ text.old.items ++ unquoted false bytes.now) }
{
    let mut is_quoted = false;
    for byte in bytes {
        let byte = *byte;
        if !is_quoted && byte == b'\\' {
            is_quoted = true;
        } else {
            is_quoted = false;
            text.push(byte)?;
        }
    }
    Ok(())
}

/// Appends the meaning of a token.
fn push_meaning(text: &mut Vec<u8>, kind: Kind, bytes: &[u8]) -> Result<(), AllocError>
    ensures { OnOk result (text.new.items ≡ text.old.items ++ meaning kind bytes.now) }
{
    match kind {
        Kind::Quoted => push_unquoted(text, within_ends(bytes)),
        Kind::Blank | Kind::Comment => Ok(()),
        _ => Ok(text.extend_from_slice(bytes)?),
    }
}

/// Appends the meaning of the token at the front, and returns its length.
#[tactic(auto, unfolding(crate::specs::Text::front_len, crate::specs::Text::front_meaning))]
fn push_front(text: &mut Vec<u8>, bytes: &[u8]) -> Result<usize, AllocError>
    ensures pushed { OnOk result
        (text.new.items ≡ text.old.items ++ front_meaning bytes.now) }
    ensures len { IfOk result (λ len. len ≡ front_len bytes.now) }
    ensures bounds { IfOk result (λ len. len ≤ length bytes.now) }
{
    let token = front_token(bytes);
    push_meaning(text, token.kind, &bytes[..token.len])?;
    Ok(token.len)
}

/// Appends the meaning of a token of an address: without folding in a quoted string, and without
/// whitespace in a domain literal.
fn push_address_meaning(
    alloc: Global,
    text: &mut Vec<u8>,
    kind: Kind,
    bytes: &[u8],
) -> Result<(), AllocError>
    ensures { OnOk result (text.new.items ≡ text.old.items ++ address_meaning kind bytes.now) }
{
    match kind {
        Kind::Quoted => {
            let line = unfolded(alloc, bytes)?;
            push_unquoted(text, within_ends(line.as_slice()))
        }
        Kind::Literal => push_without_white(text, bytes),
        _ => push_meaning(text, kind, bytes),
    }
}

/// Appends the meaning of the token at the front of an address, and returns its length.
#[tactic(auto, unfolding(crate::specs::Text::front_len, crate::specs::Text::address_front))]
fn push_address_front(alloc: Global, text: &mut Vec<u8>, bytes: &[u8]) -> Result<usize, AllocError>
    ensures pushed { OnOk result
        (text.new.items ≡ text.old.items ++ address_front bytes.now) }
    ensures len { IfOk result (λ len. len ≡ front_len bytes.now) }
    ensures bounds { IfOk result (λ len. len ≤ length bytes.now) }
{
    let token = front_token(bytes);
    push_address_meaning(alloc, text, token.kind, &bytes[..token.len])?;
    Ok(token.len)
}

/// Returns a local part or a domain without quotes, comments, whitespace and folding.
#[tactic(auto, unfolding(crate::specs::Text::bare))]
fn bare(alloc: Global, bytes: &[u8]) -> Result<Vec<u8>, AllocError>
    ensures { IfOk result (λ text. text.items ≡ bare bytes.now) }
{
    let mut text = Vec::new(alloc);
    let mut rest = bytes;
    'tokens: while !rest.is_empty() {
        let len = push_address_front(alloc, &mut text, rest)?;
        rest = &rest[len..];
    }
    Ok(text)
}

/// Appends the meaning of the word at the front of a phrase, and returns its length: an encoded word
/// stays as it is.
fn push_front_word(text: &mut Vec<u8>, bytes: &[u8]) -> Result<usize, AllocError>
    ensures pushed { OnOk result (text.new.items ≡ text.old.items ++ front_word bytes.now) }
    ensures len { IfOk result (λ len. len ≡ front_word_len bytes.now) }
    ensures bounds { IfOk result (λ len. len ≤ length bytes.now) }
{
    let len = encoded_len(bytes);
    if len == 0 {
        return push_front(text, bytes);
    }
    text.extend_from_slice(&bytes[..len])?;
    Ok(len)
}

/// Appends the meaning of the front of a phrase: a space for whitespace and comments, except at the
/// end. Returns the length of that front.
fn push_word(text: &mut Vec<u8>, bytes: &[u8]) -> Result<usize, AllocError>
    requires { 0 < length bytes.now }
    ensures pushed { OnOk result (text.new.items ≡ text.old.items ++ word_or_space bytes.now) }
    ensures len { IfOk result (λ len. len ≡ word_or_white_len bytes.now) }
    ensures bounds { IfOk result (λ len. len ≤ length bytes.now) }
{
    let white = run(Span::White, bytes);
    if white == 0 {
        return push_front_word(text, bytes);
    }
    if white < bytes.len() {
        text.push(b' ')?;
    }
    Ok(white)
}

/// Returns the text of a phrase, before its encoded words are decoded.
#[tactic(auto, unfolding(crate::specs::Text::phrase_text))]
pub(crate) fn phrase_text(alloc: Global, bytes: &[u8]) -> Result<Vec<u8>, AllocError>
    ensures { IfOk result (λ text. text.items ≡ phrase_text bytes.now) }
{
    words_text(alloc, after_white(bytes))
}

/// Returns the text of a phrase that begins with a word.
fn words_text(alloc: Global, phrase: &[u8]) -> Result<Vec<u8>, AllocError>
    ensures { IfOk result (λ text. text.items ≡ words_text phrase.now) }
{
    let mut text = Vec::with_capacity(alloc, phrase.len())?;
    let mut rest = phrase;
    'words: while !rest.is_empty() {
        let len = push_word(&mut text, rest)?;
        rest = &rest[len..];
    }
    Ok(text)
}

/// Returns whether a local part needs no quotes.
#[tactic(auto, unfolding(crate::specs::Text::needs_no_quotes))]
pub(crate) fn needs_no_quotes(text: &[u8]) -> bool
    ensures { result ≡ needs_no_quotes text.now }
{
    has_atoms_and_dots(text) && is_dotted(Span::Atoms, text)
}

/// Returns whether all bytes are bytes of atoms or dots.
fn has_atoms_and_dots(text: &[u8]) -> bool
    ensures { result ≡ list_all (λ b. is_atom_byte b || b == dot) text.now }
{
    text.iter().all(|byte| is_atom_byte(*byte) || *byte == b'.')
}

/// Appends a text with its quotes and backslashes escaped.
pub(crate) fn push_escaped(out: &mut Vec<u8>, text: &[u8]) -> Result<(), AllocError>
    ensures { OnOk result (out.new.items ≡ out.old.items ++ flat_map escaped_byte text.now) }
{
    for byte in text {
        let byte = *byte;
        if byte == b'"' || byte == b'\\' {
            out.push(b'\\')?;
        }
        out.push(byte)?;
    }
    Ok(())
}

/// Appends a local part in canonical form.
#[tactic(auto, unfolding(crate::specs::Text::local_text, crate::specs::Text::quoted_text))]
fn push_local(alloc: Global, out: &mut Vec<u8>, local_part: &[u8]) -> Result<(), AllocError>
    ensures { OnOk result (out.new.items ≡ out.old.items ++ local_text local_part.now) }
{
    let text = bare(alloc, local_part)?;
    if needs_no_quotes(text.as_slice()) {
        out.extend_from_slice(text.as_slice())?;
        return Ok(());
    }
    out.push(b'"')?;
    push_escaped(out, text.as_slice())?;
    out.push(b'"')?;
    Ok(())
}

/// Returns whether a text is a dot-atom, so that it is its own canonical form.
#[tactic(auto, using(crate::proofs::lemmas::Plain::dot_atom_from))]
fn is_dot_atom(text: &[u8]) -> bool
    ensures { IsTrue result → IsDotAtom text.now }
{
    let len = dot_atom_len(text);
    len != 0 && len == text.len()
}

/// Returns an address in canonical form, as bytes.
#[tactic(auto, using(crate::proofs::lemmas::Plain::plain_address), unfolding(crate::specs::Text::address_bytes))]
fn address_bytes(alloc: Global, local_part: &[u8], domain: &[u8]) -> Result<Vec<u8>, AllocError>
    ensures { IfOk result (λ out. out.items ≡ address_bytes local_part.now domain.now) }
{
    let mut out = Vec::with_capacity(alloc, local_part.len() + domain.len() + 1)?;
    if is_dot_atom(local_part) && is_dot_atom(domain) {
        out.extend_from_slice(local_part)?;
        out.push(b'@')?;
        out.extend_from_slice(domain)?;
        return Ok(out);
    }
    push_local(alloc, &mut out, local_part)?;
    out.push(b'@')?;
    let domain = bare(alloc, domain)?;
    out.extend_from_slice(domain.as_slice())?;
    Ok(out)
}

/// Returns bytes as text: as UTF-8, or as Latin-1 if they are not valid UTF-8.
fn bytes_text(alloc: Global, bytes: Vec<u8>) -> Result<String, AllocError>
    ensures { IfOk result (λ text. string_bytes text ≡ value_text bytes.items) }
{
    match String::from_utf8(bytes) {
        Ok(text) => Ok(text),
        Err(error) => Ok(decode_latin1(alloc, error.as_bytes())?.into_owned(alloc)?),
    }
}

/// Returns a local part or a domain as text.
pub(crate) fn bare_text(alloc: Global, bytes: &[u8]) -> Result<String, AllocError>
    ensures { IfOk result (λ text. string_bytes text ≡ bare_text bytes.now) }
{
    let text = bare(alloc, bytes)?;
    bytes_text(alloc, text)
}

/// Returns an address in canonical form, as text.
pub(crate) fn address_text(
    alloc: Global,
    local_part: &[u8],
    domain: &[u8],
) -> Result<String, AllocError>
    ensures { IfOk result (λ text.
        string_bytes text ≡ value_text (address_bytes local_part.now domain.now)) }
{
    let bytes = address_bytes(alloc, local_part, domain)?;
    bytes_text(alloc, bytes)
}

/// Returns the text of a phrase. Its encoded words are decoded last, in the known charsets.
pub(crate) fn name_text<K: KnownCharsets>(
    alloc: Global,
    phrase: &[u8],
    known: &K,
) -> Result<String, MailParseError>
    ensures { GivesText result
        (lenient_value_in (K.known known.now) (phrase_text phrase.now)) }
{
    let text = phrase_text(alloc, phrase)?;
    value_text_in(alloc, text.as_slice(), known)
}
