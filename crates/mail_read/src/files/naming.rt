//! The file name of a part, however names are read in the texts of its headers.
ghost use Rattle.std.specs.Prelude.{◌≡◌, ◌==◌, List, Option, codes, ℕ, IfOk, Ok};
ghost use Rattle.std.specs.Cow.{cow_str_bytes};
ghost use Rattle.std.specs.List.{list_any};
ghost use Rattle.mail_codec.specs.Ascii.{semicolon};
ghost use Rattle.mailparse.specs.ContentType.{content_type_in};
ghost use Rattle.mailparse.specs.Disposition.{disposition_in};
ghost use Rattle.mailparse.specs.Mail.{root};
ghost use Rattle.mailparse.specs.Map.{text_found};
ghost use Rattle.mailparse.specs.Outcome.{AnswersOrMemory, GivesText};
ghost use Rattle.mailparse.specs.Views.{tree_of};
ghost use Rattle.mail_read.specs.Files.{shown_name, typed_name};
ghost use Rattle.mail_read.specs.HeaderNames.{cut_text, decoded_name, name_by, name_from};
ghost use Rattle.mail_read.specs.RawPaths.{with_paths_escaped};
ghost use Rattle.mail_read.specs.lenient.FileNames as names;

use super::no_charsets::NoCharsets;
use super::paths::with_paths_escaped;
use super::{filled, shown_name, text_of_octets, typed_name};
use crate::lenient::{Lenient, lenient_name_text, undecoded};
use mail_codec::bytescan::find_byte;
use mail_codec::charset::KnownCharsets;
use mailparse::{
    MailHeader, MailHeaderMap, MailParseError, ParsedMail, Strict, parse_content_disposition_in,
    parse_content_type_in,
};
use std::alloc::{AllocError, Global};
use std::borrow::CowStr;

/// How a file name is read in the texts of a disposition and a type.
pub(crate) trait NameReading {
    // The name in the text of a disposition.
    ghost shown: { Self → List ℕ → Option (List ℕ) };

    // The name in the text of a type.
    ghost typed: { Self → List ℕ → Option (List ℕ) };

    /// Returns the file name in the text of a disposition.
    fn shown_name(&self, alloc: Global, text: &str) -> Result<Option<String>, MailParseError>
        ensures { AnswersOrMemory text_found result (Ok (shown self.now text.now)) };

    /// Returns the file name in the text of a type.
    fn typed_name(&self, alloc: Global, text: &str) -> Result<Option<String>, MailParseError>
        ensures { AnswersOrMemory text_found result (Ok (typed self.now text.now)) };
}

impl<'k, K: KnownCharsets> NameReading for Strict<'k, K> {
    ghost shown = { λ s text. shown_name (disposition_in (K.known s.0.now) text) };

    ghost typed = { λ s text. typed_name (content_type_in (K.known s.0.now) text) };

    fn shown_name(&self, alloc: Global, text: &str) -> Result<Option<String>, MailParseError> {
        if !has_semicolon(text) {
            return Ok(None);
        }
        let disposition = parse_content_disposition_in(alloc, text, self.0)?;
        Ok(shown_name(alloc, &disposition)?)
    }

    fn typed_name(&self, alloc: Global, text: &str) -> Result<Option<String>, MailParseError> {
        if !has_semicolon(text) {
            return Ok(None);
        }
        let ctype = parse_content_type_in(alloc, text, self.0)?;
        Ok(typed_name(alloc, &ctype)?)
    }
}

/// Returns whether a text contains a semicolon; one without has no parameters.
#[tactic(auto, using(crate::proofs::lemmas::FileTexts::semicolon_found))]
fn has_semicolon(text: &str) -> bool
    ensures { result ≡ list_any (λ b. b == semicolon) text.now }
{
    find_byte(text.as_bytes(), b';').is_some()
}

/// Names in which the backslashes of Windows paths are no escapes.
#[derive(Drop)]
pub(super) struct WithPaths<'k, K>(pub &'k K);

impl<'k, K: KnownCharsets> NameReading for WithPaths<'k, K> {
    ghost shown = { λ s text. names.shown_name (K.known s.0.now) (with_paths_escaped text) };

    ghost typed = { λ s text. names.typed_name (K.known s.0.now) (with_paths_escaped text) };

    fn shown_name(&self, alloc: Global, text: &str) -> Result<Option<String>, MailParseError> {
        let text = with_paths_escaped(alloc, text)?;
        Lenient(self.0).shown_name(alloc, text.as_str())
    }

    fn typed_name(&self, alloc: Global, text: &str) -> Result<Option<String>, MailParseError> {
        let text = with_paths_escaped(alloc, text)?;
        Lenient(self.0).typed_name(alloc, text.as_str())
    }
}

/// Returns the file name of a part: the one that is read in its disposition, otherwise the one in
/// its type, with its encoded words decoded.
pub(crate) fn name_by<N: NameReading, K: KnownCharsets>(
    alloc: Global,
    part: &ParsedMail<'_>,
    reading: &N,
    known: &K,
) -> Result<Option<String>, MailParseError>
    ensures { AnswersOrMemory text_found result (Ok (name_by (K.known known.now)
        (N.shown reading.now) (N.typed reading.now) (root (tree_of part.now)))) }
{
    let name = match shown_name_of(alloc, part, reading)? {
        Some(name) => Some(name),
        None => typed_name_of(alloc, part, reading)?,
    };
    Ok(decoded_name(alloc, name, known)?)
}

/// Returns a file name that was found, with its encoded words decoded.
pub(crate) fn decoded_name<K: KnownCharsets>(
    alloc: Global,
    found: Option<String>,
    known: &K,
) -> Result<Option<String>, AllocError>
    ensures { IfOk result (λ name.
        text_found name ≡ decoded_name (K.known known.now) (text_found found)) }
{
    match found {
        Some(name) => Ok(filled(lenient_name_text(alloc, name.as_bytes(), known)?)),
        None => Ok(None),
    }
}

/// Returns the text of a raw value with its encoded words as they are.
#[tactic(auto, unfolding(crate::specs::HeaderNames::cut_text))]
pub(crate) fn cut_text(alloc: Global, value: &[u8]) -> Result<String, MailParseError>
    ensures { GivesText result (cut_text value.now) }
{
    let text = text_of_octets(alloc, value)?;
    undecoded(alloc, text.as_bytes())
}

/// Returns the text of the value of a header with its encoded words as they are, borrowed if it is
/// plain.
#[tactic(auto, using(crate::proofs::lemmas::FileTexts::cut_ascii))]
fn cut_value<'h>(alloc: Global, header: &'h MailHeader<'_>) -> Result<CowStr<'h>, MailParseError>
    ensures { AnswersOrMemory cow_str_bytes result (Ok (cut_text header.now.value)) }
{
    let raw = header.get_value_raw();
    if raw.is_ascii() {
        return Ok(header.get_value_ref_in(alloc, &NoCharsets)?);
    }
    Ok(CowStr::Owned(cut_text(alloc, raw)?))
}

/// Returns the file name in the disposition of a part, with its encoded words as they are.
fn shown_name_of<N: NameReading>(
    alloc: Global,
    part: &ParsedMail<'_>,
    reading: &N,
) -> Result<Option<String>, MailParseError>
    ensures { AnswersOrMemory text_found result (Ok (name_from (N.shown reading.now)
        (codes "Content-Disposition") (root (tree_of part.now)))) }
{
    let Some(header) = part.headers.get_first_header("Content-Disposition") else {
        return Ok(None);
    };
    let value = cut_value(alloc, header)?;
    reading.shown_name(alloc, value.as_str())
}

/// Returns the file name in the type of a part, with its encoded words as they are.
fn typed_name_of<N: NameReading>(
    alloc: Global,
    part: &ParsedMail<'_>,
    reading: &N,
) -> Result<Option<String>, MailParseError>
    ensures { AnswersOrMemory text_found result (Ok (name_from (N.typed reading.now)
        (codes "Content-Type") (root (tree_of part.now)))) }
{
    let Some(header) = part.headers.get_first_header("Content-Type") else {
        return Ok(None);
    };
    let value = cut_value(alloc, header)?;
    reading.typed_name(alloc, value.as_str())
}
