//! File names, read leniently.
ghost use Rattle.std.specs.Prelude.{◌≡◌, option_map, string_bytes, IfOk, Ok};
ghost use Rattle.mail_read.specs.Files.{filled};
ghost use Rattle.mail_read.specs.HeaderNames.{cut_text};
ghost use Rattle.mailparse.specs.Mail.{root};
ghost use Rattle.mailparse.specs.Map.{text_found};
ghost use Rattle.mailparse.specs.Outcome.{AnswersOrMemory};
ghost use Rattle.mailparse.specs.Pairs.{text_at};
ghost use Rattle.mailparse.specs.Views.{tree_of};
ghost use Rattle.mailparse.specs.ExtendedValues.{label_in, text_in};
ghost use Rattle.mail_read.specs.lenient.FileNames.{extended_text, lenient_file_name, name_among};
ghost use Rattle.mail_read.specs.lenient.FileNames.{lenient_name_in, shown_name, typed_name};

use super::guess::{Guess, OrGuess};
use super::manner::Lenient;
use super::repairs::repaired;
use crate::files::{NameReading, cut_text, decoded_name, filled, filled_parameter, name_by};
use mail_codec::charset::{Decode, KnownCharsets};
use mailparse::{MailParseError, ParsedMail, parse_content_disposition_in, parse_content_type_in};
use percent_encoding::percent_decode;
use std::alloc::{AllocError, Global};
use std::collections::BTreeMap;

/// Returns the file name of a part, read leniently: the parameter `filename` of its disposition,
/// otherwise the parameter `name` of its type, or `None` if it has neither (RFC 2183, section 2.3).
///
/// Missing semicolons, closing quotes and apostrophes are put in. An extended value (RFC 2231,
/// section 4), such as `filename*`, counts before one that is not (RFC 6266, section 4.3). If its
/// charset is missing or unknown, its bytes are read as UTF-8 if they are UTF-8, and otherwise as
/// windows-1252. Encoded words in the name are decoded as `lenient_name_text` decodes them, with or
/// without quotes around them.
///
/// The name is as the sender wrote it: use `safe_file_name` before creating a file. Allocates the
/// texts of both headers, their parameters and the name.
///
/// # Errors
///
/// `MailParseError::Memory` if it runs out of memory.
///
/// # Examples
///
/// ```rust
/// use mail_read::lenient::lenient_file_name;
/// use mailparse::parse_mail;
///
/// let raw = b"Content-Disposition: attachment; filename=e.txt; filename*=utf-8''%C3%A9.txt\n\n";
/// let mail = parse_mail(alloc, raw)?;
/// let name = lenient_file_name(alloc, &mail, &())?.ok_or("no name")?;
/// assert_eq!(rt; name.as_str(), "é.txt");
/// let mail = parse_mail(alloc, b"Content-Type: application/pdf name=\"a b.pdf\n\n")?;
/// let name = lenient_file_name(alloc, &mail, &())?.ok_or("no name")?;
/// assert_eq!(rt; name.as_str(), "a b.pdf");
/// ```
#[tactic(auto, unfolding(crate::specs::lenient::FileNames::lenient_file_name))]
pub fn lenient_file_name<K: KnownCharsets>(
    alloc: Global,
    part: &ParsedMail<'_>,
    known: &K,
) -> Result<Option<String>, MailParseError>
    ensures { AnswersOrMemory text_found result
        (Ok (lenient_file_name (K.known known.now) (root (tree_of part.now)))) }
{
    name_by(alloc, part, &Lenient(known), known)
}

/// Returns the file name in the raw values of a disposition and of a type, for callers that have no
/// part; `lenient_file_name` reads that of a part in the same way (RFC 2183, section 2.3).
///
/// Allocates the texts of both values, their parameters and the name.
///
/// # Errors
///
/// `MailParseError::Memory` if it runs out of memory.
///
/// # Examples
///
/// ```rust
/// use mail_read::lenient::lenient_named_file;
///
/// let ctype = b"image/png; name=a.png";
/// let name = lenient_named_file(alloc, b"inline", ctype, &())?;
/// assert_eq!(rt; name.as_deref(), Some("a.png"));
/// let name = lenient_named_file(alloc, b"inline; filename*=''b%2Epng", ctype, &())?;
/// assert_eq!(rt; name.as_deref(), Some("b.png"));
/// ```
#[tactic(auto, unfolding(crate::specs::lenient::FileNames::lenient_name_in))]
pub fn lenient_named_file<K: KnownCharsets>(
    alloc: Global,
    disposition: &[u8],
    ctype: &[u8],
    known: &K,
) -> Result<Option<String>, MailParseError>
    ensures { AnswersOrMemory text_found result
        (Ok (lenient_name_in (K.known known.now) disposition.now ctype.now)) }
{
    let name = match name_shown_in(alloc, disposition, known)? {
        Some(name) => Some(name),
        None => name_typed_in(alloc, ctype, known)?,
    };
    Ok(decoded_name(alloc, name, known)?)
}

/// Returns the file name in the raw value of a disposition, with its encoded words as they are.
fn name_shown_in<K: KnownCharsets>(
    alloc: Global,
    value: &[u8],
    known: &K,
) -> Result<Option<String>, MailParseError>
    ensures { AnswersOrMemory text_found result
        (Ok (shown_name (K.known known.now) (cut_text value.now))) }
{
    let text = cut_text(alloc, value)?;
    shown_name(alloc, text.as_str(), known)
}

/// Returns the file name in the raw value of a type, with its encoded words as they are.
fn name_typed_in<K: KnownCharsets>(
    alloc: Global,
    value: &[u8],
    known: &K,
) -> Result<Option<String>, MailParseError>
    ensures { AnswersOrMemory text_found result
        (Ok (typed_name (K.known known.now) (cut_text value.now))) }
{
    let text = cut_text(alloc, value)?;
    typed_name(alloc, text.as_str(), known)
}

impl<'k, K: KnownCharsets> NameReading for Lenient<'k, K> {
    ghost shown = { λ s text. shown_name (K.known s.0.now) text };

    ghost typed = { λ s text. typed_name (K.known s.0.now) text };

    fn shown_name(&self, alloc: Global, text: &str) -> Result<Option<String>, MailParseError> {
        shown_name(alloc, text, self.0)
    }

    fn typed_name(&self, alloc: Global, text: &str) -> Result<Option<String>, MailParseError> {
        typed_name(alloc, text, self.0)
    }
}

/// Returns the file name in the text of a disposition.
#[tactic(auto, unfolding(crate::specs::lenient::FileNames::shown_name))]
fn shown_name<K: KnownCharsets>(
    alloc: Global,
    text: &str,
    known: &K,
) -> Result<Option<String>, MailParseError>
    ensures { AnswersOrMemory text_found result (Ok (shown_name (K.known known.now) text.now)) }
{
    let text = repaired(alloc, text)?;
    let disposition = parse_content_disposition_in(alloc, text.as_str(), &OrGuess(known))?;
    Ok(name_among(alloc, &disposition.params, "filename", "filename*", known)?)
}

/// Returns the file name in the text of a type.
#[tactic(auto, unfolding(crate::specs::lenient::FileNames::typed_name))]
fn typed_name<K: KnownCharsets>(
    alloc: Global,
    text: &str,
    known: &K,
) -> Result<Option<String>, MailParseError>
    ensures { AnswersOrMemory text_found result (Ok (typed_name (K.known known.now) text.now)) }
{
    let text = repaired(alloc, text)?;
    let ctype = parse_content_type_in(alloc, text.as_str(), &OrGuess(known))?;
    Ok(name_among(alloc, &ctype.params, "name", "name*", known)?)
}

/// Returns the text of an extended key, otherwise that of the other key.
fn name_among<K: KnownCharsets>(
    alloc: Global,
    parameters: &BTreeMap<String, String>,
    key: &str,
    extended: &str,
    known: &K,
) -> Result<Option<String>, AllocError>
    ensures { IfOk result (λ found. text_found found
        ≡ name_among (K.known known.now) (text_at parameters.now) key.now extended.now) }
{
    if let Some(name) = extended_name(alloc, parameters, extended, known)? {
        return Ok(Some(name));
    }
    match filled_parameter(parameters, key) {
        Some(text) => Ok(Some(String::from_str(alloc, text)?)),
        None => Ok(None),
    }
}

/// Returns the text of an extended key, or `None` if it is missing or consists of whitespace.
fn extended_name<K: KnownCharsets>(
    alloc: Global,
    parameters: &BTreeMap<String, String>,
    extended: &str,
    known: &K,
) -> Result<Option<String>, AllocError>
    ensures { IfOk result (λ found. text_found found ≡ filled
        (option_map (extended_text (K.known known.now)) (text_at parameters.now extended.now))) }
{
    match parameters.get(extended) {
        Some(value) => Ok(filled(extended_text(alloc, value.as_str(), known)?)),
        None => Ok(None),
    }
}

/// Returns the text of an extended value.
#[tactic(auto, unfolding(crate::specs::lenient::FileNames::extended_text))]
fn extended_text<K: KnownCharsets>(
    alloc: Global,
    value: &str,
    known: &K,
) -> Result<String, AllocError>
    ensures { IfOk result (λ text.
        string_bytes text ≡ extended_text (K.known known.now) value.now) }
{
    let mut bytes = Vec::new(alloc);
    percent_decode(text_in(value).as_bytes()).append_to(&mut bytes)?;
    match known.for_label(label_in(value).as_bytes()) {
        Some(charset) => charset.decode_without_bom_handling(alloc, bytes.as_slice()),
        None => Guess.decode_without_bom_handling(alloc, bytes.as_slice()),
    }
}

/// Returns the label of an extended value: the text before its first apostrophe, or the whole
/// value.
pub(super) fn label_in(value: &str) -> &str
    ensures { result.now ≡ label_in value.now }
{
    match value.split_once('\'') {
        Some((label, _)) => label,
        None => value,
    }
}

/// Returns the text after the first two apostrophes of an extended value, or `""` if there are
/// fewer.
fn text_in(value: &str) -> &str
    ensures { result.now ≡ text_in value.now }
{
    let Some((_, rest)) = value.split_once('\'') else {
        return "";
    };
    match rest.split_once('\'') {
        Some((_, text)) => text,
        None => "",
    }
}
