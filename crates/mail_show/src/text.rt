//! The text that shows a message.
ghost use Rattle.std.specs.Prelude.{◌≡◌, ◌++◌, length, string_bytes, IfErr, IfOk, OnOk};
ghost use Rattle.mail_show.specs.Text.{header_line, mail_text, part_line, part_text};
ghost use Rattle.mailparse.specs.Mail.{root};
ghost use Rattle.mailparse.specs.Outcome.{GivesText, IsMemory};
ghost use Rattle.mailparse.specs.Views.{tree_of};

use mailparse::{MailHeader, MailParseError, ParsedMail};
use std::alloc::{AllocError, Global};

/// Returns the text of a message and its parts, each before its own parts: a line for each part,
/// and one for each of its headers. Allocates the text.
///
/// # Errors
///
/// `MailParseError::Memory` if it runs out of memory.
pub fn text_of(alloc: Global, parsed: &ParsedMail<'_>) -> Result<String, MailParseError>
    ensures { GivesText result (mail_text (tree_of parsed.now)) }
{
    let mut text = String::new(alloc);
    for (number, part) in parsed.parts(alloc)?.enumerate() {
        push_part(alloc, &mut text, number, part)?;
    }
    Ok(text)
}

/// Writes the text of the part with this number: its line, and one for each of its headers.
fn push_part(
    alloc: Global,
    text: &mut String,
    number: usize,
    part: &ParsedMail<'_>,
) -> Result<(), MailParseError>
    ensures written { OnOk result (string_bytes text.new
        ≡ string_bytes text.old ++ part_text number (root (tree_of part.now))) }
    ensures only_memory { IfErr result IsMemory }
{
    let headers = part.headers.len();
    let body = body_length(alloc, part)?;
    push_part_line(text, number, part.ctype.mimetype.as_str(), headers, body)?;
    for field in &part.headers {
        push_header_line(alloc, text, field)?;
    }
    Ok(())
}

/// Writes the line of the part with this number: its type, the number of its headers, and the size
/// of its body.
#[tactic(auto, unfolding(crate::specs::Text::part_line))]
fn push_part_line(
    text: &mut String,
    number: usize,
    mimetype: &str,
    headers: usize,
    body: usize,
) -> Result<(), AllocError>
    ensures { OnOk result (string_bytes text.new
        ≡ string_bytes text.old ++ part_line number mimetype.now headers body) }
{
    write!(
        text,
        "part {number}: {mimetype}, {headers} headers, {body} body bytes\n"
    )
}

/// Returns the size of the encoded body.
fn body_length(alloc: Global, part: &ParsedMail<'_>) -> Result<usize, MailParseError>
    ensures read { IfOk result (λ count. count ≡ length (root (tree_of part.now)).body) }
    ensures only_memory { IfErr result IsMemory }
{
    Ok(part.get_body_encoded(alloc)?.get_raw().len())
}

/// Writes the line of a header: the texts of its key and of its value.
#[tactic(auto, unfolding(crate::specs::Text::header_line))]
fn push_header_line(
    alloc: Global,
    text: &mut String,
    field: &MailHeader<'_>,
) -> Result<(), MailParseError>
    ensures written { OnOk result
        (string_bytes text.new ≡ string_bytes text.old ++ header_line field.now) }
    ensures only_memory { IfErr result IsMemory }
{
    text.push_str("  ")?;
    text.push_str(field.get_key_ref(alloc)?.as_str())?;
    text.push_str(": ")?;
    text.push_str(field.get_value(alloc)?.as_str())?;
    text.push('\n')?;
    Ok(())
}
