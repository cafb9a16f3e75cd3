//! The list of the parts.
ghost use Rattle.std.specs.Prelude.{◌≡◌, ◌++◌, flat_map, string_bytes, IfErr, OnOk};
ghost use Rattle.mailparse.specs.Mail.{root};
ghost use Rattle.mailparse.specs.Outcome.{GivesText, IsMemory};
ghost use Rattle.mailparse.specs.Views.{placements_of, tree_of};
ghost use Rattle.mail_read.specs.PartPlaces.{places};
ghost use Rattle.mail_read.specs.PlaceViews.{place_view};
ghost use Rattle.mail_view.specs.Line.{empty, line_text, lines_text};
ghost use Rattle.mail_view.specs.View.{decoded_size, part_lines, part_size, part_text};

use crate::line::{Prefix, push_empty_line, push_line};
use crate::row::{row_of, size_text};
use mail_read::files::is_leaf;
use mail_read::lenient::{lenient_body, lenient_content, lenient_file_name, was_kept};
use mail_read::places::{Place, places};
use mailparse::{KnownCharsets, MailParseError, ParsedMail};
use std::alloc::Global;

/// Appends an empty line, and a line for each part that has no parts of its own.
pub(crate) fn push_parts<K: KnownCharsets>(
    alloc: Global,
    shown: &mut String,
    mail: &ParsedMail<'_>,
    known: &K,
) -> Result<(), MailParseError>
    ensures written { OnOk result (string_bytes shown.new ≡ string_bytes shown.old
        ++ (line_text empty ++ lines_text (flat_map (part_lines (K.known known.now))
        (places (tree_of mail.now) (placements_of mail.now))))) }
    ensures only_memory { IfErr result IsMemory }
{
    push_empty_line(shown)?;
    for place in &places(alloc, mail)? {
        push_part(alloc, shown, place, known)?;
    }
    Ok(())
}

/// Appends the line of a part, or nothing if it has parts.
fn push_part<K: KnownCharsets>(
    alloc: Global,
    shown: &mut String,
    place: &Place<'_, '_>,
    known: &K,
) -> Result<(), MailParseError>
    ensures written { OnOk result (string_bytes shown.new ≡ string_bytes shown.old
        ++ lines_text (part_lines (K.known known.now) (place_view place.now))) }
    ensures only_memory { IfErr result IsMemory }
{
    if !is_leaf(place.part) {
        return Ok(());
    }
    let text = part_text(alloc, place, known)?;
    push_line(shown, Prefix::Part, text.as_str())?;
    Ok(())
}

/// Returns the description of a part.
fn part_text<K: KnownCharsets>(
    alloc: Global,
    place: &Place<'_, '_>,
    known: &K,
) -> Result<String, MailParseError>
    ensures { GivesText result (part_text (K.known known.now) (place_view place.now)) }
{
    let part = place.part;
    let size = part_size(alloc, part)?;
    let name = lenient_file_name(alloc, part, known)?;
    let mimetype = part.ctype.mimetype.as_str();
    Ok(row_of(
        alloc,
        place.path.as_str(),
        mimetype,
        size.as_str(),
        name.as_deref(),
    )?)
}

/// Returns the size of the decoded body of a part as text, whether it is damaged, and whether the
/// headers of the part could not be read.
fn part_size(alloc: Global, part: &ParsedMail<'_>) -> Result<String, MailParseError>
    ensures { GivesText result (part_size (root (tree_of part.now))) }
{
    let mut size = decoded_size(alloc, part)?;
    if was_kept(part) {
        size.push_str(", headers not read")?;
    }
    Ok(size)
}

/// Returns the size of the decoded body of a part as text, and whether it is damaged.
fn decoded_size(alloc: Global, part: &ParsedMail<'_>) -> Result<String, MailParseError>
    ensures { GivesText result (decoded_size (root (tree_of part.now))) }
{
    let body = lenient_body(alloc, part)?;
    let content = lenient_content(alloc, &body)?;
    let size = content.bytes.len();
    let is_damaged = content.fault.is_some();
    Ok(size_text(alloc, size, is_damaged)?)
}
