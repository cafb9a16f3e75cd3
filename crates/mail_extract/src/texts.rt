//! Saving the uuencoded files in the texts of a mail.
ghost use Rattle.std.specs.Prelude.{◌≡◌, ◌∷◌, [], codes, map, option_map, string_bytes};
ghost use Rattle.std.specs.Prelude.{IfErr, IfOk, Some};
ghost use Rattle.mailparse.specs.Mail.{root};
ghost use Rattle.mailparse.specs.Outcome.{IsMemory};
ghost use Rattle.mailparse.specs.Views.{tree_of};
ghost use Rattle.mail_read.specs.FileNames.{IsSafeName};
ghost use Rattle.mail_read.specs.Files.{text_of_octets};
ghost use Rattle.mail_read.specs.PlaceViews.{place_view};
ghost use Rattle.mail_data.specs.TextFileViews.{text_file_view};
ghost use Rattle.mail_read.specs.lenient.Content.{message_content};
ghost use Rattle.mail_read.specs.lenient.ContentViews.{content_view};
ghost use Rattle.mail_extract.specs.ChoiceViews.{options_view};
ghost use Rattle.mail_extract.specs.Input.{AreFiles, Ends};
ghost use Rattle.mail_extract.specs.Names.{wanted_name};
ghost use Rattle.mail_extract.specs.Save.{chosen, text_wanted, texts_wanted, wanted_texts};

use crate::content::file_content;
use crate::directory::Directory;
use crate::names::wanted_name;
use crate::notes::Notes;
use crate::options::{Source, Target};
use crate::report::report_saved;
use crate::save::save_file;
use mail_data::text_files::{TextFile, is_plain_text, text_file_path, text_files};
use mail_program::{Fault, Outcome};
use mail_read::lenient::{Content, lenient_body, lenient_content};
use mail_read::places::Place;
use mailparse::{KnownCharsets, MailParseError, ParsedMail};
use std::alloc::{AllocError, Global};
use std::io::Write;

/// The type of a file in a text, which has none of its own.
const TYPE: &str = "application/octet-stream";

/// Saves the chosen files in the text of a part of the mail with this number, if it is a plain text,
/// and writes the line of each after it.
pub(crate) fn extract_text<W: Write, D: Directory, K: KnownCharsets, N: Notes>(
    alloc: Global,
    out: &mut W,
    target: &mut Target<D>,
    place: &Place<'_, '_>,
    number: Option<usize>,
    source: Source<'_, K, N>,
) -> Result<Outcome, Fault>
    ensures { Ends (D.held target.old.directory) (D.held target.new.directory)
        (W.contents out.old) (W.contents out.new) target.old.number target.new.number result
        (AreFiles (option_map (λ name. name.now) source.entry.file) D.can_fail
        (options_view source.entry.options) number
        (chosen (options_view source.entry.options).choice
        (wanted_texts source.entry.options.limit (place_view place.now)))) }
{
    if !is_plain_text(place.part) {
        return Ok(Outcome::Clean);
    }
    let content = read_text(alloc, place.part)?;
    let files = text_files(alloc, content.bytes.as_slice(), source.options.limit)?;
    extract_files(
        alloc,
        out,
        target,
        place.path.as_str(),
        files.as_slice(),
        number,
        source,
    )
}

/// Returns the decoded body of a part.
fn read_text<'m>(alloc: Global, part: &'m ParsedMail<'_>) -> Result<Content<'m>, MailParseError>
    ensures read { IfOk result (λ read.
        content_view read ≡ message_content (root (tree_of part.now))) }
    ensures only_memory { IfErr result IsMemory }
{
    let body = lenient_body(alloc, part)?;
    lenient_content(alloc, &body)
}

/// Saves the chosen files in the text of the part with this path, and writes the line of each after
/// it.
fn extract_files<W: Write, D: Directory, K: KnownCharsets, N: Notes>(
    alloc: Global,
    out: &mut W,
    target: &mut Target<D>,
    path: &str,
    files: &[TextFile<'_>],
    number: Option<usize>,
    source: Source<'_, K, N>,
) -> Result<Outcome, Fault>
    ensures { Ends (D.held target.old.directory) (D.held target.new.directory)
        (W.contents out.old) (W.contents out.new) target.old.number target.new.number result
        (AreFiles (option_map (λ name. name.now) source.entry.file) D.can_fail
        (options_view source.entry.options) number
        (chosen (options_view source.entry.options).choice
        (texts_wanted path.now 1 (map text_file_view files.now)))) }
{
    let mut outcome = Outcome::Clean;
    let mut position = 0;
    for file in files {
        position += 1;
        let path = text_file_path(alloc, path, position)?;
        outcome = outcome.and(extract_file(alloc, out, target, path, file, number, source)?);
    }
    Ok(outcome)
}

/// Saves a file in a text, which has this path, if it is chosen, and writes its line.
fn extract_file<W: Write, D: Directory, K: KnownCharsets, N: Notes>(
    alloc: Global,
    out: &mut W,
    target: &mut Target<D>,
    path: String,
    file: &TextFile<'_>,
    number: Option<usize>,
    source: Source<'_, K, N>,
) -> Result<Outcome, Fault>
    ensures { Ends (D.held target.old.directory) (D.held target.new.directory)
        (W.contents out.old) (W.contents out.new) target.old.number target.new.number result
        (AreFiles (option_map (λ name. name.now) source.entry.file) D.can_fail
        (options_view source.entry.options) number
        (chosen (options_view source.entry.options).choice
        (text_wanted (string_bytes path) (text_file_view file.now) ∷ []))) }
{
    let name = name_of(alloc, file)?;
    let choice = source.options.choice;
    if !choice.keeps(alloc, path.as_str(), TYPE, name.as_str())? {
        return Ok(Outcome::Clean);
    }
    let content = file.content(alloc)?;
    let content = file_content(content);
    let saved = save_file(alloc, target, path, &content, name, source.options)?;
    report_saved(out, &saved, source.file, number, source.notes)
}

/// Returns the wanted name of a file in a text.
fn name_of(alloc: Global, file: &TextFile<'_>) -> Result<String, AllocError>
    ensures read { IfOk result (λ name. string_bytes name
        ≡ wanted_name (Some (text_of_octets (text_file_view file.now).name)) []) }
    ensures safe { IfOk result (λ name. IsSafeName (string_bytes name)) }
{
    let name = file.file_name(alloc)?;
    wanted_name(alloc, Some(name), "")
}
