//! Saving the files among the parts of a mail.
ghost use Rattle.std.specs.List.{AllByRecursion};
ghost use Rattle.std.specs.Prelude.{◌≡◌, ◌∷◌, [], false, map, option_map, string_bytes};
ghost use Rattle.std.specs.Prelude.{IfErr, IfOk};
ghost use Rattle.mailparse.specs.Mail.{root};
ghost use Rattle.mailparse.specs.Outcome.{IsMemory};
ghost use Rattle.mailparse.specs.Views.{tree_of};
ghost use Rattle.mail_read.specs.FileNames.{IsSafeName};
ghost use Rattle.mail_read.specs.RawPaths.{file_name_or_path};
ghost use Rattle.mail_read.specs.PlaceViews.{place_view};
ghost use Rattle.mail_parts.specs.DecodedViews.{IsDecoded, decoded_place};
ghost use Rattle.mail_extract.specs.ChoiceViews.{choice_view, options_view};
ghost use Rattle.mail_extract.specs.Endings.{ending_of};
ghost use Rattle.mail_extract.specs.Input.{AreFiles, Ends};
ghost use Rattle.mail_extract.specs.Names.{wanted_name};
ghost use Rattle.mail_extract.specs.Save.{chosen, is_chosen, wanted_among, wanted_as};

use crate::choice::Choice;
use crate::directory::Directory;
use crate::endings::ending_of;
use crate::level::{Level, Saving, is_contained};
use crate::names::wanted_name;
use crate::notes::Notes;
use crate::options::{Source, Target};
use crate::report::report_saved;
use crate::save::save_part;
use crate::texts::extract_text;
use mail_parts::Decoded;
use mail_program::{Fault, Outcome};
use mail_read::files::{file_name_or_path, is_extracted};
use mail_read::places::Place;
use mailparse::{KnownCharsets, MailParseError, ParsedMail};
use std::alloc::{AllocError, Global};
use std::io::Write;

/// Saves the chosen files among some parts, and writes the line of each after it.
pub(crate) fn extract_places<W: Write, D: Directory, K: KnownCharsets, N: Notes>(
    alloc: Global,
    out: &mut W,
    target: &mut Target<D>,
    parts: &[Decoded<'_, '_, '_>],
    saving: Saving,
    source: Source<'_, K, N>,
) -> Result<Outcome, Fault>
    requires { AllByRecursion (IsDecoded false) parts.now }
    ensures { Ends (D.held target.old.directory) (D.held target.new.directory)
        (W.contents out.old) (W.contents out.new) target.old.number target.new.number result
        (AreFiles (option_map (λ name. name.now) source.entry.file) D.can_fail
        (options_view source.entry.options) saving.number
        (chosen (options_view source.entry.options).choice
        (wanted_among (K.known source.entry.known.now) source.entry.options.limit saving.level
        (map decoded_place parts.now)))) }
{
    let mut outcome = Outcome::Clean;
    for part in parts {
        outcome = outcome.and(extract_place(alloc, out, target, part, saving, source)?);
    }
    Ok(outcome)
}

/// Saves a part if it is a chosen file, or otherwise the chosen files in its text, and writes the
/// line of each after it.
fn extract_place<W: Write, D: Directory, K: KnownCharsets, N: Notes>(
    alloc: Global,
    out: &mut W,
    target: &mut Target<D>,
    part: &Decoded<'_, '_, '_>,
    saving: Saving,
    source: Source<'_, K, N>,
) -> Result<Outcome, Fault>
    requires { IsDecoded false part.now }
    ensures { Ends (D.held target.old.directory) (D.held target.new.directory)
        (W.contents out.old) (W.contents out.new) target.old.number target.new.number result
        (AreFiles (option_map (λ name. name.now) source.entry.file) D.can_fail
        (options_view source.entry.options) saving.number
        (chosen (options_view source.entry.options).choice
        (wanted_among (K.known source.entry.known.now) source.entry.options.limit saving.level
        (decoded_place part.now ∷ [])))) }
{
    let place = part.place;
    if !is_extracted(alloc, place.part, source.known)? {
        return extract_text(alloc, out, target, place, saving.number, source);
    }
    let name = name_of(alloc, place.part, source.known)?;
    if !is_kept(
        alloc,
        place,
        name.as_str(),
        saving.level,
        source.options.choice,
    )? {
        return Ok(Outcome::Clean);
    }
    let saved = save_part(alloc, target, part, name, source.options)?;
    report_saved(out, &saved, source.file, saving.number, source.notes)
}

/// Returns whether the choice keeps a part as a file with this wanted name.
fn is_kept(
    alloc: Global,
    place: &Place<'_, '_>,
    name: &str,
    level: Level,
    choice: Choice<'_>,
) -> Result<bool, AllocError>
    ensures { IfOk result (λ is. is ≡ is_chosen (choice_view choice.entry)
        (wanted_as level (place_view place.now) name.now)) }
{
    let is = choice.keeps(alloc, place.path.as_str(), type_of(place.part), name)?;
    Ok(is && (!is_contained(level, place.part) || choice.path.is_some()))
}

/// Returns the type of a part.
fn type_of<'p>(part: &'p ParsedMail<'_>) -> &'p str
    ensures { result.now ≡ (root (tree_of part.now)).ctype.mimetype }
{
    part.ctype.mimetype.as_str()
}

/// Returns the wanted name of the file that a part is.
fn name_of<K: KnownCharsets>(
    alloc: Global,
    part: &ParsedMail<'_>,
    known: &K,
) -> Result<String, MailParseError>
    ensures read { IfOk result (λ text. string_bytes text
        ≡ wanted_name (file_name_or_path (K.known known.now) (root (tree_of part.now)))
        (ending_of (root (tree_of part.now)))) }
    ensures safe { IfOk result (λ text. IsSafeName (string_bytes text)) }
    ensures only_memory { IfErr result IsMemory }
{
    let name = file_name_or_path(alloc, part, known)?;
    Ok(wanted_name(alloc, name, ending_of(part))?)
}
