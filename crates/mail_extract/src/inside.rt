//! Saving the files of a mail and of the mails inside it, each of which is read in its place.
ghost use Rattle.std.specs.List.{AllByRecursion};
ghost use Rattle.std.specs.Prelude.{◌≡◌, IfErr, IfOk, Ok, false, map, option_map};
ghost use Rattle.mailparse.specs.Views.{placements_of, tree_of};
ghost use Rattle.mail_read.specs.Reading.{mail_placements};
ghost use Rattle.mail_parts.specs.DecodedViews.{IsDecoded, decoded_place};
ghost use Rattle.mail_extract.specs.ChoiceViews.{options_view};
ghost use Rattle.mail_extract.specs.Input.{AreInside, Ends, IsMailOf, Saved};
ghost use Rattle.mail_program.specs.Fault.{IsEnd};
ghost use Rattle.mail_parts.specs.Inside.{mails_among};
ghost use Rattle.mail_parts.specs.Reading.{mails_in_place};

use crate::directory::Directory;
use crate::level::{Level, Saving, Within};
use crate::notes::Notes;
use crate::options::{Source, Target};
use crate::parts::extract_places;
use crate::report::report_refused;
use mail_parts::{Decoded, decoded_parts, mail_in, read_mail};
use mail_program::{Fault, Outcome, refusal_of};
use mail_read::inner_mails::{holds_mail, mail_start, places_under};
use mail_read::places::places;
use mailparse::{KnownCharsets, MAX_LEVELS, ParsedMail};
use std::alloc::Global;
use std::io::Write;

/// Whether the bodies of all parts are decoded: of these only those that are mails are, since the
/// others are decoded when they are saved.
const DECODES_BODIES: bool = false;

/// Saves the chosen files of a mail with this number in its mailbox and of the mails inside it, and
/// writes the line of each after it. The mail is as it was parsed.
pub(crate) fn extract_mail<W: Write, D: Directory, K: KnownCharsets, N: Notes>(
    alloc: Global,
    out: &mut W,
    target: &mut Target<D>,
    mail: &ParsedMail<'_>,
    number: Option<usize>,
    source: Source<'_, K, N>,
) -> Result<Outcome, Fault>
    requires placed { placements_of mail.now ≡ mail_placements (tree_of mail.now) }
    ensures { Ends (D.held target.old.directory) (D.held target.new.directory)
        (W.contents out.old) (W.contents out.new) target.old.number target.new.number result
        (IsMailOf (option_map (λ name. name.now) source.entry.file) D.can_fail
        (options_view source.entry.options) (K.known source.entry.known.now) number
        (Ok (tree_of mail.now))) }
{
    let saving = Saving {
        number,
        level: Level::Own,
    };
    let found = places(alloc, mail)?;
    let parts = decoded_parts(alloc, found.as_slice(), DECODES_BODIES)?;
    let own = extract_places(alloc, out, target, parts.as_slice(), saving, source)?;
    let within = Within {
        number,
        start: Some(0),
        most: MAX_LEVELS,
    };
    Ok(own.and(extract_inside(alloc, out, target, parts.as_slice(), within, source)?))
}

/// Saves the chosen files of the mails that these parts of a mail contain, and of those inside
/// them.
#[cycle(inside)]
fn extract_inside<W: Write, D: Directory, K: KnownCharsets, N: Notes>(
    alloc: Global,
    out: &mut W,
    target: &mut Target<D>,
    parts: &[Decoded<'_, '_, '_>],
    within: Within,
    source: Source<'_, K, N>,
) -> Result<Outcome, Fault>
    ensures saved { AllByRecursion (IsDecoded false) parts.now → IfOk result (λ outcome.
        Saved (D.held target.old.directory) (D.held target.new.directory)
        (W.contents out.old) (W.contents out.new) target.old.number target.new.number outcome
        (AreInside (option_map (λ name. name.now) source.entry.file) D.can_fail
        (options_view source.entry.options) (K.known source.entry.known.now) within.number
        (mails_among (K.known source.entry.known.now) source.entry.options.limit within.most within.start
        (map decoded_place parts.now)))) }
    ensures failed { IfErr result IsEnd }
{
    let mut outcome = Outcome::Clean;
    if within.most == 0 {
        return Ok(outcome);
    }
    for part in parts {
        let deeper = Within {
            number: within.number,
            start: within.start,
            most: within.most - 1,
        };
        outcome = outcome.and(extract_forwarded(alloc, out, target, part, deeper, source)?);
    }
    Ok(outcome)
}

/// Saves the chosen files of the mail that a part of a mail contains, and of those inside it, or
/// writes the line of its refusal.
#[cycle(inside)]
fn extract_forwarded<W: Write, D: Directory, K: KnownCharsets, N: Notes>(
    alloc: Global,
    out: &mut W,
    target: &mut Target<D>,
    part: &Decoded<'_, '_, '_>,
    within: Within,
    source: Source<'_, K, N>,
) -> Result<Outcome, Fault>
    ensures saved { IsDecoded false part.now → IfOk result (λ outcome.
        Saved (D.held target.old.directory) (D.held target.new.directory)
        (W.contents out.old) (W.contents out.new) target.old.number target.new.number outcome
        (AreInside (option_map (λ name. name.now) source.entry.file) D.can_fail
        (options_view source.entry.options) (K.known source.entry.known.now) within.number
        (mails_in_place (K.known source.entry.known.now) source.entry.options.limit within.most within.start
        (decoded_place part.now)))) }
    ensures failed { IfErr result IsEnd }
{
    if !holds_mail(part.place) {
        return Ok(Outcome::Clean);
    }
    let start = mail_start(within.start, part.place, &part.body);
    let path = part.place.path.as_str();
    match read_mail(alloc, mail_in(part), source.options.limit, source.known) {
        Ok(mail) => {
            let saving = Saving {
                number: within.number,
                level: Level::Inside,
            };
            let found = places_under(alloc, &mail, path)?;
            let parts = decoded_parts(alloc, found.as_slice(), DECODES_BODIES)?;
            let own = extract_places(alloc, out, target, parts.as_slice(), saving, source)?;
            let inside = Within {
                number: within.number,
                start,
                most: within.most,
            };
            Ok(own.and(extract_inside(alloc, out, target, parts.as_slice(), inside, source)?))
        }
        Err(error) => {
            let Some(text) = refusal_of(alloc, &error)? else {
                return Err(Fault::Mail(error));
            };
            report_refused(
                out,
                source.file,
                within.number,
                Some(path),
                text.as_str(),
                source.notes,
            )
        }
    }
}
