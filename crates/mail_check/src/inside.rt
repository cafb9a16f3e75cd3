//! The findings of the mails inside a mail.
ghost use Rattle.std.specs.Prelude.{◌≡◌, ◌++◌, [], ◌∷◌, IfErr, IfOk, OnOk, flat_map, map};
ghost use Rattle.std.specs.Prelude.{Some, option_map, string_bytes};
ghost use Rattle.mailparse.specs.BodyViews.{Content};
ghost use Rattle.mailparse.specs.Outcome.{AnswersOrMemory, IsMemory};
ghost use Rattle.mailparse.specs.Placement.{placements};
ghost use Rattle.mailparse.specs.Views.{placements_of, tree_of};
ghost use Rattle.mail_read.specs.PlaceViews.{place_view};
ghost use Rattle.mail_read.specs.lenient.Encoding.{LenientKind};
ghost use Rattle.mail_read.specs.lenient.EncodingViews.{IsLenientBody};
ghost use Rattle.mail_check.specs.FindingViews.{finding_view};
ghost use Rattle.mail_check.specs.Inside.{inner_mail, inside_findings, mail_in, moved, path_shown};
ghost use Rattle.mail_check.specs.Inside.{places_in, plain_bytes, tree_findings};

use crate::listing::{Finding, push_messages, push_refused};
use mail_codec::charset::KnownCharsets;
use mail_read::inner_mails::{holds_mail, places_under};
use mail_read::lenient::{LenientBody, lenient_body};
use mail_read::places::Place;
use mail_read::reading::DEFAULT_LIMIT;
use mailparse::body::Body;
use mailparse::{MAX_LEVELS, MailParseError, ParsedMail, Strict, parse_mail_within};
use std::alloc::{AllocError, Global};

/// Appends the findings of the mails that some messages forward, at most `most` mails deep.
#[cycle(inside)]
pub(crate) fn push_inside<K: KnownCharsets>(
    alloc: Global,
    found: &mut Vec<Finding>,
    messages: &[Place<'_, '_>],
    most: u8,
    known: &K,
) -> Result<(), MailParseError>
    ensures written { OnOk result (map finding_view found.new.items
        ≡ map finding_view found.old.items
        ++ flat_map (inside_findings (K.known known.now) most) (map place_view messages.now)) }
    ensures only_memory { IfErr result IsMemory }
{
    for place in messages {
        push_forwarded(alloc, found, place, most, known)?;
    }
    Ok(())
}

/// Appends the findings of the mail that a message forwards, if there is one, and of those inside
/// it, at most `most` mails deep.
#[cycle(inside)]
fn push_forwarded<K: KnownCharsets>(
    alloc: Global,
    found: &mut Vec<Finding>,
    place: &Place<'_, '_>,
    most: u8,
    known: &K,
) -> Result<(), MailParseError>
    ensures written { OnOk result (map finding_view found.new.items
        ≡ map finding_view found.old.items
        ++ inside_findings (K.known known.now) most (place_view place.now)) }
    ensures only_memory { IfErr result IsMemory }
{
    if most == 0 {
        return Ok(());
    }
    let Some(raw) = mail_in(alloc, place)? else {
        return Ok(());
    };
    match read_boxed(alloc, raw, known) {
        Ok(mail) => push_tree(alloc, found, place, &mail, most - 1, known),
        Err(error) => push_refused(alloc, found, place, raw.len(), error),
    }
}

/// Appends the findings of a mail in the body of a message, and of those inside it, at most `most`
/// mails deep.
#[cycle(inside)]
fn push_tree<K: KnownCharsets>(
    alloc: Global,
    found: &mut Vec<Finding>,
    place: &Place<'_, '_>,
    mail: &ParsedMail<'_>,
    most: u8,
    known: &K,
) -> Result<(), MailParseError>
    ensures written { placements_of mail.now ≡ placements 0 (tree_of mail.now) →
        OnOk result (map finding_view found.new.items ≡ map finding_view found.old.items
        ++ tree_findings (K.known known.now) (inside_findings (K.known known.now) most)
        (place_view place.now) (tree_of mail.now)) }
    ensures only_memory { IfErr result IsMemory }
{
    let messages = places_in(alloc, place, mail)?;
    push_messages(alloc, found, messages.as_slice(), known)?;
    push_inside(alloc, found, messages.as_slice(), most, known)
}

/// Returns the bytes of the mail that a message forwards, if it is not encoded.
fn mail_in<'m>(alloc: Global, place: &Place<'m, '_>) -> Result<Option<&'m [u8]>, MailParseError>
    ensures read { IfOk result (λ raw.
        option_map (λ bytes. bytes.now) raw ≡ mail_in (place_view place.now)) }
    ensures only_memory { IfErr result IsMemory }
{
    if !holds_mail(place) {
        return Ok(None);
    }
    let body = lenient_body(alloc, place.part)?;
    Ok(plain_bytes(&body))
}

/// Returns the bytes of a body, if it is not encoded.
fn plain_bytes<'b>(body: &LenientBody<'b>) -> Option<&'b [u8]>
    ensures { (kind : LenientKind) (given : Content) → IsLenientBody kind given body.now →
        option_map (λ bytes. bytes.now) result ≡ plain_bytes kind given.raw }
{
    match body {
        LenientBody::Standard(Body::SevenBit(text) | Body::EightBit(text)) => Some(text.get_raw()),
        LenientBody::Standard(Body::Binary(bytes)) => Some(bytes.get_raw()),
        LenientBody::Standard(Body::Base64(_) | Body::QuotedPrintable(_)) => None,
        LenientBody::Uuencode(_) => None,
    }
}

/// Reads a mail inside a mail, into a box. It is not inlined, so that mails inside one another need
/// less stack.
#[inline(never)]
fn read_boxed<'a, K: KnownCharsets>(
    alloc: Global,
    raw: &'a [u8],
    known: &K,
) -> Result<Box<ParsedMail<'a>>, MailParseError>
    ensures read { AnswersOrMemory (λ mail. tree_of mail.value) result
        (inner_mail (K.known known.now) raw.now) }
    ensures places { IfOk result (λ mail.
        placements_of mail.value ≡ placements 0 (tree_of mail.value)) }
{
    let mail = parse_mail_within(alloc, raw, MAX_LEVELS, DEFAULT_LIMIT, &Strict(known))?;
    Ok(boxed(alloc, mail)?)
}

/// Moves a mail into a box.
fn boxed<'a>(alloc: Global, mail: ParsedMail<'a>) -> Result<Box<ParsedMail<'a>>, AllocError>
    ensures { IfOk result (λ boxed. boxed.value ≡ mail.entry) }
{
    let boxed = Box::new(alloc, mail)?;
    Ok(boxed)
}

/// Returns the messages of a mail in the body of one, with their ranges in the whole mail. It is not
/// inlined, so that mails inside one another need less stack.
#[inline(never)]
fn places_in<'m, 'a>(
    alloc: Global,
    place: &Place<'_, '_>,
    mail: &'m ParsedMail<'a>,
) -> Result<Vec<Place<'m, 'a>>, AllocError>
    ensures { placements_of mail.now ≡ placements 0 (tree_of mail.now) →
        IfOk result (λ found. map place_view found.items
        ≡ places_in (place_view place.now) (tree_of mail.now)) }
{
    let messages = places_under(alloc, mail, place.path.as_str())?;
    moved_places(alloc, messages.as_slice(), place)
}

/// Returns the messages of a mail in the body of another one, as they are in that one.
fn moved_places<'m, 'a>(
    alloc: Global,
    messages: &[Place<'m, 'a>],
    outer: &Place<'_, '_>,
) -> Result<Vec<Place<'m, 'a>>, AllocError>
    ensures { IfOk result (λ found. map place_view found.items
        ≡ map (moved (place_view outer.now)) (map place_view messages.now)) }
{
    let mut found = Vec::new(alloc);
    for place in messages {
        push_moved(alloc, &mut found, place, outer)?;
    }
    Ok(found)
}

/// Appends such a message.
fn push_moved<'m, 'a>(
    alloc: Global,
    found: &mut Vec<Place<'m, 'a>>,
    place: &Place<'m, 'a>,
    outer: &Place<'_, '_>,
) -> Result<(), AllocError>
    ensures { OnOk result (map place_view found.new.items ≡ map place_view found.old.items
        ++ moved (place_view outer.now) (place_view place.now) ∷ []) }
{
    let start = outer.body_range.start;
    let (whole, body) = (&place.byte_range, &place.body_range);
    found.push(Place {
        path: path_shown(alloc, outer.path.as_str(), place.path.as_str())?,
        part: place.part,
        byte_range: start.saturating_add(whole.start)..start.saturating_add(whole.end),
        body_range: start.saturating_add(body.start)..start.saturating_add(body.end),
    })?;
    Ok(())
}

/// Returns the path of a message of a mail in the part with the path `inside`. A mail inside that has
/// parts is part `0` there, since IMAP has one name for it and that part.
fn path_shown(alloc: Global, inside: &str, path: &str) -> Result<String, AllocError>
    ensures { IfOk result (λ text. string_bytes text ≡ path_shown (Some inside.now) path.now) }
{
    if path == inside {
        format!(in alloc; "{path}.0")
    } else {
        String::from_str(alloc, path)
    }
}
