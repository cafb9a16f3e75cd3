//! The mails inside a mail, and the objects of their parts.
ghost use Rattle.std.specs.Prelude.{◌≡◌, ◌++◌, [], ◌∷◌, map, option_and_then, option_map, true};
ghost use Rattle.std.specs.List.{AllByRecursion};
ghost use Rattle.std.specs.Prelude.{IfOk, OnOk, Some};
ghost use Rattle.mailparse.specs.Mail.{Tree};
ghost use Rattle.mailparse.specs.Outcome.{AnswersOrMemory, IsMemory, refusal_of};
ghost use Rattle.mailparse.specs.Views.{placements_of, tree_of};
ghost use Rattle.mail_read.specs.InnerMails.{holds_mail, places_under};
ghost use Rattle.mail_read.specs.Reading.{mail_placements};
ghost use Rattle.mail_read.specs.PartPlaces.{places};
ghost use Rattle.mail_read.specs.PlaceViews.{place_view};
ghost use Rattle.mail_parts.specs.Inside.{mails_among, mails_inside, without_bytes};
ghost use Rattle.mail_json.specs.InsideViews.{IsRead, inside_view};
ghost use Rattle.mail_json_text.specs.Members.{AddsMember, is_key};
ghost use Rattle.mail_json.specs.Options.{options_of};
ghost use Rattle.mail_parts.specs.DecodedViews.{IsDecoded, decoded_place};
ghost use Rattle.mail_json.specs.Part.{place_in};
ghost use Rattle.mail_json_text.specs.Printed.{after_commas, comma, list_of, listed, string_or_null};
ghost use Rattle.mail_json_text.specs.Printed.{text_of};
ghost use Rattle.mail_parts.specs.Reading.{mail_reading, mails_in_place};
ghost use Rattle.mail_json.specs.Values.{AreInsideValues, ArePartValues, AreReadValues, AreValues};
ghost use Rattle.mail_json.specs.Values.{IsPartValue, inside_value};
ghost use Rattle.mail_json_text.specs.Written.{WritesOne, WroteOne};
ghost use Rattle.mail_json_text.specs.declared.json_text.Position.TheVariants.{Later};
ghost use Rattle.mail_program.specs.Fault.{IsEnd};
ghost use Rattle.mail_program.specs.Refusal.{refusal_text};
ghost use Rattle.mail_program.specs.Streams.{Writes};

use crate::options::LineOptions;
use crate::part::{Form, place_in, write_found};
use mail_json_text::{
    Position, add_number_or_null, add_optional, add_text, first_key, key, write_comma, write_word,
};
use mail_parts::{Decoded, decoded_parts, mail_in, read_mail};
use mail_program::{Fault, refusal_of};
use mail_read::inner_mails::{holds_mail, mail_start, places_under};
use mail_read::places::Place;
use mailparse::{KnownCharsets, MAX_LEVELS, MailParseError, ParsedMail};
use std::alloc::{AllocError, Global};
use std::io::Write;

/// A mail inside a mail, without its bytes.
#[derive(Drop)]
pub(crate) struct Inside {
    /// The path of the part that contains it.
    path: String,
    /// Its offset in the whole mail, or `None` if it is encoded.
    start: Option<usize>,
    /// Why it is refused, or `None` if it is not.
    error: Option<MailParseError>,
}

/// The mails inside a mail that were found, and why the search ended if it did.
#[derive(Drop)]
struct Found {
    /// The mails.
    mails: Vec<Inside>,
    /// The fault if the search ended: that memory ran out, unless a write failed.
    fault: Fault,
}

/// The search for mails inside a mail ended: memory ran out, or a write failed. `Found` has the
/// fault, which is large, so that mails inside one another need less stack.
#[derive(Clone, Copy)]
struct Ended;

/// What is the same for all mails inside a mail.
#[derive_where(Clone, Copy)]
struct Shared<'s, 'r, K> {
    /// The offset of the whole mail in the input.
    origin: usize,
    /// How the parts are shown.
    options: LineOptions<'r>,
    /// The charsets in which the mails are read.
    known: &'s K,
}

/// The mail whose parts are searched for mails inside.
#[derive(Clone, Copy)]
struct Within {
    /// The offset of this mail in the whole mail, or `None` if it is encoded.
    start: Option<usize>,
    /// How deep mails are searched.
    most: u8,
}

/// What became of a mail inside a mail.
#[derive(Drop)]
pub(crate) enum Inner<'a> {
    /// It is read and listed.
    Read(Box<ParsedMail<'a>>),
    /// It is listed with why it is refused.
    Refused,
    /// Memory ran out.
    Ended,
}

/// Writes the objects of all parts of a mail, and then those of the mails inside it, separated by
/// commas, and returns the list of the mails inside. The mail begins at the offset `origin` of the
/// input.
pub(crate) fn write_parts<W: Write, K: KnownCharsets>(
    alloc: Global,
    out: &mut W,
    parts: &[Decoded<'_, '_, '_>],
    origin: usize,
    options: LineOptions<'_>,
    known: &K,
) -> Result<Vec<Inside>, Fault>
    requires { AllByRecursion (IsDecoded options.decodes_bodies) parts.now }
    ensures written { (mail : Tree) →
        map decoded_place parts.now ≡ places mail (mail_placements mail) →
        WritesOne (W.contents out.old) (W.contents out.new) result (listed text_of [])
        (ArePartValues (options_of (K.known known.now) options.entry) origin mail) }
    ensures listed { (mail : Tree) →
        map decoded_place parts.now ≡ places mail (mail_placements mail) →
        IfOk result (λ mails. map inside_view mails.items
        ≡ map without_bytes (mails_inside (K.known known.now) options.entry.limit mail)) }
{
    let form = Form {
        inside: None,
        start: Some(origin),
        options,
        known,
    };
    write_found(alloc, out, parts, Position::First, form)?;
    let shared = Shared {
        origin,
        options,
        known,
    };
    let within = Within {
        start: Some(0),
        most: MAX_LEVELS,
    };
    let mut found = Found {
        mails: Vec::new(alloc),
        fault: Fault::from(AllocError),
    };
    match write_inside(alloc, out, &mut found, parts, &within, &shared) {
        Ok(()) => Ok(found.mails),
        Err(_) => Err(found.fault),
    }
}

/// Writes the objects of the parts of the mails that these parts of a mail contain, each after a
/// comma, and adds those mails to a list.
#[cycle(inside)]
fn write_inside<W: Write, K: KnownCharsets>(
    alloc: Global,
    out: &mut W,
    found: &mut Found,
    parts: &[Decoded<'_, '_, '_>],
    within: &Within,
    shared: &Shared<'_, '_, K>,
) -> Result<(), Ended>
    ensures written { let options = options_of (K.known shared.now.known.now) shared.now.options in
        AllByRecursion (IsDecoded options.decodes_bodies) parts.now →
        WroteOne (W.contents out.old) (W.contents out.new) result (after_commas text_of)
        (AreInsideValues options shared.now.origin (mails_among options.known options.limit
        within.now.most within.now.start (map decoded_place parts.now))) }
    ensures listed { let options = options_of (K.known shared.now.known.now) shared.now.options in
        AllByRecursion (IsDecoded options.decodes_bodies) parts.now →
        OnOk result (map inside_view found.new.mails.items
        ≡ map inside_view found.old.mails.items ++ map without_bytes (mails_among options.known
        options.limit within.now.most within.now.start (map decoded_place parts.now))) }
    ensures failed { IsEnd found.old.fault → IsEnd found.new.fault }
{
    if within.most == 0 {
        return Ok(());
    }
    for part in parts {
        let deeper = Within {
            start: within.start,
            most: within.most - 1,
        };
        write_forwarded(alloc, out, found, part, &deeper, shared)?;
    }
    Ok(())
}

/// Writes the objects of the parts of the mail that a part of a mail contains, and of those inside
/// it, each after a comma, and adds these mails to a list; none if the mail is refused.
#[cycle(inside)]
fn write_forwarded<W: Write, K: KnownCharsets>(
    alloc: Global,
    out: &mut W,
    found: &mut Found,
    part: &Decoded<'_, '_, '_>,
    within: &Within,
    shared: &Shared<'_, '_, K>,
) -> Result<(), Ended>
    ensures written { let options = options_of (K.known shared.now.known.now) shared.now.options in
        IsDecoded options.decodes_bodies part.now →
        WroteOne (W.contents out.old) (W.contents out.new) result (after_commas text_of)
        (AreInsideValues options shared.now.origin (mails_in_place options.known options.limit
        within.now.most within.now.start (decoded_place part.now))) }
    ensures listed { let options = options_of (K.known shared.now.known.now) shared.now.options in
        IsDecoded options.decodes_bodies part.now →
        OnOk result (map inside_view found.new.mails.items
        ≡ map inside_view found.old.mails.items ++ map without_bytes (mails_in_place options.known
        options.limit within.now.most within.now.start (decoded_place part.now))) }
    ensures failed { IsEnd found.old.fault → IsEnd found.new.fault }
{
    if !holds_mail(part.place) {
        return Ok(());
    }
    let start = mail_start(within.start, part.place, &part.body);
    match read_listed(alloc, &mut found.mails, part, start, shared) {
        Inner::Read(mail) => {
            let inside = Within {
                start,
                most: within.most,
            };
            let path = part.place.path.as_str();
            let written = write_read(alloc, out, found, &mail, path, &inside, shared);
            free(mail);
            written
        }
        Inner::Refused => Ok(()),
        Inner::Ended => Err(Ended),
    }
}

/// Writes the objects of the parts of a mail that is inside the part with this path, and of the
/// mails inside it, each after a comma, and adds these mails to a list.
#[cycle(inside)]
fn write_read<W: Write, K: KnownCharsets>(
    alloc: Global,
    out: &mut W,
    found: &mut Found,
    mail: &ParsedMail<'_>,
    path: &str,
    within: &Within,
    shared: &Shared<'_, '_, K>,
) -> Result<(), Ended>
    ensures written { let options = options_of (K.known shared.now.known.now) shared.now.options in
        placements_of mail.now ≡ mail_placements (tree_of mail.now) →
        WroteOne (W.contents out.old) (W.contents out.new) result (after_commas text_of)
        (AreReadValues options shared.now.origin within.now.most within.now.start path.now
        (tree_of mail.now)) }
    ensures listed { let options = options_of (K.known shared.now.known.now) shared.now.options in
        placements_of mail.now ≡ mail_placements (tree_of mail.now) →
        OnOk result (map inside_view found.new.mails.items
        ≡ map inside_view found.old.mails.items ++ map without_bytes (mails_among options.known
        options.limit within.now.most within.now.start (places_under path.now (tree_of mail.now)
        (mail_placements (tree_of mail.now))))) }
    ensures failed { IsEnd found.old.fault → IsEnd found.new.fault }
{
    let Ok(places) = places_inside(alloc, mail, path) else {
        return Err(Ended);
    };
    let parts = write_places(
        alloc,
        out,
        &mut found.fault,
        places.as_slice(),
        path,
        within.start,
        shared,
    )?;
    write_inside(alloc, out, found, parts.as_slice(), within, shared)
}

/// Frees a mail. It is not inlined, so that mails inside one another need less stack.
#[inline(never)]
fn free(_mail: Box<ParsedMail<'_>>) {}

/// Reads the mail in a part, and adds it to a list. It is not inlined, so that mails inside one
/// another need less stack.
#[inline(never)]
fn read_listed<'c, K: KnownCharsets>(
    alloc: Global,
    mails: &mut Vec<Inside>,
    part: &'c Decoded<'_, '_, '_>,
    start: Option<usize>,
    shared: &Shared<'_, '_, K>,
) -> Inner<'c>
    ensures { let options = options_of (K.known shared.now.known.now) shared.now.options in
        IsDecoded options.decodes_bodies part.now →
        holds_mail (decoded_place part.now) ≡ true →
        IsRead options.known options.limit (decoded_place part.now) start
        (map inside_view mails.old.items) (map inside_view mails.new.items) result }
{
    let path = part.place.path.as_str();
    match read_boxed(alloc, mail_in(part), shared.options.limit, shared.known) {
        Ok(mail) => match push_inside(alloc, mails, path, start, None) {
            Ok(()) => Inner::Read(mail),
            Err(_) => Inner::Ended,
        },
        Err(error) => match push_refused(alloc, mails, path, start, error) {
            Ok(()) => Inner::Refused,
            Err(_) => Inner::Ended,
        },
    }
}

/// Writes the objects of the parts at these places of a mail that begins at the offset `start` of
/// the whole mail and is inside the part with this path, each after a comma, and returns the parts.
/// It is not inlined, so that mails inside one another need less stack.
#[inline(never)]
fn write_places<'p, 'm, 'a, W: Write, K: KnownCharsets>(
    alloc: Global,
    out: &mut W,
    fault: &mut Fault,
    places: &'p [Place<'m, 'a>],
    path: &str,
    start: Option<usize>,
    shared: &Shared<'_, '_, K>,
) -> Result<Vec<Decoded<'p, 'm, 'a>>, Ended>
    ensures written { WroteOne (W.contents out.old) (W.contents out.new) result
        (listed text_of (comma Later)) (AreValues
        (IsPartValue (options_of (K.known shared.now.known.now) shared.now.options) (Some path.now)
        (place_in start shared.now.origin)) (map place_view places.now)) }
    ensures places { IfOk result (λ parts.
        map decoded_place parts.items ≡ map place_view places.now) }
    ensures decoded { IfOk result (λ parts.
        AllByRecursion (IsDecoded shared.now.options.decodes_bodies) parts.items) }
    ensures failed { IsEnd fault.old → IsEnd fault.new }
{
    let form = Form {
        inside: Some(path),
        start: place_in(start, shared.origin),
        options: shared.options,
        known: shared.known,
    };
    let Ok(parts) = decoded_parts(alloc, places, shared.options.decodes_bodies) else {
        return Err(Ended);
    };
    match write_found(alloc, out, parts.as_slice(), Position::Later, form) {
        Ok(()) => Ok(parts),
        Err(error) => {
            *fault = error;
            Err(Ended)
        }
    }
}

/// Reads a mail as `read_mail` does, into a box. It is not inlined, so that mails inside one another
/// need less stack.
#[inline(never)]
fn read_boxed<'a, K: KnownCharsets>(
    alloc: Global,
    raw: &'a [u8],
    limit: usize,
    known: &K,
) -> Result<Box<ParsedMail<'a>>, MailParseError>
    ensures read { AnswersOrMemory (λ mail. tree_of mail.value) result
        (mail_reading (K.known known.now) limit raw.now) }
    ensures places { IfOk result (λ mail.
        placements_of mail.value ≡ mail_placements (tree_of mail.value)) }
{
    let mail = read_mail(alloc, raw, limit, known)?;
    Ok(boxed(alloc, mail)?)
}

/// Returns the parts of a mail inside the part with this path, as `places_under` does. It is not
/// inlined, so that mails inside one another need less stack.
#[inline(never)]
fn places_inside<'m, 'a>(
    alloc: Global,
    mail: &'m ParsedMail<'a>,
    path: &str,
) -> Result<Vec<Place<'m, 'a>>, AllocError>
    ensures { IfOk result (λ found. map place_view found.items
        ≡ places_under path.now (tree_of mail.now) (placements_of mail.now)) }
{
    places_under(alloc, mail, path)
}

/// Moves a mail into a box.
fn boxed<'a>(alloc: Global, mail: ParsedMail<'a>) -> Result<Box<ParsedMail<'a>>, AllocError>
    ensures { IfOk result (λ boxed. boxed.value ≡ mail.entry) }
{
    let boxed = Box::new(alloc, mail)?;
    Ok(boxed)
}

/// Adds a mail that is refused with this error to a list, unless memory ran out. It is not inlined,
/// so that mails inside one another need less stack.
#[inline(never)]
fn push_refused(
    alloc: Global,
    mails: &mut Vec<Inside>,
    path: &str,
    start: Option<usize>,
    error: MailParseError,
) -> Result<(), AllocError>
    ensures listed { OnOk result (map inside_view mails.new.items
        ≡ map inside_view mails.old.items ++ record {
          path = path.now;
          start = start;
          refusal = refusal_of error;
        } ∷ []) }
    ensures passed_on { IfOk result (λ done. IsMemory error → ⊥) }
{
    match error {
        MailParseError::Memory(error) => Err(error),
        error => push_inside(alloc, mails, path, start, Some(error)),
    }
}

/// Adds a mail to a list. It is not inlined, so that mails inside one another need less stack.
#[inline(never)]
fn push_inside(
    alloc: Global,
    mails: &mut Vec<Inside>,
    path: &str,
    start: Option<usize>,
    error: Option<MailParseError>,
) -> Result<(), AllocError>
    ensures { OnOk result (map inside_view mails.new.items
        ≡ map inside_view mails.old.items ++ record {
          path = path.now;
          start = start;
          refusal = option_and_then refusal_of error;
        } ∷ []) }
{
    mails.push(Inside {
        path: String::from_str(alloc, path)?,
        start,
        error,
    })?;
    Ok(())
}

/// Writes the list of the mails inside a mail that begins at this offset of the input.
pub(crate) fn write_mails<W: Write>(
    alloc: Global,
    out: &mut W,
    mails: &[Inside],
    origin: usize,
) -> Result<(), Fault>
    ensures { Writes (W.contents out.old) (W.contents out.new) result
        (text_of (list_of (map (inside_value origin) (map inside_view mails.now)))) }
{
    write_word(out, "[")?;
    let mut position = Position::First;
    for mail in mails {
        write_comma(out, position)?;
        write_inner(alloc, out, mail, origin)?;
        position = Position::Later;
    }
    write_word(out, "]")
}

/// Writes a mail inside: the path of the part that contains it, its offset, and why it is refused.
fn write_inner<W: Write>(
    alloc: Global,
    out: &mut W,
    inner: &Inside,
    origin: usize,
) -> Result<(), Fault>
    ensures { Writes (W.contents out.old) (W.contents out.new) result
        (text_of (inside_value origin (inside_view inner.now))) }
{
    add_text(out, first_key!("path"), inner.path.as_str())?;
    add_number_or_null(out, key!("start"), place_in(inner.start, origin))?;
    add_refusal(alloc, out, key!("error"), &inner.error)?;
    write_word(out, "}")
}

/// Adds a member that says why a mail is refused, or `null` if it is not.
fn add_refusal<W: Write>(
    alloc: Global,
    out: &mut W,
    key: &str,
    error: &Option<MailParseError>,
) -> Result<(), Fault>
    requires { is_key key.now ≡ true }
    ensures { AddsMember (W.contents out.old) (W.contents out.new) result key.now (string_or_null
        (option_map refusal_text (option_and_then refusal_of error.now))) }
{
    let text = match error {
        Some(error) => refusal_of(alloc, error)?,
        None => None,
    };
    add_optional(out, key, text.as_deref())
}
