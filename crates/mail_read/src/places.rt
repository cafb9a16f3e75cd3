//! The positions of a mail and each of its parts.
ghost use Rattle.std.specs.Prelude.{◌≡◌, ◌++◌, [], ◌∷◌, map, IfOk, OnOk};
ghost use Rattle.mailparse.specs.Mail.{trees_within};
ghost use Rattle.mailparse.specs.Views.{placement_of, placements_of, tree_of};
ghost use Rattle.mail_read.specs.Files.{whole_path, with_paths};
ghost use Rattle.mail_read.specs.PartPlaces.{places};
ghost use Rattle.mail_read.specs.PlaceViews.{numbered_view, place_view, placement_view};

use crate::files::{path_under, whole_path};
use mailparse::ParsedMail;
use std::alloc::{AllocError, Global};
use std::ops::Range;

/// A mail or a part of it, with its path and its position in the mail, as `places` returns it.
#[derive(Debug, Drop)]
pub struct Place<'m, 'a> {
    /// Its path, as IMAP numbers parts (RFC 3501, section 6.4.5): `2.1` is the first part of the
    /// second part. The path of the whole mail is `1`, that of its body, if it has no parts, and
    /// otherwise empty.
    pub path: String,
    /// The message.
    pub part: &'m ParsedMail<'a>,
    /// The range of its bytes, as `ParsedMail::byte_range` returns it.
    pub byte_range: Range<usize>,
    /// The range of its body, as `ParsedMail::body_range` returns it.
    pub body_range: Range<usize>,
}

/// Returns a mail and all its parts (RFC 2046, section 5.1), in the order in which they appear,
/// each before its own parts, with their paths and their ranges in the mail that was parsed.
///
/// The ranges are in bytes, counted from 0. Allocates the list and the paths.
///
/// # Errors
///
/// `AllocError` if it runs out of memory.
///
/// # Examples
///
/// ```rust
/// use mail_read::places::places;
/// use mailparse::parse_mail;
///
/// let raw = b"Content-Type: multipart/mixed; boundary=b\n\n--b\n\none\n--b\n\ntwo\n--b--\n";
/// let mail = parse_mail(alloc, raw)?;
/// let places = places(alloc, &mail)?;
/// assert_eq!(rt; places.len(), 3);
/// assert_eq!(rt; places[2].path.as_str(), "2");
/// assert_eq!(rt; places[2].byte_range, 56..60);
/// assert_eq!(rt; places[2].body_range, 57..60);
/// ```
pub fn places<'m, 'a>(
    alloc: Global,
    mail: &'m ParsedMail<'a>,
) -> Result<Vec<Place<'m, 'a>>, AllocError>
    ensures read { IfOk result (λ found. map place_view found.items
        ≡ places (tree_of mail.now) (placements_of mail.now)) }
    ensures whole { IfOk result (λ found. map (λ place. tree_of place.part.now) found.items
        ≡ trees_within (tree_of mail.now)) }
{
    let mut found = Vec::new(alloc);
    push_places(alloc, &mut found, mail, whole_path(mail))?;
    Ok(found)
}

/// Appends a message with this path, and then its parts.
pub(crate) fn push_places<'m, 'a>(
    alloc: Global,
    found: &mut Vec<Place<'m, 'a>>,
    mail: &'m ParsedMail<'a>,
    path: &str,
) -> Result<(), AllocError>
    ensures paths { OnOk result (map numbered_view found.new.items
        ≡ map numbered_view found.old.items ++ with_paths path.now (tree_of mail.now)) }
    ensures ranges { OnOk result (map placement_view found.new.items
        ≡ map placement_view found.old.items ++ placements_of mail.now) }
{
    push_place(alloc, found, mail, path)?;
    let mut number = 0;
    for part in &mail.subparts {
        number += 1;
        let path = path_under(alloc, path, number)?;
        push_places(alloc, found, part, path.as_str())?;
    }
    Ok(())
}

/// Appends a message with this path.
fn push_place<'m, 'a>(
    alloc: Global,
    found: &mut Vec<Place<'m, 'a>>,
    part: &'m ParsedMail<'a>,
    path: &str,
) -> Result<(), AllocError>
    ensures paths { OnOk result (map numbered_view found.new.items
        ≡ map numbered_view found.old.items ++ (path.now, tree_of part.now) ∷ []) }
    ensures ranges { OnOk result (map placement_view found.new.items
        ≡ map placement_view found.old.items ++ placement_of part.now ∷ []) }
{
    found.push(Place {
        path: String::from_str(alloc, path)?,
        part,
        byte_range: part.byte_range(),
        body_range: part.body_range(),
    })?;
    Ok(())
}
