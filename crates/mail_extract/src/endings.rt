//! The endings of the names of files, by type.
ghost use Rattle.std.specs.Prelude.{◌≡◌, [], map, unwrap_or};
ghost use Rattle.mail_codec.specs.Names.{look_up};
ghost use Rattle.mailparse.specs.Mail.{root};
ghost use Rattle.mailparse.specs.Views.{tree_of};
ghost use Rattle.mail_extract.specs.Endings.{ending_of, type_ending};

use mail_codec::names::look_up;
use mailparse::ParsedMail;

/// The endings of some types (IANA, Media Types).
static ENDINGS: [(&str, &str); 20] = [
    ("application/json", ".json"),
    ("application/msword", ".doc"),
    ("application/pdf", ".pdf"),
    ("application/pkcs7-mime", ".p7m"),
    ("application/pkcs7-signature", ".p7s"),
    ("application/zip", ".zip"),
    ("audio/mpeg", ".mp3"),
    ("image/gif", ".gif"),
    ("image/jpeg", ".jpg"),
    ("image/png", ".png"),
    ("image/svg+xml", ".svg"),
    ("image/tiff", ".tiff"),
    ("message/global", ".u8msg"),
    ("message/rfc822", ".eml"),
    ("text/calendar", ".ics"),
    ("text/csv", ".csv"),
    ("text/html", ".html"),
    ("text/plain", ".txt"),
    ("text/vcard", ".vcf"),
    ("video/mp4", ".mp4"),
];

/// Returns the ending of the name of a file by the type of its part, or the empty text for a type
/// without a known ending.
pub fn ending_of(part: &ParsedMail<'_>) -> &'static str
    ensures { result.now ≡ ending_of (root (tree_of part.now)) }
{
    type_ending(part.ctype.mimetype.as_str())
}

/// Returns the ending for a type, or the empty text if none is known.
fn type_ending(mimetype: &str) -> &'static str
    ensures { result.now ≡ type_ending mimetype.now }
{
    text_for(&ENDINGS, mimetype)
}

/// Returns the text for a key, ignoring ASCII case, or the empty text if the table has none.
fn text_for<'t>(table: &'t [(&'t str, &'t str)], key: &str) -> &'t str
    ensures { result.now
        ≡ unwrap_or (look_up (map (λ row. (row.0.now, row.1.now)) table.now) key.now) [] }
{
    match look_up(table, key.as_bytes()) {
        Some(text) => text,
        None => "",
    }
}
