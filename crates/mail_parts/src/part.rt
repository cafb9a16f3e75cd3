//! Which parts are attachments, and which are read.
ghost use Rattle.std.specs.Prelude.{◌≡◌, option_map};
ghost use Rattle.mailparse.specs.Map.{text_found};
ghost use Rattle.mailparse.specs.Views.{kind, tree_of};
ghost use Rattle.mail_parts.specs.Part.{is_attachment, is_read};

use mail_data::texts::text_type_of;
use mail_read::files::{describes_attachment, is_attachment_disposition, is_leaf};
use mailparse::{DispositionType, ParsedMail};

/// Returns whether a part of this disposition and with this file name, as `lenient_disposition` and
/// `lenient_file_name` return them, is an attachment: it has no parts of its own, and the two are
/// those of one.
///
/// Does not allocate.
///
/// # Examples
///
/// ```rust
/// use mail_read::lenient::{lenient_disposition, lenient_file_name};
/// use mail_parts::is_attachment;
/// use mailparse::parse_mail;
///
/// let mail = parse_mail(alloc, b"Content-Disposition: inline; filename=a.txt\n\nHello")?;
/// let disposition = lenient_disposition(alloc, &mail, &())?;
/// let name = lenient_file_name(alloc, &mail, &())?;
/// assert!(rt; is_attachment(&mail, &disposition, &name));
/// assert!(rt; !is_attachment(&mail, &disposition, &None));
/// ```
pub fn is_attachment(
    part: &ParsedMail<'_>,
    disposition: &Option<DispositionType>,
    name: &Option<String>,
) -> bool
    ensures { result ≡ is_attachment (tree_of part.now) (option_map kind disposition.now)
        (text_found name.now) }
{
    is_leaf(part) && describes_attachment(disposition, name)
}

/// Returns whether the body of a part of this disposition, as `lenient_disposition` returns it, is a
/// text that is shown: it has no parts of its own, is not marked as an attachment, and its type is
/// that of a text, or a multipart.
///
/// Does not allocate.
///
/// # Examples
///
/// ```rust
/// use mail_read::lenient::lenient_disposition;
/// use mail_parts::is_read;
/// use mailparse::parse_mail;
///
/// let mail = parse_mail(alloc, b"Content-Type: text/html\n\n<p>Hello")?;
/// assert!(rt; is_read(&mail, &lenient_disposition(alloc, &mail, &())?));
/// ```
pub fn is_read(part: &ParsedMail<'_>, disposition: &Option<DispositionType>) -> bool
    ensures { result ≡ is_read (tree_of part.now) (option_map kind disposition.now) }
{
    !is_attachment_disposition(disposition)
        && is_leaf(part)
        && text_type_of(part).starts_with("text/")
}
