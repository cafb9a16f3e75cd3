//! Messages that have no parts although their type is a multipart.
ghost use Rattle.std.specs.Prelude.{◌≡◌};
ghost use Rattle.mailparse.specs.Mail.{root};
ghost use Rattle.mailparse.specs.Views.{tree_of};
ghost use Rattle.mail_read.specs.lenient.Shown.{after_block, is_undivided};

use crate::files::is_leaf;
use mailparse::ParsedMail;

/// Returns whether the type of a part is a multipart, but the part has no parts of its own: its
/// boundary is missing, or no delimiter has it (RFC 2046, section 5.1.1). People want to see such a
/// part as a text, which `after_block` returns. Does not allocate.
///
/// # Examples
///
/// ```rust
/// use mail_read::lenient::{after_block, is_undivided};
/// use mailparse::parse_mail;
///
/// let mail = parse_mail(alloc, b"Content-Type: multipart/mixed; boundary=b\n\ntext")?;
/// assert!(rt; is_undivided(&mail));
/// assert_eq!(rt; after_block(&mail), b"text".as_slice());
/// ```
pub fn is_undivided(part: &ParsedMail<'_>) -> bool
    ensures { result ≡ is_undivided (tree_of part.now) }
{
    is_leaf(part) && part.ctype.mimetype.as_str().starts_with("multipart")
}

/// Returns the bytes of a part after its header block (RFC 5322, section 2.1). If it has no parts,
/// they are its body, unless it is a multipart without a delimiter, whose body is empty. Does not
/// allocate.
///
/// # Examples
///
/// ```rust
/// use mail_read::lenient::after_block;
/// use mailparse::parse_mail;
///
/// let mail = parse_mail(alloc, b"Subject: Hi\n\ntext")?;
/// assert_eq!(rt; after_block(&mail), b"text".as_slice());
/// ```
#[tactic(auto, using(crate::proofs::lemmas::lenient::Shown::past_end))]
pub fn after_block<'a>(part: &ParsedMail<'a>) -> &'a [u8]
    ensures { result.now ≡ after_block (root (tree_of part.now)) }
{
    let bytes = part.raw_bytes;
    let length = part.get_headers().get_raw_bytes().len();
    if bytes.len() < length {
        return &[];
    }
    &bytes[length..]
}
