//! How a mail is read whose uuencoded files are listed: none of them is left out.
ghost use Rattle.std.specs.Prelude.{◌≡◌, IfErr, IfOk};
ghost use Rattle.std.specs.List.{list_any};
ghost use Rattle.mailparse.specs.Mail.{trees_within};
ghost use Rattle.mailparse.specs.Outcome.{AnswersOrMemory, IsMemory};
ghost use Rattle.mailparse.specs.Views.{placements_of, tree_of};
ghost use Rattle.mail_read.specs.Reading.{mail_placements};
ghost use Rattle.mail_parts.specs.Reading.{has_many_blocks, has_many_files, mail_reading};

use mail_codec::transfer::find_uuencode;
use mail_data::text_files::is_plain_text;
use mail_read::lenient::{lenient_body, lenient_content};
use mail_read::reading;
use mailparse::{KnownCharsets, MailParseError, ParsedMail};
use std::alloc::Global;

/// Returns a mail as `mail_read::reading::read_mail` does, but refuses it if one of its plain texts
/// has more than `limit` blocks of uuencoded files (POSIX.1, `uuencode`), since `text_files` leaves
/// out the files in those after them.
///
/// The lines of JSON and `mail_extract` read mails so, and the mails inside them. Allocates as that
/// call does, and the decoded texts that have more than `limit` bytes.
///
/// # Errors
///
/// Those of that call. `MailParseError::Generic` with the text `Too many parts and headers`, whose
/// kind is `RefusalKind::TooMany`, if a text has more blocks than `limit`.
///
/// # Examples
///
/// ```rust
/// use mail_parts::read_mail;
/// use mailparse::RefusalKind;
///
/// let raw = b"Subject: Hi\n\nbegin 644 a\n#0V%T\n`\nend\nbegin 644 b\n#0V%T\n`\nend\n\
///     begin 644 c\n#0V%T\n`\nend\n";
/// assert!(rt; read_mail(alloc, raw, 3, &()).is_ok());
/// let error = read_mail(alloc, raw, 2, &()).err().ok_or("no error")?;
/// assert!(rt; error.refusal() == Some(RefusalKind::TooMany));
/// ```
#[tactic(auto, unfolding(crate::specs::Reading::mail_reading))]
pub fn read_mail<'a, K: KnownCharsets>(
    alloc: Global,
    raw: &'a [u8],
    limit: usize,
    known: &K,
) -> Result<ParsedMail<'a>, MailParseError>
    ensures read { AnswersOrMemory tree_of result
        (mail_reading (K.known known.now) limit raw.now) }
    ensures places { IfOk result (λ mail. placements_of mail ≡ mail_placements (tree_of mail)) }
{
    let mail = reading::read_mail(alloc, raw, limit, known)?;
    if has_many_files(alloc, &mail, limit)? {
        return Err(MailParseError::Generic("Too many parts and headers"));
    }
    Ok(mail)
}

/// Returns whether a plain text of a mail has more than `limit` blocks.
fn has_many_files(
    alloc: Global,
    mail: &ParsedMail<'_>,
    limit: usize,
) -> Result<bool, MailParseError>
    ensures read { IfOk result (λ is.
        is ≡ list_any (has_many_files limit) (trees_within (tree_of mail.now))) }
    ensures only_memory { IfErr result IsMemory }
{
    for part in mail.parts(alloc)? {
        if has_many_in(alloc, part, limit)? {
            return Ok(true);
        }
    }
    Ok(false)
}

/// Returns whether a part is a plain text that has more than `limit` blocks. One whose body has at
/// most that many bytes is not decoded.
fn has_many_in(alloc: Global, part: &ParsedMail<'_>, limit: usize) -> Result<bool, MailParseError>
    ensures read { IfOk result (λ is. is ≡ has_many_files limit (tree_of part.now)) }
    ensures only_memory { IfErr result IsMemory }
{
    if !is_plain_text(part) {
        return Ok(false);
    }
    let body = lenient_body(alloc, part)?;
    if body.get_raw().len() <= limit {
        return Ok(false);
    }
    let content = lenient_content(alloc, &body)?;
    Ok(has_many_blocks(content.bytes.as_slice(), limit))
}

/// Returns whether a text has more than `limit` blocks of uuencoded files: the first, then the
/// first in what follows it, and so on, as `text_files` finds them.
///
/// Does not allocate.
///
/// # Examples
///
/// ```rust
/// use mail_parts::has_many_blocks;
///
/// let text = b"begin 644 a\n#0V%T\n`\nend\nbegin 644 b\n#0V%T\n`\nend\n";
/// assert!(rt; has_many_blocks(text, 1));
/// assert!(rt; !has_many_blocks(text, 2));
/// ```
pub fn has_many_blocks(text: &[u8], limit: usize) -> bool
    ensures { result ≡ has_many_blocks limit text.now }
{
    let mut at = 0;
    let mut left = limit;
    'search: while let Some(block) = find_uuencode(&text[at..]) {
        if left == 0 {
            return true;
        }
        at += block.block.end;
        left -= 1;
    }
    false
}
