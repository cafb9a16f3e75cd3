//! The line of JSON of a mail, under any charsets.
ghost use Rattle.mail_c.specs.Json.{IsJson};
ghost use Rattle.mail_records.specs.Buffer.{Gives};

use mail_json::{LineOptions, Origin, write_mail};
use mail_read::reading::read_mail;
use mail_records::results::NO_LIMIT;
use mailparse::{KnownCharsets, MailParseError};
use std::alloc::{AllocError, Global};

/// Returns the line of JSON of a mail.
pub(crate) fn json<K: KnownCharsets>(
    alloc: Global,
    raw: &[u8],
    known: &K,
) -> Result<Option<Vec<u8>>, MailParseError>
    ensures { Gives (IsJson (K.known known.now) raw.now) result }
{
    let mail = read_mail(alloc, raw, NO_LIMIT, known)?;
    let origin = Origin {
        file: None,
        number: None,
        start: 0,
        end: raw.len(),
    };
    let options = LineOptions {
        most_bytes: None,
        limit: NO_LIMIT,
        decodes_bodies: true,
        hashes: false,
        joins_flowed: false,
        html: None,
        lists_findings: false,
    };
    let mut line = Vec::new(alloc);
    match write_mail(alloc, &mut line, &mail, &origin, options, known) {
        Ok(()) => {
            line.push(b'\n')?;
            Ok(Some(line))
        }
        Err(_) => Err(MailParseError::Memory(AllocError)),
    }
}
