//! The calls that read leniently, under all tables.
//!
//! ```text
//! base64_front BODY => BYTES GROUP IGNORED
//! lenient_body MAIL PART => KIND RAW, BYTES
//! lenient_content MAIL => BYTES GROUP | uuencode | text_file | none IGNORED
//! body_text MAIL => TEXT CHARSET DAMAGED
//! lenient_named_file DISPOSITION TYPE => NAME | none        of raw values
//! lenient_header_text VALUE => TEXT
//! lenient_name_text NAME => TEXT
//! find_ids TEXT => ID..                                     those with an `@`
//! find_any_ids TEXT => ID..
//! date_of TEXT => SECONDS | error ..
//! zoned_date_of TEXT => SECONDS KNOWN | error ..            whether the zone is known
//! date_and_offset_of TEXT => SECONDS OFFSET | none | error ..
//! ```
//!
//! GROUP is the index of the first invalid group or `none`, and IGNORED the number of bytes that
//! were ignored. `lenient_content` and `body_text` are of the whole mail; the content is damaged if a
//! uuencoded file is damaged or missing. KIND is that of a body, also `x-uuencode`; the decoded BYTES
//! follow where it is `base64` or `quoted-printable`.

use crate::calls::files::part_at;
use crate::calls::types::put_raw;
use crate::calls::under::all_tables;
use crate::notation::{Answer, Decision, Outcome, Row, Show, Word, calls, put};
use mail_read::lenient::{
    Base64Front, BodyText, ContentFault, IdRule, LenientBody, base64_front, body_text,
    date_and_offset_of, date_of, find_ids, lenient_body, lenient_content, lenient_header_text,
    lenient_name_text, lenient_named_file, zoned_date_of,
};
use mailparse::body::Body;
use mailparse::{MailParseError, ParsedMail};

pub fn make(answer: &mut Answer, row: &Row) -> Decision {
    Ok(make_of_values(answer, row)? || make_of_mails(answer, row)?)
}

fn make_of_mails(answer: &mut Answer, row: &Row) -> Decision {
    let alloc = row.alloc;
    calls! { answer, row.call.as_str(), mail = row.mail()?;
        "lenient_body" => put_body(answer, part_at(alloc, &mail, row.number(1))),
        "lenient_content" => put_content(answer, &mail),
        "body_text" => body_text(alloc, &mail, &all_tables()),
    }
}

fn make_of_values(answer: &mut Answer, row: &Row) -> Decision {
    let alloc = row.alloc;
    calls! { answer, row.call.as_str();
        "base64_front" => base64_front(alloc, row.bytes(0)),
        "lenient_named_file" =>
            lenient_named_file(alloc, row.bytes(0), row.bytes(1), &all_tables()),
        "lenient_header_text" => lenient_header_text(alloc, row.bytes(0), &all_tables()),
        "lenient_name_text" => lenient_name_text(alloc, row.bytes(0), &all_tables()),
        "find_ids" => find_ids(alloc, row.text(0), IdRule::WithAt),
        "find_any_ids" => find_ids(alloc, row.text(0), IdRule::Any),
        "date_of" => date_of(row.text(0)),
        "zoned_date_of" => zoned_date_of(row.text(0)),
        "date_and_offset_of" => date_and_offset_of(row.text(0)),
    }
}

impl Show for Base64Front {
    fn show(&self, answer: &mut Answer) {
        put!(answer; &self.bytes, self.fault, self.ignored);
    }
}

impl Show for BodyText {
    fn show(&self, answer: &mut Answer) {
        put!(answer; &self.text, &self.charset, self.is_damaged);
    }
}

fn put_body(answer: &mut Answer, part: Result<&ParsedMail<'_>, MailParseError>) -> Outcome {
    match lenient_body(answer.alloc, part?)? {
        LenientBody::Standard(body) => {
            put_raw(answer, &body);
            if let Body::Base64(body) | Body::QuotedPrintable(body) = &body {
                answer.put(body.get_decoded(answer.alloc));
            }
        }
        LenientBody::Uuencode(raw) => put!(answer; Word("x-uuencode"), raw),
    }
    Ok(())
}

fn put_content(answer: &mut Answer, mail: &ParsedMail<'_>) -> Outcome {
    let body = lenient_body(answer.alloc, mail)?;
    let content = lenient_content(answer.alloc, &body)?;
    put!(answer; content.bytes.as_slice(), &content.fault, content.ignored);
    Ok(())
}

impl Show for ContentFault {
    fn show(&self, answer: &mut Answer) {
        match self {
            ContentFault::Base64(fault) => answer.put(fault.group),
            ContentFault::Uuencode => answer.put(Word("uuencode")),
            ContentFault::TextFile => answer.put(Word("text_file")),
        }
    }
}
