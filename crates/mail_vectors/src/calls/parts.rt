//! The calls that answer for a mail and then for each of its parts, each before its own parts.
//!
//! ```text
//! mail MAIL => NODE..                 `part`, SUBPARTS MIMETYPE CHARSET, `header` KEY VALUE.., BODY
//!                                     as of the call `body`
//! nodes MAIL => part SUBPARTS HEADERS MIMETYPE TEXT..
//! types MAIL => MIMETYPE CHARSET..
//! get_raw_bytes MAIL => part RAW BLOCK HEADERS..
//! get_body MAIL => TEXT..
//! get_body_raw MAIL => BYTES..
//! get_content_disposition MAIL => part KIND, NAME VALUE..
//! part_places MAIL => PATH START END START END..      the range of a part, and that of its body
//! lenient_nodes MAIL LEVELS => part SUBPARTS HEADERS MIMETYPE TEXT ERROR | none ..
//! lenient_file_names MAIL LEVELS => NAME | none ..
//! lenient_dispositions MAIL LEVELS => KIND | none ..
//! ```
//!
//! SUBPARTS and HEADERS are how many parts and headers it has. RAW is the bytes of a part, and
//! BLOCK those of its headers with the blank line. The lenient calls read in the manner of `Lenient`
//! under all tables, with parts at most LEVELS levels below the mail; ERROR is why a body is refused.

use crate::calls::types::put_type;
use crate::calls::under::all_tables;
use crate::notation::{Answer, Decision, Displayed, Outcome, Refusal, Row, Show, Word, calls, put};
use mail_read::lenient::{Lenient, lenient_disposition, lenient_file_name, refusal};
use mail_read::places::{Place, places};
use mailparse::{KnownCharsets, MailParseError, ParsedMail, parse_mail_as};

pub fn make(answer: &mut Answer, row: &Row) -> Decision {
    calls! { answer, row.call.as_str();
        "mail" | "nodes" | "types" | "get_raw_bytes" | "get_body" | "get_body_raw"
            | "get_content_disposition" => put_parts(answer, row, row.mail()),
        "part_places" => put_places(answer, row),
        "lenient_nodes" | "lenient_file_names" | "lenient_dispositions" =>
            put_parts(answer, row, lenient_mail(row, &all_tables())),
    }
}

fn lenient_mail<'r, K: KnownCharsets>(
    row: &'r Row,
    known: &K,
) -> Result<ParsedMail<'r>, MailParseError> {
    parse_mail_as(row.alloc, row.bytes(0), row.levels(1), &Lenient(known))
}

fn put_places(answer: &mut Answer, row: &Row) -> Outcome {
    answer.put(places(row.alloc, &row.mail()?));
    Ok(())
}

fn put_parts(
    answer: &mut Answer,
    row: &Row,
    mail: Result<ParsedMail<'_>, MailParseError>,
) -> Outcome {
    let mail = mail?;
    for part in mail.parts(row.alloc)? {
        put_part(answer, row.call.as_str(), part);
    }
    Ok(())
}

fn put_part(answer: &mut Answer, call: &str, part: &ParsedMail<'_>) {
    let alloc = answer.alloc;
    match call {
        "types" => put_type(answer, &part.ctype),
        "get_body" => answer.put(part.get_body(alloc)),
        "get_body_raw" => answer.put(part.get_body_raw(alloc)),
        "lenient_dispositions" => answer.put(lenient_disposition(alloc, part, &all_tables())),
        "lenient_file_names" => answer.put(lenient_file_name(alloc, part, &all_tables())),
        _ => {
            answer.put(Word("part"));
            put_node(answer, call, part);
        }
    }
}

fn put_node(answer: &mut Answer, call: &str, part: &ParsedMail<'_>) {
    let alloc = answer.alloc;
    match call {
        "get_content_disposition" => answer.put(part.get_content_disposition(alloc)),
        "get_raw_bytes" => {
            let block = part.get_headers().get_raw_bytes();
            put!(answer; part.raw_bytes, block, part.headers.len());
        }
        "mail" => {
            answer.put(part.subparts.len());
            put_type(answer, &part.ctype);
            for header in &part.headers {
                put!(answer; Word("header"), header.get_key(alloc), header.get_value(alloc));
            }
            answer.put(part.get_body_encoded(alloc));
        }
        _ => {
            put!(answer; part.subparts.len(), part.headers.len());
            put!(answer; &part.ctype.mimetype, part.get_body(alloc));
            if call == "lenient_nodes" {
                put_refusal(answer, part);
            }
        }
    }
}

fn put_refusal(answer: &mut Answer, part: &ParsedMail<'_>) {
    match refusal(answer.alloc, part) {
        Ok(Some(error)) => answer.put(Displayed(error)),
        Ok(None) => answer.put(Word("none")),
        Err(error) => error.refuse(answer),
    }
}

impl Show for Place<'_, '_> {
    fn show(&self, answer: &mut Answer) {
        put!(answer; &self.path, self.byte_range.start, self.byte_range.end);
        put!(answer; self.body_range.start, self.body_range.end);
    }
}
