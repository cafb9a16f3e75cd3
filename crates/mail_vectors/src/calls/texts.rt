//! The calls on the texts of mails, on paragraphs that flow, and on the mails inside mails. The
//! calls that end in `_with` read under all tables.
//!
//! ```text
//! text_part MAIL => TEXT | none             the text of the part's body; also text_part_with
//! text_type TYPE => TYPE
//! readable_text MAIL => TEXT | none         the text to be read, under the references of the standard
//! inline_texts MAIL => PATH TEXT..          likewise, the texts that are read one after another
//! flowed_text MAIL => TEXT                  of the whole mail, under all tables
//! unflowed TEXT DELETES => TEXT             DELETES is 1 for `delsp=yes`, and otherwise 0
//! text_files TEXT LIMIT => NAME START END CONTENT ENDED..     the range of the block, and whether
//!                                                             its data has an end
//! forwards MAIL => TRUTH                    of the whole mail
//! inner_mail_bytes MAIL => BYTES..
//! inner_mails MAIL => PATH START | none, COUNT PATH.. | ERROR ..
//! last_inner_mail MAIL => COUNT PATH        how many mails are inside, and the path of the last one
//! ```
//!
//! `inner_mails` writes the path of each mail, where its bytes are in the outer mail, and how many
//! parts it has and their paths, or how it is refused; under all tables.

use crate::calls::under::all_tables;
use crate::notation::{Answer, Decision, Displayed, Outcome, Row, Show, Word, calls, put};
use mail_data::flowed::{DelSp, flowed_text, unflowed};
use mail_data::inline_texts::{InlineText, inline_texts};
use mail_data::readable::readable_text;
use mail_data::text_files::text_files;
use mail_data::texts::{text_part, text_type};
use mail_html::{Links, References};
use mail_read::inner_mails::{InnerMail, forwards, inner_mails, places_under};
use mailparse::{KnownCharsets, MailParseError, ParsedMail, parse_mail_in};
use std::alloc::Global;

pub fn make(answer: &mut Answer, row: &Row) -> Decision {
    Ok(make_of_texts(answer, row)? || make_of_mails(answer, row)?)
}

fn make_of_texts(answer: &mut Answer, row: &Row) -> Decision {
    calls! { answer, row.call.as_str();
        "text_part" => find_text(answer, row, &()),
        "text_part_with" => find_text(answer, row, &all_tables()),
        "text_type" => text_type(row.text(0)),
        "flowed_text" => read_flowed(row, &all_tables()),
        "unflowed" => unflowed(row.alloc, row.text(0), del_sp(row.number(1))),
        "text_files" => list_files(answer, row),
        "inner_mails" => list_inner(answer, row, &all_tables()),
    }
}

fn make_of_mails(answer: &mut Answer, row: &Row) -> Decision {
    let alloc = row.alloc;
    calls! { answer, row.call.as_str(), mail = row.mail()?;
        "readable_text" => read_text(alloc, &mail),
        "inline_texts" => inline_texts(alloc, &mail, Links::Omitted, &References::standard(), &()),
        "forwards" => forwards(&mail),
        "inner_mail_bytes" => put_bytes(answer, inner_mails(alloc, &mail, &())),
        "last_inner_mail" => put_last(answer, inner_mails(alloc, &mail, &())),
    }
}

fn find_text<K: KnownCharsets>(answer: &mut Answer, row: &Row, known: &K) -> Outcome {
    let mail = parse_mail_in(row.alloc, row.bytes(0), known)?;
    match text_part(row.alloc, &mail, known)? {
        Some(part) => answer.put(part.get_body_in(row.alloc, known)),
        None => answer.put(Word("none")),
    }
    Ok(())
}

fn read_text(alloc: Global, mail: &ParsedMail<'_>) -> Result<Option<String>, MailParseError> {
    let read = readable_text(alloc, mail, Links::Omitted, &References::standard(), &())?;
    Ok(read.map(|read| read.text))
}

impl Show for InlineText {
    fn show(&self, answer: &mut Answer) {
        put!(answer; &self.path, &self.read.text);
    }
}

fn read_flowed<K: KnownCharsets>(row: &Row, known: &K) -> Result<String, MailParseError> {
    let mail = parse_mail_in(row.alloc, row.bytes(0), known)?;
    Ok(flowed_text(row.alloc, &mail, known)?.text)
}

fn del_sp(number: usize) -> DelSp {
    if number == 1 { DelSp::Yes } else { DelSp::No }
}

fn list_files(answer: &mut Answer, row: &Row) -> Outcome {
    for file in &text_files(row.alloc, row.bytes(0), row.number(1))? {
        put!(answer; file.file_name(row.alloc), file.block.start, file.block.end);
        put!(answer; file.content(row.alloc)?.bytes.as_slice(), file.is_ended);
    }
    Ok(())
}

fn put_bytes(answer: &mut Answer, found: Result<Vec<InnerMail>, MailParseError>) -> Outcome {
    for inside in &found? {
        answer.put(&inside.bytes);
    }
    Ok(())
}

fn put_last(answer: &mut Answer, found: Result<Vec<InnerMail>, MailParseError>) -> Outcome {
    let found = found?;
    answer.put(found.len());
    if let Some(inside) = found.last() {
        answer.put(&inside.path);
    }
    Ok(())
}

fn list_inner<K: KnownCharsets>(answer: &mut Answer, row: &Row, known: &K) -> Outcome {
    let mail = parse_mail_in(row.alloc, row.bytes(0), known)?;
    for inside in &inner_mails(row.alloc, &mail, known)? {
        put_inner(answer, inside, known);
    }
    Ok(())
}

fn put_inner<K: KnownCharsets>(answer: &mut Answer, inside: &InnerMail, known: &K) {
    put!(answer; &inside.path, inside.start);
    let outcome = list_places(answer, inside, known);
    answer.put(outcome);
}

fn list_places<K: KnownCharsets>(answer: &mut Answer, inside: &InnerMail, known: &K) -> Outcome {
    if let Some(error) = &inside.error {
        put!(answer; Word("error"), Displayed(error));
        return Ok(());
    }
    let mail = parse_mail_in(answer.alloc, inside.bytes.as_slice(), known)?;
    let places = places_under(answer.alloc, &mail, inside.path.as_str())?;
    answer.put(places.len());
    for place in &places {
        answer.put(&place.path);
    }
    Ok(())
}
