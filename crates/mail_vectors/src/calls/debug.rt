//! The Debug texts of public types: `debug KIND INPUT.. => TEXT`, where INPUT is what the value is
//! read or made from. Another type is another line below.
//!
//! ```text
//! debug charset LABEL             debug addresses VALUE
//! debug encoding LABEL            debug new_group NAME [NAME LOCAL DOMAIN]..
//! debug utf_7                     debug write_error
//! debug table                     debug outline STEP..            as in `outlines.rt`
//! debug date TEXT                 debug mailbox BYTES
//! debug base64_front BODY         debug entry BYTES               the first mail of a mailbox
//! debug body MAIL                 debug recipients MAIL
//! debug body_text MAIL            debug inner_mails MAIL
//! debug content MAIL              debug places MAIL
//!                                 debug report_blocks MAIL
//! ```
//!
//! The table has the label `a`, and the character `b` for each byte.

use crate::calls::addresses::new_mailboxes;
use crate::calls::outlines::outline_of;
use crate::notation::{Answer, Debugged, Decision, Outcome, Row, calls};
use mail_address::{NewAddress, NewGroup, WriteError, read_addresses};
use mail_charsets::Encoding;
use mail_codec::charset::{Charset, SingleByteTable, Utf7};
use mail_data::bounce::recipients;
use mail_data::mailbox::{Format, read_mailbox};
use mail_data::reports::report_blocks;
use mail_read::inner_mails::inner_mails;
use mail_read::lenient::{base64_front, body_text, date_of, lenient_body, lenient_content};
use mail_read::places::places;
use mailparse::{ParsedMail, parse_mail};

pub fn make(answer: &mut Answer, row: &Row) -> Decision {
    Ok(row.call.as_str() == "debug" && (debug_value(answer, row)? || debug_read(answer, row)?))
}

fn debug_value(answer: &mut Answer, row: &Row) -> Decision {
    calls! { answer, row.text(0);
        "charset" => Debugged(Charset::for_label(row.bytes(1))),
        "encoding" => Debugged(Encoding::for_label(row.bytes(1))),
        "utf_7" => Debugged(Utf7),
        "table" => Debugged(SingleByteTable { labels: &["a"], high: &['b'; 128] }),
        "date" => Debugged(date_of(row.text(1))),
        "base64_front" => base64_front(row.alloc, row.bytes(1)).map(Debugged),
        "mailbox" => Debugged(read_mailbox(row.bytes(1), Format::Counted)),
        "entry" => Debugged(read_mailbox(row.bytes(1), Format::Plain).next()),
        "outline" => outline_of(row, 1).map(Debugged),
        "addresses" => read_addresses(row.alloc, row.bytes(1)).map(Debugged),
        "new_group" => debug_group(answer, row),
        "write_error" => Debugged(WriteError::Address),
    }
}

fn debug_group(answer: &mut Answer, row: &Row) -> Outcome {
    let members = new_mailboxes(row, 2)?;
    answer.put(Debugged(NewAddress::Group(NewGroup {
        display_name: row.text(1),
        members: members.as_slice(),
    })));
    Ok(())
}

fn debug_read(answer: &mut Answer, row: &Row) -> Decision {
    let alloc = row.alloc;
    calls! { answer, row.text(0), mail = parse_mail(alloc, row.bytes(1))?;
        "body" => mail.get_body_encoded(alloc).map(Debugged),
        "body_text" => body_text(alloc, &mail, &()).map(Debugged),
        "content" => debug_content(answer, &mail),
        "recipients" => recipients(alloc, &mail, &()).map(Debugged),
        "inner_mails" => inner_mails(alloc, &mail, &()).map(Debugged),
        "places" => places(alloc, &mail).map(Debugged),
        "report_blocks" => report_blocks(alloc, &mail, &()).map(Debugged),
    }
}

fn debug_content(answer: &mut Answer, mail: &ParsedMail<'_>) -> Outcome {
    let body = lenient_body(answer.alloc, mail)?;
    answer.put(lenient_content(answer.alloc, &body).map(Debugged));
    Ok(())
}
