//! The calls on addresses. An ITEM is `mailbox NAME ADDRESS`, `group NAME COUNT` and its members,
//! or `unknown BYTES`.
//!
//! ```text
//! addresses VALUE => ITEM..
//! addresses_with VALUE => ITEM..           names are read under all tables
//! addresses_of MAIL NAME => ITEM..         in all headers with this name
//! sender_of MAIL => mailbox NAME ADDRESS | none
//! lenient_addresses VALUE => ITEM..        and the next two, read leniently
//! lenient_addresses_of MAIL NAME => ITEM..
//! lenient_sender_of MAIL => mailbox NAME ADDRESS | none
//! shown_names VALUE => NAME..              of mailboxes and groups read leniently, as people see them
//! write_mailboxes [NAME LOCAL DOMAIN].. => BYTES
//! write_group NAME [NAME LOCAL DOMAIN].. => BYTES
//! read_written [NAME LOCAL DOMAIN].. => ITEM..     the elements of what `write_mailboxes` writes
//! rewrite VALUE => BYTES..                 each mailbox of a list that was read, written again
//! ```

use crate::calls::under::all_tables;
use crate::notation::{Answer, Decision, Outcome, Refusal, Row, Show, Word, calls, put};
use mail_address::{
    Address, AddressList, Mailbox, Member, NewAddress, NewGroup, NewMailbox, Unknown, WriteError,
    addresses_of, lenient_addresses, lenient_addresses_of, lenient_sender_of, read_addresses,
    sender_of, write_addresses,
};
use mailparse::KnownCharsets;
use std::alloc::{AllocError, Global};

pub fn make(answer: &mut Answer, row: &Row) -> Decision {
    Ok(make_of_values(answer, row)? || make_of_mails(answer, row)?)
}

fn make_of_values(answer: &mut Answer, row: &Row) -> Decision {
    let alloc = row.alloc;
    calls! { answer, row.call.as_str();
        "addresses" => put_list(answer, read_addresses(alloc, row.bytes(0)), &()),
        "addresses_with" => put_list(answer, read_addresses(alloc, row.bytes(0)), &all_tables()),
        "lenient_addresses" => put_list(answer, lenient_addresses(alloc, row.bytes(0)), &()),
        "shown_names" => put_shown(answer, row),
        "write_mailboxes" => written(row),
        "write_group" => write_group(row),
        "read_written" => read_written(answer, row),
        "rewrite" => rewrite(answer, row),
    }
}

fn make_of_mails(answer: &mut Answer, row: &Row) -> Decision {
    let alloc = row.alloc;
    calls! { answer, row.call.as_str(), mail = row.mail()?;
        "addresses_of" => put_list(answer, addresses_of(alloc, &mail.headers, row.text(1)), &()),
        "sender_of" => sender_of(alloc, &mail.get_headers()),
        "lenient_addresses_of" =>
            put_list(answer, lenient_addresses_of(alloc, &mail.headers, row.text(1)), &()),
        "lenient_sender_of" => lenient_sender_of(alloc, &mail.get_headers()),
    }
}

fn put_list<E: Refusal + Drop, K: KnownCharsets>(
    answer: &mut Answer,
    list: Result<AddressList<'_>, E>,
    known: &K,
) -> Result<(), E> {
    for address in &list? {
        put_address(answer, address, known);
    }
    Ok(())
}

/// Writes an element of a list, a group with its members.
fn put_address<K: KnownCharsets>(answer: &mut Answer, address: &Address<'_>, known: &K) {
    match address {
        Address::Mailbox(mailbox) => put_mailbox(answer, mailbox, known),
        Address::Group(group) => {
            put!(answer; Word("group"), group.get_display_name(answer.alloc, known));
            answer.put(group.members.len());
            for member in &group.members {
                match member {
                    Member::Mailbox(mailbox) => put_mailbox(answer, mailbox, known),
                    Member::Unknown(unknown) => answer.put(unknown),
                }
            }
        }
        Address::Unknown(unknown) => answer.put(unknown),
    }
}

fn put_mailbox<K: KnownCharsets>(answer: &mut Answer, mailbox: &Mailbox<'_>, known: &K) {
    put!(answer; Word("mailbox"), mailbox.get_display_name(answer.alloc, known));
    answer.put(mailbox.get_address(answer.alloc));
}

impl Show for Mailbox<'_> {
    fn show(&self, answer: &mut Answer) {
        put_mailbox(answer, self, &());
    }
}

impl Show for Unknown<'_> {
    fn show(&self, answer: &mut Answer) {
        put!(answer; Word("unknown"), self.text);
    }
}

fn put_shown(answer: &mut Answer, row: &Row) -> Outcome {
    for address in &lenient_addresses(row.alloc, row.bytes(0))? {
        put_shown_names(answer, address);
    }
    Ok(())
}

fn put_shown_names(answer: &mut Answer, address: &Address<'_>) {
    match address {
        Address::Mailbox(mailbox) => answer.put(mailbox.get_shown_name(answer.alloc, &())),
        Address::Group(group) => {
            answer.put(group.get_shown_name(answer.alloc, &()));
            for member in &group.members {
                if let Member::Mailbox(mailbox) = member {
                    answer.put(mailbox.get_shown_name(answer.alloc, &()));
                }
            }
        }
        Address::Unknown(_) => {}
    }
}

/// Returns the mailboxes of the inputs from `from` onwards, three inputs each.
pub fn new_mailboxes(row: &Row, from: usize) -> Result<Vec<NewMailbox<'_>>, AllocError> {
    let mut mailboxes = Vec::new(row.alloc);
    for number in 0..row.count().saturating_sub(from) / 3 {
        let at = number.saturating_mul(3).saturating_add(from);
        mailboxes.push(NewMailbox {
            display_name: row.text(at),
            local_part: row.text(at.saturating_add(1)),
            domain: row.text(at.saturating_add(2)),
        })?;
    }
    Ok(mailboxes)
}

/// Returns the mailboxes of the inputs as elements of a list.
fn new_addresses(row: &Row) -> Result<Vec<NewAddress<'_>>, AllocError> {
    let mut list = Vec::new(row.alloc);
    for mailbox in &new_mailboxes(row, 0)? {
        list.push(NewAddress::Mailbox(*mailbox))?;
    }
    Ok(list)
}

/// Returns the written list of the mailboxes of the inputs.
fn written(row: &Row) -> Result<Vec<u8>, WriteError> {
    write_addresses(row.alloc, new_addresses(row)?.as_slice())
}

fn write_group(row: &Row) -> Result<Vec<u8>, WriteError> {
    let members = new_mailboxes(row, 1)?;
    let group = NewGroup {
        display_name: row.text(0),
        members: members.as_slice(),
    };
    write_addresses(row.alloc, &[NewAddress::Group(group)])
}

fn read_written(answer: &mut Answer, row: &Row) -> Result<(), WriteError> {
    let value = written(row)?;
    Ok(put_list(answer, read_addresses(row.alloc, value.as_slice()), &())?)
}

fn rewrite(answer: &mut Answer, row: &Row) -> Outcome {
    for address in &read_addresses(row.alloc, row.bytes(0))? {
        if let Address::Mailbox(mailbox) = address {
            let outcome = put_again(answer, mailbox);
            answer.put(outcome);
        }
    }
    Ok(())
}

fn put_again(answer: &mut Answer, mailbox: &Mailbox<'_>) -> Outcome {
    let alloc = answer.alloc;
    let display_name = mailbox.get_display_name(alloc, &())?;
    let local_part = mailbox.get_local_part(alloc)?;
    let domain = mailbox.get_domain(alloc)?;
    let new = NewMailbox {
        display_name: display_name.as_str(),
        local_part: local_part.as_str(),
        domain: domain.as_str(),
    };
    answer.put(write_addresses(alloc, &[NewAddress::Mailbox(new)]));
    Ok(())
}
