//! The members of the authors and recipients of a mail.
ghost use Rattle.std.specs.Prelude.{◌≡◌, string_bytes, true};
ghost use Rattle.mailparse.specs.Mail.{root};
ghost use Rattle.mailparse.specs.Map.{text_found};
ghost use Rattle.mailparse.specs.Views.{tree_of};
ghost use Rattle.mail_address.specs.AddressViews.{element_view, group_view, mailbox_view};
ghost use Rattle.mail_address.specs.AddressViews.{member_view};
ghost use Rattle.mail_json.specs.Addresses.{unless_empty};
ghost use Rattle.mail_json_text.specs.Members.{AddsMember, AddsMembers, is_key};
ghost use Rattle.mail_json_text.specs.Printed.{text_of};
ghost use Rattle.mail_json.specs.Values.{address_list, addresses_members, element_value};
ghost use Rattle.mail_json.specs.Values.{group_value, single_value, unknown_value};
ghost use Rattle.mail_program.specs.Streams.{Writes};

use crate::lists::{ListItem, write_list};
use mail_address::{Address, Group, Mailbox, Member, Unknown, lenient_addresses_of};
use mail_codec::charset::decode_latin1;
use mail_json_text::{add_optional, add_text, first_key, key, write_word};
use mail_program::Fault;
use mailparse::{KnownCharsets, ParsedMail};
use std::alloc::Global;
use std::io::Write;

/// Writes the members of the authors and recipients of a mail.
pub(crate) fn write_addresses<W: Write, K: KnownCharsets>(
    alloc: Global,
    out: &mut W,
    mail: &ParsedMail<'_>,
    known: &K,
) -> Result<(), Fault>
    ensures { AddsMembers (W.contents out.old) (W.contents out.new) result
        (addresses_members (K.known known.now) (root (tree_of mail.now))) }
{
    add_addresses(alloc, out, key!("from"), mail, "From", known)?;
    add_addresses(alloc, out, key!("to"), mail, "To", known)?;
    add_addresses(alloc, out, key!("cc"), mail, "Cc", known)?;
    add_addresses(alloc, out, key!("bcc"), mail, "Bcc", known)?;
    add_addresses(alloc, out, key!("reply_to"), mail, "Reply-To", known)?;
    add_addresses(alloc, out, key!("sender"), mail, "Sender", known)?;
    Ok(())
}

/// Adds a member with the addresses in all headers of this name.
fn add_addresses<W: Write, K: KnownCharsets>(
    alloc: Global,
    out: &mut W,
    key: &str,
    mail: &ParsedMail<'_>,
    header: &str,
    known: &K,
) -> Result<(), Fault>
    requires { is_key key.now ≡ true }
    ensures { AddsMember (W.contents out.old) (W.contents out.new) result key.now
        (address_list (K.known known.now) header.now (root (tree_of mail.now))) }
{
    let list = lenient_addresses_of(alloc, &mail.headers, header)?;
    write_word(out, key)?;
    write_list(alloc, out, list.as_slice(), known)
}

impl ListItem for Address<'_> {
    ghost value = { λ known element. element_value known (element_view element) };

    fn write_item<W: Write, K: KnownCharsets>(
        &self,
        alloc: Global,
        out: &mut W,
        known: &K,
    ) -> Result<(), Fault> {
        match self {
            Address::Mailbox(mailbox) => write_mailbox(alloc, out, mailbox, known),
            Address::Group(group) => write_group(alloc, out, group, known),
            Address::Unknown(unknown) => write_unknown(alloc, out, unknown),
        }
    }
}

impl ListItem for Member<'_> {
    ghost value = { λ known member. single_value known (member_view member) };

    fn write_item<W: Write, K: KnownCharsets>(
        &self,
        alloc: Global,
        out: &mut W,
        known: &K,
    ) -> Result<(), Fault> {
        match self {
            Member::Mailbox(mailbox) => write_mailbox(alloc, out, mailbox, known),
            Member::Unknown(unknown) => write_unknown(alloc, out, unknown),
        }
    }
}

/// Writes a group: its name and its members.
fn write_group<W: Write, K: KnownCharsets>(
    alloc: Global,
    out: &mut W,
    group: &Group<'_>,
    known: &K,
) -> Result<(), Fault>
    ensures { Writes (W.contents out.old) (W.contents out.new) result (text_of (group_value
        (K.known known.now) group.now.display_name.now (group_view group.now).members)) }
{
    let name = group.get_shown_name(alloc, known)?;
    add_text(out, first_key!("group"), name.as_str())?;
    write_word(out, key!("members"))?;
    write_list(alloc, out, group.members.as_slice(), known)?;
    write_word(out, "}")
}

/// Writes a mailbox: its name, or `null` if it has none, and its address.
fn write_mailbox<W: Write, K: KnownCharsets>(
    alloc: Global,
    out: &mut W,
    mailbox: &Mailbox<'_>,
    known: &K,
) -> Result<(), Fault>
    ensures { Writes (W.contents out.old) (W.contents out.new) result
        (text_of (single_value (K.known known.now) (mailbox_view mailbox.now))) }
{
    let name = unless_empty(mailbox.get_shown_name(alloc, known)?);
    let address = mailbox.get_address(alloc)?;
    add_optional(out, first_key!("name"), name.as_deref())?;
    add_text(out, key!("address"), address.as_str())?;
    write_word(out, "}")
}

/// Returns a text, or `None` if it is empty.
fn unless_empty(text: String) -> Option<String>
    ensures { text_found result ≡ unless_empty (string_bytes text) }
{
    if text.is_empty() { None } else { Some(text) }
}

/// Writes text that is not an address, as it is in the mail.
fn write_unknown<W: Write>(alloc: Global, out: &mut W, unknown: &Unknown<'_>) -> Result<(), Fault>
    ensures { Writes (W.contents out.old) (W.contents out.new) result
        (text_of (unknown_value unknown.now.text.now)) }
{
    let text = decode_latin1(alloc, unknown.text)?;
    add_text(out, first_key!("unknown"), text.as_str())?;
    write_word(out, "}")
}
