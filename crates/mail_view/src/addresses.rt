//! The authors and recipients of a mail.
ghost use Rattle.std.specs.Prelude.{◌≡◌, ◌++◌, map, string_bytes, IfErr, IfOk, OnOk};
ghost use Rattle.mailparse.specs.Mail.{root};
ghost use Rattle.mailparse.specs.Outcome.{GivesText, IsMemory};
ghost use Rattle.mailparse.specs.Views.{tree_of};
ghost use Rattle.mail_address.specs.AddressViews.{element_view, group_view, mailbox_view};
ghost use Rattle.mail_address.specs.AddressViews.{member_view, unknown_view};
ghost use Rattle.mail_view.specs.Addresses.{address_lines, element_lines, group_text, named};
ghost use Rattle.mail_view.specs.Addresses.{single_text};
ghost use Rattle.mail_view.specs.Line.{line, line_text, lines_text};

use crate::line::{Prefix, push_line};
use crate::names::push_name;
use mail_address::{Address, Group, Mailbox, Member, Unknown, lenient_addresses_of};
use mail_read::lenient::lenient_name_text;
use mailparse::{KnownCharsets, MailParseError, ParsedMail};
use std::alloc::{AllocError, Global};

/// Appends a line for each address in the headers with this name.
pub(crate) fn push_addresses<K: KnownCharsets>(
    alloc: Global,
    shown: &mut String,
    prefix: Prefix,
    mail: &ParsedMail<'_>,
    key: &str,
    known: &K,
) -> Result<(), MailParseError>
    ensures written { OnOk result (string_bytes shown.new ≡ string_bytes shown.old
        ++ lines_text (address_lines (K.known known.now) prefix key.now (root (tree_of mail.now)))) }
    ensures only_memory { IfErr result IsMemory }
{
    for element in &lenient_addresses_of(alloc, &mail.headers, key)? {
        push_element(alloc, shown, prefix, element, known)?;
    }
    Ok(())
}

/// Appends the lines of an element of a list of addresses.
fn push_element<K: KnownCharsets>(
    alloc: Global,
    shown: &mut String,
    prefix: Prefix,
    element: &Address<'_>,
    known: &K,
) -> Result<(), MailParseError>
    ensures written { OnOk result (string_bytes shown.new ≡ string_bytes shown.old
        ++ lines_text (element_lines (K.known known.now) prefix (element_view element.now))) }
    ensures only_memory { IfErr result IsMemory }
{
    let text = match element {
        Address::Mailbox(mailbox) => mailbox_text(alloc, mailbox, known)?,
        Address::Unknown(unknown) => unknown_text(alloc, unknown, known)?,
        Address::Group(group) => return push_group(alloc, shown, prefix, group, known),
    };
    push_line(shown, prefix, text.as_str())?;
    Ok(())
}

/// Appends a line for the name of a group, and one for each of its members.
fn push_group<K: KnownCharsets>(
    alloc: Global,
    shown: &mut String,
    prefix: Prefix,
    group: &Group<'_>,
    known: &K,
) -> Result<(), MailParseError>
    ensures written { OnOk result (string_bytes shown.new ≡ string_bytes shown.old
        ++ (line_text (line prefix (group_text (K.known known.now) group.now.display_name.now))
        ++ lines_text (map (line prefix) (map (single_text (K.known known.now))
        (group_view group.now).members)))) }
    ensures only_memory { IfErr result IsMemory }
{
    let name = group_text(alloc, group, known)?;
    push_line(shown, prefix, name.as_str())?;
    push_members(alloc, shown, prefix, group.members.as_slice(), known)
}

/// Appends a line for each member of a group.
fn push_members<K: KnownCharsets>(
    alloc: Global,
    shown: &mut String,
    prefix: Prefix,
    members: &[Member<'_>],
    known: &K,
) -> Result<(), MailParseError>
    ensures written { OnOk result (string_bytes shown.new ≡ string_bytes shown.old
        ++ lines_text (map (line prefix) (map (single_text (K.known known.now))
        (map member_view members.now)))) }
    ensures only_memory { IfErr result IsMemory }
{
    for member in members {
        let text = member_text(alloc, member, known)?;
        push_line(shown, prefix, text.as_str())?;
    }
    Ok(())
}

/// Returns the text of a member of a group.
fn member_text<K: KnownCharsets>(
    alloc: Global,
    member: &Member<'_>,
    known: &K,
) -> Result<String, MailParseError>
    ensures { GivesText result (single_text (K.known known.now) (member_view member.now)) }
{
    match member {
        Member::Mailbox(mailbox) => mailbox_text(alloc, mailbox, known),
        Member::Unknown(unknown) => unknown_text(alloc, unknown, known),
    }
}

/// Returns the text of a mailbox: its address, in angle brackets after its name if it has one.
fn mailbox_text<K: KnownCharsets>(
    alloc: Global,
    mailbox: &Mailbox<'_>,
    known: &K,
) -> Result<String, MailParseError>
    ensures { GivesText result (single_text (K.known known.now) (mailbox_view mailbox.now)) }
{
    let name = mailbox.get_shown_name(alloc, known)?;
    let address = mailbox.get_address(alloc)?;
    Ok(named(alloc, name.as_str(), address)?)
}

/// Returns an address, in angle brackets after its name unless that is empty.
fn named(alloc: Global, name: &str, address: String) -> Result<String, AllocError>
    ensures { IfOk result (λ text.
        string_bytes text ≡ named name.now (string_bytes address)) }
{
    if name.is_empty() {
        return Ok(address);
    }
    let mut text = String::new(alloc);
    push_name(&mut text, name)?;
    text.push_str(" <")?;
    text.push_str(address.as_str())?;
    text.push_str(">")?;
    Ok(text)
}

/// Returns the text of an element that is not an address, as that of a name.
fn unknown_text<K: KnownCharsets>(
    alloc: Global,
    unknown: &Unknown<'_>,
    known: &K,
) -> Result<String, MailParseError>
    ensures { GivesText result (single_text (K.known known.now) (unknown_view unknown.now)) }
{
    let name = lenient_name_text(alloc, unknown.text, known)?;
    let mut text = String::new(alloc);
    push_name(&mut text, name.as_str())?;
    Ok(text)
}

/// Returns the name of a group and a colon.
fn group_text<K: KnownCharsets>(
    alloc: Global,
    group: &Group<'_>,
    known: &K,
) -> Result<String, MailParseError>
    ensures { GivesText result (group_text (K.known known.now) group.now.display_name.now) }
{
    let name = group.get_shown_name(alloc, known)?;
    let mut text = String::new(alloc);
    push_name(&mut text, name.as_str())?;
    text.push_str(":")?;
    Ok(text)
}
