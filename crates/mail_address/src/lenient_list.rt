//! Lists of addresses, read leniently, and the sender of a mail.
ghost use Rattle.std.specs.Prelude.{flat_map, ◌≡◌, ◌++◌, ◌∷◌, [], ◌+◌, ◌<◌, ◌≤◌, ◌^◌, drop, length, map, option_map, IfOk, OnOk, Ok, None, Some, true};
ghost use Rattle.mailparse.specs.Outcome.{AnswersOrMemory};
ghost use Rattle.mail_address.specs.AddressViews.{element_view, group_view, mailbox_view};
ghost use Rattle.mail_address.specs.AddressViews.{member_view, unknown_view};
ghost use Rattle.mail_address.specs.MailboxViews.{parts};
ghost use Rattle.mail_address.specs.Addresses.{group, single};
ghost use Rattle.mail_address.specs.Lenient.{has_bare_address, is_open_group, joined, lenient_addresses};
ghost use Rattle.mail_address.specs.Lenient.{lenient_addresses_of, lenient_element, lenient_elements};
ghost use Rattle.mail_address.specs.Lenient.{lenient_sender_of, open_group, parted};
ghost use Rattle.mail_address.specs.Lenient.{refined, refined_as, refined_element, refined_single};

use crate::headers::only_mailbox;
use crate::lenient::{lenient_mailbox, with_comment};
use crate::lenient_commas::front;
use crate::lenient_members::refined_members;
use crate::lenient_opened::{has_open_comment, opened};
use crate::lenient_several::{are_several, several};
use crate::list::{
    Address, AddressList, Group, Mailbox, Member, Unknown, after_name, members_at, name_len,
    read_addresses,
};
use crate::mailbox::{Parts, is_enclosed, is_phrase};
use crate::tokens::{Span, begins_at, front_token, is_all_white, run};
use mailparse::{MailHeaderMap, MailParseError};
use std::alloc::{AllocError, Global};

/// Returns the elements of a list of addresses as `read_addresses` does, but reads an element that
/// is no address by the grammar again, leniently.
///
/// A mailbox without a display name has the name in its first comment: `ann@example.org (Ann)`. Of
/// an element that ends in an address in angle brackets, that is the address, and the text before
/// it the name, whatever it contains. What the grammar reads keeps its address. Allocates the list
/// and the members of groups.
///
/// # Errors
///
/// If memory runs out.
///
/// # Examples
///
/// ```rust
/// use mail_address::{Address, lenient_addresses};
///
/// for address in &lenient_addresses(alloc, b"boss@example.org <eve@example.com>")? {
///     if let Address::Mailbox(mailbox) = address {
///         assert_eq!(rt; mailbox.get_address(alloc)?.as_str(), "eve@example.com");
///     }
/// }
/// ```
pub fn lenient_addresses(alloc: Global, raw: &[u8]) -> Result<AddressList<'_>, AllocError>
    ensures { IfOk result (λ list. map element_view list.items ≡ lenient_addresses raw.now) }
{
    let mut list = Vec::new(alloc);
    push_addresses(alloc, &mut list, raw)?;
    Ok(list)
}

/// Returns the elements of all headers with this name, as `lenient_addresses` reads them, in the
/// order of the mail (RFC 5322, section 3.6.3).
///
/// The ASCII case of the name is ignored. The offset of an element is counted in the value of its
/// own header. Allocates the list, that of the headers, and the members of groups.
///
/// # Errors
///
/// `MailParseError::Memory` if memory runs out.
///
/// # Examples
///
/// ```rust
/// use mail_address::{Address, lenient_addresses_of};
/// use mailparse::parse_mail;
///
/// let mail = parse_mail(alloc, b"To: ann@example.org (Ann)\n\n")?;
/// for address in &lenient_addresses_of(alloc, &mail.headers, "To")? {
///     if let Address::Mailbox(mailbox) = address {
///         assert_eq!(rt; mailbox.get_shown_name(alloc, &())?.as_str(), "Ann");
///     }
/// }
/// ```
#[tactic(auto, unfolding(crate::specs::Lenient::lenient_addresses_of))]
pub fn lenient_addresses_of<'m, M: MailHeaderMap>(
    alloc: Global,
    headers: &'m M,
    name: &str,
) -> Result<AddressList<'m>, MailParseError>
    ensures { AnswersOrMemory (λ list. map element_view list.items) result
        (Ok (lenient_addresses_of name.now (M.present headers.now))) }
{
    let mut list = Vec::new(alloc);
    for header in headers.get_all_headers(alloc, name)? {
        push_addresses(alloc, &mut list, header.get_value_raw())?;
    }
    Ok(list)
}

/// Returns the sender of a mail as `sender_of` does, of the addresses that `lenient_addresses_of`
/// reads.
///
/// Allocates as that call does.
///
/// # Errors
///
/// `MailParseError::Memory` if memory runs out.
///
/// # Examples
///
/// ```rust
/// use mail_address::lenient_sender_of;
/// use mailparse::parse_mail;
///
/// let mail = parse_mail(alloc, b"From: Ann [home] <ann@example.org>\n\n")?;
/// let sender = lenient_sender_of(alloc, &mail.headers)?.ok_or("no sender")?;
/// assert_eq!(rt; sender.get_address(alloc)?.as_str(), "ann@example.org");
/// ```
#[tactic(auto, unfolding(crate::specs::Lenient::lenient_sender_of))]
pub fn lenient_sender_of<'m, M: MailHeaderMap>(
    alloc: Global,
    headers: &'m M,
) -> Result<Option<Mailbox<'m>>, MailParseError>
    ensures { AnswersOrMemory (λ found. option_map mailbox_view found) result
        (Ok (lenient_sender_of (M.present headers.now))) }
{
    let sender = lenient_addresses_of(alloc, headers, "Sender")?;
    if let Some(mailbox) = only_mailbox(&sender) {
        return Ok(Some(mailbox));
    }
    let from = lenient_addresses_of(alloc, headers, "From")?;
    Ok(only_mailbox(&from))
}

/// Appends the elements of a value, read leniently.
fn push_addresses<'a>(
    alloc: Global,
    list: &mut AddressList<'a>,
    raw: &'a [u8],
) -> Result<(), AllocError>
    ensures { OnOk result (map element_view list.new.items
        ≡ map element_view list.old.items ++ lenient_addresses raw.now) }
{
    let elements = read_addresses(alloc, raw)?;
    push_joined(alloc, list, raw, elements.as_slice())
}

/// Appends elements, joined where a name contains a comma, and read leniently.
fn push_joined<'a>(
    alloc: Global,
    list: &mut AddressList<'a>,
    raw: &'a [u8],
    elements: &[Address<'a>],
) -> Result<(), AllocError>
    ensures { OnOk result (map element_view list.new.items ≡ map element_view list.old.items
        ++ lenient_elements raw.now (joined raw.now (map element_view elements.now))) }
{
    let mut rest = elements;
    'fronts: while !rest.is_empty() {
        let len = push_front(alloc, list, raw, rest)?;
        rest = &rest[len..];
    }
    Ok(())
}

/// Appends the elements at the front that are words of a name and the one after them, joined if it
/// has that name. Returns the number of elements.
fn push_front<'a>(
    alloc: Global,
    list: &mut AddressList<'a>,
    raw: &'a [u8],
    elements: &[Address<'a>],
) -> Result<usize, AllocError>
    requires { 0 < length elements.now }
    ensures pushed { IfOk result (λ len. map element_view list.new.items
        ++ lenient_elements raw.now (joined raw.now (map element_view (drop len elements.now)))
        ≡ map element_view list.old.items
        ++ lenient_elements raw.now (joined raw.now (map element_view elements.now))) }
    ensures bounds { IfOk result (λ len. len ≤ length elements.now) }
    ensures takes_some { IfOk result (λ len. 0 < len) }
{
    let (whole, len) = front(raw, elements)?;
    if let Some(element) = whole {
        push_element(alloc, list, raw, &element)?;
        return Ok(len);
    }
    push_each(alloc, list, raw, &elements[..len])?;
    Ok(len)
}

/// Appends elements, read leniently.
fn push_each<'a>(
    alloc: Global,
    list: &mut AddressList<'a>,
    raw: &'a [u8],
    elements: &[Address<'a>],
) -> Result<(), AllocError>
    ensures { OnOk result (map element_view list.new.items ≡ map element_view list.old.items
        ++ lenient_elements raw.now (map element_view elements.now)) }
{
    for element in elements {
        push_element(alloc, list, raw, element)?;
    }
    Ok(())
}

/// Appends the elements that an element by the grammar is.
fn push_element<'a>(
    alloc: Global,
    list: &mut AddressList<'a>,
    raw: &'a [u8],
    element: &Address<'a>,
) -> Result<(), AllocError>
    ensures { OnOk result (map element_view list.new.items
        ≡ map element_view list.old.items ++ lenient_element raw.now (element_view element.now)) }
{
    if let Address::Unknown(unknown) = element {
        if has_open_comment(unknown.text) {
            let found = opened(alloc, unknown)?;
            return push_elements(alloc, list, raw, found.as_slice());
        }
    }
    push_parted(alloc, list, refined_element(alloc, raw, element)?)
}

/// Appends elements, read leniently.
fn push_elements<'a>(
    alloc: Global,
    list: &mut AddressList<'a>,
    raw: &'a [u8],
    elements: &[Address<'a>],
) -> Result<(), AllocError>
    ensures { OnOk result (map element_view list.new.items ≡ map element_view list.old.items
        ++ flat_map parted (map (refined raw.now) (map element_view elements.now))) }
{
    for element in elements {
        push_parted(alloc, list, refined_element(alloc, raw, element)?)?;
    }
    Ok(())
}

/// Appends the elements that an element is, which was read leniently.
fn push_parted<'a>(
    alloc: Global,
    list: &mut AddressList<'a>,
    element: Address<'a>,
) -> Result<(), AllocError>
    ensures { OnOk result (map element_view list.new.items
        ≡ map element_view list.old.items ++ parted (element_view element.entry)) }
{
    match element {
        Address::Mailbox(mailbox) => list.push(Address::Mailbox(mailbox))?,
        Address::Group(group) => list.push(Address::Group(group))?,
        Address::Unknown(unknown) => push_unknown(alloc, list, unknown)?,
    }
    Ok(())
}

/// Appends the elements that an element is which was not read as one address.
fn push_unknown<'a>(
    alloc: Global,
    list: &mut AddressList<'a>,
    unknown: Unknown<'a>,
) -> Result<(), AllocError>
    ensures { OnOk result (map element_view list.new.items
        ≡ map element_view list.old.items ++ parted (single (unknown_view unknown.entry))) }
{
    if !are_several(unknown.text) {
        list.push(Address::Unknown(unknown))?;
        return Ok(());
    }
    let mut found = several(alloc, &unknown)?;
    list.append(&mut found)?;
    Ok(())
}

/// Returns an element, read leniently.
fn refined_element<'a>(
    alloc: Global,
    raw: &'a [u8],
    element: &Address<'a>,
) -> Result<Address<'a>, AllocError>
    ensures { IfOk result (λ new. element_view new ≡ refined raw.now (element_view element.now)) }
{
    match element {
        Address::Mailbox(mailbox) => Ok(Address::Mailbox(refined_mailbox(mailbox))),
        Address::Group(group) => Ok(Address::Group(refined_group(alloc, raw, group)?)),
        Address::Unknown(unknown) => refined_unknown(alloc, raw, unknown),
    }
}

/// Returns an element that is no address by the grammar, read leniently.
fn refined_unknown<'a>(
    alloc: Global,
    raw: &'a [u8],
    unknown: &Unknown<'a>,
) -> Result<Address<'a>, AllocError>
    ensures { IfOk result (λ new.
        element_view new ≡ refined raw.now (single (unknown_view unknown.now))) }
{
    if is_open_group(unknown.text) {
        return Ok(Address::Group(open_group(alloc, raw, unknown)?));
    }
    Ok(single_of(refined_member(&Member::Unknown(*unknown))))
}

/// Returns an element without members as an element of a list.
pub(crate) fn single_of(member: Member<'_>) -> Address<'_>
    ensures { element_view result ≡ single (member_view member.entry) }
{
    match member {
        Member::Mailbox(mailbox) => Address::Mailbox(mailbox),
        Member::Unknown(unknown) => Address::Unknown(unknown),
    }
}

/// Returns the mailbox of an element with these parts.
fn mailbox_with<'a>(start: usize, text: &'a [u8], found: Parts<'a>) -> Mailbox<'a>
    ensures { mailbox_view result
        ≡ record { start = start; text = text.now; mailbox = Some (parts found.entry) } }
{
    Mailbox {
        start,
        text,
        display_name: found.display_name,
        local_part: found.local_part,
        domain: found.domain,
    }
}

/// Returns a mailbox by the grammar, named by its first comment if it has no other name.
pub(crate) fn refined_mailbox<'a>(mailbox: &Mailbox<'a>) -> Mailbox<'a>
    ensures { mailbox_view result ≡ refined_single (mailbox_view mailbox.now) }
{
    let parts = Parts {
        display_name: mailbox.display_name,
        local_part: mailbox.local_part,
        domain: mailbox.domain,
    };
    mailbox_with(
        mailbox.start,
        mailbox.text,
        with_comment(mailbox.text, parts),
    )
}

/// Returns an element without members, read leniently.
pub(crate) fn refined_member<'a>(member: &Member<'a>) -> Member<'a>
    ensures { member_view result ≡ refined_single (member_view member.now) }
{
    match member {
        Member::Mailbox(mailbox) => Member::Mailbox(refined_mailbox(mailbox)),
        Member::Unknown(unknown) => match lenient_mailbox(unknown.text) {
            Some(parts) => Member::Mailbox(mailbox_with(unknown.start, unknown.text, parts)),
            None => Member::Unknown(*unknown),
        },
    }
}

/// Returns a group, whose members are read leniently.
fn refined_group<'a>(
    alloc: Global,
    raw: &'a [u8],
    strict: &Group<'a>,
) -> Result<Group<'a>, AllocError>
    ensures { IfOk result (λ new.
        group (group_view new) ≡ refined raw.now (group (group_view strict.now))) }
{
    let members = refined_members(alloc, raw, strict.members.as_slice())?;
    Ok(Group {
        start: strict.start,
        text: strict.text,
        display_name: strict.display_name,
        members,
    })
}

/// Returns whether bytes contain an `@`, and no pair of angle brackets.
fn has_bare_address(bytes: &[u8]) -> bool
    ensures { result ≡ has_bare_address bytes.now }
{
    let rest = &bytes[run(Span::BeforeAngle, bytes)..];
    begins_at(bytes, run(Span::BeforeAt, bytes), b'@') && !is_enclosed(front_token(rest).kind)
}

/// Returns whether the bytes are a group without its semicolon.
#[tactic(auto, unfolding(crate::specs::Lenient::is_open_group))]
fn is_open_group(bytes: &[u8]) -> bool
    ensures { result ≡ is_open_group bytes.now }
{
    let len = name_len(bytes);
    let inner = after_name(bytes);
    begins_at(bytes, len, b':')
        && is_phrase(&bytes[..len])
        && (is_all_white(inner) || has_bare_address(inner))
}

/// Returns the group without its semicolon that an element is.
#[tactic(auto, unfolding(crate::specs::Lenient::open_group))]
fn open_group<'a>(
    alloc: Global,
    raw: &'a [u8],
    unknown: &Unknown<'a>,
) -> Result<Group<'a>, AllocError>
    ensures { IfOk result (λ new.
        group_view new ≡ open_group raw.now unknown.now.start unknown.now.text.now) }
{
    let text = unknown.text;
    // An element ends within its value, so the sum fits.
    if usize::MAX - unknown.start <= text.len() {
        return Err(AllocError);
    }
    let len = name_len(text);
    let members = members_at(alloc, unknown.start + len + 1, after_name(text))?;
    Ok(Group {
        start: unknown.start,
        text,
        display_name: &text[..len],
        members: refined_members(alloc, raw, members.as_slice())?,
    })
}
