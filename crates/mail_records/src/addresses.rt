//! Records of the addresses in a header.
ghost use Rattle.std.specs.Prelude.{◌≡◌, ◌++◌, [], ◌∷◌, List, Ok, length, map, IfOk, OnOk};
ghost use Rattle.mail_address.specs.AddressViews.{element_view, group_view, mailbox_view};
ghost use Rattle.mail_address.specs.AddressViews.{member_view, unknown_view};
ghost use Rattle.mail_records.specs.AddressRecords.{AppendsRecords, AreRecords, Entry, addresses_read};
ghost use Rattle.mail_records.specs.AddressRecords.{element_entries, entries_from, group_entry};
ghost use Rattle.mail_records.specs.AddressRecords.{single_entry};
ghost use Rattle.mail_records.specs.Codes.{IsCoded};
ghost use Rattle.mail_records.specs.Rows.{rows_view};

use crate::codes::NO_MEMORY;
use crate::records::NONE;
use crate::rows::Rows;
use mail_address::{Address, Group, Mailbox, Member, Unknown, lenient_addresses};
use mailparse::{KnownCharsets, MailParseError};
use std::alloc::Global;

/// An element of a list of addresses, as `struct rocktray_address`.
#[repr(C)]
#[derive(Clone, Copy)]
pub struct AddressRecord {
    /// What it is: 0 for a mailbox, 1 for a group and 2 for text that is neither.
    pub kind: u64,
    /// The index of its group, or `NONE`.
    pub group: u64,
    /// The start of its name in the strings.
    pub name_start: u64,
    /// The end of its name.
    pub name_end: u64,
    /// The start of its address in the strings.
    pub address_start: u64,
    /// The end of its address.
    pub address_end: u64,
}

/// Returns the records of the addresses in a raw value, or `NO_MEMORY`.
///
/// # Errors
///
/// `NO_MEMORY` if it runs out of memory.
///
/// # Examples
///
/// ```rust
/// use mail_records::addresses::addresses;
///
/// let found = addresses(alloc, b"Ann <ann@example.org>", &())?;
/// assert_eq!(rt; found.strings.as_slice(), b"Annann@example.org".as_slice());
/// assert_eq!(rt; found.records[0].name_end, 3);
/// ```
pub fn addresses<K: KnownCharsets>(
    alloc: Global,
    raw: &[u8],
    known: &K,
) -> Result<Rows<AddressRecord>, u32>
    ensures { IsCoded rows_view result (Ok (addresses_read (K.known known.now) raw.now)) }
{
    match records_in(alloc, raw, known) {
        Ok(found) => Ok(found),
        Err(_) => Err(NO_MEMORY),
    }
}

/// Returns the records of the addresses in a raw value.
fn records_in<K: KnownCharsets>(
    alloc: Global,
    raw: &[u8],
    known: &K,
) -> Result<Rows<AddressRecord>, MailParseError>
    ensures { IfOk result (λ found.
        rows_view found ≡ addresses_read (K.known known.now) raw.now) }
{
    let list = lenient_addresses(alloc, raw)?;
    let mut found = Rows {
        records: Vec::with_capacity(alloc, list.len())?,
        strings: Vec::new(alloc),
    };
    push_elements(alloc, &mut found, list.as_slice(), known)?;
    Ok(found)
}

/// Appends the records of the elements of a list to none.
fn push_elements<K: KnownCharsets>(
    alloc: Global,
    found: &mut Rows<AddressRecord>,
    list: &[Address<'_>],
    known: &K,
) -> Result<(), MailParseError>
    ensures { OnOk result (AreRecords [] found.old →
        AreRecords (entries_from (K.known known.now) 0 (map element_view list.now)) found.new) }
{
    for element in list {
        push_element(alloc, found, element, known)?;
    }
    Ok(())
}

/// Appends the records of an element.
fn push_element<K: KnownCharsets>(
    alloc: Global,
    found: &mut Rows<AddressRecord>,
    element: &Address<'_>,
    known: &K,
) -> Result<(), MailParseError>
    ensures { OnOk result ((entries : List Entry) → AreRecords entries found.old →
        AreRecords (entries ++ element_entries (K.known known.now) (length entries)
        (element_view element.now)) found.new) }
{
    match element {
        Address::Mailbox(mailbox) => push_mailbox(alloc, found, mailbox, NONE, known),
        Address::Group(group) => push_group(alloc, found, group, known),
        Address::Unknown(unknown) => push_unknown(found, unknown, NONE),
    }
}

/// Appends the records of a group and of its members.
fn push_group<K: KnownCharsets>(
    alloc: Global,
    found: &mut Rows<AddressRecord>,
    group: &Group<'_>,
    known: &K,
) -> Result<(), MailParseError>
    ensures { OnOk result ((entries : List Entry) → AreRecords entries found.old →
        AreRecords (entries ++ group_entry (K.known known.now) group.now.display_name.now
        ∷ map (single_entry (K.known known.now) (length entries))
        (group_view group.now).members) found.new) }
{
    let index = found.records.len() as u64;
    let name = group.get_shown_name(alloc, known)?;
    push_entry(found, name.as_bytes(), b"", 1, NONE)?;
    push_members(alloc, found, group.members.as_slice(), index, known)
}

/// Appends the records of members of the group with this index.
fn push_members<K: KnownCharsets>(
    alloc: Global,
    found: &mut Rows<AddressRecord>,
    members: &[Member<'_>],
    group: u64,
    known: &K,
) -> Result<(), MailParseError>
    ensures { OnOk result (AppendsRecords (map (single_entry (K.known known.now) group)
        (map member_view members.now)) found.old found.new) }
{
    for member in members {
        push_member(alloc, found, member, group, known)?;
    }
    Ok(())
}

/// Appends the record of a member of the group with this index.
fn push_member<K: KnownCharsets>(
    alloc: Global,
    found: &mut Rows<AddressRecord>,
    member: &Member<'_>,
    group: u64,
    known: &K,
) -> Result<(), MailParseError>
    ensures { OnOk result (AppendsRecords (single_entry (K.known known.now) group
        (member_view member.now) ∷ []) found.old found.new) }
{
    match member {
        Member::Mailbox(mailbox) => push_mailbox(alloc, found, mailbox, group, known),
        Member::Unknown(unknown) => push_unknown(found, unknown, group),
    }
}

/// Appends the record of a mailbox in the group with this index, or in none.
fn push_mailbox<K: KnownCharsets>(
    alloc: Global,
    found: &mut Rows<AddressRecord>,
    mailbox: &Mailbox<'_>,
    group: u64,
    known: &K,
) -> Result<(), MailParseError>
    ensures { OnOk result (AppendsRecords (single_entry (K.known known.now) group
        (mailbox_view mailbox.now) ∷ []) found.old found.new) }
{
    let name = mailbox.get_shown_name(alloc, known)?;
    let address = mailbox.get_address(alloc)?;
    push_entry(found, name.as_bytes(), address.as_bytes(), 0, group)
}

/// Appends the record of text that is no address, in the group with this index, or in none.
fn push_unknown(
    found: &mut Rows<AddressRecord>,
    unknown: &Unknown<'_>,
    group: u64,
) -> Result<(), MailParseError>
    ensures { OnOk result (AppendsRecords (record {
      kind = 2;
      group = group;
      name = [];
      address = unknown.now.text.now;
    } ∷ []) found.old found.new) }
{
    push_entry(found, b"", unknown.text, 2, group)
}

/// Appends a record.
fn push_entry(
    found: &mut Rows<AddressRecord>,
    name: &[u8],
    address: &[u8],
    kind: u64,
    group: u64,
) -> Result<(), MailParseError>
    ensures { OnOk result (AppendsRecords (record {
      kind = kind;
      group = group;
      name = name.now;
      address = address.now;
    } ∷ []) found.old found.new) }
{
    let start = found.strings.len() as u64;
    found.strings.reserve(name.len() + address.len())?;
    found.strings.extend_from_slice(name)?;
    let middle = found.strings.len() as u64;
    found.strings.extend_from_slice(address)?;
    let end = found.strings.len() as u64;
    found.records.push(AddressRecord {
        kind,
        group,
        name_start: start,
        name_end: middle,
        address_start: middle,
        address_end: end,
    })?;
    Ok(())
}
