//! Members of groups, read leniently.
ghost use Rattle.std.specs.Prelude.{◌≡◌, ◌++◌, ◌<◌, ◌≤◌, drop, length, map, IfOk, OnOk};
ghost use Rattle.mail_address.specs.AddressViews.{element_view, member_view};
ghost use Rattle.mail_address.specs.Addresses.{single};
ghost use Rattle.mail_address.specs.Lenient.{joined, lenient_member, lenient_members};
ghost use Rattle.mail_address.specs.Lenient.{refined_members};

use crate::lenient_commas::front;
use crate::lenient_list::{refined_mailbox, refined_member, single_of};
use crate::list::{Address, Member};
use std::alloc::{AllocError, Global};

/// Returns the members of a group, joined where a name contains a comma, and read leniently.
pub(crate) fn refined_members<'a>(
    alloc: Global,
    raw: &'a [u8],
    members: &[Member<'a>],
) -> Result<Vec<Member<'a>>, AllocError>
    ensures { IfOk result (λ list.
        map member_view list.items ≡ refined_members raw.now (map member_view members.now)) }
{
    let mut list = Vec::with_capacity(alloc, members.len())?;
    let elements = elements_of(alloc, members)?;
    push_joined(&mut list, raw, elements.as_slice())?;
    Ok(list)
}

/// Returns members as elements of a list.
fn elements_of<'a>(alloc: Global, members: &[Member<'a>]) -> Result<Vec<Address<'a>>, AllocError>
    ensures { IfOk result (λ list.
        map element_view list.items ≡ map single (map member_view members.now)) }
{
    let mut list = Vec::with_capacity(alloc, members.len())?;
    for member in members {
        list.push(single_of(*member))?;
    }
    Ok(list)
}

/// Appends elements as members, joined where a name contains a comma, and read leniently.
fn push_joined<'a>(
    list: &mut Vec<Member<'a>>,
    raw: &'a [u8],
    elements: &[Address<'a>],
) -> Result<(), AllocError>
    ensures { OnOk result (map member_view list.new.items ≡ map member_view list.old.items
        ++ lenient_members (joined raw.now (map element_view elements.now))) }
{
    let mut rest = elements;
    'fronts: while !rest.is_empty() {
        let len = push_front(list, raw, rest)?;
        rest = &rest[len..];
    }
    Ok(())
}

/// Appends the elements at the front that are words of a name and the one after them, joined if it
/// has that name. Returns the number of elements.
fn push_front<'a>(
    list: &mut Vec<Member<'a>>,
    raw: &'a [u8],
    elements: &[Address<'a>],
) -> Result<usize, AllocError>
    requires { 0 < length elements.now }
    ensures pushed { IfOk result (λ len. map member_view list.new.items
        ++ lenient_members (joined raw.now (map element_view (drop len elements.now)))
        ≡ map member_view list.old.items
        ++ lenient_members (joined raw.now (map element_view elements.now))) }
    ensures bounds { IfOk result (λ len. len ≤ length elements.now) }
    ensures takes_some { IfOk result (λ len. 0 < len) }
{
    let (whole, len) = front(raw, elements)?;
    if let Some(element) = whole {
        push_member(list, &element)?;
        return Ok(len);
    }
    push_each(list, &elements[..len])?;
    Ok(len)
}

/// Appends elements as members, read leniently.
fn push_each<'a>(list: &mut Vec<Member<'a>>, elements: &[Address<'a>]) -> Result<(), AllocError>
    ensures { OnOk result (map member_view list.new.items ≡ map member_view list.old.items
        ++ lenient_members (map element_view elements.now)) }
{
    for element in elements {
        push_member(list, element)?;
    }
    Ok(())
}

/// Appends an element as a member, read leniently. A group is no member.
fn push_member<'a>(list: &mut Vec<Member<'a>>, element: &Address<'a>) -> Result<(), AllocError>
    ensures { OnOk result (map member_view list.new.items ≡ map member_view list.old.items
        ++ lenient_member (element_view element.now)) }
{
    match element {
        Address::Mailbox(mailbox) => list.push(Member::Mailbox(refined_mailbox(mailbox)))?,
        Address::Unknown(unknown) => list.push(refined_member(&Member::Unknown(*unknown)))?,
        Address::Group(_) => {}
    }
    Ok(())
}
