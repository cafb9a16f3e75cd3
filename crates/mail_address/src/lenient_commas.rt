//! Display names that contain a comma.
ghost use Rattle.std.specs.Prelude.{◌≡◌, ◌<◌, ◌≤◌, ◌++◌, drop, length, map, option_map, take, IfOk};
ghost use Rattle.std.specs.List.{prefix_len};
ghost use Rattle.mail_address.specs.AddressViews.{element_view};
ghost use Rattle.mail_address.specs.Lenient.{between, end_of, front_elements, is_bracketed};
ghost use Rattle.mail_address.specs.Lenient.{is_name_part, joined};
ghost use Rattle.mail_address.specs.Order.{start_of, text_of};

use crate::lenient::lenient_mailbox;
use crate::lenient_several::has_brackets;
use crate::list::{Address, Unknown};
use crate::mailbox::is_phrase;
use crate::tokens::begins_at;
use std::alloc::AllocError;

/// Returns the bytes from an offset on.
fn from_offset(raw: &[u8], start: usize) -> &[u8]
    ensures { result.now ≡ drop start raw.now }
{
    &raw[start.min(raw.len())..]
}

/// Returns whether an element is words of a name before a comma.
fn is_name_part(raw: &[u8], element: &Address<'_>) -> bool
    ensures { result ≡ is_name_part raw.now (element_view element.now) }
{
    match element {
        Address::Unknown(unknown) => {
            let rest = from_offset(raw, unknown.start);
            is_phrase(unknown.text) && begins_at(rest, unknown.text.len(), b',')
        }
        Address::Mailbox(_) | Address::Group(_) => false,
    }
}

/// Returns how many elements at the front are words of a name before a comma.
fn name_parts(raw: &[u8], elements: &[Address<'_>]) -> usize
    ensures value { result
        ≡ prefix_len (λ e. is_name_part raw.now (element_view e)) elements.now }
    ensures bounds { result ≤ length elements.now }
{
    elements
        .iter()
        .take_while(|element| is_name_part(raw, *element))
        .count()
}

/// Returns whether an element is a mailbox with an address in angle brackets.
fn is_bracketed(element: &Address<'_>) -> bool
    ensures { result ≡ is_bracketed (element_view element.now) }
{
    match element {
        Address::Mailbox(mailbox) => has_brackets(mailbox.text),
        Address::Unknown(unknown) => {
            has_brackets(unknown.text) && lenient_mailbox(unknown.text).is_some()
        }
        Address::Group(_) => false,
    }
}

/// Returns the offset of an element.
fn start_of(element: &Address<'_>) -> usize
    ensures { result ≡ start_of (element_view element.now) }
{
    match element {
        Address::Mailbox(mailbox) => mailbox.start,
        Address::Unknown(unknown) => unknown.start,
        Address::Group(group) => group.start,
    }
}

/// Returns the bytes of an element.
fn text_of<'a>(element: &Address<'a>) -> &'a [u8]
    ensures { result.now ≡ text_of (element_view element.now) }
{
    match element {
        Address::Mailbox(mailbox) => mailbox.text,
        Address::Unknown(unknown) => unknown.text,
        Address::Group(group) => group.text,
    }
}

/// Returns the offset after an element.
fn end_of(element: &Address<'_>) -> Result<usize, AllocError>
    ensures { IfOk result (λ end. end ≡ end_of (element_view element.now)) }
{
    let start = start_of(element);
    let len = text_of(element).len();
    // An element ends within its value, so the sum fits.
    if usize::MAX - start < len {
        return Err(AllocError);
    }
    Ok(start + len)
}

/// Returns the bytes from the start of an element to the end of another one, as an element.
fn between<'a>(
    raw: &'a [u8],
    first: &Address<'_>,
    last: &Address<'_>,
) -> Result<Address<'a>, AllocError>
    ensures { IfOk result (λ whole. element_view whole
        ≡ between raw.now (start_of (element_view first.now)) (end_of (element_view last.now))) }
{
    let start = start_of(first);
    let end = end_of(last)?;
    let rest = from_offset(raw, start);
    let text = &rest[..end.saturating_sub(start).min(rest.len())];
    Ok(Address::Unknown(Unknown { start, text }))
}

/// Returns the mailbox that the elements at the front are, if they are words of a name and a mailbox
/// that has it, and how many they are. Otherwise returns how many stay as they are: such words, and
/// the element after them.
pub(crate) fn front<'a>(
    raw: &'a [u8],
    elements: &[Address<'a>],
) -> Result<(Option<Address<'a>>, usize), AllocError>
    requires { 0 < length elements.now }
    ensures value { IfOk result (λ found. joined raw.now (map element_view elements.now)
        ≡ front_elements (option_map element_view found.0)
        (map element_view (take found.1 elements.now))
        ++ joined raw.now (map element_view (drop found.1 elements.now))) }
    ensures bounds { IfOk result (λ found. found.1 ≤ length elements.now) }
    ensures takes_some { IfOk result (λ found. 0 < found.1) }
{
    let names = name_parts(raw, elements);
    if 0 < names && names < elements.len() && is_bracketed(&elements[names]) {
        let whole = between(raw, &elements[0], &elements[names])?;
        return Ok((Some(whole), names + 1));
    }
    Ok((None, elements.len().min(names + 1)))
}
