//! Elements in a comment that is not closed.
ghost use Rattle.std.specs.Prelude.{◌≡◌, ◌+◌, ◌<◌, ◌≤◌, ◌++◌, ◌^◌, not, length, map, IfOk, OnOk};
ghost use Rattle.std.specs.List.{prefix_len};
ghost use Rattle.mail_address.specs.Addresses.{is_separator, items, single, single_at};
ghost use Rattle.mail_address.specs.AddressViews.{element_view};
ghost use Rattle.mail_address.specs.Lenient.{has_open_comment, opened, opened_len, piece_at};
ghost use Rattle.mail_address.specs.Lenient.{piece_len, separator_place};

use crate::lenient::{closed_end, has_no_opening};
use crate::lenient_list::single_of;
use crate::list::{AddressList, Unknown, single_at};
use std::alloc::{AllocError, Global};

/// Returns whether a byte is no separator of elements.
fn is_inner(byte: u8) -> bool
    ensures { result ≡ not (is_separator byte) }
{
    byte != b',' && byte != b';'
}

/// Returns the offset of the first separator, or the length.
fn separator_place(bytes: &[u8]) -> usize
    ensures value { result ≡ separator_place bytes.now }
    ensures bounds { result ≤ length bytes.now }
{
    bytes.iter().take_while(|byte| is_inner(**byte)).count()
}

/// Returns whether a text ends in a comment that is not closed, and that has no `<` in it.
#[tactic(auto, unfolding(crate::specs::Lenient::has_open_comment))]
pub(crate) fn has_open_comment(text: &[u8]) -> bool
    ensures { result ≡ has_open_comment text.now }
{
    let tail = &text[closed_end(text)..];
    !tail.is_empty() && has_no_opening(tail)
}

/// Returns the length of such a text up to the first separator in its comment.
#[tactic(auto, unfolding(crate::specs::Lenient::opened_len))]
fn opened_len(text: &[u8]) -> usize
    ensures value { result ≡ opened_len text.now }
    ensures bounds { result ≤ length text.now }
{
    let len = closed_end(text);
    len + separator_place(&text[len..])
}

/// Returns the elements that such a text is.
#[tactic(auto, unfolding(crate::specs::Lenient::opened))]
pub(crate) fn opened<'a>(
    alloc: Global,
    unknown: &Unknown<'a>,
) -> Result<AddressList<'a>, AllocError>
    ensures { IfOk result (λ list.
        map element_view list.items ≡ opened unknown.now.start unknown.now.text.now) }
{
    let text = unknown.text;
    // An element ends within its value, so the sum fits.
    if usize::MAX - unknown.start <= text.len() {
        return Err(AllocError);
    }
    let len = opened_len(text);
    let mut list = Vec::new(alloc);
    push_single(&mut list, unknown.start, &text[..len])?;
    let after = text.len().min(len + 1);
    let mut found = pieces(alloc, unknown.start + after, &text[after..])?;
    list.append(&mut found)?;
    Ok(list)
}

/// Appends the element that the bytes are, if they are more than whitespace and comments.
fn push_single<'a>(
    list: &mut AddressList<'a>,
    start: usize,
    text: &'a [u8],
) -> Result<(), AllocError>
    ensures { OnOk result (map element_view list.new.items
        ≡ map element_view list.old.items ++ map single (single_at start text.now)) }
{
    if let Some(member) = single_at(start, text) {
        list.push(single_of(member))?;
    }
    Ok(())
}

/// Returns the elements between separators.
fn pieces(alloc: Global, start: usize, bytes: &[u8]) -> Result<AddressList<'_>, AllocError>
    requires { start + length bytes.now < 2 ^ 64 }
    ensures { IfOk result (λ list.
        map element_view list.items ≡ items piece_at piece_len start bytes.now) }
{
    let mut list = Vec::new(alloc);
    let mut start = start;
    let mut rest = bytes;
    'pieces: while !rest.is_empty() {
        let len = push_piece(&mut list, start, rest)?;
        start += len;
        rest = &rest[len..];
    }
    Ok(list)
}

/// Appends the element before the first separator, and returns the length of both.
#[tactic(auto, unfolding(crate::specs::Lenient::piece_at, crate::specs::Lenient::piece_len))]
fn push_piece<'a>(
    list: &mut AddressList<'a>,
    start: usize,
    bytes: &'a [u8],
) -> Result<usize, AllocError>
    requires { 0 < length bytes.now }
    ensures pushed { IfOk result (λ len. map element_view list.new.items
        ≡ map element_view list.old.items ++ piece_at start bytes.now) }
    ensures len { IfOk result (λ len. len ≡ piece_len bytes.now) }
    ensures bounds { IfOk result (λ len. len ≤ length bytes.now) }
    ensures takes_some { IfOk result (λ len. 0 < len) }
{
    let len = separator_place(bytes);
    push_single(list, start, &bytes[..len])?;
    Ok(bytes.len().min(len + 1))
}
