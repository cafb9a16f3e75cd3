//! Several addresses in one element, with nothing between them but whitespace and comments.
ghost use Rattle.std.specs.Prelude.{◌≡◌, ◌+◌, ◌<◌, ◌≤◌, ◌++◌, length, map, IfOk};
ghost use Rattle.mail_address.specs.AddressViews.{element_view};
ghost use Rattle.mail_address.specs.Lenient.{address_end, angle_end, are_several, at_end};
ghost use Rattle.mail_address.specs.Lenient.{has_brackets, known_len, several, several_at};
ghost use Rattle.mail_address.specs.Lenient.{several_len, word_end};

use crate::lenient::lenient_mailbox;
use crate::lenient_list::{refined_member, single_of};
use crate::list::{AddressList, Member, Unknown};
use crate::mailbox::is_enclosed;
use crate::tokens::{Span, Steps, far, front_token, run};
use mail_codec::bytescan::find;
use std::alloc::{AllocError, Global};

/// Returns whether a text contains a pair of angle brackets outside of quotes and comments.
pub(crate) fn has_brackets(text: &[u8]) -> bool
    ensures { result ≡ has_brackets text.now }
{
    is_enclosed(front_token(&text[run(Span::BeforeAngle, text)..]).kind)
}

/// Returns the length of the bytes up to the end of the first pair of angle brackets.
#[tactic(auto, unfolding(crate::specs::Lenient::angle_end))]
fn angle_end(bytes: &[u8]) -> usize
    ensures value { result ≡ angle_end bytes.now }
    ensures bounds { result ≤ length bytes.now }
{
    let angle = run(Span::BeforeAngle, bytes);
    angle + front_token(&bytes[angle..]).len
}

/// Returns the length of the bytes up to the first `@`, and of that; more than all if there is none.
#[tactic(auto, unfolding(crate::specs::Lenient::at_end))]
fn at_end(bytes: &[u8]) -> usize
    ensures value { result ≡ at_end bytes.now }
    ensures bounds { result ≤ length bytes.now + 1 }
{
    run(Span::BeforeAt, bytes) + 1
}

/// Returns the length of the bytes up to the end of the first word with an `@`; more than all if
/// there is none.
#[tactic(auto, unfolding(crate::specs::Lenient::word_end))]
fn word_end(bytes: &[u8]) -> usize
    ensures value { result ≡ word_end bytes.now }
    ensures bounds { result ≤ length bytes.now + 1 }
{
    let at = at_end(bytes);
    at + run(Span::BeforeWhite, &bytes[at.min(bytes.len())..])
}

/// Returns the length of the bytes up to the end of the first address, with angle brackets or
/// without.
fn address_end(has_angles: bool, bytes: &[u8]) -> usize
    ensures value { result ≡ address_end has_angles bytes.now }
    ensures bounds { result ≤ length bytes.now + 1 }
{
    if has_angles {
        return angle_end(bytes);
    }
    word_end(bytes)
}

/// Returns that length with the whitespace and comments after the address.
#[tactic(auto, unfolding(crate::specs::Lenient::several_len))]
fn several_len(has_angles: bool, bytes: &[u8]) -> usize
    ensures value { result ≡ several_len has_angles bytes.now }
    ensures bounds { result ≤ length bytes.now }
{
    let len = address_end(has_angles, bytes);
    let white = run(Span::White, &bytes[len.min(bytes.len())..]);
    bytes.len().min(len + white)
}

/// The step over the first of several addresses, if it is a mailbox.
#[derive(Clone, Copy)]
struct Known {
    has_angles: bool,
}

impl Steps for Known {
    ghost passes = { λ known. known_len known.has_angles };

    #[tactic(auto, unfolding(crate::specs::Lenient::known_len))]
    fn pass(self, bytes: &[u8]) -> usize {
        let len = several_len(self.has_angles, bytes);
        match lenient_mailbox(&bytes[..len]) {
            Some(_) => len,
            None => 0,
        }
    }
}

/// Returns whether the bytes are addresses with nothing between them.
#[tactic(auto, unfolding(crate::specs::Lenient::are_several))]
pub(crate) fn are_several(text: &[u8]) -> bool
    ensures { result ≡ are_several text.now }
{
    let has_angles = has_brackets(text);
    find(text, b"=?").is_none() && far(Known { has_angles }, text) == text.len()
}

/// Returns the elements that these addresses are.
#[tactic(auto, unfolding(crate::specs::Lenient::several))]
pub(crate) fn several<'a>(
    alloc: Global,
    unknown: &Unknown<'a>,
) -> Result<AddressList<'a>, AllocError>
    ensures { IfOk result (λ list.
        map element_view list.items ≡ several unknown.now.start unknown.now.text.now) }
{
    // An element ends within its value, so the sum fits.
    if usize::MAX - unknown.start <= unknown.text.len() {
        return Err(AllocError);
    }
    let has_angles = has_brackets(unknown.text);
    let mut list = Vec::new(alloc);
    let mut start = unknown.start;
    let mut rest = unknown.text;
    'addresses: while !rest.is_empty() {
        let len = push_first(&mut list, has_angles, start, rest)?;
        start += len;
        rest = &rest[len..];
    }
    Ok(list)
}

/// Appends the first of several addresses, and returns its length.
#[tactic(auto, using(crate::proofs::lemmas::LenientLists::several_len_some), unfolding(crate::specs::Lenient::several_at))]
fn push_first<'a>(
    list: &mut AddressList<'a>,
    has_angles: bool,
    start: usize,
    bytes: &'a [u8],
) -> Result<usize, AllocError>
    requires { 0 < length bytes.now }
    ensures pushed { IfOk result (λ len. map element_view list.new.items
        ≡ map element_view list.old.items ++ several_at has_angles start bytes.now) }
    ensures len { IfOk result (λ len. len ≡ several_len has_angles bytes.now) }
    ensures bounds { IfOk result (λ len. len ≤ length bytes.now) }
    ensures takes_some { IfOk result (λ len. 0 < len) }
{
    let len = several_len(has_angles, bytes);
    let (text, _) = bytes.split_at(len);
    list.push(single_of(refined_member(&Member::Unknown(Unknown { start, text }))))?;
    Ok(len)
}
