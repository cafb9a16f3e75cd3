//! Lists of addresses, written so that they read back.
ghost use Rattle.std.specs.Prelude.{◌≡◌, ◌++◌, IfErr, IfOk, OnOk, flat_map, not, string_bytes};
ghost use Rattle.std.specs.Prelude.{true};
ghost use Rattle.std.specs.List.{list_all};
ghost use Rattle.mail_address.specs.Encode.{one_word};
ghost use Rattle.mail_address.specs.Text.{quoted_text};
ghost use Rattle.mail_address.specs.Writer.{are_atoms, are_writable, is_element_writable};
ghost use Rattle.mail_address.specs.Writer.{is_literal, is_refusal, is_writable};
ghost use Rattle.mail_address.specs.Writer.{joined, next_element, next_mailbox};
ghost use Rattle.mail_address.specs.Writer.{written_element, written_group};
ghost use Rattle.mail_address.specs.Writer.{written_list, written_local, written_mailbox};
ghost use Rattle.mail_address.specs.Writer.{written_name, written_phrase};

use crate::encode::{is_plain, push_word};
use crate::folding::has_no_control;
use crate::text::{needs_no_quotes, push_escaped};
use crate::tokens::{Span, front_token, is_atom_byte, is_in};
use std::alloc::{AllocError, Global};
use thiserror::Error;

/// A mailbox to write.
#[derive(Clone, Copy, Debug)]
pub struct NewMailbox<'a> {
    /// The display name: any text, or nothing.
    pub display_name: &'a str,
    /// The local part, before the `@`, without the quotes that it may need.
    pub local_part: &'a str,
    /// The domain, after the `@`, or a domain literal with its brackets.
    pub domain: &'a str,
}

/// A group to write.
#[derive(Clone, Copy, Debug)]
pub struct NewGroup<'a> {
    /// The name: any text.
    pub display_name: &'a str,
    /// The members, in order.
    pub members: &'a [NewMailbox<'a>],
}

/// An element of a list to write.
#[derive(Clone, Copy, Debug)]
pub enum NewAddress<'a> {
    /// A mailbox.
    Mailbox(NewMailbox<'a>),
    /// A group, perhaps with no members.
    Group(NewGroup<'a>),
}

/// Why a list of addresses is not written.
#[derive(Debug, Drop, Error)]
pub enum WriteError {
    /// A local part or a domain contains a control character, or a domain is neither a dot-atom nor
    /// a domain literal.
    #[error("no address has such a local part or domain")]
    Address,
    /// Memory ran out.
    #[error("out of memory")]
    Memory(AllocError),
}

impl From<AllocError> for WriteError {
    ghost use Rattle.mail_address.specs.declared.writer.WriteError.TheVariants.{Memory};

    ghost from_gives = { λ e error. error ≡ Memory e };

    fn from(e: AllocError) -> WriteError {
        WriteError::Memory(e)
    }
}

/// Returns the value of an address header, such as `From`, that is read back as these elements (RFC
/// 5322, section 3.4; RFC 2047, section 5).
///
/// A name of atoms separated by single spaces is written as it is. Any other name that is plain,
/// as `encode::is_plain` says, becomes a quoted string, and all others become one encoded word.
/// Such a word is longer than the 75 characters that RFC 2047 allows if the name has more than 45
/// bytes. An address is written in angle brackets, with its local part in quotes if it needs them.
/// Elements are separated by a comma, CR LF and a space, so no line has more than one address.
/// Allocates the value, and one encoded word at a time.
///
/// # Errors
///
/// `WriteError::Address` if a local part or a domain contains a control character, or a domain is
/// neither a dot-atom nor a domain literal; `WriteError::Memory` if memory runs out.
///
/// # Examples
///
/// ```rust
/// use mail_address::{NewAddress, NewMailbox, write_addresses};
///
/// let ann = NewMailbox { display_name: "Doe, Ann", local_part: "ann", domain: "example.org" };
/// let value = write_addresses(alloc, &[NewAddress::Mailbox(ann)])?;
/// assert_eq!(rt; value.as_slice(), b"\"Doe, Ann\" <ann@example.org>".as_slice());
/// ```
pub fn write_addresses(alloc: Global, addresses: &[NewAddress<'_>]) -> Result<Vec<u8>, WriteError>
    ensures written { IfOk result (λ out. (are_writable addresses.now ≡ true)
        × (out.items ≡ written_list addresses.now)) }
    ensures refused { IfErr result (λ e. is_refusal e ≡ not (are_writable addresses.now)) }
{
    if !are_writable(addresses) {
        return Err(WriteError::Address);
    }
    let mut out = Vec::new(alloc);
    push_list(alloc, &mut out, addresses)?;
    Ok(out)
}

/// Returns whether all elements can be written.
fn are_writable(addresses: &[NewAddress<'_>]) -> bool
    ensures { result ≡ are_writable addresses.now }
{
    addresses.iter().all(|address| is_element_writable(address))
}

/// Returns whether all addresses of an element can be written.
fn is_element_writable(address: &NewAddress<'_>) -> bool
    ensures { result ≡ is_element_writable address.now }
{
    match address {
        NewAddress::Mailbox(mailbox) => is_writable(mailbox),
        NewAddress::Group(group) => are_members_writable(group.members),
    }
}

/// Returns whether all members of a group can be written.
fn are_members_writable(members: &[NewMailbox<'_>]) -> bool
    ensures { result ≡ list_all is_writable members.now }
{
    members.iter().all(|member| is_writable(member))
}

/// Returns whether an address can be written.
#[tactic(auto, unfolding(crate::specs::Writer::is_writable))]
fn is_writable(mailbox: &NewMailbox<'_>) -> bool
    ensures { result ≡ is_writable mailbox.now }
{
    let domain = mailbox.domain.as_bytes();
    has_no_control(mailbox.local_part.as_bytes())
        && has_no_control(domain)
        && (needs_no_quotes(domain) || is_literal(domain))
}

/// Returns whether a text is a domain literal.
#[tactic(auto, unfolding(crate::specs::Writer::is_literal))]
fn is_literal(text: &[u8]) -> bool
    ensures { result ≡ is_literal text.now }
{
    let token = front_token(text);
    is_in(Span::Literals, token.kind) && token.len == text.len()
}

/// Returns whether a text is atoms separated by single spaces.
fn are_atoms(text: &[u8]) -> bool
    ensures { result ≡ are_atoms text.now }
{
    let mut in_word = false;
    for byte in text {
        let byte = *byte;
        if byte == b' ' {
            if !in_word {
                return false;
            }
            in_word = false;
        } else {
            if !is_atom_byte(byte) {
                return false;
            }
            in_word = true;
        }
    }
    in_word
}

/// Appends elements, separated by a comma and a fold.
#[tactic(auto, unfolding(crate::specs::Writer::written_list))]
fn push_list(
    alloc: Global,
    out: &mut Vec<u8>,
    addresses: &[NewAddress<'_>],
) -> Result<(), AllocError>
    ensures { OnOk result (out.new.items ≡ out.old.items ++ written_list addresses.now) }
{
    let Some((first, rest)) = addresses.split_first() else {
        return Ok(());
    };
    push_element(alloc, out, first)?;
    push_elements(alloc, out, rest)
}

/// Appends elements, with a comma and a fold before each.
fn push_elements(
    alloc: Global,
    out: &mut Vec<u8>,
    addresses: &[NewAddress<'_>],
) -> Result<(), AllocError>
    ensures { OnOk result (out.new.items ≡ out.old.items ++ flat_map next_element addresses.now) }
{
    for address in addresses {
        out.extend_from_slice(b",\r\n ")?;
        push_element(alloc, out, address)?;
    }
    Ok(())
}

/// Appends an element.
fn push_element(
    alloc: Global,
    out: &mut Vec<u8>,
    address: &NewAddress<'_>,
) -> Result<(), AllocError>
    ensures { OnOk result (out.new.items ≡ out.old.items ++ written_element address.now) }
{
    match address {
        NewAddress::Mailbox(mailbox) => push_mailbox(alloc, out, mailbox),
        NewAddress::Group(group) => push_group(alloc, out, group),
    }
}

/// Appends a group: its name, a colon, its members and a semicolon.
fn push_group(alloc: Global, out: &mut Vec<u8>, group: &NewGroup<'_>) -> Result<(), AllocError>
    ensures { OnOk result (out.new.items ≡ out.old.items ++ written_group group.now) }
{
    push_phrase(alloc, out, group.display_name)?;
    out.push(b':')?;
    push_members(alloc, out, group.members)?;
    out.push(b';')?;
    Ok(())
}

/// Appends the members of a group, separated by a comma and a fold.
fn push_members(
    alloc: Global,
    out: &mut Vec<u8>,
    members: &[NewMailbox<'_>],
) -> Result<(), AllocError>
    ensures { OnOk result (out.new.items ≡ out.old.items ++ joined written_mailbox members.now) }
{
    let Some((first, rest)) = members.split_first() else {
        return Ok(());
    };
    push_mailbox(alloc, out, first)?;
    push_mailboxes(alloc, out, rest)
}

/// Appends mailboxes, with a comma and a fold before each.
fn push_mailboxes(
    alloc: Global,
    out: &mut Vec<u8>,
    members: &[NewMailbox<'_>],
) -> Result<(), AllocError>
    ensures { OnOk result (out.new.items ≡ out.old.items ++ flat_map next_mailbox members.now) }
{
    for member in members {
        out.extend_from_slice(b",\r\n ")?;
        push_mailbox(alloc, out, member)?;
    }
    Ok(())
}

/// Appends a mailbox: its name, and its address in angle brackets.
fn push_mailbox(
    alloc: Global,
    out: &mut Vec<u8>,
    mailbox: &NewMailbox<'_>,
) -> Result<(), AllocError>
    ensures { OnOk result (out.new.items ≡ out.old.items ++ written_mailbox mailbox.now) }
{
    push_name(alloc, out, mailbox.display_name)?;
    out.push(b'<')?;
    push_written_local(out, mailbox.local_part.as_bytes())?;
    out.push(b'@')?;
    out.extend_from_slice(mailbox.domain.as_bytes())?;
    out.push(b'>')?;
    Ok(())
}

/// Appends a name and a space, or nothing if the name is empty.
#[tactic(auto, unfolding(crate::specs::Writer::written_name))]
fn push_name(alloc: Global, out: &mut Vec<u8>, name: &str) -> Result<(), AllocError>
    ensures { OnOk result (out.new.items ≡ out.old.items ++ written_name name.now) }
{
    if name.is_empty() {
        return Ok(());
    }
    push_phrase(alloc, out, name)?;
    out.push(b' ')?;
    Ok(())
}

/// Appends a name as atoms, as a quoted string or as an encoded word.
#[tactic(auto, unfolding(crate::specs::Writer::written_phrase))]
fn push_phrase(alloc: Global, out: &mut Vec<u8>, name: &str) -> Result<(), AllocError>
    ensures { OnOk result (out.new.items ≡ out.old.items ++ written_phrase name.now) }
{
    let bytes = name.as_bytes();
    if !is_plain(bytes) {
        return push_encoded(alloc, out, name);
    }
    if are_atoms(bytes) {
        out.extend_from_slice(bytes)?;
        return Ok(());
    }
    push_quoted(out, bytes)
}

/// Appends a text as an encoded word.
fn push_encoded(alloc: Global, out: &mut Vec<u8>, text: &str) -> Result<(), AllocError>
    ensures { OnOk result (out.new.items ≡ out.old.items ++ one_word text.now) }
{
    let mut word = String::new(alloc);
    push_word(&mut word, text)?;
    out.extend_from_slice(word.as_bytes())
}

/// Appends a text as a quoted string.
#[tactic(auto, unfolding(crate::specs::Text::quoted_text))]
fn push_quoted(out: &mut Vec<u8>, text: &[u8]) -> Result<(), AllocError>
    ensures { OnOk result (out.new.items ≡ out.old.items ++ quoted_text text.now) }
{
    out.push(b'"')?;
    push_escaped(out, text)?;
    out.push(b'"')?;
    Ok(())
}

/// Appends a local part, in quotes if it needs them.
#[tactic(auto, unfolding(crate::specs::Writer::written_local))]
fn push_written_local(out: &mut Vec<u8>, text: &[u8]) -> Result<(), AllocError>
    ensures { OnOk result (out.new.items ≡ out.old.items ++ written_local text.now) }
{
    if needs_no_quotes(text) {
        out.extend_from_slice(text)?;
        return Ok(());
    }
    push_quoted(out, text)
}
