//! A list of addresses: mailboxes, groups, and elements that are not addresses.
ghost use Rattle.std.specs.Prelude.{◌≡◌, ◌++◌, ◌+◌, ◌<◌, ◌≤◌, ◌^◌, ◌==◌, true, length, map, IfOk};
ghost use Rattle.std.specs.Prelude.{IfSome, MatchOption, ◌∷◌, [], take, option_map, drop, Some};
ghost use Rattle.std.specs.Prelude.{string_bytes};
ghost use Rattle.mail_codec.specs.Places.{begins};
ghost use Rattle.mailparse.specs.Outcome.{GivesText};
ghost use Rattle.mailparse.specs.Value.{lenient_value_in, value_text};
ghost use Rattle.mail_address.specs.Accepted.{bare_text};
ghost use Rattle.mail_address.specs.Text.{address_bytes, phrase_text};
ghost use Rattle.mail_address.specs.Addresses.{addresses, after_name, element_at, element_len};
ghost use Rattle.mail_address.specs.Addresses.{group_at, group_len, inner_len, is_group};
ghost use Rattle.mail_address.specs.Addresses.{is_separator, member_at, member_len, members_at};
ghost use Rattle.mail_address.specs.Addresses.{name_len, separator_len, single_at};
ghost use Rattle.mail_address.specs.AddressViews.{element_view, group_view, mailbox_view};
ghost use Rattle.mail_address.specs.AddressViews.{member_view};
ghost use Rattle.mail_address.specs.MailboxViews.{parts};
ghost use Rattle.mail_address.specs.ShownNames.{shown_display_name};
ghost use Rattle.mail_address.specs.private.Plain.{IsFront, IsSingle};

use crate::mailbox::{is_phrase, mailbox_of};
use crate::plain::{Level, Plain, ends_single, plain_mailbox};
use crate::shown_names::shown_name;
use crate::text::{address_text, bare_text, name_text};
use crate::tokens::{Span, begins_at, is_all_white, run};
use mail_codec::charset::KnownCharsets;
use mailparse::MailParseError;
use std::alloc::{AllocError, Global};

/// A mailbox (RFC 5322, section 3.4). Its parts are the bytes as they are written: with whitespace
/// and comments, with quotes, and with encoded words.
#[derive(Clone, Copy, Debug)]
pub struct Mailbox<'a> {
    /// Its offset in the value that was read.
    pub start: usize,
    /// Its bytes.
    pub text: &'a [u8],
    /// The display name, or nothing.
    pub display_name: &'a [u8],
    /// The bytes before the `@`, without a route (section 4.4).
    pub local_part: &'a [u8],
    /// The bytes after the `@`.
    pub domain: &'a [u8],
}

impl<'a> Mailbox<'a> {
    /// Returns the display name as text: without quotes and comments, with one space for
    /// whitespace, and then with its encoded words decoded in the `known` charsets (RFC 5322,
    /// section 3.4; RFC 2047).
    ///
    /// An encoded word that the standard forbids, such as one without its padding, stays as it is;
    /// `get_shown_name` decodes it. The text is empty if there is no name. It may contain anything,
    /// such as `<` or a comma, and is never an address. Allocates the text.
    ///
    /// # Errors
    ///
    /// `MailParseError::Memory` if memory runs out.
    ///
    /// # Examples
    ///
    /// ```rust
    /// use mail_address::{Address, read_addresses};
    /// use mailparse::SingleByteTable;
    ///
    /// for address in &read_addresses(alloc, b"=?utf-8?q?Doe=2C_Ann?= <ann@example.org>")? {
    ///     if let Address::Mailbox(mailbox) = address {
    ///         assert_eq!(rt; mailbox.get_display_name(alloc, &())?.as_str(), "Doe, Ann");
    ///     }
    /// }
    ///
    /// let tables = [SingleByteTable { labels: &["x-euro"], high: &['€'; 128] }];
    /// for address in &read_addresses(alloc, b"=?x-euro?q?=80?= <ann@example.org>")? {
    ///     if let Address::Mailbox(mailbox) = address {
    ///         let name = mailbox.get_display_name(alloc, &tables.as_slice())?;
    ///         assert_eq!(rt; name.as_str(), "€");
    ///     }
    /// }
    /// ```
    pub fn get_display_name<K: KnownCharsets>(
        &self,
        alloc: Global,
        known: &K,
    ) -> Result<String, MailParseError>
        ensures { GivesText result (lenient_value_in (K.known known.now)
            (phrase_text self.now.display_name.now)) }
    {
        name_text(alloc, self.display_name, known)
    }

    /// Returns the display name as people see it, on one line: its encoded words are read leniently,
    /// as `lenient_name_text` of `mail_data` reads them, and if the text begins and ends with `"`,
    /// or with `'`, these two are left out (RFC 2047).
    ///
    /// Words may be beside each other, lack their padding, and cut a character in two. Bytes outside
    /// of words that are not UTF-8 are windows-1252. Some programs encode a name together with its
    /// quotes, and some write `'` around it. An apostrophe at one end alone stays, and of quotes
    /// within quotes only the outer ones are left out. Allocates the text.
    ///
    /// # Errors
    ///
    /// `MailParseError::Memory` if memory runs out.
    ///
    /// # Examples
    ///
    /// ```rust
    /// use mail_address::{Address, lenient_addresses};
    ///
    /// for address in &lenient_addresses(alloc, b"=?utf-8?Q?=22Ann=2C_B=22?= <ann@example.org>")? {
    ///     if let Address::Mailbox(mailbox) = address {
    ///         assert_eq!(rt; mailbox.get_shown_name(alloc, &())?.as_str(), "Ann, B");
    ///     }
    /// }
    ///
    /// for address in &lenient_addresses(alloc, b"=?utf-8?B?w6k?= <ann@example.org>")? {
    ///     if let Address::Mailbox(mailbox) = address {
    ///         assert_eq!(rt; mailbox.get_shown_name(alloc, &())?.as_str(), "é");
    ///         let name = mailbox.get_display_name(alloc, &())?;
    ///         assert_eq!(rt; name.as_str(), "=?utf-8?B?w6k?=");
    ///     }
    /// }
    /// ```
    pub fn get_shown_name<K: KnownCharsets>(
        &self,
        alloc: Global,
        known: &K,
    ) -> Result<String, MailParseError>
        ensures { GivesText result (shown_display_name (K.known known.now)
            self.now.display_name.now) }
    {
        shown_name(alloc, self.display_name, known)
    }

    /// Returns the address in canonical form, `local@domain`: without comments, folding and
    /// whitespace, and with quotes only if the local part needs them (RFC 5322, sections 3.2.4 and
    /// 3.4.1).
    ///
    /// A mailbox that was read has no control character in it. Bytes that are not UTF-8 are read as
    /// Latin-1. Allocates the text.
    ///
    /// # Errors
    ///
    /// If memory runs out.
    ///
    /// # Examples
    ///
    /// ```rust
    /// use mail_address::{Address, read_addresses};
    ///
    /// for address in &read_addresses(alloc, b"\"ann\"@(home)example . org")? {
    ///     if let Address::Mailbox(mailbox) = address {
    ///         assert_eq!(rt; mailbox.get_address(alloc)?.as_str(), "ann@example.org");
    ///     }
    /// }
    /// ```
    pub fn get_address(&self, alloc: Global) -> Result<String, AllocError>
        ensures { IfOk result (λ text. string_bytes text
            ≡ value_text (address_bytes self.now.local_part.now self.now.domain.now)) }
    {
        address_text(alloc, self.local_part, self.domain)
    }

    /// Returns the local part as text: without quotes, comments and whitespace, and without the
    /// folding of a quoted string (RFC 5322, section 3.4.1).
    ///
    /// With `get_domain` it is an address that `write_addresses` accepts. Bytes that are not UTF-8
    /// are read as Latin-1. Allocates the text.
    ///
    /// # Errors
    ///
    /// If memory runs out.
    ///
    /// # Examples
    ///
    /// ```rust
    /// use mail_address::{Address, read_addresses};
    ///
    /// for address in &read_addresses(alloc, b"Ann <\"a b\"@(home)example . org>")? {
    ///     if let Address::Mailbox(mailbox) = address {
    ///         assert_eq!(rt; mailbox.get_local_part(alloc)?.as_str(), "a b");
    ///     }
    /// }
    /// ```
    pub fn get_local_part(&self, alloc: Global) -> Result<String, AllocError>
        ensures { IfOk result (λ text. string_bytes text ≡ bare_text self.now.local_part.now) }
    {
        bare_text(alloc, self.local_part)
    }

    /// Returns the domain as text: without comments and whitespace, with the brackets of a domain
    /// literal (RFC 5322, section 3.4.1).
    ///
    /// With `get_local_part` it is an address that `write_addresses` accepts. Bytes that are not
    /// UTF-8 are read as Latin-1. Allocates the text.
    ///
    /// # Errors
    ///
    /// If memory runs out.
    ///
    /// # Examples
    ///
    /// ```rust
    /// use mail_address::{Address, read_addresses};
    ///
    /// for address in &read_addresses(alloc, b"ann@(home)example . org")? {
    ///     if let Address::Mailbox(mailbox) = address {
    ///         assert_eq!(rt; mailbox.get_domain(alloc)?.as_str(), "example.org");
    ///     }
    /// }
    /// ```
    pub fn get_domain(&self, alloc: Global) -> Result<String, AllocError>
        ensures { IfOk result (λ text. string_bytes text ≡ bare_text self.now.domain.now) }
    {
        bare_text(alloc, self.domain)
    }
}

/// An element between two separators that is not an address.
#[derive(Clone, Copy, Debug)]
pub struct Unknown<'a> {
    /// Its offset in the value that was read.
    pub start: usize,
    /// Its bytes.
    pub text: &'a [u8],
}

/// An element of a group.
#[derive(Clone, Copy, Debug)]
pub enum Member<'a> {
    /// A mailbox.
    Mailbox(Mailbox<'a>),
    /// An element that is not an address.
    Unknown(Unknown<'a>),
}

/// A group (RFC 5322, section 3.4).
#[derive(Debug, Drop)]
pub struct Group<'a> {
    /// Its offset in the value that was read.
    pub start: usize,
    /// Its bytes, with its semicolon.
    pub text: &'a [u8],
    /// Its name, as it is written.
    pub display_name: &'a [u8],
    /// Its members, in order.
    pub members: Vec<Member<'a>>,
}

impl<'a> Group<'a> {
    /// Returns the display name as text: without quotes and comments, with one space for
    /// whitespace, and then with its encoded words decoded in the `known` charsets (RFC 5322,
    /// section 3.4; RFC 2047).
    ///
    /// Allocates the text.
    ///
    /// # Errors
    ///
    /// `MailParseError::Memory` if memory runs out.
    ///
    /// # Examples
    ///
    /// ```rust
    /// use mail_address::{Address, read_addresses};
    ///
    /// for address in &read_addresses(alloc, b"=?utf-8?q?All=2C?=:;")? {
    ///     if let Address::Group(group) = address {
    ///         assert_eq!(rt; group.get_display_name(alloc, &())?.as_str(), "All,");
    ///     }
    /// }
    /// ```
    pub fn get_display_name<K: KnownCharsets>(
        &self,
        alloc: Global,
        known: &K,
    ) -> Result<String, MailParseError>
        ensures { GivesText result (lenient_value_in (K.known known.now)
            (phrase_text self.now.display_name.now)) }
    {
        name_text(alloc, self.display_name, known)
    }

    /// Returns the display name as people see it, on one line: its encoded words are read leniently,
    /// and if the text begins and ends with `"`, or with `'`, these two are left out (RFC 2047), as
    /// by `Mailbox::get_shown_name`.
    ///
    /// Allocates the text.
    ///
    /// # Errors
    ///
    /// `MailParseError::Memory` if memory runs out.
    ///
    /// # Examples
    ///
    /// ```rust
    /// use mail_address::{Address, lenient_addresses};
    ///
    /// for address in &lenient_addresses(alloc, b"'The team': ann@example.org;")? {
    ///     if let Address::Group(group) = address {
    ///         assert_eq!(rt; group.get_shown_name(alloc, &())?.as_str(), "The team");
    ///     }
    /// }
    /// ```
    pub fn get_shown_name<K: KnownCharsets>(
        &self,
        alloc: Global,
        known: &K,
    ) -> Result<String, MailParseError>
        ensures { GivesText result (shown_display_name (K.known known.now)
            self.now.display_name.now) }
    {
        shown_name(alloc, self.display_name, known)
    }
}

/// An element of a list of addresses.
#[derive(Debug, Drop)]
pub enum Address<'a> {
    /// A mailbox.
    Mailbox(Mailbox<'a>),
    /// A group, perhaps with no members.
    Group(Group<'a>),
    /// An element that is not an address.
    Unknown(Unknown<'a>),
}

/// The elements of a list of addresses, in order.
pub type AddressList<'a> = Vec<Address<'a>>;

/// Returns the elements of a list of addresses (RFC 5322, sections 3.4 and 4.4; RFC 6854), read
/// from the raw bytes of a header's value.
///
/// A comma separates elements, and so does a semicolon that ends no group. Inside quotes, comments
/// and brackets nothing separates. An element that is not an address is `Unknown`, with its bytes,
/// and does not affect the others; so is an address with a control character in quotes or in a
/// domain literal, except for folding. Allocates the list and the members of groups.
///
/// # Errors
///
/// If memory runs out.
///
/// # Examples
///
/// ```rust
/// use mail_address::{Address, read_addresses};
///
/// let list = read_addresses(alloc, b"\"Doe, Ann\" <ann@example.org>, undisclosed:;")?;
/// assert_eq!(rt; list.len(), 2);
/// ```
pub fn read_addresses(alloc: Global, raw: &[u8]) -> Result<AddressList<'_>, AllocError>
    ensures { IfOk result (λ list. map element_view list.items ≡ addresses raw.now) }
{
    let mut list = Vec::new(alloc);
    let mut start = 0;
    let mut rest = raw;
    'elements: while !rest.is_empty() {
        let len = push_element(alloc, &mut list, start, rest)?;
        start += len;
        rest = &rest[len..];
    }
    Ok(list)
}

/// Appends the element at the front, if there is one before the separator, and returns the length
/// of both.
#[tactic(auto, unfolding(crate::specs::Addresses::element_at, crate::specs::Addresses::element_len))]
fn push_element<'a>(
    alloc: Global,
    list: &mut Vec<Address<'a>>,
    start: usize,
    bytes: &'a [u8],
) -> Result<usize, AllocError>
    requires fits { start + length bytes.now < 2 ^ 64 }
    requires some { 0 < length bytes.now }
    ensures pushed { IfOk result (λ len. map element_view list.new.items
        ≡ map element_view list.old.items ++ element_at start bytes.now) }
    ensures len { IfOk result (λ len. len ≡ element_len bytes.now) }
    ensures bounds { IfOk result (λ len. len ≤ length bytes.now) }
    ensures takes_some { IfOk result (λ len. 0 < len) }
{
    if let Some((mailbox, len)) = plain_single(Level::List, start, bytes) {
        list.push(Address::Mailbox(mailbox))?;
        return Ok(bytes.len().min(len + 1));
    }
    if is_group(bytes) {
        let group = group_at(alloc, start, bytes)?;
        list.push(Address::Group(group))?;
        let len = group_len(bytes);
        return Ok(len + separator_len(&bytes[len..]));
    }
    let len = run(Span::BeforeSeparator, bytes);
    match single_at(start, &bytes[..len]) {
        Some(Member::Mailbox(mailbox)) => list.push(Address::Mailbox(mailbox))?,
        Some(Member::Unknown(unknown)) => list.push(Address::Unknown(unknown))?,
        None => {}
    }
    Ok(bytes.len().min(len + 1))
}

/// Returns the plain mailbox at the front as an element.
fn mailbox_at<'a>(start: usize, bytes: &'a [u8], plain: &Plain<'a>) -> Mailbox<'a>
    requires within { plain.now.len ≤ length bytes.now }
    ensures { mailbox_view result ≡ record {
      start = start;
      text = take plain.now.len bytes.now;
      mailbox = Some (parts plain.now.parts);
    } }
{
    Mailbox {
        start,
        text: &bytes[..plain.len],
        display_name: plain.parts.display_name,
        local_part: plain.parts.local_part,
        domain: plain.parts.domain,
    }
}

/// Returns the plain mailbox at the front and its length, if it is an element of a list or a member
/// of a group.
fn plain_single(level: Level, start: usize, bytes: &[u8]) -> Option<(Mailbox<'_>, usize)>
    ensures { IfSome result (λ found.
        IsSingle level start bytes.now (mailbox_view found.0) found.1) }
{
    match plain_mailbox(bytes) {
        Some(plain) => front_single(level, start, bytes, &plain),
        None => None,
    }
}

/// Returns that mailbox and its length, if a separator or nothing follows it.
fn front_single<'a>(
    level: Level,
    start: usize,
    bytes: &'a [u8],
    plain: &Plain<'a>,
) -> Option<(Mailbox<'a>, usize)>
    requires front { IsFront bytes.now (parts plain.now.parts) plain.now.len }
    ensures { IfSome result (λ found.
        IsSingle level start bytes.now (mailbox_view found.0) found.1) }
{
    if !ends_single(level, &bytes[plain.len..]) {
        return None;
    }
    Some((mailbox_at(start, bytes, plain), plain.len))
}

/// Returns the element that the bytes are, if they are more than whitespace and comments.
#[tactic(auto, unfolding(crate::specs::Addresses::single_at))]
pub(crate) fn single_at(start: usize, text: &[u8]) -> Option<Member<'_>>
    ensures { MatchOption result (single_at start text.now ≡ [])
        (λ member. single_at start text.now ≡ member_view member ∷ []) }
{
    if is_all_white(text) {
        return None;
    }
    let Some(parts) = mailbox_of(text) else {
        return Some(Member::Unknown(Unknown { start, text }));
    };
    Some(Member::Mailbox(Mailbox {
        start,
        text,
        display_name: parts.display_name,
        local_part: parts.local_part,
        domain: parts.domain,
    }))
}

/// Returns the length of the separator at the front, or 0.
fn separator_len(bytes: &[u8]) -> usize
    ensures value { result ≡ separator_len bytes.now }
    ensures bounds { result ≤ length bytes.now }
{
    let Some((first, _)) = bytes.split_first() else {
        return 0;
    };
    if *first == b',' || *first == b';' {
        1
    } else {
        0
    }
}

/// Returns the length of a group's name.
#[tactic(auto, unfolding(crate::specs::Addresses::name_len))]
pub(crate) fn name_len(bytes: &[u8]) -> usize
    ensures value { result ≡ name_len bytes.now }
    ensures bounds { result ≤ length bytes.now }
{
    run(Span::BeforeDelimiter, bytes)
}

/// Returns the bytes after a group's name and its colon.
pub(crate) fn after_name(bytes: &[u8]) -> &[u8]
    ensures { result.now ≡ after_name bytes.now }
{
    &bytes[bytes.len().min(name_len(bytes) + 1)..]
}

/// Returns the number of bytes between a group's colon and its semicolon.
#[tactic(auto, unfolding(crate::specs::Addresses::inner_len))]
fn inner_len(bytes: &[u8]) -> usize
    ensures value { result ≡ inner_len bytes.now }
    ensures bounds { result ≤ length (after_name bytes.now) }
{
    run(Span::InGroup, after_name(bytes))
}

/// Returns whether there is a group at the front.
#[tactic(auto, unfolding(crate::specs::Addresses::is_group))]
fn is_group(bytes: &[u8]) -> bool
    ensures { result ≡ is_group bytes.now }
{
    let len = name_len(bytes);
    begins_at(bytes, len, b':')
        && is_phrase(&bytes[..len])
        && begins_at(after_name(bytes), inner_len(bytes), b';')
}

/// Returns the length of the group at the front.
#[tactic(auto, unfolding(crate::specs::Addresses::group_len))]
fn group_len(bytes: &[u8]) -> usize
    requires { is_group bytes.now ≡ true }
    ensures value { result ≡ group_len bytes.now }
    ensures bounds { result ≤ length bytes.now }
    ensures some { 0 < result }
{
    let inner = inner_len(bytes);
    let (_, after) = after_name(bytes).split_at(inner + 1);
    name_len(bytes) + inner + 2 + run(Span::White, after)
}

/// Returns the group at the front.
#[tactic(auto, unfolding(crate::specs::Addresses::group_at))]
fn group_at(alloc: Global, start: usize, bytes: &[u8]) -> Result<Group<'_>, AllocError>
    requires group { is_group bytes.now ≡ true }
    requires fits { start + length bytes.now < 2 ^ 64 }
    ensures { IfOk result (λ group. group_view group ≡ group_at start bytes.now) }
{
    let len = name_len(bytes);
    let (inner, _) = after_name(bytes).split_at(inner_len(bytes));
    let members = members_at(alloc, start + len + 1, inner)?;
    Ok(Group {
        start,
        text: &bytes[..group_len(bytes)],
        display_name: &bytes[..len],
        members,
    })
}

/// Returns the members of a group, from the bytes between its colon and semicolon, which start
/// at this offset.
pub(crate) fn members_at(
    alloc: Global,
    start: usize,
    bytes: &[u8],
) -> Result<Vec<Member<'_>>, AllocError>
    requires { start + length bytes.now < 2 ^ 64 }
    ensures { IfOk result (λ list. map member_view list.items ≡ members_at start bytes.now) }
{
    let mut list = Vec::new(alloc);
    let mut start = start;
    let mut rest = bytes;
    'members: while !rest.is_empty() {
        let len = push_member(&mut list, start, rest)?;
        start += len;
        rest = &rest[len..];
    }
    Ok(list)
}

/// Appends the member at the front, if there is one before the comma, and returns the length of
/// both.
#[tactic(auto, unfolding(crate::specs::Addresses::member_at, crate::specs::Addresses::member_len))]
fn push_member<'a>(
    list: &mut Vec<Member<'a>>,
    start: usize,
    bytes: &'a [u8],
) -> Result<usize, AllocError>
    requires { 0 < length bytes.now }
    ensures pushed { IfOk result (λ len. map member_view list.new.items
        ≡ map member_view list.old.items ++ member_at start bytes.now) }
    ensures len { IfOk result (λ len. len ≡ member_len bytes.now) }
    ensures bounds { IfOk result (λ len. len ≤ length bytes.now) }
    ensures takes_some { IfOk result (λ len. 0 < len) }
{
    if let Some((mailbox, len)) = plain_single(Level::Group, start, bytes) {
        list.push(Member::Mailbox(mailbox))?;
        return Ok(bytes.len().min(len + 1));
    }
    let len = run(Span::BeforeComma, bytes);
    if let Some(member) = single_at(start, &bytes[..len]) {
        list.push(member)?;
    }
    Ok(bytes.len().min(len + 1))
}
