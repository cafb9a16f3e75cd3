//! Plain mailboxes, which are read without tokens: a name of atoms or one quoted string, and an
//! address of atoms and dots. Most mailboxes of real mail are plain.
ghost use Rattle.std.specs.Prelude.{◌≡◌, ◌+◌, ◌≤◌, ◌==◌, IfSome, length};
ghost use Rattle.std.specs.List.{prefix_len};
ghost use Rattle.mail_address.specs.MailboxViews.{parts};
ghost use Rattle.mail_address.specs.private.Plain.{IsFront, dot_atom_len, ends_at, is_inner_byte};
ghost use Rattle.mail_address.specs.private.Plain.{is_phrase_byte, plain_name_len, quoted_len};
ghost use Rattle.mail_address.specs.private.Plain.{separates, word_name_len};

use crate::mailbox::{Parts, are_clean};
use crate::tokens::{begins_at, is_atom_byte, is_white, white_len};

/// What an element without members is part of: a list, whose separators are commas and semicolons,
/// or a group, whose separators are commas.
#[derive(Clone, Copy)]
pub(crate) enum Level {
    List,
    Group,
}

/// A plain mailbox at the front of bytes: its parts, and its length.
#[derive(Clone, Copy)]
pub(crate) struct Plain<'a> {
    pub parts: Parts<'a>,
    pub len: usize,
}

/// Returns the length of the atoms and dots at the front, or 0 if a dot begins or ends them.
#[tactic(auto, unfolding(crate::specs::private::Plain::dot_atom_len))]
pub(crate) fn dot_atom_len(bytes: &[u8]) -> usize
    ensures value { result ≡ dot_atom_len bytes.now }
    ensures bounds { result ≤ length bytes.now }
{
    let mut in_atom = false;
    for (place, byte) in bytes.iter().enumerate() {
        let byte = *byte;
        if is_atom_byte(byte) {
            in_atom = true;
        } else if in_atom && byte == b'.' {
            in_atom = false;
        } else {
            return if in_atom { place } else { 0 };
        }
    }
    if in_atom { bytes.len() } else { 0 }
}

/// Returns whether a byte is one of atoms with dots and whitespace between them.
fn is_phrase_byte(byte: u8) -> bool
    ensures { result ≡ is_phrase_byte byte }
{
    is_atom_byte(byte) || (is_white(byte) || byte == b'.')
}

/// Returns how many such bytes are at the front.
fn phrase_len(bytes: &[u8]) -> usize
    ensures value { result ≡ prefix_len is_phrase_byte bytes.now }
    ensures bounds { result ≤ length bytes.now }
{
    bytes
        .iter()
        .take_while(|byte| is_phrase_byte(**byte))
        .count()
}

/// Returns whether a byte within quotes quotes nothing.
fn is_inner_byte(byte: u8) -> bool
    ensures { result ≡ is_inner_byte byte }
{
    byte != b'"' && byte != b'\\'
}

/// Returns how many such bytes are at the front.
fn inner_len(bytes: &[u8]) -> usize
    ensures value { result ≡ prefix_len is_inner_byte bytes.now }
    ensures bounds { result ≤ length bytes.now }
{
    bytes
        .iter()
        .take_while(|byte| is_inner_byte(**byte))
        .count()
}

/// Returns the length of a quoted string without backslashes and of the whitespace after it, from
/// the bytes after its quote, or 0 if it is not closed.
#[tactic(auto, unfolding(crate::specs::private::Plain::quoted_len))]
fn quoted_len(rest: &[u8]) -> usize
    ensures value { result ≡ quoted_len rest.now }
    ensures bounds { result ≤ length rest.now + 1 }
{
    let len = inner_len(rest);
    if begins_at(rest, len, b'"') {
        len + 2 + white_len(&rest[len + 1..])
    } else {
        0
    }
}

/// Returns the length of a plain name at the front.
fn word_name_len(bytes: &[u8]) -> usize
    ensures value { result ≡ word_name_len bytes.now }
    ensures bounds { result ≤ length bytes.now }
{
    let Some((first, rest)) = bytes.split_first() else {
        return 0;
    };
    let byte = *first;
    if is_atom_byte(byte) {
        return phrase_len(bytes);
    }
    if byte == b'"' {
        return quoted_len(rest);
    }
    0
}

/// Returns the length of a plain name at the front, with the whitespace before it.
#[tactic(auto, unfolding(crate::specs::private::Plain::plain_name_len))]
fn plain_name_len(bytes: &[u8]) -> usize
    ensures value { result ≡ plain_name_len bytes.now }
    ensures bounds { result ≤ length bytes.now }
{
    let white = white_len(bytes);
    white + word_name_len(&bytes[white..])
}

/// Returns whether there are no bytes, or they begin with a separator.
pub(crate) fn ends_single(level: Level, bytes: &[u8]) -> bool
    ensures { result ≡ ends_at (separates level) bytes.now }
{
    let Some((first, _)) = bytes.split_first() else {
        return true;
    };
    match level {
        Level::List => *first == b',' || *first == b';',
        Level::Group => *first == b',',
    }
}

/// Returns the mailbox at the front, if it is plain. What follows it may be anything.
pub(crate) fn plain_mailbox(bytes: &[u8]) -> Option<Plain<'_>>
    ensures { IfSome result (λ plain. IsFront bytes.now (parts plain.parts) plain.len) }
{
    let name = plain_name_len(bytes);
    if begins_at(bytes, name, b'<') {
        plain_named(bytes, name)
    } else {
        plain_address(bytes)
    }
}

/// Returns the mailbox of a plain name of this length and of an address in angle brackets after it.
fn plain_named(bytes: &[u8], name: usize) -> Option<Plain<'_>>
    requires name { name ≡ plain_name_len bytes.now }
    requires within { name + 1 ≤ length bytes.now }
    ensures { IfSome result (λ plain. IsFront bytes.now (parts plain.parts) plain.len) }
{
    let inner = &bytes[name + 1..];
    let local = dot_atom_len(inner);
    if !begins_at(bytes, name, b'<') || local == 0 || !begins_at(inner, local, b'@') {
        return None;
    }
    let host = &inner[local + 1..];
    let domain = dot_atom_len(host);
    if domain == 0 || !begins_at(host, domain, b'>') {
        return None;
    }
    let after = white_len(&host[domain + 1..]);
    let parts = Parts {
        display_name: &bytes[..name],
        local_part: &inner[..local],
        domain: &host[..domain],
    };
    if !are_clean(parts.local_part, parts.domain) {
        return None;
    }
    Some(Plain {
        parts,
        len: name + local + domain + after + 3,
    })
}

/// Returns the mailbox of a plain address at the front, with the whitespace around it.
fn plain_address(bytes: &[u8]) -> Option<Plain<'_>>
    ensures { IfSome result (λ plain. IsFront bytes.now (parts plain.parts) plain.len) }
{
    let white = white_len(bytes);
    let start = &bytes[white..];
    let local = dot_atom_len(start);
    if local == 0 || !begins_at(start, local, b'@') {
        return None;
    }
    let host = &start[local + 1..];
    let domain = dot_atom_len(host);
    if domain == 0 {
        return None;
    }
    let len = domain + white_len(&host[domain..]);
    let parts = Parts {
        display_name: &bytes[..0],
        local_part: &bytes[..white + local],
        domain: &host[..len],
    };
    if !are_clean(parts.local_part, parts.domain) {
        return None;
    }
    Some(Plain {
        parts,
        len: white + local + 1 + len,
    })
}
