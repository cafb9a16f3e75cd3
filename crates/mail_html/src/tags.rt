//! Tags with their attributes, comments and other markup, by where they end.
ghost use Rattle.std.specs.Prelude.{◌≡◌, true, ◌+◌, ◌-◌, ◌<◌, ◌≤◌, length};
ghost use Rattle.mail_codec.specs.Places.{first_place};
ghost use Rattle.mail_html.specs.Tags.{assigned, attribute, close_length, closes_comment, comment_length, contents_length, declaration_length, has_name, is_end_tag, name_length, past_byte, piece, quoted, tag_length, tag_rest_length, value, value_from, value_named};

use crate::scans::{
    attribute_length, begins_name_end, begins_quote, begins_separator, begins_with, is_same_name,
    value_length, white_length,
};
use mail_codec::bytescan::find_byte;

/// An attribute as it is written.
#[derive(Clone, Copy)]
pub(crate) struct Attribute<'t> {
    /// Its name.
    pub(crate) name: &'t [u8],
    /// Its value, which is empty if it has none.
    pub(crate) value: &'t [u8],
    /// How many bytes it takes.
    pub(crate) taken: usize,
}

/// A value as it is written.
#[derive(Clone, Copy)]
struct Value<'t> {
    /// Its bytes.
    bytes: &'t [u8],
    /// How many bytes it takes.
    taken: usize,
}

/// Returns the length up to and including the first occurrence of a byte, or the whole length.
pub(crate) fn past_byte(bytes: &[u8], byte: u8) -> usize
    ensures value { result ≡ past_byte bytes.now byte }
    ensures bounds { result ≤ length bytes.now }
{
    match find_byte(bytes, byte) {
        Some(place) => place + 1,
        None => bytes.len(),
    }
}

/// Returns a value after its quote.
fn quoted(bytes: &[u8], quote: u8) -> Value<'_>
    ensures value { (result.bytes.now, result.taken) ≡ quoted quote bytes.now }
    ensures bounds { result.taken ≤ 1 + length bytes.now }
{
    match find_byte(bytes, quote) {
        Some(place) => Value {
            bytes: &bytes[..place],
            taken: place + 2,
        },
        None => Value {
            bytes,
            taken: bytes.len() + 1,
        },
    }
}

/// Returns the value at the front of bytes.
fn read_value(bytes: &[u8]) -> Value<'_>
    ensures value { (result.bytes.now, result.taken) ≡ value bytes.now }
    ensures bounds { result.taken ≤ length bytes.now }
{
    if begins_quote(bytes) {
        return quoted(&bytes[1..], bytes[0]);
    }
    let count = value_length(bytes);
    Value {
        bytes: &bytes[..count],
        taken: count,
    }
}

/// Returns the value from an offset onwards, with all bytes before it.
fn value_from(bytes: &[u8], start: usize) -> Value<'_>
    requires { start ≤ length bytes.now }
    ensures value { (result.bytes.now, result.taken) ≡ value_from start bytes.now }
    ensures bounds { result.taken ≤ length bytes.now }
{
    let value = read_value(&bytes[start..]);
    Value {
        bytes: value.bytes,
        taken: start + value.taken,
    }
}

/// Returns the value that follows the name of an attribute, if any, with the equals sign.
fn assigned(bytes: &[u8]) -> Value<'_>
    ensures value { (result.bytes.now, result.taken) ≡ assigned bytes.now }
    ensures bounds { result.taken ≤ length bytes.now }
{
    let equals = white_length(bytes);
    if begins_with(&bytes[equals..], b'=') {
        let white = white_length(&bytes[equals + 1..]);
        return value_from(bytes, equals + 1 + white);
    }
    Value {
        bytes: &[],
        taken: 0,
    }
}

/// Returns the attribute at the front of bytes.
fn read_attribute(bytes: &[u8]) -> Attribute<'_>
    requires { 0 < length bytes.now }
    ensures value { (result.name.now, result.value.now, result.taken) ≡ attribute bytes.now }
    ensures some { 0 < result.taken }
    ensures bounds { result.taken ≤ length bytes.now }
{
    let name = 1 + attribute_length(&bytes[1..]);
    let value = assigned(&bytes[name..]);
    Attribute {
        name: &bytes[..name],
        value: value.bytes,
        taken: name + value.taken,
    }
}

/// Returns the separator or the attribute at the front of bytes; a separator has no name.
fn piece(bytes: &[u8]) -> Attribute<'_>
    requires { 0 < length bytes.now }
    ensures value { (result.name.now, result.value.now, result.taken) ≡ piece bytes.now }
    ensures some { 0 < result.taken }
    ensures bounds { result.taken ≤ length bytes.now }
{
    if begins_separator(bytes) {
        return Attribute {
            name: &[],
            value: &[],
            taken: 1,
        };
    }
    read_attribute(bytes)
}

/// Returns the length of the rest of a tag after its name, including its `>`.
fn tag_rest_length(bytes: &[u8]) -> usize
    ensures value { result ≡ tag_rest_length 0 bytes.now }
    ensures bounds { result ≤ length bytes.now }
{
    let mut at = 0;
    'pieces: while at < bytes.len() {
        if bytes[at] == b'>' {
            return at + 1;
        }
        at += piece(&bytes[at..]).taken;
    }
    bytes.len()
}

/// Returns the length of a tag whose name, of `name` bytes, is at the front of bytes.
pub(crate) fn tag_length(bytes: &[u8], name: usize) -> usize
    requires name { name ≡ name_length bytes.now }
    requires within { name ≤ length bytes.now }
    ensures value { result ≡ tag_length bytes.now }
    ensures name { name ≤ result }
    ensures bounds { result ≤ length bytes.now }
{
    name + tag_rest_length(&bytes[name..])
}

/// Returns the value of the first attribute with a name, or no bytes if there is none.
pub(crate) fn value_named<'t>(bytes: &'t [u8], name: &[u8]) -> &'t [u8]
    ensures { result.now ≡ value_named 0 name.now bytes.now }
{
    let mut at = 0;
    'pieces: while at < bytes.len() {
        if bytes[at] == b'>' {
            return &[];
        }
        let piece = piece(&bytes[at..]);
        if is_same_name(piece.name, name) {
            return piece.value;
        }
        at += piece.taken;
    }
    &[]
}

/// Returns whether bytes begin with the end of a comment.
fn closes_comment(bytes: &[u8]) -> bool
    ensures { result ≡ closes_comment bytes.now }
{
    bytes.starts_with(b"-->") || bytes.starts_with(b"--!>")
}

/// Returns the length of the end of a comment at the front of bytes, or 0 if it does not end there.
fn close_length(bytes: &[u8]) -> usize
    ensures value { result ≡ close_length bytes.now }
    ensures bounds { result ≤ length bytes.now }
{
    if bytes.starts_with(b"-->") {
        return 3;
    }
    if bytes.starts_with(b"--!>") {
        return 4;
    }
    0
}

/// Returns the number of bytes before the end of a comment.
fn close_place(bytes: &[u8]) -> usize
    ensures value { result ≡ first_place closes_comment bytes.now }
    ensures bounds { result ≤ length bytes.now }
{
    let mut at = 0;
    'hyphens: while let Some(skipped) = find_byte(&bytes[at..], b'-') {
        prove!(skipped < bytes.len() - at);
        let place = at + skipped;
        if closes_comment(&bytes[place..]) {
            return place;
        }
        at = place + 1;
    }
    bytes.len()
}

/// Returns the length of the rest of a comment after `<!--`.
fn comment_length(bytes: &[u8]) -> usize
    ensures value { result ≡ comment_length bytes.now }
    ensures bounds { result ≤ length bytes.now }
{
    if bytes.starts_with(b">") {
        return 1;
    }
    if bytes.starts_with(b"->") {
        return 2;
    }
    let close = close_place(bytes);
    close + close_length(&bytes[close..])
}

/// Returns the length of the markup that `<!` or `<?` begins, from its second byte.
pub(crate) fn declaration_length(bytes: &[u8]) -> usize
    ensures value { result ≡ declaration_length bytes.now }
    ensures bounds { result ≤ length bytes.now }
{
    if bytes.starts_with(b"!--") {
        return 3 + comment_length(&bytes[3..]);
    }
    past_byte(bytes, b'>')
}

/// Returns whether bytes begin with the end tag of an element.
fn is_end_tag(name: &[u8], bytes: &[u8]) -> bool
    ensures { result ≡ is_end_tag name.now bytes.now }
{
    bytes.starts_with(b"</") && has_name(name, &bytes[2..])
}

/// Returns whether bytes begin with the name of a tag, ignoring ASCII case.
pub(crate) fn has_name(name: &[u8], bytes: &[u8]) -> bool
    ensures value { result ≡ has_name name.now bytes.now }
    ensures some { result ≡ true → length name.now ≤ length bytes.now }
{
    if bytes.len() < name.len() {
        return false;
    }
    begins_name_end(&bytes[name.len()..]) && is_same_name(&bytes[..name.len()], name)
}

/// Returns the length of the contents of an element, up to its first end tag.
pub(crate) fn contents_length(name: &[u8], bytes: &[u8]) -> usize
    ensures value { result ≡ contents_length name.now bytes.now }
    ensures bounds { result ≤ length bytes.now }
{
    let mut at = 0;
    'tags: while let Some(skipped) = find_byte(&bytes[at..], b'<') {
        prove!(skipped < bytes.len() - at);
        let place = at + skipped;
        if is_end_tag(name, &bytes[place..]) {
            return place;
        }
        at = place + 1;
    }
    bytes.len()
}
