//! Tests of the front of bytes, and the length of a run of bytes of one kind there.
ghost use Rattle.std.specs.Prelude.{◌≡◌, true, ◌<◌, ◌≤◌, ◌==◌, ◌||◌, not, length, drop};
ghost use Rattle.std.specs.Char.{is_ascii_alphabetic, is_ascii_whitespace};
ghost use Rattle.std.specs.Str.{str_eq_ignore_ascii_case};
ghost use Rattle.mail_codec.specs.Places.{begins, first_place};
ghost use Rattle.mail_html.specs.private.Runs.{begins_gap};
ghost use Rattle.mail_html.specs.Tags.{ends_attribute, ends_name, ends_value, is_quote, is_separator, name_length, white_length};

/// Returns whether bytes begin with a byte.
pub(crate) fn begins_with(bytes: &[u8], byte: u8) -> bool
    ensures value { result ≡ begins (λ b. b == byte) bytes.now }
    ensures some { result ≡ true → 0 < length bytes.now }
{
    let Some((first, _)) = bytes.split_first() else {
        return false;
    };
    *first == byte
}

/// Returns whether bytes begin with a letter.
pub(crate) fn begins_letter(bytes: &[u8]) -> bool
    ensures value { result ≡ begins is_ascii_alphabetic bytes.now }
    ensures some { result ≡ true → 0 < length bytes.now }
{
    let Some((first, _)) = bytes.split_first() else {
        return false;
    };
    first.is_ascii_alphabetic()
}

/// Returns whether bytes begin with `!` or `?`.
pub(crate) fn begins_declaration(bytes: &[u8]) -> bool
    ensures value { result ≡ begins (λ b. b == 0x21 || b == 0x3F) bytes.now }
    ensures some { result ≡ true → 0 < length bytes.now }
{
    let Some((first, _)) = bytes.split_first() else {
        return false;
    };
    *first == b'!' || *first == b'?'
}

/// Returns whether bytes begin with a quote of a value.
pub(crate) fn begins_quote(bytes: &[u8]) -> bool
    ensures value { result ≡ begins is_quote bytes.now }
    ensures some { result ≡ true → 0 < length bytes.now }
{
    let Some((first, _)) = bytes.split_first() else {
        return false;
    };
    *first == b'"' || *first == b'\''
}

/// Returns whether bytes begin with a separator of attributes.
pub(crate) fn begins_separator(bytes: &[u8]) -> bool
    ensures value { result ≡ begins is_separator bytes.now }
    ensures some { result ≡ true → 0 < length bytes.now }
{
    let Some((first, _)) = bytes.split_first() else {
        return false;
    };
    is_separator(*first)
}

/// Returns whether bytes begin with one that ends the name of a tag.
pub(crate) fn begins_name_end(bytes: &[u8]) -> bool
    ensures value { result ≡ begins ends_name bytes.now }
    ensures some { result ≡ true → 0 < length bytes.now }
{
    let Some((first, _)) = bytes.split_first() else {
        return false;
    };
    ends_name(*first)
}

/// Returns whether two names are the same, ignoring ASCII case.
pub(crate) fn is_same_name(first: &[u8], second: &[u8]) -> bool
    ensures { result ≡ str_eq_ignore_ascii_case first.now second.now }
{
    first.eq_ignore_ascii_case(second)
}

/// Returns whether a byte separates attributes.
fn is_separator(byte: u8) -> bool
    ensures { result ≡ is_separator byte }
{
    byte.is_ascii_whitespace() || byte == b'/'
}

/// Returns whether a byte ends the name of a tag.
fn ends_name(byte: u8) -> bool
    ensures { result ≡ ends_name byte }
{
    is_separator(byte) || byte == b'>'
}

/// Returns whether a byte ends the name of an attribute.
fn ends_attribute(byte: u8) -> bool
    ensures { result ≡ ends_attribute byte }
{
    ends_name(byte) || byte == b'='
}

/// Returns whether a byte ends a value without quotes.
fn ends_value(byte: u8) -> bool
    ensures { result ≡ ends_value byte }
{
    byte.is_ascii_whitespace() || byte == b'>'
}

/// Returns the length of the name of a tag at the front of bytes.
pub(crate) fn name_length(bytes: &[u8]) -> usize
    ensures value { result ≡ name_length bytes.now }
    ensures bounds { result ≤ length bytes.now }
{
    bytes
        .iter()
        .position(|byte| ends_name(*byte))
        .unwrap_or(bytes.len())
}

/// Returns the number of bytes before the first that ends the name of an attribute.
pub(crate) fn attribute_length(bytes: &[u8]) -> usize
    ensures value { result ≡ first_place (begins ends_attribute) bytes.now }
    ensures bounds { result ≤ length bytes.now }
{
    bytes
        .iter()
        .position(|byte| ends_attribute(*byte))
        .unwrap_or(bytes.len())
}

/// Returns the number of bytes before the first that ends a value without quotes.
pub(crate) fn value_length(bytes: &[u8]) -> usize
    ensures value { result ≡ first_place (begins ends_value) bytes.now }
    ensures bounds { result ≤ length bytes.now }
{
    bytes
        .iter()
        .position(|byte| ends_value(*byte))
        .unwrap_or(bytes.len())
}

/// Returns whether bytes begin with one that is no whitespace.
fn begins_other(bytes: &[u8]) -> bool
    ensures { result ≡ begins (λ b. not (is_ascii_whitespace b)) bytes.now }
{
    let Some((first, _)) = bytes.split_first() else {
        return false;
    };
    !first.is_ascii_whitespace()
}

/// Returns whether bytes begin with whitespace other than a single space between other bytes.
fn begins_gap(bytes: &[u8]) -> bool
    ensures { result ≡ begins_gap bytes.now }
{
    let Some((first, rest)) = bytes.split_first() else {
        return false;
    };
    first.is_ascii_whitespace() && !(*first == b' ' && begins_other(rest))
}

/// Returns the number of bytes before the first whitespace other than a single space between other
/// bytes.
pub(crate) fn run_length(bytes: &[u8]) -> usize
    ensures value { result ≡ first_place begins_gap bytes.now }
    ensures bounds { result ≤ length bytes.now }
{
    let mut at = 0;
    'bytes: while at < bytes.len() {
        if begins_gap(&bytes[at..]) {
            return at;
        }
        at += 1;
    }
    bytes.len()
}

/// Returns the number of whitespace bytes at the front.
pub(crate) fn white_length(bytes: &[u8]) -> usize
    ensures value { result ≡ white_length bytes.now }
    ensures bounds { result ≤ length bytes.now }
{
    bytes
        .iter()
        .position(|byte| !byte.is_ascii_whitespace())
        .unwrap_or(bytes.len())
}
