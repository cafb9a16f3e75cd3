//! Bodies in Base64 that other programs may decode differently.
ghost use Rattle.std.specs.Prelude.{◌≡◌, ◌≤◌, length};
ghost use Rattle.mail_check.specs.Bodies.{after_byte, after_bytes, is_base64_lines, is_letter};
ghost use Rattle.mail_check.specs.Bodies.{line_end_or_wrong, may_end};
ghost use Rattle.mail_check.specs.declared.bodies.Base64State.TheVariants.{Start};
ghost use Rattle.mail_check.specs.private.Base64Lines.{line_end_len};

use crate::letters::letters_len;
use crate::scan::byte_at;

/// What was read of a body in Base64 (RFC 2045, section 6.8).
#[derive(Clone, Copy, Debug)]
pub enum Base64State {
    /// Nothing of a line, after lines of whole groups.
    Start,
    /// One letter of a group.
    One,
    /// Two letters.
    Two,
    /// Three letters.
    Three,
    /// Whole groups of a line.
    Whole,
    /// A CR after them.
    Return,
    /// One equals sign of two.
    Pad,
    /// A group with padding.
    Padded,
    /// A line end after which there may only be others.
    End,
    /// A CR there.
    EndReturn,
    /// Something else.
    Wrong,
}

/// Returns whether a body is lines of whole groups with padding at its end alone.
#[tactic(auto, unfolding(crate::specs::Bodies::is_base64_lines))]
pub(crate) fn is_base64_lines(bytes: &[u8]) -> bool
    ensures { result ≡ is_base64_lines bytes.now }
{
    let (mut state, rest) = after_lines(bytes);
    for byte in rest {
        state = after_byte(state, *byte);
    }
    may_end(state)
}

/// Skips lines of whole groups of letters, and the groups of a last line without an end. Returns
/// the state after them, and the rest.
#[inline(always)]
fn after_lines(bytes: &[u8]) -> (Base64State, &[u8])
    ensures { after_bytes result.0 result.1.now ≡ after_bytes Start bytes.now }
{
    let mut rest = bytes;
    'lines: loop {
        let len = letters_len(rest) / 4 * 4;
        if len == 0 {
            return (Base64State::Start, rest);
        }
        let after = &rest[len..];
        let end = line_end_len(after);
        if end == 0 {
            return (Base64State::Whole, after);
        }
        rest = &after[end..];
    }
}

/// Returns the length of the line end with which bytes begin, or 0 if there is none.
#[inline(always)]
fn line_end_len(bytes: &[u8]) -> usize
    ensures value { result ≡ line_end_len bytes.now }
    ensures bounds { result ≤ length bytes.now }
{
    if byte_at(bytes, 0, b'\n') {
        return 1;
    }
    if byte_at(bytes, 0, b'\r') && byte_at(bytes, 1, b'\n') {
        return 2;
    }
    0
}

/// Returns the state after one more byte.
fn after_byte(state: Base64State, byte: u8) -> Base64State
    ensures { result ≡ after_byte state byte }
{
    match state {
        Base64State::Start if is_letter(byte) => Base64State::One,
        Base64State::Start => line_end_or_wrong(byte, Base64State::End, Base64State::EndReturn),
        Base64State::One if is_letter(byte) => Base64State::Two,
        Base64State::Two if is_letter(byte) => Base64State::Three,
        Base64State::Two if byte == b'=' => Base64State::Pad,
        Base64State::Three if is_letter(byte) => Base64State::Whole,
        Base64State::Three if byte == b'=' => Base64State::Padded,
        Base64State::Whole if is_letter(byte) => Base64State::One,
        Base64State::Whole => line_end_or_wrong(byte, Base64State::Start, Base64State::Return),
        Base64State::Return if byte == b'\n' => Base64State::Start,
        Base64State::Pad if byte == b'=' => Base64State::Padded,
        Base64State::Padded | Base64State::End => {
            line_end_or_wrong(byte, Base64State::End, Base64State::EndReturn)
        }
        Base64State::EndReturn if byte == b'\n' => Base64State::End,
        _ => Base64State::Wrong,
    }
}

/// Returns the first state after a LF, the second after a CR, and otherwise the wrong one.
fn line_end_or_wrong(byte: u8, feed: Base64State, after_return: Base64State) -> Base64State
    ensures { result ≡ line_end_or_wrong byte feed after_return }
{
    match byte {
        b'\n' => feed,
        b'\r' => after_return,
        _ => Base64State::Wrong,
    }
}

/// Returns whether a byte is a letter of Base64.
#[inline(always)]
pub(crate) fn is_letter(byte: u8) -> bool
    ensures { result ≡ is_letter byte }
{
    byte.is_ascii_alphanumeric() || byte == b'+' || byte == b'/'
}

/// Returns whether a body may end in a state.
fn may_end(state: Base64State) -> bool
    ensures { result ≡ may_end state }
{
    matches!(
        state,
        Base64State::Start | Base64State::Whole | Base64State::Padded | Base64State::End
    )
}
