//! Where lines of bytes end, and which are empty.
ghost use Rattle.std.specs.Prelude.{◌≡◌, ◌≤◌, ℕ, Bool, List, length};
ghost use Rattle.mail_data.specs.LineEnds.{empty_line, is_empty_line, line_length, line_place};
ghost use Rattle.mail_data.specs.private.LineEnds.{last_empty_line};

use mail_codec::bytescan::find_byte;

/// Returns the length of the empty line at the front, LF or CR LF, or 0 if there is no empty line.
#[tactic(auto, unfolding(crate::specs::LineEnds::empty_line))]
pub(crate) fn empty_line(bytes: &[u8]) -> usize
    ensures value { result ≡ empty_line bytes.now }
    ensures bounds { result ≤ length bytes.now }
{
    if bytes.starts_with(b"\n") {
        1
    } else if bytes.starts_with(b"\r\n") {
        2
    } else {
        0
    }
}

/// Returns the length of the empty line at the end, LF or CR LF, or 0 if there is no empty line.
#[tactic(auto, unfolding(crate::specs::private::LineEnds::last_empty_line))]
pub(crate) fn last_empty_line(bytes: &[u8]) -> usize
    ensures value { result ≡ last_empty_line bytes.now }
    ensures bounds { result ≤ length bytes.now }
{
    if bytes == b"\n".as_slice() || bytes.ends_with(b"\n\n") {
        1
    } else if bytes == b"\r\n".as_slice() || bytes.ends_with(b"\n\r\n") {
        2
    } else {
        0
    }
}

/// Returns whether an empty line is at the front.
pub(crate) fn is_empty_line(bytes: &[u8]) -> bool
    ensures { result ≡ is_empty_line bytes.now }
{
    empty_line(bytes) > 0
}

/// Returns the offset of the first line such that the bytes from there onwards pass the test, or
/// the length if there is no such line.
pub(crate) fn line_place<F: Fn(&[u8]) -> bool>(bytes: &[u8], passes: F) -> usize
    requires { F.IsAlwaysCallable passes }
    ensures value { (test : List ℕ → Bool) → ((text : _) (is : Bool) →
        F.post passes text is → is ≡ test text.now) → result ≡ line_place test bytes.now }
    ensures bounds { result ≤ length bytes.now }
{
    let mut at = 0;
    'lines: while !passes(&bytes[at..]) {
        let Some(place) = find_byte(&bytes[at..], b'\n') else {
            return bytes.len();
        };
        at += place + 1;
    }
    at
}

/// Returns the length of the first line, including its LF.
pub(crate) fn line_length(bytes: &[u8]) -> usize
    ensures value { result ≡ line_length bytes.now }
    ensures bounds { result ≤ length bytes.now }
{
    match find_byte(bytes, b'\n') {
        Some(place) => place + 1,
        None => bytes.len(),
    }
}
