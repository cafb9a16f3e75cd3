//! Comments in structured text (RFC 5322, section 3.2.2).
ghost use Rattle.std.specs.Prelude.{◌≡◌, ◌+◌, ◌≤◌, ◌<◌, ◌^◌, ◌++◌, ◌==◌, ◌&&◌, [], encode_utf8, if◌then◌else◌, IfOk, OnOk, string_bytes};
ghost use Rattle.std.specs.Cow.{cow_str_bytes};
ghost use Rattle.mail_read.specs.lenient.Comments.{depth_after, depth_beside, quotes_next, string_after};
ghost use Rattle.mail_read.specs.lenient.Comments.{without_comments};

use mail_codec::bytescan::find_byte;
use std::alloc::{AllocError, Global};
use std::borrow::CowStr;

/// Removes the comments of structured text (RFC 5322, section 3.2.2). Allocates only if the text
/// contains a `(`; otherwise the result borrows it.
///
/// # Errors
///
/// `AllocError` if it runs out of memory.
///
/// # Examples
///
/// ```rust
/// use mail_read::lenient::without_comments;
///
/// assert_eq!(rt; without_comments(alloc, "text/plain (a text)")?.as_ref(), "text/plain ");
/// ```
pub fn without_comments(alloc: Global, text: &str) -> Result<CowStr<'_>, AllocError>
    ensures { IfOk result (λ kept. cow_str_bytes kept ≡ without_comments text.now) }
{
    if find_byte(text.as_bytes(), b'(').is_some() {
        return Ok(CowStr::Owned(outside_comments(alloc, text)?));
    }
    Ok(CowStr::Borrowed(text))
}

/// Returns the characters of a text that are in no comment.
fn outside_comments(alloc: Global, text: &str) -> Result<String, AllocError>
    ensures { IfOk result (λ kept. string_bytes kept ≡ without_comments text.now) }
{
    let mut kept = String::new(alloc);
    let mut in_string = false;
    let mut is_quoted = false;
    let mut depth = 0;
    for c in text.chars() {
        let after = depth_beside(in_string, is_quoted, depth, c);
        push_outside(&mut kept, depth, after, c)?;
        in_string = string_after(in_string, is_quoted, depth, c);
        is_quoted = quotes_next(is_quoted, c);
        depth = after;
    }
    Ok(kept)
}

/// Appends a character that is in no comment, given the number of comments that are open before and
/// after it.
fn push_outside(kept: &mut String, depth: usize, after: usize, c: char) -> Result<(), AllocError>
    ensures { OnOk result (string_bytes kept.new ≡ string_bytes kept.old
        ++ (if depth == 0 && after == 0 then encode_utf8 c else [])) }
{
    if depth == 0 && after == 0 {
        kept.push(c)?;
    }
    Ok(())
}

/// Returns the number of comments that are open after a character, where a quoted string may be
/// open.
fn depth_beside(in_string: bool, is_quoted: bool, depth: usize, c: char) -> usize
    requires { depth < 2 ^ 63 }
    ensures value { result ≡ depth_beside in_string is_quoted depth c }
    ensures bounds { result ≤ depth + 1 }
{
    if in_string {
        return depth;
    }
    depth_after(is_quoted, depth, c)
}

/// Returns the number of comments that are open after a character.
pub(super) fn depth_after(is_quoted: bool, depth: usize, c: char) -> usize
    requires { depth < 2 ^ 63 }
    ensures value { result ≡ depth_after is_quoted depth c }
    ensures bounds { result ≤ depth + 1 }
{
    if is_quoted {
        return depth;
    }
    if c == '(' {
        return depth + 1;
    }
    if c == ')' {
        return depth.saturating_sub(1);
    }
    depth
}

/// Returns whether a character quotes the next one.
fn quotes_next(is_quoted: bool, c: char) -> bool
    ensures { result ≡ quotes_next is_quoted c }
{
    !is_quoted && c == '\\'
}

/// Returns whether a quoted string is open after a character.
fn string_after(in_string: bool, is_quoted: bool, depth: usize, c: char) -> bool
    ensures { result ≡ string_after in_string is_quoted depth c }
{
    if !is_quoted && depth == 0 && c == '"' {
        !in_string
    } else {
        in_string
    }
}
