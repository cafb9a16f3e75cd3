//! Names of files that other programs may read differently.
ghost use Rattle.std.specs.Prelude.{◌≡◌, ◌-◌, IfOk, drop, length};
ghost use Rattle.mail_codec.specs.Places.{begins};
ghost use Rattle.mailparse.specs.Mail.{root};
ghost use Rattle.mailparse.specs.Views as views;
ghost use Rattle.mailparse.specs.Views.{content_type, tree_of};
ghost use Rattle.mail_check.specs.FileNames.{are_two, has_filler, has_risky, has_two_names};
ghost use Rattle.mail_check.specs.FileNames.{has_unsafe_name, has_untyped_name};
ghost use Rattle.mail_check.specs.FileNames.{is_filler, is_risky, lacks_type};

use mail_read::files::{filled_parameter, is_unsafe, named_file};
use mailparse::{MailHeaderMap, ParsedContentDisposition, ParsedContentType, ParsedMail};
use std::alloc::{AllocError, Global};

/// Returns whether the file names in a disposition and a type differ.
pub(crate) fn has_two_names(shown: &ParsedContentDisposition, ctype: &ParsedContentType) -> bool
    ensures { result
        ≡ has_two_names (views.disposition shown.now) (content_type ctype.now) }
{
    let Some(first) = shown.params.get("filename") else {
        return false;
    };
    let Some(second) = ctype.params.get("name") else {
        return false;
    };
    are_two(first.as_str(), second.as_str())
}

/// Returns whether two names differ and the second is not empty.
fn are_two(first: &str, second: &str) -> bool
    ensures { result ≡ are_two first.now second.now }
{
    !second.is_empty() && first != second
}

/// Returns whether a message has a file name in its disposition, and no type.
pub(crate) fn has_untyped_name(shown: &ParsedContentDisposition, part: &ParsedMail<'_>) -> bool
    ensures { result
        ≡ has_untyped_name (views.disposition shown.now) (root (tree_of part.now)) }
{
    match filled_parameter(&shown.params, "filename") {
        Some(_) => lacks_type(part),
        None => false,
    }
}

/// Returns whether a message has no type.
fn lacks_type(part: &ParsedMail<'_>) -> bool
    ensures { result ≡ lacks_type (root (tree_of part.now)) }
{
    match part.headers.get_first_header("Content-Type") {
        Some(_) => false,
        None => true,
    }
}

/// Returns whether the name of the file in a disposition and a type is not safe.
pub(crate) fn has_unsafe_name(
    alloc: Global,
    shown: &ParsedContentDisposition,
    ctype: &ParsedContentType,
) -> Result<bool, AllocError>
    ensures { IfOk result (λ is. is
        ≡ has_unsafe_name (views.disposition shown.now) (content_type ctype.now)) }
{
    match named_file(alloc, shown, ctype)? {
        Some(name) => Ok(has_risky(name.as_str()) || has_filler(name.as_bytes())),
        None => Ok(false),
    }
}

/// Returns whether a name contains a character that no safe name contains, or a colon.
fn has_risky(name: &str) -> bool
    ensures { result ≡ has_risky name.now }
{
    for c in name.chars() {
        if is_risky(c) {
            return true;
        }
    }
    false
}

/// Returns whether a character is one of these.
fn is_risky(c: char) -> bool
    ensures { result ≡ is_risky c }
{
    is_unsafe(c) || c == ':'
}

/// Returns whether a name has a dot or a blank at an end.
fn has_filler(name: &[u8]) -> bool
    ensures { result ≡ has_filler name.now }
{
    filler_at(name, 0) || filler_at(name, name.len().saturating_sub(1))
}

/// Returns whether a dot or a blank is at an offset.
fn filler_at(name: &[u8], at: usize) -> bool
    ensures { result ≡ begins is_filler (drop at name.now) }
{
    match name.get(at) {
        Some(byte) => *byte == b'.' || *byte == b' ' || *byte == b'\t',
        None => false,
    }
}
