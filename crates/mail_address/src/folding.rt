//! Folding and other whitespace within quoted strings and domain literals, and control characters.
ghost use Rattle.std.specs.Prelude.{◌≡◌, ◌++◌, false, IfOk, OnOk};
ghost use Rattle.mail_address.specs.Folding.{has_no_control, is_blank, is_control, is_fold};
ghost use Rattle.mail_address.specs.Folding.{is_folded_feed, unfolded, without_white};

use crate::tokens::is_white;
use std::alloc::{AllocError, Global};

/// Returns whether a byte is a control character.
pub(crate) fn is_control(byte: u8) -> bool
    ensures { result ≡ is_control byte }
{
    byte < b' ' || byte == 127
}

/// Returns whether a text contains no control character.
pub(crate) fn has_no_control(text: &[u8]) -> bool
    ensures { result ≡ has_no_control text.now }
{
    text.iter().all(|byte| !is_control(*byte))
}

/// Returns whether a byte is a space or a tab.
fn is_blank(byte: u8) -> bool
    ensures { result ≡ is_blank byte }
{
    byte == b' ' || byte == b'\t'
}

/// Returns whether the bytes begin with a LF and a blank.
fn is_folded_feed(bytes: &[u8]) -> bool
    ensures { result ≡ is_folded_feed bytes.now }
{
    let Some((first, rest)) = bytes.split_first() else {
        return false;
    };
    let Some((next, _)) = rest.split_first() else {
        return false;
    };
    *first == b'\n' && is_blank(*next)
}

/// Returns whether the first byte is one of folding (RFC 5322, section 2.2.3).
fn is_fold(bytes: &[u8]) -> bool
    ensures { result ≡ is_fold bytes.now }
{
    let Some((first, rest)) = bytes.split_first() else {
        return false;
    };
    is_folded_feed(bytes) || (*first == b'\r' && is_folded_feed(rest))
}

/// Returns the bytes without those of folding.
pub(crate) fn unfolded(alloc: Global, bytes: &[u8]) -> Result<Vec<u8>, AllocError>
    ensures { IfOk result (λ text. text.items ≡ unfolded bytes.now) }
{
    let mut text = Vec::new(alloc);
    let mut left = bytes;
    'bytes: while let Some((first, rest)) = left.split_first() {
        if !is_fold(left) {
            text.push(*first)?;
        }
        left = rest;
    }
    Ok(text)
}

/// Returns whether the bytes contain no control character but those of folding.
pub(crate) fn is_unfolded_clean(bytes: &[u8]) -> bool
    ensures { result ≡ has_no_control (unfolded bytes.now) }
{
    let mut left = bytes;
    'bytes: while let Some((first, rest)) = left.split_first() {
        if !is_fold(left) && is_control(*first) {
            return false;
        }
        left = rest;
    }
    true
}

/// Appends the bytes without whitespace, but with each byte that a backslash quotes.
pub(crate) fn push_without_white(text: &mut Vec<u8>, bytes: &[u8]) -> Result<(), AllocError>
    ensures { OnOk result (text.new.items ≡ text.old.items ++ without_white false bytes.now) }
{
    let mut is_quoted = false;
    for byte in bytes {
        let byte = *byte;
        if !is_quoted && is_white(byte) {
            is_quoted = false;
        } else {
            is_quoted = !is_quoted && byte == b'\\';
            text.push(byte)?;
        }
    }
    Ok(())
}

/// Returns whether the bytes contain no control character but whitespace that no backslash quotes.
pub(crate) fn is_clean_without_white(bytes: &[u8]) -> bool
    ensures { result ≡ has_no_control (without_white false bytes.now) }
{
    let mut is_quoted = false;
    for byte in bytes {
        let byte = *byte;
        if !is_quoted && is_white(byte) {
            is_quoted = false;
        } else {
            if is_control(byte) {
                return false;
            }
            is_quoted = !is_quoted && byte == b'\\';
        }
    }
    true
}
