//! Folding: the line ends before blanks, which continue a header.
ghost use Rattle.std.specs.Prelude.{◌≡◌, ◌<◌, ◌+◌, ◌++◌, drop, length};
ghost use Rattle.std.specs.Prelude.{IfOk, IfSome, MatchOption, Some};
ghost use Rattle.mail_codec.specs.Ascii.{line_feed};
ghost use Rattle.mail_codec.specs.Places.{begins, byte_place};
ghost use Rattle.mail_read.specs.lenient.Folding.{is_blank, unfolded};

use mail_codec::bytescan::find_byte;
use std::alloc::{AllocError, Global};

/// Returns whether a byte is a space or a tab.
pub(super) fn is_blank(byte: u8) -> bool
    ensures { result ≡ is_blank byte }
{
    byte == b' ' || byte == b'\t'
}

/// Returns whether the first byte is a space or a tab.
pub(super) fn begins_in_blank(bytes: &[u8]) -> bool
    ensures { result ≡ begins is_blank bytes.now }
{
    match bytes.first() {
        Some(byte) => is_blank(*byte),
        None => false,
    }
}

/// Returns the bytes without those of folding.
pub(super) fn unfolded(alloc: Global, bytes: &[u8]) -> Result<Vec<u8>, AllocError>
    ensures { IfOk result (λ text. text.items ≡ unfolded bytes.now) }
{
    let mut text = Vec::with_capacity(alloc, bytes.len())?;
    let mut left = bytes;
    'lines: while let Some((line, rest)) = cut_line(left) {
        text.extend_from_slice(line)?;
        left = rest;
    }
    text.extend_from_slice(left)?;
    Ok(text)
}

/// Returns the first line, with its line end unless that is one of folding, and the bytes after it,
/// or `None` if there is no LF.
#[tactic(auto, using(crate::proofs::lemmas::lenient::Folding::line_cuts))]
fn cut_line(bytes: &[u8]) -> Option<(&[u8], &[u8])>
    ensures cut { MatchOption result (unfolded bytes.now ≡ bytes.now)
        (λ cut. unfolded bytes.now ≡ cut.0.now ++ unfolded cut.1.now) }
    ensures shorter { IfSome result (λ cut. length cut.1.now < length bytes.now) }
{
    let feed = find_byte(bytes, b'\n')?;
    Some((unfolded_line(bytes, feed), &bytes[feed + 1..]))
}

/// Returns the line before the first LF, which is here, with its line end unless that is folding.
fn unfolded_line(bytes: &[u8], feed: usize) -> &[u8]
    requires within { Some feed ≡ byte_place bytes.now line_feed }
    ensures { unfolded bytes.now ≡ result.now ++ unfolded (drop (feed + 1) bytes.now) }
{
    if !begins_in_blank(&bytes[feed + 1..]) {
        return &bytes[..feed + 1];
    }
    let line = &bytes[..feed];
    let Some((last, front)) = line.split_last() else {
        return line;
    };
    if *last == b'\r' { front } else { line }
}
