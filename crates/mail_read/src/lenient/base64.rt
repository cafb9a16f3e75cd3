//! Base64 that is cut off or damaged.
ghost use Rattle.std.specs.Prelude.{◌≡◌, ◌≤◌, ◌+◌, ◌++◌, ℕ, List, [], ◌∷◌, filter, IfOk, OnOk, Ok, Err, ◌==◌, length, slice_index, None, Some, if◌then◌else◌};
ghost use Rattle.std.specs.List.{prefix_len};
ghost use Rattle.mail_codec.specs.Base64.{base64, groups_from, padding};
ghost use Rattle.mail_codec.specs.Places.{without_ascii_whitespace};
ghost use Rattle.mail_read.specs.lenient.Base64.{base64_front, before, data_of, front_from, is_data};
ghost use Rattle.mail_read.specs.lenient.Base64.{is_letter, recovered, text_front, unpadded_length};
ghost use Rattle.mail_read.specs.lenient.Base64Views.{front_of, recovered_of};

use mail_codec::bytescan::strip_ascii_whitespace;
use mail_codec::transfer::decode_base64_body;
use std::alloc::{AllocError, Global};

/// The part of a Base64 body that could be read, as `base64_front` returns it.
#[derive(Debug, Drop)]
pub struct Base64Front {
    /// The bytes of the groups before the first invalid one.
    pub bytes: Vec<u8>,
    /// The index of that group, counted from 0, or `None` if there is no invalid group.
    pub fault: Option<usize>,
    /// The number of bytes that were ignored because they are no data.
    pub ignored: usize,
}

/// Returns the bytes of a Base64 body up to the first group of four that is invalid, the index of
/// that group, and the number of bytes that were ignored (RFC 4648, section 4; RFC 2045, section
/// 6.8).
///
/// ASCII whitespace is ignored, and is not counted. Before the first `=` bytes outside the alphabet
/// are ignored; after it the first of them ends the data, and all from there is ignored. Two or
/// three letters at the end, or two and one `=`, are read as a group whose padding is missing; one
/// letter alone is invalid. If `decode_base64_body` reads the body, the bytes are the same, there
/// is no invalid group, and nothing is ignored. `lenient_content` calls this for the body of a
/// mail. Allocates the bytes, and two copies of the body if `decode_base64_body` refuses it.
///
/// # Errors
///
/// `AllocError` if it runs out of memory.
///
/// # Examples
///
/// ```rust
/// use mail_read::lenient::base64_front;
///
/// let cut = base64_front(alloc, b"aGVsbG8")?;
/// assert_eq!(rt; cut.bytes.as_slice(), b"hello".as_slice());
/// assert_eq!(rt; cut.fault, None);
/// let damaged = base64_front(alloc, b"aGVs!!bG8=\n-- \nlist")?;
/// assert_eq!(rt; damaged.bytes.as_slice(), b"hello".as_slice());
/// assert_eq!(rt; damaged.ignored, 8);
/// ```
pub fn base64_front(alloc: Global, body: &[u8]) -> Result<Base64Front, AllocError>
    ensures read { IfOk result (λ front. recovered_of front ≡ base64_front body.now) }
    ensures same { (bytes : List ℕ) → base64 (without_ascii_whitespace body.now) ≡ Ok bytes →
        IfOk result (λ front. recovered_of front
        ≡ record { bytes = bytes; fault = None; ignored = 0 }) }
{
    match decode_base64_body(alloc, body)? {
        Ok(bytes) => Ok(Base64Front {
            bytes,
            fault: None,
            ignored: 0,
        }),
        Err(_) => recovered(alloc, body),
    }
}

/// Reads the data of a body that is refused.
fn recovered(alloc: Global, body: &[u8]) -> Result<Base64Front, AllocError>
    ensures { IfOk result (λ front. recovered_of front ≡ recovered body.now) }
{
    let text = strip_ascii_whitespace(alloc, body)?;
    let kept = data_of(alloc, text.as_slice())?;
    let front = text_front(alloc, kept.as_slice())?;
    Ok(Base64Front {
        bytes: front.bytes,
        fault: front.fault,
        ignored: text.len() - kept.len(),
    })
}

/// Returns the data of a text without whitespace.
#[tactic(auto, unfolding(crate::specs::lenient::Base64::data_of))]
fn data_of(alloc: Global, text: &[u8]) -> Result<Vec<u8>, AllocError>
    ensures read { IfOk result (λ kept. kept.items ≡ data_of text.now) }
    ensures bounds { IfOk result (λ kept. length kept.items ≤ length text.now) }
{
    let (front, rest) = text.split_at(unpadded_length(text));
    let mut kept = letters_in(alloc, front)?;
    kept.extend_from_slice(&rest[..data_length(rest)])?;
    Ok(kept)
}

/// Returns the number of bytes before the first padding.
fn unpadded_length(text: &[u8]) -> usize
    ensures value { result ≡ unpadded_length text.now }
    ensures bounds { result ≤ length text.now }
{
    text.iter().take_while(|byte| **byte != b'=').count()
}

/// Returns the number of bytes before the first that is neither a letter nor padding.
fn data_length(text: &[u8]) -> usize
    ensures value { result ≡ prefix_len is_data text.now }
    ensures bounds { result ≤ length text.now }
{
    text.iter().take_while(|byte| is_data(**byte)).count()
}

/// Returns whether a byte is a letter or padding.
fn is_data(byte: u8) -> bool
    ensures { result ≡ is_data byte }
{
    is_letter(byte) || byte == b'='
}

/// Returns whether a byte is a letter of the alphabet.
fn is_letter(byte: u8) -> bool
    ensures { result ≡ is_letter byte }
{
    byte.is_ascii_alphanumeric() || byte == b'+' || byte == b'/'
}

/// Returns the letters of a text.
fn letters_in(alloc: Global, text: &[u8]) -> Result<Vec<u8>, AllocError>
    ensures letters { IfOk result (λ letters. letters.items ≡ filter is_letter text.now) }
    ensures bounds { IfOk result (λ letters. length letters.items ≤ length text.now) }
{
    let mut letters = Vec::new(alloc);
    for byte in text {
        push_letter(&mut letters, *byte)?;
    }
    Ok(letters)
}

/// Appends a byte that is a letter.
fn push_letter(letters: &mut Vec<u8>, byte: u8) -> Result<(), AllocError>
    ensures written { OnOk result (letters.new.items
        ≡ letters.old.items ++ (if is_letter byte then byte ∷ [] else [])) }
    ensures bounds { OnOk result (length letters.new.items ≤ 1 + length letters.old.items) }
{
    if is_letter(byte) {
        letters.push(byte)?;
    }
    Ok(())
}

/// Reads the front of a text.
fn text_front(alloc: Global, text: &[u8]) -> Result<Base64Front, AllocError>
    ensures { IfOk result (λ front. front_of front ≡ text_front text.now) }
{
    match decode_base64_body(alloc, text)? {
        Ok(bytes) => Ok(Base64Front {
            bytes,
            fault: None,
            ignored: 0,
        }),
        Err(group) => {
            let letters = strip_ascii_whitespace(alloc, text)?;
            front_before(alloc, letters.as_slice(), group)
        }
    }
}

/// Reads the front of a text without whitespace whose first invalid group has this index.
#[tactic(auto, using(crate::proofs::lemmas::lenient::Base64::cut_fits))]
fn front_before(alloc: Global, letters: &[u8], group: usize) -> Result<Base64Front, AllocError>
    requires clean { without_ascii_whitespace letters.now ≡ letters.now }
    requires fault { groups_from 0 letters.now ≡ Err group }
    ensures { IfOk result (λ front. front_of front ≡ front_from 0 letters.now) }
{
    let (whole, rest) = letters.split_at(4 * group);
    let Ok(mut bytes) = decode_base64_body(alloc, whole)? else {
        return Ok(Base64Front {
            bytes: Vec::new(alloc),
            fault: Some(group),
            ignored: 0,
        });
    };
    if push_last(alloc, &mut bytes, rest, group)? {
        return Ok(Base64Front {
            bytes,
            fault: None,
            ignored: 0,
        });
    }
    Ok(Base64Front {
        bytes,
        fault: Some(group),
        ignored: 0,
    })
}

/// Appends the bytes of the text after the whole groups and returns true, if it consists of two or
/// three letters; otherwise returns false. The group there, which has this index, is invalid
/// without its padding.
fn push_last(
    alloc: Global,
    bytes: &mut Vec<u8>,
    rest: &[u8],
    group: usize,
) -> Result<bool, AllocError>
    requires clean { without_ascii_whitespace rest.now ≡ rest.now }
    requires fault { groups_from group rest.now ≡ Err group }
    ensures { IfOk result (λ is_read. record {
      bytes = bytes.new.items;
      fault = (if is_read then None else Some group);
    }
        ≡ before bytes.old.items (front_from group rest.now)) }
{
    if rest.len() < 2 {
        return Ok(false);
    }
    if rest.len() > 3 {
        return Ok(false);
    }
    let third = third_letter(rest);
    let Ok(last) = decode_base64_body(alloc, &[rest[0], rest[1], third, b'='])? else {
        return Ok(false);
    };
    bytes.extend_from_slice(last.as_slice())?;
    Ok(true)
}

/// Returns the third letter, or padding in its place.
fn third_letter(rest: &[u8]) -> u8
    ensures { result ≡ (if length rest.now == 3 then slice_index rest.now 2 else padding) }
{
    if rest.len() == 3 { rest[2] } else { b'=' }
}
