//! Writing results to the output buffer.
ghost use Rattle.std.specs.Prelude.{◌≡◌, length, Ok};
ghost use Rattle.mail_records.specs.Buffer.{WritesBoth, WritesItems, WritesResult, filled, output};
ghost use Rattle.mail_records.specs.Buffer.{seen, written_code};
ghost use Rattle.mail_records.specs.RecordViews.{items_found, lists_found};
ghost use Rattle.mail_records.specs.Rows.{rows_view};

use crate::codes::{ABSENT, DONE, TOO_SHORT, code_of};
use crate::records::{HeaderRecord, Part, Records};
use crate::rows::Rows;
use mailparse::MailParseError;

/// Writes a result to the front of the buffer and its length to `needed`. Returns the code.
///
/// # Examples
///
/// ```rust
/// use mail_records::buffer::write_result;
/// use mail_records::codes::DONE;
/// use mail_records::ranges::value;
///
/// let mut buffer = [0; 5];
/// let mut needed = 0;
/// assert_eq!(rt; write_result(&mut buffer, &mut needed, value(alloc, b"Hi", &())), DONE);
/// assert!(rt; buffer.starts_with(b"Hi") && needed == 2);
/// ```
pub fn write_result(
    buffer: &mut [u8],
    needed: &mut usize,
    found: Result<Option<Vec<u8>>, MailParseError>,
) -> u32
    ensures { WritesResult buffer.old buffer.new needed.old needed.new result found }
{
    match found {
        Ok(Some(bytes)) => write_items(buffer, needed, bytes.as_slice()),
        Ok(None) => ABSENT,
        Err(error) => code_of(&error),
    }
}

/// Writes items to the front of the buffer if they fit, and their number to `needed`. Returns the
/// code.
///
/// # Examples
///
/// ```rust
/// use mail_records::buffer::write_items;
/// use mail_records::codes::TOO_SHORT;
///
/// let mut buffer = [0; 2];
/// let mut needed = 0;
/// assert_eq!(rt; write_items(&mut buffer, &mut needed, b"Hi!"), TOO_SHORT);
/// assert!(rt; buffer == [0; 2] && needed == 3);
/// ```
pub fn write_items<T: Copy>(buffer: &mut [T], needed: &mut usize, items: &[T]) -> u32
    ensures code { result ≡ written_code buffer.old items.now }
    ensures written { buffer.new ≡ filled buffer.old items.now }
    ensures len { needed.new ≡ length items.now }
{
    *needed = items.len();
    if buffer.len() < items.len() {
        return TOO_SHORT;
    }
    buffer[..items.len()].copy_from_slice(items);
    DONE
}

/// Writes the records of headers to the front of the buffer if they fit, and their number to
/// `needed`. Returns the code.
///
/// # Examples
///
/// ```rust
/// use mail_records::buffer::write_headers;
/// use mail_records::codes::TOO_SHORT;
/// use mail_records::records::headers;
///
/// let mut needed = 0;
/// let code = write_headers(&mut [], &mut needed, headers(alloc, b"A: 1\nB: 2\n\n", 9));
/// assert!(rt; code == TOO_SHORT && needed == 2);
/// ```
pub fn write_headers(
    buffer: &mut [HeaderRecord],
    needed: &mut usize,
    found: Result<Vec<HeaderRecord>, u32>,
) -> u32
    ensures { WritesItems (output buffer.old buffer.new needed.old needed.new) result
        (items_found found) }
{
    match found {
        Ok(found) => write_items(buffer, needed, found.as_slice()),
        Err(code) => code,
    }
}

/// Writes the records of a mail to the front of two buffers if both fit, and their numbers to
/// `parts_needed` and `headers_needed`. Returns the code.
///
/// # Examples
///
/// ```rust
/// use mail_records::buffer::write_records;
/// use mail_records::codes::TOO_SHORT;
/// use mail_records::records::mail_records;
///
/// let (mut parts, mut headers) = (0, 0);
/// let found = mail_records(alloc, b"A: 1\nB: 2\n\n", 9, &());
/// let code = write_records(&mut [], &mut parts, &mut [], &mut headers, found);
/// assert!(rt; code == TOO_SHORT && parts == 1 && headers == 2);
/// ```
pub fn write_records(
    parts: &mut [Part],
    parts_needed: &mut usize,
    headers: &mut [HeaderRecord],
    headers_needed: &mut usize,
    found: Result<Records, u32>,
) -> u32
    ensures { WritesBoth (output parts.old parts.new parts_needed.old parts_needed.new)
        (output headers.old headers.new headers_needed.old headers_needed.new) result
        (lists_found found) }
{
    match found {
        Ok(found) => {
            let (firsts, seconds) = (found.parts.as_slice(), found.headers.as_slice());
            write_both(
                parts,
                parts_needed,
                headers,
                headers_needed,
                firsts,
                seconds,
            )
        }
        Err(code) => code,
    }
}

/// Writes records and strings to the front of two buffers if both fit, and the numbers of both.
/// Returns the code.
///
/// # Examples
///
/// ```rust
/// use mail_records::addresses::addresses;
/// use mail_records::buffer::write_rows;
/// use mail_records::codes::TOO_SHORT;
///
/// let (mut records, mut strings) = (0, 0);
/// let found = addresses(alloc, b"ann@example.org", &());
/// let code = write_rows(&mut [], &mut records, &mut [], &mut strings, found);
/// assert!(rt; code == TOO_SHORT && records == 1 && strings == 15);
/// ```
pub fn write_rows<R: Copy>(
    records: &mut [R],
    records_needed: &mut usize,
    buffer: &mut [u8],
    needed: &mut usize,
    found: Result<Rows<R>, u32>,
) -> u32
    ensures { WritesBoth (output records.old records.new records_needed.old records_needed.new)
        (output buffer.old buffer.new needed.old needed.new) result (seen rows_view found) }
{
    match found {
        Ok(found) => {
            let (firsts, seconds) = (found.records.as_slice(), found.strings.as_slice());
            write_both(records, records_needed, buffer, needed, firsts, seconds)
        }
        Err(code) => code,
    }
}

/// Writes two lists of items to the front of two buffers if both fit, and their numbers to
/// `first_needed` and `second_needed`. Returns the code.
fn write_both<A: Copy, B: Copy>(
    first: &mut [A],
    first_needed: &mut usize,
    second: &mut [B],
    second_needed: &mut usize,
    firsts: &[A],
    seconds: &[B],
) -> u32
    ensures { WritesBoth (output first.old first.new first_needed.old first_needed.new)
        (output second.old second.new second_needed.old second_needed.new) result
        (Ok (firsts.now, seconds.now)) }
{
    *first_needed = firsts.len();
    *second_needed = seconds.len();
    if first.len() < firsts.len() {
        return TOO_SHORT;
    }
    if second.len() < seconds.len() {
        return TOO_SHORT;
    }
    first[..firsts.len()].copy_from_slice(firsts);
    second[..seconds.len()].copy_from_slice(seconds);
    DONE
}
