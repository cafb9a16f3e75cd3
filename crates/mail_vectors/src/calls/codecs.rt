//! The searches in bytes, the transfer encodings, the charsets, and HTML.
//!
//! ```text
//! find BYTES NEEDLE.. => OFFSET | none ..            also find_byte, and for pairs find_either,
//! find_escape BYTES => OFFSET | none                 find_pair
//! strip_ascii_whitespace BYTES => KEPT
//! decode_base64 TEXT => BYTES | error GROUP          of the first invalid group; also
//!                                                    decode_base64_body
//! decode_quoted_printable TEXT => BYTES
//! charset_for_label LABEL.. => utf-8 | windows-1252 | utf-16be | utf-16le | none ..
//! decode LABEL BYTES => TEXT | none                  also decode_without_bom_handling
//! utf_16 BIG LITTLE => TEXT                          the same units in either order of bytes, read
//!                                                    by both calls: each text other than the first
//! decode_latin1 BYTES => borrowed | owned TEXT       also decode_ascii
//! encoding_for_label LABEL.. => gbk | gb18030 | big5 | euc-jp | iso-2022-jp | shift_jis | euc-kr
//!     | replacement | x-user-defined | none ..
//! decode_encoding LABEL BYTES.. => TEXT.. | none
//! decode_with_utf_7 LABEL BYTES.. => TEXT.. | none   under all charsets of the standard, and UTF-7
//! html_text HTML => TEXT                             under the references of the standard; also
//!                                                    html_text_with_links
//! ```

use crate::notation::{Answer, Decision, Row, Show, Word, calls};
use mail_charsets::{AllCharsets, Encoding, Indexes};
use mail_codec::bytescan::{
    find, find_byte, find_either, find_escape, find_pair, strip_ascii_whitespace,
};
use mail_codec::charset::{Charset, Decode, KnownCharsets, Utf7, decode_ascii, decode_latin1};
use mail_codec::transfer::{decode_base64, decode_base64_body, decode_quoted_printable};
use mail_html::{Links, References, html_text};
use std::alloc::AllocError;

pub fn make(answer: &mut Answer, row: &Row) -> Decision {
    let alloc = row.alloc;
    calls! { answer, row.call.as_str();
        "find_byte" | "find_either" | "find_pair" | "find" => find_all(answer, row),
        "find_escape" => find_escape(row.bytes(0)),
        "strip_ascii_whitespace" => strip_ascii_whitespace(alloc, row.bytes(0)),
        "decode_base64" => decode_base64(alloc, row.bytes(0)),
        "decode_base64_body" => decode_base64_body(alloc, row.bytes(0)),
        "decode_quoted_printable" => decode_quoted_printable(alloc, row.bytes(0)),
        "charset_for_label" => find_charsets(answer, row),
        "decode" | "decode_without_bom_handling" => decode(answer, row),
        "utf_16" => decode_units(answer, row),
        "decode_latin1" => decode_latin1(alloc, row.bytes(0)),
        "decode_ascii" => decode_ascii(alloc, row.bytes(0)),
        "encoding_for_label" => find_encodings(answer, row),
        "decode_encoding" => decode_encoding(answer, row),
        "decode_with_utf_7" => decode_with_utf_7(answer, row),
        "html_text" => read_html(row, Links::Omitted),
        "html_text_with_links" => read_html(row, Links::Footnotes),
    }
}

fn find_all(answer: &mut Answer, row: &Row) {
    for at in 1..row.count() {
        answer.put(offset(row, row.call.as_str(), row.bytes(0), row.bytes(at)));
    }
}

/// Returns the offset that a search of a row finds.
pub fn offset(row: &Row, call: &str, bytes: &[u8], needle: &[u8]) -> Option<usize> {
    match (call, needle) {
        ("find_byte", [byte]) => find_byte(bytes, *byte),
        ("find_either", [first, second]) => find_either(bytes, *first, *second),
        ("find_pair", [first, second]) => find_pair(bytes, *first, *second),
        ("find", needle) => find(bytes, needle),
        _ => {
            row.reject();
            None
        }
    }
}

fn read_html(row: &Row, links: Links) -> Result<String, AllocError> {
    html_text(row.alloc, row.text(0), links, &References::standard())
}

fn find_charsets(answer: &mut Answer, row: &Row) {
    for at in 0..row.count() {
        answer.put(Charset::for_label(row.bytes(at)));
    }
}

impl Show for Charset {
    fn show(&self, answer: &mut Answer) {
        answer.put(Word(match self {
            Charset::Utf8 => "utf-8",
            Charset::Windows1252 => "windows-1252",
            Charset::Utf16Be => "utf-16be",
            Charset::Utf16Le => "utf-16le",
        }));
    }
}

fn decode(answer: &mut Answer, row: &Row) {
    let Some(charset) = Charset::for_label(row.bytes(0)) else {
        return answer.put(Word("none"));
    };
    answer.put(match row.call.as_str() {
        "decode" => charset.decode(row.alloc, row.bytes(1)),
        _ => charset.decode_without_bom_handling(row.alloc, row.bytes(1)),
    });
}

fn decode_units(answer: &mut Answer, row: &Row) {
    let (alloc, big, little) = (row.alloc, Charset::Utf16Be, Charset::Utf16Le);
    answer.put(big.decode(alloc, row.bytes(0)));
    let end = answer.len();
    put_other(answer, end, little.decode(alloc, row.bytes(1)));
    put_other(
        answer,
        end,
        big.decode_without_bom_handling(alloc, row.bytes(0)),
    );
    put_other(
        answer,
        end,
        little.decode_without_bom_handling(alloc, row.bytes(1)),
    );
}

/// Writes a text unless it equals the first one, which ends at `end`.
fn put_other(answer: &mut Answer, end: usize, text: Result<String, AllocError>) {
    let start = answer.len();
    answer.put(text);
    if answer.repeats(0, end, start) {
        answer.cut(start);
    }
}

fn find_encodings(answer: &mut Answer, row: &Row) {
    for at in 0..row.count() {
        answer.put(Encoding::for_label(row.bytes(at)));
    }
}

impl Show for Encoding {
    fn show(&self, answer: &mut Answer) {
        answer.put(Word(match self {
            Encoding::Gbk => "gbk",
            Encoding::Gb18030 => "gb18030",
            Encoding::Big5 => "big5",
            Encoding::EucJp => "euc-jp",
            Encoding::Iso2022Jp => "iso-2022-jp",
            Encoding::ShiftJis => "shift_jis",
            Encoding::EucKr => "euc-kr",
            Encoding::Replacement => "replacement",
            Encoding::XUserDefined => "x-user-defined",
        }));
    }
}

fn decode_encoding(answer: &mut Answer, row: &Row) {
    let Some(encoding) = Encoding::for_label(row.bytes(0)) else {
        return answer.put(Word("none"));
    };
    for at in 1..row.count() {
        answer.put(encoding.decode_under(row.alloc, row.bytes(at), &Indexes::standard()));
    }
}

fn decode_with_utf_7(answer: &mut Answer, row: &Row) {
    let Some(charset) = (AllCharsets::standard(), Utf7).for_label(row.bytes(0)) else {
        return answer.put(Word("none"));
    };
    for at in 1..row.count() {
        answer.put(charset.decode(row.alloc, row.bytes(at)));
    }
}
