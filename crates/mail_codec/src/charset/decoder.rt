//! Building blocks for the decoder of a further charset: matching its labels, measuring the ASCII
//! bytes at the front, and writing characters as UTF-8 into a buffer.
//!
//! The crate `mail_charsets` is written with them, and so may be a caller's own `Decode`.
ghost use Rattle.std.specs.Prelude.{◌≡◌, ◌+◌, ◌≤◌, ◌++◌, length, map, take, encode_utf8, IsAscii};
ghost use Rattle.std.specs.Char.{IsScalar};
ghost use Rattle.std.specs.Str.{str_eq_ignore_ascii_case};
ghost use Rattle.mail_codec.specs.Charset.{is_among_labels};

/// The number of bytes that are tested for ASCII together.
const BLOCK: usize = 16;

/// Returns whether the label is one of these labels, ignoring ASCII case (the WHATWG Encoding
/// Standard, section 4.2).
///
/// Neither the label nor the labels are trimmed. Does not allocate.
///
/// # Examples
///
/// ```rust
/// use mail_codec::charset::decoder::is_among;
///
/// assert!(rt; is_among(b"KOI8-R", &["koi8-r", "koi"]));
/// assert!(rt; !is_among(b"koi8-u", &["koi8-r", "koi"]));
/// ```
pub fn is_among(label: &[u8], labels: &[&str]) -> bool
    ensures { result ≡ is_among_labels (map (λ x. x.now) labels.now) label.now }
{
    labels.iter().any(|known| is_same(label, known.as_bytes()))
}

/// Returns whether two labels are the same, ignoring ASCII case.
fn is_same(label: &[u8], known: &[u8]) -> bool
    ensures { result ≡ str_eq_ignore_ascii_case label.now known.now }
{
    label.eq_ignore_ascii_case(known)
}

/// Returns the length of the leading blocks of 16 bytes that are all ASCII.
///
/// Fewer than 16 further ASCII bytes may follow. Does not allocate.
///
/// # Examples
///
/// ```rust
/// use mail_codec::charset::decoder::ascii_blocks_length;
///
/// assert_eq!(rt; ascii_blocks_length(b"sixteen letters and caf\xE9"), 16);
/// assert_eq!(rt; ascii_blocks_length(b"caf\xE9"), 0);
/// ```
pub fn ascii_blocks_length(bytes: &[u8]) -> usize
    ensures bounds { result ≤ length bytes.now }
    ensures ascii { IsAscii (take result bytes.now) }
{
    let mut at = 0;
    while BLOCK <= bytes.len() - at && bytes[at..at + BLOCK].is_ascii() {
        at += BLOCK;
    }
    at
}

/// Writes the UTF-8 of the character into the buffer at `at`, and returns where it ends (the
/// Unicode Standard, section 3.9).
///
/// The bytes before `at` are kept. The buffer must have four bytes from `at` onwards. Takes no
/// memory.
///
/// # Examples
///
/// ```rust
/// use mail_codec::charset::decoder::put_char;
///
/// let mut buffer = *b"caf....";
/// assert_eq!(rt; put_char(&mut buffer, 3, 'é'), 5);
/// assert_eq!(rt; &buffer[..5], b"caf\xC3\xA9".as_slice());
/// ```
pub fn put_char(buffer: &mut [u8], at: usize, character: char) -> usize
    requires capacity { at + 4 ≤ length buffer.old }
    ensures written { take result buffer.new ≡ take at buffer.old ++ encode_utf8 character }
    ensures len { result ≡ at + length (encode_utf8 character) }
    ensures bounds { result ≤ at + 4 }
    ensures scalar { IsScalar character }
{
    // By hand: the contract of `char::encode_utf8` speaks of the text that it lends, not of the
    // buffer afterwards.
    let code = character as u32;
    if code < 0x80 {
        buffer[at] = code as u8;
        return at + 1;
    }
    let last = (0x80 + code % 0x40) as u8;
    if code < 0x800 {
        buffer[at] = (0xC0 + code / 0x40) as u8;
        buffer[at + 1] = last;
        return at + 2;
    }
    let before_last = (0x80 + code / 0x40 % 0x40) as u8;
    if code < 0x1_0000 {
        buffer[at] = (0xE0 + code / 0x1000) as u8;
        buffer[at + 1] = before_last;
        buffer[at + 2] = last;
        return at + 3;
    }
    buffer[at] = (0xF0 + code / 0x4_0000) as u8;
    buffer[at + 1] = (0x80 + code / 0x1000 % 0x40) as u8;
    buffer[at + 2] = before_last;
    buffer[at + 3] = last;
    at + 4
}
