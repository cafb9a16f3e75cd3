//! Inputs that are not mail: compressed files, and the files of other mail programs.
ghost use Rattle.std.specs.Prelude.{◌≡◌};
ghost use Rattle.mail_inputs.specs.Foreign.{first_bytes, foreign_of};

/// A format of files that is not mail.
#[derive(Clone, Copy, Debug, PartialEq, Eq)]
pub enum Foreign {
    /// gzip (RFC 1952).
    Gzip,
    /// xz.
    Xz,
    /// Zstandard (RFC 8878).
    Zstandard,
    /// bzip2.
    Bzip2,
    /// ZIP.
    Zip,
    /// The compound files of OLE, such as a `.msg` of Outlook (MS-CFB).
    Ole,
    /// The personal folders of Outlook (MS-PST).
    Pst,
}

impl Foreign {
    /// Returns the bytes with which each file of this format begins.
    ///
    /// Does not allocate.
    ///
    /// # Examples
    ///
    /// ```rust
    /// use mail_inputs::Foreign;
    ///
    /// assert_eq!(rt; Foreign::Pst.first_bytes(), b"!BDN".as_slice());
    /// ```
    pub fn first_bytes(self) -> &'static [u8]
        ensures { result.now ≡ first_bytes self }
    {
        match self {
            Foreign::Gzip => b"\x1F\x8B",
            Foreign::Xz => b"\xFD7zXZ\0",
            Foreign::Zstandard => b"\x28\xB5\x2F\xFD",
            Foreign::Bzip2 => b"BZh",
            Foreign::Zip => b"PK\x03\x04",
            Foreign::Ole => b"\xD0\xCF\x11\xE0\xA1\xB1\x1A\xE1",
            Foreign::Pst => b"!BDN",
        }
    }

    /// Returns why an input of this format is not read, and what to do about it.
    ///
    /// Does not allocate.
    ///
    /// # Examples
    ///
    /// ```rust
    /// use mail_inputs::Foreign;
    ///
    /// let why = Foreign::Gzip.why();
    /// assert_eq!(rt; why, "the input is gzip-compressed; unpack it first");
    /// ```
    pub fn why(self) -> &'static str {
        match self {
            Foreign::Gzip => "the input is gzip-compressed; unpack it first",
            Foreign::Xz => "the input is xz-compressed; unpack it first",
            Foreign::Zstandard => "the input is zstd-compressed; unpack it first",
            Foreign::Bzip2 => "the input is bzip2-compressed; unpack it first",
            Foreign::Zip => "the input is a ZIP archive; unpack it first",
            Foreign::Ole => "the input is an OLE file, such as a .msg of Outlook; convert it first",
            Foreign::Pst => "the input is a PST file of Outlook; convert it first",
        }
    }
}

/// Returns the format that the first bytes of an input show, or `None` if they show none. Eight
/// bytes, or all of a shorter input, suffice.
///
/// Does not allocate.
///
/// # Examples
///
/// ```rust
/// use mail_inputs::{Foreign, foreign_of};
///
/// assert!(rt; foreign_of(b"\x1F\x8B\x08\0") == Some(Foreign::Gzip));
/// assert!(rt; foreign_of(b"Subject: Hi\n\nHello\n").is_none());
/// ```
pub fn foreign_of(input: &[u8]) -> Option<Foreign>
    ensures { result ≡ foreign_of input.now }
{
    if input.starts_with(Foreign::Gzip.first_bytes()) {
        return Some(Foreign::Gzip);
    }
    if input.starts_with(Foreign::Xz.first_bytes()) {
        return Some(Foreign::Xz);
    }
    if input.starts_with(Foreign::Zstandard.first_bytes()) {
        return Some(Foreign::Zstandard);
    }
    if input.starts_with(Foreign::Bzip2.first_bytes()) {
        return Some(Foreign::Bzip2);
    }
    if input.starts_with(Foreign::Zip.first_bytes()) {
        return Some(Foreign::Zip);
    }
    if input.starts_with(Foreign::Ole.first_bytes()) {
        return Some(Foreign::Ole);
    }
    if input.starts_with(Foreign::Pst.first_bytes()) {
        return Some(Foreign::Pst);
    }
    None
}
