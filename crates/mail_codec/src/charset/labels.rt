//! The labels of the charsets (the WHATWG Encoding Standard, section 4.2).

pub(super) static UTF_8: [&str; 6] = [
    "unicode-1-1-utf-8",
    "unicode11utf8",
    "unicode20utf8",
    "utf-8",
    "utf8",
    "x-unicode20utf8",
];

pub(super) static WINDOWS_1252: [&str; 17] = [
    "ansi_x3.4-1968",
    "ascii",
    "cp1252",
    "cp819",
    "csisolatin1",
    "ibm819",
    "iso-8859-1",
    "iso-ir-100",
    "iso8859-1",
    "iso88591",
    "iso_8859-1",
    "iso_8859-1:1987",
    "l1",
    "latin1",
    "us-ascii",
    "windows-1252",
    "x-cp1252",
];

pub(super) static UTF_16_BE: [&str; 2] = ["unicodefffe", "utf-16be"];

pub(super) static UTF_16_LE: [&str; 7] = [
    "csunicode",
    "iso-10646-ucs-2",
    "ucs-2",
    "unicode",
    "unicodefeff",
    "utf-16",
    "utf-16le",
];

/// The labels of UTF-7, which the standard leaves out (the IANA registry of character sets).
pub(super) static UTF_7: [&str; 3] = ["csunicode11utf7", "unicode-1-1-utf-7", "utf-7"];
