//! Names of charsets that mail uses and that are no labels of the WHATWG Encoding Standard.

/// Each row is a label of the standard, and other names of its charset.
pub(crate) static ALIASES: [(&str, &[&str]); 24] = [
    ("utf-8", &["cp65001", "utf_8"]),
    (
        "iso-8859-1",
        &["iso8859_1", "iso_8859_1", "latin-1", "latin_1"],
    ),
    ("iso-8859-2", &["iso8859_2", "iso_8859_2"]),
    ("iso-8859-3", &["iso8859_3", "iso_8859_3"]),
    ("iso-8859-4", &["iso8859_4", "iso_8859_4"]),
    ("iso-8859-5", &["iso8859_5", "iso_8859_5"]),
    ("iso-8859-6", &["iso8859_6", "iso_8859_6"]),
    ("iso-8859-7", &["iso8859_7", "iso_8859_7"]),
    ("iso-8859-8", &["iso8859_8", "iso_8859_8"]),
    ("iso-8859-9", &["iso8859_9", "iso_8859_9"]),
    ("iso-8859-10", &["iso8859_10", "iso_8859_10"]),
    ("iso-8859-11", &["iso8859_11", "iso_8859_11"]),
    ("iso-8859-13", &["iso8859_13", "iso_8859_13", "latin7"]),
    ("iso-8859-14", &["iso8859_14", "iso_8859_14", "latin8"]),
    ("iso-8859-15", &["iso8859_15", "iso_8859_15", "latin9"]),
    ("iso-8859-16", &["iso8859_16", "iso_8859_16", "latin10"]),
    ("windows-874", &["cp874", "tis620", "tis_620"]),
    ("macintosh", &["mac-roman", "mac_roman", "macroman"]),
    ("gbk", &["cp936", "euc-cn", "euc_cn", "euccn", "ms936"]),
    ("big5", &["big5_hkscs", "big5hkscs", "cp950", "ms950"]),
    ("euc-jp", &["euc_jp", "eucjp", "ujis"]),
    ("iso-2022-jp", &["iso2022_jp", "iso2022jp", "iso_2022_jp"]),
    ("shift_jis", &["cp932", "shiftjis"]),
    (
        "euc-kr",
        &[
            "cp949",
            "euc_kr",
            "euckr",
            "ks-c-5601-1987",
            "ks_c_5601",
            "ks_c_5601_1987",
            "ms949",
            "uhc",
        ],
    ),
];
