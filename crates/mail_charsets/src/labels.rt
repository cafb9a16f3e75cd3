//! The labels of the encodings (the WHATWG Encoding Standard, section 4.2).

use crate::encoding::Encoding;

pub(crate) const GBK: [&str; 9] = [
    "chinese",
    "csgb2312",
    "csiso58gb231280",
    "gb2312",
    "gb_2312",
    "gb_2312-80",
    "gbk",
    "iso-ir-58",
    "x-gbk",
];

pub(crate) const GB18030: [&str; 1] = ["gb18030"];

pub(crate) const BIG5: [&str; 5] = ["big5", "big5-hkscs", "cn-big5", "csbig5", "x-x-big5"];

pub(crate) const EUC_JP: [&str; 3] = ["cseucpkdfmtjapanese", "euc-jp", "x-euc-jp"];

pub(crate) const ISO_2022_JP: [&str; 2] = ["csiso2022jp", "iso-2022-jp"];

pub(crate) const SHIFT_JIS: [&str; 8] = [
    "csshiftjis",
    "ms932",
    "ms_kanji",
    "shift-jis",
    "shift_jis",
    "sjis",
    "windows-31j",
    "x-sjis",
];

pub(crate) const EUC_KR: [&str; 10] = [
    "cseuckr",
    "csksc56011987",
    "euc-kr",
    "iso-ir-149",
    "korean",
    "ks_c_5601-1987",
    "ks_c_5601-1989",
    "ksc5601",
    "ksc_5601",
    "windows-949",
];

pub(crate) const REPLACEMENT: [&str; 6] = [
    "csiso2022kr",
    "hz-gb-2312",
    "iso-2022-cn",
    "iso-2022-cn-ext",
    "iso-2022-kr",
    "replacement",
];

pub(crate) const X_USER_DEFINED: [&str; 1] = ["x-user-defined"];

/// The encodings, each with its labels.
pub(crate) static ENCODINGS: [(Encoding, &[&str]); 9] = [
    (Encoding::Gbk, &GBK),
    (Encoding::Gb18030, &GB18030),
    (Encoding::Big5, &BIG5),
    (Encoding::EucJp, &EUC_JP),
    (Encoding::Iso2022Jp, &ISO_2022_JP),
    (Encoding::ShiftJis, &SHIFT_JIS),
    (Encoding::EucKr, &EUC_KR),
    (Encoding::Replacement, &REPLACEMENT),
    (Encoding::XUserDefined, &X_USER_DEFINED),
];
