//! The names of findings, with their classes and what they say.
ghost use Rattle.std.specs.Prelude.{◌≡◌};
ghost use Rattle.mail_check.specs.Names.{class_of, class_text, sentence_of, text_of};

/// What a finding is about.
#[derive(Clone, Copy, Debug, PartialEq, Eq)]
pub enum Class {
    /// Where headers, bodies and parts begin and end.
    Structure,
    /// The decoded bytes of a part.
    Bytes,
    /// The name of a file, the sender or the subject.
    Name,
    /// The characters of a text.
    Text,
    /// A risk, though no two of the readers that were compared differ if nothing else is found.
    Note,
}

impl Class {
    /// Returns the class as text, such as `structure`.
    ///
    /// Does not allocate.
    ///
    /// # Examples
    ///
    /// ```rust
    /// use mail_check::Class;
    ///
    /// assert_eq!(rt; Class::Structure.text(), "structure");
    /// ```
    pub fn text(self) -> &'static str
        ensures { result.now ≡ class_text self }
    {
        match self {
            Class::Structure => "structure",
            Class::Bytes => "bytes",
            Class::Name => "name",
            Class::Text => "text",
            Class::Note => "note",
        }
    }
}

/// What is found. The page FINDINGS.md explains each name.
#[derive(Clone, Copy, Debug, PartialEq, Eq)]
pub enum Name {
    /// `nul`
    Nul,
    /// `lone-cr`
    LoneCr,
    /// `mixed-line-ends`
    MixedLineEnds,
    /// `long-line`
    LongLine,
    /// `many`
    Many,
    /// `no-headers`
    NoHeaders,
    /// `no-blank-line`
    NoBlankLine,
    /// `bad-key`
    BadKey,
    /// `blank-fold`
    BlankFold,
    /// `comment-fold`
    CommentFold,
    /// `header-8bit`
    Header8bit,
    /// `duplicate`
    Duplicate,
    /// `type-syntax`
    TypeSyntax,
    /// `duplicate-parameter`
    DuplicateParameter,
    /// `quoted-special`
    QuotedSpecial,
    /// `quoted-pair`
    QuotedPair,
    /// `extended-parameter`
    ExtendedParameter,
    /// `type-extended`
    TypeExtended,
    /// `word-parameter`
    WordParameter,
    /// `type-word`
    TypeWord,
    /// `no-type`
    NoType,
    /// `two-names`
    TwoNames,
    /// `unsafe-name`
    UnsafeName,
    /// `from-syntax`
    FromSyntax,
    /// `word-syntax`
    WordSyntax,
    /// `word-join`
    WordJoin,
    /// `word-bytes`
    WordBytes,
    /// `name-address`
    NameAddress,
    /// `encoding-syntax`
    EncodingSyntax,
    /// `encoding-on-composite`
    EncodingOnComposite,
    /// `other-message`
    OtherMessage,
    /// `bad-boundary`
    BadBoundary,
    /// `preamble`
    Preamble,
    /// `no-delimiter`
    NoDelimiter,
    /// `delimiter-inside`
    DelimiterInside,
    /// `delimiter-tail`
    DelimiterTail,
    /// `no-close`
    NoClose,
    /// `late-delimiter`
    LateDelimiter,
    /// `base64-syntax`
    Base64Syntax,
    /// `base64-bits`
    Base64Bits,
    /// `qp-syntax`
    QpSyntax,
    /// `qp-blank`
    QpBlank,
    /// `8bit-body`
    EightBitBody,
    /// `uuencode`
    Uuencode,
    /// `charset`
    Charset,
    /// `refused`
    Refused,
}

impl Name {
    /// Returns the name as text, such as `lone-cr`.
    ///
    /// Does not allocate.
    ///
    /// # Examples
    ///
    /// ```rust
    /// use mail_check::Name;
    ///
    /// assert_eq!(rt; Name::LoneCr.text(), "lone-cr");
    /// ```
    pub fn text(self) -> &'static str
        ensures { result.now ≡ text_of self }
    {
        match self {
            Name::Nul => "nul",
            Name::LoneCr => "lone-cr",
            Name::MixedLineEnds => "mixed-line-ends",
            Name::LongLine => "long-line",
            Name::Many => "many",
            Name::NoHeaders => "no-headers",
            Name::NoBlankLine => "no-blank-line",
            Name::BadKey => "bad-key",
            Name::BlankFold => "blank-fold",
            Name::CommentFold => "comment-fold",
            Name::Header8bit => "header-8bit",
            Name::Duplicate => "duplicate",
            Name::TypeSyntax => "type-syntax",
            Name::DuplicateParameter => "duplicate-parameter",
            Name::QuotedSpecial => "quoted-special",
            Name::QuotedPair => "quoted-pair",
            Name::ExtendedParameter => "extended-parameter",
            Name::TypeExtended => "type-extended",
            Name::WordParameter => "word-parameter",
            Name::TypeWord => "type-word",
            Name::NoType => "no-type",
            Name::TwoNames => "two-names",
            Name::UnsafeName => "unsafe-name",
            Name::FromSyntax => "from-syntax",
            Name::WordSyntax => "word-syntax",
            Name::WordJoin => "word-join",
            Name::WordBytes => "word-bytes",
            Name::NameAddress => "name-address",
            Name::EncodingSyntax => "encoding-syntax",
            Name::EncodingOnComposite => "encoding-on-composite",
            Name::OtherMessage => "other-message",
            Name::BadBoundary => "bad-boundary",
            Name::Preamble => "preamble",
            Name::NoDelimiter => "no-delimiter",
            Name::DelimiterInside => "delimiter-inside",
            Name::DelimiterTail => "delimiter-tail",
            Name::NoClose => "no-close",
            Name::LateDelimiter => "late-delimiter",
            Name::Base64Syntax => "base64-syntax",
            Name::Base64Bits => "base64-bits",
            Name::QpSyntax => "qp-syntax",
            Name::QpBlank => "qp-blank",
            Name::EightBitBody => "8bit-body",
            Name::Uuencode => "uuencode",
            Name::Charset => "charset",
            Name::Refused => "refused",
        }
    }

    /// Returns the class of the name.
    ///
    /// Does not allocate.
    ///
    /// # Examples
    ///
    /// ```rust
    /// use mail_check::{Class, Name};
    ///
    /// assert!(rt; Name::LoneCr.class() == Class::Structure);
    /// ```
    pub fn class(self) -> Class
        ensures { result ≡ class_of self }
    {
        match self {
            Name::Nul
            | Name::LoneCr
            | Name::MixedLineEnds
            | Name::Many
            | Name::NoHeaders
            | Name::NoBlankLine
            | Name::BadKey
            | Name::BlankFold
            | Name::CommentFold
            | Name::Duplicate
            | Name::TypeSyntax
            | Name::EncodingOnComposite
            | Name::OtherMessage
            | Name::BadBoundary
            | Name::Preamble
            | Name::NoDelimiter
            | Name::DelimiterInside
            | Name::DelimiterTail
            | Name::NoClose
            | Name::LateDelimiter
            | Name::DuplicateParameter
            | Name::TypeExtended
            | Name::TypeWord
            | Name::Refused => Class::Structure,
            Name::Header8bit
            | Name::QuotedSpecial
            | Name::QuotedPair
            | Name::ExtendedParameter
            | Name::WordParameter
            | Name::FromSyntax
            | Name::WordSyntax
            | Name::WordJoin
            | Name::NameAddress
            | Name::TwoNames
            | Name::NoType
            | Name::WordBytes => Class::Name,
            Name::EncodingSyntax | Name::Base64Syntax | Name::QpSyntax | Name::QpBlank =>
                Class::Bytes,
            Name::Charset => Class::Text,
            Name::LongLine
            | Name::UnsafeName
            | Name::Base64Bits
            | Name::EightBitBody
            | Name::Uuencode => Class::Note,
        }
    }

    /// Returns a sentence that says what was found and what programs may do then.
    ///
    /// Does not allocate.
    ///
    /// # Examples
    ///
    /// ```rust
    /// use mail_check::Name;
    ///
    /// let sentence = Name::LoneCr.sentence();
    /// assert!(rt; sentence.starts_with("A CR has no LF after it"));
    /// ```
    pub fn sentence(self) -> &'static str
        ensures { result.now ≡ sentence_of self }
    {
        match self {
            Name::Nul => {
                "The mail contains a NUL byte: readers in C may end the line or the mail there."
            }
            Name::LoneCr => { "A CR has no LF after it: some readers end the line there." }
            Name::MixedLineEnds => {
                "A line end is not like the first one of the mail: some readers end lines at CR LF alone."
            }
            Name::LongLine => { "A line has more than 998 bytes: mail servers may cut or fold it." }
            Name::Many => {
                "The part is nested 10 levels deep or has 100 messages and parts before it: readers have limits."
            }
            Name::NoHeaders => {
                "The message has no headers: what follows may be read as headers, or its empty lines be lost."
            }
            Name::NoBlankLine => {
                "The headers end with their part, without an empty line: readers differ in where the body begins."
            }
            Name::BadKey => {
                "The header has no colon, two of them, or a name with other characters than printable ASCII: some readers end the headers there."
            }
            Name::BlankFold => {
                "A line that continues the header has only spaces and tabs: some readers end the headers there."
            }
            Name::CommentFold => {
                "A closing parenthesis precedes a folding of the addresses or ids: some readers end the headers there."
            }
            Name::Header8bit => {
                "The value of the header has bytes that are not ASCII: readers guess the charset, or remove them."
            }
            Name::Duplicate => {
                "The header is the second of a name that may occur once: readers take the first or the last."
            }
            Name::TypeSyntax => {
                "The type or disposition is not of the plain syntax that all readers know: they read other types, names or parameters."
            }
            Name::DuplicateParameter => {
                "A parameter occurs twice in the header: readers take the first or the last."
            }
            Name::QuotedSpecial => {
                "A parameter in quotes has a semicolon, a tab, a line end or spaces at its ends: readers cut it off or remove them."
            }
            Name::QuotedPair => {
                "A parameter has a backslash: readers remove it or take it for a part of the value."
            }
            Name::ExtendedParameter => {
                "A parameter has an asterisk in its name: some readers do not join or decode it."
            }
            Name::TypeExtended => {
                "A parameter of the type has an asterisk in its name: some readers do not join or decode it, and read another boundary or charset."
            }
            Name::WordParameter => {
                "A parameter has an encoded word: some readers decode it, others do not."
            }
            Name::TypeWord => {
                "A parameter of the type has an encoded word: some readers decode it, and read another boundary or charset."
            }
            Name::NoType => {
                "The part has a file name and no type: some readers read no name then."
            }
            Name::TwoNames => {
                "The part has two file names that differ, or a parameter of the other header: readers take one or the other."
            }
            Name::UnsafeName => {
                "The name of the file has a slash, a colon, a control character or one that changes the direction of text, or a dot or blank at an end."
            }
            Name::FromSyntax => {
                "The sender is not one address, or a plain name and one in angle brackets: readers take another address, or none."
            }
            Name::WordSyntax => {
                "An encoded word is not of the plain syntax that all readers know: some decode it, others show it as it is written."
            }
            Name::WordJoin => {
                "A Base64 word with padding is before one in the same charset: some readers join their letters before they decode them."
            }
            Name::WordBytes => {
                "An encoded word has an unknown charset, bytes that its charset lacks, or control characters: readers show different texts."
            }
            Name::NameAddress => {
                "The name of a sender has an at sign or hides a character of addresses in an encoded word: readers take another address."
            }
            Name::EncodingSyntax => {
                "The transfer encoding is not exactly one of the five names: some readers decode the body, others do not."
            }
            Name::EncodingOnComposite => {
                "A multipart or a message is in base64 or quoted-printable: some readers decode it before they split it."
            }
            Name::OtherMessage => {
                "The type begins with message/ but is not one that all readers know: some read a mail in it."
            }
            Name::BadBoundary => {
                "A multipart has no boundary of 1 to 70 allowed characters, or another type has a boundary: readers split it or not."
            }
            Name::Preamble => {
                "The text before the first delimiter has a colon: some readers take it for a part with headers."
            }
            Name::NoDelimiter => { "The multipart has no part: readers show its text, or nothing." }
            Name::DelimiterInside => {
                "The dash-boundary occurs within a line: some readers take it for a delimiter."
            }
            Name::DelimiterTail => {
                "A line begins with the dash-boundary and goes on: some readers take it for a delimiter."
            }
            Name::NoClose => {
                "The multipart has no close-delimiter: readers differ in where its last part ends, or refuse it."
            }
            Name::LateDelimiter => {
                "A delimiter follows the close-delimiter, or that comes first: readers differ in whether parts begin there."
            }
            Name::Base64Syntax => {
                "The Base64 is not lines of whole groups with padding at the end alone: readers stop, skip or go on."
            }
            Name::Base64Bits => {
                "The last letter of the Base64 before its padding has bits that make no byte and are not 0: they may hide data."
            }
            Name::QpSyntax => {
                "An equals sign begins no escape in upper case and no soft line break, or a control character occurs: readers keep or drop it."
            }
            Name::QpBlank => {
                "Blanks end a line of quoted-printable, a soft line break ends the body, or a line end is escaped: readers keep or drop it."
            }
            Name::EightBitBody => {
                "A body in 7bit or quoted-printable has bytes that are not ASCII."
            }
            Name::Uuencode => {
                "A line of the text begins a file in uuencode or yEnc: some programs take the file out of the text."
            }
            Name::Charset => {
                "The text has an unknown charset, bytes that its charset lacks, a NUL or a byte order mark: readers show different texts."
            }
            Name::Refused => {
                "The mail in the part cannot be read as a mail: other programs read something in it."
            }
        }
    }
}
