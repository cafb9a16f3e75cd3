//! What is missing in a value with parameters (RFC 2045, section 5.1; RFC 2231, section 4).
ghost use Rattle.std.specs.Prelude.{◌≡◌, ◌++◌, ◌∷◌, [], chars, encode_utf8, is_some, IfOk, string_bytes};
ghost use Rattle.std.specs.Cow.{cow_str_bytes};
ghost use Rattle.mail_read.specs.lenient.Repairs.{after, after_end, after_name, after_quoted, after_run, after_star};
ghost use Rattle.mail_read.specs.lenient.Repairs.{after_text, after_word, before_text, in_value};
ghost use Rattle.mail_read.specs.lenient.Repairs.{apostrophes, begins_parameter, begins_with_label};
ghost use Rattle.mail_read.specs.lenient.Repairs.{ends_name, extended_are_alone};
ghost use Rattle.mail_read.specs.lenient.Repairs.{for_extended, is_label, is_name, missing, missing_apostrophes};
ghost use Rattle.mail_read.specs.lenient.Repairs.{is_other_space, lacking, lacks_nothing, may_follow};
ghost use Rattle.mail_read.specs.lenient.Repairs.{mended, missing_at_end, repaired};
ghost use Rattle.mail_read.specs.lenient.Repairs.{semicolon_unless, settled, underscore_before};
ghost use Rattle.mail_read.specs.declared.lenient.repairs.Position.TheVariants.{BeforeWord};

use super::file_names::label_in;
use super::quoting::{into_quotes, with_quotes};
use super::usual::is_usual;
use mail_codec::bytescan::find;
use mail_codec::charset::Charset;
use std::alloc::{AllocError, Global};
use std::borrow::CowStr;

/// The position of a character in a value with parameters.
#[derive(Clone, Copy, Debug)]
pub(crate) enum Position {
    /// Before the first word of the value, or after a slash in it.
    BeforeWord,
    /// In a word of the value.
    InWord,
    /// After a word of the value and whitespace.
    AfterWord,
    /// In the name of a parameter.
    InName,
    /// After a star in a name.
    AfterStar,
    /// After the `=`.
    BeforeText,
    /// In a text without quotes.
    InText,
    /// In such a text, after whitespace.
    AfterBlank,
    /// In a quoted text.
    InQuotes,
    /// In a quoted text, after a backslash that quotes the character.
    AfterBackslash,
    /// After a text.
    AfterText,
    /// After the `=` of an extended value.
    BeforeExtended,
    /// At the first character of a quoted extended value.
    InExtended,
    /// In quotes elsewhere.
    InRun,
    /// In quotes elsewhere, after a backslash that quotes the character.
    RunBackslash,
}

/// Returns a value with parameters with the semicolons, closing quotes and apostrophes that are
/// missing, with underscores in names before whitespace that mails do not use, and with quotes
/// around values that begin or end with whitespace beyond ASCII. It is borrowed if it is ASCII and
/// clearly lacks none.
pub(crate) fn repaired(alloc: Global, text: &str) -> Result<CowStr<'_>, AllocError>
    ensures { IfOk result (λ made. cow_str_bytes made ≡ repaired text.now) }
{
    if is_usual(text) {
        return Ok(CowStr::Borrowed(text));
    }
    if lacks_nothing(text) {
        return with_quotes(alloc, text);
    }
    let made = with_missing(alloc, text)?;
    Ok(CowStr::Owned(into_quotes(alloc, made)?))
}

/// Returns whether a value clearly lacks nothing, without a look at what follows a character.
fn lacks_nothing(text: &str) -> bool
    ensures { result ≡ lacks_nothing BeforeWord (chars text.now) }
{
    let mut position = Position::BeforeWord;
    for c in text.chars() {
        if !may_follow(position, c) {
            return false;
        }
        position = after(position, c);
    }
    missing_at_end(position).is_empty()
}

/// Returns whether nothing is missing before a character with this position.
#[inline(always)]
fn may_follow(position: Position, c: char) -> bool
    ensures { result ≡ may_follow position c }
{
    match position {
        Position::AfterWord => c.is_ascii_whitespace() || c == ';' || c == '/',
        Position::AfterText => c.is_ascii_whitespace() || c == ';',
        Position::InName | Position::AfterStar => !is_other_space(c),
        Position::AfterBlank => !c.is_ascii_alphabetic(),
        Position::BeforeExtended | Position::InExtended => false,
        _ => true,
    }
}

/// Returns a value with parameters with all that is missing.
fn with_missing(alloc: Global, text: &str) -> Result<String, AllocError>
    ensures { IfOk result (λ made. string_bytes made ≡ mended text.now) }
{
    let is_alone = extended_are_alone(text);
    let mut made = String::new(alloc);
    let mut position = Position::BeforeWord;
    let mut chars = text.chars();
    let mut left = chars.as_str();
    while let Some(c) = chars.next() {
        position = push_repaired(&mut made, is_alone, position, left, c)?;
        left = chars.as_str();
    }
    made.push_str(missing_at_end(position))?;
    Ok(made)
}

/// Returns whether no value begins with an extended section.
fn extended_are_alone(text: &str) -> bool
    ensures { result ≡ extended_are_alone text.now }
{
    find(text.as_bytes(), b"*0*").is_none()
}

/// Appends the first character of `left`, after what is missing before it, and returns the position
/// of the next one.
fn push_repaired(
    made: &mut String,
    is_alone: bool,
    position: Position,
    left: &str,
    c: char,
) -> Result<Position, AllocError>
    ensures position { IfOk result (λ next. next ≡ after (settled position (chars left.now)) c) }
    ensures written { IfOk result (λ next. string_bytes made.new ≡ string_bytes made.old
        ++ (missing is_alone (settled position (chars left.now)) (chars left.now)
        ++ encode_utf8 c)) }
{
    let position = settled(position, left);
    made.push_str(missing(is_alone, position, left))?;
    made.push(c)?;
    Ok(after(position, c))
}

/// Returns the position of the first character of a text.
fn settled(position: Position, left: &str) -> Position
    ensures { result ≡ settled position (chars left.now) }
{
    match position {
        Position::AfterBlank => {
            if begins_parameter(left) {
                Position::AfterText
            } else {
                Position::InText
            }
        }
        _ => position,
    }
}

/// Returns whether a text begins with a name and a `=`.
fn begins_parameter(text: &str) -> bool
    ensures { result ≡ begins_parameter (chars text.now) }
{
    let mut chars = text.chars();
    match chars.next() {
        Some(c) => c.is_ascii_alphabetic() && ends_name(chars.as_str()),
        None => false,
    }
}

/// Returns whether a text begins with the rest of a name and a `=`.
fn ends_name(text: &str) -> bool
    ensures { result ≡ ends_name (chars text.now) }
{
    for c in text.chars() {
        if !is_name(c) {
            return c == '=';
        }
    }
    false
}

/// Returns whether a character is one of a name.
fn is_name(c: char) -> bool
    ensures { result ≡ is_name c }
{
    c.is_ascii_alphanumeric() || c == '-' || c == '*'
}

/// Returns what is missing before the first character of a text.
fn missing(is_alone: bool, position: Position, left: &str) -> &'static str
    ensures { result.now ≡ missing is_alone position (chars left.now) }
{
    let Some(c) = left.chars().next() else {
        return "";
    };
    match position {
        Position::AfterWord | Position::AfterText => semicolon_unless(may_follow(position, c), c),
        Position::InName | Position::AfterStar => underscore_before(c),
        Position::BeforeExtended => {
            if c.is_ascii_whitespace() || c == '"' {
                ""
            } else {
                for_extended(is_alone, left)
            }
        }
        Position::InExtended => for_extended(is_alone, left),
        _ => "",
    }
}

/// Returns what is missing before a character that may follow a value.
fn semicolon_unless(follows: bool, c: char) -> &'static str
    ensures { result.now ≡ semicolon_unless follows c }
{
    if follows {
        return "";
    }
    if is_other_space(c) { ";_" } else { ";" }
}

/// Returns an underscore before whitespace in a name that would be trimmed otherwise.
fn underscore_before(c: char) -> &'static str
    ensures { result.now ≡ underscore_before c }
{
    if is_other_space(c) { "_" } else { "" }
}

/// Returns whether a character is whitespace other than a space, a tab, a CR and a LF.
#[inline(always)]
fn is_other_space(c: char) -> bool
    ensures { result ≡ is_other_space c }
{
    c == '\x0B' || c == '\x0C' || (!c.is_ascii() && c.is_whitespace())
}

/// Returns the apostrophes that an extended value lacks.
fn for_extended(is_alone: bool, text: &str) -> &'static str
    ensures { result.now ≡ for_extended is_alone (chars text.now) }
{
    if is_alone {
        apostrophes(lacking(text))
    } else {
        ""
    }
}

/// Returns the number of apostrophes that an extended value lacks.
fn lacking(text: &str) -> usize
    ensures { result ≡ lacking (chars text.now) }
{
    let count = missing_apostrophes(text);
    if count == 1 && !begins_with_label(text) {
        return 2;
    }
    count
}

/// Returns whether an extended value with one apostrophe begins with a label.
fn begins_with_label(text: &str) -> bool
    ensures { result ≡ begins_with_label (chars text.now) }
{
    is_label(label_in(text))
}

/// Returns whether the text before the only apostrophe is a label: nothing, or the label of a
/// built-in charset.
fn is_label(text: &str) -> bool
    ensures { result ≡ is_label text.now }
{
    text.is_empty() || Charset::for_label(text.as_bytes()).is_some()
}

/// Returns that many apostrophes, at most two.
fn apostrophes(count: usize) -> &'static str
    ensures { result.now ≡ apostrophes count }
{
    match count {
        0 => "",
        1 => "'",
        _ => "''",
    }
}

/// Returns the number of apostrophes, of two, that are missing before the first `;` or `=`.
fn missing_apostrophes(text: &str) -> usize
    ensures { result ≡ missing_apostrophes 2 (chars text.now) }
{
    let mut left = 2;
    for c in text.chars() {
        if left == 0 || c == ';' || c == '=' {
            return left;
        }
        if c == '\'' {
            left -= 1;
        }
    }
    left
}

/// Returns what is missing at the end of a text.
fn missing_at_end(position: Position) -> &'static str
    ensures { result.now ≡ missing_at_end position }
{
    match position {
        Position::InQuotes | Position::InExtended | Position::AfterBackslash => "\"",
        _ => "",
    }
}

/// Returns the position after a character with this position.
#[inline(always)]
fn after(position: Position, c: char) -> Position
    ensures { result ≡ after position c }
{
    match position {
        Position::BeforeWord => in_value(Position::BeforeWord, c),
        Position::InWord => in_value(Position::AfterWord, c),
        Position::AfterWord => after_word(c),
        Position::InName => after_name(c),
        Position::AfterStar => after_star(c),
        Position::BeforeText => before_text(Position::BeforeText, Position::InQuotes, c),
        Position::BeforeExtended => {
            before_text(Position::BeforeExtended, Position::InExtended, c)
        }
        Position::InText | Position::AfterBlank => after_text(c),
        Position::InQuotes | Position::InExtended => after_quoted(c),
        Position::AfterBackslash => Position::InQuotes,
        Position::AfterText => after_end(c),
        Position::InRun => after_run(c),
        Position::RunBackslash => Position::InRun,
    }
}

/// Returns the position after a character of the value; after whitespace it is `blank`.
fn in_value(blank: Position, c: char) -> Position
    ensures { result ≡ in_value blank c }
{
    if c.is_ascii_whitespace() {
        return blank;
    }
    match c {
        ';' => Position::InName,
        '/' => Position::BeforeWord,
        '"' => Position::InRun,
        _ => Position::InWord,
    }
}

/// Returns the position after a character that follows a word of the value and whitespace.
fn after_word(c: char) -> Position
    ensures { result ≡ after_word c }
{
    if c.is_ascii_whitespace() {
        return Position::AfterWord;
    }
    if c == '/' {
        return Position::BeforeWord;
    }
    after_name(c)
}

/// Returns the position after a character of a name.
fn after_name(c: char) -> Position
    ensures { result ≡ after_name c }
{
    match c {
        '=' => Position::BeforeText,
        '*' => Position::AfterStar,
        '"' => Position::InRun,
        _ => Position::InName,
    }
}

/// Returns the position after a character that follows a star in a name.
fn after_star(c: char) -> Position
    ensures { result ≡ after_star c }
{
    if c.is_ascii_whitespace() {
        return Position::AfterStar;
    }
    if c == '=' {
        return Position::BeforeExtended;
    }
    after_name(c)
}

/// Returns the position after a character that follows a `=`: after whitespace it is `blank`, and
/// after a quote `quoted`.
fn before_text(blank: Position, quoted: Position, c: char) -> Position
    ensures { result ≡ before_text blank quoted c }
{
    if c.is_ascii_whitespace() {
        return blank;
    }
    if c == '"' {
        return quoted;
    }
    after_text(c)
}

/// Returns the position after a character of a text without quotes.
fn after_text(c: char) -> Position
    ensures { result ≡ after_text c }
{
    if c == ';' {
        return Position::InName;
    }
    if c == '"' {
        return Position::InRun;
    }
    if c.is_ascii_whitespace() {
        return Position::AfterBlank;
    }
    Position::InText
}

/// Returns the position after a character of a quoted text.
fn after_quoted(c: char) -> Position
    ensures { result ≡ after_quoted c }
{
    match c {
        '"' => Position::AfterText,
        '\\' => Position::AfterBackslash,
        _ => Position::InQuotes,
    }
}

/// Returns the position after a character that follows a text.
fn after_end(c: char) -> Position
    ensures { result ≡ after_end c }
{
    if c.is_ascii_whitespace() {
        return Position::AfterText;
    }
    after_name(c)
}

/// Returns the position after a character in quotes elsewhere.
fn after_run(c: char) -> Position
    ensures { result ≡ after_run c }
{
    match c {
        '"' => Position::InText,
        '\\' => Position::RunBackslash,
        _ => Position::InRun,
    }
}
