//! Texts whose paragraphs flow over lines.
ghost use Rattle.std.specs.Prelude.{◌≡◌, ◌<◌, ◌∷◌, ◌++◌, length, drop, map};
ghost use Rattle.std.specs.Prelude.{codes, replicate, string_bytes, IfOk, OnOk, Ok};
ghost use Rattle.mailparse.specs.Mail.{root};
ghost use Rattle.mailparse.specs.Outcome.{AnswersOrMemory};
ghost use Rattle.mailparse.specs.Views.{content_type, tree_of};
ghost use Rattle.mail_codec.specs.Ascii.{greater_than, space};
ghost use Rattle.mail_data.specs.Flowed.{between, continues, ends_in, flowed_text, gap};
ghost use Rattle.mail_data.specs.Flowed.{has_flowed_text, is_flowed, is_parameter, is_separator};
ghost use Rattle.mail_data.specs.Flowed.{line_of, line_with, pieces, quote_depth, shown, unflowed};
ghost use Rattle.mail_data.specs.Flowed.{unflowed_of, unstuffed, without_space};
ghost use Rattle.mail_data.specs.FlowedViews.{deletes, line_view};
ghost use Rattle.mail_read.specs.lenient.TextViews.{text_view};

use crate::texts::text_type;
use mail_codec::charset::KnownCharsets;
use mail_read::lenient::{BodyText, body_text};
use mailparse::{MailParseError, ParsedContentType, ParsedMail};
use std::alloc::{AllocError, Global};

/// The parameter `delsp` of a text whose paragraphs flow over lines (RFC 3676, section 4).
#[derive(Clone, Copy, Debug, PartialEq, Eq)]
pub enum DelSp {
    /// `yes`: the space at the end of a line that continues is deleted.
    Yes,
    /// `no`, or no such parameter: it stays.
    No,
}

/// A line of a text.
#[derive(Clone, Copy)]
struct Line<'t> {
    /// The number of quote marks.
    depth: usize,
    /// The text after the quote marks.
    content: &'t str,
    /// The line end, or nothing if the text ends there.
    ending: &'t str,
}

/// Returns the text of the body of a part as `lenient::body_text` does, but if its type is
/// `text/plain` with the parameter `format=flowed`, with each paragraph as one line, as `unflowed`
/// makes it (RFC 3676, section 4).
///
/// The parameter `delsp=yes` of the type deletes the spaces before the line ends within a
/// paragraph. Allocates the bytes, the text and the name of the charset.
///
/// # Errors
///
/// `MailParseError::Memory` if it runs out of memory.
///
/// # Examples
///
/// ```rust
/// use mail_data::flowed::flowed_text;
/// use mailparse::parse_mail;
///
/// let raw = b"Content-Type: text/plain; format=flowed\n\none \ntwo\n> a \n> b";
/// let mail = parse_mail(alloc, raw)?;
/// let read = flowed_text(alloc, &mail, &())?;
/// assert_eq!(rt; read.text.as_str(), "one two\n> a b");
/// ```
#[tactic(auto, unfolding(crate::specs::Flowed::flowed_text))]
pub fn flowed_text<K: KnownCharsets>(
    alloc: Global,
    part: &ParsedMail<'_>,
    known: &K,
) -> Result<BodyText, MailParseError>
    ensures { AnswersOrMemory text_view result
        (Ok (flowed_text (K.known known.now) (root (tree_of part.now)))) }
{
    let read = body_text(alloc, part, known)?;
    let text = unflowed_of(alloc, &part.ctype, read.text)?;
    Ok(BodyText {
        text,
        charset: read.charset,
        is_damaged: read.is_damaged,
    })
}

/// Returns the text of a part of this type, as `lenient::lenient_text` reads it, with each
/// paragraph as one line if they flow: `flowed_text` is this for a part whose body is not decoded
/// yet.
///
/// Returns the text itself if they do not flow, and otherwise allocates the new one.
///
/// # Errors
///
/// `AllocError` if it runs out of memory.
///
/// # Examples
///
/// ```rust
/// use mail_data::flowed::unflowed_of;
/// use mailparse::parse_content_type;
///
/// let ctype = parse_content_type(alloc, "text/plain; format=flowed")?;
/// let text = unflowed_of(alloc, &ctype, String::from_str(alloc, "one \ntwo\n")?)?;
/// assert_eq!(rt; text.as_str(), "one two\n");
/// ```
pub fn unflowed_of(
    alloc: Global,
    ctype: &ParsedContentType,
    text: String,
) -> Result<String, AllocError>
    ensures { IfOk result (λ joined.
        string_bytes joined ≡ unflowed_of (content_type ctype.now) (string_bytes text)) }
{
    if !has_flowed_text(ctype) {
        return Ok(text);
    }
    unflowed(alloc, text.as_str(), del_sp(ctype))
}

/// Returns the parameter `delsp` of a type.
fn del_sp(ctype: &ParsedContentType) -> DelSp
    ensures { deletes result ≡ is_parameter (codes "delsp") (codes "yes") (content_type ctype.now) }
{
    if is_parameter(ctype, "delsp", "yes") {
        DelSp::Yes
    } else {
        DelSp::No
    }
}

/// Returns whether the paragraphs of a text of this type flow over lines.
fn has_flowed_text(ctype: &ParsedContentType) -> bool
    ensures { result ≡ has_flowed_text (content_type ctype.now) }
{
    text_type(ctype.mimetype.as_str()) == "text/plain" && is_parameter(ctype, "format", "flowed")
}

/// Returns whether the value of a parameter of a type is this word, ignoring ASCII case.
fn is_parameter(ctype: &ParsedContentType, name: &str, word: &str) -> bool
    ensures { result ≡ is_parameter name.now word.now (content_type ctype.now) }
{
    match ctype.params.get(name) {
        Some(text) => text.as_str().eq_ignore_ascii_case(word),
        None => false,
    }
}

/// Joins the lines of each paragraph of a text whose paragraphs flow over lines (`format=flowed`;
/// RFC 3676, section 4).
///
/// A line that ends in a space continues in the next one, if that has as many quote marks and is
/// not the line `-- ` before a signature. A space at the start of a line, after its quote marks, is
/// removed. With `DelSp::Yes` the space at the end of a line that continues is removed too. A
/// paragraph that is quoted keeps its quote marks at the front, with one space after them. The line
/// end of its last line stays. Allocates the text.
///
/// # Errors
///
/// `AllocError` if it runs out of memory.
///
/// # Examples
///
/// ```rust
/// use mail_data::flowed::{DelSp, unflowed};
///
/// let text = ">> Exit, \n>>Stage Left\n>no\n From here\n-- \nsign";
/// let text = unflowed(alloc, text, DelSp::No)?;
/// assert_eq!(rt; text.as_str(), ">> Exit, Stage Left\n> no\nFrom here\n-- \nsign");
/// assert_eq!(rt; unflowed(alloc, "one \ntwo\n", DelSp::Yes)?.as_str(), "onetwo\n");
/// ```
pub fn unflowed(alloc: Global, text: &str, del_sp: DelSp) -> Result<String, AllocError>
    ensures { IfOk result (λ joined. string_bytes joined ≡ unflowed (deletes del_sp) text.now) }
{
    let mut joined = String::new(alloc);
    let mut before = Line {
        depth: 0,
        content: "",
        ending: "",
    };
    let mut rest = text;
    'lines: while !rest.is_empty() {
        let (line, after) = cut_line(rest);
        push_between(&mut joined, before, line)?;
        push_shown(&mut joined, line, del_sp)?;
        before = line;
        rest = after;
    }
    joined.push_str(before.ending)?;
    Ok(joined)
}

/// Returns the first line of a text, and the text after it.
fn cut_line(text: &str) -> (Line<'_>, &str)
    requires { 0 < length text.now }
    ensures cut { map line_of (pieces text.now)
        ≡ line_view result.0 ∷ map line_of (pieces result.1.now) }
    ensures shorter { length result.1.now < length text.now }
{
    match text.split_once('\n') {
        Some((line, rest)) => (line_before_feed(line), rest),
        None => (line_with(text, ""), ""),
    }
}

/// Returns the line that consists of a text and the LF after it.
fn line_before_feed(text: &str) -> Line<'_>
    ensures { line_view result ≡ line_of (text.now, codes "\n") }
{
    match text.strip_suffix('\r') {
        Some(front) => line_with(front, "\r\n"),
        None => line_with(text, "\n"),
    }
}

/// Returns the line that consists of a text and this line end.
fn line_with<'t>(text: &'t str, ending: &'t str) -> Line<'t>
    ensures { line_view result ≡ line_with text.now ending.now }
{
    let (depth, content) = cut_marks(text);
    Line {
        depth,
        content: unstuffed(content),
        ending,
    }
}

/// Returns the number of quote marks at the front of a text, and the text after them.
fn cut_marks(text: &str) -> (usize, &str)
    ensures depth { result.0 ≡ quote_depth text.now }
    ensures rest { result.1.now ≡ drop (quote_depth text.now) text.now }
{
    let mut depth = 0;
    let mut rest = text;
    'marks: while let Some(after) = rest.strip_prefix('>') {
        depth += 1;
        rest = after;
    }
    (depth, rest)
}

/// Returns a text without the space at its front, if there is one.
fn unstuffed(text: &str) -> &str
    ensures { result.now ≡ unstuffed text.now }
{
    text.strip_prefix(' ').unwrap_or(text)
}

/// Returns whether a line separates the signature from the text.
fn is_separator(line: Line<'_>) -> bool
    ensures { result ≡ is_separator (line_view line.entry) }
{
    line.content == "-- "
}

/// Returns whether a line ends in a space and does not separate a signature.
fn is_flowed(line: Line<'_>) -> bool
    ensures { result ≡ is_flowed (line_view line.entry) }
{
    ends_in_space(line.content) && !is_separator(line)
}

/// Returns whether a text ends in a space.
fn ends_in_space(text: &str) -> bool
    ensures { result ≡ ends_in space text.now }
{
    text.ends_with(' ')
}

/// Returns a text without the space at its end, if there is one.
fn without_space(text: &str) -> &str
    ensures { result.now ≡ without_space text.now }
{
    text.strip_suffix(' ').unwrap_or(text)
}

/// Returns whether a line continues in the next one.
fn continues(line: Line<'_>, next: Line<'_>) -> bool
    ensures { result ≡ continues (line_view line.entry) (line_view next.entry) }
{
    is_flowed(line) && line.depth == next.depth && !is_separator(next)
}

/// Appends the text between the contents of two lines: nothing if one continues in the other.
fn push_between(joined: &mut String, line: Line<'_>, next: Line<'_>) -> Result<(), AllocError>
    ensures { OnOk result (string_bytes joined.new
        ≡ string_bytes joined.old ++ between (line_view line.entry) (line_view next.entry)) }
{
    if continues(line, next) {
        return Ok(());
    }
    joined.push_str(line.ending)?;
    push_marks(joined, next)?;
    joined.push_str(gap(next))?;
    Ok(())
}

/// Returns the text between the quote marks of a line and its content.
fn gap(line: Line<'_>) -> &'static str
    ensures { result.now ≡ gap (line_view line.entry) }
{
    if line.depth == 0 || line.content.len() == 0 {
        return "";
    }
    " "
}

/// Appends the quote marks of a line.
fn push_marks(joined: &mut String, line: Line<'_>) -> Result<(), AllocError>
    ensures { OnOk result (string_bytes joined.new
        ≡ string_bytes joined.old ++ replicate line.entry.depth greater_than) }
{
    let mut left = line.depth;
    'marks: while left > 0 {
        joined.push_str(">")?;
        left -= 1;
    }
    Ok(())
}

/// Appends the content of a line as its paragraph shows it.
fn push_shown(joined: &mut String, line: Line<'_>, del_sp: DelSp) -> Result<(), AllocError>
    ensures { OnOk result (string_bytes joined.new
        ≡ string_bytes joined.old ++ shown (deletes del_sp) (line_view line.entry)) }
{
    joined.push_str(shown(line, del_sp))?;
    Ok(())
}

/// Returns the content of a line as its paragraph shows it.
fn shown<'t>(line: Line<'t>, del_sp: DelSp) -> &'t str
    ensures { result.now ≡ shown (deletes del_sp) (line_view line.entry) }
{
    match del_sp {
        DelSp::Yes if is_flowed(line) => without_space(line.content),
        _ => line.content,
    }
}
