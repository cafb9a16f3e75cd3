//! The text of HTML, without its links.
ghost use Rattle.std.specs.Prelude.{◌≡◌, ◌+◌, ◌<◌, ◌≤◌, false, [], length, IfOk, encode_utf8};
ghost use Rattle.mail_html.specs.Html.{bracketed, end_step, front_step, hidden_length, literal_step, markup_step, reference_step, shown_for, start_step, state_after, text_length};
ghost use Rattle.mail_html.specs.Layout.{state_of, with_text};
ghost use Rattle.mail_html.specs.ReferenceViews.{referred_text};
ghost use Rattle.mail_html.specs.declared.elements.Kind.TheVariants.{Foreign, Image};
ghost use Rattle.mail_html.specs.declared.layout.Gap.TheVariants.{Nothing};

use crate::elements::{Kind, add_tag, kind_of};
use crate::layout::{Gap, Layout, push_text};
use crate::references::{References, Referred, read_reference, value_text};
use crate::scans::{begins_declaration, begins_letter, begins_with, name_length};
use crate::tags::{contents_length, declaration_length, past_byte, tag_length, value_named};
use mail_codec::bytescan::find_either;
use mail_codec::charset::decoder::put_char;
use std::alloc::{AllocError, Global};

/// The layout after the front of some bytes, and the number of these bytes.
#[derive(Clone, Copy)]
pub(crate) struct Step {
    /// The layout.
    pub(crate) layout: Layout,
    /// The number of bytes.
    pub(crate) taken: usize,
}

/// Returns the bytes of the text of HTML.
pub(crate) fn text_bytes(
    alloc: Global,
    html: &[u8],
    references: &References<'_>,
) -> Result<Vec<u8>, AllocError>
    ensures { IfOk result (λ text.
        text.items ≡ (state_after 0 references.now ([], Nothing, false) html.now).0) }
{
    let mut text = Vec::new(alloc);
    let mut layout = Layout {
        gap: Gap::Nothing,
        is_kept: false,
    };
    let mut rest = html;
    'rest: while !rest.is_empty() {
        let step = push_front(alloc, &mut text, layout, rest, references)?;
        layout = step.layout;
        rest = &rest[step.taken..];
    }
    Ok(text)
}

/// Appends the text of the markup, the reference or the run of text at the front of bytes.
pub(crate) fn push_front(
    alloc: Global,
    text: &mut Vec<u8>,
    layout: Layout,
    bytes: &[u8],
    references: &References<'_>,
) -> Result<Step, AllocError>
    requires { 0 < length bytes.now }
    ensures read { IfOk result (λ step. (state_of text.new.items step.layout, step.taken)
        ≡ front_step references.now (state_of text.old.items layout) bytes.now) }
    ensures some { IfOk result (λ step. 0 < step.taken) }
    ensures bounds { IfOk result (λ step. step.taken ≤ length bytes.now) }
{
    if begins_with(bytes, b'<') {
        let markup = push_markup(alloc, text, layout, &bytes[1..], references)?;
        return Ok(markup);
    }
    if begins_with(bytes, b'&') {
        let reference = push_reference(text, layout, &bytes[1..], references)?;
        return Ok(reference);
    }
    let count = text_length(bytes);
    let literal = push_literal(text, layout, &bytes[..count])?;
    Ok(literal)
}

/// Returns the number of bytes before the first `<` or `&`.
fn text_length(bytes: &[u8]) -> usize
    ensures value { result ≡ text_length bytes.now }
    ensures bounds { result ≤ length bytes.now }
{
    match find_either(bytes, b'<', b'&') {
        Some(place) => place,
        None => bytes.len(),
    }
}

/// Appends bytes as text, and returns the step over them.
fn push_literal(text: &mut Vec<u8>, layout: Layout, bytes: &[u8]) -> Result<Step, AllocError>
    ensures { IfOk result (λ step. (state_of text.new.items step.layout, step.taken)
        ≡ literal_step bytes.now (state_of text.old.items layout)) }
{
    let gap = push_text(text, layout, bytes)?;
    Ok(Step {
        layout: Layout {
            gap,
            is_kept: layout.is_kept,
        },
        taken: bytes.len(),
    })
}

/// Appends the text of the reference that an ampersand before the bytes begins.
fn push_reference(
    text: &mut Vec<u8>,
    layout: Layout,
    bytes: &[u8],
    references: &References<'_>,
) -> Result<Step, AllocError>
    ensures read { IfOk result (λ step. (state_of text.new.items step.layout, step.taken)
        ≡ reference_step references.now (state_of text.old.items layout) bytes.now) }
    ensures some { IfOk result (λ step. 0 < step.taken) }
    ensures bounds { IfOk result (λ step. step.taken ≤ 1 + length bytes.now) }
{
    let reference = read_reference(references, false, bytes);
    let gap = push_referred(text, layout, reference.referred)?;
    Ok(Step {
        layout: Layout {
            gap,
            is_kept: layout.is_kept,
        },
        taken: 1 + reference.taken,
    })
}

/// Appends the text of a reference, and returns the gap after it.
fn push_referred(
    text: &mut Vec<u8>,
    layout: Layout,
    referred: Referred<'_>,
) -> Result<Gap, AllocError>
    ensures { IfOk result (λ gap. (text.new.items, gap)
        ≡ with_text layout.is_kept (referred_text referred.entry) (text.old.items, layout.gap)) }
{
    match referred {
        Referred::Character(character) => push_character(text, layout, character),
        Referred::Text(bytes) => push_text(text, layout, bytes),
    }
}

/// Appends a character, and returns the gap after it.
fn push_character(text: &mut Vec<u8>, layout: Layout, character: char) -> Result<Gap, AllocError>
    ensures { IfOk result (λ gap. (text.new.items, gap)
        ≡ with_text layout.is_kept (encode_utf8 character) (text.old.items, layout.gap)) }
{
    let mut buffer = [0; 4];
    let end = put_char(&mut buffer, 0, character);
    push_text(text, layout, &buffer[..end])
}

/// Appends the text of the markup that a `<` before the bytes begins.
fn push_markup(
    alloc: Global,
    text: &mut Vec<u8>,
    layout: Layout,
    bytes: &[u8],
    references: &References<'_>,
) -> Result<Step, AllocError>
    ensures read { IfOk result (λ step. (state_of text.new.items step.layout, step.taken)
        ≡ markup_step references.now (state_of text.old.items layout) bytes.now) }
    ensures some { IfOk result (λ step. 0 < step.taken) }
    ensures bounds { IfOk result (λ step. step.taken ≤ 1 + length bytes.now) }
{
    if begins_letter(bytes) {
        let start = push_start(alloc, text, layout, bytes, references)?;
        return Ok(start);
    }
    if begins_with(bytes, b'/') {
        let end = push_end(text, layout, &bytes[1..])?;
        return Ok(end);
    }
    if begins_declaration(bytes) {
        return Ok(Step {
            layout,
            taken: 1 + declaration_length(bytes),
        });
    }
    let literal = push_literal(text, layout, b"<")?;
    Ok(literal)
}

/// Appends the text of the markup that a `</` before the bytes begins.
fn push_end(text: &mut Vec<u8>, layout: Layout, bytes: &[u8]) -> Result<Step, AllocError>
    ensures read { IfOk result (λ step. (state_of text.new.items step.layout, step.taken)
        ≡ end_step (state_of text.old.items layout) bytes.now) }
    ensures some { IfOk result (λ step. 0 < step.taken) }
    ensures bounds { IfOk result (λ step. step.taken ≤ 2 + length bytes.now) }
{
    if begins_letter(bytes) {
        let name = name_length(bytes);
        let kind = kind_of(&bytes[..name]);
        return Ok(Step {
            layout: add_tag(false, kind, layout),
            taken: 2 + tag_length(bytes, name),
        });
    }
    if bytes.is_empty() {
        let literal = push_literal(text, layout, b"</")?;
        return Ok(literal);
    }
    Ok(Step {
        layout,
        taken: 2 + past_byte(bytes, b'>'),
    })
}

/// Appends the text of a start tag, whose name is at the front of bytes.
fn push_start(
    alloc: Global,
    text: &mut Vec<u8>,
    layout: Layout,
    bytes: &[u8],
    references: &References<'_>,
) -> Result<Step, AllocError>
    ensures read { IfOk result (λ step. (state_of text.new.items step.layout, step.taken)
        ≡ start_step references.now (state_of text.old.items layout) bytes.now) }
    ensures some { IfOk result (λ step. 0 < step.taken) }
    ensures bounds { IfOk result (λ step. step.taken ≤ 1 + length bytes.now) }
{
    let name = name_length(bytes);
    let end = tag_length(bytes, name);
    let kind = kind_of(&bytes[..name]);
    let after = add_tag(true, kind, layout);
    let gap = push_shown(alloc, text, after, kind, &bytes[name..end], references)?;
    let hidden = hidden_length(kind, &bytes[..name], &bytes[..end], &bytes[end..]);
    Ok(Step {
        layout: Layout {
            gap,
            is_kept: after.is_kept,
        },
        taken: 1 + (end + hidden),
    })
}

/// Returns the number of bytes after a start tag that are hidden.
fn hidden_length(kind: Kind, name: &[u8], tag: &[u8], rest: &[u8]) -> usize
    ensures value { result ≡ hidden_length kind name.now tag.now rest.now }
    ensures bounds { result ≤ length rest.now }
{
    match kind {
        Kind::Hidden => contents_length(name, rest),
        Kind::Foreign => foreign_length(name, tag, rest),
        _ => 0,
    }
}

/// Returns the length of the contents of a foreign element, unless its tag closes itself.
fn foreign_length(name: &[u8], tag: &[u8], rest: &[u8]) -> usize
    ensures value { result ≡ hidden_length Foreign name.now tag.now rest.now }
    ensures bounds { result ≤ length rest.now }
{
    if tag.ends_with(b"/>") {
        return 0;
    }
    contents_length(name, rest)
}

/// Appends the text that an element shows in place of its contents, and returns the gap after it.
fn push_shown(
    alloc: Global,
    text: &mut Vec<u8>,
    layout: Layout,
    kind: Kind,
    attributes: &[u8],
    references: &References<'_>,
) -> Result<Gap, AllocError>
    ensures { IfOk result (λ gap. (text.new.items, gap) ≡ with_text layout.is_kept
        (shown_for references.now kind attributes.now) (text.old.items, layout.gap)) }
{
    match kind {
        Kind::Image => push_alternative(alloc, text, layout, attributes, references),
        _ => push_text(text, layout, b""),
    }
}

/// Appends the alternative text of an image in brackets, and returns the gap after it.
fn push_alternative(
    alloc: Global,
    text: &mut Vec<u8>,
    layout: Layout,
    attributes: &[u8],
    references: &References<'_>,
) -> Result<Gap, AllocError>
    ensures { IfOk result (λ gap. (text.new.items, gap) ≡ with_text layout.is_kept
        (shown_for references.now Image attributes.now) (text.old.items, layout.gap)) }
{
    let alternative = value_text(alloc, references, value_named(attributes, b"alt"))?;
    let shown = bracketed(alloc, alternative.as_slice().trim_ascii())?;
    let gap = push_text(text, layout, shown.as_slice())?;
    Ok(gap)
}

/// Returns a text in brackets, or an empty text if it is empty.
fn bracketed(alloc: Global, text: &[u8]) -> Result<Vec<u8>, AllocError>
    ensures { IfOk result (λ shown. shown.items ≡ bracketed text.now) }
{
    let mut shown = Vec::new(alloc);
    if text.is_empty() {
        return Ok(shown);
    }
    shown.push(b'[')?;
    shown.extend_from_slice(text)?;
    shown.push(b']')?;
    Ok(shown)
}
