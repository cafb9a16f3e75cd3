//! Links, by numbers in the text and their targets in footnotes.
ghost use Rattle.std.specs.Prelude.{◌≡◌, ◌+◌, ◌^◌, ◌<◌, ◌≤◌, true, false, [], length, IfOk, OnOk, string_bytes};
ghost use Rattle.mail_html.specs.Layout.{state_of};
ghost use Rattle.mail_html.specs.Links.{add_link, add_note, attribute_target, linked_after, note_line, target_at, with_notes};
ghost use Rattle.mail_html.specs.declared.layout.Gap.TheVariants.{Nothing};

use crate::html::push_front;
use crate::layout::{Gap, Layout, push_gap, push_text};
use crate::references::{References, value_text};
use crate::scans::begins_with;
use crate::tags::{has_name, value_named};
use std::alloc::{AllocError, Global};

/// What becomes of the targets of links.
#[derive(Clone, Copy, Debug, PartialEq, Eq)]
pub enum Links {
    /// They are left out.
    Omitted,
    /// Each link has a number in brackets before its text, and the targets follow the text as
    /// numbered footnotes.
    Footnotes,
}

/// The layout after a link, and how many links there are up to it.
#[derive(Clone, Copy)]
struct Numbered {
    /// The layout.
    layout: Layout,
    /// The number of links.
    count: usize,
}

/// Returns the bytes of the text of HTML with the numbers of its links, and then its footnotes.
pub(crate) fn linked_bytes(
    alloc: Global,
    html: &[u8],
    references: &References<'_>,
) -> Result<Vec<u8>, AllocError>
    ensures { let linked = linked_after 0 references.now (([], Nothing, false), [], 0) html.now in
        IfOk result (λ text. text.items ≡ with_notes linked.0.0 linked.1) }
{
    let mut text = Vec::new(alloc);
    let mut notes = Vec::new(alloc);
    let mut layout = Layout {
        gap: Gap::Nothing,
        is_kept: false,
    };
    let mut count = 0;
    let mut rest = html;
    'rest: while !rest.is_empty() {
        let step = push_front(alloc, &mut text, layout, rest, references)?;
        let target = target_at(alloc, references, rest)?;
        let numbered = push_link(
            alloc,
            &mut text,
            &mut notes,
            step.layout,
            count,
            target.as_slice(),
        )?;
        layout = numbered.layout;
        count = numbered.count;
        rest = &rest[step.taken..];
    }
    push_notes(&mut text, notes.as_slice())?;
    Ok(text)
}

/// Returns the target of the link whose start tag is at the front of bytes, or no bytes if there
/// is none.
fn target_at(
    alloc: Global,
    references: &References<'_>,
    bytes: &[u8],
) -> Result<Vec<u8>, AllocError>
    ensures { IfOk result (λ target. target.items ≡ target_at references.now bytes.now) }
{
    if begins_with(bytes, b'<') {
        let target = attribute_target(alloc, references, &bytes[1..])?;
        return Ok(target);
    }
    Ok(Vec::new(alloc))
}

/// Returns the target of a link whose name is at the front of bytes.
fn attribute_target(
    alloc: Global,
    references: &References<'_>,
    bytes: &[u8],
) -> Result<Vec<u8>, AllocError>
    ensures { IfOk result (λ target. target.items ≡ attribute_target references.now bytes.now) }
{
    if has_name(b"a", bytes) {
        let target = value_text(alloc, references, value_named(&bytes[1..], b"href"))?;
        return Ok(target);
    }
    Ok(Vec::new(alloc))
}

/// Appends the number of a link and its footnote, or nothing if its target is empty.
fn push_link(
    alloc: Global,
    text: &mut Vec<u8>,
    notes: &mut Vec<u8>,
    layout: Layout,
    count: usize,
    target: &[u8],
) -> Result<Numbered, AllocError>
    requires { count + 1 < 2 ^ 64 }
    ensures read { IfOk result (λ numbered.
        (state_of text.new.items numbered.layout, notes.new.items, numbered.count)
        ≡ add_link target.now (state_of text.old.items layout, notes.old.items, count)) }
    ensures bounds { IfOk result (λ numbered. numbered.count ≤ count + 1) }
{
    let target = target.trim_ascii();
    if target.is_empty() {
        return Ok(Numbered { layout, count });
    }
    let number = count + 1;
    let mark = format!(in alloc; "[{number}]")?;
    let gap = push_text(text, layout, mark.as_bytes())?;
    push_note(alloc, notes, mark.as_bytes(), target)?;
    Ok(Numbered {
        layout: Layout {
            gap,
            is_kept: layout.is_kept,
        },
        count: number,
    })
}

/// Appends a footnote: the number of a link in brackets, and its target.
fn push_note(
    alloc: Global,
    notes: &mut Vec<u8>,
    mark: &[u8],
    target: &[u8],
) -> Result<(), AllocError>
    ensures { OnOk result (notes.new.items ≡ add_note mark.now target.now notes.old.items) }
{
    let line = note_line(alloc, mark, target)?;
    let layout = Layout {
        gap: Gap::LineEnd,
        is_kept: false,
    };
    push_text(notes, layout, line.as_slice())?;
    Ok(())
}

/// Returns the line of a footnote.
fn note_line(alloc: Global, mark: &[u8], target: &[u8]) -> Result<Vec<u8>, AllocError>
    ensures { IfOk result (λ line. line.items ≡ note_line mark.now target.now) }
{
    let mut line = Vec::new(alloc);
    line.extend_from_slice(mark)?;
    line.push(b' ')?;
    line.extend_from_slice(target)?;
    Ok(line)
}

/// Appends the footnotes after a blank line, if there are any.
fn push_notes(text: &mut Vec<u8>, notes: &[u8]) -> Result<(), AllocError>
    ensures { OnOk result (text.new.items ≡ with_notes text.old.items notes.now) }
{
    if notes.is_empty() {
        return Ok(());
    }
    push_gap(text, Gap::BlankLine)?;
    text.extend_from_slice(notes)
}
