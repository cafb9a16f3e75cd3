//! Text with the gaps between its runs.
ghost use Rattle.std.specs.Prelude.{◌≡◌, ◌<◌, ◌≤◌, ◌==◌, IfOk, OnOk, length, drop, fold};
ghost use Rattle.mail_codec.specs.Ascii.{carriage_return};
ghost use Rattle.mail_codec.specs.Places.{begins, first_place};
ghost use Rattle.mail_html.specs.Layout.{one_more_line, rank, wider, with_collapsed, with_gap, with_kept, with_text};

use crate::scans::run_length;
use mail_codec::bytescan::find_byte;
use std::alloc::AllocError;

/// What is between two runs of text.
#[derive(Clone, Copy)]
pub(crate) enum Gap {
    /// Nothing.
    Nothing,
    /// A space.
    Space,
    /// A tab.
    Tab,
    /// The end of a line.
    LineEnd,
    /// The end of a line, and a blank line.
    BlankLine,
}

/// How the text that follows is laid out.
#[derive(Clone, Copy)]
pub(crate) struct Layout {
    /// The gap before it.
    pub(crate) gap: Gap,
    /// Whether its whitespace is kept.
    pub(crate) is_kept: bool,
}

/// Returns the number of a gap in the order of their widths.
fn rank(gap: Gap) -> u8
    ensures { result ≡ rank gap }
{
    match gap {
        Gap::Nothing => 0,
        Gap::Space => 1,
        Gap::Tab => 2,
        Gap::LineEnd => 3,
        Gap::BlankLine => 4,
    }
}

/// Returns the wider of two gaps.
pub(crate) fn wider(first: Gap, second: Gap) -> Gap
    ensures { result ≡ wider first second }
{
    if rank(first) < rank(second) {
        second
    } else {
        first
    }
}

/// Returns the gap after the end of one more line.
pub(crate) fn one_more_line(gap: Gap) -> Gap
    ensures { result ≡ one_more_line gap }
{
    match gap {
        Gap::LineEnd => Gap::BlankLine,
        Gap::BlankLine => Gap::BlankLine,
        Gap::Nothing => Gap::LineEnd,
        Gap::Space => Gap::LineEnd,
        Gap::Tab => Gap::LineEnd,
    }
}

/// Appends a gap, unless there is no text before it.
pub(crate) fn push_gap(text: &mut Vec<u8>, gap: Gap) -> Result<(), AllocError>
    ensures { OnOk result (text.new.items ≡ with_gap text.old.items gap) }
{
    if text.is_empty() {
        return Ok(());
    }
    match gap {
        Gap::Nothing => Ok(()),
        Gap::Space => text.extend_from_slice(b" "),
        Gap::Tab => text.extend_from_slice(b"\t"),
        Gap::LineEnd => text.extend_from_slice(b"\n"),
        Gap::BlankLine => text.extend_from_slice(b"\n\n"),
    }
}

/// Appends text, whose whitespace is kept or collapses, and returns the gap after it.
#[tactic(auto, unfolding(crate::specs::Layout::with_text))]
pub(crate) fn push_text(text: &mut Vec<u8>, layout: Layout, bytes: &[u8]) -> Result<Gap, AllocError>
    ensures { IfOk result (λ gap. (text.new.items, gap)
        ≡ with_text layout.is_kept bytes.now (text.old.items, layout.gap)) }
{
    if layout.is_kept {
        push_kept(text, layout.gap, bytes)
    } else {
        push_collapsed(text, layout.gap, bytes)
    }
}

/// Appends text whose whitespace is kept, except for CR, and returns the gap after it.
fn push_kept(text: &mut Vec<u8>, before: Gap, bytes: &[u8]) -> Result<Gap, AllocError>
    ensures { IfOk result (λ gap. (text.new.items, gap)
        ≡ fold with_kept (text.old.items, before) bytes.now) }
{
    let mut gap = before;
    let mut rest = bytes;
    'rest: while !rest.is_empty() {
        let run = push_kept_run(text, gap, rest)?;
        gap = run.gap;
        rest = &rest[run.taken..];
    }
    Ok(gap)
}

/// Appends the bytes before the first CR at the front of bytes, or leaves out a CR there.
fn push_kept_run(text: &mut Vec<u8>, before: Gap, bytes: &[u8]) -> Result<Run, AllocError>
    requires { 0 < length bytes.now }
    ensures pushed { IfOk result (λ run.
        fold with_kept (text.new.items, run.gap) (drop run.taken bytes.now)
        ≡ fold with_kept (text.old.items, before) bytes.now) }
    ensures some { IfOk result (λ run. 0 < run.taken) }
    ensures bounds { IfOk result (λ run. run.taken ≤ length bytes.now) }
{
    let taken = kept_length(bytes);
    if taken == 0 {
        return Ok(Run {
            gap: before,
            taken: 1,
        });
    }
    push_gap(text, before)?;
    text.extend_from_slice(&bytes[..taken])?;
    Ok(Run {
        gap: Gap::Nothing,
        taken,
    })
}

/// Returns the number of bytes before the first CR.
fn kept_length(bytes: &[u8]) -> usize
    ensures value { result ≡ first_place (begins (λ b. b == carriage_return)) bytes.now }
    ensures bounds { result ≤ length bytes.now }
{
    match find_byte(bytes, b'\r') {
        Some(place) => place,
        None => bytes.len(),
    }
}

/// Appends text whose whitespace collapses, and returns the gap after it.
fn push_collapsed(text: &mut Vec<u8>, before: Gap, bytes: &[u8]) -> Result<Gap, AllocError>
    ensures { IfOk result (λ gap. (text.new.items, gap)
        ≡ fold with_collapsed (text.old.items, before) bytes.now) }
{
    let mut gap = before;
    let mut rest = bytes;
    'rest: while !rest.is_empty() {
        let run = push_run(text, gap, rest)?;
        gap = run.gap;
        rest = &rest[run.taken..];
    }
    Ok(gap)
}

/// The gap after the front of bytes, and how many bytes that is.
#[derive(Clone, Copy)]
struct Run {
    /// The gap.
    gap: Gap,
    /// The number of bytes.
    taken: usize,
}

/// Appends the first whitespace of a gap, or all bytes before the next gap, at the front of bytes.
fn push_run(text: &mut Vec<u8>, before: Gap, bytes: &[u8]) -> Result<Run, AllocError>
    requires { 0 < length bytes.now }
    ensures pushed { IfOk result (λ run.
        fold with_collapsed (text.new.items, run.gap) (drop run.taken bytes.now)
        ≡ fold with_collapsed (text.old.items, before) bytes.now) }
    ensures some { IfOk result (λ run. 0 < run.taken) }
    ensures bounds { IfOk result (λ run. run.taken ≤ length bytes.now) }
{
    if bytes[0].is_ascii_whitespace() {
        return Ok(Run {
            gap: wider(before, Gap::Space),
            taken: 1,
        });
    }
    let taken = run_length(bytes);
    push_gap(text, before)?;
    text.extend_from_slice(&bytes[..taken])?;
    Ok(Run {
        gap: Gap::Nothing,
        taken,
    })
}
