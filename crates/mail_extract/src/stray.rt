//! Lines among headers that are no headers.
ghost use Rattle.std.specs.Prelude.{◌≡◌};
ghost use Rattle.mail_extract.specs.Stray.{after_byte, after_start, has_stray_line, is_stray};

/// What was read of a line.
#[derive(Clone, Copy, Debug, PartialEq, Eq)]
pub enum LineState {
    /// Nothing.
    Start,
    /// Bytes without a colon.
    Name,
    /// A colon, or the first byte of a continuation or of the line that ends the headers.
    Rest,
    /// A line before it had no colon.
    Stray,
}

/// Returns whether a line of a block of headers is no header: it has no colon, and neither
/// continues a header nor ends the block.
#[tactic(auto, unfolding(crate::specs::Stray::has_stray_line))]
pub(crate) fn has_stray_line(block: &[u8]) -> bool
    ensures { result ≡ has_stray_line block.now }
{
    let mut state = LineState::Start;
    for byte in block {
        state = after_byte(state, *byte);
    }
    is_stray(state)
}

/// Returns whether a line was no header, or the last one has no colon.
fn is_stray(state: LineState) -> bool
    ensures { result ≡ is_stray state }
{
    matches!(state, LineState::Name | LineState::Stray)
}

/// Returns the state after one more byte.
fn after_byte(state: LineState, byte: u8) -> LineState
    ensures { result ≡ after_byte state byte }
{
    match state {
        LineState::Start => after_start(byte),
        LineState::Name if byte == b'\n' => LineState::Stray,
        LineState::Name if byte != b':' => LineState::Name,
        LineState::Rest if byte == b'\n' => LineState::Start,
        LineState::Name | LineState::Rest => LineState::Rest,
        LineState::Stray => LineState::Stray,
    }
}

/// Returns the state after the first byte of a line.
fn after_start(byte: u8) -> LineState
    ensures { result ≡ after_start byte }
{
    match byte {
        b'\n' => LineState::Start,
        b' ' | b'\t' | b'\r' | b':' => LineState::Rest,
        _ => LineState::Name,
    }
}
