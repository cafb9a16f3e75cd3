//! Senders that other programs may read differently.
ghost use Rattle.std.specs.Prelude.{◌≡◌};
ghost use Rattle.mail_check.specs.LineViews.{line_view};
ghost use Rattle.mail_check.specs.Senders.{after_gap, after_hyphen, after_sender_byte};
ghost use Rattle.mail_check.specs.Senders.{after_sender_bytes, after_word, is_address_end};
ghost use Rattle.mail_check.specs.Senders.{is_atom, is_bad_sender, is_plain_sender};
ghost use Rattle.mail_check.specs.declared.senders.SenderState.TheVariants.{Atom, Front, Label};
ghost use Rattle.mail_check.specs.declared.senders.SenderState.TheVariants.{BareLabel, Dot};
ghost use Rattle.mail_check.specs.declared.senders.SenderState.TheVariants.{Local, Quoted};

use crate::lines::{HeaderLine, is_named};
use crate::scan::{is_blank, is_control};

/// What was read of a sender.
#[derive(Clone, Copy, Debug)]
pub enum SenderState {
    /// Nothing, or blanks.
    Front,
    /// A CR after them.
    FrontReturn,
    /// A line end there.
    FrontFeed,
    /// Blanks after that.
    FrontFold,
    /// A part of the first word, which may be an address.
    Atom,
    /// A part of it that ends with a dot.
    Dot,
    /// A part of a word, which is no address.
    Word,
    /// A text in quotes, or blanks after a word or such a text.
    Gap,
    /// A CR after them.
    GapReturn,
    /// A line end there.
    GapFeed,
    /// Blanks after that.
    GapFold,
    /// A part of a text in quotes.
    Quoted,
    /// A part of it that ends with a backslash.
    Escaped,
    /// An opening angle bracket, or a part of an address that ends with a dot before its at sign.
    LocalStart,
    /// Another part of the address before its at sign.
    Local,
    /// The at sign of the address, or a dot after it.
    DomainStart,
    /// A part of a label of the domain.
    Label,
    /// A part of it that ends with a hyphen.
    Hyphen,
    /// The at sign of an address without angle brackets, or a dot after it.
    BareStart,
    /// A part of a label of its domain.
    BareLabel,
    /// A part of it that ends with a hyphen.
    BareHyphen,
    /// The closing angle bracket.
    End,
    /// Something else.
    Wrong,
}

/// Returns whether a header names senders in another form than one address, by itself or in angle
/// brackets after a plain name.
pub(crate) fn is_bad_sender(line: &HeaderLine<'_>) -> bool
    ensures { result ≡ is_bad_sender (line_view line.now) }
{
    is_named(b"From", line) && !is_plain_sender(line.value)
}

/// Returns whether bytes are one address, or a plain name and one in angle brackets.
#[tactic(auto, unfolding(crate::specs::Senders::is_plain_sender))]
fn is_plain_sender(bytes: &[u8]) -> bool
    ensures { result ≡ is_plain_sender bytes.now }
{
    let mut state = SenderState::Front;
    for byte in bytes {
        state = after_sender_byte(state, *byte);
    }
    is_address_end(state)
}

/// Returns the state after one more byte.
#[inline(always)]
fn after_sender_byte(state: SenderState, byte: u8) -> SenderState
    ensures { result ≡ after_sender_byte state byte }
{
    match state {
        SenderState::Front => after_front(byte),
        SenderState::FrontReturn if byte == b'\n' => SenderState::FrontFeed,
        SenderState::FrontFeed if is_blank(byte) => SenderState::FrontFold,
        SenderState::FrontFold if is_blank(byte) => SenderState::FrontFold,
        SenderState::FrontFold => after_gap(SenderState::Atom, byte),
        SenderState::Atom => after_atom(byte),
        SenderState::Dot => after_dot(byte),
        SenderState::Word if byte == b'.' => SenderState::Word,
        SenderState::Word | SenderState::Gap => after_word(byte),
        SenderState::GapReturn if byte == b'\n' => SenderState::GapFeed,
        SenderState::GapFeed if is_blank(byte) => SenderState::GapFold,
        SenderState::GapFold if is_blank(byte) => SenderState::GapFold,
        SenderState::GapFold => after_gap(SenderState::Word, byte),
        SenderState::Quoted => in_quotes(byte),
        SenderState::Escaped if byte >= b' ' && byte <= b'~' => SenderState::Quoted,
        SenderState::LocalStart if is_atom(byte) => SenderState::Local,
        SenderState::Local => after_local(byte),
        SenderState::DomainStart if byte.is_ascii_alphanumeric() => SenderState::Label,
        SenderState::Label => after_label(byte),
        SenderState::Hyphen => after_hyphen(SenderState::Label, SenderState::Hyphen, byte),
        SenderState::BareStart if byte.is_ascii_alphanumeric() => SenderState::BareLabel,
        SenderState::BareLabel if byte == b'.' => SenderState::BareStart,
        SenderState::BareLabel | SenderState::BareHyphen => {
            after_hyphen(SenderState::BareLabel, SenderState::BareHyphen, byte)
        }
        _ => SenderState::Wrong,
    }
}

/// Returns the state after blanks at the front and a byte.
#[inline(always)]
fn after_front(byte: u8) -> SenderState
    ensures { result ≡ after_sender_byte Front byte }
{
    match byte {
        b' ' | b'\t' => SenderState::Front,
        b'\n' => SenderState::FrontFeed,
        b'\r' => SenderState::FrontReturn,
        byte => after_gap(SenderState::Atom, byte),
    }
}

/// Returns the state after a byte that begins a word, a text in quotes or an address in angle
/// brackets.
#[inline(always)]
fn after_gap(word: SenderState, byte: u8) -> SenderState
    ensures { result ≡ after_gap word byte }
{
    if is_atom(byte) {
        return word;
    }
    match byte {
        b'"' => SenderState::Quoted,
        b'<' => SenderState::LocalStart,
        _ => SenderState::Wrong,
    }
}

/// Returns the state after a word, blanks and a byte.
#[inline(always)]
fn after_word(byte: u8) -> SenderState
    ensures { result ≡ after_word byte }
{
    match byte {
        b' ' | b'\t' => SenderState::Gap,
        b'\n' => SenderState::GapFeed,
        b'\r' => SenderState::GapReturn,
        byte => after_gap(SenderState::Word, byte),
    }
}

/// Returns the state after a part of the first word and a byte.
#[inline(always)]
fn after_atom(byte: u8) -> SenderState
    ensures { result ≡ after_sender_byte Atom byte }
{
    match byte {
        b'.' => SenderState::Dot,
        b'@' => SenderState::BareStart,
        byte if is_atom(byte) => SenderState::Atom,
        byte => after_word(byte),
    }
}

/// Returns the state after a part of the first word that ends with a dot and a byte.
#[inline(always)]
fn after_dot(byte: u8) -> SenderState
    ensures { result ≡ after_sender_byte Dot byte }
{
    match byte {
        b'.' => SenderState::Word,
        byte if is_atom(byte) => SenderState::Atom,
        byte => after_word(byte),
    }
}

/// Returns the state after a part of a text in quotes and a byte.
#[inline(always)]
fn in_quotes(byte: u8) -> SenderState
    ensures { result ≡ after_sender_byte Quoted byte }
{
    match byte {
        b'"' => SenderState::Gap,
        b'\\' => SenderState::Escaped,
        byte if is_control(byte) => SenderState::Wrong,
        _ => SenderState::Quoted,
    }
}

/// Returns the state after a part of an address before its at sign and a byte.
#[inline(always)]
fn after_local(byte: u8) -> SenderState
    ensures { result ≡ after_sender_byte Local byte }
{
    match byte {
        byte if is_atom(byte) => SenderState::Local,
        b'.' => SenderState::LocalStart,
        b'@' => SenderState::DomainStart,
        _ => SenderState::Wrong,
    }
}

/// Returns the state after a part of a label and a byte.
#[inline(always)]
fn after_label(byte: u8) -> SenderState
    ensures { result ≡ after_sender_byte Label byte }
{
    match byte {
        b'.' => SenderState::DomainStart,
        b'>' => SenderState::End,
        byte => after_hyphen(SenderState::Label, SenderState::Hyphen, byte),
    }
}

/// Returns the state after a part of a label, which may end with a hyphen, and a byte.
#[inline(always)]
fn after_hyphen(label: SenderState, hyphens: SenderState, byte: u8) -> SenderState
    ensures { result ≡ after_hyphen label hyphens byte }
{
    match byte {
        b'-' => hyphens,
        byte if byte.is_ascii_alphanumeric() => label,
        _ => SenderState::Wrong,
    }
}

/// Returns whether a sender may end in a state.
fn is_address_end(state: SenderState) -> bool
    ensures { result ≡ is_address_end state }
{
    matches!(state, SenderState::End | SenderState::BareLabel)
}

/// Returns whether a byte is a character of an atom.
#[inline(always)]
fn is_atom(byte: u8) -> bool
    ensures { result ≡ is_atom byte }
{
    byte.is_ascii_alphanumeric()
        || matches!(
            byte,
            b'!' | b'#'..=b'\'' | b'*' | b'+' | b'-' | b'/' | b'=' | b'?' | b'^'..=b'`' | b'{'..=b'~'
        )
}
