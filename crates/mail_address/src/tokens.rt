//! The tokens of addresses: words, comments, brackets and delimiters, in bytes not yet decoded.
ghost use Rattle.std.specs.Prelude.{◌≡◌, ◌+◌, ◌<◌, ◌≤◌, ◌^◌, ◌==◌, false, List, ℕ, drop, length, IsTrue};
ghost use Rattle.std.specs.List.{prefix_len};
ghost use Rattle.mail_codec.specs.Places.{begins};
ghost use Rattle.mail_address.specs.Tokens.{angle_step, angle_token, closes_comment};
ghost use Rattle.mail_address.specs.Tokens.{comment_place, comment_token, depth_after, far};
ghost use Rattle.mail_address.specs.Tokens.{is_all_white, is_angle, is_atom_byte, is_in};
ghost use Rattle.mail_address.specs.Tokens.{is_special, is_white, literal_token, plain_token};
ghost use Rattle.mail_address.specs.Tokens.{quoted_token, run, single_kind, step, front_token};
ghost use Rattle.mail_address.specs.Tokens.{unquoted_place};
ghost use Rattle.mail_address.specs.private.Plain.{white_step};

/// The kind of a token.
#[derive(Clone, Copy)]
pub(crate) enum Kind {
    /// Whitespace.
    Blank,
    /// A closed comment.
    Comment,
    /// Visible bytes without specials.
    Atom,
    /// A closed quoted string.
    Quoted,
    /// A closed domain literal.
    Literal,
    /// A pair of angle brackets and the bytes between them.
    Angle,
    Dot,
    At,
    Comma,
    Semicolon,
    Colon,
    /// A `<` without its `>`.
    Opening,
    /// A `>` without its `<`.
    Closing,
    /// Anything else.
    Other,
}

/// A token: its kind, and how many bytes it has.
#[derive(Clone, Copy)]
pub(crate) struct Token {
    pub kind: Kind,
    pub len: usize,
}

impl Token {
    /// Returns the token of this kind and length.
    fn new(kind: Kind, len: usize) -> Token
        ensures { result ≡ record { kind = kind; len = len } }
    {
        Token { kind, len }
    }
}

/// A set of kinds of tokens, which a run of tokens may have.
#[derive(Clone, Copy)]
pub(crate) enum Span {
    /// Whitespace and comments.
    White,
    /// Words, dots, whitespace and comments.
    Phrase,
    /// Atoms and quoted strings.
    Word,
    Atoms,
    Literals,
    /// Anything but an `@`.
    BeforeAt,
    BeforeColon,
    BeforeComma,
    /// Anything but a comma or a semicolon.
    BeforeSeparator,
    /// Anything but a comma, a semicolon or a colon.
    BeforeDelimiter,
    /// Anything but a semicolon or a colon.
    InGroup,
    /// Atoms and dots.
    Dots,
    /// Anything but whitespace, comments and pairs of angle brackets.
    BeforeWhite,
    /// Anything but a pair of angle brackets.
    BeforeAngle,
    /// Anything but pairs of angle brackets and a `<` without its `>`.
    BeforeOpening,
    /// Whitespace, comments, and each `>` without its `<`.
    AfterAngle,
}

/// A step over some bytes, which is repeated until it takes none.
pub(crate) trait Steps: Copy {
    // How many bytes at the front the step takes.
    ghost passes: { Self → List ℕ → ℕ };

    /// Returns how many bytes at the front the step takes.
    fn pass(self, bytes: &[u8]) -> usize
        ensures value { result ≡ passes self bytes.now }
        ensures bounds { result ≤ length bytes.now };
}

/// Returns how many bytes the repeated step takes.
pub(crate) fn far<S: Steps>(step: S, bytes: &[u8]) -> usize
    ensures value { result ≡ far (S.passes step) bytes.now }
    ensures bounds { result ≤ length bytes.now }
{
    let mut rest = bytes;
    'steps: loop {
        let len = step.pass(rest);
        if len == 0 {
            return bytes.len() - rest.len();
        }
        rest = &rest[len..];
    }
}

/// Returns whether a byte is whitespace: a space, a tab, a CR or a LF.
pub(crate) fn is_white(byte: u8) -> bool
    ensures { result ≡ is_white byte }
{
    byte == b' ' || byte == b'\t' || byte == b'\r' || byte == b'\n'
}

/// Returns whether a byte is special (RFC 5322, section 3.2.3).
fn is_special(byte: u8) -> bool
    ensures { result ≡ is_special byte }
{
    matches!(
        byte,
        b'"' | b'(' | b')' | b',' | b'.' | b':' | b';' | b'<' | b'>' | b'@' | b'[' | b']' | b'\\'
    )
}

/// Returns whether a byte may be in an atom. Most bytes of addresses are letters in lower case,
/// which need one test.
#[tactic(auto, unfolding(crate::specs::Tokens::is_atom_byte))]
pub(crate) fn is_atom_byte(byte: u8) -> bool
    ensures { result ≡ is_atom_byte byte }
{
    if byte.is_ascii_lowercase() {
        return true;
    }
    b' ' < byte && byte != 127 && !is_special(byte)
}

/// Returns whether a byte closes the outermost comment.
fn closes_comment(is_quoted: bool, depth: usize, byte: u8) -> bool
    ensures { result ≡ closes_comment is_quoted depth byte }
{
    !is_quoted && (byte == b')' && depth == 0)
}

/// Returns how many comments are open after a byte.
fn depth_after(is_quoted: bool, depth: usize, byte: u8) -> usize
    requires { depth < 2 ^ 63 }
    ensures value { result ≡ depth_after is_quoted depth byte }
    ensures bounds { result ≤ depth + 1 }
{
    if is_quoted {
        return depth;
    }
    if byte == b'(' {
        return depth + 1;
    }
    if byte == b')' {
        return depth.saturating_sub(1);
    }
    depth
}

/// Returns the offset of the `)` that closes a comment, or the length if none does.
fn comment_place(bytes: &[u8]) -> usize
    ensures value { result ≡ comment_place false 0 bytes.now }
    ensures bounds { result ≤ length bytes.now }
{
    let mut is_quoted = false;
    let mut depth = 0;
    for (place, byte) in bytes.iter().enumerate() {
        let byte = *byte;
        if closes_comment(is_quoted, depth, byte) {
            return place;
        }
        depth = depth_after(is_quoted, depth, byte);
        is_quoted = !is_quoted && byte == b'\\';
    }
    bytes.len()
}

/// Returns the offset of the first unquoted byte that is one of two, or the length if none is.
fn unquoted_place(one: u8, other: u8, bytes: &[u8]) -> usize
    ensures value { result ≡ unquoted_place one other false bytes.now }
    ensures bounds { result ≤ length bytes.now }
{
    let mut is_quoted = false;
    for (place, byte) in bytes.iter().enumerate() {
        let byte = *byte;
        if !is_quoted && (byte == one || byte == other) {
            return place;
        }
        is_quoted = !is_quoted && byte == b'\\';
    }
    bytes.len()
}

/// Returns the comment that a `(` before these bytes opens.
#[tactic(auto, unfolding(crate::specs::Tokens::comment_token))]
fn comment_token(rest: &[u8]) -> Token
    ensures value { result ≡ comment_token rest.now }
    ensures bounds { result.len ≤ length rest.now + 1 }
    ensures some { 0 < result.len }
{
    let place = comment_place(rest);
    if place < rest.len() {
        Token::new(Kind::Comment, place + 2)
    } else {
        Token::new(Kind::Other, place + 1)
    }
}

/// Returns the quoted string that a `"` before these bytes opens.
#[tactic(auto, unfolding(crate::specs::Tokens::quoted_token))]
fn quoted_token(rest: &[u8]) -> Token
    ensures value { result ≡ quoted_token rest.now }
    ensures bounds { result.len ≤ length rest.now + 1 }
    ensures some { 0 < result.len }
{
    let place = unquoted_place(b'"', b'"', rest);
    if place < rest.len() {
        Token::new(Kind::Quoted, place + 2)
    } else {
        Token::new(Kind::Other, 1)
    }
}

/// Returns the domain literal that a `[` before these bytes opens.
#[tactic(auto, unfolding(crate::specs::Tokens::literal_token))]
fn literal_token(rest: &[u8]) -> Token
    ensures value { result ≡ literal_token rest.now }
    ensures bounds { result.len ≤ length rest.now + 1 }
    ensures some { 0 < result.len }
{
    let place = unquoted_place(b'[', b']', rest);
    if begins_at(rest, place, b']') {
        Token::new(Kind::Literal, place + 2)
    } else {
        Token::new(Kind::Other, 1)
    }
}

/// Returns whether a byte is at an offset.
pub(crate) fn begins_at(bytes: &[u8], place: usize, byte: u8) -> bool
    ensures value { result ≡ begins (λ b. b == byte) (drop place bytes.now) }
    ensures within { IsTrue result → place < length bytes.now }
{
    place < bytes.len() && bytes[place] == byte
}

/// Returns the kind of a token of one byte.
#[tactic(auto, unfolding(crate::specs::Tokens::single_kind))]
fn single_kind(byte: u8) -> Kind
    ensures { result ≡ single_kind byte }
{
    match byte {
        b'.' => Kind::Dot,
        b'@' => Kind::At,
        b',' => Kind::Comma,
        b';' => Kind::Semicolon,
        b':' => Kind::Colon,
        b'<' => Kind::Opening,
        b'>' => Kind::Closing,
        _ => Kind::Other,
    }
}

/// Returns how many bytes of whitespace are at the front.
pub(crate) fn white_len(bytes: &[u8]) -> usize
    ensures value { result ≡ prefix_len is_white bytes.now }
    ensures bounds { result ≤ length bytes.now }
{
    bytes.iter().take_while(|byte| is_white(**byte)).count()
}

/// Returns how many bytes of an atom are at the front.
fn atom_len(bytes: &[u8]) -> usize
    ensures value { result ≡ prefix_len is_atom_byte bytes.now }
    ensures bounds { result ≤ length bytes.now }
{
    bytes.iter().take_while(|byte| is_atom_byte(**byte)).count()
}

/// Returns the token at the front, with each angle bracket as a token of its own.
fn plain_token(bytes: &[u8]) -> Token
    ensures value { result ≡ plain_token bytes.now }
    ensures bounds { result.len ≤ length bytes.now }
    ensures some { 0 < length bytes.now → 0 < result.len }
{
    let Some((first, rest)) = bytes.split_first() else {
        return Token::new(Kind::Other, 0);
    };
    let byte = *first;
    if is_white(byte) {
        return Token::new(Kind::Blank, 1 + white_len(rest));
    }
    if is_atom_byte(byte) {
        return Token::new(Kind::Atom, 1 + atom_len(rest));
    }
    if byte == b'(' {
        return comment_token(rest);
    }
    if byte == b'"' {
        return quoted_token(rest);
    }
    if byte == b'[' {
        return literal_token(rest);
    }
    if byte == b'\\' {
        return Token::new(Kind::Other, bytes.len().min(2));
    }
    Token::new(single_kind(byte), 1)
}

/// Returns whether a token is an angle bracket.
fn is_angle(kind: Kind) -> bool
    ensures { result ≡ is_angle kind }
{
    matches!(kind, Kind::Opening | Kind::Closing)
}

/// The step over a token that is not an angle bracket.
#[derive(Clone, Copy)]
struct NoAngle;

impl Steps for NoAngle {
    ghost passes = { λ _. angle_step };

    fn pass(self, bytes: &[u8]) -> usize {
        let token = plain_token(bytes);
        if is_angle(token.kind) { 0 } else { token.len }
    }
}

/// Returns the token that a `<` before these bytes opens: up to its `>`, if that is the next angle
/// bracket.
#[tactic(auto, unfolding(crate::specs::Tokens::angle_token))]
fn angle_token(rest: &[u8]) -> Token
    ensures value { result ≡ angle_token rest.now }
    ensures bounds { result.len ≤ length rest.now + 1 }
    ensures some { 0 < result.len }
{
    let place = far(NoAngle, rest);
    if begins_at(rest, place, b'>') {
        Token::new(Kind::Angle, place + 2)
    } else {
        Token::new(Kind::Opening, 1)
    }
}

/// Returns the token at the front.
#[tactic(auto, unfolding(crate::specs::Tokens::front_token))]
pub(crate) fn front_token(bytes: &[u8]) -> Token
    ensures value { result ≡ front_token bytes.now }
    ensures bounds { result.len ≤ length bytes.now }
    ensures some { 0 < length bytes.now → 0 < result.len }
{
    if begins_at(bytes, 0, b'<') {
        angle_token(&bytes[1..])
    } else {
        plain_token(bytes)
    }
}

/// Returns whether a set contains a kind of token.
pub(crate) fn is_in(span: Span, kind: Kind) -> bool
    ensures { result ≡ is_in span kind }
{
    match span {
        Span::White => matches!(kind, Kind::Blank | Kind::Comment),
        Span::Phrase => matches!(
            kind,
            Kind::Blank | Kind::Comment | Kind::Atom | Kind::Quoted | Kind::Dot
        ),
        Span::Word => matches!(kind, Kind::Atom | Kind::Quoted),
        Span::Atoms => matches!(kind, Kind::Atom),
        Span::Literals => matches!(kind, Kind::Literal),
        Span::BeforeAt => !matches!(kind, Kind::At),
        Span::BeforeColon => !matches!(kind, Kind::Colon),
        Span::BeforeComma => !matches!(kind, Kind::Comma),
        Span::BeforeSeparator => !matches!(kind, Kind::Comma | Kind::Semicolon),
        Span::BeforeDelimiter => !matches!(kind, Kind::Comma | Kind::Semicolon | Kind::Colon),
        Span::InGroup => !matches!(kind, Kind::Semicolon | Kind::Colon),
        Span::Dots => matches!(kind, Kind::Atom | Kind::Dot),
        Span::BeforeWhite => !matches!(kind, Kind::Blank | Kind::Comment | Kind::Angle),
        Span::BeforeAngle => !matches!(kind, Kind::Angle),
        Span::BeforeOpening => !matches!(kind, Kind::Opening | Kind::Angle),
        Span::AfterAngle => matches!(kind, Kind::Blank | Kind::Comment | Kind::Closing),
    }
}

/// Returns the length of the whitespace or of the comment at the front, or 0.
fn white_step(bytes: &[u8]) -> usize
    ensures value { result ≡ white_step bytes.now }
    ensures bounds { result ≤ length bytes.now }
{
    let Some((first, rest)) = bytes.split_first() else {
        return 0;
    };
    let byte = *first;
    if is_white(byte) {
        return 1 + white_len(rest);
    }
    if byte != b'(' {
        return 0;
    }
    let token = comment_token(rest);
    if is_in(Span::White, token.kind) {
        token.len
    } else {
        0
    }
}

/// Returns the length of the token at the front, or 0 if the set does not contain its kind.
/// Whitespace and comments need only the first byte.
#[tactic(auto, using(crate::proofs::lemmas::White::white_step_is), unfolding(crate::specs::Tokens::step))]
pub(crate) fn step(span: Span, bytes: &[u8]) -> usize
    ensures value { result ≡ step span bytes.now }
    ensures bounds { result ≤ length bytes.now }
{
    if let Span::White = span {
        return white_step(bytes);
    }
    let token = front_token(bytes);
    if is_in(span, token.kind) {
        token.len
    } else {
        0
    }
}

impl Steps for Span {
    ghost passes = { step };

    fn pass(self, bytes: &[u8]) -> usize {
        step(self, bytes)
    }
}

/// Returns the length of the run of such tokens at the front.
pub(crate) fn run(span: Span, bytes: &[u8]) -> usize
    ensures value { result ≡ run span bytes.now }
    ensures bounds { result ≤ length bytes.now }
{
    far(span, bytes)
}

/// Returns whether the bytes are only whitespace and comments, or empty.
#[tactic(auto, unfolding(crate::specs::Tokens::is_all_white))]
pub(crate) fn is_all_white(bytes: &[u8]) -> bool
    ensures { result ≡ is_all_white bytes.now }
{
    run(Span::White, bytes) == bytes.len()
}
