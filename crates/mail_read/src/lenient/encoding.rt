//! Transfer encodings with other text after their names, and uuencode.
ghost use Rattle.std.specs.Prelude.{◌≡◌, ◌≢◌, ◌≤◌, codes, length, not, Some, IfErr, IfOk};
ghost use Rattle.std.specs.Char.{is_ascii_whitespace};
ghost use Rattle.std.specs.List.{prefix_len};
ghost use Rattle.mailparse.specs.Body.{in_7bit};
ghost use Rattle.mailparse.specs.BodyViews.{Content, content_of, name_of};
ghost use Rattle.mailparse.specs.Mail.{body_kind, root};
ghost use Rattle.mailparse.specs.Map.{text_found};
ghost use Rattle.mailparse.specs.Outcome.{IsMemory};
ghost use Rattle.mailparse.specs.Views.{content_type, tree_of};
ghost use Rattle.mail_read.specs.lenient.Encoding.{LenientKind, ends_name, lenient_body_kind};
ghost use Rattle.mail_read.specs.lenient.Encoding.{lenient_kind, lenient_kind_named, name_at};
ghost use Rattle.mail_read.specs.lenient.Encoding.{names_uuencode, standard};
ghost use Rattle.mail_read.specs.lenient.EncodingViews.{IsLenientBody};

use mailparse::body::Body;
use mailparse::{MailHeaderMap, MailParseError, ParsedContentType, ParsedMail};
use std::alloc::{AllocError, Global};

/// A body by its transfer encoding, as `lenient_body` returns it.
#[derive(Debug, Drop)]
pub enum LenientBody<'b> {
    /// A body in an encoding of RFC 2045, section 6, or in an unknown one.
    Standard(Body<'b>),
    /// The bytes of a body in uuencode, as they appear in the message. No RFC defines this encoding.
    Uuencode(&'b [u8]),
}

impl<'b> LenientBody<'b> {
    /// Returns the body with these bytes and this content type, in the transfer encoding that
    /// `transfer_encoding` names (RFC 2045, section 6).
    ///
    /// The names are exactly those of `Body::new`, and `x-uuencode`, `uuencode`, `x-uue` and `uue`,
    /// in lower case. Does not allocate. `lenient_body` returns the body of a part.
    ///
    /// # Examples
    ///
    /// ```rust
    /// use mail_read::lenient::LenientBody;
    /// use mailparse::ParsedContentType;
    ///
    /// let ctype = ParsedContentType::default(alloc)?;
    /// let name = Some(String::from_str(alloc, "x-uuencode")?);
    /// let LenientBody::Uuencode(raw) = LenientBody::new(b"begin", &ctype, &name) else {
    ///     return Err("another encoding".into());
    /// };
    /// assert_eq!(rt; raw, b"begin".as_slice());
    /// ```
    #[tactic(auto, unfolding(crate::specs::lenient::Encoding::lenient_kind_named))]
    pub fn new(
        body: &'b [u8],
        ctype: &'b ParsedContentType,
        transfer_encoding: &Option<String>,
    ) -> LenientBody<'b>
        ensures { IsLenientBody (lenient_kind_named (name_of transfer_encoding.now))
            (record { raw = body.entry.now; ctype = content_type ctype.entry.now }) result }
    {
        if names_uuencode(transfer_encoding) {
            return LenientBody::Uuencode(body);
        }
        LenientBody::Standard(Body::new(body, ctype, transfer_encoding))
    }

    /// Returns the bytes of the body as they appear in the message, not decoded (RFC 2045, section
    /// 6).
    ///
    /// Does not allocate.
    ///
    /// # Examples
    ///
    /// ```rust
    /// use mail_read::lenient::lenient_body;
    /// use mailparse::parse_mail;
    ///
    /// let mail = parse_mail(alloc, b"Content-Transfer-Encoding: base64\n\naGk=")?;
    /// assert_eq!(rt; lenient_body(alloc, &mail)?.get_raw(), b"aGk=".as_slice());
    /// ```
    pub fn get_raw(&self) -> &'b [u8]
        ensures made { (kind : LenientKind) (given : Content) → IsLenientBody kind given self.now →
            result.now ≡ given.raw }
    {
        match self {
            LenientBody::Standard(body) => body.get_raw(),
            LenientBody::Uuencode(raw) => raw,
        }
    }
}

/// Returns the body of a part in its transfer encoding, as `ParsedMail::get_body_encoded` does, but
/// the name of the encoding ends at ASCII whitespace, `(` or `;` (RFC 2045, section 6.1), and may
/// be one of uuencode: `x-uuencode`, `uuencode`, `x-uue` or `uue`.
///
/// So `base64 (a comment)` and `base64` with a space after it are Base64, and not `7bit`. If
/// `get_body_encoded` finds an encoding other than `7bit`, this call finds the same one. Allocates
/// the name of the encoding.
///
/// # Errors
///
/// `MailParseError::Memory` if it runs out of memory.
///
/// # Examples
///
/// ```rust
/// use mail_read::lenient::{LenientBody, lenient_body};
/// use mailparse::body::Body;
/// use mailparse::parse_mail;
///
/// let mail = parse_mail(alloc, b"Content-Transfer-Encoding: base64 (x)\n\naGk=")?;
/// let LenientBody::Standard(Body::Base64(body)) = lenient_body(alloc, &mail)? else {
///     return Err("another encoding".into());
/// };
/// assert_eq!(rt; body.get_decoded(alloc)?.as_slice(), b"hi".as_slice());
/// ```
pub fn lenient_body<'m>(
    alloc: Global,
    part: &'m ParsedMail<'_>,
) -> Result<LenientBody<'m>, MailParseError>
    ensures read { let node = root (tree_of part.now) in
        IfOk result (IsLenientBody (lenient_body_kind node) (content_of node)) }
    ensures same { let node = root (tree_of part.now) in body_kind node ≢ in_7bit →
        IfOk result (IsLenientBody (standard (body_kind node)) (content_of node)) }
    ensures only_memory { IfErr result IsMemory }
{
    let raw = raw_body(alloc, part)?;
    let value = part
        .headers
        .get_first_value(alloc, "Content-Transfer-Encoding")?;
    let name = lenient_name(alloc, value)?;
    Ok(LenientBody::new(raw, &part.ctype, &name))
}

/// Returns the bytes of the body of a part, with their transfer encoding.
fn raw_body<'m>(alloc: Global, part: &'m ParsedMail<'_>) -> Result<&'m [u8], MailParseError>
    ensures read { IfOk result (λ raw. raw.now ≡ (root (tree_of part.now)).body) }
    ensures only_memory { IfErr result IsMemory }
{
    Ok(part.get_body_encoded(alloc)?.get_raw())
}

/// Returns the exact name of the encoding that a text names.
#[tactic(auto, unfolding(crate::specs::lenient::Encoding::lenient_kind))]
fn lenient_name(alloc: Global, value: Option<String>) -> Result<Option<String>, AllocError>
    ensures { IfOk result (λ name.
        lenient_kind_named (name_of name) ≡ lenient_kind (text_found value)) }
{
    let Some(mut text) = value else {
        return Ok(None);
    };
    text.make_ascii_lowercase();
    let name = known_name(name_at(text.as_bytes()));
    Ok(Some(String::from_str(alloc, name)?))
}

/// Returns the exact name of the encoding with this name.
#[tactic(auto, unfolding(mailparse::specs::Body::kind_named, crate::specs::lenient::Encoding::lenient_kind_named))]
fn known_name(name: &[u8]) -> &'static str
    ensures { lenient_kind_named (Some result.now) ≡ lenient_kind_named (Some name.now) }
{
    if is_uuencode(name) {
        return "x-uuencode";
    }
    if name == b"base64".as_slice() {
        return "base64";
    }
    if name == b"quoted-printable".as_slice() {
        return "quoted-printable";
    }
    if name == b"8bit".as_slice() {
        return "8bit";
    }
    if name == b"binary".as_slice() {
        return "binary";
    }
    "7bit"
}

/// Returns whether a name, if there is one, is one of uuencode.
fn names_uuencode(name: &Option<String>) -> bool
    ensures { result ≡ names_uuencode (name_of name.now) }
{
    match name {
        Some(name) => is_uuencode(name.as_bytes()),
        None => false,
    }
}

/// Returns whether a name is one of uuencode.
fn is_uuencode(name: &[u8]) -> bool
    ensures { result ≡ names_uuencode (Some name.now) }
{
    name == b"x-uuencode".as_slice()
        || (name == b"uuencode".as_slice()
            || (name == b"x-uue".as_slice() || name == b"uue".as_slice()))
}

/// Returns the name at the front of a text, after whitespace.
#[tactic(auto, unfolding(crate::specs::lenient::Encoding::name_at))]
fn name_at(text: &[u8]) -> &[u8]
    ensures { result.now ≡ name_at text.now }
{
    let rest = &text[whitespace_len(text)..];
    &rest[..name_len(rest)]
}

/// Returns the length of the whitespace at the front.
fn whitespace_len(text: &[u8]) -> usize
    ensures value { result ≡ prefix_len is_ascii_whitespace text.now }
    ensures bounds { result ≤ length text.now }
{
    text.iter()
        .take_while(|byte| byte.is_ascii_whitespace())
        .count()
}

/// Returns the number of bytes before the first that ends a name.
fn name_len(text: &[u8]) -> usize
    ensures value { result ≡ prefix_len (λ b. not (ends_name b)) text.now }
    ensures bounds { result ≤ length text.now }
{
    text.iter().take_while(|byte| !ends_name(**byte)).count()
}

/// Returns whether a byte ends the name of an encoding.
fn ends_name(byte: u8) -> bool
    ensures { result ≡ ends_name byte }
{
    byte.is_ascii_whitespace() || byte == b'(' || byte == b';'
}
