//! A lenient reading of an element that is no mailbox by the grammar, and display names in comments.
ghost use Rattle.mail_address.specs.Tokens.{far};
ghost use Rattle.std.specs.Prelude.{◌≡◌, ◌≤◌, length, option_map, codes, IsTrue};
ghost use Rattle.std.specs.Option.{option_or};
ghost use Rattle.mail_address.specs.Mailbox.{mailbox_of};
ghost use Rattle.mail_codec.specs.Places.{has_prefix};
ghost use Rattle.mail_address.specs.Lenient.{after_any_route, angle_mailbox, bare_mailbox};
ghost use Rattle.mail_address.specs.Lenient.{bare_name_len, begins_open_quote, begins_word};
ghost use Rattle.mail_address.specs.Lenient.{closed_len, closed_mailbox, comment_name, dots_end};
ghost use Rattle.mail_address.specs.Lenient.{from_comment, has_no_opening, is_comment, is_dots};
ghost use Rattle.mail_address.specs.Lenient.{is_lenient_local, is_named_in_comment, is_quoted};
ghost use Rattle.mail_address.specs.Lenient.{lenient_mailbox, lenient_name, lenient_parts};
ghost use Rattle.mail_address.specs.Lenient.{lenient_spec, name_word_len, no_comment_len};
ghost use Rattle.mail_address.specs.Lenient.{opened_mailbox};
ghost use Rattle.mail_address.specs.Lenient.{with_comment, without_quote, without_root};
ghost use Rattle.mail_address.specs.MailboxViews.{parts};

use crate::mailbox::{
    Parts, after_white, are_clean, is_domain, is_dotted, is_enclosed, is_phrase, mailbox_of,
    within_ends,
};
use crate::tokens::{Kind, Span, Steps, begins_at, far, front_token, is_all_white, run};

/// Returns whether a token is a comment.
fn is_comment(kind: Kind) -> bool
    ensures { result ≡ is_comment kind }
{
    matches!(kind, Kind::Comment)
}

/// The step over a token that is not a comment.
#[derive(Clone, Copy)]
struct NoComment;

impl Steps for NoComment {
    ghost passes = { λ _. no_comment_len };

    #[tactic(auto, unfolding(crate::specs::Lenient::no_comment_len))]
    fn pass(self, bytes: &[u8]) -> usize {
        let token = front_token(bytes);
        if is_comment(token.kind) { 0 } else { token.len }
    }
}

/// Returns the bytes from the first comment outside of angle brackets on.
#[tactic(auto, unfolding(crate::specs::Lenient::from_comment))]
fn from_comment(text: &[u8]) -> &[u8]
    ensures { result.now ≡ from_comment text.now }
{
    &text[far(NoComment, text)..]
}

/// Returns whether a mailbox has no display name, but a comment.
#[tactic(auto, unfolding(crate::specs::Lenient::is_named_in_comment))]
fn is_named_in_comment(text: &[u8], mailbox: &Parts<'_>) -> bool
    ensures { result ≡ is_named_in_comment text.now (parts mailbox.now) }
{
    is_all_white(mailbox.display_name) && is_comment(front_token(from_comment(text)).kind)
}

/// Returns the bytes within the first comment.
#[tactic(auto, unfolding(crate::specs::Lenient::comment_name))]
fn comment_name(text: &[u8]) -> &[u8]
    ensures { result.now ≡ comment_name text.now }
{
    let rest = from_comment(text);
    within_ends(&rest[..front_token(rest).len])
}

/// Returns a mailbox with this text, named by its first comment if it has no other name.
#[tactic(auto, unfolding(crate::specs::Lenient::with_comment))]
pub(crate) fn with_comment<'a>(text: &'a [u8], mailbox: Parts<'a>) -> Parts<'a>
    ensures { parts result ≡ with_comment text.now (parts mailbox.entry) }
{
    if !is_named_in_comment(text, &mailbox) {
        return mailbox;
    }
    Parts {
        display_name: comment_name(text),
        local_part: mailbox.local_part,
        domain: mailbox.domain,
    }
}

/// Returns whether the bytes are atoms and dots, with whitespace and comments around them.
#[tactic(auto, unfolding(crate::specs::Lenient::is_dots))]
fn is_dots(text: &[u8]) -> bool
    ensures { result ≡ is_dots text.now }
{
    let white = run(Span::White, text);
    let len = run(Span::Dots, &text[white..]);
    len != 0 && is_all_white(&text[white + len..])
}

/// Returns the length of the whitespace at the front, and of the atoms and dots after it.
#[tactic(auto, unfolding(crate::specs::Lenient::dots_end))]
fn dots_end(text: &[u8]) -> usize
    ensures value { result ≡ dots_end text.now }
    ensures bounds { result ≤ length text.now }
{
    let white = run(Span::White, text);
    white + run(Span::Dots, &text[white..])
}

/// Returns a domain without the dot of the root at its end.
#[tactic(auto, unfolding(crate::specs::Lenient::without_root))]
fn without_root(text: &[u8]) -> &[u8]
    ensures { result.now ≡ without_root text.now }
{
    let end = dots_end(text);
    let before = end.saturating_sub(1);
    if begins_at(text, before, b'.') && is_all_white(&text[end..]) {
        &text[..before]
    } else {
        text
    }
}

/// Returns whether the bytes begin with `=?`.
fn has_opening(bytes: &[u8]) -> bool
    ensures { result ≡ has_prefix (codes "=?") bytes.now }
{
    bytes.starts_with(b"=?")
}

/// Returns whether the bytes begin as an encoded word does.
#[tactic(auto, unfolding(crate::specs::Lenient::begins_word))]
fn begins_word(text: &[u8]) -> bool
    ensures { result ≡ begins_word text.now }
{
    has_opening(after_white(text))
}

/// Returns whether the bytes are a local part: by the grammar, or atoms and dots.
#[tactic(auto, unfolding(crate::specs::Lenient::is_lenient_local))]
fn is_lenient_local(text: &[u8]) -> bool
    ensures { result ≡ is_lenient_local text.now }
{
    !begins_word(text) && (is_dotted(Span::Word, text) || is_dots(text))
}

/// Returns the mailbox of a name, a local part and a domain, if they are ones.
#[tactic(auto, unfolding(crate::specs::Lenient::lenient_parts))]
fn lenient_parts<'a>(name: &'a [u8], local_part: &'a [u8], domain: &'a [u8]) -> Option<Parts<'a>>
    ensures { option_map parts result ≡ lenient_parts name.now local_part.now domain.now }
{
    if is_lenient_local(local_part) && is_domain(domain) && are_clean(local_part, domain) {
        Some(Parts {
            display_name: name,
            local_part,
            domain,
        })
    } else {
        None
    }
}

/// Returns the mailbox of a name and an address, if the text is an address.
#[tactic(auto, unfolding(crate::specs::Lenient::lenient_spec))]
fn lenient_spec<'a>(name: &'a [u8], text: &'a [u8]) -> Option<Parts<'a>>
    ensures { option_map parts result ≡ lenient_spec name.now text.now }
{
    let len = run(Span::BeforeAt, text);
    if !begins_at(text, len, b'@') {
        return None;
    }
    lenient_parts(name, &text[..len], without_root(&text[len + 1..]))
}

/// Returns the bytes after a route of any form, or all bytes if there is none.
#[tactic(auto, unfolding(crate::specs::Lenient::after_any_route))]
fn after_any_route(text: &[u8]) -> &[u8]
    ensures { result.now ≡ after_any_route text.now }
{
    let len = run(Span::BeforeColon, text);
    if begins_at(after_white(text), 0, b'@') && begins_at(text, len, b':') {
        &text[len + 1..]
    } else {
        text
    }
}

/// Returns whether a token is a quoted string.
fn is_quoted(kind: Kind) -> bool
    ensures { result ≡ is_quoted kind }
{
    matches!(kind, Kind::Quoted)
}

/// Returns whether the bytes begin with a quote that is not closed.
#[tactic(auto, unfolding(crate::specs::Lenient::begins_open_quote))]
fn begins_open_quote(text: &[u8]) -> bool
    ensures value { result ≡ begins_open_quote text.now }
    ensures within { IsTrue result → 1 ≤ length text.now }
{
    begins_at(text, 0, b'"') && !is_quoted(front_token(text).kind)
}

/// Returns a display name without a quote that is not closed at its start.
#[tactic(auto, unfolding(crate::specs::Lenient::without_quote))]
fn without_quote(text: &[u8]) -> &[u8]
    ensures { result.now ≡ without_quote text.now }
{
    let start = after_white(text);
    if begins_open_quote(start) {
        &start[1..]
    } else {
        text
    }
}

/// Returns the display name in the bytes before an angle bracket.
#[tactic(auto, unfolding(crate::specs::Lenient::lenient_name))]
fn lenient_name(text: &[u8]) -> &[u8]
    ensures { result.now ≡ lenient_name text.now }
{
    without_quote(&text[..run(Span::BeforeOpening, text)])
}

/// Returns the mailbox of the bytes before a pair of angle brackets, and of the brackets with what
/// follows them.
#[tactic(auto, unfolding(crate::specs::Lenient::angle_mailbox))]
fn angle_mailbox<'a>(name: &'a [u8], rest: &'a [u8]) -> Option<Parts<'a>>
    ensures { option_map parts result ≡ angle_mailbox name.now rest.now }
{
    let (enclosed, after) = rest.split_at(front_token(rest).len);
    if run(Span::AfterAngle, after) != after.len() {
        return None;
    }
    lenient_spec(lenient_name(name), after_any_route(within_ends(enclosed)))
}

/// Returns the mailbox of a name, an angle bracket that is not closed, and an address.
#[tactic(auto, unfolding(crate::specs::Lenient::opened_mailbox))]
fn opened_mailbox<'a>(name: &'a [u8], rest: &'a [u8]) -> Option<Parts<'a>>
    ensures { option_map parts result ≡ opened_mailbox name.now rest.now }
{
    lenient_spec(
        without_quote(name),
        after_any_route(&rest[rest.len().min(1)..]),
    )
}

/// The step over a word of a name and the whitespace and comments after it.
#[derive(Clone, Copy)]
struct NameWord;

impl Steps for NameWord {
    ghost passes = { λ _. name_word_len };

    #[tactic(auto, unfolding(crate::specs::Lenient::name_word_len))]
    fn pass(self, bytes: &[u8]) -> usize {
        let len = run(Span::BeforeWhite, bytes);
        let white = run(Span::White, &bytes[len..]);
        if has_opening(bytes) || white == 0 {
            0
        } else {
            len + white
        }
    }
}

/// Returns the length of the words before the local part.
#[tactic(auto, unfolding(crate::specs::Lenient::bare_name_len))]
fn bare_name_len(text: &[u8]) -> usize
    ensures value { result ≡ bare_name_len text.now }
    ensures bounds { result ≤ length text.now }
{
    far(NameWord, &text[..run(Span::BeforeAt, text)])
}

/// Returns the mailbox of a phrase, or of no name, and an address.
#[tactic(auto, unfolding(crate::specs::Lenient::bare_mailbox))]
fn bare_mailbox(text: &[u8]) -> Option<Parts<'_>>
    ensures { option_map parts result ≡ bare_mailbox text.now }
{
    let (name, address) = text.split_at(bare_name_len(text));
    if is_all_white(name) || is_phrase(name) {
        lenient_spec(name, address)
    } else {
        None
    }
}

/// Returns the mailbox that a text is in which every comment is closed, if it is one.
#[tactic(auto, unfolding(crate::specs::Lenient::closed_mailbox))]
fn closed_mailbox(text: &[u8]) -> Option<Parts<'_>>
    ensures { option_map parts result ≡ closed_mailbox text.now }
{
    let (name, rest) = text.split_at(run(Span::BeforeAngle, text));
    if is_enclosed(front_token(rest).kind) {
        return angle_mailbox(name, rest);
    }
    let opening = run(Span::BeforeOpening, text);
    if begins_at(text, opening, b'<') {
        opened_mailbox(&text[..opening], &text[opening..])
    } else {
        bare_mailbox(text)
    }
}

/// The step over a token that is not a comment without its end.
#[derive(Clone, Copy)]
struct Closed;

impl Steps for Closed {
    ghost passes = { λ _. closed_len };

    #[tactic(auto, unfolding(crate::specs::Lenient::closed_len))]
    fn pass(self, bytes: &[u8]) -> usize {
        let token = front_token(bytes);
        if begins_at(bytes, 0, b'(') && !is_comment(token.kind) {
            0
        } else {
            token.len
        }
    }
}

/// Returns the offset of the comment that is not closed, or the length.
pub(crate) fn closed_end(text: &[u8]) -> usize
    ensures value { result ≡ far closed_len text.now }
    ensures bounds { result ≤ length text.now }
{
    far(Closed, text)
}

/// Returns whether the bytes contain no opening angle bracket.
pub(crate) fn has_no_opening(bytes: &[u8]) -> bool
    ensures { result ≡ has_no_opening bytes.now }
{
    bytes.iter().all(|byte| *byte != b'<')
}

/// Returns the mailbox that a text is in which every comment is closed: by the grammar, or else
/// leniently.
fn any_mailbox(text: &[u8]) -> Option<Parts<'_>>
    ensures { option_map parts result
        ≡ option_or (mailbox_of text.now) (closed_mailbox text.now) }
{
    match mailbox_of(text) {
        Some(mailbox) => Some(mailbox),
        None => closed_mailbox(text),
    }
}

/// Returns the mailbox that a text is, if it is one. A comment that is not closed, and that has no
/// `<` in it, is left out.
#[tactic(auto, unfolding(crate::specs::Lenient::lenient_mailbox))]
pub(crate) fn lenient_mailbox(text: &[u8]) -> Option<Parts<'_>>
    ensures { option_map parts result ≡ lenient_mailbox text.now }
{
    let (head, tail) = text.split_at(closed_end(text));
    if !has_no_opening(tail) {
        return None;
    }
    let mailbox = any_mailbox(head)?;
    Some(with_comment(text, mailbox))
}
