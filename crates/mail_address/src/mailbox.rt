//! A mailbox: a local part and a domain, perhaps with a display name.
ghost use Rattle.std.specs.Prelude.{◌≡◌, ◌+◌, ◌<◌, ◌≤◌, length, option_map};
ghost use Rattle.mail_address.specs.Mailbox.{after_route, after_white, are_clean, clean_len};
ghost use Rattle.mail_address.specs.Mailbox.{dot_word_len, is_clean, is_clean_token, is_domain};
ghost use Rattle.mail_address.specs.Mailbox.{is_dotted, is_enclosed, is_phrase, is_route, is_stop};
ghost use Rattle.mail_address.specs.Mailbox.{is_word, mailbox_of, named_mailbox, spec_mailbox};
ghost use Rattle.mail_address.specs.Mailbox.{stop_len, within_ends, word_len};
ghost use Rattle.mail_address.specs.MailboxViews.{parts};
ghost use Rattle.mail_address.specs.Tokens.{front_token};

use crate::folding::{has_no_control, is_clean_without_white, is_unfolded_clean};
use crate::tokens::{
    Kind, Span, Steps, begins_at, far, front_token, is_all_white, is_in, run, step,
};

/// The parts of a mailbox, as they are written.
#[derive(Clone, Copy)]
pub(crate) struct Parts<'a> {
    pub display_name: &'a [u8],
    pub local_part: &'a [u8],
    pub domain: &'a [u8],
}

/// Returns the length of the word at the front, with the whitespace and comments around it, or 0.
#[tactic(auto, unfolding(crate::specs::Mailbox::word_len))]
fn word_len(span: Span, text: &[u8]) -> usize
    ensures value { result ≡ word_len span text.now }
    ensures bounds { result ≤ length text.now }
{
    let white = run(Span::White, text);
    let len = step(span, &text[white..]);
    if len == 0 {
        return 0;
    }
    white + len + run(Span::White, &text[white + len..])
}

/// The step over a dot and the word after it.
#[derive(Clone, Copy)]
struct DotWord(Span);

impl Steps for DotWord {
    ghost passes = { λ step. dot_word_len step.0 };

    #[tactic(auto, unfolding(crate::specs::Mailbox::dot_word_len))]
    fn pass(self, text: &[u8]) -> usize {
        if !begins_at(text, 0, b'.') {
            return 0;
        }
        let len = word_len(self.0, &text[1..]);
        if len == 0 { 0 } else { 1 + len }
    }
}

/// Returns whether the bytes are one word.
#[tactic(auto, unfolding(crate::specs::Mailbox::is_word))]
fn is_word(span: Span, text: &[u8]) -> bool
    ensures { result ≡ is_word span text.now }
{
    let len = word_len(span, text);
    len != 0 && len == text.len()
}

/// Returns whether the bytes are words separated by dots.
#[tactic(auto, unfolding(crate::specs::Mailbox::is_dotted))]
pub(crate) fn is_dotted(span: Span, text: &[u8]) -> bool
    ensures { result ≡ is_dotted span text.now }
{
    let len = word_len(span, text);
    len != 0 && len + far(DotWord(span), &text[len..]) == text.len()
}

/// Returns whether the bytes are a domain.
#[tactic(auto, unfolding(crate::specs::Mailbox::is_domain))]
pub(crate) fn is_domain(text: &[u8]) -> bool
    ensures { result ≡ is_domain text.now }
{
    is_dotted(Span::Atoms, text) || is_word(Span::Literals, text)
}

/// Returns the bytes after the whitespace and comments at the front.
#[tactic(auto, unfolding(crate::specs::Mailbox::after_white))]
pub(crate) fn after_white(text: &[u8]) -> &[u8]
    ensures { result.now ≡ after_white text.now }
{
    &text[run(Span::White, text)..]
}

/// Returns whether the bytes are a stop of a route: an `@` and a domain, or nothing.
#[tactic(auto, unfolding(crate::specs::Mailbox::is_stop))]
fn is_stop(text: &[u8]) -> bool
    ensures { result ≡ is_stop text.now }
{
    if is_all_white(text) {
        return true;
    }
    let rest = after_white(text);
    begins_at(rest, 0, b'@') && is_domain(&rest[1..])
}

/// The step over a stop and the comma after it.
#[derive(Clone, Copy)]
struct Stop;

impl Steps for Stop {
    ghost passes = { λ _. stop_len };

    #[tactic(auto, unfolding(crate::specs::Mailbox::stop_len))]
    fn pass(self, text: &[u8]) -> usize {
        let len = run(Span::BeforeComma, text);
        if is_stop(&text[..len]) {
            text.len().min(len + 1)
        } else {
            0
        }
    }
}

/// Returns whether the bytes are a route.
#[tactic(auto, unfolding(crate::specs::Mailbox::is_route))]
fn is_route(text: &[u8]) -> bool
    ensures { result ≡ is_route text.now }
{
    begins_at(after_white(text), 0, b'@') && far(Stop, text) == text.len()
}

/// Returns the bytes after the route and its colon, or all bytes if there is no route.
#[tactic(auto, unfolding(crate::specs::Mailbox::after_route))]
fn after_route(text: &[u8]) -> &[u8]
    ensures { result.now ≡ after_route text.now }
{
    let len = run(Span::BeforeColon, text);
    if begins_at(text, len, b':') && is_route(&text[..len]) {
        &text[len + 1..]
    } else {
        text
    }
}

/// Returns whether the bytes are a phrase.
#[tactic(auto, unfolding(crate::specs::Mailbox::is_phrase))]
pub(crate) fn is_phrase(text: &[u8]) -> bool
    ensures { result ≡ is_phrase text.now }
{
    is_in(Span::Word, front_token(after_white(text)).kind) && run(Span::Phrase, text) == text.len()
}

/// Returns whether a token of an address contains no control character, but for folding in a quoted
/// string, and whitespace in a domain literal.
fn is_clean_token(kind: Kind, text: &[u8]) -> bool
    ensures { result ≡ is_clean_token kind text.now }
{
    match kind {
        Kind::Blank | Kind::Comment => true,
        Kind::Quoted => is_unfolded_clean(text),
        Kind::Literal => is_clean_without_white(text),
        _ => has_no_control(text),
    }
}

/// The step over such a token.
#[derive(Clone, Copy)]
struct CleanToken;

impl Steps for CleanToken {
    ghost passes = { λ _. clean_len };

    #[tactic(auto, unfolding(crate::specs::Mailbox::clean_len))]
    fn pass(self, bytes: &[u8]) -> usize {
        let token = front_token(bytes);
        if is_clean_token(token.kind, &bytes[..token.len]) {
            token.len
        } else {
            0
        }
    }
}

/// Returns whether the bytes are such tokens. A text without control characters needs no tokens.
#[tactic(auto, using(crate::proofs::lemmas::Folding::plain_clean), unfolding(crate::specs::Mailbox::is_clean))]
fn is_clean(text: &[u8]) -> bool
    ensures { result ≡ is_clean text.now }
{
    if has_no_control(text) {
        return true;
    }
    far(CleanToken, text) == text.len()
}

/// Returns whether a local part and a domain are such tokens.
pub(crate) fn are_clean(local_part: &[u8], domain: &[u8]) -> bool
    ensures { result ≡ are_clean local_part.now domain.now }
{
    is_clean(local_part) && is_clean(domain)
}

/// Returns the mailbox with this name and this address, if the bytes are an address.
#[tactic(auto, unfolding(crate::specs::Mailbox::spec_mailbox))]
fn spec_mailbox<'a>(name: &'a [u8], text: &'a [u8]) -> Option<Parts<'a>>
    ensures { option_map parts result ≡ spec_mailbox name.now text.now }
{
    let len = run(Span::BeforeAt, text);
    if !begins_at(text, len, b'@') {
        return None;
    }
    let local_part = &text[..len];
    let domain = &text[len + 1..];
    if is_dotted(Span::Word, local_part) && is_domain(domain) && are_clean(local_part, domain) {
        Some(Parts {
            display_name: name,
            local_part,
            domain,
        })
    } else {
        None
    }
}

/// Returns whether a token is a pair of angle brackets with bytes between them.
pub(crate) fn is_enclosed(kind: Kind) -> bool
    ensures { result ≡ is_enclosed kind }
{
    matches!(kind, Kind::Angle)
}

/// Returns the bytes without the first and the last one.
pub(crate) fn within_ends(text: &[u8]) -> &[u8]
    ensures { result.now ≡ within_ends text.now }
{
    if text.len() < 2 {
        &text[..0]
    } else {
        &text[1..text.len() - 1]
    }
}

/// Returns the mailbox of a name and of the bytes after it, if they are one. The bytes begin with
/// `len` bytes in angle brackets.
#[tactic(auto, unfolding(crate::specs::Mailbox::named_mailbox))]
fn named_mailbox<'a>(name: &'a [u8], rest: &'a [u8], len: usize) -> Option<Parts<'a>>
    requires token { len ≡ (front_token rest.now).len }
    requires within { len ≤ length rest.now }
    ensures { option_map parts result ≡ named_mailbox name.now rest.now }
{
    let (enclosed, after) = rest.split_at(len);
    if (is_all_white(name) || is_phrase(name)) && is_all_white(after) {
        spec_mailbox(name, after_route(within_ends(enclosed)))
    } else {
        None
    }
}

/// Returns the mailbox that a text is, if it is one.
#[tactic(auto, unfolding(crate::specs::Mailbox::mailbox_of))]
pub(crate) fn mailbox_of(text: &[u8]) -> Option<Parts<'_>>
    ensures { option_map parts result ≡ mailbox_of text.now }
{
    let (name, rest) = text.split_at(run(Span::Phrase, text));
    let token = front_token(rest);
    if is_enclosed(token.kind) {
        named_mailbox(name, rest, token.len)
    } else {
        spec_mailbox(&text[..0], text)
    }
}
