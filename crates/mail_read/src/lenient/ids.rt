//! The message ids in any text.
ghost use Rattle.std.specs.Prelude.{◌≡◌, ◌++◌, ◌<◌, true, false, [], ◌∷◌, length, map, string_bytes, IfOk, IfSome, MatchOption, OnOk};
ghost use Rattle.std.specs.List.{before_first, list_any, slice_split};
ghost use Rattle.std.specs.Str.{trim};
ghost use Rattle.mailparse.specs.MessageIds.{is_closing};
ghost use Rattle.mail_read.specs.lenient.Ids.{bare_id, ends_bare_id, found_ids, id_at, is_id, is_opening};
ghost use Rattle.mail_read.specs.lenient.IdViews.{needs_at};

use super::comments::without_comments;
use std::alloc::{AllocError, Global};

/// Which texts in angle brackets are message ids.
#[derive(Clone, Copy, Debug, PartialEq, Eq)]
pub enum IdRule {
    /// Those that contain an `@`, as the ids of other mails do.
    WithAt,
    /// All that are not empty: mails give themselves ids without an `@` too, such as `<1234>`.
    Any,
}

/// Returns the message ids in a text, in order: the texts in angle brackets that are ids by this
/// rule, without the brackets, the whitespace around them and comments (following RFC 5322,
/// sections 3.6.4 and 4.5.4).
///
/// Other text is skipped, so of a broken list the intact ids are returned. An id goes from a `<` up
/// to the first `>` and contains no `<`: of several in a row, the last one opens it. A text without
/// `<` is an id itself by both rules if it has an `@` and, within the whitespace around it, no
/// whitespace, `>`, `"`, `,` or `;`. Text in a comment, which may be a part of an id, does not
/// count. Allocates the text without its comments, the list and the ids.
///
/// # Errors
///
/// `AllocError` if it runs out of memory.
///
/// # Examples
///
/// ```rust
/// use mail_read::lenient::{IdRule, find_ids};
///
/// let text = "Your message of 1 Jan <one@a>, \"x\" <two@b";
/// let ids = find_ids(alloc, text, IdRule::WithAt)?;
/// assert_eq!(rt; ids.len(), 1);
/// assert_eq!(rt; ids[0].as_str(), "one@a");
/// let ids = find_ids(alloc, "<20100101.1234> (sent twice)", IdRule::Any)?;
/// assert_eq!(rt; ids.len(), 1);
/// assert_eq!(rt; ids[0].as_str(), "20100101.1234");
/// let ids = find_ids(alloc, "one@a (sent twice)", IdRule::WithAt)?;
/// assert_eq!(rt; ids[0].as_str(), "one@a");
/// ```
pub fn find_ids(alloc: Global, text: &str, rule: IdRule) -> Result<Vec<String>, AllocError>
    ensures { IfOk result (λ ids. map string_bytes ids.items ≡ found_ids (needs_at rule) text.now) }
{
    let mut ids = Vec::new(alloc);
    let kept = without_comments(alloc, text)?;
    let plain = kept.as_str();
    let Some((_, first)) = cut_at_opening(plain) else {
        push_bare_id(alloc, &mut ids, plain)?;
        return Ok(ids);
    };
    let mut rest = first;
    'pieces: while let Some((piece, after)) = cut_at_opening(rest) {
        push_id(alloc, &mut ids, piece, rule)?;
        rest = after;
    }
    push_id(alloc, &mut ids, rest, rule)?;
    Ok(ids)
}

/// Returns the text before and after the first `<`, or `None` if there is no `<`.
fn cut_at_opening(text: &str) -> Option<(&str, &str)>
    ensures pieces { MatchOption result (slice_split is_opening text.now ≡ text.now ∷ [])
        (λ p. slice_split is_opening text.now ≡ p.0.now ∷ slice_split is_opening p.1.now) }
    ensures opened { MatchOption result (list_any is_opening text.now ≡ false)
        (λ p. list_any is_opening text.now ≡ true) }
    ensures shorter { IfSome result (λ p. length p.1.now < length text.now) }
{
    text.split_once('<')
}

/// Appends the id at the start of a text without `<`, if there is one.
fn push_id(alloc: Global, ids: &mut Vec<String>, text: &str, rule: IdRule) -> Result<(), AllocError>
    ensures { OnOk result (map string_bytes ids.new.items
        ≡ map string_bytes ids.old.items ++ id_at (needs_at rule) text.now) }
{
    if let Some(id) = id_at(text, rule) {
        ids.push(String::from_str(alloc, id)?)?;
    }
    Ok(())
}

/// Appends the id that a whole text is, if it is one.
fn push_bare_id(alloc: Global, ids: &mut Vec<String>, text: &str) -> Result<(), AllocError>
    ensures { OnOk result (map string_bytes ids.new.items
        ≡ map string_bytes ids.old.items ++ bare_id text.now) }
{
    if let Some(id) = bare_id(text) {
        ids.push(String::from_str(alloc, id)?)?;
    }
    Ok(())
}

/// Returns the id that a whole text without `<` is, or `None` if it is not one.
#[tactic(auto, unfolding(crate::specs::lenient::Ids::bare_id))]
fn bare_id(text: &str) -> Option<&str>
    ensures { MatchOption result (bare_id text.now ≡ []) (λ id. bare_id text.now ≡ id.now ∷ []) }
{
    let id = text.trim();
    if id.as_bytes().contains(&b'@') && !has_ending(id.as_bytes()) {
        Some(id)
    } else {
        None
    }
}

/// Returns whether a text has a byte that an id without brackets does not contain.
fn has_ending(text: &[u8]) -> bool
    ensures { result ≡ list_any ends_bare_id text.now }
{
    text.iter().any(|byte| ends_bare_id(*byte))
}

/// Returns whether an id without brackets does not contain a byte.
fn ends_bare_id(byte: u8) -> bool
    ensures { result ≡ ends_bare_id byte }
{
    byte.is_ascii_whitespace() || byte == b'>' || byte == b'"' || byte == b',' || byte == b';'
}

/// Returns the id at the start of a text without `<`, or `None` if there is no id.
fn id_at(text: &str, rule: IdRule) -> Option<&str>
    ensures { MatchOption result (id_at (needs_at rule) text.now ≡ [])
        (λ id. id_at (needs_at rule) text.now ≡ id.now ∷ []) }
{
    let id = before_closing(text)?;
    if is_id(id, rule) { Some(id) } else { None }
}

/// Returns the text before the first `>`, without whitespace around it, or `None` if there is no
/// `>`.
fn before_closing(text: &str) -> Option<&str>
    ensures closed { MatchOption result (list_any is_closing text.now ≡ false)
        (λ id. list_any is_closing text.now ≡ true) }
    ensures before { IfSome result (λ id. id.now ≡ trim (before_first is_closing text.now)) }
{
    let Some((id, _)) = text.split_once('>') else {
        return None;
    };
    Some(id.trim())
}

/// Returns whether a text in brackets is an id.
fn is_id(text: &str, rule: IdRule) -> bool
    ensures { result ≡ is_id (needs_at rule) text.now }
{
    match rule {
        IdRule::WithAt => text.as_bytes().contains(&b'@'),
        IdRule::Any => !text.is_empty(),
    }
}
