//! Lists of message ids (RFC 5322, section 3.6.4).
ghost use Rattle.std.specs.Prelude.{◌≡◌, false, [], ◌∷◌, Ok, Some, MatchOption, MatchResult};
ghost use Rattle.std.specs.Cmp.Lexicographic.{pointwise};
ghost use Rattle.std.specs.List.{slice_split};
ghost use Rattle.std.specs.Str.{bytes_eq};
ghost use Rattle.mailparse.specs.MessageIds.{begins_with_id, ids_at_end, is_closing, opens_id};
ghost use Rattle.mailparse.specs.MessageIds.{message_ids, written_ids};
ghost use Rattle.mailparse.specs.Outcome.{Answers, AnswersOrMemory, IsRefusal};
ghost use Rattle.mailparse.specs.MessageIdViews.{ids_of};
ghost use Rattle.mailparse.specs.private.MessageIds.{IsCutAtClosing, IsNextIdOrNone, IsOpenedId};

use crate::error::MailParseError;
use std::alloc::Global;
use std::fmt::{self, Write};
use std::ops::{Deref, DerefMut};

/// The ids of a header such as `References`, in order, each without its angle brackets (RFC 5322,
/// section 3.6.4).
///
/// It dereferences to the vector that it holds. It is displayed as it is written in mail: each id
/// in angle brackets, with one space between ids.
#[derive(Debug, Drop)]
pub struct MessageIdList(pub Vec<String>);

/// Two lists are equal if their ids are, in order.
impl PartialEq for MessageIdList {
    ghost use Rattle.std.specs.Cmp.{on_per, partial_equiv_from_equiv};
    ghost use Rattle.std.specs.Cmp.Lexicographic.{lists_per, nat_list_eq_equiv};

    ghost eq = { λ a b. pointwise bytes_eq (ids_of a) (ids_of b) };

    ghost laws = { on_per ids_of (lists_per (partial_equiv_from_equiv nat_list_eq_equiv)) };

    #[tactic(auto, using(crate::proofs::lemmas::MessageIds::same_ids))]
    fn eq(&self, other: &MessageIdList) -> bool {
        self.0 == other.0
    }
}

impl Deref for MessageIdList {
    type Target = Vec<String>;

    ghost deref_gives = { λ list ids. ids ≡ list.0 };

    fn deref(&self) -> &Vec<String> {
        &self.0
    }
}

impl DerefMut for MessageIdList {
    ghost use Rattle.std.specs.Borrow.{Lends, sem};
    ghost use Rattle.mailparse.specs.contracts.message_ids.MessageIdList.{the_row};
    ghost use Rattle.mailparse.specs.private.IdRows.{ids_row};

    ghost deref_mut_gives = { λ list ids. ids ≡ list.0 };

    fn deref_mut(&mut self) -> &mut Vec<String>
        ensures* writes_back { sem 𝓛 (Lends the_row ids_row self.entry result
            (λ ids. record { 0 = ids })) }
        ensures value { result.now ≡ self.old.0 }
    {
        &mut self.0
    }
}

impl MessageIdList {
    /// Returns an equal list.
    ///
    /// Allocates the list and its ids.
    ///
    /// # Errors
    ///
    /// `MailParseError::Memory` if it runs out of memory.
    ///
    /// # Examples
    ///
    /// ```rust
    /// use mailparse::msgidparse;
    ///
    /// let ids = msgidparse(alloc, "<one@a>")?;
    /// assert!(rt; ids.clone(alloc)? == ids);
    /// ```
    pub fn clone(&self, alloc: Global) -> Result<MessageIdList, MailParseError>
        ensures { AnswersOrMemory ids_of result (Ok (ids_of self.now)) }
    {
        let mut ids = Vec::new(alloc);
        for id in &self.0 {
            ids.push(String::from_str(alloc, id.as_str())?)?;
        }
        Ok(MessageIdList(ids))
    }
}

impl fmt::Display for MessageIdList {
    ghost output = { λ list. Some (written_ids (ids_of list)) };

    #[tactic(auto, using(crate::proofs::lemmas::MessageIds::ids_written))]
    fn fmt<W: Write>(&self, f: &mut fmt::Formatter<W>) -> fmt::Result {
        let Some((first, others)) = self.0.as_slice().split_first() else {
            return Ok(());
        };
        write!(f, "<{first}>")?;
        for id in others {
            write!(f, " <{id}>")?;
        }
        Ok(())
    }
}

/// Reads the ids of a header such as `Message-ID`, `In-Reply-To` or `References` (RFC 5322, section
/// 3.6.4).
///
/// Each id is the text between a `<` and the first `>` after it. It may be empty, and may contain
/// whitespace and any other character except `>`. Only whitespace may surround the ids; a text of
/// whitespace alone gives the empty list. Allocates the list and its ids, and nothing before
/// the first whole id.
///
/// # Errors
///
/// The first of these in reading order: `MailParseError::Generic` with the text `Message IDs must
/// start with <` if other text comes where an id is expected, or with `Message IDs must end with >`
/// if no `>` follows a `<`; and `MailParseError::Memory` if it runs out of memory.
///
/// # Examples
///
/// ```rust
/// use mailparse::msgidparse;
///
/// let ids = msgidparse(alloc, "<one@a> <two@b>")?;
/// assert_eq!(rt; ids.len(), 2);
/// assert_eq!(rt; ids[0].as_str(), "one@a");
/// assert_eq!(rt; format!(in alloc; "{ids}")?.as_str(), "<one@a> <two@b>");
/// assert!(rt; msgidparse(alloc, "one@a").is_err());
/// ```
pub fn msgidparse(alloc: Global, ids: &str) -> Result<MessageIdList, MailParseError>
    ensures read { AnswersOrMemory ids_of result (message_ids ids.now) }
    ensures no_alloc { begins_with_id ids.now ≡ false →
        Answers ids_of result (message_ids ids.now) }
{
    let mut found = Vec::new(alloc);
    let mut rest = ids;
    while let Some((id, after)) = next_id(rest)? {
        found.push(String::from_str(alloc, id)?)?;
        rest = after;
    }
    check_end(rest)?;
    Ok(MessageIdList(found))
}

/// Returns the id that a text begins with, after whitespace, and the text after its `>`, or `None`
/// if no `>` is left.
fn next_id(text: &str) -> Result<Option<(&str, &str)>, MailParseError>
    ensures { MatchResult result (λ found. IsNextIdOrNone text.now found)
        (λ e. IsRefusal e (message_ids text.now)) }
{
    let Some((piece, after)) = cut_at_closing(text) else {
        return Ok(None);
    };
    match opened_id(piece) {
        Some(id) => Ok(Some((id, after))),
        None => Err(MailParseError::Generic("Message IDs must start with <")),
    }
}

/// Returns the text before and after the first `>`, if there is one.
fn cut_at_closing(text: &str) -> Option<(&str, &str)>
    ensures { MatchOption result (slice_split is_closing text.now ≡ text.now ∷ [])
        (λ p. IsCutAtClosing text.now p.0.now p.1.now) }
{
    text.split_once('>')
}

/// Returns the text after leading whitespace and a `<`, or `None` if no `<` follows the whitespace.
#[tactic(auto, using(crate::proofs::lemmas::MessageIds::opens_from_strip))]
fn opened_id(text: &str) -> Option<&str>
    ensures { MatchOption result (opens_id text.now ≡ false) (λ id. IsOpenedId text.now id.now) }
{
    text.trim_start().strip_prefix('<')
}

/// Refuses the text after the last `>` if it is not whitespace.
fn check_end(text: &str) -> Result<(), MailParseError>
    ensures { Answers (λ _. []) result (ids_at_end text.now) }
{
    if text.trim_start().is_empty() {
        return Ok(());
    }
    match opened_id(text) {
        Some(_) => Err(MailParseError::Generic("Message IDs must end with >")),
        None => Err(MailParseError::Generic("Message IDs must start with <")),
    }
}
