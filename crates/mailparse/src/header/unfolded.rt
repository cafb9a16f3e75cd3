//! The unfolded and decoded text of a value, made token by token. Whitespace and line ends after an
//! encoded word are held back, and appear only if text comes next (RFC 2047, section 6.2).
ghost use Rattle.std.specs.Prelude.{◌≡◌, ◌++◌, ◌∷◌, [], List, IfOk, OnOk};
ghost use Rattle.std.specs.String.{string_bytes};
ghost use Rattle.mailparse.specs.Value.{Token, newline, shown_tokens, whitespace_token};
ghost use Rattle.mailparse.specs.private.Unfolded.{Shows, released, shown_with, token_view};

use std::alloc::{AllocError, Global};

/// A token of a value.
#[derive(Drop)]
pub(crate) enum HeaderToken<'a> {
    /// Text that is not encoded, whitespace or not.
    Text(&'a str),
    /// Whitespace throughout, or empty.
    Whitespace(&'a str),
    /// The end of a line, which is shown as one space.
    Newline,
    /// The text of an encoded word.
    DecodedWord(String),
}

/// What is held back after the last token, until the next one decides whether it is shown.
#[derive(Clone, Copy)]
enum Held<'a> {
    /// Nothing, and the next token is not held back either.
    Nothing,
    /// Nothing yet: whitespace or a line end directly after a decoded word is held back.
    Word,
    /// Whitespace after a decoded word.
    Whitespace(&'a str),
    /// A line end after a decoded word, with the whitespace between the two.
    LineEnd(&'a str),
}

/// The unfolded text of a value, up to the last token read.
#[derive(Drop)]
pub(crate) struct UnfoldedValue<'a> {
    text: String,
    held: Held<'a>,
}

impl<'a> UnfoldedValue<'a> {
    /// Makes an empty text, with capacity for `length` bytes.
    #[tactic(auto, using(crate::proofs::lemmas::Unfolded::starts_here))]
    pub(crate) fn with_capacity(
        alloc: Global,
        length: usize,
    ) -> Result<UnfoldedValue<'a>, AllocError>
        ensures { IfOk result (λ unfolded. (tokens : List Token) →
            shown_with unfolded tokens ≡ shown_tokens tokens) }
    {
        Ok(UnfoldedValue {
            text: String::with_capacity(alloc, length)?,
            held: Held::Nothing,
        })
    }

    /// Returns the text. What is still held back is dropped.
    #[tactic(auto, using(crate::proofs::lemmas::Unfolded::ends_here))]
    pub(crate) fn into_text(self) -> String
        ensures { string_bytes result ≡ shown_with self.entry [] }
    {
        self.text
    }

    /// Appends the next token.
    #[tactic(auto, using(crate::proofs::lemmas::Unfolded::pushes))]
    pub(crate) fn push(&mut self, token: HeaderToken<'a>) -> Result<(), AllocError>
        ensures { OnOk result (Shows self.old (token_view token.entry ∷ []) self.new) }
    {
        match token {
            HeaderToken::Text(text) => {
                self.release()?;
                self.text.push_str(text)
            }
            HeaderToken::Whitespace(gap) => self.push_whitespace(gap),
            HeaderToken::Newline => self.push_newline(),
            HeaderToken::DecodedWord(decoded) => {
                self.held = Held::Word;
                self.text.push_str(decoded.as_str())
            }
        }
    }

    /// Appends what is held back, since text comes next.
    fn release(&mut self) -> Result<(), AllocError>
        ensures written { OnOk result
            (string_bytes self.new.text ≡ string_bytes self.old.text ++ released self.old.held) }
        ensures held { OnOk result (self.new.held ≡ Held.Nothing) }
    {
        match self.held {
            Held::Nothing | Held::Word => {}
            Held::Whitespace(gap) => self.text.push_str(gap)?,
            Held::LineEnd(gap) => {
                self.text.push_str(gap)?;
                self.text.push(' ')?;
            }
        }
        self.held = Held::Nothing;
        Ok(())
    }

    /// Appends whitespace, or holds it back directly after a decoded word.
    #[tactic(auto, using(crate::proofs::lemmas::Unfolded::pushes))]
    fn push_whitespace(&mut self, gap: &'a str) -> Result<(), AllocError>
        ensures { OnOk result (Shows self.old (whitespace_token gap.entry.now ∷ []) self.new) }
    {
        if let Held::Word = self.held {
            self.held = Held::Whitespace(gap);
            return Ok(());
        }
        self.held = Held::Nothing;
        self.text.push_str(gap)
    }

    /// Appends a line end, or holds it back after a decoded word and after whitespace held back.
    #[tactic(auto, using(crate::proofs::lemmas::Unfolded::line_ends))]
    fn push_newline(&mut self) -> Result<(), AllocError>
        ensures { OnOk result (Shows self.old (newline ∷ []) self.new) }
    {
        match self.held {
            Held::Word => self.held = Held::LineEnd(""),
            Held::Whitespace(gap) => self.held = Held::LineEnd(gap),
            Held::Nothing | Held::LineEnd(_) => {
                self.held = Held::Nothing;
                self.text.push(' ')?;
            }
        }
        Ok(())
    }
}
