//! What an input is.
ghost use Rattle.std.specs.Prelude.{◌≡◌};
ghost use Rattle.mail_walk.specs.Kind.{format_of, is_mailbox};

use mail_data::mailbox::{self, Format};

/// What an input is.
#[derive(Clone, Copy, Debug, PartialEq, Eq)]
pub enum InputKind {
    /// A mailbox if it begins with a separator, otherwise a mail.
    Either,
    /// One mail.
    Mail,
    /// A mailbox in this format.
    Mailbox(Format),
}

impl InputKind {
    /// Returns the format in which an input of this kind is read if it is a mailbox.
    ///
    /// Does not allocate.
    ///
    /// # Examples
    ///
    /// ```rust
    /// use mail_data::mailbox::Format;
    /// use mail_walk::InputKind;
    ///
    /// assert!(rt; matches!(InputKind::Either.format(), Format::Plain));
    /// ```
    pub fn format(self) -> Format
        ensures { result ≡ format_of self }
    {
        match self {
            InputKind::Either | InputKind::Mail => Format::Plain,
            InputKind::Mailbox(format) => format,
        }
    }
}

/// Returns whether an input of this kind that begins with these bytes is a mailbox (RFC 4155,
/// appendix A).
///
/// Does not allocate.
///
/// # Examples
///
/// ```rust
/// use mail_walk::{InputKind, is_mailbox};
///
/// assert!(rt; is_mailbox(InputKind::Either, b"From a Fri Jul  8 12:08:34 2011\n\none\n"));
/// assert!(rt; !is_mailbox(InputKind::Mail, b"From a Fri Jul  8 12:08:34 2011\n\none\n"));
/// ```
pub fn is_mailbox(kind: InputKind, input: &[u8]) -> bool
    ensures { result ≡ is_mailbox kind input.now }
{
    match kind {
        InputKind::Either => mailbox::is_mailbox(input),
        InputKind::Mail => false,
        InputKind::Mailbox(_) => true,
    }
}
