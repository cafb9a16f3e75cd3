//! The mails whose parts are saved, and which parts the file of a forwarded mail contains.
ghost use Rattle.std.specs.Prelude.{◌≡◌};
ghost use Rattle.mailparse.specs.Mail.{root};
ghost use Rattle.mailparse.specs.Views.{tree_of};
ghost use Rattle.mail_extract.specs.Save.{is_contained};

use mail_read::inner_mails::forwards;
use mailparse::ParsedMail;

/// The mail that has a part.
#[derive(Clone, Copy, Debug, PartialEq, Eq)]
pub enum Level {
    /// The mail itself.
    Own,
    /// A mail inside it.
    Inside,
}

/// Returns whether a part is a forwarded mail in a forwarded mail, whose file contains it.
pub(crate) fn is_contained(level: Level, part: &ParsedMail<'_>) -> bool
    ensures { result ≡ is_contained level (root (tree_of part.now)) }
{
    match level {
        Level::Own => false,
        Level::Inside => forwards(part),
    }
}

/// The mail whose parts are saved.
#[derive(Clone, Copy)]
pub(crate) struct Saving {
    /// The number of the whole mail in its mailbox, or `None` for a mail by itself.
    pub number: Option<usize>,
    /// Which mail it is.
    pub level: Level,
}

/// The mail whose parts are searched for mails inside.
#[derive(Clone, Copy)]
pub(crate) struct Within {
    /// The number of the whole mail in its mailbox, or `None` for a mail by itself.
    pub number: Option<usize>,
    /// The offset of this mail in the whole mail, or `None` if it is encoded.
    pub start: Option<usize>,
    /// How deep mails are searched.
    pub most: u8,
}
