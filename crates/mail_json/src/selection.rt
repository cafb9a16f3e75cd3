//! Which mails of a mailbox have a line: all of them, or those that begin in a range of offsets.
ghost use Rattle.std.specs.Prelude.{◌≡◌};
ghost use Rattle.mail_json.specs.JsonLines.{after_entry};
ghost use Rattle.mail_json.specs.Selection.{Fits, is_past, is_wanted, next_selection, number_of};
ghost use Rattle.mail_json.specs.declared.selection.Selection.TheVariants.{Within};

use mail_data::mailbox::MailboxEntry;

/// Which mails of a mailbox have a line.
#[derive(Clone, Copy, Debug)]
pub enum Selection {
    /// All of them. They are numbered, and the next one has this number.
    Numbered(usize),
    /// Those whose separator begins at `from` or later, and before `to`. They have no numbers,
    /// since it is not known how many come before them.
    Within {
        /// The first offset of the range.
        from: usize,
        /// The first offset after the range.
        to: usize,
    },
}

impl Selection {
    /// Returns the selection of the mails that begin in a range of offsets.
    pub(crate) fn within(from: usize, to: usize) -> Selection
        ensures value { result ≡ Within from to }
        ensures fits { Fits result }
    {
        Selection::Within { from, to }
    }

    /// Returns which mails after the next one have a line.
    fn advanced(self) -> Selection
        ensures value { result ≡ next_selection self }
        ensures fits { Fits result }
    {
        match self {
            Selection::Numbered(number) => Selection::Numbered(number.saturating_add(1)),
            Selection::Within { from, to } => Selection::Within { from, to },
        }
    }
}

/// The offset of the next mail of a mailbox, and which mails have a line.
#[derive(Clone, Copy, Debug)]
pub struct NextMail {
    /// Which mails have a line.
    pub selection: Selection,
    /// The offset in the input at which the separator of the next mail begins.
    pub at: usize,
}

impl NextMail {
    /// Returns the mail after this entry, which is the next one.
    pub(crate) fn after(self, entry: &MailboxEntry<'_>) -> NextMail
        ensures selection { result.selection ≡ next_selection self.selection }
        ensures fits { Fits result.selection }
        ensures at { result.at ≡ after_entry self.at entry.now }
    {
        let start = self.at.saturating_add(entry.separator().len());
        let end = start.saturating_add(entry.mail().len());
        let at = end.saturating_add(entry.ending().len());
        NextMail {
            selection: self.selection.advanced(),
            at,
        }
    }

    /// Returns the number of the next mail, counted from 1, or `None` if mails are not numbered.
    ///
    /// # Examples
    ///
    /// ```rust
    /// use mail_json::{NextMail, Selection};
    ///
    /// let next = NextMail { selection: Selection::Numbered(3), at: 100 };
    /// assert_eq!(rt; next.number(), Some(3));
    /// let next = NextMail { selection: Selection::Within { from: 64, to: 128 }, at: 100 };
    /// assert_eq!(rt; next.number(), None);
    /// ```
    pub fn number(self) -> Option<usize>
        ensures { result ≡ number_of self.selection }
    {
        match self.selection {
            Selection::Numbered(number) => Some(number),
            Selection::Within { .. } => None,
        }
    }

    /// Returns whether the next mail has a line.
    pub(crate) fn is_wanted(self) -> bool
        ensures { result ≡ is_wanted self.selection self.at }
    {
        match self.selection {
            Selection::Numbered(_) => true,
            Selection::Within { from, to } => (from..to).contains(&self.at),
        }
    }

    /// Returns whether neither the next mail nor any after it has a line.
    pub(crate) fn is_past(self) -> bool
        ensures { result ≡ is_past self.selection self.at }
    {
        match self.selection {
            Selection::Numbered(_) => false,
            Selection::Within { to, .. } => !(self.at < to),
        }
    }
}
