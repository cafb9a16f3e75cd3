//! Laws on mailboxes. Each function does nothing; its contract is the law.
ghost use Rattle.std.specs.Prelude.{◌++◌, ◌-◌, ◌<◌, ◌≡◌, ◌≤◌, ◌∷◌, List, Some, drop, length};
ghost use Rattle.std.specs.Prelude.{false, ℕ, true};
ghost use Rattle.std.specs.List.{flat_map};
ghost use Rattle.mail_codec.specs.Places.{values_below};
ghost use Rattle.mail_data.specs.Mailbox.{EndsEmpty, Entry, entries, front_length, has_front};
ghost use Rattle.mail_data.specs.Mailbox.{has_line};
ghost use Rattle.mail_data.specs.LineEnds.{starts_line};
ghost use Rattle.mail_data.specs.MailboxFormats.{entries_in, settled_in};
ghost use Rattle.mail_data.specs.MailboxOffsets.{AreThere};
ghost use Rattle.mail_data.specs.MailboxParts.{in_range, part_mails, placed, placed_at, placed_from};
ghost use Rattle.mail_data.specs.QuotedLines.{is_quoted, quoted, unquoted};
ghost use Rattle.mail_data.specs.Separator.{is_separator};
ghost use Rattle.mail_data.specs.declared.mailbox.formats.Format.{Format};

/// Says that a mailbox may be cut before a separator that follows an empty line: the mails of the
/// two mailboxes, in order, are those of the whole.
pub fn mailboxes_join()
    ensures { (first second : List ℕ) → is_separator first ≡ true → EndsEmpty first →
        is_separator second ≡ true →
        entries (first ++ second) ≡ entries first ++ entries second }
{}

/// Says that a mailbox may be read in equal parts, each with the mails whose separator begins in
/// it: together they are all mails in order, each with its offset.
pub fn mailbox_parts_join()
    ensures { (bytes : List ℕ) (count : ℕ) → 0 < count →
        flat_map (λ mails. mails) (values_below count (part_mails bytes count)) ≡ placed bytes }
{}

/// Says that the bytes of a mailbox, in each format, have every mail at its offset, which is that
/// of its separator and the length of the separator; so have they the mails that begin in a range.
pub fn mails_are_at_their_offsets()
    ensures all { (format : Format) (bytes : List ℕ) →
        AreThere bytes (placed_from (front_length bytes) (entries_in format bytes)) }
    ensures range { (format : Format) (bytes : List ℕ) (from to : ℕ) →
        AreThere bytes (in_range from to
        (placed_from (front_length bytes) (entries_in format bytes))) }
{}

/// Says that the mails that begin in a range of offsets are found without the bytes more than three
/// before the range: an empty line of at most two bytes, and a LF, precede a separator.
pub fn mailbox_range_stays()
    ensures { (bytes : List ℕ) (from to : ℕ) → from ≤ length bytes →
        in_range from to (placed_at (from - 3) (drop (from - 3) bytes))
        ≡ in_range from to (placed bytes) }
{}

/// Says that further bytes do not change whether a mailbox begins at the front, once the first line
/// was read with at least one more byte.
pub fn settled_line_stays()
    ensures { (read more : List ℕ) → has_line read ≡ true →
        is_separator (read ++ more) ≡ is_separator read }
{}

/// Says that further bytes do not change the bytes before the first separator, once that separator
/// was read with its line and at least one more byte; the mails are those of the rest and of the
/// bytes that follow.
pub fn settled_front_stays()
    ensures { (read more : List ℕ) → has_front read ≡ true →
        (front_length (read ++ more) ≡ front_length read)
        × (entries (read ++ more) ≡ entries (drop (front_length read) read ++ more)) }
{}

/// Says that the mail that `settled_entry` returns is the first one whatever bytes follow, and that
/// the mails after it are those of the rest and of the bytes that follow.
pub fn settled_mail_stays()
    ensures { (format : Format) (read more rest : List ℕ) (entry : Entry) →
        settled_in format read ≡ Some (entry, rest) →
        entries_in format (read ++ more) ≡ entry ∷ entries_in format (rest ++ more) }
{}

/// Says that quoting a mail and then unquoting it returns the mail.
pub fn quoted_mail_returns()
    ensures { (mail : List ℕ) → unquoted (quoted mail) ≡ mail }
{}

/// Says that unquoting does not change a mail without quoted lines.
pub fn plain_mail_stays()
    ensures { (mail : List ℕ) → ((p : ℕ) → starts_line mail p ≡ true →
        is_quoted (drop p mail) ≡ false) → unquoted mail ≡ mail }
{}
