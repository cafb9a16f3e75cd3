//! Laws: each line is JSON, a line without texts is the whole line without them, and the lines of
//! all parts of an input are those of the whole.
ghost use Rattle.std.specs.Prelude.{◌++◌, ◌<◌, ◌^◌, ◌≡◌, ◌≤◌, Bool, List, Ok, Option, codes};
ghost use Rattle.std.specs.Prelude.{drop, false, length, true, ℕ};
ghost use Rattle.std.specs.List.{flat_map, list_all};
ghost use Rattle.json.specs.Json.{Json};
ghost use Rattle.mail_codec.specs.Places.{values_below};
ghost use Rattle.mail_data.specs.declared.mailbox.formats.Format.{Format};
ghost use Rattle.mailparse.specs.Mail.{Tree, root};
ghost use Rattle.mailparse.specs.Refusal.{Reads};
ghost use Rattle.mail_check.specs.Findings.{Finding};
ghost use Rattle.mail_json.specs.FindingsLine.{findings_value};
ghost use Rattle.mail_data.specs.MailboxOffsets.{IsThere};
ghost use Rattle.mail_data.specs.MailboxParts.{Placed};
ghost use Rattle.mail_read.specs.Reading as plain;
ghost use Rattle.mail_parts.specs.DecodedSize.{bounded_reading};
ghost use Rattle.mail_json.specs.JsonLines.{AreMailboxLines, IsLineOf, origin_at};
ghost use Rattle.mail_walk.specs.Kind.{format_of};
ghost use Rattle.mail_json.specs.Options.{Options, decoding};
ghost use Rattle.mail_json.specs.Origin.{HasMailAt, Origin};
ghost use Rattle.mail_json_text.specs.Printed.{line_of};
ghost use Rattle.mail_json.specs.Range.{ArePartLines, AreRangeLines, AreRangeLinesAt};
ghost use Rattle.mail_json.specs.Range.{AreUnnumberedLines, has_parts, reading_start};
ghost use Rattle.mail_walk.specs.declared.kind.InputKind.{InputKind};
ghost use Rattle.mail_json_text.specs.JsonLine.{AreJsonLines, IsJsonLine};
ghost use Rattle.mail_json.specs.Values.{IsLineValue, findings_if};
ghost use Rattle.mail_json.specs.Values.{unread_value};
ghost use Rattle.mail_json.specs.WithoutText.{without_text};

/// Each line that is written of an input is JSON, and ends in its only LF: the parser of the crate
/// `json` reads the text before the LF as a value in which no object has a key twice. No other byte
/// of the line is a control: it is neither below the space nor DEL. For the line of a mail, or of
/// its refusal, the value is what `IsLineValue` gives, for that of an input that could not be read
/// it is `unread_value`, and for that of the findings of a mail `findings_value`.
pub fn lines_are_json()
    ensures line { (options : Options) (origin : Origin) (mail : Reads Tree) (is_clean : Bool)
        (text : List ℕ) → IsLineOf options origin mail is_clean text →
        (value : Json) × (object : List ℕ) × IsLineValue options origin mail value
        × IsJsonLine value object × (text ≡ object ++ codes "\n") }
    ensures all { (options : Options) (format : Format) (file : Option (List ℕ)) (bytes : List ℕ)
        (is_clean : Bool) (text : List ℕ) →
        AreMailboxLines options format file bytes is_clean text → AreJsonLines text }
    ensures part { (options : Options) (kind : InputKind) (file : Option (List ℕ)) (bytes : List ℕ)
        (count number : ℕ) (is_clean : Bool) (text : List ℕ) →
        ArePartLines options kind file bytes count number is_clean text → AreJsonLines text }
    ensures unread { (file : Option (List ℕ)) (text : List ℕ) → (object : List ℕ)
        × IsJsonLine (unread_value file text) object
        × (line_of (unread_value file text) ≡ object ++ codes "\n") }
    ensures findings { (origin : Origin) (findings : List Finding) → (object : List ℕ)
        × IsJsonLine (findings_value origin findings) object
        × (line_of (findings_value origin findings) ≡ object ++ codes "\n") }
{}

/// If bodies are not decoded, the line of a mail is its whole line without what needs that.
pub fn text_is_left_out()
    ensures { (options : Options) (origin : Origin) (mail : Reads Tree) (value : Json) →
        IsLineValue (decoding false options) origin mail value →
        (whole : Json) × IsLineValue (decoding true options) origin mail whole
        × (value ≡ without_text whole) }
{}

/// The bytes of a mail that was read are those of the input, so the findings in its line are those
/// of the input, which `rocktray check` lists; also if the mail was read without the limits on its
/// uuencoded files and on the mails inside it.
pub fn findings_are_those_of_the_input()
    ensures line { (options : Options) (bytes : List ℕ) (mail : Tree) →
        bounded_reading options.known options.limit options.most_bytes bytes ≡ Ok mail →
        findings_if options (root mail).bytes ≡ findings_if options bytes }
    ensures without_limits { (options : Options) (bytes : List ℕ) (mail : Tree) →
        plain.mail_reading options.known options.limit bytes ≡ Ok mail →
        findings_if options (root mail).bytes ≡ findings_if options bytes }
{}

/// The lines of equal parts of an input, one after another, are those of the whole without the
/// numbers of mails, and no error is among them exactly if none is in any part.
pub fn parts_join()
    ensures { (options : Options) (kind : InputKind) (file : Option (List ℕ)) (bytes : List ℕ)
        (count : ℕ) (are_clean : ℕ → Bool) (texts : ℕ → List ℕ) →
        has_parts (format_of kind) ≡ true → 0 < count →
        ((k : ℕ) → k < count →
        ArePartLines options kind file bytes count k (are_clean k) (texts k)) →
        AreUnnumberedLines options kind file bytes
        (list_all (λ is_clean. is_clean) (values_below count are_clean))
        (flat_map (λ text. text) (values_below count texts)) }
{}

/// The lines of the mails that begin in a range of offsets are found by reading from its
/// `reading_start` onwards.
pub fn range_is_found()
    ensures { (options : Options) (format : Format) (file : Option (List ℕ)) (bytes : List ℕ)
        (from to : ℕ) (is_clean : Bool) (text : List ℕ) → has_parts format ≡ true →
        from ≤ length bytes →
        AreRangeLinesAt options format file from to (reading_start from)
        (drop (reading_start from) bytes) is_clean text →
        AreRangeLines options format file from to bytes is_clean text }
{}

/// The offsets in the line of a mail of a mailbox are those of the mail in the input: its bytes
/// from `start` to `end` are the mail. `mails_are_at_their_offsets` of `mail_data` says that each
/// mail of a mailbox, and of each range of one, is there.
pub fn offsets_are_those_of_the_input()
    ensures { (file : Option (List ℕ)) (number : Option ℕ) (bytes : List ℕ) (mail : Placed) →
        length bytes < 2 ^ 64 → IsThere bytes mail →
        HasMailAt bytes (origin_at file number mail.start mail.entry) mail.entry.mail }
{}
