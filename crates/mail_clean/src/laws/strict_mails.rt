//! The grammar of whole mails: each mail without findings but notes is of it, and is read as the one
//! tree that the grammar gives it.
//!
//! It is a grammar of bytes, and says nothing of how headers are searched and multiparts cut.
ghost use Rattle.std.specs.Prelude.{◌++◌, ◌≡◌, ◌≤◌, ◌↔◌, ℕ, Bool, List, Ok};
ghost use Rattle.std.specs.Prelude.{codes, drop, false, length, map, true};
ghost use Rattle.mail_codec.specs.Charset.{Charsets};
ghost use Rattle.mailparse.specs.Block.{read_headers};
ghost use Rattle.mailparse.specs.Delimiters.{cut_parts};
ghost use Rattle.mailparse.specs.Header.{Header};
ghost use Rattle.mailparse.specs.Mail.{Tree, read_levels, read_mail_in, strict};
ghost use Rattle.mailparse.specs.Placement.{placements};
ghost use Rattle.mailparse.specs.Ranges.{slice};
ghost use Rattle.mail_check.specs.Findings.{findings};
ghost use Rattle.mail_grammar.specs.Delimiters.{HasParts};
ghost use Rattle.mail_grammar.specs.Fields.{IsBoundary};
ghost use Rattle.mail_grammar.specs.Headers.{IsBlock};
ghost use Rattle.mail_grammar.specs.Levels.{HasLevels};
ghost use Rattle.mail_check_laws.specs.Named.{Lacks, is_core};
ghost use Rattle.mail_clean.specs.PlainOutlines.{IsPlainOutline};
ghost use Rattle.mail_grammar.specs.PlainValues.{IsMeant};
ghost use Rattle.mail_laws.specs.Render.{IsWellFormed, OutlineTree, rendered, stands_for};
ghost use Rattle.mail_clean.specs.StrictMails.{AreHeaders, IsMail, IsMessage, IsSplitInto};

/// Each header block of the grammar has one list of headers by it, and that list is read from the
/// block and any bytes after it.
pub fn strict_blocks_have_headers()
    ensures there { (block : List ℕ) → IsBlock block →
        (headers : List Header) × AreHeaders headers block }
    ensures only { (headers others : List Header) (block : List ℕ) → AreHeaders headers block →
        AreHeaders others block → headers ≡ others }
    ensures read { (headers : List Header) (block body : List ℕ) → AreHeaders headers block →
        read_headers (block ++ body) ≡ Ok (record { headers = headers; index = length block }) }
{}

/// Each text of the grammar of multiparts has one preamble and one list of parts by it, and the port
/// cuts a message that ends in this text into these.
pub fn strict_texts_have_parts()
    ensures there { (boundary text : List ℕ) → IsBoundary 70 boundary →
        HasParts (codes "--" ++ boundary) true text →
        (preamble : List ℕ) × (parts : List (List ℕ))
        × IsSplitInto (codes "--" ++ boundary) preamble parts text }
    ensures only { (boundary preamble other text : List ℕ) (parts others : List (List ℕ)) →
        IsBoundary 70 boundary → IsSplitInto (codes "--" ++ boundary) preamble parts text →
        IsSplitInto (codes "--" ++ boundary) other others text →
        (preamble ≡ other) × (parts ≡ others) }
    ensures read { (boundary preamble bytes : List ℕ) (parts : List (List ℕ)) (start : ℕ) →
        IsBoundary 70 boundary →
        IsSplitInto (codes "--" ++ boundary) preamble parts (drop start bytes) →
        (slice bytes (cut_parts (codes "--" ++ boundary) bytes start).body ≡ preamble)
        × (map (slice bytes) (cut_parts (codes "--" ++ boundary) bytes start).parts ≡ parts) }
{}

/// A message of the grammar is read as the tree that the grammar gives it, if its levels are allowed.
/// So is a mail of the grammar, which has at most 10 levels. No bytes have two trees by the grammar.
pub fn strict_mails_have_one_tree()
    ensures messages { (known : Charsets) (levels : ℕ) (in_digest : Bool) (bytes : List ℕ)
        (t : Tree) → HasLevels levels t → IsMessage known in_digest bytes t →
        read_levels (strict known) levels in_digest bytes ≡ Ok t }
    ensures read { (known : Charsets) (greatest : ℕ) (bytes : List ℕ) (t : Tree) → 9 ≤ greatest →
        IsMail known bytes t → read_mail_in known greatest bytes ≡ Ok t }
    ensures one_message { (known : Charsets) (in_digest : Bool) (bytes : List ℕ) (t u : Tree) →
        IsMessage known in_digest bytes t → IsMessage known in_digest bytes u → t ≡ u }
    ensures unique { (known : Charsets) (bytes : List ℕ) (t u : Tree) → IsMail known bytes t →
        IsMail known bytes u → t ≡ u }
{}

/// A mail that the port reads has no finding but notes exactly if it is of the grammar, with the tree
/// that was read. Each mail of the grammar is read, so it has no finding but notes.
///
/// The findings are those of the mail and its parts, under the charsets that are known.
pub fn clean_mails_are_of_grammar()
    ensures read { (known : Charsets) (greatest : ℕ) (bytes : List ℕ) (t : Tree) →
        read_mail_in known greatest bytes ≡ Ok t →
        Lacks is_core (findings known t (placements 0 t)) ↔ IsMail known bytes t }
    ensures clean { (known : Charsets) (bytes : List ℕ) (t : Tree) → IsMail known bytes t →
        Lacks is_core (findings known t (placements 0 t)) }
{}

/// The type of each message of a mail of the grammar is what the value of its `Content-Type` means by
/// the grammar of plain values; without one it is `text/plain`, in a digest `message/rfc822`. Its
/// disposition is what the value of its `Content-Disposition` means, and without one `inline`,
/// whatever charsets are known when it is read.
pub fn strict_types_are_meant()
    ensures { (known : Charsets) (bytes : List ℕ) (t : Tree) → IsMail known bytes t →
        IsMeant false t }
{}

/// A well-formed outline that is plain is written as a mail of the grammar, whatever charsets are
/// known, and its tree is the message that the outline represents.
pub fn plain_outlines_are_of_grammar()
    ensures { (known : Charsets) (outline : OutlineTree) → IsWellFormed outline →
        IsPlainOutline outline → IsMail known (rendered outline) (stands_for known outline) }
{}
