//! Values of headers without some findings are exactly those of a grammar of bytes.
ghost use Rattle.std.specs.Prelude.{◌≡◌, ◌↔◌, ◌==◌, [], ℕ, List, codes, false, true};
ghost use Rattle.std.specs.List.{list_any};
ghost use Rattle.mail_codec.specs.Charset.{Charsets};
ghost use Rattle.mailparse.specs.Mail.{Node};
ghost use Rattle.mail_read.specs.lenient.Content.{message_content};
ghost use Rattle.mail_check.specs.Charsets.{is_lacking};
ghost use Rattle.mail_check.specs.Findings.{Spot, sender_findings, worded_findings};
ghost use Rattle.mail_check.specs.Lines.{HeaderLine, begins_type, is_named};
ghost use Rattle.mail_check.specs.Senders.{is_bad_sender, is_plain_sender};
ghost use Rattle.mail_check.specs.Texts.{has_bad_text};
ghost use Rattle.mail_check.specs.WordBytes.{has_bad_octets};
ghost use Rattle.mail_check.specs.Words.{has_join, is_bad_name, is_bad_piece, is_word, pieces};
ghost use Rattle.mail_check_laws.specs.Charsets.{IsInCharset};
ghost use Rattle.mail_check_laws.specs.Named.{Lacks, is_from_name, is_word_name};
ghost use Rattle.mail_check_laws.specs.SenderNames.{HasPlainNames};
ghost use Rattle.mail_check_laws.specs.Senders.{IsSenderValue};
ghost use Rattle.mail_check_laws.specs.Texts.{IsReadableText};
ghost use Rattle.mail_check_laws.specs.WordBytes.{HasReadableWords};
ghost use Rattle.mail_check_laws.specs.Worded.{IsWordedField, is_worded_key};
ghost use Rattle.mail_grammar.specs.Words.{HasApartWords, HasStrictWords, IsWord};

/// A value names one plain sender exactly if it is of the grammar: blanks with at most one fold,
/// and then an address, or words and texts in quotes and an address in angle brackets. A `From` is
/// no `from-syntax` exactly if its value is so.
#[tactic(auto, using(crate::proofs::lemmas::Senders::sender_grammar))]
pub fn senders_are_strict()
    ensures value { (bytes : List ℕ) → (is_plain_sender bytes ≡ true) ↔ IsSenderValue bytes }
    ensures header { (line : HeaderLine) →
        (is_bad_sender line ≡ false) ↔
        (is_named (codes "From") line ≡ true → IsSenderValue line.value) }
{}

/// A piece of a value is an encoded word exactly if it is one of the grammar. A value has no
/// `word-syntax` exactly if each of its pieces is such a word, or has neither `=?` nor `?=` in it.
#[tactic(auto, using(crate::proofs::lemmas::Words::word_grammar))]
pub fn words_are_strict()
    ensures piece { (piece : List ℕ) → (is_word piece ≡ true) ↔ IsWord piece }
    ensures value { (value : List ℕ) →
        (list_any is_bad_piece (pieces value) ≡ false) ↔ HasStrictWords value }
{}

/// A value has no `word-join` exactly if no padded word in Base64 is before a piece that begins
/// with the same charset and encoding.
#[tactic(auto, using(crate::proofs::lemmas::Joins::joins_strict))]
pub fn words_are_apart()
    ensures { (value : List ℕ) → (has_join [] (pieces value) ≡ false) ↔ HasApartWords value }
{}

/// A header is no `name-address` exactly if no opening angle bracket comes after an at sign in a
/// `From`, and no encoded word of a `From` or `Sender` has a separator of senders in its bytes.
#[tactic(auto, using(crate::proofs::lemmas::SenderNames::names_strict))]
pub fn names_are_strict()
    ensures { (line : HeaderLine) →
        (is_bad_name line (pieces line.value) ≡ false) ↔ HasPlainNames line.key line.value }
{}

/// A value has no `word-bytes` exactly if the bytes of each encoded word in it are of the grammar.
/// There is one at least, they are text in the charset of the word, begin with no byte order mark,
/// and none is a control character. In Base64 each bit of the last letter makes a byte or is 0.
#[tactic(auto, using(crate::proofs::lemmas::WordBytes::word_bytes_strict))]
pub fn word_bytes_are_strict()
    ensures { (known : Charsets) (value : List ℕ) →
        (list_any (has_bad_octets known) (pieces value) ≡ false) ↔ HasReadableWords known value }
{}

/// Bytes are text in the charset of a label exactly if they are by one of the cases of the grammar.
/// A message has no `charset` exactly if its type does not begin with `text/`, or if the bytes of
/// its body have no NUL, begin with no byte order mark, and are text in its charset.
pub fn texts_are_strict()
    ensures charset { (known : Charsets) (label octets : List ℕ) →
        (is_lacking known label octets ≡ false) ↔ IsInCharset known label octets }
    ensures text { (known : Charsets) (node : Node) →
        (has_bad_text known node ≡ false) ↔
        (begins_type (codes "text/") node.ctype ≡ true →
        IsReadableText known node.ctype.charset (message_content node).bytes) }
{}

/// A header of the mail itself has no finding `from-syntax` exactly if it is no `From` or its value
/// is of the grammar. A header of a message has no finding `word-syntax`, `word-join`,
/// `word-bytes` and `name-address` exactly if it is no `Subject`, `From` or `Sender` or is of the
/// grammar.
pub fn worded_headers_are_strict()
    ensures sender { (number : ℕ) (spot : Spot) (line : HeaderLine) →
        Lacks is_from_name (sender_findings number spot line) ↔
        ((number == 0) ≡ true → is_named (codes "From") line ≡ true → IsSenderValue line.value) }
    ensures worded { (known : Charsets) (spot : Spot) (line : HeaderLine) →
        Lacks is_word_name (worded_findings known spot line) ↔
        (is_worded_key line.key ≡ true → IsWordedField known line.key line.value) }
{}
