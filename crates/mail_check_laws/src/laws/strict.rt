//! Mails without findings but notes are exactly those of a grammar of bytes, whatever charsets are
//! known.
//!
//! The findings are those of a mail and its parts, without those of the mails inside it.
ghost use Rattle.std.specs.Prelude.{◌≡◌, ◌↔◌, ◌++◌, ℕ, IsOkAnd, List, Ok, length};
ghost use Rattle.mail_codec.specs.Charset.{Charsets};
ghost use Rattle.mailparse.specs.Block.{read_headers};
ghost use Rattle.mailparse.specs.Mail.{Tree, read_mail_in, root};
ghost use Rattle.mailparse.specs.Placement.{placements};
ghost use Rattle.mail_check.specs.Findings.{findings};
ghost use Rattle.mail_check.specs.Inside.{all_findings};
ghost use Rattle.mail_grammar.specs.Headers.{IsBlock};
ghost use Rattle.mail_grammar.specs.LineEnds.{HasNoLoneReturn, HasNoNul};
ghost use Rattle.mail_grammar.specs.LineEnds.{HasOneLineEnd, IsText};
ghost use Rattle.mail_check_laws.specs.Inside.{IsStrictWithin};
ghost use Rattle.mail_grammar.specs.Levels.{IsSmall};
ghost use Rattle.mail_check_laws.specs.Mail.{AreStrictBodies, AreStrictFields};
ghost use Rattle.mail_check_laws.specs.Mail.{AreStrictFileNames, AreStrictParameters};
ghost use Rattle.mail_check_laws.specs.Mail.{AreStrictParts, AreStrictSenders, AreStrictTexts};
ghost use Rattle.mail_check_laws.specs.Mail.{AreStrictWords, HasStrictBlocks, IsStrict};
ghost use Rattle.mail_check_laws.specs.Named.{Lacks, is_block_name, is_body_name, is_core};
ghost use Rattle.mail_check_laws.specs.Named.{is_field_name, is_file_name, is_from_name};
ghost use Rattle.mail_check_laws.specs.Named.{is_line_name, is_lone_cr_name, is_many_name};
ghost use Rattle.mail_check_laws.specs.Named.{is_mixed_name, is_nul_name, is_parameter_name};
ghost use Rattle.mail_check_laws.specs.Named.{is_part_name, is_text_name, is_word_name};

/// A mail has no finding `nul` exactly if no byte of it is NUL; no `lone-cr` exactly if a LF
/// follows each CR; and no `mixed-line-ends` exactly if not both line ends are there. It has none
/// of the three exactly if it is lines that all end in LF, or lines that all end in CR LF.
#[tactic(auto, using(crate::proofs::lemmas::Bytes::line_names))]
pub fn lines_are_strict()
    ensures nul { (known : Charsets) (t : Tree) →
        Lacks is_nul_name (findings known t (placements 0 t)) ↔ HasNoNul (root t).bytes }
    ensures lone_cr { (known : Charsets) (t : Tree) →
        Lacks is_lone_cr_name (findings known t (placements 0 t)) ↔ HasNoLoneReturn (root t).bytes }
    ensures mixed { (known : Charsets) (t : Tree) →
        Lacks is_mixed_name (findings known t (placements 0 t)) ↔ HasOneLineEnd (root t).bytes }
    ensures all { (known : Charsets) (t : Tree) →
        Lacks is_line_name (findings known t (placements 0 t)) ↔ IsText (root t).bytes }
{}

/// A mail that the port reads has no finding `no-headers`, `no-blank-line`, `bad-key`,
/// `blank-fold`, `comment-fold` and `header-8bit` exactly if the header block of each of its
/// messages is one of the grammar: a header or more, each a name, a colon and lines of ASCII, and
/// then an empty line.
#[tactic(auto, using(crate::proofs::lemmas::Mails::blocks_strict))]
pub fn blocks_are_strict()
    ensures { (known : Charsets) (greatest : ℕ) (bytes : List ℕ) (t : Tree) →
        read_mail_in known greatest bytes ≡ Ok t →
        Lacks is_block_name (findings known t (placements 0 t)) ↔ HasStrictBlocks t }
{}

/// A mail that the port reads has no finding `duplicate`, `type-syntax`, `encoding-syntax`,
/// `encoding-on-composite`, `other-message` and `bad-boundary` exactly if in each of its messages
/// no header is repeated that may occur once, and the values of its headers of types, dispositions
/// and transfer encodings, and its type itself, are of the grammar.
#[tactic(auto, using(crate::proofs::lemmas::Mails::fields_are_of_grammar))]
pub fn fields_are_strict()
    ensures { (known : Charsets) (greatest : ℕ) (bytes : List ℕ) (t : Tree) →
        read_mail_in known greatest bytes ≡ Ok t →
        Lacks is_field_name (findings known t (placements 0 t)) ↔ AreStrictFields t }
{}

/// A mail that the port reads has no finding `type-syntax`, `quoted-special`, `quoted-pair`,
/// `extended-parameter`, `type-extended`, `word-parameter`, `type-word` and `duplicate-parameter`
/// exactly if the value of each `Content-Type` and `Content-Disposition` of each of its messages is plain by the grammar: its
/// parameters have different names without asterisks, each value is a token, or a text in quotes
/// without backslashes, semicolons, control characters and outer spaces, and `=?` is nowhere.
#[tactic(auto, using(crate::proofs::lemmas::Mails::parameters_are_of_grammar))]
pub fn parameters_are_strict()
    ensures { (known : Charsets) (greatest : ℕ) (bytes : List ℕ) (t : Tree) →
        read_mail_in known greatest bytes ≡ Ok t →
        Lacks is_parameter_name (findings known t (placements 0 t)) ↔ AreStrictParameters t }
{}

/// A mail that the port reads has no finding `no-type`, `two-names` or one of the eight names of
/// `parameters_are_strict` exactly if the values of types and dispositions are plain, no type has a
/// parameter `filename`, no disposition a parameter `name`, and each message whose disposition has a
/// `filename` has no other `name` in its type, and a `Content-Type` if that `filename` is not blank.
#[tactic(auto, using(crate::proofs::lemmas::Mails::files_are_of_grammar))]
pub fn file_names_are_strict()
    ensures { (known : Charsets) (greatest : ℕ) (bytes : List ℕ) (t : Tree) →
        read_mail_in known greatest bytes ≡ Ok t →
        Lacks is_file_name (findings known t (placements 0 t)) ↔
        (AreStrictParameters t × AreStrictFileNames t) }
{}

/// A mail that the port reads has no finding `from-syntax` exactly if the value of each `From` of the
/// mail itself is of the grammar: one address, or words and texts in quotes and an address in angle
/// brackets.
#[tactic(auto, using(crate::proofs::lemmas::Mails::senders_are_of_grammar))]
pub fn senders_of_mails_are_strict()
    ensures { (known : Charsets) (greatest : ℕ) (bytes : List ℕ) (t : Tree) →
        read_mail_in known greatest bytes ≡ Ok t →
        Lacks is_from_name (findings known t (placements 0 t)) ↔ AreStrictSenders t }
{}

/// A mail that the port reads has no finding `word-syntax`, `word-join`, `word-bytes` and
/// `name-address` exactly if each `Subject`, `From` and `Sender` of each of its messages is of the
/// grammar: each piece of its value is an encoded word or looks like none, a padded word in Base64 is
/// before no word that continues it, the bytes of each word are text in its charset, and no name of a
/// sender can be read as an address.
#[tactic(auto, using(crate::proofs::lemmas::Mails::words_are_of_grammar))]
pub fn words_of_mails_are_strict()
    ensures { (known : Charsets) (greatest : ℕ) (bytes : List ℕ) (t : Tree) →
        read_mail_in known greatest bytes ≡ Ok t →
        Lacks is_word_name (findings known t (placements 0 t)) ↔ AreStrictWords known t }
{}

/// A mail that the port reads has no finding `preamble`, `no-delimiter`, `delimiter-inside`,
/// `delimiter-tail`, `no-close` and `late-delimiter` exactly if each of its multiparts with a
/// boundary has parts, no colon in its preamble, and a text of the grammar after its header block:
/// a preamble, parts with a delimiter before each, one close-delimiter and an epilogue, and the
/// dash-boundary occurs nowhere else.
#[tactic(auto, using(crate::proofs::lemmas::Mails::parts_are_of_grammar))]
pub fn parts_are_strict()
    ensures { (known : Charsets) (greatest : ℕ) (bytes : List ℕ) (t : Tree) →
        read_mail_in known greatest bytes ≡ Ok t →
        Lacks is_part_name (findings known t (placements 0 t)) ↔ AreStrictParts t }
{}

/// A mail that the port reads has no finding `base64-syntax`, `qp-syntax` and `qp-blank` exactly if
/// the body of each of its messages without parts that is no multipart is of the grammar, if it is
/// encoded.
#[tactic(auto, using(crate::proofs::lemmas::Mails::bodies_are_of_grammar))]
pub fn bodies_are_strict()
    ensures { (known : Charsets) (greatest : ℕ) (bytes : List ℕ) (t : Tree) →
        read_mail_in known greatest bytes ≡ Ok t →
        Lacks is_body_name (findings known t (placements 0 t)) ↔ AreStrictBodies t }
{}

/// A mail that the port reads has no finding `charset` exactly if the body of each of its messages
/// without parts whose type begins with `text/` is of the grammar: without the transfer encoding, its
/// bytes have no NUL, begin with no byte order mark, and are text in its charset.
#[tactic(auto, using(crate::proofs::lemmas::Mails::texts_are_of_grammar))]
pub fn texts_of_mails_are_strict()
    ensures { (known : Charsets) (greatest : ℕ) (bytes : List ℕ) (t : Tree) →
        read_mail_in known greatest bytes ≡ Ok t →
        Lacks is_text_name (findings known t (placements 0 t)) ↔ AreStrictTexts known t }
{}

/// A mail that the port reads has no finding `many` exactly if it has at most 10 levels, and at most
/// 100 messages, itself and its parts.
#[tactic(auto, using(crate::proofs::lemmas::Mails::many_of_grammar))]
pub fn small_mails_are_strict()
    ensures { (known : Charsets) (greatest : ℕ) (bytes : List ℕ) (t : Tree) →
        read_mail_in known greatest bytes ≡ Ok t →
        Lacks is_many_name (findings known t (placements 0 t)) ↔ IsSmall t }
{}

/// No message that begins with a header block of the grammar is refused for its headers, and its
/// header block is that one. So no message begins with two.
#[tactic(auto, using(crate::proofs::lemmas::Unique::block_readings))]
pub fn strict_blocks_are_read()
    ensures read { (block body : List ℕ) → IsBlock block →
        IsOkAnd (read_headers (block ++ body)) (λ found. found.index ≡ length block) }
    ensures only { (block body other rest : List ℕ) → IsBlock block → IsBlock other →
        block ++ body ≡ other ++ rest → block ≡ other }
{}

/// Without the mails inside it, a mail that the port reads has no finding but notes exactly if it is
/// strict: its bytes, its header blocks, its headers, its types, their parameters and its file names,
/// its senders and words, its multiparts, its bodies, its texts and the number of its messages and
/// levels are those of the grammar.
pub fn clean_mails_are_strict()
    ensures { (known : Charsets) (greatest : ℕ) (bytes : List ℕ) (t : Tree) →
        read_mail_in known greatest bytes ≡ Ok t →
        Lacks is_core (findings known t (placements 0 t)) ↔ IsStrict known bytes t }
{}

/// With the mails inside it, a mail that the port reads has no finding but notes exactly if it is
/// strict, and each mail inside it is read and strict by the same rules. But the levels of a mail
/// inside are those of the paths of its messages, none of which has ten numbers.
pub fn clean_mails_are_strict_inside()
    ensures { (known : Charsets) (greatest : ℕ) (bytes : List ℕ) (t : Tree) →
        read_mail_in known greatest bytes ≡ Ok t →
        Lacks is_core (all_findings known t (placements 0 t)) ↔ IsStrictWithin known bytes t }
{}
