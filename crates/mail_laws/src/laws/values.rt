//! The texts of header values.
ghost use Rattle.std.specs.Prelude.{[], ◌++◌, ◌∷◌, ◌≡◌, ℕ, List, Ok, length};
ghost use Rattle.std.specs.List.{flat_map};
ghost use Rattle.std.specs.Str.{IsUtf8};
ghost use Rattle.mail_codec.specs.Charset.{Charsets};
ghost use Rattle.mailparse.specs.Tokens.{Adjoin, AreTokens, TokenRange, token_ranges, token_source};
ghost use Rattle.mailparse.specs.Value.{IsPlain, Token, lenient_value, newline, shown_tokens, strict_value, whitespace_token};
ghost use Rattle.mail_address.specs.WordTokens.{word};

/// Exactly one list of tokens fits a line of a value, whatever charsets are known: the computed
/// one.
pub fn one_list_of_tokens_fits()
    ensures fits { (known : Charsets) (line : List ℕ)
        → AreTokens known line (token_ranges known line) }
    ensures only { (known : Charsets) (line : List ℕ) (tokens : List TokenRange)
        → AreTokens known line tokens → tokens ≡ token_ranges known line }
{}

/// The tokens of a line follow one another from its start to its end, so their bytes make up the
/// line.
pub fn tokens_make_up_line()
    ensures adjoin { (known : Charsets) (line : List ℕ)
        → Adjoin 0 (token_ranges known line) (length line) }
    ensures bytes { (known : Charsets) (line : List ℕ)
        → flat_map (token_source line) (token_ranges known line) ≡ line }
{}

/// Only whitespace, or whitespace and one line end, between two decoded words is not shown: a value
/// shows what it would show if the second word directly followed the first. (Whitespace at the
/// start of a line is not part of it, so the token before a word there is empty. Each further line
/// end shows as a space.)
pub fn adjacent_words_join()
    ensures whitespace_between { (before rest : List Token) (first gap second : List ℕ) →
        shown_tokens (before ++ word first ∷ whitespace_token gap ∷ word second ∷ rest)
        ≡ shown_tokens (before ++ word first ∷ word second ∷ rest) }
    ensures line_end_between { (before rest : List Token) (first gap second : List ℕ) →
        shown_tokens (before ++ word first ∷ whitespace_token gap ∷ newline
        ∷ whitespace_token [] ∷ word second ∷ rest)
        ≡ shown_tokens (before ++ word first ∷ word second ∷ rest) }
{}

/// A value of printable ASCII that does not begin with a space and does not contain `=?` reads as
/// itself.
pub fn plain_value_reads_as_itself()
    ensures { (value : List ℕ) → IsPlain value → lenient_value value ≡ value }
{}

/// If the bytes of a value are UTF-8, the strict reading succeeds and agrees with the lenient one;
/// and whenever the strict reading succeeds, it agrees with the lenient one.
pub fn utf8_value_agrees()
    ensures agrees { (bytes : List ℕ) → IsUtf8 bytes →
        strict_value bytes ≡ Ok (lenient_value bytes) }
    ensures succeeds { (bytes value : List ℕ) → strict_value bytes ≡ Ok value →
        lenient_value bytes ≡ value }
{}
