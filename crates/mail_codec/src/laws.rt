//! What the definitions mean, as laws over all bytes.
//!
//! Each function does nothing; its contract is the law.
ghost use Rattle.std.specs.Prelude.{◌≡◌, ◌↔◌, ◌<◌, ◌≤◌, ◌+◌, ◌++◌, ℕ, All, flat_map, Bool, true, List, Option, Ok, Err, length, slice_index};
ghost use Rattle.mail_codec.specs.Base64.{base64, IsBase64, IsBase64Fault};
ghost use Rattle.mail_codec.specs.Places.{byte_place, either_place, first_place, place_from, text_place, HasByteAt, HasEitherAt, HasTextAt, IsFirstOf, IsFirstPlace, IsFirstPlaceFrom};
ghost use Rattle.mail_codec.specs.Uuencode.{data_bytes, data_length, encoded_lines};
ghost use Rattle.mail_codec.specs.Utf7.{is_direct, utf7_text};
ghost use Rattle.mail_codec.specs.QuotedPrintable.{AreLines, IsQuotedPrintable, Line, lines_of, quoted_printable};

/// `first_place` gives the least place with a property, and no other place is the least.
pub fn first_place_is_least()
    ensures least { (test : List ℕ → Bool) (bytes : List ℕ) →
        IsFirstPlace test bytes (first_place test bytes) }
    ensures only { (test : List ℕ → Bool) (bytes : List ℕ) (p : ℕ) →
        IsFirstPlace test bytes p → p ≡ first_place test bytes }
{}

/// `place_from` gives the least place at or after a start with a property, and no other place is
/// the least.
pub fn place_from_is_least()
    ensures least { (test : List ℕ → Bool) (bytes : List ℕ) (s : ℕ) →
        s ≤ length bytes → IsFirstPlaceFrom test bytes s (place_from test bytes s) }
    ensures only { (test : List ℕ → Bool) (bytes : List ℕ) (s : ℕ) (p : ℕ) →
        IsFirstPlaceFrom test bytes s p → p ≡ place_from test bytes s }
{}

/// `find_byte`, `find_either` and `find` return the first offset of the byte, of either byte or of
/// the text, and `None` exactly if it does not occur; the empty text never occurs.
pub fn searches_find_first_places()
    ensures byte { (bytes : List ℕ) (byte : ℕ) (found : Option ℕ) →
        (found ≡ byte_place bytes byte) ↔ IsFirstOf (HasByteAt bytes byte) found }
    ensures either { (bytes : List ℕ) (first second : ℕ) (found : Option ℕ) →
        (found ≡ either_place bytes first second)
        ↔ IsFirstOf (HasEitherAt bytes first second) found }
    ensures text { (bytes : List ℕ) (text : List ℕ) (found : Option ℕ) →
        (found ≡ text_place bytes text) ↔ IsFirstOf (HasTextAt bytes text) found }
{}

/// `base64` gives the bytes that a text encodes in groups, and no others. Its fault is the index
/// of the first invalid group, and no other number.
pub fn base64_is_groups()
    ensures read { (text : List ℕ) → (bytes : List ℕ) →
        (base64 text ≡ Ok bytes) ↔ IsBase64 text bytes }
    ensures faults { (text : List ℕ) → (n : ℕ) → (base64 text ≡ Err n) ↔ IsBase64Fault text n }
{}

/// Exactly one list of lines fits a text, and `quoted_printable` gives the bytes of these lines,
/// and no others.
pub fn quoted_printable_is_lines()
    ensures once { (text : List ℕ) → (lines : List Line) →
        AreLines text lines ↔ (lines ≡ lines_of text) }
    ensures read { (text : List ℕ) → (bytes : List ℕ) →
        IsQuotedPrintable text bytes ↔ (bytes ≡ quoted_printable text) }
{}

/// In UTF-7, bytes that are direct, which are the ASCII bytes but the plus, are their own text.
#[tactic(auto, using(crate::proofs::lemmas::Utf7::direct_stay))]
pub fn direct_bytes_stay_in_utf_7()
    ensures { (bytes : List ℕ)
        → ((at : ℕ) → at < length bytes → is_direct (slice_index bytes at) ≡ true)
        → utf7_text bytes ≡ bytes }
{}

/// What an encoder writes for the pieces of a file, a line for each of at most 63 bytes, decodes to
/// the bytes of the pieces, and then to those of the lines after it.
pub fn uuencode_is_undone()
    ensures bytes { (pieces : List (List ℕ)) (rest : List ℕ)
        → All (λ piece. (length piece < 64) × All (λ b. b < 256) piece) pieces
        → data_bytes (encoded_lines pieces ++ rest)
        ≡ flat_map (λ piece. piece) pieces ++ data_bytes rest }
    ensures read { (pieces : List (List ℕ)) (rest : List ℕ)
        → All (λ piece. (length piece < 64) × All (λ b. b < 256) piece) pieces
        → data_length (encoded_lines pieces ++ rest)
        ≡ length (encoded_lines pieces) + data_length rest }
{}
