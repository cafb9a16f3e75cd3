//! Laws: the text of a string.
ghost use Rattle.std.specs.Prelude.{◌++◌, ◌≡◌, List, codes, encode_utf8_all, not, true, ℕ};
ghost use Rattle.std.specs.List.{flat_map, list_all};
ghost use Rattle.mail_codec.specs.Hidden.{IsShown, is_no_character};
ghost use Rattle.mail_json_text.specs.JsonText.{character_text, json_text};

/// A string in UTF-8 is written character by character, between quotation marks, and contains no
/// hidden character.
pub fn strings_are_characters()
    ensures written { (characters : List ℕ) → json_text (encode_utf8_all characters)
        ≡ codes "\"" ++ (flat_map character_text characters ++ codes "\"") }
    ensures shown { (characters : List ℕ) →
        list_all (λ c. not (is_no_character c)) characters ≡ true →
        IsShown (json_text (encode_utf8_all characters)) }
{}
