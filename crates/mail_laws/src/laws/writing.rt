//! Written values of any text, and written outlines of messages. Both read back.
ghost use Rattle.std.specs.Prelude.{◌<◌, ◌≡◌, ◌≤◌, ℕ, Err, List, Ok, map, true};
ghost use Rattle.std.specs.Str.{IsUtf8};
ghost use Rattle.mail_codec.specs.Charset.{Charsets, four_charsets};
ghost use Rattle.mail_codec.specs.Tables.{charsets_with};
ghost use Rattle.mail_codec.specs.declared.charset.tables.SingleByteTable.{SingleByteTable};
ghost use Rattle.mailparse.specs.Mail.{Node, nodes, read_mail, read_mail_in};
ghost use Rattle.mailparse.specs.Refusal.{recursion_limit};
ghost use Rattle.mailparse.specs.Value.{lenient_value, lenient_value_in};
ghost use Rattle.mail_address.specs.Encode.{AreWords, KnowUtf8, words_of, written_value};
ghost use Rattle.mail_laws.specs.Render.{IsWellFormed, KnowItsWords, OutlineTree, depth, headers_within, is_well_formed_within, rendered, shown_header, stands_for};

/// Exactly one list of words fits the characters of a text: the computed one. Each word is not
/// empty, has at most 45 bytes, and would have more with the next character.
pub fn one_list_of_words_fits()
    ensures fits { (characters : List ℕ) → AreWords characters (words_of characters) }
    ensures only { (characters : List ℕ) (words : List (List ℕ)) → AreWords characters words →
        words ≡ words_of characters }
{}

/// Any text that is written as a value is shown by that value, whatever tables a caller has.
pub fn written_values_read_back()
    ensures shown { (text : List ℕ) → IsUtf8 text → lenient_value (written_value text) ≡ text }
    ensures tables { (tables : List SingleByteTable) (text : List ℕ) → IsUtf8 text →
        lenient_value_in (charsets_with tables) (written_value text) ≡ text }
{}

/// Take an outline that is well formed except perhaps for its depth. Under every limit on levels
/// that is at least its depth, its written form is read as the message that it represents; under
/// every lower limit, it is refused because of the limit. So a well-formed outline is read back.
/// The headers show the keys and the texts of the outline. If no value is written as encoded words,
/// all this holds whatever charsets are known; otherwise it holds for charsets that know UTF-8 by
/// its label, as those with the tables of a caller do. Two such outlines that are written as the
/// same bytes are the same.
pub fn outline_reads_back()
    ensures read { (known : Charsets) (greatest : ℕ) (outline : OutlineTree) →
        KnowItsWords known outline → is_well_formed_within outline ≡ true →
        depth outline ≤ greatest →
        read_mail_in known greatest (rendered outline) ≡ Ok (stands_for known outline) }
    ensures refused { (known : Charsets) (greatest : ℕ) (outline : OutlineTree) →
        KnowItsWords known outline → is_well_formed_within outline ≡ true →
        greatest < depth outline →
        read_mail_in known greatest (rendered outline) ≡ Err recursion_limit }
    ensures mail { (outline : OutlineTree) → IsWellFormed outline →
        read_mail (rendered outline) ≡ Ok (stands_for four_charsets outline) }
    ensures shown { (known : Charsets) (outline : OutlineTree) → KnowItsWords known outline →
        is_well_formed_within outline ≡ true →
        map (λ (n : Node). map (shown_header known) n.headers) (nodes (stands_for known outline))
        ≡ headers_within outline }
    ensures tables { (tables : List SingleByteTable) → KnowUtf8 (charsets_with tables) }
    ensures only { (one two : OutlineTree) → is_well_formed_within one ≡ true →
        is_well_formed_within two ≡ true → rendered one ≡ rendered two → one ≡ two }
{}
