//! Lists of message ids.
ghost use Rattle.std.specs.Prelude.{◌↔◌, ◌≡◌, ℕ, All, Err, List, Ok};
ghost use Rattle.std.specs.Str.{IsUtf8};
ghost use Rattle.mailparse.specs.MessageIds.{message_ids, written_ids};
ghost use Rattle.mailparse.specs.Refusal.{Refusal};
ghost use Rattle.mail_laws.specs.IdGrammar.{AreIds, Breaks};
ghost use Rattle.mail_laws.specs.Ids.{ContainsNoClosing};

/// The texts that are read as message ids are exactly those of the form: whitespace, and then any
/// number of times `<`, an id without `>`, `>` and whitespace. Any other text is refused for the
/// first violation of the form.
pub fn message_ids_have_a_form()
    ensures read { (text : List ℕ) (ids : List (List ℕ)) →
        AreIds text ids ↔ (message_ids text ≡ Ok ids) }
    ensures refuses { (text : List ℕ) (refusal : Refusal) →
        Breaks text refusal ↔ (message_ids text ≡ Err refusal) }
{}

/// The text of a list of message ids reads back as the list exactly if no id contains a `>`.
pub fn message_ids_read_back()
    ensures read { (ids : List (List ℕ)) → All IsUtf8 ids →
        All ContainsNoClosing ids → message_ids (written_ids ids) ≡ Ok ids }
    ensures only { (ids : List (List ℕ)) → All IsUtf8 ids →
        message_ids (written_ids ids) ≡ Ok ids → All ContainsNoClosing ids }
{}
