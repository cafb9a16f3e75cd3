//! What the definitions mean, as laws over all texts.
//!
//! Each function does nothing; its contract is the law.
ghost use Rattle.std.specs.Prelude.{◌≡◌, ◌+◌, ◌∷◌, ◌++◌, [], true, false, ℕ, Bool, List};
ghost use Rattle.std.specs.Prelude.{All, IsUtf8, codes, length, take, drop};
ghost use Rattle.std.specs.Char.{is_ascii_alphabetic};
ghost use Rattle.mail_codec.specs.Places.{begins};
ghost use Rattle.mail_html.specs.Elements.{kind_of};
ghost use Rattle.mail_html.specs.Html.{front_step, state_after};
ghost use Rattle.mail_html.specs.Layout.{State};
ghost use Rattle.mail_html.specs.Links.{Linked, linked_after};
ghost use Rattle.mail_html.specs.Plain.{is_plain, link_digits, separators};
ghost use Rattle.mail_html.specs.References.{reference};
ghost use Rattle.mail_html.specs.Tags.{contents_length, name_length, tag_length};
ghost use Rattle.mail_html.specs.Text.{html_text, written};
ghost use Rattle.mail_html.specs.declared.elements.Kind.TheVariants.{Hidden};
ghost use Rattle.mail_html.specs.declared.layout.Gap.TheVariants.{Nothing};
ghost use Rattle.mail_html.specs.declared.links.Links.{Links};
ghost use Rattle.mail_html.specs.declared.links.Links.TheVariants.{Footnotes};
ghost use Rattle.mail_html.specs.declared.references.References.{References};

/// A text without `<` and `&` whose only whitespace is single spaces between other characters is
/// its own text, whatever becomes of links.
#[tactic(auto, using(crate::proofs::lemmas::Laws::plain_is))]
pub fn plain_text_stays()
    ensures { (links : Links) (references : References) (text : List ℕ)
        → IsUtf8 text → is_plain text ≡ true → html_text links references text ≡ text }
{}

/// A start tag of a hidden element, such as `script`, takes its contents up to its end tag, or to
/// the end of the text, and changes nothing of what is written.
#[tactic(auto, using(crate::proofs::lemmas::Html::hidden_step))]
pub fn hidden_contents_are_no_text()
    ensures { (references : References) (state : State) (bytes : List ℕ)
        → begins is_ascii_alphabetic bytes ≡ true
        → kind_of (take (name_length bytes) bytes) ≡ Hidden
        → front_step references state (60 ∷ bytes) ≡ (
          state,
          1 + (tag_length bytes
              + contents_length (take (name_length bytes) bytes) (drop (tag_length bytes) bytes)),
        ) }
{}

/// What follows a hidden element, such as `script`, is read as if the element were not there:
/// neither its start tag nor its contents change what is written, and they add no link, whose
/// number and footnote would be written.
#[tactic(auto, using(crate::proofs::lemmas::Html::hidden_left, crate::proofs::lemmas::LinkLaws::hidden_linked))]
pub fn hidden_elements_leave_nothing()
    ensures text { (references : References) (state : State) (bytes : List ℕ)
        → begins is_ascii_alphabetic bytes ≡ true
        → kind_of (take (name_length bytes) bytes) ≡ Hidden
        → state_after 0 references state (60 ∷ bytes) ≡ state_after 0 references state
        (drop (tag_length bytes
        + contents_length (take (name_length bytes) bytes) (drop (tag_length bytes) bytes))
        bytes) }
    ensures links { (references : References) (linked : Linked) (bytes : List ℕ)
        → begins is_ascii_alphabetic bytes ≡ true
        → kind_of (take (name_length bytes) bytes) ≡ Hidden
        → linked_after 0 references linked (60 ∷ bytes) ≡ linked_after 0 references linked
        (drop (tag_length bytes
        + contents_length (take (name_length bytes) bytes) (drop (tag_length bytes) bytes))
        bytes) }
{}

/// Nothing between `<script` and its end tag is in the text or in a footnote: whatever was read
/// before a script, what follows it is read as if the script were not there.
#[tactic(auto, using(crate::proofs::lemmas::Html::script_left, crate::proofs::lemmas::LinkLaws::script_linked))]
pub fn scripts_leave_nothing()
    ensures text { (references : References) (state : State) (contents after : List ℕ)
        → contents_length (codes "script") (contents ++ (codes "</script>" ++ after))
        ≡ length contents
        → state_after 0 references state
        (codes "<script>" ++ (contents ++ (codes "</script>" ++ after)))
        ≡ state_after 0 references state after }
    ensures links { (references : References) (linked : Linked) (contents after : List ℕ)
        → contents_length (codes "script") (contents ++ (codes "</script>" ++ after))
        ≡ length contents
        → linked_after 0 references linked
        (codes "<script>" ++ (contents ++ (codes "</script>" ++ after)))
        ≡ linked_after 0 references linked after }
{}

/// Each byte that is written is in the text, in the text of a reference, or is a separator, and with
/// footnotes also a digit of the number of a link: a test that all of these pass, all that is
/// written passes.
pub fn nothing_is_made_up()
    ensures text { (references : References) (test : ℕ → Bool) (html : List ℕ)
        → All (λ b. test b ≡ true) html
        → ((in_value : Bool) (bytes : List ℕ)
        → All (λ b. test b ≡ true) (reference references in_value bytes).0)
        → All (λ b. test b ≡ true) separators
        → All (λ b. test b ≡ true) (state_after 0 references ([], Nothing, false) html).0 }
    ensures links { (references : References) (test : ℕ → Bool) (html : List ℕ)
        → All (λ b. test b ≡ true) html
        → ((in_value : Bool) (bytes : List ℕ)
        → All (λ b. test b ≡ true) (reference references in_value bytes).0)
        → All (λ b. test b ≡ true) separators
        → All (λ b. test b ≡ true) link_digits
        → All (λ b. test b ≡ true) (written Footnotes references html) }
{}
