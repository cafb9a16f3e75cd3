//! The parameters of a value: its segments, its pairs and their meaning.
ghost use Rattle.std.specs.Prelude.{[], ◌++◌, ◌/◌, ◌==◌, ◌↔◌, ◌∷◌, ◌≡◌, ℕ, Contains, Decides, IsSome, List, None, codes, false, map, replicate};
ghost use Rattle.std.specs.Cmp.Lexicographic.{slice_cmp};
ghost use Rattle.std.specs.List.{list_any};
ghost use Rattle.std.specs.Ordering.{is_lt, nat_cmp};
ghost use Rattle.percent_encoding.specs.Percent.{percent_decode};
ghost use Rattle.mail_codec.specs.Ascii.{backslash};
ghost use Rattle.mail_codec.specs.Charset.{Charsets};
ghost use Rattle.mail_codec.specs.Places.{begins};
ghost use Rattle.mailparse.specs.ContentType.{content_type_in};
ghost use Rattle.mailparse.specs.Continuations.{joined, parameters_in, possible_names};
ghost use Rattle.mailparse.specs.ExtendedValues.{candidates, charset_source, section_at, starred};
ghost use Rattle.mailparse.specs.Pairs.{Texts, last_of, pairs_of};
ghost use Rattle.mailparse.specs.Sections.{Section, octets};
ghost use Rattle.mailparse.specs.Segments.{AreSegments, segments, without_escapes};
ghost use Rattle.mailparse.specs.Views.{kind};
ghost use Rattle.mailparse.specs.contracts.disposition.DispositionTypePartialEq.TheImpl.{ghosts};
ghost use Rattle.mailparse.specs.declared.disposition.DispositionType.{DispositionType};
ghost use Rattle.mail_laws.specs.Boundaries.{IsAlphanumeric, boundary_type, one_text};
ghost use Rattle.mail_laws.specs.CharsetSources.{IsCandidate};
ghost use Rattle.mail_laws.specs.Escapes.{staying};
ghost use Rattle.mail_laws.specs.Percent.{is_percent};
ghost use Rattle.mail_laws.specs.Runs.{walked_after};
ghost use Rattle.mail_laws.specs.StarFree.{AreStarFree};

/// Exactly one list of segments fits a text: the computed one.
pub fn one_list_of_segments_fits()
    ensures fits { (text : List ℕ) → AreSegments text (segments text) }
    ensures only { (text : List ℕ) (found : List (List ℕ)) → AreSegments text found →
        found ≡ segments text }
{}

/// Between quotes, a character is removed exactly if it is a backslash at an odd position of its
/// run, that is, with no backslash or an even number of them directly before it; all others stay,
/// in order. So n / 2 backslashes, rounded down, stay of a run of n.
pub fn odd_backslashes_go()
    ensures places { (text : List ℕ) → without_escapes 0 text ≡ staying text }
    ensures runs { (n : ℕ) (rest : List ℕ) → begins (λ b. b == backslash) rest ≡ false →
        without_escapes 0 (replicate n backslash ++ rest)
        ≡ replicate (n / 2) backslash ++ without_escapes 0 rest }
{}

/// Percent decoding of a text without `%` gives its bytes.
pub fn percent_free()
    ensures { (text : List ℕ) → list_any is_percent text ≡ false → percent_decode text ≡ text }
{}

/// If no key contains a star, the parameters are the pairs, with the last one of equal keys,
/// whatever charsets are known.
pub fn pairs_without_stars_are_parameters()
    ensures { (known : Charsets) (pairs : List (List ℕ × List ℕ)) → AreStarFree pairs →
        (name : List ℕ) → parameters_in known pairs name ≡ last_of pairs name }
{}

/// The text that the sections of a value make is that of one walk over them, which collects the
/// bytes of extended sections up to a text or the end, and decodes them then, in the charset of the
/// last of them. So two adjacent extended sections make the text of one with the bytes of both.
pub fn runs_are_read_once()
    ensures walk { (sections : List Section) → joined sections ≡ walked_after None [] sections }
    ensures adjacent { (first last : List ℕ → List ℕ) (a b : List ℕ) (rest : List Section) →
        joined (octets first a ∷ octets last b ∷ rest) ≡ joined (octets last (a ++ b) ∷ rest) }
{}

/// The candidates for the charset source of a name are exactly the names of this form: they end in
/// `*0`; without the last `0` they are a prefix of the name; with a star after them they are keys;
/// and without that star they are not keys.
pub fn candidates_have_a_form()
    ensures { (keys : Texts) (name z : List ℕ) →
        Contains (candidates keys name) z ↔ IsCandidate keys name z }
{}

/// The charset source of a name is the greatest of its candidates: no other has a key that is later
/// in byte order. A name without a candidate is its own charset source.
pub fn charset_source_is_the_greatest()
    ensures greatest { (keys : Texts) (name z : List ℕ) → IsCandidate keys name z →
        IsCandidate keys name (charset_source keys name)
        × (is_lt (slice_cmp nat_cmp (starred (charset_source keys name)) (starred z)) ≡ false) }
    ensures own { (keys : Texts) (name : List ℕ) → ((z : List ℕ) → IsCandidate keys name z → ⊥) →
        charset_source keys name ≡ name }
{}

/// Whatever charsets are known, only the possible names have sections: the keys, and the keys
/// without their last byte.
pub fn only_possible_names_have_sections()
    ensures { (known : Charsets) (pairs : List (List ℕ × List ℕ)) (name : List ℕ) →
        IsSome (section_at known (last_of pairs) name) →
        Contains (possible_names (map (λ pair. pair.0) pairs)) name }
{}

/// A text of exactly `multipart/mixed; boundary=B`, where B is letters and digits, has one pair,
/// the boundary B, and names that type with that one parameter, whatever charsets are known.
pub fn plain_boundary_is_read()
    ensures pairs { (boundary : List ℕ) → IsAlphanumeric boundary →
        pairs_of (boundary_type boundary) ≡ (codes "boundary", boundary) ∷ [] }
    ensures named { (known : Charsets) (boundary : List ℕ) → IsAlphanumeric boundary →
        content_type_in known (boundary_type boundary)
        ≡ record {
          mimetype = codes "multipart/mixed";
          charset = codes "us-ascii";
          params = one_text (codes "boundary") boundary;
        } }
{}

/// Two dispositions are equal exactly if their kinds are equal and, for extensions, their texts.
pub fn dispositions_equal_by_kind()
    ensures { (a b : DispositionType) → Decides (ghosts.eq a b) (kind a ≡ kind b) }
{}
