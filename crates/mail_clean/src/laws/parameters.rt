//! The meaning of plain types and dispositions.
ghost use Rattle.std.specs.Prelude.{◌≡◌, ℕ, List, true};
ghost use Rattle.std.specs.List.{list_all};
ghost use Rattle.mail_codec.specs.Charset.{Charsets};
ghost use Rattle.mailparse.specs.ContentType.{content_type_in};
ghost use Rattle.mailparse.specs.Disposition.{disposition_in};
ghost use Rattle.mailparse.specs.Value.{lenient_value_in};
ghost use Rattle.mail_check_laws.specs.Charsets.{is_ascii_byte};
ghost use Rattle.mail_grammar.specs.PlainParameters.{IsPlainDisposition, IsPlainType};
ghost use Rattle.mail_grammar.specs.PlainValues.{IsDispositionOf, IsTypeOf, Parameters};
ghost use Rattle.mail_grammar.specs.PlainValues.{meant_disposition, meant_type};

/// The value of a `Content-Type` that is ASCII and of the grammar of plain values, folded or not, is
/// read as the type that it means, whatever charsets are known: the name is in lower case, each name
/// of a parameter has the text that the value gives it and no other name has one, and the charset is
/// the parameter `charset`, otherwise `us-ascii`.
pub fn plain_types_are_read()
    ensures { (known : Charsets) (mimetype : List ℕ) (parameters : Parameters) (value : List ℕ) →
        list_all is_ascii_byte value ≡ true → IsTypeOf mimetype parameters value →
        content_type_in known (lenient_value_in known value) ≡ meant_type mimetype parameters }
{}

/// The value of a `Content-Disposition` that is ASCII and of this grammar is read as the disposition
/// that it means, whatever charsets are known: its kind is that of the name in lower case, and its
/// parameters are so, too.
pub fn plain_dispositions_are_read()
    ensures { (known : Charsets) (name : List ℕ) (parameters : Parameters) (value : List ℕ) →
        list_all is_ascii_byte value ≡ true → IsDispositionOf name parameters value →
        disposition_in known (lenient_value_in known value) ≡ meant_disposition name parameters }
{}

/// The types and dispositions that are plain in strict mails are exactly the values of the grammar of
/// plain values, and none that is ASCII has two names or two lists of parameters by it.
pub fn plain_values_have_one_meaning()
    ensures types { (value : List ℕ) → IsPlainType value →
        (mimetype : List ℕ) × (parameters : Parameters) × IsTypeOf mimetype parameters value }
    ensures dispositions { (value : List ℕ) → IsPlainDisposition value →
        (name : List ℕ) × (parameters : Parameters) × IsDispositionOf name parameters value }
    ensures plain_types { (mimetype : List ℕ) (parameters : Parameters) (value : List ℕ) →
        IsTypeOf mimetype parameters value → IsPlainType value }
    ensures plain_dispositions { (name : List ℕ) (parameters : Parameters) (value : List ℕ) →
        IsDispositionOf name parameters value → IsPlainDisposition value }
    ensures one_type { (mimetype other : List ℕ) (parameters others : Parameters)
        (value : List ℕ) →
        list_all is_ascii_byte value ≡ true → IsTypeOf mimetype parameters value →
        IsTypeOf other others value → (mimetype ≡ other) × (parameters ≡ others) }
    ensures one_disposition { (name other : List ℕ) (parameters others : Parameters)
        (value : List ℕ) →
        list_all is_ascii_byte value ≡ true → IsDispositionOf name parameters value →
        IsDispositionOf other others value → (name ≡ other) × (parameters ≡ others) }
{}
