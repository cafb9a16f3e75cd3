//! Laws on lenient readings. Each function does nothing; its contract is the law.
ghost use Rattle.std.specs.Prelude.{◌≡◌, ◌≢◌, ℕ, true, [], List, Some, Ok, Err};
ghost use Rattle.mail_codec.specs.Charset.{Charsets};
ghost use Rattle.mailparse.specs.Block.{HeaderList, read_block};
ghost use Rattle.mailparse.specs.ContentType.{content_type_in};
ghost use Rattle.mailparse.specs.Mail.{kept_message, root};
ghost use Rattle.mailparse.specs.Refusal.{Refusal, recursion_limit};
ghost use Rattle.mailparse.specs.Value.{IsPlain, lenient_value_in};
ghost use Rattle.mail_read.specs.lenient.Agreement.{is_strict, is_strict_value};
ghost use Rattle.mail_read.specs.lenient.Manner.{lenient_type_from, lenient_type_in};
ghost use Rattle.mail_read.specs.lenient.Values.{header_text};
ghost use Rattle.mail_read.specs.lenient.Refused.{kept_for};

/// Says that a type is read leniently as the port reads it, if it has no comment, lacks nothing,
/// has no extended value, has a name of two words and no boundary that contains a line end. The
/// same is so of a raw value, if besides it has no encoded word that the port decodes.
pub fn types_agree()
    ensures texts { (known : Charsets) (text : List ℕ) → is_strict known text ≡ true →
        lenient_type_in known text ≡ content_type_in known text }
    ensures values { (known : Charsets) (value : List ℕ) → is_strict_value known value ≡ true →
        lenient_type_from known value ≡ content_type_in known (lenient_value_in known value) }
{}

/// Says that a plain header value, of printable ASCII that does not begin with a space and contains
/// no `=?`, is read leniently as the port reads it.
pub fn plain_values_agree()
    ensures { (known : Charsets) (value : List ℕ) → IsPlain value →
        header_text known value ≡ lenient_value_in known value }
{}

/// Says that a message that was kept, which has no block and all its bytes as its body, is reported
/// with the refusal of its block, or as too deep if the block is not refused.
pub fn refusals_are_reported()
    ensures whole { (bytes : List ℕ) → ((root (kept_message bytes)).block ≡ [])
        × ((root (kept_message bytes)).body ≡ bytes) }
    ensures refused { (bytes : List ℕ) (refusal : Refusal) → bytes ≢ [] →
        read_block true bytes ≡ Err refusal →
        kept_for (root (kept_message bytes)) ≡ Some refusal }
    ensures deep { (bytes : List ℕ) (block : HeaderList) → bytes ≢ [] →
        read_block true bytes ≡ Ok block →
        kept_for (root (kept_message bytes)) ≡ Some recursion_limit }
{}
