//! The headers of a block: how many there are, and the ranges of their bytes, keys and values.
ghost use Rattle.std.specs.Prelude.{◌++◌, ◌<◌, ◌≡◌, ◌≤◌, ℕ, Bool, List, Ok, length, suc, take};
ghost use Rattle.mail_codec.specs.Places.{least, values_below};
ghost use Rattle.mailparse.specs.Block.{HeaderList, header_count, read_headers};
ghost use Rattle.mailparse.specs.Header.{Header, read_header};
ghost use Rattle.mail_laws.specs.Least.{IsLeast};
ghost use Rattle.mail_laws.specs.Spans.{AreOrderedBefore, blank_span, header_at, header_spans, key_range, value_range};

/// `least` gives the least number that passes a test, or the bound, and no other number is the
/// least. It is at most the bound, it passes if it is below the bound, and no number below it
/// passes.
pub fn least_is_least()
    ensures least { (test : ℕ → Bool) (bound : ℕ) → IsLeast test bound (least test bound) }
    ensures only { (test : ℕ → Bool) (bound n : ℕ) → IsLeast test bound n → n ≡ least test bound }
{}

/// A header that is read takes at least one byte and at most the input.
pub fn header_consumes()
    ensures { (raw : List ℕ) (header : Header) (taken : ℕ) → read_header raw ≡ Ok (header, taken) →
        (0 < taken) × (taken ≤ length raw) }
{}

/// The bytes of the headers, one after another, and those of the blank line after them, if there is
/// one, are exactly the input up to the index of the block.
pub fn block_covers()
    ensures { (raw : List ℕ) (block : HeaderList) → read_headers raw ≡ Ok block →
        header_spans raw ++ blank_span raw ≡ take block.index raw }
{}

/// The key and the value of each header of a block are the bytes of their ranges. In each header
/// the range of the key comes first, then that of the value, and then the next header; all are
/// before the index of the block.
pub fn keys_and_values_are_disjoint()
    ensures bytes { (raw : List ℕ) (block : HeaderList) → read_headers raw ≡ Ok block →
        block.headers ≡ values_below (header_count raw) (header_at raw) }
    ensures apart { (raw : List ℕ) (j : ℕ) →
        AreOrderedBefore (key_range raw j) (value_range raw j) (key_range raw (suc j)).start }
    ensures bounds { (raw : List ℕ) (block : HeaderList) (j : ℕ) → read_headers raw ≡ Ok block →
        j < header_count raw → (value_range raw j).end ≤ block.index }
{}
