//! The words of a date.
ghost use Rattle.std.specs.Prelude.{◌≡◌, ◌<◌, ◌≤◌, [], ◌∷◌, not, length, IfSome, MatchOption};
ghost use Rattle.std.specs.List.{prefix_len};
ghost use Rattle.mailparse.specs.Date.{is_separator, words};

/// Returns the first word of a text, and the text after it.
#[tactic(auto, using(crate::proofs::lemmas::Date::next_words))]
pub(super) fn next_word(text: &str) -> Option<(&str, &str)>
    ensures first { MatchOption result (words text.now ≡ [])
        (λ p. words text.now ≡ p.0.now ∷ words p.1.now) }
    ensures shorter { IfSome result (λ p. length p.1.now < length text.now) }
{
    let start = separators(text.as_bytes());
    let rest = &text[start..];
    let end = word_length(rest.as_bytes());
    if end == 0 {
        return None;
    }
    Some(rest.split_at(end))
}

/// Returns the number of separators at the front.
fn separators(bytes: &[u8]) -> usize
    ensures value { result ≡ prefix_len is_separator bytes.now }
    ensures bounds { result ≤ length bytes.now }
{
    for (place, byte) in bytes.iter().enumerate() {
        if !is_separator(*byte) {
            return place;
        }
    }
    bytes.len()
}

/// Returns the number of bytes before the first separator.
fn word_length(bytes: &[u8]) -> usize
    ensures value { result ≡ prefix_len (λ b. not (is_separator b)) bytes.now }
    ensures bounds { result ≤ length bytes.now }
{
    for (place, byte) in bytes.iter().enumerate() {
        if is_separator(*byte) {
            return place;
        }
    }
    bytes.len()
}

/// Returns whether a byte separates two words.
fn is_separator(byte: u8) -> bool
    ensures { result ≡ is_separator byte }
{
    byte == b' ' || byte == b':'
}
