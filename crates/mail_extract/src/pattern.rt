//! Patterns in which `*` fits any text.
ghost use Rattle.std.specs.Prelude.{◌≡◌, ◌+◌, ◌-◌, ◌<◌, IfOk, ℕ, List, [], ◌∷◌, drop, length};
ghost use Rattle.mail_extract.specs.Choice.{fits};
ghost use Rattle.mail_extract.specs.private.Fits.{IsRow};

use std::alloc::{AllocError, Global};

/// Returns whether a text fits a pattern.
pub(crate) fn fits(alloc: Global, pattern: &[u8], text: &[u8]) -> Result<bool, AllocError>
    ensures { IfOk result (λ is. is ≡ fits pattern.now text.now) }
{
    let mut row = empty_row(alloc, text)?;
    let mut left = pattern.len();
    'left: while left > 0 {
        left -= 1;
        row = next_row(alloc, row.as_slice(), pattern[left], text)?;
    }
    Ok(row[text.len()])
}

/// Returns which rests of a text are empty, the shortest first.
fn empty_row(alloc: Global, text: &[u8]) -> Result<Vec<bool>, AllocError>
    ensures { IfOk result (λ row. IsRow (fits []) text.now (length text.now + 1) row.items) }
{
    let mut row = Vec::new(alloc);
    row.push(true)?;
    for _byte in text {
        row.push(false)?;
    }
    Ok(row)
}

/// Returns which rests of a text fit a pattern, the shortest first, given those that fit the
/// pattern without its first character.
fn next_row(alloc: Global, before: &[bool], first: u8, text: &[u8]) -> Result<Vec<bool>, AllocError>
    requires { length before.now ≡ length text.now + 1 }
    ensures { IfOk result (λ row. (rest : List ℕ)
        → IsRow (fits rest) text.now (length text.now + 1) before.now
        → IsRow (fits (first ∷ rest)) text.now (length text.now + 1) row.items) }
{
    let mut row = Vec::new(alloc);
    for count in 0..before.len() {
        row.push(is_next(before, row.as_slice(), first, text))?;
    }
    Ok(row)
}

/// Returns whether the next rest fits the pattern, given those shorter ones that fit it.
fn is_next(before: &[bool], shorter: &[bool], first: u8, text: &[u8]) -> bool
    requires whole { length before.now ≡ length text.now + 1 }
    requires shorter { length shorter.now < length before.now }
    ensures { (rest : List ℕ)
        → IsRow (fits rest) text.now (length text.now + 1) before.now
        → IsRow (fits (first ∷ rest)) text.now (length shorter.now) shorter.now
        → result ≡ fits (first ∷ rest) (drop (length text.now - length shorter.now) text.now) }
{
    let count = shorter.len();
    if count == 0 {
        return first == b'*' && before[0];
    }
    if first == b'*' {
        before[count] | shorter[count - 1]
    } else {
        text[text.len() - count].eq_ignore_ascii_case(&first) & before[count - 1]
    }
}
