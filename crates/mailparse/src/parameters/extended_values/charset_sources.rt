//! Finds the charset source of each extended name.
ghost use Rattle.std.specs.Prelude.{◌≡◌, ◌≤◌, ◌<◌, ◌-◌, ℕ, length, map, slice_index_or, IfOk, if◌then◌else◌};
ghost use Rattle.mailparse.specs.private.CharsetSources.{AreInOrder, source_place, name_at, shared_len, shared_lens, is_candidate_for};
ghost use Rattle.mailparse.specs.private.ExtendedValues.{names_of};

use super::names::ExtendedName;
use mail_codec::charset::Decode;
use std::alloc::{AllocError, Global};

/// Returns the length of the common prefix of two names.
fn shared_len(left: &[u8], right: &[u8]) -> usize
    ensures { result ≡ shared_len left.now right.now }
{
    left.iter()
        .zip(right)
        .take_while(|(one, other)| one == other)
        .count()
}

/// Returns the length of the common prefix of each name and the next, so that long names with a
/// common prefix are compared once and not for each candidate.
fn shared_lens<C: Decode>(
    alloc: Global,
    extended: &[ExtendedName<'_, C>],
) -> Result<Vec<usize>, AllocError>
    ensures { IfOk result (λ shared. shared.items ≡ shared_lens extended.now) }
{
    let mut shared = Vec::with_capacity(alloc, extended.len())?;
    let pairs = extended.iter().zip(extended.iter().skip(1));
    shared.extend(pairs.map(|(one, next)| shared_len(one.name.as_bytes(), next.name.as_bytes())))?;
    Ok(shared)
}

/// Returns the least index from which on, up to `place`, each name shares `len` bytes with the
/// next.
fn first_with(shared: &[usize], place: usize, len: usize) -> usize
    requires within { place ≤ length shared.now }
    ensures bounds { result ≤ place }
    ensures all { (k : ℕ) → result ≤ k → k < place → len ≤ slice_index_or shared.now k 0 }
    ensures first { 0 < result → slice_index_or shared.now (result - 1) 0 < len }
{
    let mut first = place;
    while first > 0 && shared[first - 1] >= len {
        first -= 1;
    }
    first
}

/// Returns the greatest index up to which, from `place` on, each name shares `len` bytes with the
/// next.
fn last_with(shared: &[usize], place: usize, len: usize) -> usize
    requires within { place ≤ length shared.now }
    ensures bounds { (place ≤ result) × (result ≤ length shared.now) }
    ensures all { (k : ℕ) → place ≤ k → k < result → len ≤ slice_index_or shared.now k 0 }
    ensures last { result < length shared.now → slice_index_or shared.now result 0 < len }
{
    let mut last = place;
    while last < shared.len() && shared[last] >= len {
        last += 1;
    }
    last
}

/// Returns the list of 0 to `count - 1`: at first each name is its own source.
fn own_places(alloc: Global, count: usize) -> Result<Vec<usize>, AllocError>
    ensures len { IfOk result (λ places. length places.items ≡ count) }
    ensures own { IfOk result (λ places. (k : ℕ) → k < count → slice_index_or places.items k 0
        ≡ k) }
{
    let mut places = Vec::with_capacity(alloc, count)?;
    let mut place = 0;
    while place < count {
        places.push(place)?;
        place += 1;
    }
    Ok(places)
}

/// Sets `places` from index `first` up to, but not including, `end` to `place`.
fn write_range(places: &mut Vec<usize>, first: usize, end: usize, place: usize)
    requires order { first ≤ end }
    requires within { end ≤ length places.old.items }
    ensures len { length places.new.items ≡ length places.old.items }
    ensures before { (k : ℕ) → k < first → slice_index_or places.new.items k 0
        ≡ slice_index_or places.old.items k 0 }
    ensures inside { (k : ℕ) → first ≤ k → k < end → slice_index_or places.new.items k 0 ≡ place }
    ensures after { (k : ℕ) → end ≤ k → slice_index_or places.new.items k 0
        ≡ slice_index_or places.old.items k 0 }
{
    let mut at = first;
    while at < end {
        places[at] = place;
        at += 1;
    }
}

/// If the name at `place` is that of an initial section, makes it the charset source of the names
/// that begin with it, less its last byte.
#[tactic(auto, using(crate::proofs::lemmas::CharsetSourcesRanges::offers))]
fn offer<C: Decode>(
    places: &mut Vec<usize>,
    extended: &[ExtendedName<'_, C>],
    shared: &[usize],
    place: usize,
)
    requires within { place < length extended.now }
    requires shared { shared.now ≡ shared_lens extended.now }
    requires capacity { length places.old.items ≡ length extended.now }
    ensures len { length places.new.items ≡ length places.old.items }
    ensures offered { AreInOrder (names_of extended.now) → (k : ℕ) → k < length extended.now →
        slice_index_or places.new.items k 0
        ≡ (if is_candidate_for (name_at (names_of extended.now) place)
        (name_at (names_of extended.now) k)
        then place else slice_index_or places.old.items k 0) }
{
    let name = extended[place].name.as_bytes();
    if !name.ends_with(b"*0") {
        return;
    }
    let len = name.len() - 1;
    let first = first_with(shared, place, len);
    let last = last_with(shared, place, len);
    write_range(places, first, last + 1, place);
}

/// Returns the index of the charset source of each name: that of its last candidate, otherwise its
/// own.
pub(super) fn charset_sources<C: Decode>(
    alloc: Global,
    extended: &[ExtendedName<'_, C>],
) -> Result<Vec<usize>, AllocError>
    ensures len { IfOk result (λ places. length places.items ≡ length extended.now) }
    ensures sources { AreInOrder (names_of extended.now) → IfOk result (λ places. (k : ℕ) →
        k < length extended.now →
        slice_index_or places.items k 0
        ≡ source_place (names_of extended.now) (length extended.now) k) }
{
    let shared = shared_lens(alloc, extended)?;
    let mut places = own_places(alloc, extended.len())?;
    let mut place = 0;
    while place < extended.len() {
        offer(&mut places, extended, shared.as_slice(), place);
        place += 1;
    }
    Ok(places)
}
