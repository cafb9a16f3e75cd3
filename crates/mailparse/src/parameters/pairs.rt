//! The pairs of a key and a value in a text (RFC 2045, section 5.1).
ghost use Rattle.std.specs.Prelude.{◌≡◌, IfOk, option_map};
ghost use Rattle.mailparse.specs.Pairs.{HasTexts, last_of, pair_of, pairs_in};
ghost use Rattle.mailparse.specs.private.Pairs.{pair_view};
ghost use Rattle.mailparse.specs.Segments.{segments_of_rest};

use super::segments::{cut_segment, unescape};
use super::trimmed::trimmed;
use crate::ascii_case::lower_case;
use std::alloc::{AllocError, Global};
use std::collections::BTreeMap;

/// Reads the key and the value of a segment, or returns `None` if it contains no `=`.
#[tactic(auto, using(crate::proofs::lemmas::Pairs::pair_readings))]
fn pair(alloc: Global, segment: &str) -> Result<Option<(String, String)>, AllocError>
    ensures { IfOk result (λ found. option_map pair_view found ≡ pair_of segment.now) }
{
    let Some((key, value)) = segment.split_once('=') else {
        return Ok(None);
    };
    let key = lower_case(alloc, trimmed(key))?;
    Ok(Some((key, unescape(alloc, trimmed(value))?)))
}

/// Reads the pairs of the segments in `rest`, by key. Of equal keys the last is kept.
pub(super) fn pairs(
    alloc: Global,
    rest: Option<&str>,
) -> Result<BTreeMap<String, String>, AllocError>
    ensures { IfOk result (λ m. HasTexts m (last_of (pairs_in (segments_of_rest rest.entry)))) }
{
    let mut found = BTreeMap::new(alloc);
    let mut left = rest;
    while let Some(text) = left {
        let (segment, rest) = cut_segment(text);
        if let Some((key, value)) = pair(alloc, segment)? {
            found.insert(key, value)?;
        }
        left = rest;
    }
    Ok(found)
}
