//! The parameters of a value (RFC 2045, section 5.1; RFC 2231, sections 3 and 4).
ghost use Rattle.std.specs.Prelude.{◌≡◌, IfOk};
ghost use Rattle.mailparse.specs.Continuations.{parameters_in};
ghost use Rattle.mailparse.specs.Pairs.{HasTexts, pairs_of, value_of};

mod continuations;
mod extended_values;
mod pairs;
mod sections;
pub(crate) mod segments;
mod trimmed;

use continuations::resolve;
use mail_codec::charset::KnownCharsets;
use pairs::pairs;
use segments::cut_segment;
use std::alloc::{AllocError, Global};
use std::collections::BTreeMap;
use trimmed::trimmed;

/// Reads a text with parameters: returns its value, trimmed, and the parameters by name.
#[tactic(auto, using(crate::proofs::lemmas::Pairs::values_and_pairs))]
pub(crate) fn parameters<'p, K: KnownCharsets>(
    alloc: Global,
    text: &'p str,
    known: &K,
) -> Result<(&'p str, BTreeMap<String, String>), AllocError>
    ensures value { IfOk result (λ found. found.0.now ≡ value_of text.now) }
    ensures params { IfOk result (λ found.
        HasTexts found.1 (parameters_in (K.known known.now) (pairs_of text.now))) }
{
    let (value, rest) = cut_segment(text);
    let pairs = pairs(alloc, rest)?;
    Ok((trimmed(value), resolve(alloc, pairs, known)?))
}
