//! Labels of charsets that may be missing or unknown.
ghost use Rattle.mail_read.specs.lenient.Guess.{guessed, or_guessed};

use super::texts::charset_by_bytes;
use either::Either;
use mail_codec::charset::{Decode, KnownCharsets};
use std::alloc::{AllocError, Global};

/// Reads bytes in UTF-8 if they are UTF-8, and otherwise in windows-1252.
#[derive(Clone, Copy)]
pub(crate) struct Guess;

impl Decode for Guess {
    ghost text = { λ _. guessed };

    #[tactic(auto, unfolding(crate::specs::lenient::Guess::guessed))]
    fn decode_without_bom_handling(
        self,
        alloc: Global,
        bytes: &[u8],
    ) -> Result<String, AllocError> {
        charset_by_bytes(bytes).decode_without_bom_handling(alloc, bytes)
    }
}

/// Knows these charsets, and under every other label the reading of `Guess`.
#[derive(Drop)]
pub(crate) struct OrGuess<'k, K>(pub(crate) &'k K);

impl<'k, K: KnownCharsets> KnownCharsets for OrGuess<'k, K> {
    type Decoder = Either<K::Decoder, Guess>;

    ghost known = { λ s. or_guessed (K.known s.0.now) };

    fn for_label(&self, label: &[u8]) -> Option<Either<K::Decoder, Guess>> {
        match self.0.for_label(label) {
            Some(charset) => Some(Either::Left(charset)),
            None => Some(Either::Right(Guess)),
        }
    }
}
