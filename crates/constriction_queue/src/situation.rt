//! `EncoderSituation`: the pending words of an encoder, which a later symbol may still change.

ghost use Rattle.std.specs.Prelude.{◌≡◌, ◌+◌, ◌<◌, ◌^◌};
ghost use Rattle.std.specs.Int.NonZero.{non_zero_usize_get};
ghost use Rattle.constriction_queue.specs.declared.situation.EncoderSituation.TheVariants.{Normal};

use std::num::NonZeroUsize;

/// The pending words of an encoder.
///
/// The encoder holds these words back, because a later symbol may still add 1 to them (a carry). Words are pending
/// while the interval's lower end plus its length is at least `2^State::BITS`.
///
/// # Examples
///
/// ```
/// let (bulk, state, situation) = encoder.into_raw_parts();
/// situation == EncoderSituation::Normal; // true for a new encoder
/// ```
#[derive(Debug, Clone, Copy, PartialEq, Eq)]
pub enum EncoderSituation<Word> {
    /// No word is pending.
    Normal,
    /// The number of pending words, and the first of them. All bits of the other pending words are ones.
    Inverted(NonZeroUsize, Word),
}

impl<Word> Default for EncoderSituation<Word> {
    ghost is_default = { λ situation. situation ≡ Normal };

    /// Returns [`EncoderSituation::Normal`], which means that no word is pending.
    fn default() -> Self {
        EncoderSituation::Normal
    }
}

/// Words that no later carry can change, so the encoder can write them.
///
/// `count` is the number of words, and `first` is the first word. Each other word equals `others`.
#[derive(Drop, Debug, Clone, Copy)]
pub struct ReleasedWords<Word> {
    pub count: NonZeroUsize,
    pub first: Word,
    pub others: Word,
}

/// Converts `count`, which isn't 0, to a `NonZeroUsize`.
#[inline]
pub(crate) fn nonzero_count(count: usize) -> NonZeroUsize
    requires { 0 < count }
    ensures { non_zero_usize_get result ≡ count }
{
    match NonZeroUsize::new(count) {
        Some(count) => count,
        None => unreachable!(),
    }
}
