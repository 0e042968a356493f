//! The step of an encode for an interval that the caller already has.

ghost use Rattle.constriction_base.specs.Steps.{IsStep};
ghost use Rattle.constriction_chain.specs.Steps.{EncodeCall};
ghost use Rattle.constriction_words.specs.Reciprocals.{IsReciprocalOf};
ghost use Rattle.std.specs.Prelude.{IfSome};

use crate::coder::ChainCoder;
use crate::errors::EncoderError;
use crate::halves::give;
use constriction_base::backends::{ReadWords, Stack, WriteWords};
use constriction_words::{BitArray, Reciprocal, WordOf};

impl<
    Word: WordOf<State>,
    State: BitArray,
    C: WriteWords<Word>,
    R: ReadWords<Word, Stack>,
    const PRECISION: usize,
> ChainCoder<Word, State, C, R, PRECISION> {
    /// Encodes the symbol whose interval begins at quantile `left` and has the length `p`.
    ///
    /// `encode_symbol` asks a model for these numbers. A caller who already has them doesn't need a model. If the
    /// caller also has the reciprocal of `p`, the coder multiplies instead of dividing by `p`.
    ///
    /// The caller proves that the interval isn't empty and ends at or below `2^PRECISION`, and that `reciprocal`, if
    /// there is one, is the reciprocal of `p`.
    ///
    /// # Errors
    ///
    /// The call returns the errors of `encode_symbol`, except `ImpossibleSymbol`. After an error, the heads are
    /// unchanged.
    ///
    /// # Examples
    ///
    /// ```
    /// // The same step as that of symbol 1 under a model with the weights 255 and 1.
    /// if let Some(p) = NonZero::<u8>::new(1) {
    ///     coder.encode_interval::<u8>(255, p, None)?;
    /// }
    /// ```
    #[inline(always)]
    pub fn encode_interval<P: WordOf<Word>>(
        &mut self,
        left: P,
        p: P::NonZero,
        reciprocal: Option<Reciprocal>,
    ) -> Result<(), EncoderError<C::WriteError, R::ReadError>>
        requires step { IsStep Word.BITS
            record { precision = PRECISION; left = P.number left; p = P.nonzero_number p } }
        requires reciprocal { IfSome reciprocal (λ r. IsReciprocalOf r (P.nonzero_number p)) }
        ensures { EncodeCall Word.number C.Holds C.WriteWords.own R.Holds R.ReadWords.own Word.BITS State.BITS self.old
            record { precision = PRECISION; left = P.number left; p = P.nonzero_number p } result self.new }
    {
        let (mut h, mut r) = self.heads.numbers();
        let (left, p) = (left.widen(), P::from_nonzero(p).widen());
        match give(
            &mut self.compressed,
            &mut self.remainders,
            &mut h,
            &mut r,
            left,
            p,
            reciprocal,
            PRECISION as u32,
        ) {
            Ok(()) => {
                self.heads.replace(h, r);
                Ok(())
            }
            Err(error) => Err(error),
        }
    }
}
