//! Positions of a coder: the positions of both backends, and the heads.

ghost use Rattle.constriction_chain.specs.Chain.{at_heads, value_of};
ghost use Rattle.std.proofs.Common.{inl, inr};
ghost use Rattle.std.specs.Prelude.{◌≡◌, ◌⊎◌};

use crate::coder::ChainCoder;
use crate::heads::ChainCoderHeads;
use constriction_base::backends::{Holds, Pos, PosSeek, Seek, SeeksBack, Stack};
use constriction_words::{BitArray, WordOf};

/// The positions of a coder's two backends. The coder's `pos` returns them together with the heads.
#[derive(Debug, Clone, Copy, PartialEq, Eq, Hash, Drop)]
pub struct BackendPosition<CompressedPosition, RemaindersPosition> {
    /// The position of the compressed backend.
    pub compressed: CompressedPosition,
    /// The position of the remainders' backend.
    pub remainders: RemaindersPosition,
}

impl<
    Word: WordOf<State>,
    State: BitArray,
    C: Holds<Word, Stack> + PosSeek,
    R: Holds<Word, Stack> + PosSeek,
    const PRECISION: usize,
> PosSeek for ChainCoder<Word, State, C, R, PRECISION> {
    /// The backends' positions and the heads.
    type Position = (
        BackendPosition<C::Position, R::Position>,
        ChainCoderHeads<Word, State, PRECISION>,
    );
}

impl<
    Word: WordOf<State>,
    State: BitArray,
    C: Holds<Word, Stack> + Pos,
    R: Holds<Word, Stack> + Pos,
    const PRECISION: usize,
> Pos for ChainCoder<Word, State, C, R, PRECISION> {
    ghost stands_at = { λ coder position. C.stands_at coder.compressed position.0.compressed
        × R.stands_at coder.remainders position.0.remainders
        × (Word.number position.1.0 ≡ coder.state.h) × (State.number position.1.1 ≡ coder.state.r) };

    ghost can_tell = { λ coder. C.can_tell coder.compressed × R.can_tell coder.remainders };

    /// Returns the backends' positions and the heads.
    ///
    /// The caller proves that both backends can return their positions (`can_tell`). Vectors and cursors always can.
    fn pos(
        &self,
    ) -> (
        BackendPosition<C::Position, R::Position>,
        ChainCoderHeads<Word, State, PRECISION>,
    ) {
        (
            BackendPosition {
                compressed: self.compressed.pos(),
                remainders: self.remainders.pos(),
            },
            self.heads,
        )
    }
}

impl<
    Word: WordOf<State>,
    State: BitArray,
    C: Holds<Word, Stack> + Seek,
    R: Holds<Word, Stack> + Seek,
    const PRECISION: usize,
> Seek for ChainCoder<Word, State, C, R, PRECISION> {
    ghost can_seek = { λ coder position. C.can_seek coder.compressed position.0.compressed
        × R.can_seek coder.remainders position.0.remainders };

    ghost seek_fails = { λ coder position. C.seek_fails coder.compressed position.0.compressed
        ⊎ R.seek_fails coder.remainders position.0.remainders };

    ghost sought = { λ old position new. C.sought old.compressed position.0.compressed new.compressed
        × R.sought old.remainders position.0.remainders new.remainders
        × (new ≡ at_heads Word.number State.number C.Holds R.Holds position.1 new.compressed new.remainders) };

    ghost stays = { λ old position new. (new ≡ value_of Word.number C.Holds R.Holds old.state.h old.state.r
        new.compressed new.remainders)
        × ((C.stays old.compressed position.0.compressed new.compressed × (new.remainders ≡ old.remainders))
        ⊎ (C.sought old.compressed position.0.compressed new.compressed
        × R.stays old.remainders position.0.remainders new.remainders)) };

    /// Moves the coder to a recorded position. The compressed backend seeks first, and then the remainders' backend.
    ///
    /// # Errors
    ///
    /// Returns `Err(())` if one of the backends refuses to seek to its position. The heads are unchanged. If the
    /// remainders' backend refuses, the compressed backend has already moved.
    ///
    /// # Examples
    ///
    /// ```
    /// let position = coder.pos();
    /// let symbol = coder.decode_symbol(&table)?;
    /// coder.seek(position);                    // Ok(()) if the compressed backend is a `Cursor`
    /// coder.decode_symbol(&table)?;            // `symbol` again
    /// ```
    fn seek(
        &mut self,
        position: (
            BackendPosition<C::Position, R::Position>,
            ChainCoderHeads<Word, State, PRECISION>,
        ),
    ) -> Result<(), ()> {
        let (places, heads) = position;
        let BackendPosition {
            compressed,
            remainders,
        } = places;
        match self.compressed.seek(compressed) {
            Ok(()) => {}
            Err(()) => return Err(()),
        }
        match self.remainders.seek(remainders) {
            Ok(()) => {}
            Err(()) => return Err(()),
        }
        self.heads = heads;
        Ok(())
    }
}

impl<
    Word: WordOf<State>,
    State: BitArray,
    C: Holds<Word, Stack> + SeeksBack,
    R: Holds<Word, Stack> + SeeksBack,
    const PRECISION: usize,
> SeeksBack for ChainCoder<Word, State, C, R, PRECISION> {
    ghost reach_law = { λ coder position stands. (
      C.reach_law coder.compressed position.0.compressed stands.0,
      R.reach_law coder.remainders position.0.remainders stands.1,
    ) };

    ghost accept_law = { λ coder position stands fails. elim fails [
      | inl first ↦ C.accept_law coder.compressed position.0.compressed stands.0 first
      | inr second ↦ R.accept_law coder.remainders position.0.remainders stands.1 second
    ] };
}
