//! The coder of these tests: a pile of quantiles, with room for a limited number of quantiles.

ghost use Rattle.std.specs.Prelude.{◌≡◌, ◌+◌, ◌-◌, ◌%◌, ◌<◌, ◌∷◌, ◌++◌, [], ℕ, vec_len, IsTrue, MatchResult};
ghost use Rattle.std.specs.Prelude.{alloc_error, Result, Ok, ⊤};
ghost use Rattle.std.specs.Bool.{OnFalse};
ghost use Rattle.constriction_base.specs.Tables.{Covers};
ghost use Rattle.constriction_base.specs.declared.errors.CoderError.{CoderError};
ghost use Rattle.constriction_base.specs.declared.errors.CoderError.TheVariants as coder_error;
ghost use Rattle.constriction_base.specs.declared.errors.DefaultEncoderFrontendError.TheVariants as frontend;
ghost use Rattle.constriction_stream.specs.Symbols.{HasRoom, never_backend};
ghost use Rattle.constriction_lower_tests.specs.declared.stream.pile.Empty.TheVariants as empty;

use constriction_base::errors::{CoderError, DefaultEncoderFrontendError};
use constriction_base::model::{DecoderModel, EncoderModel};
use constriction_stream::coder::Code;
use constriction_stream::decoding::Decode;
use constriction_stream::encoding::{Encode, EncodeReverse};
use constriction_words::WordOf;
use std::alloc::{AllocError, Global};

/// The error of a decode from an empty pile.
#[derive(Debug, Clone, Copy, PartialEq, Eq)]
pub enum Empty {
    Empty,
}

/// A coder that keeps its symbols' quantiles in a list. The last quantile is decoded first.
#[derive(Drop)]
pub struct Pile {
    pub quantiles: Vec<u32>,
    pub limit: usize,
}

impl Pile {
    pub fn new(alloc: Global, limit: usize) -> Pile
        ensures quantiles { result.quantiles.items ≡ [] }
        ensures limit { result.limit ≡ limit }
    {
        Pile {
            quantiles: Vec::new(alloc),
            limit,
        }
    }

    /// Returns whether the pile holds exactly `quantiles`.
    pub fn holds(&self, quantiles: &[u32]) -> bool {
        self.quantiles.as_slice() == quantiles
    }
}

impl Code for Pile {
    type Word = u32;

    type State = usize;

    ghost shows = { λ pile count. count ≡ vec_len pile.quantiles };

    fn state(&self) -> usize {
        self.quantiles.len()
    }
}

impl Encode<8> for Pile {
    type FrontendError = DefaultEncoderFrontendError;

    type BackendError = AllocError;

    ghost encodes = { λ old e result new. (new.limit ≡ old.limit)
        × MatchResult result
        (λ _. new.quantiles.items ≡ old.quantiles.items ++ e.left ∷ [])
        (λ error. (error ≡ coder_error.Backend alloc_error) × (new.quantiles.items ≡ old.quantiles.items)) };

    ghost is_impossible_symbol = { λ error. error ≡ frontend.ImpossibleSymbol };

    ghost counts_symbols = { ⊤ };

    ghost symbols_left = { λ pile. pile.limit - vec_len pile.quantiles };

    ghost is_lack_of_room = { λ _. ⊥ };

    ghost tells_room = { λ _. ⊤ };

    ghost never_impossible = { λ old step e new impossible given. never_backend e alloc_error given.1.0 };

    ghost never_full = { λ e impossible lack. lack };

    fn symbols_left(&self) -> usize {
        self.limit.saturating_sub(self.quantiles.len())
    }

    fn encode_symbol<M>(
        &mut self,
        symbol: &M::Symbol,
        model: M,
    ) -> Result<(), CoderError<DefaultEncoderFrontendError, AllocError>>
    where
        M: EncoderModel<8>,
        M::Probability: WordOf<u32>,
    {
        match model.left_cumulative_and_probability(symbol) {
            Some((left, _)) => {
                match self.quantiles.push(left.widen()) {
                    Ok(()) => Ok(()),
                    Err(error) => Err(CoderError::Backend(AllocError::from(error))),
                }
            }
            None => Err(CoderError::Frontend(DefaultEncoderFrontendError::ImpossibleSymbol)),
        }
    }

    fn maybe_full(&self) -> bool
        ensures room { OnFalse result (⊤ → HasRoom (⟦<Pile as Encode<8>>⟧.encodes)
            (⟦<Pile as Encode<8>>⟧.is_lack_of_room) self.now) }
        ensures promise { OnFalse result (vec_len self.now.quantiles < self.now.limit) }
        ensures full { self.now.limit ≡ vec_len self.now.quantiles → IsTrue result }
    {
        self.limit <= self.quantiles.len()
    }
}

impl EncodeReverse<8> for Pile {}

impl Decode<8> for Pile {
    type FrontendError = Empty;

    type BackendError = AllocError;

    ghost decodes = { λ old e result new. (result ≡ Ok tt) × (new.limit ≡ old.limit)
        × ((q : ℕ) × (old.quantiles.items ≡ new.quantiles.items ++ q ∷ []) × Covers e.left e.p (q % 256)) };

    ghost halts = { λ old error new. (error ≡ coder_error.Frontend empty.Empty) × (old.quantiles.items ≡ [])
        × (new.quantiles.items ≡ []) × (new.limit ≡ old.limit) };

    ghost has_data = { λ pile. 0 < vec_len pile.quantiles };

    ghost is_end_of_data = { λ error. error ≡ coder_error.Frontend empty.Empty };

    fn decode_symbol<M>(&mut self, model: M) -> Result<M::Symbol, CoderError<Empty, AllocError>>
    where
        M: DecoderModel<8>,
        M::Probability: WordOf<u32>,
    {
        match self.quantiles.pop() {
            Some(quantile) => {
                let (symbol, _, _) = model.quantile_function(M::Probability::narrow(
                    quantile % 256,
                ));
                Ok(symbol)
            }
            None => Err(CoderError::Frontend(Empty::Empty)),
        }
    }

    fn maybe_exhausted(&self) -> bool {
        self.quantiles.is_empty()
    }
}
