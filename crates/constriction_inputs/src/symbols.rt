//! [`Symbols`]: items that a caller passes as symbols and models.

ghost use Rattle.std.specs.Prelude.{length};
ghost use Rattle.constriction_base.specs.Models.{pairs_of};

use crate::items::{ItemList, Items};
use crate::models::{EncoderModels, ModelList};
use crate::refusal::Refusal;
use crate::symbol::Symbol;
use constriction_words::{BitArray, Reciprocal};
use std::alloc::Global;

/// Symbols, and the models that describe them. `models` has a model for each symbol.
///
/// # Examples
///
/// ```
/// let items = Symbols { models: Weights { weights: &[255u8, 1] }, symbols: &[0u8, 1, 0] };
/// ```
#[derive(Drop)]
pub struct Symbols<'a, G, S> {
    pub models: G,
    pub symbols: &'a [S],
}

/// Symbols with a list of models, ready to encode. The items are the pairs up to the end of the shorter list.
///
/// The type parameters have no bounds, so a proof that mentions this type spells none of their implementations.
#[derive(Drop)]
pub struct SymbolList<'a, L, S> {
    models: L,
    symbols: &'a [S],
}

impl<'a, P: BitArray, G: EncoderModels<P, PRECISION>, S: Symbol, const PRECISION: usize> Items<
    P,
    PRECISION,
> for Symbols<'a, G, S> {
    type List = SymbolList<'a, G::List, S>;

    ghost coded = { λ given. G.coded given.models (S.numbers given.symbols.now) };

    ghost item_count = { λ given. length given.symbols.now };

    #[inline]
    fn count(&self) -> usize {
        self.symbols.len()
    }

    fn check(&self) -> Result<(), Refusal> {
        self.models.check(self.symbols.len())
    }

    fn know(&self) -> bool {
        self.models.know(self.symbols)
    }

    #[inline]
    fn list(&self, alloc: Global, divides: bool) -> Option<SymbolList<'a, G::List, S>> {
        match self.models.list(alloc, self.symbols.len(), divides) {
            Some(models) => Some(SymbolList {
                models,
                symbols: self.symbols,
            }),
            None => None,
        }
    }
}

impl<'a, P: BitArray, L: ModelList<P, PRECISION>, S: Symbol, const PRECISION: usize> ItemList<
    P,
    PRECISION,
> for SymbolList<'a, L, S> {
    const LOOKS_AHEAD: bool = L::LOOKS_AHEAD;

    ghost list_items = { λ list. pairs_of PRECISION (λ table. table) (S.numbers list.symbols.now)
        (L.tables list.models) };

    #[inline]
    fn count(&self) -> usize {
        self.symbols.len().min(self.models.count())
    }

    #[inline(always)]
    fn interval(
        &mut self,
        place: usize,
    ) -> Option<(P, <P as BitArray>::NonZero, Option<Reciprocal>)> {
        let symbol = S::number_at(self.symbols, place);
        match self.models.interval(place, symbol) {
            Some(found) => Some(found),
            None => None,
        }
    }
}
