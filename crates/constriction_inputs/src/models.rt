//! The forms in which a caller passes the models of a list of symbols, and the models made from these forms.
//!
//! - [`Weights`]: one table of weights for all symbols.
//! - [`NarrowWeights`]: the same for symbols of a type with few values, such as bytes.
//! - [`Rows`]: a row of weights for each symbol.
//! - [`Indexed`]: tables of weights, and the index of a table for each symbol.
//! - [`Counts`]: a row of counts for each symbol.
//! - [`Families`]: a family of distributions, with a location and a scale for each symbol.
//! - [`Mixtures`]: a row of distributions of one family for each symbol, and a weight for each distribution.

pub mod count_row;
mod counts;
mod families;
mod guided;
mod indexed;
pub mod located_family;
mod mixtures;
mod narrow_weights;
pub mod row_lookup;
mod rows;
pub mod table_or_row;
pub mod table_or_rows;
pub mod weights;
pub mod weights_model;

ghost use Rattle.std.specs.Prelude.{◌≡◌, ◌↔◌, ◌<◌, ◌≤◌, ℕ, List, [], get_or, length, map};
ghost use Rattle.std.specs.Prelude.{IfNone, IfOk, IfSome, IsTrue};
ghost use Rattle.constriction_base.specs.Models.{AreKnown};
ghost use Rattle.constriction_base.specs.Tables.{Impossible};
ghost use Rattle.constriction_inputs.specs.Coded.{AreFit, AreTablesFor, AsksFit, Coded, items};
ghost use Rattle.constriction_inputs.specs.Items.{IsEntryOf};
ghost use Rattle.constriction_inputs.specs.Refusals.{Otherwise, NoRefusal};
ghost use Rattle.constriction_words.specs.Reciprocals.{IsReciprocalOf};

use crate::refusal::Refusal;
use crate::symbol::Symbol;
use constriction_base::model::{DecoderModel, EncoderModel, EntropyModel};
use constriction_words::{BitArray, Reciprocal};
pub use counts::Counts;
pub use families::Families;
pub use indexed::Indexed;
pub use mixtures::Mixtures;
pub use narrow_weights::NarrowWeights;
pub use rows::Rows;
use std::alloc::Global;
pub use weights::Weights;

/// The models of a list of symbols to encode, with one model for each symbol.
///
/// The implementor defines the list of the models' tables (`tables`). It proves that `interval` returns the interval
/// that a symbol has in the table at an index.
pub trait ModelList<P: BitArray, const PRECISION: usize>: Drop {
    /// Whether an encoder takes less time if it finds the interval of a symbol before it takes the step of another.
    const LOOKS_AHEAD: bool;

    // The tables of the models, in order.
    ghost tables: { Self → List (List (ℕ × ℕ × ℕ)) };

    /// Returns the number of models.
    fn count(&self) -> usize
        ensures { result ≡ length (tables self.now) };

    /// Returns the start and the length of a symbol's interval under the model at index `place`, in quantiles.
    ///
    /// The third value is the reciprocal of the length, if the list stores it. Returns `None` if the model has no entry
    /// for the symbol. The caller proves that the list has the index. The call needs no memory.
    fn interval(
        &mut self,
        place: usize,
        symbol: usize,
    ) -> Option<(P, <P as BitArray>::NonZero, Option<Reciprocal>)>
        requires { place < length (tables self.now) }
        ensures found { IfSome result (λ found. IsEntryOf PRECISION P.BITS (get_or (tables self.old) place []) symbol
            (P.number found.0) (P.nonzero_number found.1)) }
        ensures reciprocal { IfSome result (λ found. IfSome found.2 (λ r.
            IsReciprocalOf r (P.nonzero_number found.1))) }
        ensures impossible { IfNone result (Impossible (get_or (tables self.old) place []) symbol) }
        ensures tables { tables self.new ≡ tables self.old };
}

/// The models of a list of symbols to decode, with one model for each symbol.
///
/// A caller selects an index of the list with `select`, and `model` then returns the model at that index. So an
/// implementor can keep a single model in memory, and change it at each `select`. The implementor defines the list of
/// the models' tables (`tables`). It proves that `model` returns a model with the table at the selected index.
pub trait DecoderModelList<P: BitArray, const PRECISION: usize>: Drop {
    /// The type of the models.
    type Model: DecoderModel<PRECISION, Symbol = usize, Probability = P>;

    // The tables of the models, in order.
    ghost tables: { Self → List (List (ℕ × ℕ × ℕ)) };

    // The index of the model that `model` returns.
    ghost turned_to: { Self → ℕ };

    /// Selects the model at index `place`. The caller proves that the list has that index. The call needs no memory.
    fn select(&mut self, place: usize)
        requires { place < length (tables self.now) }
        ensures place { turned_to self.new ≡ place }
        ensures tables { tables self.new ≡ tables self.old };

    /// Returns the model at the index that the last call of `select` selected.
    ///
    /// The caller proves that an index of the list is selected.
    fn model(&self) -> &Self::Model
        requires { turned_to self.now < length (tables self.now) }
        ensures { Self.Model.table result.now
            ≡ get_or (tables self.now) (turned_to self.now) (Self.Model.table result.now) };
}

/// A caller's arguments that describe the models of a list of symbols.
///
/// An implementor is one form of these arguments. The implementor's definition `coded` states which arguments are
/// valid, and which models valid arguments describe. The implementor proves that `check` returns an error if and only
/// if the arguments aren't valid. [`EncoderModels`] and [`DecoderModels`] return the models.
pub trait Models<P: BitArray, const PRECISION: usize>: Drop {
    // The symbols with their models, and which arguments are valid.
    ghost coded: { Self → List ℕ → Coded };

    /// Checks that the caller's arguments describe a model for each of `count` symbols. The call needs no memory.
    ///
    /// # Errors
    ///
    /// The call checks for `WrongLength`, `WrongInterval` and `WrongWeights`, in this order. [`Refusal`] lists the
    /// cases of each error. An implementor's `coded` states which of these cases can arise. The call fails in no other
    /// case.
    fn check(&self, count: usize) -> Result<(), Refusal>
        requires { (1 ≤ PRECISION) × (PRECISION ≤ P.BITS) }
        ensures { (symbols : List ℕ) → length symbols ≡ count
            → AsksFit PRECISION (coded self.now symbols) (Otherwise NoRefusal) result };
}

/// A caller's arguments that describe the models of a list of symbols to encode.
///
/// The implementor proves two facts: `know` returns whether each model has an entry for its symbol, and `list` returns
/// the models.
pub trait EncoderModels<P: BitArray, const PRECISION: usize>: Models<P, PRECISION> {
    /// The type of the list of models.
    type List: ModelList<P, PRECISION>;

    /// Returns whether each model has an entry for its symbol. The call needs no memory.
    ///
    /// The caller proves that `check` would succeed.
    fn know<S: Symbol>(&self, symbols: &[S]) -> bool
        requires { AreFit PRECISION (Self.coded self.now (S.numbers symbols.now)) }
        ensures { IsTrue result ↔ AreKnown (items PRECISION (Self.coded self.now (S.numbers symbols.now))) };

    /// Returns the models of `count` symbols, or `None` if there is no memory for the models.
    ///
    /// `divides` is true if the caller's coder divides by weights, as the stack coder and the chain coder do when they
    /// encode. Then the models may keep the reciprocals of the weights. The caller proves that `check` would succeed.
    fn list(&self, alloc: Global, count: usize, divides: bool) -> Option<Self::List>
        requires precision { (1 ≤ PRECISION) × (PRECISION ≤ P.BITS) }
        requires fit { (symbols : List ℕ) × (length symbols ≡ count) × AreFit PRECISION (Self.coded self.now symbols) }
        ensures count { IfSome result (λ list. length (Self.List.tables list) ≡ count) }
        ensures items { IfSome result (λ list. AreTablesFor PRECISION (Self.coded self.now) count
            (Self.List.tables list)) };
}

/// A caller's arguments that describe the models of a list of symbols to decode.
///
/// An implementor can decode with models of another type than the models that [`EncoderModels::list`] returns. So the
/// proof of an encode doesn't depend on the types of this trait, and the proof of a decode doesn't depend on those of
/// [`EncoderModels`].
pub trait DecoderModels<P: BitArray, const PRECISION: usize>: Models<P, PRECISION> {
    /// The type of the decoded symbols.
    type Symbol: Symbol;

    /// The type of the list of models to decode with.
    type DecoderList: DecoderModelList<P, PRECISION>;

    /// Returns the models for decoding `count` symbols, or `None` if there is no memory for the models.
    ///
    /// The implementor can choose models that decode this number of symbols in less time. The caller proves that
    /// `check` would succeed.
    fn decoder_list(&self, alloc: Global, count: usize) -> Option<Self::DecoderList>
        requires precision { (1 ≤ PRECISION) × (PRECISION ≤ P.BITS) }
        requires fit { (symbols : List ℕ) × (length symbols ≡ count) × AreFit PRECISION (Self.coded self.now symbols) }
        ensures count { IfSome result (λ list. length (Self.DecoderList.tables list) ≡ count) }
        ensures items { IfSome result (λ list. AreTablesFor PRECISION (Self.coded self.now) count
            (Self.DecoderList.tables list)) };

    // The type of the decoded symbols has a value for each symbol that the models have an entry for.
    ghost kept_law: { (given : Self) (ns : List ℕ) → AreFit PRECISION (Self.coded given ns)
        → AreKnown (items PRECISION (Self.coded given ns)) → Self.Symbol.kept ns ≡ ns };
}

/// Checks that the caller's arguments describe a model for each of `symbols`, whichever symbols these are.
///
/// The call needs no memory.
///
/// # Errors
///
/// The call returns the errors of [`Models::check`].
///
/// # Examples
///
/// ```
/// check_for::<u8, _, 8>(&Weights { weights: &[255u8, 1] }, &[0, 1, 0]) // Ok(())
/// ```
pub fn check_for<P: BitArray, G: DecoderModels<P, PRECISION>, const PRECISION: usize>(
    models: &G,
    symbols: &[G::Symbol],
) -> Result<(), Refusal>
    requires { (1 ≤ PRECISION) × (PRECISION ≤ P.BITS) }
    ensures asks { AsksFit PRECISION (G.coded models.now (G.Symbol.numbers symbols.now))
        (Otherwise NoRefusal) result }
    ensures fit { IfOk result (λ _. (ns : List ℕ) → length ns ≡ length symbols.now
        → AreFit PRECISION (G.coded models.now ns)) }
{
    models.check(symbols.len())
}

/// Returns the start and the length of the symbol's interval under `model`, and the length's reciprocal if the model
/// stores it.
///
/// Returns `None` if the model has no entry for the symbol.
#[inline(always)]
fn entry_of<
    P: BitArray,
    M: EncoderModel<PRECISION, Symbol = usize, Probability = P>,
    const PRECISION: usize,
>(model: &M, symbol: usize) -> Option<(P, <P as BitArray>::NonZero, Option<Reciprocal>)>
    ensures found { IfSome result (λ found. IsEntryOf PRECISION P.BITS (M.table model.now) symbol (P.number found.0)
        (P.nonzero_number found.1)) }
    ensures reciprocal { IfSome result (λ found. IfSome found.2 (λ r. IsReciprocalOf r (P.nonzero_number found.1))) }
    ensures impossible { IfNone result (Impossible (M.table model.now) symbol) }
{
    match model.left_cumulative_and_reciprocal(&symbol) {
        Some(found) => Some(found),
        None => None,
    }
}
