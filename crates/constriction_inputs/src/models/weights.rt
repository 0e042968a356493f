//! `Weights`: one table of weights for all symbols.

ghost use Rattle.std.specs.Prelude.{◌≡◌, ◌≤◌, map, replicate, IfSome, IsTrue};
ghost use Rattle.constriction_base.specs.Tables.{table_of};
ghost use Rattle.constriction_base.specs.WeightTables.{entries, HasReciprocals};
ghost use Rattle.constriction_inputs.specs.Weights.{by_weights, IsTotal};
ghost use Rattle.std.proofs.Common.{refl};

use crate::known::is_known;
use crate::models::row_lookup::RowLookup;
use crate::models::table_or_row::TableOrRow;
use crate::models::table_or_rows::TableOrRows;
use crate::models::weights_model::WeightsModel;
use crate::models::{DecoderModelList, DecoderModels, EncoderModels, ModelList, Models, entry_of};
use crate::refusal::Refusal;
use crate::rows::Row;
use crate::rows::adding::is_total;
use crate::symbol::Symbol;
use constriction_base::model::EntropyModel;
use constriction_base::weights::WeightTable;
use constriction_words::{BitArray, Reciprocal};
use std::alloc::Global;

/// One table of weights for all symbols to encode or decode.
///
/// `weights[i]` is the weight of symbol `i`. The weights have to add up to `2 ^ PRECISION`. A symbol of weight 0 is
/// impossible, and so is a symbol past the end of the list of weights.
///
/// For a single symbol, `list` and `decoder_list` make no table: the look-up adds up the weights before the symbol.
///
/// To decode at least `2 ^ PRECISION` symbols at a precision of at most 14 bits, `decoder_list` makes a lookup model,
/// which decodes a symbol in less time than a table of weights. While the list exists, the lookup model takes 6 bytes
/// per quantile if weights are `u16`, and 10 bytes if they are `u32`. If the lookup model can't be made, `decoder_list`
/// returns a table of weights.
///
/// # Examples
///
/// ```
/// let weights = Weights { weights: &[255u8, 1] }; // at a precision of 8 bits
/// ```
#[derive(Clone, Copy, Drop)]
pub struct Weights<'a, P> {
    pub weights: &'a [P],
}

impl<'a, P: BitArray, const PRECISION: usize> Models<P, PRECISION> for Weights<'a, P> {
    ghost coded = { λ given. by_weights (map P.number given.weights.now) };

    fn check(&self, _count: usize) -> Result<(), Refusal> {
        if is_total::<P, PRECISION>(self.weights) {
            Ok(())
        } else {
            Err(Refusal::WrongWeights)
        }
    }
}

impl<'a, P: BitArray, const PRECISION: usize> EncoderModels<P, PRECISION> for Weights<'a, P> {
    type List = WeightsList<'a, P, PRECISION>;

    fn know<S: Symbol>(&self, symbols: &[S]) -> bool {
        for i in 0..symbols.len() {
            if !is_known::<P, PRECISION>(self.weights, S::number_at(symbols, i)) {
                return false;
            }
        }
        true
    }

    fn list(
        &self,
        alloc: Global,
        count: usize,
        divides: bool,
    ) -> Option<WeightsList<'a, P, PRECISION>> {
        if count <= 1 {
            let row = Row::of_total(self.weights);
            return Some(WeightsList {
                model: TableOrRow {
                    model: WeightsModel::Rows(row),
                },
                count,
            });
        }
        match table_by(alloc, self.weights, divides) {
            Some(table) => Some(WeightsList {
                model: TableOrRow {
                    model: WeightsModel::Table(table),
                },
                count,
            }),
            None => None,
        }
    }
}

/// The models that [`Weights`] makes for encoding: one table of weights, or one row, for all symbols.
///
/// # Examples
///
/// ```
/// let weights = Weights { weights: &[255u8, 1] };
/// if let Some(mut list) = EncoderModels::<u8, 8>::list(&weights, alloc, 2, false) {
///     ModelList::<u8, 8>::interval(&mut list, 1, 1) // Some((255, 1, None))
/// }
/// ```
#[derive(Drop)]
pub struct WeightsList<'a, P: BitArray, const PRECISION: usize> {
    model: TableOrRow<'a, P, PRECISION>,
    count: usize,
}

impl<'a, P: BitArray, const PRECISION: usize> ModelList<P, PRECISION>
    for WeightsList<'a, P, PRECISION> {
    const LOOKS_AHEAD: bool = false;

    ghost tables = { λ list. replicate list.count
        (⟦<TableOrRow<'a, P, PRECISION> as EntropyModel<PRECISION>>⟧.table list.model) };

    #[inline]
    fn count(&self) -> usize {
        self.count
    }

    #[inline(always)]
    fn interval(
        &mut self,
        _place: usize,
        symbol: usize,
    ) -> Option<(P, <P as BitArray>::NonZero, Option<Reciprocal>)> {
        match entry_of::<P, _, PRECISION>(&self.model, symbol) {
            Some(found) => Some(found),
            None => None,
        }
    }
}

impl<'a, P: BitArray, const PRECISION: usize> DecoderModels<P, PRECISION> for Weights<'a, P> {
    type Symbol = usize;

    type DecoderList = WeightsDecoderList<'a, P, PRECISION>;

    fn decoder_list(
        &self,
        alloc: Global,
        count: usize,
    ) -> Option<WeightsDecoderList<'a, P, PRECISION>> {
        match decoder_by(alloc, self.weights, count) {
            Some(model) => Some(WeightsDecoderList {
                model,
                count,
                place: 0,
            }),
            None => None,
        }
    }

    ghost kept_law = { λ given ns fit known. refl };
}

/// The models that [`Weights`] makes for decoding: one model for all symbols.
///
/// # Examples
///
/// ```
/// let weights = Weights { weights: &[255u8, 1] };
/// if let Some(mut list) = DecoderModels::<u8, 8>::decoder_list(&weights, alloc, 2) {
///     DecoderModelList::<u8, 8>::select(&mut list, 1);
///     DecoderModelList::<u8, 8>::model(&list).quantile_function(255) // (1, 255, 1)
/// }
/// ```
#[derive(Drop)]
pub struct WeightsDecoderList<'a, P: BitArray, const PRECISION: usize> {
    model: TableOrRows<'a, P, PRECISION>,
    count: usize,
    place: usize,
}

impl<'a, P: BitArray, const PRECISION: usize> DecoderModelList<P, PRECISION>
    for WeightsDecoderList<'a, P, PRECISION> {
    type Model = TableOrRows<'a, P, PRECISION>;

    ghost tables = { λ list. replicate list.count
        (⟦<TableOrRows<'a, P, PRECISION> as EntropyModel<PRECISION>>⟧.table list.model) };

    ghost turned_to = { λ list. list.place };

    #[inline]
    fn select(&mut self, place: usize) {
        self.place = place;
    }

    #[inline]
    fn model(&self) -> &TableOrRows<'a, P, PRECISION> {
        &self.model
    }
}

/// Returns the model of the symbols `0`, `1`, .. with the weights `weights`, for decoding `count` symbols.
///
/// The model is a row of the weights if `count` is at most 1. It is a lookup model if `PRECISION` is at most 14,
/// `count` is at least `2 ^ PRECISION`, and its rows can be made. The rows can't be made if there is no memory for
/// them, or if a symbol above 65535 has a weight above 0. Otherwise the model is a table without reciprocals. The call
/// returns `None` if there is no memory for the table. The caller proves that the weights add up to `2 ^ PRECISION`.
pub fn decoder_by<'a, P: BitArray, const PRECISION: usize>(
    alloc: Global,
    weights: &'a [P],
    count: usize,
) -> Option<TableOrRows<'a, P, PRECISION>>
    requires sizes { (1 ≤ PRECISION) × (PRECISION ≤ P.BITS) }
    requires total { IsTotal PRECISION (map P.number weights.now) }
    ensures { IfSome result (λ model. ⟦<TableOrRows<'a, P, PRECISION> as EntropyModel<PRECISION>>⟧.table model
        ≡ table_of (map P.number weights.now)) }
{
    if count <= 1 {
        let row = Row::of_total(weights);
        return Some(TableOrRows {
            model: WeightsModel::Table(TableOrRow {
                model: WeightsModel::Rows(row),
            }),
        });
    }
    let Some(table) = table_by(alloc, weights, false) else {
        return None;
    };
    if PRECISION <= 14 && count >= 1usize << PRECISION {
        if let Some(lookup) = RowLookup::new(alloc, weights, &table) {
            return Some(TableOrRows {
                model: WeightsModel::Rows(lookup),
            });
        }
    }
    Some(TableOrRows {
        model: WeightsModel::Table(TableOrRow {
            model: WeightsModel::Table(table),
        }),
    })
}

/// Returns the table of the symbols `0`, `1`, .. with the weights `weights`.
///
/// If `divides` is true and `PRECISION` is at most 63, the table keeps the reciprocals of the weights. The call returns
/// `None` if the weights don't add up to `2 ^ PRECISION`, or if there is no memory.
pub fn table_by<P: BitArray, const PRECISION: usize>(
    alloc: Global,
    weights: &[P],
    divides: bool,
) -> Option<WeightTable<P, PRECISION>>
    requires { (1 ≤ PRECISION) × (PRECISION ≤ P.BITS) }
    ensures table { IfSome result (λ table. entries table ≡ table_of (map P.number weights.now)) }
    ensures reciprocals { IfSome result (λ table. IsTrue divides → PRECISION ≤ 63 → HasReciprocals table) }
{
    let made = if divides {
        WeightTable::new(alloc, weights)
    } else {
        WeightTable::for_decoding(alloc, weights)
    };
    match made {
        Ok(table) => Some(table),
        Err(_) => None,
    }
}
