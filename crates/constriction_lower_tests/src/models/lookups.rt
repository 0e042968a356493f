//! Tests that a lookup model has the same intervals as the model that it is built from.

use super::cuts::{cuts, is_unknown};
use constriction_base::weights::WeightTable;
use constriction_models::lookup::ContiguousLookupDecoderModel;
use constriction_models::uniform::UniformModel;
use std::alloc::Global;

/// Returns whether a lookup model of weights, two of which are 0, has intervals for exactly the weights above 0.
fn weights_are_looked_up(alloc: Global) -> bool {
    match WeightTable::<u16, 12>::new(alloc, &[1000, 0, 0, 3095, 1]) {
        Ok(table) => match ContiguousLookupDecoderModel::new(alloc, table) {
            Ok(model) => cuts(&model, 4096, &[0, 3, 4]) && is_unknown(&model, &1),
            Err(_) => false,
        },
        Err(_) => false,
    }
}

/// Builds a lookup model from a borrowed uniform model. Returns whether the intervals of `symbols` cover 256 quantiles.
fn quantiles_are_looked_up(alloc: Global, symbols: &[usize]) -> bool {
    match UniformModel::<u32, 8>::new(256) {
        Ok(model) => match ContiguousLookupDecoderModel::new(alloc, &model) {
            Ok(model) => cuts(&model, 256, symbols),
            Err(_) => false,
        },
        Err(_) => false,
    }
}

#[test]
fn symbols_are_looked_up(rt: HostRuntime) {
    let mut symbols = [0; 256];
    for symbol in 0..256 {
        symbols[symbol] = symbol;
    }
    assert!(rt; weights_are_looked_up(rt.alloc()));
    assert!(rt; quantiles_are_looked_up(rt.alloc(), &symbols));
}
