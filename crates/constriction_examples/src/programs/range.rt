//! Range coding: the symbol encoded first is decoded first.

use anyhow::Result;
use constriction::stream::model::WeightTable;
use constriction::stream::queue::DefaultRangeEncoder;
use constriction::stream::{Decode, Encode};
use std::alloc::Global;

type Table = WeightTable<u32, 24>;

/// Encodes three symbols, and returns the encoder.
fn encoded(alloc: Global, table: &Table) -> Result<DefaultRangeEncoder> {
    let mut encoder = DefaultRangeEncoder::new(alloc);
    encoder.encode_symbol(&1, table)?;
    encoder.encode_iid_symbols([0usize, 2].as_slice(), table)?;
    Ok(encoder)
}

/// Encodes three symbols, decodes them, and prints the symbols decoded.
pub fn run(rt: &impl Print, alloc: Global) -> Result<()> {
    let table = Table::new(alloc, &[3, 2, 16777211])?;

    // The symbol encoded first is decoded first.
    let mut decoder = encoded(alloc, &table)?.into_decoder()?;
    for _ in 0..3 {
        let symbol = decoder.decode_symbol(&table)?;
        println!(rt; "{symbol}")?; // 1, 0, 2
    }
    Ok(())
}
