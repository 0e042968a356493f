//! Calls of the chain coder with concrete types: 32-bit words, a 64-bit remainders head and tables of weights.

use super::{Table, new_table, take_all};
use anyhow::{Result, bail};
use constriction::stream::chain::DefaultChainCoder;
use std::alloc::Global;

/// Encodes symbols, each paired with its model, from the last symbol to the first.
fn put(coder: &mut DefaultChainCoder, table: &Table) -> Result<()> {
    coder.encode_symbols_reverse([(&0usize, table), (&2, table), (&1, table), (&2, table)])?;
    Ok(())
}

/// Changes the precision from 24 bits to 28 and to 20, and back.
fn change(coder: DefaultChainCoder) -> Result<DefaultChainCoder> {
    let Ok(finer) = coder.increase_precision::<28>() else {
        bail!("no room at a finer precision");
    };
    let Ok(coarser) = finer.decrease_precision::<20>() else {
        bail!("no words at a coarser precision");
    };
    let Ok(coder) = coarser.change_precision::<24>() else {
        bail!("no room at the first precision");
    };
    Ok(coder)
}

/// Decodes four symbols, and prints them.
fn take(rt: &impl Print, coder: &mut DefaultChainCoder, table: &Table) -> Result<()> {
    take_all(rt, coder, 4, table)
}

/// Decodes symbols, changes the precision, encodes and decodes symbols, and prints all symbols decoded.
fn take_and_put(rt: &impl Print, mut coder: DefaultChainCoder, table: &Table) -> Result<()> {
    take(rt, &mut coder, table)?;
    let mut coder = change(coder)?;
    put(&mut coder, table)?;
    take(rt, &mut coder, table)
}

/// Decodes symbols from words, changes the precision, encodes and decodes symbols, and prints all symbols decoded.
pub fn run(rt: &impl Print, alloc: Global) -> Result<()> {
    let words = [1, 2, 3, 4, 5, 6, 7, 0x9abcdef0, 0x12345678, 256].to_vec(alloc)?;
    let Ok(coder) = DefaultChainCoder::from_compressed(alloc, words) else {
        bail!("too few words, or a zero word at the end");
    };
    let table = new_table(alloc, &[8388608, 4194304, 4194304])?;
    take_and_put(rt, coder, &table)
}
