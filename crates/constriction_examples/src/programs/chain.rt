//! Chain coding: decodes symbols from any words, and restores the words from the symbols and the remainders.

use anyhow::{Result, bail};
use constriction::stream::Decode;
use constriction::stream::chain::DefaultChainCoder;
use constriction::stream::model::WeightTable;
use std::alloc::Global;

type Table = WeightTable<u32, 24>;

/// Decodes two symbols. Each symbol depends on 24 bits of its own.
fn take(coder: &mut DefaultChainCoder, table: &Table) -> Result<[usize; 2]> {
    Ok([coder.decode_symbol(table)?, coder.decode_symbol(table)?])
}

/// Decodes two symbols from words. Returns the symbols, the words that the coder left unread, and the remainders.
fn taken(
    words: Vec<u32>,
    alloc: Global,
    table: &Table,
) -> Result<([usize; 2], Vec<u32>, Vec<u32>)> {
    let Ok(mut coder) = DefaultChainCoder::from_compressed(alloc, words) else {
        bail!("too few words, or a zero word at the end");
    };
    let symbols = take(&mut coder, table)?;
    let (prefix, suffix) = coder.into_remainders()?;
    Ok((symbols, prefix, suffix))
}

/// Encodes symbols onto remainders. Returns the words that the decodes of these symbols read.
fn put_back(
    remainders: Vec<u32>,
    alloc: Global,
    symbols: &[usize],
    table: &Table,
) -> Result<Vec<u32>> {
    let Ok(mut coder) = DefaultChainCoder::from_remainders(alloc, remainders) else {
        bail!("no coder's remainders");
    };
    coder.encode_iid_symbols_reverse(symbols, table)?;
    let Ok((_, words)) = coder.into_compressed() else {
        bail!("bits are left over");
    };
    Ok(words)
}

/// Decodes two symbols from words and prints them, then encodes them back and prints the words restored.
pub fn run(rt: &impl Print, alloc: Global) -> Result<()> {
    let table = Table::new(alloc, &[8388608, 4194304, 4194304])?;
    let words = [1, 2, 0x9abcdef0, 0x12345678, 256].to_vec(alloc)?; // the coder reads the last word first

    let (symbols, prefix, suffix) = taken(words, alloc, &table)?;
    println!(rt; "{symbols:?}")?; // [0, 1]

    let exported = put_back(suffix, alloc, symbols.as_slice(), &table)?;
    println!(rt; "{prefix:?} {exported:?}")?; // [1, 2] [2596069104, 305419896, 256]
    Ok(())
}
