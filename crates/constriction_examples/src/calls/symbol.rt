//! Calls of bit coders and of stores with concrete types: 32-bit words, Exp-Golomb codewords, tables of weights.

use super::{Table, show};
use anyhow::{Result, bail};
use constriction::Semantics;
use constriction::store::Store;
use constriction::symbol::exp_golomb::ExpGolomb;
use constriction::symbol::{DefaultQueueEncoder, DefaultStackCoder, ReadBitStream, WriteBitStream};
use std::alloc::Global;

/// Decodes `count` numbers, and prints them.
///
/// The function is generic over bit coders, since its proof is then shorter than one over the types of a stack.
fn take<S: Semantics, Coder: ReadBitStream<S>>(
    rt: &impl Print,
    coder: &mut Coder,
    count: usize,
    golomb: &ExpGolomb<u32>,
) -> Result<()>
where
    Coder::ReadError: Drop,
{
    for number in coder.decode_iid_symbols(count, golomb) {
        show(rt, number)?;
    }
    Ok(())
}

/// Encodes two numbers into a queue of bits, and returns the number of words that a guard lends.
fn put(encoder: &mut DefaultQueueEncoder, golomb: &ExpGolomb<u32>) -> Result<usize> {
    encoder.encode_symbols([(&5u32, golomb), (&7, golomb)])?;
    let Ok(guard) = encoder.get_compressed() else {
        bail!("no memory for the words");
    };
    Ok(guard.words().len())
}

/// Encodes two numbers into a queue of bits, and prints the number of words that a guard lends.
fn queue(rt: &impl Print, alloc: Global, golomb: &ExpGolomb<u32>) -> Result<()> {
    let mut encoder = DefaultQueueEncoder::new(alloc);
    let words = put(&mut encoder, golomb)?;
    println!(rt; "{words}")?;
    Ok(())
}

/// Encodes three numbers onto a stack of bits, decodes them, and prints them. The number encoded last is decoded first.
fn stack(rt: &impl Print, alloc: Global, golomb: &ExpGolomb<u32>) -> Result<()> {
    let mut coder = DefaultStackCoder::new(alloc);
    coder.encode_iid_symbols_reverse([5u32, 7].as_slice(), golomb)?;
    coder.encode_symbol(&0, golomb)?;
    take(rt, &mut coder, 3, golomb)
}

/// Builds a store of chunks, and looks up the second chunk.
fn second(alloc: Global, chunks: &[Vec<usize>], table: &Table) -> Result<Vec<usize>> {
    let chunk = Store::<u32, u64, _, 24>::build(alloc, chunks, table)?.chunk(alloc, 1);
    Ok(chunk?)
}

/// Builds a store of two chunks, looks up the second chunk, and prints its symbols.
fn store(rt: &impl Print, alloc: Global, table: &Table) -> Result<()> {
    let chunks = [[2usize, 1].to_vec(alloc)?, [0, 2, 2].to_vec(alloc)?];
    let chunk = second(alloc, chunks.as_slice(), table)?;
    println!(rt; "{chunk:?}")?;
    Ok(())
}

/// Runs all functions of this file, and prints the results.
pub fn run(rt: &impl Print, alloc: Global, table: &Table) -> Result<()> {
    let golomb = ExpGolomb::<u32>::new();
    queue(rt, alloc, &golomb)?;
    stack(rt, alloc, &golomb)?;
    store(rt, alloc, table)
}
