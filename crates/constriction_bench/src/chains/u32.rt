//! Benchmark cases of the chain coder with words of 32 bits, remainders heads of 64 bits and a precision of 24 bits.

use crate::bucket::BucketTable;
use crate::chains::{decode_each, encode_each};
use crate::flat::Flat;
use crate::runs::copy_out;
use constriction_base::model::{DecoderModel, EncoderModel, EntropyModel};
use constriction_base::weights::WeightTable;
use constriction_chain::DefaultChainCoder;
use constriction_words::WordOf;
use std::alloc::Global;

/// Creates a coder from a copy of `words`, which are compressed words in binary form.
///
/// Returns `None` if there are too few words for the coder's heads, or if there is no memory.
fn coder_of(alloc: Global, words: &[u32]) -> Option<DefaultChainCoder> {
    let words = words.to_vec(alloc).ok()?;
    DefaultChainCoder::from_binary(alloc, words).ok()
}

/// Creates a coder without compressed words from a copy of `remainders`.
///
/// Returns `None` if no coder has these remainders, or if there is no memory.
fn coder_back(alloc: Global, remainders: &[u32]) -> Option<DefaultChainCoder> {
    let remainders = remainders.to_vec(alloc).ok()?;
    DefaultChainCoder::from_remainders(alloc, remainders).ok()
}

/// Copies the words of the coder's remainders, with both heads on top, to `out`, as many as fit.
///
/// Returns the total number of words, or 0 if there is no memory.
fn give_remainders(coder: DefaultChainCoder, out: &mut [u32]) -> usize {
    match coder.into_remainders() {
        Ok((_, remainders)) => copy_out(&remainders, out),
        Err(_) => 0,
    }
}

/// Copies the coder's compressed words in binary form to `out`, as many as fit.
///
/// Returns the total number of words, or 0 if the coder has no binary form or there is no memory.
fn give_words(coder: DefaultChainCoder, out: &mut [u32]) -> usize {
    match coder.into_binary() {
        Ok((_, words)) => copy_out(&words, out),
        Err(_) => 0,
    }
}

/// Fills `symbols` with symbols that the coder `found` decodes, and copies its remainders to `out`, as many as fit.
///
/// Returns the total number of words of the remainders, or 0 if `found` is `None`, if a decode fails, or if there is no
/// memory.
#[inline(never)]
fn decode_out<M: DecoderModel<24, Symbol = usize>>(
    found: Option<DefaultChainCoder>,
    symbols: &mut [usize],
    model: M,
    out: &mut [u32],
) -> usize
where
    M::Probability: WordOf<u32>,
{
    let Some(mut coder) = found else {
        return 0;
    };
    if decode_each(&mut coder, symbols, &model) {
        give_remainders(coder, out)
    } else {
        0
    }
}

/// Encodes symbols from the last to the first with the coder `found`, and copies its words to `out`, as many as fit.
///
/// The words are the compressed words in binary form. Returns the total number of words, or 0 if `found` is `None`, if
/// an encode fails, or if [`give_words`] returns 0.
#[inline(never)]
fn encode_out<M: EncoderModel<24, Symbol = usize>>(
    found: Option<DefaultChainCoder>,
    symbols: &[usize],
    model: &M,
    out: &mut [u32],
) -> usize
where
    M::Probability: WordOf<u32>,
{
    let Some(mut coder) = found else {
        return 0;
    };
    if encode_each(&mut coder, symbols, model) {
        give_words(coder, out)
    } else {
        0
    }
}

/// Fills `symbols` with symbols decoded from `words` in binary form, with the table of `weights`.
///
/// Copies the words of the remainders to `out`, as many as fit. Returns the total number of words of the remainders, or
/// 0 after a failure (see [`crate`]).
#[unsafe(no_mangle)]
pub extern "C" fn constriction_bench_chain_decode_u32u64p24_table(
    alloc: Global,
    weights: &[u32],
    words: &[u32],
    symbols: &mut [usize],
    out: &mut [u32],
) -> usize {
    let Ok(table) = WeightTable::<u32, 24>::new(alloc, weights) else {
        return 0;
    };
    decode_out(coder_of(alloc, words), symbols, table, out)
}

/// Encodes symbols from the last to the first, with the table of `weights`.
///
/// The chain coder starts with a copy of `remainders` and without compressed words. Copies the compressed words, in
/// binary form, to `out`, as many as fit. Returns the total number of compressed words, or 0 after a failure (see
/// [`crate`]).
#[unsafe(no_mangle)]
pub extern "C" fn constriction_bench_chain_encode_u32u64p24_table(
    alloc: Global,
    weights: &[u32],
    remainders: &[u32],
    symbols: &[usize],
    out: &mut [u32],
) -> usize {
    let Ok(table) = WeightTable::<u32, 24>::new(alloc, weights) else {
        return 0;
    };
    encode_out(coder_back(alloc, remainders), symbols, &table, out)
}

/// Fills `symbols` with symbols below `2^bits`, decoded from `words` in binary form with equal weights.
///
/// Copies the words of the remainders to `out`, as many as fit. Returns the total number of words of the remainders, or
/// 0 after a failure (see [`crate`]).
#[unsafe(no_mangle)]
pub extern "C" fn constriction_bench_chain_decode_u32u64p24_flat(
    alloc: Global,
    bits: u32,
    words: &[u32],
    symbols: &mut [usize],
    out: &mut [u32],
) -> usize {
    let Some(flat) = Flat::<u32, 24>::new(bits) else {
        return 0;
    };
    decode_out(coder_of(alloc, words), symbols, flat, out)
}

/// Encodes symbols below `2^bits` from the last to the first, with equal weights.
///
/// The chain coder starts with a copy of `remainders` and without compressed words. Copies the compressed words, in
/// binary form, to `out`, as many as fit. Returns the total number of compressed words, or 0 after a failure (see
/// [`crate`]).
#[unsafe(no_mangle)]
pub extern "C" fn constriction_bench_chain_encode_u32u64p24_flat(
    alloc: Global,
    bits: u32,
    remainders: &[u32],
    symbols: &[usize],
    out: &mut [u32],
) -> usize {
    let Some(flat) = Flat::<u32, 24>::new(bits) else {
        return 0;
    };
    encode_out(coder_back(alloc, remainders), symbols, &flat, out)
}

/// Fills `symbols` with symbols decoded from `words` in binary form, with the [`BucketTable`] of `weights`.
///
/// Copies the words of the remainders to `out`, as many as fit. Returns the total number of words of the remainders, or
/// 0 after a failure (see [`crate`]).
#[unsafe(no_mangle)]
pub extern "C" fn constriction_bench_chain_decode_u32u64p24_bucket(
    alloc: Global,
    weights: &[u32],
    words: &[u32],
    symbols: &mut [usize],
    out: &mut [u32],
) -> usize {
    let Some(table) = BucketTable::new(alloc, weights) else {
        return 0;
    };
    decode_out(coder_of(alloc, words), symbols, table, out)
}
