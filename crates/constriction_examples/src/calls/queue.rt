//! Calls of the range coder with concrete types: 32-bit words, 64-bit states and tables of weights.
//!
//! An encoder counts its pending words in a `usize`, and this count must not overflow. A function that gets an encoder
//! as an argument doesn't know how many words are pending. `symbols_left` returns how many symbols the encoder can
//! still encode.

use super::{Table, take_all, take_each, take_one};
use anyhow::{Result, bail};
use constriction::stream::queue::{DefaultRangeDecoder, DefaultRangeEncoder, RangeCoderState};
use constriction::stream::{Decode, Encode};
use constriction::{Pos, Seek};
use std::alloc::Global;

/// A position of a range coder: a number of words, and the coder's interval.
type Position = (usize, RangeCoderState<u32, u64>);

/// Encodes two symbols, each paired with its model. Fails if the encoder can't encode two symbols.
fn put(encoder: &mut DefaultRangeEncoder, table: &Table) -> Result<()> {
    if Encode::<24>::symbols_left(encoder) < 2 {
        bail!("too many words are held back");
    }
    encoder.encode_symbols([(&1usize, table), (&0, table)])?;
    Ok(())
}

/// Returns whether a guard lends no words. The encoder is unchanged.
fn lends_nothing(encoder: &mut DefaultRangeEncoder) -> Result<bool> {
    let Ok(guard) = encoder.get_compressed() else {
        bail!("no memory for the words");
    };
    Ok(guard.words().is_empty())
}

/// Prints whether a guard lends no words, and the first symbol that a decoder over the encoder's words returns.
///
/// The encoder is unchanged.
fn look(rt: &impl Print, encoder: &mut DefaultRangeEncoder, table: &Table) -> Result<()> {
    let nothing = lends_nothing(encoder)?;
    println!(rt; "{nothing}")?;
    let Ok(mut decoder) = encoder.decoder() else {
        bail!("no memory for the words");
    };
    take_one(rt, &mut decoder, table)
}

/// Encodes four symbols. Returns the words, and the position of the third symbol.
///
/// Prints whether a guard lends no words after the second symbol, and the first symbol that a decoder returns there.
fn encoded(rt: &impl Print, alloc: Global, table: &Table) -> Result<(Vec<u32>, Position)> {
    let mut encoder = DefaultRangeEncoder::new(alloc);
    put(&mut encoder, table)?;
    look(rt, &mut encoder, table)?;
    if !encoder.pos_fits() {
        bail!("a position past what can be counted");
    }
    let position = encoder.pos();
    put(&mut encoder, table)?;
    let Ok(words) = encoder.into_compressed() else {
        bail!("no memory for the words");
    };
    Ok((words, position))
}

/// Decodes three symbols, seeks back to a position, and decodes two symbols from there. Prints the symbols.
///
/// Fails if the decoder then has words left.
fn take_twice(
    rt: &impl Print,
    decoder: &mut DefaultRangeDecoder,
    position: Position,
    table: &Table,
) -> Result<()> {
    take_all(rt, decoder, 3, table)?;
    if decoder.seek(position).is_err() {
        bail!("no position of these words");
    }
    take_each(rt, decoder, table)?;
    if !Decode::<24>::maybe_exhausted(decoder) {
        bail!("words are left");
    }
    Ok(())
}

/// Encodes four symbols, decodes the first three, seeks back to the third, and decodes from there.
///
/// Prints the symbols decoded, and whether the list of words that a guard lends is empty.
pub fn run(rt: &impl Print, alloc: Global, table: &Table) -> Result<()> {
    let (words, position) = encoded(rt, alloc, table)?;
    let mut decoder = DefaultRangeDecoder::from_compressed(words)?;
    take_twice(rt, &mut decoder, position, table)
}
