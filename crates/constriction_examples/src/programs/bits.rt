//! Exp-Golomb coding: the codewords of numbers, one after another in a queue of bits.

use anyhow::Result;
use constriction::symbol::exp_golomb::ExpGolomb;
use constriction::symbol::{DefaultQueueEncoder, ReadBitStream, WriteBitStream};
use std::alloc::Global;

/// Encodes four numbers, and returns the encoder.
fn encoded(alloc: Global, golomb: &ExpGolomb<u32>) -> Result<DefaultQueueEncoder> {
    // The encoder packs the codewords into words of 32 bits, one after another, with nothing between them.
    let mut encoder = DefaultQueueEncoder::new(alloc);
    encoder.encode_iid_symbols([0u32, 5, 7].as_slice(), golomb)?;
    encoder.encode_symbol(&1000, golomb)?;
    Ok(encoder)
}

/// Encodes four numbers, decodes them, and prints the numbers decoded.
pub fn run(rt: &impl Print, alloc: Global) -> Result<()> {
    // Each number has a codeword of bits: 0 is 1, 5 is 00110, 7 is 0001000. No codeword is a prefix of another.
    let golomb = ExpGolomb::<u32>::new();

    // A decoder reads the bits of a queue in the order in which the encoder wrote them.
    let mut decoder = encoded(alloc, &golomb)?.into_decoder()?;
    for _ in 0..4 {
        let number = decoder.decode_symbol(&golomb)?;
        println!(rt; "{number}")?; // 0, 5, 7, 1000
    }
    Ok(())
}
