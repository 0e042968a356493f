//! Tests of the bit coders' round-trip functions, with Exp-Golomb codewords, and of a tree of least cost.

use constriction_base::backends::Stack;
use constriction_laws::symbol::costs::tree_of_least_cost;
use constriction_laws::symbol::round_trips::pairs::{
    decode_pairs, encode_pairs, encode_pairs_reverse,
};
use constriction_symbol::coder::{QueueEncoder, StackCoder};
use constriction_symbol::exp_golomb::ExpGolomb;
use std::alloc::Global;
use std::test::Fail;

type Codebook = ExpGolomb<u32>;

const SYMBOLS: [u32; 2] = [0, 5];

fn is_written(alloc: Global, books: &[Codebook; 2]) -> bool {
    let mut encoder: QueueEncoder<u32> = QueueEncoder::new(alloc);
    match encode_pairs::<QueueEncoder<u32>, _>(&mut encoder, &SYMBOLS, books) {
        Ok(()) => true,
        Err(_) => false,
    }
}

fn is_written_from_back(coder: &mut StackCoder<u32>, books: &[Codebook; 2]) -> bool {
    match encode_pairs_reverse(coder, &SYMBOLS, books) {
        Ok(()) => true,
        Err(_) => false,
    }
}

fn is_read(alloc: Global, coder: &mut StackCoder<u32>, books: &[Codebook; 2]) -> bool {
    match decode_pairs::<Stack, _, _>(alloc, coder, books) {
        Ok(again) => again.as_slice() == SYMBOLS.as_slice(),
        Err(_) => false,
    }
}

fn on_a_stack(alloc: Global, books: &[Codebook; 2]) -> bool {
    let mut coder: StackCoder<u32> = StackCoder::new(alloc);
    is_written_from_back(&mut coder, books) && is_read(alloc, &mut coder, books)
}

fn tree_is_made(alloc: Global) -> bool {
    match tree_of_least_cost::<u8, Codebook>(alloc, &[2, 2, 4, 1, 1]) {
        Ok(tree) => tree.num_symbols() == 5,
        Err(_) => false,
    }
}

#[test]
fn symbols_come_back(rt: HostRuntime) -> Result<(), Fail> {
    let books = [Codebook::new(), Codebook::new()];
    assert!(rt;
        is_written(rt.alloc(), &books) && on_a_stack(rt.alloc(), &books) && tree_is_made(rt.alloc())
    );
    Ok(())
}
