//! Tests of coders over vectors, Huffman trees and reversed codewords, with one request for memory refused at a time.
//!
//! `tests/refused_memory` runs these tests once for each request for memory that they make, and refuses this request.
//! The call that made the request must report that there is no memory, leave the coder as its contract says, and
//! succeed when it is made again. If the call does so, the test returns an error with the call's name, which
//! `tests/refused_memory` expects. If no request is refused, a test passes. The expected words come from lists of bits,
//! and not from this library.

use super::bits::{gives, writes};
use super::codewords::Put;
use super::guards::{shows_queue, shows_stack};
use super::huffman::{Coded, deep_tree, prefix_of};
use super::lists::answer_of;
use super::reversed::turned_round;
use constriction_base::backends::{Queue, Semantics, Stack};
use constriction_symbol::codebooks::BitOrder;
use constriction_symbol::coder::{QueueEncoder, StackCoder, SymbolCoder};
use constriction_symbol::exp_golomb::ExpGolomb;
use constriction_symbol::huffman::{DecoderHuffmanTree, EncoderHuffmanTree, HuffmanError};
use constriction_symbol::writing::WriteBitStream;
use std::alloc::{AllocError, Global};
use std::convert::Infallible;
use std::test::Fail;

/// The outcome of a call: whether a request for memory was refused, and whether all values afterwards are as expected.
type Came = (bool, bool);

/// The result of a call's check, or an error if there was no memory.
type Went = Result<bool, AllocError>;

/// A call that writes bits. List calls write the numbers 0 and 5.
#[derive(Clone, Copy)]
enum Call {
    Bit,
    Symbol,
    List,
    Pairs,
    ListBack,
    PairsBack,
}

/// A call, its name, the coder's bits before the call, and the bits that the call writes.
///
/// The last field is the least number of bits that a refused call writes.
type Row = (Call, &'static str, &'static [u8], &'static [u8], usize);

/// Three full words of bits.
const FULL: &[u8] = b"101100111011001110110011";

/// Bits that leave room for two more bits in their last word.
const BITS: &[u8] = b"1011001110110011101100";

/// Makes the call `call`, and returns the outcome.
fn make<S: BitOrder>(coder: &mut SymbolCoder<u8, S>, call: Call) -> Put {
    let codebook = ExpGolomb::<u8>::new();
    match call {
        Call::Bit => match coder.write_bit(true) {
            Ok(()) => Put::Done,
            Err(AllocError) => Put::Refused,
        },
        Call::Symbol => answer_of(coder.encode_symbol(&5, &codebook)),
        Call::List => answer_of(coder.encode_iid_symbols(&[0u8, 5], &codebook)),
        _ => answer_of(coder.encode_symbols([(&0u8, &codebook), (&5, &codebook)])),
    }
}

/// Makes the call `call` on a stack, and returns the outcome. All list calls write the same bits.
fn make_on_stack(coder: &mut StackCoder<u8>, call: Call) -> Put {
    let codebook = ExpGolomb::<u8>::new();
    match call {
        Call::ListBack => answer_of(coder.encode_iid_symbols_reverse(&[5u8, 0], &codebook)),
        Call::PairsBack => {
            answer_of(coder.encode_symbols_reverse([(&5u8, &codebook), (&0, &codebook)]))
        }
        _ => make::<Stack>(coder, call),
    }
}

/// Returns the number of bits, or `None` if it doesn't fit a `usize`.
fn len_of<S: Semantics>(coder: &SymbolCoder<u8, S>) -> Option<usize> {
    if coder.len_fits() {
        Some(coder.len())
    } else {
        None
    }
}

/// Returns the bits that a refused call didn't write, or `None` if it wrote too few bits or all bits.
///
/// `len` is the coder's number of bits after the call.
fn rest_of(len: Option<usize>, (_, _, before, bits, whole): Row) -> Option<&'static [u8]> {
    match len?.checked_sub(before.len()) {
        Some(held) if (whole <= held) & (held < bits.len()) => bits.get(held..),
        _ => None,
    }
}

/// Returns the outcome of a call on `coder` with the answer `put`. After a refusal, writes the missing bits.
///
/// `other` has the bits before the call. The function writes the call's bits to `other` one by one, and compares the
/// two coders.
fn comes<S: BitOrder>(
    coder: &mut SymbolCoder<u8, S>,
    other: &mut SymbolCoder<u8, S>,
    put: Put,
    row: Row,
) -> Result<Came, AllocError> {
    let (is_refused, goes) = match put {
        Put::Done => (false, true),
        Put::Unknown => (false, false),
        Put::Refused => match rest_of(len_of(coder), row) {
            Some(rest) => (true, writes::<S, _>(coder, rest)),
            None => (true, false),
        },
    };
    if writes::<S, _>(other, row.3) {
        Ok((is_refused, goes & (*coder == *other)))
    } else {
        Err(AllocError)
    }
}

/// Turns the outcome of a call into the result of a test. If memory was refused, the error is `name`.
fn said(came: Came, name: &'static str) -> Result<(), Fail> {
    match came {
        (false, true) => Ok(()),
        (true, true) => Err(Fail::from(name)),
        _ => Err(Fail::from("another answer, or another coder")),
    }
}

/// Makes a queue of `bits`, with a vector that has no room for a third word.
fn queue(alloc: Global, bits: &[u8]) -> Result<QueueEncoder<u8>, AllocError> {
    let mut coder = QueueEncoder::<u8>::with_bit_capacity(alloc, 16)?;
    writes::<Queue, _>(&mut coder, bits);
    Ok(coder)
}

/// Makes a stack of `bits`, with a vector that has no room for a third word.
fn stack(alloc: Global, bits: &[u8]) -> Result<StackCoder<u8>, AllocError> {
    let mut coder = StackCoder::<u8>::with_bit_capacity(alloc, 15)?;
    writes::<Stack, _>(&mut coder, bits);
    Ok(coder)
}

/// Makes the call of `row` on a new queue, and returns the result of the test.
fn queue_goes(alloc: Global, row: Row) -> Result<(), Fail> {
    let mut coder = queue(alloc, row.2)?;
    let mut other = queue(alloc, row.2)?;
    let put = make::<Queue>(&mut coder, row.0);
    let came = comes::<Queue>(&mut coder, &mut other, put, row)?;
    said(came, row.1)
}

/// Makes the call of `row` on a new stack, and returns the result of the test.
fn stack_goes(alloc: Global, row: Row) -> Result<(), Fail> {
    let mut coder = stack(alloc, row.2)?;
    let mut other = stack(alloc, row.2)?;
    let put = make_on_stack(&mut coder, row.0);
    let came = comes::<Stack>(&mut coder, &mut other, put, row)?;
    said(came, row.1)
}

/// Compares the words that a guard of a queue lends, and tries again after a refusal. Returns the outcome.
fn queue_shows(coder: &mut QueueEncoder<u8>) -> Came {
    let words = [205u8, 205, 13];
    match shows_queue(coder, &words) {
        Ok(are_shown) => (false, are_shown),
        Err(AllocError) => (true, matches!(shows_queue(coder, &words), Ok(true))),
    }
}

/// Compares the words that a guard of a stack lends, and tries again after a refusal. Returns the outcome.
fn stack_shows(coder: &mut StackCoder<u8>) -> Came {
    let words = [205u8, 205, 77];
    match shows_stack(coder, &words) {
        Ok(are_shown) => (false, are_shown),
        Err(AllocError) => (true, matches!(shows_stack(coder, &words), Ok(true))),
    }
}

#[test]
fn refused_requests_of_queues(rt: HostRuntime) -> Result<(), Fail> {
    let rows: [Row; 4] = [
        (Call::Bit, "write_bit", FULL, b"1", 0),
        (Call::Symbol, "encode_symbol", BITS, b"00110", 0),
        (Call::List, "encode_iid_symbols", BITS, b"100110", 1),
        (Call::Pairs, "encode_symbols", BITS, b"100110", 1),
    ];
    for row in rows {
        queue_goes(rt.alloc(), row)?;
    }
    let came = queue_shows(&mut queue(rt.alloc(), BITS)?);
    said(came, "get_compressed")
}

#[test]
fn refused_requests_of_stacks(rt: HostRuntime) -> Result<(), Fail> {
    stack_goes(rt.alloc(), (Call::Bit, "write_bit", FULL, b"1", 0))?;
    stack_goes(
        rt.alloc(),
        (Call::Symbol, "encode_symbol", BITS, b"01100", 0),
    )?;
    let lists = [
        (Call::List, "encode_iid_symbols"),
        (Call::Pairs, "encode_symbols"),
        (Call::ListBack, "encode_iid_symbols_reverse"),
        (Call::PairsBack, "encode_symbols_reverse"),
    ];
    for (call, name) in lists {
        stack_goes(rt.alloc(), (call, name, BITS, b"101100", 1))?;
    }
    let came = stack_shows(&mut stack(rt.alloc(), BITS)?);
    said(came, "get_compressed")
}

/// A call that consumes a queue.
#[derive(Clone, Copy)]
enum Export {
    Words,
    Decoder,
    Bits,
}

/// Consumes a queue with the call `export`. Returns whether its words or bits are as expected.
fn take(coder: QueueEncoder<u8>, export: Export) -> Went {
    match export {
        Export::Words => match coder.into_compressed() {
            Ok(words) => Ok(words.as_slice() == [205u8, 205, 13].as_slice()),
            Err(error) => Err(error),
        },
        Export::Decoder => match coder.into_decoder() {
            Ok(mut decoder) => Ok(gives::<Queue, _>(&mut decoder, BITS)),
            Err(error) => Err(error),
        },
        Export::Bits => match coder.into_overshooting_iter() {
            Ok(mut bits) => Ok(gives::<Queue, _>(&mut bits, BITS)),
            Err(error) => Err(error),
        },
    }
}

/// Consumes a queue, and consumes its copy if there was no memory. Returns the outcome.
fn take_or_copy(coder: QueueEncoder<u8>, copy: QueueEncoder<u8>, export: Export) -> Came {
    let are_same = coder == copy;
    match take(coder, export) {
        Ok(went) => (false, went & are_same),
        Err(AllocError) => (true, are_same & matches!(take(copy, export), Ok(true))),
    }
}

/// Clones a coder. Returns whether there was memory and the clone equals the coder.
fn copies<S: BitOrder>(coder: &SymbolCoder<u8, S>) -> bool {
    match coder.clone() {
        Ok(copy) => copy == *coder,
        Err(AllocError) => false,
    }
}

/// Clones a queue, and consumes it with the call `export`. Returns the result of the test.
fn export_goes(alloc: Global, export: Export, name: &'static str) -> Result<(), Fail> {
    let coder = queue(alloc, BITS)?;
    match coder.clone() {
        Ok(copy) => said(take_or_copy(coder, copy, export), name),
        Err(AllocError) => said((true, copies(&coder)), "clone"),
    }
}

/// Exports a stack. Returns whether the words are as expected.
fn stack_words(coder: StackCoder<u8>) -> Went {
    match coder.into_compressed() {
        Ok(words) => Ok(words.as_slice() == [205u8, 205, 77].as_slice()),
        Err(error) => Err(error),
    }
}

/// Exports a stack, and exports its copy if there was no memory. Returns the outcome.
fn stack_or_copy(coder: StackCoder<u8>, copy: StackCoder<u8>) -> Came {
    let are_same = coder == copy;
    match stack_words(coder) {
        Ok(went) => (false, went & are_same),
        Err(AllocError) => (true, are_same & matches!(stack_words(copy), Ok(true))),
    }
}

/// Clones a stack, and exports it. Returns the result of the test.
fn stack_export_goes(alloc: Global) -> Result<(), Fail> {
    let coder = stack(alloc, BITS)?;
    match coder.clone() {
        Ok(copy) => said(stack_or_copy(coder, copy), "into_compressed of a stack"),
        Err(AllocError) => said((true, copies(&coder)), "clone of a stack"),
    }
}

/// Makes coders with room for 40 bits, and tries again after a refusal. Returns the result of the test.
fn capacities_go(alloc: Global) -> Result<(), Fail> {
    if QueueEncoder::<u8>::with_bit_capacity(alloc, 40).is_err() {
        let again = QueueEncoder::<u8>::with_bit_capacity(alloc, 40).is_ok();
        return said((true, again), "with_bit_capacity");
    }
    if StackCoder::<u8>::with_bit_capacity(alloc, 40).is_err() {
        let again = StackCoder::<u8>::with_bit_capacity(alloc, 40).is_ok();
        return said((true, again), "with_bit_capacity of a stack");
    }
    Ok(())
}

#[test]
fn refused_requests_of_exports(rt: HostRuntime) -> Result<(), Fail> {
    capacities_go(rt.alloc())?;
    export_goes(rt.alloc(), Export::Words, "into_compressed")?;
    export_goes(rt.alloc(), Export::Decoder, "into_decoder")?;
    export_goes(rt.alloc(), Export::Bits, "into_overshooting_iter")?;
    stack_export_goes(rt.alloc())
}

/// Returns whether a tree has three symbols, or an error if there was no memory.
fn tree_went(tree: Result<usize, HuffmanError<Infallible>>) -> Went {
    match tree {
        Ok(symbols) => Ok(symbols == 3),
        Err(HuffmanError::Memory) => Err(AllocError),
        Err(_) => Ok(false),
    }
}

/// Makes a tree of three weights. Returns whether it has three symbols.
///
/// If `for_encoding` is true, it is an encoder's tree. If `are_given` is true, the weights are given as `Result`s.
fn make_tree(alloc: Global, for_encoding: bool, are_given: bool) -> Went {
    let weights = [5u8, 2, 4];
    let items: [Result<u8, Infallible>; 3] = [Ok(5), Ok(2), Ok(4)];
    tree_went(match (for_encoding, are_given) {
        (true, false) => EncoderHuffmanTree::from_probabilities(alloc, &weights).map(
            |tree| tree.num_symbols(),
        ),
        (true, true) => EncoderHuffmanTree::try_from_probabilities(alloc, items).map(
            |tree| tree.num_symbols(),
        ),
        (false, false) => DecoderHuffmanTree::from_probabilities(alloc, &weights).map(
            |tree| tree.num_symbols(),
        ),
        (false, true) => DecoderHuffmanTree::try_from_probabilities(alloc, items).map(
            |tree| tree.num_symbols(),
        ),
    })
}

/// Makes a tree, and tries again after a refusal. Returns the outcome.
fn tree_comes(alloc: Global, for_encoding: bool, are_given: bool) -> Came {
    match make_tree(alloc, for_encoding, are_given) {
        Ok(went) => (false, went),
        Err(AllocError) => (
            true,
            matches!(make_tree(alloc, for_encoding, are_given), Ok(true)),
        ),
    }
}

#[test]
fn refused_requests_of_trees(rt: HostRuntime) -> Result<(), Fail> {
    let trees = [
        (true, false, "from_probabilities, for encoding"),
        (true, true, "try_from_probabilities, for encoding"),
        (false, false, "from_probabilities, for decoding"),
        (false, true, "try_from_probabilities, for decoding"),
    ];
    for (for_encoding, are_given, name) in trees {
        said(tree_comes(rt.alloc(), for_encoding, are_given), name)?;
    }
    Ok(())
}

/// Checks that reversing a codeword of two words of bits takes no memory.
#[test]
fn a_codeword_of_128_bits(rt: HostRuntime) -> Result<(), Fail> {
    turned_round(rt.alloc(), 127)
}

#[test]
fn a_codeword_of_129_bits(rt: HostRuntime) -> Result<(), Fail> {
    turned_round(rt.alloc(), 128)
}

/// Checks the prefix form of a codeword of more than two words of bits, which is reversed on a stack that has to grow.
#[test]
fn huffman_growth_refused(rt: HostRuntime) -> Result<(), Fail> {
    let tree = match deep_tree(rt.alloc()) {
        Ok(tree) => tree,
        Err(HuffmanError::Memory) => return Err(Fail::from("want of memory for the tree")),
        Err(_) => return Err(Fail::from("another error")),
    };
    match prefix_of(&tree, 0) {
        Coded::Bits(_, 149) => Ok(()),
        Coded::Refused(0) => Err(Fail::from("want of memory, and nothing was emitted")),
        _ => Err(Fail::from("another answer")),
    }
}
