//! Calls of the stack coder with concrete types: 32-bit words, a 64-bit head and tables of weights.

use super::{Table, take_all, take_each, take_one};
use crate::uses::words_so_far;
use anyhow::{Result, bail};
use constriction::stream::stack::DefaultAnsCoder;
use constriction::stream::{AsDecoder, Code, Encode, IntoDecoder};
use constriction::{Pos, Seek};
use std::alloc::Global;
use std::iter;

/// Encodes lists of symbols, each list from its last symbol to its first.
fn put_from_the_end(coder: &mut DefaultAnsCoder, table: &Table) -> Result<()> {
    coder.encode_iid_symbols_reverse([2usize, 0].as_slice(), table)?;
    coder.encode_symbols_reverse([(&1usize, table), (&2, table)])?;
    Ok(())
}

/// Encodes lists of symbols, each list from its first symbol to its last.
///
/// The last list begins with a symbol and ends with an error. So encoding this list must fail.
fn put_forth(coder: &mut DefaultAnsCoder, table: &Table) -> Result<()> {
    coder.encode_symbols([0usize, 1, 1, 0].iter().zip(iter::repeat_n(table, 4)))?;
    if coder
        .try_encode_symbols([Ok((&2usize, table)), Err(7u8)])
        .is_ok()
    {
        bail!("an item that is an error was encoded");
    }
    Ok(())
}

/// Records a position, encodes symbols, and seeks back to the position with a decoder over the coder's words.
///
/// Prints the symbol that the decoder returns there: the symbol on top of the coder when it recorded the position.
fn seek(rt: &impl Print, coder: &mut DefaultAnsCoder, table: &Table) -> Result<()> {
    let position = coder.pos();
    put_from_the_end(coder, table)?;
    let mut decoder = coder.as_seekable_decoder();
    if decoder.seek(position).is_err() {
        bail!("no position of these words");
    }
    take_one(rt, &mut decoder, table)
}

/// Prints whether a coder's head is above 0, whether the coder is empty, and whether two ways to export words agree.
///
/// The two ways are an iterator over the words, and a copy of the words that a guard lends. The call compares only the
/// first word of each.
fn look(rt: &impl Print, alloc: Global, coder: &mut DefaultAnsCoder) -> Result<()> {
    let is_some = coder.state() > 0;
    println!(rt; "{is_some} {}", coder.is_empty())?; // true false
    let first = coder.iter_compressed().next();
    let Some(words) = words_so_far(alloc, coder) else {
        bail!("no memory for the words");
    };
    println!(rt; "{}", words.first() == first.as_ref())?; // true
    Ok(())
}

/// Decodes a symbol with a decoder that borrows a coder, and one with a decoder made from the coder. Prints both.
fn hand_on(rt: &impl Print, coder: DefaultAnsCoder, table: &Table) -> Result<()> {
    take_one(rt, &mut coder.as_decoder(), table)?;
    take_one(rt, &mut coder.into_decoder(), table)
}

/// Decodes a symbol with a coder that borrows a list of words, and prints the symbol.
fn borrow(rt: &impl Print, table: &Table) -> Result<()> {
    let words = [1u32, 2, 3];
    let Ok(mut borrowed) = DefaultAnsCoder::from_compressed_slice(words.as_slice()) else {
        bail!("no coder exports words that end with a zero word");
    };
    take_one(rt, &mut borrowed, table)
}

/// Prints the size of an empty coder in words and in bits, and a symbol decoded from the empty coder.
fn empty(rt: &impl Print, alloc: Global, table: &Table) -> Result<()> {
    let coder = DefaultAnsCoder::new(alloc);
    if !coder.sizes_fit() {
        bail!("too many words");
    }
    println!(rt; "{} {}", coder.num_words(), coder.num_bits())?; // 0 0
    take_one(rt, &mut coder.into_seekable_decoder(), table) // 0, since an empty coder returns symbols too
}

/// Runs the functions that need a coder of 32-bit words, and prints the results.
fn large(rt: &impl Print, alloc: Global, table: &Table) -> Result<()> {
    let mut coder = DefaultAnsCoder::new(alloc);
    put_from_the_end(&mut coder, table)?;
    put_forth(&mut coder, table)?;
    take_all(rt, &mut coder, 3, table)?;
    take_each(rt, &mut coder, table)?;
    seek(rt, &mut coder, table)?;
    look(rt, alloc, &mut coder)?;
    hand_on(rt, coder, table)
}

/// Runs all functions of this file, and prints the results.
pub fn run(rt: &impl Print, alloc: Global, table: &Table) -> Result<()> {
    large(rt, alloc, table)?;
    borrow(rt, table)?;
    empty(rt, alloc, table)
}
