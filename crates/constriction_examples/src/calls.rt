//! The calls of each coder as a program makes them, with concrete types of words, heads and models.
//!
//! Decoders are passed to [`take_one`], [`take_all`] and [`take_each`]. These functions are generic over decoders, so
//! their proofs are made once for all types of decoders.
//!
//! The prover finds no proof for certain forms of calls. `docs/CALLING.md` lists these forms, and says what to write in
//! their place. The functions here use forms that the prover accepts.

pub mod chain;
pub mod queue;
pub mod stack;
pub mod symbol;

use anyhow::{Result, bail};
use constriction::WordOf;
use constriction::stream::Decode;
use constriction::stream::model::WeightTable;
use std::alloc::Global;
use std::fmt::Display;
use std::iter;

type Table = WeightTable<u32, 24>;

/// Makes a table with these weights.
fn new_table(alloc: Global, weights: &[u32]) -> Result<Table> {
    Ok(Table::new(alloc, weights)?)
}

/// Prints a decoded symbol. Fails if the decode failed.
fn show<Symbol: Display + Copy, E: Drop>(rt: &impl Print, symbol: Result<Symbol, E>) -> Result<()> {
    let Ok(symbol) = symbol else {
        bail!("no symbol was decoded");
    };
    println!(rt; "{symbol}")?;
    Ok(())
}

/// Decodes one symbol, and prints it.
fn take_one<Coder: Decode<24>>(rt: &impl Print, coder: &mut Coder, table: &Table) -> Result<()>
where
    u32: WordOf<Coder::Word>,
    Coder::FrontendError: Drop,
    Coder::BackendError: Drop,
{
    show(rt, coder.decode_symbol(table))
}

/// Decodes `count` symbols with one model, and prints them.
fn take_all<Coder: Decode<24>>(
    rt: &impl Print,
    coder: &mut Coder,
    count: usize,
    table: &Table,
) -> Result<()>
where
    u32: WordOf<Coder::Word>,
    Coder::FrontendError: Drop,
    Coder::BackendError: Drop,
{
    for symbol in coder.decode_iid_symbols(count, table) {
        show(rt, symbol)?;
    }
    Ok(())
}

/// Decodes two symbols each with its own model, and prints them.
fn take_each<Coder: Decode<24>>(rt: &impl Print, coder: &mut Coder, table: &Table) -> Result<()>
where
    u32: WordOf<Coder::Word>,
    Coder::FrontendError: Drop,
    Coder::BackendError: Drop,
{
    for symbol in coder.decode_symbols(iter::repeat_n(table, 2)) {
        show(rt, symbol)?;
    }
    Ok(())
}

/// Runs the calls of each coder, and prints the results.
pub fn run(rt: &impl Print, alloc: Global) -> Result<()> {
    let table = new_table(alloc, &[3, 2, 16777211])?;
    stack::run(rt, alloc, &table)?;
    chain::run(rt, alloc)?;
    queue::run(rt, alloc, &table)?;
    symbol::run(rt, alloc, &table)
}
