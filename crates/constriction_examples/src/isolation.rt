//! Isolation: which symbols change if one model is replaced.
//!
//! A stack coder decodes from one large number. Each decode reduces that number, by an amount that depends on the
//! symbol's model. So if the model of the first symbol is replaced, all later symbols may change.
//!
//! A chain coder takes a piece of 12 bits from the words for each symbol, whatever the models are. The symbol's model
//! selects the symbol that the piece stands for. The rest of the piece's information goes to a second stack, the
//! remainders. So if the model of the first symbol is replaced, that symbol and the remainders may change, and no other
//! symbol changes. If symbols are samples, as in bits-back coding, a small change of one model then has a small effect.
//! The price is that encoding needs the remainders.
//!
//! [`run`] decodes the same words four times: with each coder, and with each of two models for the first symbol. The
//! law `symbols_are_isolated` of `constriction::laws::chain::isolation` says that the chain coder's later symbols stay
//! the same for any words and any models.

use anyhow::{Context, Result, bail};
use constriction::WordOf;
use constriction::stream::Decode;
use constriction::stream::chain::SmallChainCoder;
use constriction::stream::model::WeightTable;
use constriction::stream::stack::SmallAnsCoder;
use std::alloc::Global;

/// Tables with a precision of 12 bits: the weights of the symbols 0, 1, 2, .. add up to 4096.
type Table = WeightTable<u16, 12>;

/// The eight words to decode from, chosen at random. The coders read the last word first.
const WORDS: [u16; 8] = [
    0x243f, 0x6a88, 0x85a3, 0x08d3, 0x1319, 0x8a2e, 0x0370, 0x7344,
];

/// The number of symbols decoded after the first symbol.
const LATER: usize = 7;

/// The first symbol, and the later symbols.
type Symbols = (usize, Vec<usize>);

/// Makes a table with these weights.
fn new_table(alloc: Global, weights: &[u16]) -> Result<Table> {
    Ok(Table::new(alloc, weights)?)
}

/// Decodes a symbol with `first`, and then one with each table of `later`.
///
/// The function is generic over decoders, so its proof is made once for both coders.
fn decode<Coder: Decode<12>>(
    alloc: Global,
    coder: &mut Coder,
    first: &Table,
    later: &[Table],
) -> Result<Symbols>
where
    u16: WordOf<Coder::Word>,
    Coder::FrontendError: Drop,
    Coder::BackendError: Drop,
{
    let symbol = coder.decode_symbol(first).ok().context("no symbol")?;
    let mut rest = Vec::new(alloc);
    for table in later {
        rest.push(coder.decode_symbol(table).ok().context("no symbol")?)?;
    }
    Ok((symbol, rest))
}

/// Decodes symbols from [`WORDS`] with a stack coder. `first` is the first symbol's model, and `later` has the others.
fn by_stack(alloc: Global, first: &Table, later: &[Table]) -> Result<Symbols> {
    let Ok(mut coder) = SmallAnsCoder::from_compressed(WORDS.to_vec(alloc)?) else {
        bail!("no coder exports words that end with a zero word");
    };
    decode(alloc, &mut coder, first, later)
}

/// Decodes symbols from [`WORDS`] with a chain coder. `first` is the first symbol's model, and `later` has the others.
fn by_chain(alloc: Global, first: &Table, later: &[Table]) -> Result<Symbols> {
    let Ok(mut coder) = SmallChainCoder::from_compressed(alloc, WORDS.to_vec(alloc)?) else {
        bail!("too few words, or a zero word at the end");
    };
    decode(alloc, &mut coder, first, later)
}

/// Prints a coder's name, and the symbols that the coder decoded with each of the two models for the first symbol.
fn show(rt: &impl Print, coder: &str, one: &Symbols, other: &Symbols) -> Result<()> {
    println!(rt; "{coder}")?;
    println!(rt; "  under the one model:   {}, then {:?}", one.0, one.1)?;
    println!(rt; "  under the other model: {}, then {:?}", other.0, other.1)?;
    Ok(())
}

/// Decodes [`WORDS`] with stack coders, and prints the symbols. The first symbol has the model `first` or `replaced`.
fn show_stack(
    rt: &impl Print,
    alloc: Global,
    first: &Table,
    replaced: &Table,
    later: &[Table],
) -> Result<()> {
    let one = by_stack(alloc, first, later)?;
    let other = by_stack(alloc, replaced, later)?;
    show(rt, "stack coder (ANS)", &one, &other)
}

/// Decodes [`WORDS`] with chain coders, and prints the symbols. The first symbol has the model `first` or `replaced`.
fn show_chain(
    rt: &impl Print,
    alloc: Global,
    first: &Table,
    replaced: &Table,
    later: &[Table],
) -> Result<()> {
    let one = by_chain(alloc, first, later)?;
    let other = by_chain(alloc, replaced, later)?;
    show(rt, "chain coder", &one, &other)
}

/// Makes the tables of the symbols after the first: 16 symbols of equal weights.
fn later_tables(alloc: Global) -> Result<Vec<Table>> {
    let mut later = Vec::new(alloc);
    for _ in 0..LATER {
        later.push(new_table(alloc, &[256; 16])?)?;
    }
    Ok(later)
}

/// Decodes [`WORDS`] with stack coders and with chain coders, and prints the symbols.
///
/// Each kind of coder decodes twice, with different models for the first symbol.
pub fn run(rt: &impl Print, alloc: Global) -> Result<()> {
    let first = new_table(alloc, &[2048, 1024, 512, 512])?;
    let replaced = new_table(alloc, &[512, 512, 1024, 2048])?;
    let later = later_tables(alloc)?;
    show_stack(rt, alloc, &first, &replaced, &later)?;
    show_chain(rt, alloc, &first, &replaced, &later)
}
