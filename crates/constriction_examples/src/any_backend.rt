//! Functions that are generic over backends, and a user-defined backend to call them with: [`Counted`].

mod counted;

ghost use Rattle.std.specs.Prelude.{◌↔◌, ◌<◌, ◌^◌, IsSome, IfSome};
ghost use Rattle.constriction.specs.queue.States.{lower_of, range_of, IsPosition};
ghost use Rattle.constriction.specs.queue.Encoder.{run_by};

use anyhow::{Result, bail};
use constriction::backends::{BothWays, CountsWords, IntoReadWords, ReadWords, WriteWords};
use constriction::stream::model::WeightTable;
use constriction::stream::queue::{RangeCoderState, RangeEncoder};
use constriction::stream::{Decode, Encode};
use constriction::symbol::exp_golomb::ExpGolomb;
use constriction::symbol::{QueueDecoder, QueueEncoder, ReadBitStream, WriteBitStream};
use constriction::{Pos, Queue};
use counted::Counted;
use std::alloc::Global;

/// Returns the position of an encoder: the number of words written and pending, and the encoder's interval.
///
/// Returns `None` if the number of words doesn't fit a `usize`.
fn place<Backend: CountsWords<u32>>(
    encoder: &RangeEncoder<u32, u64, Backend>,
) -> Option<(usize, RangeCoderState<u32, u64>)>
    ensures variant { IsSome result ↔ ((run_by 32 64 encoder.now).moves < 2 ^ 64) }
    ensures some { IfSome result (λ place.
        IsPosition 64 (run_by 32 64 encoder.now) place.0 (lower_of place.1) (range_of place.1)) }
{
    if encoder.pos_fits() {
        Some(encoder.pos())
    } else {
        None
    }
}

/// Turns an encoder into a decoder, and returns the first symbol decoded. Returns `None` if a call fails.
fn first_symbol<Backend>(
    encoder: RangeEncoder<u32, u64, Backend>,
    table: &WeightTable<u32, 24>,
) -> Option<usize>
where
    Backend: WriteWords<u32> + IntoReadWords<u32, Queue> + BothWays<u32> + Drop,
    Backend::WriteError: Drop,
    <Backend::IntoReadWords as ReadWords<u32, Queue>>::ReadError: Drop,
{
    match encoder.into_decoder() {
        Ok(mut decoder) => match decoder.decode_symbol(table) {
            Ok(symbol) => Some(symbol),
            Err(_) => None,
        },
        Err(_) => None,
    }
}

/// Turns a queue encoder into a decoder of the encoder's bits. The decoder reads the first bit first.
///
/// # Errors
///
/// Returns the error that the backend returned when the encoder wrote the word with its last bits.
fn bits_of<Backend>(
    encoder: QueueEncoder<u32, Backend>,
) -> Result<QueueDecoder<u32, Backend::IntoReadWords>, Backend::WriteError>
where
    Backend: WriteWords<u32> + IntoReadWords<u32, Queue> + BothWays<u32> + Drop,
{
    encoder.into_decoder()
}

/// Creates an encoder over the backend [`Counted`], encodes three symbols, and returns the encoder.
fn encoded(
    alloc: Global,
    table: &WeightTable<u32, 24>,
) -> Result<RangeEncoder<u32, u64, Counted<Vec<u32>>>> {
    let counted = Counted::new(Vec::new(alloc));
    let mut encoder = RangeEncoder::<u32, u64, _>::with_write_backend(counted);
    encoder.encode_iid_symbols([1usize, 0, 1].as_slice(), table)?;
    Ok(encoder)
}

/// Prints two counts of an encoder's words.
///
/// The first count comes from the encoder's position: the words written and pending before the seal. The second count
/// is the field `written` of the backend: the words written, including the seal.
fn show_counts(rt: &impl Print, encoder: RangeEncoder<u32, u64, Counted<Vec<u32>>>) -> Result<()> {
    let Some((words, _)) = place(&encoder) else {
        bail!("more words than a usize can count");
    };
    let written = encoder.into_compressed()?.written;
    println!(rt; "{words}")?; // 2
    println!(rt; "{written}")?; // 3
    Ok(())
}

/// Encodes three symbols over the backend [`Counted`], and prints two counts of words and the first symbol decoded.
fn show_symbols(rt: &impl Print, alloc: Global, table: &WeightTable<u32, 24>) -> Result<()> {
    show_counts(rt, encoded(alloc, table)?)?;
    match first_symbol(encoded(alloc, table)?, table) {
        Some(symbol) => println!(rt; "{symbol}")?, // 1
        None => bail!("the backend refused a call"),
    }
    Ok(())
}

/// Creates a queue encoder over the backend [`Counted`], encodes two numbers, and returns the encoder.
fn encoded_bits(
    alloc: Global,
    golomb: &ExpGolomb<u32>,
) -> Result<QueueEncoder<u32, Counted<Vec<u32>>>> {
    let mut bits = QueueEncoder::<u32, _>::from_compressed(Counted::new(Vec::new(alloc)));
    bits.encode_iid_symbols([5u32, 7].as_slice(), golomb)?;
    Ok(bits)
}

/// Encodes two numbers over the backend [`Counted`], and prints the first number decoded.
fn show_bits(rt: &impl Print, alloc: Global) -> Result<()> {
    let golomb = ExpGolomb::<u32>::new();
    let number = bits_of(encoded_bits(alloc, &golomb)?)?.decode_symbol(&golomb);
    println!(rt; "{}", number?)?; // 5
    Ok(())
}

/// Encodes and decodes over the backend [`Counted`], and prints the results.
pub fn run(rt: &impl Print, alloc: Global) -> Result<()> {
    let table = WeightTable::<u32, 24>::new(alloc, &[3, 2, 16777211])?;
    show_symbols(rt, alloc, &table)?;
    show_bits(rt, alloc)
}
