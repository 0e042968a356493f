//! Gaussian models: each symbol has its own mean and standard deviation.
//!
//! The symbols are integers. The means and the standard deviations are integers in units of `2^-16`.

use anyhow::{Context, Result};
use constriction::stream::model::{Gaussian, LeakilyQuantizedDistribution, LeakyQuantizer};
use constriction::stream::stack::DefaultAnsCoder;
use constriction::stream::{Decode, Encode};
use std::alloc::Global;

/// The model of a Gaussian over the integers from -100 to 100.
type Model = LeakilyQuantizedDistribution<Gaussian, u32, 24>;

/// Makes the model of a Gaussian from its mean and its standard deviation.
fn new_model(mean: i64, deviation: u32) -> Result<Model> {
    let quantizer = LeakyQuantizer::<u32, 24>::new(-100, 100)?;
    let gaussian = Gaussian::new(mean, deviation).context("a deviation of 0")?;
    Ok(quantizer.quantize(gaussian))
}

/// Encodes a symbol with its own model.
fn put(coder: &mut DefaultAnsCoder, symbol: i32, model: &Model) -> Result<()> {
    coder.encode_symbol(&symbol, model)?;
    Ok(())
}

/// Decodes a symbol with its own model.
fn take(coder: &mut DefaultAnsCoder, model: &Model) -> Result<i32> {
    Ok(coder.decode_symbol(model)?)
}

/// Encodes two symbols, each with its own Gaussian, decodes them, and prints the symbols decoded.
pub fn run(rt: &impl Print, alloc: Global) -> Result<()> {
    // Means of 3.5 and -20, standard deviations of 2.25 and 0.5, in units of 2^-16.
    let (wide, narrow) = (new_model(229376, 147456)?, new_model(-1310720, 32768)?);

    // The symbol encoded last is decoded first.
    let mut coder = DefaultAnsCoder::new(alloc);
    put(&mut coder, 7, &wide)?;
    put(&mut coder, -20, &narrow)?;

    let second = take(&mut coder, &narrow)?;
    let first = take(&mut coder, &wide)?;
    println!(rt; "{first} {second}")?; // 7 -20
    Ok(())
}
