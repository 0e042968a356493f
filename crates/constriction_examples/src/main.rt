//! Worked examples that call the coders through the crate `constriction` alone.
//!
//! The program runs these modules in order:
//!
//! - [`uses`]: functions that call the stack coder, and whose contracts say which symbols are decoded.
//! - [`bits_back`]: bits-back coding.
//! - [`isolation`]: which symbols change if one model is replaced, on the stack coder and on the chain coder.
//! - [`programs`]: small programs for the other coders and for models.
//! - [`any_backend`]: a user-defined backend.
//! - [`calls`]: the calls of each coder, with concrete types of words, heads and models.
//!
//! [`laws_of_each_coder`] applies one law of each coder. The program doesn't run it.
#![tactic(auto)]

mod any_backend;
mod bits_back;
mod calls;
mod isolation;
mod laws_of_each_coder;
mod programs;
mod uses;

use anyhow::Result;

fn main(rt: HostRuntime) -> Result<()> {
    let alloc = rt.alloc();
    uses::run(&rt, alloc)?;
    bits_back::run(&rt, alloc)?;
    isolation::run(&rt, alloc)?;
    programs::range::run(&rt, alloc)?;
    programs::chain::run(&rt, alloc)?;
    programs::bits::run(&rt, alloc)?;
    programs::huffman::run(&rt, alloc)?;
    programs::models::run(&rt, alloc)?;
    any_backend::run(&rt, alloc)?;
    calls::run(&rt, alloc)
}
