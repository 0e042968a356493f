//! The C functions of the chain coder, `constriction_chain_..`.
//!
//! The caller keeps a struct of two heads, and two buffers whose first words are in use. `count` is the number of
//! compressed words in use, and `rest` is the number of words of remainders in use. The module
//! [`constriction_calls::chain`] has the calls, and explains their arguments and errors.

mod by_weights;
pub mod u16;
mod u16_kinds;
mod u16_parts;
pub mod u32;
mod u32_kinds;
mod u32_parts;
