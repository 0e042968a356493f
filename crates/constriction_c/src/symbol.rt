//! The C functions of codebooks, `constriction_huffman_..` and `constriction_exp_golomb_..`.
//!
//! The module [`constriction_calls::symbol`] has the calls, and explains their arguments and errors.

pub mod u16;
mod u16_kinds;
pub mod u32;
mod u32_kinds;
