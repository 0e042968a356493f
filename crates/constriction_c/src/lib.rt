//! The calls of `constriction_calls` as C functions. `include/constriction.h` describes the functions for C callers.
//!
//! Each call is available in two sizes: with 32-bit words (64-bit states, a precision of 24 bits), and with 16-bit
//! words (32-bit states, a precision of 12 bits).
//!
//! The C function of a call passes its arguments to the call, and returns the code of the call's result
//! ([`codes::code_of`]). If the result is the error `NoSpace`, the function also sets `needed` to the number of words
//! that the buffer has to hold. For any other result the function leaves `needed` unchanged. The contract of the
//! function (`ReturnsCodeOf`) is the contract of the call, applied to the result that the returned code stands for.
//!
//! `docs/CONTRACTS.md` has the contract of each C function.
#![tactic(auto)]

pub mod ans;
pub mod chain;
pub mod codes;
pub mod lanes;
pub mod quantized;
pub mod range;
pub mod store;
pub mod symbol;
pub mod version;
