//! The C functions of the stack coder, `constriction_ans_..`.
//!
//! The module [`constriction_calls::ans`] has the calls, and explains their arguments and errors.

mod by_weights;
mod u16;
mod u16_kinds;
mod u32;
mod u32_kinds;
