//! The C functions of the range coder, `constriction_range_..`.
//!
//! The caller keeps an encoder or a decoder as a struct, and a buffer of words. The first `len` words of an encoder's
//! buffer are in use. All words of a decoder's buffer are in use. The module [`constriction_calls::range`] has the
//! calls, and explains their arguments and errors.

mod by_weights;
pub mod u16;
mod u16_kinds;
mod u16_parts;
pub mod u32;
mod u32_kinds;
mod u32_parts;
