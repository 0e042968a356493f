//! The C functions of models: symbols' intervals under a family of distributions, and weights from counts.
//!
//! The modules of [`constriction_inputs::quantized`] have the calls, and explain their arguments and errors.

mod u16;
mod u32;
