//! The C functions for many stack coders in one call, `constriction_ans_lanes_..`.
//!
//! The crate [`constriction_lanes`] has the calls, and explains their arguments and errors.

mod by_weights;
mod u16;
mod u16_kinds;
mod u32;
mod u32_kinds;
