//! The C functions of stores, `constriction_store_..`. The caller keeps the words and the index of a store.
//!
//! The module [`constriction_calls::store`] has the calls, and explains their arguments and errors.

pub mod u16;
pub mod u32;
