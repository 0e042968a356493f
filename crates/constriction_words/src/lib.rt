//! Words: unsigned integers of a fixed number of bits, for code that is generic over word types.
//!
//! - [`bit_array`]: `BitArray`, the trait of word types with exact arithmetic, and its six impls for `u8`, `u16`,
//!   `u32`, `u64`, `u128` and `usize`.
//! - [`natural`]: `Natural`, the part of `BitArray` that compares, adds, subtracts and multiplies.
//! - [`reciprocal`]: `Reciprocal`, which replaces divisions by a fixed number with multiplications.
//! - [`word_of`]: `WordOf<T>`, which widens a word to a `T` and narrows a `T` to a word, and its eighteen impls.
//!
//! Each coder is written once, generic over its word types. Each step of a coder is proved once, for all word types.
//! Contracts describe a word by the natural number that it stands for. Generic code may rely on four laws, which its
//! callers don't have to prove:
//!
//! - A word's number is below `2 ^ BITS`.
//! - The number of a `NonZero` is above 0.
//! - `BITS` is at least 8 and at most 128.
//! - A word type that is `WordOf<T>` has at most `T::BITS` bits.
//!
//! For example, this function computes the mean of two words, rounded down. It adds the halves of the words, because
//! the sum of the words may not fit the type. Therefore callers of the function have nothing to prove:
//!
//! ```
//! fn mean<Word: BitArray>(first: Word, second: Word) -> Word
//!     ensures { Word.number result ≡ (Word.number first + Word.number second) / 2 }
//! {
//!     let odd = first.low_bits(1).times(second.low_bits(1));
//!     first.shift_right(1).plus(second.shift_right(1)).plus(odd)
//! }
//! ```
//!
//! No method of `Natural`, `BitArray` or `WordOf` shares its name with a method of `num_traits`. Code that needs
//! `BitArray` and a trait of `num_traits` writes both bounds, as in `Word: BitArray + PrimInt`, and calls every method by
//! its bare name.
//!
//! `docs/CONTRACTS.md` has the contract of each call that the crate `constriction` exports.
#![tactic(auto)]

pub mod bit_array;
mod division;
pub mod natural;
pub mod reciprocal;
mod reversing;
pub mod word_of;

pub use crate::bit_array::BitArray;
pub use crate::natural::Natural;
pub use crate::reciprocal::Reciprocal;
pub use crate::word_of::WordOf;
