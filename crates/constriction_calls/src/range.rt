//! The range coder over a caller's buffers.
//!
//! The caller keeps an encoder or a decoder as a few numbers, and a buffer of words. The first `len` words of an
//! encoder's buffer are the words that it wrote, in the order of writing. All words of a decoder's buffer are in use.
//!
//! - [`encoding`]: encoding symbols, or intervals.
//! - [`decoding`]: decoding symbols.
//! - [`words`]: sealing an encoder's words.
//! - [`positions`]: placing a decoder at the first symbol or at a recorded position, and testing whether the encoded
//!   symbols may have ended.
//! - [`parts`]: the structs of the numbers that a caller keeps.
//!
//! # Errors
//!
//! A call that fails changes nothing. Each call first checks the cases below, in order, and returns the error of the
//! first case that holds:
//!
//! - `WrongLength`: `len` or the decoder's position is past the buffer's end, or there are more weights than the type
//!   of the decoded symbols has values.
//! - The error of the check of the call's items or models ([`constriction_inputs::items::Items::check`],
//!   [`constriction_inputs::models::Models::check`]).
//! - `InvalidData`: the caller's numbers are no state of an encoder or decoder, or the number of pending words plus the
//!   number of items to encode is above `2^64 - 18`.
//!
//! If none of these cases holds, the call checks for the errors that its own documentation lists.

pub mod decoding;
pub mod encoding;
pub mod parts;
pub mod positions;
pub mod words;
