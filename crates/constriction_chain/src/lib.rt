//! The chain coder: the model of one symbol never affects another decoded symbol.
//!
//! A [`coder::ChainCoder`] decodes every symbol from bits that no other symbol uses. A decode takes a quantile of
//! `PRECISION` bits from the compressed words. It looks up the quantile's symbol, and moves the remaining information
//! to a second stack of words, the remainders. If the model of one symbol changes, that symbol and the remainders may
//! change, but no other symbol. Bits-back coding and inference with entropy coders need this property. Encoding is
//! the inverse: it takes the information back from the remainders and restores the bits.
//!
//! ```
//! let table = WeightTable::<u32, 24>::new(alloc, &[8388608, 8388608])?;
//! match DefaultChainCoder::from_compressed(alloc, words) {     // a `Vec<u32>`
//!     Ok(mut coder) => {
//!         let symbol = coder.decode_symbol(&table)?;           // from 24 bits of `words`
//!         coder.encode_symbol(&symbol, &table)?;               // restores the state before the decode
//!         let (prefix, suffix) = coder.into_remainders()?;     // words not read, remainders
//!     }
//!     Err(CoderError::Frontend(words)) => {}                   // too few words, or the last one was zero
//!     Err(CoderError::Backend(never)) => match never {},
//! }
//! ```
//!
//! The modules:
//! - [`coder`]: the coder, its steps, changes of precision, its words and its positions.
//! - [`heads`]: the two numbers above the coder's words.
//! - [`errors`]: the errors of the coder's calls.
//! - `halves`: the two halves of a decode, and an encode, on the heads and the backends.
//! - `steps`: the parts of a step, each on the compressed side or the remainders' side.
//! - `moves`: moving words between the heads and a backend.
//!
//! Contracts cite the definitions of these files:
//!
//! - `specs/Walk.antt`: quantiles, as a walk on bits.
//! - `specs/Chain.antt`: states, steps, and changes of precision.
//! - `specs/Words.antt`: imports and exports.
//! - `specs/Steps.antt`: the possible results of a call over backends.
//!
//! The laws of `constriction_laws` also cite `specs/Symbols.antt`, `specs/Imports.antt` and `specs/Runs.antt`.
//! Definitions describe words by natural numbers and list them in reading order.
//!
//! `docs/CONTRACTS.md` has the contract of each call that the crate `constriction` exports.
#![tactic(auto)]

pub mod coder;
pub mod errors;
mod halves;
pub mod heads;
mod moves;
mod steps;

pub use crate::coder::seeking::BackendPosition;
pub use crate::coder::{ChainCoder, DefaultChainCoder, SmallChainCoder};
pub use crate::errors::{
    BackendError, ChangePrecisionError, DecoderError, DecoderFrontendError, EncoderError,
    EncoderFrontendError,
};
pub use crate::heads::ChainCoderHeads;
