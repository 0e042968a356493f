//! The range coder: a queue of symbols.
//!
//! A [`encoder::RangeEncoder`] narrows an interval of numbers with each symbol, and writes the leading words that all
//! numbers of the interval share. A [`decoder::RangeDecoder`] decodes the symbols from these words, in the order in
//! which they were encoded. Each symbol may have its own model and precision, as long as the decoder gets the same
//! models in the same order.
//!
//! ```
//! let table = WeightTable::<u32, 24>::new(alloc, &[16777211, 5])?;
//! let mut encoder = DefaultRangeEncoder::new(alloc);
//! encoder.encode_symbol(&1, &table)?;
//! encoder.encode_symbol(&0, &table)?;
//! let words = encoder.into_compressed()?; // a `Vec<u32>`
//!
//! let mut decoder = DefaultRangeDecoder::from_compressed(words)?;
//! decoder.decode_symbol(&table)?; // 1, the first symbol encoded
//! decoder.decode_symbol(&table)?; // 0
//! Decode::<24>::maybe_exhausted(&decoder); // true
//! ```
//!
//! The modules:
//! - [`encoder`]: the encoder, its step, its words and its positions.
//! - [`decoder`]: the decoder, its step, and seeking.
//! - [`flagged`]: two models in one stream, separated by a flag symbol.
//! - [`as_written`]: backends that lend their words in the order in which they were written.
//! - [`state`], [`situation`]: the interval and the pending words.
//! - `step`: the arithmetic of encoding one symbol.
//! - `seal`: the arithmetic of a seal, the words that end the data.
//! - `reading`: reading words, and computing a quantile from the words read.
//! - `writing`: writing words to a backend.
//!
//! Contracts cite the definitions of `specs/Range.antt` (runs, seals and reading) and of `specs/Calls.antt` (the
//! possible results of a call over a backend). A run describes an encoder's interval by a range and an unbounded lower
//! end. A run has no pending words and no carries. `specs/Encoder.antt` and `specs/Decoder.antt` relate coders to runs.
//! `specs/Flagged.antt` states which of two models encodes each symbol.
//!
//! `docs/CONTRACTS.md` has the contract of each call that the crate `constriction` exports.
#![tactic(auto)]

pub mod as_written;
pub mod decoder;
pub mod encoder;
pub mod flagged;
mod reading;
mod seal;
pub mod situation;
pub mod state;
mod step;
mod writing;

pub use crate::as_written::LendsAsWritten;
pub use crate::decoder::symbols::DecoderFrontendError;
pub use crate::decoder::{DefaultRangeDecoder, RangeDecoder, SmallRangeDecoder};
pub use crate::encoder::compressed::RangeCompressedIter;
pub use crate::encoder::guard::EncoderGuard;
pub use crate::encoder::{DefaultRangeEncoder, RangeEncoder, SmallRangeEncoder};
pub use crate::flagged::{FlagSwitch, encode_flagged};
pub use crate::situation::EncoderSituation;
pub use crate::state::RangeCoderState;
