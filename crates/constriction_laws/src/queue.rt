//! Laws of the range coder.
//!
//! - [`words`]: which steps a decoder reads from words.
//! - [`lists`]: decoding sealed words returns the encoded symbols, first symbol first.
//! - [`positions`]: decoding from a recorded position returns the symbols encoded after it.
//! - [`following`]: self-delimiting seals, which any words may follow.
//! - [`concatenated`]: the error of decoding a list of symbols from a position in words.
//! - [`flagged`]: symbols of two models in one stream, separated by a flag.
//! - [`guards`]: the drop of a guard restores the encoder.
//! - [`refusals`]: how many words of room in a backend are enough for a step.
//! - [`round_trips`]: functions that make the coder's calls for one half of a round trip: encoding or decoding.

pub mod concatenated;
pub mod flagged;
pub mod following;
pub mod guards;
pub mod lists;
pub mod positions;
pub mod refusals;
pub mod round_trips;
pub mod words;
