//! Checks and converts the models and the words that a caller passes in buffers.
//!
//! The caller may be written in another language. The calls of `constriction_calls` encode and decode with these models
//! and words.
//!
//! - [`refusal`]: the error of a call that refuses its arguments.
//! - [`items`]: what a call encodes. An item is an interval of quantiles.
//! - [`symbols`]: items that a caller passes as symbols and models.
//! - [`intervals`]: items that a caller passes as intervals alone.
//! - [`symbol`]: the types of symbols.
//! - [`models`]: the forms in which a caller passes the models of symbols.
//! - [`rows`]: rows of weights as models.
//! - [`known`]: checks that symbols have weights above 0.
//! - [`quantized`]: calls that write the intervals of models, and weights from counts, into a caller's buffers.
//! - [`buffers`]: a call that appends words to a buffer.
#![tactic(auto)]

pub mod buffers;
pub mod intervals;
pub mod items;
pub mod known;
pub mod models;
pub mod quantized;
pub mod refusal;
pub mod rows;
pub mod symbol;
pub mod symbols;
