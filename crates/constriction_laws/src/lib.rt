//! Laws of the coders: theorems about lists of calls, in terms of the definitions that the coders' contracts cite.
//!
//! A law is a public function whose body is empty or calls the laws from which it follows. Its `ensures` is the
//! theorem. The theorem is about definitions alone (numbers, lists and tables), not about the code of a coder. The
//! contract of a coder's call names the definition that the call meets. A law proves what follows for a list of calls.
//! Laws list words in reading order: the word that the next read returns comes first.
//!
//! Other public functions make the coders' calls, and their contracts describe the combined effect of these calls.
//! They are the functions of the modules `round_trips` and `costs`, and three more: `queue::flagged::decode_flagged`,
//! `queue::positions::run_of_any_encoder` and `bounds::words::exchange`.
//!
//! - [`bounds`]: upper bounds on the number of words, and sealed words that any words may follow.
//! - [`chain`]: the chain coder, whose symbols are isolated.
//! - [`errors`]: the errors of the functions that encode or decode a list of symbols.
//! - [`lists`]: a law for all coders. If each step can be undone, a list of steps can be undone, from the last step to
//!   the first.
//! - [`queue`]: the range coder.
//! - [`stack`]: the stack coder (asymmetric numeral systems).
//! - [`symbol`]: bit coders and codebooks.
//!
//! `docs/CONTRACTS.md` has the contract of each law and function that the crate `constriction` exports.
#![tactic(auto)]

pub mod bounds;
pub mod chain;
pub mod errors;
pub mod lists;
pub mod queue;
mod round_trips;
pub mod stack;
pub mod symbol;
