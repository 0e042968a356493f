//! Round-trip functions of the bit coders: they encode a list of symbols to a stream, or decode a list from a stream.
//!
//! - [`pairs`]: symbols with one codebook each.

pub mod pairs;
