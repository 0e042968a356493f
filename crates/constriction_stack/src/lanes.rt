//! The steps of a stack coder that is coded side by side with others: a head, and a row of words of a slice.
//!
//! A single coder is bound by latency, because each step needs the head that the previous step left. The processor
//! overlaps the steps of coders that don't depend on each other. So one call that steps several coders in turn decodes
//! more symbols per second than one call for each coder. The steps of this module don't branch on the head: they move a
//! word and compute the head with and without that word, and then select one of the two.
//!
//! A coder side by side with others is called a lane. A lane makes of its symbols exactly what an
//! [`AnsCoder`](crate::coder::AnsCoder) makes of the same symbols, so data that lanes encode has no format of its own.
//!
//! - [`steps`]: decoding and encoding one symbol, over a slice.
//!
//! `constriction_interleaved` decodes lists of symbols from any number of lanes under one model.

pub mod steps;
