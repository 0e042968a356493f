//! Decoding from many stack coders in one call.
//!
//! A call takes the steps of several coders in turn. A coder side by side with others is called a lane. The module
//! [`constriction_stack::lanes`] has the steps of one lane, and says why lanes that take turns are fast. A lane makes
//! of its words exactly what an [`AnsCoder`](constriction_stack::AnsCoder) makes of them.
//!
//! - [`decoding`]: decoding lists of symbols from any number of lanes under one model.
//!
//! The contract of [`decoding::decode_lanes`] cites `DecodesLanes` of `specs/Rows.antt`: each coder decodes its row of
//! symbols from its own row of words.
//!
//! ```
//! let table = WeightTable::<u32, 24>::new(alloc, &[8388608, 8388608])?;
//! let (mut heads, mut lens, mut symbols) = ([2u64, 1, 3, 0], [0; 4], [0; 4]);
//! decode_lanes::<u32, u64, _, 24>(&mut heads, &[], 0, &mut lens, &table, &mut symbols, 1); // symbols is [0, 0, 0, 0]
//! ```
#![tactic(auto)]

pub mod decoding;
