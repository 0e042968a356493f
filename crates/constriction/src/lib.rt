//! Entropy coders over lists of words: lossless compression with models of the symbols' probabilities.
//!
//! The stream coders come close to the least number of bits that the models allow. A proved contract states what each
//! call does.
//!
//! This crate has no code of its own. It re-exports, in one tree of modules, the items of the crates that it depends
//! on. So your crate needs to depend only on this crate. `specs/` re-exports the definitions that the contracts cite.
//!
//! ```
//! use constriction::stream::model::WeightTable;
//! use constriction::stream::stack::DefaultAnsCoder;
//!
//! // The symbols 0, 1 and 2. Symbol 2 is by far the most probable. The weights add up to 2 ^ 24.
//! let table = WeightTable::<u32, 24>::new(alloc, &[3, 2, 16777211])?;
//!
//! // The last symbol encoded is the first decoded.
//! let mut coder = DefaultAnsCoder::new(alloc);
//! coder.encode_symbol(&1, &table)?;
//! coder.encode_symbol(&2, &table)?;
//! let words = coder.into_compressed()?;
//!
//! match DefaultAnsCoder::from_compressed(words) {
//!     Ok(mut coder) => {
//!         coder.decode_symbol(&table)?; // 2
//!         coder.decode_symbol(&table)?; // 1
//!     }
//!     Err(words) => {} // no coder exports a list that ends with a zero word
//! }
//! ```
//!
//! # At the root
//!
//! - [`BitArray`]: a type of unsigned numbers with a fixed number of bits, for words and heads. [`Natural`] is its part
//!   that compares, adds, subtracts and multiplies.
//! - [`WordOf`]: a type of words that fit another type of numbers, such as the type of states.
//! - [`Reciprocal`]: the reciprocal of a divisor, such as a symbol's weight. A multiplication by it replaces a
//!   division.
//! - [`Stack`], [`Queue`], [`Semantics`]: the order in which a backend reads its words. A stack reads the last word
//!   first, and a queue reads the first word first.
//! - [`Pos`], [`Seek`], [`PosSeek`]: traits that record a position of a backend or a coder, and seek to a recorded
//!   position.
//! - [`CoderError`]: the error of an encode or a decode, from the coder or from its backend.
//!   [`DefaultEncoderFrontendError`] is the error of an impossible symbol. [`DefaultEncoderError`] is the `CoderError`
//!   with that frontend error. [`ReadWriteError`] is the error of a call that both reads and writes words.
//!
//! # [`base`]: words, backends and models
//!
//! The types and traits of numbers, backends, errors and models that coders build on, in one module. Each item is also
//! at the root, in [`backends`], or in [`stream::model`].
//!
//! # [`backends`]: sources and sinks of words
//!
//! - [`backends::ReadWords`], [`backends::WriteWords`]: traits that read a word from a backend, and write a word to it.
//!   [`backends::Holds`] describes the list of words that a backend holds. [`backends::BoundedReadWords`] counts the
//!   words left to read.
//! - [`backends::IntoReadWords`], [`backends::AsReadWords`], [`backends::IntoSeekReadWords`],
//!   [`backends::AsSeekReadWords`]: traits that turn a backend into a reader, or lend its words to a reader.
//! - [`backends::IntoReversed`]: a trait that reverses a backend's buffer in place. The new backend holds the same
//!   stack of words.
//! - [`backends::Words`], [`backends::WordsMut`]: traits of a buffer that lends its words, and of a buffer that can
//!   also replace and reverse its words.
//! - [`backends::BothWays`], [`backends::CountsWords`], [`backends::SeeksBack`]: properties that some calls require of
//!   their backend. A `BothWays` backend holds the same words as a stack and as a queue. The position of a
//!   `CountsWords` backend is the number of words on its stack. A `SeeksBack` backend can seek to its current position.
//! - [`backends::written_to_queue`], [`backends::take_back`]: functions that turn a backend into a queue of the written
//!   words, and remove words from the top of a backend.
//! - [`backends::Cursor`], [`backends::Reverse`], [`backends::FallibleIteratorReadWords`]: backends. A cursor is a
//!   buffer with a position in it. A `Reverse` reads a cursor in the other direction. A `FallibleIteratorReadWords`
//!   reads the items of an iterator. `Vec` is a backend too.
//! - [`backends::BoundedWriteError`]: the error of a write to a full buffer. [`backends::ReadWriteError`] is the error
//!   of a call that both reads and writes words.
//!
//! # [`stream`]: coders that use fractions of a bit
//!
//! - [`stream::Code`], [`stream::Encode`], [`stream::Decode`]: traits with the calls of every stream coder, for a
//!   symbol or a list. [`stream::Lent`] is the trait of a symbol passed to a list call, such as `&Symbol`.
//! - [`stream::EncodeReverse`]: a trait that encodes lists from the last symbol to the first, for code that is generic
//!   over coders. The stack coder and the chain coder also have these calls as methods of their own.
//! - [`stream::IntoDecoder`], [`stream::AsDecoder`]: traits that turn an encoder into a decoder, or lend an encoder's
//!   data to a decoder.
//! - [`stream::DecodeSymbols`], [`stream::TryDecodeSymbols`], [`stream::DecodeIidSymbols`]: iterators over decoded
//!   symbols.
//! - [`stream::TryCodingError`]: the error of a list call whose items may be errors.
//!
//! ## [`stream::model`]: probabilities of symbols
//!
//! - [`stream::model::EntropyModel`], [`stream::model::EncoderModel`], [`stream::model::DecoderModel`]: the traits of
//!   models. A model has a table, which gives symbols intervals of the numbers below `2 ^ PRECISION`.
//! - [`stream::model::WeightTable`]: a model with a list of weights. [`stream::model::TableError`] is the error of
//!   building this model.
//! - [`stream::model::LeakyQuantizer`]: a quantizer that turns a distribution into a model whose symbols are integers
//!   ([`stream::model::LeakilyQuantizedDistribution`]). The quantizer cuts the distribution halfway between
//!   neighbouring symbols. It computes in whole numbers, so the table is the same on every machine.
//! - [`stream::model::Gaussian`], [`stream::model::Laplace`], [`stream::model::Logistic`]: distributions with a
//!   location and a scale ([`stream::model::LocationScale`]). [`stream::model::Scale`] makes distributions of one scale
//!   without a division. You can define other distributions with [`stream::model::CumulativeDistribution`].
//! - [`stream::model::Mixture`]: the weighted mean of distributions, each a [`stream::model::Component`].
//!   [`stream::model::MixtureError`] is the error of components that make no mixture.
//! - [`stream::model::UniformModel`], [`stream::model::BernoulliModel`]: models of equally probable symbols (up to
//!   rounding), and of two symbols. [`stream::model::SupportError`] is the error of too few or too many symbols for
//!   the precision.
//! - [`stream::model::CategoricalCounts`]: a model of a row of counts, which computes intervals at each look-up and
//!   needs no memory. [`stream::model::CategoricalError`] is the error of counts that make no model.
//! - [`stream::model::CumulativeCounts`]: a model with the same table that keeps the sums of the counts, for a row with
//!   which many symbols are coded. [`stream::model::CumulativeError`] is the error of making this model.
//! - [`stream::model::weights_of_counts`]: a function that returns the weights for a histogram's counts.
//!   [`stream::model::CountsError`] is the error of computing these weights.
//! - [`stream::model::counts_of_floats`], [`stream::model::put_quick_counts`]: functions that compute counts from
//!   floats, for `weights_of_counts` and for `CategoricalCounts`. [`stream::model::FloatsError`] is the error of floats
//!   that have no counts.
//! - [`stream::model::ContiguousLookupDecoderModel`]: a model for decoding that stores the symbol of each quantile.
//!   [`stream::model::LookupError`] is the error of building this model.
//!
//! ## [`stream::stack`]: asymmetric numeral systems, which decode the last symbol first
//!
//! - [`stream::stack::AnsCoder`], with [`stream::stack::DefaultAnsCoder`] (32-bit words, 64-bit heads) and
//!   [`stream::stack::SmallAnsCoder`] (16 and 32 bits).
//! - [`stream::stack::AnsCompressedIter`]: an iterator over the words that a coder would export. The coder stays
//!   unchanged.
//! - [`stream::stack::CoderGuard`]: a guard that lends the exported words on the coder's own backend until the
//!   guard is dropped.
//! - [`stream::stack::CompressedDataEndsWithZeroWord`]: the error of importing words that no coder exports.
//!
//! ## [`stream::queue`]: range coding, which decodes the first symbol first
//!
//! - [`stream::queue::RangeEncoder`], with [`stream::queue::DefaultRangeEncoder`] (32-bit words, 64-bit states) and
//!   [`stream::queue::SmallRangeEncoder`] (16 and 32 bits). [`stream::queue::RangeCoderState`] is an encoder's
//!   interval. [`stream::queue::EncoderSituation`] describes an encoder's pending words.
//! - [`stream::queue::RangeDecoder`], with [`stream::queue::DefaultRangeDecoder`] and
//!   [`stream::queue::SmallRangeDecoder`]. [`stream::queue::DecoderFrontendError`] is the error of words that encode no
//!   symbol at the decoder's position.
//! - [`stream::queue::RangeCompressedIter`], [`stream::queue::EncoderGuard`]: an iterator over the sealed words of an
//!   encoder, and a guard that lends these words. Dropping the guard restores the encoder.
//!   [`stream::queue::LendsAsWritten`] is the trait of backends that lend their words in writing order.
//! - [`stream::queue::encode_flagged`], [`stream::queue::FlagSwitch`]: encoding and decoding a list of symbols with two
//!   models. The coders use the second model after the first flag symbol.
//!
//! ## [`stream::chain`]: symbols that don't depend on each other's models
//!
//! - [`stream::chain::ChainCoder`], with [`stream::chain::DefaultChainCoder`] and [`stream::chain::SmallChainCoder`].
//!   [`stream::chain::ChainCoderHeads`] has the two heads of a coder. [`stream::chain::BackendPosition`] has the
//!   positions of the coder's two backends.
//! - [`stream::chain::DecoderFrontendError`], [`stream::chain::EncoderFrontendError`], [`stream::chain::BackendError`],
//!   [`stream::chain::ChangePrecisionError`]: the errors of a chain coder's calls.
//!
//! # [`store`]: many lists of symbols in one list of words, where each list of symbols can be decoded alone
//!
//! - [`store::Store`]: lists of symbols (chunks) with one model, and an index with the position of each chunk. A store
//!   has at most [`store::MOST_SYMBOLS`] symbols. [`store::BuildError`], [`store::ChunkError`] and [`store::BadIndex`]
//!   are the errors of a store's calls. [`store::decoder_at`] creates a range decoder at the position of a chunk.
//!
//! # [`symbol`]: symbols as lists of bits
//!
//! - [`symbol::QueueEncoder`], [`symbol::QueueDecoder`], [`symbol::StackCoder`]: coders that write bits into words and
//!   read them. Their calls are in the traits [`symbol::WriteBitStream`] and [`symbol::ReadBitStream`].
//! - [`symbol::EncoderCodebook`], [`symbol::DecoderCodebook`]: traits of codebooks, which have a list of bits
//!   (codeword) for each symbol. [`symbol::exp_golomb::ExpGolomb`] is a codebook for all numbers of an unsigned integer
//!   type.
//! - [`symbol::huffman::EncoderHuffmanTree`], [`symbol::huffman::DecoderHuffmanTree`]: the Huffman codebook of weights,
//!   for encoding and for decoding. [`symbol::huffman::HuffmanError`] is the error of weights that make no tree.
//! - [`symbol::reverse_codeword`]: a function that emits a codeword from its first bit to its last. The codebook emits
//!   the codeword from the last bit to the first ([`symbol::SuffixCodebook`]). The function reverses the bits with a
//!   [`symbol::SmallBitStack`].
//!
//! # [`laws`]: theorems about lists of calls
//!
//! Functions whose contracts are theorems, for use in your proofs. Most of them are laws, which have no code. You call
//! a law to use its contract in your proof, and at run time the call does nothing. Other functions do make coders'
//! calls at run time. For example, most functions in a module `round_trips` encode or decode a list of symbols.
//!
//! - [`laws::lists`]: if each step can be undone, so can a list of steps.
//! - [`laws::bounds`]: upper bounds on the number of words of the stack coder and of the range coder, for any list of
//!   steps. Another law states when any words may follow the sealed words of a range encoder.
//! - [`laws::chain`]: the chain coder. [`laws::chain::isolation`] states that its symbols don't depend on each other's
//!   models. [`laws::chain::steps`], [`laws::chain::lists`] and [`laws::chain::words`] are about one step, about lists,
//!   and about restoring words from the remainders. [`laws::chain::round_trips`] has functions that decode symbols, and
//!   functions that encode them back.
//! - [`laws::queue`]: the range coder. [`laws::queue::words`], [`laws::queue::lists`] and [`laws::queue::positions`]
//!   are about sealed words, lists of symbols, and recorded positions. [`laws::queue::round_trips`] encodes and decodes
//!   lists. Other modules are about flags, self-delimiting seals, guards and room.
//! - [`laws::store`]: looking up the chunks of a store in any order, and the words that a look-up reads.
//! - [`laws::symbol`]: bit coders and codebooks. Decoding queues and stacks of bits returns the encoded symbols, also
//!   with mixed codebooks. No codeword of Exp-Golomb or of a Huffman tree is a prefix of another.
//!   [`laws::symbol::costs`] and [`laws::symbol::huffman`] state that a Huffman tree costs at most as much as any
//!   prefix-free codebook.
//! - [`laws::stack`]: the stack coder. [`laws::stack::steps`], [`laws::stack::lists`] and [`laws::stack::words`] are
//!   about one symbol, lists, and words that are exported and imported. [`laws::stack::round_trips`] encodes and
//!   decodes lists. Other modules are about binary forms, guards, positions, sizes, and backends such as
//!   iterators.
//! - [`laws::errors`]: the reasons why symbols weren't encoded or decoded.
#![tactic(auto)]

pub use constriction_base::backends::{Pos, PosSeek, Queue, Seek, Semantics, Stack};
pub use constriction_base::errors::{
    CoderError, DefaultEncoderError, DefaultEncoderFrontendError, ReadWriteError,
};
pub use constriction_words::{BitArray, Natural, Reciprocal, WordOf};

pub mod base {
    pub use constriction_base::backends::{
        AsReadWords, AsSeekReadWords, BoundedReadWords, IntoReadWords, IntoSeekReadWords, Pos,
        PosSeek, Queue, ReadWords, Seek, Semantics, Stack, Words, WordsMut, WriteWords,
    };
    pub use constriction_base::cursor::Cursor;
    pub use constriction_base::errors::{
        BoundedWriteError, CoderError, DefaultEncoderError, DefaultEncoderFrontendError,
        ReadWriteError,
    };
    pub use constriction_base::iterators::FallibleIteratorReadWords;
    pub use constriction_base::model::{DecoderModel, EncoderModel, EntropyModel};
    pub use constriction_base::reverse::Reverse;
    pub use constriction_base::weights::{TableError, WeightTable};
    pub use constriction_words::{BitArray, Natural, Reciprocal, WordOf};
}

pub mod backends {
    pub use constriction_base::backends::{
        AsReadWords, AsSeekReadWords, BothWays, BoundedReadWords, CountsWords, Holds,
        IntoReadWords, IntoReversed, IntoSeekReadWords, ReadWords, SeeksBack, Words, WordsMut,
        WriteWords, take_back, written_to_queue,
    };
    pub use constriction_base::cursor::Cursor;
    pub use constriction_base::errors::{BoundedWriteError, ReadWriteError};
    pub use constriction_base::iterators::FallibleIteratorReadWords;
    pub use constriction_base::reverse::Reverse;
}

pub mod stream {
    pub use constriction_stream::coder::Code;
    pub use constriction_stream::conversions::{AsDecoder, IntoDecoder};
    pub use constriction_stream::decoding::Decode;
    pub use constriction_stream::encoding::{Encode, EncodeReverse, Lent};
    pub use constriction_stream::errors::TryCodingError;
    pub use constriction_stream::iterators::{DecodeIidSymbols, DecodeSymbols, TryDecodeSymbols};

    pub mod model {
        pub use constriction_base::model::{DecoderModel, EncoderModel, EntropyModel};
        pub use constriction_base::weights::{TableError, WeightTable};
        pub use constriction_models::bernoulli::BernoulliModel;
        pub use constriction_models::categorical::{CategoricalCounts, CategoricalError};
        pub use constriction_models::counts::{CountsError, weights_of_counts};
        pub use constriction_models::cumulative::{CumulativeCounts, CumulativeError};
        pub use constriction_models::distribution::CumulativeDistribution;
        pub use constriction_models::errors::SupportError;
        pub use constriction_models::floats::{FloatsError, counts_of_floats, put_quick_counts};
        pub use constriction_models::gaussian::{Gaussian, StandardNormal};
        pub use constriction_models::laplace::{Laplace, StandardLaplace};
        pub use constriction_models::location_scale::{LocationScale, Scale, StandardDistribution};
        pub use constriction_models::logistic::{Logistic, StandardLogistic};
        pub use constriction_models::lookup::{ContiguousLookupDecoderModel, LookupError};
        pub use constriction_models::mixture::{Component, Mixture, MixtureError};
        pub use constriction_models::quantizer::{LeakilyQuantizedDistribution, LeakyQuantizer};
        pub use constriction_models::uniform::UniformModel;
    }

    pub mod stack {
        pub use constriction_interleaved::decoding::decode_lanes;
        pub use constriction_stack::coder::guard::CoderGuard;
        pub use constriction_stack::coder::words::{
            AnsCompressedIter, CompressedDataEndsWithZeroWord,
        };
        pub use constriction_stack::lanes::steps::{decode_from, encode_onto};
        pub use constriction_stack::{AnsCoder, DefaultAnsCoder, SmallAnsCoder};
    }

    pub mod queue {
        pub use constriction_queue::{
            DecoderFrontendError, DefaultRangeDecoder, DefaultRangeEncoder, EncoderGuard,
            EncoderSituation, FlagSwitch, LendsAsWritten, RangeCoderState, RangeCompressedIter,
            RangeDecoder, RangeEncoder, SmallRangeDecoder, SmallRangeEncoder, encode_flagged,
        };
    }

    pub mod chain {
        pub use constriction_chain::{
            BackendError, BackendPosition, ChainCoder, ChainCoderHeads, ChangePrecisionError,
            DecoderError, DecoderFrontendError, DefaultChainCoder, EncoderError,
            EncoderFrontendError, SmallChainCoder,
        };
    }
}

pub mod store {
    pub use constriction_store::{
        BadIndex, BuildError, ChunkError, MOST_SYMBOLS, Store, decoder_at,
    };
}

pub mod symbol {
    pub use constriction_symbol::codebooks::{
        BitOrder, Codebook, DecoderCodebook, EncoderCodebook, SymbolCodeError,
    };
    pub use constriction_symbol::coder::guard::{QueueEncoderGuard, StackCoderGuard};
    pub use constriction_symbol::coder::{
        DefaultQueueEncoder, DefaultStackCoder, NewSmallStack, QueueEncoder, SmallBitStack,
        StackCoder, SymbolCoder,
    };
    pub use constriction_symbol::iterators::{DecodeSymbols, RepeatCodebook};
    pub use constriction_symbol::queue::{DefaultQueueDecoder, QueueDecoder};
    pub use constriction_symbol::reading::ReadBitStream;
    pub use constriction_symbol::reversed::{SuffixCodebook, reverse_codeword};
    pub use constriction_symbol::writing::WriteBitStream;

    pub mod exp_golomb {
        pub use constriction_symbol::exp_golomb::{ExpGolomb, InvalidCodeword};
    }

    pub mod huffman {
        pub use constriction_symbol::huffman::{
            DecoderHuffmanTree, EncoderHuffmanTree, HuffmanError,
        };
    }
}

pub mod laws {
    pub use constriction_laws::{bounds, chain, errors, lists, queue, stack, symbol};
    pub use constriction_store::laws as store;
}
