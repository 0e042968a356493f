//! Conversions from encoders to decoders.
//!
//! [`IntoDecoder`] turns an encoder into a decoder. [`AsDecoder`] lends the data of an encoder to a decoder. The
//! decoder types of both traits have the bound `Drop`, without which generic code can't drop a decoder.

ghost use Rattle.std.specs.Prelude.{IfOk, IfErr};

use crate::decoding::Decode;
use crate::encoding::Encode;

/// An encoder that turns into a decoder of the data that it holds.
///
/// An implementor chooses two ghost members. `becomes` relates the encoder to each decoder that `into_decoder` may
/// return. `fails` relates the encoder to each error that `into_decoder` may return. The implementor proves that
/// `into_decoder` returns one of these decoders or errors.
pub trait IntoDecoder<const PRECISION: usize>: Encode<PRECISION> {
    /// The type of the decoder.
    type IntoDecoder: Decode<PRECISION, Word = Self::Word, State = Self::State> + Drop;

    /// The error that `into_decoder` returns if the encoder can't turn into a decoder.
    type Error;

    /// Relates the encoder to each decoder that it may turn into. An implementor chooses this relation freely.
    ghost becomes: { Self → Self.IntoDecoder → Type 0 };

    /// Relates the encoder to each error that `into_decoder` may return instead of a decoder.
    ///
    /// An implementor chooses this relation freely. If every encoder turns into a decoder, choose one that never holds.
    ghost fails: { Self → Self.Error → Type 0 };

    /// Turns the encoder into a decoder of the data that it holds.
    ///
    /// # Errors
    ///
    /// Returns the coder's error if the encoder can't turn into a decoder, for example because its backend refuses a
    /// word. The implementor states in `fails` which errors are possible.
    fn into_decoder(self) -> Result<Self::IntoDecoder, Self::Error>
        ensures ok { IfOk result (λ decoder. becomes self decoder) }
        ensures err { IfErr result (λ e. fails self e) };
}

/// An encoder that lends the data that it holds to a decoder.
///
/// The encoder keeps its data. An implementor chooses the ghost member `reads`, which relates the encoder to each
/// decoder that `as_decoder` may return. The implementor proves that `as_decoder` returns one of these decoders.
pub trait AsDecoder<'a, const PRECISION: usize>: Encode<PRECISION> {
    /// The type of the decoder, which borrows the data that it reads.
    type AsDecoder: Decode<PRECISION, Word = Self::Word, State = Self::State> + Drop;

    /// Relates the encoder to each decoder that `as_decoder` may return. An implementor chooses this relation freely.
    ghost reads: { Self → Self.AsDecoder → Type 0 };

    /// Returns a decoder that borrows the encoder's data. The encoder keeps the data.
    fn as_decoder(&'a self) -> Self::AsDecoder
        ensures { reads self.now result };
}
