//! Decoders: turning a coder into one, creating one from borrowed or reversed words, and seeking to positions.
//!
//! `AnsCoder::into_reversed` is one method for cursors and reversed cursors, through the trait `IntoReversed`. With two
//! methods of the same name, code that calls one of them couldn't be proved.

ghost use Rattle.constriction_base.specs.Readings.{BeginsHigh};
ghost use Rattle.constriction_base.specs.Iterators.{FusedRead};
ghost use Rattle.constriction_base.specs.Steps.{IsSizes};
ghost use Rattle.constriction_stack.specs.Ans.{IsCoder, filled, state_of};
ghost use Rattle.constriction_stack.specs.Binary.{BinaryFilledBy, BinaryRefused, binary_state};
ghost use Rattle.constriction_stack.specs.Imports.{FilledBy, ImportRefused};
ghost use Rattle.std.specs.Iterator.Adapters.{fuse_done, fuse_source};
ghost use Rattle.std.specs.Prelude.{IfErr, IfOk, IsOk, OnErr, OnOk, false, length, map, reverse, ◌-◌, ◌↔◌, ◌≡◌};

use crate::coder::AnsCoder;
use crate::coder::words::CompressedDataEndsWithZeroWord;
use constriction_base::backends::{
    AsReadWords, AsSeekReadWords, Holds, IntoReadWords, IntoReversed, IntoSeekReadWords, Pos,
    PosSeek, Seek, SeeksBack, Stack, Words, WriteWords,
};
use constriction_base::cursor::Cursor;
use constriction_base::iterators::FallibleIteratorReadWords;
use constriction_base::reverse::Reverse;
use constriction_stream::conversions::{AsDecoder, IntoDecoder};
use constriction_words::{BitArray, WordOf};
use std::alloc::Allocator;
use std::convert::Infallible;
use std::iter::Fuse;

impl<
    Word: WordOf<State>,
    State: BitArray,
    Backend: WriteWords<Word> + IntoReadWords<Word, Stack>,
    const PRECISION: usize,
> IntoDecoder<PRECISION> for AnsCoder<Word, State, Backend> {
    type IntoDecoder = AnsCoder<Word, State, Backend::IntoReadWords>;

    type Error = Infallible;

    ghost becomes = { λ coder decoder. (decoder.state ≡ coder.state) × Backend.becomes coder.backend decoder.backend
        × IsCoder Word.number ⟦<Backend::IntoReadWords as Holds<Word, Stack>>⟧ Word.BITS State.BITS decoder };

    ghost fails = { λ _ _. ⊥ };

    /// Turns the coder into a decoder, as the method [`AnsCoder::into_decoder`] does. The call never fails.
    fn into_decoder(self) -> Result<AnsCoder<Word, State, Backend::IntoReadWords>, Infallible> {
        Ok(self.into_decoder())
    }
}

impl<
    'a,
    Word: WordOf<State> + 'a,
    State: BitArray,
    A: Allocator + 'a,
    const PRECISION: usize,
> AsDecoder<'a, PRECISION> for AnsCoder<Word, State, Vec<Word, A>> {
    type AsDecoder = AnsCoder<Word, State, Cursor<Word, &'a [Word]>>;

    ghost reads = { λ coder decoder. (decoder.state ≡ coder.state)
        × (decoder.backend.buf.now ≡ coder.backend.items) × (decoder.backend.pos ≡ length coder.backend.items)
        × IsCoder Word.number ⟦<Cursor<Word, &'a [Word]> as Holds<Word, Stack>>⟧ Word.BITS State.BITS decoder };

    /// Returns a coder that borrows this coder's words and has the same state.
    fn as_decoder(&'a self) -> AnsCoder<Word, State, Cursor<Word, &'a [Word]>> {
        AnsCoder::from_raw_parts(
            AsReadWords::<'a, Word, Stack>::as_read_words(&self.bulk),
            self.state,
        )
    }
}

impl<Word: WordOf<State>, State: BitArray, Backend: IntoReadWords<Word, Stack>> AnsCoder<
    Word,
    State,
    Backend,
> {
    /// Turns the coder into a decoder with the same state. The coder's backend becomes a backend for reading.
    pub fn into_decoder(self) -> AnsCoder<Word, State, Backend::IntoReadWords>
        ensures state { result.state ≡ self.state }
        ensures place { Backend.becomes self.backend result.backend }
        ensures coder { IsCoder Word.number ⟦<Backend::IntoReadWords as Holds<Word, Stack>>⟧
            Word.BITS State.BITS result }
    {
        let (bulk, head) = self.into_raw_parts();
        AnsCoder::from_raw_parts(bulk.into_read_words(), head)
    }
}

impl<Word: WordOf<State>, State: BitArray, Backend: Holds<Word, Stack>> AnsCoder<
    Word,
    State,
    Backend,
> {
    /// Returns a coder for reading that borrows this coder's words and has the same state.
    ///
    /// # Examples
    ///
    /// ```
    /// let mut decoder = coder.as_decoder();
    /// decoder.decode_symbol(&table)?; // the last symbol encoded; `coder` still holds it
    /// ```
    pub fn as_decoder<'a>(&'a self) -> AnsCoder<Word, State, Backend::AsReadWords>
    where
        Backend: AsReadWords<'a, Word, Stack>,
        ensures state { result.state ≡ self.now.state }
        ensures place { Backend.becomes self.now.backend result.backend }
        ensures coder { IsCoder Word.number ⟦<Backend::AsReadWords as Holds<Word, Stack>>⟧ Word.BITS State.BITS result }
    {
        AnsCoder::from_raw_parts(self.bulk.as_read_words(), self.state)
    }
}

impl<'a, Word: WordOf<State> + 'a, State: BitArray> AnsCoder<
    Word,
    State,
    Cursor<Word, &'a [Word]>,
> {
    /// Creates a coder that borrows words in the form that [`AnsCoder::into_compressed`] returns.
    ///
    /// If there are no words, the coder is empty.
    ///
    /// # Errors
    ///
    /// Returns `CompressedDataEndsWithZeroWord` if and only if the last word is zero.
    ///
    /// # Examples
    ///
    /// ```
    /// let mut coder = DefaultAnsCoder::from_compressed_slice([7u32, 9].as_slice())?;
    /// coder.state(); // 9 * 2^32 + 7
    /// ```
    pub fn from_compressed_slice(
        compressed: &'a [Word],
    ) -> Result<Self, CompressedDataEndsWithZeroWord>
        requires { IsSizes Word.BITS State.BITS }
        ensures ok { IfOk result (λ new.
            new.state ≡ filled Word.BITS State.BITS 0 (map Word.number (reverse compressed.now))) }
        ensures variant { IsOk result ↔ BeginsHigh (map Word.number (reverse compressed.now)) }
        ensures buffer { IfOk result (λ new. new.backend.buf.now ≡ compressed.now) }
        ensures coder { IfOk result (IsCoder Word.number ⟦<Cursor<Word, &'a [Word]> as Holds<Word, Stack>>⟧
            Word.BITS State.BITS) }
    {
        match Self::from_compressed(Cursor::new_at_write_end(compressed)) {
            Ok(decoder) => Ok(decoder),
            Err(_) => Err(CompressedDataEndsWithZeroWord),
        }
    }

    /// Creates a coder that borrows words in the form that [`AnsCoder::into_binary`] returns.
    ///
    /// Every list of words has this form.
    ///
    /// # Examples
    ///
    /// ```
    /// let coder = DefaultAnsCoder::from_binary_slice([5u32].as_slice()); // head 2^32 + 5
    /// ```
    pub fn from_binary_slice(binary: &'a [Word]) -> Self
        requires { IsSizes Word.BITS State.BITS }
        ensures state { result.state
            ≡ binary_state Word.BITS State.BITS (map Word.number (reverse binary.now)) }
        ensures buffer { result.backend.buf.now ≡ binary.now }
        ensures coder { IsCoder Word.number ⟦<Cursor<Word, &'a [Word]> as Holds<Word, Stack>>⟧
            Word.BITS State.BITS result }
    {
        match Self::from_binary(Cursor::new_at_write_end(binary)) {
            Ok(coder) => coder,
            Err(never) => match never {},
        }
    }
}

impl<Word: WordOf<State>, State: BitArray, Buf: Words<Word> + Drop> AnsCoder<
    Word,
    State,
    Reverse<Cursor<Word, Buf>>,
> {
    /// Creates a coder from compressed words in the reverse order of [`AnsCoder::into_compressed`].
    ///
    /// If there are no words, the coder is empty.
    ///
    /// # Errors
    ///
    /// Returns the unchanged buffer if and only if the first word is zero.
    ///
    /// # Examples
    ///
    /// ```
    /// // A coder exported [1, 2, 3, 4, 5], and a program stored these words in reverse order.
    /// let coder = AnsCoder::<u8, u16, _>::from_reversed_compressed([5u8, 4, 3, 2, 1].as_slice());
    /// ```
    pub fn from_reversed_compressed(compressed: Buf) -> Result<Self, Buf>
        requires { IsSizes Word.BITS State.BITS }
        ensures ok { IfOk result (λ new.
            new.state ≡ filled Word.BITS State.BITS 0 (map Word.number (Buf.lent compressed))) }
        ensures variant { IsOk result ↔ BeginsHigh (map Word.number (Buf.lent compressed)) }
        ensures buffer { IfOk result (λ new. new.backend.0.buf ≡ compressed) }
        ensures coder { IfOk result (IsCoder Word.number ⟦<Reverse<Cursor<Word, Buf>> as Holds<Word, Stack>>⟧
            Word.BITS State.BITS) }
        ensures err { IfErr result (λ rest. rest ≡ compressed) }
    {
        match Self::from_compressed(Reverse(Cursor::new_at_write_beginning(compressed))) {
            Ok(coder) => Ok(coder),
            Err(Reverse(cursor)) => {
                let (buf, _) = cursor.into_buf_and_pos();
                Err(buf)
            }
        }
    }

    /// Creates a coder from words in the reverse order of [`AnsCoder::into_binary`].
    ///
    /// Every list of words is allowed, because every list is the binary form of a coder.
    ///
    /// # Examples
    ///
    /// ```
    /// // The same state as `from_binary_slice` creates from [5, 0].
    /// let coder = DefaultAnsCoder::from_reversed_binary([0u32, 5].as_slice());
    /// ```
    pub fn from_reversed_binary(binary: Buf) -> Self
        requires { IsSizes Word.BITS State.BITS }
        ensures state { result.state
            ≡ binary_state Word.BITS State.BITS (map Word.number (Buf.lent binary)) }
        ensures buffer { result.backend.0.buf ≡ binary }
        ensures coder { IsCoder Word.number ⟦<Reverse<Cursor<Word, Buf>> as Holds<Word, Stack>>⟧
            Word.BITS State.BITS result }
    {
        match Self::from_binary(Reverse(Cursor::new_at_write_beginning(binary))) {
            Ok(coder) => coder,
            Err(never) => match never {},
        }
    }
}

impl<
    Word: WordOf<State>,
    State: BitArray,
    ReadError: Drop,
    Iter: Iterator<Item = Result<Word, ReadError>>,
> AnsCoder<Word, State, FallibleIteratorReadWords<Iter>> {
    /// Creates a coder from an iterator over words in the reverse order of [`AnsCoder::into_compressed`].
    ///
    /// The call reads words into the head until the head is at least `2^(State::BITS - Word::BITS)` or the iterator
    /// ends. Each decode then reads at most one more word. The caller proves that the iterator's `next` may be called.
    ///
    /// # Errors
    ///
    /// Returns the iterator, with the items that are left, in two cases:
    ///
    /// - The first word is zero.
    /// - An item that the call reads is an `Err`.
    ///
    /// # Examples
    ///
    /// ```
    /// let file = [Ok(9u32), Ok(7), Err("the disk failed")];
    /// let coder = AnsCoder::<u32, u64, _>::from_reversed_compressed_iter(file.into_iter()); // head 9 * 2^32 + 7
    /// ```
    pub fn from_reversed_compressed_iter(compressed: Iter) -> Result<Self, Fuse<Iter>>
        requires sizes { IsSizes Word.BITS State.BITS }
        requires can { Iter.can_next compressed }
        ensures reads { IfOk result (λ new.
            FilledBy Word.number (FusedRead Iter.next_gives) Word.BITS State.BITS (compressed, false)
            new.state.head new.backend) }
        ensures coder { IfOk result (IsCoder Word.number ⟦<FallibleIteratorReadWords<Iter> as Holds<Word, Stack>>⟧
            Word.BITS State.BITS) }
        ensures err { IfErr result (λ rest.
            ImportRefused Word.number (FusedRead Iter.next_gives) Word.BITS State.BITS (compressed, false)
            (fuse_source rest, fuse_done rest)) }
    {
        match Self::from_compressed(FallibleIteratorReadWords::new(compressed)) {
            Ok(coder) => Ok(coder),
            Err(rest) => Err(rest.into_iter()),
        }
    }

    /// Creates a coder from an iterator over words in the reverse order of [`AnsCoder::into_binary`].
    ///
    /// Every list of words is allowed. The call reads words into the head, below a leading 1 bit, until the head is at
    /// least `2^(State::BITS - Word::BITS)` or the iterator ends. Each decode then reads at most one more word. The
    /// caller proves that the iterator's `next` may be called.
    ///
    /// # Errors
    ///
    /// Returns `error` if an item that the call reads is `Err(error)`. The call consumes the iterator.
    pub fn from_reversed_binary_iter(binary: Iter) -> Result<Self, ReadError>
        requires sizes { IsSizes Word.BITS State.BITS }
        requires can { Iter.can_next binary }
        ensures reads { IfOk result (λ new.
            BinaryFilledBy Word.number (FusedRead Iter.next_gives) Word.BITS State.BITS (binary, false)
            new.state.head new.backend) }
        ensures coder { IfOk result (IsCoder Word.number ⟦<FallibleIteratorReadWords<Iter> as Holds<Word, Stack>>⟧
            Word.BITS State.BITS) }
        ensures err { IfErr result (λ e.
            BinaryRefused Word.number (FusedRead Iter.next_gives) Word.BITS State.BITS (binary, false) e) }
    {
        Self::from_binary(FallibleIteratorReadWords::new(binary))
    }
}

impl<Word: WordOf<State>, State: BitArray, Backend: IntoReversed<Word>> AnsCoder<
    Word,
    State,
    Backend,
> {
    /// Reverses the order of the words in the backend's buffer. The coder's state is unchanged.
    ///
    /// The call turns a coder over a cursor into a coder over a reversed cursor, or the other way round. In a cursor,
    /// the words below the head lie before the position, and the last of these words is read first. In a reversed
    /// cursor, the words below the head start at the position, in reading order.
    pub fn into_reversed(self) -> AnsCoder<Word, State, Backend::IntoReversed>
        ensures state { result.state ≡ self.state }
        ensures turned { Backend.reverses self.backend result.backend }
        ensures coder { IsCoder Word.number ⟦<Backend::IntoReversed as Holds<Word, Stack>>⟧
            Word.BITS State.BITS result }
    {
        let (bulk, head) = self.into_raw_parts();
        AnsCoder::from_raw_parts(bulk.into_reversed_stack(), head)
    }
}

impl<Word: WordOf<State>, State: BitArray, Backend: IntoSeekReadWords<Word, Stack>> AnsCoder<
    Word,
    State,
    Backend,
> {
    /// Turns the coder into a decoder that can also seek. The state stays the same.
    pub fn into_seekable_decoder(self) -> AnsCoder<Word, State, Backend::IntoSeekReadWords>
        ensures state { result.state ≡ self.state }
        ensures place { Backend.becomes self.backend result.backend }
        ensures coder { IsCoder Word.number ⟦<Backend::IntoSeekReadWords as Holds<Word, Stack>>⟧
            Word.BITS State.BITS result }
    {
        let (bulk, head) = self.into_raw_parts();
        AnsCoder::from_raw_parts(bulk.into_seek_read_words(), head)
    }
}

impl<Word: WordOf<State>, State: BitArray, Backend: Holds<Word, Stack>> AnsCoder<
    Word,
    State,
    Backend,
> {
    /// Returns a coder for reading and seeking that borrows this coder's words and has the same state.
    pub fn as_seekable_decoder<'a>(&'a self) -> AnsCoder<Word, State, Backend::AsSeekReadWords>
    where
        Backend: AsSeekReadWords<'a, Word, Stack>,
        ensures state { result.state ≡ self.now.state }
        ensures place { Backend.becomes self.now.backend result.backend }
        ensures coder { IsCoder Word.number ⟦<Backend::AsSeekReadWords as Holds<Word, Stack>>⟧
            Word.BITS State.BITS result }
    {
        AnsCoder::from_raw_parts(self.bulk.as_seek_read_words(), self.state)
    }
}

/// Converts a borrowed coder into a decoder, as [`AnsCoder::as_decoder`] does.
impl<'a, Word: WordOf<State>, State: BitArray, Backend: AsReadWords<'a, Word, Stack>> From<
    &'a AnsCoder<Word, State, Backend>,
> for AnsCoder<Word, State, <Backend as AsReadWords<'a, Word, Stack>>::AsReadWords> {
    ghost from_gives = { λ coder result. (result.state ≡ coder.now.state)
        × Backend.becomes coder.now.backend result.backend
        × IsCoder Word.number ⟦<<Backend as AsReadWords<'a, Word, Stack>>::AsReadWords as Holds<Word, Stack>>⟧
        Word.BITS State.BITS result };

    fn from(coder: &'a AnsCoder<Word, State, Backend>) -> Self {
        coder.as_decoder()
    }
}

impl<Word: WordOf<State>, State: BitArray, Backend: Holds<Word, Stack> + PosSeek> PosSeek
    for AnsCoder<Word, State, Backend> {
    /// The backend's position and the head.
    type Position = (Backend::Position, State);
}

impl<Word: WordOf<State>, State: BitArray, Backend: Holds<Word, Stack> + Pos> Pos
    for AnsCoder<Word, State, Backend> {
    ghost stands_at = { λ coder position. Backend.stands_at coder.backend position.0
        × (State.number position.1 ≡ coder.state.head) };

    ghost can_tell = { λ coder. Backend.can_tell coder.backend };

    /// Returns the backend's position and the head.
    ///
    /// The caller proves that the backend's `pos` can return its position (`can_tell`). This always holds for vectors
    /// and cursors.
    fn pos(&self) -> (Backend::Position, State)
        requires { Backend.can_tell self.now.backend }
        ensures place { Backend.stands_at self.now.backend result.0 }
        ensures head { State.number result.1 ≡ self.now.state.head }
        ensures coder { IsCoder Word.number Backend.Holds Word.BITS State.BITS self.now }
    {
        (self.bulk.pos(), self.state)
    }
}

impl<Word: WordOf<State>, State: BitArray, Backend: Holds<Word, Stack> + Seek> Seek
    for AnsCoder<Word, State, Backend> {
    ghost can_seek = { λ coder position. Backend.can_seek coder.backend position.0 };

    ghost seek_fails = { λ coder position. Backend.seek_fails coder.backend position.0 };

    ghost sought = { λ old position new. Backend.sought old.backend position.0 new.backend
        × (new.state ≡ state_of Word.number Backend.Holds (State.number position.1) new.backend) };

    ghost stays = { λ old position new. Backend.stays old.backend position.0 new.backend
        × (new.state ≡ state_of Word.number Backend.Holds old.state.head new.backend)
        × (new.backend ≡ old.backend → new ≡ old) };

    /// Moves the coder to a recorded position: seeks in the backend, and restores the recorded head.
    ///
    /// # Errors
    ///
    /// Returns `Err(())` if the backend refuses the seek. The head is unchanged. If the refused seek leaves the backend
    /// unchanged, the coder is unchanged too.
    ///
    /// # Examples
    ///
    /// ```
    /// coder.encode_symbol(&1, &table)?;
    /// let position = coder.pos(); // (words below the head, head)
    /// coder.encode_symbol(&2, &table)?;
    /// let mut decoder = coder.as_seekable_decoder();
    /// decoder.seek(position); // Ok(())
    /// decoder.decode_symbol(&table)?; // 1
    /// ```
    fn seek(&mut self, position: (Backend::Position, State)) -> Result<(), ()>
        ensures variant { IsOk result → Backend.can_seek self.old.backend position.0 }
        ensures ok { OnOk result (Backend.sought self.old.backend position.0 self.new.backend
            × (self.new.state ≡ state_of Word.number Backend.Holds (State.number position.1) self.new.backend)) }
        ensures err { OnErr result (Backend.seek_fails self.old.backend position.0) }
        ensures kept { OnErr result (Backend.stays self.old.backend position.0 self.new.backend
            × (self.new.state.head ≡ self.old.state.head)
            × (self.new.backend ≡ self.old.backend → self.new ≡ self.old)) }
        ensures coder { IsCoder Word.number Backend.Holds Word.BITS State.BITS self.new }
    {
        let (place, state) = position;
        self.bulk.seek(place)?;
        self.state = state;
        self.low = Word::narrow(state);
        Ok(())
    }
}

impl<Word: WordOf<State>, State: BitArray, Backend: Holds<Word, Stack> + SeeksBack> SeeksBack
    for AnsCoder<Word, State, Backend> {
    ghost reach_law = { λ coder position stands. Backend.reach_law coder.backend position.0 stands.0 };

    ghost accept_law = { λ coder position stands fails. Backend.accept_law coder.backend position.0 stands.0 fails };
}
