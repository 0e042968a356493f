//! Decoding lists of symbols from stack coders side by side, with one model for all.

ghost use Rattle.std.specs.Prelude.{◌≡◌, ◌*◌, ◌<◌, ◌≤◌, ℕ, drop, length, slice_index};
ghost use Rattle.constriction_base.specs.Models.{items_of};
ghost use Rattle.constriction_base.specs.Steps.{IsSizes};
ghost use Rattle.constriction_interleaved.specs.Rows.{DecodesLanes};
ghost use Rattle.constriction_stack.specs.Lanes.{lane};
ghost use Rattle.constriction_stack.specs.Symbols.{Decodes, DecodesAll};

use constriction_base::cursor::Cursor;
use constriction_base::errors::CoderError;
use constriction_base::model::{DecoderModel, EntropyModel};
use constriction_stack::coder::AnsCoder;
use constriction_stack::lanes::steps::decode_from;
use constriction_stream::decoding::Decode;
use constriction_words::{BitArray, WordOf};

/// Decodes `count` symbols with `model` from each of many coders.
///
/// Row `j` of every argument belongs to coder `j`: its head is `heads[j]`, and its words are the first `lens[j]` of the
/// `width` words from `words[j * width]` on. The call sets `heads[j]` and `lens[j]` to the state after the decodes, and
/// writes the symbols to `symbols[j * count]` and the `count - 1` places behind it.
///
/// The caller proves that `heads` and `lens` have the same length `n`, that `words` has `n * width` words, that
/// `symbols` has `n * count` places, and that no number of `lens` is above `width`. The call can't fail, because
/// decoding from an empty coder returns symbols too.
///
/// Three or four coders take their steps in turn, so that the processor overlaps the steps: groups of three, and the
/// first four coders if groups of three leave one coder. If they leave two coders, these decode one after another, as
/// an [`AnsCoder`] does. So does a single coder.
///
/// # Examples
///
/// ```
/// let table = WeightTable::<u32, 24>::new(alloc, &[8388608, 8388608])?;
/// let (mut heads, mut lens, mut symbols) = ([2u64, 1, 3, 0], [0; 4], [0; 4]);
/// decode_lanes::<u32, u64, _, 24>(&mut heads, &[], 0, &mut lens, &table, &mut symbols, 1); // symbols is [0, 0, 0, 0]
/// ```
pub fn decode_lanes<
    Word: WordOf<State>,
    State: BitArray,
    M: DecoderModel<PRECISION, Symbol = usize>,
    const PRECISION: usize,
>(
    heads: &mut [State],
    words: &[Word],
    width: usize,
    lens: &mut [usize],
    model: &M,
    symbols: &mut [usize],
    count: usize,
)
where
    M::Probability: WordOf<Word>,
    requires sizes { IsSizes Word.BITS State.BITS }
    requires words { length words.now ≡ length heads.now * width }
    requires lens { length lens.now ≡ length heads.now }
    requires symbols { length symbols.now ≡ length heads.now * count }
    requires within { (j : ℕ) → j < length lens.now → slice_index lens.now j ≤ width }
    ensures decoded { DecodesLanes Word.number State.number Word.BITS State.BITS
        record { precision = PRECISION; table = M.table model.now } width count words.now
        heads.old lens.old heads.new lens.new symbols.new (length heads.old) }
{
    let first = decode_first_four::<_, _, _, PRECISION>(
        heads, words, width, lens, model, symbols, count,
    );
    let threes = group_count(heads.len() - first, width);
    for group in 0..threes {
        let j = first + group * 3;
        decode_group::<_, _, _, PRECISION>(
            &mut heads[j..j + 3],
            &words[j * width..j * width + 3 * width],
            width,
            &mut lens[j..j + 3],
            model,
            &mut symbols[j * count..j * count + 3 * count],
            count,
        );
    }
    for j in first + threes * 3..heads.len() {
        let (head, left) = decode_one::<_, _, _, PRECISION>(
            heads[j],
            &words[j * width..j * width + width],
            lens[j],
            model,
            &mut symbols[j * count..j * count + count],
        );
        heads[j] = head;
        lens[j] = left;
    }
}

/// Decodes symbols from the first four coders, as [`decode_lanes`] does from all, if groups of three leave one coder.
///
/// Returns the number of coders whose symbols the call decoded, which is 4 or 0. It is 0 if rows have no words.
fn decode_first_four<
    Word: WordOf<State>,
    State: BitArray,
    M: DecoderModel<PRECISION, Symbol = usize>,
    const PRECISION: usize,
>(
    heads: &mut [State],
    words: &[Word],
    width: usize,
    lens: &mut [usize],
    model: &M,
    symbols: &mut [usize],
    count: usize,
) -> usize
where
    M::Probability: WordOf<Word>,
    requires sizes { IsSizes Word.BITS State.BITS }
    requires words { length words.now ≡ length heads.now * width }
    requires lens { length lens.now ≡ length heads.now }
    requires symbols { length symbols.now ≡ length heads.now * count }
    requires within { (j : ℕ) → j < length lens.now → slice_index lens.now j ≤ width }
    ensures decoded { DecodesLanes Word.number State.number Word.BITS State.BITS
        record { precision = PRECISION; table = M.table model.now } width count words.now
        heads.old lens.old heads.new lens.new symbols.new result }
    ensures kept { (drop result heads.new ≡ drop result heads.old) × (drop result lens.new ≡ drop result lens.old) }
    ensures within { result ≤ length heads.old }
{
    if width == 0 || heads.len() < 4 || heads.len() % 3 != 1 {
        return 0;
    }
    decode_group_of_four::<_, _, _, PRECISION>(
        &mut heads[..4],
        &words[..4 * width],
        width,
        &mut lens[..4],
        model,
        &mut symbols[..4 * count],
        count,
    );
    4
}

/// Returns how many groups of three coders decode by turns: as many as `n` coders make, or none if rows have no words.
fn group_count(n: usize, width: usize) -> usize
    ensures within { result * 3 ≤ n }
    ensures some { 0 < result → 0 < width }
{
    if width > 0 { n / 3 } else { 0 }
}

/// Decodes symbols from three coders, as [`decode_lanes`] does from many.
fn decode_group<
    Word: WordOf<State>,
    State: BitArray,
    M: DecoderModel<PRECISION, Symbol = usize>,
    const PRECISION: usize,
>(
    heads: &mut [State],
    words: &[Word],
    width: usize,
    lens: &mut [usize],
    model: &M,
    symbols: &mut [usize],
    count: usize,
)
where
    M::Probability: WordOf<Word>,
    requires sizes { IsSizes Word.BITS State.BITS }
    requires some { 0 < width }
    requires heads { length heads.now ≡ 3 }
    requires words { length words.now ≡ 3 * width }
    requires lens { length lens.now ≡ 3 }
    requires symbols { length symbols.now ≡ 3 * count }
    requires within { (j : ℕ) → j < length lens.now → slice_index lens.now j ≤ width }
    ensures decoded { DecodesLanes Word.number State.number Word.BITS State.BITS
        record { precision = PRECISION; table = M.table model.now } width count words.now
        heads.old lens.old heads.new lens.new symbols.new 3 }
{
    let (first, others) = symbols.split_at_mut(count);
    let (second, third) = others.split_at_mut(count);
    let (a, left_a, b, left_b, c, left_c) = decode_three::<_, _, _, PRECISION>(
        heads[0],
        &words[..width],
        lens[0],
        first,
        heads[1],
        &words[width..2 * width],
        lens[1],
        second,
        heads[2],
        &words[2 * width..],
        lens[2],
        third,
        model,
    );
    heads[0] = a;
    heads[1] = b;
    heads[2] = c;
    lens[0] = left_a;
    lens[1] = left_b;
    lens[2] = left_c;
}

/// Decodes a symbol with `model` from each of three coders in turn, until the lists of symbols are full.
///
/// The first coder has the head `head_a` and the first `len_a` words of `words_a`, and so on. The call returns the new
/// head and the number of words that are left, for each coder.
///
/// The function isn't inlined, so that its loop keeps the three coders in registers.
#[inline(never)]
fn decode_three<
    Word: WordOf<State>,
    State: BitArray,
    M: DecoderModel<PRECISION, Symbol = usize>,
    const PRECISION: usize,
>(
    head_a: State,
    words_a: &[Word],
    len_a: usize,
    symbols_a: &mut [usize],
    head_b: State,
    words_b: &[Word],
    len_b: usize,
    symbols_b: &mut [usize],
    head_c: State,
    words_c: &[Word],
    len_c: usize,
    symbols_c: &mut [usize],
    model: &M,
) -> (State, usize, State, usize, State, usize)
where
    M::Probability: WordOf<Word>,
    requires sizes { IsSizes Word.BITS State.BITS }
    requires first { (len_a ≤ length words_a.now) × (0 < length words_a.now) }
    requires second { (len_b ≤ length words_b.now) × (0 < length words_b.now) }
    requires third { (len_c ≤ length words_c.now) × (0 < length words_c.now) }
    requires count { (length symbols_b.now ≡ length symbols_a.now) × (length symbols_c.now ≡ length symbols_a.now) }
    ensures first { DecodesAll Word.BITS State.BITS
        (items_of record { precision = PRECISION; table = M.table model.now } symbols_a.new)
        (lane Word.number State.number head_a words_a.now len_a)
        (lane Word.number State.number result.0 words_a.now result.1) × (result.1 ≤ len_a) }
    ensures second { DecodesAll Word.BITS State.BITS
        (items_of record { precision = PRECISION; table = M.table model.now } symbols_b.new)
        (lane Word.number State.number head_b words_b.now len_b)
        (lane Word.number State.number result.2 words_b.now result.3) × (result.3 ≤ len_b) }
    ensures third { DecodesAll Word.BITS State.BITS
        (items_of record { precision = PRECISION; table = M.table model.now } symbols_c.new)
        (lane Word.number State.number head_c words_c.now len_c)
        (lane Word.number State.number result.4 words_c.now result.5) × (result.5 ≤ len_c) }
{
    let (mut x_a, mut left_a) = (head_a, len_a);
    let (mut x_b, mut left_b) = (head_b, len_b);
    let (mut x_c, mut left_c) = (head_c, len_c);
    for place in 0..symbols_a.len() {
        let (symbol_a, next_a, rest_a) = decode_from::<_, _, _, PRECISION>(
            x_a, words_a, left_a, model,
        );
        (x_a, left_a) = (next_a, rest_a);
        let (symbol_b, next_b, rest_b) = decode_from::<_, _, _, PRECISION>(
            x_b, words_b, left_b, model,
        );
        (x_b, left_b) = (next_b, rest_b);
        let (symbol_c, next_c, rest_c) = decode_from::<_, _, _, PRECISION>(
            x_c, words_c, left_c, model,
        );
        (x_c, left_c) = (next_c, rest_c);
        symbols_a[place] = symbol_a;
        symbols_b[place] = symbol_b;
        symbols_c[place] = symbol_c;
    }
    (x_a, left_a, x_b, left_b, x_c, left_c)
}

/// Decodes symbols from four coders, as [`decode_lanes`] does from many.
fn decode_group_of_four<
    Word: WordOf<State>,
    State: BitArray,
    M: DecoderModel<PRECISION, Symbol = usize>,
    const PRECISION: usize,
>(
    heads: &mut [State],
    words: &[Word],
    width: usize,
    lens: &mut [usize],
    model: &M,
    symbols: &mut [usize],
    count: usize,
)
where
    M::Probability: WordOf<Word>,
    requires sizes { IsSizes Word.BITS State.BITS }
    requires some { 0 < width }
    requires heads { length heads.now ≡ 4 }
    requires words { length words.now ≡ 4 * width }
    requires lens { length lens.now ≡ 4 }
    requires symbols { length symbols.now ≡ 4 * count }
    requires within { (j : ℕ) → j < length lens.now → slice_index lens.now j ≤ width }
    ensures decoded { DecodesLanes Word.number State.number Word.BITS State.BITS
        record { precision = PRECISION; table = M.table model.now } width count words.now
        heads.old lens.old heads.new lens.new symbols.new 4 }
{
    let (first, others) = symbols.split_at_mut(count);
    let (second, others) = others.split_at_mut(count);
    let (third, fourth) = others.split_at_mut(count);
    let (a, left_a, b, left_b, c, left_c, d, left_d) = decode_four::<_, _, _, PRECISION>(
        heads[0],
        &words[..width],
        lens[0],
        first,
        heads[1],
        &words[width..2 * width],
        lens[1],
        second,
        heads[2],
        &words[2 * width..3 * width],
        lens[2],
        third,
        heads[3],
        &words[3 * width..],
        lens[3],
        fourth,
        model,
    );
    heads[0] = a;
    heads[1] = b;
    heads[2] = c;
    heads[3] = d;
    lens[0] = left_a;
    lens[1] = left_b;
    lens[2] = left_c;
    lens[3] = left_d;
}

/// Decodes a symbol with `model` from each of four coders in turn, until the lists of symbols are full.
///
/// The arguments and the result are those of [`decode_three`], for one coder more.
#[inline(never)]
fn decode_four<
    Word: WordOf<State>,
    State: BitArray,
    M: DecoderModel<PRECISION, Symbol = usize>,
    const PRECISION: usize,
>(
    head_a: State,
    words_a: &[Word],
    len_a: usize,
    symbols_a: &mut [usize],
    head_b: State,
    words_b: &[Word],
    len_b: usize,
    symbols_b: &mut [usize],
    head_c: State,
    words_c: &[Word],
    len_c: usize,
    symbols_c: &mut [usize],
    head_d: State,
    words_d: &[Word],
    len_d: usize,
    symbols_d: &mut [usize],
    model: &M,
) -> (State, usize, State, usize, State, usize, State, usize)
where
    M::Probability: WordOf<Word>,
    requires sizes { IsSizes Word.BITS State.BITS }
    requires first { (len_a ≤ length words_a.now) × (0 < length words_a.now) }
    requires second { (len_b ≤ length words_b.now) × (0 < length words_b.now) }
    requires third { (len_c ≤ length words_c.now) × (0 < length words_c.now) }
    requires fourth { (len_d ≤ length words_d.now) × (0 < length words_d.now) }
    requires count { (length symbols_b.now ≡ length symbols_a.now) × (length symbols_c.now ≡ length symbols_a.now)
        × (length symbols_d.now ≡ length symbols_a.now) }
    ensures first { DecodesAll Word.BITS State.BITS
        (items_of record { precision = PRECISION; table = M.table model.now } symbols_a.new)
        (lane Word.number State.number head_a words_a.now len_a)
        (lane Word.number State.number result.0 words_a.now result.1) × (result.1 ≤ len_a) }
    ensures second { DecodesAll Word.BITS State.BITS
        (items_of record { precision = PRECISION; table = M.table model.now } symbols_b.new)
        (lane Word.number State.number head_b words_b.now len_b)
        (lane Word.number State.number result.2 words_b.now result.3) × (result.3 ≤ len_b) }
    ensures third { DecodesAll Word.BITS State.BITS
        (items_of record { precision = PRECISION; table = M.table model.now } symbols_c.new)
        (lane Word.number State.number head_c words_c.now len_c)
        (lane Word.number State.number result.4 words_c.now result.5) × (result.5 ≤ len_c) }
    ensures fourth { DecodesAll Word.BITS State.BITS
        (items_of record { precision = PRECISION; table = M.table model.now } symbols_d.new)
        (lane Word.number State.number head_d words_d.now len_d)
        (lane Word.number State.number result.6 words_d.now result.7) × (result.7 ≤ len_d) }
{
    let (mut x_a, mut left_a) = (head_a, len_a);
    let (mut x_b, mut left_b) = (head_b, len_b);
    let (mut x_c, mut left_c) = (head_c, len_c);
    let (mut x_d, mut left_d) = (head_d, len_d);
    for place in 0..symbols_a.len() {
        let (symbol_a, next_a, rest_a) = decode_from::<_, _, _, PRECISION>(
            x_a, words_a, left_a, model,
        );
        (x_a, left_a) = (next_a, rest_a);
        let (symbol_b, next_b, rest_b) = decode_from::<_, _, _, PRECISION>(
            x_b, words_b, left_b, model,
        );
        (x_b, left_b) = (next_b, rest_b);
        let (symbol_c, next_c, rest_c) = decode_from::<_, _, _, PRECISION>(
            x_c, words_c, left_c, model,
        );
        (x_c, left_c) = (next_c, rest_c);
        let (symbol_d, next_d, rest_d) = decode_from::<_, _, _, PRECISION>(
            x_d, words_d, left_d, model,
        );
        (x_d, left_d) = (next_d, rest_d);
        symbols_a[place] = symbol_a;
        symbols_b[place] = symbol_b;
        symbols_c[place] = symbol_c;
        symbols_d[place] = symbol_d;
    }
    (x_a, left_a, x_b, left_b, x_c, left_c, x_d, left_d)
}

/// Decodes symbols with `model` from one coder, until the list of symbols is full.
///
/// The coder has the head `head` and the first `len` words of `words`. The call returns the new head and the number of
/// words that are left.
#[inline(never)]
fn decode_one<
    Word: WordOf<State>,
    State: BitArray,
    M: DecoderModel<PRECISION, Symbol = usize>,
    const PRECISION: usize,
>(head: State, words: &[Word], len: usize, model: &M, symbols: &mut [usize]) -> (State, usize)
where
    M::Probability: WordOf<Word>,
    requires sizes { IsSizes Word.BITS State.BITS }
    requires within { len ≤ length words.now }
    ensures decoded { DecodesAll Word.BITS State.BITS
        (items_of record { precision = PRECISION; table = M.table model.now } symbols.new)
        (lane Word.number State.number head words.now len)
        (lane Word.number State.number result.0 words.now result.1) }
    ensures rest { result.1 ≤ len }
{
    let mut coder: AnsCoder<Word, State, Cursor<Word, &[Word]>> = AnsCoder::from_raw_parts(
        Cursor::new_at_write_end(&words[..len]),
        head,
    );
    for place in 0..symbols.len() {
        symbols[place] = decode_next(&mut coder, model);
    }
    let (cursor, new_head) = coder.into_raw_parts();
    let (_, left) = cursor.into_buf_and_pos();
    (new_head, left)
}

/// Decodes a symbol with `model`. The call can't fail, because reading from a cursor never fails.
#[inline]
fn decode_next<
    'a,
    Word: WordOf<State>,
    State: BitArray,
    M: DecoderModel<PRECISION, Symbol = usize>,
    const PRECISION: usize,
>(coder: &mut AnsCoder<Word, State, Cursor<Word, &'a [Word]>>, model: &M) -> usize
where
    M::Probability: WordOf<Word>,
    ensures decoded { Decodes Word.BITS State.BITS record { precision = PRECISION; table = M.table model.now }
        result coder.old.state coder.new.state }
    ensures buffer { coder.new.backend.buf.now ≡ coder.old.backend.buf.now }
{
    match coder.decode_symbol(model) {
        Ok(symbol) => symbol,
        Err(CoderError::Frontend(never)) => match never {},
        Err(CoderError::Backend(never)) => match never {},
    }
}
