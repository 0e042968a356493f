//! Writing the index of a store as three lists.

ghost use Rattle.std.specs.Prelude.{◌≡◌, length, map};
ghost use Rattle.constriction_store.specs.Stores.{entry_at};

use constriction_queue::RangeCoderState;
use constriction_words::{BitArray, WordOf};

/// Writes each entry of an index into a caller's three lists.
///
/// An entry's position goes to `positions`. The lower end and the length of its interval go to `lowers` and `ranges`.
/// The caller proves that each list is as long as the index.
pub fn put_index<Word: WordOf<State>, State: BitArray>(
    index: &[(usize, RangeCoderState<Word, State>, usize)],
    positions: &mut [usize],
    lowers: &mut [State],
    ranges: &mut [State],
)
    requires positions { length positions.old ≡ length index.now }
    requires lowers { length lowers.old ≡ length index.now }
    requires ranges { length ranges.old ≡ length index.now }
    ensures positions { positions.new ≡ map (λ e. e.place) (map entry_at index.now) }
    ensures lowers { map State.number lowers.new ≡ map (λ e. e.lower) (map entry_at index.now) }
    ensures ranges { map State.number ranges.new ≡ map (λ e. e.range) (map entry_at index.now) }
{
    for i in 0..index.len() {
        let (place, state, _) = index[i];
        positions[i] = place;
        lowers[i] = state.lower();
        ranges[i] = State::from_nonzero(state.range());
    }
}
